//! Shows a list of clashes section by section, each as soon as it is found.
ghost use Rattle.std.specs.Prelude.{◌≡◌, ◌≢◌, [], IsErrOf, OnOk};
ghost use Rattle.brl_answers.specs.declared.run_fault.RunFault.TheVariants as faults;
ghost use Rattle.brl_clashes.specs.Finding.{IfKnown, IsPlan};
ghost use Rattle.brl_clashes.specs.Sections.{AreClashesOf, clashes_of as clashes_in};
ghost use Rattle.brl_clashes.specs.Showing.{AreTexts, IsTally, IsText, Shows, ShowsSection, asked_of, firsts_in, kept_by};

use crate::Section;
use crate::accepted::left_of;
use crate::clashes_text::head_text;
use crate::kind::{kept_characters, section_kinds};
use crate::list_request::{ListRequest, Plan};
use crate::representatives::Firsts;
use crate::section::{clashes_of, copies_of, is_whole};
use crate::section_text::section_text;
use crate::sections::find_section;
use crate::sets::plain_characters;
use crate::tally::Tally;
use brl_answers::RunFault;
use brl_progress::Progress;
use brl_search::ClashList;
use brl_stream::Output;
use std::alloc::Global;

/// Writes a list of clashes up to its verdict: sections with every pair at which clashing texts
/// diverge, without the excused ones; or up to the limit. Each section is written when it is found,
/// after what comes before all of them. The last section is that of all texts, or one that isn't
/// whole, since more states, pairs or pairs of rules than the limit were found. Answers what is
/// kept of the sections. The observer hears which section is searched.
///
/// `OutputFailed` where the text can't be written, and `Memory` if memory runs out: then some first
/// bytes of it may have been written.
pub fn show_list<O: Output, P: Progress>(
    alloc: Global,
    asked: ListRequest<'_>,
    out: &mut O,
    progress: &mut P,
) -> Result<Tally, RunFault>
    ensures shows { Shows IsText (asked_of asked.entry) (O.contents out.old) (O.contents out.new) result }
    ensures cause { IsErrOf result faults.OutputFailed → O.failures out.new ≢ O.failures out.old }
    ensures calm { OnOk result (O.failures out.new ≡ O.failures out.old) }
{
    let kept = kept_characters(alloc, asked.table, asked.left_out)?;
    let plain = plain_characters(alloc, asked.table, kept)?;
    let plain = plain.as_slice();
    let head = head_text(alloc, asked.table, asked.lines, asked.form, plain)?;
    let firsts = Firsts::of(alloc, asked.table, plain)?;
    out.put(head.as_bytes())?;
    show_after_head(alloc, asked, &firsts, out, progress)
}

/// Shows the sections of a list after what comes before them.
fn show_after_head<O: Output, P: Progress>(
    alloc: Global,
    asked: ListRequest<'_>,
    firsts: &Firsts,
    out: &mut O,
    progress: &mut P,
) -> Result<Tally, RunFault>
    requires { firsts.now ≡ firsts_in (asked_of asked) }
    ensures shows { Shows AreTexts (asked_of asked.entry) (O.contents out.old) (O.contents out.new) result }
    ensures cause { IsErrOf result faults.OutputFailed → O.failures out.new ≢ O.failures out.old }
    ensures calm { OnOk result (O.failures out.new ≡ O.failures out.old) }
{
    let kept = kept_characters(alloc, asked.table, asked.left_out)?;
    let kept = kept.as_slice();
    let kinds = section_kinds(alloc, asked.table, kept)?;
    let plan = Plan {
        asked,
        kept,
        kinds: kinds.as_slice(),
        firsts,
    };
    show_sections(alloc, plan, out, progress)
}

/// Finds and shows the sections of a list.
fn show_sections<O: Output, P: Progress>(
    alloc: Global,
    plan: Plan<'_>,
    out: &mut O,
    progress: &mut P,
) -> Result<Tally, RunFault>
    requires { IsPlan plan }
    ensures shows { Shows AreTexts (asked_of plan.entry.asked) (O.contents out.old) (O.contents out.new) result }
    ensures cause { IsErrOf result faults.OutputFailed → O.failures out.new ≢ O.failures out.old }
    ensures calm { OnOk result (O.failures out.new ≡ O.failures out.old) }
{
    let mut tally = Tally::new(alloc);
    let mut all = None;
    show_each(alloc, plan, &mut tally, &mut all, out, progress)?;
    Ok(tally)
}

/// Finds and shows the sections of a list, one after the other, and notes them. The list of all
/// texts is kept where it is found early.
fn show_each<O: Output, P: Progress>(
    alloc: Global,
    plan: Plan<'_>,
    tally: &mut Tally,
    all: &mut Option<ClashList>,
    out: &mut O,
    progress: &mut P,
) -> Result<(), RunFault>
    requires plan { IsPlan plan }
    requires tally { IsTally [] [] tally.old }
    requires all { IfKnown (asked_of plan.asked) all.old }
    ensures shows { Shows AreTexts (asked_of plan.entry.asked) (O.contents out.old) (O.contents out.new) (kept_by tally.new result) }
    ensures cause { IsErrOf result faults.OutputFailed → O.failures out.new ≢ O.failures out.old }
    ensures calm { OnOk result (O.failures out.new ≡ O.failures out.old) }
{
    let mut known = Vec::new(alloc);
    for place in 0..plan.kinds.len() {
        let section = find_section(alloc, plan, place, known, all, progress)?;
        known = copies_of(alloc, plan.asked.table, clashes_of(&section.found))?;
        let whole = is_whole(&section.found);
        show_section(alloc, plan, section, tally, out)?;
        if !whole {
            return Ok(());
        }
    }
    Ok(())
}

/// Shows what is left of a section beside what is excused, and notes both.
fn show_section<O: Output>(
    alloc: Global,
    plan: Plan<'_>,
    section: Section,
    tally: &mut Tally,
    out: &mut O,
) -> Result<(), RunFault>
    requires firsts { plan.firsts.now ≡ firsts_in (asked_of plan.asked) }
    requires clashes { AreClashesOf plan.asked.table.now (clashes_in section.found) }
    ensures shows { ShowsSection (asked_of plan.entry.asked) section tally.old tally.new (O.contents out.old) (O.contents out.new) result }
    ensures cause { IsErrOf result faults.OutputFailed → O.failures out.new ≢ O.failures out.old }
    ensures calm { OnOk result (O.failures out.new ≡ O.failures out.old) }
{
    let Plan { asked, firsts, .. } = plan;
    tally.find(alloc, &section)?;
    let count = clashes_of(&section.found).len();
    let left = left_of(asked.excused, section);
    let taken = clashes_of(&left.found).len() < count;
    tally.keep(&left);
    let text = section_text(alloc, asked, firsts, taken, &mut tally.left, left)?;
    out.put(text.as_bytes())?;
    Ok(())
}

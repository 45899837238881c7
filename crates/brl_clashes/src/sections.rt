//! The sections of a table's list of clashes, and how each is found.
ghost use Rattle.std.specs.Prelude.{◌≡◌, ◌<◌, ◌≤◌, ◌&&◌, [], All, IfOk, OnOk, Some, false, length, slice_get, true};
ghost use Rattle.std.specs.Option.{option_map_or};
ghost use Rattle.brl_clashes.specs.Finding.{AreKnownAt, IfKnown, IsOfAll, IsPlan};
ghost use Rattle.brl_clashes.specs.Kinds.{left_out_in};
ghost use Rattle.brl_clashes.specs.Sections.{AreListed, IsSection, clashes_of as clashes_in, is_whole as has_all, lists_none as has_none};
ghost use Rattle.brl_clashes.specs.Showing.{asked_of};
ghost use Rattle.brl_search.specs.Clashes.{AreClashes, IsRuleClash};
ghost use Rattle.brl_without.specs.Tables.{IsUnambiguousWithout};

use crate::Kind;
use crate::kind::left_out_and;
use crate::list_request::{ListRequest, Plan};
use crate::section::{Section, is_whole, lists_none};
use brl_pairs::{Body, Members, Seed};
use brl_progress::Progress;
use brl_search::{ClashList, RuleClash, clashes};
use brl_without::LeftOut;
use std::alloc::{AllocError, Global};

/// Finds the section at a place: the pairs of rules at which clashing texts diverge, for the texts
/// of small letters and blanks, and then with digits, with capitals, with marks, and for all. There
/// is a section for each kind that the table has a character of.
///
/// The known clashes are those of the section before it, which aren't searched again. Where there
/// are none, the list of all texts, the last section, is found first and kept: where that has
/// nothing either, no others are searched.
pub(crate) fn find_section<P: Progress>(
    alloc: Global,
    plan: Plan<'_>,
    place: usize,
    known: Vec<RuleClash>,
    all: &mut Option<ClashList>,
    progress: &mut P,
) -> Result<Section, AllocError>
    requires plan { IsPlan plan }
    requires place { place < length plan.kinds.now }
    requires known { AreKnownAt (asked_of plan.asked) place known.items }
    requires all { IfKnown (asked_of plan.asked) all.old }
    ensures section { IfOk result (IsSection plan.entry.asked.table.now plan.entry.asked.left_out.now plan.entry.asked.limit place) }
    ensures all { OnOk result (IfKnown (asked_of plan.entry.asked) all.new) }
{
    let kind = kind_at(plan.kinds, place);
    if place + 1 == plan.kinds.len() {
        let found = find_all(alloc, plan, all.take(), known, progress)?;
        return Ok(Section { kind, found });
    }
    let none_before = known.is_empty();
    if none_before && place > 0 {
        *all = Some(find_all(alloc, plan, all.take(), Vec::new(alloc), progress)?);
    }
    let none = is_none(all);
    let found = found_at(alloc, plan, place, none, known, progress)?;
    Ok(Section { kind, found })
}

/// The list of all texts, which may be found already.
fn find_all<P: Progress>(
    alloc: Global,
    plan: Plan<'_>,
    all: Option<ClashList>,
    known: Vec<RuleClash>,
    progress: &mut P,
) -> Result<ClashList, AllocError>
    requires some { 0 < length plan.kinds.now }
    requires all { IfKnown (asked_of plan.asked) all }
    requires known { All (IsRuleClash plan.asked.left_out.now plan.asked.table.now) known.items }
    requires few { length known.items ≤ plan.asked.limit }
    ensures { IfOk result (IsOfAll (asked_of plan.entry.asked)) }
{
    let kind = kind_at(plan.kinds, plan.kinds.len() - 1);
    match all {
        Some(all) => Ok(all),
        None => search(
            alloc,
            plan.asked,
            kind,
            plan.asked.left_out,
            known,
            progress,
        ),
    }
}

/// The clashes of the texts that use none of some characters. Those that are known aren't searched
/// again. Progress is reported under the name of this kind.
fn search<P: Progress>(
    alloc: Global,
    asked: ListRequest<'_>,
    kind: Kind,
    without: &LeftOut,
    known: Vec<RuleClash>,
    progress: &mut P,
) -> Result<ClashList, AllocError>
    requires known { All (IsRuleClash without.now asked.table.now) known.items }
    requires few { length known.items ≤ asked.limit }
    ensures { IfOk result (AreClashes without.now asked.entry.table.now asked.entry.limit) }
{
    progress.begin(kind.name());
    let found = clashes(
        alloc,
        asked.table,
        u64::from(asked.limit),
        without,
        known,
        progress,
    );
    progress.end();
    found
}

/// What is found for the texts of the kinds up to that at a place, which isn't the last one.
/// Nothing is searched where it is known that no two texts clash.
fn found_at<P: Progress>(
    alloc: Global,
    plan: Plan<'_>,
    place: usize,
    none: bool,
    known: Vec<RuleClash>,
    progress: &mut P,
) -> Result<ClashList, AllocError>
    requires plan { IsPlan plan }
    requires place { place < length plan.kinds.now }
    requires known { AreKnownAt (asked_of plan.asked) place known.items }
    requires none { none ≡ true → IsUnambiguousWithout plan.asked.left_out.now plan.asked.table.now }
    ensures { IfOk result (AreListed (left_out_in plan.entry.asked.table.now plan.entry.asked.left_out.now place) plan.entry.asked.table.now plan.entry.asked.limit) }
{
    if none {
        return Ok(no_clashes(alloc));
    }
    let asked = plan.asked;
    let later = &plan.kinds[place + 1..];
    let without = left_out_and(alloc, asked.table, asked.left_out, later, plan.kept)?;
    search(
        alloc,
        asked,
        kind_at(plan.kinds, place),
        &without,
        known,
        progress,
    )
}

/// The kind at a place.
fn kind_at(kinds: &[Kind], place: usize) -> Kind
    requires { place < length kinds.now }
    ensures { slice_get kinds.now place ≡ Some result }
{
    kinds[place]
}

/// Whether all texts are known to have no clash.
fn is_none(all: &Option<ClashList>) -> bool
    ensures { result ≡ option_map_or (λ found. has_all found && has_none found) all.now false }
{
    match all {
        Some(found) => is_empty(found),
        None => false,
    }
}

/// Whether a list is whole and has no pair of rules.
fn is_empty(found: &ClashList) -> bool
    ensures { result ≡ (has_all found.now && has_none found.now) }
{
    is_whole(found) && lists_none(found)
}

/// A whole list of nothing.
fn no_clashes(alloc: Global) -> ClashList
    ensures whole { has_all result ≡ true }
    ensures none { clashes_in result ≡ [] }
{
    let seed = Seed::of(&[]);
    ClashList::Complete {
        list: Vec::new(alloc),
        body: Body::new(Members::new(alloc, seed), Members::new(alloc, seed)),
    }
}

//! The text of a section.
ghost use Rattle.std.specs.Prelude.{◌≡◌, ◌++◌, IfOk, OnOk, flat_map, length, map, string_bytes};
ghost use Rattle.std.specs.List.Sorted.{IsPermutation, IsSorted};
ghost use Rattle.brl_clashes.specs.Order.{suspicion_cmp};
ghost use Rattle.brl_clashes.specs.SectionText.{
  ArePairLines,
  IsBody,
  IsSectionText,
  clash_lines,
  first_ones as first_clashes,
  heading as heading_of,
  heading_in as heading_of_form,
  is_by_kinds as is_by_kinds_in,
  is_shown as is_shown_in,
  more_note as note_of_more,
  number_line,
  rule_clash_line,
  shown_among,
  shown_lines,
};
ghost use Rattle.brl_clashes.specs.Columns.{column_line};
ghost use Rattle.brl_clashes.specs.declared.list_form.ListForm.TheVariants.{Screen};
ghost use Rattle.brl_clashes.specs.Sections.{AreClashesOf, clashes_beside, clashes_of, listed_after};
ghost use Rattle.brl_lines.specs.Views.{line_view};
ghost use Rattle.brl_search.specs.Clashes.{rules_of_clashes};

use crate::columns::push_columns;
use crate::list_request::ListRequest;
use crate::listed_pairs::ListedPairs;
use crate::order::compare_clashes;
use crate::pair_tests::kind_of;
use crate::representatives::{Firsts, is_represented};
use crate::screen::kind_lines;
use crate::section::{into_clashes, is_whole};
use crate::verdict::{others_note, pairs_words};
use crate::{Kind, ListForm, Section};
use brl_lines::Line;
use brl_report::push_clash_line;
use brl_rules::Table;
use brl_search::RuleClash;
use std::alloc::{AllocError, Global};

/// A table with its lines, the own definitions that represent others, and the pairs of rules that
/// are listed.
#[derive(Clone, Copy)]
pub struct Listing<'a> {
    pub alloc: Global,
    pub table: &'a Table,
    pub lines: &'a [Line<'a>],
    pub firsts: &'a Firsts,
    pub listed: &'a ListedPairs,
}

/// The text of a section after sections that list these pairs of rules, to which its own are
/// added: how many new ones it lists, and their lines: of pairs, or of kinds of pairs. `taken` says
/// whether accepted pairs were left out of it.
pub fn section_text(
    alloc: Global,
    asked: ListRequest<'_>,
    firsts: &Firsts,
    taken: bool,
    listed: &mut ListedPairs,
    section: Section,
) -> Result<String, AllocError>
    requires { AreClashesOf asked.table.now (clashes_of section.found) }
    ensures text { IfOk result (λ text. IsSectionText asked.entry.table.now (map line_view asked.entry.lines.now) firsts.now asked.entry.form taken listed.old section (string_bytes text)) }
    ensures listed { OnOk result (listed.new ≡ listed_after listed.old section) }
{
    let Section { kind, found } = section;
    let whole = is_whole(&found);
    let more = listed.len() > 0;
    let new = new_clashes(listed, into_clashes(found));
    let count = new.len();
    push_rules(listed, new.as_slice())?;
    let listing = Listing {
        alloc,
        table: asked.table,
        lines: asked.lines,
        firsts,
        listed,
    };
    let mut text = heading_in(alloc, asked.form, taken, kind, count, more, whole)?;
    let body = body(listing, asked.form, kind, new)?;
    text.push_str(body.as_str())?;
    Ok(text)
}

/// The lines of a section after its heading: those of its new clashes, or of their kinds.
fn body(
    listing: Listing<'_>,
    form: ListForm<'_>,
    kind: Kind,
    new: Vec<RuleClash>,
) -> Result<String, AllocError>
    requires { AreClashesOf listing.table.now new.items }
    ensures { IfOk result (λ text. IsBody listing.entry.table.now (map line_view listing.entry.lines.now) listing.entry.firsts.now listing.entry.listed.now form.entry kind new.items (string_bytes text)) }
{
    if is_by_kinds(listing, form, new.as_slice()) {
        kind_lines(listing, kind, new)
    } else {
        pair_lines(listing, form, kind, new)
    }
}

/// Whether these new clashes of a section are shown by their kinds.
fn is_by_kinds(listing: Listing<'_>, form: ListForm<'_>, new: &[RuleClash]) -> bool
    ensures { result ≡ is_by_kinds_in form.entry listing.entry.table.now listing.entry.firsts.now listing.entry.listed.now new.now }
{
    match form {
        ListForm::Screen => shown_count(listing, new) > MOST_LINES,
        ListForm::Pairs { .. } | ListForm::Columns { .. } => false,
    }
}

/// The most clashes of a section that all have a line, where nothing else is asked for.
const MOST_LINES: usize = 12;

/// How many of these clashes no other line represents.
fn shown_count(listing: Listing<'_>, new: &[RuleClash]) -> usize
    ensures { result ≡ length (shown_among Screen listing.entry.table.now listing.entry.firsts.now listing.entry.listed.now new.now) }
{
    new.iter()
        .filter(|clash| is_shown(listing, ListForm::Screen, clash))
        .count()
}

/// The lines of these clashes.
fn pair_lines(
    listing: Listing<'_>,
    form: ListForm<'_>,
    kind: Kind,
    new: Vec<RuleClash>,
) -> Result<String, AllocError>
    requires { AreClashesOf listing.table.now new.items }
    ensures { IfOk result (λ text. ArePairLines listing.entry.table.now (map line_view listing.entry.lines.now) listing.entry.firsts.now listing.entry.listed.now form.entry kind new.items (string_bytes text)) }
{
    let count = new.len();
    let shown = in_order(shown_clashes(listing, form, new));
    let mut text = String::new(listing.alloc);
    push_shown(listing, form, kind, count, shown.as_slice(), &mut text)?;
    Ok(text)
}

/// Appends the lines of these clashes in a form; `count` is the number of new ones.
fn push_shown(
    listing: Listing<'_>,
    form: ListForm<'_>,
    kind: Kind,
    count: usize,
    shown: &[RuleClash],
    text: &mut String,
) -> Result<(), AllocError>
    requires { AreClashesOf listing.table.now shown.now }
    ensures { OnOk result (string_bytes text.new ≡ string_bytes text.old
        ++ shown_lines listing.entry.table.now (map line_view listing.entry.lines.now) listing.entry.firsts.now listing.entry.listed.now form.entry kind count shown.now) }
{
    match form {
        ListForm::Columns { .. } => push_all_columns(listing, kind, shown, text),
        _ => push_clashes(listing, form, count, shown, text),
    }
}

/// Appends the lines of these clashes as columns.
fn push_all_columns(
    listing: Listing<'_>,
    kind: Kind,
    shown: &[RuleClash],
    text: &mut String,
) -> Result<(), AllocError>
    ensures { OnOk result (string_bytes text.new ≡ string_bytes text.old
        ++ flat_map (column_line listing.entry.table.now (map line_view listing.entry.lines.now) listing.entry.firsts.now listing.entry.listed.now kind) shown.now) }
{
    for clash in shown {
        push_columns(listing, kind, clash, text)?;
    }
    Ok(())
}

/// The clashes whose pairs of rules aren't listed yet.
pub(crate) fn new_clashes(listed: &ListedPairs, clashes: Vec<RuleClash>) -> Vec<RuleClash>
    ensures { result.items ≡ clashes_beside listed.now clashes.items }
{
    let mut new = clashes;
    new.retain(|clash| !listed.contains((clash.lesser, clash.greater)));
    new
}

/// Lists the pairs of rules of these clashes.
fn push_rules(listed: &mut ListedPairs, clashes: &[RuleClash]) -> Result<(), AllocError>
    ensures { OnOk result (listed.new ≡ listed.old ++ rules_of_clashes clashes.now) }
{
    for clash in clashes {
        listed.push((clash.lesser, clash.greater))?;
    }
    Ok(())
}

/// Whether a clash has a line.
fn is_shown(listing: Listing<'_>, form: ListForm<'_>, clash: &RuleClash) -> bool
    ensures { result ≡ is_shown_in form.entry listing.entry.table.now listing.entry.firsts.now listing.entry.listed.now clash.now }
{
    let Listing {
        table,
        firsts,
        listed,
        ..
    } = listing;
    match form {
        ListForm::Columns { key: None } => true,
        ListForm::Pairs { key: Some(key), .. } | ListForm::Columns { key: Some(key) } => {
            kind_of(table, firsts, listed, clash).key() == key
        }
        _ => !is_represented(table, firsts.own.as_slice(), listed, clash),
    }
}

/// The clashes among these that have a line.
fn shown_clashes(
    listing: Listing<'_>,
    form: ListForm<'_>,
    clashes: Vec<RuleClash>,
) -> Vec<RuleClash>
    ensures { result.items ≡ shown_among form.entry listing.entry.table.now listing.entry.firsts.now listing.entry.listed.now clashes.items }
{
    let mut shown = clashes;
    shown.retain(|clash| is_shown(listing, form, clash));
    shown
}

/// These clashes, the most suspicious first.
pub(crate) fn in_order(clashes: Vec<RuleClash>) -> Vec<RuleClash>
    ensures moved { IsPermutation clashes.items result.items }
    ensures sorted { IsSorted suspicion_cmp result.items }
{
    let mut sorted = clashes;
    sorted.sort_unstable_by(|one, other| compare_clashes(one, other));
    sorted
}

/// The first line of a section in a form; columns have none.
fn heading_in(
    alloc: Global,
    form: ListForm<'_>,
    taken: bool,
    kind: Kind,
    count: usize,
    more: bool,
    whole: bool,
) -> Result<String, AllocError>
    ensures { IfOk result (λ text. string_bytes text ≡ heading_of_form form.entry taken kind count more whole) }
{
    match form {
        ListForm::Columns { .. } => Ok(String::new(alloc)),
        _ => heading(alloc, taken, kind, count, more, whole),
    }
}

/// The first line of a section.
fn heading(
    alloc: Global,
    taken: bool,
    kind: Kind,
    count: usize,
    more: bool,
    whole: bool,
) -> Result<String, AllocError>
    ensures { IfOk result (λ text. string_bytes text ≡ heading_of taken kind count more whole) }
{
    let name = kind.name();
    let more = more_note(more);
    let pairs = pairs_words(count);
    let others = others_note(taken, whole);
    format!(in alloc; "{name}: {count}{more}{pairs}{others}\n")
}

/// The words after the number of pairs of rules where earlier sections list some.
fn more_note(more: bool) -> &'static str
    ensures { result.now ≡ note_of_more more }
{
    if more { " more" } else { "" }
}

/// Appends the lines of the first of these clashes, how many more there are, and how many of a
/// number of clashes aren't among these.
fn push_clashes(
    listing: Listing<'_>,
    form: ListForm<'_>,
    count: usize,
    shown: &[RuleClash],
    text: &mut String,
) -> Result<(), AllocError>
    requires { AreClashesOf listing.table.now shown.now }
    ensures { OnOk result (string_bytes text.new ≡ string_bytes text.old ++ clash_lines listing.entry.table.now (map line_view listing.entry.lines.now) form.entry count shown.now) }
{
    let Listing {
        alloc,
        table,
        lines,
        ..
    } = listing;
    let begun = first_ones(form.first(), shown);
    push_lines(alloc, table, lines, begun, text)?;
    push_number(text, shown.len().saturating_sub(begun.len()), " more")?;
    let others = count.saturating_sub(shown.len());
    push_number(text, others, form.others())?;
    Ok(())
}

/// The first of these clashes; 0 means all.
fn first_ones(first: usize, clashes: &[RuleClash]) -> &[RuleClash]
    ensures { result.now ≡ first_clashes first clashes.now }
{
    if first == 0 {
        return clashes;
    }
    clashes.get(..first).unwrap_or(clashes)
}

/// Appends the lines of these clashes.
fn push_lines(
    alloc: Global,
    table: &Table,
    lines: &[Line<'_>],
    clashes: &[RuleClash],
    text: &mut String,
) -> Result<(), AllocError>
    requires { AreClashesOf table.now clashes.now }
    ensures { OnOk result (string_bytes text.new ≡ string_bytes text.old ++ flat_map (rule_clash_line table.now (map line_view lines.now)) clashes.now) }
{
    for clash in clashes {
        let rules = (clash.lesser, clash.greater);
        push_clash_line(alloc, table, lines, &clash.clash, rules, text)?;
    }
    Ok(())
}

/// Appends a line with a number and words after it; none for 0.
fn push_number(text: &mut String, number: usize, words: &str) -> Result<(), AllocError>
    ensures { OnOk result (string_bytes text.new ≡ string_bytes text.old ++ number_line number words.now) }
{
    if number == 0 {
        return Ok(());
    }
    text.push_str("  ")?;
    write!(text, "{number}")?;
    text.push_str(words)?;
    text.push('\n')
}

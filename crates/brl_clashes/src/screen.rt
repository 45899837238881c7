//! A section of a list of clashes by the kinds of its pairs of rules.
ghost use Rattle.std.specs.Prelude.{◌≡◌, ◌++◌, IfOk, OnOk, drop, flat_map, map, string_bytes, take};
ghost use Rattle.brl_clashes.specs.PairKinds.{kind_of as kind_of_clash};
ghost use Rattle.brl_clashes.specs.Screen.{
  AreKindLines,
  IsByKinds,
  count_of as count_of_kind,
  counts_line,
  example_kinds as kinds_with_examples,
  hidden_kinds as kinds_without_examples,
  key_count,
  kind_line,
  most_kinds as most_kinds_of,
  number_column,
  present as present_among,
};

use crate::examples::{Examples, examples_of};
use crate::pair_tests::kind_of;
use crate::section_text::{Listing, in_order};
use crate::{Kind, PairKind};
use brl_search::RuleClash;
use std::alloc::{AllocError, Global};
use std::marker::Model;

/// The kinds that may have a line with examples, those first that are wrong most often.
fn example_kinds() -> [PairKind; 9]
    ensures { result ≡ kinds_with_examples }
{
    [
        PairKind::Alike,
        PairKind::Rules,
        PairKind::Cells,
        PairKind::Case,
        PairKind::Several,
        PairKind::Begins,
        PairKind::Word,
        PairKind::AsDigit,
        PairKind::Number,
    ]
}

/// The kinds that have no examples.
fn hidden_kinds() -> [PairKind; 4]
    ensures { result ≡ kinds_without_examples }
{
    [
        PairKind::Sets,
        PairKind::Again,
        PairKind::Unseen,
        PairKind::Braille,
    ]
}

/// The most kinds that have a line in the section of a kind of characters.
fn most_kinds(section: Kind) -> usize
    ensures { result ≡ most_kinds_of section }
{
    match section {
        Kind::Letter | Kind::Digit => 9,
        Kind::Capital | Kind::Mark => 4,
        Kind::Other => 0,
    }
}

/// How many of these kinds are a kind.
fn count_of(kinds: &[PairKind], kind: PairKind) -> usize
    ensures { result ≡ count_of_kind kinds.now kind }
{
    kinds.iter().filter(|other| kind.is(**other)).count()
}

/// The kinds among some that these pairs are of.
fn present(
    alloc: Global,
    kinds: &[PairKind],
    some: &[PairKind],
) -> Result<Vec<PairKind>, AllocError>
    ensures { IfOk result (λ found. found.items ≡ present_among kinds.now some.now) }
{
    let mut found = Vec::from_slice(alloc, some)?;
    found.retain(|kind| count_of(kinds, *kind) > 0);
    Ok(found)
}

/// The first of these kinds, which have a line in the section of a kind of characters.
fn lined(section: Kind, present: &[PairKind]) -> &[PairKind]
    ensures { result.now ≡ take (most_kinds_of section) present.now }
{
    present.get(..most_kinds(section)).unwrap_or(present)
}

/// The others of these kinds.
fn unlined(section: Kind, present: &[PairKind]) -> &[PairKind]
    ensures { result.now ≡ drop (most_kinds_of section) present.now }
{
    present.get(most_kinds(section)..).unwrap_or_default()
}

/// A kind and its examples.
#[derive(Drop)]
struct KindLine {
    kind: PairKind,
    examples: String,
}

impl Model for KindLine {
    ghost use Rattle.std.specs.Prelude.{string_bytes};
    ghost use Rattle.brl_clashes.specs.Screen.{KindLineView};

    ghost Value = { KindLineView };

    ghost view = { λ l. record { kind = l.kind; examples = string_bytes l.examples } };
}

/// The kinds of these clashes.
fn kinds_of(listing: Listing<'_>, clashes: &[RuleClash]) -> Result<Vec<PairKind>, AllocError>
    ensures { IfOk result (λ kinds. kinds.items ≡ map (kind_of_clash listing.entry.table.now listing.entry.firsts.now listing.entry.listed.now) clashes.now) }
{
    clashes
        .iter()
        .map(|clash| kind_of(listing.table, listing.firsts, listing.listed, clash))
        .collect(listing.alloc)
}

/// The lines of these kinds, with examples among these clashes.
fn lines_of(examples: Examples<'_>, lined: &[PairKind]) -> Result<Vec<KindLine>, AllocError>
    ensures { IfOk result (λ lines. map (λ line. line.kind) lines.items ≡ lined.now) }
{
    let mut lines = Vec::new(examples.listing.alloc);
    for kind in lined {
        lines.push(KindLine {
            kind: *kind,
            examples: examples_of(examples, *kind)?,
        })?;
    }
    Ok(lines)
}

/// The lines of the new clashes of a section by their kinds: one for each of the first kinds that
/// have examples, one for the others of these, and one for the kinds that have none.
pub fn kind_lines(
    listing: Listing<'_>,
    section: Kind,
    new: Vec<RuleClash>,
) -> Result<String, AllocError>
    ensures { IfOk result (λ text. AreKindLines listing.entry.table.now listing.entry.firsts.now listing.entry.listed.now section new.items (string_bytes text)) }
{
    let sorted = in_order(new);
    let kinds = kinds_of(listing, sorted.as_slice())?;
    lines_by_kinds(
        Examples {
            listing,
            clashes: sorted.as_slice(),
            kinds: kinds.as_slice(),
        },
        section,
    )
}

/// The lines of the kinds of clashes, with examples among these.
fn lines_by_kinds(examples: Examples<'_>, section: Kind) -> Result<String, AllocError>
    ensures { IfOk result (λ text. IsByKinds section examples.entry.kinds.now (string_bytes text)) }
{
    let alloc = examples.listing.alloc;
    let kinds = examples.kinds;
    let found = present(alloc, kinds, example_kinds().as_slice())?;
    let hidden = present(alloc, kinds, hidden_kinds().as_slice())?;
    let lines = lines_of(examples, lined(section, found.as_slice()))?;
    let mut text = String::new(alloc);
    push_lines(alloc, kinds, lines.as_slice(), &mut text)?;
    push_counts(kinds, unlined(section, found.as_slice()), &mut text)?;
    push_counts(kinds, hidden.as_slice(), &mut text)?;
    Ok(text)
}

/// Appends the lines of kinds.
fn push_lines(
    alloc: Global,
    kinds: &[PairKind],
    lines: &[KindLine],
    text: &mut String,
) -> Result<(), AllocError>
    ensures { OnOk result (string_bytes text.new ≡ string_bytes text.old ++ flat_map (kind_line kinds.now) lines.now) }
{
    for line in lines {
        push_line(alloc, kinds, line, text)?;
    }
    Ok(())
}

/// Appends the line of a kind.
fn push_line(
    alloc: Global,
    kinds: &[PairKind],
    line: &KindLine,
    text: &mut String,
) -> Result<(), AllocError>
    ensures { OnOk result (string_bytes text.new ≡ string_bytes text.old ++ kind_line kinds.now line.now) }
{
    push_number(alloc, count_of(kinds, line.kind), text)?;
    text.push_str("  ")?;
    text.push_str(line.kind.title())?;
    text.push_str(": ")?;
    text.push_str(line.examples.as_str())?;
    text.push('\n')
}

/// Appends a number at the end of a column of seven characters.
fn push_number(alloc: Global, number: usize, text: &mut String) -> Result<(), AllocError>
    ensures { OnOk result (string_bytes text.new ≡ string_bytes text.old ++ number_column number) }
{
    let digits = format!(in alloc; "{number}")?;
    let blanks = " ".repeat(alloc, 7usize.saturating_sub(digits.len()))?;
    text.push_str(blanks.as_str())?;
    text.push_str(digits.as_str())
}

/// Appends the line of kinds that have none of their own. There is none where there are no such
/// kinds.
fn push_counts(kinds: &[PairKind], others: &[PairKind], text: &mut String) -> Result<(), AllocError>
    ensures { OnOk result (string_bytes text.new ≡ string_bytes text.old ++ counts_line kinds.now others.now) }
{
    if others.is_empty() {
        return Ok(());
    }
    text.push_str("       ")?;
    push_key_counts(kinds, others, text)?;
    text.push('\n')
}

/// Appends how many of some kinds are each of others, and the keys of these.
fn push_key_counts(
    kinds: &[PairKind],
    others: &[PairKind],
    text: &mut String,
) -> Result<(), AllocError>
    ensures { OnOk result (string_bytes text.new ≡ string_bytes text.old ++ flat_map (key_count kinds.now) others.now) }
{
    for kind in others {
        push_key_count(kinds, *kind, text)?;
    }
    Ok(())
}

/// Appends how many of these kinds are a kind, and its key.
fn push_key_count(kinds: &[PairKind], kind: PairKind, text: &mut String) -> Result<(), AllocError>
    ensures { OnOk result (string_bytes text.new ≡ string_bytes text.old ++ key_count kinds.now kind) }
{
    let count = count_of(kinds, kind);
    text.push_str("  ")?;
    write!(text, "{count}")?;
    text.push(' ')?;
    text.push_str(kind.key())
}

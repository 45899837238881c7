//! What a line of a file of pairs of rules names.
ghost use Rattle.std.specs.Prelude.{◌≡◌, [], IfOk, None, Some, find, map, not};
ghost use Rattle.std.specs.List.{list_any};
ghost use Rattle.std.specs.Option.{option_copied};
ghost use Rattle.brl_accepted.specs.Reading.{
  are_unlisted as are_unlisted_in,
  fault_of_pairs as fault_of_some,
  fault_of_set as fault_of_characters,
  is_note as is_note_line,
  named_by as named_by_line,
  named_by_seen as named_by_seen_line,
  unless as unless_fault,
};
ghost use Rattle.brl_accepted.specs.Words.{IsIndexed, list_of, named_view, names_read};
ghost use Rattle.brl_lines.specs.Tokens.{is_gap as is_gap_mark};
ghost use Rattle.brl_pairs.specs.Divergence.{has_rules};

use crate::fault::ExcuseFaultKind;
use crate::index::{Index, pairs_of_line};
use crate::reading::Nameable;
use crate::sets::{are_in_one_set, is_exchange, named_set};
use brl_lines::visible_line;
use brl_pairs::RulePairs;
use std::alloc::{AllocError, Global};

/// What a line names: pairs of rules, or characters of a set; or its fault, and neither.
#[derive(Drop)]
pub(crate) struct Named {
    pub pairs: Vec<(u32, u32)>,
    pub set: Vec<char>,
    pub fault: Option<ExcuseFaultKind>,
}

/// What the lines of a file may name, and what it is looked up by.
#[derive(Clone, Copy)]
pub(crate) struct Reader<'i, 'w, 'a> {
    pub known: Nameable<'a>,
    /// What each rule says.
    pub words: &'w [String],
    pub index: &'i Index<'w>,
    /// A line is stale that names none of these, where they are given.
    pub list: Option<&'a RulePairs>,
}

/// What a line names.
pub(crate) fn named_by(
    alloc: Global,
    reader: Reader<'_, '_, '_>,
    row: &str,
) -> Result<Named, AllocError>
    requires { IsIndexed reader }
    ensures { IfOk result (λ named. named_view named ≡ named_by_line (names_read reader.entry) (list_of reader.entry) row.now) }
{
    if is_note(row) {
        return Ok(Named {
            pairs: Vec::new(alloc),
            set: Vec::new(alloc),
            fault: None,
        });
    }
    let seen = visible_line(alloc, row)?;
    named_by_seen(alloc, reader, seen.as_str())
}

/// What a line names that is no note, in which what can't be seen is spelled.
fn named_by_seen(alloc: Global, reader: Reader<'_, '_, '_>, row: &str) -> Result<Named, AllocError>
    requires { IsIndexed reader }
    ensures { IfOk result (λ named. named_view named ≡ named_by_seen_line (names_read reader.entry) (list_of reader.entry) row.now) }
{
    let mut named = Named {
        pairs: Vec::new(alloc),
        set: Vec::new(alloc),
        fault: None,
    };
    if is_exchange(row) {
        named.set = named_set(alloc, row)?;
        let fault = fault_of_set(reader.known.sets, named.set.as_slice());
        return Ok(unless(alloc, fault, named));
    }
    named.pairs = pairs_of_line(alloc, reader.index, row)?;
    let fault = fault_of_pairs(reader.list, named.pairs.as_slice());
    Ok(unless(alloc, fault, named))
}

/// What a line names, unless it has a fault.
fn unless(alloc: Global, fault: Option<ExcuseFaultKind>, named: Named) -> Named
    ensures { named_view result ≡ unless_fault fault (named_view named) }
{
    match fault {
        Some(_) => Named {
            pairs: Vec::new(alloc),
            set: Vec::new(alloc),
            fault,
        },
        None => named,
    }
}

/// The fault of the line of a set with these characters, if it has one.
fn fault_of_set(sets: &[Vec<char>], set: &[char]) -> Option<ExcuseFaultKind>
    ensures { result ≡ fault_of_characters (map (λ set. set.items) sets.now) set.now }
{
    if are_in_one_set(sets, set) {
        return None;
    }
    Some(ExcuseFaultKind::NoSuchSet)
}

/// The fault of the line of these pairs of rules, if it has one.
fn fault_of_pairs(list: Option<&RulePairs>, pairs: &[(u32, u32)]) -> Option<ExcuseFaultKind>
    ensures { result ≡ fault_of_some (option_copied list.entry) pairs.now }
{
    if pairs.is_empty() {
        return Some(ExcuseFaultKind::NoSuchRules);
    }
    if are_unlisted(list, pairs) {
        return Some(ExcuseFaultKind::NotListed);
    }
    None
}

/// Whether a list is given, and has none of these pairs.
fn are_unlisted(list: Option<&RulePairs>, pairs: &[(u32, u32)]) -> bool
    ensures { result ≡ are_unlisted_in (option_copied list.entry) pairs.now }
{
    match list {
        Some(listed) => !has_any(listed, pairs),
        None => false,
    }
}

/// Whether one of these pairs is listed.
fn has_any(listed: &RulePairs, pairs: &[(u32, u32)]) -> bool
    ensures { result ≡ list_any (λ pair. has_rules listed.now pair.0 pair.1) pairs.now }
{
    pairs.iter().any(|pair| listed.has(pair.0, pair.1))
}

/// Whether a mark is a blank or a tab.
fn is_gap(mark: u8) -> bool
    ensures { result ≡ is_gap_mark mark }
{
    mark == b' ' || mark == b'\t'
}

/// The first mark of a line that is no blank and no tab.
fn first_mark(row: &[u8]) -> Option<u8>
    ensures { result ≡ find (λ mark. not (is_gap_mark mark)) row.now }
{
    row.iter().copied().find(|mark| !is_gap(*mark))
}

/// Whether a line is a comment or blank.
fn is_note(row: &str) -> bool
    ensures { result ≡ is_note_line row.now }
{
    match first_mark(row.as_bytes()) {
        Some(mark) => mark == b'#',
        None => true,
    }
}

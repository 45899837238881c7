//! Lines of sets of characters whose steps may be exchanged.
ghost use Rattle.std.specs.Prelude.{◌≡◌, ◌++◌, IfOk, OnOk, map, string_bytes};
ghost use Rattle.std.specs.List.{list_any};
ghost use Rattle.brl_accepted.specs.Sets.{
  are_characters_of,
  are_in_one_set as are_in_one_of,
  greater_pairs,
  is_exchange as is_exchange_line,
  is_within as is_within_set,
  named_set as set_of_line,
  ordered_pairs as pairs_in_order,
  pairs_of_sets as pairs_in_sets,
  set_count,
  set_line as line_of_set,
  set_pairs as pairs_of_set,
};
ghost use Rattle.brl_report.specs.Rules.{own_number as number_of_own};

use brl_failure::Failure;
use brl_lines::{chars_of, spell_visibly};
use brl_report::own_number;
use brl_rules::Table;
use std::alloc::{AllocError, Global};

/// How the line of a set begins.
const EXCHANGE: &str = "exchange ";

/// Whether a line begins as that of a set.
pub(crate) fn is_exchange(row: &str) -> bool
    ensures { result ≡ is_exchange_line row.now }
{
    row.starts_with(EXCHANGE)
}

/// The characters that the line of a set names; none of another line, and where they are badly
/// spelled.
pub(crate) fn named_set(alloc: Global, row: &str) -> Result<Vec<char>, AllocError>
    ensures { IfOk result (λ set. set.items ≡ set_of_line row.now) }
{
    let Some(operand) = row.strip_prefix(EXCHANGE) else {
        return Ok(Vec::new(alloc));
    };
    match chars_of(alloc, operand) {
        Ok(characters) => Ok(characters),
        Err(Failure::Fault(_)) => Ok(Vec::new(alloc)),
        Err(Failure::Memory) => Err(AllocError),
    }
}

/// Whether all of some characters are in a set.
fn is_within(set: &[char], characters: &[char]) -> bool
    ensures { result ≡ is_within_set set.now characters.now }
{
    characters.iter().all(|c| set.contains(c))
}

/// Whether all of some characters are in one of these sets.
fn are_within_one(sets: &[Vec<char>], characters: &[char]) -> bool
    ensures { result ≡ list_any (λ set. is_within_set set characters.now) (map (λ set. set.items) sets.now) }
{
    sets.iter().any(|set| is_within(set.as_slice(), characters))
}

/// Whether these are two characters or more that are in one of these sets.
pub(crate) fn are_in_one_set(sets: &[Vec<char>], characters: &[char]) -> bool
    ensures { result ≡ are_in_one_of (map (λ set. set.items) sets.now) characters.now }
{
    characters.len() > 1 && are_within_one(sets, characters)
}

/// Appends the pairs of a number and each of these that is greater.
fn push_greater(numbers: &[u32], number: u32, pairs: &mut Vec<(u32, u32)>) -> Result<(), AllocError>
    ensures { OnOk result (pairs.new.items ≡ pairs.old.items ++ greater_pairs numbers.now number) }
{
    for other in numbers {
        if number < *other {
            pairs.push((number, *other))?;
        }
    }
    Ok(())
}

/// Appends the pairs of two of these numbers, the lesser first.
fn push_ordered(numbers: &[u32], pairs: &mut Vec<(u32, u32)>) -> Result<(), AllocError>
    ensures { OnOk result (pairs.new.items ≡ pairs.old.items ++ pairs_in_order numbers.now) }
{
    for number in numbers {
        push_greater(numbers, *number, pairs)?;
    }
    Ok(())
}

/// The numbers of the own definitions of characters of a table.
fn own_numbers(alloc: Global, table: &Table, set: &[char]) -> Result<Vec<u32>, AllocError>
    ensures { IfOk result (λ numbers. numbers.items ≡ map (number_of_own table.now) set.now) }
{
    set.iter().map(|c| own_number(table, *c)).collect(alloc)
}

/// Appends the pairs of the own definitions of a set of characters of a table.
pub(crate) fn push_set_pairs(
    alloc: Global,
    table: &Table,
    set: &[char],
    pairs: &mut Vec<(u32, u32)>,
) -> Result<(), AllocError>
    ensures { OnOk result (pairs.new.items ≡ pairs.old.items ++ pairs_of_set table.now set.now) }
{
    let numbers = own_numbers(alloc, table, set)?;
    push_ordered(numbers.as_slice(), pairs)
}

/// The pairs of own definitions of some sets of characters.
pub(crate) fn pairs_of_sets(
    alloc: Global,
    table: &Table,
    sets: &[Vec<char>],
) -> Result<Vec<(u32, u32)>, AllocError>
    ensures { IfOk result (λ pairs. pairs.items ≡ pairs_in_sets table.now (map (λ set. set.items) sets.now)) }
{
    let mut pairs = Vec::new(alloc);
    for set in sets {
        push_set_pairs(alloc, table, set.as_slice(), &mut pairs)?;
    }
    Ok(pairs)
}

/// Whether these are two characters or more of a set.
fn are_some_of(set: &[char], characters: &[char]) -> bool
    ensures { result ≡ are_characters_of set.now characters.now }
{
    characters.len() > 1 && is_within(set, characters)
}

/// Whether two characters or more of a set are one of these lists of characters.
fn is_named(set: &[char], named: &[Vec<char>]) -> bool
    ensures { result ≡ list_any (are_characters_of set.now) (map (λ characters. characters.items) named.now) }
{
    named
        .iter()
        .any(|characters| are_some_of(set, characters.as_slice()))
}

/// Of how many of these sets one of these lists has two characters or more.
pub(crate) fn count_sets(sets: &[Vec<char>], named: &[Vec<char>]) -> usize
    ensures { result ≡ set_count (map (λ set. set.items) sets.now) (map (λ characters. characters.items) named.now) }
{
    sets.iter()
        .filter(|set| is_named(set.as_slice(), named))
        .count()
}

/// The line of a set of characters, without its end.
pub(crate) fn set_line(alloc: Global, set: &[char]) -> Result<String, AllocError>
    ensures { IfOk result (λ text. string_bytes text ≡ line_of_set set.now) }
{
    let spelled = spell_visibly(alloc, set)?;
    format!(in alloc; "exchange {spelled}")
}

//! The text of a file of pairs of rules.
ghost use Rattle.std.specs.Prelude.{◌≡◌, ◌++◌, ◌∷◌, [], IfOk, OnOk, filter, map, string_bytes};
ghost use Rattle.brl_accepted.specs.Reading.{names_of};
ghost use Rattle.brl_accepted.specs.Writing.{
  accepted_text,
  is_listed_set as is_listed_set_in,
  listed_sets as sets_that_are_listed,
  pairs_beside as pairs_that_are_beside,
  sets_text as text_of_sets,
  whole_set_line,
};

use crate::reading::Nameable;
use crate::sets::{pairs_of_sets, push_set_pairs, set_line};
use crate::words::{wording, write_pairs};
use brl_pairs::RulePairs;
use brl_rules::Table;
use std::alloc::{AllocError, Global};

/// The text of a file that names listed pairs of a table's rules: a line for each set of characters
/// that has one, then one for each other pair. A set has the pairs of the own definitions of two of
/// its characters. A line of a pair has what the rules say.
///
/// Every line ends with LF. `AllocError` if memory runs out.
pub fn write_accepted(
    alloc: Global,
    known: Nameable<'_>,
    listed: &[(u32, u32)],
) -> Result<String, AllocError>
    ensures { let names = names_of known.entry in IfOk result (λ text. string_bytes text ≡ accepted_text names.table names.words names.sets listed.now) }
{
    let words = wording(alloc, known.table, known.lines)?;
    let all = RulePairs::new(alloc, Vec::from_slice(alloc, listed)?)?;
    let sets = listed_sets(alloc, known.table, known.sets, &all)?;
    let pairs = pairs_beside(alloc, known.table, sets.as_slice(), listed)?;
    let mut text = sets_text(alloc, sets.as_slice())?;
    text.push_str(write_pairs(alloc, words.as_slice(), pairs.as_slice())?.as_str())?;
    Ok(text)
}

/// The sets of characters that have a listed pair of own definitions.
fn listed_sets(
    alloc: Global,
    table: &Table,
    sets: &[Vec<char>],
    listed: &RulePairs,
) -> Result<Vec<Vec<char>>, AllocError>
    ensures { IfOk result (λ found. map (λ set. set.items) found.items ≡ sets_that_are_listed table.now (map (λ set. set.items) sets.now) listed.now) }
{
    let mut found = Vec::new(alloc);
    for set in sets {
        push_listed(alloc, table, set.as_slice(), listed, &mut found)?;
    }
    Ok(found)
}

/// Appends a set where a pair of its own definitions is among these.
fn push_listed(
    alloc: Global,
    table: &Table,
    set: &[char],
    listed: &RulePairs,
    found: &mut Vec<Vec<char>>,
) -> Result<(), AllocError>
    ensures { OnOk result (map (λ set. set.items) found.new.items
        ≡ map (λ set. set.items) found.old.items ++ filter (is_listed_set_in table.now listed.now) (set.now ∷ [])) }
{
    if is_listed_set(alloc, table, set, listed)? {
        found.push(Vec::from_slice(alloc, set)?)?;
    }
    Ok(())
}

/// Whether a pair of own definitions of a set of characters is among these.
fn is_listed_set(
    alloc: Global,
    table: &Table,
    set: &[char],
    listed: &RulePairs,
) -> Result<bool, AllocError>
    ensures { IfOk result (λ is. is ≡ is_listed_set_in table.now listed.now set.now) }
{
    let mut pairs = Vec::new(alloc);
    push_set_pairs(alloc, table, set, &mut pairs)?;
    Ok(pairs.iter().any(|pair| listed.has(pair.0, pair.1)))
}

/// The listed pairs that are of none of these sets of characters.
fn pairs_beside(
    alloc: Global,
    table: &Table,
    sets: &[Vec<char>],
    listed: &[(u32, u32)],
) -> Result<Vec<(u32, u32)>, AllocError>
    ensures { IfOk result (λ pairs. pairs.items ≡ pairs_that_are_beside table.now (map (λ set. set.items) sets.now) listed.now) }
{
    let of_sets = RulePairs::new(alloc, pairs_of_sets(alloc, table, sets)?)?;
    let mut pairs = Vec::from_slice(alloc, listed)?;
    pairs.retain(|pair| !of_sets.has(pair.0, pair.1));
    Ok(pairs)
}

/// The lines of these sets of characters.
fn sets_text(alloc: Global, sets: &[Vec<char>]) -> Result<String, AllocError>
    ensures { IfOk result (λ text. string_bytes text ≡ text_of_sets (map (λ set. set.items) sets.now)) }
{
    let mut text = String::new(alloc);
    for set in sets {
        push_set_line(alloc, set.as_slice(), &mut text)?;
    }
    Ok(text)
}

/// Appends the line of a set of characters.
fn push_set_line(alloc: Global, set: &[char], text: &mut String) -> Result<(), AllocError>
    ensures { OnOk result (string_bytes text.new ≡ string_bytes text.old ++ whole_set_line set.now) }
{
    text.push_str(set_line(alloc, set)?.as_str())?;
    text.push('\n')
}

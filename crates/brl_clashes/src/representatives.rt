//! The rules that represent others in a list of clashes.
ghost use Rattle.std.specs.Prelude.{◌≡◌, IfOk};
ghost use Rattle.brl_rules.specs.Text.{fold_of};
ghost use Rattle.brl_clashes.specs.Sets.{
  first_number as number_of_first,
  first_of_set as first_in_set,
  firsts_of,
  in_order as pair_in_order,
  is_folded as is_folded_by,
  is_represented as is_represented_in,
  own_character as own_character_of,
  representative as representative_of,
};

use crate::listed_pairs::ListedPairs;
use crate::sets::{first_among, small_letter};
use brl_report::own_number;
use brl_rules::Table;
use brl_search::RuleClash;
use brl_without::table_characters;
use std::alloc::{AllocError, Global};
use std::marker::Model;

/// For each character of a table, by its number, the number of the own definition that represents
/// its own. A contract sees the two lists.
#[derive(Drop)]
pub struct Firsts {
    /// The number of the first of its set.
    pub own: Vec<u32>,
    /// The number of what represents its small letter.
    pub small: Vec<u32>,
}

impl Model for Firsts {
    ghost use Rattle.brl_clashes.specs.Sets.{FirstsView};

    ghost Value = { FirstsView };

    ghost view = { λ f. record { own = f.own.items; small = f.small.items } };
}

impl Firsts {
    /// The numbers for a table, where these characters have sets.
    pub fn of(alloc: Global, table: &Table, characters: &[char]) -> Result<Firsts, AllocError>
        ensures { IfOk result (λ firsts. firsts ≡ firsts_of table.now characters.now) }
    {
        let own = own_firsts(alloc, table, characters)?;
        let small = small_firsts(alloc, table, characters)?;
        Ok(Firsts { own, small })
    }
}

/// For each character of a table the number of the own definition that represents its own.
fn own_firsts(alloc: Global, table: &Table, characters: &[char]) -> Result<Vec<u32>, AllocError>
    ensures { IfOk result (λ firsts. firsts.items ≡ (firsts_of table.now characters.now).own) }
{
    let all = table_characters(alloc, table)?;
    all.iter()
        .map(|c| first_number(table, characters, *c))
        .collect(alloc)
}

/// For each character of a table the number of the own definition that represents that of its small
/// letter.
fn small_firsts(alloc: Global, table: &Table, characters: &[char]) -> Result<Vec<u32>, AllocError>
    ensures { IfOk result (λ firsts. firsts.items ≡ (firsts_of table.now characters.now).small) }
{
    let all = table_characters(alloc, table)?;
    all.iter()
        .map(|c| small_number(table, characters, *c))
        .collect(alloc)
}

/// The character whose own definition has a number.
pub fn own_character(table: &Table, number: u32) -> Option<char>
    ensures { result ≡ own_character_of table.now number }
{
    table.law();
    let rules = table.rules_in_rank().len() as u32;
    if number < rules {
        return None;
    }
    let place = number - rules;
    if place as usize >= table.char_count() {
        return None;
    }
    Some(table.char_at(place))
}

/// The character that represents one: where it is one of these, the first of its set.
fn first_of_set(table: &Table, characters: &[char], character: char) -> char
    ensures { result ≡ first_in_set table.now characters.now character }
{
    if !characters.contains(&character) {
        return character;
    }
    first_among(table, characters, character)
}

/// The number of the own definition that represents that of a character.
fn first_number(table: &Table, characters: &[char], character: char) -> u32
    ensures { result ≡ number_of_first table.now characters.now character }
{
    own_number(table, first_of_set(table, characters, character))
}

/// The number of the own definition that represents that of the small letter of a character.
fn small_number(table: &Table, characters: &[char], character: char) -> u32
    ensures { result ≡ number_of_first table.now characters.now (fold_of table.now character) }
{
    first_number(table, characters, small_letter(table, character))
}

/// The rule that represents the one with a number.
fn representative(table: &Table, firsts: &[u32], number: u32) -> u32
    ensures { result ≡ representative_of table.now firsts.now number }
{
    let rules = table.rules_in_rank().len() as u32;
    if number < rules {
        return number;
    }
    let place = (number - rules) as usize;
    firsts.get(place).copied().unwrap_or(number)
}

/// Two rules with the lesser number first.
fn in_order(one: u32, other: u32) -> (u32, u32)
    ensures { result ≡ pair_in_order one other }
{
    if one <= other {
        (one, other)
    } else {
        (other, one)
    }
}

/// Whether another line represents the clash at two rules, which these two represent.
fn is_folded(listed: &ListedPairs, rules: (u32, u32), first: (u32, u32)) -> bool
    ensures { result ≡ is_folded_by listed.now rules first }
{
    if rules == first {
        return false;
    }
    rules.0 != rules.1 && first.0 == first.1 || listed.contains(in_order(first.0, first.1))
}

/// Whether another line represents a clash of a table, where these own definitions represent
/// others.
pub fn is_represented(
    table: &Table,
    firsts: &[u32],
    listed: &ListedPairs,
    clash: &RuleClash,
) -> bool
    ensures { result ≡ is_represented_in table.now firsts.now listed.now clash.now }
{
    let first = (
        representative(table, firsts, clash.lesser),
        representative(table, firsts, clash.greater),
    );
    is_folded(listed, (clash.lesser, clash.greater), first)
}

//! A law of the definitions: the function's contract is the law. Its body changes nothing: it only
//! reads the characters of the sets, by which it is known that they are scalar values, so that a
//! line of them is read back.
ghost use Rattle.std.specs.Prelude.{◌≡◌, ℕ, All, Bool, List, map, true};
ghost use Rattle.std.specs.Str.{all_scalars};
ghost use Rattle.brl_accepted.specs.Reading.{AreOfTable, IsReadBack, names_of};
ghost use Rattle.brl_accepted.specs.Writing.{accepted_text};

use crate::reading::Nameable;
use brl_rules::{Rule, Table};

/// What is written for listed pairs of a table's rules has no stale line, and excuses each of
/// these, where these are the table's sets of characters.
pub fn read_back_law(known: Nameable<'_>)
    ensures { let names = names_of known.entry in (listed : List (ℕ × ℕ)) (whole : Bool) → All (AreOfTable names.table) listed
        → IsReadBack names listed whole (accepted_text names.table names.words names.sets listed) }
{
    sets_law(known.sets);
    rules_law(known.table);
    own_law(known.table);
}

/// The characters of a table's rules are scalar values of Unicode.
fn rules_law(table: &Table)
    ensures { All (λ rule. all_scalars rule.chars ≡ true) table.now.rules }
{
    rule_characters_law(table.rules_in_rank());
}

/// The characters of each of these rules are Unicode scalar values.
fn rule_characters_law(rules: &[Rule])
    ensures { All (λ rule. all_scalars rule.chars ≡ true) rules.now }
{
    for rule in rules {
        characters_law(rule.chars.as_slice());
    }
}

/// So are the characters that a table defines.
fn own_law(table: &Table)
    ensures { all_scalars (map (λ entry. entry.0) table.now.characters) ≡ true }
{
    for place in 0..table.char_count() as u32 {
        let _read = table.char_at(place);
    }
}

/// The items of sets of characters are scalar values of Unicode.
fn sets_law(sets: &[Vec<char>])
    ensures { All (λ set. all_scalars set.items ≡ true) sets.now }
{
    for set in sets {
        characters_law(set.as_slice());
    }
}

/// Characters are scalar values of Unicode: each of them that is read is known to be one.
fn characters_law(characters: &[char])
    ensures { all_scalars characters.now ≡ true }
{
    for character in characters {
        let _read = *character;
    }
}

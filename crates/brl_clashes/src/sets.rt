//! Sets of characters that a table treats as one.
ghost use Rattle.std.specs.Prelude.{◌≡◌, ◌++◌, [], IfOk, OnOk, filter, find, flat_map, map, string_bytes};
ghost use Rattle.std.specs.Fmt.{decimal};
ghost use Rattle.brl_clashes.specs.ClashesText.{dots_of as dots, set_line, sets_heading as heading_of_sets, sets_in as sets_in_form, sets_text as text_of_sets};
ghost use Rattle.brl_clashes.specs.Sets.{
  are_equal as are_equal_in,
  first_among as first_of_characters,
  have_same as have_same_parts,
  is_plain as is_plain_in,
  openers as openers_among,
  opens_set as opens_set_among,
  plain,
  rule_characters as characters_of_rules,
  set_among,
  sets_of_table,
};
ghost use Rattle.brl_rules.specs.Text.{fold_of as fold_in};

use crate::ListForm;
use crate::kind::kept_characters;
use brl_answers::spell_one_by_one;
use brl_cells::write_dots;
use brl_rules::{Info, Table};
use brl_without::LeftOut;
use std::alloc::{AllocError, Global};

/// The characters of a table that aren't left out, that no rule has, and that are their own folds.
pub fn plain_characters(
    alloc: Global,
    table: &Table,
    kept: Vec<char>,
) -> Result<Vec<char>, AllocError>
    ensures { IfOk result (λ characters. characters.items ≡ filter (is_plain_in table.now) kept.items) }
{
    let used = rule_characters(alloc, table)?;
    let mut characters = kept;
    characters.retain(|c| is_plain(table, &used, *c));
    Ok(characters)
}

/// The characters of a table's rules, to be looked up.
fn rule_characters(alloc: Global, table: &Table) -> Result<LeftOut, AllocError>
    ensures { IfOk result (λ characters. characters ≡ characters_of_rules table.now) }
{
    let mut characters = Vec::new(alloc);
    for rule in table.rules_in_rank() {
        characters.extend_from_slice(rule.chars.as_slice())?;
    }
    LeftOut::new(alloc, characters)
}

/// Whether a character is none of those of a table's rules, and its own fold.
fn is_plain(table: &Table, used: &LeftOut, character: char) -> bool
    requires { used.now ≡ characters_of_rules table.now }
    ensures { result ≡ is_plain_in table.now character }
{
    !used.contains(character) && small_letter(table, character) == character
}

/// The small letter of a capital of a table, and any other character itself.
pub fn small_letter(table: &Table, character: char) -> char
    ensures { result ≡ fold_in table.now character }
{
    match table.info(character) {
        Some(info) => info.fold,
        None => character,
    }
}

/// Whether two infos have the same cells, classes and flags.
fn have_same(one: &Info, other: &Info) -> bool
    ensures { result ≡ have_same_parts one.now other.now }
{
    one.cells.as_slice() == other.cells.as_slice()
        && one.classes.0 == other.classes.0
        && one.literary == other.literary
        && one.mode == other.mode
        && one.nocont == other.nocont
}

/// Whether two characters of a table have the same cells, classes and flags.
fn are_equal(table: &Table, one: char, other: char) -> bool
    ensures { result ≡ are_equal_in table.now one other }
{
    match (table.info(one), table.info(other)) {
        (Some(x), Some(y)) => have_same(x, y),
        _ => false,
    }
}

/// The set of a character among these: those with the same cells, classes and flags.
fn set_of(
    alloc: Global,
    table: &Table,
    characters: &[char],
    character: char,
) -> Result<Vec<char>, AllocError>
    ensures { IfOk result (λ set. set.items ≡ set_among table.now characters.now character) }
{
    let mut set = Vec::from_slice(alloc, characters)?;
    set.retain(|other| are_equal(table, character, *other));
    Ok(set)
}

/// The first of these characters that is in the set of one, if there is one.
fn find_equal(table: &Table, characters: &[char], character: char) -> Option<char>
    ensures { result ≡ find (are_equal_in table.now character) characters.now }
{
    characters
        .iter()
        .copied()
        .find(|other| are_equal(table, character, *other))
}

/// The first of these characters that is in the set of one; where none is, the character.
pub fn first_among(table: &Table, characters: &[char], character: char) -> char
    ensures { result ≡ first_of_characters table.now characters.now character }
{
    find_equal(table, characters, character).unwrap_or(character)
}

/// Whether a character is the first of a set of two or more of these.
#[tactic(auto, unfolding(crate::specs::Sets::opens_set))]
fn opens_set(table: &Table, characters: &[char], character: char) -> bool
    ensures { result ≡ opens_set_among table.now characters.now character }
{
    let count = characters
        .iter()
        .filter(|other| are_equal(table, character, **other))
        .count();
    count > 1 && first_among(table, characters, character) == character
}

/// The characters of a table that no rule has and that are their own folds.
fn all_plain(alloc: Global, table: &Table) -> Result<Vec<char>, AllocError>
    ensures { IfOk result (λ characters. characters.items ≡ plain table.now []) }
{
    let left_out = LeftOut::none(alloc);
    let kept = kept_characters(alloc, table, &left_out)?;
    plain_characters(alloc, table, kept)
}

/// The sets of two or more characters of a table that it treats as one: they have the same cells,
/// classes and flags, and are in no rule.
pub fn character_sets(alloc: Global, table: &Table) -> Result<Vec<Vec<char>>, AllocError>
    ensures { IfOk result (λ sets. map (λ set. set.items) sets.items ≡ sets_of_table table.now) }
{
    let plain = all_plain(alloc, table)?;
    let openers = openers(alloc, table, plain.as_slice())?;
    sets_opened(alloc, table, plain.as_slice(), openers.as_slice())
}

/// The sets that some characters open among these.
fn sets_opened(
    alloc: Global,
    table: &Table,
    characters: &[char],
    openers: &[char],
) -> Result<Vec<Vec<char>>, AllocError>
    ensures { IfOk result (λ sets. map (λ set. set.items) sets.items ≡ map (set_among table.now characters.now) openers.now) }
{
    let mut sets = Vec::new(alloc);
    for character in openers {
        sets.push(set_of(alloc, table, characters, *character)?)?;
    }
    Ok(sets)
}

/// The most sets that have lines where pairs are shown by their kinds.
const MOST_SETS: usize = 3;

/// The lines of the sets of two or more of these characters of a table in a form, after how many
/// there are; the characters are those that aren't left out and that no rule has. Empty where there
/// are none, and one line where pairs are shown by their kinds and there are many.
pub fn sets_in(
    alloc: Global,
    form: ListForm<'_>,
    table: &Table,
    characters: &[char],
) -> Result<String, AllocError>
    ensures { IfOk result (λ text. string_bytes text ≡ sets_in_form form.entry table.now characters.now) }
{
    let openers = openers(alloc, table, characters)?;
    let count = openers.len();
    match form {
        ListForm::Screen if count > MOST_SETS => counted(alloc, count, HIDDEN_SETS),
        ListForm::Columns { .. } => Ok(String::new(alloc)),
        _ => sets_text(alloc, table, characters, openers.as_slice()),
    }
}

/// The lines of the sets that these characters open, after how many there are.
fn sets_text(
    alloc: Global,
    table: &Table,
    characters: &[char],
    openers: &[char],
) -> Result<String, AllocError>
    requires { openers.now ≡ openers_among table.now characters.now }
    ensures { IfOk result (λ text. string_bytes text ≡ text_of_sets table.now characters.now) }
{
    let mut text = sets_heading(alloc, openers.len())?;
    push_sets(alloc, table, characters, openers, &mut text)?;
    Ok(text)
}

/// The characters that are the first of a set of two or more.
fn openers(alloc: Global, table: &Table, characters: &[char]) -> Result<Vec<char>, AllocError>
    ensures { IfOk result (λ openers. openers.items ≡ openers_among table.now characters.now) }
{
    let mut openers = Vec::from_slice(alloc, characters)?;
    openers.retain(|c| opens_set(table, characters, *c));
    Ok(openers)
}

/// The line before that of one set.
const ONE_SET: &str =
    "1 set of characters has the same cells, classes and flags, and is in no rule; below, its first represents it:\n";

/// What follows the number of sets.
const SETS: &str =
    " sets of characters have the same cells, classes and flags, and are in no rule; below, the first of each represents its set:\n";

/// What follows the number of sets that have no lines.
const HIDDEN_SETS: &str =
    " sets of characters have the same cells, classes and flags, in no rule; --first 0 lists them\n";

/// The line before the lines of this many sets; empty where there are none.
fn sets_heading(alloc: Global, count: usize) -> Result<String, AllocError>
    ensures { IfOk result (λ text. string_bytes text ≡ heading_of_sets count) }
{
    if count == 0 {
        return Ok(String::new(alloc));
    }
    if count == 1 {
        return String::from_str(alloc, ONE_SET);
    }
    counted(alloc, count, SETS)
}

/// A number, and words after it.
fn counted(alloc: Global, count: usize, words: &str) -> Result<String, AllocError>
    ensures { IfOk result (λ text. string_bytes text ≡ decimal count ++ words.now) }
{
    let mut text = String::new(alloc);
    write!(text, "{count}")?;
    text.push_str(words)?;
    Ok(text)
}

/// Appends the lines of the sets that some characters open among these.
fn push_sets(
    alloc: Global,
    table: &Table,
    characters: &[char],
    openers: &[char],
    text: &mut String,
) -> Result<(), AllocError>
    ensures { OnOk result (string_bytes text.new ≡ string_bytes text.old ++ flat_map (set_line table.now characters.now) openers.now) }
{
    for character in openers {
        push_set(alloc, table, characters, *character, text)?;
    }
    Ok(())
}

/// Appends the line of the set of a character among these.
fn push_set(
    alloc: Global,
    table: &Table,
    characters: &[char],
    character: char,
    text: &mut String,
) -> Result<(), AllocError>
    ensures { OnOk result (string_bytes text.new ≡ string_bytes text.old ++ set_line table.now characters.now character) }
{
    text.push_str("  ")?;
    push_dots(alloc, table, character, text)?;
    text.push(' ')?;
    let set = set_of(alloc, table, characters, character)?;
    text.push_str(spell_one_by_one(alloc, set.as_slice())?.as_str())?;
    text.push('\n')
}

/// Appends the cells of a character in dots.
fn push_dots(
    alloc: Global,
    table: &Table,
    character: char,
    text: &mut String,
) -> Result<(), AllocError>
    ensures { OnOk result (string_bytes text.new ≡ string_bytes text.old ++ dots table.now character) }
{
    match table.info(character) {
        Some(info) => text.push_str(write_dots(alloc, info.cells.as_slice())?.as_str()),
        None => Ok(()),
    }
}

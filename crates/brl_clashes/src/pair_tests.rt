//! The tests of the kinds of pairs of rules.
ghost use Rattle.std.specs.Prelude.{◌≡◌, ◌==◌, slice_get, zip};
ghost use Rattle.std.specs.List.{list_all, list_any};
ghost use Rattle.brl_rules.specs.Text.{fold_of};
ghost use Rattle.brl_clashes.specs.PairKinds.{
  are_letters_or_same as are_letters_or_equal,
  begin_with_digit as begin_with_one_digit,
  defines_unseen as defines_an_unseen,
  differ_in_case as differ_but_in_case,
  differ_in_digits as have_other_digits,
  differ_in_letters as differ_in_some_letters,
  digits as digits_of,
  has_one,
  has_unseen as has_an_unseen,
  have_same_cells as are_of_same_cells,
  is_invisible as is_invisible_character,
  is_braille as is_braille_pattern,
  is_letter as is_letter_of,
  kind_by_rules as kind_of_rules,
  kind_of as kind_of_clash,
  match_in_cells as match_by_cells,
  own_kind as kind_of_own,
};

use crate::PairKind;
use crate::kind::{Kind, is_of};
use crate::listed_pairs::ListedPairs;
use crate::order::differing;
use crate::representatives::{Firsts, is_represented, own_character};
use crate::sets::small_letter;
use bitflags::Flags;
use brl_lines::is_unseen;
use brl_rules::{Class, Table};
use brl_search::RuleClash;

/// Whether a character is a braille pattern.
fn is_braille(character: char) -> bool
    ensures { result ≡ is_braille_pattern character }
{
    character >= '\u{2800}' && character < '\u{2900}'
}

/// Whether a text has a braille pattern.
fn is_with_braille(text: &[char]) -> bool
    ensures { result ≡ list_any is_braille_pattern text.now }
{
    text.iter().any(|c| is_braille(*c))
}

/// Whether a text of a clash has a braille pattern.
fn has_braille(clash: &RuleClash) -> bool
    ensures { result ≡ has_one is_braille_pattern clash.now }
{
    is_with_braille(clash.clash.left()) || is_with_braille(clash.clash.right())
}

/// Whether a character can't be seen, and isn't the blank.
fn is_invisible(character: char) -> bool
    ensures { result ≡ is_invisible_character character }
{
    is_unseen(character) && character != ' '
}

/// Whether a text has a character that can't be seen and isn't the blank.
fn is_with_invisible(text: &[char]) -> bool
    ensures { result ≡ list_any is_invisible_character text.now }
{
    text.iter().any(|c| is_invisible(*c))
}

/// Whether a text of a clash has a character that can't be seen and isn't the blank.
fn has_invisible(clash: &RuleClash) -> bool
    ensures { result ≡ has_one is_invisible_character clash.now }
{
    is_with_invisible(clash.clash.left()) || is_with_invisible(clash.clash.right())
}

/// Whether the rule with a number is the own definition of a character that can't be seen.
fn defines_unseen(table: &Table, number: u32) -> bool
    ensures { result ≡ defines_an_unseen table.now number }
{
    match own_character(table, number) {
        Some(character) => is_unseen(character),
        None => false,
    }
}

/// Whether a text of a clash has a character that can't be seen, or one of its rules defines one.
#[tactic(auto, unfolding(crate::specs::PairKinds::has_unseen))]
fn has_unseen(table: &Table, clash: &RuleClash) -> bool
    ensures { result ≡ has_an_unseen table.now clash.now }
{
    has_invisible(clash)
        || defines_unseen(table, clash.lesser)
        || defines_unseen(table, clash.greater)
}

/// Whether each two characters at one place of two texts have the same small letter.
fn have_same_folds(table: &Table, left: &[char], right: &[char]) -> bool
    ensures { result ≡ list_all (λ pair. fold_of table.now pair.0 == fold_of table.now pair.1) (zip left.now right.now) }
{
    left.iter().zip(right).all(|(c, d)| small_letter(table, *c) == small_letter(table, *d))
}

/// Whether the texts of a clash are the same, but for capitals.
#[tactic(auto, unfolding(crate::specs::PairKinds::differ_in_case))]
fn differ_in_case(table: &Table, clash: &RuleClash) -> bool
    ensures { result ≡ differ_but_in_case table.now clash.now }
{
    let left = clash.clash.left();
    let right = clash.clash.right();
    left.len() == right.len() && have_same_folds(table, left, right)
}

/// How many digits of a table a text has.
fn digits(table: &Table, text: &[char]) -> usize
    ensures { result ≡ digits_of table.now text.now }
{
    text.iter()
        .filter(|c| is_of(table, Kind::Digit, **c))
        .count()
}

/// Whether one text of a clash has more digits than the other.
#[tactic(auto, unfolding(crate::specs::PairKinds::differ_in_digits))]
fn differ_in_digits(table: &Table, clash: &RuleClash) -> bool
    ensures { result ≡ have_other_digits table.now clash.now }
{
    digits(table, clash.clash.left()) != digits(table, clash.clash.right())
}

/// Whether both texts of a clash begin with the same digit.
#[tactic(auto, unfolding(crate::specs::PairKinds::begin_with_digit))]
fn begin_with_digit(table: &Table, clash: &RuleClash) -> bool
    ensures { result ≡ begin_with_one_digit table.now clash.now }
{
    match (clash.clash.left().first(), clash.clash.right().first()) {
        (Some(c), Some(d)) => *c == *d && is_of(table, Kind::Digit, *c),
        _ => false,
    }
}

/// Whether two characters of a table have the same cells, as small letters.
fn have_same_cells(table: &Table, one: char, other: char) -> bool
    ensures { result ≡ are_of_same_cells table.now (one, other) }
{
    match (
        table.info(small_letter(table, one)),
        table.info(small_letter(table, other)),
    ) {
        (Some(x), Some(y)) => x.cells.as_slice() == y.cells.as_slice(),
        _ => false,
    }
}

/// Whether each two characters at one place of two texts have the same cells.
fn have_equal_cells(table: &Table, left: &[char], right: &[char]) -> bool
    ensures { result ≡ list_all (are_of_same_cells table.now) (zip left.now right.now) }
{
    left.iter()
        .zip(right)
        .all(|(c, d)| have_same_cells(table, *c, *d))
}

/// Whether the characters of the texts of a clash have the same cells, each the one at its place.
#[tactic(auto, unfolding(crate::specs::PairKinds::match_in_cells))]
fn match_in_cells(table: &Table, clash: &RuleClash) -> bool
    ensures { result ≡ match_by_cells table.now clash.now }
{
    let left = clash.clash.left();
    let right = clash.clash.right();
    left.len() == right.len() && have_equal_cells(table, left, right)
}

/// Whether a character of a table is a letter.
fn is_letter(table: &Table, character: char) -> bool
    ensures { result ≡ is_letter_of table.now character }
{
    match table.info(character) {
        Some(info) => info.classes.intersects(Class::LETTER),
        None => false,
    }
}

/// Whether two characters are the same, or both letters of a table.
fn are_letters_or_same(table: &Table, one: char, other: char) -> bool
    ensures { result ≡ are_letters_or_equal table.now (one, other) }
{
    one == other || is_letter(table, one) && is_letter(table, other)
}

/// Whether each two characters at one place of two texts are the same, or both letters.
fn differ_in_letters_alone(table: &Table, left: &[char], right: &[char]) -> bool
    ensures { result ≡ list_all (are_letters_or_equal table.now) (zip left.now right.now) }
{
    left.iter()
        .zip(right)
        .all(|(c, d)| are_letters_or_same(table, *c, *d))
}

/// Whether the texts of a clash have the same length and differ in one or two letters alone.
#[tactic(auto, unfolding(crate::specs::PairKinds::differ_in_letters))]
fn differ_in_letters(table: &Table, clash: &RuleClash) -> bool
    ensures { result ≡ differ_in_some_letters table.now clash.now }
{
    let left = clash.clash.left();
    let right = clash.clash.right();
    differing(clash) <= 2
        && left.len() == right.len()
        && differ_in_letters_alone(table, left, right)
}

/// The kind of a clash by its rules alone.
fn kind_by_rules(table: &Table, clash: &RuleClash) -> PairKind
    ensures { result ≡ kind_of_rules (slice_get table.now.rules clash.now.lesser) (slice_get table.now.rules clash.now.greater) }
{
    let rules = table.rules_in_rank();
    let lesser = rules.get(clash.lesser as usize);
    let greater = rules.get(clash.greater as usize);
    match (lesser, greater) {
        (Some(r), Some(s)) if r.cells.as_slice() == s.cells.as_slice() => PairKind::Rules,
        (Some(_), Some(_)) => PairKind::Begins,
        (None, None) => PairKind::Several,
        _ => PairKind::Word,
    }
}

/// The kind of a clash whose pair of rules no other one represents.
fn own_kind(table: &Table, clash: &RuleClash) -> PairKind
    ensures { result ≡ kind_of_own table.now clash.now }
{
    if differ_in_digits(table, clash) {
        return if begin_with_digit(table, clash) {
            PairKind::AsDigit
        } else {
            PairKind::Number
        };
    }
    if match_in_cells(table, clash) {
        return PairKind::Cells;
    }
    if differ_in_letters(table, clash) {
        return PairKind::Alike;
    }
    kind_by_rules(table, clash)
}

/// The kind of a clash of a table, where these pairs of rules are listed.
pub fn kind_of(table: &Table, firsts: &Firsts, listed: &ListedPairs, clash: &RuleClash) -> PairKind
    ensures { result ≡ kind_of_clash table.now firsts.now listed.now clash.now }
{
    if is_represented(table, firsts.own.as_slice(), listed, clash) {
        return PairKind::Sets;
    }
    if has_braille(clash) {
        return PairKind::Braille;
    }
    if has_unseen(table, clash) {
        return PairKind::Unseen;
    }
    if differ_in_case(table, clash) {
        return PairKind::Case;
    }
    if is_represented(table, firsts.small.as_slice(), listed, clash) {
        return PairKind::Again;
    }
    own_kind(table, clash)
}

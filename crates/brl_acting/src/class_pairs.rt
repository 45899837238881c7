//! The classes that lines give characters.
ghost use Rattle.std.specs.Prelude.{◌≡◌, ◌++◌, IfOk, OnOk, [], ◌∷◌, codes, map};
ghost use Rattle.std.specs.Option.{unwrap_or};
ghost use Rattle.brl_acting.specs.Capitals.{has_opcode as has_opcode_by};
ghost use Rattle.brl_acting.specs.Classes.{besides_in as besides_by_line, besides_of as besides_by_lines, classes_in as classes_by_line, classes_named as classes_by_name, classes_of as classes_by_lines, classes_of_pair as classes_by_pair, classes_of_pairs as classes_by_pairs, classes_with as classes_by_character, names_class as names_class_by, noletsigns_in as noletsigns_by_line, noletsigns_of as noletsigns_by_lines, only as only_by};
ghost use Rattle.brl_acting.specs.Sets.{is_one_of, pair_views};
ghost use Rattle.brl_acting.specs.PartsViews.{parts_view};
ghost use Rattle.brl_acting.specs.Words.{chars_at as chars_by, word_at as word_by};

use crate::bases::{has_opcode, push_base};
use crate::form::{defines, is_definition, tells_of_characters};
use crate::line_parts::Parts;
use crate::operand::{chars_at, word_at};
use crate::rules::is_rule;
use std::alloc::{AllocError, Global};

/// The name of a class, and a character of it.
pub(crate) type ClassPair<'a> = (&'a str, char);

/// Adds the classes that a character has by one of them.
fn push_with<'a>(
    pairs: &mut Vec<ClassPair<'a>>,
    name: &'a str,
    character: char,
) -> Result<(), AllocError>
    ensures { OnOk result (pair_views pairs.new.items ≡ pair_views pairs.old.items ++ classes_by_character name.now character) }
{
    pairs.push((name, character))?;
    if name == "uppercase" || name == "lowercase" {
        pairs.push(("letter", character))?;
    } else if !is_definition(name) {
        pairs.push(("", character))?;
    }
    Ok(())
}

/// Adds the class of characters.
fn push_named<'a>(
    pairs: &mut Vec<ClassPair<'a>>,
    name: &'a str,
    chars: &[char],
) -> Result<(), AllocError>
    ensures { OnOk result (pair_views pairs.new.items ≡ pair_views pairs.old.items ++ classes_by_name name.now chars.now) }
{
    for character in chars {
        push_with(pairs, name, *character)?;
    }
    Ok(())
}

/// Adds the classes of capitals and their small letters.
fn push_pairs<'a>(pairs: &mut Vec<ClassPair<'a>>, bases: &[(char, char)]) -> Result<(), AllocError>
    ensures { OnOk result (pair_views pairs.new.items ≡ pair_views pairs.old.items ++ classes_by_pairs bases.now) }
{
    for base in bases {
        push_pair_classes(pairs, *base)?;
    }
    Ok(())
}

/// Adds the classes of a capital and its small letter.
fn push_pair_classes<'a>(
    pairs: &mut Vec<ClassPair<'a>>,
    base: (char, char),
) -> Result<(), AllocError>
    ensures { OnOk result (pair_views pairs.new.items ≡ pair_views pairs.old.items ++ classes_by_pair base) }
{
    push_with(pairs, "uppercase", base.0)?;
    push_with(pairs, "lowercase", base.1)?;
    Ok(())
}

/// Whether lines of an opcode name a class, and then its characters.
fn names_class(word: &str) -> bool
    ensures { result ≡ names_class_by word.now }
{
    matches!(word, "attribute" | "class" | "base" | "swapcc" | "swapcd")
}

/// Adds the classes that a line gives characters.
fn push_classes<'a>(
    alloc: Global,
    pairs: &mut Vec<ClassPair<'a>>,
    parts: &Parts<'a>,
) -> Result<(), AllocError>
    ensures { OnOk result (pair_views pairs.new.items ≡ pair_views pairs.old.items ++ classes_by_line (parts_view parts.now)) }
{
    let words = parts.words.as_slice();
    let opcode = word_at(words, 0);
    if defines(parts.form) {
        return push_named(pairs, opcode, parts.first_chars());
    }
    if !tells_of_characters(parts.form) {
        return Ok(());
    }
    if names_class(opcode) {
        let chars = chars_or(alloc, words, 2, &[' '])?;
        return push_named(pairs, word_at(words, 1), chars.as_slice());
    }
    let mut bases = Vec::new(alloc);
    push_base(alloc, &mut bases, parts)?;
    push_pairs(pairs, bases.as_slice())
}

/// The characters of the word at a place; others where there is none, or they can't be known.
fn chars_or(
    alloc: Global,
    words: &[&str],
    place: usize,
    others: &[char],
) -> Result<Vec<char>, AllocError>
    ensures { IfOk result (λ chars. chars.items ≡ unwrap_or (chars_by (map (λ word. word.now) words.now) place) others.now) }
{
    match chars_at(alloc, words, place)? {
        Some(chars) => Ok(chars),
        None => Vec::from_slice(alloc, others),
    }
}

/// The classes that lines give characters.
pub(crate) fn classes_of<'a>(
    alloc: Global,
    lines: &[Parts<'a>],
) -> Result<Vec<ClassPair<'a>>, AllocError>
    ensures { IfOk result (λ pairs. pair_views pairs.items ≡ classes_by_lines (map parts_view lines.now)) }
{
    let mut pairs = Vec::new(alloc);
    for parts in lines {
        push_classes(alloc, &mut pairs, parts)?;
    }
    Ok(pairs)
}

/// The only one of characters, where there is one.
fn only(chars: &[char]) -> &[char]
    ensures { result.now ≡ only_by chars.now }
{
    if chars.len() == 1 { chars } else { &[] }
}

/// Whether a line lists letters before which `letsign` doesn't stand.
fn lists_noletsigns(parts: &Parts<'_>) -> bool
    ensures { result ≡ has_opcode_by (codes "noletsign") (parts_view parts.now) }
{
    if !tells_of_characters(parts.form) {
        return false;
    }
    has_opcode(parts, "noletsign")
}

/// Adds the letters before which `letsign` doesn't stand, by a line.
fn push_noletsigns(letters: &mut Vec<char>, parts: &Parts<'_>) -> Result<(), AllocError>
    ensures { OnOk result (letters.new.items ≡ letters.old.items ++ noletsigns_by_line (parts_view parts.now)) }
{
    if lists_noletsigns(parts) {
        return letters.extend_from_slice(parts.first_chars());
    }
    if makes_words(parts) && !parts.nofor {
        return letters.extend_from_slice(only(parts.first_chars()));
    }
    Ok(())
}

/// Whether a line is a rule that can make a letter a word.
fn makes_words(parts: &Parts<'_>) -> bool
    ensures { result ≡ is_one_of (codes "word" ∷ codes "largesign" ∷ []) (word_by (parts_view parts.now).words 0) }
{
    // The opcodes of other lines need not be compared with these.
    if !is_rule(parts.form) {
        return false;
    }
    is_word(word_at(parts.words.as_slice(), 0))
}

/// Whether lines of an opcode make a letter a word.
fn is_word(opcode: &str) -> bool
    ensures { result ≡ is_one_of (codes "word" ∷ codes "largesign" ∷ []) opcode.now }
{
    matches!(opcode, "word" | "largesign")
}

/// Adds the characters beside which `letsign` doesn't stand, by a line.
fn push_besides(chars: &mut Vec<char>, parts: &Parts<'_>) -> Result<(), AllocError>
    ensures { OnOk result (chars.new.items ≡ chars.old.items ++ besides_by_line (parts_view parts.now)) }
{
    let words = parts.words.as_slice();
    if is_beside(word_at(words, 0)) {
        chars.extend_from_slice(parts.first_chars())?;
    }
    Ok(())
}

/// Whether lines of an opcode list characters beside which `letsign` doesn't stand.
fn is_beside(opcode: &str) -> bool
    ensures { result ≡ is_one_of (codes "noletsignbefore" ∷ codes "noletsignafter" ∷ []) opcode.now }
{
    matches!(opcode, "noletsignbefore" | "noletsignafter")
}

/// The characters beside which `letsign` doesn't stand.
pub(crate) fn besides_of(alloc: Global, lines: &[Parts<'_>]) -> Result<Vec<char>, AllocError>
    ensures { IfOk result (λ chars. chars.items ≡ besides_by_lines (map parts_view lines.now)) }
{
    let mut chars = Vec::new(alloc);
    for parts in lines {
        push_besides(&mut chars, parts)?;
    }
    Ok(chars)
}

/// The letters before which `letsign` doesn't stand.
pub(crate) fn noletsigns_of(alloc: Global, lines: &[Parts<'_>]) -> Result<Vec<char>, AllocError>
    ensures { IfOk result (λ letters. letters.items ≡ noletsigns_by_lines (map parts_view lines.now)) }
{
    let mut letters = Vec::new(alloc);
    for parts in lines {
        push_noletsigns(&mut letters, parts)?;
    }
    Ok(letters)
}

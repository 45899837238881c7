//! What a line gives by its words: the characters and the dots of a piece, or a capital's small
//! letter.
ghost use Rattle.std.specs.Prelude.{◌≡◌, ◌||◌, IfOk, map, option_map, slice_get};
ghost use Rattle.brl_lines.specs.Views.{line_view};
ghost use Rattle.brl_slips.specs.Words.{after_prefixes as words_after_prefixes, are_of_rule as is_of_rule, both as both_words, capital_words as words_of_capital, is_one_of, is_place, prefix_length as length_of_prefix, unread_rules, word_at as word_in, words_of as words_of_line, words_of_piece};

use brl_lines::Line;
use brl_table::is_place_opcode;
use std::alloc::{AllocError, Global};

/// The words of a line, its opcode first.
pub(crate) fn words_of<'a>(alloc: Global, line: &Line<'a>) -> Result<Vec<&'a str>, AllocError>
    ensures { IfOk result (λ words. map (λ word. word.now) words.items ≡ words_of_line (line_view line.now)) }
{
    let mut words = Vec::new(alloc);
    words.push(line.opcode.text)?;
    for operand in &line.operands {
        words.push(operand.text)?;
    }
    Ok(words)
}

/// How many words a prefix takes that begins with this one: 0 where it begins none.
fn prefix_length(word: &str) -> usize
    ensures { result ≡ length_of_prefix word.now }
{
    match word {
        "noback" | "nofor" | "nocross" | "empmatchbefore" | "empmatchafter" => 1,
        "before" | "after" => 2,
        _ => 0,
    }
}

/// The words after all prefixes.
fn after_prefixes<'w, 'a>(words: &'w [&'a str]) -> &'w [&'a str]
    ensures { map (λ word. word.now) result.now ≡ words_after_prefixes (map (λ word. word.now) words.now) }
{
    let mut rest = words;
    while let Some(word) = rest.first() {
        let length = prefix_length(word);
        if length == 0 {
            return rest;
        }
        rest = rest.get(length..).unwrap_or_default();
    }
    rest
}

/// Whether lines of an opcode give a piece: its characters, and then its dots.
fn gives_piece(opcode: &str) -> bool
    ensures { result ≡ is_place opcode.now || is_one_of unread_rules opcode.now }
{
    is_place_opcode(opcode) || is_unread_rule(opcode)
}

/// Whether an opcode that isn't read gives characters dots, as a rule does.
fn is_unread_rule(opcode: &str) -> bool
    ensures { result ≡ is_one_of unread_rules opcode.now }
{
    matches!(
        opcode,
        "largesign" | "lowword" | "joinword" | "joinnum" | "prepunc" | "postpunc" | "syllable"
    )
}

/// The word at a place; an empty one past the end.
fn word_at<'a>(words: &[&'a str], place: usize) -> &'a str
    ensures { result.now ≡ word_in (map (λ word. word.now) words.now) place }
{
    words.get(place).copied().unwrap_or_default()
}

/// The words at two places, where there are both.
fn both<'a>(words: &[&'a str], one: usize, other: usize) -> Option<(&'a str, &'a str)>
    ensures { option_map (λ found. (found.0.now, found.1.now)) result ≡ both_words (slice_get (map (λ word. word.now) words.now) one) (slice_get (map (λ word. word.now) words.now) other) }
{
    Some((words.get(one)?, words.get(other)?))
}

/// The characters and the dots of the piece that words give, if they do.
pub(crate) fn piece_words<'a>(words: &[&'a str]) -> Option<(&'a str, &'a str)>
    ensures { option_map (λ found. (found.0.now, found.1.now)) result ≡ words_of_piece (words_after_prefixes (map (λ word. word.now) words.now)) }
{
    let words = after_prefixes(words);
    let opcode = word_at(words, 0);
    if gives_piece(opcode) {
        both(words, 1, 2)
    } else if opcode == "match" {
        both(words, 2, 4)
    } else {
        None
    }
}

/// Whether these are the words of a rule that is read and used.
pub(crate) fn are_of_rule(words: &[&str]) -> bool
    ensures { result ≡ is_of_rule (map (λ word. word.now) words.now) }
{
    let opcode = word_at(words, 0);
    is_place_opcode(opcode) || (opcode == "noback" && is_place_opcode(word_at(words, 1)))
}

/// The words of a capital and its small letter, where these are the words of such a line.
pub(crate) fn capital_words<'a>(words: &[&'a str]) -> Option<(&'a str, &'a str)>
    ensures { option_map (λ found. (found.0.now, found.1.now)) result ≡ words_of_capital (map (λ word. word.now) words.now) }
{
    if word_at(words, 0) == "base" && word_at(words, 1) == "uppercase" {
        both(words, 2, 3)
    } else {
        None
    }
}

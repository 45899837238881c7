//! The characters of operands.
ghost use Rattle.std.specs.Prelude.{◌≡◌, [], ◌∷◌, IfOk, None, Some, if◌then◌else◌, map, option_map};
ghost use Rattle.brl_acting.specs.Words.{all_chars_at as all_at, all_chars_in as all_in, chars_at as at, chars_in as chars_by, has_numbers_alone as numbers_alone, is_hexadecimal, is_number as is_number_by, word_at as word_in};

use brl_failure::Failure;
use brl_lines::chars_of;
use std::alloc::{AllocError, Global};

/// The mark of a surrogate, which no text has: the last number of all characters, which is none
/// by Unicode, too.
const NO_CHARACTER: char = '\u{10ffff}';

/// The word at a place; an empty one past the end.
pub(crate) fn word_at<'a>(words: &[&'a str], place: usize) -> &'a str
    ensures { result.now ≡ word_in (map (λ word. word.now) words.now) place }
{
    words.get(place).copied().unwrap_or_default()
}

/// The characters that a word spells, if they can be known.
fn chars_in(alloc: Global, word: &str) -> Result<Option<Vec<char>>, AllocError>
    ensures { IfOk result (λ found. option_map (λ chars. chars.items) found ≡ chars_by word.now) }
{
    match chars_of(alloc, word) {
        Ok(chars) => Ok(Some(chars)),
        Err(Failure::Fault(_)) => Ok(None),
        Err(Failure::Memory) => Err(AllocError),
    }
}

/// The characters of a word that must all be in a text: with a surrogate they can't.
pub(crate) fn all_chars_in(alloc: Global, word: &str) -> Result<Option<Vec<char>>, AllocError>
    ensures { IfOk result (λ found. option_map (λ chars. chars.items) found ≡ all_in word.now) }
{
    match chars_of(alloc, word) {
        Ok(chars) => Ok(Some(chars)),
        Err(Failure::Fault(_)) => surrogate_in(alloc, word),
        Err(Failure::Memory) => Err(AllocError),
    }
}

/// The mark of a surrogate, where all escapes of a word are numbers of four digits.
fn surrogate_in(alloc: Global, word: &str) -> Result<Option<Vec<char>>, AllocError>
    ensures { IfOk result (λ found. option_map (λ chars. chars.items) found ≡ (if numbers_alone word.now then Some (1114111 ∷ []) else None)) }
{
    if !has_numbers_alone(word) {
        return Ok(None);
    }
    Ok(Some(Vec::from_slice(alloc, &[NO_CHARACTER])?))
}

/// Whether each escape of a word is a number of four digits, at least.
fn has_numbers_alone(word: &str) -> bool
    ensures { result ≡ numbers_alone word.now }
{
    let bytes = word.as_bytes();
    for place in 0..bytes.len() {
        if bytes[place] == b'\\' && !is_number(&bytes[place + 1..]) {
            return false;
        }
    }
    true
}

/// Whether what follows a backslash is `x` and four hexadecimal digits, at least.
fn is_number(part: &[u8]) -> bool
    ensures { result ≡ is_number_by part.now }
{
    match part {
        [b'x', first, second, third, fourth, ..] => {
            is_digit(*first) && is_digit(*second) && is_digit(*third) && is_digit(*fourth)
        }
        _ => false,
    }
}

/// Whether a mark is a hexadecimal digit.
fn is_digit(mark: u8) -> bool
    ensures { result ≡ is_hexadecimal mark }
{
    mark.is_ascii_hexdigit()
}

/// The characters of the word at a place, where there is one and they can be known.
pub(crate) fn chars_at(
    alloc: Global,
    words: &[&str],
    place: usize,
) -> Result<Option<Vec<char>>, AllocError>
    ensures { IfOk result (λ found. option_map (λ chars. chars.items) found ≡ at (map (λ word. word.now) words.now) place) }
{
    match words.get(place) {
        Some(word) => chars_in(alloc, word),
        None => Ok(None),
    }
}

/// The characters of the word at a place that must all be in a text.
pub(crate) fn all_chars_at(
    alloc: Global,
    words: &[&str],
    place: usize,
) -> Result<Option<Vec<char>>, AllocError>
    ensures { IfOk result (λ found. option_map (λ chars. chars.items) found ≡ all_at (map (λ word. word.now) words.now) place) }
{
    match words.get(place) {
        Some(word) => all_chars_in(alloc, word),
        None => Ok(None),
    }
}

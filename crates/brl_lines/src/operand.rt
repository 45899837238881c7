//! The characters that an operand spells.
ghost use Rattle.std.specs.Prelude.{◌≡◌, ◌<◌, ◌≤◌, ℕ, ◌∷◌, [], IfOk, drop, length, None, Some, MatchOption, option_map};
ghost use Rattle.std.specs.Str.{chars};
ghost use Rattle.brl_failure.specs.Failure.{GivesAs};
ghost use Rattle.brl_lines.specs.Escapes.{
  characters_of,
  digits_after as count_after,
  escape,
  hexadecimal,
  named as named_character,
  spelled,
};

use brl_failure::Failure;
use std::alloc::{AllocError, Global};
use thiserror::Error;

/// Why an operand spells no characters.
#[derive(Clone, Copy, Debug, PartialEq, Eq, Error)]
pub enum CharsFault {
    #[error("L7 BadEscape")]
    BadEscape,
}

/// The first character of a text, and what follows it.
fn first_of(text: &str) -> Option<(char, &str)>
    ensures { MatchOption result ((length text.now ≡ 0) × (chars text.now ≡ [])) (λ r. (chars text.now ≡ r.0 ∷ chars r.1.now) × (length r.1.now < length text.now)) }
{
    let mut rest = text.chars();
    let first = rest.next()?;
    Some((first, rest.as_str()))
}

/// The character that an escape of one mark means.
fn named(mark: char) -> Option<char>
    ensures { result ≡ named_character mark }
{
    match mark {
        '\\' => Some('\\'),
        'f' => Some('\u{c}'),
        'n' => Some('\n'),
        'r' => Some('\r'),
        's' => Some(' '),
        't' => Some('\t'),
        'v' => Some('\u{b}'),
        'e' => Some('\u{1b}'),
        _ => None,
    }
}

/// How many hexadecimal digits follow a mark.
fn digits_after(mark: char) -> Option<u32>
    ensures { result ≡ count_after mark }
{
    match mark {
        'x' => Some(4),
        'y' => Some(5),
        'z' => Some(8),
        _ => None,
    }
}

/// The number that the first `count` characters write as hexadecimal digits, and what follows them.
fn number(text: &str, count: u32) -> Option<(u32, &str)>
    requires { count ≤ 8 }
    ensures { MatchOption result (hexadecimal count 0 (chars text.now) ≡ None)
        (λ r. (hexadecimal count 0 (chars text.now) ≡ Some r.0) × (chars r.1.now ≡ drop count (chars text.now)) × (length r.1.now ≤ length text.now)) }
{
    let mut value = 0u32;
    let mut rest = text;
    for read in 0..count {
        let (mark, left) = first_of(rest)?;
        let digit = mark.to_digit(16)?;
        value = value * 16 + digit;
        rest = left;
    }
    Some((value, rest))
}

/// The character that an escape means, and what follows it. The text starts after the escape's
/// backslash.
fn escaped(text: &str) -> Option<(char, &str)>
    ensures { MatchOption result (escape (chars text.now) ≡ None)
        (λ r. ((taken : ℕ) × (escape (chars text.now) ≡ Some (r.0, taken)) × (chars r.1.now ≡ drop taken (chars text.now))) × (length r.1.now ≤ length text.now)) }
{
    let (mark, rest) = first_of(text)?;
    if let Some(character) = named(mark) {
        return Some((character, rest));
    }
    let count = digits_after(mark)?;
    let (code, rest) = number(rest, count)?;
    Some((char::from_u32(code)?, rest))
}

/// The first character that a text spells, and what follows it. `None` at a bad escape.
fn next_character(text: &str) -> Option<(char, &str)>
    requires { 0 < length text.now }
    ensures { MatchOption result (spelled 0 (chars text.now) ≡ None)
        (λ r. (spelled 0 (chars text.now) ≡ option_map (λ cs. r.0 ∷ cs) (spelled 0 (chars r.1.now))) × (length r.1.now < length text.now)) }
{
    let (mark, rest) = first_of(text)?;
    if mark == '\\' {
        escaped(rest)
    } else {
        Some((mark, rest))
    }
}

/// The characters that an operand spells; `BadEscape` where it spells none. A character means
/// itself, except in the escapes of the definition `characters_of`; no other escape is allowed.
pub fn chars_of(alloc: Global, operand: &str) -> Result<Vec<char>, Failure<CharsFault>>
    ensures { GivesAs (λ found. found.items) (λ fault. fault) (characters_of operand.now) result }
{
    let mut found = Vec::new(alloc);
    let mut rest = operand;
    while !rest.is_empty() {
        let Some((character, left)) = next_character(rest) else {
            return Err(Failure::Fault(CharsFault::BadEscape));
        };
        found.push(character)?;
        rest = left;
    }
    Ok(found)
}

/// The characters of a text, each as itself. `AllocError` if memory runs out.
pub fn characters(alloc: Global, text: &str) -> Result<Vec<char>, AllocError>
    ensures { IfOk result (λ found. found.items ≡ chars text.now) }
{
    text.chars().collect(alloc)
}

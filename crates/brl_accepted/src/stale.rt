//! Stale lines as they are reported.
ghost use Rattle.std.specs.Prelude.{◌≡◌, ◌+◌, ◌<◌, ◌^◌, ◌++◌, [], IfOk, OnOk, codes, flat_map, if◌then◌else◌, length, nat_lt, string_bytes, take};
ghost use Rattle.std.specs.Str.{encode_utf8_all};
ghost use Rattle.brl_accepted.specs.FaultText.{fault_view};
ghost use Rattle.brl_accepted.specs.Reading.{most_repeated, repeated as repeated_of, repeated_character as character_repeated};

use crate::fault::{ExcuseFault, ExcuseFaultKind};
use brl_lines::{characters, visible_line};
use std::alloc::{AllocError, Global};

/// The fault of the line at a place of the file at a path.
pub(crate) fn stale_line(
    alloc: Global,
    kind: ExcuseFaultKind,
    path: &str,
    place: usize,
    row: &str,
) -> Result<ExcuseFault, AllocError>
    requires { place < 2 ^ 63 }
    ensures { IfOk result (λ found. fault_view found ≡ record { kind = kind; subject = repeated_of row.now; file = path.now; line = place + 1 }) }
{
    Ok(ExcuseFault {
        kind,
        subject: repeated(alloc, row)?,
        file: String::from_str(alloc, path)?,
        line: place + 1,
    })
}

/// How many characters of a line a fault repeats.
const MOST_REPEATED: usize = 200;

/// What a fault repeats of a line: what can't be seen is spelled, and after its first characters it
/// is cut.
fn repeated(alloc: Global, row: &str) -> Result<String, AllocError>
    ensures { IfOk result (λ text. string_bytes text ≡ repeated_of row.now) }
{
    let seen = visible_line(alloc, row)?;
    let characters = characters(alloc, seen.as_str())?;
    repeated_start(alloc, characters.as_slice())
}

/// The first of some characters, and whether there are more.
fn repeated_start(alloc: Global, characters: &[char]) -> Result<String, AllocError>
    ensures { IfOk result (λ text. string_bytes text ≡ encode_utf8_all (flat_map character_repeated (take most_repeated characters.now))
        ++ (if nat_lt most_repeated (length characters.now) then codes ".." else [])) }
{
    let mut text = String::new(alloc);
    push_repeated(&mut text, first_of(characters, MOST_REPEATED))?;
    if characters.len() > MOST_REPEATED {
        text.push_str("..")?;
    }
    Ok(text)
}

/// The first of some characters.
fn first_of(characters: &[char], most: usize) -> &[char]
    ensures { result.now ≡ take most characters.now }
{
    characters.get(..most).unwrap_or(characters)
}

/// Appends characters that a fault repeats.
fn push_repeated(text: &mut String, characters: &[char]) -> Result<(), AllocError>
    ensures { OnOk result (string_bytes text.new ≡ string_bytes text.old ++ encode_utf8_all (flat_map character_repeated characters.now)) }
{
    for character in characters {
        push_character(text, *character)?;
    }
    Ok(())
}

/// Appends a character that a fault repeats.
fn push_character(text: &mut String, character: char) -> Result<(), AllocError>
    ensures { OnOk result (string_bytes text.new ≡ string_bytes text.old ++ encode_utf8_all (character_repeated character)) }
{
    if character == '\t' {
        return text.push_str("\\t");
    }
    text.push(character)
}

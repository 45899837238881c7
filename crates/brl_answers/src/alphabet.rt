//! The line of an answer that says of which characters texts are made.
ghost use Rattle.std.specs.Prelude.{◌≡◌, IfOk, string_bytes};
ghost use Rattle.brl_answers.specs.Answers.{spelled_after_blank, spelled_one_by_one, with_alphabet_line, with_left_out_line, with_spans_line};
ghost use Rattle.brl_without.specs.Alphabet.{alphabet_view};

use brl_lines::spell_visibly;
use brl_without::{Alphabet, Span, spell_spans};
use std::alloc::{AllocError, Global};

/// A character, spelled after a blank.
fn spell_after_blank(alloc: Global, character: char) -> Result<String, AllocError>
    ensures { IfOk result (λ text. string_bytes text ≡ spelled_after_blank character) }
{
    let spelled = spell_visibly(alloc, &[character])?;
    format!(in alloc; " {spelled}")
}

/// Characters, each spelled after a blank.
pub fn spell_one_by_one(alloc: Global, characters: &[char]) -> Result<String, AllocError>
    ensures { IfOk result (λ text. string_bytes text ≡ spelled_one_by_one characters.now) }
{
    let mut text = String::new(alloc);
    for character in characters {
        text.push_str(spell_after_blank(alloc, *character)?.as_str())?;
    }
    Ok(text)
}

/// A line of an answer, and where texts aren't made of all characters of a table one that spells
/// those left out, or the spans of those they may have.
pub fn with_alphabet_line(
    alloc: Global,
    line: String,
    alphabet: &Alphabet,
) -> Result<String, AllocError>
    ensures { IfOk result (λ text. string_bytes text ≡ with_alphabet_line (alphabet_view alphabet.now) (string_bytes line)) }
{
    match alphabet {
        Alphabet::Without(given) => with_left_out_line(alloc, line, given.as_slice()),
        Alphabet::Only(spans) => with_spans_line(alloc, line, spans.as_slice()),
    }
}

/// A line of an answer, and where characters are left out another line, which spells them one by
/// one, so that `a-z` isn't read as a range.
fn with_left_out_line(alloc: Global, line: String, left_out: &[char]) -> Result<String, AllocError>
    ensures { IfOk result (λ text. string_bytes text ≡ with_left_out_line left_out.now (string_bytes line)) }
{
    if left_out.is_empty() {
        return Ok(line);
    }
    let spelled = spell_one_by_one(alloc, left_out)?;
    format!(in alloc; "{line}without:{spelled}\n")
}

/// A line of an answer, and another line with the spans of the characters that texts may have.
fn with_spans_line(alloc: Global, line: String, spans: &[Span]) -> Result<String, AllocError>
    ensures { IfOk result (λ text. string_bytes text ≡ with_spans_line spans.now (string_bytes line)) }
{
    let spelled = spell_spans(alloc, spans)?;
    format!(in alloc; "{line}only: {spelled}\n")
}

//! The text that a word gives.
ghost use Rattle.std.specs.Prelude.{◌≡◌, IfErr, IfOk, Ok};
ghost use Rattle.brl_answers.specs.Answers.{IsBadText, text_of};

use crate::run_fault::RunFault;
use brl_failure::Failure;
use brl_lines::{characters, chars_of};
use std::alloc::Global;

/// The text of a word: its own characters, or with `escapes` those that it spells as an operand of
/// a table; `BadText` where it spells none.
pub fn text_of_word(alloc: Global, word: &str, escapes: bool) -> Result<Vec<char>, RunFault>
    ensures text { IfOk result (λ text. text_of escapes word.now ≡ Ok text.items) }
    ensures bad { IfErr result (IsBadText escapes word.now) }
{
    if !escapes {
        return Ok(characters(alloc, word)?);
    }
    match chars_of(alloc, word) {
        Ok(text) => Ok(text),
        Err(Failure::Fault(_)) => Err(RunFault::BadText(String::from_str(alloc, word)?)),
        Err(Failure::Memory) => Err(RunFault::Memory),
    }
}

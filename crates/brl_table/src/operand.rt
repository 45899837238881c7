//! Reads the operands of a line.
ghost use Rattle.std.specs.Prelude.{◌≡◌, ◌≤◌, Err, IfOk, IfSome, length, map};
ghost use Rattle.brl_cells.specs.Dots.{reading};
ghost use Rattle.brl_failure.specs.Failure.{Gives, GivesAs};
ghost use Rattle.brl_lines.specs.Views.{token_view};
ghost use Rattle.brl_table.specs.Items.{
  character_of,
  characters_spelled,
  some_characters_of,
  two_characters_of,
  cells_of as cells_spelled,
  cells_of_both,
  fault,
  or_fault,
  one_operand as first_operand,
  two_operands as first_operands,
  parts_of as parts_around,
  rule_cells_of,
};
ghost use Rattle.brl_table.specs.declared.table_fault.TableFaultKind.TheVariants.{BadDots as TheBadDots};

use crate::TableFaultKind;
use crate::table_fault::WordFault;
use brl_cells::{Cells, Chars, read_dots};
use brl_failure::Failure;
use brl_lines::{Token, chars_of};
use std::alloc::Global;

/// An opcode and its operands.
#[derive(Clone, Copy)]
pub(crate) struct Words<'a> {
    pub opcode: &'a str,
    pub operands: &'a [Token<'a>],
}

/// A fault of this kind about a word.
pub(crate) fn refuse<T>(
    alloc: Global,
    kind: TableFaultKind,
    word: &str,
) -> Result<T, Failure<WordFault>>
    ensures { Gives (Err (fault kind word.now)) result }
{
    let subject = String::from_str(alloc, word)?;
    Err(Failure::Fault(WordFault { kind, subject }))
}

/// The first operand of an opcode.
pub(crate) fn one_operand<'a>(
    alloc: Global,
    words: Words<'a>,
) -> Result<&'a str, Failure<WordFault>>
    ensures { GivesAs (λ word. word.now) (λ f. f) (first_operand words.entry.opcode.now (map token_view words.entry.operands.now)) result }
{
    let Some(first) = words.operands.first() else {
        return refuse(alloc, TableFaultKind::MissingOperand, words.opcode);
    };
    Ok(first.text)
}

/// The first two operands of an opcode.
pub(crate) fn two_operands<'a>(
    alloc: Global,
    words: Words<'a>,
) -> Result<(&'a str, &'a str), Failure<WordFault>>
    ensures { GivesAs (λ two. (two.0.now, two.1.now)) (λ f. f) (first_operands words.entry.opcode.now (map token_view words.entry.operands.now)) result }
{
    let [first, second, ..] = words.operands else {
        return refuse(alloc, TableFaultKind::MissingOperand, words.opcode);
    };
    Ok((first.text, second.text))
}

/// The characters that an operand spells.
fn characters(alloc: Global, word: &str) -> Result<Vec<char>, Failure<WordFault>>
    ensures { GivesAs (λ v. v.items) (λ f. f) (characters_spelled word.now) result }
{
    match chars_of(alloc, word) {
        Ok(characters) => Ok(characters),
        Err(Failure::Fault(_)) => refuse(alloc, TableFaultKind::BadCharacters, word),
        Err(Failure::Memory) => Err(Failure::Memory),
    }
}

/// The one character that an operand spells.
pub(crate) fn one_character(alloc: Global, word: &str) -> Result<char, Failure<WordFault>>
    ensures { Gives (character_of word.now) result }
{
    match characters(alloc, word)?.as_slice() {
        [character] => Ok(*character),
        _ => refuse(alloc, TableFaultKind::BadCharacters, word),
    }
}

/// The two different characters that an operand spells.
pub(crate) fn two_characters(alloc: Global, word: &str) -> Result<(char, char), Failure<WordFault>>
    ensures { Gives (two_characters_of word.now) result }
{
    match characters(alloc, word)?.as_slice() {
        [upper, lower] if *upper != *lower => Ok((*upper, *lower)),
        _ => refuse(alloc, TableFaultKind::BadCharacters, word),
    }
}

/// The characters that an operand spells, at least one.
pub(crate) fn some_characters(alloc: Global, word: &str) -> Result<Chars, Failure<WordFault>>
    ensures chars { Gives (some_characters_of word.now) result }
    ensures some { IfOk result (λ chars. 1 ≤ length chars) }
{
    let characters = characters(alloc, word)?;
    if characters.is_empty() {
        return refuse(alloc, TableFaultKind::BadCharacters, word);
    }
    Ok(Chars::from_vec(characters))
}

/// The cells that an operand spells, at most 16.
pub(crate) fn cells_of(alloc: Global, word: &str) -> Result<Cells, Failure<WordFault>>
    ensures cells { Gives (cells_spelled word.now) result }
    ensures some { IfOk result (λ cells. 1 ≤ length cells) }
    ensures few { IfOk result (λ cells. length cells ≤ 16) }
{
    cells_in(alloc, word, word)
}

/// The cells that a part of an operand spells, at most 16. Its fault names the whole operand.
fn cells_in(alloc: Global, part: &str, word: &str) -> Result<Cells, Failure<WordFault>>
    ensures cells { Gives (or_fault TheBadDots word.now (reading 16 part.now)) result }
    ensures some { IfOk result (λ cells. 1 ≤ length cells) }
    ensures few { IfOk result (λ cells. length cells ≤ 16) }
{
    match read_dots(alloc, part, 16) {
        Ok(cells) => Ok(cells),
        Err(Failure::Fault(_)) => refuse(alloc, TableFaultKind::BadDots, word),
        Err(Failure::Memory) => Err(Failure::Memory),
    }
}

/// The cells of two characters: the same dots for both, or two with a comma between them.
pub(crate) fn both_cells(alloc: Global, word: &str) -> Result<(Cells, Cells), Failure<WordFault>>
    ensures cells { Gives (cells_of_both word.now) result }
    ensures some { IfOk result (λ cells. (1 ≤ length cells.0) × (1 ≤ length cells.1)) }
    ensures few { IfOk result (λ cells. (length cells.0 ≤ 16) × (length cells.1 ≤ 16)) }
{
    let (upper, lower) = parts_of(word);
    let upper = cells_in(alloc, upper, word)?;
    let lower = cells_in(alloc, lower, word)?;
    Ok((upper, lower))
}

/// The two parts of an operand around its first comma. Without a comma both are the whole operand.
fn parts_of(word: &str) -> (&str, &str)
    ensures upper { result.0.now ≡ (parts_around word.now).0 }
    ensures lower { result.1.now ≡ (parts_around word.now).1 }
{
    match word.split_once(',') {
        Some(parts) => parts,
        None => (word, word),
    }
}

/// The cells of a rule. `None` for `=`.
pub(crate) fn rule_cells(alloc: Global, word: &str) -> Result<Option<Cells>, Failure<WordFault>>
    ensures cells { Gives (rule_cells_of word.now) result }
    ensures some { IfOk result (λ given. IfSome given (λ cells. 1 ≤ length cells)) }
    ensures few { IfOk result (λ given. IfSome given (λ cells. length cells ≤ 16)) }
{
    if word == "=" {
        return Ok(None);
    }
    Ok(Some(cells_of(alloc, word)?))
}

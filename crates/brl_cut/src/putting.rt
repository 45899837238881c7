//! Puts a line before the one in whose place it is read.
ghost use Rattle.std.specs.Prelude.{◌≡◌, [], ◌∷◌, ◌++◌, IfOk, OnOk, map, string_bytes};
ghost use Rattle.brl_lines.specs.Views.{line_view, token_view};
ghost use Rattle.brl_cut.specs.Files.{edit_view};
ghost use Rattle.brl_cut.specs.Putting.{edit_if_put, edit_to, is_definition as is_definition_by, line_text as text_of_line, new_word as new_word_by, words_in_place as words_in_place_by};

use crate::files::Edit;
use brl_lines::{Line, Token};
use brl_table::survey;
use std::alloc::{AllocError, Global};
use std::slice;

/// The most bytes that are put before a line that is rewritten.
const MOST_PREFIX_BYTES: usize = 1024;

/// The words of a line, with a blank between two of them.
fn line_text(alloc: Global, line: &Line<'_>) -> Result<String, AllocError>
    ensures { IfOk result (λ text. string_bytes text ≡ text_of_line (line_view line.now)) }
{
    let mut text = String::from_str(alloc, line.opcode.text)?;
    for operand in &line.operands {
        text.push(' ')?;
        text.push_str(operand.text)?;
    }
    Ok(text)
}

/// A line of three words that are in no file, in the place of another line.
pub(crate) fn words_in_place<'a>(
    alloc: Global,
    line: &Line<'a>,
    opcode: &'a str,
    first: &'a str,
    second: &'a str,
) -> Result<Line<'a>, AllocError>
    ensures { IfOk result (λ new. line_view new ≡ words_in_place_by (line_view line.entry.now) opcode.entry.now first.entry.now second.entry.now) }
{
    let mut operands = Vec::with_capacity(alloc, 2)?;
    operands.push(new_word(first))?;
    operands.push(new_word(second))?;
    Ok(Line {
        file: line.file,
        line: line.line,
        opcode: new_word(opcode),
        operands,
    })
}

/// A word that is in no file.
fn new_word(text: &str) -> Token<'_>
    ensures { token_view result ≡ new_word_by text.now }
{
    Token { text, start: 0 }
}

/// Whether a line by itself defines a character, and has no fault.
fn is_definition(alloc: Global, line: &Line<'_>) -> Result<bool, AllocError>
    ensures { IfOk result (λ is. is ≡ is_definition_by (line_view line.now)) }
{
    let found = survey(alloc, slice::from_ref(line))?;
    Ok(found.has_characters && found.faulty.is_empty())
}

/// Adds the edit that puts a line before the one in its place.
fn push_put(alloc: Global, edits: &mut Vec<Edit>, new: &Line<'_>) -> Result<(), AllocError>
    ensures { OnOk result (map edit_view edits.new.items ≡ map edit_view edits.old.items ++ edit_to (line_view new.now) ∷ []) }
{
    let mut prefix = line_text(alloc, new)?;
    prefix.push_str(" # ")?;
    edits.push(Edit::new(alloc, new.file, new.line, prefix)?)?;
    Ok(())
}

/// Adds the edit that puts a line of three words before a line.
pub(crate) fn push_words(
    alloc: Global,
    edits: &mut Vec<Edit>,
    line: &Line<'_>,
    opcode: &str,
    first: &str,
    second: &str,
) -> Result<(), AllocError>
    ensures { OnOk result (map edit_view edits.new.items ≡ map edit_view edits.old.items ++ edit_to (words_in_place_by (line_view line.now) opcode.now first.now second.now) ∷ []) }
{
    let new = words_in_place(alloc, line, opcode, first, second)?;
    push_put(alloc, edits, &new)
}

/// Adds the edit that puts a line before the one in its place, where it may be put.
pub(crate) fn push_if_put(
    alloc: Global,
    edits: &mut Vec<Edit>,
    new: &Line<'_>,
) -> Result<(), AllocError>
    ensures { OnOk result (map edit_view edits.new.items ≡ map edit_view edits.old.items ++ edit_if_put (line_view new.now)) }
{
    let mut prefix = line_text(alloc, new)?;
    prefix.push_str(" # ")?;
    if is_definition(alloc, new)? && prefix.len() <= MOST_PREFIX_BYTES {
        edits.push(Edit::new(alloc, new.file, new.line, prefix)?)?;
    }
    Ok(())
}

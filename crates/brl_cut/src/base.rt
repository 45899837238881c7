//! Lines that begin with `base uppercase`: each is read as the `uplow` line of its two characters,
//! with the dots of the lowercase one for both.
ghost use Rattle.std.specs.Prelude.{◌≡◌, ◌++◌, IfOk, OnOk, flat_map, map, option_map, string_bytes};
ghost use Rattle.brl_lines.specs.Views.{line_view, token_view};
ghost use Rattle.brl_cut.specs.Files.{edit_view};
ghost use Rattle.brl_cut.specs.Putting.{edit_if_put};
ghost use Rattle.brl_cut.specs.Rewriting.{base_edit, base_edits, character_alone as character_spelled, dots_among as dots_spelled, edit_to_pair, edit_to_uplow, uplow_in_place};

use crate::files::Edit;
use crate::putting::{push_if_put, words_in_place};
use brl_cells::write_dots;
use brl_failure::Failure;
use brl_lines::{Line, Token, chars_of};
use brl_rules::Info;
use brl_table::good_characters;
use indexmap::IndexMap;
use std::alloc::{AllocError, Global};

/// The character that a word spells by itself.
fn character_alone(alloc: Global, word: &str) -> Result<Option<char>, AllocError>
    ensures { IfOk result (λ found. found ≡ character_spelled word.now) }
{
    match chars_of(alloc, word) {
        Ok(characters) => match characters.as_slice() {
            [character] => Ok(Some(*character)),
            _ => Ok(None),
        },
        Err(Failure::Fault(_)) => Ok(None),
        Err(Failure::Memory) => Err(AllocError),
    }
}

/// The dots of the character that a word spells, where it is one of these.
fn dots_among(
    alloc: Global,
    characters: &IndexMap<char, Info>,
    word: &str,
) -> Result<Option<String>, AllocError>
    ensures { IfOk result (λ found. option_map string_bytes found ≡ dots_spelled characters.now.entries word.now) }
{
    let Some(character) = character_alone(alloc, word)? else {
        return Ok(None);
    };
    match characters.get(&character) {
        Some(info) => Ok(Some(write_dots(alloc, info.cells.as_slice())?)),
        None => Ok(None),
    }
}

/// Adds the edit that puts an `uplow` line before a line: of two characters, both with these dots.
fn push_uplow(
    alloc: Global,
    edits: &mut Vec<Edit>,
    line: &Line<'_>,
    pair: &str,
    dots: &str,
) -> Result<(), AllocError>
    ensures { OnOk result (map edit_view edits.new.items ≡ map edit_view edits.old.items ++ edit_if_put (uplow_in_place (line_view line.now) pair.now dots.now)) }
{
    let new = words_in_place(alloc, line, "uplow", pair, dots)?;
    push_if_put(alloc, edits, &new)
}

/// Adds the edit that puts the `uplow` line of two words before a line, where each spells one
/// character and the second one's has dots among these.
fn push_pair(
    alloc: Global,
    edits: &mut Vec<Edit>,
    characters: &IndexMap<char, Info>,
    line: &Line<'_>,
    upper: &str,
    lower: &str,
) -> Result<(), AllocError>
    ensures { OnOk result (map edit_view edits.new.items ≡ map edit_view edits.old.items ++ edit_to_uplow characters.now.entries (line_view line.now) upper.now lower.now) }
{
    if character_alone(alloc, upper)?.is_none() {
        return Ok(());
    }
    let Some(dots) = dots_among(alloc, characters, lower)? else {
        return Ok(());
    };
    let mut pair = String::from_str(alloc, upper)?;
    pair.push_str(lower)?;
    push_uplow(alloc, edits, line, pair.as_str(), dots.as_str())
}

/// Adds the edit of a line that begins with `base` and has these operands, where the first is
/// `uppercase`.
fn push_operands(
    alloc: Global,
    edits: &mut Vec<Edit>,
    characters: &IndexMap<char, Info>,
    line: &Line<'_>,
    operands: &[Token<'_>],
) -> Result<(), AllocError>
    ensures { OnOk result (map edit_view edits.new.items ≡ map edit_view edits.old.items ++ edit_to_pair characters.now.entries (line_view line.now) (map token_view operands.now)) }
{
    let [attribute, upper, lower, ..] = operands else {
        return Ok(());
    };
    if attribute.text == "uppercase" {
        push_pair(alloc, edits, characters, line, upper.text, lower.text)?;
    }
    Ok(())
}

/// Adds the edit of a line that begins with `base uppercase`.
fn push_base(
    alloc: Global,
    edits: &mut Vec<Edit>,
    characters: &IndexMap<char, Info>,
    line: &Line<'_>,
) -> Result<(), AllocError>
    ensures { OnOk result (map edit_view edits.new.items ≡ map edit_view edits.old.items ++ base_edit characters.now.entries (line_view line.now)) }
{
    if line.opcode.text == "base" {
        push_operands(alloc, edits, characters, line, line.operands.as_slice())?;
    }
    Ok(())
}

/// The edits of lines that begin with `base uppercase`, with the dots of these characters.
fn edits_with(
    alloc: Global,
    characters: &IndexMap<char, Info>,
    lines: &[Line<'_>],
) -> Result<Vec<Edit>, AllocError>
    ensures { IfOk result (λ edits. map edit_view edits.items ≡ flat_map (base_edit characters.now.entries) (map line_view lines.now)) }
{
    let mut edits = Vec::new(alloc);
    for line in lines {
        push_base(alloc, &mut edits, characters, line)?;
    }
    Ok(edits)
}

/// The edits of lines that begin with `base uppercase`, with the dots that these lines give.
pub(crate) fn base_of_lines(alloc: Global, lines: &[Line<'_>]) -> Result<Vec<Edit>, AllocError>
    ensures { IfOk result (λ edits. map edit_view edits.items ≡ base_edits (map line_view lines.now)) }
{
    let characters = good_characters(alloc, lines)?;
    edits_with(alloc, &characters, lines)
}

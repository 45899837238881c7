//! Notes on the operands of a line that has a fault.
ghost use Rattle.std.specs.Prelude.{◌≡◌, ◌++◌, IfOk, OnOk, flat_map, map, option_map, string_bytes};
ghost use Rattle.std.specs.List.{list_any};
ghost use Rattle.brl_cells.specs.Dots.{reading};
ghost use Rattle.brl_lines.specs.Escapes.{characters_of};
ghost use Rattle.brl_lines.specs.Views.{line_view, token_view};
ghost use Rattle.brl_table.specs.Survey.{good_characters as good_characters_of};
ghost use Rattle.brl_explain.specs.Operands.{
  are_cells,
  are_swapped,
  characters_or_none,
  is_digit,
  is_prefix as is_prefix_word,
  is_undefined as is_undefined_code,
  lacking as lacking_after,
  lacking_of_two as lacking_of_characters_and_dots,
  missing_line,
  only_operand as only_operand_of,
  own_operands,
  spelled_unless,
  swapped_line,
  undefined_line,
};

use crate::details::{operand_of, push_titled};
use crate::explaining::code_of;
use brl_cells::read_dots;
use brl_failure::Failure;
use brl_lines::{Line, Token, chars_of, spell_visibly};
use brl_rules::Info;
use brl_table::{good_characters, indicator_named};
use indexmap::IndexMap;
use std::alloc::{AllocError, Global};

/// The most cells of dots.
const MOST_CELLS: usize = 16;

/// Whether a word comes before the opcode of a rule.
pub(crate) fn is_prefix(word: &str) -> bool
    ensures { result ≡ is_prefix_word word.now }
{
    word == "noback" || word == "nofor"
}

/// The operands of a line; after `noback` or `nofor` those of the rule.
fn own<'l, 'a>(line: &'l Line<'a>) -> &'l [Token<'a>]
    ensures { map token_view result.now ≡ own_operands (line_view line.now) }
{
    let operands = line.operands.as_slice();
    match operands {
        [_, others @ ..] if is_prefix(line.opcode.text) => others,
        _ => operands,
    }
}

/// Appends the note that the operands of a line seem to be swapped, where its fault is of dots.
pub(crate) fn push_swapped(
    alloc: Global,
    fault: &str,
    line: &Line<'_>,
    notes: &mut String,
) -> Result<(), AllocError>
    ensures { OnOk result (string_bytes notes.new ≡ string_bytes notes.old ++ swapped_line fault.now (line_view line.now)) }
{
    if code_of(fault) != "B4" || !seem_swapped(alloc, operand_of(fault), own(line))? {
        return Ok(());
    }
    notes.push_str("Operands: they seem to be swapped, since characters come before their dots\n")
}

/// Whether the first operand spells cells, and the second, whose dots these are, has no digit.
fn seem_swapped(alloc: Global, dots: &str, operands: &[Token<'_>]) -> Result<bool, AllocError>
    ensures { IfOk result (λ are. are ≡ are_swapped dots.now (map token_view operands.now)) }
{
    let [first, second, ..] = operands else {
        return Ok(false);
    };
    if second.text != dots || has_digit(dots) {
        return Ok(false);
    }
    spells_cells(alloc, first.text)
}

/// Whether a text has a digit.
fn has_digit(text: &str) -> bool
    ensures { result ≡ list_any is_digit text.now }
{
    text.as_bytes().iter().any(|byte| byte.is_ascii_digit())
}

/// Whether dots spell cells.
fn spells_cells(alloc: Global, dots: &str) -> Result<bool, AllocError>
    ensures { IfOk result (λ are. are ≡ are_cells (reading 16 dots.now)) }
{
    match read_dots(alloc, dots, MOST_CELLS) {
        Ok(_) => Ok(true),
        Err(Failure::Fault(_)) => Ok(false),
        Err(Failure::Memory) => Err(AllocError),
    }
}

/// Appends what a line lacks of the operands that its opcode needs, where its fault is that one is
/// missing.
pub(crate) fn push_missing(
    fault: &str,
    line: &Line<'_>,
    notes: &mut String,
) -> Result<(), AllocError>
    ensures { OnOk result (string_bytes notes.new ≡ string_bytes notes.old ++ missing_line fault.now (line_view line.now)) }
{
    if code_of(fault) != "B2" {
        return Ok(());
    }
    push_titled(
        notes,
        "Missing: ",
        lacking(operand_of(fault), own(line).len()),
    )
}

/// What lacks of the operands that an opcode needs, after this number of them.
fn lacking(opcode: &str, operands: usize) -> &'static str
    ensures { result.now ≡ lacking_after opcode.now operands }
{
    match only_operand(opcode) {
        Some(only) if operands == 0 => only,
        Some(_) => "",
        None => lacking_of_two(operands),
    }
}

/// What lacks of characters and dots, after this number of operands.
fn lacking_of_two(operands: usize) -> &'static str
    ensures { result.now ≡ lacking_of_characters_and_dots operands }
{
    match operands {
        0 => "characters and dots",
        1 => "dots",
        _ => "",
    }
}

/// The operand of an opcode that needs one; the others need characters and dots.
fn only_operand(opcode: &str) -> Option<&'static str>
    ensures { option_map (λ only. only.now) result ≡ only_operand_of opcode.now }
{
    if indicator_named(opcode).is_some() {
        Some("dots")
    } else if opcode == "numericmodechars" || opcode == "numericnocontchars" {
        Some("characters")
    } else if opcode == "include" {
        Some("the name of a file")
    } else if is_prefix(opcode) {
        Some("a rule")
    } else {
        None
    }
}

/// Appends the characters of a fault's operand that no line of a file defines, where that is its
/// fault.
pub(crate) fn push_undefined(
    alloc: Global,
    fault: &str,
    file: &str,
    lines: &[Line<'_>],
    notes: &mut String,
) -> Result<(), AllocError>
    ensures { OnOk result (string_bytes notes.new ≡ string_bytes notes.old ++ undefined_line fault.now file.now (map line_view lines.now)) }
{
    if !is_undefined(code_of(fault)) {
        return Ok(());
    }
    let title = format!(in alloc; "Not defined in {file}:")?;
    let known = good_characters(alloc, lines)?;
    let text = undefined_in(alloc, &known, operand_of(fault))?;
    push_titled(notes, title.as_str(), text.as_str())
}

/// Whether a fault with this code is that no line defines a character.
fn is_undefined(code: &str) -> bool
    ensures { result ≡ is_undefined_code code.now }
{
    code == "B5" || code == "B6"
}

/// The characters that an operand spells and that aren't among these, each after a blank.
fn undefined_in(
    alloc: Global,
    known: &IndexMap<char, Info>,
    operand: &str,
) -> Result<String, AllocError>
    ensures { IfOk result (λ text. string_bytes text ≡ flat_map (spelled_unless known.now.entries) (characters_or_none (characters_of operand.now))) }
{
    match chars_of(alloc, operand) {
        Ok(characters) => undefined_among(alloc, known, characters.as_slice()),
        Err(Failure::Fault(_)) => Ok(String::new(alloc)),
        Err(Failure::Memory) => Err(AllocError),
    }
}

/// The characters that aren't among these known ones, each after a blank.
fn undefined_among(
    alloc: Global,
    known: &IndexMap<char, Info>,
    characters: &[char],
) -> Result<String, AllocError>
    ensures { IfOk result (λ text. string_bytes text ≡ flat_map (spelled_unless known.now.entries) characters.now) }
{
    let mut text = String::new(alloc);
    for character in characters {
        push_unless_known(alloc, known, *character, &mut text)?;
    }
    Ok(text)
}

/// Appends a character after a blank, unless it is one of these.
fn push_unless_known(
    alloc: Global,
    known: &IndexMap<char, Info>,
    character: char,
    text: &mut String,
) -> Result<(), AllocError>
    ensures { OnOk result (string_bytes text.new ≡ string_bytes text.old ++ spelled_unless known.now.entries character) }
{
    if known.contains_key(&character) {
        return Ok(());
    }
    text.push(' ')?;
    text.push_str(spell_visibly(alloc, &[character])?.as_str())
}

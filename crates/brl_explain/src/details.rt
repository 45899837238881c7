//! What can be seen in the line of a fault itself.
ghost use Rattle.std.specs.Prelude.{◌≡◌, ◌++◌, ◌<◌, ◌||◌, not, find, IfOk, OnOk, flat_map, option_map, string_bytes, chars};
ghost use Rattle.brl_cells.specs.Dots.{reading};
ghost use Rattle.brl_lines.specs.Escapes.{characters_of};
ghost use Rattle.brl_explain.specs.Details.{
  by_number,
  byte_digits,
  dots_line,
  count_line,
  count_note as note_on_count,
  dots_note as note_on_dots,
  explanation as explanation_with,
  explanation_of,
  is_mark,
  is_unclear as is_unclear_mark,
  is_virtual as is_virtual_dot,
  mark_note as note_on_mark,
  note_line,
  opcode_line,
  odd_mark as odd_mark_of,
  sides_note as note_on_sides,
  whole_note as note_on_whole,
  operand_of as operand_of_line,
  titled,
  unclear_spelling,
};

use crate::explaining::{after_first_word, code_of, first_word, text_of_fault};
use crate::opcodes::opcode_note;
use brl_cells::{DotsFault, read_dots};
use brl_failure::Failure;
use brl_lines::chars_of;
use std::alloc::{AllocError, Global};

/// The most cells of dots.
const MOST_CELLS: usize = 16;

/// What explains the line of a fault, or its code alone: its form, when it comes, what it names,
/// what to do about it, and notes on this line. The line begins with its code, or has it after
/// `refused:`; what it names is there for a line of a table. Notes are the opcode that may be
/// meant, why its dots spell no cells, and by their numbers the characters that may be taken for
/// others or not be seen. `None` where no fault has the code.
///
/// Every line ends with LF. `AllocError` if memory runs out.
pub fn explain(alloc: Global, line: &str) -> Result<Option<String>, AllocError>
    ensures { IfOk result (λ text. option_map string_bytes text ≡ explanation_of line.now) }
{
    match text_of_fault(line) {
        Some(text) => Ok(Some(explanation(alloc, text, line)?)),
        None => Ok(None),
    }
}

/// The text for the fault of a line, and what can be seen in the line.
fn explanation(alloc: Global, fault: &str, line: &str) -> Result<String, AllocError>
    ensures { IfOk result (λ text. string_bytes text ≡ explanation_with fault.now line.now) }
{
    let mut text = String::from_str(alloc, fault)?;
    push_opcode_line(alloc, &mut text, line)?;
    push_dots_line(alloc, &mut text, line)?;
    push_count_line(alloc, &mut text, line)?;
    push_titled(
        &mut text,
        "Characters:",
        unclear_characters(alloc, line)?.as_str(),
    )?;
    Ok(text)
}

/// Appends the note on the opcode that a line names, where its fault is of an opcode.
fn push_opcode_line(alloc: Global, text: &mut String, line: &str) -> Result<(), AllocError>
    ensures { OnOk result (string_bytes text.new ≡ string_bytes text.old ++ opcode_line line.now) }
{
    let opcode = operand_of(line);
    if code_of(line) != "B1" || opcode.is_empty() {
        return Ok(());
    }
    push_titled(text, "Opcode: ", opcode_note(alloc, opcode)?.as_str())
}

/// Appends what is wrong with the dots that a line names, if its fault is of dots and it names
/// some.
fn push_dots_line(alloc: Global, text: &mut String, line: &str) -> Result<(), AllocError>
    ensures { OnOk result (string_bytes text.new ≡ string_bytes text.old ++ dots_line line.now) }
{
    let dots = operand_of(line);
    if code_of(line) != "B4" || dots.is_empty() {
        return Ok(());
    }
    push_dots(alloc, text, dots)
}

/// Appends what is wrong with the characters that a line names, if its fault is of them and it
/// names some.
fn push_count_line(alloc: Global, text: &mut String, line: &str) -> Result<(), AllocError>
    ensures { OnOk result (string_bytes text.new ≡ string_bytes text.old ++ count_line line.now) }
{
    let operand = operand_of(line);
    if code_of(line) != "B3" || operand.is_empty() {
        return Ok(());
    }
    push_titled(text, "Operand: ", count_note(alloc, operand)?.as_str())
}

/// The note on how many characters an operand spells, or that it has a bad escape.
fn count_note(alloc: Global, operand: &str) -> Result<String, AllocError>
    ensures { IfOk result (λ note. string_bytes note ≡ note_on_count (characters_of operand.now)) }
{
    match chars_of(alloc, operand) {
        Ok(characters) => number_note(alloc, characters.as_slice()),
        Err(Failure::Fault(_)) => String::from_str(alloc, "a backslash there begins no escape"),
        Err(Failure::Memory) => Err(AllocError),
    }
}

/// The note on the number of characters where one is taken, or by `uplow` two.
fn number_note(alloc: Global, characters: &[char]) -> Result<String, AllocError>
    ensures { IfOk result (λ note. string_bytes note ≡ note_on_count (Ok characters.now)) }
{
    if characters.len() == 1 {
        return String::from_str(alloc, "1 character, where uplow takes two different ones");
    }
    let mut note = characters.len().to_string(alloc)?;
    note.push_str(" characters, where exactly one is taken, or by uplow two different ones")?;
    Ok(note)
}

/// The operand that a fault's line names: its third word.
pub(crate) fn operand_of(line: &str) -> &str
    ensures { result.now ≡ operand_of_line line.now }
{
    first_word(after_first_word(after_first_word(line)))
}

/// Appends a line with a title, unless there is nothing to follow it.
pub(crate) fn push_titled(text: &mut String, title: &str, rest: &str) -> Result<(), AllocError>
    ensures { OnOk result (string_bytes text.new ≡ string_bytes text.old ++ titled title.now rest.now) }
{
    if rest.is_empty() {
        return Ok(());
    }
    text.push_str(title)?;
    text.push_str(rest)?;
    text.push('\n')
}

/// The unclear characters of a line, each by its number after a blank.
pub(crate) fn unclear_characters(alloc: Global, line: &str) -> Result<String, AllocError>
    ensures { IfOk result (λ text. string_bytes text ≡ flat_map unclear_spelling (chars line.now)) }
{
    let mut text = String::new(alloc);
    for character in line.chars() {
        push_unclear(&mut text, character)?;
    }
    Ok(text)
}

/// Appends an unclear character by its number, after a blank; nothing of another.
fn push_unclear(text: &mut String, character: char) -> Result<(), AllocError>
    ensures { OnOk result (string_bytes text.new ≡ string_bytes text.old ++ unclear_spelling character) }
{
    if !is_unclear(character) {
        return Ok(());
    }
    text.push(' ')?;
    push_by_number(text, character)
}

/// Whether a character is neither a blank nor a visible one of ASCII.
fn is_unclear(character: char) -> bool
    ensures { result ≡ is_unclear_mark character }
{
    let code = u32::from(character);
    code < 32 || 127 <= code
}

/// Appends a character by its number, as an operand of a table may spell it.
fn push_by_number(text: &mut String, character: char) -> Result<(), AllocError>
    ensures { OnOk result (string_bytes text.new ≡ string_bytes text.old ++ by_number character) }
{
    let code = u32::from(character);
    if code < 65536 {
        text.push_str("\\x")?;
        push_byte(text, code / 256)?;
        return push_byte(text, code % 256);
    }
    text.push_str("\\z00")?;
    push_byte(text, code / 65536)?;
    push_byte(text, code / 256 % 256)?;
    push_byte(text, code % 256)
}

/// Appends the two hexadecimal digits of a byte.
pub(crate) fn push_byte(text: &mut String, byte: u32) -> Result<(), AllocError>
    requires { byte < 256 }
    ensures { OnOk result (string_bytes text.new ≡ string_bytes text.old ++ byte_digits byte) }
{
    write!(text, "{byte:02x}")?;
    Ok(())
}

/// Appends what is wrong with dots, if anything is.
fn push_dots(alloc: Global, text: &mut String, dots: &str) -> Result<(), AllocError>
    ensures { OnOk result (string_bytes text.new ≡ string_bytes text.old ++ note_line dots.now) }
{
    push_titled(text, "Dots: ", whole_note(alloc, dots)?.as_str())
}

/// The note on dots, which one comma may part.
fn whole_note(alloc: Global, dots: &str) -> Result<String, AllocError>
    ensures { IfOk result (λ note. string_bytes note ≡ note_on_whole dots.now) }
{
    match dots.split_once(',') {
        Some((upper, lower)) => sides_note(alloc, upper, lower),
        None => dots_note(alloc, dots),
    }
}

/// The note on dots before a comma or, where these are right, of those after it; where both are
/// right, of the comma.
fn sides_note(alloc: Global, upper: &str, lower: &str) -> Result<String, AllocError>
    ensures { IfOk result (λ note. string_bytes note ≡ note_on_sides upper.now lower.now) }
{
    let note = dots_note(alloc, upper)?;
    if !note.is_empty() {
        return Ok(note);
    }
    let note = dots_note(alloc, lower)?;
    if !note.is_empty() {
        return Ok(note);
    }
    String::from_str(alloc, "a comma is read in uplow alone")
}

/// The note on dots that spell no cells, or too many; empty for others.
fn dots_note(alloc: Global, dots: &str) -> Result<String, AllocError>
    ensures { IfOk result (λ note. string_bytes note ≡ note_on_dots dots.now (reading 16 dots.now)) }
{
    match read_dots(alloc, dots, MOST_CELLS) {
        Ok(_) => Ok(String::new(alloc)),
        Err(Failure::Fault(DotsFault::EmptyCell)) => String::from_str(alloc, "a cell is empty"),
        Err(Failure::Fault(DotsFault::BadDot)) => mark_note(alloc, odd_mark(dots)),
        Err(Failure::Fault(DotsFault::RepeatedDot)) => {
            String::from_str(alloc, "a dot is in a cell twice")
        }
        Err(Failure::Fault(DotsFault::TooManyCells)) => {
            String::from_str(alloc, "there are more than 16 cells")
        }
        Err(Failure::Memory) => Err(AllocError),
    }
}

/// The first character of dots that is neither a dot, nor the blank cell, nor joins cells, and no
/// virtual dot; where none is, the first virtual dot.
fn odd_mark(dots: &str) -> Option<char>
    ensures { result ≡ odd_mark_of dots.now }
{
    match strange_mark(dots) {
        Some(mark) => Some(mark),
        None => virtual_mark(dots),
    }
}

/// The first character of dots that is none of a cell's, and no virtual dot.
fn strange_mark(dots: &str) -> Option<char>
    ensures { result ≡ find (λ c. not (is_mark c || is_virtual_dot c)) (chars dots.now) }
{
    dots.chars().find(|mark| !matches!(*mark, '0'..='9' | '-' | 'a'..='f' | 'A'..='F'))
}

/// The first virtual dot of dots.
fn virtual_mark(dots: &str) -> Option<char>
    ensures { result ≡ find is_virtual_dot (chars dots.now) }
{
    dots.chars()
        .find(|mark| matches!(*mark, '9' | 'a'..='f' | 'A'..='F'))
}

/// The note on the first odd character of dots.
fn mark_note(alloc: Global, mark: Option<char>) -> Result<String, AllocError>
    ensures { IfOk result (λ note. string_bytes note ≡ note_on_mark mark) }
{
    let Some(mark) = mark else {
        return String::from_str(alloc, "0 is a cell by itself");
    };
    let mut note = String::new(alloc);
    note.push(mark)?;
    note.push_str(if is_virtual(mark) {
        " is a virtual dot, which isn't read"
    } else {
        " is no dot"
    })?;
    Ok(note)
}

/// Whether a character is a virtual dot of liblouis.
fn is_virtual(mark: char) -> bool
    ensures { result ≡ is_virtual_dot mark }
{
    matches!(mark, '9' | 'a'..='f' | 'A'..='F')
}

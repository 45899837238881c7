//! What can be seen in the file that a fault's line names.
ghost use Rattle.std.specs.Prelude.{◌≡◌, ◌++◌, ◌<◌, IfOk, OnOk, count_by, flat_map, length, map, option_map, string_bytes, chars};
ghost use Rattle.std.specs.List.{after_first, before_first};
ghost use Rattle.brl_lines.specs.Answer.{FileAnswer as FileAnswerValue};
ghost use Rattle.brl_lines.specs.Lines.{LocationView as LocationValue};
ghost use Rattle.brl_lines.specs.Views.{line_view};
ghost use Rattle.brl_report.specs.Rules.{borrowed_line_view};
ghost use Rattle.brl_explain.specs.Details.{unclear_spelling};
ghost use Rattle.brl_explain.specs.InFile.{
  AreByteNotes,
  AreNotes,
  AreNotesAt,
  after_operand as after_operand_of,
  byte_at,
  byte_note as note_on_bytes,
  earlier_line,
  faulty_line,
  first_definition,
  is_colon,
  is_feed,
  line_notes as notes_on_line,
  line_with,
  place_in as place_spelled,
  place_of as place_of_line,
  place_view,
  prefix_line,
  unclear_line,
  words_line,
};

use crate::details::{operand_of, push_byte, push_titled, unclear_characters};
use crate::explaining::{after_first_word, code_of, first_word};
use crate::operands::{is_prefix, push_missing, push_swapped, push_undefined};
use brl_failure::Failure;
use brl_lines::{Line, Source, load, read_number};
use brl_report::{Wanted, first_line, push_source_line, push_words};
use brl_table::indicator_named;
use std::alloc::{AllocError, Global};
use std::str;

/// A file and the number of one of its lines, from 1.
#[derive(Clone, Copy)]
struct Place<'a> {
    file: &'a str,
    line: u32,
}

/// Notes on the file that a fault's line names, as it is now. For a fault of a table's line, which
/// ends with `at FILE:LINE`: that line, a prefix before an opcode that isn't read, and by their
/// numbers the line's characters that may be taken for others or not be seen; for an indicator that
/// is defined again also the line that defined it first. For a file that isn't UTF-8 the first byte
/// that isn't, and its line. Empty for other faults, and where the files of FILE can't be loaded or
/// the line isn't there.
///
/// Every line ends with LF. `AllocError` if memory runs out.
pub fn file_notes<S: Source>(
    alloc: Global,
    source: &mut S,
    line: &str,
) -> Result<String, AllocError>
    ensures notes { IfOk result (λ notes. AreNotes (S.gives source.old) line.now (string_bytes notes)) }
    ensures same { S.gives source.new ≡ S.gives source.old }
{
    if code_of(line) == "L3" {
        return byte_notes(alloc, source, operand_of(line));
    }
    notes_at(alloc, source, line, place_of(line))
}

/// The notes on the table's line at a place, if there is one, which has this fault.
fn notes_at<S: Source>(
    alloc: Global,
    source: &mut S,
    fault: &str,
    place: Option<Place<'_>>,
) -> Result<String, AllocError>
    ensures notes { IfOk result (λ notes. AreNotesAt (S.gives source.old) fault.now (option_map place_view place.entry) (string_bytes notes)) }
    ensures same { S.gives source.new ≡ S.gives source.old }
{
    let Some(place) = place else {
        return Ok(String::new(alloc));
    };
    match load(alloc, source, place.file) {
        Ok(loaded) => line_notes(alloc, fault, place, loaded.lines(alloc)?.as_slice()),
        Err(Failure::Fault(_)) => line_notes(alloc, fault, place, &[]),
        Err(Failure::Memory) => Err(AllocError),
    }
}

/// The place of a table's line that has a fault, if the fault's line names one.
fn place_of(line: &str) -> Option<Place<'_>>
    ensures { option_map place_view result ≡ place_of_line line.now }
{
    let rest = after_operand(line);
    if code_of(line).starts_with("B") && first_word(rest) == "at" {
        place_in(after_first_word(rest))
    } else {
        None
    }
}

/// The words after the third one of a line.
fn after_operand(line: &str) -> &str
    ensures { result.now ≡ after_operand_of line.now }
{
    after_first_word(after_first_word(after_first_word(line)))
}

/// The place that is spelled FILE:LINE.
fn place_in(spelled: &str) -> Option<Place<'_>>
    ensures { option_map place_view result ≡ place_spelled spelled.now }
{
    let (file, digits) = spelled.split_once(':')?;
    let number = read_number(digits.as_bytes(), 10, u32::MAX as u64)?;
    Some(Place {
        file,
        line: number as u32,
    })
}

/// What is seen of a fault at a place among the lines of a table.
fn line_notes(
    alloc: Global,
    fault: &str,
    place: Place<'_>,
    lines: &[Line<'_>],
) -> Result<String, AllocError>
    ensures { IfOk result (λ notes. string_bytes notes ≡ notes_on_line fault.now (place_view place.entry) (map line_view lines.now)) }
{
    let mut notes = String::new(alloc);
    if let Some(line) = first_line(lines, Wanted::At(place.file, place.line)) {
        push_line_with(alloc, fault, line, lines, &mut notes)?;
    }
    push_first_definition(fault, place, lines, &mut notes)?;
    Ok(notes)
}

/// Appends a line that has a fault, and which characters the lines of its file don't define.
fn push_line_with(
    alloc: Global,
    fault: &str,
    line: &Line<'_>,
    lines: &[Line<'_>],
    notes: &mut String,
) -> Result<(), AllocError>
    ensures { OnOk result (string_bytes notes.new ≡ string_bytes notes.old ++ line_with fault.now (map line_view lines.now) (line_view line.now)) }
{
    push_faulty_line(alloc, fault, line, notes)?;
    push_undefined(alloc, fault, line.file, lines, notes)
}

/// Appends a line that has a fault, what is seen of its words, and its unclear characters.
fn push_faulty_line(
    alloc: Global,
    fault: &str,
    line: &Line<'_>,
    notes: &mut String,
) -> Result<(), AllocError>
    ensures { OnOk result (string_bytes notes.new ≡ string_bytes notes.old ++ faulty_line fault.now (line_view line.now)) }
{
    notes.push_str("Line:\n")?;
    push_source_line(line, notes)?;
    push_seen_words(alloc, fault, line, notes)?;
    push_unclear_words(alloc, line, notes)
}

/// Appends the unclear characters of a line, in order, by their numbers.
fn push_unclear_words(alloc: Global, line: &Line<'_>, notes: &mut String) -> Result<(), AllocError>
    ensures { OnOk result (string_bytes notes.new ≡ string_bytes notes.old ++ unclear_line (line_view line.now)) }
{
    let mut words = String::new(alloc);
    push_words(line, &mut words)?;
    push_titled(
        notes,
        "Characters of the line:",
        unclear_characters(alloc, words.as_str())?.as_str(),
    )
}

/// Appends what is seen of the words of a line that has a fault: its prefix, and its operands.
fn push_seen_words(
    alloc: Global,
    fault: &str,
    line: &Line<'_>,
    notes: &mut String,
) -> Result<(), AllocError>
    ensures { OnOk result (string_bytes notes.new ≡ string_bytes notes.old ++ words_line fault.now (line_view line.now)) }
{
    push_prefix(fault, line.opcode.text, notes)?;
    push_swapped(alloc, fault, line, notes)?;
    push_missing(fault, line, notes)
}

/// Appends the prefix with which a line begins whose opcode isn't read.
fn push_prefix(fault: &str, opcode: &str, notes: &mut String) -> Result<(), AllocError>
    ensures { OnOk result (string_bytes notes.new ≡ string_bytes notes.old ++ prefix_line fault.now opcode.now) }
{
    if code_of(fault) != "B1" || !is_prefix(opcode) {
        return Ok(());
    }
    notes.push_str("Prefix: ")?;
    notes.push_str(opcode)?;
    notes.push('\n')
}

/// Appends the line that defined the indicator first that a line defines again, where its fault is
/// that.
fn push_first_definition(
    fault: &str,
    place: Place<'_>,
    lines: &[Line<'_>],
    notes: &mut String,
) -> Result<(), AllocError>
    ensures { OnOk result (string_bytes notes.new ≡ string_bytes notes.old ++ first_definition fault.now (place_view place.entry) (map line_view lines.now)) }
{
    if code_of(fault) != "B9" {
        return Ok(());
    }
    let Some(sign) = indicator_named(operand_of(fault)) else {
        return Ok(());
    };
    match first_line(lines, Wanted::Giving(sign)) {
        Some(line) => push_earlier(place, line, notes),
        None => Ok(()),
    }
}

/// Appends a line, unless it is the one at the place.
fn push_earlier(place: Place<'_>, line: &Line<'_>, notes: &mut String) -> Result<(), AllocError>
    ensures { OnOk result (string_bytes notes.new ≡ string_bytes notes.old ++ earlier_line (place_view place.entry) (line_view line.now)) }
{
    if line.line == place.line && line.file == place.file {
        return Ok(());
    }
    notes.push_str("First:\n")?;
    push_source_line(line, notes)
}

/// The notes on the file at a path, whose bytes aren't all UTF-8.
fn byte_notes<S: Source>(alloc: Global, source: &mut S, path: &str) -> Result<String, AllocError>
    ensures notes { IfOk result (λ notes. AreByteNotes (S.gives source.old) path.now (string_bytes notes)) }
    ensures same { S.gives source.new ≡ S.gives source.old }
{
    match source.read(alloc, path) {
        Ok(bytes) => byte_note(alloc, path, bytes.as_slice()),
        Err(Failure::Fault(_)) => Ok(String::new(alloc)),
        Err(Failure::Memory) => Err(AllocError),
    }
}

/// The first byte of a file that isn't UTF-8, if one isn't.
fn byte_note(alloc: Global, path: &str, bytes: &[u8]) -> Result<String, AllocError>
    ensures { IfOk result (λ note. string_bytes note ≡ note_on_bytes path.now bytes.now) }
{
    match str::from_utf8(bytes) {
        Ok(_) => Ok(String::new(alloc)),
        Err(error) => placed_byte(alloc, path, bytes, error.valid_up_to()),
    }
}

/// The byte of a file after this number of others, in hexadecimal digits, and its place.
fn placed_byte(alloc: Global, path: &str, bytes: &[u8], before: usize) -> Result<String, AllocError>
    requires { before < length bytes.now }
    ensures { IfOk result (λ note. string_bytes note ≡ byte_at path.now bytes.now before) }
{
    let mut note = String::from_str(alloc, "Byte: ")?;
    push_byte(&mut note, bytes[before] as u32)?;
    let number = feed_count(&bytes[..before]) + 1;
    write!(note, " at {path}:{number}")?;
    note.push('\n')?;
    Ok(note)
}

/// The number of line feeds among bytes.
fn feed_count(bytes: &[u8]) -> usize
    ensures { result ≡ count_by is_feed bytes.now }
{
    bytes.iter().filter(|byte| **byte == b'\n').count()
}

//! The output of one line.
ghost use Rattle.std.specs.Prelude.{◌≡◌, ◌≢◌, ◌≤◌, ◌<◌, ◌+◌, ◌^◌, ◌++◌, [], ℕ, List, length, Err, IfOk, OnOk, IsErrOf};
ghost use Rattle.std.specs.Str.{chars};
ghost use Rattle.brl_stream.specs.Output.{at_line as fault_at, mark_of, marks_of, output_by, output_of};
ghost use Rattle.brl_stream.specs.Lacking.{Use, summary, uses_in};
ghost use Rattle.brl_stream.specs.Noting.{IsNoted};
ghost use Rattle.brl_failure.specs.Failure.{IsChanged};
ghost use Rattle.brl_failure.specs.declared.failure.Failure.TheVariants as failures;
ghost use Rattle.brl_stream.specs.Writing.{Pushes, IsMade, IsPassedOver, WritesOutput, line_fault_of as of_forward};

use crate::lacking::{Noted, list_noted, note};
use crate::{Form, Lacking, LineFault, Output, StreamFault};
use brl_cells::{Cell, to_ascii, to_unicode};
use brl_failure::{Failure, raise};
use brl_forward::{ForwardFault, translate};
use brl_rules::Table;
use std::alloc::{AllocError, Global};
use std::str;

/// Buffers for the characters of a line and for its output. The next line uses them again.
#[derive(Drop)]
pub struct Scratch {
    text: Vec<char>,
    output: Vec<u8>,
}

impl Scratch {
    /// Two empty buffers. They take no memory yet.
    pub fn new(alloc: Global) -> Scratch
        ensures text { result.text.items ≡ [] }
        ensures output { result.output.items ≡ [] }
    {
        Scratch {
            text: Vec::new(alloc),
            output: Vec::new(alloc),
        }
    }
}

/// What is kept from line to line: buffers, and what was noted.
#[derive(Drop)]
pub struct Kept {
    /// Whether a line with a character that the table doesn't define is passed over, and these
    /// characters are noted; else it is a fault.
    passes: bool,
    noted: Noted,
    scratch: Scratch,
}

impl Kept {
    /// Nothing was noted yet. It takes no memory yet.
    pub fn new(alloc: Global, passes: bool) -> Kept
        ensures passes { result.passes ≡ passes }
        ensures noted { IsNoted [] result.noted }
    {
        Kept {
            passes,
            noted: Noted::new(alloc),
            scratch: Scratch::new(alloc),
        }
    }

    /// The characters that were noted.
    pub fn list(&self, alloc: Global) -> Result<Vec<Lacking>, AllocError>
        ensures { IfOk result (λ list. (uses : List Use) → IsNoted uses self.now.noted → list.items ≡ summary uses) }
    {
        list_noted(alloc, &self.noted)
    }
}

/// Writes the output of the line with this number, in one write. The characters that the table
/// doesn't define are noted where such a line is passed over.
pub fn write_line<W: Output>(
    alloc: Global,
    table: &Table,
    form: Form,
    line: &[u8],
    number: u64,
    kept: &mut Kept,
    writer: &mut W,
) -> Result<(), Failure<StreamFault>>
    requires short { length line.now ≤ 65536 }
    requires few { (uses : List Use) × IsNoted uses kept.old.noted × (length uses + length line.now < 2 ^ 64) }
    ensures written { WritesOutput (output_by kept.old.passes table.now form line.now) number (W.contents writer.old) (W.contents writer.new)
        result }
    ensures noted { OnOk result ((uses : List Use) → IsNoted uses kept.old.noted
        → IsNoted (uses ++ uses_in table.now number (chars line.now)) kept.new.noted) }
    ensures passes { kept.new.passes ≡ kept.old.passes }
    ensures cause { IsErrOf result (failures.Fault (fault_at number LineFault.OutputFailed)) → W.failures writer.new ≢ W.failures writer.old }
    ensures calm { OnOk result (W.failures writer.new ≡ W.failures writer.old) }
{
    if let Err(failure) = make_output(alloc, table, form, line, &mut kept.scratch) {
        return pass_over(table, number, failure, kept);
    }
    match writer.put(kept.scratch.output.as_slice()) {
        Ok(()) => Ok(()),
        Err(_) => Err(at_line(number, Failure::Fault(LineFault::OutputFailed))),
    }
}

/// Passes over a line without output, where it is one to be passed over, and notes the characters
/// that the table doesn't define. The characters of the line are in the buffer.
fn pass_over(
    table: &Table,
    number: u64,
    failure: Failure<LineFault>,
    kept: &mut Kept,
) -> Result<(), Failure<StreamFault>>
    requires { (position : ℕ) → failure ≡ failures.Fault (LineFault.UnknownChar position)
        → (uses : List Use) × IsNoted uses kept.old.noted × (length uses + length kept.old.scratch.text.items < 2 ^ 64) }
    ensures passed { IsPassedOver kept.old.passes number failure result }
    ensures noted { OnOk result ((uses : List Use) → IsNoted uses kept.old.noted
        → IsNoted (uses ++ uses_in table.now number kept.old.scratch.text.items) kept.new.noted) }
    ensures passes { kept.new.passes ≡ kept.old.passes }
{
    match failure {
        Failure::Fault(LineFault::UnknownChar(_)) if kept.passes => {
            note(table, kept.scratch.text.as_slice(), number, &mut kept.noted)?;
            Ok(())
        }
        failure => Err(at_line(number, failure)),
    }
}

/// The failure of a line, with the number of the line.
fn at_line(line: u64, failure: Failure<LineFault>) -> Failure<StreamFault>
    ensures { IsChanged (λ fault found. found ≡ fault_at line fault) failure result }
{
    match failure {
        Failure::Fault(fault) => Failure::Fault(StreamFault { line, fault }),
        Failure::Memory => Failure::Memory,
    }
}

/// A fault of translation, as the fault of a line.
fn line_fault_of(fault: ForwardFault) -> LineFault
    ensures { result ≡ of_forward fault }
{
    match fault {
        ForwardFault::UnknownChar(position) => LineFault::UnknownChar(position),
    }
}

/// Makes a line's output in the buffer: the marks of its translation and a line feed.
fn make_output(
    alloc: Global,
    table: &Table,
    form: Form,
    line: &[u8],
    scratch: &mut Scratch,
) -> Result<(), Failure<LineFault>>
    requires { length line.now ≤ 65536 }
    ensures made { IsMade (output_of table.now form line.now) scratch.new.output.items result }
    ensures text { (position : ℕ) → result ≡ Err (failures.Fault (LineFault.UnknownChar position)) → scratch.new.text.items ≡ chars line.now }
{
    let Ok(text) = str::from_utf8(line) else {
        return Err(Failure::Fault(LineFault::InputNotUtf8));
    };
    set_chars(text, &mut scratch.text)?;
    let cells = raise(
        translate(alloc, table, scratch.text.as_slice()),
        line_fault_of,
    )?;
    scratch.output.clear();
    push_marks(form, cells.as_slice(), &mut scratch.output)?;
    scratch.output.push(b'\n')?;
    Ok(())
}

/// Replaces the contents of a buffer by the characters of a text.
fn set_chars(text: &str, buffer: &mut Vec<char>) -> Result<(), AllocError>
    ensures { OnOk result (buffer.new.items ≡ chars text.now) }
{
    buffer.clear();
    for character in text.chars() {
        if buffer.capacity() <= buffer.len() {
            buffer.reserve(1)?;
        }
        buffer.push_reserved(character);
    }
    Ok(())
}

/// Appends the marks of cells in a form.
fn push_marks(form: Form, cells: &[Cell], output: &mut Vec<u8>) -> Result<(), Failure<LineFault>>
    ensures { Pushes (marks_of form cells.now) output.old.items output.new.items result }
{
    for cell in cells {
        push_mark(form, *cell, output)?;
    }
    Ok(())
}

/// Appends the mark of a cell in a form. `NoAscii` where it has none.
fn push_mark(form: Form, cell: Cell, output: &mut Vec<u8>) -> Result<(), Failure<LineFault>>
    ensures { Pushes (mark_of form cell) output.old.items output.new.items result }
{
    match form {
        Form::Ascii => match to_ascii(cell) {
            Some(mark) => append(&[mark], output)?,
            None => return Err(Failure::Fault(LineFault::NoAscii)),
        },
        Form::Unicode => {
            let mut bytes = [0; 4];
            let mark = to_unicode(cell).encode_utf8(&mut bytes);
            append(mark.as_bytes(), output)?;
        }
    }
    Ok(())
}

/// Appends bytes, which are few.
fn append(more: &[u8], output: &mut Vec<u8>) -> Result<(), AllocError>
    ensures { OnOk result (output.new.items ≡ output.old.items ++ more.now) }
{
    if output.capacity() < output.len() + more.len() {
        output.reserve(more.len())?;
    }
    for byte in more {
        output.push_reserved(*byte);
    }
    Ok(())
}

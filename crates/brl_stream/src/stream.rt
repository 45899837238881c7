//! A stream: each line of an input is translated and written before the next one.
ghost use Rattle.std.specs.Prelude.{◌≡◌, ◌≢◌, [], ℕ, List, Some, Err, IfOk, OnOk, true};
ghost use Rattle.std.specs.Io.KnownBytes.{IsAtEnd};
ghost use Rattle.brl_failure.specs.declared.failure.Failure.TheVariants as failures;
ghost use Rattle.brl_stream.specs.Output.{at_line, most_input, outcome_of, output_by, output_of, verdict, verdict_of_defined, verdict_within, HasWritten, ReadsFew, DecidesBefore, EndsBy};
ghost use Rattle.brl_stream.specs.InputLines.{lines_of};
ghost use Rattle.brl_stream.specs.Lacking.{lacking_of, uses_from};
ghost use Rattle.brl_stream.specs.Noting.{IsNoted};

use crate::buffer::InputBuffer;
use crate::line::{Next, next_line};
use crate::output::{Kept, write_line};
use crate::{Form, Input, Lacking, LineFault, Output, StreamFault};
use brl_failure::Failure;
use brl_rules::Table;
use std::alloc::Global;

/// Translates an input line by line: writes the outputs of the lines before the first fault, which
/// names its line. For each line it writes the marks in the form, then a line feed, in one write
/// before the next line is translated. A line ends with a line feed, or with a carriage return and
/// a line feed; a last line without them counts.
///
/// The first fault ends the stream. Faults of one line come in this order: `InputFailed`,
/// `InputLineTooLong` (more than 65,536 bytes without its end), `InputNotUtf8`, `UnknownChar`,
/// `NoAscii`, `OutputFailed`. The lines before the fault are written, and nothing of the faulty
/// line; after `OutputFailed`, a first part of it may be. `InputTooLong` names the line that
/// doesn't end within the first 16,777,216 bytes of a longer input. Where memory runs out, the
/// outputs of some first lines are written.
pub fn translate_lines<R: Input, W: Output>(
    alloc: Global,
    table: &Table,
    form: Form,
    reader: &mut R,
    writer: &mut W,
) -> Result<(), Failure<StreamFault>>
    ensures written { (input : List ℕ) → R.remaining reader.old ≡ Some input
        → HasWritten (verdict table.now form input) (W.contents writer.old) (W.contents writer.new) result }
    ensures whole { OnOk result (IsAtEnd (R.remaining reader.new)) }
    ensures few { ReadsFew (R.remaining reader.old) (R.remaining reader.new) }
    ensures undecided { (input : List ℕ) → R.remaining reader.old ≡ Some input
        → (n : ℕ) → result ≡ Err (failures.Fault (at_line n LineFault.InputFailed))
        → DecidesBefore n (output_of table.now form) (R.remaining reader.old) (R.remaining reader.new) }
    ensures read_failed { EndsBy LineFault.InputFailed result → R.failures reader.new ≢ R.failures reader.old }
    ensures write_failed { EndsBy LineFault.OutputFailed result → W.failures writer.new ≢ W.failures writer.old }
{
    let mut kept = Kept::new(alloc, false);
    take_lines(alloc, table, form, &mut kept, reader, writer)
}

/// Translates the lines of an input without undefined characters, as `translate_lines` does, and
/// lists the undefined characters of the others. Nothing is written for the other lines. Answers
/// the characters that the table doesn't define, in the order of their first uses, each with its
/// number of uses and the number of the first line that has it, from 1.
///
/// Faults are those of `translate_lines` but for `UnknownChar`; the first one ends the stream. The
/// list takes memory by the number of its characters.
pub fn translate_defined_lines<R: Input, W: Output>(
    alloc: Global,
    table: &Table,
    form: Form,
    reader: &mut R,
    writer: &mut W,
) -> Result<Vec<Lacking>, Failure<StreamFault>>
    ensures written { (input : List ℕ) → R.remaining reader.old ≡ Some input
        → HasWritten (verdict_of_defined table.now form input) (W.contents writer.old) (W.contents writer.new) (outcome_of result) }
    ensures lacking { (input : List ℕ) → R.remaining reader.old ≡ Some input
        → IfOk result (λ list. list.items ≡ lacking_of table.now (lines_of input)) }
    ensures whole { OnOk result (IsAtEnd (R.remaining reader.new)) }
    ensures few { ReadsFew (R.remaining reader.old) (R.remaining reader.new) }
    ensures undecided { (input : List ℕ) → R.remaining reader.old ≡ Some input
        → (n : ℕ) → outcome_of result ≡ Err (failures.Fault (at_line n LineFault.InputFailed))
        → DecidesBefore n (output_by true table.now form) (R.remaining reader.old) (R.remaining reader.new) }
    ensures read_failed { EndsBy LineFault.InputFailed (outcome_of result) → R.failures reader.new ≢ R.failures reader.old }
    ensures write_failed { EndsBy LineFault.OutputFailed (outcome_of result) → W.failures writer.new ≢ W.failures writer.old }
{
    let mut kept = Kept::new(alloc, true);
    match take_lines(alloc, table, form, &mut kept, reader, writer) {
        Ok(()) => Ok(kept.list(alloc)?),
        Err(failure) => Err(failure),
    }
}

/// Takes the lines of an input one by one. What was kept before is nothing.
fn take_lines<R: Input, W: Output>(
    alloc: Global,
    table: &Table,
    form: Form,
    kept: &mut Kept,
    reader: &mut R,
    writer: &mut W,
) -> Result<(), Failure<StreamFault>>
    requires { IsNoted [] kept.old.noted }
    ensures written { (input : List ℕ) → R.remaining reader.old ≡ Some input
        → HasWritten (verdict_within (output_by kept.old.passes table.now form) most_input input) (W.contents writer.old)
        (W.contents writer.new) result }
    ensures noted { (input : List ℕ) → R.remaining reader.old ≡ Some input
        → OnOk result (IsNoted (uses_from table.now 1 (lines_of input)) kept.new.noted) }
    ensures whole { OnOk result (IsAtEnd (R.remaining reader.new)) }
    ensures few { ReadsFew (R.remaining reader.old) (R.remaining reader.new) }
    ensures undecided { (input : List ℕ) → R.remaining reader.old ≡ Some input
        → (n : ℕ) → result ≡ Err (failures.Fault (at_line n LineFault.InputFailed))
        → DecidesBefore n (output_by kept.old.passes table.now form) (R.remaining reader.old) (R.remaining reader.new) }
    ensures read_failed { EndsBy LineFault.InputFailed result → R.failures reader.new ≢ R.failures reader.old }
    ensures write_failed { EndsBy LineFault.OutputFailed result → W.failures writer.new ≢ W.failures writer.old }
{
    let Ok(mut buffer) = InputBuffer::new(alloc) else {
        return Err(Failure::Memory);
    };
    let mut number = 1;
    loop {
        match next_line(&mut buffer, reader) {
            Err(fault) => {
                return Err(Failure::Fault(StreamFault {
                    line: number,
                    fault,
                }));
            }
            Ok(Next::End) => return Ok(()),
            Ok(Next::Last(len)) => {
                let line = &buffer.bytes()[..len];
                return write_line(alloc, table, form, line, number, kept, writer);
            }
            Ok(Next::Line { len, whole }) => {
                let line = &buffer.bytes()[..len];
                write_line(alloc, table, form, line, number, kept, writer)?;
                buffer.consume(whole);
            }
        }
        number += 1;
    }
}

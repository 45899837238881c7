//! Inputs in memory: no read of them fails.
ghost use Rattle.std.specs.Prelude.{◌≢◌};
ghost use Rattle.brl_stream.specs.Output.{EndsBy};

use brl_failure::Failure;
use brl_rules::Table;
use brl_stream::{Counting, Form, LineFault, StreamFault, translate_lines};
use std::alloc::Global;

/// Translates an input in memory to ascii; `InputFailed` never comes.
pub fn translate_bytes(
    alloc: Global,
    table: &Table,
    input: &[u8],
    writer: &mut Counting<Vec<u8>>,
) -> Result<(), Failure<StreamFault>>
    ensures never_read { EndsBy LineFault.InputFailed result → ⊥ }
    ensures refused { EndsBy LineFault.OutputFailed result → writer.new.failures ≢ writer.old.failures }
{
    let mut reader = input;
    translate_lines(alloc, table, Form::Ascii, &mut reader, writer)
}

//! `brl explain`: what a fault means.
ghost use Rattle.std.specs.Prelude.{◌≡◌};
ghost use Rattle.brl_tool.specs.Explaining.{Explains};

use brl_answers::{Answer, Files, RunFault, Status};
use brl_explain::{explain, file_notes};
use std::alloc::Global;

/// Explains the fault of a line, or of a code, and says what can be seen in the file that the line
/// names. `NoSuchFault` where no fault has it. Nothing but plain files is read: the line may name
/// any path, and reading a pipe would wait for a writer.
pub fn explain_line<F: Files>(alloc: Global, files: &mut F, line: &str) -> Result<Answer, RunFault>
    ensures explains { Explains (F.gives files.old) line.now result }
    ensures same { F.gives files.new ≡ F.gives files.old }
{
    let Some(mut text) = explain(alloc, line)? else {
        return Err(RunFault::NoSuchFault(String::from_str(alloc, line)?));
    };
    files.read_plain_files();
    text.push_str(file_notes(alloc, files, line)?.as_str())?;
    Ok(Answer::new(Status::Done, text))
}

//! The answer of a command, and how it is delivered.
ghost use Rattle.std.specs.Prelude.{◌≡◌, ◌≢◌, IfOk, string_bytes};
ghost use Rattle.brl_answers.specs.Answers.{HasTextAndStatus, counts_line};
ghost use Rattle.brl_answers.specs.Delivery.{Delivers, Writes, world};
ghost use Rattle.brl_answers.specs.Files.{IsPutInto};
ghost use Rattle.brl_answers.specs.Making.{ArePutInto};
ghost use Rattle.brl_answers.specs.Status.{status_of};

use crate::Files;
use crate::making::make_new_files;
use crate::new_files::{NewFile, NewFiles};
use crate::run_fault::RunFault;
use crate::status::Status;
use brl_failure::Failure;
use brl_stream::{Failed, Output};
use std::alloc::{AllocError, Global};
use std::io::Write;

/// What a command answers: a text for standard output, the status, and the files that are written
/// before the text.
#[derive(Drop)]
pub struct Answer {
    pub text: String,
    pub status: Status,
    pub files: NewFiles,
}

impl Answer {
    /// The answer with this text and status, and no files.
    pub fn new(status: Status, text: String) -> Answer
        ensures { HasTextAndStatus status (string_bytes text) result }
    {
        Answer {
            text,
            status,
            files: NewFiles::Nothing,
        }
    }
}

/// The line with numbers of states and of pairs after a word.
pub fn counts_text(alloc: Global, word: &str, states: u64, pairs: u64) -> Result<String, AllocError>
    ensures { IfOk result (λ text. string_bytes text ≡ counts_line word.now states pairs) }
{
    let states = states.to_string(alloc)?;
    let pairs = pairs.to_string(alloc)?;
    format!(in alloc; "{word}: {states} states, {pairs} pairs\n")
}

/// Writes a file in place of what is at its path.
fn write_file<F: Files>(alloc: Global, file: NewFile, files: &mut F) -> Result<(), RunFault>
    ensures { IsPutInto file (F.gives files.old) (F.gives files.new) result }
{
    match files.write(alloc, file.path.as_str(), file.bytes.as_slice()) {
        Ok(()) => Ok(()),
        Err(Failure::Fault(Failed)) => Err(RunFault::CannotWrite {
            path: file.path,
            made: Vec::new(alloc),
        }),
        Err(Failure::Memory) => Err(RunFault::Memory),
    }
}

/// Writes the files of an answer.
fn write_files<F: Files>(alloc: Global, new: NewFiles, files: &mut F) -> Result<(), RunFault>
    ensures { ArePutInto new (F.gives files.old) (F.gives files.new) result }
{
    match new {
        NewFiles::Nothing => Ok(()),
        NewFiles::InPlace(file) => write_file(alloc, file, files),
        NewFiles::AllNew(new) => make_new_files(alloc, new, files),
    }
}

/// Writes an answer's files, and then its text.
fn write_answer<F: Files, O: Output>(
    alloc: Global,
    answer: Answer,
    files: &mut F,
    out: &mut O,
) -> Result<Status, RunFault>
    ensures { Writes answer (world (F.gives files.old) (O.failures out.old) (O.contents out.old))
        (world (F.gives files.new) (O.failures out.new) (O.contents out.new)) result }
{
    let Answer {
        text,
        status,
        files: new,
    } = answer;
    write_files(alloc, new, files)?;
    out.put(text.as_bytes())?;
    Ok(status)
}

/// Writes the files of an answer and then its text, whole, or of a fault nothing but its line on
/// standard error; no other file changes. The fault may be that what was shown before couldn't be
/// written. With `quiet` there is no line where nobody reads the output any more, as after
/// `| head`. Answers the status.
pub fn deliver<F: Files, O: Output, E: Write>(
    alloc: Global,
    outcome: Result<Answer, RunFault>,
    quiet: bool,
    files: &mut F,
    out: &mut O,
    err: &mut E,
) -> Status
    ensures { Delivers outcome (world (F.gives files.old) (O.failures out.old) (O.contents out.old))
        (world (F.gives files.new) (O.failures out.new) (O.contents out.new)) result }
{
    match outcome {
        Ok(answer) => match write_answer(alloc, answer, files, out) {
            Ok(status) => status,
            Err(fault) => report(fault, quiet, out, err),
        },
        Err(fault) => report(fault, quiet, out, err),
    }
}

/// Writes the line of a fault to standard error, unless the output failed with `quiet` since nobody
/// reads it any more. Answers the status.
fn report<O: Output, E: Write>(fault: RunFault, quiet: bool, out: &O, err: &mut E) -> Status
    ensures { result ≡ status_of fault }
{
    match fault {
        RunFault::OutputFailed if quiet && out.is_closed() => Status::Faulty,
        fault => fault.report(err),
    }
}

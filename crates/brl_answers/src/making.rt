//! The files of an answer that may not be there before.
ghost use Rattle.std.specs.Prelude.{◌<◌, IfErr, MatchBool, OnOk, vec_len};
ghost use Rattle.brl_answers.specs.Making.{AreApart, AreMade, AreNew, AreWritten, IsFree, IsNamed, IsNoneOf, IsOneOf, IsTaken, IsThereAlready, StopsAt};

use crate::Files;
use crate::new_files::NewFile;
use crate::run_fault::RunFault;
use brl_failure::Failure;
use std::alloc::Global;

/// Makes new files, in order, once nothing was found at any of their paths.
pub fn make_new_files<F: Files>(
    alloc: Global,
    new: Vec<NewFile>,
    files: &mut F,
) -> Result<(), RunFault>
    ensures { AreMade new.items (F.gives files.old) (F.gives files.new) result }
{
    refuse_what_is_there(alloc, files, new.as_slice())?;
    match make_files(alloc, new.as_slice(), files) {
        Ok(()) => Ok(()),
        Err(Failure::Fault(place)) => Err(cannot_write(new, place)),
        Err(Failure::Memory) => Err(RunFault::Memory),
    }
}

/// Refuses the first of new files at whose path something is, or whose path an earlier one has.
fn refuse_what_is_there<F: Files>(alloc: Global, files: &F, new: &[NewFile]) -> Result<(), RunFault>
    ensures new { OnOk result (AreNew (F.gives files.now) new.now) }
    ensures refused { IfErr result (IsThereAlready (F.gives files.now) new.now) }
{
    for (place, file) in new.iter().enumerate() {
        if is_taken(files, &new[..place], file.path.as_str()) {
            return Err(RunFault::AlreadyThere(file.path.clone()?));
        }
    }
    Ok(())
}

/// Whether something is at a path, or one of these files has it.
fn is_taken<F: Files>(files: &F, earlier: &[NewFile], path: &str) -> bool
    ensures { MatchBool result (IsTaken (F.gives files.now) earlier.now path.now)
        (IsFree (F.gives files.now) earlier.now path.now) }
{
    files.is_there(path) || is_path_of_one(earlier, path)
}

/// Whether one of these files has this path.
fn is_path_of_one(files: &[NewFile], path: &str) -> bool
    ensures { MatchBool result (IsOneOf files.now path.now) (IsNoneOf files.now path.now) }
{
    files.iter().any(|file| file.path.as_str() == path)
}

/// Makes new files, in order. The fault is the place of the first that can't be made.
fn make_files<F: Files>(alloc: Global, new: &[NewFile], files: &mut F) -> Result<(), Failure<usize>>
    requires { AreApart new.now }
    ensures made { OnOk result (AreWritten new.now (F.gives files.old) (F.gives files.new)) }
    ensures stopped { IfErr result (StopsAt new.now (F.gives files.old) (F.gives files.new)) }
{
    for (place, file) in new.iter().enumerate() {
        match files.create(alloc, file.path.as_str(), file.bytes.as_slice()) {
            Ok(()) => {}
            Err(Failure::Fault(_)) => return Err(Failure::Fault(place)),
            Err(Failure::Memory) => return Err(Failure::Memory),
        }
    }
    Ok(())
}

/// The fault that the file at a place of new files couldn't be written, and those before it were.
fn cannot_write(mut new: Vec<NewFile>, place: usize) -> RunFault
    requires { place < vec_len new }
    ensures { IsNamed new.items place result }
{
    let NewFile { path, bytes: _ } = new.remove(place);
    new.truncate(place);
    RunFault::CannotWrite { path, made: new }
}

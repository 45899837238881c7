//! Reading the files of a table: each path once.
ghost use Rattle.std.specs.Prelude.{◌≡◌, ◌≢◌, IfErr, IfOk, option_map, string_bytes};
ghost use Rattle.brl_failure.specs.Failure.{IfFault};
ghost use Rattle.brl_lines.specs.Files.{answers_of};
ghost use Rattle.brl_lines.specs.GatherFaults.{held};
ghost use Rattle.brl_lines.specs.Lines.{answer_at, text_of};
ghost use Rattle.brl_lines.specs.Outcome.{AreGiven, CountsFailure};
ghost use Rattle.brl_lines.specs.Steps.{Fails, IsIndexAt, IsSeen, Reads, Sees};
ghost use Rattle.brl_lines.specs.Views.{location_ref_view};

use crate::checked_file::{CheckedFile, checked};
use crate::fault::{LoadFault, LoadFaultKind, LocationRef, refusal};
use crate::source::{Source, SourceFault};
use brl_failure::Failure;
use indexmap::IndexMap;
use std::alloc::Global;

/// The paths that were read, each with its file; `None` where there is no file.
pub(crate) type ReadFiles = IndexMap<String, Option<CheckedFile>>;

/// What is at a path: a file, which is read and checked whole, or none. The place is the include
/// line that names it.
fn read_file<S: Source>(
    alloc: Global,
    source: &mut S,
    path: &str,
    place: Option<LocationRef<'_>>,
) -> Result<Option<CheckedFile>, Failure<LoadFault>>
    ensures read { Reads (S.gives source.old) path.now (option_map location_ref_view place.entry) result }
    ensures there { IfErr result (IfFault (λ fault. fault.kind ≢ LoadFaultKind.NotFound)) }
    ensures count { CountsFailure (S.faults source.old) (S.faults source.new) result }
    ensures same { S.gives source.new ≡ S.gives source.old }
{
    let kind = match source.read(alloc, path) {
        Ok(bytes) => return Ok(Some(checked(alloc, path, place, bytes)?)),
        Err(Failure::Fault(SourceFault::NotFound)) => return Ok(None),
        Err(Failure::Fault(SourceFault::Failed)) => LoadFaultKind::ReadFailed,
        Err(Failure::Fault(SourceFault::TooLarge)) => LoadFaultKind::TooLarge,
        Err(Failure::Memory) => return Err(Failure::Memory),
    };
    Err(refusal(alloc, kind, path, place))
}

/// Whether there is a file at a path, which is read where it wasn't read before.
pub(crate) fn look_at<S: Source>(
    alloc: Global,
    source: &mut S,
    files: &mut ReadFiles,
    path: &str,
    place: Option<LocationRef<'_>>,
) -> Result<bool, Failure<LoadFault>>
    requires { AreGiven (S.gives source.old) (answers_of files.old.entries) }
    ensures ok { IfOk result (Sees (S.gives source.old) files.old.entries files.new.entries path.now) }
    ensures err { IfErr result (Fails (S.gives source.old) files.old.entries (λ answer. text_of path.now (option_map location_ref_view place.entry) (answer path.now))) }
    ensures there { IfErr result (IfFault (λ fault. fault.kind ≢ LoadFaultKind.NotFound)) }
    ensures count { CountsFailure (S.faults source.old) (S.faults source.new) result }
    ensures same { S.gives source.new ≡ S.gives source.old }
{
    if let Some(file) = files.get(path) {
        return Ok(file.is_some());
    }
    let file = read_file(alloc, source, path, place)?;
    let there = file.is_some();
    files.insert(String::from_str(alloc, path)?, file)?;
    Ok(there)
}

/// The index of the file at a path that was read, if there is one.
pub(crate) fn index_at(files: &ReadFiles, path: &str) -> Option<usize>
    requires { IsSeen files.now.entries path.now }
    ensures { IsIndexAt files.now.entries path.now result }
{
    match files.get_full(path) {
        Some((index, _, Some(_))) => Some(index),
        Some((_, _, None)) => None,
        None => None,
    }
}

/// The file at a path, where it was read and is there.
pub(crate) fn file_there<'a>(files: &'a ReadFiles, path: &str) -> Option<&'a CheckedFile>
    ensures { option_map (λ file. string_bytes file.now.whole) result ≡ held (answer_at (answers_of files.entry.now.entries) path.now) }
{
    match files.get(path) {
        Some(Some(file)) => Some(file),
        Some(None) => None,
        None => None,
    }
}

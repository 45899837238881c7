//! Writing and making files of a system so that nothing is lost where that fails.

use crate::files::{CreateFault, NewFileFault};
use crate::links::end_of_links;
use brl_failure::Failure;
use brl_stream::Failed;
use std::alloc::Global;
use std::fs::{File, OpenFile, Permissions};
use std::io::{ErrorKind, Write};
use std::rt::Files;
use std::{fs, io};

/// How many names are tried for a new file.
const MOST_NAMES: u32 = 1_000;

/// A plain file that is to be replaced, or made.
#[derive(Drop)]
struct Target {
    /// Its own path, and no link's.
    path: String,
    /// The permissions of the file that is there.
    permissions: Option<Permissions>,
}

/// A new file that is open for writing.
#[derive(Drop)]
struct Sibling<F> {
    path: String,
    file: F,
}

/// Writes the file at a path. A plain file, also one that a link names, is replaced at once by a
/// new one with the same permissions that was written beside it, so it stays as it was on an error.
/// Anything else, such as a pipe, a device or a path below /dev or /proc, is written as it is.
pub fn replace_file<R: Files>(
    alloc: Global,
    system: &R,
    path: &str,
    bytes: &[u8],
) -> Result<(), Failure<Failed>> {
    match put_file(alloc, system, path, bytes) {
        Ok(()) => Ok(()),
        Err(error) if error.kind() == ErrorKind::OutOfMemory => Err(Failure::Memory),
        Err(_) => Err(Failure::Fault(Failed)),
    }
}

fn put_file<R: Files>(alloc: Global, system: &R, path: &str, bytes: &[u8]) -> io::Result<()> {
    match target_at(alloc, system, path)? {
        Some(target) => replace(alloc, system, target, bytes),
        None => File::create(system, path)?.write_all(bytes),
    }
}

/// The plain file that a path names, also by links, or the one that it will name. `None` where
/// something else is there. An error where that isn't known, as where a link can't be followed.
fn target_at<R: Files>(alloc: Global, system: &R, path: &str) -> io::Result<Option<Target>> {
    let path = end_of_links(alloc, system, path)?;
    let permissions = match fs::symlink_metadata(system, path.as_str()) {
        Ok(found) if found.is_file() => Some(found.permissions()),
        Ok(_) => return Ok(None),
        Err(error) if error.kind() == ErrorKind::NotFound => None,
        Err(error) => return Err(error),
    };
    Ok(Some(Target { path, permissions }))
}

/// Replaces a plain file that may be written by a new one with these bytes.
fn replace<R: Files>(alloc: Global, system: &R, target: Target, bytes: &[u8]) -> io::Result<()> {
    let Target { path, permissions } = target;
    let path = path.as_str();
    if permissions.is_some() {
        let _ = File::options().write(true).open(system, path)?;
    }
    let new = new_file_beside(alloc, system, path)?;
    let Sibling { path: beside, file } = new;
    let outcome = match fill(file, permissions, bytes) {
        Ok(()) => fs::rename(system, beside.as_str(), path),
        Err(error) => Err(error),
    };
    if outcome.is_err() {
        let _ = fs::remove_file(system, beside.as_str());
    }
    outcome
}

/// Makes a new file whose path begins with this one.
fn new_file_beside<R: Files>(
    alloc: Global,
    system: &R,
    path: &str,
) -> io::Result<Sibling<R::File>> {
    for number in 1..MOST_NAMES {
        let path = format!(in alloc; "{path}.part{number}")?;
        match File::create_new(system, path.as_str()) {
            Ok(file) => return Ok(Sibling { path, file }),
            Err(error) if error.kind() == ErrorKind::AlreadyExists => {}
            Err(error) => return Err(error),
        }
    }
    Err(io::Error::from(ErrorKind::Other))
}

/// Makes a file with these bytes at a path where nothing is, and the folders in which it is. It is
/// written beside the path first, so that no part of it is ever there.
pub fn create_file<R: Files>(
    alloc: Global,
    system: &R,
    path: &str,
    bytes: &[u8],
) -> Result<(), NewFileFault> {
    match make_file(alloc, system, path, bytes) {
        Ok(()) => Ok(()),
        Err(error) => Err(not_made(&error)),
    }
}

fn make_file<R: Files>(alloc: Global, system: &R, path: &str, bytes: &[u8]) -> io::Result<()> {
    make_folders_of(system, path)?;
    if fs::symlink_metadata(system, path).is_ok() {
        return Err(io::Error::from(ErrorKind::AlreadyExists));
    }
    let new = new_file_beside(alloc, system, path)?;
    let Sibling { path: beside, file } = new;
    let outcome = match fill(file, None, bytes) {
        Ok(()) => give_path(system, beside.as_str(), path),
        Err(error) => Err(error),
    };
    let _ = fs::remove_file(system, beside.as_str());
    outcome
}

/// Gives a whole file a path where nothing is, also where something was put there meanwhile: then
/// it is `AlreadyExists`. Where a file can't have two paths, as on some memory cards, the path is
/// taken by an empty file first.
fn give_path<R: Files>(system: &R, beside: &str, path: &str) -> io::Result<()> {
    match fs::hard_link(system, beside, path) {
        Err(error) if error.kind() != ErrorKind::AlreadyExists => replace_own(system, beside, path),
        outcome => outcome,
    }
}

/// Gives a whole file a path where nothing is, in place of an empty file that is made there.
fn replace_own<R: Files>(system: &R, beside: &str, path: &str) -> io::Result<()> {
    let _ = File::create_new(system, path)?;
    let outcome = fs::rename(system, beside, path);
    if outcome.is_err() {
        let _ = fs::remove_file(system, path);
    }
    outcome
}

/// Makes the folders in which a path is, where they aren't there.
fn make_folders_of<R: Files>(system: &R, path: &str) -> io::Result<()> {
    match path.rsplit_once('/') {
        Some((folder, _)) => fs::create_dir_all(system, folder),
        None => Ok(()),
    }
}

/// Why a file wasn't made, by an error of the system.
fn not_made(error: &io::Error) -> NewFileFault {
    match error.kind() {
        ErrorKind::OutOfMemory => Failure::Memory,
        ErrorKind::AlreadyExists => Failure::Fault(CreateFault::AlreadyThere),
        _ => Failure::Fault(CreateFault::Failed),
    }
}

/// Writes a new file's bytes to the disk, and closes it.
fn fill<F: OpenFile + Write + Drop>(
    mut file: F,
    permissions: Option<Permissions>,
    bytes: &[u8],
) -> io::Result<()> {
    if let Some(permissions) = permissions {
        file.set_permissions(permissions)?;
    }
    file.write_all(bytes)?;
    file.sync_all()
}

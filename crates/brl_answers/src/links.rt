//! Links of a file system, followed by what they name.

use brl_lines::folder;
use std::alloc::{AllocError, Global};
use std::fs;
use std::io::{self, ErrorKind};
use std::rt::Files;

/// How many links are followed one after another; the system follows as many.
const MOST_LINKS: u32 = 40;

/// Where the links at a path lead, whether something is there or not; a path without a link leads
/// to itself. An error where a link can't be read, and where there are too many. The links of the
/// system itself, such as /dev/stdout, aren't followed: what they name is no path.
pub fn end_of_links<R: Files>(alloc: Global, system: &R, path: &str) -> io::Result<String> {
    let mut path = String::from_str(alloc, path)?;
    for _ in 0..MOST_LINKS {
        match named_by_link(alloc, system, path.as_str())? {
            Some(named) => path = named,
            None => return Ok(path),
        }
    }
    Err(io::Error::from(ErrorKind::FilesystemLoop))
}

/// The path at which the links end; `None` where they can't be followed.
pub fn end_if_followed<R: Files>(
    alloc: Global,
    system: &R,
    path: &str,
) -> Result<Option<String>, AllocError> {
    match end_of_links(alloc, system, path) {
        Ok(end) => Ok(Some(end)),
        Err(error) if error.kind() == ErrorKind::OutOfMemory => Err(AllocError),
        Err(_) => Ok(None),
    }
}

/// The path that the link at a path names; `None` where no link is.
fn named_by_link<R: Files>(alloc: Global, system: &R, path: &str) -> io::Result<Option<String>> {
    if !is_link(system, path)? || path.starts_with("/dev/") || path.starts_with("/proc/") {
        return Ok(None);
    }
    let named = system.read_link(alloc, path)?.into_string();
    if named.starts_with('/') {
        return Ok(Some(named));
    }
    let mut end = String::from_str(alloc, folder(path))?;
    end.push_str(named.as_str())?;
    Ok(Some(end))
}

/// Whether a link is at a path.
fn is_link<R: Files>(system: &R, path: &str) -> io::Result<bool> {
    match fs::symlink_metadata(system, path) {
        Ok(found) => Ok(found.is_symlink()),
        Err(error) if error.kind() == ErrorKind::NotFound => Ok(false),
        Err(error) => Err(error),
    }
}

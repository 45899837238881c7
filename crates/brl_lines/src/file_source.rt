//! A source over a file system.
ghost use Rattle.std.specs.Prelude.{◌≡◌, ◌≢◌, ◌<◌, ◌≤◌, false, length, IfOk, IfErr, IfSome, None};
ghost use Rattle.brl_failure.specs.Failure.{IfFault};
ghost use Rattle.brl_lines.specs.Answer.{most_file_bytes};

use crate::map_source::slice_of;
use crate::{MOST_FILE_BYTES, Source, SourceFault};
use brl_failure::Failure;
use std::alloc::{AllocError, Global};
use std::fs::{self, File};
use std::io::{self, ErrorKind, Read};
use std::rt::Files;

/// The files of a system, and the folders in which the files of tables are looked for too. Nothing
/// is known of what they hold.
#[derive(Drop)]
pub struct FileSource<R> {
    pub system: R,
    pub faults: u64,
    pub folders: Option<Vec<String>>,
    /// Whether nothing but plain files is read, so that no read waits for a writer.
    pub plain: bool,
}

impl<R: Files> FileSource<R> {
    /// A source over the files of `system`, which has not failed yet, looks in no folders, and
    /// reads whatever is at a path.
    pub fn new(system: R) -> Self
        ensures none_yet { result.faults ≡ 0 }
        ensures system { result.system ≡ system }
        ensures folders { result.folders ≡ None }
        ensures all { result.plain ≡ false }
    {
        FileSource {
            system,
            faults: 0,
            folders: None,
            plain: false,
        }
    }
}

/// How many bytes are asked for at once.
const CHUNK: usize = 65_536;

/// Room for one chunk.
fn room_for_a_chunk(alloc: Global) -> Result<Vec<u8>, AllocError>
    ensures { IfOk result (λ v. length v.items ≡ 65536) }
{
    vec![in alloc; 0u8; CHUNK]
}

/// All bytes of a reader, if they are at most `MOST_FILE_BYTES`; `TooLarge` only where it has more.
/// They are read a chunk at a time, and at most one more to tell. An interrupted read is a failed
/// one.
pub fn read_whole<R: Read>(
    alloc: Global,
    reader: &mut R,
    chunk: &mut [u8],
) -> Result<Vec<u8>, Failure<SourceFault>>
    requires { 0 < length chunk.old }
    ensures whole { IfOk result (λ v. IfSome (R.remaining reader.old) (λ bytes. v.items ≡ bytes)) }
    ensures most { IfOk result (λ v. length v.items ≤ most_file_bytes) }
    ensures large { IfErr result (IfFault (λ fault. fault ≡ SourceFault.TooLarge → IfSome (R.remaining reader.old) (λ bytes. most_file_bytes < length bytes))) }
    ensures found { IfErr result (IfFault (λ fault. fault ≢ SourceFault.NotFound)) }
{
    let mut bytes = Vec::new(alloc);
    while bytes.len() <= MOST_FILE_BYTES {
        let want = (MOST_FILE_BYTES + 1 - bytes.len()).min(chunk.len());
        let Ok(count) = reader.read(&mut chunk[..want]) else {
            return Err(Failure::Fault(SourceFault::Failed));
        };
        if count == 0 {
            return Ok(bytes);
        }
        bytes.extend_from_slice(&chunk[..count])?;
    }
    Err(Failure::Fault(SourceFault::TooLarge))
}

/// All bytes of a file that was opened.
fn read_file<R: Read>(alloc: Global, file: &mut R) -> Result<Vec<u8>, Failure<SourceFault>> {
    let mut room = room_for_a_chunk(alloc)?;
    read_whole(alloc, file, room.as_mut_slice())
}

/// Whether nothing is at a path, by an error there: a part of the path isn't there, or is a file
/// where a folder would have to be.
fn is_nothing_there(error: &io::Error) -> bool {
    matches!(error.kind(), ErrorKind::NotFound | ErrorKind::NotADirectory)
}

/// Why a source gave no bytes, by an error of the system.
fn fault_of(error: &io::Error) -> SourceFault {
    if is_nothing_there(error) {
        SourceFault::NotFound
    } else {
        SourceFault::Failed
    }
}

/// Opens the file at a path; of plain files alone where this is asked for.
fn open<R: Files>(system: &R, path: &str, plain: bool) -> Result<R::File, SourceFault> {
    if plain && !fs::metadata(system, path).is_ok_and(|found| found.is_file()) {
        return Err(SourceFault::Failed);
    }
    File::open(system, path).map_err(|error| fault_of(&error))
}

impl<R: Files> Source for FileSource<R> {
    ghost use Rattle.std.specs.Prelude.{true};
    ghost use Rattle.brl_lines.specs.InMemory.{folders_of};

    ghost gives = { λ s. record { folders = folders_of s.folders; may = λ _ _. true } };

    ghost faults = { λ s. s.faults };

    fn read(&mut self, alloc: Global, path: &str) -> Result<Vec<u8>, Failure<SourceFault>> {
        let outcome = match open(&self.system, path, self.plain) {
            Ok(mut file) => read_file(alloc, &mut file),
            Err(fault) => Err(Failure::Fault(fault)),
        };
        if let Err(Failure::Fault(SourceFault::Failed)) = &outcome {
            self.faults = self.faults.saturating_add(1);
        }
        outcome
    }

    fn folders(&self) -> &[String] {
        slice_of(&self.folders)
    }

    fn failures(&self) -> u64 {
        self.faults
    }
}

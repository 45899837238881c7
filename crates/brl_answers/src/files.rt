//! Files that can be written.
ghost use Rattle.std.specs.Prelude.{◌≡◌, Some, OnErr, OnOk};
ghost use Rattle.brl_lines.specs.InMemory.{bytes_in, folders_of};
ghost use Rattle.brl_answers.specs.Files.{AllAre, OthersAre};

use crate::links::end_if_followed;
use crate::replace::{create_file, replace_file};
use brl_failure::Failure;
use brl_lines::{FileSource, MapSource, Source, folder};
use brl_stream::Failed;
use std::alloc::{AllocError, Global};
use std::os::unix::fs::MetadataExt;
use std::{fs, rt};

/// Why a file wasn't written: it couldn't be, or memory ran out.
pub type SinkFault = Failure<Failed>;

/// Why a new file wasn't made.
#[derive(Clone, Copy, Debug, PartialEq, Eq)]
pub enum CreateFault {
    /// Something is at its path.
    AlreadyThere,
    /// It couldn't be made, or not all of its bytes could be written.
    Failed,
}

/// Why a new file wasn't made: for this reason, or memory ran out.
pub type NewFileFault = Failure<CreateFault>;

/// Files that can be read and written.
pub trait Files: Source {
    ghost use Rattle.std.specs.Prelude.{◌≡◌, IfErr, IfOk, IsTrue, MatchBool, OnOk, String, map, string_bytes};
    ghost use Rattle.std.specs.Global.{Global, Vec};
    ghost use Rattle.brl_lines.specs.Answer.{looking};
    ghost use Rattle.brl_answers.specs.Files.{GivesAlso, MayBeAbsent, MayBeSame, MayBeThere, OthersStay, StaysWhereThere};

    // this source of files, where the files of tables are looked for in these folders too
    ghost looked: { Vec (String Global) → Self → Self };

    // whether two paths may name one file
    ghost same_file: { MayBeSame };

    /// Sets the folders in which the files of tables are looked for that aren't at their usual
    /// paths; else what the files give stays.
    fn look_in(&mut self, folders: Vec<String>)
        ensures looked { self.new ≡ looked folders self.old }
        ensures looks { Self.gives self.new ≡ looking (map string_bytes folders.items) (Self.gives self.old) }
        ensures count { Self.faults self.new ≡ Self.faults self.old };

    /// Reads nothing but plain files from now on: what is at another path is seen as a file that
    /// can't be read.
    fn read_plain_files(&mut self)
        ensures same { Self.gives self.new ≡ Self.gives self.old }
        ensures count { Self.faults self.new ≡ Self.faults self.old };

    /// Whether two paths name one file, as equal paths always do.
    fn is_same_file(&self, alloc: Global, one: &str, other: &str) -> Result<bool, AllocError>
        ensures may { IfOk result (λ is. IsTrue is → IsTrue (same_file one.now other.now)) }
        ensures equal { one.now ≡ other.now → IfOk result (λ is. IsTrue is) };

    /// Writes a file with these bytes at `path`, in place of the one that was there; no other file
    /// changes. `Failed` where they couldn't all be written. What is at `path` after a failure
    /// isn't known.
    fn write(&mut self, alloc: Global, path: &str, bytes: &[u8]) -> Result<(), Failure<Failed>>
        ensures written { OnOk result (GivesAlso (Self.gives self.new) path.now bytes.now) }
        ensures others { OthersStay (Self.gives self.old) (Self.gives self.new) path.now }
        ensures count { Self.faults self.new ≡ Self.faults self.old };

    /// Whether something is at a path: a file, a folder or a link, also one that leads nowhere.
    fn is_there(&self, path: &str) -> bool
        ensures { MatchBool result (MayBeThere (Self.gives self.now) path.now) (MayBeAbsent (Self.gives self.now) path.now) };

    /// Makes a file with these bytes at `path`, and its folders; where something is at `path`
    /// already, no file changes. `AlreadyThere` where something is at `path`. `Failed` where it
    /// couldn't be made, and `Memory`: what is at `path` then isn't known. No other file ever
    /// changes.
    fn create(&mut self, alloc: Global, path: &str, bytes: &[u8]) -> Result<(), NewFileFault>
        ensures made { OnOk result (GivesAlso (Self.gives self.new) path.now bytes.now) }
        ensures absent { OnOk result (MayBeAbsent (Self.gives self.old) path.now) }
        ensures there { IfErr result (StaysWhereThere (Self.gives self.old) (Self.gives self.new) path.now) }
        ensures others { OthersStay (Self.gives self.old) (Self.gives self.new) path.now }
        ensures count { Self.faults self.new ≡ Self.faults self.old };
}

impl Files for MapSource {
    ghost use Rattle.std.specs.Prelude.{◌≡◌, None, Some, is_some, IfErr, IsErrOf, IsTrue, OnErr, OnOk};
    ghost use Rattle.std.specs.Str.{bytes_eq};
    ghost use Rattle.brl_failure.specs.declared.failure.Failure.TheVariants.{Fault};
    ghost use Rattle.brl_lines.specs.InMemory.{bytes_in, folders_of};
    ghost use Rattle.brl_answers.specs.Files.{AllAre, OthersAre};

    ghost looked = { λ folders files. record files { folders = Some folders } };

    ghost same_file = { bytes_eq };

    fn look_in(&mut self, folders: Vec<String>) {
        self.folders = Some(folders);
    }

    /// All files in memory are plain ones.
    fn read_plain_files(&mut self) {}

    fn is_same_file(&self, _alloc: Global, one: &str, other: &str) -> Result<bool, AllocError> {
        Ok(one == other)
    }

    /// Puts a file with these bytes at the path; `Memory` alone fails, and changes nothing.
    fn write(&mut self, alloc: Global, path: &str, bytes: &[u8]) -> Result<(), Failure<Failed>>
        ensures written { OnOk result (bytes_in self.new path.now ≡ Some bytes.now) }
        ensures others { OthersAre self.old self.new path.now }
        ensures folders { folders_of self.new.folders ≡ folders_of self.old.folders }
        ensures unchanged { OnErr result (AllAre self.old self.new) }
        ensures memory { IfErr result (λ failure. failure ≡ Failure.Memory) }
    {
        Ok(put(alloc, self, path, bytes)?)
    }

    /// Whether a file is at the path.
    fn is_there(&self, path: &str) -> bool
        ensures { result ≡ is_some (bytes_in self.now path.now) }
    {
        self.files.get(path).is_some()
    }

    /// Makes a file with these bytes at the path; `AlreadyThere` exactly where one is, and on an
    /// error all files stay as they were.
    fn create(&mut self, alloc: Global, path: &str, bytes: &[u8]) -> Result<(), NewFileFault>
        ensures made { OnOk result (bytes_in self.new path.now ≡ Some bytes.now) }
        ensures there { IsTrue (is_some (bytes_in self.old path.now)) → IsErrOf result (Fault CreateFault.AlreadyThere) }
        ensures absent { bytes_in self.old path.now ≡ None → IfErr result (λ failure. failure ≡ Failure.Memory) }
        ensures others { OthersAre self.old self.new path.now }
        ensures folders { folders_of self.new.folders ≡ folders_of self.old.folders }
        ensures unchanged { OnErr result (AllAre self.old self.new) }
    {
        if self.is_there(path) {
            return Err(Failure::Fault(CreateFault::AlreadyThere));
        }
        put(alloc, self, path, bytes)?;
        Ok(())
    }
}

/// Puts a file into memory, in place of the one that was at its path. On an error all files stay as
/// they were.
fn put(alloc: Global, source: &mut MapSource, path: &str, bytes: &[u8]) -> Result<(), AllocError>
    ensures put { OnOk result (bytes_in source.new path.now ≡ Some bytes.now) }
    ensures others { OthersAre source.old source.new path.now }
    ensures folders { folders_of source.new.folders ≡ folders_of source.old.folders }
    ensures unchanged { OnErr result (AllAre source.old source.new) }
{
    let path = String::from_str(alloc, path)?;
    let bytes = Vec::from_slice(alloc, bytes)?;
    match source.files.insert(path, bytes) {
        Ok(_) => Ok(()),
        Err(_) => Err(AllocError),
    }
}

impl<R: rt::Files> Files for FileSource<R> {
    ghost use Rattle.std.specs.Prelude.{Some, true};

    ghost looked = { λ folders files. record files { folders = Some folders } };

    ghost same_file = { λ _ _. true };

    fn look_in(&mut self, folders: Vec<String>) {
        self.folders = Some(folders);
    }

    fn read_plain_files(&mut self) {
        self.plain = true;
    }

    /// Paths of one plain file are the same, also where they are links to it; where nothing is,
    /// those that name or link to one name in one folder.
    fn is_same_file(&self, alloc: Global, one: &str, other: &str) -> Result<bool, AllocError> {
        if one == other {
            return Ok(true);
        }
        is_one_file(alloc, &self.system, one, other)
    }

    /// A plain file is replaced at once by a new one that was written beside it: on an error, and
    /// wherever the program is stopped, what was at `path` is still there, whole.
    fn write(&mut self, alloc: Global, path: &str, bytes: &[u8]) -> Result<(), Failure<Failed>> {
        replace_file(alloc, &self.system, path, bytes)
    }

    fn is_there(&self, path: &str) -> bool {
        fs::symlink_metadata(&self.system, path).is_ok()
    }

    /// Nothing is ever overwritten, also not through a link. The file is written beside its path,
    /// and gets that once it is whole: wherever the program is stopped, no part of it is at `path`.
    /// What was written of a file that can't be written whole is removed, where that can be done.
    fn create(&mut self, alloc: Global, path: &str, bytes: &[u8]) -> Result<(), NewFileFault> {
        create_file(alloc, &self.system, path, bytes)
    }
}

/// Whether two paths name one plain file of a system, or, where nothing is at the first, they lead
/// to one name in one folder.
fn is_one_file<R: rt::Files>(
    alloc: Global,
    system: &R,
    one: &str,
    other: &str,
) -> Result<bool, AllocError> {
    match fs::metadata(system, one) {
        Ok(file) => Ok(file.is_file() && is_one_thing(system, one, other)),
        Err(_) => lead_to_one_place(alloc, system, one, other),
    }
}

/// Whether the links at two paths lead to one name in one folder of a system. Links that can't be
/// followed lead nowhere.
fn lead_to_one_place<R: rt::Files>(
    alloc: Global,
    system: &R,
    one: &str,
    other: &str,
) -> Result<bool, AllocError> {
    let (Some(one), Some(other)) = (
        end_if_followed(alloc, system, one)?,
        end_if_followed(alloc, system, other)?,
    ) else {
        return Ok(false);
    };
    Ok(is_one_place(system, one.as_str(), other.as_str()))
}

/// Whether two paths have one name in one folder of a system.
fn is_one_place<R: rt::Files>(system: &R, one: &str, other: &str) -> bool {
    let folder_of_one = folder(one);
    let folder_of_other = folder(other);
    one.strip_prefix(folder_of_one) == other.strip_prefix(folder_of_other)
        && is_one_thing(system, or_here(folder_of_one), or_here(folder_of_other))
}

/// The path of a folder; that of the current one is written as a point.
fn or_here(folder: &str) -> &str {
    if folder.is_empty() { "." } else { folder }
}

/// Whether two paths name one file or folder of a system.
fn is_one_thing<R: rt::Files>(system: &R, one: &str, other: &str) -> bool {
    let Ok(one) = fs::metadata(system, one) else {
        return false;
    };
    let Ok(other) = fs::metadata(system, other) else {
        return false;
    };
    one.dev() == other.dev() && one.ino() == other.ino()
}

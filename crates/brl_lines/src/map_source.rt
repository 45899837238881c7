//! A source over files in memory.
ghost use Rattle.std.specs.Prelude.{◌≡◌, map, string_bytes};
ghost use Rattle.brl_lines.specs.InMemory.{folders_of};

use crate::{MOST_FILE_BYTES, Source, SourceFault};
use brl_failure::Failure;
use std::alloc::Global;
use std::collections::BTreeMap;

/// The folders that are given, if there are any.
pub(crate) fn slice_of(folders: &Option<Vec<String>>) -> &[String]
    ensures { map string_bytes result.now ≡ folders_of folders.now }
{
    match folders {
        Some(folders) => folders.as_slice(),
        None => &[],
    }
}

/// Files in memory, by path, and the folders in which the files of tables are looked for too.
#[derive(Drop)]
pub struct MapSource {
    pub files: BTreeMap<String, Vec<u8>>,
    pub folders: Option<Vec<String>>,
}

impl MapSource {
    ghost use Rattle.std.specs.Prelude.{◌≡◌, None};

    /// A source that has these files and no others, and looks in no folders. It never fails.
    pub fn new(files: BTreeMap<String, Vec<u8>>) -> Self
        ensures files { result.files ≡ files }
        ensures folders { result.folders ≡ None }
    {
        let folders = None;
        MapSource { files, folders }
    }
}

impl Source for MapSource {
    ghost use Rattle.brl_lines.specs.InMemory.{given_in};

    ghost gives = { λ source. given_in source };

    ghost faults = { λ _. 0 };

    fn read(&mut self, alloc: Global, path: &str) -> Result<Vec<u8>, Failure<SourceFault>> {
        let Some(bytes) = self.files.get(path) else {
            return Err(Failure::Fault(SourceFault::NotFound));
        };
        if bytes.len() > MOST_FILE_BYTES {
            return Err(Failure::Fault(SourceFault::TooLarge));
        }
        Ok(Vec::from_slice(alloc, bytes)?)
    }

    fn folders(&self) -> &[String] {
        slice_of(&self.folders)
    }

    fn failures(&self) -> u64 {
        0
    }
}

//! Files that can't be read or written.
use brl_failure::Failure;
use brl_lines::{Source, SourceFault};
use brl_testing::Refusing;
use brl_tool::{CreateFault, Failed, Files};
use std::alloc::{AllocError, Global};

/// Files in which no file can be replaced, and only a given number of new files can be made.
#[derive(Drop)]
pub struct Sealed<F> {
    pub files: F,
    /// How many new files can be made.
    pub room: u32,
    pub refusal: Failure<Failed>,
}

impl<F: Source> Source for Sealed<F> {
    ghost gives = { λ s. F.gives s.files };

    ghost faults = { λ s. F.faults s.files };

    fn read(&mut self, alloc: Global, path: &str) -> Result<Vec<u8>, Failure<SourceFault>> {
        self.files.read(alloc, path)
    }

    fn folders(&self) -> &[String] {
        self.files.folders()
    }

    fn failures(&self) -> u64 {
        self.files.failures()
    }
}

impl<F: Files> Files for Sealed<F> {
    ghost use Rattle.std.specs.Str.{bytes_eq};

    ghost looked = { λ folders s. record s { files = F.looked folders s.files } };

    ghost same_file = { bytes_eq };

    fn look_in(&mut self, folders: Vec<String>) {
        self.files.look_in(folders);
    }

    fn read_plain_files(&mut self) {
        self.files.read_plain_files();
    }

    fn is_same_file(&self, _alloc: Global, one: &str, other: &str) -> Result<bool, AllocError> {
        Ok(one == other)
    }

    fn write(&mut self, _alloc: Global, _path: &str, _bytes: &[u8]) -> Result<(), Failure<Failed>> {
        Err(self.refusal)
    }

    fn is_there(&self, path: &str) -> bool {
        self.files.is_there(path)
    }

    fn create(
        &mut self,
        alloc: Global,
        path: &str,
        bytes: &[u8],
    ) -> Result<(), Failure<CreateFault>> {
        if self.room > 0 {
            self.room -= 1;
            return self.files.create(alloc, path, bytes);
        }
        match self.refusal {
            Failure::Fault(Failed) => Err(Failure::Fault(CreateFault::Failed)),
            Failure::Memory => Err(Failure::Memory),
        }
    }
}

/// Files that refuse each read and each write.
#[derive(Drop)]
pub struct Unreadable {
    pub files: Refusing,
    pub folders: Option<Vec<String>>,
}

impl Source for Unreadable {
    ghost use Rattle.std.specs.Prelude.{true};
    ghost use Rattle.brl_lines.specs.InMemory.{folders_of};

    ghost gives = { λ s. record { folders = folders_of s.folders; may = λ _ _. true } };

    ghost faults = { λ s. s.files.failures };

    fn read(&mut self, alloc: Global, path: &str) -> Result<Vec<u8>, Failure<SourceFault>> {
        self.files.read(alloc, path)
    }

    fn folders(&self) -> &[String] {
        match &self.folders {
            Some(folders) => folders.as_slice(),
            None => &[],
        }
    }

    fn failures(&self) -> u64 {
        self.files.failures()
    }
}

impl Files for Unreadable {
    ghost use Rattle.std.specs.Prelude.{Some, true};

    ghost looked = { λ folders s. record s { folders = Some folders } };

    ghost same_file = { λ _ _. true };

    fn look_in(&mut self, folders: Vec<String>) {
        self.folders = Some(folders);
    }

    fn read_plain_files(&mut self) {}

    fn is_same_file(&self, _alloc: Global, one: &str, other: &str) -> Result<bool, AllocError> {
        Ok(one == other)
    }

    fn write(&mut self, _alloc: Global, _path: &str, _bytes: &[u8]) -> Result<(), Failure<Failed>> {
        Err(Failure::Fault(Failed))
    }

    fn is_there(&self, _path: &str) -> bool {
        false
    }

    fn create(
        &mut self,
        _alloc: Global,
        _path: &str,
        _bytes: &[u8],
    ) -> Result<(), Failure<CreateFault>> {
        Err(Failure::Fault(CreateFault::Failed))
    }
}

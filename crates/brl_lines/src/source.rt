//! Where the files of a table come from.

use brl_failure::Failure;
use std::alloc::Global;
use thiserror::Error;

/// The most bytes that a file may have.
pub const MOST_FILE_BYTES: usize = 16_777_216;

/// Why a source gave no bytes.
#[derive(Clone, Copy, Debug, PartialEq, Eq, Error)]
pub enum SourceFault {
    /// There is no file at the path.
    #[error("not found")]
    NotFound,
    /// The file is there and could not be read.
    #[error("failed")]
    Failed,
    /// The file has more than `MOST_FILE_BYTES`.
    #[error("too large")]
    TooLarge,
}

/// Gives the bytes of files by their paths.
pub trait Source {
    ghost use Rattle.std.specs.Prelude.{◌≡◌, ℕ, map, string_bytes};
    ghost use Rattle.brl_lines.specs.Answer.{FileAnswers, IsAnswer, MayAnswer, failures_after, read_failed};

    // the folders in which it looks, and what it may answer for a path; reading doesn't change them
    ghost gives: { Self → FileAnswers };

    // how often it has failed
    ghost faults: { Self → ℕ };

    /// Reads all bytes of the file at `path`; what the source gives stays, and `failures` rises
    /// exactly where the read failed. `NotFound` where there is none, `TooLarge` where it has more
    /// than `MOST_FILE_BYTES`, and `Failed` where it could not be read.
    fn read(&mut self, alloc: Global, path: &str) -> Result<Vec<u8>, Failure<SourceFault>>
        ensures answer { IsAnswer (MayAnswer (gives self.old) path.now) result }
        ensures same { gives self.new ≡ gives self.old }
        ensures count { faults self.new ≡ failures_after (faults self.old) (read_failed result) };

    /// The folders in which a file of a table is looked for that isn't at its usual path, in order.
    fn folders(&self) -> &[String]
        ensures { map string_bytes result.now ≡ (gives self.now).folders };

    /// How often `read` answered `Failed`. At `u64::MAX` it stays.
    fn failures(&self) -> u64
        ensures { result ≡ faults self.now };
}

//! Readers and writers that count their failures.
use std::io::{self, ErrorKind, Read, Write};

/// The reader or the writer has failed.
#[derive(Clone, Copy, PartialEq, Eq, Debug)]
pub struct Failed;

/// A reader that counts its failures. Where its bytes are known, contracts speak of them.
pub trait Input {
    ghost use Rattle.std.specs.Prelude.{Option, ◌≡◌, ◌≢◌, ℕ, List, OnOk, OnErr};
    ghost use Rattle.std.specs.Io.{ReadsAtMost};
    ghost use Rattle.std.specs.Io.KnownBytes.{ReadConsumes};

    // the bytes that reads will give, where they are known
    ghost remaining: { Self → Option (List ℕ) };

    // the number of failed reads; each failure changes it
    ghost failures: { Self → ℕ };

    /// Reads some next bytes into the buffer; the count of failures changes exactly where it fails.
    /// Returns 0 only at the end of the input or for an empty buffer.
    fn read_some(&mut self, buffer: &mut [u8]) -> Result<usize, Failed>
        ensures bound { ReadsAtMost result buffer.new }
        ensures bytes { ReadConsumes (remaining self.old) (remaining self.new) result buffer.new }
        ensures cause { OnErr result (failures self.new ≢ failures self.old) }
        ensures calm { OnOk result (failures self.new ≡ failures self.old) };
}

/// A writer that counts its failures. Where the bytes that it holds are known, contracts speak of
/// them.
pub trait Output {
    ghost use Rattle.std.specs.Prelude.{Option, ◌≡◌, ◌≢◌, ℕ, List, OnOk, OnErr, ◌++◌};
    ghost use Rattle.std.specs.Io.KnownBytes.{Appends};

    // the bytes that it holds, where they are known
    ghost contents: { Self → Option (List ℕ) };

    // the number of failed writes; each failure changes it
    ghost failures: { Self → ℕ };

    /// Writes all the bytes, or where it fails a first part; exactly then the count of failures
    /// changes.
    fn put(&mut self, bytes: &[u8]) -> Result<(), Failed>
        ensures ok { OnOk result (Appends (contents self.old) (contents self.new) bytes.now) }
        ensures err { OnErr result ((front rest : List ℕ) × (bytes.now ≡ front ++ rest)
            × Appends (contents self.old) (contents self.new) front) }
        ensures cause { OnErr result (failures self.new ≢ failures self.old) }
        ensures calm { OnOk result (failures self.new ≡ failures self.old) };

    /// Whether the write that failed last did so because nobody reads any more.
    fn is_closed(&self) -> bool;
}

/// A slice of bytes is a reader that never fails.
impl Input for &[u8] {
    ghost use Rattle.std.specs.Prelude.{Some};

    ghost remaining = { λ s. Some s.now };

    ghost failures = { λ _. 0 };

    fn read_some(&mut self, buffer: &mut [u8]) -> Result<usize, Failed> {
        match Read::read(self, buffer) {
            Ok(count) => Ok(count),
            Err(_) => Err(Failed),
        }
    }
}

/// A reader or writer of the standard library with the number of its failures, modulo 2^64. An
/// interrupted call is a failure, and so is a write that takes no byte.
#[derive(Drop)]
pub struct Counting<D> {
    pub device: D,
    pub failures: u64,
    /// Whether the write that failed last was into a pipe whose other end is closed.
    pub closed: bool,
}

impl<D> Counting<D> {
    ghost use Rattle.std.specs.Prelude.{◌≡◌};

    /// This device, which hasn't failed yet.
    pub fn new(device: D) -> Self
        ensures device { result.device ≡ device }
        ensures calm { result.failures ≡ 0 }
    {
        Counting {
            device,
            failures: 0,
            closed: false,
        }
    }
}

impl<R: Read> Input for Counting<R> {
    ghost remaining = { λ s. R.remaining s.device };

    ghost failures = { λ s. s.failures };

    fn read_some(&mut self, buffer: &mut [u8]) -> Result<usize, Failed> {
        match self.device.read(buffer) {
            Ok(count) => Ok(count),
            Err(_) => {
                self.failures = self.failures.wrapping_add(1);
                Err(Failed)
            }
        }
    }
}

impl<W: Write> Output for Counting<W> {
    ghost contents = { λ s. W.contents s.device };

    ghost failures = { λ s. s.failures };

    fn put(&mut self, bytes: &[u8]) -> Result<(), Failed> {
        let mut rest = bytes;
        while !rest.is_empty() {
            match self.device.write(rest) {
                Ok(count) if count > 0 => rest = &rest[count..],
                outcome => {
                    self.failures = self.failures.wrapping_add(1);
                    self.closed = is_of_closed_pipe(&outcome);
                    return Err(Failed);
                }
            }
        }
        Ok(())
    }

    fn is_closed(&self) -> bool {
        self.closed
    }
}

/// Whether a write failed because the other end of a pipe is closed.
fn is_of_closed_pipe(outcome: &io::Result<usize>) -> bool {
    match outcome {
        Ok(_) => false,
        Err(error) => error.kind() == ErrorKind::BrokenPipe,
    }
}

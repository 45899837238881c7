//! The bytes of an input that were read and not yet taken as lines.
ghost use Rattle.std.specs.Prelude.{◌≡◌, ◌≢◌, ◌+◌, ◌<◌, ◌≤◌, false, [], length, take, drop, IfOk, OnErr, OnOk, if◌then◌else◌};
ghost use Rattle.std.specs.List.{slice_range};
ghost use Rattle.std.specs.Io.KnownBytes.{Consumes, Keeps, IsAtEnd};
ghost use Rattle.brl_stream.specs.InputBuffer.{IsReadOn, IsWithin};

use crate::{Failed, Input};
use std::alloc::{AllocError, Global};
use std::marker::Model;

/// The most bytes of an input. One more is read to detect a longer input.
const MOST_INPUT: usize = 16_777_216;

/// The least room for a read, except near the limit.
const LEAST_ROOM: usize = 65_536;

/// Room for a line that may still be short enough, and for a read after it.
const BUFFER: usize = 196_608;

/// Bytes that were read and not yet taken: those of `buffer` from `start` to `end`. `taken` is the
/// number of bytes that were read, up to the limit, and `longer` whether one after the limit was
/// read too. A contract sees a `BufferView`.
#[derive(Drop)]
pub struct InputBuffer {
    buffer: Vec<u8>,
    start: usize,
    end: usize,
    taken: usize,
    longer: bool,
}

impl Model for InputBuffer {
    ghost use Rattle.std.specs.Prelude.{◌≡◌, ◌+◌, ◌-◌, ◌≤◌, true, vec_len};
    ghost use Rattle.std.specs.List.{slice_range};
    ghost use Rattle.brl_stream.specs.InputBuffer.{BufferView};

    ghost Value = { BufferView };

    ghost view = { λ w. record {
      bytes = slice_range w.buffer.items w.start w.end;
      taken = w.taken;
      longer = w.longer;
      room = 196608 - w.end;
    } };

    ghost invariant = { λ w. (vec_len w.buffer ≡ 196608) × (w.start ≤ w.end) × (w.end ≤ 196608)
        × (w.end ≤ w.taken + w.start) × (w.taken ≤ 16777216) × (w.longer ≡ true → w.taken ≡ 16777216) };
}

impl InputBuffer {
    /// An empty buffer: nothing was read yet.
    pub fn new(alloc: Global) -> Result<InputBuffer, AllocError>
        ensures bytes { IfOk result (λ w. w.bytes ≡ []) }
        ensures taken { IfOk result (λ w. w.taken ≡ 0) }
        ensures longer { IfOk result (λ w. w.longer ≡ false) }
    {
        Ok(InputBuffer {
            buffer: vec![in alloc; 0u8; BUFFER]?,
            start: 0,
            end: 0,
            taken: 0,
            longer: false,
        })
    }

    /// The bytes in the buffer.
    pub fn bytes(&self) -> &[u8]
        ensures bytes { result.now ≡ self.now.bytes }
        ensures within { IsWithin self.now }
    {
        &self.buffer[self.start..self.end]
    }

    /// Whether a byte after the limit was read.
    pub fn is_longer(&self) -> bool
        ensures { result ≡ self.now.longer }
    {
        self.longer
    }

    /// Removes the first `count` bytes.
    pub fn consume(&mut self, count: usize)
        requires { count ≤ length self.old.bytes }
        ensures { self.new ≡ record self.old { bytes = drop count self.old.bytes } }
    {
        self.start += count;
    }

    /// Reads once, and returns the number of bytes: 0 only at the end of the input. The byte after
    /// the limit is the last that is ever read.
    pub fn fill<R: Input>(&mut self, reader: &mut R) -> Result<usize, Failed>
        requires few { length self.old.bytes ≤ 65537 }
        requires within { self.old.longer ≡ false }
        ensures read { IfOk result (λ _. IsReadOn self.old self.new (R.remaining reader.old) (R.remaining reader.new)) }
        ensures prefix { IfOk result (λ _. take (length self.old.bytes) self.new.bytes ≡ self.old.bytes) }
        ensures none { IfOk result (λ count. (count ≡ 0 → self.new.bytes ≡ self.old.bytes)) }
        ensures counts { IfOk result (λ count. self.new.taken + (if self.new.longer then 1 else 0) ≡ self.old.taken + count) }
        ensures within { IsWithin self.new }
        ensures end { IfOk result (λ count. count ≡ 0 → IsAtEnd (R.remaining reader.new)) }
        ensures bytes { OnErr result (self.new.bytes ≡ self.old.bytes) }
        ensures taken { OnErr result (self.new.taken ≡ self.old.taken) }
        ensures longer { OnErr result (self.new.longer ≡ false) }
        ensures kept { OnErr result (Keeps (R.remaining reader.old) (R.remaining reader.new)) }
        ensures cause { OnErr result (R.failures reader.new ≢ R.failures reader.old) }
        ensures calm { OnOk result (R.failures reader.new ≡ R.failures reader.old) }
    {
        self.make_room();
        let most = (BUFFER - self.end).min(MOST_INPUT + 1 - self.taken);
        let count = read_after(reader, self.buffer.as_mut_slice(), self.end, most)?;
        let within = count.min(MOST_INPUT - self.taken);
        self.end += within;
        self.taken += within;
        self.longer = within < count;
        Ok(count)
    }

    /// Moves the bytes to the start of the buffer, unless there is enough room after them.
    fn make_room(&mut self)
        requires { length self.old.bytes ≤ 65537 }
        ensures bytes { self.new.bytes ≡ self.old.bytes }
        ensures room { 65536 ≤ self.new.room }
        ensures taken { self.new.taken ≡ self.old.taken }
        ensures longer { self.new.longer ≡ self.old.longer }
    {
        if BUFFER - self.end < LEAST_ROOM {
            self.buffer.copy_within(self.start..self.end, 0);
            self.end -= self.start;
            self.start = 0;
        }
    }
}

/// Reads at most `most` bytes once, into the buffer after its first `end` bytes.
fn read_after<R: Input>(
    reader: &mut R,
    buffer: &mut [u8],
    end: usize,
    most: usize,
) -> Result<usize, Failed>
    requires { end + most ≤ length buffer.old }
    ensures front { take end buffer.new ≡ take end buffer.old }
    ensures few { IfOk result (λ count. count ≤ most) }
    ensures bytes { IfOk result (λ count. Consumes (R.remaining reader.old) (R.remaining reader.new)
        (slice_range buffer.new end (end + count))) }
    ensures end { IfOk result (λ count. count ≡ 0 → 0 < most → IsAtEnd (R.remaining reader.new)) }
    ensures kept { OnErr result (Keeps (R.remaining reader.old) (R.remaining reader.new)) }
    ensures cause { OnErr result (R.failures reader.new ≢ R.failures reader.old) }
    ensures calm { OnOk result (R.failures reader.new ≡ R.failures reader.old) }
{
    reader.read_some(&mut buffer[end..end + most])
}

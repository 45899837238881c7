//! The next line of an input.
ghost use Rattle.std.specs.Prelude.{◌≡◌, ◌≢◌, ◌≤◌, ◌<◌, length, take, IsErrOf, IfSome, IfNone, OnOk, slice_index};
ghost use Rattle.brl_stream.specs.InputLines.{without_return};
ghost use Rattle.brl_stream.specs.InputBuffer.{IsReadOn, IsWithin, HasNoFeed, ReadsFront, ReadsNext, ReadsTail};

use crate::buffer::InputBuffer;
use crate::{Input, LineFault};
use memchr::memchr;

/// The most bytes of a line without its end.
const MOST_LINE: usize = 65_536;

/// The next line of an input.
#[derive(Clone, Copy, PartialEq, Eq)]
pub enum Next {
    /// A line of `len` bytes, which has `whole` bytes with its end.
    Line { len: usize, whole: usize },
    /// A last line of this number of bytes, without a line feed.
    Last(usize),
    /// No line: the end of the input.
    End,
}

/// Reads until the buffer begins with a whole line. `InputFailed` where the reader fails before
/// that, `InputLineTooLong` and `InputTooLong` as soon as the bytes that were read decide it.
pub fn next_line<R: Input>(buffer: &mut InputBuffer, reader: &mut R) -> Result<Next, LineFault>
    ensures read { IsReadOn buffer.old buffer.new (R.remaining reader.old) (R.remaining reader.new) }
    ensures next { ReadsNext buffer.new.bytes buffer.new.longer (R.remaining reader.new) result }
    ensures within { IsWithin buffer.new }
    ensures failed { IsErrOf result LineFault.InputFailed → R.failures reader.new ≢ R.failures reader.old }
    ensures calm { OnOk result (R.failures reader.new ≡ R.failures reader.old) }
{
    let mut scanned = 0;
    loop {
        if let Some(next) = first_line(buffer.bytes(), scanned, buffer.is_longer())? {
            return Ok(next);
        }
        scanned = buffer.bytes().len();
        match buffer.fill(reader) {
            Err(_) => return Err(LineFault::InputFailed),
            Ok(0) => return last_line(scanned),
            Ok(_) => {}
        }
    }
}

/// The line at the start of bytes, whose first `scanned` have no line feed. `None` where more bytes
/// must be read to decide.
fn first_line(bytes: &[u8], scanned: usize, longer: bool) -> Result<Option<Next>, LineFault>
    requires within { scanned ≤ length bytes.now }
    requires plain { HasNoFeed (take scanned bytes.now) }
    ensures { ReadsFront bytes.now longer result }
{
    if let Some(feed) = find_feed(bytes, scanned) {
        let len = length_without_return(&bytes[..feed]);
        if len > MOST_LINE {
            return Err(LineFault::InputLineTooLong);
        }
        return Ok(Some(Next::Line {
            len,
            whole: feed + 1,
        }));
    }
    if length_without_return(bytes) > MOST_LINE {
        return Err(LineFault::InputLineTooLong);
    }
    if longer {
        return Err(LineFault::InputTooLong);
    }
    Ok(None)
}

/// The place of the first line feed in bytes, whose first `scanned` have none.
fn find_feed(bytes: &[u8], scanned: usize) -> Option<usize>
    requires within { scanned ≤ length bytes.now }
    requires plain { HasNoFeed (take scanned bytes.now) }
    ensures found { IfSome result (λ feed. (feed < length bytes.now) × (slice_index bytes.now feed ≡ 10)
        × HasNoFeed (take feed bytes.now)) }
    ensures none { IfNone result (HasNoFeed bytes.now) }
{
    let ahead = memchr(b'\n', &bytes[scanned..])?;
    Some(scanned + ahead)
}

/// The length of a line without a carriage return at its end.
fn length_without_return(line: &[u8]) -> usize
    ensures within { result ≤ length line.now }
    ensures bytes { take result line.now ≡ without_return line.now }
{
    let len = line.len();
    if len > 0 && line[len - 1] == b'\r' {
        return len - 1;
    }
    len
}

/// The line that the last `len` bytes of an input are, without a line feed.
fn last_line(len: usize) -> Result<Next, LineFault>
    ensures { ReadsTail len result }
{
    if len > MOST_LINE {
        return Err(LineFault::InputLineTooLong);
    }
    if len == 0 {
        return Ok(Next::End);
    }
    Ok(Next::Last(len))
}

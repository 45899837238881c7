//! A file that was read and found good.
ghost use Rattle.std.specs.Prelude.{◌≡◌, ◌≢◌, ◌≤◌, false, IfErr, IfOk, length, option_map, string_bytes};
ghost use Rattle.std.specs.Str.{IsCharBoundary};
ghost use Rattle.brl_failure.specs.Failure.{GivesAs, IfFault};
ghost use Rattle.brl_lines.specs.Answer.{most_file_bytes};
ghost use Rattle.brl_lines.specs.Lines.{IsGood, long_row as long_row_of, text_in};
ghost use Rattle.brl_lines.specs.Outcome.{is_read_failed};
ghost use Rattle.brl_lines.specs.Rows.{without_mark as text_after_mark};
ghost use Rattle.brl_lines.specs.Views.{load_fault_view, location_ref_view};

use crate::cut::row_at;
use crate::fault::{LoadFault, LoadFaultKind, LocationRef, refusal};
use crate::source::MOST_FILE_BYTES;
use brl_failure::Failure;
use std::alloc::Global;

/// The most bytes of a row without its end.
const MOST_ROW_BYTES: usize = 2048;

/// A file that was read and found good: all of its text, with a byte order mark where it has one.
#[derive(Drop)]
pub(crate) struct CheckedFile {
    whole: String,
    ghost small: { length (string_bytes whole) ≤ most_file_bytes },
    ghost good: { IsGood (string_bytes whole) },
    ghost starts: { IsCharBoundary (text_after_mark (string_bytes whole)) 0 },
}

impl CheckedFile {
    /// The text after a byte order mark.
    pub(crate) fn text(&self) -> &str
        ensures text { result.now ≡ text_after_mark (string_bytes self.now.whole) }
        ensures most { length result.now ≤ most_file_bytes }
    {
        without_mark(self.whole.as_str())
    }

    /// All bytes of the file.
    pub(crate) fn bytes(&self) -> &[u8]
        ensures { result.now ≡ string_bytes self.now.whole }
    {
        self.whole.as_bytes()
    }
}

/// The text after a byte order mark.
pub fn without_mark(text: &str) -> &str
    ensures { result.now ≡ text_after_mark text.now }
{
    match text.strip_prefix("\u{feff}") {
        Some(rest) => rest,
        None => text,
    }
}

/// The number of the first row that is too long.
fn long_row(text: &str) -> Option<u32>
    requires { length text.now ≤ most_file_bytes }
    ensures { result ≡ long_row_of text.now }
{
    let mut number = 1u32;
    let mut at = 0;
    while at < text.len() {
        let row = row_at(text, at);
        if row.to - at > MOST_ROW_BYTES {
            return Some(number);
        }
        at = row.next;
        number += 1;
    }
    None
}

/// The file at a path that has these bytes, checked whole. The place is the include line that names
/// it.
pub(crate) fn checked(
    alloc: Global,
    path: &str,
    place: Option<LocationRef<'_>>,
    bytes: Vec<u8>,
) -> Result<CheckedFile, Failure<LoadFault>>
    ensures text { GivesAs (λ file. text_after_mark bytes.items) load_fault_view (text_in path.now (option_map location_ref_view place.entry) bytes.items) result }
    ensures read { IfErr result (IfFault (λ fault. is_read_failed fault.kind ≡ false)) }
    ensures there { IfErr result (IfFault (λ fault. fault.kind ≢ LoadFaultKind.NotFound)) }
    ensures file { IfOk result (λ file. string_bytes file.whole ≡ bytes.items) }
{
    if bytes.len() > MOST_FILE_BYTES {
        return Err(refusal(alloc, LoadFaultKind::TooLarge, path, place));
    }
    let Ok(whole) = String::from_utf8(bytes) else {
        return Err(refusal(alloc, LoadFaultKind::NotUtf8, path, place));
    };
    let Some(line) = long_row(without_mark(whole.as_str())) else {
        return Ok(CheckedFile { whole });
    };
    let place = Some(LocationRef { file: path, line });
    Err(refusal(alloc, LoadFaultKind::LineTooLong, path, place))
}

//! Puts text before lines of a file.
ghost use Rattle.std.specs.Prelude.{◌≡◌, ◌<◌, ◌≤◌, ◌++◌, ◌∷◌, ◌-◌, ℕ, IfOk, List, OnOk, Option, drop, length, take};
ghost use Rattle.std.specs.Option.{option_copied};
ghost use Rattle.brl_cut.specs.Edits.{begins_character as begins_character_by, character_at, edited as edited_bytes, edited_line, limited, mark_of, row_length as length_of_row, whole_lines};
ghost use Rattle.brl_cut.specs.Files.{HasPrefixes};
ghost use Rattle.brl_lines.specs.Rows.{without_mark};

use memchr::memchr;
use std::alloc::{AllocError, Global};
use std::collections::BTreeMap;

/// The most bytes of a line without its end.
pub(crate) const MOST_ROW_BYTES: usize = 2048;

/// What a line that is cut off ends with.
const CUT_OFF: &str = "...";

/// The bytes of a byte order mark.
const MARK: [u8; 3] = [0xef, 0xbb, 0xbf];

/// Whether a byte begins a character.
fn begins_character(byte: u8) -> bool
    ensures { result ≡ begins_character_by byte }
{
    !(128..192).contains(&byte)
}

/// The last place up to 2,045 where a character of a row begins, or 0.
fn place_to_cut(row: &[u8]) -> usize
    requires { 2048 < length row.now }
    ensures { result ≡ character_at 2045 row.now }
{
    let mut at = MOST_ROW_BYTES - CUT_OFF.len();
    while at > 0 && !begins_character(row[at]) {
        at -= 1;
    }
    at
}

/// Cuts a row off that begins at a place of a text, and goes to its end, if it has too many bytes.
fn limit(mut row: Vec<u8>) -> Result<Vec<u8>, AllocError>
    ensures { IfOk result (λ v. v.items ≡ limited row.items) }
{
    if row.len() > MOST_ROW_BYTES {
        let at = place_to_cut(row.as_slice());
        row.truncate(at);
        row.extend_from_slice(CUT_OFF.as_bytes())?;
    }
    Ok(row)
}

/// How many bytes a line has without its end.
fn row_length(line: &[u8]) -> usize
    ensures { result ≡ length_of_row line.now }
{
    if line.ends_with(b"\r\n") {
        line.len() - 2
    } else if line.ends_with(b"\n") {
        line.len() - 1
    } else {
        line.len()
    }
}

/// A row with this put before it.
fn with_prefix(alloc: Global, prefix: &str, row: &[u8]) -> Result<Vec<u8>, AllocError>
    ensures { IfOk result (λ v. v.items ≡ limited (prefix.now ++ row.now)) }
{
    let mut new = Vec::from_slice(alloc, prefix.as_bytes())?;
    new.extend_from_slice(row)?;
    limit(new)
}

/// Appends a line with this put before it, and its end.
fn push_line(
    alloc: Global,
    text: &mut Vec<u8>,
    line: &[u8],
    prefix: Option<&str>,
) -> Result<(), AllocError>
    ensures { OnOk result (text.new.items ≡ text.old.items ++ edited_line (option_copied prefix.entry) line.now) }
{
    let Some(prefix) = prefix else {
        return text.extend_from_slice(line);
    };
    let (row, end) = line.split_at(row_length(line));
    text.extend_from_slice(with_prefix(alloc, prefix, row)?.as_slice())?;
    text.extend_from_slice(end)?;
    Ok(())
}

/// Where the line ends that begins at a place of a text: after its line feed, or at the text's end.
pub(crate) fn line_end(text: &[u8], at: usize) -> usize
    requires { at < length text.now }
    ensures after { at < result }
    ensures within { result ≤ length text.now }
    ensures cuts { whole_lines (drop at text.now) ≡ take (result - at) (drop at text.now) ∷ whole_lines (drop result text.now) }
{
    match memchr(b'\n', &text[at..]) {
        Some(ahead) => at + ahead + 1,
        None => text.len(),
    }
}

/// A byte order mark at the start of bytes, and what is after it.
pub(crate) fn split_mark(bytes: &[u8]) -> (&[u8], &[u8])
    ensures mark { result.0.now ≡ mark_of bytes.now }
    ensures text { result.1.now ≡ without_mark bytes.now }
{
    if bytes.starts_with(&MARK) {
        bytes.split_at(3)
    } else {
        bytes.split_at(0)
    }
}

/// The bytes of a file, with what is put before its lines by their numbers, from 1.
pub(crate) fn edited(
    alloc: Global,
    bytes: &[u8],
    prefixes: &BTreeMap<usize, &str>,
) -> Result<Vec<u8>, AllocError>
    ensures { IfOk result (λ v. (prefix : ℕ → Option (List ℕ)) → HasPrefixes prefixes.now prefix → v.items ≡ edited_bytes prefix bytes.now) }
{
    let (mark, text) = split_mark(bytes);
    let mut new = Vec::from_slice(alloc, mark)?;
    let mut number = 1;
    let mut at = 0;
    while at < text.len() {
        let next = line_end(text, at);
        push_line(
            alloc,
            &mut new,
            &text[at..next],
            prefixes.get(&number).copied(),
        )?;
        at = next;
        number += 1;
    }
    Ok(new)
}

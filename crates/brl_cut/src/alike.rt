//! Files whose lines are the same as those of others, but for comments.
ghost use Rattle.std.specs.Prelude.{◌≡◌, map};
ghost use Rattle.std.specs.Str.{is_utf8};
ghost use Rattle.brl_cut.specs.Alike.{are_alike as are_alike_by, are_comments as are_comments_by, begins_comment as begins_comment_by, keep_files as keep_files_by, keeps_file as keeps_file_by, keeps_lines as keeps_lines_by, stands_for as stands_for_by};
ghost use Rattle.brl_cut.specs.Edits.{whole_lines};
ghost use Rattle.brl_cut.specs.Files.{file_view};

use crate::text::{MOST_ROW_BYTES, line_end, split_mark};
use brl_lines::{GatheredFile, MOST_FILE_BYTES};
use std::str;

/// Whether the first byte of a line is `#`.
fn begins_comment(line: &[u8]) -> bool
    ensures { result ≡ begins_comment_by line.now }
{
    line.first() == Some(&b'#')
}

/// Whether two lines are comments, and the second one isn't too long.
fn are_comments(line: &[u8], other: &[u8]) -> bool
    ensures { result ≡ are_comments_by line.now other.now }
{
    begins_comment(line) && begins_comment(other) && other.len() <= MOST_ROW_BYTES
}

/// Whether a line is as good as another: both are comments, or they are the same.
fn stands_for(line: &[u8], other: &[u8]) -> bool
    ensures { result ≡ stands_for_by line.now other.now }
{
    are_comments(line, other) || line == other
}

/// Whether each line of a text is as good as that of another.
fn are_alike(text: &[u8], other: &[u8]) -> bool
    ensures { result ≡ are_alike_by (whole_lines text.now) (whole_lines other.now) }
{
    let mut at = 0;
    let mut there = 0;
    while at < text.len() {
        if there == other.len() {
            return false;
        }
        let next = line_end(text, at);
        let end = line_end(other, there);
        if !stands_for(&text[at..next], &other[there..end]) {
            return false;
        }
        at = next;
        there = end;
    }
    there == other.len()
}

/// Whether bytes are UTF-8.
fn is_text(bytes: &[u8]) -> bool
    ensures { result ≡ is_utf8 bytes.now }
{
    match str::from_utf8(bytes) {
        Ok(_) => true,
        Err(_) => false,
    }
}

/// Whether a file with the other bytes is no larger than a file may be, and has lines that are as
/// good.
fn keeps_lines(bytes: &[u8], other: &[u8]) -> bool
    ensures { result ≡ keeps_lines_by bytes.now other.now }
{
    let (_, text) = split_mark(bytes);
    let (_, new) = split_mark(other);
    other.len() <= MOST_FILE_BYTES && is_text(other) && are_alike(text, new)
}

/// Whether a file is at the path of another, and has its bytes or lines that are as good.
fn keeps_file(file: &GatheredFile, other: &GatheredFile) -> bool
    ensures { result ≡ keeps_file_by (file_view file.now) (file_view other.now) }
{
    let bytes = file.bytes.as_slice();
    let new = other.bytes.as_slice();
    file.path.as_str() == other.path.as_str() && (bytes == new || keeps_lines(bytes, new))
}

/// Whether each of some files is at the path of another, and has lines that are as good.
pub(crate) fn keep_files(files: &[GatheredFile], others: &[GatheredFile]) -> bool
    ensures { result ≡ keep_files_by (map file_view files.now) (map file_view others.now) }
{
    let mut at = 0;
    while at < files.len() {
        if at == others.len() {
            return false;
        }
        if !keeps_file(&files[at], &others[at]) {
            return false;
        }
        at += 1;
    }
    at == others.len()
}

//! The rows of a file, one at a time, and what each of them is.
ghost use Rattle.std.specs.Prelude.{◌≡◌, ◌≤◌, IfOk, length, map};
ghost use Rattle.std.specs.Str.{IsCharBoundary};
ghost use Rattle.brl_lines.specs.Answer.{most_file_bytes};
ghost use Rattle.brl_lines.specs.Files.{text_at, text_for};
ghost use Rattle.brl_lines.specs.Rows.{piece};
ghost use Rattle.brl_lines.specs.Steps.{IsKindOf, IsOpen, IsRowAt};
ghost use Rattle.brl_lines.specs.Tokens.{line_of, token_of, tokens as tokens_of};

use crate::checked_file::CheckedFile;
use crate::cut::{line_between, row_at};
use crate::include::{IncludeLine, include_name};
use crate::open_file::OpenFile;
use crate::read::ReadFiles;
use crate::span::LineSpan;
use std::alloc::{AllocError, Global};

/// What a row is.
#[derive(Drop)]
pub(crate) enum RowKind {
    /// It does nothing.
    Nothing,
    /// A line of the table.
    Line,
    /// A line that includes a file.
    Include(IncludeLine),
}

/// A row of a file, and where the next one starts.
#[derive(Drop)]
pub(crate) struct FileRow {
    pub span: LineSpan,
    pub kind: RowKind,
    pub next: usize,
}

/// The text of a file, after a byte order mark; nothing where there is no file.
pub(crate) fn text_of_file(file: &Option<CheckedFile>) -> &str
    ensures text { result.now ≡ text_for file.now }
    ensures most { length result.now ≤ most_file_bytes }
{
    match file {
        Some(file) => file.text(),
        None => "",
    }
}

/// What the row between two places of a file's text is.
fn row_kind(
    alloc: Global,
    file: &str,
    number: u32,
    text: &str,
    from: usize,
    to: usize,
) -> Result<RowKind, AllocError>
    requires range { from ≤ to }
    requires within { to ≤ length text.now }
    requires from_boundary { IsCharBoundary text.now from }
    requires to_boundary { IsCharBoundary text.now to }
    ensures { IfOk result (IsKindOf file.now number (line_of file.now number (map token_of (tokens_of (piece text.now from to))))) }
{
    let Some(line) = line_between(alloc, file, number, text, from, to)? else {
        return Ok(RowKind::Nothing);
    };
    let Some(name) = include_name(&line) else {
        return Ok(RowKind::Line);
    };
    let name = String::from_str(alloc, name)?;
    Ok(RowKind::Include(IncludeLine { line: number, name }))
}

/// The row of a file that starts at a place of its text, if there is one. The row has this number.
pub(crate) fn row_from(
    alloc: Global,
    files: &ReadFiles,
    file: &OpenFile,
    number: u32,
    from: usize,
) -> Result<Option<FileRow>, AllocError>
    requires opened { IsOpen files.now.entries file.now }
    requires within { from ≤ length (text_at files.now.entries file.now.index) }
    requires boundary { IsCharBoundary (text_at files.now.entries file.now.index) from }
    ensures { IfOk result (IsRowAt files.now.entries file.now number from) }
{
    let text = text_of_file(&files[file.index]);
    if from == text.len() {
        return Ok(None);
    }
    let row = row_at(text, from);
    let kind = row_kind(alloc, file.path.as_str(), number, text, from, row.to)?;
    let span = LineSpan {
        file: file.index,
        line: number,
        from,
        to: row.to,
    };
    Ok(Some(FileRow {
        span,
        kind,
        next: row.next,
    }))
}

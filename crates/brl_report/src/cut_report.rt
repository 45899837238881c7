//! The report of a cut.
ghost use Rattle.std.specs.Prelude.{◌≡◌, ◌++◌, ◌+◌, ◌<◌, ◌^◌, IfOk, OnOk, count_by, flat_map, length, map, string_bytes, bytes_eq};
ghost use Rattle.brl_table.specs.Survey.{faulty_line_view};
ghost use Rattle.brl_report.specs.Survey.{IsCutText, cut_file_line, kept_in, kept_note, rewritten_note};

use crate::counts::counts_of;
use crate::survey::{count_faulty, push_counts, push_file_read};
use brl_table::{Cut, FaultyLine};
use std::alloc::{AllocError, Global};

/// The report of a cut: how many lines are kept, how many are left out of each opcode, and of each
/// file that has some how many lines are read. Where lines might be rewritten, it says how many of
/// those that are kept were. Of an opcode it says whether the profile or liblouis has it. Opcodes
/// of more lines come first, and those of as many by name; files in the order in which include
/// lines first lead to them.
///
/// Every line ends with LF. `AllocError` if memory runs out.
pub fn report_of_cut(alloc: Global, cut: &Cut, rewrite: bool) -> Result<String, AllocError>
    ensures { IfOk result (λ text. IsCutText rewrite cut.now.rewritten (map faulty_line_view cut.now.left_out.items) (map string_bytes cut.now.line_files.items)
        (map string_bytes cut.now.paths.items) (string_bytes text)) }
{
    let left_out = cut.left_out.as_slice();
    let files = cut.line_files.as_slice();
    let counts = counts_of(alloc, left_out)?;
    let mut text = String::new(alloc);
    push_kept(&mut text, files.len(), left_out.len())?;
    push_rewritten(&mut text, rewrite, cut.rewritten)?;
    text.push('\n')?;
    push_counts(&mut text, counts.as_slice())?;
    push_files(&mut text, left_out, files, cut.paths.as_slice())?;
    Ok(text)
}

/// Appends how many lines are kept, where this many are left out.
fn push_kept(text: &mut String, kept: usize, left_out: usize) -> Result<(), AllocError>
    requires { kept + left_out < 2 ^ 64 }
    ensures { OnOk result (string_bytes text.new ≡ string_bytes text.old ++ kept_note kept left_out) }
{
    let lines = kept + left_out;
    write!(text, "{kept} of {lines} lines are kept")?;
    Ok(())
}

/// Appends how many of the kept lines are rewritten, where lines may be.
fn push_rewritten(text: &mut String, rewrite: bool, rewritten: usize) -> Result<(), AllocError>
    ensures { OnOk result (string_bytes text.new ≡ string_bytes text.old ++ rewritten_note rewrite rewritten) }
{
    if rewrite {
        write!(text, ", {rewritten} of them rewritten")?;
    }
    Ok(())
}

/// Appends the lines of the files that have lines which are left out.
fn push_files(
    text: &mut String,
    left_out: &[FaultyLine],
    files: &[String],
    paths: &[String],
) -> Result<(), AllocError>
    ensures { let file = cut_file_line (map faulty_line_view left_out.now) (map string_bytes files.now) in
        OnOk result (string_bytes text.new ≡ string_bytes text.old ++ flat_map file (map string_bytes paths.now)) }
{
    for path in paths {
        push_file(text, left_out, files, path.as_str())?;
    }
    Ok(())
}

/// Appends the line of the file at a path, if it has lines which are left out.
fn push_file(
    text: &mut String,
    left_out: &[FaultyLine],
    files: &[String],
    path: &str,
) -> Result<(), AllocError>
    ensures { OnOk result (string_bytes text.new ≡ string_bytes text.old ++ cut_file_line (map faulty_line_view left_out.now) (map string_bytes files.now) path.now) }
{
    match count_faulty(left_out, path) {
        0 => Ok(()),
        faulty => push_file_read(text, path, faulty, count_kept(files, path) + faulty),
    }
}

/// How many of these paths are this one.
fn count_kept(files: &[String], path: &str) -> usize
    ensures { result ≡ kept_in (map string_bytes files.now) path.now }
{
    files.iter().filter(|file| path == file.as_str()).count()
}

//! The report of a survey.
ghost use Rattle.std.specs.Prelude.{◌≡◌, ◌++◌, [], IfOk, OnOk, count_by, flat_map, if◌then◌else◌, map, string_bytes, bytes_eq};
ghost use Rattle.brl_lines.specs.Views.{line_view};
ghost use Rattle.brl_table.specs.Liblouis.{origin_of as origin_of_opcode};
ghost use Rattle.brl_table.specs.Survey.{faulty_line_view, findings_view};
ghost use Rattle.brl_report.specs.Survey.{IsSurveyText, characters_note, count_line, fault_line, faulty_in, file_line, lines_in, origin_note, pass_note, read_in_file, read_line};

use crate::counts::{OpcodeCount, counts_of};
use brl_lines::Line;
use brl_table::{FaultyLine, Findings, OpcodeOrigin, origin_of};
use std::alloc::{AllocError, Global};

/// The note where a line has a fault by itself.
const SECOND_PASS: &str =
    "undefined characters (B5 to B7) are looked for once no line has another fault\n";

/// The note where no line defines a character.
const NO_CHARACTER: &str = "no line defines a character\n";

/// The report of a survey: the fault of each faulty line, how many of them are of each opcode, and
/// how many lines of each file and of all are read. One that is to be brief has no faults. Of an
/// opcode it says whether the profile or liblouis has it, and of files only those are there that
/// have faulty lines. It says so where the second pass wasn't made, or no line defines a character.
/// Opcodes of more lines come first, and those of as many by name; files in the order of their
/// paths.
///
/// Every line ends with LF. `AllocError` if memory runs out.
pub fn survey_report(
    alloc: Global,
    found: &Findings,
    lines: &[Line<'_>],
    paths: &[&str],
    brief: bool,
) -> Result<String, AllocError>
    ensures { IfOk result (λ text.
        IsSurveyText brief (findings_view found.now) (map line_view lines.now) (map (λ path. path.now) paths.now) (string_bytes text)) }
{
    let faulty = found.faulty.as_slice();
    let counts = counts_of(alloc, faulty)?;
    let mut text = String::new(alloc);
    if !brief {
        push_faults(&mut text, faulty)?;
    }
    push_counts(&mut text, counts.as_slice())?;
    push_files(&mut text, faulty, lines, paths)?;
    push_notes(&mut text, found)?;
    push_read(&mut text, faulty.len(), lines.len())?;
    Ok(text)
}

/// Appends the faults of lines.
fn push_faults(text: &mut String, found: &[FaultyLine]) -> Result<(), AllocError>
    ensures { OnOk result (string_bytes text.new ≡ string_bytes text.old ++ flat_map fault_line (map faulty_line_view found.now)) }
{
    for faulty in found {
        let fault = &faulty.fault;
        writeln!(text, "{fault}")?;
    }
    Ok(())
}

/// Appends the lines of counts.
pub(crate) fn push_counts(text: &mut String, counts: &[OpcodeCount]) -> Result<(), AllocError>
    ensures { OnOk result (string_bytes text.new ≡ string_bytes text.old ++ flat_map count_line counts.now) }
{
    for count in counts {
        push_count(text, count)?;
    }
    Ok(())
}

/// Appends the line of a count.
fn push_count(text: &mut String, count: &OpcodeCount) -> Result<(), AllocError>
    ensures { OnOk result (string_bytes text.new ≡ string_bytes text.old ++ count_line count.now) }
{
    let opcode = count.opcode.as_str();
    let lines = count.lines;
    text.push_str("opcode ")?;
    text.push_str(opcode)?;
    write!(text, ": {lines}")?;
    text.push_str(origin_text(opcode))?;
    text.push('\n')
}

/// What the line of a count says of whose opcode this is.
fn origin_text(opcode: &str) -> &'static str
    ensures { result.now ≡ origin_note (origin_of_opcode opcode.now) }
{
    match origin_of(opcode) {
        OpcodeOrigin::Profile => "",
        OpcodeOrigin::Liblouis => " (not in the profile)",
        OpcodeOrigin::Unknown => " (not in liblouis)",
    }
}

/// Appends the lines of the files that have faulty lines.
fn push_files(
    text: &mut String,
    found: &[FaultyLine],
    lines: &[Line<'_>],
    paths: &[&str],
) -> Result<(), AllocError>
    ensures { let file = file_line (map faulty_line_view found.now) (map line_view lines.now) in
        OnOk result (string_bytes text.new ≡ string_bytes text.old ++ flat_map file (map (λ path. path.now) paths.now)) }
{
    for path in paths {
        push_file(text, found, lines, path)?;
    }
    Ok(())
}

/// Appends the line of the file at a path, if it has faulty lines.
fn push_file(
    text: &mut String,
    found: &[FaultyLine],
    lines: &[Line<'_>],
    path: &str,
) -> Result<(), AllocError>
    ensures { OnOk result (string_bytes text.new ≡ string_bytes text.old ++ file_line (map faulty_line_view found.now) (map line_view lines.now) path.now) }
{
    match count_faulty(found, path) {
        0 => Ok(()),
        faulty => push_file_read(text, path, faulty, count_lines(lines, path)),
    }
}

/// How many of the faulty lines are of the file at a path.
pub(crate) fn count_faulty(found: &[FaultyLine], path: &str) -> usize
    ensures { result ≡ faulty_in (map faulty_line_view found.now) path.now }
{
    found
        .iter()
        .filter(|faulty| path == faulty.fault.file.as_str())
        .count()
}

/// How many of the lines are of the file at a path.
fn count_lines(lines: &[Line<'_>], path: &str) -> usize
    ensures { result ≡ lines_in (map line_view lines.now) path.now }
{
    lines.iter().filter(|line| path == line.file).count()
}

/// Appends the notes that the second pass is not made yet, and that no character is defined.
fn push_notes(text: &mut String, found: &Findings) -> Result<(), AllocError>
    ensures { let notes = pass_note found.now.passes_first ++ characters_note found.now.has_characters in
        OnOk result (string_bytes text.new ≡ string_bytes text.old ++ notes) }
{
    if !found.passes_first {
        text.push_str(SECOND_PASS)?;
    }
    if !found.has_characters {
        text.push_str(NO_CHARACTER)?;
    }
    Ok(())
}

/// Appends the line of the file at a path, where this many of its lines are faulty.
pub(crate) fn push_file_read(
    text: &mut String,
    path: &str,
    faulty: usize,
    lines: usize,
) -> Result<(), AllocError>
    ensures { OnOk result (string_bytes text.new ≡ string_bytes text.old ++ read_in_file path.now faulty lines) }
{
    text.push_str("file ")?;
    text.push_str(path)?;
    text.push_str(": ")?;
    push_read(text, faulty, lines)
}

/// Appends how many lines are read: all but the faulty ones.
fn push_read(text: &mut String, faulty: usize, lines: usize) -> Result<(), AllocError>
    ensures { OnOk result (string_bytes text.new ≡ string_bytes text.old ++ read_line faulty lines) }
{
    let read = lines.saturating_sub(faulty);
    writeln!(text, "{read} of {lines} lines are read")?;
    Ok(())
}

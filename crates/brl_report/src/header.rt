//! The first lines of a report.
ghost use Rattle.std.specs.Prelude.{◌≡◌, ◌++◌, OnOk, string_bytes};
ghost use Rattle.brl_report.specs.Header.{cells_line, text_line};

use brl_cells::{Cell, write_dots};
use brl_lines::spell_chars;
use std::alloc::{AllocError, Global};

/// Appends the line of a text with this name.
pub fn push_text_line(
    alloc: Global,
    report: &mut String,
    name: &str,
    text: &[char],
) -> Result<(), AllocError>
    ensures { OnOk result (string_bytes report.new ≡ string_bytes report.old ++ text_line name.now text.now) }
{
    report.push_str(name)?;
    report.push_str(": ")?;
    report.push_str(spell_chars(alloc, text)?.as_str())?;
    report.push('\n')
}

/// Appends the line of cells.
pub fn push_cells_line(alloc: Global, report: &mut String, cells: &[Cell]) -> Result<(), AllocError>
    ensures { OnOk result (string_bytes report.new ≡ string_bytes report.old ++ cells_line cells.now) }
{
    report.push_str("cells: ")?;
    report.push_str(write_dots(alloc, cells)?.as_str())?;
    report.push('\n')
}

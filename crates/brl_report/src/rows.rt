//! The lines of a report that list the steps of a text.
ghost use Rattle.std.specs.Prelude.{◌≡◌, ◌++◌, IfOk, OnOk, map, string_bytes};
ghost use Rattle.brl_lines.specs.Views.{line_view};
ghost use Rattle.brl_report.specs.Rows.{row_lines, row_of, step_lines};

use crate::row::{CellColumns, Row, widths_of};
use crate::steps::ReportStep;
use brl_lines::Line;
use brl_rules::Table;
use std::alloc::{AllocError, Global};

/// The rows of steps.
fn rows_of(
    alloc: Global,
    table: &Table,
    lines: &[Line<'_>],
    columns: CellColumns,
    steps: &[ReportStep],
) -> Result<Vec<Row>, AllocError>
    ensures { IfOk result (λ rows. rows.items ≡ map (row_of table.now (map line_view lines.now) columns) steps.now) }
{
    let mut rows = Vec::new(alloc);
    for step in steps {
        rows.push(Row::of(alloc, table, lines, columns, step)?)?;
    }
    Ok(rows)
}

/// Appends the lines of rows to a text.
fn push_rows(alloc: Global, text: &mut String, rows: &[Row]) -> Result<(), AllocError>
    ensures { OnOk result (string_bytes text.new ≡ string_bytes text.old ++ row_lines rows.now) }
{
    let widths = widths_of(rows);
    for row in rows {
        row.push_line(alloc, text, widths)?;
    }
    Ok(())
}

/// Appends the lines of steps to a text, each with those of these lines of the table by which the
/// step is made.
pub fn push_steps(
    alloc: Global,
    table: &Table,
    lines: &[Line<'_>],
    text: &mut String,
    columns: CellColumns,
    steps: &[ReportStep],
) -> Result<(), AllocError>
    ensures { OnOk result (string_bytes text.new ≡ string_bytes text.old ++ step_lines table.now (map line_view lines.now) columns steps.now) }
{
    push_rows(
        alloc,
        text,
        rows_of(alloc, table, lines, columns, steps)?.as_slice(),
    )
}

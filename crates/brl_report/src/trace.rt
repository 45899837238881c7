//! The report of one text.
ghost use Rattle.std.specs.Prelude.{◌≡◌, IfErr, IfOk, IsTrue, map, string_bytes};
ghost use Rattle.brl_failure.specs.Failure.{IfFault};
ghost use Rattle.brl_forward.specs.Faults.{IsFaultOf};
ghost use Rattle.brl_lines.specs.Views.{line_view};
ghost use Rattle.brl_report.specs.Trace.{trace_text};
ghost use Rattle.brl_rules.specs.Text.{is_text};

use crate::header::{push_cells_line, push_text_line};
use crate::row::CellColumns;
use crate::rows::push_steps;
use crate::steps::traced_steps;
use brl_failure::Failure;
use brl_forward::{ForwardFault, translate};
use brl_lines::Line;
use brl_rules::Table;
use std::alloc::Global;

/// The report of a text: the text, its cells and the steps of its translation; or the same
/// `UnknownChar` as `trace`. A step's line has its characters, the cells of the indicators before
/// them (`-` for none), the cells of its rule, and the file and line of its rule, or of the line
/// that gave the character its cells. It is followed by those of `lines` by which the step is made:
/// the lines of its indicators, and that of its rule. With no lines given there are none.
///
/// Every line ends with LF. Texts are spelled as in an operand of a table. The columns before the
/// location are as wide as their widest entries.
pub fn trace_report(
    alloc: Global,
    table: &Table,
    lines: &[Line<'_>],
    text: &[char],
) -> Result<String, Failure<ForwardFault>>
    ensures text { IfOk result (λ _. IsTrue (is_text table.now text.now)) }
    ensures report { IfOk result (λ report. string_bytes report ≡ trace_text table.now (map line_view lines.now) text.now) }
    ensures fault { IfErr result (IfFault (IsFaultOf table.now text.now)) }
{
    let cells = translate(alloc, table, text)?;
    let steps = traced_steps(alloc, table, text)?;
    let mut report = String::new(alloc);
    push_text_line(alloc, &mut report, "text", text)?;
    push_cells_line(alloc, &mut report, cells.as_slice())?;
    push_steps(
        alloc,
        table,
        lines,
        &mut report,
        CellColumns::Parted,
        steps.as_slice(),
    )?;
    Ok(report)
}

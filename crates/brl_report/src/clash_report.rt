//! The report of a clash.
ghost use Rattle.std.specs.Prelude.{◌≡◌, IfOk, map, string_bytes};
ghost use Rattle.brl_lines.specs.Views.{line_view};
ghost use Rattle.brl_report.specs.Report.{header, report_text, report_text_with};
ghost use Rattle.brl_rules.specs.Translation.{IsClash};

use crate::header::{push_cells_line, push_text_line};
use crate::side::push_sides;
use crate::steps::report_steps;
use brl_forward::Clash;
use brl_lines::Line;
use brl_rules::Table;
use std::alloc::{AllocError, Global};

/// The lines of the texts and cells of a clash.
fn header(alloc: Global, clash: &Clash) -> Result<String, AllocError>
    ensures { IfOk result (λ text. string_bytes text ≡ header clash.now.left clash.now.right clash.now.cells) }
{
    let mut text = String::new(alloc);
    push_text_line(alloc, &mut text, "left", clash.left())?;
    push_text_line(alloc, &mut text, "right", clash.right())?;
    push_cells_line(alloc, &mut text, clash.cells())?;
    Ok(text)
}

/// Why there is no report: memory runs out.
pub type ReportFault = AllocError;

/// The report of a clash: its texts and their cells, and of each text the steps of its translation
/// from the first one that the other doesn't have. A step's line has its characters, its cells, and
/// the file and line of its rule, or of the line that gave the character its cells.
///
/// Every line ends with LF. Texts are spelled as in an operand of a table. The first two columns of
/// a side are as wide as their widest entries.
pub fn report(alloc: Global, table: &Table, clash: &Clash) -> Result<String, ReportFault>
    requires { IsClash table.now clash.now.left clash.now.right clash.now.cells }
    ensures { IfOk result (λ text. string_bytes text ≡ report_text table.now clash.now.left clash.now.right clash.now.cells) }
{
    report_with(alloc, table, &[], clash)
}

/// The report of a clash, where each step's line is followed by those of `lines` by which the step
/// is made: the lines of its indicators, and that of its rule.
pub fn report_with(
    alloc: Global,
    table: &Table,
    lines: &[Line<'_>],
    clash: &Clash,
) -> Result<String, ReportFault>
    requires { IsClash table.now clash.now.left clash.now.right clash.now.cells }
    ensures { IfOk result (λ text. string_bytes text ≡ report_text_with table.now (map line_view lines.now) clash.now.left clash.now.right clash.now.cells) }
{
    let left = report_steps(alloc, table, clash.left())?;
    let right = report_steps(alloc, table, clash.right())?;
    let mut text = header(alloc, clash)?;
    push_sides(
        alloc,
        table,
        lines,
        &mut text,
        left.as_slice(),
        right.as_slice(),
    )?;
    Ok(text)
}

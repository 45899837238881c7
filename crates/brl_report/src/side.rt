//! One side of the report: the steps of a text from where the two translations diverge.
ghost use Rattle.std.specs.Prelude.{◌≡◌, ◌++◌, OnOk, map, string_bytes, drop};
ghost use Rattle.brl_lines.specs.Views.{line_view};
ghost use Rattle.brl_report.specs.Report.{report_of, side};

use crate::row::CellColumns;
use crate::rows::push_steps;
use crate::steps::{ReportStep, common_prefix};
use brl_lines::Line;
use brl_rules::Table;
use std::alloc::{AllocError, Global};

/// Appends a side of this name to a text.
fn push_side(
    alloc: Global,
    table: &Table,
    lines: &[Line<'_>],
    text: &mut String,
    name: &str,
    steps: &[ReportStep],
) -> Result<(), AllocError>
    ensures { OnOk result (string_bytes text.new ≡ string_bytes text.old ++ side table.now (map line_view lines.now) name.now steps.now) }
{
    let start = steps.first().map_or(0, |first| first.step.start);
    write!(text, "{name} from {start}:\n")?;
    push_steps(alloc, table, lines, text, CellColumns::Joined, steps)
}

/// The steps from index `count` on.
fn after(steps: &[ReportStep], count: usize) -> &[ReportStep]
    ensures { result.now ≡ drop count steps.now }
{
    steps.get(count..).unwrap_or_default()
}

/// Appends both sides to a text, from where the two translations diverge.
pub fn push_sides(
    alloc: Global,
    table: &Table,
    lines: &[Line<'_>],
    text: &mut String,
    left: &[ReportStep],
    right: &[ReportStep],
) -> Result<(), AllocError>
    ensures { OnOk result (string_bytes text.new ≡ report_of table.now (map line_view lines.now) (string_bytes text.old) left.now right.now) }
{
    let shared = common_prefix(left, right);
    push_side(alloc, table, lines, text, "left", after(left, shared))?;
    push_side(alloc, table, lines, text, "right", after(right, shared))
}

//! `brl clash`: whether two texts have the same cells.
ghost use Rattle.std.specs.Prelude.{◌≡◌};
ghost use Rattle.brl_lines.specs.Outcome.{CountsFailure};
ghost use Rattle.brl_answers.specs.Answers.{load_outcome};
ghost use Rattle.brl_tool.specs.ByLines.{shown_lines as lines_shown};
ghost use Rattle.brl_tool.specs.Comparing.{Compares, ComparesByWords};

use crate::loaded_table::{LoadedTable, table_at};
use crate::shown::shown_lines;
use brl_answers::{Answer, RunFault, Status, text_of_word};
use brl_cli::TextOptions;
use brl_forward::confirm;
use brl_lines::Source;
use brl_report::report_with;
use std::alloc::Global;

/// Compares the texts of two words by the table of a file: the report of a clash, `no clash` where
/// there is none, or the fault. With escapes they are read as operands of a table, and with lines
/// each step of a report is followed by the table's lines by which it is made. The texts are read
/// before the table, the left one first.
pub fn compare_by_words<S: Source>(
    alloc: Global,
    source: &mut S,
    path: &str,
    left: &str,
    right: &str,
    options: TextOptions,
) -> Result<Answer, RunFault>
    ensures compares { ComparesByWords options (S.gives source.old) path.now left.now right.now result }
    ensures count { CountsFailure (S.faults source.old) (S.faults source.new) (load_outcome result) }
    ensures same { S.gives source.new ≡ S.gives source.old }
{
    let left = text_of_word(alloc, left, options.escapes)?;
    let right = text_of_word(alloc, right, options.escapes)?;
    let loaded = table_at(alloc, source, path)?;
    compare(
        alloc,
        &loaded,
        options.lines,
        left.as_slice(),
        right.as_slice(),
    )
}

/// Compares two texts by a table. Each step of a report has the lines by which it is made, where
/// these are shown.
fn compare(
    alloc: Global,
    loaded: &LoadedTable,
    with_lines: bool,
    left: &[char],
    right: &[char],
) -> Result<Answer, RunFault>
    ensures { Compares loaded.now.table (lines_shown with_lines loaded.now.files.lines) left.now right.now result }
{
    let lines = shown_lines(alloc, &loaded.files, with_lines)?;
    match confirm(alloc, &loaded.table, left, right)? {
        Some(clash) => {
            let text = report_with(alloc, &loaded.table, lines.as_slice(), &clash)?;
            Ok(Answer::new(Status::Refuted, text))
        }
        None => Ok(Answer::new(Status::Done, String::from_str(alloc, "no clash\n")?)),
    }
}

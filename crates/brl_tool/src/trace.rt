//! `brl trace`: the steps of a text's translation.
ghost use Rattle.std.specs.Prelude.{◌≡◌};
ghost use Rattle.brl_lines.specs.Outcome.{CountsFailure};
ghost use Rattle.brl_answers.specs.Answers.{load_outcome};
ghost use Rattle.brl_tool.specs.ByLines.{shown_lines as lines_shown};
ghost use Rattle.brl_tool.specs.Tracing.{Traces, TracesByWord};

use crate::loaded_table::{LoadedTable, table_at};
use crate::shown::shown_lines;
use brl_answers::{Answer, RunFault, Status, text_of_word};
use brl_cli::TextOptions;
use brl_lines::Source;
use brl_report::trace_report;
use std::alloc::Global;

/// Traces the text of a word by the table of a file: the report of the text, or the fault. With
/// escapes it is read as an operand of a table, and with lines each step is followed by the table's
/// lines by which it is made. The text is read before the table.
pub fn trace_by_word<S: Source>(
    alloc: Global,
    source: &mut S,
    path: &str,
    word: &str,
    options: TextOptions,
) -> Result<Answer, RunFault>
    ensures traces { TracesByWord options (S.gives source.old) path.now word.now result }
    ensures count { CountsFailure (S.faults source.old) (S.faults source.new) (load_outcome result) }
    ensures same { S.gives source.new ≡ S.gives source.old }
{
    let text = text_of_word(alloc, word, options.escapes)?;
    let loaded = table_at(alloc, source, path)?;
    trace(alloc, &loaded, options.lines, text.as_slice())
}

/// Traces a text by a table. Each step has the lines by which it is made, where these are shown.
fn trace(
    alloc: Global,
    loaded: &LoadedTable,
    with_lines: bool,
    text: &[char],
) -> Result<Answer, RunFault>
    ensures { Traces loaded.now.table (lines_shown with_lines loaded.now.files.lines) text.now result }
{
    let lines = shown_lines(alloc, &loaded.files, with_lines)?;
    let report = trace_report(alloc, &loaded.table, lines.as_slice(), text)?;
    Ok(Answer::new(Status::Done, report))
}

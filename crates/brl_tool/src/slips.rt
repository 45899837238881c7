//! `brl slips`: the rules of a table that look like typing errors.
ghost use Rattle.std.specs.Prelude.{◌≡◌, IfOk};
ghost use Rattle.brl_tool.specs.Slipping.{IsSlipsAnswer, ListsSlips, status_of_slips};

use brl_answers::{Answer, RunFault, Status};
use brl_lines::{Loaded, Source, load_without_dictionaries};
use brl_slips::{Findings, find_slips, read_lexicon, slips_columns, slips_text};
use std::alloc::{AllocError, Global};

/// Lists the rules of a file's table that look like typing errors, or the fault; the status is 1
/// exactly where some are shown, or twins. They are in columns where that is asked for. Lines that
/// aren't read are passed over.
pub fn list_slips_by_file<S: Source>(
    alloc: Global,
    source: &mut S,
    path: &str,
    columns: bool,
) -> Result<Answer, RunFault>
    ensures lists { ListsSlips (S.gives source.old) path.now result }
    ensures same { S.gives source.new ≡ S.gives source.old }
{
    let table = load_without_dictionaries(alloc, source, path)?;
    Ok(list_slips(alloc, &table.loaded, columns)?)
}

/// Lists the rules of loaded files that look like typing errors.
fn list_slips(alloc: Global, loaded: &Loaded, columns: bool) -> Result<Answer, AllocError>
    ensures { IfOk result (IsSlipsAnswer loaded.now.lines) }
{
    let lines = loaded.lines(alloc)?;
    let lexicon = read_lexicon(alloc, lines.as_slice())?;
    let findings = find_slips(alloc, &lexicon)?;
    let text = if columns {
        slips_columns(alloc, &lexicon, lines.as_slice(), &findings)?
    } else {
        slips_text(alloc, &lexicon, lines.as_slice(), &findings, usize::MAX)?
    };
    Ok(Answer::new(status_of(&findings), text))
}

/// The status of what is found.
fn status_of(findings: &Findings) -> Status
    ensures { result ≡ status_of_slips findings.now }
{
    if findings.shown.is_empty() && findings.twins.is_empty() {
        Status::Done
    } else {
        Status::Refuted
    }
}

//! `brl unused`: the rules of a table that no text uses.
ghost use Rattle.std.specs.Prelude.{◌≡◌, IfOk, map, string_bytes};
ghost use Rattle.brl_tool.specs.Alphabets.{IfAllThere};
ghost use Rattle.brl_without.specs.Alphabet.{alphabet_view, left_out_by};
ghost use Rattle.brl_lines.specs.Outcome.{CountsFailure};
ghost use Rattle.brl_lines.specs.Views.{line_view};
ghost use Rattle.brl_answers.specs.Answers.{HasTextAndStatus, UnlessMemory, load_outcome};
ghost use Rattle.brl_tool.specs.Unused.{IsUnusedAnswer, ListsUnused, limit_line, status_of_list, status_of_unused, text_of_unused};

use crate::alphabet::alphabet_of;
use crate::loaded_table::{LoadedTable, table_at};
use crate::notices::write_if_without_characters;
use brl_answers::{Answer, RunFault, Status, with_alphabet_line};
use brl_cli::AlphabetOption;
use brl_lines::{Line, Source};
use brl_progress::Progress;
use brl_report::unused_report;
use brl_rules::Table;
use brl_search::{UnusedRules, unused_rules};
use brl_without::{Alphabet, LeftOut};
use std::alloc::{AllocError, Global};
use std::io::Write;

/// Lists the rules of a file's table that no text made of the characters of the option uses; or
/// answers the limit or the fault. The option is parsed first. `NotDefined` where the table lacks
/// some of them. Before the work standard error hears of it where no line defines a character, and
/// then gets reports of its progress.
pub fn list_unused_by_words<S: Source, E: Write + Progress>(
    alloc: Global,
    source: &mut S,
    path: &str,
    limit: u32,
    option: AlphabetOption<'_>,
    err: &mut E,
) -> Result<Answer, RunFault>
    ensures lists { ListsUnused option.entry (S.gives source.old) path.now limit result }
    ensures count { CountsFailure (S.faults source.old) (S.faults source.new) (load_outcome result) }
    ensures same { S.gives source.new ≡ S.gives source.old }
{
    let alphabet = alphabet_of(alloc, option)?;
    let loaded = table_at(alloc, source, path)?;
    list_unused(alloc, &loaded, limit, &alphabet, err)
}

/// Lists a table's unused rules, once it has the characters of an alphabet.
fn list_unused<E: Write + Progress>(
    alloc: Global,
    loaded: &LoadedTable,
    limit: u32,
    alphabet: &Alphabet,
    err: &mut E,
) -> Result<Answer, RunFault>
    ensures { IfAllThere loaded.now.table (alphabet_view alphabet.now) (UnlessMemory (IsUnusedAnswer (alphabet_view alphabet.now) loaded.now.table loaded.now.files.lines limit)) result }
{
    let left_out = alphabet.left_out(alloc, &loaded.table)?;
    write_if_without_characters(&loaded.table, err);
    Ok(list_without(alloc, loaded, limit, alphabet, &left_out, err)?)
}

/// Lists a table's unused rules, where its alphabet leaves these characters out.
fn list_without<P: Progress>(
    alloc: Global,
    loaded: &LoadedTable,
    limit: u32,
    alphabet: &Alphabet,
    left_out: &LeftOut,
    progress: &mut P,
) -> Result<Answer, AllocError>
    requires { left_out.now ≡ left_out_by loaded.now.table (alphabet_view alphabet.now) }
    ensures { IfOk result (IsUnusedAnswer (alphabet_view alphabet.now) loaded.now.table loaded.now.files.lines limit) }
{
    let lines = loaded.files.lines(alloc)?;
    let found = unused_rules(alloc, &loaded.table, u64::from(limit), left_out, progress)?;
    answer_of(alloc, &loaded.table, lines.as_slice(), alphabet, &found)
}

/// The answer with what is found.
fn answer_of(
    alloc: Global,
    table: &Table,
    lines: &[Line<'_>],
    alphabet: &Alphabet,
    found: &UnusedRules,
) -> Result<Answer, AllocError>
    ensures { IfOk result (HasTextAndStatus (status_of_unused found.now) (text_of_unused (alphabet_view alphabet.now) table.now (map line_view lines.now) found.now)) }
{
    match found {
        UnusedRules::Unused(numbers) => {
            let list = unused_report(alloc, table, lines, numbers.as_slice())?;
            let text = with_alphabet_line(alloc, list, alphabet)?;
            Ok(Answer::new(status_of(numbers.len()), text))
        }
        UnusedRules::Limit { states } => {
            let text = limit_text(alloc, *states)?;
            Ok(Answer::new(Status::Undecided, text))
        }
    }
}

/// The status of a list with this number of unused rules.
fn status_of(rules: usize) -> Status
    ensures { result ≡ status_of_list rules }
{
    if rules == 0 {
        Status::Done
    } else {
        Status::Refuted
    }
}

/// The line with the number of states that were found when they became more than the limit.
fn limit_text(alloc: Global, states: u64) -> Result<String, AllocError>
    ensures { IfOk result (λ text. string_bytes text ≡ limit_line states) }
{
    format!(in alloc; "limit: {states} states\n")
}

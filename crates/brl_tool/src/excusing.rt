//! What a file excuses of a table, and the line of an answer that says so.
ghost use Rattle.std.specs.Prelude.{◌≡◌, [], IfErr, IfOk, None, map, string_bytes};
ghost use Rattle.std.specs.Option.{option_copied};
ghost use Rattle.brl_accepted.specs.Reading.{excused_by, sets_named};
ghost use Rattle.brl_answers.specs.Answers.{load_outcome};
ghost use Rattle.brl_lines.specs.Outcome.{CountsFailure};
ghost use Rattle.brl_lines.specs.Views.{line_view};
ghost use Rattle.brl_tool.specs.Baselines.{names_of_table};
ghost use Rattle.brl_tool.specs.Excusing.{Excuses, IsExcusedAt, IsFaultOfExcusal, IsFaultOfExcuses, IsFaultOfLines, excused_text, lines_with as whole_lines, stale_of};
ghost use Rattle.brl_without.specs.Alphabet.{alphabet_view};
ghost use Rattle.brl_without.specs.Scope.{IsNothing};

use crate::file_text::text_at;
use crate::loaded_table::LoadedTable;
use brl_accepted::{Counts, Excusal, Nameable, StaleLines, but_for_line, pair_count, read_excusal};
use brl_answers::{RunFault, with_alphabet_line};
use brl_clashes::character_sets;
use brl_lines::{Line, Source};
use brl_pairs::Excused;
use brl_rules::Table;
use brl_without::{Alphabet, LeftOut};
use std::alloc::{AllocError, Global};

/// Of which texts an answer speaks, and what it doesn't speak of.
#[derive(Clone, Copy)]
pub struct ButFor<'a> {
    /// The characters of which the texts are made.
    pub alphabet: &'a Alphabet,
    /// The characters of the table that are left out of these.
    pub left_out: &'a LeftOut,
    /// The path of the file that says what is excused, where there is one.
    pub accept: Option<&'a str>,
    /// What is excused: nothing where there is no such file.
    pub excusal: &'a Excusal,
}

/// What the file at a path excuses of a table; nothing where there is none. `Accept` where it has
/// stale lines.
pub fn excusal_by<S: Source>(
    alloc: Global,
    source: &mut S,
    loaded: &LoadedTable,
    accept: Option<&str>,
) -> Result<Excusal, RunFault>
    ensures excuses { IfOk result (Excuses (S.gives source.old) (option_copied accept.entry) loaded.now.table loaded.now.files.lines) }
    ensures fault { IfErr result (IsFaultOfExcuses (S.gives source.old) (option_copied accept.entry) loaded.now.table loaded.now.files.lines) }
    ensures count { CountsFailure (S.faults source.old) (S.faults source.new) (load_outcome result) }
    ensures same { S.gives source.new ≡ S.gives source.old }
{
    match accept {
        Some(path) => excusal_at(alloc, source, loaded, path),
        None => Ok(nothing(alloc)),
    }
}

/// Nothing is excused.
fn nothing(alloc: Global) -> Excusal
    ensures { IsNothing result.excused }
{
    Excusal {
        excused: Excused::nothing(alloc),
        sets: 0,
        stale: Vec::new(alloc),
        kept: String::new(alloc),
    }
}

/// What the file at a path excuses of a table. `Accept` where it has stale lines.
fn excusal_at<S: Source>(
    alloc: Global,
    source: &mut S,
    loaded: &LoadedTable,
    path: &str,
) -> Result<Excusal, RunFault>
    ensures excuses { IfOk result (λ excusal. IsExcusedAt (S.gives source.old) path.now loaded.now.table loaded.now.files.lines excusal.excused excusal.sets) }
    ensures fault { IfErr result (IsFaultOfExcusal (S.gives source.old) path.now loaded.now.table loaded.now.files.lines) }
    ensures count { CountsFailure (S.faults source.old) (S.faults source.new) (load_outcome result) }
    ensures same { S.gives source.new ≡ S.gives source.old }
{
    let lines = loaded.files.lines(alloc)?;
    let text = text_at(alloc, source, path)?;
    excusal_of(alloc, &loaded.table, lines.as_slice(), path, text.as_str())
}

/// What a text excuses of a table of these lines; it is that of the file at a path. `Accept` where
/// it has stale lines.
fn excusal_of(
    alloc: Global,
    table: &Table,
    lines: &[Line<'_>],
    path: &str,
    text: &str,
) -> Result<Excusal, RunFault>
    ensures good { IfOk result (λ _. stale_of table.now (map line_view lines.now) path.now text.now ≡ []) }
    ensures excuses { IfOk result (λ excusal. excusal.excused ≡ excused_by (names_of_table table.now (map line_view lines.now)) None text.now) }
    ensures sets { IfOk result (λ excusal. excusal.sets ≡ sets_named (names_of_table table.now (map line_view lines.now)) None text.now) }
    ensures fault { IfErr result (IsFaultOfLines table.now (map line_view lines.now) path.now text.now) }
{
    let sets = character_sets(alloc, table)?;
    let known = Nameable::new(table, lines, sets.as_slice());
    let excusal = read_excusal(alloc, known, None, path, text)?;
    if !excusal.stale.is_empty() {
        return Err(RunFault::Accept(StaleLines(excusal.stale)));
    }
    Ok(excusal)
}

/// A line of an answer, that of what is excused where a file says it, and that of the characters of
/// which texts are made.
pub fn lines_with(alloc: Global, line: String, but_for: ButFor<'_>) -> Result<String, AllocError>
    ensures { IfOk result (λ text. string_bytes text
        ≡ whole_lines (alphabet_view but_for.entry.alphabet.now) (option_copied but_for.entry.accept) but_for.entry.excusal.now (string_bytes line)) }
{
    let mut text = line;
    if but_for.accept.is_some() {
        let excused = excused_line(alloc, but_for.excusal)?;
        text.push_str(excused.as_str())?;
    }
    with_alphabet_line(alloc, text, but_for.alphabet)
}

/// The line that says how much a file excuses.
fn excused_line(alloc: Global, excusal: &Excusal) -> Result<String, AllocError>
    ensures { IfOk result (λ text. string_bytes text ≡ excused_text excusal.now) }
{
    let counts = Counts {
        pairs: pair_count(alloc, excusal.excused.accepted.as_slice())?,
        sets: excusal.sets,
    };
    but_for_line(alloc, counts)
}

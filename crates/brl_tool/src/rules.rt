//! `brl rules`: the rules of a table by their numbers.
ghost use Rattle.std.specs.Prelude.{◌≡◌, IfOk};
ghost use Rattle.brl_lines.specs.Outcome.{CountsFailure};
ghost use Rattle.brl_answers.specs.Answers.{load_outcome};
ghost use Rattle.brl_tool.specs.Listing.{Lists, ListsByFile, listed_numbers as numbers_listed};

use crate::loaded_table::{LoadedTable, table_at};
use brl_answers::{Answer, RunFault, Status};
use brl_lines::Source;
use brl_report::{first_unknown, rule_numbers, rules_report};
use brl_rules::Table;
use std::alloc::{AllocError, Global};

/// Lists the rules of the table whose file is at a path: those with these numbers, in their order,
/// and where none are given all. `NoSuchRule` for the first number that no rule has.
pub fn list_rules_by_file<S: Source>(
    alloc: Global,
    source: &mut S,
    path: &str,
    numbers: &[u32],
) -> Result<Answer, RunFault>
    ensures lists { ListsByFile (S.gives source.old) path.now numbers.now result }
    ensures count { CountsFailure (S.faults source.old) (S.faults source.new) (load_outcome result) }
    ensures same { S.gives source.new ≡ S.gives source.old }
{
    let loaded = table_at(alloc, source, path)?;
    list_rules(alloc, &loaded, numbers)
}

/// Lists rules of a table.
fn list_rules(alloc: Global, loaded: &LoadedTable, numbers: &[u32]) -> Result<Answer, RunFault>
    ensures { Lists loaded.now.table loaded.now.files.lines numbers.now result }
{
    if let Some(number) = first_unknown(&loaded.table, numbers) {
        return Err(RunFault::NoSuchRule(number));
    }
    let listed = listed_numbers(alloc, &loaded.table, numbers)?;
    let lines = loaded.files.lines(alloc)?;
    let text = rules_report(alloc, &loaded.table, lines.as_slice(), listed.as_slice())?;
    Ok(Answer::new(Status::Done, text))
}

/// The numbers whose rules are listed: these, and where there are none all.
fn listed_numbers(alloc: Global, table: &Table, numbers: &[u32]) -> Result<Vec<u32>, AllocError>
    ensures { IfOk result (λ listed. listed.items ≡ numbers_listed table.now numbers.now) }
{
    if numbers.is_empty() {
        return rule_numbers(alloc, table);
    }
    Vec::from_slice(alloc, numbers)
}

//! A table with the files that it is loaded from.
ghost use Rattle.std.specs.Prelude.{◌≡◌, IfErr, IfOk};
ghost use Rattle.brl_answers.specs.Answers.{HasNoTable, load_outcome};
ghost use Rattle.brl_failure.specs.Failure.{IfFault};
ghost use Rattle.brl_lines.specs.Outcome.{AreLinesOfFiles, CountsFailure};
ghost use Rattle.brl_table.specs.Faults.{IsFirstFaultOf};
ghost use Rattle.brl_table.specs.Reading.{AreGood, table_of};

use brl_answers::RunFault;
use brl_failure::Failure;
use brl_lines::{Loaded, Source, load};
use brl_rules::Table;
use brl_table::{TableFault, table_of_loaded};
use std::alloc::Global;

/// A table, and the loaded files whose lines define it.
#[derive(Drop)]
pub struct LoadedTable {
    pub files: Loaded,
    pub table: Table,
}

impl LoadedTable {
    /// The table that the lines of these files define, or the fault of the first line that has one.
    pub fn of(alloc: Global, files: Loaded) -> Result<LoadedTable, Failure<TableFault>>
        ensures files { IfOk result (λ loaded. loaded.files ≡ files) }
        ensures passes { IfOk result (λ loaded. AreGood files.lines) }
        ensures table { IfOk result (λ loaded. loaded.table ≡ table_of files.lines) }
        ensures fault { IfErr result (IfFault (IsFirstFaultOf files.lines)) }
    {
        let table = table_of_loaded(alloc, &files)?;
        Ok(LoadedTable { files, table })
    }
}

/// The table whose file is at a path.
pub fn table_at<S: Source>(
    alloc: Global,
    source: &mut S,
    path: &str,
) -> Result<LoadedTable, RunFault>
    ensures lines { IfOk result (λ loaded. AreLinesOfFiles (S.gives source.old) path.now loaded.files.paths loaded.files.lines) }
    ensures passes { IfOk result (λ loaded. AreGood loaded.files.lines) }
    ensures table { IfOk result (λ loaded. loaded.table ≡ table_of loaded.files.lines) }
    ensures fault { IfErr result (HasNoTable (S.gives source.old) path.now) }
    ensures count { CountsFailure (S.faults source.old) (S.faults source.new) (load_outcome result) }
    ensures same { S.gives source.new ≡ S.gives source.old }
{
    let files = load(alloc, source, path)?;
    Ok(LoadedTable::of(alloc, files)?)
}

//! The table that files define.
ghost use Rattle.std.specs.Prelude.{◌≡◌, ℕ, List, IfErr, IfOk};
ghost use Rattle.brl_failure.specs.Failure.{IfFault};
ghost use Rattle.brl_lines.specs.Answer.{IsDeterministic};
ghost use Rattle.brl_lines.specs.Outcome.{CountsFailure};
ghost use Rattle.brl_table.specs.Faults.{IsFaultAt, IsFirstFaultOf, load_outcome};
ghost use Rattle.brl_table.specs.Files.{IsTableOf};
ghost use Rattle.brl_table.specs.Reading.{AreGood, table_of};
ghost use Rattle.brl_table.specs.declared.no_table.NoTable.{NoTable as NoTableValue};
ghost use Rattle.brl_rules.specs.TableView.{TableView};

use crate::laws::good_lines_law;
use crate::{NoTable, TableFault, read_table};
use brl_failure::{Failure, raise};
use brl_lines::{Loaded, Source, load, one_answer_law};
use brl_rules::Table;
use std::alloc::Global;

/// The table that the files with its root at a path define; `Load` where a file can't be loaded,
/// `Table` where a line is faulty. A file is reported as unreadable only where the source couldn't
/// read it.
pub fn load_table<S: Source>(
    alloc: Global,
    source: &mut S,
    root: &str,
) -> Result<Table, Failure<NoTable>>
    ensures table { IfOk result (IsTableOf (S.gives source.old) root.now) }
    ensures fault { IfErr result (IfFault (IsFaultAt (S.gives source.old) root.now)) }
    ensures count { CountsFailure (S.faults source.old) (S.faults source.new) (load_outcome result) }
    ensures same { S.gives source.new ≡ S.gives source.old }
{
    let loaded = raise(load(alloc, source, root), NoTable::Load)?;
    raise(table_of_loaded(alloc, &loaded), NoTable::Table)
}

/// The table that the lines of loaded files define, or the fault of the first line that has one.
pub fn table_of_loaded(alloc: Global, loaded: &Loaded) -> Result<Table, Failure<TableFault>>
    ensures good { IfOk result (λ _. AreGood loaded.now.lines) }
    ensures table { IfOk result (λ table. table ≡ table_of loaded.now.lines) }
    ensures fault { IfErr result (IfFault (IsFirstFaultOf loaded.now.lines)) }
{
    let lines = loaded.lines(alloc)?;
    read_table(alloc, lines.as_slice())
}

/// A source with one answer for each path has at most one table at a path; where it has one, no
/// fault keeps it from being loaded.
pub fn one_table_law<S: Source>(source: &S)
    ensures table { IsDeterministic (S.gives source.now) → (root : List ℕ) (one other : TableView) →
        IsTableOf (S.gives source.now) root one → IsTableOf (S.gives source.now) root other → one ≡ other }
    ensures fault { IsDeterministic (S.gives source.now) → (root : List ℕ) (t : TableView) → IsTableOf (S.gives source.now) root t →
        (fault : NoTableValue) → IsFaultAt (S.gives source.now) root fault → ⊥ }
{
    one_answer_law(source);
    good_lines_law();
}

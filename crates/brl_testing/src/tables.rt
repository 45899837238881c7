//! Tables whose lines are the field of a row.
use crate::{for_rows_of_3, for_rows_of_4, lend, lines_of, one_file};
use brl_lines::{Line, Loaded, load};
use brl_rules::Table;
use brl_table::table_of_loaded;
use std::alloc::Global;
use std::test::Fail;

/// The file `t.ctb` with these lines, loaded.
pub fn loaded_of(alloc: Global, lines: &str) -> Result<Loaded, Fail> {
    let text = lines_of(alloc, lines)?;
    let mut source = one_file(alloc, "t.ctb", text.as_bytes())?;
    Ok(load(alloc, &mut source, "t.ctb")?)
}

/// What a function answers for the lines of a field.
pub fn with_lines<T, F: FnOnce(&[Line<'_>]) -> Result<T, Fail>>(
    alloc: Global,
    field: &str,
    answer: F,
) -> Result<T, Fail>
    requires { F.IsAlwaysCallable answer }
{
    let loaded = loaded_of(alloc, field)?;
    let lines = loaded.lines(alloc)?;
    answer(lines.as_slice())
}

/// The table that the file `t.ctb` with these lines defines.
pub fn table_of(alloc: Global, lines: &str) -> Result<Table, Fail> {
    let loaded = loaded_of(alloc, lines)?;
    Ok(table_of_loaded(alloc, &loaded)?)
}

/// What a function answers for the table of these lines.
pub fn with_table<T, F: FnOnce(&Table) -> Result<T, Fail>>(
    alloc: Global,
    lines: &str,
    answer: F,
) -> Result<T, Fail>
    requires { F.IsAlwaysCallable answer }
{
    lend(table_of(alloc, lines)?, answer)
}

/// Fails at the first row whose third field isn't what is given of the table of its first and of
/// the second.
pub fn for_tables_of_3<F: Fn(Global, &Table, &str) -> Result<String, Fail>>(
    alloc: Global,
    rows: &str,
    given: F,
) -> Result<(), Fail>
    requires { F.IsAlwaysCallable given }
{
    for_rows_of_3(alloc, rows, |alloc, lines, one| {
        with_table(alloc, lines, |table| given(alloc, table, one))
    })
}

/// Fails at the first row whose fourth field isn't what is given of the table of its first and of
/// the next two.
pub fn for_tables_of_4<F: Fn(Global, &Table, &str, &str) -> Result<String, Fail>>(
    alloc: Global,
    rows: &str,
    given: F,
) -> Result<(), Fail>
    requires { F.IsAlwaysCallable given }
{
    for_rows_of_4(alloc, rows, |alloc, lines, one, other| {
        with_table(alloc, lines, |table| given(alloc, table, one, other))
    })
}

//! Rows of text, each with what is given and what is to come of it.
//!
//! A row is a line. Its fields are cut at `|`, and the last one says what is to come of the others:
//! it is the rest of the row, which may have `|`, too. What a field has is written in one way
//! everywhere (`fields`).
use std::alloc::Global;
use std::test::Fail;

/// The first field of a row, and the fields after it.
pub fn cut(row: &str) -> Result<(&str, &str), Fail> {
    Ok(row.split_once('|').ok_or("a field is missing")?)
}

/// The fields of a row that aren't read yet.
#[derive(Drop)]
struct Fields<'a> {
    rest: &'a str,
}

impl<'a> Fields<'a> {
    /// The next field.
    fn next(&mut self) -> Result<&'a str, Fail> {
        let (field, rest) = cut(self.rest)?;
        self.rest = rest;
        Ok(field)
    }
}

/// Fails a test at a row where another text is given than is wanted.
pub fn agree(row: &str, given: &str, want: &str) -> Result<(), Fail> {
    if given == want {
        return Ok(());
    }
    Err(Fail::new(format_args!("at {row}: {given}")))
}

/// Fails at the first row of which this doesn't hold: where `given` and `want` of the other
/// functions aren't enough, as for texts that only begin so.
pub fn check_rows<F: Fn(Global, &str) -> Result<bool, Fail>>(
    alloc: Global,
    rows: &str,
    holds: F,
) -> Result<(), Fail>
    requires { F.IsAlwaysCallable holds }
{
    for row in rows.lines() {
        if !holds(alloc, row)? {
            return Err(Fail::new(format_args!("at {row}")));
        }
    }
    Ok(())
}

/// Fails at the first row whose second field isn't what is given of the first.
pub fn for_rows_of_2<F: Fn(Global, &str) -> Result<String, Fail>>(
    alloc: Global,
    rows: &str,
    given: F,
) -> Result<(), Fail>
    requires { F.IsAlwaysCallable given }
{
    agree_at_rows(rows, |row| given(alloc, row.next()?))
}

/// Fails at the first row whose third field isn't what is given of the first two.
pub fn for_rows_of_3<F: Fn(Global, &str, &str) -> Result<String, Fail>>(
    alloc: Global,
    rows: &str,
    given: F,
) -> Result<(), Fail>
    requires { F.IsAlwaysCallable given }
{
    agree_at_rows(rows, |row| given(alloc, row.next()?, row.next()?))
}

/// Fails at the first row whose fourth field isn't what is given of the first three.
pub fn for_rows_of_4<F: Fn(Global, &str, &str, &str) -> Result<String, Fail>>(
    alloc: Global,
    rows: &str,
    given: F,
) -> Result<(), Fail>
    requires { F.IsAlwaysCallable given }
{
    agree_at_rows(
        rows,
        |row| given(alloc, row.next()?, row.next()?, row.next()?),
    )
}

/// Fails at the first row whose last field isn't what is given of those before it.
fn agree_at_rows<F: Fn(&mut Fields<'_>) -> Result<String, Fail>>(
    rows: &str,
    given: F,
) -> Result<(), Fail>
    requires { F.IsAlwaysCallable given }
{
    for row in rows.lines() {
        let mut fields = Fields { rest: row };
        let given = given(&mut fields)?;
        agree(row, given.as_str(), fields.rest)?;
    }
    Ok(())
}

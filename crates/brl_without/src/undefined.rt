//! Characters that are left out of a table that doesn't define them.
ghost use Rattle.std.specs.Prelude.{◌≡◌, IfErr, OnOk};
ghost use Rattle.brl_failure.specs.Failure.{IfFault};
ghost use Rattle.brl_without.specs.Tables.{AreDefined, IsUndefined, first_undefined as undefined_first};

use crate::LeftOut;
use brl_failure::Failure;
use brl_lines::spell_visibly;
use brl_rules::Table;
use std::alloc::Global;
use thiserror::Error;

/// A character that is left out isn't one of the table's. It is named as `spell_visibly` spells it.
#[derive(Debug, Drop, Error)]
#[error("U8 UndefinedLeftOut {0}")]
pub struct UndefinedLeftOut(pub String);

/// A table doesn't define the characters of which texts are to be made.
#[derive(Debug, Drop, Error)]
pub enum Undefined {
    /// A character that is left out isn't one of the table's.
    #[error("{0}")]
    LeftOut(UndefinedLeftOut),
    /// None of the characters of a span, which is named as it is spelled, is one of the table's.
    #[error("U10 UndefinedOnly {0}")]
    Only(String),
}

/// Checks that the table defines each of the characters; else the fault names the first that it
/// doesn't define.
pub fn check_defined(
    alloc: Global,
    table: &Table,
    left_out: &LeftOut,
) -> Result<(), Failure<UndefinedLeftOut>>
    ensures defined { OnOk result (AreDefined table.now left_out.now) }
    ensures fault { IfErr result (IfFault (IsUndefined table.now left_out.now)) }
{
    match first_undefined(table, left_out) {
        Some(c) => Err(Failure::Fault(UndefinedLeftOut(spell_visibly(alloc, &[c])?))),
        None => Ok(()),
    }
}

/// The first of the characters that the table doesn't define.
fn first_undefined(table: &Table, left_out: &LeftOut) -> Option<char>
    ensures { result ≡ undefined_first table.now left_out.now }
{
    let given = left_out.as_slice();
    given.iter().copied().find(|c| table.info(*c).is_none())
}

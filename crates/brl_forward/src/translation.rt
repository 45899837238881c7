//! The translation of a text to cells.
ghost use Rattle.std.specs.Prelude.{◌≡◌, IsTrue, IfOk, IfErr};
ghost use Rattle.brl_rules.specs.Infos.{AreInfosOf};
ghost use Rattle.brl_rules.specs.Text.{is_text};
ghost use Rattle.brl_rules.specs.Translation.{translation};
ghost use Rattle.brl_failure.specs.Failure.{IfFault};
ghost use Rattle.brl_forward.specs.Faults.{IsFaultOf};

use crate::ForwardFault;
use crate::infos::{infos_of, known_infos_of};
use crate::walk::walk;
use brl_cells::Cell;
use brl_failure::Failure;
use brl_rules::{Info, Table};
use std::alloc::{AllocError, Global};

/// The cells of a text; `UnknownChar` exactly where the table doesn't define a character, with the
/// first such.
pub fn translate(
    alloc: Global,
    table: &Table,
    text: &[char],
) -> Result<Vec<Cell>, Failure<ForwardFault>>
    ensures text { IfOk result (λ _. IsTrue (is_text table.now text.now)) }
    ensures cells { IfOk result (λ cells. cells.items ≡ translation table.now text.now) }
    ensures fault { IfErr result (IfFault (IsFaultOf table.now text.now)) }
{
    let infos = infos_of(alloc, table, text)?;
    Ok(cells_of(alloc, table, text, infos.as_slice())?)
}

/// The translation of a text whose characters are all defined.
pub(crate) fn translate_known(
    alloc: Global,
    table: &Table,
    text: &[char],
) -> Result<Vec<Cell>, AllocError>
    requires { IsTrue (is_text table.now text.now) }
    ensures { IfOk result (λ cells. cells.items ≡ translation table.now text.now) }
{
    let infos = known_infos_of(alloc, table, text)?;
    cells_of(alloc, table, text, infos.as_slice())
}

/// The cells of a text, given the infos of its characters.
fn cells_of(
    alloc: Global,
    table: &Table,
    text: &[char],
    infos: &[&Info],
) -> Result<Vec<Cell>, AllocError>
    requires { AreInfosOf table.now text.now infos.now }
    ensures { IfOk result (λ cells. cells.items ≡ translation table.now text.now) }
{
    let mut cells = Vec::with_capacity(alloc, text.len())?;
    walk(
        alloc,
        table,
        text,
        infos,
        false,
        &mut cells,
        &mut Vec::new(alloc),
    )?;
    Ok(cells)
}

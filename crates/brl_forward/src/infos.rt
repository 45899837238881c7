//! The infos of the characters of a text.
ghost use Rattle.std.specs.Prelude.{◌≡◌, IsTrue, IfOk, IfErr};
ghost use Rattle.brl_rules.specs.Infos.{AreInfosOf};
ghost use Rattle.brl_rules.specs.Text.{is_text};
ghost use Rattle.brl_failure.specs.Failure.{IfFault};
ghost use Rattle.brl_forward.specs.Faults.{IsFaultOf};

use crate::ForwardFault;
use brl_failure::Failure;
use brl_rules::{Info, Table};
use std::alloc::{AllocError, Global};

/// The infos of the characters of a text, in order. `UnknownChar` where the table doesn't define
/// one of them.
pub(crate) fn infos_of<'a>(
    alloc: Global,
    table: &'a Table,
    text: &[char],
) -> Result<Vec<&'a Info>, Failure<ForwardFault>>
    ensures text { IfOk result (λ _. IsTrue (is_text table.now text.now)) }
    ensures infos { IfOk result (λ infos. AreInfosOf table.now text.now infos.items) }
    ensures fault { IfErr result (IfFault (IsFaultOf table.now text.now)) }
{
    let mut infos = Vec::with_capacity(alloc, text.len())?;
    for (place, character) in text.iter().enumerate() {
        match table.info(*character) {
            Some(info) => infos.push_reserved(info),
            None => return Err(Failure::Fault(ForwardFault::UnknownChar(place))),
        }
    }
    Ok(infos)
}

/// The infos of the characters of a text that are all defined, in order.
pub(crate) fn known_infos_of<'a>(
    alloc: Global,
    table: &'a Table,
    text: &[char],
) -> Result<Vec<&'a Info>, AllocError>
    requires { IsTrue (is_text table.now text.now) }
    ensures { IfOk result (λ infos. AreInfosOf table.now text.now infos.items) }
{
    let mut infos = Vec::with_capacity(alloc, text.len())?;
    for character in text {
        infos.push(table.info(*character).unwrap())?;
    }
    Ok(infos)
}

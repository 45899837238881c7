//! The steps of a text's translation.
ghost use Rattle.std.specs.Prelude.{◌≡◌, IsTrue, IfOk, IfErr};
ghost use Rattle.brl_rules.specs.Text.{is_text};
ghost use Rattle.brl_failure.specs.Failure.{IfFault};
ghost use Rattle.brl_forward.specs.Faults.{IsFaultOf};
ghost use Rattle.brl_forward.specs.Trace.{trace_of};

use crate::ForwardFault;
use crate::infos::infos_of;
use crate::walk::walk;
use brl_cells::Cells;
use brl_failure::Failure;
use brl_rules::Table;
use std::alloc::Global;

/// A step of a translation: one rule and the indicators before it.
#[derive(Debug, Drop)]
pub struct Traced {
    /// The position of its first character in the text, from 0.
    pub start: usize,
    /// The number of its rule: rules in rank from 0, after them the own definitions by the numbers
    /// of the characters.
    pub rule: u32,
    /// The number of characters that it takes.
    pub length: usize,
    /// The number of its cells that are those of indicators, which come first.
    pub indicators: usize,
    /// The cells of the indicators, then those of the rule.
    pub cells: Cells,
}

/// The steps of a text's translation, in order; `UnknownChar` where the table doesn't define a
/// character.
pub fn trace(
    alloc: Global,
    table: &Table,
    text: &[char],
) -> Result<Vec<Traced>, Failure<ForwardFault>>
    ensures text { IfOk result (λ _. IsTrue (is_text table.now text.now)) }
    ensures steps { IfOk result (λ steps. steps.items ≡ trace_of table.now text.now) }
    ensures fault { IfErr result (IfFault (IsFaultOf table.now text.now)) }
{
    let infos = infos_of(alloc, table, text)?;
    let mut cells = Vec::new(alloc);
    let mut steps = Vec::new(alloc);
    walk(
        alloc,
        table,
        text,
        infos.as_slice(),
        true,
        &mut cells,
        &mut steps,
    )?;
    Ok(steps)
}

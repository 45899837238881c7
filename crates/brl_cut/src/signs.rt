//! The cells of two indicators that lines give.
ghost use Rattle.std.specs.Prelude.{◌≡◌, ◌++◌, IfOk, OnOk, map, option_map};
ghost use Rattle.brl_lines.specs.Views.{line_view, token_view};
ghost use Rattle.brl_cut.specs.Contractions.{cells_before};
ghost use Rattle.brl_cut.specs.Signs.{cells_of as cells_of_sign, first_sign as first_by, last_sign as last_by, letsign_of as letsign_by, sign_in as sign_by, sign_of_operands as sign_by_operands, sign_view};

use brl_cells::{Cell, Cells, read_dots};
use brl_failure::Failure;
use brl_lines::{Line, Token};
use std::alloc::{AllocError, Global};

/// The most cells of an indicator.
const MOST_CELLS: usize = 16;

/// The cells of an indicator, and the place of the line that gives them.
#[derive(Drop)]
pub(crate) struct Sign<'a> {
    pub file: &'a str,
    pub line: u32,
    pub cells: Cells,
}

/// The sign of a line whose first word spells its cells, if it does.
fn sign_of_operands<'a>(
    alloc: Global,
    line: &Line<'a>,
    operands: &[Token<'_>],
) -> Result<Option<Sign<'a>>, AllocError>
    ensures { IfOk result (λ sign. option_map sign_view sign ≡ sign_by_operands (line_view line.entry.now) (map token_view operands.now)) }
{
    let [dots, ..] = operands else {
        return Ok(None);
    };
    match read_dots(alloc, dots.text, MOST_CELLS) {
        Ok(cells) => Ok(Some(Sign {
            file: line.file,
            line: line.line,
            cells,
        })),
        Err(Failure::Fault(_)) => Ok(None),
        Err(Failure::Memory) => Err(AllocError),
    }
}

/// The sign that a line gives, if it has this opcode.
fn sign_in<'a>(alloc: Global, opcode: &str, line: &Line<'a>) -> Result<Option<Sign<'a>>, AllocError>
    ensures { IfOk result (λ sign. option_map sign_view sign ≡ sign_by opcode.now (line_view line.entry.now)) }
{
    if line.opcode.text != opcode {
        return Ok(None);
    }
    sign_of_operands(alloc, line, line.operands.as_slice())
}

/// The sign of the first line with this opcode that gives one.
fn first_sign<'a>(
    alloc: Global,
    opcode: &str,
    lines: &[Line<'a>],
) -> Result<Option<Sign<'a>>, AllocError>
    ensures { IfOk result (λ sign. option_map sign_view sign ≡ first_by opcode.now (map line_view lines.entry.now)) }
{
    let mut first = None;
    for line in lines {
        if first.is_none() {
            first = sign_in(alloc, opcode, line)?;
        }
    }
    Ok(first)
}

/// The sign of the last line with this opcode that gives one.
fn last_sign<'a>(
    alloc: Global,
    opcode: &str,
    lines: &[Line<'a>],
) -> Result<Option<Sign<'a>>, AllocError>
    ensures { IfOk result (λ sign. option_map sign_view sign ≡ last_by opcode.now (map line_view lines.entry.now)) }
{
    let mut last = None;
    for line in lines {
        let sign = sign_in(alloc, opcode, line)?;
        if sign.is_some() {
            last = sign;
        }
    }
    Ok(last)
}

/// The sign before a letter that is alone, of these lines.
pub(crate) fn letsign_of<'a>(
    alloc: Global,
    lines: &[Line<'a>],
) -> Result<Option<Sign<'a>>, AllocError>
    ensures { IfOk result (λ sign. option_map sign_view sign ≡ letsign_by (map line_view lines.entry.now)) }
{
    last_sign(alloc, "letsign", lines)
}

/// Adds the cells of a sign, if there is one.
fn push_cells(cells: &mut Vec<Cell>, sign: &Option<Sign<'_>>) -> Result<(), AllocError>
    ensures { OnOk result (cells.new.items ≡ cells.old.items ++ cells_of_sign (option_map sign_view sign.now)) }
{
    if let Some(sign) = sign {
        cells.extend_from_slice(sign.cells.as_slice())?;
    }
    Ok(())
}

/// The cells that a contraction has before those of its characters: of the first `nocontractsign`
/// line, and of this sign.
pub(crate) fn sign_cells(
    alloc: Global,
    lines: &[Line<'_>],
    letsign: &Option<Sign<'_>>,
) -> Result<Vec<Cell>, AllocError>
    ensures { IfOk result (λ cells. cells.items ≡ cells_before (map line_view lines.now) (option_map sign_view letsign.now)) }
{
    let nocontract = first_sign(alloc, "nocontractsign", lines)?;
    let mut cells = Vec::new(alloc);
    push_cells(&mut cells, &nocontract)?;
    push_cells(&mut cells, letsign)?;
    Ok(cells)
}

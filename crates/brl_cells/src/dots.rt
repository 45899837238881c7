//! Dots operands: cells as the numbers of their dots, joined by hyphens.
ghost use Rattle.std.specs.Prelude.{◌≡◌, ℕ, ◌<◌, ◌≤◌, ◌++◌, IsTrue, length, Ok, IfOk, OnOk, string_bytes};
ghost use Rattle.brl_cells.specs.Dots.{AreCells, cell_reading, cell_spelling, dot_marks, has_dot, reading, spelling, is_among};
ghost use Rattle.brl_failure.specs.Failure.{Gives};

use crate::{Cell, Cells, DotsFault};
use brl_failure::Failure;
use std::alloc::{AllocError, Global};

/// Whether a mark is one of the digits 1 to 8.
fn is_dot(mark: u8) -> bool
    ensures { result ≡ is_among dot_marks mark }
{
    matches!(mark, b'1'..=b'8')
}

/// Whether a cell has the dot of this mark.
fn has_dot(cell: Cell, mark: u8) -> bool
    requires { IsTrue (is_among dot_marks mark) }
    ensures { result ≡ has_dot cell mark }
{
    (cell.0 >> (mark - b'1')) % 2 == 1
}

/// The cell that marks spell.
fn read_cell(marks: &[u8]) -> Result<Cell, DotsFault>
    ensures { result ≡ cell_reading marks.now }
{
    if marks.is_empty() {
        return Err(DotsFault::EmptyCell);
    }
    if marks == b"0".as_slice() {
        return Ok(Cell(0));
    }
    let mut cell = Cell(0);
    for mark in marks {
        if !is_dot(*mark) {
            return Err(DotsFault::BadDot);
        }
        if has_dot(cell, *mark) {
            return Err(DotsFault::RepeatedDot);
        }
        cell.0 |= 1 << (*mark - b'1');
    }
    Ok(cell)
}

/// The cells that a dots operand spells, 1 to `most` of them, or its first fault. Cells are joined
/// by `-`. Each is one or more of the digits 1 to 8 in any order, none twice, or `0` alone, the
/// blank cell. `most` is from 1 to 1,024.
///
/// The first fault decides, cell by cell and mark by mark: `EmptyCell`, `BadDot`, `RepeatedDot`.
/// Where there is none of these, more than `most` cells are `TooManyCells`. Only more than eight
/// cells take memory.
pub fn read_dots(alloc: Global, text: &str, most: usize) -> Result<Cells, Failure<DotsFault>>
    requires least { 1 ≤ most }
    requires limit { most ≤ 1024 }
    ensures cells { Gives (reading most text.now) result }
    ensures some { IfOk result (λ cells. 1 ≤ length cells) }
    ensures limited { IfOk result (λ cells. length cells ≤ most) }
    ensures in_range { IfOk result AreCells }
{
    let mut cells = Cells::new(alloc);
    for marks in text.split('-') {
        let cell = read_cell(marks.as_bytes()).map_err(Failure::Fault)?;
        cells.push(cell)?;
    }
    if cells.len() > most {
        return Err(Failure::Fault(DotsFault::TooManyCells));
    }
    Ok(cells)
}

/// Appends the marks of a cell to a text.
fn push_cell(text: &mut String, cell: Cell) -> Result<(), AllocError>
    ensures written { OnOk result (string_bytes text.new ≡ string_bytes text.old ++ cell_spelling cell) }
    ensures in_range { cell < 256 }
{
    if cell == Cell(0) {
        return text.push('0');
    }
    for mark in *b"12345678" {
        if has_dot(cell, mark) {
            text.push(char::from(mark))?;
        }
    }
    Ok(())
}

/// The one text that spells cells with ascending dots, `0` for the blank cell, joined by `-`;
/// `read_dots` gives the cells back. It is empty for no cells.
pub fn write_dots(alloc: Global, cells: &[Cell]) -> Result<String, AllocError>
    ensures spelled { IfOk result (λ text. string_bytes text ≡ spelling cells.now) }
    // One cell or more are read back from the text, with any limit that they keep.
    ensures read_back { (most : ℕ) → 1 ≤ length cells.now → length cells.now ≤ most
        → IfOk result (λ text. reading most (string_bytes text) ≡ Ok cells.now) }
    ensures in_range { OnOk result (AreCells cells.now) }
{
    let mut text = String::new(alloc);
    for (place, cell) in cells.iter().enumerate() {
        if place > 0 {
            text.push('-')?;
        }
        push_cell(&mut text, *cell)?;
    }
    Ok(text)
}

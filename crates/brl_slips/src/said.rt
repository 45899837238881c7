//! The words for a slip, a habit and twins.
use crate::fault::Fault;
use crate::habit::Difference;
use crate::lexicon::{Lexicon, Piece};
use crate::names::Names;
use brl_cells::{Cell, write_dots};
use brl_lines::spell_visibly;
use std::alloc::{AllocError, Global};

/// A table, and what its cells are named by.
#[derive(Clone, Copy)]
pub(crate) struct Named<'a> {
    pub alloc: Global,
    pub lexicon: &'a Lexicon,
    pub names: &'a Names,
}

impl Named<'_> {
    /// Appends the dots of a cell, and after a blank the characters of a piece, if there is one.
    fn push_named(
        self,
        text: &mut String,
        cell: Cell,
        piece: Option<usize>,
    ) -> Result<(), AllocError> {
        text.push_str(write_dots(self.alloc, &[cell])?.as_str())?;
        let Some(piece) = piece.and_then(|number| self.lexicon.pieces.get(number)) else {
            return Ok(());
        };
        text.push(' ')?;
        text.push_str(spell_visibly(self.alloc, piece.chars.as_slice())?.as_str())
    }

    /// Appends a cell, and what it is named by.
    pub(crate) fn push_cell(self, text: &mut String, cell: Cell) -> Result<(), AllocError> {
        self.push_named(text, cell, self.names.of(cell))
    }

    /// Appends the cell at a place of a spelling: it is named by the piece that has it alone there,
    /// else as any cell.
    fn push_meant(
        self,
        text: &mut String,
        spelling: &[usize],
        place: usize,
        cell: Cell,
    ) -> Result<(), AllocError> {
        let piece = piece_alone(self.lexicon.pieces.as_slice(), spelling, place);
        self.push_named(text, cell, piece.or(self.names.of(cell)))
    }

    /// Appends that the cell at a place replaces another.
    fn push_replaced(
        self,
        text: &mut String,
        cells: &[Cell],
        spelled: &[Cell],
        spelling: &[usize],
        place: usize,
    ) -> Result<(), AllocError> {
        let (Some(is), Some(meant)) = (cells.get(place), spelled.get(place)) else {
            return Ok(());
        };
        write!(text, "cell {} is ", place + 1)?;
        self.push_cell(text, *is)?;
        text.push_str(" for ")?;
        self.push_meant(text, spelling, place, *meant)
    }

    /// Appends that the cells at a place and at the next are exchanged.
    fn push_exchanged(
        self,
        text: &mut String,
        cells: &[Cell],
        place: usize,
    ) -> Result<(), AllocError> {
        let Some([one, other, ..]) = cells.get(place..) else {
            return Ok(());
        };
        write!(
            text,
            "cells {} and {} are exchanged: ",
            place + 1,
            place + 2
        )?;
        self.push_cell(text, *one)?;
        text.push_str(", ")?;
        self.push_cell(text, *other)
    }

    /// Appends that the cell at a place is too many.
    fn push_too_many(
        self,
        text: &mut String,
        cells: &[Cell],
        place: usize,
    ) -> Result<(), AllocError> {
        let Some(cell) = cells.get(place) else {
            return Ok(());
        };
        write!(text, "cell {}, ", place + 1)?;
        self.push_cell(text, *cell)?;
        text.push_str(", is too many")
    }

    /// Appends that a cell of the spelling is missing before a place.
    fn push_missing(
        self,
        text: &mut String,
        spelled: &[Cell],
        spelling: &[usize],
        place: usize,
    ) -> Result<(), AllocError> {
        let Some(cell) = spelled.get(place) else {
            return Ok(());
        };
        text.push_str("no ")?;
        self.push_meant(text, spelling, place, *cell)?;
        write!(text, " before cell {}", place + 1)
    }

    /// Appends what a fault of these cells is, beside those of a spelling.
    pub(crate) fn push_fault(
        self,
        text: &mut String,
        fault: Fault,
        cells: &[Cell],
        spelled: &[Cell],
        spelling: &[usize],
    ) -> Result<(), AllocError> {
        match fault {
            Fault::Replaced(place) => self.push_replaced(text, cells, spelled, spelling, place),
            Fault::Exchanged(place) => self.push_exchanged(text, cells, place),
            Fault::TooMany(place) => self.push_too_many(text, cells, place),
            Fault::Missing(place) => self.push_missing(text, spelled, spelling, place),
            Fault::TwoReplaced(first, second) => {
                self.push_replaced(text, cells, spelled, spelling, first)?;
                text.push_str("; ")?;
                self.push_replaced(text, cells, spelled, spelling, second)
            }
        }
    }

    /// Appends what a habit is.
    pub(crate) fn push_difference(
        self,
        text: &mut String,
        difference: Difference,
    ) -> Result<(), AllocError> {
        match difference {
            Difference::Replaced { is, meant } => {
                self.push_cell(text, is)?;
                text.push_str(" for ")?;
                self.push_cell(text, meant)
            }
            Difference::Exchanged => text.push_str("two cells exchanged"),
            Difference::TooMany(cell) => {
                self.push_cell(text, cell)?;
                text.push_str(" too many")
            }
            Difference::Missing(cell) => {
                text.push_str("no ")?;
                self.push_cell(text, cell)
            }
        }
    }

    /// Appends a letter and its own cells.
    fn push_letter(self, text: &mut String, letter: char) -> Result<(), AllocError> {
        text.push_str(spell_visibly(self.alloc, &[letter])?.as_str())?;
        text.push(' ')?;
        let cells = self.lexicon.alphabet.cells(letter);
        text.push_str(write_dots(self.alloc, cells)?.as_str())
    }

    /// Appends what twins are, of these pieces, that differ at a place.
    pub(crate) fn push_twins(
        self,
        text: &mut String,
        one: &Piece,
        other: &Piece,
        place: usize,
    ) -> Result<(), AllocError> {
        let (Some(left), Some(right)) = (
            one.chars.as_slice().get(place),
            other.chars.as_slice().get(place),
        ) else {
            return Ok(());
        };
        text.push_str("same cells; ")?;
        self.push_letter(text, *left)?;
        text.push_str(", ")?;
        self.push_letter(text, *right)
    }
}

/// The number of the piece of a spelling that has the cell at a place, and no other.
fn piece_alone(pieces: &[Piece], spelling: &[usize], place: usize) -> Option<usize> {
    let mut at = 0;
    for number in spelling {
        let piece = pieces.get(*number)?;
        if at == place && piece.cells.len() == 1 {
            return Some(*number);
        }
        at = at.saturating_add(piece.cells.len());
    }
    None
}

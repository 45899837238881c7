//! What a cell is named by.
use crate::alphabet::Characters;
use crate::lexicon::Piece;
use brl_cells::Cell;
use std::alloc::{AllocError, Global};

/// For each cell the number of the piece that names it: the first of letters that has the cell
/// alone, else the first that has.
#[derive(Drop)]
pub(crate) struct Names {
    of_cells: Vec<Option<usize>>,
}

impl Names {
    /// The names that these pieces give.
    pub(crate) fn of_pieces(
        alloc: Global,
        alphabet: &Characters,
        pieces: &[Piece],
    ) -> Result<Names, AllocError> {
        let mut of_cells = Vec::from_elem(alloc, None, 256)?;
        name_cells(&mut of_cells, pieces, |piece| {
            alphabet.are_letters(piece.chars.as_slice())
        });
        name_cells(&mut of_cells, pieces, |_| true);
        Ok(Names { of_cells })
    }

    /// The number of the piece that names a cell, if one does.
    pub(crate) fn of(&self, cell: Cell) -> Option<usize> {
        self.of_cells.get(usize::from(cell.0)).copied().flatten()
    }
}

/// Names the cells that have no name by the first of these pieces that has each alone.
fn name_cells<F: Fn(&Piece) -> bool>(of_cells: &mut Vec<Option<usize>>, pieces: &[Piece], takes: F)
    requires { F.IsAlwaysCallable takes }
{
    for (number, piece) in pieces.iter().enumerate() {
        let Some(cell) = named_cell(piece) else {
            continue;
        };
        if let Some(name) = of_cells.get_mut(usize::from(cell.0)) {
            if name.is_none() && takes(piece) {
                *name = Some(number);
            }
        }
    }
}

/// The cell that a piece has alone, unless it is a character of braille.
fn named_cell(piece: &Piece) -> Option<Cell> {
    match (piece.chars.as_slice(), piece.cells.as_slice()) {
        ([character], [_]) if is_braille(*character) => None,
        (_, [cell]) => Some(*cell),
        _ => None,
    }
}

/// Whether a character is a pattern of braille.
fn is_braille(character: char) -> bool {
    matches!(character, '\u{2800}'..='\u{28ff}')
}

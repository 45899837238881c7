//! Finds a spelling of a text: a row of pieces that make it up, with cells that are asked for.
ghost use Rattle.std.specs.Prelude.{◌≡◌, ◌≤◌, ◌<◌, ◌+◌, ◌∷◌, ℕ, IfOk, IsTrue, List, MatchOption, OnOk, Option, length};
ghost use Rattle.brl_slips.specs.Pieces.{IsSpelling, cells_of};
ghost use Rattle.brl_slips.specs.declared.lexicon.Piece.{Piece as PieceView};
ghost use Rattle.brl_slips.specs.Searching.{AreStarts, Completes, Fits, IsAfter, IsCompleted, IsDead, IsKnown, IsPieceAt, is_miss as isnt_wanted, misses_in as places_missed};

use crate::lexicon::Piece;
use brl_cells::Cell;
use std::alloc::{AllocError, Global};

/// How many places of cells a row of what is known has: more than the cells of any rule.
const ROW: usize = 32;

/// A text whose spellings are looked for: its characters, all pieces, and the numbers of those that
/// begin at each of its places.
#[derive(Clone, Copy)]
pub(crate) struct Text<'a> {
    pub chars: &'a [char],
    pub pieces: &'a [Piece],
    pub starts: &'a [Vec<usize>],
}

/// Cells that a spelling is to have; `None` is any cell. A spelling may differ from them at
/// this number of places.
#[derive(Clone, Copy)]
pub(crate) struct Pattern<'a> {
    pub cells: &'a [Option<Cell>],
    pub misses: u8,
}

/// How far a search is: the place in the text, that in the cells, and how many places may still
/// differ.
#[derive(Clone, Copy)]
pub(crate) struct State {
    pub character: usize,
    pub cell: usize,
    pub misses: u8,
}

/// What is known of a search.
#[derive(Drop)]
struct Known {
    /// For each place in the text and in the cells: from there no spelling goes to the end with
    /// fewer than this number of misses.
    dead: Vec<u8>,
    /// The pieces that were tried.
    steps: u64,
}

impl Known {
    /// Nothing is known of a text with this number of characters.
    fn new(alloc: Global, characters: usize) -> Result<Known, AllocError>
        requires { characters ≤ 32 }
        ensures { IfOk result (λ known. (pieces : List PieceView) (text : List ℕ) (wanted : List (Option ℕ)) → IsKnown pieces text wanted known.dead.items) }
    {
        Ok(Known {
            dead: Vec::from_elem(alloc, 0, (characters + 1) * ROW)?,
            steps: 0,
        })
    }

    /// Whether it is known that no spelling goes on from a state.
    fn is_dead(&self, state: State) -> bool
        requires character { state.character ≤ 32 }
        requires cell { state.cell < 32 }
        ensures { IsTrue result → (pieces : List PieceView) (text : List ℕ) (wanted : List (Option ℕ)) →
            IsKnown pieces text wanted self.now.dead.items → IsDead pieces text wanted state.character state.cell state.misses }
    {
        match self.dead.get(state.character * ROW + state.cell) {
            Some(least) => state.misses < *least,
            None => false,
        }
    }

    /// Notes that no spelling goes on from a state.
    fn mark(&mut self, state: State)
        requires character { state.character ≤ 32 }
        requires cell { state.cell < 32 }
        requires misses { state.misses < 255 }
        ensures { (pieces : List PieceView) (text : List ℕ) (wanted : List (Option ℕ)) →
            IsKnown pieces text wanted self.old.dead.items → IsDead pieces text wanted state.character state.cell state.misses →
            IsKnown pieces text wanted self.new.dead.items }
    {
        if let Some(least) = self.dead.get_mut(state.character * ROW + state.cell) {
            *least = state.misses + 1;
        }
    }
}

/// Whether a cell isn't the one that is wanted.
fn is_miss(want: Option<Cell>, cell: Cell) -> bool
    ensures { result ≡ isnt_wanted want cell }
{
    match want {
        Some(other) => other != cell,
        None => false,
    }
}

/// At how many places cells aren't those that are wanted.
fn misses_in(wanted: &[Option<Cell>], cells: &[Cell]) -> usize
    ensures { result ≡ places_missed wanted.now cells.now }
{
    wanted
        .iter()
        .zip(cells)
        .filter(|(want, cell)| is_miss(**want, **cell))
        .count()
}

/// How many places may still differ after these cells, where the wanted ones begin so; `None` where
/// too many differ, or more cells come than are wanted.
fn left_after(wanted: &[Option<Cell>], cells: &[Cell], misses: u8) -> Option<u8>
    ensures { MatchOption result ((length cells.now ≤ length wanted.now) → misses < places_missed wanted.now cells.now)
        (λ left. (length cells.now ≤ length wanted.now) × (places_missed wanted.now cells.now + left ≡ misses)) }
{
    if cells.len() > wanted.len() {
        return None;
    }
    let missed = misses_in(wanted, cells);
    if missed > usize::from(misses) {
        return None;
    }
    Some(misses - missed as u8)
}

impl Text<'_> {
    /// The state after one more piece.
    fn after(self, wanted: Pattern<'_>, state: State, number: usize) -> Option<State>
        requires piece { IsPieceAt self.pieces.now self.chars.now state.character number }
        requires cell { state.cell ≤ length wanted.cells.now }
        ensures { MatchOption result
            ((rest : List ℕ) → Completes self.entry.pieces.now self.entry.chars.now wanted.entry.cells.now state.character state.cell state.misses (number ∷ rest) → ⊥)
            (λ next. IsAfter self.entry.pieces.now wanted.entry.cells.now state number next) }
    {
        let piece = &self.pieces[number];
        let cells = &wanted.cells[state.cell..];
        let Some(misses) = left_after(cells, piece.cells.as_slice(), state.misses) else {
            return None;
        };
        Some(State {
            character: state.character + piece.chars.len(),
            cell: state.cell + piece.cells.len(),
            misses,
        })
    }

    /// Goes on with a row of pieces to the end of the text, if some row has the cells.
    fn complete(
        self,
        wanted: Pattern<'_>,
        state: State,
        known: &mut Known,
        row: &mut Vec<usize>,
    ) -> Result<bool, AllocError>
        requires starts { AreStarts self.pieces.now self.chars.now self.starts.now }
        requires short { length self.chars.now ≤ 32 }
        requires few { length wanted.cells.now < 32 }
        requires character { state.character ≤ length self.chars.now }
        requires cell { state.cell ≤ length wanted.cells.now }
        requires misses { state.misses < 255 }
        requires known { IsKnown self.pieces.now self.chars.now wanted.cells.now known.old.dead.items }
        ensures completed { IfOk result (IsCompleted self.entry.pieces.now self.entry.chars.now wanted.entry.cells.now
            state.character state.cell state.misses row.old.items row.new.items) }
        ensures known { OnOk result (IsKnown self.entry.pieces.now self.entry.chars.now wanted.entry.cells.now known.new.dead.items) }
    {
        if state.character == self.chars.len() {
            return Ok(state.cell == wanted.cells.len());
        }
        if known.is_dead(state) {
            return Ok(false);
        }
        for number in &self.starts[state.character] {
            known.steps = known.steps.saturating_add(1);
            let Some(next) = self.after(wanted, state, *number) else {
                continue;
            };
            row.push(*number)?;
            if self.complete(wanted, next, known, row)? {
                return Ok(true);
            }
            row.pop();
        }
        known.mark(state);
        Ok(false)
    }

    /// The first spelling of the text whose cells are the wanted ones but for the misses: of pieces
    /// at a place the first that can be. Adds the number of pieces that were tried to the steps.
    pub(crate) fn spelling(
        self,
        alloc: Global,
        wanted: Pattern<'_>,
        steps: &mut u64,
    ) -> Result<Option<Vec<usize>>, AllocError>
        requires starts { AreStarts self.pieces.now self.chars.now self.starts.now }
        requires short { length self.chars.now ≤ 32 }
        requires few { length wanted.cells.now < 32 }
        requires misses { wanted.misses < 255 }
        ensures { IfOk result (λ found. MatchOption found
            ((row : List ℕ) → IsSpelling self.entry.pieces.now self.entry.chars.now row → Fits wanted.entry.cells.now wanted.entry.misses (cells_of self.entry.pieces.now row) → ⊥)
            (λ row. IsSpelling self.entry.pieces.now self.entry.chars.now row.items × Fits wanted.entry.cells.now wanted.entry.misses (cells_of self.entry.pieces.now row.items))) }
    {
        let mut known = Known::new(alloc, self.starts.len())?;
        let mut row = Vec::new(alloc);
        let start = State {
            character: 0,
            cell: 0,
            misses: wanted.misses,
        };
        let found = self.complete(wanted, start, &mut known, &mut row)?;
        *steps = steps.saturating_add(known.steps);
        Ok(if found { Some(row) } else { None })
    }
}

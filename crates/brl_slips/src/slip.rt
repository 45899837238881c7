//! Whether a rule is a slip.
ghost use Rattle.std.specs.Prelude.{◌≡◌, ◌≤◌, ◌<◌, ◌+◌, ◌++◌, ℕ, IfOk, List, MatchBool, MatchOption, OnOk, drop, length, true};
ghost use Rattle.brl_slips.specs.Letters.{may_be_slip as may_be};
ghost use Rattle.brl_slips.specs.Pieces.{IsSpelling, cells_at, cells_of};
ghost use Rattle.brl_slips.specs.Searching.{Fits, IsIndex, exactly};
ghost use Rattle.brl_slips.specs.Slips.{IsSlipBy, IsUnspelled};
ghost use Rattle.brl_slips.specs.Finding.{HasNone, IsFoundFrom, IsKindFound, IsKindFoundAt, IsQuestion, IsSpelledAs};
ghost use Rattle.brl_slips.specs.declared.fault.Fault.{Fault};
ghost use Rattle.brl_slips.specs.declared.fault.Fault.TheVariants.{Exchanged as IsExchanged, Missing as IsMissing, TooMany as IsTooMany};

use crate::alphabet::Characters;
use crate::fault::{Fault, differing_from};
use crate::lexicon::{Lexicon, Piece};
use crate::spelling::{Pattern, Text};
use crate::starts::Index;
use brl_cells::Cell;
use std::alloc::{AllocError, Global};

/// A rule whose cells are those of a spelling of its characters but for a fault.
#[derive(Debug, Drop)]
pub struct Slip {
    /// The number of the rule.
    pub entry: usize,
    pub fault: Fault,
    /// The numbers of the pieces in a row.
    pub spelling: Vec<usize>,
    /// The number of the rule's cells.
    pub length: usize,
}

/// A spelling of a rule's characters, and how the rule's cells differ from its.
#[derive(Drop)]
pub(crate) struct Likeness {
    pub fault: Fault,
    pub spelling: Vec<usize>,
}

/// A rule that may be a slip: its cells, and its characters as a text.
#[derive(Clone, Copy)]
pub(crate) struct Question<'a> {
    pub cells: &'a [Cell],
    pub text: Text<'a>,
}

/// Whether a piece may be a slip: of four characters or more, all of them letters, and of four
/// cells or more. A rule has at most 32 characters, and at most 16 cells but where it has its
/// characters' own.
fn may_be_slip(alphabet: &Characters, piece: &Piece) -> bool
    ensures { result ≡ may_be alphabet.now piece.now }
{
    let characters = piece.chars.len();
    let cells = piece.cells.len();
    characters >= 4
        && characters <= 32
        && cells >= 4
        && cells <= 16
        && alphabet.are_letters(piece.chars.as_slice())
}

/// The fault and the spelling by which the rule with this piece is a slip, if it is one. Adds the
/// number of pieces that were tried to the steps.
pub(crate) fn likeness_of(
    alloc: Global,
    lexicon: &Lexicon,
    index: &Index,
    piece: &Piece,
    steps: &mut u64,
) -> Result<Option<Likeness>, AllocError>
    requires { IsIndex lexicon.now.pieces.items index.now }
    ensures { IfOk result (λ found. MatchOption found
        ((fault : Fault) (row : List ℕ) → may_be lexicon.now.alphabet piece.now ≡ true → IsSlipBy lexicon.now.pieces.items piece.now.chars piece.now.cells fault row → ⊥)
        (λ found. (may_be lexicon.now.alphabet piece.now ≡ true) × IsSlipBy lexicon.now.pieces.items piece.now.chars piece.now.cells found.fault found.spelling.items)) }
{
    if !may_be_slip(&lexicon.alphabet, piece) {
        return Ok(None);
    }
    let pieces = lexicon.pieces.as_slice();
    let starts = index.starts(alloc, pieces, piece.chars.as_slice())?;
    let text = Text {
        chars: piece.chars.as_slice(),
        pieces,
        starts: starts.as_slice(),
    };
    let question = Question {
        cells: piece.cells.as_slice(),
        text,
    };
    question.slip(alloc, steps)
}

impl Question<'_> {
    /// The fault and the spelling by which the rule is a slip, if it is one.
    fn slip(self, alloc: Global, steps: &mut u64) -> Result<Option<Likeness>, AllocError>
        requires { IsQuestion self }
        ensures { IfOk result (λ found. MatchOption found
            ((fault : Fault) (row : List ℕ) → IsSlipBy self.entry.text.pieces.now self.entry.text.chars.now self.entry.cells.now fault row → ⊥)
            (λ found. IsSlipBy self.entry.text.pieces.now self.entry.text.chars.now self.entry.cells.now found.fault found.spelling.items)) }
    {
        if self.is_spelled(alloc, steps)? {
            return Ok(None);
        }
        self.from_replaced(alloc, steps)
    }

    /// A spelling with just these cells, some of which may be any, but for a number of misses.
    fn with_cells(
        self,
        alloc: Global,
        cells: &[Option<Cell>],
        misses: u8,
        steps: &mut u64,
    ) -> Result<Option<Vec<usize>>, AllocError>
        requires question { IsQuestion self }
        requires few { length cells.now < 32 }
        requires misses { misses < 255 }
        ensures { IfOk result (λ found. MatchOption found
            ((row : List ℕ) → IsSpelling self.entry.text.pieces.now self.entry.text.chars.now row → Fits cells.now misses (cells_of self.entry.text.pieces.now row) → ⊥)
            (λ row. IsSpelling self.entry.text.pieces.now self.entry.text.chars.now row.items × Fits cells.now misses (cells_of self.entry.text.pieces.now row.items))) }
    {
        self.text.spelling(alloc, Pattern { cells, misses }, steps)
    }

    /// A spelling with just these cells.
    fn with_exact(
        self,
        alloc: Global,
        cells: &[Cell],
        steps: &mut u64,
    ) -> Result<Option<Vec<usize>>, AllocError>
        requires question { IsQuestion self }
        requires few { length cells.now < 32 }
        ensures { IfOk result (IsSpelledAs self.entry.text.pieces.now self.entry.text.chars.now cells.now) }
    {
        let wanted = exact(alloc, cells)?;
        self.with_cells(alloc, wanted.as_slice(), 0, steps)
    }

    /// Whether the cells are those of a spelling, or are so without the first or the first two.
    fn is_spelled(self, alloc: Global, steps: &mut u64) -> Result<bool, AllocError>
        requires { IsQuestion self }
        ensures { IfOk result (λ found. MatchBool found
            ((row : List ℕ) × (signs : ℕ) × IsSpelling self.entry.text.pieces.now self.entry.text.chars.now row × (signs < 3) × (cells_of self.entry.text.pieces.now row ≡ drop signs self.entry.cells.now))
            (IsUnspelled self.entry.text.pieces.now self.entry.text.chars.now self.entry.cells.now)) }
    {
        for signs in 0..3 {
            let found = self.with_exact(alloc, &self.cells[signs..], steps)?;
            if found.is_some() {
                return Ok(true);
            }
        }
        Ok(false)
    }

    /// The first kind that holds.
    fn from_replaced(self, alloc: Global, steps: &mut u64) -> Result<Option<Likeness>, AllocError>
        requires question { IsQuestion self }
        requires unspelled { IsUnspelled self.text.pieces.now self.text.chars.now self.cells.now }
        ensures { IfOk result (IsFoundFrom self.entry 0) }
    {
        match self.replaced(alloc, steps)? {
            Some(found) => Ok(Some(found)),
            None => self.from_exchanged(alloc, steps),
        }
    }

    /// The first kind after *replaced* that holds, where that doesn't.
    fn from_exchanged(self, alloc: Global, steps: &mut u64) -> Result<Option<Likeness>, AllocError>
        requires question { IsQuestion self }
        requires unspelled { IsUnspelled self.text.pieces.now self.text.chars.now self.cells.now }
        requires none { HasNone self 0 }
        ensures { IfOk result (IsFoundFrom self.entry 1) }
    {
        match self.exchanged(alloc, steps)? {
            Some(found) => Ok(Some(found)),
            None => self.from_too_many(alloc, steps),
        }
    }

    /// The first kind after *exchanged* that holds, where *replaced* doesn't.
    fn from_too_many(self, alloc: Global, steps: &mut u64) -> Result<Option<Likeness>, AllocError>
        requires question { IsQuestion self }
        requires unspelled { IsUnspelled self.text.pieces.now self.text.chars.now self.cells.now }
        requires none { HasNone self 0 }
        ensures { IfOk result (IsFoundFrom self.entry 2) }
    {
        match self.too_many(alloc, steps)? {
            Some(found) => Ok(Some(found)),
            None => self.from_missing(alloc, steps),
        }
    }

    /// The first kind after *too many* that holds, where *replaced* doesn't.
    fn from_missing(self, alloc: Global, steps: &mut u64) -> Result<Option<Likeness>, AllocError>
        requires question { IsQuestion self }
        requires unspelled { IsUnspelled self.text.pieces.now self.text.chars.now self.cells.now }
        requires none { HasNone self 0 }
        ensures { IfOk result (IsFoundFrom self.entry 3) }
    {
        match self.missing(alloc, steps)? {
            Some(found) => Ok(Some(found)),
            None => self.two_replaced(alloc, steps),
        }
    }

    /// One cell is replaced.
    fn replaced(self, alloc: Global, steps: &mut u64) -> Result<Option<Likeness>, AllocError>
        requires question { IsQuestion self }
        requires unspelled { IsUnspelled self.text.pieces.now self.text.chars.now self.cells.now }
        ensures { IfOk result (IsKindFound self.entry 0) }
    {
        let wanted = exact(alloc, self.cells)?;
        let found = self.with_cells(alloc, wanted.as_slice(), 1, steps)?;
        let Some(spelling) = found else {
            return Ok(None);
        };
        let spelled = cells_of_row(alloc, self.text.pieces, spelling.as_slice())?;
        let place = differing_from(self.cells, spelled.as_slice(), 0);
        Ok(Some(Likeness {
            fault: Fault::Replaced(place),
            spelling,
        }))
    }

    /// Two cells of seven or more are replaced.
    fn two_replaced(self, alloc: Global, steps: &mut u64) -> Result<Option<Likeness>, AllocError>
        requires question { IsQuestion self }
        requires unspelled { IsUnspelled self.text.pieces.now self.text.chars.now self.cells.now }
        requires none { HasNone self 0 }
        ensures { IfOk result (IsFoundFrom self.entry 4) }
    {
        if self.cells.len() < 7 {
            return Ok(None);
        }
        let wanted = exact(alloc, self.cells)?;
        let found = self.with_cells(alloc, wanted.as_slice(), 2, steps)?;
        let Some(spelling) = found else {
            return Ok(None);
        };
        let spelled = cells_of_row(alloc, self.text.pieces, spelling.as_slice())?;
        let first = differing_from(self.cells, spelled.as_slice(), 0);
        let second = differing_from(self.cells, spelled.as_slice(), first + 1);
        Ok(Some(Likeness {
            fault: Fault::TwoReplaced(first, second),
            spelling,
        }))
    }

    /// The leftmost two neighbours are exchanged.
    fn exchanged(self, alloc: Global, steps: &mut u64) -> Result<Option<Likeness>, AllocError>
        requires { IsQuestion self }
        ensures { IfOk result (IsKindFound self.entry 1) }
    {
        for place in 0..self.cells.len() - 1 {
            if let Some(found) = self.exchanged_at(alloc, place, steps)? {
                return Ok(Some(found));
            }
        }
        Ok(None)
    }

    /// The cell at a place and the next one are exchanged.
    fn exchanged_at(
        self,
        alloc: Global,
        place: usize,
        steps: &mut u64,
    ) -> Result<Option<Likeness>, AllocError>
        requires question { IsQuestion self }
        requires within { place + 1 < length self.cells.now }
        ensures { IfOk result (IsKindFoundAt self.entry (IsExchanged place)) }
    {
        let mut cells = Vec::from_slice(alloc, self.cells)?;
        cells.swap(place, place + 1);
        let found = self.with_exact(alloc, cells.as_slice(), steps)?;
        let Some(spelling) = found else {
            return Ok(None);
        };
        let fault = Fault::Exchanged(place);
        Ok(Some(Likeness { fault, spelling }))
    }

    /// The leftmost cell, of five or more, is too many that isn't the first.
    fn too_many(self, alloc: Global, steps: &mut u64) -> Result<Option<Likeness>, AllocError>
        requires { IsQuestion self }
        ensures { IfOk result (IsKindFound self.entry 2) }
    {
        if self.cells.len() < 5 {
            return Ok(None);
        }
        for place in 1..self.cells.len() {
            if let Some(found) = self.too_many_at(alloc, place, steps)? {
                return Ok(Some(found));
            }
        }
        Ok(None)
    }

    /// The cell at a place is too many.
    fn too_many_at(
        self,
        alloc: Global,
        place: usize,
        steps: &mut u64,
    ) -> Result<Option<Likeness>, AllocError>
        requires question { IsQuestion self }
        requires five { 5 ≤ length self.cells.now }
        requires later { 1 ≤ place }
        requires within { place < length self.cells.now }
        ensures { IfOk result (IsKindFoundAt self.entry (IsTooMany place)) }
    {
        let mut cells = Vec::from_slice(alloc, self.cells)?;
        cells.remove(place);
        let found = self.with_exact(alloc, cells.as_slice(), steps)?;
        let Some(spelling) = found else {
            return Ok(None);
        };
        let fault = Fault::TooMany(place);
        Ok(Some(Likeness { fault, spelling }))
    }

    /// The leftmost cell of a spelling is missing, where there are five or more.
    fn missing(self, alloc: Global, steps: &mut u64) -> Result<Option<Likeness>, AllocError>
        requires { IsQuestion self }
        ensures { IfOk result (IsKindFound self.entry 3) }
    {
        if self.cells.len() < 5 {
            return Ok(None);
        }
        for place in 0..self.cells.len() + 1 {
            if let Some(found) = self.missing_at(alloc, place, steps)? {
                return Ok(Some(found));
            }
        }
        Ok(None)
    }

    /// The cell at a place of a spelling is missing.
    fn missing_at(
        self,
        alloc: Global,
        place: usize,
        steps: &mut u64,
    ) -> Result<Option<Likeness>, AllocError>
        requires question { IsQuestion self }
        requires five { 5 ≤ length self.cells.now }
        requires within { place ≤ length self.cells.now }
        ensures { IfOk result (IsKindFoundAt self.entry (IsMissing place)) }
    {
        let mut wanted = exact(alloc, self.cells)?;
        wanted.insert(place, None)?;
        let found = self.with_cells(alloc, wanted.as_slice(), 0, steps)?;
        let Some(spelling) = found else {
            return Ok(None);
        };
        let fault = Fault::Missing(place);
        Ok(Some(Likeness { fault, spelling }))
    }
}

/// Just these cells, as they are asked for.
fn exact(alloc: Global, cells: &[Cell]) -> Result<Vec<Option<Cell>>, AllocError>
    ensures { IfOk result (λ wanted. wanted.items ≡ exactly cells.now) }
{
    cells.iter().map(|cell| Some(*cell)).collect(alloc)
}

/// The cells of pieces in a row.
pub(crate) fn cells_of_row(
    alloc: Global,
    pieces: &[Piece],
    row: &[usize],
) -> Result<Vec<Cell>, AllocError>
    ensures { IfOk result (λ cells. cells.items ≡ cells_of pieces.now row.now) }
{
    let mut cells = Vec::new(alloc);
    for number in row {
        push_cells(pieces, *number, &mut cells)?;
    }
    Ok(cells)
}

/// Appends the cells of the piece with a number, if there is one.
fn push_cells(pieces: &[Piece], number: usize, cells: &mut Vec<Cell>) -> Result<(), AllocError>
    ensures { OnOk result (cells.new.items ≡ cells.old.items ++ cells_at pieces.now number) }
{
    if let Some(piece) = pieces.get(number) {
        cells.extend_from_slice(piece.cells.as_slice())?;
    }
    Ok(())
}

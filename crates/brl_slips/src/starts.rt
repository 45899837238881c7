//! The pieces that begin at each place of a text.
ghost use Rattle.std.specs.Prelude.{◌≡◌, ◌≤◌, ◌<◌, ◌∷◌, ◌++◌, ℕ, [], IfOk, List, OnOk, if◌then◌else◌, length, nat_eq};
ghost use Rattle.std.specs.Cmp.Lexicographic.{pointwise};
ghost use Rattle.brl_slips.specs.Searching.{AreAt, AreStarts, IsIndex, numbers_of};

use crate::lexicon::Piece;
use indexmap::IndexMap;
use std::alloc::{AllocError, Global};

/// The numbers of the pieces with the same characters, the earlier first.
#[derive(Drop)]
pub(crate) struct Index {
    pub numbers: IndexMap<Vec<char>, Vec<usize>>,
    /// The most characters of a piece.
    pub longest: usize,
}

impl Index {
    /// The index of these pieces.
    pub(crate) fn of_pieces(alloc: Global, pieces: &[Piece]) -> Result<Index, AllocError>
        ensures { IfOk result (IsIndex pieces.now) }
    {
        let mut numbers = IndexMap::new(alloc);
        let mut longest = 0;
        for (number, piece) in pieces.iter().enumerate() {
            insert(alloc, &mut numbers, piece.chars.as_slice(), number)?;
            longest = piece.chars.len().max(longest);
        }
        Ok(Index { numbers, longest })
    }

    /// For each place of a text the numbers of the pieces that begin there and are shorter than the
    /// text: the longest first, and of those with the same characters the earlier.
    pub(crate) fn starts(
        &self,
        alloc: Global,
        pieces: &[Piece],
        text: &[char],
    ) -> Result<Vec<Vec<usize>>, AllocError>
        requires { IsIndex pieces.now self.now }
        ensures { IfOk result (λ starts. AreStarts pieces.now text.now starts.items) }
    {
        let mut starts = Vec::with_capacity(alloc, text.len())?;
        for place in 0..text.len() {
            starts.push(self.starting_at(alloc, pieces, text, place)?)?;
        }
        Ok(starts)
    }

    /// The pieces with which the text goes on at one place.
    fn starting_at(
        &self,
        alloc: Global,
        pieces: &[Piece],
        text: &[char],
        place: usize,
    ) -> Result<Vec<usize>, AllocError>
        requires index { IsIndex pieces.now self.now }
        requires place { place < length text.now }
        ensures { IfOk result (λ found. AreAt pieces.now text.now place found.items) }
    {
        let most = self.longest.min(text.len() - 1).min(text.len() - place);
        let mut found = Vec::new(alloc);
        for shorter in 0..most {
            let chars = &text[place..place + (most - shorter)];
            self.push_numbers(chars, &mut found)?;
        }
        Ok(found)
    }

    /// Appends the numbers of the pieces with these characters.
    fn push_numbers(&self, chars: &[char], found: &mut Vec<usize>) -> Result<(), AllocError>
        ensures { OnOk result (found.new.items ≡ found.old.items ++ numbers_of self.now.numbers chars.now) }
    {
        if let Some(numbers) = self.numbers.get(chars) {
            found.extend_from_slice(numbers.as_slice())?;
        }
        Ok(())
    }
}

/// Adds the number of a piece with these characters.
fn insert(
    alloc: Global,
    numbers: &mut IndexMap<Vec<char>, Vec<usize>>,
    chars: &[char],
    number: usize,
) -> Result<(), AllocError>
    ensures { OnOk result ((other : List ℕ) → numbers_of numbers.new other ≡ numbers_of numbers.old other ++ (if pointwise nat_eq chars.now other then number ∷ [] else [])) }
{
    if let Some(others) = numbers.get_mut(chars) {
        others.push(number)?;
        return Ok(());
    }
    let mut first = Vec::new(alloc);
    first.push(number)?;
    numbers.insert(Vec::from_slice(alloc, chars)?, first)?;
    Ok(())
}

//! How the cells of a rule differ from those of a spelling of its characters.
ghost use Rattle.std.specs.Prelude.{◌≡◌, ◌≢◌, ◌≤◌, ◌<◌, ℕ, length, slice_index};

use brl_cells::Cell;

/// A difference between the cells of a rule and those of a spelling. Places count from 0.
#[derive(Clone, Copy, PartialEq, Eq, Debug)]
pub enum Fault {
    /// The cells differ at this place.
    Replaced(usize),
    /// The cell at this place and the next one are exchanged.
    Exchanged(usize),
    /// The rule's cell at this place is too many.
    TooMany(usize),
    /// The spelling's cell at this place is missing in the rule.
    Missing(usize),
    /// The cells differ at these two places.
    TwoReplaced(usize, usize),
}

/// The first place, from this one on, at which cells differ from as many others; their end where
/// none does.
pub(crate) fn differing_from(cells: &[Cell], others: &[Cell], from: usize) -> usize
    requires as_many { length cells.now ≡ length others.now }
    requires from { from ≤ length cells.now }
    ensures from { from ≤ result }
    ensures within { result ≤ length cells.now }
    ensures same { (place : ℕ) → from ≤ place → place < result → slice_index cells.now place ≡ slice_index others.now place }
    ensures differs { result < length cells.now → slice_index cells.now result ≢ slice_index others.now result }
{
    for place in from..cells.len() {
        if cells[place] != others[place] {
            return place;
        }
    }
    cells.len()
}

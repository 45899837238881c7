//! Steps of a machine, and pairs of its runs.
use crate::Key;
use brl_cells::{Cells, Chars};

/// A step of a machine.
#[derive(Debug, Drop)]
pub struct Step<S> {
    /// The number of the rule that it applies.
    pub rule: u32,
    /// The characters that it reads.
    pub reads: Chars,
    /// The cells that it gives.
    pub cells: Cells,
    /// The state after it.
    pub next: S,
}

/// Two runs of a machine with the same output, except for the lead: the run that is now in the
/// state `ahead` has given the cells `lead` more than the run that is in the state `behind`. Where
/// the states are the members of a list, `S` may be their numbers in it.
#[derive(PartialEq, Eq, Hash, Debug, Drop)]
pub struct Pair<S> {
    pub ahead: S,
    pub behind: S,
    pub lead: Cells,
}

impl<S: Key> Key for Pair<S> {
    ghost use Rattle.brl_pairs.specs.Same.{same_pairs};

    ghost same = { same_pairs S.eq S.same };
}

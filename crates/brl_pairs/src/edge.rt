//! Steps by the numbers of states.
use brl_cells::Cells;

/// A step by numbers.
#[derive(Drop)]
pub struct Edge {
    /// The number of the rule that the step applies.
    pub rule: u32,
    /// The cells that it gives.
    pub cells: Cells,
    /// The number of its next state, from 0.
    pub next: u32,
}

/// A step by numbers, its cells too. The edges of a state, or of a part of its steps, are in the
/// order in which the steps are listed.
#[derive(Clone, Copy)]
pub struct ListedEdge {
    /// The number of the rule that the step applies.
    pub rule: u32,
    /// The number of its cells among those that are kept, from 0.
    pub cells: u32,
    /// The number of its next state, from 0.
    pub next: u32,
}

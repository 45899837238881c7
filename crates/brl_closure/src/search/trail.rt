//! What a search has found, and how it was found.
use brl_pairs::{Key, Members, Pair};

/// The earlier state from which a step led to a state first.
#[derive(Clone, Copy)]
pub struct StateOrigin {
    pub parent: usize,
}

/// How a pair was found first.
#[derive(Clone, Copy)]
pub enum PairOrigin {
    /// By two steps of a state, at these places of its list.
    Split {
        state: usize,
        longer: usize,
        shorter: usize,
    },
    /// From an earlier pair: its trailing run took a step, and still trails.
    Still {
        pair: usize,
        place: usize,
    },
    /// From an earlier pair: its trailing run took a step, and leads now.
    Swapped {
        pair: usize,
        place: usize,
    },
}

/// The two origins that a step may give its pair: one if the run stays behind, one if it gets
/// ahead.
#[derive(Clone, Copy)]
pub struct Origins {
    pub still: PairOrigin,
    pub swapped: PairOrigin,
}

/// The states and pairs that have been found, in the order in which they were found, and how each
/// was found.
#[derive(Drop)]
pub struct Trail<S: Key> {
    pub states: Members<S>,
    /// Of each state; that of the start is never read.
    pub state_origins: Vec<StateOrigin>,
    pub pairs: Members<Pair<u32>>,
    /// Of each pair.
    pub pair_origins: Vec<PairOrigin>,
}

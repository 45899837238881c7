//! Edges of the states that a check has passed.
ghost use Rattle.std.specs.Prelude.{◌≡◌, ◌⊎◌, ℕ, [], List, OnOk};
ghost use Rattle.brl_closure.specs.Passed.{ArePassed, IsPassed};
ghost use Rattle.brl_pairs.specs.Body.{NumberPair};

use crate::check::sorted::Sorted;
use crate::last_origins::LastOrigins;
use brl_pairs::SortedEdge;
use std::alloc::{AllocError, Global};

/// The most edges of states that are kept, but for those of the state that is passed last: 3 MB of
/// them. Nothing but time depends on which are kept (DECISIONS, 'Shared splits').
const MOST_KEPT: usize = 250_000;

/// The edges of states that miss no split, in the order of their cells. Another state often shares
/// most of its edges with one of these.
#[derive(Drop)]
pub struct EarlierEdges {
    pub lists: Vec<Vec<SortedEdge>>,
    /// How many edges are kept.
    kept: usize,
    /// Which list had an edge to each state last.
    last: LastOrigins,
}

impl EarlierEdges {
    /// No state was passed. No memory is allocated.
    pub fn new(alloc: Global) -> EarlierEdges
        ensures { result.lists.items ≡ [] }
    {
        EarlierEdges {
            lists: Vec::new(alloc),
            kept: 0,
            last: LastOrigins::new(alloc),
        }
    }

    /// The edges of a state that are likely to be shared with these; none if no state is likely to
    /// share any.
    pub fn likely(&self, edges: &Sorted<'_>) -> &[SortedEdge]
        ensures { (pairs : List NumberPair) (cells : List (List ℕ)) → ArePassed pairs cells self.now.lists.items → IsPassed pairs cells result.now }
    {
        let Some(number) = self.last.likely(edges.listed()) else {
            return &[];
        };
        match self.lists.get(number) {
            Some(list) => list.as_slice(),
            None => &[],
        }
    }

    /// Keeps the edges of a state. Where too many are kept, the others are dropped.
    pub fn keep(&mut self, alloc: Global, edges: Sorted<'_>) -> Result<(), AllocError>
        ensures { OnOk result ((pairs : List NumberPair) (cells : List (List ℕ)) → ArePassed pairs cells self.old.lists.items → IsPassed pairs cells edges.entry.sorted → ArePassed pairs cells self.new.lists.items) }
    {
        self.make_room(alloc, edges.len());
        self.last.set(edges.listed(), self.lists.len())?;
        self.lists.push(edges.into_sorted())?;
        Ok(())
    }

    /// Counts edges that will be kept. Where too many are, those that are kept are dropped.
    fn make_room(&mut self, alloc: Global, edges: usize)
        ensures { (self.new.lists.items ≡ self.old.lists.items) ⊎ (self.new.lists.items ≡ []) }
    {
        if self.kept > MOST_KEPT {
            *self = EarlierEdges::new(alloc);
        }
        self.kept = self.kept.saturating_add(edges);
    }
}

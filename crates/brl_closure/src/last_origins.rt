//! Which state led to each state last.
use brl_pairs::{ListedEdge, as_u32};
use std::alloc::{AllocError, Global};

/// For each state, by its number, the last state that had an edge to it. A state is likely to share
/// edges with the one that led last to most of its next states. Only the speed of a search and a
/// check depends on it.
#[derive(Drop)]
pub struct LastOrigins {
    /// One more than the number of the state, and 0 for none.
    by_next: Vec<u32>,
}

impl LastOrigins {
    /// No state led to any. No memory is allocated.
    pub fn new(alloc: Global) -> LastOrigins {
        LastOrigins {
            by_next: Vec::new(alloc),
        }
    }

    /// The number of the state that led last to most of the next states of these edges, if there is
    /// one. Where no state led to most of them, it may be any.
    pub fn likely(&self, edges: &[ListedEdge]) -> Option<usize> {
        // A vote in one pass: an edge for another state takes one vote away.
        let mut likely = 0u32;
        let mut votes = 0usize;
        for edge in edges {
            let origin = self.origin_of(edge.next);
            if origin == likely {
                votes = votes.saturating_add(1);
            } else if votes == 0 {
                likely = origin;
                votes = 1;
            } else {
                votes -= 1;
            }
        }
        (likely as usize).checked_sub(1)
    }

    /// Sets the state that led last to the next states of these edges.
    pub fn set(&mut self, edges: &[ListedEdge], number: usize) -> Result<(), AllocError> {
        let origin = as_u32(number.saturating_add(1))?;
        for edge in edges {
            self.set_one(edge.next, origin)?;
        }
        Ok(())
    }

    /// One more than the number of the state that led last to this one, and 0 for none.
    fn origin_of(&self, next: u32) -> u32 {
        match self.by_next.get(next as usize) {
            Some(origin) => *origin,
            None => 0,
        }
    }

    /// Sets the state that led last to one state.
    fn set_one(&mut self, next: u32, origin: u32) -> Result<(), AllocError> {
        let next = next as usize;
        if next >= self.by_next.len() {
            self.by_next.resize(next + 1, 0)?;
        }
        self.by_next[next] = origin;
        Ok(())
    }
}

//! What is left to do in a search.
ghost use Rattle.std.specs.Prelude.{◌≡◌, ◌⊎◌, ◌+◌, ◌<◌, ◌≤◌, ◌∷◌, ℕ, All, [], length, IfNone, IfSome, OnOk, OnSome, Some, slice_get, slice_set};
ghost use Rattle.std.specs.BinaryHeap.{heap_items, heap_len};
ghost use Rattle.std.specs.List.Sorted.{IsPermutation};
ghost use Rattle.std.specs.declared.cmp.Reverse.{Reverse as ReverseValue};
ghost use Rattle.brl_parts.specs.Parts.{no_parts};
ghost use Rattle.brl_closure.specs.Edges.{AreSomeOf};
ghost use Rattle.brl_closure.specs.Worklist.{IsItemOf, IsQueued, NoneIsReady};

use crate::last_origins::LastOrigins;
use brl_pairs::{KeptCells, Key, Members, Pair, Seed, SortedEdge};
use brl_parts::Parts;
use std::alloc::{AllocError, Global};
use std::cmp::Reverse;
use std::collections::BinaryHeap;
use std::mem;

/// The most edges of states that are kept, but for those of the state that is asked for last: 3 MB
/// of them. All edges would be most of a search's memory. Pairs are walked state by state, so the
/// edges of a state are seldom asked for after they were dropped, and then they are listed again
/// (DECISIONS, 'Kept edges').
const MOST_KEPT: usize = 250_000;

/// What is left to do in a search: states to be expanded, and pairs to be walked.
#[derive(Drop)]
pub struct Worklist<P: Key> {
    /// The cells of edges, each once. Edges name them by their numbers.
    pub cells: KeptCells,
    /// The parts of steps that have been listed.
    pub parts: Parts<P>,
    /// Which state that has been expanded led to each state last.
    pub last: LastOrigins,
    /// The edges of each state that has been expanded, in the order of their cells; none where they
    /// aren't kept. The other states are expanded in the order in which they were found.
    pub expanded: Vec<Vec<SortedEdge>>,
    /// A lower bound on how many edges of states are kept.
    pub kept: usize,
    /// The pairs to be walked, each with the number of its state behind: that with the least comes
    /// first.
    pub queue: BinaryHeap<Reverse<(u32, usize)>>,
}

impl<P: Key> Worklist<P> {
    /// Nothing is done, and no pair is known. Cells and parts will be found by hashes of this seed.
    pub fn new(alloc: Global, seed: Seed) -> Worklist<P>
        ensures parts { result.parts ≡ no_parts }
        ensures expanded { result.expanded.items ≡ [] }
        ensures queue { heap_items result.queue ≡ [] }
    {
        Worklist {
            cells: KeptCells::new(alloc, seed),
            parts: Parts::new(alloc, seed),
            last: LastOrigins::new(alloc),
            expanded: Vec::new(alloc),
            kept: 0,
            queue: BinaryHeap::new(alloc),
        }
    }

    /// Drops all kept parts where they have too many edges (`Parts::is_full`). New ones will be
    /// found by hashes of this seed.
    pub fn forget_parts(&mut self, alloc: Global, seed: Seed)
        ensures parts { (self.new.parts ≡ self.old.parts) ⊎ (self.new.parts ≡ no_parts) }
        ensures cells { self.new.cells ≡ self.old.cells }
        ensures expanded { self.new.expanded ≡ self.old.expanded }
        ensures queue { self.new.queue ≡ self.old.queue }
    {
        if self.parts.is_full() {
            self.parts = Parts::new(alloc, seed);
        }
    }

    /// Counts edges of a state that will be kept. Where too many are, those that are kept are
    /// dropped.
    pub fn make_room(&mut self, alloc: Global, edges: usize)
        ensures parts { self.new.parts ≡ self.old.parts }
        ensures cells { self.new.cells ≡ self.old.cells }
        ensures count { length self.new.expanded.items ≡ length self.old.expanded.items }
        ensures some { AreSomeOf self.old.expanded.items self.new.expanded.items }
        ensures queue { self.new.queue ≡ self.old.queue }
    {
        if self.kept > MOST_KEPT {
            // To drop all costs less than to know which were asked for last.
            drop_all(alloc, &mut self.expanded);
            self.kept = 0;
        }
        self.kept = self.kept.saturating_add(edges);
    }

    /// Takes away the edges of the expanded state with this number: none where they aren't kept.
    pub fn take(&mut self, alloc: Global, number: usize) -> Vec<SortedEdge>
        requires { number < length self.old.expanded.items }
        ensures taken { slice_get self.old.expanded.items number ≡ Some result }
        ensures parts { self.new.parts ≡ self.old.parts }
        ensures cells { self.new.cells ≡ self.old.cells }
        ensures count { length self.new.expanded.items ≡ length self.old.expanded.items }
        ensures some { AreSomeOf self.old.expanded.items self.new.expanded.items }
        ensures queue { self.new.queue ≡ self.old.queue }
    {
        mem::replace(&mut self.expanded[number], Vec::new(alloc))
    }

    /// Keeps the edges of the expanded state with this number.
    pub fn put(&mut self, number: usize, edges: Vec<SortedEdge>)
        requires { number < length self.old.expanded.items }
        ensures parts { self.new.parts ≡ self.old.parts }
        ensures cells { self.new.cells ≡ self.old.cells }
        ensures expanded { self.new.expanded.items ≡ slice_set self.old.expanded.items number edges }
        ensures queue { self.new.queue ≡ self.old.queue }
    {
        self.expanded[number] = edges;
    }

    /// Takes out the queued pair that comes first, where its state behind has been expanded: then
    /// the states of all its successors are known.
    pub fn pop_ready(&mut self) -> Option<usize>
        ensures cells { self.new.cells ≡ self.old.cells }
        ensures parts { self.new.parts ≡ self.old.parts }
        ensures expanded { self.new.expanded ≡ self.old.expanded }
        ensures first { IfSome result (λ number. (first : ReverseValue (ℕ × ℕ)) × (first.0.1 ≡ number) × (first.0.0 < length self.old.expanded.items)
            × IsPermutation (heap_items self.old.queue) (first ∷ heap_items self.new.queue)) }
        ensures count { OnSome result (heap_len self.new.queue + 1 ≡ heap_len self.old.queue) }
        ensures none { IfNone result (NoneIsReady self.old) }
        ensures same { IfNone result (self.new ≡ self.old) }
    {
        let behind = self.queue.peek()?.0.0;
        if behind as usize >= self.expanded.len() {
            return None;
        }
        let first = self.queue.pop()?;
        Some(first.0.1)
    }

    /// Queues the pairs numbered `from` and up.
    pub fn enqueue_from(
        &mut self,
        pairs: &Members<Pair<u32>>,
        from: usize,
    ) -> Result<(), AllocError>
        requires { from ≤ length pairs.now }
        ensures cells { self.new.cells ≡ self.old.cells }
        ensures parts { self.new.parts ≡ self.old.parts }
        ensures expanded { self.new.expanded ≡ self.old.expanded }
        ensures new { OnOk result ((n : ℕ) → from ≤ n → n < length pairs.now → IsQueued n (heap_items self.new.queue)) }
        ensures old { OnOk result ((n : ℕ) → IsQueued n (heap_items self.old.queue) → IsQueued n (heap_items self.new.queue)) }
        ensures items { OnOk result (All (IsItemOf pairs.now) (heap_items self.old.queue) → All (IsItemOf pairs.now) (heap_items self.new.queue)) }
        ensures count { OnOk result (heap_len self.new.queue + from ≡ heap_len self.old.queue + length pairs.now) }
    {
        for number in from..pairs.len() {
            let behind = pairs.as_slice()[number].behind;
            self.queue.push(Reverse((behind, number)))?;
        }
        Ok(())
    }
}

/// Drops the edges of all these states.
fn drop_all(alloc: Global, expanded: &mut Vec<Vec<SortedEdge>>)
    ensures count { length expanded.new.items ≡ length expanded.old.items }
    ensures some { AreSomeOf expanded.old.items expanded.new.items }
{
    for number in 0..expanded.len() {
        expanded[number] = Vec::new(alloc);
    }
}

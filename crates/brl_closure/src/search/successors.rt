//! Expanding states, and walking pairs.
ghost use Rattle.std.specs.Prelude.{◌≤◌, ◌≡◌, ◌<◌, ℕ, length, IfErr, IfOk, OnOk, Some, slice_get};
ghost use Rattle.brl_pairs.specs.Body.{NumberPair};
ghost use Rattle.brl_parts.specs.Parts.{AreKeptParts};
ghost use Rattle.brl_pairs.specs.Edges.{AreEdges};
ghost use Rattle.brl_pairs.specs.Listed.{edges_with};
ghost use Rattle.brl_pairs.specs.NumberPairs.{IsFollowed};
ghost use Rattle.brl_pairs.specs.Sorted.{AreSortedEdges, IsSortedOf};
ghost use Rattle.brl_pairs.specs.Splits.{AreSplits};
ghost use Rattle.brl_pairs.specs.declared.edge.Edge.{Edge as EdgeValue};
ghost use Rattle.brl_failure.specs.Failure.{IfFault};
ghost use Rattle.brl_closure.specs.Edges.{AreFollowedIfShared, AreKeptEdges, AreKeptOrNone, IsExpanded, IsWalked, edges_or_none};
ghost use Rattle.brl_closure.specs.SearchView.{Stays};
ghost use Rattle.brl_closure.specs.Worklist.{StillHas};
ghost use Rattle.brl_closure.specs.Trail.{AddsPairs, Advances, IsActive, IsMoveOf, IsStopped};

use crate::last_origins::LastOrigins;
use crate::search::finder::{Finder, Stop};
use crate::search::trail::{Origins, PairOrigin, Trail};
use crate::search::worklist::Worklist;
use brl_cells::Cells;
use brl_failure::Failure;
use brl_pairs::{
    KeptCells, ListedEdge, Machine, Pair, Parted, SortedEdge, Splits, as_u32, cells_at, cells_of,
    count_unshared, earlier_splits, matches, shared_with, sort_edges, splits_of, unshared_splits,
};
use brl_parts::Parts;
use std::alloc::AllocError;

/// A state that is expanded: its number, and its edges with their cells, in listed order and in the
/// order of their cells.
#[derive(Clone, Copy)]
struct Expanding<'a> {
    number: usize,
    cells: &'a [Cells],
    edges: &'a [ListedEdge],
    sorted: &'a [SortedEdge],
}

impl<'m, M: Machine> Finder<'m, M> {
    /// Adds the split of two steps of a state.
    fn find_split(
        &self,
        trail: &mut Trail<M::State>,
        state: &Expanding<'_>,
        first: usize,
        second: usize,
    ) -> Result<(), Failure<Stop>>
        requires active { IsActive M.behaviour self.now trail.old }
        requires edges { AreEdges (M.behaviour self.now.machine.now) trail.old.states state.now.number (edges_with state.now.cells.now state.now.edges.now) }
        requires in_order { first < second }
        requires within { second < length state.now.edges.now }
        ensures followed { OnOk result ((x y : EdgeValue) → slice_get (edges_with state.now.cells.now state.now.edges.now) first ≡ Some x
            → slice_get (edges_with state.now.cells.now state.now.edges.now) second ≡ Some y → IsFollowed trail.new.pairs x.next x.cells y) }
        ensures advances { OnOk result (Advances M.behaviour self.now trail.old trail.new) }
        ensures stopped { IfErr result (IfFault (IsStopped M.behaviour self.now trail.new)) }
    {
        let origins = Origins {
            still: PairOrigin::Split {
                state: state.number,
                longer: first,
                shorter: second,
            },
            swapped: PairOrigin::Split {
                state: state.number,
                longer: second,
                shorter: first,
            },
        };
        let ahead = state.edges[first];
        let lead = cells_at(state.cells, ahead.cells);
        let later = state.edges[second];
        let cells = cells_at(state.cells, later.cells);
        self.follow(trail, ahead.next, lead, later.next, cells, origins)
    }

    /// Adds the splits of one step of a state with each earlier one, from the last to the first.
    fn find_splits_of(
        &self,
        trail: &mut Trail<M::State>,
        state: &Expanding<'_>,
        splits: &Splits,
        second: usize,
    ) -> Result<(), Failure<Stop>>
        requires active { IsActive M.behaviour self.now trail.old }
        requires edges { AreEdges (M.behaviour self.now.machine.now) trail.old.states state.now.number (edges_with state.now.cells.now state.now.edges.now) }
        requires sorted { IsSortedOf state.now.cells.now (edges_with state.now.cells.now state.now.edges.now) state.now.sorted.now }
        requires splits { AreSplits state.now.cells.now state.now.sorted.now splits.now }
        requires within { second < length state.now.edges.now }
        ensures followed { OnOk result ((i : ℕ) (x y : EdgeValue) → i < second → slice_get (edges_with state.now.cells.now state.now.edges.now) i ≡ Some x
            → slice_get (edges_with state.now.cells.now state.now.edges.now) second ≡ Some y → IsFollowed trail.new.pairs x.next x.cells y) }
        ensures advances { OnOk result (Advances M.behaviour self.now trail.old trail.new) }
        ensures stopped { IfErr result (IfFault (IsStopped M.behaviour self.now trail.new)) }
    {
        let found = earlier_splits(self.alloc, state.cells, state.sorted, splits, second)?;
        let mut left = found.len();
        while left > 0 {
            left -= 1;
            let first = found[left].place as usize;
            self.find_split(trail, state, first, second)?;
        }
        Ok(())
    }

    /// Adds the splits of a state: of any two of its steps.
    fn find_splits(
        &self,
        trail: &mut Trail<M::State>,
        state: &Expanding<'_>,
    ) -> Result<(), Failure<Stop>>
        requires active { IsActive M.behaviour self.now trail.old }
        requires edges { AreEdges (M.behaviour self.now.machine.now) trail.old.states state.now.number (edges_with state.now.cells.now state.now.edges.now) }
        requires sorted { IsSortedOf state.now.cells.now (edges_with state.now.cells.now state.now.edges.now) state.now.sorted.now }
        ensures expanded { OnOk result (IsExpanded (M.behaviour self.now.machine.now) trail.new.states trail.new.pairs state.now.number) }
        ensures advances { OnOk result (Advances M.behaviour self.now trail.old trail.new) }
        ensures stopped { IfErr result (IfFault (IsStopped M.behaviour self.now trail.new)) }
    {
        let splits = splits_of(self.alloc, state.cells, state.sorted, state.edges.len())?;
        for second in 0..state.edges.len() {
            self.find_splits_of(trail, state, &splits, second)?;
        }
        Ok(())
    }

    /// Adds the splits of a state but for those of two edges that it shares with an expanded state:
    /// these have been found there. Where few edges are shared, all splits are gone through.
    fn find_new_splits(
        &self,
        trail: &mut Trail<M::State>,
        state: &Expanding<'_>,
        shared: &[bool],
    ) -> Result<(), Failure<Stop>>
        requires active { IsActive M.behaviour self.now trail.old }
        requires edges { AreEdges (M.behaviour self.now.machine.now) trail.old.states state.now.number (edges_with state.now.cells.now state.now.edges.now) }
        requires sorted { IsSortedOf state.now.cells.now (edges_with state.now.cells.now state.now.edges.now) state.now.sorted.now }
        requires count { length shared.now ≡ length state.now.sorted.now }
        requires known { AreFollowedIfShared trail.old.pairs (edges_with state.now.cells.now state.now.edges.now) state.now.sorted.now shared.now }
        ensures expanded { OnOk result (IsExpanded (M.behaviour self.now.machine.now) trail.new.states trail.new.pairs state.now.number) }
        ensures advances { OnOk result (Advances M.behaviour self.now trail.old trail.new) }
        ensures stopped { IfErr result (IfFault (IsStopped M.behaviour self.now trail.new)) }
    {
        // To look each new edge up costs more than one pass over all splits where many are new.
        if count_unshared(shared) > shared.len() / 2 {
            return self.find_splits(trail, state);
        }
        let limit = as_u32(state.edges.len())?;
        let splits = unshared_splits(self.alloc, state.cells, state.sorted, shared, limit)?;
        for split in splits.as_slice() {
            self.find_split(trail, state, split.first as usize, split.second as usize)?;
        }
        Ok(())
    }

    /// Adds the successors of a pair, by the edges of its state behind.
    fn find_moves(
        &self,
        trail: &mut Trail<M::State>,
        number: usize,
        pair: &Pair<u32>,
        cells: &[Cells],
        sorted: &[SortedEdge],
    ) -> Result<(), Failure<Stop>>
        requires active { IsActive M.behaviour self.now trail.old }
        requires pair { slice_get trail.old.pairs number ≡ Some pair.now }
        requires edges { AreSortedEdges (M.behaviour self.now.machine.now) trail.old.states pair.now.behind cells.now sorted.now }
        ensures walked { OnOk result (IsWalked (M.behaviour self.now.machine.now) trail.new.states trail.new.pairs number) }
        ensures advances { OnOk result (Advances M.behaviour self.now trail.old trail.new) }
        ensures stopped { IfErr result (IfFault (IsStopped M.behaviour self.now trail.new)) }
        ensures adds { AddsPairs (IsMoveOf number) trail.old trail.new }
    {
        let lead = pair.lead.as_slice();
        let found = matches(self.alloc, cells, sorted, lead)?;
        for edge in found.as_slice() {
            let place = edge.place as usize;
            let origins = Origins {
                still: PairOrigin::Still {
                    pair: number,
                    place,
                },
                swapped: PairOrigin::Swapped {
                    pair: number,
                    place,
                },
            };
            self.follow(
                trail,
                pair.ahead,
                lead,
                edge.next,
                cells_of(cells, edge),
                origins,
            )?;
        }
        Ok(())
    }

    /// Adds the successors of the pair with this number, by the edges of the states that have been
    /// expanded.
    pub fn walk(
        &self,
        trail: &mut Trail<M::State>,
        cells: &[Cells],
        expanded: &[Vec<SortedEdge>],
        number: usize,
    ) -> Result<(), Failure<Stop>>
        requires active { IsActive M.behaviour self.now trail.old }
        requires edges { AreKeptEdges (M.behaviour self.now.machine.now) trail.old.states cells.now expanded.now }
        requires pair { (p : NumberPair) × (slice_get trail.old.pairs number ≡ Some p) × (p.behind < length expanded.now) }
        ensures walked { OnOk result (IsWalked (M.behaviour self.now.machine.now) trail.new.states trail.new.pairs number) }
        ensures advances { OnOk result (Advances M.behaviour self.now trail.old trail.new) }
        ensures stopped { IfErr result (IfFault (IsStopped M.behaviour self.now trail.new)) }
        ensures adds { AddsPairs (IsMoveOf number) trail.old trail.new }
    {
        let pair = copy_of(&trail.pairs.as_slice()[number])?;
        let sorted = expanded[pair.behind as usize].as_slice();
        self.find_moves(trail, number, &pair, cells, sorted)
    }
}

impl<'m, M: Parted> Finder<'m, M> {
    /// Adds the next states of the steps of a state, and its splits. Returns the edges of these
    /// steps in the order of their cells, which are kept. The splits of two edges that the state
    /// shares with an expanded one have been added before.
    pub(crate) fn expand(
        &self,
        trail: &mut Trail<M::State>,
        cells: &mut KeptCells,
        parts: &mut Parts<M::Part>,
        last: &mut LastOrigins,
        expanded: &[Vec<SortedEdge>],
        number: usize,
    ) -> Result<Vec<SortedEdge>, Failure<Stop>>
        requires active { IsActive M.behaviour self.now trail.old }
        requires within { number < length trail.old.states }
        requires parts { AreKeptParts (M.steps_of self.now.machine.now) trail.old.states cells.old parts.old }
        requires kept { AreKeptOrNone (M.behaviour self.now.machine.now) trail.old.states cells.old expanded.now }
        requires done { (k : ℕ) → k < length expanded.now → IsExpanded (M.behaviour self.now.machine.now) trail.old.states trail.old.pairs k }
        ensures edges { IfOk result (λ sorted. AreSortedEdges (M.behaviour self.now.machine.now) trail.new.states number cells.new sorted.items) }
        ensures cells { OnOk result (Stays cells.old cells.new) }
        ensures parts { OnOk result (AreKeptParts (M.steps_of self.now.machine.now) trail.new.states cells.new parts.new) }
        ensures expanded { OnOk result (IsExpanded (M.behaviour self.now.machine.now) trail.new.states trail.new.pairs number) }
        ensures advances { OnOk result (Advances M.behaviour self.now trail.old trail.new) }
        ensures stopped { IfErr result (IfFault (IsStopped M.behaviour self.now trail.new)) }
    {
        let edges = self.find_edges(trail, cells, parts, number)?;
        cells.rank(self.alloc)?;
        let sorted = sort_edges(self.alloc, cells, edges.as_slice())?;
        let others = edges_at(expanded, last.likely(edges.as_slice()));
        last.set(edges.as_slice(), number)?;
        let shared = shared_with(self.alloc, cells, sorted.as_slice(), others)?;
        // No state has two numbers.
        let _ = trail.states.as_slice();
        let kept = cells.as_slice();
        let state = Expanding {
            number,
            cells: kept,
            edges: edges.as_slice(),
            sorted: sorted.as_slice(),
        };
        self.find_new_splits(trail, &state, shared.as_slice())?;
        Ok(sorted)
    }

    /// The edges of the state with this number in the order of their cells, listed again.
    fn list_again(
        &self,
        trail: &mut Trail<M::State>,
        cells: &mut KeptCells,
        parts: &mut Parts<M::Part>,
        number: usize,
    ) -> Result<Vec<SortedEdge>, Failure<Stop>>
        requires active { IsActive M.behaviour self.now trail.old }
        requires within { number < length trail.old.states }
        requires parts { AreKeptParts (M.steps_of self.now.machine.now) trail.old.states cells.old parts.old }
        ensures edges { IfOk result (λ sorted. AreSortedEdges (M.behaviour self.now.machine.now) trail.new.states number cells.new sorted.items) }
        ensures cells { OnOk result (Stays cells.old cells.new) }
        ensures parts { OnOk result (AreKeptParts (M.steps_of self.now.machine.now) trail.new.states cells.new parts.new) }
        ensures advances { OnOk result (Advances M.behaviour self.now trail.old trail.new) }
        ensures stopped { IfErr result (IfFault (IsStopped M.behaviour self.now trail.new)) }
        ensures pairs { trail.new.pairs ≡ trail.old.pairs }
    {
        let edges = self.find_edges(trail, cells, parts, number)?;
        cells.rank(self.alloc)?;
        let sorted = sort_edges(self.alloc, cells, edges.as_slice())?;
        Ok(sorted)
    }

    /// Takes the edges of an expanded state from those that are kept, or lists them again.
    fn take_edges(
        &self,
        trail: &mut Trail<M::State>,
        worklist: &mut Worklist<M::Part>,
        number: usize,
    ) -> Result<Vec<SortedEdge>, Failure<Stop>>
        requires active { IsActive M.behaviour self.now trail.old }
        requires there { length worklist.old.expanded.items ≤ length trail.old.states }
        requires within { number < length worklist.old.expanded.items }
        requires kept { AreKeptOrNone (M.behaviour self.now.machine.now) trail.old.states worklist.old.cells worklist.old.expanded.items }
        requires parts { AreKeptParts (M.steps_of self.now.machine.now) trail.old.states worklist.old.cells worklist.old.parts }
        ensures edges { IfOk result (λ sorted. AreSortedEdges (M.behaviour self.now.machine.now) trail.new.states number worklist.new.cells sorted.items) }
        ensures work { OnOk result (StillHas (M.behaviour self.now.machine.now) (M.steps_of self.now.machine.now) trail.new.states worklist.old worklist.new) }
        ensures advances { OnOk result (Advances M.behaviour self.now trail.old trail.new) }
        ensures stopped { IfErr result (IfFault (IsStopped M.behaviour self.now trail.new)) }
        ensures pairs { trail.new.pairs ≡ trail.old.pairs }
    {
        let kept = worklist.take(self.alloc, number);
        if !kept.is_empty() {
            return Ok(kept);
        }
        let (cells, parts) = (&mut worklist.cells, &mut worklist.parts);
        let edges = self.list_again(trail, cells, parts, number)?;
        worklist.make_room(self.alloc, edges.len());
        Ok(edges)
    }

    /// Adds the successors of the pair with this number, by the edges of its state behind, which
    /// has been expanded.
    pub(crate) fn walk_queued(
        &self,
        trail: &mut Trail<M::State>,
        worklist: &mut Worklist<M::Part>,
        number: usize,
    ) -> Result<(), Failure<Stop>>
        requires active { IsActive M.behaviour self.now trail.old }
        requires there { length worklist.old.expanded.items ≤ length trail.old.states }
        requires kept { AreKeptOrNone (M.behaviour self.now.machine.now) trail.old.states worklist.old.cells worklist.old.expanded.items }
        requires parts { AreKeptParts (M.steps_of self.now.machine.now) trail.old.states worklist.old.cells worklist.old.parts }
        requires pair { (p : NumberPair) × (slice_get trail.old.pairs number ≡ Some p) × (p.behind < length worklist.old.expanded.items) }
        ensures walked { OnOk result (IsWalked (M.behaviour self.now.machine.now) trail.new.states trail.new.pairs number) }
        ensures work { OnOk result (StillHas (M.behaviour self.now.machine.now) (M.steps_of self.now.machine.now) trail.new.states worklist.old worklist.new) }
        ensures advances { OnOk result (Advances M.behaviour self.now trail.old trail.new) }
        ensures stopped { IfErr result (IfFault (IsStopped M.behaviour self.now trail.new)) }
    {
        let pair = copy_of(&trail.pairs.as_slice()[number])?;
        let behind = pair.behind as usize;
        let edges = self.take_edges(trail, worklist, behind)?;
        let cells = worklist.cells.as_slice();
        self.find_moves(trail, number, &pair, cells, edges.as_slice())?;
        worklist.put(behind, edges);
        Ok(())
    }
}

/// The edges of the state with this number; none where there is no number, or they aren't kept.
fn edges_at(expanded: &[Vec<SortedEdge>], number: Option<usize>) -> &[SortedEdge]
    ensures { result.now ≡ edges_or_none expanded.now number }
{
    match number {
        Some(number) => match expanded.get(number) {
            Some(own) => own.as_slice(),
            None => &[],
        },
        None => &[],
    }
}

/// An equal pair.
fn copy_of(pair: &Pair<u32>) -> Result<Pair<u32>, AllocError>
    ensures { IfOk result (λ copy. copy ≡ pair.now) }
{
    Ok(Pair {
        ahead: pair.ahead,
        behind: pair.behind,
        lead: pair.lead.copy()?,
    })
}

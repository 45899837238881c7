//! The edges of one state, with those that a lead can follow.
ghost use Rattle.std.specs.Prelude.{◌≡◌, ◌<◌, IfOk, Some, length, slice_get};
ghost use Rattle.brl_closure.specs.Sorted.{AreFound, SortedView};
ghost use Rattle.brl_pairs.specs.Listed.{edges_with};
ghost use Rattle.brl_pairs.specs.Shared.{AreShared};
ghost use Rattle.brl_pairs.specs.Sorted.{IsSortedOf};
ghost use Rattle.brl_pairs.specs.Splits.{AreSplits};
ghost use Rattle.brl_pairs.specs.declared.edge.Edge.{Edge as EdgeValue};
ghost use Rattle.brl_pairs.specs.declared.sorted.SortedEdge.{SortedEdge as SortedValue};

use brl_cells::{Cell, Cells};
use brl_pairs::{
    Edge, KeptCells, ListedEdge, SortedEdge, Splits, cells_at, earlier_splits, matches,
    shared_with, splits_of,
};
use std::alloc::{AllocError, Global};
use std::marker::Model;

/// The edges of a state. A contract sees them in listed order, with their cells, and in the order
/// of their cells.
#[derive(Drop)]
pub struct Sorted<'c> {
    cells: &'c KeptCells,
    edges: Vec<ListedEdge>,
    sorted: Vec<SortedEdge>,
}

impl<'c> Model for Sorted<'c> {
    ghost Value = { SortedView };

    ghost view = { λ s. record { cells = s.cells.now; edges = edges_with s.cells.now s.edges.items; sorted = s.sorted.items } };

    ghost invariant = { λ s. IsSortedOf s.cells.now (edges_with s.cells.now s.edges.items) s.sorted.items };
}

impl<'c> Sorted<'c> {
    /// The edges with these cells, which are also given in the order of their cells.
    pub fn new(cells: &'c KeptCells, edges: Vec<ListedEdge>, sorted: Vec<SortedEdge>) -> Sorted<'c>
        requires { IsSortedOf cells.now (edges_with cells.now edges.items) sorted.items }
        ensures cells { result.cells ≡ cells.now }
        ensures edges { result.edges ≡ edges_with cells.now edges.items }
    {
        Sorted {
            cells,
            edges,
            sorted,
        }
    }

    /// The edges in the order of their cells are those in listed order.
    pub fn law(&self)
        ensures { IsSortedOf self.now.cells self.now.edges self.now.sorted }
    {
        let _ = self.sorted.as_slice();
    }

    /// The number of edges.
    pub fn len(&self) -> usize
        ensures { result ≡ length self.now.edges }
    {
        self.edges.len()
    }

    /// The edges in listed order.
    pub fn listed(&self) -> &[ListedEdge] {
        self.edges.as_slice()
    }

    /// The edges in the order of their cells.
    pub fn into_sorted(self) -> Vec<SortedEdge>
        ensures { result.items ≡ self.entry.sorted }
    {
        self.sorted
    }

    /// The rule of the edge at this place of the listed order, from 0.
    pub fn rule_at(&self, place: usize) -> u32
        requires { place < length self.now.edges }
        ensures { (e : EdgeValue) → slice_get self.now.edges place ≡ Some e → result ≡ e.rule }
    {
        self.edges[place].rule
    }

    /// The number of the next state of the edge at this place of the listed order, from 0.
    pub fn next_at(&self, place: usize) -> u32
        requires { place < length self.now.edges }
        ensures { (e : EdgeValue) → slice_get self.now.edges place ≡ Some e → result ≡ e.next }
    {
        self.edges[place].next
    }

    /// The cells of the edge at this place of the listed order, from 0.
    pub fn cells_at(&self, place: usize) -> &[Cell]
        requires { place < length self.now.edges }
        ensures { (e : EdgeValue) → slice_get self.now.edges place ≡ Some e → result.now ≡ e.cells }
    {
        cells_at(self.cells.as_slice(), self.edges[place].cells)
    }

    /// The place in listed order of the edge at this position of the order of cells, from 0.
    pub fn place_at(&self, position: usize) -> usize
        requires { position < length self.now.sorted }
        ensures { (x : SortedValue) → slice_get self.now.sorted position ≡ Some x → result ≡ x.place }
    {
        self.sorted[position].place as usize
    }

    /// The edge at this place of the listed order, from 0.
    pub fn edge(&self, alloc: Global, place: usize) -> Result<Edge, AllocError>
        requires { place < length self.now.edges }
        ensures { IfOk result (λ edge. slice_get self.now.edges place ≡ Some edge) }
    {
        let listed = self.edges[place];
        let own = self.cells_at(place);
        Ok(Edge {
            rule: listed.rule,
            cells: Cells::from_slice(alloc, own)?,
            next: listed.next,
        })
    }

    /// The edges whose cells begin this lead or begin with it, by ascending place.
    pub fn matches(&self, alloc: Global, lead: &[Cell]) -> Result<Vec<SortedEdge>, AllocError>
        ensures { IfOk result (λ found. AreFound self.now.edges lead.now (length self.now.edges) found.items) }
    {
        matches(alloc, self.cells.as_slice(), self.sorted.as_slice(), lead)
    }

    /// The splits of two edges.
    pub fn splits(&self, alloc: Global) -> Result<Splits, AllocError>
        ensures { IfOk result (AreSplits self.now.cells self.now.sorted) }
    {
        splits_of(
            alloc,
            self.cells.as_slice(),
            self.sorted.as_slice(),
            self.edges.len(),
        )
    }

    /// The edges before the one at this place whose cells begin its cells or begin with them, by
    /// ascending place.
    pub fn earlier(
        &self,
        alloc: Global,
        splits: &Splits,
        place: usize,
    ) -> Result<Vec<SortedEdge>, AllocError>
        requires splits { AreSplits self.now.cells self.now.sorted splits.now }
        requires within { place < length self.now.edges }
        ensures { IfOk result (λ found. (e : EdgeValue) → slice_get self.now.edges place ≡ Some e → AreFound self.now.edges e.cells place found.items) }
    {
        earlier_splits(
            alloc,
            self.cells.as_slice(),
            self.sorted.as_slice(),
            splits,
            place,
        )
    }

    /// Of each edge, in the order of cells, whether it has one of its own among others.
    pub fn shared_with(&self, alloc: Global, others: &[SortedEdge]) -> Result<Vec<bool>, AllocError>
        ensures { IfOk result (λ shared. AreShared self.now.sorted others.now shared.items) }
    {
        shared_with(alloc, self.cells, self.sorted.as_slice(), others)
    }
}

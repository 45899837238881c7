//! The edges of a state that decide which pairs are missing: the first two of each kind.
ghost use Rattle.std.specs.Prelude.{◌≡◌, ℕ, IfOk, List, Some, slice_get};
ghost use Rattle.brl_closure.specs.Alike.{AreFirstTwo, IsCounted, number_kind};
ghost use Rattle.brl_pairs.specs.Listed.{HaveCells, edges_with};
ghost use Rattle.brl_pairs.specs.Members.{IsMember};
ghost use Rattle.brl_pairs.specs.declared.edge.ListedEdge.{ListedEdge as EdgeValue};

use crate::check::sorted::Sorted;
use brl_pairs::{Excused, KeptCells, Key, ListedEdge, Members, Seed, SortedEdge, sort_edges};
use std::alloc::{AllocError, Global};

/// What decides which pair follows an edge, and with which edges it is excused: the number of its
/// next state, that of its cells, and its rule if a pair of what is excused has it.
#[derive(PartialEq, Eq, Hash, Drop)]
struct Kind {
    next: u32,
    cells: u32,
    rule: Option<u32>,
}

impl Key for Kind {
    ghost use Rattle.brl_closure.specs.SameKind.{same_kinds};

    ghost same = { same_kinds };
}

impl Kind {
    /// The kind of an edge.
    fn of(excused: &Excused, edge: &ListedEdge) -> Kind
        ensures { result ≡ number_kind excused.now edge.now }
    {
        Kind {
            next: edge.next,
            cells: edge.cells,
            rule: if excused.names(edge.rule) {
                Some(edge.rule)
            } else {
                None
            },
        }
    }
}

/// The edges in their order, sorted by their cells, without those that have two of their kind
/// before them. Edges of one kind miss the same pairs, and are excused with the same edges, so
/// further ones tell nothing new; the second one is kept, since two edges of one kind split with
/// each other. Where no three edges have the same cells, all are kept. Kinds are found by hashes of
/// this seed. It saves time alone (DECISIONS, 'First two of a kind').
pub fn sort_first_two<'c>(
    alloc: Global,
    excused: &Excused,
    cells: &'c KeptCells,
    edges: Vec<ListedEdge>,
    seed: Seed,
) -> Result<Sorted<'c>, AllocError>
    requires { HaveCells cells.now edges.items }
    ensures first_two { IfOk result (λ sorted. AreFirstTwo excused.now (edges_with cells.now edges.items) sorted.edges) }
    ensures cells { IfOk result (λ sorted. sorted.cells ≡ cells.now) }
{
    let sorted = sort_edges(alloc, cells, edges.as_slice())?;
    if !has_three_alike(sorted.as_slice()) {
        return Ok(Sorted::new(cells, edges, sorted));
    }
    let kept = first_two_of_each_kind(alloc, excused, edges.as_slice(), seed)?;
    let sorted = sort_edges(alloc, cells, kept.as_slice())?;
    Ok(Sorted::new(cells, kept, sorted))
}

/// Whether three of these edges, which are in the order of their cells, have the same ones.
fn has_three_alike(sorted: &[SortedEdge]) -> bool {
    for place in 2..sorted.len() {
        if sorted[place - 2].cells == sorted[place].cells {
            return true;
        }
    }
    false
}

/// The edges in their order that have less than two of their kind before them.
fn first_two_of_each_kind(
    alloc: Global,
    excused: &Excused,
    edges: &[ListedEdge],
    seed: Seed,
) -> Result<Vec<ListedEdge>, AllocError>
    ensures first_two { IfOk result (λ kept. (cells : List (List ℕ)) → AreFirstTwo excused.now (edges_with cells edges.now) (edges_with cells kept.items)) }
    ensures only { IfOk result (λ kept. (place : ℕ) (e : EdgeValue) → slice_get kept.items place ≡ Some e → IsMember edges.now e) }
{
    let mut once = Members::new(alloc, seed);
    let mut twice = Members::new(alloc, seed);
    let mut kept = Vec::new(alloc);
    for edge in edges {
        if count(excused, edge, &mut once, &mut twice)? {
            kept.push(*edge)?;
        }
    }
    Ok(kept)
}

/// Counts the kind of an edge: adds it to the kinds that are there once, and where it is there to
/// those that are there twice. Whether it was added.
fn count(
    excused: &Excused,
    edge: &ListedEdge,
    once: &mut Members<Kind>,
    twice: &mut Members<Kind>,
) -> Result<bool, AllocError>
    ensures { IfOk result (IsCounted (number_kind excused.now edge.now) once.old twice.old once.new twice.new) }
{
    if once.insert(Kind::of(excused, edge))? {
        return Ok(true);
    }
    let added = twice.insert(Kind::of(excused, edge))?;
    Ok(added)
}

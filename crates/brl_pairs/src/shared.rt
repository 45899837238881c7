//! Edges that a state shares with another one. The splits of two of them are splits of the other
//! state too, so only those with an edge that isn't shared are left.
ghost use Rattle.std.specs.Prelude.{◌≡◌, ◌⊎◌, ◌<◌, ◌≤◌, Contains, IfOk, IsTrue, OnOk, Some, filter, length, not, slice_get};
ghost use Rattle.brl_pairs.specs.Shared.{AreShared, AreUnsharedSplits, IsLikeAt, IsTwoOf};
ghost use Rattle.brl_pairs.specs.Sorted.{AreAscending};
ghost use Rattle.brl_pairs.specs.declared.shared.TwoPlaces.{TwoPlaces as TwoValue};
ghost use Rattle.brl_pairs.specs.declared.sorted.SortedEdge.{SortedEdge as SortedValue};

use crate::kept_cells::KeptCells;
use crate::sorted::SortedEdge;
use crate::splits::{shorter_of, splits_at};
use brl_cells::Cells;
use std::alloc::{AllocError, Global};
use std::cmp::Reverse;

/// The places of two edges of a state in listed order, from 0.
#[derive(Clone, Copy)]
pub struct TwoPlaces {
    pub first: u32,
    pub second: u32,
}

/// Of each edge, by its place in the order of cells, whether it has one of its own among the
/// others, with the same cells and next state. Both lists are gone through once, so of edges with
/// the same cells some may be passed over.
pub fn shared_with(
    alloc: Global,
    kept: &KeptCells,
    sorted: &[SortedEdge],
    others: &[SortedEdge],
) -> Result<Vec<bool>, AllocError>
    ensures { IfOk result (λ shared. AreShared sorted.now others.now shared.items) }
{
    let mut shared = Vec::with_capacity(alloc, sorted.len())?;
    let mut next = 0usize;
    for edge in sorted {
        next = pass_before(kept, edge, others, next);
        let is_shared = is_like_at(edge, others, next);
        if is_shared {
            next += 1;
        }
        shared.push(is_shared)?;
    }
    Ok(shared)
}

/// The first position from this one on at which the edge's cells don't come after the other ones.
fn pass_before(kept: &KeptCells, edge: &SortedEdge, others: &[SortedEdge], from: usize) -> usize
    requires { from ≤ length others.now }
    ensures from { from ≤ result }
    ensures within { result ≤ length others.now }
    ensures same { (other : SortedValue) → slice_get others.now from ≡ Some other → other.cells ≡ edge.now.cells → result ≡ from }
{
    let mut next = from;
    while next < others.len() && comes_before(kept, &others[next], edge) {
        next += 1;
    }
    next
}

/// Whether the cells of the first edge are other ones than those of the second, and come before
/// them.
fn comes_before(kept: &KeptCells, one: &SortedEdge, other: &SortedEdge) -> bool
    ensures { one.now.cells ≡ other.now.cells → IsTrue result → ⊥ }
{
    one.cells != other.cells && kept.compare(one.cells, other.cells).is_lt()
}

/// Whether the edge at this position, if there is one, has the same cells and the same next state.
fn is_like_at(edge: &SortedEdge, others: &[SortedEdge], position: usize) -> bool
    ensures yes { IsTrue result → IsLikeAt others.now position edge.now }
    ensures itself { slice_get others.now position ≡ Some edge.now → IsTrue result }
{
    match others.get(position) {
        Some(other) => other.cells == edge.cells && other.next == edge.next,
        None => false,
    }
}

/// The number of edges that aren't shared.
pub fn count_unshared(shared: &[bool]) -> usize
    ensures { result ≡ length (filter not shared.now) }
{
    shared.iter().filter(|is_shared| !**is_shared).count()
}

/// The splits that have an edge which isn't shared. They ascend by the place of their second edge,
/// and those with one second edge descend by the place of the first. A split of two edges that
/// aren't shared is there twice. The edges are in the order of their cells, `shared` says of each
/// whether it is shared, and all places are below `limit`.
pub fn unshared_splits(
    alloc: Global,
    cells: &[Cells],
    sorted: &[SortedEdge],
    shared: &[bool],
    limit: u32,
) -> Result<Vec<TwoPlaces>, AllocError>
    requires ascending { AreAscending cells.now sorted.now }
    requires places { (x : SortedValue) → Contains sorted.now x → x.place < limit }
    requires count { length shared.now ≡ length sorted.now }
    ensures { IfOk result (λ splits. AreUnsharedSplits cells.now sorted.now shared.now splits.items) }
{
    let shorter = shorter_of(alloc, cells, sorted)?;
    let mut splits = Vec::new(alloc);
    for position in 0..sorted.len() {
        if !shared[position] {
            let found = splits_at(alloc, cells, sorted, shorter.as_slice(), position, limit)?;
            push_splits(sorted[position].place, found.as_slice(), &mut splits)?;
        }
    }
    splits.sort_unstable_by_key(|split| (split.second, Reverse(split.first)));
    Ok(splits)
}

/// Appends the places of an edge with each of these, the lesser one first.
fn push_splits(
    place: u32,
    found: &[SortedEdge],
    splits: &mut Vec<TwoPlaces>,
) -> Result<(), AllocError>
    ensures only { OnOk result ((split : TwoValue) → Contains splits.new.items split → Contains splits.old.items split ⊎ ((x : SortedValue) × Contains found.now x × IsTwoOf place x.place split)) }
    ensures kept { OnOk result ((split : TwoValue) → Contains splits.old.items split → Contains splits.new.items split) }
    ensures added { OnOk result ((x : SortedValue) (split : TwoValue) → Contains found.now x → IsTwoOf place x.place split → Contains splits.new.items split) }
{
    for other in found {
        push_split(place, other.place, splits)?;
    }
    Ok(())
}

/// Appends two places, the lesser one first, unless they are the same.
fn push_split(place: u32, other: u32, splits: &mut Vec<TwoPlaces>) -> Result<(), AllocError>
    ensures only { OnOk result ((split : TwoValue) → Contains splits.new.items split → Contains splits.old.items split ⊎ IsTwoOf place other split) }
    ensures kept { OnOk result ((split : TwoValue) → Contains splits.old.items split → Contains splits.new.items split) }
    ensures added { OnOk result ((split : TwoValue) → IsTwoOf place other split → Contains splits.new.items split) }
{
    if other < place {
        splits.push(TwoPlaces {
            first: other,
            second: place,
        })?;
    }
    if place < other {
        splits.push(TwoPlaces {
            first: place,
            second: other,
        })?;
    }
    Ok(())
}

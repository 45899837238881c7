//! The splits of a state, by the order of its edges. In it the cells that begin given ones form a
//! chain before them, and those that begin with them follow.
ghost use Rattle.std.specs.Prelude.{◌≡◌, ◌⊎◌, ℕ, ◌+◌, ◌<◌, ◌≤◌, Contains, IfOk, OnOk, Some, length, slice_get};
ghost use Rattle.brl_pairs.specs.Sorted.{AreAscending, BeginsWith, cells_of};
ghost use Rattle.brl_pairs.specs.Splits.{AreEarlier, AreMarks, AreOthers, ArePositions, AreShorter, AreSplits, AreWithin, IsLastShorter};
ghost use Rattle.brl_pairs.specs.declared.sorted.SortedEdge.{SortedEdge as SortedValue};

use crate::sorted::{SortedEdge, as_u32, begins_with, cells_of};
use brl_cells::Cells;
use std::alloc::{AllocError, Global};

/// Where a state's edges are in the order of their cells, and for each the last one before it whose
/// cells begin its cells.
#[derive(Drop)]
pub struct Splits {
    /// By place, the position of the edge in the order of cells.
    pub positions: Vec<u32>,
    /// By position, one more than the position of the last edge before whose cells begin these; 0
    /// if there is none.
    pub shorter: Vec<u32>,
    /// By place, whether the edge splits with another one.
    pub marks: Vec<bool>,
}

/// The position of the edge with each place.
fn positions_of(alloc: Global, sorted: &[SortedEdge], count: usize) -> Result<Vec<u32>, AllocError>
    requires { (x : SortedValue) → Contains sorted.now x → x.place < count }
    ensures { IfOk result (λ positions. ArePositions sorted.now positions.items) }
{
    let mut positions = vec![in alloc; 0u32; count]?;
    for (position, edge) in sorted.iter().enumerate() {
        let number = as_u32(position)?;
        positions[edge.place as usize] = number;
    }
    Ok(positions)
}

/// One more than the position of the last edge before this one whose cells begin its cells, from
/// those of the edges before it.
fn last_shorter(cells: &[Cells], sorted: &[SortedEdge], shorter: &[u32], position: usize) -> usize
    requires ascending { AreAscending cells.now sorted.now }
    requires shorter { AreShorter cells.now sorted.now shorter.now }
    requires known { position ≤ length shorter.now }
    requires within { position < length sorted.now }
    ensures { (x : SortedValue) → slice_get sorted.now position ≡ Some x → IsLastShorter cells.now sorted.now position (cells_of cells.now x) result }
{
    let own = cells_of(cells, &sorted[position]);
    let mut last = position;
    while last > 0 && !begins_with(own, cells_of(cells, &sorted[last - 1])) {
        last = shorter[last - 1] as usize;
    }
    last
}

/// For each edge one more than the position of the last edge before it whose cells begin its cells.
pub(crate) fn shorter_of(
    alloc: Global,
    cells: &[Cells],
    sorted: &[SortedEdge],
) -> Result<Vec<u32>, AllocError>
    requires { AreAscending cells.now sorted.now }
    ensures many { IfOk result (λ shorter. length shorter.items ≡ length sorted.now) }
    ensures shorter { IfOk result (λ shorter. AreShorter cells.now sorted.now shorter.items) }
{
    let mut shorter = Vec::with_capacity(alloc, sorted.len())?;
    for position in 0..sorted.len() {
        let last = last_shorter(cells, sorted, shorter.as_slice(), position);
        let number = as_u32(last)?;
        shorter.push(number)?;
    }
    Ok(shorter)
}

/// By place, whether an edge has another one before it whose cells begin its cells, or is the last
/// such one of another edge.
fn marks_of(
    alloc: Global,
    sorted: &[SortedEdge],
    shorter: &[u32],
    count: usize,
) -> Result<Vec<bool>, AllocError>
    requires places { (x : SortedValue) → Contains sorted.now x → x.place < count }
    requires many { length shorter.now ≡ length sorted.now }
    requires before { (k n : ℕ) → slice_get shorter.now k ≡ Some n → n ≤ k }
    ensures marks { IfOk result (λ marks. AreMarks sorted.now shorter.now marks.items) }
    ensures count { IfOk result (λ marks. length marks.items ≡ count) }
{
    let mut marks = vec![in alloc; false; count]?;
    for position in 0..sorted.len() {
        let last = shorter[position] as usize;
        if last > 0 {
            marks[sorted[position].place as usize] = true;
            marks[sorted[last - 1].place as usize] = true;
        }
    }
    Ok(marks)
}

/// The splits of edges: where each is in the order of cells, the last shorter one before it, and
/// whether it splits.
pub fn splits_of(
    alloc: Global,
    cells: &[Cells],
    sorted: &[SortedEdge],
    count: usize,
) -> Result<Splits, AllocError>
    requires ascending { AreAscending cells.now sorted.now }
    requires places { (x : SortedValue) → Contains sorted.now x → x.place < count }
    ensures { IfOk result (AreSplits cells.now sorted.now) }
{
    let positions = positions_of(alloc, sorted, count)?;
    let shorter = shorter_of(alloc, cells, sorted)?;
    let marks = marks_of(alloc, sorted, shorter.as_slice(), count)?;
    Ok(Splits {
        positions,
        shorter,
        marks,
    })
}

/// Adds an edge if its place is before this one.
fn add_earlier(found: &mut Vec<SortedEdge>, edge: SortedEdge, end: u32) -> Result<(), AllocError>
    ensures only { OnOk result ((x : SortedValue) → Contains found.new.items x → Contains found.old.items x ⊎ ((edge ≡ x) × (edge.place < end))) }
    ensures kept { OnOk result ((x : SortedValue) → Contains found.old.items x → Contains found.new.items x) }
    ensures added { OnOk result (edge.place < end → Contains found.new.items edge) }
{
    if edge.place < end {
        found.push(edge)?;
    }
    Ok(())
}

/// The edges with a place before `limit` whose cells follow those of the edge at this position and
/// begin with them.
fn earlier_longer(
    alloc: Global,
    cells: &[Cells],
    sorted: &[SortedEdge],
    position: usize,
    limit: u32,
) -> Result<Vec<SortedEdge>, AllocError>
    requires ascending { AreAscending cells.now sorted.now }
    requires within { position < length sorted.now }
    ensures { IfOk result (λ found. (y : SortedValue) → slice_get sorted.now position ≡ Some y →
        AreWithin (λ x. BeginsWith (cells_of cells.now x) (cells_of cells.now y) × (x.place < limit)) sorted.now (position + 1) (length sorted.now) found.items) }
{
    let own = cells_of(cells, &sorted[position]);
    let mut found = Vec::new(alloc);
    let mut next = position + 1;
    while next < sorted.len() && begins_with(cells_of(cells, &sorted[next]), own) {
        add_earlier(&mut found, sorted[next], limit)?;
        next += 1;
    }
    Ok(found)
}

/// The edges other than the one at this position that split with it and have a place before
/// `limit`, in no order: those whose cells begin its cells or begin with them.
pub(crate) fn splits_at(
    alloc: Global,
    cells: &[Cells],
    sorted: &[SortedEdge],
    shorter: &[u32],
    position: usize,
    limit: u32,
) -> Result<Vec<SortedEdge>, AllocError>
    requires ascending { AreAscending cells.now sorted.now }
    requires shorter { AreShorter cells.now sorted.now shorter.now }
    requires many { length shorter.now ≡ length sorted.now }
    requires within { position < length sorted.now }
    ensures { IfOk result (λ found. (y : SortedValue) → slice_get sorted.now position ≡ Some y → AreOthers cells.now sorted.now position limit y found.items) }
{
    let mut found = Vec::new(alloc);
    let mut last = shorter[position] as usize;
    while last > 0 {
        add_earlier(&mut found, sorted[last - 1], limit)?;
        last = shorter[last - 1] as usize;
    }
    let longer = earlier_longer(alloc, cells, sorted, position, limit)?;
    found.extend_from_slice(longer.as_slice())?;
    Ok(found)
}

/// The edges before the one with this place that split with it, by ascending place: those whose
/// cells begin its cells or begin with them.
pub fn earlier_splits(
    alloc: Global,
    cells: &[Cells],
    sorted: &[SortedEdge],
    splits: &Splits,
    place: usize,
) -> Result<Vec<SortedEdge>, AllocError>
    requires ascending { AreAscending cells.now sorted.now }
    requires splits { AreSplits cells.now sorted.now splits.now }
    requires there { (x : SortedValue) × Contains sorted.now x × (x.place ≡ place) }
    ensures { IfOk result (λ found. (y : SortedValue) × Contains sorted.now y × (y.place ≡ place)
        × AreEarlier cells.now sorted.now (cells_of cells.now y) place found.items) }
{
    if !splits.marks[place] {
        return Ok(Vec::new(alloc));
    }
    let position = splits.positions[place] as usize;
    let shorter = splits.shorter.as_slice();
    let limit = sorted[position].place;
    let mut found = splits_at(alloc, cells, sorted, shorter, position, limit)?;
    found.sort_unstable_by_key(|edge| edge.place);
    Ok(found)
}

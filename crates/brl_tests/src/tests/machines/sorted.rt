//! Edges in the order of their cells: those that a lead can follow, and those that split.
ghost use Rattle.std.specs.Prelude.{◌≡◌, ◌<◌, ℕ, Contains, IfOk, length, true};
ghost use Rattle.brl_pairs.specs.Listed.{HaveCells};
ghost use Rattle.brl_pairs.specs.Sorted.{AreAscending};
ghost use Rattle.brl_pairs.specs.declared.sorted.SortedEdge.{SortedEdge as SortedValue};

use brl_cells::{Cells, read_dots};
use brl_pairs::{
    KeptCells, ListedEdge, Seed, SortedEdge, TwoPlaces, as_u32, by_number, earlier_splits, matches,
    shared_with, sort_edges, splits_of, unshared_splits,
};
use brl_testing::{for_rows_of_2, for_rows_of_3};
use std::alloc::Global;
use std::fmt::Write;
use std::test::Fail;

/// The cells of edges in listed order, a lead, and the places of the edges whose cells begin it or
/// begin with it.
const MATCHES: &str = "\
1 1-12 12 1-12-1 2 1|1-12|0 1 3 5
1 1-12 12 1-12-1 2 1|1|0 1 3 5
1 1-12 12 1-12-1 2 1||0 1 2 3 4 5
1 1-12 12 1-12-1 2 1|1-12-1-2|0 1 3 5
1 1-12 12 1-12-1 2 1|1-2|0 5
1 1-12 12 1-12-1 2 1|12-1|2
1 1-12 12 1-12-1 2 1|3|
2-1 1 2-1-1 2-2 2|2-1|0 2 4
1-1 1|1-1|0 1
|1|
";

/// The cells of edges in listed order, the place of one, and the places of those before it whose
/// cells begin its cells or begin with them.
const SPLITS: &str = "\
1 1-12 12 1-12-1 2 1|0|
1 1-12 12 1-12-1 2 1|1|0
1 1-12 12 1-12-1 2 1|3|0 1
1 1-12 12 1-12-1 2 1|4|
1 1-12 12 1-12-1 2 1|5|0 1 3
2-1-1 1 2-2 2-1 2|3|0
2-1-1 1 2-2 2-1 2|4|0 2 3
1 1 1|2|0 1
";

/// The cells of a state's edges in listed order, those of another state's, and the places of the
/// splits of the first whose edges aren't both shared. `:1` after cells is the next state, which is
/// else 0. A split of two edges that aren't shared is there twice.
const UNSHARED: &str = "\
1 1-12 12|1 1-12 12|
1 1-12 12|12|0-1 0-1
1 1-12 1|1 1-12|1-2 0-2
1 1-12:1|1 1-12|0-1
1 1-12:1|1 1-12:1|
1-12 1 12|1 12|0-1
1 1|1|0-1
1 2|2|
|1|
";

/// Numbers below 10, and their places by ascending number; those of one number ascend.
const BY_NUMBER: &str = "\
2 0 1 0|1 3 2 0
0 0 0|0 1 2
5|0
9 3 3 0 9|3 1 2 0 4
|
";

/// The cells of dots: none of no dots.
fn cells_of_dots(alloc: Global, dots: &str) -> Result<Cells, Fail> {
    if dots.is_empty() {
        return Ok(Cells::new(alloc));
    }
    Ok(read_dots(alloc, dots, 16)?)
}

/// The edges with these cells, which are kept. Each leads to the state whose number is after a
/// colon, or to that with the number 0.
fn edges_of_dots(
    alloc: Global,
    kept: &mut KeptCells,
    field: &str,
) -> Result<Vec<ListedEdge>, Fail> {
    let mut edges = Vec::new(alloc);
    for word in field.split(' ') {
        if !word.is_empty() {
            let (dots, next) = word.split_once(':').unwrap_or((word, "0"));
            let cells = cells_of_dots(alloc, dots)?;
            edges.push(ListedEdge {
                rule: 0,
                cells: kept.keep(&cells, 0)?,
                next: next.parse()?,
            })?;
        }
    }
    Ok(edges)
}

/// The places of edges, with a blank between two.
fn places_text(alloc: Global, edges: &[SortedEdge]) -> Result<String, Fail> {
    let mut text = String::new(alloc);
    for edge in edges {
        if !text.is_empty() {
            text.push(' ')?;
        }
        write!(text, "{}", edge.place)?;
    }
    Ok(text)
}

/// Whether the cells of each edge are kept.
fn have_cells(kept: &KeptCells, edges: &[ListedEdge]) -> bool
    ensures { result ≡ true → HaveCells kept.now edges.now }
{
    let count = kept.as_slice().len();
    for edge in edges {
        if edge.cells as usize >= count {
            return false;
        }
    }
    true
}

/// The edges in the order of their cells. Their places are those in the list.
fn sorted_edges(
    alloc: Global,
    kept: &KeptCells,
    edges: &[ListedEdge],
) -> Result<Vec<SortedEdge>, Fail>
    ensures ascending { IfOk result (λ sorted. AreAscending kept.now sorted.items) }
    ensures places { IfOk result (λ sorted. (x : SortedValue) → Contains sorted.items x → x.place < length edges.now) }
    ensures all { IfOk result (λ sorted. (place : ℕ) → place < length edges.now → (x : SortedValue) × Contains sorted.items x × (x.place ≡ place)) }
{
    if !have_cells(kept, edges) {
        return Err(Fail::new("an edge has cells that aren't kept"));
    }
    Ok(sort_edges(alloc, kept, edges)?)
}

fn matches_text(alloc: Global, field: &str, lead: &str) -> Result<String, Fail> {
    let mut kept = KeptCells::new(alloc, Seed::of(b"cells"));
    let edges = edges_of_dots(alloc, &mut kept, field)?;
    let lead = cells_of_dots(alloc, lead)?;
    kept.rank(alloc)?;
    let sorted = sorted_edges(alloc, &kept, edges.as_slice())?;
    let cells = kept.as_slice();
    let found = matches(alloc, cells, sorted.as_slice(), lead.as_slice())?;
    places_text(alloc, found.as_slice())
}

#[test]
fn edges_that_match_a_lead(rt: HostRuntime) -> Result<(), Fail> {
    for_rows_of_3(rt.alloc(), MATCHES, matches_text)
}

fn splits_text(alloc: Global, field: &str, place: &str) -> Result<String, Fail> {
    let place = place.parse()?;
    let mut kept = KeptCells::new(alloc, Seed::of(b"cells"));
    let edges = edges_of_dots(alloc, &mut kept, field)?;
    if place >= edges.len() {
        return Err(Fail::new("there is no such edge"));
    }
    kept.rank(alloc)?;
    let sorted = sorted_edges(alloc, &kept, edges.as_slice())?;
    let cells = kept.as_slice();
    let splits = splits_of(alloc, cells, sorted.as_slice(), edges.len())?;
    let found = earlier_splits(alloc, cells, sorted.as_slice(), &splits, place)?;
    places_text(alloc, found.as_slice())
}

#[test]
fn earlier_edges_that_split(rt: HostRuntime) -> Result<(), Fail> {
    for_rows_of_3(rt.alloc(), SPLITS, splits_text)
}

/// The places of splits, with a blank between two.
fn two_places_text(alloc: Global, splits: &[TwoPlaces]) -> Result<String, Fail> {
    let mut text = String::new(alloc);
    for split in splits {
        if !text.is_empty() {
            text.push(' ')?;
        }
        write!(text, "{}-{}", split.first, split.second)?;
    }
    Ok(text)
}

fn unshared_text(alloc: Global, field: &str, others: &str) -> Result<String, Fail> {
    let mut kept = KeptCells::new(alloc, Seed::of(b"cells"));
    let edges = edges_of_dots(alloc, &mut kept, field)?;
    let others = edges_of_dots(alloc, &mut kept, others)?;
    kept.rank(alloc)?;
    let sorted = sorted_edges(alloc, &kept, edges.as_slice())?;
    let others = sorted_edges(alloc, &kept, others.as_slice())?;
    let shared = shared_with(alloc, &kept, sorted.as_slice(), others.as_slice())?;
    let limit = as_u32(edges.len())?;
    let (edges, shared) = (sorted.as_slice(), shared.as_slice());
    let splits = unshared_splits(alloc, kept.as_slice(), edges, shared, limit)?;
    two_places_text(alloc, splits.as_slice())
}

#[test]
fn splits_that_another_state_does_not_have(rt: HostRuntime) -> Result<(), Fail> {
    for_rows_of_3(rt.alloc(), UNSHARED, unshared_text)
}

fn by_number_text(alloc: Global, field: &str) -> Result<String, Fail> {
    let mut numbers = Vec::new(alloc);
    let mut edges = Vec::new(alloc);
    for word in field.split(' ') {
        if !word.is_empty() {
            let number: u32 = word.parse()?;
            if number >= 10 {
                return Err(Fail::new("the number is too high"));
            }
            edges.push(SortedEdge {
                cells: 0,
                next: 0,
                place: as_u32(numbers.len())?,
            })?;
            numbers.push(number)?;
        }
    }
    let sorted = by_number(alloc, edges.as_slice(), numbers.as_slice(), 10)?;
    places_text(alloc, sorted.as_slice())
}

#[test]
fn places_by_number(rt: HostRuntime) -> Result<(), Fail> {
    for_rows_of_2(rt.alloc(), BY_NUMBER, by_number_text)
}

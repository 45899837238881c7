//! Steps and pairs by numbers.
use brl_cells::{Cell, Cells};
use brl_pairs::{Edge, Members, Pair, Seed, is_missing, is_there, is_there_swapped};
use brl_testing::lend;
use std::alloc::Global;
use std::test::Fail;

/// A step to a state, with two cells.
fn edge(alloc: Global, next: u32, cells: &[Cell; 2]) -> Result<Edge, Fail> {
    Ok(Edge {
        rule: 0,
        cells: Cells::from_slice(alloc, cells)?,
        next,
    })
}

fn pair(alloc: Global, ahead: u32, behind: u32) -> Pair<u32> {
    Pair {
        ahead,
        behind,
        lead: Cells::new(alloc),
    }
}

/// The pair of the states 0 and 1.
fn one_pair(alloc: Global) -> Result<Members<Pair<u32>>, Fail> {
    let mut pairs = Members::new(alloc, Seed::of(b"members"));
    pairs.insert(pair(alloc, 0, 1))?;
    Ok(pairs)
}

/// The cells by which state 0 is ahead.
const LEAD: [Cell; 2] = [Cell(1), Cell(2)];

/// Whether there is no pair for a step to a state with these cells.
fn lacks_step_to(alloc: Global, pairs: &Members<Pair<u32>>, next: u32) -> Result<bool, Fail> {
    let edge = edge(alloc, next, &LEAD)?;
    Ok(is_missing(alloc, pairs, 0, &LEAD, &edge)?)
}

/// Whether the pair of two states is there.
fn has(alloc: Global, pairs: &Members<Pair<u32>>, ahead: u32, behind: u32) -> bool {
    let pair = pair(alloc, ahead, behind);
    is_there(alloc, pairs, &pair)
}

/// Whether the pair of two states in the other order is there.
fn has_swapped(alloc: Global, pairs: &Members<Pair<u32>>, ahead: u32, behind: u32) -> bool {
    let pair = pair(alloc, ahead, behind);
    is_there_swapped(alloc, pairs, &pair)
}

/// Whether the pair is found in both orders, and by the step to state 1 alone where state 0 is
/// ahead by its cells.
fn is_found(alloc: Global, pairs: &Members<Pair<u32>>) -> Result<bool, Fail> {
    let by_steps = lacks_step_to(alloc, pairs, 2)? && !lacks_step_to(alloc, pairs, 1)?;
    let in_orders = has(alloc, pairs, 1, 0) && has_swapped(alloc, pairs, 1, 0);
    Ok(by_steps && in_orders && !has_swapped(alloc, pairs, 0, 1))
}

#[test]
fn pairs_in_either_order(rt: HostRuntime) -> Result<(), Fail> {
    let alloc = rt.alloc();
    assert!(rt; lend(one_pair(alloc)?, |pairs| is_found(alloc, pairs))?);
    Ok(())
}

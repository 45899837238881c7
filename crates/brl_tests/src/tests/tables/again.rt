//! Calls in which memory may run out, each made again in the same process.
use brl_cells::{Cell, Cells, Chars};
use brl_testing::mark;
use std::alloc::{AllocError, Global};
use std::rt::Files;
use std::test::Fail;

/// Whether cells are copied.
fn are_cells_copied<R: Files>(system: &R, cells: &Cells) -> Result<bool, AllocError> {
    mark(system);
    let first = cells.copy().map_or(true, |copy| copy == *cells);
    mark(system);
    Ok(first && cells.copy()? == *cells)
}

fn are_twenty_cells_copied<R: Files>(system: &R, alloc: Global) -> Result<bool, AllocError> {
    are_cells_copied(system, &Cells::from_slice(alloc, &[Cell(1); 20])?)
}

/// Whether characters are copied.
fn are_chars_copied<R: Files>(
    system: &R,
    alloc: Global,
    chars: &Chars,
) -> Result<bool, AllocError> {
    mark(system);
    let first = chars.copy(alloc).map_or(true, |copy| copy == *chars);
    mark(system);
    Ok(first && chars.copy(alloc)? == *chars)
}

fn are_twenty_chars_copied<R: Files>(system: &R, alloc: Global) -> Result<bool, AllocError> {
    are_chars_copied(system, alloc, &Chars::from_vec(vec![in alloc; 'a'; 20]?))
}

fn are_lists_copied<R: Files>(system: &R, alloc: Global) -> Result<bool, AllocError> {
    Ok(are_twenty_cells_copied(system, alloc)? && are_twenty_chars_copied(system, alloc)?)
}

#[test]
fn copies(rt: HostRuntime) -> Result<(), Fail> {
    assert!(rt; are_lists_copied(&rt, rt.alloc())?);
    Ok(())
}

//! Machines, their states, steps and pairs.
use brl_cells::{Cell, Cells};
use brl_dues::{Due, Dues, DuesState};
use brl_pairs::{Advanced, Machine, Pair, Step, advance};
use brl_table::Table;
use brl_testing::table_of;
use brl_window::{TooWide, Window, WindowState};
use std::alloc::{AllocError, Global};
use std::test::Fail;

/// How many steps the start of a machine has.
fn steps_of<M: Machine>(alloc: Global, machine: &M) -> Result<usize, AllocError> {
    let steps: Vec<Step<M::State>> = machine.moves(alloc, &machine.start())?;
    Ok(steps.len())
}

/// Whether the start of a machine is final, and has this many steps.
fn begins<M: Machine>(alloc: Global, machine: &M, steps: usize) -> Result<bool, Fail> {
    Ok(machine.ends(&machine.start()) && steps_of(alloc, machine)? == steps)
}

fn is_still(advanced: Advanced<'_>, rest: &[Cell]) -> bool {
    match advanced {
        Advanced::Still(left) => left == rest,
        Advanced::Swapped(_) => false,
        Advanced::Apart => false,
    }
}

fn has_no_lead(pair: &Pair<u32>) -> bool {
    pair.ahead == 0 && pair.behind == 1 && pair.lead.is_empty()
}

fn are_pairs(alloc: Global) -> bool {
    let lead = [Cell(1), Cell(2)];
    let pair = Pair {
        ahead: 0,
        behind: 1,
        lead: Cells::new(alloc),
    };
    is_still(advance(&lead, &[Cell(1)]), &[Cell(2)]) && has_no_lead(&pair)
}

fn is_copied(alloc: Global, start: &WindowState) -> Result<bool, Fail> {
    Ok(start.copy(alloc)? == *start)
}

fn has_windows(alloc: Global, table: &Table) -> Result<bool, Fail> {
    let window: Result<Window<'_>, TooWide> = Window::new(alloc, table);
    match &window {
        Ok(window) => Ok(begins(alloc, window, 2)? && is_copied(alloc, &window.start())?),
        Err(_) => Ok(false),
    }
}

fn owes_nothing(alloc: Global, start: &DuesState) -> Result<bool, Fail> {
    let owed: &[Due] = start.dues.as_slice();
    Ok(owed.is_empty() && start.copy(alloc)? == *start)
}

fn has_dues(alloc: Global, table: &Table) -> Result<bool, Fail> {
    let dues = Dues::new(alloc, table);
    Ok(begins(alloc, &dues, 1)? && owes_nothing(alloc, &dues.start())?)
}

fn are_reached(alloc: Global) -> Result<bool, Fail> {
    let table = table_of(alloc, "letter a 1")?;
    Ok(are_pairs(alloc) && has_windows(alloc, &table)? && has_dues(alloc, &table)?)
}

#[test]
fn calls_of_machines(rt: HostRuntime) -> Result<(), Fail> {
    assert!(rt; are_reached(rt.alloc())?);
    Ok(())
}

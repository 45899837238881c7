//! Calls in which memory may run out, each made again in the same process.
use crate::tests::machines::dues::{STEPS_OF_WORDS, WORDS, are_copied, are_steps};
use crate::tests::machines::window::{ONE_LETTER, has_steps_of_one_letter};
use brl_rules::Table;
use brl_testing::{mark, with_table};
use brl_window::Window;
use std::alloc::{AllocError, Global};
use std::rt::Files;
use std::test::Fail;

/// Whether the states after the steps of a table's start are copied, and it has its steps.
fn has_steps<R: Files>(system: &R, alloc: Global, table: &Table) -> Result<bool, Fail> {
    mark(system);
    let first = are_copied(alloc, table).unwrap_or(true);
    mark(system);
    Ok(first && are_copied(alloc, table)? && are_steps(alloc, table, STEPS_OF_WORDS)?)
}

#[test]
fn moves_of_dues(rt: HostRuntime) -> Result<(), Fail> {
    let alloc = rt.alloc();
    assert!(rt; with_table(alloc, WORDS, |table| has_steps(&rt, alloc, table))?);
    Ok(())
}

/// Whether a window machine has the moves of the table of one letter, and copies of its states.
fn has_moves<R: Files>(system: &R, alloc: Global, window: &Window) -> Result<bool, AllocError> {
    mark(system);
    let first = has_steps_of_one_letter(alloc, window).unwrap_or(true);
    mark(system);
    Ok(first && has_steps_of_one_letter(alloc, window)?)
}

fn has_machine<R: Files>(system: &R, alloc: Global, table: &Table) -> Result<bool, Fail> {
    Ok(has_moves(system, alloc, &Window::new(alloc, table)?)?)
}

#[test]
fn moves_of_windows(rt: HostRuntime) -> Result<(), Fail> {
    let alloc = rt.alloc();
    assert!(rt; with_table(alloc, ONE_LETTER, |table| has_machine(&rt, alloc, table))?);
    Ok(())
}

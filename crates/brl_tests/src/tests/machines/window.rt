//! Worked steps of window machines.
use brl_cells::{Cell, Chars};
use brl_pairs::{Machine, Step};
use brl_rules::{Class, Table};
use brl_states::WindowState;
use brl_testing::{for_rows_of_3, with_table};
use brl_window::Window;
use std::alloc::{AllocError, Global};
use std::fmt::Write;
use std::test::Fail;

/// The table of one letter.
pub const ONE_LETTER: &str = "letter a 1";

/// Whether a state is after a letter outside of numeric mode, and knows these characters.
fn is_after_letter(state: &WindowState, ended: bool, coming: &[char]) -> bool {
    state.before == Class::LETTER
        && !state.numeric
        && !state.run
        && state.ended == ended
        && state.coming.as_slice() == coming
}

/// Whether a step reads `a`, by rule 0, with cell 1.
fn reads_a(step: &Step<WindowState>) -> bool {
    step.rule == 0
        && step.reads.as_slice() == ['a'].as_slice()
        && step.cells.as_slice() == [Cell(1)].as_slice()
}

/// Whether these are the two steps of the start in the table of one letter.
fn are_steps_of_one_letter(steps: &[Step<WindowState>]) -> bool {
    match steps {
        [last, other] => {
            reads_a(last)
                && is_after_letter(&last.next, true, &[])
                && reads_a(other)
                && is_after_letter(&other.next, false, &['a'])
        }
        _ => false,
    }
}

/// Whether a copy of a state is equal to it.
fn is_copied(alloc: Global, state: &WindowState) -> Result<bool, AllocError> {
    Ok(state.copy(alloc)? == *state)
}

/// Whether each next state is equal to its copy, and ends as it knows.
fn are_copied(
    alloc: Global,
    window: &Window,
    steps: &[Step<WindowState>],
) -> Result<bool, AllocError> {
    for step in steps {
        if !is_copied(alloc, &step.next)? || window.ends(&step.next) != step.next.ended {
            return Ok(false);
        }
    }
    Ok(true)
}

/// Whether the start of a window machine has the steps of the table of one letter, and copies are
/// equal.
pub fn has_steps_of_one_letter(alloc: Global, window: &Window) -> Result<bool, AllocError> {
    let start = window.start();
    let steps = window.moves(alloc, &start)?;
    Ok(
        are_steps_of_one_letter(steps.as_slice())
            && is_copied(alloc, &start)?
            && are_copied(alloc, window, steps.as_slice())?,
    )
}

fn is_window_of_one_letter(alloc: Global, table: &Table) -> Result<bool, Fail> {
    Ok(has_steps_of_one_letter(alloc, &Window::new(alloc, table)?)?)
}

#[test]
fn steps_of_one_letter(rt: HostRuntime) -> Result<(), Fail> {
    let alloc = rt.alloc();
    let has_steps = with_table(
        alloc,
        ONE_LETTER,
        |table| is_window_of_one_letter(alloc, table),
    )?;
    assert!(rt; has_steps);
    Ok(())
}

/// How many characters a table has, the length of its rule, 0 where it has none, and how many moves
/// the start of its window machine has.
const MOVES: &str = "\
4|5|5460
4|6|too wide
99|0|9900
100|0|too wide
0|0|0
";

/// The lines of a table of a blank and letters, `characters` in all, with a rule of `rule` times
/// `a`.
fn lines_of_table(alloc: Global, characters: u32, rule: usize) -> Result<String, Fail> {
    let mut lines = String::from_str(alloc, "#")?;
    for number in 0..characters {
        if number == 0 {
            lines.push_str("; space \\s 1")?;
        } else {
            write!(lines, "; letter \\x{:04x} 1", number.saturating_add(96))?;
        }
    }
    if rule > 0 {
        write!(lines, "; always {:a>rule$} 145", "")?;
    }
    Ok(lines)
}

fn count_moves(alloc: Global, table: &Table) -> Result<String, Fail> {
    let Ok(window) = Window::new(alloc, table) else {
        return Ok(String::from_str(alloc, "too wide")?);
    };
    let moves = window.moves(alloc, &window.start())?;
    Ok(format!(in alloc; "{}", moves.len())?)
}

/// How many moves the start of the window machine of a table has, and whether there is one.
fn moves_of(alloc: Global, characters: &str, rule: &str) -> Result<String, Fail> {
    let lines = lines_of_table(alloc, characters.parse()?, rule.parse()?)?;
    with_table(alloc, lines.as_str(), |table| count_moves(alloc, table))
}

#[test]
fn moves_of_the_start(rt: HostRuntime) -> Result<(), Fail> {
    for_rows_of_3(rt.alloc(), MOVES, moves_of)
}

/// The characters that a state knows, whether its text ends after them, and how many steps it has
/// in the table of one letter.
const KNOWN: &str = "\
|ends|0
a|ends|1
|goes on|2
a|goes on|2
aaa|goes on|1
za|goes on|0
";

/// A state at the start of a text.
fn state_of(alloc: Global, coming: &str, ended: bool) -> Result<WindowState, Fail> {
    Ok(WindowState {
        before: Class::SPACE,
        numeric: false,
        run: false,
        ended,
        coming: Chars::from_vec(coming.chars().collect(alloc)?),
    })
}

/// How many steps a state has in a table.
fn count_steps(alloc: Global, table: &Table, state: &WindowState) -> Result<String, Fail> {
    let window = Window::new(alloc, table)?;
    let steps = window.moves(alloc, state)?;
    Ok(format!(in alloc; "{}", steps.len())?)
}

fn steps_of(alloc: Global, coming: &str, end: &str) -> Result<String, Fail> {
    let state = state_of(alloc, coming, end == "ends")?;
    with_table(alloc, ONE_LETTER, |table| count_steps(alloc, table, &state))
}

#[test]
fn steps_of_any_state(rt: HostRuntime) -> Result<(), Fail> {
    for_rows_of_3(rt.alloc(), KNOWN, steps_of)
}

//! The steps of a state.
ghost use Rattle.std.specs.Prelude.{◌≡◌, ◌<◌, ◌≤◌, ◌++◌, length, IfOk, OnOk};
ghost use Rattle.std.specs.List.{flat_map};
ghost use Rattle.std.specs.Map.{keys_of};
ghost use Rattle.brl_window.specs.Windows.{by_rule_number, longest, steps_at, steps_found, window_step, windows_on};

use brl_cells::{Cells, Chars};
use brl_pairs::Step;
use brl_rules::{Context, Table, rank_law};
use brl_states::WindowState;
use std::alloc::{AllocError, Global};

/// The length of the longest rule, which is the first in rank, or 1 where there is no rule.
pub fn longest_rule(table: &Table) -> usize
    ensures longest { result ≡ longest table.now.rules }
    ensures short { result ≤ 32 }
{
    table.law();
    rank_law();
    match table.rules_in_rank().first() {
        Some(rule) => rule.chars.len(),
        None => 1,
    }
}

/// The steps of a state, in the order of its windows.
pub fn find_steps(
    alloc: Global,
    table: &Table,
    state: &WindowState,
) -> Result<Vec<Step<WindowState>>, AllocError>
    ensures { IfOk result (λ found. found.items ≡ steps_found table.now state.now) }
{
    let here = state.context();
    let mut found = Vec::new(alloc);
    let coming = state.coming.as_slice();
    if state.ended {
        push_step(alloc, table, here, coming, true, &mut found)?;
        return Ok(found);
    }
    let more = (longest_rule(table) + 1).saturating_sub(coming.len());
    let mut known = Vec::from_slice(alloc, coming)?;
    push_steps(alloc, table, here, more, &mut known, &mut found)?;
    Ok(found)
}

/// Appends the steps of the windows that extend what is known by up to `more` characters.
fn push_steps(
    alloc: Global,
    table: &Table,
    here: Context,
    more: usize,
    known: &mut Vec<char>,
    found: &mut Vec<Step<WindowState>>,
) -> Result<(), AllocError>
    ensures known { OnOk result (known.new.items ≡ known.old.items) }
    ensures found { OnOk result (found.new.items ≡ found.old.items
        ++ flat_map (steps_at table.now here) (windows_on (keys_of table.now.characters) more known.old.items)) }
{
    if more == 0 {
        return push_step(alloc, table, here, known.as_slice(), false, found);
    }
    push_step(alloc, table, here, known.as_slice(), true, found)?;
    for number in 0..table.char_count() {
        known.push(table.char_at(number as u32))?;
        push_steps(alloc, table, here, more - 1, known, found)?;
        known.pop();
    }
    Ok(())
}

/// Appends the step of a window, if it has one.
fn push_step(
    alloc: Global,
    table: &Table,
    here: Context,
    known: &[char],
    ended: bool,
    found: &mut Vec<Step<WindowState>>,
) -> Result<(), AllocError>
    ensures { OnOk result (found.new.items ≡ found.old.items
        ++ steps_at table.now here (record { known = known.now; ended = ended })) }
{
    let Some(first) = known.first() else {
        return Ok(());
    };
    if table.info(*first).is_none() {
        return Ok(());
    }
    let step = step_of(alloc, table, here, known, ended)?;
    found.push(step)?;
    Ok(())
}

/// The step of a window that knows a character.
fn step_of(
    alloc: Global,
    table: &Table,
    here: Context,
    known: &[char],
    ended: bool,
) -> Result<Step<WindowState>, AllocError>
    requires { 0 < length known.now }
    ensures { IfOk result (λ step. step ≡ window_step table.now here (record { known = known.now; ended = ended })) }
{
    let choice = table.choice(here.classes, known);
    let (reads, coming) = known.split_at(choice.taken);
    let behind = table.context_after(here, reads);
    let mut cells = Vec::new(alloc);
    let run = table.is_in_caps_run(here.classes, known);
    table.push_indicators(here, run, known, &mut cells)?;
    cells.extend_from_slice(choice.cells)?;
    Ok(Step {
        rule: choice.number,
        reads: chars(alloc, reads)?,
        cells: Cells::from_slice(alloc, cells.as_slice())?,
        next: WindowState::from_context(behind, ended, chars(alloc, coming)?),
    })
}

/// The characters of a slice.
fn chars(alloc: Global, slice: &[char]) -> Result<Chars, AllocError>
    ensures { IfOk result (λ chars. chars ≡ slice.now) }
{
    Ok(Chars::from_vec(Vec::from_slice(alloc, slice)?))
}

/// Sorts steps by rule number; steps of one rule keep their order.
pub fn sort_steps(steps: &mut Vec<Step<WindowState>>) -> Result<(), AllocError>
    ensures { OnOk result (steps.new.items ≡ by_rule_number steps.old.items) }
{
    steps.sort_by(|a, b| a.rule.cmp(&b.rule))?;
    Ok(())
}

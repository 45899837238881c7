//! A walk over a text: the steps of its translation, one at a time.
ghost use Rattle.std.specs.Prelude.{◌≡◌, ◌+◌, ◌<◌, ◌≤◌, ◌++◌, drop, length, IfNone, IfOk, IfSome, IsTrue, OnOk};
ghost use Rattle.brl_rules.specs.Infos.{AreInfosOf};
ghost use Rattle.brl_rules.specs.Translation.{translation};
ghost use Rattle.brl_forward.specs.Trace.{trace_of};
ghost use Rattle.brl_forward.specs.Walk.{IsAt, Takes};

use crate::Traced;
use brl_cells::{Cell, Cells};
use brl_rules::{Context, Info, Table, choice_laws, translation_laws};
use std::alloc::{AllocError, Global};

/// A position of a text, from 0, and what it knows of the characters before it.
#[derive(Clone, Copy)]
struct Position {
    here: Context,
    start: usize,
}

impl Position {
    /// The start of a text.
    const START: Position = Position {
        here: Context::START,
        start: 0,
    };
}

/// A step that was taken: the position after it, the number of its rule, and how many cells there
/// were before it and after its indicators.
#[derive(Clone, Copy)]
struct Taken {
    next: Position,
    rule: u32,
    before: usize,
    after_signs: usize,
}

/// Takes the steps of a text to its end, given the infos of its characters. It appends their cells,
/// and the steps where it `traces` them.
pub fn walk(
    alloc: Global,
    table: &Table,
    text: &[char],
    infos: &[&Info],
    traces: bool,
    cells: &mut Vec<Cell>,
    steps: &mut Vec<Traced>,
) -> Result<(), AllocError>
    requires { AreInfosOf table.now text.now infos.now }
    ensures cells { OnOk result (cells.new.items ≡ cells.old.items ++ translation table.now text.now) }
    ensures steps { OnOk result (IsTrue traces → steps.new.items ≡ steps.old.items ++ trace_of table.now text.now) }
{
    choice_laws();
    translation_laws();
    let mut at = Position::START;
    while let Some(step) = take_step(table, text, infos, at, cells)? {
        if traces {
            steps.push(traced_step(alloc, at.start, step, cells.as_slice())?)?;
        }
        at = step.next;
    }
    Ok(())
}

/// Takes the step at a position, and appends its cells: those of the indicators, then those of the
/// rule that is chosen there. `None` at the end of the text.
fn take_step(
    table: &Table,
    text: &[char],
    infos: &[&Info],
    at: Position,
    cells: &mut Vec<Cell>,
) -> Result<Option<Taken>, AllocError>
    requires infos { AreInfosOf table.now text.now infos.now }
    requires at { IsAt table.now text.now at }
    ensures taken { IfOk result (λ step. IfSome step (Takes table.now text.now at cells.old.items cells.new.items)) }
    ensures end { IfOk result (λ step. IfNone step ((length text.now ≤ at.start) × (cells.new.items ≡ cells.old.items))) }
{
    choice_laws();
    translation_laws();
    let Some(info) = infos.get(at.start) else {
        return Ok(None);
    };
    let rest = &text[at.start..];
    let run = table.is_in_caps_run_of(info, at.here.classes, rest);
    let before = cells.len();
    table.push_indicators_of(at.here, run, info, cells)?;
    let after_signs = cells.len();
    let choice = table.choice_of(info, run, at.here.classes, rest);
    append(choice.cells, cells)?;
    let start = at.start + choice.taken;
    // Most steps take one character.
    let here = if choice.taken == 1 {
        table.context_after_info(at.here, info)
    } else {
        table.context_after_infos(at.here, &infos[at.start..start])
    };
    Ok(Some(Taken {
        next: Position { here, start },
        rule: choice.number,
        before,
        after_signs,
    }))
}

/// A step that was taken at a position, with its cells, which are the last ones of these.
fn traced_step(
    alloc: Global,
    start: usize,
    step: Taken,
    cells: &[Cell],
) -> Result<Traced, AllocError>
    requires start { start < step.next.start }
    requires signs { step.before ≤ step.after_signs }
    requires cells { step.before ≤ length cells.now }
    ensures start { IfOk result (λ traced. traced.start ≡ start) }
    ensures rule { IfOk result (λ traced. traced.rule ≡ step.rule) }
    ensures length { IfOk result (λ traced. start + traced.length ≡ step.next.start) }
    ensures indicators { IfOk result (λ traced. step.before + traced.indicators ≡ step.after_signs) }
    ensures cells { IfOk result (λ traced. traced.cells ≡ drop step.before cells.now) }
{
    Ok(Traced {
        start,
        rule: step.rule,
        length: step.next.start - start,
        indicators: step.after_signs - step.before,
        cells: Cells::from_slice(alloc, &cells[step.before..])?,
    })
}

/// Appends cells, which are few.
fn append(more: &[Cell], cells: &mut Vec<Cell>) -> Result<(), AllocError>
    ensures { OnOk result (cells.new.items ≡ cells.old.items ++ more.now) }
{
    if cells.capacity() < cells.len() + more.len() {
        cells.reserve(more.len())?;
    }
    for cell in more {
        cells.push_reserved(*cell);
    }
    Ok(())
}

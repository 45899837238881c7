//! One step: what it takes, and what is due after it.
ghost use Rattle.std.specs.Prelude.{◌≡◌, [], ◌∷◌, ◌++◌, All, IfOk, IsTrue, OnOk, Some};
ghost use Rattle.std.specs.Option.{option_map_or};
ghost use Rattle.brl_rules.specs.Indicators.{indicators_before};
ghost use Rattle.brl_states.specs.DuesContext.{context_of};
ghost use Rattle.brl_rules.specs.declared.place.Cond.TheVariants.{Any};
ghost use Rattle.brl_dues.specs.Capitals.{further};
ghost use Rattle.brl_dues.specs.Carry.{gathered};
ghost use Rattle.brl_dues.specs.Letters.{left_past, left_with, letter_step, next_step};
ghost use Rattle.brl_states.specs.Order.{is_proper};
ghost use Rattle.brl_dues.specs.Steps.{step_of as step_by};

use crate::carry::{add_bars, add_need, dues_past};
use crate::origin::Origin;
use brl_cells::{Cell, Cells, Chars};
use brl_pairs::Step;
use brl_rules::Cond;
use brl_states::{Due, DueList, DuesState};
use std::alloc::{AllocError, Global};

/// What a step takes with a character: the number of a rule, whether it begins in a run of
/// capitals, the other characters that it reads, its condition on the character after these, and
/// its cells without indicators.
#[derive(Clone, Copy)]
pub struct Taken<'a> {
    pub number: u32,
    pub run: bool,
    pub others: &'a [char],
    pub after: Cond,
    pub cells: &'a [Cell],
}

/// The step that takes this. `None` where it can't be taken so, or breaks a due.
pub fn step_with(
    alloc: Global,
    origin: &Origin<'_>,
    taken: Taken<'_>,
) -> Result<Option<Step<DuesState>>, AllocError>
    ensures { IfOk result (λ step. option_map_or (λ x. x ∷ []) step []
        ≡ letter_step origin.now.table.now origin.now.state.now origin.now.letter.now taken.entry.number taken.entry.run taken.entry.others.now taken.entry.after taken.entry.cells.now) }
{
    let Some(next) = what_follows(origin, taken) else {
        return Ok(None);
    };
    let reads = reads_of(alloc, origin, taken)?;
    let bars = origin.letter.bars();
    let Some(left) = dues_past(alloc, origin.table.table(), reads.as_slice(), bars)? else {
        return Ok(None);
    };
    finish_step(alloc, origin, taken, next, reads, left)
}

/// What must follow what a step reads so that it begins in a run of capitals, or out of one.
pub fn what_follows(origin: &Origin<'_>, taken: Taken<'_>) -> Option<Cond>
    ensures { result ≡ further origin.now.table.now origin.now.state.now.before taken.entry.run (origin.now.letter.now.character ∷ taken.entry.others.now) }
{
    let character = origin.letter.character();
    origin
        .table
        .further(origin.state.before, taken.run, character, taken.others)
}

/// The characters that a step reads.
pub fn reads_of(
    alloc: Global,
    origin: &Origin<'_>,
    taken: Taken<'_>,
) -> Result<Vec<char>, AllocError>
    ensures { IfOk result (λ reads. reads.items ≡ origin.now.letter.now.character ∷ taken.entry.others.now) }
{
    let mut reads = Vec::with_capacity(alloc, taken.others.len() + 1)?;
    reads.push(origin.letter.character())?;
    reads.extend_from_slice(taken.others)?;
    Ok(reads)
}

/// The step that takes this, reads these characters and asks this of the next one, where `left` is
/// what is left of the letter's bars after these. `None` where it can't meet what it owes.
pub fn finish_step(
    alloc: Global,
    origin: &Origin<'_>,
    taken: Taken<'_>,
    next: Cond,
    reads: Vec<char>,
    left: Vec<Due>,
) -> Result<Option<Step<DuesState>>, AllocError>
    requires reads { reads.items ≡ origin.now.letter.now.character ∷ taken.others.now }
    requires left { left_past origin.now.table.now reads.items origin.now.letter.now.bars ≡ Some left.items }
    requires proper { All (λ due. IsTrue (is_proper due)) left.items }
    ensures { IfOk result (λ step. option_map_or (λ x. x ∷ []) step []
        ≡ next_step origin.now.table.now origin.now.state.now origin.now.letter.now taken.entry.number taken.entry.run taken.entry.others.now taken.entry.after taken.entry.cells.now next) }
{
    let Some(dues) = next_dues(alloc, origin, taken, next, left)? else {
        return Ok(None);
    };
    Ok(Some(step_of(alloc, origin, taken, reads, dues)?))
}

/// The dues after the step that takes this and asks this of the next character, where `left` is
/// what is left of the letter's bars. `None` where one is broken.
fn next_dues(
    alloc: Global,
    origin: &Origin<'_>,
    taken: Taken<'_>,
    next: Cond,
    left: Vec<Due>,
) -> Result<Option<DueList>, AllocError>
    requires { All (λ due. IsTrue (is_proper due)) left.items }
    ensures { IfOk result (λ dues. dues ≡ gathered (left_with origin.now.table.now origin.now.state.now.before left.items origin.now.letter.now taken.entry.run next taken.entry.others.now taken.entry.after)) }
{
    let mut found = left;
    make_room(origin, taken, &mut found)?;
    add_need(taken.after, &mut found)?;
    add_need(next, &mut found)?;
    let above = origin.letter.above();
    if !add_bars(
        alloc,
        origin.table,
        origin.state.before,
        origin.letter.character(),
        taken.run,
        taken.others,
        above,
        &mut found,
    )? {
        return Ok(None);
    }
    Ok(Some(DueList::in_order(found)))
}

/// Makes room for the dues of a step that reads one character: each rule above leaves one.
fn make_room(origin: &Origin<'_>, taken: Taken<'_>, found: &mut Vec<Due>) -> Result<(), AllocError>
    ensures { OnOk result (found.new.items ≡ found.old.items) }
{
    if taken.others.is_empty() {
        found.reserve(origin.letter.above().all().len())?;
    }
    Ok(())
}

/// The step that takes this and reads these characters, with the dues after it.
fn step_of(
    alloc: Global,
    origin: &Origin<'_>,
    taken: Taken<'_>,
    reads: Vec<char>,
    dues: DueList,
) -> Result<Step<DuesState>, AllocError>
    ensures { IfOk result (λ step. step ≡ step_by origin.now.table.now origin.now.state.now (record {
      number = taken.entry.number;
      reads = reads.items;
      run = taken.entry.run;
      next = Any;
      after = taken.entry.after;
      cells = taken.entry.cells.now;
      above = [];
    }) dues) }
{
    let here = origin.state.context();
    let behind = origin.table.context_behind(here, reads.as_slice());
    let cells = cells_of(alloc, origin, taken, reads.as_slice())?;
    Ok(Step {
        rule: taken.number,
        reads: Chars::from_vec(reads),
        cells,
        next: DuesState::from_context(behind, dues),
    })
}

/// The cells of a step: its indicators, which most steps have none of, then those of its origin.
fn cells_of(
    alloc: Global,
    origin: &Origin<'_>,
    taken: Taken<'_>,
    reads: &[char],
) -> Result<Cells, AllocError>
    ensures { IfOk result (λ cells. cells ≡ indicators_before origin.now.table.now (context_of origin.now.state.now) taken.entry.run reads.now ++ taken.entry.cells.now) }
{
    let mut cells = Vec::new(alloc);
    let here = origin.state.context();
    let table = origin.table.table();
    table.push_indicators(here, taken.run, reads, &mut cells)?;
    if cells.is_empty() {
        return Cells::from_slice(alloc, taken.cells);
    }
    cells.extend_from_slice(taken.cells)?;
    Cells::from_slice(alloc, cells.as_slice())
}

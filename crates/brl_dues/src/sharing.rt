//! What states share: the steps of their base. What a state's dues do to these is found by what is
//! due, and by what a step reads and owes.
ghost use Rattle.std.specs.Prelude.{◌≡◌, ◌<◌, All, filter, IfOk, IfSome, IsTrue, Some, get_or, length, map, option_copied, option_map, slice_get};
ghost use Rattle.std.specs.List.{list_any};
ghost use Rattle.brl_pairs.specs.Based.{meeting};
ghost use Rattle.brl_rules.specs.declared.place.Cond.TheVariants.{Any};
ghost use Rattle.brl_states.specs.Order.{AreDues, due_chars, is_proper};
ghost use Rattle.brl_states.specs.contracts.due.DuePartialEq.TheImpl.{eq-value};
ghost use Rattle.brl_states.specs.declared.due.Due.TheVariants.{Need as NeedValue};
ghost use Rattle.brl_dues.specs.Contexts.{base_of as base_in, is_bar, lets_through, new_to as not_owed};
ghost use Rattle.brl_dues.specs.Letters.{left_past};
ghost use Rattle.brl_dues.specs.Sharing.{bar_chars, gate_number, opens_number, owing_more, past_bars};

use crate::carry::{add, carry, class_of};
use crate::letter::bars_of;
use crate::parts::asked_of;
use brl_cells::Chars;
use brl_pairs::Past;
use brl_rules::{Class, Table, holds};
use brl_states::{Due, DueList, DuesState, copy_dues};
use std::alloc::{AllocError, Global};

/// The base of a state.
pub fn base_of(alloc: Global, table: &Table, state: &DuesState) -> DuesState
    ensures { result ≡ base_in table.now state.now }
{
    DuesState::from_context(asked_of(table, state.context()), DueList::new(alloc))
}

/// The gate of a step that reads these characters.
pub fn gate_of(table: &Table, reads: &[char]) -> u8
    ensures { result ≡ gate_number table.now reads.now }
{
    match reads.first() {
        Some(first) => class_of(table, *first).0,
        None => Class::SPACE.0,
    }
}

/// Whether a state opens a gate.
pub fn opens(state: &DuesState, gate: u8) -> bool
    ensures { result ≡ opens_number state.now gate }
{
    let classes = Class(gate);
    state
        .dues
        .as_slice()
        .iter()
        .all(|due| is_let_through(due, classes))
}

/// Whether a due lets a character of these classes in; a bar always does.
fn is_let_through(due: &Due, classes: Class) -> bool
    ensures { result ≡ lets_through classes due.now }
{
    match due {
        Due::Need(cond) => holds(*cond, classes),
        Due::Bar(_, _) => true,
    }
}

/// The characters of the bar with this number among some dues, from 0.
pub fn bar_at(dues: &[Due], number: usize) -> Option<&Chars>
    requires { AreDues dues.now }
    ensures { option_copied result ≡ slice_get (map due_chars (filter is_bar dues.now)) number }
{
    match bars_of(dues).get(number) {
        Some(bar) => chars_of(bar),
        None => None,
    }
}

/// The characters of a bar.
fn chars_of(bar: &Due) -> Option<&Chars>
    ensures { IsTrue (is_bar bar.now) → option_copied result ≡ Some (due_chars bar.now) }
{
    match bar {
        Due::Bar(chars, _) => Some(chars),
        Due::Need(_) => None,
    }
}

/// What the bars of a state leave past a step that reads these characters, and that owes what its
/// next state has. `met` has the numbers of the bars that meet the characters; the others are
/// settled.
pub fn past(
    alloc: Global,
    table: &Table,
    state: &DuesState,
    met: &[u32],
    reads: &[char],
    next: &DuesState,
) -> Result<Past<DueList>, AllocError>
    requires { met.now ≡ meeting (bar_chars state.now) reads.now }
    ensures { IfOk result (λ past. past ≡ past_bars table.now state.now reads.now next.now) }
{
    let bars = bars_of(state.dues.as_slice());
    let Some(left) = left_of_bars(alloc, table, bars, met, reads)? else {
        return Ok(Past::Broken);
    };
    let more = new_to(next.dues.as_slice(), left);
    if more.is_empty() {
        return Ok(Past::Same);
    }
    Ok(Past::More(DueList::in_order(more)))
}

/// What is left, past these characters, of the bars with these numbers. `None` where one is broken.
fn left_of_bars(
    alloc: Global,
    table: &Table,
    bars: &[Due],
    met: &[u32],
    reads: &[char],
) -> Result<Option<Vec<Due>>, AllocError>
    requires within { All (λ number. number < length bars.now) met.now }
    requires proper { All (λ due. IsTrue (is_proper due)) bars.now }
    ensures left { IfOk result (λ left. option_map (λ l. l.items) left ≡ left_past table.now reads.now (map (λ number. get_or bars.now number (NeedValue Any)) met.now)) }
    ensures proper { IfOk result (λ left. IfSome left (λ l. All (λ due. IsTrue (is_proper due)) l.items)) }
{
    let mut left = Vec::new(alloc);
    for number in met {
        let bar = &bars[*number as usize];
        if !add(carry(alloc, table, reads, bar)?, &mut left)? {
            return Ok(None);
        }
    }
    Ok(Some(left))
}

/// What is left of some dues without those that are owed anyway.
fn new_to(owed: &[Due], left: Vec<Due>) -> Vec<Due>
    requires { All (λ due. IsTrue (is_proper due)) left.items }
    ensures new { result.items ≡ not_owed owed.now left.items }
    ensures proper { All (λ due. IsTrue (is_proper due)) result.items }
{
    let mut new = left;
    new.retain(|due| !is_owed(owed, due));
    new
}

/// Whether a due is one of those that are owed.
fn is_owed(owed: &[Due], due: &Due) -> bool
    ensures { result ≡ list_any (eq-value.it due.now) owed.now }
{
    owed.iter().any(|other| due == other)
}

/// The state with more dues.
pub fn with_dues(alloc: Global, next: &DuesState, more: &DueList) -> Result<DuesState, AllocError>
    ensures { IfOk result (λ state. state ≡ owing_more next.now more.now) }
{
    let mut dues = copy_dues(alloc, next.dues.as_slice())?;
    let mut others = copy_dues(alloc, more.as_slice())?;
    dues.append(&mut others)?;
    Ok(DuesState::from_context(next.context(), DueList::in_order(dues)))
}

//! Whether two texts clash, also at a pair of rules; and texts without some characters.
ghost use Rattle.std.specs.Prelude.{◌≡◌, ◌↔◌, ◌∷◌, ◌≤◌, ◌<◌, [], IfErr, IfOk, IsTrue, length};
ghost use Rattle.std.specs.List.{remove_range};
ghost use Rattle.brl_failure.specs.Failure.{IfFault};
ghost use Rattle.brl_forward.specs.Trace.{trace_of};
ghost use Rattle.brl_pairs.specs.Divergence.{are_rules};
ghost use Rattle.brl_rules.specs.Text.{classes_before, is_text};
ghost use Rattle.brl_rules.specs.Translation.{IsClash, translation};
ghost use Rattle.brl_search.specs.Small.{ClashAt};
ghost use Rattle.brl_search.specs.Smaller.{are_same_steps, diverge_at};
ghost use Rattle.brl_traces.specs.Traces.{TracesDivergeAt, begins_in_caps_run, taken};

use brl_cells::Cell;
use brl_closure::Texts;
use brl_failure::Failure;
use brl_forward::{Traced, confirm, trace, translate};
use brl_rules::{Class, Table};
use std::alloc::{AllocError, Global};
use std::ops::Range;

/// Two texts, each without the characters at these places.
pub(crate) fn both_without(
    alloc: Global,
    texts: &Texts,
    left: Range<usize>,
    right: Range<usize>,
) -> Result<Texts, AllocError>
    requires left { left.start ≤ length texts.now.left.items }
    requires right { right.start ≤ length texts.now.right.items }
    ensures left { IfOk result (λ shorter. shorter.left.items ≡ remove_range texts.now.left.items left.start left.end) }
    ensures right { IfOk result (λ shorter. shorter.right.items ≡ remove_range texts.now.right.items right.start right.end) }
{
    Ok(Texts {
        left: without(alloc, texts.left.as_slice(), left)?,
        right: without(alloc, texts.right.as_slice(), right)?,
    })
}

/// A text without the characters at these places.
pub(crate) fn without(
    alloc: Global,
    text: &[char],
    places: Range<usize>,
) -> Result<Vec<char>, AllocError>
    requires { places.start ≤ length text.now }
    ensures { IfOk result (λ rest. rest.items ≡ remove_range text.now places.start places.end) }
{
    let mut rest = Vec::with_capacity(alloc, text.len())?;
    rest.extend_from_slice(&text[..places.start])?;
    rest.extend_from_slice(text.get(places.end..).unwrap_or_default())?;
    Ok(rest)
}

/// What a call answers that has no fault.
fn faultless<T, F: Drop>(outcome: Result<T, Failure<F>>) -> Result<T, AllocError>
    requires { IfErr outcome (IfFault (λ _. ⊥)) }
    ensures { IfOk result (λ value. outcome ≡ Ok value) }
{
    match outcome {
        Ok(value) => Ok(value),
        Err(Failure::Fault(_)) => unreachable!(),
        Err(Failure::Memory) => Err(AllocError),
    }
}

/// The cells of a text whose characters the table defines.
pub(crate) fn cells_of(alloc: Global, table: &Table, text: &[char]) -> Result<Vec<Cell>, AllocError>
    requires { IsTrue (is_text table.now text.now) }
    ensures { IfOk result (λ cells. cells.items ≡ translation table.now text.now) }
{
    Ok(faultless(translate(alloc, table, text))?)
}

/// Whether two texts clash, and where a pair of rules is given, their traces diverge at it.
pub fn clash_at(
    alloc: Global,
    table: &Table,
    texts: &Texts,
    rules: Option<(u32, u32)>,
) -> Result<bool, AllocError>
    requires left { IsTrue (is_text table.now texts.now.left.items) }
    requires right { IsTrue (is_text table.now texts.now.right.items) }
    ensures { IfOk result (λ clash. IsTrue clash ↔ ClashAt table.now rules texts.now.left.items texts.now.right.items) }
{
    let clash = do_clash(alloc, table, texts)?;
    match rules {
        Some(pair) if clash => traces_diverge(alloc, table, texts, pair),
        _ => Ok(clash),
    }
}

/// Whether two texts clash.
fn do_clash(alloc: Global, table: &Table, texts: &Texts) -> Result<bool, AllocError>
    requires left { IsTrue (is_text table.now texts.now.left.items) }
    requires right { IsTrue (is_text table.now texts.now.right.items) }
    ensures { IfOk result (λ clash. IsTrue clash ↔
        IsClash table.now texts.now.left.items texts.now.right.items (translation table.now texts.now.left.items)) }
{
    let found = faultless(confirm(alloc, table, texts.left.as_slice(), texts.right.as_slice()))?;
    Ok(found.is_some())
}

/// Whether the traces of two texts diverge at a pair of rules.
fn traces_diverge(
    alloc: Global,
    table: &Table,
    texts: &Texts,
    pair: (u32, u32),
) -> Result<bool, AllocError>
    requires left { IsTrue (is_text table.now texts.now.left.items) }
    requires right { IsTrue (is_text table.now texts.now.right.items) }
    ensures { IfOk result (λ diverge. IsTrue diverge ↔
        TracesDivergeAt table.now (pair ∷ []) texts.now.left.items texts.now.right.items) }
{
    let left = steps_of(alloc, table, texts.left.as_slice())?;
    let right = steps_of(alloc, table, texts.right.as_slice())?;
    Ok(diverge_at(table, texts, left.as_slice(), right.as_slice(), pair))
}

/// The trace of a text whose characters the table defines.
fn steps_of(alloc: Global, table: &Table, text: &[char]) -> Result<Vec<Traced>, AllocError>
    requires { IsTrue (is_text table.now text.now) }
    ensures { IfOk result (λ steps. steps.items ≡ trace_of table.now text.now) }
{
    Ok(faultless(trace(alloc, table, text))?)
}

/// Whether two traces begin with the same steps, and go on with two different ones of this pair of
/// rules.
fn diverge_at(
    table: &Table,
    texts: &Texts,
    left: &[Traced],
    right: &[Traced],
    pair: (u32, u32),
) -> bool
    ensures { result ≡ diverge_at table.now texts.now.left.items texts.now.right.items pair left.now right.now }
{
    let mut count = 0;
    while count < left.len() && count < right.len() {
        if !are_same_steps(table, texts, &left[count], &right[count]) {
            return are_rules(left[count].rule, right[count].rule, pair);
        }
        count += 1;
    }
    false
}

/// Whether these are the two rule numbers of the pair, in either order.
fn are_rules(one: u32, other: u32, pair: (u32, u32)) -> bool
    ensures { result ≡ are_rules one other pair }
{
    (pair.0 == one && pair.1 == other) || (pair.0 == other && pair.1 == one)
}

/// Whether a step of the left text and one of the right text are the same: they take the same rule,
/// for the same characters, with the same cells, and both begin in a run of capitals, or neither
/// does.
fn are_same_steps(table: &Table, texts: &Texts, one: &Traced, other: &Traced) -> bool
    ensures { result ≡ are_same_steps table.now texts.now.left.items texts.now.right.items one.now other.now }
{
    let left = texts.left.as_slice();
    let right = texts.right.as_slice();
    one.rule == other.rule
        && one.cells.as_slice() == other.cells.as_slice()
        && taken(left, one) == taken(right, other)
        && begins_in_caps_run(table, left, one) == begins_in_caps_run(table, right, other)
}

/// The characters of a text that one of its steps takes.
fn taken<'a>(text: &'a [char], step: &Traced) -> &'a [char]
    ensures { result.now ≡ taken text.now step.now }
{
    let rest = text.get(step.start..).unwrap_or_default();
    rest.get(..step.length).unwrap_or(rest)
}

/// Whether the characters that a step of a text takes begin in a run of capitals.
fn begins_in_caps_run(table: &Table, text: &[char], step: &Traced) -> bool
    ensures { result ≡ begins_in_caps_run table.now text.now step.now }
{
    let rest = text.get(step.start..).unwrap_or_default();
    table.is_in_caps_run(classes_before(table, text, step.start), rest)
}

/// The classes of the character before a position of a text, and class space at its start.
fn classes_before(table: &Table, text: &[char], position: usize) -> Class
    ensures { result ≡ classes_before table.now text.now position }
{
    if position == 0 {
        return Class::SPACE;
    }
    match text.get(position - 1) {
        Some(character) => table
            .info(*character)
            .map_or(Class::NONE, |info| info.classes),
        None => Class::SPACE,
    }
}

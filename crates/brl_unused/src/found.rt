//! The states of a machine that are reached from its start, found one after the other, and what
//! their steps are.
ghost use Rattle.std.specs.Prelude.{◌≡◌, ◌+◌, ◌<◌, ◌≤◌, ℕ, IfOk, IsFalse, IsTrue, OnOk, length};
ghost use Rattle.std.specs.List.{Contains};
ghost use Rattle.brl_pairs.specs.declared.edge.ListedEdge.{ListedEdge as EdgeValue};
ghost use Rattle.brl_unused.specs.Exploring.{AddsAtMost, AreFound, Enters, HavePassed, IsNothing, MarkSame, MarksAre};

use brl_contexts::{Contexts, Expanded, expand};
use brl_pairs::{Based, Key, ListedEdge};
use brl_progress::{Progress, Work};
use std::alloc::{AllocError, Global};

/// States that are found, the start first, and of the first of them what their steps are.
#[derive(Drop)]
pub struct FoundStates<S: Key, D: Key> {
    /// The states that are known, with numbers: those that are found, and others.
    pub contexts: Contexts<S, D>,
    /// The numbers of the states that are found, in the order in which they are found.
    pub order: Vec<u32>,
    /// Of each of the known states, by its number, whether it is found. Those that have no mark
    /// aren't.
    pub marks: Vec<bool>,
    /// What the steps are, of the first states of the order.
    pub expanded: Vec<Expanded>,
}

/// Lengthens the marks to this many.
fn lengthen(marks: &mut Vec<bool>, count: usize) -> Result<(), AllocError>
    ensures count { OnOk result (count ≤ length marks.new.items) }
    ensures same { OnOk result (MarkSame marks.old.items marks.new.items) }
{
    while marks.len() < count {
        marks.push(false)?;
    }
    Ok(())
}

/// Adds the state with this number to those that are found, if it isn't one of them.
fn add(number: u32, order: &mut Vec<u32>, marks: &mut Vec<bool>) -> Result<(), AllocError>
    requires marked { MarksAre order.old.items marks.old.items }
    requires within { number < length marks.old.items }
    ensures marked { OnOk result (MarksAre order.new.items marks.new.items) }
    ensures adds { OnOk result (AddsAtMost order.old.items number order.new.items) }
    ensures there { OnOk result (Contains order.new.items number) }
    ensures count { OnOk result (length marks.new.items ≡ length marks.old.items) }
{
    if marks[number as usize] {
        return Ok(());
    }
    marks[number as usize] = true;
    order.push(number)?;
    Ok(())
}

/// Adds the states to which these edges lead to those that are found. False where more are found
/// than the limit allows.
fn enter(
    edges: &[ListedEdge],
    limit: u64,
    order: &mut Vec<u32>,
    marks: &mut Vec<bool>,
) -> Result<bool, AllocError>
    requires marked { MarksAre order.old.items marks.old.items }
    requires within { (e : EdgeValue) → Contains edges.now e → e.next < length marks.old.items }
    requires few { length order.old.items ≤ limit }
    ensures marked { OnOk result (MarksAre order.new.items marks.new.items) }
    ensures enters { OnOk result (Enters edges.now order.old.items order.new.items) }
    ensures all { IfOk result (λ whole. IsTrue whole → (e : EdgeValue) → Contains edges.now e → Contains order.new.items e.next) }
    ensures few { IfOk result (λ whole. IsTrue whole → length order.new.items ≤ limit) }
    ensures passed { IfOk result (λ whole. IsFalse whole → limit < length order.new.items) }
    ensures by_one { OnOk result (length order.new.items ≤ limit + 1) }
{
    for edge in edges {
        add(edge.next, order, marks)?;
        if order.len() as u64 > limit {
            return Ok(false);
        }
    }
    Ok(true)
}

/// Finds the start.
fn find_start<M: Based>(
    machine: &M,
    found: &mut FoundStates<M::State, M::More>,
) -> Result<(), AllocError>
    requires { IsNothing found.old }
    ensures found { OnOk result (AreFound (M.behaviour machine.now) (M.sharing machine.now) found.new) }
    ensures one { OnOk result (length found.new.order.items ≡ 1) }
    ensures none { OnOk result (length found.new.expanded.items ≡ 0) }
{
    let start = found.contexts.named.number_of(machine.start())?;
    lengthen(&mut found.marks, found.contexts.named.states.len())?;
    add(start, &mut found.order, &mut found.marks)?;
    Ok(())
}

/// Expands the next state: the first of those that are found and not expanded. Finds the states to
/// which its steps lead. False where more are found than the limit allows.
fn expand_next<M: Based>(
    alloc: Global,
    machine: &M,
    limit: u64,
    found: &mut FoundStates<M::State, M::More>,
) -> Result<bool, AllocError>
    requires found { AreFound (M.behaviour machine.now) (M.sharing machine.now) found.old }
    requires left { length found.old.expanded.items < length found.old.order.items }
    requires few { length found.old.order.items ≤ limit }
    ensures found { IfOk result (λ whole. IsTrue whole → AreFound (M.behaviour machine.now) (M.sharing machine.now) found.new) }
    ensures one_more { IfOk result (λ whole. IsTrue whole → length found.new.expanded.items ≡ length found.old.expanded.items + 1) }
    ensures few { IfOk result (λ whole. IsTrue whole → length found.new.order.items ≤ limit) }
    ensures passed { IfOk result (λ whole. IsFalse whole → HavePassed (M.behaviour machine.now) limit found.new) }
{
    let number = found.order[found.expanded.len()] as usize;
    let own = expand(alloc, machine, &mut found.contexts, number)?;
    let edges = found.contexts.edges(alloc, &own)?;
    found.expanded.push(own)?;
    lengthen(&mut found.marks, found.contexts.named.states.len())?;
    let whole = enter(edges.as_slice(), limit, &mut found.order, &mut found.marks)?;
    Ok(whole)
}

/// Finds all states of a machine that are reached from its start, and what their steps are. False
/// where they are more than the limit allows.
pub fn explore<M: Based, P: Progress>(
    alloc: Global,
    machine: &M,
    limit: u64,
    found: &mut FoundStates<M::State, M::More>,
    progress: &mut P,
) -> Result<bool, AllocError>
    requires { IsNothing found.old }
    ensures found { IfOk result (λ whole. IsTrue whole → AreFound (M.behaviour machine.now) (M.sharing machine.now) found.new) }
    ensures all { IfOk result (λ whole. IsTrue whole → length found.new.expanded.items ≡ length found.new.order.items) }
    ensures passed { IfOk result (λ whole. IsFalse whole → HavePassed (M.behaviour machine.now) limit found.new) }
{
    find_start(machine, found)?;
    if found.order.len() as u64 > limit {
        return Ok(false);
    }
    while found.expanded.len() < found.order.len() {
        progress.report(Work::Search {
            states: found.order.len() as u64,
            pairs: 0,
        });
        if !expand_next(alloc, machine, limit, found)? {
            return Ok(false);
        }
    }
    Ok(true)
}

//! The rules that the paths of a machine take: a rule is taken just where one of its steps leads
//! from a state that is found to one from which a final one is reached.
ghost use Rattle.std.specs.Prelude.{◌≡◌, ◌<◌, ◌≤◌, IfOk, length, map};
ghost use Rattle.std.specs.List.{Contains};
ghost use Rattle.brl_pairs.specs.declared.edge.ListedEdge.{ListedEdge as EdgeValue};
ghost use Rattle.brl_unused.specs.Exploring.{AreFound};
ghost use Rattle.brl_unused.specs.Graph.{IsWhole};
ghost use Rattle.brl_unused.specs.Marking.{AreMarkedBy, MarksMore};
ghost use Rattle.brl_unused.specs.Taken.{AreTaken, IsFoundTaken};

use crate::found::{FoundStates, explore};
use crate::graph::live_states;
use brl_contexts::Contexts;
use brl_pairs::{Based, Key, ListedEdge, Machine, Seed};
use brl_progress::Progress;
use std::alloc::{AllocError, Global};

/// The rules of a machine that its paths take.
#[derive(Drop)]
pub enum TakenRules {
    /// For each rule, by its number, whether a path from the start to a final state takes it.
    Marked(Vec<bool>),
    /// This number of states were found when they became more than the limit.
    Limit { states: u64 },
}

/// Which of these states are final.
fn ends_of<M: Machine>(
    alloc: Global,
    machine: &M,
    states: &[M::State],
) -> Result<Vec<bool>, AllocError>
    ensures { IfOk result (λ ends. ends.items ≡ map (M.behaviour machine.now).ends states.now) }
{
    let mut ends = Vec::with_capacity(alloc, states.len())?;
    for state in states {
        ends.push(machine.ends(state))?;
    }
    Ok(ends)
}

/// Marks the rules that have a mark, of edges that lead to live states.
fn mark_rules(edges: &[ListedEdge], live: &[bool], marks: &mut Vec<bool>)
    requires { (e : EdgeValue) → Contains edges.now e → e.next < length live.now }
    ensures { MarksMore edges.now live.now marks.old.items marks.new.items }
{
    for edge in edges {
        let rule = edge.rule as usize;
        if rule < marks.len() && live[edge.next as usize] {
            marks[rule] = true;
        }
    }
}

/// Marks the rules with numbers below `rules` of which an edge leads from a state that is found to
/// a live one.
fn rules_to_live<S: Key, D: Key>(
    alloc: Global,
    rules: usize,
    found: &FoundStates<S, D>,
    live: &[bool],
) -> Result<Vec<bool>, AllocError>
    requires whole { IsWhole found.now }
    requires live { length live.now ≡ length found.now.contexts.named.states }
    ensures { IfOk result (λ marks. AreMarkedBy found.now live.now (length found.now.expanded.items) rules marks.items) }
{
    let mut marks = vec![in alloc; false; rules]?;
    for place in 0..found.expanded.len() {
        let edges = found.contexts.edges(alloc, &found.expanded[place])?;
        mark_rules(edges.as_slice(), live, &mut marks);
    }
    Ok(marks)
}

/// Marks the rules with numbers below `rules` that a path takes, where all states are found.
fn marks_of<M: Based>(
    alloc: Global,
    machine: &M,
    rules: usize,
    found: &FoundStates<M::State, M::More>,
) -> Result<Vec<bool>, AllocError>
    requires found { AreFound (M.behaviour machine.now) (M.sharing machine.now) found.now }
    requires all { length found.now.expanded.items ≡ length found.now.order.items }
    ensures { IfOk result (λ marks. AreTaken (M.behaviour machine.now) rules marks.items) }
{
    let ends = ends_of(alloc, machine, found.contexts.named.states.as_slice())?;
    let live = live_states(alloc, ends.as_slice(), found)?;
    rules_to_live(alloc, rules, found, live.as_slice())
}

/// Which of the rules of a machine with numbers below `rules` are taken: by a path from the start
/// to a final state. How many states are found is reported. `Limit` as soon as they are more than
/// `limit`.
pub fn taken_rules<M: Based, P: Progress>(
    alloc: Global,
    machine: &M,
    rules: usize,
    limit: u64,
    seed: Seed,
    progress: &mut P,
) -> Result<TakenRules, AllocError>
    requires { limit ≤ 4294967295 }
    ensures { IfOk result (IsFoundTaken (M.behaviour machine.now) rules limit) }
{
    let mut found = FoundStates {
        contexts: Contexts::new(alloc, seed),
        order: Vec::new(alloc),
        marks: Vec::new(alloc),
        expanded: Vec::new(alloc),
    };
    let whole = explore(alloc, machine, limit, &mut found, progress)?;
    if whole {
        let marks = marks_of(alloc, machine, rules, &found)?;
        return Ok(TakenRules::Marked(marks));
    }
    // No two of them are equal.
    let _ = found.contexts.named.states.as_slice();
    Ok(TakenRules::Limit {
        states: found.order.len() as u64,
    })
}

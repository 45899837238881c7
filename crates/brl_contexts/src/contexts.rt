//! Contexts, and the steps of states by them.
ghost use Rattle.std.specs.Prelude.{◌≡◌, ◌<◌, ◌++◌, IfOk, OnOk, Some, length, option_map, slice_get};
ghost use Rattle.brl_contexts.specs.Contexts.{AreContexts, AreEdgesAt, HasContext, IsChangeAt, IsEmpty, IsWithin, IsWithinForms, StillKnows, changed, edges_by, edges_in as edges_by_forms};
ghost use Rattle.brl_contexts.specs.Named.{StillCarries, StillNames};
ghost use Rattle.brl_contexts.specs.declared.contexts.Expanded.TheVariants as steps;
ghost use Rattle.brl_pairs.specs.Listed.{AreListedEdges};

use crate::changes::{Change, changes_of, opened};
use crate::forms::{Forms, list_forms, number_steps};
use crate::named::Named;
use brl_pairs::{Based, Key, ListedEdge, Members, Seed};
use std::alloc::{AllocError, Global};

/// The contexts of a machine: the bases that its states have, each with its forms. States and cells
/// have numbers here.
#[derive(Drop)]
pub struct Contexts<S: Key, D: Key> {
    /// The states that are expanded or to which steps lead, and the cells that steps give.
    pub named: Named<S, D>,
    /// The bases, by the numbers of their contexts, from 0.
    pub bases: Members<S>,
    /// The forms of each base.
    pub forms: Vec<Forms>,
}

/// The steps of a state, by its context: the forms whose gates it opens, but for those that it
/// changes.
#[derive(Drop)]
pub struct ByContext {
    /// The number of the context.
    pub context: usize,
    /// Of each gate of the forms, whether the state opens it.
    pub opens: Vec<bool>,
    /// What it changes, by ascending form.
    pub changes: Vec<Change>,
}

/// An expanded state: what its steps are.
#[derive(Drop)]
pub enum Expanded {
    /// The state has a base.
    ByContext(ByContext),
    /// The state has none, and these are its steps.
    Own(Vec<ListedEdge>),
}

impl<S: Key, D: Key> Contexts<S, D> {
    /// No contexts and no states, which will be found by hashes of this seed. No memory is
    /// allocated.
    pub fn new(alloc: Global, seed: Seed) -> Contexts<S, D>
        ensures { IsEmpty result }
    {
        Contexts {
            named: Named::new(alloc, seed),
            bases: Members::new(alloc, seed),
            forms: Vec::new(alloc),
        }
    }

    /// The steps of an expanded state, by numbers, in listed order. `AllocError` if memory runs
    /// out.
    pub fn edges(&self, alloc: Global, expanded: &Expanded) -> Result<Vec<ListedEdge>, AllocError>
        requires { IsWithin self.now expanded.now }
        ensures { IfOk result (λ edges. edges.items ≡ edges_by self.now expanded.now) }
    {
        match expanded {
            Expanded::ByContext(own) => edges_in(alloc, &self.forms[own.context], own),
            Expanded::Own(edges) => Vec::from_slice(alloc, edges.as_slice()),
        }
    }
}

/// Expands the state with this number: finds what its steps are. Its base is listed where it is a
/// new one. The states to which the steps lead are added, and the numbers that were there stay.
/// `AllocError` if memory runs out.
pub fn expand<B: Based>(
    alloc: Global,
    machine: &B,
    contexts: &mut Contexts<B::State, B::More>,
    state: usize,
) -> Result<Expanded, AllocError>
    requires contexts { AreContexts (B.behaviour machine.now) (B.sharing machine.now) contexts.old }
    requires within { state < length contexts.old.named.states }
    ensures contexts { OnOk result (AreContexts (B.behaviour machine.now) (B.sharing machine.now) contexts.new) }
    ensures knows { OnOk result (StillKnows contexts.old contexts.new) }
    ensures edges { IfOk result (AreEdgesAt (B.behaviour machine.now) contexts.new state) }
{
    match machine.base(alloc, &contexts.named.states.as_slice()[state])? {
        Some(base) => {
            let context = context_of(alloc, machine, contexts, base)?;
            let own = expand_in(alloc, machine, contexts, context, state)?;
            Ok(Expanded::ByContext(own))
        }
        None => {
            let edges = list_own(alloc, machine, &mut contexts.named, state)?;
            Ok(Expanded::Own(edges))
        }
    }
}

/// The number of the context with this base, whose forms are listed where it is a new one.
fn context_of<B: Based>(
    alloc: Global,
    machine: &B,
    contexts: &mut Contexts<B::State, B::More>,
    base: B::State,
) -> Result<usize, AllocError>
    requires contexts { AreContexts (B.behaviour machine.now) (B.sharing machine.now) contexts.old }
    ensures contexts { OnOk result (AreContexts (B.behaviour machine.now) (B.sharing machine.now) contexts.new) }
    ensures knows { OnOk result (StillKnows contexts.old contexts.new) }
    ensures number { IfOk result (λ number. slice_get contexts.new.bases number ≡ Some base) }
{
    if let Some(number) = contexts.bases.index_of(&base) {
        return Ok(number);
    }
    let forms = list_forms(alloc, machine, &mut contexts.named, &base)?;
    let number = contexts.bases.len();
    contexts.forms.push(forms)?;
    contexts.bases.insert(base)?;
    Ok(number)
}

/// Expands the state with this number in its context.
fn expand_in<B: Based>(
    alloc: Global,
    machine: &B,
    contexts: &mut Contexts<B::State, B::More>,
    context: usize,
    state: usize,
) -> Result<ByContext, AllocError>
    requires contexts { AreContexts (B.behaviour machine.now) (B.sharing machine.now) contexts.old }
    requires context { HasContext (B.sharing machine.now) contexts.old context state }
    ensures contexts { OnOk result (AreContexts (B.behaviour machine.now) (B.sharing machine.now) contexts.new) }
    ensures knows { OnOk result (StillKnows contexts.old contexts.new) }
    ensures edges { IfOk result (λ own. AreEdgesAt (B.behaviour machine.now) contexts.new state (steps.ByContext own)) }
{
    machine.law();
    let forms = &contexts.forms[context];
    let own = &contexts.named.states.as_slice()[state];
    let opens = opened(alloc, machine, own, forms.gates.as_slice())?;
    let changes = changes_of(
        alloc,
        machine,
        &mut contexts.named,
        forms,
        state,
        opens.as_slice(),
    )?;
    Ok(ByContext {
        context,
        opens,
        changes,
    })
}

/// The steps of the state with this number, which has no base.
fn list_own<B: Based>(
    alloc: Global,
    machine: &B,
    named: &mut Named<B::State, B::More>,
    state: usize,
) -> Result<Vec<ListedEdge>, AllocError>
    requires { state < length named.old.states }
    ensures edges { IfOk result (λ edges. (s : B.State) → slice_get named.new.states state ≡ Some s →
        AreListedEdges named.new.states named.new.cells ((B.behaviour machine.now).steps s) edges.items) }
    ensures names { OnOk result (StillNames named.old named.new) }
    ensures carries { OnOk result (StillCarries named.old named.new) }
{
    let steps = machine.moves(alloc, &named.states.as_slice()[state])?;
    let mut edges = Vec::with_capacity(alloc, steps.len())?;
    let mut reads = Vec::with_capacity(alloc, steps.len())?;
    number_steps(named, steps, &mut edges, &mut reads)?;
    Ok(edges)
}

/// The steps of a state by its context, in listed order.
fn edges_in(alloc: Global, forms: &Forms, own: &ByContext) -> Result<Vec<ListedEdge>, AllocError>
    requires { IsWithinForms forms.now own.now }
    ensures { IfOk result (λ edges. edges.items ≡ edges_by_forms forms.now own.now) }
{
    let mut edges = Vec::with_capacity(alloc, forms.edges.len())?;
    let mut next = 0;
    for form in 0..forms.edges.len() {
        let change = change_at(own.changes.as_slice(), next, form);
        if change.is_some() {
            next += 1;
        }
        if own.opens[forms.gate_of[form] as usize] {
            push_edge(forms.edges[form], change, &mut edges)?;
        }
    }
    Ok(edges)
}

/// The change at a place, if there is one and it is of this form.
fn change_at(changes: &[Change], place: usize, form: usize) -> Option<Change>
    ensures { IsChangeAt changes.now place form result }
{
    match changes.get(place) {
        Some(change) if change.form as usize == form => Some(*change),
        _ => None,
    }
}

/// Appends what a state has of a form that it changes so, or leaves as it is.
fn push_edge(
    edge: ListedEdge,
    change: Option<Change>,
    edges: &mut Vec<ListedEdge>,
) -> Result<(), AllocError>
    ensures { OnOk result (edges.new.items ≡ edges.old.items ++ changed edge (option_map (λ c. c.next) change)) }
{
    match change {
        None => edges.push(edge)?,
        Some(Change { next: None, .. }) => {}
        Some(
            Change {
                next: Some(next),
                ..
            },
        ) => edges.push(ListedEdge { next, ..edge })?,
    }
    Ok(())
}

//! The edges of a state, put together from those of the parts of its steps. A part that isn't kept
//! yet is listed first.
ghost use Rattle.std.specs.Prelude.{◌≡◌, ◌<◌, ◌⊎◌, ℕ, IfErr, IfOk, IfSome, OnOk, Some, length, slice_get};
ghost use Rattle.brl_closure.specs.Refusals.{HasStart, MissesState};
ghost use Rattle.brl_closure.specs.SearchView.{Stays};
ghost use Rattle.brl_closure.specs.Listing.{AreNumbersOf, IsFirstMissing, IsStateMissing};
ghost use Rattle.brl_failure.specs.Failure.{IfFault};
ghost use Rattle.brl_pairs.specs.Listed.{AreEdgesOf, AreListedEdges, IsByNumbers};
ghost use Rattle.brl_pairs.specs.Members.{IsMember};
ghost use Rattle.brl_pairs.specs.Runs.{KeepsLaws};
ghost use Rattle.brl_parts.specs.Parts.{AreKeptParts, no_parts};

use crate::AcceptFault;
use brl_failure::Failure;
use brl_pairs::{Body, KeptCells, Key, ListedEdge, Machine, Parted, Seed, Step};
use brl_parts::Parts;
use std::alloc::{AllocError, Global};

/// The parts of steps that a check has listed, and the cells of their steps.
#[derive(Drop)]
pub struct KeptParts<P: Key> {
    /// The cells of edges, each once. Edges name them by their numbers.
    pub cells: KeptCells,
    pub parts: Parts<P>,
}

impl<P: Key> KeptParts<P> {
    /// No parts. Cells and parts will be found by hashes of this seed.
    pub fn new(alloc: Global, seed: Seed) -> KeptParts<P>
        ensures { result.parts ≡ no_parts }
    {
        KeptParts {
            cells: KeptCells::new(alloc, seed),
            parts: Parts::new(alloc, seed),
        }
    }

    /// Drops all kept parts where they have too many edges (`Parts::is_full`). New ones will be
    /// found by hashes of this seed.
    pub fn forget_parts(&mut self, alloc: Global, seed: Seed)
        ensures parts { (self.new.parts ≡ self.old.parts) ⊎ (self.new.parts ≡ no_parts) }
        ensures cells { self.new.cells ≡ self.old.cells }
    {
        if self.parts.is_full() {
            self.parts = Parts::new(alloc, seed);
        }
    }
}

/// The edge of a step, whose cells are kept; those with the number `likely` are tried first. The
/// fault is the step's rule, where its next state isn't one of the body.
fn edge_of<S: Key>(
    body: &Body<S>,
    cells: &mut KeptCells,
    step: &Step<S>,
    likely: u32,
) -> Result<ListedEdge, Failure<u32>>
    ensures edge { IfOk result (IsByNumbers body.now.states cells.new step.now) }
    ensures missing { IfErr result (IfFault (λ rule. (step.now.rule ≡ rule) × (IsMember body.now.states step.now.next → ⊥))) }
    ensures cells { Stays cells.old cells.new }
{
    let Some(next) = body.number_of(&step.next) else {
        return Err(Failure::Fault(step.rule));
    };
    let kept = cells.keep(&step.cells, likely)?;
    Ok(ListedEdge {
        rule: step.rule,
        cells: kept,
        next,
    })
}

/// The edges of these steps, whose cells are kept. The fault is the rule of the first step that
/// leads to no state of the body.
fn edges_of_steps<S: Key>(
    alloc: Global,
    body: &Body<S>,
    cells: &mut KeptCells,
    steps: Vec<Step<S>>,
) -> Result<Vec<ListedEdge>, Failure<u32>>
    ensures edges { IfOk result (λ edges. AreListedEdges body.now.states cells.new steps.items edges.items) }
    ensures missing { IfErr result (IfFault (IsFirstMissing body.now.states steps.items)) }
    ensures cells { Stays cells.old cells.new }
{
    let mut edges: Vec<ListedEdge> = Vec::with_capacity(alloc, steps.len())?;
    for step in steps {
        // States mostly have the same cells in the same order, so their numbers follow each other.
        let likely = edges.last().map_or(0, |edge| edge.cells.saturating_add(1));
        let edge = edge_of(body, cells, &step, likely)?;
        edges.push(edge)?;
    }
    Ok(edges)
}

/// The edges of the state with this number, by the list of all its steps, where no step of the
/// states before it leads to a missing state. The fault is the first step of this one that does:
/// steps ascend by rule, so it has the least rule.
fn list_edges<M: Machine>(
    alloc: Global,
    machine: &M,
    body: &Body<M::State>,
    cells: &mut KeptCells,
    number: usize,
) -> Result<Vec<ListedEdge>, Failure<AcceptFault>>
    requires laws { KeepsLaws (M.behaviour machine.now) }
    requires start { HasStart (M.behaviour machine.now) body.now }
    requires within { number < length body.now.states }
    requires earlier { (k rule : ℕ) → k < number → MissesState (M.behaviour machine.now) body.now k rule → ⊥ }
    ensures edges { IfOk result (λ edges. AreEdgesOf (M.behaviour machine.now) body.now.states cells.new number edges.items) }
    ensures cells { Stays cells.old cells.new }
    ensures refused { IfErr result (IfFault (IsStateMissing (M.behaviour machine.now) body.now)) }
{
    let listed = machine.moves(alloc, &body.states()[number])?;
    body.law();
    match edges_of_steps(alloc, body, cells, listed) {
        Ok(edges) => Ok(edges),
        Err(Failure::Fault(rule)) => {
            let state = number as u32;
            Err(Failure::Fault(AcceptFault::StateMissing { state, rule }))
        }
        Err(Failure::Memory) => Err(Failure::Memory),
    }
}

/// The number of a part, which is listed and kept if it isn't kept yet. `None` where one of its
/// steps leads to no state of the body.
fn number_of_part<M: Parted>(
    alloc: Global,
    machine: &M,
    body: &Body<M::State>,
    kept: &mut KeptParts<M::Part>,
    part: M::Part,
) -> Result<Option<usize>, AllocError>
    requires { AreKeptParts (M.steps_of machine.now) body.now.states kept.old.cells kept.old.parts }
    ensures number { IfOk result (λ found. IfSome found (λ number. slice_get kept.new.parts.parts number ≡ Some part)) }
    ensures kept { OnOk result (AreKeptParts (M.steps_of machine.now) body.now.states kept.new.cells kept.new.parts) }
    ensures stays { OnOk result (Stays kept.old.parts.parts kept.new.parts.parts) }
    ensures cells { OnOk result (Stays kept.old.cells kept.new.cells) }
{
    if let Some(number) = kept.parts.number_of(&part) {
        return Ok(Some(number));
    }
    let steps = machine.part_steps(alloc, &part)?;
    match edges_of_steps(alloc, body, &mut kept.cells, steps) {
        Ok(edges) => {
            let number = kept.parts.add(part, edges)?;
            Ok(Some(number))
        }
        Err(Failure::Fault(_)) => Ok(None),
        Err(Failure::Memory) => Err(AllocError),
    }
}

/// The numbers of these parts. `None` where a step of one of them leads to no state of the body.
fn numbers_of_parts<M: Parted>(
    alloc: Global,
    machine: &M,
    body: &Body<M::State>,
    kept: &mut KeptParts<M::Part>,
    listed: Vec<M::Part>,
) -> Result<Option<Vec<usize>>, AllocError>
    requires { AreKeptParts (M.steps_of machine.now) body.now.states kept.old.cells kept.old.parts }
    ensures numbers { IfOk result (λ found. IfSome found (λ numbers. AreNumbersOf kept.new.parts.parts listed.items numbers.items)) }
    ensures kept { OnOk result (AreKeptParts (M.steps_of machine.now) body.now.states kept.new.cells kept.new.parts) }
    ensures cells { OnOk result (Stays kept.old.cells kept.new.cells) }
{
    let mut numbers = Vec::with_capacity(alloc, listed.len())?;
    for part in listed {
        let Some(number) = number_of_part(alloc, machine, body, kept, part)? else {
            return Ok(None);
        };
        numbers.push(number)?;
    }
    Ok(Some(numbers))
}

/// The edges of the state with this number in listed order, where no step of the states before it
/// leads to a missing state. The cells of its steps are kept, and the parts of its steps. The fault
/// is the first step of this one that leads to a missing state.
pub fn edges_of<M: Parted>(
    alloc: Global,
    machine: &M,
    body: &Body<M::State>,
    kept: &mut KeptParts<M::Part>,
    number: usize,
) -> Result<Vec<ListedEdge>, Failure<AcceptFault>>
    requires laws { KeepsLaws (M.behaviour machine.now) }
    requires start { HasStart (M.behaviour machine.now) body.now }
    requires within { number < length body.now.states }
    requires earlier { (k rule : ℕ) → k < number → MissesState (M.behaviour machine.now) body.now k rule → ⊥ }
    requires kept { AreKeptParts (M.steps_of machine.now) body.now.states kept.old.cells kept.old.parts }
    ensures edges { IfOk result (λ edges. AreEdgesOf (M.behaviour machine.now) body.now.states kept.new.cells number edges.items) }
    ensures kept { OnOk result (AreKeptParts (M.steps_of machine.now) body.now.states kept.new.cells kept.new.parts) }
    ensures cells { OnOk result (Stays kept.old.cells kept.new.cells) }
    ensures refused { IfErr result (IfFault (IsStateMissing (M.behaviour machine.now) body.now)) }
{
    let Some(listed) = machine.parts(alloc, &body.states()[number])? else {
        let edges = list_edges(alloc, machine, body, &mut kept.cells, number)?;
        return Ok(edges);
    };
    let Some(numbers) = numbers_of_parts(alloc, machine, body, kept, listed)? else {
        // The list of all steps has the least rule that leads to a missing state.
        let edges = list_edges(alloc, machine, body, &mut kept.cells, number)?;
        return Ok(edges);
    };
    kept.parts.law();
    let edges = kept.parts.by_rule(alloc, numbers.as_slice())?;
    Ok(edges)
}

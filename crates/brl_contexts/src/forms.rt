//! The steps of a base, by numbers.
ghost use Rattle.std.specs.Prelude.{◌≡◌, [], ℕ, IfOk, OnOk, Some, length, slice_get};
ghost use Rattle.std.specs.List.{range_with_len};
ghost use Rattle.std.specs.Cmp.Lexicographic.{slice_cmp};
ghost use Rattle.std.specs.Ordering.{nat_cmp};
ghost use Rattle.brl_contexts.specs.Forms.{AreForms, AreGates, HasAll, reads_of};
ghost use Rattle.brl_contexts.specs.Named.{StillCarries, StillNames};
ghost use Rattle.brl_pairs.specs.Listed.{AreListedEdges};
ghost use Rattle.brl_pairs.specs.Order.{IsOrderOf, at as sequence_at};

use crate::named::Named;
use brl_cells::Chars;
use brl_pairs::{Based, Key, ListedEdge, Order, Step, as_u32};
use std::alloc::{AllocError, Global};
use std::cmp::Ordering;

/// The steps of a base, its forms, by their places in listed order, from 0.
#[derive(Drop)]
pub struct Forms {
    /// Each by numbers.
    pub edges: Vec<ListedEdge>,
    /// The characters that each reads.
    pub reads: Vec<Chars>,
    /// The forms in the order of what they read.
    pub order: Order,
    /// The gates of all forms, each once.
    pub gates: Vec<u8>,
    /// For each form the place of its gate.
    pub gate_of: Vec<u32>,
}

/// Lists the forms of a base. Where they lead is added to the states, and their cells are kept.
/// `AllocError` if memory runs out.
pub fn list_forms<B: Based>(
    alloc: Global,
    machine: &B,
    named: &mut Named<B::State, B::More>,
    base: &B::State,
) -> Result<Forms, AllocError>
    ensures forms { IfOk result (AreForms (B.sharing machine.now) named.new ((B.behaviour machine.now).steps base.now)) }
    ensures names { OnOk result (StillNames named.old named.new) }
    ensures carries { OnOk result (StillCarries named.old named.new) }
{
    let steps = machine.moves(alloc, base)?;
    let mut edges = Vec::with_capacity(alloc, steps.len())?;
    let mut reads = Vec::with_capacity(alloc, steps.len())?;
    number_steps(named, steps, &mut edges, &mut reads)?;
    let order = order_of(alloc, reads.as_slice())?;
    let mut gates = Vec::new(alloc);
    let gate_of = gates_of(alloc, machine, reads.as_slice(), &mut gates)?;
    Ok(Forms {
        edges,
        reads,
        order,
        gates,
        gate_of,
    })
}

/// Steps by numbers, and what they read. Where they lead is added to the states, and their cells
/// are kept.
pub fn number_steps<S: Key, D: Key>(
    named: &mut Named<S, D>,
    steps: Vec<Step<S>>,
    edges: &mut Vec<ListedEdge>,
    reads: &mut Vec<Chars>,
) -> Result<(), AllocError>
    requires no_edges { edges.old.items ≡ [] }
    requires no_reads { reads.old.items ≡ [] }
    ensures edges { OnOk result (AreListedEdges named.new.states named.new.cells steps.items edges.new.items) }
    ensures reads { OnOk result (reads.new.items ≡ reads_of steps.items) }
    ensures names { OnOk result (StillNames named.old named.new) }
    ensures carries { OnOk result (StillCarries named.old named.new) }
{
    let mut likely = 0u32;
    for step in steps {
        let next = named.number_of(step.next)?;
        let cells = named.cells.keep(&step.cells, likely)?;
        // Steps that follow each other mostly have cells that were kept one after the other.
        likely = cells.saturating_add(1);
        edges.push(ListedEdge {
            rule: step.rule,
            cells,
            next,
        })?;
        reads.push(step.reads)?;
    }
    Ok(())
}

/// The characters that a form reads; none if there is no form with this number.
fn reads_at(reads: &[Chars], form: u32) -> &[char]
    ensures { result.now ≡ sequence_at reads.now form }
{
    match reads.get(form as usize) {
        Some(own) => own.as_slice(),
        None => &[],
    }
}

/// Which of two forms comes first by what they read.
fn compare_reads(reads: &[Chars], one: u32, other: u32) -> Ordering
    ensures { result ≡ slice_cmp nat_cmp (sequence_at reads.now one) (sequence_at reads.now other) }
{
    reads_at(reads, one).cmp(reads_at(reads, other))
}

/// The numbers below a count, ascending.
fn numbers_below(alloc: Global, count: usize) -> Result<Vec<u32>, AllocError>
    ensures { IfOk result (λ numbers. numbers.items ≡ range_with_len 0 count) }
{
    let mut numbers = Vec::with_capacity(alloc, count)?;
    for number in 0..count {
        numbers.push(as_u32(number)?)?;
    }
    Ok(numbers)
}

/// All forms in the order of what they read.
fn order_of(alloc: Global, reads: &[Chars]) -> Result<Order, AllocError>
    ensures order { IfOk result (IsOrderOf reads.now) }
    ensures all { IfOk result (λ order. HasAll (length reads.now) order.numbers.items) }
{
    let mut numbers = numbers_below(alloc, reads.len())?;
    numbers.sort_unstable_by(|one, other| compare_reads(reads, *one, *other));
    let order = Order::new(alloc, reads, numbers)?;
    Ok(order)
}

/// For each form the place of its gate among the gates, which are all that the forms have.
fn gates_of<B: Based>(
    alloc: Global,
    machine: &B,
    reads: &[Chars],
    gates: &mut Vec<u8>,
) -> Result<Vec<u32>, AllocError>
    ensures { IfOk result (λ places. AreGates (B.sharing machine.now).gate reads.now gates.new.items places.items) }
{
    let mut places = Vec::with_capacity(alloc, reads.len())?;
    for chars in reads {
        let place = gate_place(gates, machine.gate(chars))?;
        places.push(place)?;
    }
    Ok(places)
}

/// The place of a gate, which is added last if it isn't there.
fn gate_place(gates: &mut Vec<u8>, gate: u8) -> Result<u32, AllocError>
    ensures place { IfOk result (λ place. slice_get gates.new.items place ≡ Some gate) }
    ensures stay { OnOk result ((k own : ℕ) → slice_get gates.old.items k ≡ Some own → slice_get gates.new.items k ≡ Some own) }
{
    if let Some(place) = gates.iter().position(|own| *own == gate) {
        return as_u32(place);
    }
    let place = as_u32(gates.len())?;
    gates.push(gate)?;
    Ok(place)
}

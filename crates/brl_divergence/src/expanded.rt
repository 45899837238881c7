//! The steps of the states that have been expanded.
ghost use Rattle.std.specs.Prelude.{◌≡◌, ◌⊎◌, ◌+◌, ◌<◌, [], length, map, IfErr, IfOk, OnOk};
ghost use Rattle.brl_closure.specs.Trail.{Advances, HasPassed, IsActive, IsTraced};
ghost use Rattle.brl_divergence.specs.Expanded.{AreExpanded};
ghost use Rattle.brl_failure.specs.Failure.{IfFault};
ghost use Rattle.brl_parts.specs.Parts.{AreKeptParts, no_parts};

use brl_closure::{Finder, Stop, Trail};
use brl_failure::Failure;
use brl_pairs::{KeptCells, Key, ListedEdge, Parted, Seed, SortedEdge, sort_edges};
use brl_parts::Parts;
use std::alloc::{AllocError, Global};

/// The steps of the states that have been expanded. States are expanded in the order in which they
/// are found.
#[derive(Drop)]
pub struct Expanded {
    /// The cells of edges, each once. Edges name them by their numbers.
    pub cells: KeptCells,
    /// The edges of each state, in the order of their cells.
    pub edges: Vec<Vec<SortedEdge>>,
    /// The rules of each state's edges, by their places.
    pub rules: Vec<Vec<u32>>,
}

impl Expanded {
    /// No state is expanded. Cells will be found by hashes of this seed.
    pub fn new(alloc: Global, seed: Seed) -> Expanded
        ensures edges { result.edges.items ≡ [] }
        ensures rules { result.rules.items ≡ [] }
    {
        Expanded {
            cells: KeptCells::new(alloc, seed),
            edges: Vec::new(alloc),
            rules: Vec::new(alloc),
        }
    }
}

/// The rules of edges.
fn rules_of(alloc: Global, edges: &[ListedEdge]) -> Result<Vec<u32>, AllocError>
    ensures { IfOk result (λ rules. rules.items ≡ map (λ edge. edge.rule) edges.now) }
{
    edges.iter().map(|edge| edge.rule).collect(alloc)
}

/// Drops all kept parts where they have too many edges (`Parts::is_full`), or where no state is
/// left to be expanded, since then none is asked for. New ones will be found by hashes of this
/// seed.
pub fn forget_parts<P: Key>(alloc: Global, seed: Seed, none_left: bool, parts: &mut Parts<P>)
    ensures { (parts.new ≡ parts.old) ⊎ (parts.new ≡ no_parts) }
{
    if none_left || parts.is_full() {
        *parts = Parts::new(alloc, seed);
    }
}

/// Expands the next state: its next states are found, and its edges are kept. So are the parts of
/// its steps.
pub fn expand_next<M: Parted>(
    finder: &Finder<'_, M>,
    trail: &mut Trail<M::State>,
    expanded: &mut Expanded,
    parts: &mut Parts<M::Part>,
) -> Result<(), Failure<Stop>>
    requires active { IsActive M.behaviour finder.now trail.old }
    requires expanded { AreExpanded (M.behaviour finder.now.machine.now) trail.old.states expanded.old }
    requires parts { AreKeptParts (M.steps_of finder.now.machine.now) trail.old.states expanded.old.cells parts.old }
    requires some { length expanded.old.edges.items < length trail.old.states }
    requires no_pairs { trail.old.pairs ≡ [] }
    ensures expanded { OnOk result (AreExpanded (M.behaviour finder.now.machine.now) trail.new.states expanded.new) }
    ensures parts { OnOk result (AreKeptParts (M.steps_of finder.now.machine.now) trail.new.states expanded.new.cells parts.new) }
    ensures count { OnOk result (length expanded.new.edges.items ≡ length expanded.old.edges.items + 1) }
    ensures advances { OnOk result (Advances M.behaviour finder.now trail.old trail.new) }
    ensures no_pairs { trail.new.pairs ≡ [] }
    ensures passed { IfErr result (IfFault (λ _. HasPassed finder.now.limit trail.new)) }
    ensures traced { IfErr result (IfFault (λ _. IsTraced (M.behaviour finder.now.machine.now) trail.new)) }
{
    let number = expanded.edges.len();
    let edges = finder.find_edges(trail, &mut expanded.cells, parts, number)?;
    expanded.cells.rank(finder.alloc)?;
    let sorted = sort_edges(finder.alloc, &expanded.cells, edges.as_slice())?;
    let rules = rules_of(finder.alloc, edges.as_slice())?;
    expanded.edges.push(sorted)?;
    expanded.rules.push(rules)?;
    Ok(())
}

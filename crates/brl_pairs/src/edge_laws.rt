//! Laws of edges, for the crates above. Each is the contract of a function that does nothing.
ghost use Rattle.std.specs.Prelude.{◌↔◌, ℕ, List};
ghost use Rattle.brl_pairs.specs.Body.{NumberPair};
ghost use Rattle.brl_pairs.specs.Edges.{AreEdges, AreInOrder};
ghost use Rattle.brl_pairs.specs.NumberPairs.{IsFollowed};
ghost use Rattle.brl_pairs.specs.Pairs.{IsAdvanced};
ghost use Rattle.brl_pairs.specs.Sorted.{DoMatch};
ghost use Rattle.brl_pairs.specs.declared.edge.Edge.{Edge as EdgeValue};
ghost use Rattle.brl_pairs.specs.declared.lead.Advanced.TheVariants.{Apart};

use crate::Machine;

/// The edges of a state ascend by rule, like the state's steps.
pub fn edges_law<M: Machine>(machine: &M)
    ensures { (states : List M.State) (number : ℕ) (edges : List EdgeValue) →
        AreEdges (M.behaviour machine.now) states number edges → AreInOrder edges }
{
    let _ = machine.start();
}

/// `advance` answers `Apart` exactly for cells that don't match the lead, and the run behind makes
/// no pair by an edge with such cells.
pub fn unmatched_law()
    ensures apart { (lead cells : List ℕ) → IsAdvanced lead cells Apart ↔ (DoMatch lead cells → ⊥) }
    ensures followed { (pairs : List NumberPair) (ahead : ℕ) (lead : List ℕ) (e : EdgeValue) →
        (DoMatch lead e.cells → ⊥) → IsFollowed pairs ahead lead e }
{}

//! Laws of machines without some characters. Each is the contract of a function that does nothing.
ghost use Rattle.std.specs.Prelude.{◌≡◌, ◌↔◌, ℕ, List, []};
ghost use Rattle.brl_pairs.specs.Pairs.{IsClosed};
ghost use Rattle.brl_pairs.specs.Runs.{IsExact, IsUnambiguous};
ghost use Rattle.brl_without.specs.Without.{IsUnambiguousFor, without};

use brl_pairs::{Machine, Sets};

/// Without no characters a machine is itself.
pub fn nothing_left_out_law<M: Machine>(machine: &M)
    ensures { without [] (M.behaviour machine.now) ≡ M.behaviour machine.now }
{}

/// A machine that is exact is exact without some characters too.
pub fn exact_without_law<M: Machine>(machine: &M)
    ensures { (left_out : List ℕ) → IsExact (M.behaviour machine.now) → IsExact (without left_out (M.behaviour machine.now)) }
{}

/// Without some characters a machine is unambiguous exactly where any two of its texts that use
/// none of them, and have the same cells, are equal.
pub fn unambiguous_without_law<M: Machine>(machine: &M)
    ensures { (left_out : List ℕ) →
        IsUnambiguous (without left_out (M.behaviour machine.now)) ↔ IsUnambiguousFor left_out (M.behaviour machine.now) }
{}

/// Sets of states and pairs that are closed for a machine are closed for it without some characters
/// too.
pub fn closed_without_law<M: Machine, C: Sets<M::State>>(machine: &M)
    ensures { (left_out : List ℕ) → IsClosed (M.behaviour machine.now) C.sets → IsClosed (without left_out (M.behaviour machine.now)) C.sets }
{}

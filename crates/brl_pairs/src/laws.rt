//! Laws for the crates above: what `advance` decides, and the theorem on closed sets. Each is the
//! contract of a function that does nothing.
ghost use Rattle.std.specs.Prelude.{◌≡◌, ◌↔◌, ℕ, List, [], Option};
ghost use Rattle.brl_pairs.specs.declared.step.Pair.{Pair as PairValue};
ghost use Rattle.brl_pairs.specs.Divergence.{DivergeOnce, DivergeOnlyAt, DivergeWhereListed, HasEachClash, HasEachDivergence, IsClosedBut, IsCompleteList, IsUnambiguousBut, has_rules, sets_apart};
ghost use Rattle.brl_pairs.specs.Exchanges.{IsClosedUpTo, PathsDifferByExchangesBut, TextsDifferByExchangesBut};
ghost use Rattle.brl_pairs.specs.Pairs.{AdvanceDecides, IsClosed, Sets as SetsValue, numbered};
ghost use Rattle.brl_pairs.specs.Runs.{IsExact, IsUnambiguous};

use crate::Machine;

/// Any set of states and any set of pairs. It has no code: only contracts name its sets.
pub trait Sets<S> {
    ghost sets: { SetsValue S };
}

/// `advance` decides which pair follows a step of the run behind: the run stays behind by the rest,
/// gets ahead by it, or there is no pair.
pub fn advance_law<M: Machine>(_machine: &M)
    ensures { AdvanceDecides M.State }
{}

/// The theorem: where any sets of states and pairs are closed for a machine, no two different
/// texts, of any length, have the same translation.
pub fn closed_sets_law<M: Machine, C: Sets<M::State>>(machine: &M)
    ensures { IsClosed (M.behaviour machine.now) C.sets → IsUnambiguous (M.behaviour machine.now) }
{
    let _ = machine.start();
}

/// The theorem for sets that are given by numbers, finite or not: the members are what the numbers
/// give.
pub fn numbered_sets_law<M: Machine>(machine: &M)
    ensures { (states : ℕ → Option M.State) (pairs : ℕ → Option (PairValue M.State)) →
        IsClosed (M.behaviour machine.now) (numbered states pairs) → IsUnambiguous (M.behaviour machine.now) }
{
    let _ = machine.start();
}

/// The theorem for sets that are closed but for pairs of rules: two paths to final states with the
/// same cells are one, or diverge at one of these. So any two texts with the same translation are
/// equal, or have paths that do so; and wherever two such paths diverge, it is at one of these
/// pairs.
pub fn divergence_law<M: Machine, C: Sets<M::State>>(machine: &M)
    ensures paths { (rules : List (ℕ × ℕ)) → IsClosedBut (M.behaviour machine.now) rules C.sets → DivergeOnlyAt rules (M.behaviour machine.now) }
    ensures texts { (rules : List (ℕ × ℕ)) → IsClosedBut (M.behaviour machine.now) rules C.sets → IsUnambiguousBut rules (M.behaviour machine.now) }
    ensures each { (rules : List (ℕ × ℕ)) → IsClosedBut (M.behaviour machine.now) rules C.sets → HasEachDivergence rules (M.behaviour machine.now) }
{
    let _ = machine.start();
}

/// `divergence_law` for sets whose states and pairs have numbers.
pub fn numbered_divergence_law<M: Machine>(machine: &M)
    ensures paths { (rules : List (ℕ × ℕ)) (states : ℕ → Option M.State) (pairs : ℕ → Option (PairValue M.State)) →
        IsClosedBut (M.behaviour machine.now) rules (numbered states pairs) → DivergeOnlyAt rules (M.behaviour machine.now) }
    ensures texts { (rules : List (ℕ × ℕ)) (states : ℕ → Option M.State) (pairs : ℕ → Option (PairValue M.State)) →
        IsClosedBut (M.behaviour machine.now) rules (numbered states pairs) → IsUnambiguousBut rules (M.behaviour machine.now) }
    ensures each { (rules : List (ℕ × ℕ)) (states : ℕ → Option M.State) (pairs : ℕ → Option (PairValue M.State)) →
        IsClosedBut (M.behaviour machine.now) rules (numbered states pairs) → HasEachDivergence rules (M.behaviour machine.now) }
{
    let _ = machine.start();
}

/// The theorem for sets that are closed but for exchanges and pairs of rules: texts with the same
/// translation differ by exchanges, or diverge at such a pair. So any two texts with the same
/// translation have paths that do so.
pub fn exchange_law<M: Machine, C: Sets<M::State>>(machine: &M)
    ensures paths { (exchanged rules : List (ℕ × ℕ)) → IsClosedUpTo (M.behaviour machine.now) exchanged rules C.sets →
        PathsDifferByExchangesBut exchanged rules (M.behaviour machine.now) }
    ensures texts { (exchanged rules : List (ℕ × ℕ)) → IsClosedUpTo (M.behaviour machine.now) exchanged rules C.sets →
        TextsDifferByExchangesBut exchanged rules (M.behaviour machine.now) }
{
    let _ = machine.start();
}

/// `exchange_law` for sets whose states and pairs have numbers.
pub fn numbered_exchange_law<M: Machine>(machine: &M)
    ensures paths { (exchanged rules : List (ℕ × ℕ)) (states : ℕ → Option M.State) (pairs : ℕ → Option (PairValue M.State)) →
        IsClosedUpTo (M.behaviour machine.now) exchanged rules (numbered states pairs) → PathsDifferByExchangesBut exchanged rules (M.behaviour machine.now) }
    ensures texts { (exchanged rules : List (ℕ × ℕ)) (states : ℕ → Option M.State) (pairs : ℕ → Option (PairValue M.State)) →
        IsClosedUpTo (M.behaviour machine.now) exchanged rules (numbered states pairs) → TextsDifferByExchangesBut exchanged rules (M.behaviour machine.now) }
{
    let _ = machine.start();
}

/// Sets that are closed but for no pairs of rules and no exchanges are the closed sets.
pub fn nothing_excused_law<M: Machine, C: Sets<M::State>>(machine: &M)
    ensures { IsClosedUpTo (M.behaviour machine.now) [] [] C.sets ↔ IsClosed (M.behaviour machine.now) C.sets }
{
    let _ = machine.start();
}

/// If paths with the same cells diverge at these pairs of rules alone, there are sets that are
/// closed but for these: the states that steps lead to from the start, and the pairs with two runs
/// that diverge at none of them.
pub fn divergence_sets_law<M: Machine>(machine: &M)
    ensures { (rules : List (ℕ × ℕ)) → HasEachDivergence rules (M.behaviour machine.now) →
        IsClosedBut (M.behaviour machine.now) rules (sets_apart (M.behaviour machine.now) rules) }
{
    let _ = machine.start();
}

/// Two paths diverge at one place, where a state lists both steps, at different places of its list.
/// The steps before it are determined, and so are the two different ones with which they go on.
pub fn one_divergence_law<M: Machine>(machine: &M)
    ensures once { DivergeOnce M.State }
    ensures listed { DivergeWhereListed (M.behaviour machine.now) }
{}

/// An exact machine has one complete list of the pairs of rules at which two different texts with
/// the same translation diverge. So there are sets that are closed but for some pairs of rules
/// exactly where these have each such pair, and two complete lists have the same pairs.
pub fn one_list_law<M: Machine>(machine: &M)
    ensures clashes { IsExact (M.behaviour machine.now) → (rules : List (ℕ × ℕ)) →
        HasEachDivergence rules (M.behaviour machine.now) ↔ HasEachClash rules (M.behaviour machine.now) }
    ensures same { IsExact (M.behaviour machine.now) → (rules others : List (ℕ × ℕ)) →
        IsCompleteList (M.behaviour machine.now) rules → IsCompleteList (M.behaviour machine.now) others →
        (r s : ℕ) → has_rules rules r s ≡ has_rules others r s }
{}

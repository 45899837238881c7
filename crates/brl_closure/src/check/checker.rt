//! The checker of a machine's states and pairs.
ghost use Rattle.std.specs.Prelude.{◌≡◌, ℕ, IfErr, IfOk, OnOk, length};
ghost use Rattle.brl_closure.specs.Excusing.{HasNone, IsClosedBody, IsRefusedUpTo, MissesUnexcused};
ghost use Rattle.brl_closure.specs.Refusals.{HasStart, HasTwoEnds, IsRefused, MissesNoPair, MissesNoState};
ghost use Rattle.brl_failure.specs.Failure.{IfFault};
ghost use Rattle.brl_pairs.specs.Sets.{sets_of};
ghost use Rattle.brl_pairs.specs.Exchanges.{IsClosedUpTo, TextsDifferByExchangesBut};
ghost use Rattle.brl_pairs.specs.Pairs.{IsClosed};
ghost use Rattle.brl_pairs.specs.Runs.{IsUnambiguous, KeepsLaws};

use crate::AcceptFault;
use crate::check::missing::has_two_ends_at;
use crate::check::pass::find_missing;
use brl_failure::Failure;
use brl_pairs::{Body, Excused, Machine, Parted, numbered_exchange_law, numbered_sets_law};
use brl_parts::Whole;
use brl_progress::{NoProgress, Progress};
use std::alloc::Global;

/// The numbers of states and pairs of a certificate that was accepted.
#[derive(Clone, Copy, PartialEq, Eq, Debug)]
pub struct Accepted {
    pub states: u32,
    pub pairs: u32,
}

/// Checks that no state, no split that isn't excused, and no pair is missing.
fn check_missing<M: Parted, W: Progress>(
    alloc: Global,
    machine: &M,
    excused: &Excused,
    body: &Body<M::State>,
    watch: &mut W,
) -> Result<(), Failure<AcceptFault>>
    requires laws { KeepsLaws (M.behaviour machine.now) }
    requires start { HasStart (M.behaviour machine.now) body.now }
    ensures steps { OnOk result (MissesNoState (M.behaviour machine.now) body.now) }
    ensures splits { OnOk result (HasNone (MissesUnexcused (M.behaviour machine.now) excused.now body.now)) }
    ensures moves { OnOk result (MissesNoPair (M.behaviour machine.now) body.now) }
    ensures refused { IfErr result (IfFault (IsRefusedUpTo (M.behaviour machine.now) excused.now body.now)) }
{
    let seed = body.pairs().seed();
    let missing = find_missing(alloc, machine, excused, body, seed, watch)?;
    if let Some(split) = missing.split {
        return Err(Failure::Fault(AcceptFault::SplitMissing {
            state: split.state,
            lesser: split.lesser,
            greater: split.greater,
        }));
    }
    if let Some(least) = missing.pair {
        return Err(Failure::Fault(AcceptFault::PairMissing {
            pair: least.pair,
            rule: least.rule,
        }));
    }
    Ok(())
}

/// Checks that none of the pairs has an empty lead and two final states.
fn check_ends<M: Machine>(
    machine: &M,
    excused: &Excused,
    body: &Body<M::State>,
) -> Result<(), Failure<AcceptFault>>
    requires start { HasStart (M.behaviour machine.now) body.now }
    requires steps { MissesNoState (M.behaviour machine.now) body.now }
    requires splits { HasNone (MissesUnexcused (M.behaviour machine.now) excused.now body.now) }
    requires moves { MissesNoPair (M.behaviour machine.now) body.now }
    ensures complete { OnOk result ((number : ℕ) → HasTwoEnds (M.behaviour machine.now) body.now number → ⊥) }
    ensures refused { IfErr result (IfFault (IsRefusedUpTo (M.behaviour machine.now) excused.now body.now)) }
{
    for number in 0..body.pair_count() {
        if has_two_ends_at(machine, body, number as usize) {
            return Err(Failure::Fault(AcceptFault::BothEnd { pair: number }));
        }
    }
    Ok(())
}

/// Checks that the states and pairs are closed, but for splits that are excused.
fn check<M: Parted, W: Progress>(
    alloc: Global,
    machine: &M,
    excused: &Excused,
    body: &Body<M::State>,
    watch: &mut W,
) -> Result<(), Failure<AcceptFault>>
    ensures closed { OnOk result (IsClosedBody (M.behaviour machine.now) excused.now body.now) }
    ensures refused { IfErr result (IfFault (IsRefusedUpTo (M.behaviour machine.now) excused.now body.now)) }
{
    if !body.has_state(&machine.start()) {
        return Err(Failure::Fault(AcceptFault::NoStart));
    }
    check_missing(alloc, machine, excused, body, watch)?;
    check_ends(machine, excused, body)
}

/// Accepts states and pairs exactly where they are closed for a machine; else the fault is the
/// first test that fails, with the least numbers. Then the machine translates no two different
/// texts, of any length, to the same cells.
///
/// Otherwise the fault is the first of `NoStart`, `StateMissing`, `SplitMissing`, `PairMissing` and
/// `BothEnd` that applies. It names the least state or pair to which it applies, and then the least
/// rules, of two rules the lesser one first.
pub fn accept<M: Machine>(
    alloc: Global,
    machine: &M,
    body: &Body<M::State>,
) -> Result<Accepted, Failure<AcceptFault>>
    // The states and pairs are closed.
    ensures closed { OnOk result (IsClosed (M.behaviour machine.now) (sets_of body.now)) }
    // Two texts of the machine that are translated to the same cells are equal.
    ensures unambiguous { OnOk result (IsUnambiguous (M.behaviour machine.now)) }
    ensures states { IfOk result (λ accepted. accepted.states ≡ length body.now.states) }
    ensures pairs { IfOk result (λ accepted. accepted.pairs ≡ length body.now.pairs) }
    // The fault applies, and it is the first one, with the least numbers.
    ensures refused { IfErr result (IfFault (IsRefused (M.behaviour machine.now) body.now)) }
    // States and pairs that are refused are not closed.
    ensures not_closed { IfErr result (IfFault (λ _. IsClosed (M.behaviour machine.now) (sets_of body.now) → ⊥)) }
{
    let whole = Whole::new(machine);
    numbered_sets_law(&whole);
    let excused = Excused::nothing(alloc);
    accept_up_to(alloc, &whole, &excused, body, &mut NoProgress)
}

/// Accepts sets exactly where they are closed but for excused splits: then texts with the same
/// cells differ by exchanges, or diverge at an accepted pair. Then any two texts of the machine, of
/// any length, that it translates to the same cells are the same step by step but for exchanges, to
/// their ends or up to a place where they go on with two steps of an accepted pair of rules.
///
/// Otherwise the fault is the first one that applies, as for `accept`; `SplitMissing` names the
/// least split that is neither listed nor excused. `watch` hears of the progress after each state.
/// The parts of the machine's steps are listed once each. They and their cells are found by hashes
/// of the seed of the body's pairs.
pub fn accept_up_to<M: Parted, W: Progress>(
    alloc: Global,
    machine: &M,
    excused: &Excused,
    body: &Body<M::State>,
    watch: &mut W,
) -> Result<Accepted, Failure<AcceptFault>>
    // The states and pairs are closed, but for splits that are excused.
    ensures closed { OnOk result (IsClosedUpTo (M.behaviour machine.now) excused.now.exchanged excused.now.accepted (sets_of body.now)) }
    // Two texts of the machine that are translated to the same cells differ by exchanges, to their
    // ends or up to a place where they diverge at an accepted pair of rules.
    ensures texts { OnOk result (TextsDifferByExchangesBut excused.now.exchanged excused.now.accepted (M.behaviour machine.now)) }
    ensures states { IfOk result (λ accepted. accepted.states ≡ length body.now.states) }
    ensures pairs { IfOk result (λ accepted. accepted.pairs ≡ length body.now.pairs) }
    // The fault applies, and it is the first one, with the least numbers.
    ensures refused { IfErr result (IfFault (IsRefusedUpTo (M.behaviour machine.now) excused.now body.now)) }
    // States and pairs that are refused are not closed, but for what is excused.
    ensures not_closed { IfErr result (IfFault (λ _. IsClosedUpTo (M.behaviour machine.now) excused.now.exchanged excused.now.accepted (sets_of body.now) → ⊥)) }
{
    numbered_exchange_law(machine);
    check(alloc, machine, excused, body, watch)?;
    Ok(Accepted {
        states: body.state_count(),
        pairs: body.pair_count(),
    })
}

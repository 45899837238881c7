//! The pass over the states, with the edges of one state at a time.
ghost use Rattle.std.specs.Prelude.{◌≡◌, ◌+◌, ◌<◌, ◌↔◌, IfErr, IfOk, IsTrue, List, MatchOption, None, OnOk, length};
ghost use Rattle.brl_closure.specs.Alike.{AreFirstTwoAt};
ghost use Rattle.brl_closure.specs.Pass.{ArePairsBehind, IsMissingBelow, IsPairFound};
ghost use Rattle.brl_closure.specs.Passed.{ArePassed, MissNone};
ghost use Rattle.brl_closure.specs.Excusing.{IsRefusedUpTo};
ghost use Rattle.brl_closure.specs.Refusals.{HasStart, MissesNoState};
ghost use Rattle.brl_failure.specs.Failure.{IfFault};
ghost use Rattle.brl_pairs.specs.Body.{NumberPair};
ghost use Rattle.brl_pairs.specs.Runs.{KeepsLaws};

use crate::AcceptFault;
use crate::check::earlier::EarlierEdges;
use crate::check::edges::{KeptParts, edges_of};
use crate::check::kinds::sort_first_two;
use crate::check::missing::{MissingPair, MissingSplit, StateEdges};
use crate::check::pairs_by_state::{PairsByTrailingState, pairs_by_trailing_state};
use crate::check::sorted::Sorted;
use brl_failure::Failure;
use brl_pairs::{Body, Excused, Key, Machine, Parted, Seed};
use brl_progress::{Progress, Work};
use std::alloc::{AllocError, Global};

/// What is missing at the states that were passed: the least split, or where no split is missing
/// the least pair.
#[derive(Clone, Copy)]
pub struct Missing {
    pub split: Option<MissingSplit>,
    pub pair: Option<MissingPair>,
}

/// Whether a pair comes before the least one that is missing so far, if one is.
fn comes_before(number: u32, least: Option<MissingPair>) -> bool
    ensures { IsTrue result ↔ MatchOption least (Unit {0}) (λ missing. number < missing.pair) }
{
    match least {
        Some(missing) => number < missing.pair,
        None => true,
    }
}

/// The least missing pair, once the pairs whose run behind is in one more state are tried too. They
/// are tried in their order, and only before the least one so far.
fn missing_pair_after<M: Machine>(
    at: &StateEdges<'_, M>,
    behind: &PairsByTrailingState,
    state: u32,
    least: Option<MissingPair>,
) -> Result<Option<MissingPair>, AllocError>
    requires behind { ArePairsBehind (length at.now.body.now.states) at.now.body.now.pairs behind.now }
    requires within { state < length at.now.body.now.states }
    requires edges { AreFirstTwoAt (M.behaviour at.now.machine.now) at.now.excused.now at.now.body.now.states state at.now.edges.now.edges }
    requires least { IsPairFound (M.behaviour at.now.machine.now) at.now.body.now state least }
    ensures { IfOk result (IsPairFound (M.behaviour at.now.machine.now) at.now.body.now (state + 1)) }
{
    let mut place = behind.first[state as usize];
    while let Some(number) = place {
        if !comes_before(number, least) {
            return Ok(least);
        }
        let missing = at.missing_pair_at(number as usize)?;
        if let Some(rule) = missing {
            return Ok(Some(MissingPair { pair: number, rule }));
        }
        place = behind.next[number as usize];
    }
    Ok(least)
}

/// What is missing, once one more state is passed. A missing split is named before any missing
/// pair, so nothing more is looked for after it.
fn missing_after<M: Machine>(
    at: &StateEdges<'_, M>,
    earlier: &EarlierEdges,
    behind: &PairsByTrailingState,
    state: u32,
    missing: Missing,
) -> Result<Missing, AllocError>
    requires behind { ArePairsBehind (length at.now.body.now.states) at.now.body.now.pairs behind.now }
    requires within { state < length at.now.body.now.states }
    requires edges { AreFirstTwoAt (M.behaviour at.now.machine.now) at.now.excused.now at.now.body.now.states state at.now.edges.now.edges }
    requires passed { ArePassed at.now.body.now.pairs at.now.edges.now.cells earlier.now.lists.items }
    requires missing { IsMissingBelow (M.behaviour at.now.machine.now) at.now.excused.now at.now.body.now state missing }
    ensures listed { IfOk result (λ after. after.split ≡ None → MissNone at.now.excused.now at.now.body.now.pairs at.now.edges.now.edges) }
    ensures missing { IfOk result (IsMissingBelow (M.behaviour at.now.machine.now) at.now.excused.now at.now.body.now (state + 1)) }
{
    if missing.split.is_some() {
        return Ok(missing);
    }
    let split = at.missing_split_at(state, earlier.likely(at.edges))?;
    if split.is_some() {
        return Ok(Missing { split, pair: None });
    }
    let pair = missing_pair_after(at, behind, state, missing.pair)?;
    Ok(Missing { split, pair })
}

/// Keeps the edges of a state if none of its splits is missing and nothing is excused.
fn keep_passed(
    alloc: Global,
    excused: &Excused,
    missing: Missing,
    edges: Sorted<'_>,
    earlier: &mut EarlierEdges,
) -> Result<(), AllocError>
    ensures { OnOk result ((pairs : List NumberPair) → (missing.split ≡ None → MissNone excused.now pairs edges.entry.edges) → ArePassed pairs edges.entry.cells earlier.old.lists.items → ArePassed pairs edges.entry.cells earlier.new.lists.items) }
{
    edges.law();
    // Where something is excused a split depends on its rules, which kept edges don't have.
    if missing.split.is_some() || !excused.is_nothing() {
        return Ok(());
    }
    earlier.keep(alloc, edges)
}

/// What is missing, by one pass over the states that holds the edges of one state at a time. A
/// watcher hears of each state. The fault is the first step that leads to no state of the body.
/// Parts, cells and kinds are found by hashes of this seed.
pub fn find_missing<M: Parted, W: Progress>(
    alloc: Global,
    machine: &M,
    excused: &Excused,
    body: &Body<M::State>,
    seed: Seed,
    watch: &mut W,
) -> Result<Missing, Failure<AcceptFault>>
    requires laws { KeepsLaws (M.behaviour machine.now) }
    requires start { HasStart (M.behaviour machine.now) body.now }
    ensures missing { IfOk result (IsMissingBelow (M.behaviour machine.now) excused.now body.now (length body.now.states)) }
    ensures complete { OnOk result (MissesNoState (M.behaviour machine.now) body.now) }
    ensures refused { IfErr result (IfFault (IsRefusedUpTo (M.behaviour machine.now) excused.now body.now)) }
{
    let behind = pairs_by_trailing_state(alloc, body)?;
    let mut kept = KeptParts::new(alloc, seed);
    let mut earlier = EarlierEdges::new(alloc);
    let mut missing = Missing {
        split: None,
        pair: None,
    };
    for state in 0..body.state_count() {
        watch.report(work_at(body, state));
        kept.forget_parts(alloc, seed);
        let edges = edges_of(alloc, machine, body, &mut kept, state as usize)?;
        kept.cells.rank(alloc)?;
        let sorted = sort_first_two(alloc, excused, &kept.cells, edges, seed)?;
        let at = StateEdges {
            alloc,
            machine,
            excused,
            body,
            edges: &sorted,
        };
        missing = missing_after(&at, &earlier, &behind, state, missing)?;
        keep_passed(alloc, excused, missing, sorted, &mut earlier)?;
    }
    Ok(missing)
}

/// How far the pass is at the state with this number.
fn work_at<S: Key>(body: &Body<S>, state: u32) -> Work {
    Work::Check {
        passed: u64::from(state),
        states: u64::from(body.state_count()),
        pairs: u64::from(body.pair_count()),
    }
}

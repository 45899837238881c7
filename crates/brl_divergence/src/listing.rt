//! A listing of a machine's divergences, in slices or at once.
ghost use Rattle.std.specs.Prelude.{◌≡◌, ◌<◌, ◌≤◌, IfErr, IfOk, length};
ghost use Rattle.std.specs.Bool.{OnFalse, OnTrue};
ghost use Rattle.std.specs.BTreeMap.{btree_map_len};
ghost use Rattle.brl_divergence.specs.Answers.{AreDivergencesOf, IsListed};
ghost use Rattle.brl_divergence.specs.Found.{IsOver};
ghost use Rattle.brl_divergence.specs.ListingView.{IsOf};
ghost use Rattle.brl_divergence.specs.Working.{AreSteps, IsDone, IsStep, IsWorking};
ghost use Rattle.brl_divergence.specs.declared.expanded.Expanded.{Expanded as ExpandedValue};
ghost use Rattle.brl_failure.specs.Failure.{IfFault};
ghost use Rattle.brl_progress.specs.Slices.{IfFinished, IfUnfinished};

use crate::divergences::{Divergences, RuleTexts};
use crate::expanded::{Expanded, expand_next, forget_parts};
use crate::explorer::Explorer;
use crate::found::FoundSoFar;
use brl_closure::{Finder, KnownSteps, Stop, Trail};
use brl_failure::Failure;
use brl_pairs::{Body, Machine, Parted, Seed};
use brl_parts::Parts;
use brl_progress::{Progress, Slice, Sliced, Work, run_to_end};
use std::alloc::{AllocError, Global};
use std::marker::Model;

/// A listing that isn't finished. First all states are found and expanded, breadth first. Then the
/// splits of one state after the other are settled. It ends where all are, or as soon as more than
/// `limit` states, pairs or listed pairs of rules are found; pairs that are found from a split and
/// dropped count while they are kept.
///
/// A contract sees how many steps are left at most. `list_divergences` runs a listing to its end.
#[derive(Drop)]
pub struct Listing<'m, M: Parted> {
    finder: Finder<'m, M>,
    expanded: Expanded,
    /// The parts of steps that have been listed, as long as states are to be expanded.
    parts: Parts<M::Part>,
    found: FoundSoFar<M::State>,
    /// The number of states whose splits are settled.
    settled: usize,
}

impl<'m, M: Parted> Model for Listing<'m, M> {
    ghost use Rattle.brl_divergence.specs.ListingView.{ListingView};

    ghost Value = { ListingView M };

    ghost use Rattle.brl_divergence.specs.Working.{IsWorking, steps_left};

    ghost view = { λ l. record {
      machine = l.finder.machine.now;
      limit = l.finder.limit;
      steps_left = steps_left l.finder.limit l.expanded l.settled;
    } };

    ghost invariant = { λ l. IsWorking M.behaviour M.steps_of l.finder l.expanded l.parts l.found l.settled };
}

impl<'m, M: Parted> Listing<'m, M> {
    /// The listing of a machine that has found the start, or its answer. It finds states and pairs
    /// by hashes of this seed, which is to be drawn from all that the machine depends on. Splits
    /// into steps of the pairs of rules that are listed already aren't explored.
    pub fn start(
        alloc: Global,
        machine: &'m M,
        limit: u64,
        seed: Seed,
        listed: RuleTexts,
    ) -> Result<Slice<Listing<'m, M>, Divergences<M::State>>, AllocError>
        requires limit { limit ≤ 4294967295 }
        requires listed { IsListed (M.behaviour machine.now) listed }
        requires few { btree_map_len listed ≤ limit }
        ensures finished { IfOk result (IfFinished (AreDivergencesOf (M.behaviour machine.now) limit)) }
        ensures unfinished { IfOk result (IfUnfinished (IsOf machine.now limit)) }
    {
        let finder = Finder {
            alloc,
            machine,
            limit,
            seed,
        };
        let found = FoundSoFar {
            trail: finder.begin()?,
            list: listed,
            known: KnownSteps::new(alloc),
        };
        if limit == 0 {
            return Ok(Slice::Finished(partial(&finder, found)));
        }
        Ok(Slice::Unfinished(Listing {
            finder,
            expanded: Expanded::new(alloc, seed),
            parts: Parts::new(alloc, seed),
            found,
            settled: 0,
        }))
    }
}

impl<'m, M: Parted> Sliced for Listing<'m, M> {
    ghost use Rattle.std.specs.Prelude.{ℕ};
    ghost use Rattle.std.proofs.Common.{subst};
    ghost use Rattle.brl_divergence.specs.ListingView.{IsAfter};

    type Outcome = Divergences<M::State>;

    ghost ends_with = { λ listing. AreDivergencesOf (M.behaviour listing.machine) listing.limit };

    ghost comes_to = { λ steps old new. IsAfter steps old new };

    ghost steps_left = { λ listing. listing.steps_left };

    /// How far it is.
    fn work(&self) -> Work {
        Work::Search {
            states: self.found.trail.states.len() as u64,
            pairs: self.found.trail.pairs.len() as u64,
        }
    }

    /// Continues the listing for at most this number of steps. A step expands a state, or settles
    /// the splits of one. After `AllocError` the listing can't be continued.
    fn run(self, steps: u64) -> Result<Slice<Listing<'m, M>, Divergences<M::State>>, AllocError> {
        let Listing {
            finder,
            mut expanded,
            mut parts,
            mut found,
            mut settled,
        } = self;
        let none_left = expanded.edges.len() >= found.trail.states.len();
        forget_parts(finder.alloc, finder.seed, none_left, &mut parts);
        match run(
            &finder,
            &mut expanded,
            &mut parts,
            &mut found,
            &mut settled,
            steps,
        ) {
            Ok(true) => Ok(Slice::Unfinished(Listing {
                finder,
                expanded,
                parts,
                found,
                settled,
            })),
            Ok(false) => Ok(Slice::Finished(complete(&finder, found))),
            Err(Failure::Fault(_)) => Ok(Slice::Finished(partial(&finder, found))),
            Err(Failure::Memory) => Err(AllocError),
        }
    }

    ghost same = { λ steps old new after outcome ends.
        subst (λ (limit : ℕ). AreDivergencesOf (M.behaviour old.machine) limit outcome) after.same_listing.same_limit
        (subst (λ (machine : M). AreDivergencesOf (M.behaviour machine) new.limit outcome) after.same_listing.same_machine ends) };

    ghost fewer = { λ steps old new after. after.fewer };
}

/// Lists each pair of rules at which paths of a machine with the same cells diverge, with two
/// texts, or finds the limit. The seed and what is listed already are as for `Listing::start`.
/// `watch` hears of the progress before each slice of steps.
pub fn list_divergences<M: Parted, W: Progress>(
    alloc: Global,
    machine: &M,
    limit: u64,
    seed: Seed,
    listed: RuleTexts,
    watch: &mut W,
) -> Result<Divergences<M::State>, AllocError>
    requires limit { limit ≤ 4294967295 }
    requires listed { IsListed (M.behaviour machine.now) listed }
    requires few { btree_map_len listed ≤ limit }
    ensures { IfOk result (AreDivergencesOf (M.behaviour machine.now) limit) }
{
    let begun = Listing::start(alloc, machine, limit, seed, listed)?;
    run_to_end(begun, watch)
}

/// Takes at most this number of steps. False where nothing is left to do.
fn run<M: Parted>(
    finder: &Finder<'_, M>,
    expanded: &mut Expanded,
    parts: &mut Parts<M::Part>,
    found: &mut FoundSoFar<M::State>,
    settled: &mut usize,
    steps: u64,
) -> Result<bool, Failure<Stop>>
    requires working { IsWorking M.behaviour M.steps_of finder.now expanded.old parts.old found.old settled.old }
    ensures steps { IfOk result (λ more. OnTrue more (AreSteps M.behaviour M.steps_of steps finder.now expanded.old settled.old expanded.new parts.new found.new settled.new)) }
    ensures done { IfOk result (λ more. OnFalse more (IsDone M.behaviour finder.now expanded.new found.new)) }
    ensures over { IfErr result (IfFault (λ _. IsOver (M.behaviour finder.now.machine.now) finder.now.limit found.new)) }
{
    for _ in 0..steps {
        if !step(finder, expanded, parts, found, settled)? {
            return Ok(false);
        }
    }
    Ok(true)
}

/// Expands the next state, or where all are expanded settles the splits of the next one. False
/// where nothing is left to do.
fn step<M: Parted>(
    finder: &Finder<'_, M>,
    expanded: &mut Expanded,
    parts: &mut Parts<M::Part>,
    found: &mut FoundSoFar<M::State>,
    settled: &mut usize,
) -> Result<bool, Failure<Stop>>
    requires working { IsWorking M.behaviour M.steps_of finder.now expanded.old parts.old found.old settled.old }
    ensures step { IfOk result (λ more. OnTrue more (IsStep M.behaviour M.steps_of finder.now expanded.old settled.old expanded.new parts.new found.new settled.new)) }
    ensures done { IfOk result (λ more. OnFalse more (IsDone M.behaviour finder.now expanded.new found.new)) }
    ensures over { IfErr result (IfFault (λ _. IsOver (M.behaviour finder.now.machine.now) finder.now.limit found.new)) }
{
    if expanded.edges.len() < found.trail.states.len() {
        expand_next(finder, &mut found.trail, expanded, parts)?;
        return Ok(true);
    }
    if *settled < found.trail.states.len() {
        let explorer = Explorer {
            finder,
            expanded: &*expanded,
        };
        explorer.settle_state(found, *settled)?;
        *settled += 1;
        return Ok(true);
    }
    Ok(false)
}

/// The whole list, and the states and pairs, where nothing is left to do.
fn complete<M: Machine>(
    finder: &Finder<'_, M>,
    found: FoundSoFar<M::State>,
) -> Divergences<M::State>
    requires { (expanded : ExpandedValue) × IsDone M.behaviour finder.now expanded found }
    ensures { AreDivergencesOf (M.behaviour finder.now.machine.now) finder.now.limit result }
{
    let FoundSoFar { trail, list, .. } = found;
    let Trail {
        states: states,
        pairs: pairs,
        ..
    } = trail;
    Divergences::Complete {
        list,
        body: Body::new(states, pairs),
    }
}

/// What is listed, and the numbers of what was found, once one of them is more than the limit.
fn partial<M: Machine>(finder: &Finder<'_, M>, found: FoundSoFar<M::State>) -> Divergences<M::State>
    requires { IsOver (M.behaviour finder.now.machine.now) finder.now.limit found }
    ensures { AreDivergencesOf (M.behaviour finder.now.machine.now) finder.now.limit result }
{
    let states = found.trail.states.as_slice().len() as u64;
    let pairs = found.trail.pairs.len() as u64;
    Divergences::Partial {
        list: found.list,
        states,
        pairs,
    }
}

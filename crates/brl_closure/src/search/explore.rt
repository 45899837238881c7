//! A search of a machine, in slices or at once.
ghost use Rattle.std.specs.Prelude.{◌≡◌, ◌<◌, ◌≤◌, length, IfErr, IfOk, OnOk};
ghost use Rattle.std.specs.Bool.{OnFalse, OnTrue};
ghost use Rattle.brl_failure.specs.Failure.{IfFault};
ghost use Rattle.brl_progress.specs.Slices.{IfFinished, IfUnfinished};
ghost use Rattle.brl_closure.specs.Answers.{IsOutcome};
ghost use Rattle.brl_closure.specs.Reached.{AtLeast, Reached, ReachedPair, SamePair, SameState};
ghost use Rattle.brl_closure.specs.SearchView.{IsOf};
ghost use Rattle.brl_closure.specs.Trail.{IsStopped};
ghost use Rattle.brl_closure.specs.Worklist.{AreSteps, IsFinished, IsStep, IsWorking, NoneIsReady};

use crate::search::finder::{Finder, Stop};
use crate::search::outcome::Outcome;
use crate::search::trail::Trail;
use crate::search::worklist::Worklist;
use brl_failure::Failure;
use brl_pairs::{Parted, Seed};
use brl_progress::{Progress, Slice, Sliced, Work, run_to_end};
use std::alloc::{AllocError, Global};
use std::marker::Model;

/// A search of a machine that isn't finished: states are found from its start on, breadth first,
/// each state's steps in listed order, and with them the pairs into which they split and the
/// successors of pairs. It ends where nothing more is found, at a pair with an empty lead and two
/// final states, or as soon as more than `limit` states or more than `limit` pairs are found.
///
/// A contract sees what is found so far, and how many steps are left at most. `search_machine` runs
/// such a search to its end.
#[derive(Drop)]
pub struct Search<'m, M: Parted> {
    finder: Finder<'m, M>,
    trail: Trail<M::State>,
    worklist: Worklist<M::Part>,
}

impl<'m, M: Parted> Model for Search<'m, M> {
    ghost use Rattle.brl_closure.specs.SearchView.{SearchView};

    ghost Value = { SearchView M M.State };

    ghost use Rattle.brl_closure.specs.Worklist.{IsWorking, steps_left};

    ghost view = { λ s. record {
      machine = s.finder.machine.now;
      limit = s.finder.limit;
      states = s.trail.states;
      pairs = s.trail.pairs;
      steps_left = steps_left s.finder.limit s.trail s.worklist;
    } };

    ghost invariant = { λ s. IsWorking M.behaviour M.steps_of s.finder s.trail s.worklist };
}

impl<'m, M: Parted> Search<'m, M> {
    /// The search of a machine that has found the start, or its outcome. It finds states and pairs
    /// by hashes of this seed, which is to be drawn from all that the machine depends on.
    pub fn start(
        alloc: Global,
        machine: &'m M,
        limit: u64,
        seed: Seed,
    ) -> Result<Slice<Search<'m, M>, Outcome<M::State>>, AllocError>
        requires { limit ≤ 4294967295 }
        ensures finished { IfOk result (IfFinished (IsOutcome (M.behaviour machine.now) limit)) }
        ensures unfinished { IfOk result (IfUnfinished (IsOf machine.now limit)) }
    {
        let finder = Finder {
            alloc,
            machine,
            limit,
            seed,
        };
        let trail = finder.begin()?;
        if limit == 0 {
            return Ok(Slice::Finished(finder.counts(&trail)));
        }
        Ok(Slice::Unfinished(Search {
            finder,
            trail,
            worklist: Worklist::new(alloc, seed),
        }))
    }

    /// The number of states found so far, all of them reached.
    pub fn state_count(&self) -> usize
        ensures count { result ≡ length self.now.states }
        ensures reached { AtLeast result SameState (Reached (M.behaviour self.now.machine)) }
    {
        self.trail.states.as_slice().len()
    }

    /// The number of pairs found so far, all of them reached.
    pub fn pair_count(&self) -> usize
        ensures count { result ≡ length self.now.pairs }
        ensures reached { AtLeast result SamePair (ReachedPair (M.behaviour self.now.machine)) }
    {
        let _ = self.trail.states.as_slice();
        self.trail.pairs.len()
    }
}

impl<'m, M: Parted> Sliced for Search<'m, M> {
    ghost use Rattle.std.specs.Prelude.{ℕ};
    ghost use Rattle.std.proofs.Common.{subst};
    ghost use Rattle.brl_closure.specs.SearchView.{IsAfter};

    type Outcome = Outcome<M::State>;

    ghost ends_with = { λ search. IsOutcome (M.behaviour search.machine) search.limit };

    ghost comes_to = { λ steps old new. IsAfter steps old new };

    ghost steps_left = { λ search. search.steps_left };

    /// How far it is.
    fn work(&self) -> Work {
        Work::Search {
            states: self.state_count() as u64,
            pairs: self.pair_count() as u64,
        }
    }

    /// Continues the search for at most this number of steps. A step expands a state or walks a
    /// pair. After `AllocError` the search can't be continued.
    fn run(self, steps: u64) -> Result<Slice<Search<'m, M>, Outcome<M::State>>, AllocError> {
        let Search {
            finder,
            mut trail,
            mut worklist,
        } = self;
        worklist.forget_parts(finder.alloc, finder.seed);
        match finder.run(&mut trail, &mut worklist, steps) {
            Ok(true) => Ok(Slice::Unfinished(Search {
                finder,
                trail,
                worklist,
            })),
            Ok(false) => {
                let body = finder.body_of(trail);
                Ok(Slice::Finished(Outcome::Closed(body)))
            }
            Err(Failure::Fault(stop)) => {
                let outcome = finder.outcome_of(&trail, stop)?;
                Ok(Slice::Finished(outcome))
            }
            Err(Failure::Memory) => Err(AllocError),
        }
    }

    ghost same = { λ steps old new after outcome ends.
        subst (λ (limit : ℕ). IsOutcome (M.behaviour old.machine) limit outcome) after.same_search.same_limit
        (subst (λ (machine : M). IsOutcome (M.behaviour machine) new.limit outcome) after.same_search.same_machine ends) };

    ghost fewer = { λ steps old new after. after.fewer };
}

/// Searches a machine to its end: finds reached closed sets, or two paths with the same cells, or
/// the limit. `watch` hears of the progress before each slice of steps.
pub fn search_machine<M: Parted, W: Progress>(
    alloc: Global,
    machine: &M,
    limit: u64,
    seed: Seed,
    watch: &mut W,
) -> Result<Outcome<M::State>, AllocError>
    requires { limit ≤ 4294967295 }
    ensures { IfOk result (IsOutcome (M.behaviour machine.now) limit) }
{
    let begun = Search::start(alloc, machine, limit, seed)?;
    run_to_end(begun, watch)
}

impl<'m, M: Parted> Finder<'m, M> {
    /// Takes at most this number of steps. False where nothing is left to do.
    fn run(
        &self,
        trail: &mut Trail<M::State>,
        worklist: &mut Worklist<M::Part>,
        steps: u64,
    ) -> Result<bool, Failure<Stop>>
        requires working { IsWorking M.behaviour M.steps_of self.now trail.old worklist.old }
        ensures steps { IfOk result (λ more. OnTrue more (AreSteps M.behaviour M.steps_of steps self.now trail.old worklist.old trail.new worklist.new)) }
        ensures finished { IfOk result (λ more. OnFalse more (IsFinished M.behaviour self.now trail.new)) }
        ensures stopped { IfErr result (IfFault (IsStopped M.behaviour self.now trail.new)) }
    {
        for _ in 0..steps {
            if !self.step(trail, worklist)? {
                return Ok(false);
            }
        }
        Ok(true)
    }

    /// Walks the first queued pair whose state behind has been expanded, and else expands the next
    /// state. False where nothing is left to do.
    fn step(
        &self,
        trail: &mut Trail<M::State>,
        worklist: &mut Worklist<M::Part>,
    ) -> Result<bool, Failure<Stop>>
        requires working { IsWorking M.behaviour M.steps_of self.now trail.old worklist.old }
        ensures step { IfOk result (λ more. OnTrue more (IsStep M.behaviour M.steps_of self.now trail.old worklist.old trail.new worklist.new)) }
        ensures finished { IfOk result (λ more. OnFalse more (IsFinished M.behaviour self.now trail.new)) }
        ensures stopped { IfErr result (IfFault (IsStopped M.behaviour self.now trail.new)) }
    {
        if self.walk_next(trail, worklist)? {
            return Ok(true);
        }
        if worklist.expanded.len() < trail.states.len() {
            self.expand_next(trail, worklist)?;
            return Ok(true);
        }
        Ok(false)
    }

    /// Walks the queued pair that comes first, where its state behind has been expanded. False
    /// where it hasn't, or none is queued.
    fn walk_next(
        &self,
        trail: &mut Trail<M::State>,
        worklist: &mut Worklist<M::Part>,
    ) -> Result<bool, Failure<Stop>>
        requires working { IsWorking M.behaviour M.steps_of self.now trail.old worklist.old }
        ensures step { IfOk result (λ more. OnTrue more (IsStep M.behaviour M.steps_of self.now trail.old worklist.old trail.new worklist.new)) }
        ensures none { IfOk result (λ more. OnFalse more (NoneIsReady worklist.old)) }
        ensures same_work { IfOk result (λ more. OnFalse more (worklist.new ≡ worklist.old)) }
        ensures same { IfOk result (λ more. OnFalse more (trail.new ≡ trail.old)) }
        ensures stopped { IfErr result (IfFault (IsStopped M.behaviour self.now trail.new)) }
    {
        let known = trail.pairs.len();
        let Some(number) = worklist.pop_ready() else {
            return Ok(false);
        };
        self.walk_queued(trail, worklist, number)?;
        worklist.enqueue_from(&trail.pairs, known)?;
        Ok(true)
    }

    /// Expands the state that comes next.
    fn expand_next(
        &self,
        trail: &mut Trail<M::State>,
        worklist: &mut Worklist<M::Part>,
    ) -> Result<(), Failure<Stop>>
        requires working { IsWorking M.behaviour M.steps_of self.now trail.old worklist.old }
        requires some { length worklist.old.expanded.items < length trail.old.states }
        ensures step { OnOk result (IsStep M.behaviour M.steps_of self.now trail.old worklist.old trail.new worklist.new) }
        ensures stopped { IfErr result (IfFault (IsStopped M.behaviour self.now trail.new)) }
    {
        let known = trail.pairs.len();
        let number = worklist.expanded.len();
        let (cells, parts) = (&mut worklist.cells, &mut worklist.parts);
        let (last, expanded) = (&mut worklist.last, worklist.expanded.as_slice());
        let edges = self.expand(trail, cells, parts, last, expanded, number)?;
        worklist.make_room(self.alloc, edges.len());
        worklist.expanded.push(edges)?;
        worklist.enqueue_from(&trail.pairs, known)?;
        Ok(())
    }
}

//! The outcome of a search of a machine.
ghost use Rattle.std.specs.Prelude.{IfOk};
ghost use Rattle.brl_pairs.specs.Runs.{KeepsLaws};
ghost use Rattle.brl_closure.specs.Answers.{IsCertified, IsOutcome};
ghost use Rattle.brl_closure.specs.Trail.{HasPassed, IsStopped, IsTraced};
ghost use Rattle.brl_closure.specs.Worklist.{IsFinished};

use crate::search::finder::{Finder, Stop};
use crate::search::known_steps::KnownSteps;
use crate::search::trail::Trail;
use brl_pairs::{Body, Key, Machine};
use std::alloc::AllocError;

/// The outcome of a search of a machine.
#[derive(Drop)]
pub enum Outcome<S: Key> {
    /// These states and pairs are closed.
    Closed(Body<S>),
    /// Two different paths to final states, with the same cells, read these texts.
    BothEnd { left: Vec<char>, right: Vec<char> },
    /// This number of states and this number of pairs were found when one of the two became more
    /// than the limit.
    Limit { states: u64, pairs: u64 },
}

impl<'m, M: Machine> Finder<'m, M> {
    /// The numbers of what was found, once one of them is more than the limit.
    pub(crate) fn counts(&self, trail: &Trail<M::State>) -> Outcome<M::State>
        requires traced { IsTraced (M.behaviour self.now.machine.now) trail.now }
        requires passed { HasPassed self.now.limit trail.now }
        ensures { IsOutcome (M.behaviour self.now.machine.now) self.now.limit result }
    {
        Outcome::Limit {
            states: trail.states.as_slice().len() as u64,
            pairs: trail.pairs.len() as u64,
        }
    }

    /// The outcome where the search stops for this reason.
    pub(crate) fn outcome_of(
        &self,
        trail: &Trail<M::State>,
        stop: Stop,
    ) -> Result<Outcome<M::State>, AllocError>
        requires laws { KeepsLaws (M.behaviour self.now.machine.now) }
        requires stopped { IsStopped M.behaviour self.now trail.now stop }
        ensures { IfOk result (IsOutcome (M.behaviour self.now.machine.now) self.now.limit) }
    {
        match stop {
            Stop::Limit => Ok(self.counts(trail)),
            Stop::BothEnd(number) => {
                let mut known = KnownSteps::new(self.alloc);
                let texts = self.texts_of(trail, &mut known, number)?;
                Ok(Outcome::BothEnd {
                    left: texts.left,
                    right: texts.right,
                })
            }
        }
    }

    /// The body of what was found, where nothing is left to do.
    pub(crate) fn body_of(&self, trail: Trail<M::State>) -> Body<M::State>
        requires { IsFinished M.behaviour self.now trail }
        ensures { IsCertified (M.behaviour self.now.machine.now) self.now.limit result }
    {
        let Trail {
            states: states,
            pairs: pairs,
            ..
        } = trail;
        Body::new(states, pairs)
    }
}

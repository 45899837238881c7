//! The finder of a machine's states and pairs, and how it finds states.
ghost use Rattle.std.specs.Prelude.{◌≡◌, [], ◌∷◌, IfOk, IfErr, OnOk, Some, slice_get};
ghost use Rattle.brl_failure.specs.Failure.{IfFault};
ghost use Rattle.brl_pairs.specs.Runs.{KeepsLaws};
ghost use Rattle.brl_closure.specs.Trail.{Advances, IsActive, IsStateOrigin, IsStopped, IsTraced};

use crate::search::trail::{StateOrigin, Trail};
use brl_failure::Failure;
use brl_pairs::{Machine, Members, Seed};
use std::alloc::{AllocError, Global};

/// Finds the states and pairs of a machine, at most `limit` of each. What it has found is in a
/// `Trail`.
#[derive(Drop)]
pub struct Finder<'m, M: Machine> {
    pub alloc: Global,
    pub machine: &'m M,
    pub limit: u64,
    /// By which states and pairs are hashed.
    pub seed: Seed,
}

/// Why a search stops before all is found.
#[derive(Clone, Copy)]
pub enum Stop {
    /// More states or pairs are found than the limit allows.
    Limit,
    /// The pair with this number has an empty lead and two final states.
    BothEnd(usize),
}

impl<'m, M: Machine> Finder<'m, M> {
    /// The trail that has found the start.
    pub fn begin(&self) -> Result<Trail<M::State>, AllocError>
        ensures laws { KeepsLaws (M.behaviour self.now.machine.now) }
        ensures traced { IfOk result (IsTraced (M.behaviour self.now.machine.now)) }
        ensures states { IfOk result (λ trail. trail.states ≡ (M.behaviour self.now.machine.now).start ∷ []) }
        ensures pairs { IfOk result (λ trail. trail.pairs ≡ []) }
    {
        let mut states = Members::new(self.alloc, self.seed);
        states.insert(self.machine.start())?;
        let mut state_origins = Vec::new(self.alloc);
        state_origins.push(StateOrigin { parent: 0 })?;
        Ok(Trail {
            states,
            state_origins,
            pairs: Members::new(self.alloc, self.seed),
            pair_origins: Vec::new(self.alloc),
        })
    }

    /// The number of a state, from 0. A state that hasn't been found before is added.
    pub(crate) fn find_state(
        &self,
        trail: &mut Trail<M::State>,
        state: M::State,
        origin: StateOrigin,
    ) -> Result<u32, Failure<Stop>>
        requires active { IsActive M.behaviour self.now trail.old }
        requires origin { IsStateOrigin (M.behaviour self.now.machine.now) trail.old.states state origin }
        ensures number { IfOk result (λ number. slice_get trail.new.states number ≡ Some state) }
        ensures advances { OnOk result (Advances M.behaviour self.now trail.old trail.new) }
        ensures stopped { IfErr result (IfFault (IsStopped M.behaviour self.now trail.new)) }
        ensures pairs { trail.new.pairs ≡ trail.old.pairs }
    {
        if let Some(number) = trail.states.index_of(&state) {
            return Ok(number as u32);
        }
        let number = trail.states.len();
        trail.state_origins.push(origin)?;
        trail.states.insert(state)?;
        if trail.states.len() as u64 > self.limit {
            return Err(Failure::Fault(Stop::Limit));
        }
        Ok(number as u32)
    }
}

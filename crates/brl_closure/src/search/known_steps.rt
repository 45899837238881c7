//! The steps of states that have been listed.
ghost use Rattle.std.specs.Prelude.{◌≡◌, ◌<◌, [], IfOk, List, OnOk, Some, length, slice_get};
ghost use Rattle.brl_pairs.specs.Runs.{Behaviour};
ghost use Rattle.brl_closure.specs.KnownSteps.{AreKnown, AreStepsOf};

use crate::search::finder::Finder;
use brl_pairs::{Key, Machine, Step};
use std::alloc::{AllocError, Global};
use std::mem;

/// The most steps that are kept, but for those of the state that is asked for last. It bounds
/// memory alone: steps that aren't kept are listed again.
const MOST: usize = 262_144;

/// The steps of states that have been asked for, as long as there are not too many of them: for
/// whoever asks for those of the same states again and again.
#[derive(Drop)]
pub struct KnownSteps<S: Key> {
    /// The steps of each state, by its number; none where they aren't kept.
    pub lists: Vec<Vec<Step<S>>>,
    /// At least how many steps are kept.
    pub count: usize,
}

impl<S: Key> KnownSteps<S> {
    /// No steps of states are kept.
    pub fn new(alloc: Global) -> KnownSteps<S>
        ensures { result.lists.items ≡ [] }
    {
        KnownSteps {
            lists: Vec::new(alloc),
            count: 0,
        }
    }

    /// Takes away the steps of the state with this number: none where they aren't kept.
    fn take(&mut self, alloc: Global, number: usize) -> Vec<Step<S>>
        ensures taken { (m : Behaviour S) (states : List S) (s : S) → AreKnown m states self.old → slice_get states number ≡ Some s → AreStepsOf m s result.items }
        ensures known { (m : Behaviour S) (states : List S) → AreKnown m states self.old → AreKnown m states self.new }
    {
        if number < self.lists.len() {
            return mem::replace(&mut self.lists[number], Vec::new(alloc));
        }
        Vec::new(alloc)
    }

    /// Keeps the steps of the state with this number.
    pub(crate) fn put(
        &mut self,
        alloc: Global,
        number: usize,
        steps: Vec<Step<S>>,
    ) -> Result<(), AllocError>
        ensures { OnOk result ((m : Behaviour S) (states : List S) → AreKnown m states self.old →
            ((s : S) → slice_get states number ≡ Some s → AreStepsOf m s steps.items) → AreKnown m states self.new) }
    {
        while self.lists.len() <= number {
            self.lists.push(Vec::new(alloc))?;
        }
        self.lists[number] = steps;
        Ok(())
    }

    /// Counts steps that will be kept. Where too many are, those that are kept are dropped.
    fn make_room(&mut self, steps: usize)
        ensures { (m : Behaviour S) (states : List S) → AreKnown m states self.old → AreKnown m states self.new }
    {
        if self.count > MOST {
            self.lists.clear();
            self.count = 0;
        }
        self.count = self.count.saturating_add(steps);
    }
}

impl<'m, M: Machine> Finder<'m, M> {
    /// The steps of the state with this number, taken from the known ones, or listed.
    pub(crate) fn take_steps(
        &self,
        states: &[M::State],
        known: &mut KnownSteps<M::State>,
        number: usize,
    ) -> Result<Vec<Step<M::State>>, AllocError>
        requires known { AreKnown (M.behaviour self.now.machine.now) states.now known.old }
        requires within { number < length states.now }
        ensures steps { IfOk result (λ steps. (s : M.State) → slice_get states.now number ≡ Some s → steps.items ≡ (M.behaviour self.now.machine.now).steps s) }
        ensures known { OnOk result (AreKnown (M.behaviour self.now.machine.now) states.now known.new) }
    {
        let steps = known.take(self.alloc, number);
        if !steps.is_empty() {
            return Ok(steps);
        }
        let listed = self.machine.moves(self.alloc, &states[number])?;
        known.make_room(listed.len());
        Ok(listed)
    }
}

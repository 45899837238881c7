//! Machines that say of which parts the steps of a state are made.
ghost use Rattle.std.specs.Prelude.{◌≡◌, List, IfOk, IfSome};
ghost use Rattle.brl_pairs.specs.Parted.{ArePartsOf};
ghost use Rattle.brl_pairs.specs.declared.step.Step.{Step as StepValue};

use crate::{Key, Machine, Step};
use std::alloc::{AllocError, Global};

/// A machine that may say of which parts the steps of a state are made. States share parts, so
/// whoever keeps what a part has lists it once.
pub trait Parted: Machine {
    type Part: Key;

    /// The steps of a part.
    ghost steps_of: { Self → Self.Part → List (StepValue Self.State) };

    /// The parts of a state's steps: of each rule, the state's steps are those of the parts, in the
    /// order of the parts. `None` where the machine doesn't say; then `moves` lists the steps.
    /// `AllocError` if memory runs out.
    fn parts(
        &self,
        alloc: Global,
        state: &Self::State,
    ) -> Result<Option<Vec<Self::Part>>, AllocError>
        ensures { IfOk result (λ found. IfSome found (λ parts.
            ArePartsOf (steps_of self.now) ((Self.behaviour self.now).steps state.now) parts.items)) };

    /// The steps of a part. `AllocError` if memory runs out.
    fn part_steps(
        &self,
        alloc: Global,
        part: &Self::Part,
    ) -> Result<Vec<Step<Self::State>>, AllocError>
        ensures { IfOk result (λ listed. listed.items ≡ steps_of self.now part.now) };
}

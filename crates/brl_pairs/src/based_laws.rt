//! The law of bases by single steps, for the crates above.
ghost use Rattle.std.specs.Prelude.{◌≡◌, ◌↔◌, IsTrue, [], Some};
ghost use Rattle.brl_pairs.specs.Based.{IsPast, meeting};
ghost use Rattle.brl_pairs.specs.Runs.{IsListed};
ghost use Rattle.brl_pairs.specs.declared.step.Step.{Step as StepValue};

use crate::Based;

/// A state has exactly what becomes of the steps of its base, and a step as it is where no bar
/// meets it. So a step of the base is the state's where the state opens its gate, and no bar of the
/// state meets what it reads.
pub fn based_law<M: Based>(machine: &M)
    ensures each { (s base : M.State) (z : StepValue M.State) → (M.sharing machine.now).base s ≡ Some base →
        IsListed ((M.behaviour machine.now).steps s) z ↔ IsPast (M.sharing machine.now) s ((M.behaviour machine.now).steps base) z }
    ensures free { (s base : M.State) (x : StepValue M.State) → (M.sharing machine.now).base s ≡ Some base →
        IsListed ((M.behaviour machine.now).steps base) x → IsTrue ((M.sharing machine.now).opens s ((M.sharing machine.now).gate x.reads)) →
        meeting ((M.sharing machine.now).bars s) x.reads ≡ [] → IsListed ((M.behaviour machine.now).steps s) x }
{
    machine.law();
}

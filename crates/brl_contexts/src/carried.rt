//! What is due more after a step.
use brl_pairs::Key;

/// The number of a step's next state, and what is due more after the step than that state has due.
#[derive(PartialEq, Eq, Hash, Drop)]
pub struct Carried<D> {
    pub next: u32,
    pub more: D,
}

impl<D: Key> Key for Carried<D> {
    ghost use Rattle.brl_contexts.specs.SameCarried.{same_carried};

    ghost same = { same_carried D.eq D.same };
}

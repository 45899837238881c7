//! The trait of machines.
ghost use Rattle.std.specs.Prelude.{◌≡◌, IfOk};
ghost use Rattle.brl_pairs.specs.Runs.{Behaviour, KeepsLaws};

use crate::{Key, Step};
use std::alloc::{AllocError, Global};

/// A machine that translates by steps from state to state. Each of its texts has a path from the
/// start to a final state: the characters that the steps of the path read, joined, are the text,
/// and their cells, joined, are its translation.
///
/// It answers for every value of its state type, even for those that no text reaches.
pub trait Machine {
    type State: Key;

    /// What a contract sees of the machine: its start, its steps from each state, which states are
    /// final, its texts and their translation.
    ghost behaviour: { Self → Behaviour Self.State };

    /// The state before any character, of a machine that keeps the laws of machines. No memory is
    /// allocated.
    fn start(&self) -> Self::State
        ensures start { result ≡ (behaviour self.now).start }
        ensures laws { KeepsLaws (behaviour self.now) };

    /// The steps from a state, each once, by ascending rule number. `AllocError` if memory runs
    /// out.
    fn moves(
        &self,
        alloc: Global,
        state: &Self::State,
    ) -> Result<Vec<Step<Self::State>>, AllocError>
        ensures { IfOk result (λ listed. listed.items ≡ (behaviour self.now).steps state.now) };

    /// Whether a state is final: a text may end in it. No memory is allocated.
    fn ends(&self, state: &Self::State) -> bool
        ensures { result ≡ (behaviour self.now).ends state.now };
}

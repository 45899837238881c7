//! Machines whose states share steps: those of a base.
ghost use Rattle.std.specs.Prelude.{◌≡◌, IfOk, option_copied, slice_get};
ghost use Rattle.brl_pairs.specs.Based.{KeepsSharing, Sharing, meeting};

use crate::{Key, Machine};
use brl_cells::Chars;
use std::alloc::{AllocError, Global};

/// What the bars of a state leave past a step of its base.
#[derive(Drop)]
pub enum Past<D> {
    /// One is broken: the state has no such step.
    Broken,
    /// The state has the step as it is.
    Same,
    /// The state has the step, with more due after it than the step owes anyway.
    More(D),
}

/// A machine that may say of a state that its steps are those of another state, its base, but for
/// some. Many states have one base, so whoever keeps its steps lists them once, by `moves`.
///
/// Of a step of the base, a state asks two things. It must open the step's gate: then the step is
/// the state's, or else it isn't, whatever the other steps are. And its bars, which are characters,
/// may change the step, but only where a bar begins what the step reads, or begins with it. So the
/// steps that are changed are looked up by the bars, among what the steps of the base read in order
/// (`Order`), and all others are the base's, next states too.
///
/// A gate is a number of eight bits, so that the gates that a state opens are a small set. What is
/// due more is a value of its own, and `owing` a call of its own: states that leave the same past
/// steps to the same next state share the state to which that leads, and whoever looks it up by
/// both makes it once. So a step is given by what it reads and by its next state.
pub trait Based: Machine {
    /// What is due more after a step.
    type More: Key;

    /// What a contract sees of what states share.
    ghost sharing: { Self → Sharing Self.State Self.More };

    /// A law: a state's steps are its base's, by gates and bars, and those that no bar meets stay.
    /// No memory is allocated.
    fn law(&self)
        ensures { KeepsSharing Self.State.eq (Self.behaviour self.now) (sharing self.now) };

    /// The base of a state; `None` where the machine says of none. Then nothing else here counts
    /// for the state, and only `moves` lists its steps. `AllocError` if memory runs out.
    fn base(&self, alloc: Global, state: &Self::State) -> Result<Option<Self::State>, AllocError>
        ensures { IfOk result (λ base. base ≡ (sharing self.now).base state.now) };

    /// The gate of a step that reads these characters. No memory is allocated.
    fn gate(&self, reads: &Chars) -> u8
        ensures { result ≡ (sharing self.now).gate reads.now };

    /// Whether a state opens a gate. No memory is allocated.
    fn opens(&self, state: &Self::State, gate: u8) -> bool
        ensures { result ≡ (sharing self.now).opens state.now gate };

    /// The characters of the state's bar with this number, from 0; none where there is none. No
    /// memory is allocated.
    fn bar<'s>(&self, state: &'s Self::State, number: usize) -> Option<&'s Chars>
        ensures { option_copied result ≡ slice_get ((sharing self.now).bars state.now) number };

    /// What the state's bars leave past a step of its base with these characters and this next
    /// state. `met` has the numbers of the bars that meet the characters. `AllocError` if memory
    /// runs out.
    fn past(
        &self,
        alloc: Global,
        state: &Self::State,
        met: &[u32],
        reads: &Chars,
        next: &Self::State,
    ) -> Result<Past<Self::More>, AllocError>
        requires { met.now ≡ meeting ((sharing self.now).bars state.now) reads.now }
        ensures { IfOk result (λ past. past ≡ (sharing self.now).past state.now reads.now next.now) };

    /// The next state of a step with more due after it. `AllocError` if memory runs out.
    fn owing(
        &self,
        alloc: Global,
        next: &Self::State,
        more: &Self::More,
    ) -> Result<Self::State, AllocError>
        ensures { IfOk result (λ state. state ≡ (sharing self.now).owing next.now more.now) };
}

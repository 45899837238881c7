//! A machine without some characters.
ghost use Rattle.std.specs.Prelude.{◌≡◌};
ghost use Rattle.brl_without.specs.Without.{steps_without as listed_without};

use crate::LeftOut;
use brl_cells::Chars;
use brl_pairs::{Based, Key, Machine, Parted, Past, Step};
use std::alloc::{AllocError, Global};
use std::marker::Model;

/// A machine without the texts that use some characters: its steps are those that read none of
/// them. A contract sees the machine and the characters.
#[derive(Drop)]
pub struct Without<'m, M: Machine> {
    machine: &'m M,
    left_out: &'m LeftOut,
}

impl<'m, M: Machine> Model for Without<'m, M> {
    ghost use Rattle.brl_without.specs.Without.{WithoutView};

    ghost Value = { WithoutView M };

    ghost view = { λ w. record { machine = w.machine.now; left_out = w.left_out.now } };
}

impl<'m, M: Machine> Without<'m, M> {
    /// The machine without these characters.
    pub fn new(machine: &'m M, left_out: &'m LeftOut) -> Without<'m, M>
        ensures machine { result.machine ≡ machine.entry.now }
        ensures left_out { result.left_out ≡ left_out.entry.now }
    {
        Without { machine, left_out }
    }
}

impl<'m, M: Machine> Machine for Without<'m, M> {
    ghost use Rattle.brl_without.specs.Without.{without};

    type State = M::State;

    ghost behaviour = { λ w. without w.left_out (M.behaviour w.machine) };

    fn start(&self) -> M::State {
        self.machine.start()
    }

    fn moves(&self, alloc: Global, state: &M::State) -> Result<Vec<Step<M::State>>, AllocError> {
        let listed = self.machine.moves(alloc, state)?;
        Ok(steps_without(self.left_out, listed))
    }

    fn ends(&self, state: &M::State) -> bool {
        self.machine.ends(state)
    }
}

/// Its parts are those of the machine, without the steps that read one of the characters.
impl<'m, M: Parted> Parted for Without<'m, M> {
    ghost use Rattle.brl_without.specs.Without.{steps_without};

    type Part = M::Part;

    ghost steps_of = { λ w part. steps_without w.left_out (M.steps_of w.machine part) };

    fn parts(&self, alloc: Global, state: &M::State) -> Result<Option<Vec<M::Part>>, AllocError> {
        self.machine.parts(alloc, state)
    }

    fn part_steps(&self, alloc: Global, part: &M::Part) -> Result<Vec<Step<M::State>>, AllocError> {
        let steps = self.machine.part_steps(alloc, part)?;
        Ok(steps_without(self.left_out, steps))
    }
}

/// The base of a state is the machine's, and so is what becomes of its steps. What a step reads
/// stays the same, so steps may be left out before or after.
impl<'m, M: Based> Based for Without<'m, M> {
    type More = M::More;

    ghost sharing = { λ w. M.sharing w.machine };

    fn law(&self) {
        self.machine.law();
    }

    fn base(&self, alloc: Global, state: &M::State) -> Result<Option<M::State>, AllocError> {
        self.machine.base(alloc, state)
    }

    fn gate(&self, reads: &Chars) -> u8 {
        self.machine.gate(reads)
    }

    fn opens(&self, state: &M::State, gate: u8) -> bool {
        self.machine.opens(state, gate)
    }

    fn bar<'s>(&self, state: &'s M::State, number: usize) -> Option<&'s Chars> {
        self.machine.bar(state, number)
    }

    fn past(
        &self,
        alloc: Global,
        state: &M::State,
        met: &[u32],
        reads: &Chars,
        next: &M::State,
    ) -> Result<Past<M::More>, AllocError> {
        self.machine.past(alloc, state, met, reads, next)
    }

    fn owing(
        &self,
        alloc: Global,
        next: &M::State,
        more: &M::More,
    ) -> Result<M::State, AllocError> {
        self.machine.owing(alloc, next, more)
    }
}

/// The steps that read none of the characters, in their order.
fn steps_without<S: Key>(left_out: &LeftOut, listed: Vec<Step<S>>) -> Vec<Step<S>>
    ensures { result.items ≡ listed_without left_out.now listed.items }
{
    let mut kept = listed;
    if !left_out.is_empty() {
        kept.retain(|step| left_out.is_unused_in(step.reads.as_slice()));
    }
    kept
}

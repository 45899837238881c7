//! A machine that says nothing of parts.
ghost use Rattle.std.specs.Prelude.{◌≡◌, []};

use brl_cells::Chars;
use brl_pairs::{Based, Machine, Parted, Past, Step};
use std::alloc::{AllocError, Global};
use std::marker::Model;

/// A machine as a whole: its behaviour is the machine's, and it says nothing of parts. A contract
/// sees the machine.
#[derive(Drop)]
pub struct Whole<'m, M: Machine> {
    machine: &'m M,
}

impl<'m, M: Machine> Model for Whole<'m, M> {
    ghost use Rattle.brl_parts.specs.Whole.{WholeView};

    ghost Value = { WholeView M };

    ghost view = { λ w. record { machine = w.machine.now } };
}

impl<'m, M: Machine> Whole<'m, M> {
    /// The machine as a whole, which says nothing of parts. No memory is allocated.
    pub fn new(machine: &'m M) -> Whole<'m, M>
        ensures { result.machine ≡ machine.entry.now }
    {
        Whole { machine }
    }
}

impl<'m, M: Machine> Machine for Whole<'m, M> {
    type State = M::State;

    ghost behaviour = { λ w. M.behaviour w.machine };

    fn start(&self) -> M::State {
        self.machine.start()
    }

    fn moves(&self, alloc: Global, state: &M::State) -> Result<Vec<Step<M::State>>, AllocError> {
        self.machine.moves(alloc, state)
    }

    fn ends(&self, state: &M::State) -> bool {
        self.machine.ends(state)
    }
}

impl<'m, M: Machine> Parted for Whole<'m, M> {
    type Part = bool;

    ghost steps_of = { λ _ _. [] };

    fn parts(&self, _alloc: Global, _state: &M::State) -> Result<Option<Vec<bool>>, AllocError> {
        Ok(None)
    }

    fn part_steps(&self, alloc: Global, _part: &bool) -> Result<Vec<Step<M::State>>, AllocError> {
        Ok(Vec::new(alloc))
    }
}

/// It says of no state which base it has.
impl<'m, M: Machine> Based for Whole<'m, M> {
    ghost use Rattle.brl_pairs.specs.Based.{nothing_shared};

    type More = bool;

    ghost sharing = { λ w. nothing_shared (M.behaviour w.machine).start };

    fn law(&self) {}

    fn base(&self, _alloc: Global, _state: &M::State) -> Result<Option<M::State>, AllocError> {
        Ok(None)
    }

    fn gate(&self, _reads: &Chars) -> u8 {
        0
    }

    fn opens(&self, _state: &M::State, _gate: u8) -> bool {
        true
    }

    fn bar<'s>(&self, _state: &'s M::State, _number: usize) -> Option<&'s Chars> {
        None
    }

    fn past(
        &self,
        _alloc: Global,
        _state: &M::State,
        _met: &[u32],
        _reads: &Chars,
        _next: &M::State,
    ) -> Result<Past<bool>, AllocError> {
        Ok(Past::Same)
    }

    fn owing(
        &self,
        _alloc: Global,
        _next: &M::State,
        _more: &bool,
    ) -> Result<M::State, AllocError> {
        Ok(self.machine.start())
    }
}

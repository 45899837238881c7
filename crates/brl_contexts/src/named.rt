//! States and cells by numbers.
ghost use Rattle.std.specs.Prelude.{◌≡◌, ◌<◌, [], IfOk, OnOk, Some, length, slice_get};
ghost use Rattle.brl_contexts.specs.Named.{AreCarried, IsCarriedTo, StillNames};
ghost use Rattle.brl_pairs.specs.Members.{HaveOneNumber};

use crate::carried::Carried;
use brl_pairs::{Based, KeptCells, Key, Members, Seed, as_u32};
use std::alloc::{AllocError, Global};

/// States and cells, each once. Edges name them by their numbers, from 0.
#[derive(Drop)]
pub struct Named<S: Key, D: Key> {
    pub states: Members<S>,
    pub cells: KeptCells,
    /// What was due more after steps, each once.
    pub carried: Members<Carried<D>>,
    /// For each of these the number of the state with all that is due.
    pub owing: Vec<u32>,
}

impl<S: Key, D: Key> Named<S, D> {
    /// No states and no cells, which will be found by hashes of this seed. No memory is allocated.
    pub fn new(alloc: Global, seed: Seed) -> Named<S, D>
        ensures states { result.states ≡ [] }
        ensures cells { result.cells ≡ [] }
        ensures carried { result.carried ≡ [] }
        ensures owing { result.owing.items ≡ [] }
    {
        Named {
            states: Members::new(alloc, seed),
            cells: KeptCells::new(alloc, seed),
            carried: Members::new(alloc, seed),
            owing: Vec::new(alloc),
        }
    }

    /// The number of a state, which is added last if it is new. `AllocError` if memory runs out.
    pub fn number_of(&mut self, state: S) -> Result<u32, AllocError>
        ensures number { IfOk result (λ number. slice_get self.new.states number ≡ Some state) }
        ensures names { StillNames self.old self.new }
        ensures carried { self.new.carried ≡ self.old.carried }
        ensures owing { self.new.owing ≡ self.old.owing }
    {
        if let Some(number) = self.states.index_of(&state) {
            return as_u32(number);
        }
        let number = as_u32(self.states.len())?;
        self.states.insert(state)?;
        Ok(number)
    }
}

/// The number of the state that a next state becomes where more is due than it has due: the state
/// is added last if it is new. `next` is the next state's number. Many states leave the same past
/// steps with the same next state, and the state is made for the first of them alone: it may have
/// hundreds of dues. `AllocError` if memory runs out.
pub fn number_owing<B: Based>(
    alloc: Global,
    machine: &B,
    named: &mut Named<B::State, B::More>,
    next: u32,
    more: B::More,
) -> Result<u32, AllocError>
    requires carried { AreCarried (B.sharing machine.now) named.old }
    requires next { next < length named.old.states }
    ensures number { IfOk result (IsCarriedTo (B.sharing machine.now) named.new next more) }
    ensures names { OnOk result (StillNames named.old named.new) }
    ensures carried { OnOk result (AreCarried (B.sharing machine.now) named.new) }
    ensures one_number { OnOk result (HaveOneNumber named.new.states) }
{
    let key = Carried { next, more };
    // That no state has two numbers is what `as_slice` ensures.
    let states = named.states.as_slice();
    if let Some(place) = named.carried.index_of(&key) {
        return Ok(named.owing[place]);
    }
    let owing = machine.owing(alloc, &states[next as usize], &key.more)?;
    let number = named.number_of(owing)?;
    let _ = named.states.as_slice();
    named.owing.push(number)?;
    named.carried.insert(key)?;
    Ok(number)
}

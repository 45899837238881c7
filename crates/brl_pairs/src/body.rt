//! States and pairs by numbers.
ghost use Rattle.std.specs.Prelude.{◌≡◌, ◌↔◌, ℕ, All, IsTrue, IsSome, IfSome, Some, length, slice_get};
ghost use Rattle.std.specs.List.{IsDistinct};
ghost use Rattle.brl_pairs.specs.Body.{BodyView, IsInRange, IsPairOf, listed};
ghost use Rattle.brl_pairs.specs.Members.{HaveOneNumber, IsMember};

use crate::{Key, Members, Pair};
use std::marker::Model;

/// States and pairs without repeats, at most 4,294,967,295 of each. A state's number is its place
/// among the states, from 0; each pair names two of these numbers, and its lead has at most 1,024
/// cells. A contract sees the two lists.
#[derive(Drop)]
pub struct Body<S: Key> {
    states: Members<S>,
    pairs: Members<Pair<u32>>,
}

impl<S: Key> Model for Body<S> {
    ghost Value = { BodyView S };

    ghost view = { λ body. listed body.states body.pairs };

    ghost invariant = { λ body. IsInRange (listed body.states body.pairs) };
}

impl<S: Key> Body<S> {
    /// The body of these states and pairs.
    pub fn new(states: Members<S>, pairs: Members<Pair<u32>>) -> Body<S>
        requires { IsInRange (listed states pairs) }
        ensures { result ≡ listed states pairs }
    {
        Body { states, pairs }
    }

    /// The body of these states and pairs; `None` exactly where numbers or leads are out of range.
    /// So it is where there are more than 4,294,967,295 states or pairs, a pair names a state that
    /// doesn't exist, or a lead has more than 1,024 cells.
    pub fn from_parts(states: Members<S>, pairs: Members<Pair<u32>>) -> Option<Body<S>>
        ensures made { IsSome result ↔ IsInRange (listed states pairs) }
        ensures parts { IfSome result (λ body. body ≡ listed states pairs) }
    {
        let count = states.len();
        if count > 4_294_967_295
            || pairs.len() > 4_294_967_295
            || !are_in_range(count, pairs.as_slice())
        {
            return None;
        }
        Some(Body { states, pairs })
    }

    /// The number of states.
    pub fn state_count(&self) -> u32
        ensures { result ≡ length self.now.states }
    {
        self.states.len() as u32
    }

    /// The number of pairs.
    pub fn pair_count(&self) -> u32
        ensures { result ≡ length self.now.pairs }
    {
        self.pairs.len() as u32
    }

    /// The states, no two of them equal.
    pub fn states(&self) -> &[S]
        ensures states { result.now ≡ self.now.states }
        ensures distinct { IsDistinct S.eq self.now.states }
    {
        self.states.as_slice()
    }

    /// The pairs, by the numbers of their states.
    pub fn pairs(&self) -> &Members<Pair<u32>>
        ensures { result.now ≡ self.now.pairs }
    {
        &self.pairs
    }

    /// The number of a state, if it is one of the states.
    pub fn number_of(&self, state: &S) -> Option<u32>
        ensures found { IfSome result (λ number. slice_get self.now.states number ≡ Some state.now) }
        ensures only { (number : ℕ) → slice_get self.now.states number ≡ Some state.now → result ≡ Some number }
    {
        match self.states.index_of(state) {
            Some(number) => Some(number as u32),
            None => None,
        }
    }

    /// Whether a state is one of the states.
    pub fn has_state(&self, state: &S) -> bool
        ensures { IsTrue result ↔ IsMember self.now.states state.now }
    {
        self.states.contains(state)
    }

    /// The two states of a pair: that of the run ahead and that of the run behind.
    pub fn states_of(&self, pair: &Pair<u32>) -> (&S, &S)
        requires { IsMember self.now.pairs pair.now }
        ensures ahead { slice_get self.now.states pair.now.ahead ≡ Some result.0.now }
        ensures behind { slice_get self.now.states pair.now.behind ≡ Some result.1.now }
    {
        let states = self.states.as_slice();
        (&states[pair.ahead as usize], &states[pair.behind as usize])
    }

    /// A law: every body is in range, and each state and each pair has one number.
    pub fn law(&self)
        ensures range { IsInRange self.now }
        ensures states { HaveOneNumber self.now.states }
        ensures pairs { HaveOneNumber self.now.pairs }
    {
        let _ = self.states.as_slice();
        let _ = self.pairs.as_slice();
    }
}

/// Whether each pair names two states below this count and has a lead of at most 1,024 cells.
fn are_in_range(states: usize, pairs: &[Pair<u32>]) -> bool
    ensures { IsTrue result ↔ All (IsPairOf states) pairs.now }
{
    pairs.iter().all(|pair| is_in_range(states, pair))
}

/// Whether a pair names two states below this count and has a lead of at most 1,024 cells.
fn is_in_range(states: usize, pair: &Pair<u32>) -> bool
    ensures { IsTrue result ↔ IsPairOf states pair.now }
{
    (pair.ahead as usize) < states && (pair.behind as usize) < states && pair.lead.len() <= 1024
}

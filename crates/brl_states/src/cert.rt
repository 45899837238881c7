//! Certificates: one variant for each version.
ghost use Rattle.std.specs.Prelude.{◌≡◌, length};
ghost use Rattle.brl_states.specs.Counts.{pair_count, state_count};

use crate::{CapsFree, DuesState, WindowState};
use brl_pairs::{Body, Key};

/// A certificate: states of the machine of its version, and pairs of them.
#[derive(Drop)]
pub enum Cert {
    /// Version 1: states of a window machine, in a table without word capitals.
    Window(CapsFree<WindowState>),
    /// Version 2: states of a dues machine, in a table without word capitals.
    Dues(CapsFree<DuesState>),
    /// Version 3: states of a dues machine.
    Word(Body<DuesState>),
}

impl Cert {
    /// The numbers of states and of pairs that a certificate lists.
    pub fn counts(&self) -> (usize, usize)
        ensures states { result.0 ≡ state_count self.now }
        ensures pairs { result.1 ≡ pair_count self.now }
    {
        match self {
            Cert::Window(caps_free) => counts_of(caps_free.body()),
            Cert::Dues(caps_free) => counts_of(caps_free.body()),
            Cert::Word(body) => counts_of(body),
        }
    }
}

/// The numbers of the states and of the pairs of a body.
fn counts_of<S: Key>(body: &Body<S>) -> (usize, usize)
    ensures states { result.0 ≡ length body.now.states }
    ensures pairs { result.1 ≡ length body.now.pairs }
{
    (body.states().len(), body.pairs().len())
}

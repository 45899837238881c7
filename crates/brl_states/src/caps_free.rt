//! Bodies that versions 1 and 2 can express: no state follows a run of capitals.
ghost use Rattle.std.specs.Prelude.{◌≡◌, Bool};
ghost use Rattle.brl_states.specs.CapsFree.{AreCapsFree};

use crate::{DuesState, WindowState};
use brl_pairs::{Body, Key};
use std::marker::Model;

/// States that know whether a run of capitals goes to them.
pub trait HasCaps: Key {
    // Whether a run goes there.
    ghost run: { Self → Bool };
}

impl HasCaps for WindowState {
    ghost run = { λ s. s.run };
}

impl HasCaps for DuesState {
    ghost run = { λ s. s.run };
}

/// A body whose states no run of capitals goes to: versions 1 and 2 have no field for a run. A
/// contract sees the body.
#[derive(Drop)]
pub struct CapsFree<S: HasCaps> {
    body: Body<S>,
}

impl<S: HasCaps> Model for CapsFree<S> {
    ghost use Rattle.brl_pairs.specs.Body.{BodyView};
    ghost use Rattle.brl_states.specs.CapsFree.{AreCapsFree};

    ghost Value = { BodyView S };

    ghost view = { λ caps_free. caps_free.body };

    ghost invariant = { λ caps_free. AreCapsFree S.run caps_free.body.states };
}

impl<S: HasCaps> CapsFree<S> {
    /// A body to whose states no run of capitals goes.
    pub fn new(body: Body<S>) -> CapsFree<S>
        requires { AreCapsFree S.run body.states }
        ensures { result ≡ body }
    {
        CapsFree { body }
    }

    /// The body, to whose states no run of capitals goes.
    pub fn body(&self) -> &Body<S>
        ensures body { result.now ≡ self.now }
        ensures caps_free { AreCapsFree S.run result.now.states }
    {
        &self.body
    }
}

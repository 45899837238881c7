//! The states of a dues machine.
ghost use Rattle.std.specs.Prelude.{◌≡◌, IfOk};
ghost use Rattle.brl_states.specs.DuesContext.{context_of, state_in};

use crate::DueList;
use brl_pairs::Key;
use brl_rules::{Class, Context};
use std::alloc::{AllocError, Global};

/// What a run of a dues machine knows at a position of a text.
#[derive(PartialEq, Eq, Hash, Debug, Drop)]
pub struct DuesState {
    /// The classes of the character before; class space at the start of the text.
    pub before: Class,
    /// Whether numeric mode is on.
    pub numeric: bool,
    /// Whether the two characters before are capitals, in a table with word capitals.
    pub run: bool,
    /// What is due of the rest of the text.
    pub dues: DueList,
}

impl Key for DuesState {
    ghost use Rattle.brl_states.specs.SameDuesState.{same_states};

    ghost same = { same_states };
}

impl DuesState {
    /// The state with this context and these dues.
    pub fn from_context(here: Context, dues: DueList) -> DuesState
        ensures { result ≡ state_in here dues }
    {
        DuesState {
            before: here.classes,
            numeric: here.numeric,
            run: here.run,
            dues,
        }
    }

    /// The context of the state: what it knows of the characters before.
    pub fn context(&self) -> Context
        ensures { result ≡ context_of self.now }
    {
        Context {
            classes: self.before,
            numeric: self.numeric,
            run: self.run,
        }
    }

    /// An equal state. `AllocError` if memory runs out.
    pub fn copy(&self, alloc: Global) -> Result<DuesState, AllocError>
        ensures { IfOk result (λ state. state ≡ self.now) }
    {
        let dues = self.dues.copy(alloc)?;
        Ok(DuesState::from_context(self.context(), dues))
    }
}

//! The states of a window machine.
ghost use Rattle.std.specs.Prelude.{◌≡◌, IfOk};
ghost use Rattle.brl_states.specs.WindowContext.{context_of, state_in};

use brl_cells::Chars;
use brl_pairs::Key;
use brl_rules::{Class, Context};
use std::alloc::{AllocError, Global};

/// What a run of a window machine knows at a position of a text.
#[derive(PartialEq, Eq, Hash, Debug, Drop)]
pub struct WindowState {
    /// The classes of the character before; class space at the start of the text.
    pub before: Class,
    /// Whether numeric mode is on.
    pub numeric: bool,
    /// Whether the two characters before are capitals, in a table with word capitals.
    pub run: bool,
    /// Whether the text ends after the characters that are known.
    pub ended: bool,
    /// The next characters, as far as they are known.
    pub coming: Chars,
}

impl Key for WindowState {
    ghost use Rattle.brl_states.specs.SameWindowState.{same_states};

    ghost same = { same_states };
}

impl WindowState {
    /// The state with this context that knows these next characters, and whether the text ends
    /// after them.
    pub fn from_context(here: Context, ended: bool, coming: Chars) -> WindowState
        ensures { result ≡ state_in here ended coming }
    {
        WindowState {
            before: here.classes,
            numeric: here.numeric,
            run: here.run,
            ended,
            coming,
        }
    }

    /// The context of the state: what it knows of the characters before.
    pub fn context(&self) -> Context
        ensures { result ≡ context_of self.now }
    {
        Context {
            classes: self.before,
            numeric: self.numeric,
            run: self.run,
        }
    }

    /// An equal state. `AllocError` if memory runs out.
    pub fn copy(&self, alloc: Global) -> Result<WindowState, AllocError>
        ensures { IfOk result (λ state. state ≡ self.now) }
    {
        let coming = self.coming.copy(alloc)?;
        Ok(WindowState::from_context(self.context(), self.ended, coming))
    }
}

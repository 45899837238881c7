//! The faults of translation.
use std::fmt;
use thiserror::Error;

/// Why a text can't be translated.
#[derive(Clone, Copy, PartialEq, Eq, Debug, Error)]
pub enum ForwardFault {
    /// The table doesn't define the character at this position, from 0. It is the first such
    /// character.
    #[error("F1 UnknownChar {0}")]
    UnknownChar(usize),
}

impl ForwardFault {
    ghost use Rattle.std.specs.Prelude.{◌≡◌};
    ghost use Rattle.brl_forward.specs.Faults.{fault_of_side};

    /// This fault, as that of one of two texts.
    pub(crate) fn of_side(self, side: Side) -> ConfirmFault
        ensures { result ≡ fault_of_side side self }
    {
        match self {
            ForwardFault::UnknownChar(place) => ConfirmFault::UnknownChar(side, place),
        }
    }
}

/// One of two texts.
#[derive(Clone, Copy, PartialEq, Eq, Debug)]
pub enum Side {
    Left,
    Right,
}

impl fmt::Display for Side {
    fn fmt<W: fmt::Write>(&self, f: &mut fmt::Formatter<W>) -> fmt::Result {
        f.write_str(match self {
            Side::Left => "left",
            Side::Right => "right",
        })
    }
}

/// Why two texts can't be compared.
#[derive(Clone, Copy, PartialEq, Eq, Debug, Error)]
pub enum ConfirmFault {
    /// The table doesn't define the character at this position of this text, from 0. It is the
    /// first such character; the left text comes before the right one.
    #[error("F1 UnknownChar {1} at {0}")]
    UnknownChar(Side, usize),
}

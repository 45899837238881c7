//! The faults of dots operands.
use thiserror::Error;

/// The fault of a text that spells no cells.
#[derive(Clone, Copy, PartialEq, Eq, Debug, Error)]
pub enum DotsFault {
    /// A cell has no marks.
    #[error("C1 EmptyCell")]
    EmptyCell,
    /// A mark is not one of the digits 1 to 8, nor a `0` alone in its cell.
    #[error("C2 BadDot")]
    BadDot,
    /// A cell has a dot twice.
    #[error("C3 RepeatedDot")]
    RepeatedDot,
    /// There are more cells than the caller allows.
    #[error("C4 TooManyCells")]
    TooManyCells,
}

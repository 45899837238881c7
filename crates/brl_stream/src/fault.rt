//! The faults of a stream.
use thiserror::Error;

/// The fault of a line of an input.
#[derive(Clone, Copy, PartialEq, Eq, Debug, Error)]
pub enum LineFault {
    /// The table doesn't define the character at this position of the line, from 0, which is the
    /// first such one.
    #[error("F1 UnknownChar {0}")]
    UnknownChar(usize),
    /// A cell of the line has dot 7 or 8, and braille ASCII has no mark for it.
    #[error("U1 NoAscii")]
    NoAscii,
    /// The line isn't UTF-8.
    #[error("U2 InputNotUtf8")]
    InputNotUtf8,
    /// The reader failed before the line was read to its end.
    #[error("U3 InputFailed")]
    InputFailed,
    /// The writer failed, with none, some or all of the line's output written.
    #[error("U4 OutputFailed")]
    OutputFailed,
    /// The line has more than 65,536 bytes without its end.
    #[error("U5 InputLineTooLong")]
    InputLineTooLong,
    /// The input has more than 16,777,216 bytes, and the line doesn't end within the limit.
    #[error("U6 InputTooLong")]
    InputTooLong,
}

/// Why a stream wasn't translated to its end: the first fault, and the number of its line, from 1.
#[derive(Clone, Copy, PartialEq, Eq, Debug, Error)]
#[error("{fault} at line {line}")]
pub struct StreamFault {
    pub line: u64,
    pub fault: LineFault,
}

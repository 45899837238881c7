//! Why the states and pairs of a certificate are not accepted.
use thiserror::Error;

/// What keeps the states and pairs from being closed. States and pairs have their numbers in the
/// certificate, from 0; rules have the numbers that the machine's steps give.
#[derive(Clone, Copy, PartialEq, Eq, Debug, Error)]
pub enum AcceptFault {
    /// The machine's start is not among the states.
    #[error("A1 NoStart")]
    NoStart,
    /// A step of this rule leads from the state to one that isn't listed.
    #[error("A2 StateMissing state {state} rule {rule}")]
    StateMissing {
        state: u32,
        rule: u32,
    },
    /// Two steps of these rules from the state split into a pair that isn't listed.
    #[error("A3 SplitMissing state {state} rules {lesser} {greater}")]
    SplitMissing {
        state: u32,
        lesser: u32,
        greater: u32,
    },
    /// A step of this rule leads from the pair to one that isn't listed.
    #[error("A4 PairMissing pair {pair} rule {rule}")]
    PairMissing {
        pair: u32,
        rule: u32,
    },
    /// The pair has an empty lead, and both of its states are final.
    #[error("A5 BothEnd pair {pair}")]
    BothEnd {
        pair: u32,
    },
}

//! Why a call that allocates returns no value: a fault of its input, or memory ran out.
//!
//! Room 1, text and tables (docs/dev/ARCHITECTURE.md). The definitions begin in
//! `specs/Failure.antt`.
#![tactic(auto)]

mod failure;

pub use failure::{Failure, raise};

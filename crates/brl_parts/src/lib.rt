//! The parts of a machine's steps, each listed once. Many states share a part, so a search or a
//! check that keeps the steps of parts by their numbers needn't list them again.
//!
//! - `Parts` keeps parts with their steps by numbers, and puts the steps of a state together from
//!   those of its parts.
//! - `Whole` is a machine that says nothing of parts.
//!
//! Room 2, any machine (docs/dev/ARCHITECTURE.md). The definitions begin in `specs/Parts.antt`.
#![tactic(auto)]

mod parts;
mod whole;

pub use parts::Parts;
pub use whole::Whole;

//! Which rules of a machine are taken by a path from its start to a final state. Its states are
//! found from the start, and of these the ones from which a final state is reached. A step that
//! leads to no such state is on no path. No steps are kept: those of a state are listed by its
//! context (`brl_contexts`) each time that they are read.
//!
//! Room 2, any machine (docs/dev/ARCHITECTURE.md). The definitions begin in `specs/Taken.antt`.
#![tactic(auto)]

mod found;
mod graph;
mod taken;

pub use graph::places_of;
pub use taken::{TakenRules, taken_rules};

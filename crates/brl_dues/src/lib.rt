//! The dues machine of a table. A state remembers no text, only what is still due of the characters
//! to come, so a rule of any length can be taken as soon as its first character comes.
//!
//! A step takes a rule, or the own definition of a character. It owes to each rule that is ranked
//! above its own, and could still fit, that this rule does not fit: a `Due` of the next state. So
//! what the text must or must not continue with is decided one step at a time.
//!
//! In a table with word capitals, a step also knows whether what it reads begins in a run of
//! capitals. Where one capital alone doesn't decide that, there is a step for each case: one owes
//! that a capital follows, the other that none does.
//!
//! Room 3, the machines of a table (docs/dev/ARCHITECTURE.md). The definitions begin in
//! `specs/Steps.antt`.
#![tactic(auto)]

mod above;
mod carry;
mod cased;
mod context_laws;
mod folds;
mod laws;
mod letter;
mod machine;
mod origin;
mod parts;
mod rules_above;
mod runs;
mod sharing;
mod starts;
mod step;
mod steps;
mod walk;

pub use brl_states::{Due, DueList, DuesState};
pub use context_laws::contexts_law;
pub use laws::{dues_law, exact_law, finite_law, gathered_law, step_law};
pub use machine::Dues;
pub use parts::DuesPart;

//! Contexts: the steps of a state are those of its base, except those that its bars meet.
//!
//! Many states have one base, so `Contexts` lists the steps of each base once: its forms. `expand`
//! finds what a state changes of them. It opens some gates of forms, and of the forms that its bars
//! meet (`all_met`) some lead elsewhere, and some it hasn't. All others are its steps as they are.
//! `Contexts::edges` puts the steps together, by the numbers of states and cells.
//!
//! Room 2, any machine (docs/dev/ARCHITECTURE.md). The definitions begin in `specs/Contexts.antt`.
#![tactic(auto)]

mod carried;
mod changes;
mod contexts;
mod forms;
mod laws;
mod met;
mod named;

pub use carried::Carried;
pub use changes::Change;
pub use contexts::{ByContext, Contexts, Expanded, expand};
pub use forms::Forms;
pub use laws::met_law;
pub use met::{Met, all_met};
pub use named::Named;

//! The window machine of a table. A state knows some of the characters to come, as many as decide
//! which rule the table chooses.
//!
//! Room 3, the machines of a table (docs/dev/ARCHITECTURE.md). The definitions begin in
//! `specs/Windows.antt`.
#![tactic(auto)]

mod laws;
mod machine;
mod steps;

pub use brl_states::WindowState;
pub use laws::window_law;
pub use machine::{TooWide, Window};

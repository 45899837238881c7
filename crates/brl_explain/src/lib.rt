//! What the lines of faults mean, and what to do about them.
//!
//! `FAULTS` has the texts; the tables of the guide are made of them too. `explain` finds the text
//! for a line or a code, and adds what can be seen in the line; `file_notes` has what can be seen
//! in the file that the line names.
//!
//! Room 5, the program (docs/dev/ARCHITECTURE.md). The definitions begin in
//! `specs/Explaining.antt`.
#![tactic(auto)]

mod details;
mod explaining;
mod faults;
mod in_file;
mod opcodes;
mod operands;

pub use details::explain;
pub use faults::FAULTS;
pub use in_file::file_notes;

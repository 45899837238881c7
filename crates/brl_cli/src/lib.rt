//! The words of the command line: what they ask for.
//!
//! Room 5, the program (docs/dev/ARCHITECTURE.md). The definitions begin in `specs/Replies.antt`.
#![tactic(auto)]

mod build;
mod command;
mod pages;
mod read;

pub use command::{AlphabetOption, NotATask, PairFiles, Question, Task, TextOptions, Words, Work};

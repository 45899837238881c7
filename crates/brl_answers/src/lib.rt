//! Answers of commands, and their delivery.
//!
//! Each command but `translate`, which is a stream, gives an `Answer`: a text, a status and the
//! files to be written, if there are any; or a `RunFault`. `deliver` writes it to the output and
//! to `Files`.
//!
//! Room 5, the program (docs/dev/ARCHITECTURE.md). The definitions begin in `specs/Answers.antt`.
#![tactic(auto)]

mod alphabet;
mod answer;
mod files;
mod links;
mod making;
mod new_files;
mod replace;
mod run_fault;
mod status;
mod text;

pub use alphabet::{spell_one_by_one, with_alphabet_line};
pub use answer::{Answer, counts_text, deliver};
pub use files::{CreateFault, Files, NewFileFault, SinkFault};
pub use new_files::{NewFile, NewFiles};
pub use run_fault::{EndsRun, RunFault};
pub use status::Status;
pub use text::text_of_word;

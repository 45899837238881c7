//! Likely slips of a table: rules whose cells are those of their own characters but for one or two.
//!
//! `words` has what a line gives by its words, and `alphabet` the characters of a table. `Lexicon`
//! has the pieces of texts that its lines give, and the rules that may be slips. `starts` has the
//! pieces that begin at each place of a text, and `spelling` finds a row of them with cells that
//! are asked for. `slip` finds the slips, `habit` the differences that are too many to be slips,
//! `order` the order in which they are shown, `twins` rules with the same cells and characters of
//! which one differs. `names` has what a cell is named by, `said` the words for a slip, `rows` the
//! rows of all, `text` the text of what was found, and `columns` the same for programs.
//!
//! Room 5, the program (docs/dev/ARCHITECTURE.md). The definitions begin in `specs/Slips.antt`.
#![tactic(auto)]

mod alphabet;
mod columns;
mod fault;
mod files;
mod findings;
mod habit;
mod lexicon;
mod names;
mod order;
mod rows;
mod said;
mod slip;
mod spelling;
mod starts;
mod text;
mod twins;
mod words;

pub use columns::slips_columns;
pub use fault::Fault;
pub use files::FileNames;
pub use findings::{Findings, find_slips};
pub use habit::Habit;
pub use lexicon::{Entry, Lexicon, Piece, read_lexicon};
pub use slip::Slip;
pub use text::slips_text;
pub use twins::Twins;

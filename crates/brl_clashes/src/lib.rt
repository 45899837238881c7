//! The list of every pair of rules of a table at which clashing texts diverge, as an author reads
//! it.
//!
//! - `show_list` finds them in sections: first for the texts of small letters and blanks, then with
//!   digits, with capitals, with marks, and for all. Each section is a list of its own, complete
//!   for its texts, and its text is written when it is found.
//! - The text is in a `ListForm`: the sets of characters that the table treats as one; and of each
//!   section the pairs of rules that no earlier one lists, the most suspicious first, or how many
//!   are of each `PairKind`, with examples.
//! - A `Tally` is kept of the sections; `verdict_text` and `last_lines` are what comes after them.
//! - `character_sets` has the sets of characters.
//!
//! Room 5, the program (docs/dev/ARCHITECTURE.md). The definitions begin in
//! `specs/ClashesText.antt`.
#![tactic(auto)]

mod accepted;
mod clashes_text;
mod columns;
mod examples;
mod kind;
mod laws;
mod list_form;
mod list_request;
mod listed_pairs;
mod order;
mod pair_kind;
mod pair_tests;
mod representatives;
mod screen;
mod section;
mod section_text;
mod sections;
mod sets;
mod showing;
mod tally;
mod verdict;

pub use accepted::Taken;
pub use clashes_text::last_lines;
pub use kind::{Kind, kept_characters};
pub use laws::kinds_law;
pub use list_form::ListForm;
pub use list_request::ListRequest;
pub use pair_kind::PairKind;
pub use section::Section;
pub use sets::character_sets;
pub use showing::show_list;
pub use tally::Tally;
pub use verdict::{ListOutcome, verdict_text};

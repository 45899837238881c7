//! Worked examples of the definitions, as theorems: includes, translations and a clash,
//! certificates and their faults, and a machine of two letters that is shown to be unambiguous.
//! `load_in_memory` and `translate_bytes` are calls over memory, with what their callers know more
//! of them than of files.
#![tactic(auto)]

mod certificates;
mod files;
mod includes;
mod letters;
mod streams;
mod translations;

pub use certificates::certificate_examples;
pub use files::load_in_memory;
pub use includes::{folder_examples, include_examples};
pub use letters::{
    Letters, letters_are_unambiguous, letters_diverge_at_their_rules, letters_diverge_where_listed,
    numbered_letters_are_unambiguous, numbered_letters_diverge_at_their_rules,
    runs_of_letters_are_closed,
};
pub use streams::translate_bytes;
pub use translations::translation_examples;

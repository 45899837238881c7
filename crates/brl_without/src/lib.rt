//! Machines without some characters: what is left of a machine for the texts that don't use them.
//! So a table's question can be decided for the texts over its other characters.
//!
//! `Without` is such a machine, over any other one; `LeftOut` has the characters, and `Scope` all
//! that a search or a check of a table is asked for. `Alphabet` says of which characters texts are
//! made, of which some may be `Span`s, and which of a table's it leaves out. The laws state that
//! the machine keeps what these need.
//!
//! Room 2, any machine (docs/dev/ARCHITECTURE.md). The definitions begin in `specs/Without.antt`.
#![tactic(auto)]

mod alphabet;
mod laws;
mod left_out;
mod scope;
mod span;
mod undefined;
mod without;

pub use alphabet::{Alphabet, table_characters};
pub use laws::{
    closed_without_law, exact_without_law, nothing_left_out_law, unambiguous_without_law,
};
pub use left_out::LeftOut;
pub use scope::Scope;
pub use span::{Span, spans_of, spell_spans};
pub use undefined::{Undefined, UndefinedLeftOut, check_defined};
pub use without::Without;

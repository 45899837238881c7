//! Braille tables. A `Table` has characters with their classes (`Info`, `Class`), rules with their
//! places (`Rule`, `Place`) and the cells of indicators (`Sign`); it is made from `TableParts`. At
//! a position of a text it gives the indicators, by the `Context` there, and the chosen rule
//! (`Choice`). The specs define forward translation, on which every crate above builds.
//!
//! Room 1, text and tables (docs/dev/ARCHITECTURE.md). The definitions begin in
//! `specs/Translation.antt`.
#![tactic(auto)]

mod choice;
mod class;
mod context;
mod laws;
mod pages;
mod parts;
mod place;
mod rule;
mod signs;
mod table;
mod tree;

pub use choice::Choice;
pub use class::Class;
pub use context::Context;
pub use laws::{choice_laws, rank_law, signs_law, translation_laws, unambiguous_law};
pub use parts::TableParts;
pub use place::{Cond, Place, holds};
pub use rule::{Info, Notice, Rule};
pub use signs::{Indicators, Sign};
pub use table::Table;

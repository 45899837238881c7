//! Reads tables: from the lines of a table's files to the table that they define.
//!
//! A line is read to an `Item` by itself; a `TableBuilder` adds up the items in a first pass, and
//! resolves the characters of rules and lists in a second one. `survey` lists the lines with a
//! fault of the first pass or, where none has one, of the second. `TableFault` is why lines define
//! no table, `NoTable` why files define none. A table with its rules, classes and indicators is
//! defined in `brl_rules`, and all of that crate is reached from here: `Table`, `Rule`, `Info`,
//! `Class`. `Cut` is the readable part of a table, which `brl_cut` makes.
//!
//! From files whose `t.ctb` has the lines `letter a 1` and `letter b 12`:
//!
//! ```
//! let table = load_table(alloc, files, "t.ctb")?;
//! let is_letter = table.info('b').is_some();
//! Ok(is_letter && table.char_count() == 2 && table.rules_in_rank().is_empty())
//! ```
//!
//! Room 1, text and tables (docs/dev/ARCHITECTURE.md): it uses crates of this room alone. The
//! definitions begin in `specs/Reading.antt`.
#![tactic(auto)]

mod builder;
mod characters;
mod faulty;
mod files;
mod item;
mod laws;
mod liblouis;
mod line;
mod no_table;
mod opcode;
mod operand;
mod readable;
mod table_fault;

pub use brl_rules::{
    Choice, Class, Cond, Context, Indicators, Info, Notice, Place, Rule, Sign, Table, TableParts,
    choice_laws, holds, rank_law, signs_law, translation_laws, unambiguous_law,
};
pub use builder::read_table;
pub use faulty::{FaultyLine, Findings, good_characters, survey, survey_laws};
pub use files::{load_table, one_table_law, table_of_loaded};
pub use laws::good_lines_law;
pub use liblouis::{OpcodeOrigin, origin_of};
pub use no_table::NoTable;
pub use opcode::{OPCODES, indicator_named, is_place_opcode, opcodes_law};
pub use readable::Cut;
pub use table_fault::{TableFault, TableFaultKind};

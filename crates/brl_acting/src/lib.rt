//! Which lines of a table can act on texts over an alphabet.
//!
//! A cut leaves lines of a table out, and reads some others in another way than liblouis. Such a
//! line has needs, as a character of the alphabet, or each character of its rule: where one of them
//! isn't met, it acts on no text over the alphabet. `acting` gives the lines whose needs are met.
//! Where there is none, liblouis writes the same cells for such texts by the whole table as by its
//! cut. That is a claim of liblouis, found by tests and not proved; what is proved is that `acting`
//! gives just the lines of the definition. `acting_of_table` gives them of a table that was cut.
//! Of the tables by which brl itself translates the same is proved: `laws` has what a table without
//! rules and definitions that can't act makes of texts.
//!
//! `parts` takes prefixes off lines, for `line_parts`. `form` has the form of an opcode's needs,
//! and `operand` has the characters of operands. `known` has what is known of a table and an
//! alphabet: `reach` which characters stand for which, by the capitals of `bases`; `classes` and
//! `facts` what classes have, by `class_pairs`; `readings` what the lines that brl reads give, and
//! `rules` their rules. `items` takes tests apart, which `tests_met` judges; `left_out` judges
//! lines that are left out, and `kept` those that are read. `letters` has the letters before which
//! `letsign` may stand.
//!
//! Room 1, text and tables (docs/dev/ARCHITECTURE.md). The definitions begin in
//! `specs/Acting.antt`, and `specs/Forms.antt` has the table of opcodes.
#![tactic(auto)]

mod bases;
mod char_set;
mod class_pairs;
mod classes;
mod facts;
mod form;
mod items;
mod judging;
mod kept;
mod known;
mod laws;
mod left_out;
mod letters;
mod line_parts;
mod name_set;
mod operand;
mod parts;
mod reach;
mod readings;
mod rules;
mod table_line;
mod tests_met;
mod whole_table;

pub use judging::acting;
pub use laws::{idle_laws, idle_needs_law};
pub use letters::Letters;
pub use table_line::TableLine;
pub use whole_table::{ActingLine, acting_of_table};

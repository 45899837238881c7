//! Excused pairs of rules: a file that names pairs at which texts may diverge, so that a list of
//! clashes leaves them out.
//!
//! Its lines name rules by what they say, `word absoluto 1-12 / letter a 1`, and not by number or
//! line, and sets of characters that the table treats as one, `exchange ab`. `read_excusal` reads
//! what a file excuses, and which of its lines are stale: they name nothing, or, beside a list of
//! pairs, none of these. `write_accepted` writes the file of some pairs. `read_back_law`: what is
//! written is read back. `is_excused` and the counts beside it say what is excused of a list.
//!
//! Room 5, the program (docs/dev/ARCHITECTURE.md). The definitions begin in `specs/Pairs.antt`.
#![tactic(auto)]

mod counts;
mod fault;
mod index;
mod laws;
mod lines;
mod listed;
mod reading;
mod sets;
mod stale;
mod words;
mod writing;

pub use counts::{Counts, but_for_line, pair_count};
pub use fault::{ExcuseFault, ExcuseFaultKind, StaleLines};
pub use laws::read_back_law;
pub use listed::{accepted_count, excused_count, is_excused};
pub use reading::{Excusal, Nameable, read_excusal};
pub use writing::write_accepted;

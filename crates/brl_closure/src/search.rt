//! The search of any machine. From its start, states and pairs of states are found until they are
//! closed, until two texts with the same cells are found, or until there are more of them than a
//! limit allows.
//!
//! - `search_machine` searches a machine and returns an `Outcome`. A `Search` does the same in
//!   slices: it runs for a number of steps at a time, and returns a `Slice`.
//! - Inside, a `Finder` finds the states and pairs of a machine, a `Trail` keeps them and how each
//!   was found, and a `Worklist` has what is left to do.
//! - The laws state what is reached, and that the search decides.
//!
//! `Finder`, `Trail` and `KnownSteps` are public for searches that go on where this one stops.
mod edges;
mod explore;
mod finder;
mod fresh;
mod known_steps;
mod laws;
mod outcome;
mod pairs;
mod successors;
mod texts;
mod trail;
mod worklist;

pub use explore::{Search, search_machine};
pub use finder::{Finder, Stop};
pub use known_steps::KnownSteps;
pub use laws::{
    clash_law, in_closed_law, just_reached_law, lead_law, more_excused_law, no_limit_law,
    reached_closed_law, reached_listed_law, same_cells_law, short_lead_law, two_ends_law,
    two_runs_law,
};
pub use outcome::Outcome;
pub use texts::Texts;
pub use trail::{Origins, PairOrigin, StateOrigin, Trail};

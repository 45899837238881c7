//! Closed sets of states and pairs of any machine: `check` decides whether given sets are closed,
//! and `search` finds closed sets, or two texts with the same cells.
//!
//! A machine with closed sets translates no two different texts, of any length, to the same cells.
//!
//! Room 2, any machine (docs/dev/ARCHITECTURE.md). The definitions begin in `specs/Refusals.antt`.
#![tactic(auto)]

mod check;
mod last_origins;
mod search;

pub use check::{AcceptFault, Accepted, accept, accept_up_to};
pub use search::{
    Finder, KnownSteps, Origins, Outcome, PairOrigin, Search, StateOrigin, Stop, Texts, Trail,
    clash_law, in_closed_law, just_reached_law, lead_law, more_excused_law, no_limit_law,
    reached_closed_law, reached_listed_law, same_cells_law, search_machine, short_lead_law,
    two_ends_law, two_runs_law,
};

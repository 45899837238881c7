//! The check of a machine's states and pairs: it accepts exactly those that are closed, and names
//! the first thing that is missing where they aren't.
//!
//! `accept` checks states and pairs; `accept_up_to` also leaves out what is excused, and reports
//! its progress.
mod checker;
mod earlier;
mod edges;
mod fault;
mod kinds;
mod missing;
mod pairs_by_state;
mod pass;
mod sorted;

pub use checker::{Accepted, accept, accept_up_to};
pub use fault::AcceptFault;

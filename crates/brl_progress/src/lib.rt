//! Work that is done in slices, and reports of its progress. An observer gets numbers alone, so
//! nothing that it does changes what the work gives.
//!
//! Room 2, any machine (docs/dev/ARCHITECTURE.md). The definitions begin in `specs/Slices.antt`.
#![tactic(auto)]

mod console;
mod slices;

pub use console::Console;
pub use slices::{Slice, Sliced, run_to_end};
use std::fmt;

/// How far work is.
#[derive(Clone, Copy, PartialEq, Eq, Debug)]
pub enum Work {
    /// A search has found this number of states and this number of pairs.
    Search {
        states: u64,
        pairs: u64,
    },
    /// A check has passed `passed` of this number of states; a certificate lists them, and `pairs`
    /// pairs.
    Check {
        passed: u64,
        states: u64,
        pairs: u64,
    },
}

impl fmt::Display for Work {
    fn fmt<W: fmt::Write>(&self, f: &mut fmt::Formatter<W>) -> fmt::Result {
        match self {
            Work::Search { states, pairs } => {
                write!(f, "searching: {states} states, {pairs} pairs")
            }
            Work::Check {
                passed,
                states,
                pairs,
            } => write!(f, "checking: {passed} of {states} states, {pairs} pairs"),
        }
    }
}

/// An observer of progress.
pub trait Progress {
    /// Called where a part of the work begins, with its name.
    fn begin(&mut self, part: &'static str);

    /// Called again and again with how far the work is.
    fn report(&mut self, work: Work);

    /// Called when the work or a part of it has ended, before what it gives is delivered.
    fn end(&mut self);
}

/// An observer that ignores everything.
#[derive(Clone, Copy)]
pub struct NoProgress;

impl Progress for NoProgress {
    fn begin(&mut self, _part: &'static str) {}

    fn report(&mut self, _work: Work) {}

    fn end(&mut self) {}
}

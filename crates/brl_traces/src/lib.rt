//! The paths of a table's dues machine as traces of texts.
//!
//! The laws state that the steps of a path are those of the trace of what it reads. So where two
//! paths diverge, or are the same but for exchanges, the traces of their texts do, or are.
//!
//! Room 3, the machines of a table (docs/dev/ARCHITECTURE.md). The definitions begin in
//! `specs/Traces.antt`.
#![tactic(auto)]

mod laws;

pub use laws::{dues_divergence_law, dues_exchange_law, dues_trace_law};

//! The checker: it accepts exactly the certificates whose states and pairs are closed. A table with
//! an accepted certificate translates no two different texts, of any length, to the same cells.
//!
//! `judge` reads a table and a certificate and checks the one against the other. `judge_table` does
//! so for a table that was read before, for the texts that don't use some characters, but for what
//! is excused. `Accepted` has the numbers of states and pairs, `JudgeFault` is the first refusal.
//! `more_accepted_law` states that more may be excused.
//!
//! From files whose `t.ctb` has the lines `letter a 1` and `letter b 12`:
//!
//! ```
//! let cert = b"BRLCERT 3\nstate 1 0 0\nstate 8 0 0\nend 2 0\n";
//! let accepted = judge(alloc, files, "t.ctb", cert)?;
//! Ok(accepted.states == 2 && accepted.pairs == 0)
//! ```
//!
//! Room 4, certificates and verdicts (docs/dev/ARCHITECTURE.md): it uses rooms 1 to 3 and
//! `brl_cert`, and no part of `brl_search`. The definitions begin in `specs/Judging.antt`.
#![tactic(auto)]

mod judge_fault;
mod judge_files;
mod laws;

pub use brl_closure::{AcceptFault, Accepted, accept};
pub use judge_fault::JudgeFault;
pub use judge_files::{judge, judge_table};
pub use laws::more_accepted_law;

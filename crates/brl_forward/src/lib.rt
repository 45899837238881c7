//! Forward translation: the cells of a text (`translate`), the steps that give them (`trace`), and
//! whether two texts clash (`confirm`).
//!
//! Its types are `Traced`, a step of a translation, and `Clash`, two texts with the same cells.
//! `ForwardFault` and `ConfirmFault` name the first character that the table doesn't define.
//!
//! By a table of the lines `letter a 1` and `letter b 12`:
//!
//! ```
//! let cells = translate(alloc, table, &['a', 'b'])?;
//! let steps = trace(alloc, table, &['a', 'b'])?;
//! let clash = confirm(alloc, table, &['a', 'b'], &['b', 'a'])?;
//! Ok(cells.len() == 2 && steps.len() == 2 && clash.is_none())
//! ```
//!
//! Room 1, text and tables (docs/dev/ARCHITECTURE.md): it uses crates of this room alone. The
//! definitions begin in `specs/Trace.antt`.
#![tactic(auto)]

mod clash;
mod fault;
mod infos;
mod laws;
mod steps;
mod translation;
mod walk;

pub use clash::{Clash, clash_of, confirm};
pub use fault::{ConfirmFault, ForwardFault, Side};
pub use laws::trace_laws;
pub use steps::{Traced, trace};
pub use translation::translate;

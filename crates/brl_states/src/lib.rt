//! The states of the two machines of a table, and certificates, which list them.
//!
//! A state of the window machine knows some of the characters to come; one of the dues machine
//! knows what is still due of them. The machines themselves, and what a certificate must list to be
//! accepted, stand in crates above.
//!
//! Room 3, the machines of a table (docs/dev/ARCHITECTURE.md). The definitions begin in
//! `specs/Order.antt`.
#![tactic(auto)]

mod caps_free;
mod cert;
mod due;
mod dues_state;
mod laws;
mod list;
mod window_state;

pub use caps_free::{CapsFree, HasCaps};
pub use cert::Cert;
pub use due::{Due, copy_dues};
pub use dues_state::DuesState;
pub use laws::order_law;
pub use list::DueList;
pub use window_state::WindowState;

//! Certificates as bytes: their one spelling, and reading it. A certificate lists the states and
//! pairs that prove a table unambiguous, so that anyone can check them.
//!
//! Its types are `Cert`, a certificate, with its `Body` of states and pairs, and `CertFault`, the
//! first faulty line. Inside, `field` has the fields of a line: numbers, flags, characters and
//! leads. They are read leniently, and written in their one spelling.
//!
//! The certificate of the empty table:
//!
//! ```
//! let bytes = b"BRLCERT 3\nstate 1 0 0\nend 1 0\n";
//! let cert = read_cert(alloc, bytes)?;
//! let written = write_cert(alloc, &cert)?;
//! Ok(written.as_slice() == bytes.as_slice())
//! ```
//!
//! Room 4, certificates and verdicts (docs/dev/ARCHITECTURE.md): it uses rooms 1 to 3, and no other
//! crate of its room. The definitions begin in `specs/Lines.antt`.
#![tactic(auto)]

mod dues_line;
mod fault;
mod field;
mod line;
mod reader;
mod reading;
mod version;
mod writing;

/// A pair of a certificate, whose states are named by their numbers, from 0.
pub type CertPair = brl_pairs::Pair<u32>;

pub use brl_pairs::{Body, Members, Seed};
pub use brl_states::{CapsFree, Cert};
pub use fault::{CertFault, CertFaultKind};
pub use reading::{certificate_laws, read_cert};
pub use version::{Version, Version1, Version2, Version3};
pub use writing::{WriteFault, write_cert};

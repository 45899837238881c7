//! The search of a table for a certificate or a clash.
//!
//! - `search` searches a table and returns what it `Found`. `search_table` does so for what a
//!   `Scope` asks for: the characters that the texts don't use, the pairs of rules that are
//!   excused, and who hears how far the search is.
//! - `clashes` lists every pair of rules at which clashing texts diverge, each with a clash, or as
//!   many as the limit lets it find. What is known, as the clashes of fewer characters, isn't
//!   searched again.
//! - `small_clash_of` leaves characters out of two `Texts` while they clash, and where a pair of
//!   rules is given, while `clash_at` says that their traces diverge at it.
//! - `unused_rules` lists the rules of a table that no text uses.
//! - `seed_of` is the seed by which the search hashes what it finds.
//! - The laws state what is reached of the table's dues machine, that no certificate has fewer
//!   states, and that there is one whole list of clashes.
//!
//! By a table of the lines `letter a 1` and `letter b 12`, with at most a million states and as
//! many pairs:
//!
//! ```
//! match search(alloc, table, 1_000_000)? {
//!     Found::Certified(cert) => Ok(write_cert(alloc, &cert)?.starts_with(b"BRLCERT 3\n")),
//!     Found::Clashing(clash) => Ok(clash.left() == clash.right()),
//!     Found::Limit { .. } => Ok(false),
//! }
//! ```
//!
//! Room 4, certificates and verdicts (docs/dev/ARCHITECTURE.md): it uses rooms 1 to 3, and no other
//! crate of its room. The definitions begin in `specs/Found.antt`.
#![tactic(auto)]

mod dues_laws;
mod keys;
mod list_laws;
mod scoped;
mod seed;
mod small;
mod table_clashes;
mod table_search;
mod texts;
mod unused;

pub use dues_laws::{dues_certificate_law, dues_closed_law, dues_reached_law, fewest_states_law};
pub use list_laws::{accepted_list_law, whole_list_law};
pub use scoped::{Searched, search_table};
pub use seed::seed_of;
pub use small::small_clash_of;
pub use table_clashes::{ClashList, RuleClash, clashes};
pub use table_search::{Found, SearchFault, search};
pub use texts::clash_at;
pub use unused::{UnusedRules, unused_rules};

//! The pairs of rules of any machine at which two texts with the same cells diverge: the whole
//! list, each pair with two such texts, and states and pairs that are closed but for these pairs of
//! rules.
//!
//! By `brl_pairs::divergence_law` any two texts of the machine with the same translation are equal
//! or diverge at one of the pairs of a complete list.
//!
//! - `list_divergences` makes the list, which may begin with pairs that are known. A `Listing` does
//!   the same in slices: it runs for a number of steps at a time, and returns a `Slice`.
//! - Inside, all states are expanded first. Then an `Explorer` takes one split after the other, and
//!   finds all that its two runs lead to. Where no two ends are among that, it is kept. Else it is
//!   dropped, and the pair of rules is listed.
//!
//! Room 2, any machine (docs/dev/ARCHITECTURE.md). The definitions begin in `specs/Listed.antt`.
#![tactic(auto)]

mod divergences;
mod expanded;
mod explorer;
mod found;
mod laws;
mod listing;

pub use divergences::{Divergences, RuleTexts};
pub use laws::complete_list_law;
pub use listing::{Listing, list_divergences};

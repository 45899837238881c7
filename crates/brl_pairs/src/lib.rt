//! The theory of unambiguous machines: machines that translate by steps, pairs of their runs, and
//! what closed sets of states and pairs imply: no two different texts of the machine have the same
//! translation. Sets that are closed but for some pairs of rules imply that texts with the same
//! translation are equal or diverge at one of these.
//!
//! - `Machine` is a machine, with `Step` and `Pair`; `advance` is what becomes of a lead. The laws
//!   state what closed sets imply.
//! - `Members` is a list without repeats that finds its members by hash. The hashes depend on a
//!   `Seed` that is drawn from the bytes that the members come from, so that nobody can make
//!   members of one hash.
//! - `Body` has states, and pairs that name two of them by their numbers. An `Edge` is a step with
//!   the number of its next state: that is looked up once, and from then on only numbers and cells
//!   are compared.
//! - The edges of a state are sorted by their cells, which `KeptCells` has once each. `matches`
//!   looks up those that a lead can follow, and `earlier_splits` those with which an edge splits;
//!   `unshared_splits` leaves out those of edges that are shared with another state. `by_number`
//!   puts elements in the order of numbers without comparing them.
//! - `Based` is a machine whose states share the steps of a base, but for some. An `Order` looks up
//!   which: the sequences that begin a key, or begin with it.
//!
//! Room 2, any machine (docs/dev/ARCHITECTURE.md). The definitions begin in `specs/Runs.antt`.
#![tactic(auto)]

mod based;
mod based_laws;
mod body;
mod edge;
mod edge_laws;
mod excused;
mod grouped;
mod kept_cells;
mod key;
mod laws;
mod lead;
mod machine;
mod members;
mod number_pairs;
mod order;
mod parted;
mod rule_pairs;
mod seed;
mod sequence;
mod shared;
mod sorted;
mod splits;
mod step;

pub use based::{Based, Past};
pub use based_laws::based_law;
pub use body::Body;
pub use edge::{Edge, ListedEdge};
pub use edge_laws::{edges_law, unmatched_law};
pub use excused::Excused;
pub use grouped::by_number;
pub use kept_cells::KeptCells;
pub use key::Key;
pub use laws::{
    Sets, advance_law, closed_sets_law, divergence_law, divergence_sets_law, exchange_law,
    nothing_excused_law, numbered_divergence_law, numbered_exchange_law, numbered_sets_law,
    one_divergence_law, one_list_law,
};
pub use lead::{Advanced, advance};
pub use machine::Machine;
pub use members::Members;
pub use number_pairs::{is_missing, is_there, is_there_swapped};
pub use order::{Around, Order};
pub use parted::Parted;
pub use rule_pairs::RulePairs;
pub use seed::{Seed, SeededHasher};
pub use sequence::Sequence;
pub use shared::{TwoPlaces, count_unshared, shared_with, unshared_splits};
pub use sorted::{SortedEdge, as_u32, cells_at, cells_of, matches, sort_edges};
pub use splits::{Splits, earlier_splits, splits_of};
pub use step::{Pair, Step};

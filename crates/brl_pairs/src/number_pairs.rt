//! Looking pairs up by the numbers of their states.
ghost use Rattle.std.specs.Prelude.{◌≡◌, ◌↔◌, [], IfOk, IsTrue};
ghost use Rattle.brl_pairs.specs.NumberPairs.{IsMissing, IsThere};
ghost use Rattle.brl_pairs.specs.Members.{IsMember};
ghost use Rattle.brl_pairs.specs.Pairs.{swapped};

use crate::{Advanced, Edge, Members, Pair, advance};
use brl_cells::{Cell, Cells};
use std::alloc::{AllocError, Global};

/// Whether a pair has an empty lead and is listed in its other order.
pub fn is_there_swapped(alloc: Global, pairs: &Members<Pair<u32>>, pair: &Pair<u32>) -> bool
    ensures { IsTrue result ↔ ((pair.now.lead ≡ []) × IsMember pairs.now (swapped pair.now)) }
{
    if !pair.lead.is_empty() {
        return false;
    }
    let swapped = Pair {
        ahead: pair.behind,
        behind: pair.ahead,
        lead: Cells::new(alloc),
    };
    pairs.contains(&swapped)
}

/// Whether a pair is listed as it is, or in its other order where its lead is empty.
pub fn is_there(alloc: Global, pairs: &Members<Pair<u32>>, pair: &Pair<u32>) -> bool
    ensures { IsTrue result ↔ IsThere pairs.now pair.now.ahead pair.now.behind pair.now.lead }
{
    pairs.contains(pair) || is_there_swapped(alloc, pairs, pair)
}

/// Whether the pair that follows when the run behind takes this edge is missing. The other run is
/// ahead by this lead, in the state with the number `ahead`.
pub fn is_missing(
    alloc: Global,
    pairs: &Members<Pair<u32>>,
    ahead: u32,
    lead: &[Cell],
    edge: &Edge,
) -> Result<bool, AllocError>
    ensures { IfOk result (λ missing. IsTrue missing ↔ IsMissing pairs.now ahead lead.now edge.now) }
{
    match advance(lead, edge.cells.as_slice()) {
        Advanced::Still(rest) => {
            let pair = Pair {
                ahead,
                behind: edge.next,
                lead: Cells::from_slice(alloc, rest)?,
            };
            Ok(!is_there(alloc, pairs, &pair))
        }
        Advanced::Swapped(rest) => {
            let pair = Pair {
                ahead: edge.next,
                behind: ahead,
                lead: Cells::from_slice(alloc, rest)?,
            };
            Ok(!is_there(alloc, pairs, &pair))
        }
        Advanced::Apart => Ok(false),
    }
}

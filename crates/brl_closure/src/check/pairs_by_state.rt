//! The pairs of a body by the state of their run behind.
ghost use Rattle.std.specs.Prelude.{IfOk, length};
ghost use Rattle.brl_closure.specs.Pass.{ArePairsBehind};

use brl_pairs::{Body, Key};
use std::alloc::{AllocError, Global};

/// For each state a linked list of the pairs whose trailing run is in it, by their numbers: `first`
/// by state, `next` by pair.
#[derive(Drop)]
pub struct PairsByTrailingState {
    pub first: Vec<Option<u32>>,
    pub next: Vec<Option<u32>>,
}

/// The pairs by the state of their trailing run. They are added from the last to the first, so each
/// list ascends.
pub fn pairs_by_trailing_state<S: Key>(
    alloc: Global,
    body: &Body<S>,
) -> Result<PairsByTrailingState, AllocError>
    ensures { IfOk result (ArePairsBehind (length body.now.states) body.now.pairs) }
{
    let mut first = vec![in alloc; None; body.state_count() as usize]?;
    let mut next = vec![in alloc; None; body.pair_count() as usize]?;
    body.law();
    let pairs = body.pairs().as_slice();
    for number in (0..body.pair_count()).rev() {
        let behind = pairs[number as usize].behind as usize;
        next[number as usize] = first[behind];
        first[behind] = Some(number);
    }
    Ok(PairsByTrailingState { first, next })
}

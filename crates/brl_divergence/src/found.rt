//! What a listing has found.
ghost use Rattle.std.specs.Prelude.{◌≡◌, take};

use crate::RuleTexts;
use brl_closure::{KnownSteps, Trail};
use brl_pairs::Key;

/// What a listing has found: states and pairs, and the pairs of rules that are listed. The steps of
/// states on the way to texts are kept.
#[derive(Drop)]
pub struct FoundSoFar<S: Key> {
    pub trail: Trail<S>,
    pub list: RuleTexts,
    pub known: KnownSteps<S>,
}

/// Keeps the first `count` pairs, and drops those that were found after them.
pub fn take_back<S: Key>(trail: &mut Trail<S>, count: usize)
    ensures states { trail.new.states ≡ trail.old.states }
    ensures state_origins { trail.new.state_origins ≡ trail.old.state_origins }
    ensures pairs { trail.new.pairs ≡ take count trail.old.pairs }
    ensures pair_origins { trail.new.pair_origins.items ≡ take count trail.old.pair_origins.items }
{
    trail.pairs.truncate(count);
    trail.pair_origins.truncate(count);
}

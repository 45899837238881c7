//! What a complete list of an exact machine says of its texts. The law is the contract of a
//! function that does nothing.
ghost use Rattle.std.specs.Prelude.{ℕ};
ghost use Rattle.brl_divergence.specs.Answers.{IsComplete, IsListed};
ghost use Rattle.brl_divergence.specs.Listed.{RuleTexts as ListValue, rules_of};
ghost use Rattle.brl_pairs.specs.Body.{BodyView};
ghost use Rattle.brl_pairs.specs.Divergence.{IsCompleteList};
ghost use Rattle.brl_pairs.specs.Runs.{IsExact};

use brl_pairs::{Machine, numbered_divergence_law};

/// Over an exact machine a complete list has just the pairs of rules at which different texts with
/// the same translation diverge, each with two such texts. By `brl_pairs::one_list_law` there is
/// one such list.
pub fn complete_list_law<M: Machine>(machine: &M)
    ensures { IsExact (M.behaviour machine.now) → (limit : ℕ) (list : ListValue) (body : BodyView M.State) →
        IsListed (M.behaviour machine.now) list → IsComplete (M.behaviour machine.now) limit list body →
        IsCompleteList (M.behaviour machine.now) (rules_of list) }
{
    numbered_divergence_law(machine);
}

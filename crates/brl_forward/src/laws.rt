//! Laws of the definitions, for proofs in the crates above. A function's contract is the law.
ghost use Rattle.std.specs.Prelude.{◌≡◌, ◌+◌, ◌<◌, ◌∷◌, ℕ, List, length, flat_map};
ghost use Rattle.brl_rules.specs.TableView.{TableView};
ghost use Rattle.brl_rules.specs.Translation.{chosen_at, translation};
ghost use Rattle.brl_forward.specs.Trace.{step_at, steps_from, trace_of};

use brl_rules::choice_laws;

/// A trace goes step by step, and its joined cells are the translation. From a position on it is
/// the step there, then the steps from after the step's last character on.
pub fn trace_laws()
    ensures position { (t : TableView) (text : List ℕ) (i : ℕ) → i < length text →
        steps_from t text (length text) i
        ≡ step_at t text i ∷ steps_from t text (length text) (i + (chosen_at t text i).taken) }
    ensures cells { (t : TableView) (text : List ℕ) →
        flat_map (λ step. step.cells) (trace_of t text) ≡ translation t text }
{
    choice_laws();
}

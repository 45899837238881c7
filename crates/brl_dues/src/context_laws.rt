//! The law of contexts, for the crates above: the function has an empty body, and its contract is
//! the law.
ghost use Rattle.std.specs.Prelude.{◌≡◌, ◌↔◌, ℕ, IsFalse, IsTrue, List, [], ◌∷◌, ◌++◌, Some, filter};
ghost use Rattle.brl_pairs.specs.Runs.{IsListed};
ghost use Rattle.brl_pairs.specs.declared.step.Step.{Step as StepValue};
ghost use Rattle.brl_rules.specs.TableView.{TableView};
ghost use Rattle.brl_rules.specs.declared.place.Cond.{Cond as CondValue};
ghost use Rattle.brl_states.specs.Order.{in_order};
ghost use Rattle.brl_states.specs.declared.due.Due.{Due as DueValue};
ghost use Rattle.brl_states.specs.declared.due.Due.TheVariants.{Bar};
ghost use Rattle.brl_states.specs.declared.dues_state.DuesState.{DuesState as StateValue};
ghost use Rattle.brl_dues.specs.Carry.{carry};
ghost use Rattle.brl_dues.specs.Contexts.{AreOfBoth, IsPast, bars, base_of, gate_of, meets, more, opens, step_past, steps_past};
ghost use Rattle.brl_dues.specs.Steps.{dues_steps};
ghost use Rattle.brl_dues.specs.declared.carry.Carried.TheVariants.{Settled};

use brl_rules::Table;

/// The steps of a state are those of its base whose gate it opens and that none of its bars breaks,
/// in order, each with what its bars leave past it. Of two that became the same the first stays. So
/// each is a step that the state has of one of its base. A base is its own base.
///
/// A bar that doesn't meet what a step reads is settled, so those that meet it leave the same as
/// all. A step of the base past which no more is left stays as it is, and no other one becomes the
/// same. The dues after another one are those of both, in order and without repeats.
pub fn contexts_law(table: &Table)
    ensures steps { (s : StateValue) → dues_steps table.now s ≡ steps_past table.now s }
    ensures each { (s : StateValue) (x : StepValue StateValue) → IsListed (dues_steps table.now s) x ↔ IsPast table.now s x }
    ensures base { (t : TableView) (s : StateValue) → base_of t (base_of t s) ≡ base_of t s }
    ensures settled { (t : TableView) (reads chars : List ℕ) (cond : CondValue) → IsFalse (meets reads (Bar chars cond)) →
        carry t reads (Bar chars cond) ≡ Settled }
    ensures met { (t : TableView) (s : StateValue) (x : StepValue StateValue) →
        more t (bars s) x ≡ more t (filter (meets x.reads) (bars s)) x }
    ensures free { (t : TableView) (s : StateValue) (x : StepValue StateValue) → IsListed (dues_steps t (base_of t s)) x →
        IsTrue (opens s (gate_of t x)) → more t (bars s) x ≡ Some [] → step_past t s x ≡ x ∷ [] }
    ensures apart { (t : TableView) (s : StateValue) (x y z : StepValue StateValue) → IsListed (dues_steps t (base_of t s)) x →
        IsListed (dues_steps t (base_of t s)) y → step_past t s x ≡ z ∷ [] → step_past t s y ≡ z ∷ [] →
        more t (bars s) x ≡ Some [] → x ≡ y }
    ensures dues { (one other both : List DueValue) → both ≡ in_order (one ++ other) ↔ AreOfBoth one other both }
{
    table.law();
}

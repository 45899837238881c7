//! Laws of the definitions, for the crates above: each function has an empty body, and its contract
//! is the law.
ghost use Rattle.std.specs.Prelude.{◌≡◌, ◌↔◌, ℕ, IsTrue, List, Some, ◌++◌};
ghost use Rattle.std.specs.List.{Contains};
ghost use Rattle.brl_pairs.specs.Runs.{IsExact, IsListed};
ghost use Rattle.brl_pairs.specs.declared.step.Step.{Step as StepValue};
ghost use Rattle.brl_rules.specs.TableView.{TableView};
ghost use Rattle.brl_rules.specs.Text.{is_text};
ghost use Rattle.brl_dues.specs.Carry.{gathered};
ghost use Rattle.brl_dues.specs.Laws.{AreGathered, OneStep};
ghost use Rattle.brl_dues.specs.Steps.{IsStep, dues_machine, dues_steps, first_state};
ghost use Rattle.brl_dues.specs.declared.carry.Carried.{Carried as CarriedValue};
ghost use Rattle.brl_dues.specs.Finite.{all_cells, all_dues, all_leads, all_states};
ghost use Rattle.brl_states.specs.declared.due.Due.{Due as DueValue};
ghost use Rattle.brl_states.specs.declared.dues_state.DuesState.{DuesState as StateValue};

use brl_rules::{Table, choice_laws, translation_laws};

/// The dues machine of a table lists exactly the steps of a state, for every value of the state
/// type. That each is listed once, by ascending rule number, is a law of every machine.
pub fn dues_law()
    ensures { (t : TableView) (s : StateValue) (x : StepValue StateValue) → IsListed (dues_steps t s) x ↔ IsStep t s x }
{}

/// The dues after a step: none of what is carried is broken, and they are what is left, in order
/// and without repeats.
pub fn gathered_law()
    ensures { (carried : List CarriedValue) (dues : List DueValue) → gathered carried ≡ Some dues ↔ AreGathered carried dues }
{}

/// A rest of a text meets the dues of a state exactly where it is empty and the state is final, or
/// it goes on by one step, which the table chooses. This holds for every value of the state type
/// and every rest over the table's characters.
pub fn step_law(table: &Table)
    ensures { (s : StateValue) (rest : List ℕ) → IsTrue (is_text table.now rest) → OneStep table.now s rest }
{
    choice_laws();
    table.law();
}

/// Each path of the dues machine to a final state reads a text and gives its translation, and each
/// text has one path.
pub fn exact_law(table: &Table)
    ensures { IsExact (dues_machine table.now) }
{
    choice_laws();
    translation_laws();
    table.law();
}

/// The states of the dues machine, and the cells of its steps, the dues and the leads, come from
/// finite lists that depend on the table alone. The start is among the states, a step from one of
/// them leads to one of them, its cells are among the cells, and what these end with is among the
/// leads. Each due of one of the states is among the dues.
pub fn finite_law()
    ensures start { (t : TableView) → Contains (all_states t) first_state }
    ensures steps { (t : TableView) (s : StateValue) (x : StepValue StateValue) → Contains (all_states t) s →
        IsListed (dues_steps t s) x → Contains (all_states t) x.next }
    ensures cells { (t : TableView) (s : StateValue) (x : StepValue StateValue) → Contains (all_states t) s →
        IsListed (dues_steps t s) x → Contains (all_cells t) x.cells }
    ensures dues { (t : TableView) (s : StateValue) (due : DueValue) → Contains (all_states t) s → Contains s.dues due →
        Contains (all_dues t) due }
    ensures leads { (t : TableView) (s : StateValue) (x : StepValue StateValue) (front lead : List ℕ) → Contains (all_states t) s →
        IsListed (dues_steps t s) x → x.cells ≡ front ++ lead → Contains (all_leads t) lead }
{}

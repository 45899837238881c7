//! A law of the definitions, for the crates above: the function has an empty body, and its contract
//! is the law.
ghost use Rattle.std.specs.Prelude.{◌↔◌};
ghost use Rattle.brl_pairs.specs.Runs.{IsListed};
ghost use Rattle.brl_pairs.specs.declared.step.Step.{Step as StepValue};
ghost use Rattle.brl_rules.specs.TableView.{TableView};
ghost use Rattle.brl_window.specs.Steps.{IsStep};
ghost use Rattle.brl_window.specs.Windows.{window_steps};
ghost use Rattle.brl_states.specs.declared.window_state.WindowState.{WindowState as StateValue};

/// A window machine lists exactly the steps of a state's windows, for every value of the state
/// type. That each is listed once, by ascending rule number, is a law of every machine.
pub fn window_law()
    ensures { (t : TableView) (s : StateValue) (x : StepValue StateValue) →
        IsListed (window_steps t s) x ↔ IsStep t s x }
{}

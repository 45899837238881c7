//! Laws of what a stream writes, for callers. Each is the contract of a function that does nothing.
ghost use Rattle.std.specs.Prelude.{◌≡◌, ℕ, List, Ok};
ghost use Rattle.brl_cells.specs.declared.form.Form.{Form as FormValue};
ghost use Rattle.brl_rules.specs.TableView.{TableView};
ghost use Rattle.brl_rules.specs.Translation.{IsUnambiguous};
ghost use Rattle.brl_stream.specs.InputLines.{lines_of};
ghost use Rattle.brl_stream.specs.Output.{IsOutput, output_of};

use brl_cells::ascii_marks_differ;

/// By an unambiguous table two lines with the same output are equal, and two inputs with the same
/// output have the same lines. So such inputs differ in nothing but how their lines end: with a
/// line feed, with a carriage return before it, or the last one with neither.
pub fn same_output_law()
    ensures lines { (t : TableView) (form : FormValue) → IsUnambiguous t → (left right output : List ℕ) →
        output_of t form left ≡ Ok output → output_of t form right ≡ Ok output → left ≡ right }
    ensures inputs { (t : TableView) (form : FormValue) → IsUnambiguous t → (left right output : List ℕ) →
        IsOutput t form left output → IsOutput t form right output → lines_of left ≡ lines_of right }
{
    ascii_marks_differ();
}

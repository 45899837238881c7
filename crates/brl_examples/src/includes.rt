//! Worked examples of include lines.
ghost use Rattle.std.specs.Prelude.{◌≡◌, [], codes};
ghost use Rattle.brl_examples.specs.Folders.{in_folders, lines_at, none_refused, one_then_two, root_in_folder, unread_refused};
ghost use Rattle.brl_lines.specs.Answer.{Holds, Missing, Unreadable};
ghost use Rattle.brl_lines.specs.Examples.{circle_refused, in_a_circle, lacking, lacking_refused, nested, nested_lines};
ghost use Rattle.brl_lines.specs.Lines.{lines_of};

/// Files, and the lines of a table in them or why it has none, computed from the definitions.
#[tactic(auto, unfolding(crate::proofs::Computing::of_lines))]
pub fn include_examples()
    ensures nested { lines_of [] nested (codes "d/t.ctb") ≡ nested_lines }
    ensures circle { lines_of [] in_a_circle (codes "t.ctb") ≡ circle_refused }
    ensures lacking { lines_of [] lacking (codes "t.ctb") ≡ lacking_refused }
{}

/// Files in folders, and the lines of a table that includes one of them or why it has none,
/// computed from the definitions.
#[tactic(auto, unfolding(crate::proofs::Computing::of_lines))]
pub fn folder_examples()
    ensures first { lines_of one_then_two (in_folders Missing) (codes "t") ≡ lines_at (codes "one/u") }
    ensures usual { lines_of one_then_two (in_folders (Holds (codes "letter a 1"))) (codes "t") ≡ lines_at (codes "u") }
    ensures unread { lines_of one_then_two (in_folders Unreadable) (codes "t") ≡ unread_refused }
    ensures none { lines_of [] (in_folders Missing) (codes "t") ≡ none_refused }
    ensures root { lines_of one_then_two root_in_folder (codes "t") ≡ lines_at (codes "one/u") }
{}

#[test]
fn includes_are_as_worked() {
    include_examples();
    folder_examples();
}

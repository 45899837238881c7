//! Laws of rules and definitions that can't act. Each is the contract of a function that does
//! nothing.
ghost use Rattle.std.specs.Prelude.{◌≡◌, ◌↔◌, ℕ, Bool, false, IsTrue, List, filter, map};
ghost use Rattle.std.specs.List.{list_all};
ghost use Rattle.brl_rules.specs.declared.rule.Rule.{Rule};
ghost use Rattle.brl_rules.specs.Rank.{IsRanking};
ghost use Rattle.brl_rules.specs.TableView.{TableView};
ghost use Rattle.brl_rules.specs.Translation.{IsClash};
ghost use Rattle.brl_table.specs.Reading.{table_of};
ghost use Rattle.brl_acting.specs.Capitals.{bases_of};
ghost use Rattle.brl_acting.specs.Idle.{AreAlikeOver, DropsCharactersOutside, DropsIdleRules, HasFolds, IsIdle, IsWithoutIdle, is_over, kept_lines, with_characters, with_rules};
ghost use Rattle.brl_acting.specs.Readings.{known_of};
ghost use Rattle.brl_acting.specs.Sets.{is_in};
ghost use Rattle.brl_acting.specs.Words.{LineParts, TableLineView, parts_of};

/// Without rules that can't act over an alphabet, and definitions of characters outside it, texts
/// over it have the same cells, faults and clashes. What is left of a ranking of rules is the
/// ranking of those that are left.
pub fn idle_laws()
    ensures rules { (alphabet : List ℕ) (t : TableView) (keeps : Rule → Bool) →
        DropsIdleRules alphabet t keeps → AreAlikeOver alphabet t (with_rules keeps t) }
    ensures definitions { (alphabet : List ℕ) (t : TableView) (keeps : ℕ → Bool) →
        DropsCharactersOutside alphabet t keeps → AreAlikeOver alphabet t (with_characters keeps t) }
    ensures together { (alphabet : List ℕ) (t fewer : TableView) →
        IsWithoutIdle alphabet t fewer → AreAlikeOver alphabet t fewer }
    ensures clashes { (alphabet : List ℕ) (t other : TableView) → AreAlikeOver alphabet t other →
        (left right cells : List ℕ) → IsTrue (is_over alphabet left) → IsTrue (is_over alphabet right) →
        IsClash other left right cells ↔ IsClash t left right cells }
    ensures ranking { (lines ranked : List Rule) (keeps : Rule → Bool) → IsRanking lines ranked →
        IsRanking (filter keeps lines) (filter keeps ranked) }
{}

/// What can't act by the needs of lines can't act by a table that folds as these lines say, as the
/// table of those that are kept does. The needs of lines are those by which `acting` judges.
pub fn idle_needs_law()
    ensures rules { (lines : List LineParts) (alphabet : List ℕ) (t : TableView) (chars : List ℕ) →
        HasFolds (bases_of lines) t → list_all (known_of lines alphabet).reach.stood chars ≡ false → IsIdle t alphabet chars }
    ensures definitions { (lines : List LineParts) (alphabet : List ℕ) (c : ℕ) →
        (known_of lines alphabet).reach.near c ≡ false → is_in alphabet c ≡ false }
    ensures folds { (lines : List TableLineView) → HasFolds (bases_of (map parts_of lines)) (table_of (kept_lines lines)) }
{}

//! Laws of the definitions, for proofs in the crates above. Each function has an empty body; its
//! contract is the law.
ghost use Rattle.std.specs.Prelude.{◌≡◌, ◌++◌, ◌+◌, ◌<◌, ◌≤◌, ◌↔◌, ℕ, false, AllPairs, IsTrue, [], List, length, take, drop, slice_get, Some};
ghost use Rattle.brl_rules.specs.declared.class.Class.{Class};
ghost use Rattle.brl_rules.specs.declared.context.Context.{Context};
ghost use Rattle.brl_rules.specs.declared.rule.Rule.{Rule};
ghost use Rattle.brl_rules.specs.Choice.{fits, by_rule, own, chosen};
ghost use Rattle.brl_rules.specs.Position.{FitsAt, IsFirstThatFits};
ghost use Rattle.brl_rules.specs.Rank.{in_rank, IsInRank, IsRanking};
ghost use Rattle.brl_rules.specs.Rest.{translation_of_rest, TakesOneRule};
ghost use Rattle.brl_rules.specs.declared.signs.Sign.{Sign};
ghost use Rattle.brl_rules.specs.Signs.{by_sign, cells_at, is_same_sign};
ghost use Rattle.brl_rules.specs.TableView.{TableView};
ghost use Rattle.brl_rules.specs.Text.{at_start, classes_before, context_at, context_after_all};
ghost use Rattle.brl_rules.specs.Translation.{IsClash, IsUnambiguous, indicators_at, chosen_at, translation_from, translation};

/// A list of the cells of each indicator gives each its own, and indicators with the same number
/// are the same.
pub fn signs_law()
    ensures own { (cells : Sign → List ℕ) (sign : Sign) → cells_at (by_sign cells) sign ≡ cells sign }
    ensures same { (sign other : Sign) → IsTrue (is_same_sign sign other) → sign ≡ other }
{}

/// Rules have one ranking only, which `in_rank` computes, and in which longer rules come first.
pub fn rank_law()
    ensures one { (lines one other : List Rule) → IsRanking lines one → IsRanking lines other → one ≡ other }
    ensures computed { (lines : List Rule) → IsRanking lines (in_rank lines) }
    ensures longer_first { (rules : List Rule) → IsInRank rules → AllPairs (λ r s. length s.chars ≤ length r.chars) rules }
{}

/// The chosen rule is the first in rank that fits, else the own definition; a rule fits a rest
/// where it fits at that position of the text. The chosen rule takes at least one character, and no
/// more than there are.
pub fn choice_laws()
    ensures fitting { (t : TableView) (text : List ℕ) (i : ℕ) (r : Rule) →
        IsTrue (fits t (classes_before t text i) (drop i text) r) ↔ FitsAt t text i r }
    ensures first { (t : TableView) (before : Class) (rest : List ℕ) (place : ℕ) (r : Rule) →
        IsFirstThatFits t before rest place r → chosen t before rest ≡ by_rule place r }
    ensures none { (t : TableView) (before : Class) (rest : List ℕ) →
        ((place : ℕ) (r : Rule) → slice_get t.rules place ≡ Some r → fits t before rest r ≡ false) →
        chosen t before rest ≡ own t rest }
    ensures some { (t : TableView) (before : Class) (rest : List ℕ) → 0 < length rest → 1 ≤ (chosen t before rest).taken }
    ensures room { (t : TableView) (before : Class) (rest : List ℕ) → 0 < length rest →
        (chosen t before rest).taken ≤ length rest }
{}

/// A translation goes rule by rule, and depends on the context and the rest of the text alone. From
/// a position on it is the indicators there, the chosen rule's cells, and the translation from
/// after the rule's last character on. The context after more characters depends on these alone,
/// too.
pub fn translation_laws()
    ensures position { (t : TableView) (text : List ℕ) (i : ℕ) → i < length text →
        translation_from t text (length text) i
        ≡ indicators_at t text i ++ (chosen_at t text i).cells
        ++ translation_from t text (length text) (i + (chosen_at t text i).taken) }
    ensures rest { (t : TableView) (text : List ℕ) → translation t text ≡ translation_of_rest t at_start text }
    ensures end { (t : TableView) (here : Context) → translation_of_rest t here [] ≡ [] }
    ensures rule { (t : TableView) (here : Context) (rest : List ℕ) → 0 < length rest → TakesOneRule t here rest }
    ensures context { (t : TableView) (text : List ℕ) (i count : ℕ) → count ≤ length (drop i text) →
        context_after_all t (context_at t text i) (take count (drop i text)) ≡ context_at t text (i + count) }
{}

/// A table is unambiguous exactly where no two of its texts clash.
pub fn unambiguous_law()
    ensures { (t : TableView) → IsUnambiguous t ↔ ((left right cells : List ℕ) → IsClash t left right cells → ⊥) }
{}

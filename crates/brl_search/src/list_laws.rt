//! What a whole list of clashes says of the texts of its table, and what its states and pairs
//! prove. Each law is the contract of a function that does nothing.
ghost use Rattle.std.specs.Prelude.{◌≡◌, ℕ, IsTrue, List};
ghost use Rattle.brl_pairs.specs.Body.{BodyView};
ghost use Rattle.brl_pairs.specs.Divergence.{has_rules};
ghost use Rattle.brl_pairs.specs.Exchanges.{IsClosedUpTo};
ghost use Rattle.brl_pairs.specs.Sets.{sets_of};
ghost use Rattle.brl_rules.specs.TableView.{TableView};
ghost use Rattle.brl_search.specs.Clashes.{AreJustThose, AreRuleClashes, IsWholeList, rules_of_clashes};
ghost use Rattle.brl_search.specs.Searched.{State, machine_of};
ghost use Rattle.brl_search.specs.declared.table_clashes.RuleClash.{RuleClash as ClashValue};
ghost use Rattle.brl_without.specs.Without.{without};

/// A whole list has just the pairs of rules at which the traces of two clashing texts without what
/// is left out diverge. So there is one list: two whole lists of a table, with whatever limits and
/// however they were found, have the same pairs of rules in the same order.
pub fn whole_list_law()
    ensures just { (left_out : List ℕ) (t : TableView) (limit : ℕ) (list : List ClashValue) (body : BodyView State) →
        AreRuleClashes left_out t list → IsWholeList left_out t limit list body → AreJustThose left_out t (rules_of_clashes list) }
    ensures one { (left_out : List ℕ) (t : TableView) (limit most : ℕ) (list other : List ClashValue) (body bodies : BodyView State) →
        AreRuleClashes left_out t list → IsWholeList left_out t limit list body →
        AreRuleClashes left_out t other → IsWholeList left_out t most other bodies → rules_of_clashes list ≡ rules_of_clashes other }
{}

/// The states and pairs of a whole list are closed but for the accepted pairs of rules, where these
/// have each pair of the list. So they are a certificate up to these, whatever may be exchanged.
pub fn accepted_list_law()
    ensures { (left_out : List ℕ) (t : TableView) (limit : ℕ) (list : List ClashValue) (body : BodyView State) (exchanged accepted : List (ℕ × ℕ)) →
        IsWholeList left_out t limit list body → ((r s : ℕ) → IsTrue (has_rules (rules_of_clashes list) r s) → IsTrue (has_rules accepted r s)) →
        IsClosedUpTo (without left_out (machine_of t)) exchanged accepted (sets_of body) }
{}

//! What a table's dues machine reaches. Each law is the contract of a function that
//! does nothing.
ghost use Rattle.std.specs.Prelude.{◌≤◌, ◌↔◌, ℕ, List, length};
ghost use Rattle.std.specs.List.{Contains};
ghost use Rattle.brl_pairs.specs.Body.{BodyView};
ghost use Rattle.brl_pairs.specs.Sets.{sets_of};
ghost use Rattle.brl_dues.specs.Finite.{all_dues, all_leads, all_states};
ghost use Rattle.brl_dues.specs.Steps.{dues_machine};
ghost use Rattle.brl_states.specs.declared.due.Due.{Due as DueValue};
ghost use Rattle.brl_states.specs.declared.dues_state.DuesState.{DuesState as StateValue};
ghost use Rattle.brl_pairs.specs.Pairs.{IsClosed};
ghost use Rattle.brl_pairs.specs.declared.excused.Excused.{Excused as ExcusedValue};
ghost use Rattle.brl_pairs.specs.declared.step.Pair.{Pair as PairValue};
ghost use Rattle.brl_closure.specs.Deciding.{HasClosedSets, ListsJustReached, all_pairs, reached_sets};
ghost use Rattle.brl_closure.specs.Excusing.{IsClosedBody};
ghost use Rattle.brl_closure.specs.Reached.{AtMost, Reached, ReachedPair, SamePair, SameState};
ghost use Rattle.brl_rules.specs.TableView.{TableView};
ghost use Rattle.brl_rules.specs.Translation.{IsUnambiguous};
ghost use Rattle.brl_search.specs.Scoped.{IsSearched};
ghost use Rattle.brl_search.specs.declared.scoped.Searched.TheVariants as searches;
ghost use Rattle.brl_search.specs.declared.table_search.Found.TheVariants as finds;
ghost use Rattle.brl_without.specs.Without.{without};

use brl_closure::{just_reached_law, reached_closed_law};
use brl_dues::{Dues, exact_law, finite_law};
use brl_rules::Table;
use std::alloc::Global;

/// What the dues machine reaches comes from finite lists that depend on the table alone: states,
/// and for pairs two of these states with one of the leads. So no more is reached than these have.
/// The dues of a reached state come from a list, too: the needs of what places ask of a neighbour,
/// or of its opposite, and the bars of what a rule's characters end with.
pub fn dues_reached_law()
    ensures states { (t : TableView) (s : StateValue) → Reached (dues_machine t) s → Contains (all_states t) s }
    ensures dues { (t : TableView) (s : StateValue) (due : DueValue) → Reached (dues_machine t) s → Contains s.dues due →
        Contains (all_dues t) due }
    ensures leads { (t : TableView) (p : PairValue StateValue) → ReachedPair (dues_machine t) p → Contains (all_leads t) p.lead }
    ensures pairs { (t : TableView) (p : PairValue StateValue) → ReachedPair (dues_machine t) p →
        Contains (all_pairs (all_states t) (all_leads t)) p }
    ensures few_states { (t : TableView) → AtMost (length (all_states t)) SameState (Reached (dues_machine t)) }
    ensures few_pairs { (t : TableView) → AtMost (length (all_pairs (all_states t) (all_leads t))) SamePair (ReachedPair (dues_machine t)) }
{
    finite_law();
}

/// A table is unambiguous exactly where what its dues machine reaches is closed, and exactly where
/// some sets are closed.
pub fn dues_closed_law(alloc: Global, table: &Table)
    ensures reached { IsUnambiguous table.now ↔ IsClosed (dues_machine table.now) (reached_sets (dues_machine table.now)) }
    ensures some { IsUnambiguous table.now ↔ HasClosedSets (dues_machine table.now) }
{
    exact_law(table);
    let dues = Dues::new(alloc, table);
    reached_closed_law(&dues);
}

/// For any lists of just the states that its dues machine reaches and, in at least one order, just
/// the pairs: a table is unambiguous exactly where they are closed, and so are a certificate.
pub fn dues_certificate_law(alloc: Global, table: &Table)
    ensures { (body : BodyView StateValue) → ListsJustReached (dues_machine table.now) body →
        IsUnambiguous table.now ↔ IsClosed (dues_machine table.now) (sets_of body) }
{
    exact_law(table);
    let dues = Dues::new(alloc, table);
    just_reached_law(&dues);
}

/// No certificate of version 2 or 3 lists fewer states than the table's dues machine reaches,
/// whatever is excused. So where a search passes its limit with some number of states, each such
/// certificate without the same characters has at least as many.
pub fn fewest_states_law()
    ensures closed { (left_out : List ℕ) (t : TableView) (body : BodyView StateValue) → IsClosed (without left_out (dues_machine t)) (sets_of body) →
        AtMost (length body.states) SameState (Reached (without left_out (dues_machine t))) }
    ensures up_to { (left_out : List ℕ) (excused : ExcusedValue) (t : TableView) (body : BodyView StateValue) →
        IsClosedBody (without left_out (dues_machine t)) excused body →
        AtMost (length body.states) SameState (Reached (without left_out (dues_machine t))) }
    ensures limit { (left_out : List ℕ) (excused more : ExcusedValue) (t : TableView) (limit states pairs : ℕ) (body : BodyView StateValue) →
        IsSearched left_out excused t limit (searches.Found (finds.Limit states pairs)) →
        IsClosedBody (without left_out (dues_machine t)) more body → states ≤ length body.states }
{}

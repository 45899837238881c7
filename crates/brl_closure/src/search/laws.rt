//! Laws of the search, most of them over an exact machine: each of its paths to a final state is a
//! translation, and each text has one path. Each law is the contract of a function that does
//! nothing.
ghost use Rattle.std.specs.Prelude.{◌≡◌, ◌≤◌, ◌↔◌, ℕ, List, Option, length};
ghost use Rattle.std.specs.List.{Contains};
ghost use Rattle.brl_pairs.specs.Body.{BodyView};
ghost use Rattle.brl_pairs.specs.Sets.{sets_of};
ghost use Rattle.brl_pairs.specs.Pairs.{IsClosed, numbered};
ghost use Rattle.brl_pairs.specs.Runs.{IsExact, IsUnambiguous};
ghost use Rattle.brl_pairs.specs.declared.excused.Excused.{Excused as ExcusedValue};
ghost use Rattle.brl_pairs.specs.declared.step.Pair.{Pair as PairValue};
ghost use Rattle.brl_closure.specs.Answers.{AreTwoPaths, HasTwoEndsReached, IsLimit};
ghost use Rattle.brl_closure.specs.Deciding.{HasClosedSets, IsClashOf, HasClash, HasLeadOfStep, HasTwoRuns, HoldsSteps, ListsJustReached, all_pairs, reached_sets};
ghost use Rattle.brl_closure.specs.Excusing.{ExcusesAll, IsClosedBody};
ghost use Rattle.brl_closure.specs.Reached.{AtMost, Reached, ReachedPair, SamePair, SameState};
ghost use Rattle.brl_rules.specs.Text.{is_text};
ghost use Rattle.brl_rules.specs.Translation.{IsClash, translation};

use brl_pairs::Machine;
use brl_rules::Table;

/// Each reached pair of every machine has two runs from the start, which differ however they
/// continue, and whose cells differ by the lead.
pub fn two_runs_law<M: Machine>(machine: &M)
    ensures { (p : PairValue M.State) → ReachedPair (M.behaviour machine.now) p → HasTwoRuns (M.behaviour machine.now) p }
{
    let _ = machine.start();
}

/// Two different paths of an exact machine to final states that give the same cells read two
/// different texts, which are translated to the same cells.
pub fn same_cells_law<M: Machine>(machine: &M)
    ensures { IsExact (M.behaviour machine.now) → (left right : List ℕ) → AreTwoPaths (M.behaviour machine.now) left right →
        IsClashOf (M.behaviour machine.now) left right }
{}

/// Over a machine of a table two different texts with the same cells are a clash of the table, so
/// `confirm` finds one in them.
pub fn clash_law<M: Machine>(machine: &M, table: &Table)
    requires texts { (M.behaviour machine.now).is_text ≡ is_text table.now }
    requires translation { (M.behaviour machine.now).translation ≡ translation table.now }
    requires exact { IsExact (M.behaviour machine.now) }
    ensures { (left right : List ℕ) → AreTwoPaths (M.behaviour machine.now) left right →
        IsClash table.now left right (translation table.now left) }
{}

/// A reached pair of an exact machine with an empty lead and two final states gives a clash.
pub fn two_ends_law<M: Machine>(machine: &M)
    ensures { IsExact (M.behaviour machine.now) → HasTwoEndsReached (M.behaviour machine.now) → HasClash (M.behaviour machine.now) }
{
    let _ = machine.start();
}

/// An exact machine is unambiguous exactly where what is reached is closed, and exactly where some
/// sets are closed.
pub fn reached_closed_law<M: Machine>(machine: &M)
    ensures reached { IsExact (M.behaviour machine.now) →
        IsUnambiguous (M.behaviour machine.now) ↔ IsClosed (M.behaviour machine.now) (reached_sets (M.behaviour machine.now)) }
    ensures some { IsExact (M.behaviour machine.now) →
        IsUnambiguous (M.behaviour machine.now) ↔ HasClosedSets (M.behaviour machine.now) }
{
    let _ = machine.start();
}

/// For any lists of just the reached states and, in at least one order, just the reached pairs: an
/// exact machine is unambiguous exactly where they are closed, and so are a certificate.
pub fn just_reached_law<M: Machine>(machine: &M)
    ensures { IsExact (M.behaviour machine.now) → (body : BodyView M.State) → ListsJustReached (M.behaviour machine.now) body →
        IsUnambiguous (M.behaviour machine.now) ↔ IsClosed (M.behaviour machine.now) (sets_of body) }
{
    let _ = machine.start();
}

/// Closed sets have each reached state, so there are at least as many states in a closed body as
/// are reached.
pub fn in_closed_law<M: Machine>(machine: &M)
    ensures states { (states : ℕ → Option M.State) (pairs : ℕ → Option (PairValue M.State)) →
        IsClosed (M.behaviour machine.now) (numbered states pairs) →
        (s : M.State) → Reached (M.behaviour machine.now) s → (numbered states pairs).has_state s }
    ensures few_states { (body : BodyView M.State) → IsClosed (M.behaviour machine.now) (sets_of body) →
        AtMost (length body.states) SameState (Reached (M.behaviour machine.now)) }
{}

/// What is excused may grow: states and pairs that are closed but for what is excused are closed
/// but for more, too.
pub fn more_excused_law<M: Machine>(machine: &M)
    ensures { (excused more : ExcusedValue) (body : BodyView M.State) → ExcusesAll more excused →
        IsClosedBody (M.behaviour machine.now) excused body → IsClosedBody (M.behaviour machine.now) more body }
{}

/// Where at most `limit` states and at most `limit` pairs are reached, a search doesn't come to its
/// limit.
pub fn no_limit_law<M: Machine>(machine: &M)
    ensures { (limit states pairs : ℕ) → AtMost limit SameState (Reached (M.behaviour machine.now)) →
        AtMost limit SamePair (ReachedPair (M.behaviour machine.now)) → IsLimit (M.behaviour machine.now) limit states pairs → ⊥ }
{}

/// Both states of a reached pair are reached, and the cells of one step of a reached state end with
/// its lead.
pub fn lead_law<M: Machine>(machine: &M)
    ensures { (p : PairValue M.State) → ReachedPair (M.behaviour machine.now) p → HasLeadOfStep (M.behaviour machine.now) p }
{}

/// The lead of a reached pair has at most 1,024 cells.
pub fn short_lead_law<M: Machine>(machine: &M)
    ensures { (p : PairValue M.State) → ReachedPair (M.behaviour machine.now) p → length p.lead ≤ 1024 }
{
    let _ = machine.start();
}

/// Where lists contain a machine's steps, what is reached comes from them, and is no more than they
/// have.
pub fn reached_listed_law<M: Machine>(machine: &M)
    ensures states { (states : List M.State) (leads : List (List ℕ)) → HoldsSteps (M.behaviour machine.now) states leads →
        (s : M.State) → Reached (M.behaviour machine.now) s → Contains states s }
    ensures pairs { (states : List M.State) (leads : List (List ℕ)) → HoldsSteps (M.behaviour machine.now) states leads →
        (p : PairValue M.State) → ReachedPair (M.behaviour machine.now) p → Contains (all_pairs states leads) p }
    ensures few_states { (states : List M.State) (leads : List (List ℕ)) → HoldsSteps (M.behaviour machine.now) states leads →
        AtMost (length states) SameState (Reached (M.behaviour machine.now)) }
    ensures few_pairs { (states : List M.State) (leads : List (List ℕ)) → HoldsSteps (M.behaviour machine.now) states leads →
        AtMost (length (all_pairs states leads)) SamePair (ReachedPair (M.behaviour machine.now)) }
{}

//! Splits, and all that they lead to.
ghost use Rattle.std.specs.Prelude.{◌+◌, ◌<◌, ◌≤◌, ℕ, Contains, IfErr, List, OnOk, length};
ghost use Rattle.std.specs.BTreeMap.{btree_map_len};
ghost use Rattle.brl_closure.specs.Trail.{AddsPairs, Advances, IsActive, IsStopped, TakesStep};
ghost use Rattle.brl_divergence.specs.Answers.{IsListed};
ghost use Rattle.brl_divergence.specs.Expanded.{AreExpanded, AreSplitsOf, AreTwoEdges, IsEdgeOf, IsPlaceOf};
ghost use Rattle.brl_divergence.specs.Found.{AreFollowed, AreSettledAt, IsExplored, IsOfSplit, IsOver, IsSettledState, IsSound, Keeps};
ghost use Rattle.brl_divergence.specs.Listed.{IsDivergence, rules_of};
ghost use Rattle.brl_failure.specs.Failure.{IfFault};
ghost use Rattle.brl_pairs.specs.declared.step.Step.{Step as StepValue};

use crate::RuleTexts;
use crate::expanded::Expanded;
use crate::found::{FoundSoFar, take_back};
use brl_closure::{Finder, Origins, PairOrigin, Stop, Texts, Trail};
use brl_failure::Failure;
use brl_pairs::{Machine, SortedEdge, Splits, cells_of, earlier_splits, splits_of};
use std::alloc::AllocError;

/// Explores the splits of a machine whose states are all expanded.
#[derive(Drop)]
pub struct Explorer<'a, 'm, M: Machine> {
    pub finder: &'a Finder<'m, M>,
    pub expanded: &'a Expanded,
}

impl<'a, 'm, M: Machine> Explorer<'a, 'm, M> {
    /// Adds the pair into which two steps of a state split, if they do.
    fn find_split(
        &self,
        trail: &mut Trail<M::State>,
        state: usize,
        first: &SortedEdge,
        second: &SortedEdge,
    ) -> Result<(), Failure<Stop>>
        requires active { IsActive M.behaviour self.now.finder.now trail.old }
        requires edges { (rules : ℕ × ℕ) × AreTwoEdges (M.behaviour self.now.finder.now.machine.now) trail.old.states self.now.expanded.now.cells state first.now second.now rules }
        ensures followed { OnOk result ((x y : StepValue M.State) → TakesStep (M.behaviour self.now.finder.now.machine.now) trail.new.states state first.now.place x →
            TakesStep (M.behaviour self.now.finder.now.machine.now) trail.new.states state second.now.place y → AreFollowed trail.new.states trail.new.pairs x y) }
        ensures advances { OnOk result (Advances M.behaviour self.now.finder.now trail.old trail.new) }
        ensures stopped { IfErr result (IfFault (IsStopped M.behaviour self.now.finder.now trail.new)) }
        ensures adds { (from : ℕ) → AddsPairs (IsOfSplit state first.now.place second.now.place from) trail.old trail.new }
    {
        let longer = first.place as usize;
        let shorter = second.place as usize;
        let origins = Origins {
            still: PairOrigin::Split {
                state,
                longer,
                shorter,
            },
            swapped: PairOrigin::Split {
                state,
                longer: shorter,
                shorter: longer,
            },
        };
        let cells = self.expanded.cells.as_slice();
        let lead = cells_of(cells, first);
        let own = cells_of(cells, second);
        self.finder
            .follow(trail, first.next, lead, second.next, own, origins)
    }

    /// Adds the pair into which two steps of a state split, if they do, and all pairs that follow
    /// it.
    fn explore(
        &self,
        trail: &mut Trail<M::State>,
        state: usize,
        first: &SortedEdge,
        second: &SortedEdge,
    ) -> Result<(), Failure<Stop>>
        requires explored { IsExplored M.behaviour self.now.finder.now self.now.expanded.now trail.old }
        requires edges { (rules : ℕ × ℕ) × AreTwoEdges (M.behaviour self.now.finder.now.machine.now) trail.old.states self.now.expanded.now.cells state first.now second.now rules }
        ensures explored { OnOk result (IsExplored M.behaviour self.now.finder.now self.now.expanded.now trail.new) }
        ensures followed { OnOk result ((x y : StepValue M.State) → TakesStep (M.behaviour self.now.finder.now.machine.now) trail.new.states state first.now.place x →
            TakesStep (M.behaviour self.now.finder.now.machine.now) trail.new.states state second.now.place y → AreFollowed trail.new.states trail.new.pairs x y) }
        ensures stopped { IfErr result (IfFault (IsStopped M.behaviour self.now.finder.now trail.new)) }
        ensures adds { AddsPairs (IsOfSplit state first.now.place second.now.place (length trail.old.pairs)) trail.old trail.new }
    {
        // What follows the pairs before this place is listed already.
        let mut next = trail.pairs.len();
        self.find_split(trail, state, first, second)?;
        let cells = self.expanded.cells.as_slice();
        while next < trail.pairs.len() {
            self.finder
                .walk(trail, cells, self.expanded.edges.as_slice(), next)?;
            next += 1;
        }
        Ok(())
    }

    /// The rules of two edges of a state. The first edge comes before the second.
    fn rules_of(&self, state: usize, first: &SortedEdge, second: &SortedEdge) -> (u32, u32)
        requires expanded { (states : List M.State) × AreExpanded (M.behaviour self.now.finder.now.machine.now) states self.now.expanded.now }
        requires first { IsEdgeOf self.now.expanded.now state first.now }
        requires second { IsEdgeOf self.now.expanded.now state second.now }
        requires in_order { first.now.place < second.now.place }
        ensures { (states : List M.State) → AreExpanded (M.behaviour self.now.finder.now.machine.now) states self.now.expanded.now →
            AreTwoEdges (M.behaviour self.now.finder.now.machine.now) states self.now.expanded.now.cells state first.now second.now result }
    {
        let rules = self.expanded.rules[state].as_slice();
        (rules[first.place as usize], rules[second.place as usize])
    }

    /// Lists a pair of rules with its texts.
    fn list(&self, list: &mut RuleTexts, rules: (u32, u32), texts: Texts) -> Result<(), AllocError>
        requires listed { IsListed (M.behaviour self.now.finder.now.machine.now) list.old }
        requires divergence { IsDivergence (M.behaviour self.now.finder.now.machine.now) (rules, texts) }
        ensures listed { OnOk result (IsListed (M.behaviour self.now.finder.now.machine.now) list.new) }
        ensures there { OnOk result (Contains (rules_of list.new) rules) }
        ensures kept { OnOk result ((other : ℕ × ℕ) → Contains (rules_of list.old) other → Contains (rules_of list.new) other) }
        ensures one_more { OnOk result (btree_map_len list.new ≤ btree_map_len list.old + 1) }
    {
        list.insert(rules, texts)?;
        Ok(())
    }

    /// Settles two steps of a state: where their pair of rules isn't listed, explores the pair into
    /// which they split, if they do. Where two ends are met, what was found is dropped, and the
    /// pair of rules is listed.
    fn settle_split(
        &self,
        found: &mut FoundSoFar<M::State>,
        state: usize,
        first: &SortedEdge,
        second: &SortedEdge,
    ) -> Result<(), Failure<Stop>>
        requires sound { IsSound M.behaviour self.now.finder.now self.now.expanded.now found.old }
        requires first { IsEdgeOf self.now.expanded.now state first.now }
        requires second { IsEdgeOf self.now.expanded.now state second.now }
        requires in_order { first.now.place < second.now.place }
        ensures sound { OnOk result (IsSound M.behaviour self.now.finder.now self.now.expanded.now found.new) }
        ensures keeps { OnOk result (Keeps found.old found.new) }
        ensures settled { OnOk result (AreSettledAt (M.behaviour self.now.finder.now.machine.now) found.new state first.now.place second.now.place) }
        ensures over { IfErr result (IfFault (λ _. IsOver (M.behaviour self.now.finder.now.machine.now) self.now.finder.now.limit found.new)) }
    {
        let rules = self.rules_of(state, first, second);
        if found.list.contains_key(&rules) {
            return Ok(());
        }
        let kept = found.trail.pairs.len();
        match self.explore(&mut found.trail, state, first, second) {
            Ok(()) => Ok(()),
            Err(Failure::Fault(Stop::BothEnd(number))) => {
                let texts = self
                    .finder
                    .texts_of(&found.trail, &mut found.known, number)?;
                take_back(&mut found.trail, kept);
                self.list(&mut found.list, rules, texts)?;
                if found.list.len() as u64 > self.finder.limit {
                    return Err(Failure::Fault(Stop::Limit));
                }
                Ok(())
            }
            Err(Failure::Fault(Stop::Limit)) => Err(Failure::Fault(Stop::Limit)),
            Err(Failure::Memory) => Err(Failure::Memory),
        }
    }

    /// Settles one step of a state with each earlier one.
    fn settle_place(
        &self,
        found: &mut FoundSoFar<M::State>,
        state: usize,
        splits: &Splits,
        second: usize,
    ) -> Result<(), Failure<Stop>>
        requires sound { IsSound M.behaviour self.now.finder.now self.now.expanded.now found.old }
        requires splits { AreSplitsOf self.now.expanded.now state splits.now }
        requires within { IsPlaceOf self.now.expanded.now state second }
        ensures sound { OnOk result (IsSound M.behaviour self.now.finder.now self.now.expanded.now found.new) }
        ensures keeps { OnOk result (Keeps found.old found.new) }
        ensures settled { OnOk result ((i : ℕ) → i < second → AreSettledAt (M.behaviour self.now.finder.now.machine.now) found.new state i second) }
        ensures over { IfErr result (IfFault (λ _. IsOver (M.behaviour self.now.finder.now.machine.now) self.now.finder.now.limit found.new)) }
    {
        let cells = self.expanded.cells.as_slice();
        let sorted = self.expanded.edges[state].as_slice();
        let earlier = earlier_splits(self.finder.alloc, cells, sorted, splits, second)?;
        let own = sorted[splits.positions[second] as usize];
        for first in earlier.as_slice() {
            self.settle_split(found, state, first, &own)?;
        }
        Ok(())
    }

    /// Settles any two steps of a state.
    pub fn settle_state(
        &self,
        found: &mut FoundSoFar<M::State>,
        state: usize,
    ) -> Result<(), Failure<Stop>>
        requires sound { IsSound M.behaviour self.now.finder.now self.now.expanded.now found.old }
        requires within { state < length self.now.expanded.now.edges.items }
        ensures sound { OnOk result (IsSound M.behaviour self.now.finder.now self.now.expanded.now found.new) }
        ensures keeps { OnOk result (Keeps found.old found.new) }
        ensures settled { OnOk result (IsSettledState (M.behaviour self.now.finder.now.machine.now) found.new state) }
        ensures over { IfErr result (IfFault (λ _. IsOver (M.behaviour self.now.finder.now.machine.now) self.now.finder.now.limit found.new)) }
    {
        let cells = self.expanded.cells.as_slice();
        let sorted = self.expanded.edges[state].as_slice();
        let count = self.expanded.rules[state].len();
        let splits = splits_of(self.finder.alloc, cells, sorted, count)?;
        for second in 0..count {
            self.settle_place(found, state, &splits, second)?;
        }
        Ok(())
    }
}

//! How the pairs of a machine are found.
ghost use Rattle.std.specs.Prelude.{◌≡◌, length, IfErr, OnOk};
ghost use Rattle.std.specs.Bool.{OnTrue, OnFalse};
ghost use Rattle.brl_pairs.specs.Body.{IsPairOf};
ghost use Rattle.brl_pairs.specs.NumberPairs.{IsFollowed, IsThere};
ghost use Rattle.brl_pairs.specs.declared.edge.Edge.{Edge as EdgeValue};
ghost use Rattle.brl_failure.specs.Failure.{IfFault};
ghost use Rattle.brl_closure.specs.Edges.{Explains, FitsFollowing};
ghost use Rattle.brl_closure.specs.Trail.{AddsPairs, Advances, HasTwoEnds, IsActive, IsOneOf, IsPairOrigin, IsStopped};

use crate::search::finder::{Finder, Stop};
use crate::search::trail::{Origins, PairOrigin, Trail};
use brl_cells::{Cell, Cells};
use brl_failure::Failure;
use brl_pairs::{Advanced, Machine, Pair, advance, is_there_swapped};

impl<'m, M: Machine> Finder<'m, M> {
    /// Whether the pair has an empty lead and two final states.
    fn has_two_ends(&self, states: &[M::State], pair: &Pair<u32>) -> bool
        requires { IsPairOf (length states.now) pair.now }
        ensures yes { OnTrue result (HasTwoEnds (M.behaviour self.now.machine.now) states.now pair.now) }
        ensures no { OnFalse result (HasTwoEnds (M.behaviour self.now.machine.now) states.now pair.now → ⊥) }
    {
        pair.lead.is_empty()
            && self.machine.ends(&states[pair.ahead as usize])
            && self.machine.ends(&states[pair.behind as usize])
    }

    /// Adds a pair, unless it is listed in either order.
    fn find_pair(
        &self,
        trail: &mut Trail<M::State>,
        pair: Pair<u32>,
        origin: PairOrigin,
    ) -> Result<(), Failure<Stop>>
        requires active { IsActive M.behaviour self.now trail.old }
        requires origin { IsPairOrigin (M.behaviour self.now.machine.now) trail.old.states trail.old.pairs pair origin }
        requires range { IsPairOf (length trail.old.states) pair }
        ensures there { OnOk result (IsThere trail.new.pairs pair.ahead pair.behind pair.lead) }
        ensures advances { OnOk result (Advances M.behaviour self.now trail.old trail.new) }
        ensures stopped { IfErr result (IfFault (IsStopped M.behaviour self.now trail.new)) }
        ensures adds { AddsPairs (λ o. o ≡ origin) trail.old trail.new }
    {
        if is_there_swapped(self.alloc, &trail.pairs, &pair) {
            return Ok(());
        }
        let two_ends = self.has_two_ends(trail.states.as_slice(), &pair);
        let number = trail.pairs.len();
        if !trail.pairs.insert(pair)? {
            return Ok(());
        }
        trail.pair_origins.push(origin)?;
        if trail.pairs.len() as u64 > self.limit {
            return Err(Failure::Fault(Stop::Limit));
        }
        if two_ends {
            return Err(Failure::Fault(Stop::BothEnd(number)));
        }
        Ok(())
    }

    /// Adds the pair that the run behind makes by taking an edge with this next state and these
    /// cells, where the other run is ahead by this lead; if it makes one.
    pub fn follow(
        &self,
        trail: &mut Trail<M::State>,
        ahead: u32,
        lead: &[Cell],
        next: u32,
        cells: &[Cell],
        origins: Origins,
    ) -> Result<(), Failure<Stop>>
        requires active { IsActive M.behaviour self.now trail.old }
        requires fits { FitsFollowing (length trail.old.states) ahead lead.now next cells.now }
        requires explained { Explains (M.behaviour self.now.machine.now) trail.old.states trail.old.pairs ahead lead.now next cells.now origins }
        ensures followed { OnOk result ((e : EdgeValue) → e.next ≡ next → e.cells ≡ cells.now → IsFollowed trail.new.pairs ahead lead.now e) }
        ensures advances { OnOk result (Advances M.behaviour self.now trail.old trail.new) }
        ensures stopped { IfErr result (IfFault (IsStopped M.behaviour self.now trail.new)) }
        ensures adds { AddsPairs (IsOneOf origins) trail.old trail.new }
    {
        match advance(lead, cells) {
            Advanced::Still(rest) => {
                let pair = Pair {
                    ahead,
                    behind: next,
                    lead: Cells::from_slice(self.alloc, rest)?,
                };
                self.find_pair(trail, pair, origins.still)
            }
            Advanced::Swapped(rest) => {
                let pair = Pair {
                    ahead: next,
                    behind: ahead,
                    lead: Cells::from_slice(self.alloc, rest)?,
                };
                self.find_pair(trail, pair, origins.swapped)
            }
            Advanced::Apart => Ok(()),
        }
    }
}

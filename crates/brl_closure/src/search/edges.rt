//! The edges of a state, put together from those of the parts of its steps. A part that isn't kept
//! yet is listed first.
ghost use Rattle.std.specs.Prelude.{◌≡◌, ◌-◌, ◌<◌, All, IfErr, IfOk, OnOk, length, map, Some, slice_get};
ghost use Rattle.brl_failure.specs.Failure.{IfFault};
ghost use Rattle.brl_parts.specs.Parts.{AreKeptParts};
ghost use Rattle.brl_pairs.specs.Listed.{AreEdgesOf, IsByNumbers};
ghost use Rattle.brl_pairs.specs.Parted.{ArePartsOf};
ghost use Rattle.brl_closure.specs.Fresh.{ArePlaced, IsAmong, IsBegun, IsPartly, IsWhole, LeadsFrom, part_of};
ghost use Rattle.brl_closure.specs.SearchView.{Stays};
ghost use Rattle.brl_closure.specs.Trail.{Advances, IsActive, IsStopped};

use crate::search::finder::{Finder, Stop};
use crate::search::fresh::{Fresh, Parting, Place, keep_parts, next_of, numbers_of};
use crate::search::trail::{StateOrigin, Trail};
use brl_failure::Failure;
use brl_pairs::{KeptCells, ListedEdge, Machine, Parted, Step};
use brl_parts::Parts;
use std::alloc::AllocError;

impl<'m, M: Machine> Finder<'m, M> {
    /// A step of the state with this number, by numbers. Its next state is added where it hasn't
    /// been found before, and its cells are kept, where those with the number `likely` are tried
    /// first.
    fn number_step(
        &self,
        trail: &mut Trail<M::State>,
        cells: &mut KeptCells,
        number: usize,
        step: Step<M::State>,
        likely: u32,
    ) -> Result<ListedEdge, Failure<Stop>>
        requires active { IsActive M.behaviour self.now trail.old }
        requires step { LeadsFrom (M.behaviour self.now.machine.now) trail.old.states number step }
        ensures edge { IfOk result (IsByNumbers trail.new.states cells.new step) }
        ensures cells { OnOk result (Stays cells.old cells.new) }
        ensures advances { OnOk result (Advances M.behaviour self.now trail.old trail.new) }
        ensures stopped { IfErr result (IfFault (IsStopped M.behaviour self.now trail.new)) }
        ensures pairs { trail.new.pairs ≡ trail.old.pairs }
    {
        let origin = StateOrigin { parent: number };
        let next = self.find_state(trail, step.next, origin)?;
        let kept = cells.keep(&step.cells, likely)?;
        Ok(ListedEdge {
            rule: step.rule,
            cells: kept,
            next,
        })
    }

    /// The edges of the state with this number, by the list of all its steps; no pair is found. The
    /// next states of these steps are added where they haven't been found before, and their cells
    /// are kept.
    pub fn list_edges(
        &self,
        trail: &mut Trail<M::State>,
        cells: &mut KeptCells,
        number: usize,
    ) -> Result<Vec<ListedEdge>, Failure<Stop>>
        requires active { IsActive M.behaviour self.now trail.old }
        requires within { number < length trail.old.states }
        ensures edges { IfOk result (λ edges. AreEdgesOf (M.behaviour self.now.machine.now) trail.new.states cells.new number edges.items) }
        ensures cells { OnOk result (Stays cells.old cells.new) }
        ensures advances { OnOk result (Advances M.behaviour self.now trail.old trail.new) }
        ensures stopped { IfErr result (IfFault (IsStopped M.behaviour self.now trail.new)) }
        ensures pairs { trail.new.pairs ≡ trail.old.pairs }
    {
        let listed = self
            .machine
            .moves(self.alloc, &trail.states.as_slice()[number])?;
        let mut edges: Vec<ListedEdge> = Vec::new(self.alloc);
        for step in listed {
            // States mostly have the same cells in the same order, so their numbers follow each
            // other.
            let likely = edges.last().map_or(0, |edge| edge.cells.saturating_add(1));
            let edge = self.number_step(trail, cells, number, step, likely)?;
            edges.push(edge)?;
        }
        Ok(edges)
    }
}

impl<'m, M: Parted> Finder<'m, M> {
    /// The edges of the state with this number, in listed order, by the parts of its steps; no pair
    /// is found. The next states of its steps are added where they haven't been found before, in
    /// the order of the steps; the cells of the steps are kept, and the parts of the steps.
    pub fn find_edges(
        &self,
        trail: &mut Trail<M::State>,
        cells: &mut KeptCells,
        parts: &mut Parts<M::Part>,
        number: usize,
    ) -> Result<Vec<ListedEdge>, Failure<Stop>>
        requires active { IsActive M.behaviour self.now trail.old }
        requires within { number < length trail.old.states }
        requires parts { AreKeptParts (M.steps_of self.now.machine.now) trail.old.states cells.old parts.old }
        ensures edges { IfOk result (λ edges. AreEdgesOf (M.behaviour self.now.machine.now) trail.new.states cells.new number edges.items) }
        ensures cells { OnOk result (Stays cells.old cells.new) }
        ensures parts { OnOk result (AreKeptParts (M.steps_of self.now.machine.now) trail.new.states cells.new parts.new) }
        ensures advances { OnOk result (Advances M.behaviour self.now trail.old trail.new) }
        ensures stopped { IfErr result (IfFault (IsStopped M.behaviour self.now trail.new)) }
        ensures pairs { trail.new.pairs ≡ trail.old.pairs }
    {
        let state = &trail.states.as_slice()[number];
        match self.machine.parts(self.alloc, state)? {
            Some(listed) => self.join_edges(trail, cells, parts, number, listed),
            None => {
                let edges = self.list_edges(trail, cells, number)?;
                Ok(edges)
            }
        }
    }

    /// The edges of the state with this number, put together from those of these parts of its
    /// steps.
    fn join_edges(
        &self,
        trail: &mut Trail<M::State>,
        cells: &mut KeptCells,
        parts: &mut Parts<M::Part>,
        number: usize,
        listed: Vec<M::Part>,
    ) -> Result<Vec<ListedEdge>, Failure<Stop>>
        requires active { IsActive M.behaviour self.now trail.old }
        requires parts { AreKeptParts (M.steps_of self.now.machine.now) trail.old.states cells.old parts.old }
        requires listed { (s : M.State) × (slice_get trail.old.states number ≡ Some s) × ArePartsOf (M.steps_of self.now.machine.now) ((M.behaviour self.now.machine.now).steps s) listed.items }
        ensures edges { IfOk result (λ edges. AreEdgesOf (M.behaviour self.now.machine.now) trail.new.states cells.new number edges.items) }
        ensures cells { OnOk result (Stays cells.old cells.new) }
        ensures parts { OnOk result (AreKeptParts (M.steps_of self.now.machine.now) trail.new.states cells.new parts.new) }
        ensures advances { OnOk result (Advances M.behaviour self.now trail.old trail.new) }
        ensures stopped { IfErr result (IfFault (IsStopped M.behaviour self.now trail.new)) }
        ensures pairs { trail.new.pairs ≡ trail.old.pairs }
    {
        let Parting { places, mut fresh } = self.part(parts, listed)?;
        self.number_parts(trail, cells, number, &mut fresh)?;
        let kept = keep_parts(self.alloc, parts, fresh)?;
        parts.law();
        let numbers = numbers_of(self.alloc, places.as_slice(), kept.as_slice())?;
        let edges = parts.by_rule(self.alloc, numbers.as_slice())?;
        Ok(edges)
    }

    /// Which of these parts are kept, and the steps of those that aren't.
    fn part(
        &self,
        parts: &Parts<M::Part>,
        listed: Vec<M::Part>,
    ) -> Result<Parting<M::State, M::Part>, AllocError>
        ensures placed { IfOk result (λ parting. ArePlaced parts.now.parts parting.fresh.items listed.items parting.places.items) }
        ensures begun { IfOk result (λ parting. All (λ f. IsAmong listed.items f.part × IsBegun (M.steps_of self.now.machine.now) f.part f) parting.fresh.items) }
    {
        let mut places = Vec::with_capacity(self.alloc, listed.len())?;
        let mut fresh = Vec::new(self.alloc);
        let mut likely = 0usize;
        for part in listed {
            match parts.number_near(&part, likely) {
                Some(number) => {
                    places.push(Place::Known(number))?;
                    // States mostly have parts that were first listed together, one after the
                    // other.
                    likely = number.saturating_add(1);
                }
                None => {
                    places.push(Place::New(fresh.len()))?;
                    fresh.push(self.begin_part(part)?)?;
                }
            }
        }
        Ok(Parting { places, fresh })
    }

    /// A part with all its steps left.
    fn begin_part(&self, part: M::Part) -> Result<Fresh<M::State, M::Part>, AllocError>
        ensures { IfOk result (λ f. IsBegun (M.steps_of self.now.machine.now) part f) }
    {
        let mut left = self.machine.part_steps(self.alloc, &part)?;
        left.reverse();
        Ok(Fresh {
            part,
            edges: Vec::new(self.alloc),
            left,
        })
    }

    /// Takes the steps of these parts by numbers, that of the least rule first and of one rule
    /// those of the first part: in the order in which the state lists them.
    fn number_parts(
        &self,
        trail: &mut Trail<M::State>,
        cells: &mut KeptCells,
        number: usize,
        fresh: &mut Vec<Fresh<M::State, M::Part>>,
    ) -> Result<(), Failure<Stop>>
        requires active { IsActive M.behaviour self.now trail.old }
        requires partly { All (IsPartly (M.behaviour self.now.machine.now) (M.steps_of self.now.machine.now) trail.old.states cells.old number) fresh.old.items }
        ensures whole { OnOk result (All (IsWhole (M.steps_of self.now.machine.now) trail.new.states cells.new) fresh.new.items) }
        ensures same { OnOk result (map part_of fresh.new.items ≡ map part_of fresh.old.items) }
        ensures cells { OnOk result (Stays cells.old cells.new) }
        ensures advances { OnOk result (Advances M.behaviour self.now trail.old trail.new) }
        ensures stopped { IfErr result (IfFault (IsStopped M.behaviour self.now trail.new)) }
        ensures pairs { trail.new.pairs ≡ trail.old.pairs }
    {
        let mut likely = 0;
        while let Some(place) = next_of(fresh.as_slice()) {
            likely = self.number_next(trail, cells, number, &mut fresh[place], likely)?;
        }
        Ok(())
    }

    /// Takes the next step of a part by numbers, if one is left. Returns the likely number of the
    /// cells of the step after it.
    fn number_next(
        &self,
        trail: &mut Trail<M::State>,
        cells: &mut KeptCells,
        number: usize,
        fresh: &mut Fresh<M::State, M::Part>,
        likely: u32,
    ) -> Result<u32, Failure<Stop>>
        requires active { IsActive M.behaviour self.now trail.old }
        requires partly { IsPartly (M.behaviour self.now.machine.now) (M.steps_of self.now.machine.now) trail.old.states cells.old number fresh.old }
        ensures partly { OnOk result (IsPartly (M.behaviour self.now.machine.now) (M.steps_of self.now.machine.now) trail.new.states cells.new number fresh.new) }
        ensures same { OnOk result (fresh.new.part ≡ fresh.old.part) }
        ensures left { OnOk result (length fresh.new.left.items ≡ length fresh.old.left.items - 1) }
        ensures cells { OnOk result (Stays cells.old cells.new) }
        ensures advances { OnOk result (Advances M.behaviour self.now trail.old trail.new) }
        ensures stopped { IfErr result (IfFault (IsStopped M.behaviour self.now trail.new)) }
        ensures pairs { trail.new.pairs ≡ trail.old.pairs }
    {
        let Some(step) = fresh.left.pop() else {
            return Ok(likely);
        };
        let edge = self.number_step(trail, cells, number, step, likely)?;
        fresh.edges.push(edge)?;
        Ok(edge.cells.saturating_add(1))
    }
}

//! The pairs that are missing from a body, found by the edges of one state at a time.
ghost use Rattle.std.specs.Prelude.{◌≡◌, ◌<◌, ◌↔◌, [], IfOk, IsTrue, None, Some, length, slice_get};
ghost use Rattle.brl_closure.specs.Alike.{AreFirstTwoAt};
ghost use Rattle.brl_closure.specs.Least.{IsLeastFound, IsLeastPairFound, lesser_of};
ghost use Rattle.brl_closure.specs.Passed.{AreListedIfShared, HasOfUnshared, IsPassed, MissNone};
ghost use Rattle.brl_closure.specs.Pass.{AreFirstTwoBehind, IsSplitFound};
ghost use Rattle.brl_closure.specs.Refusals.{HasTwoEnds, MissesPair};
ghost use Rattle.brl_closure.specs.Excusing.{MissesUnexcused};
ghost use Rattle.brl_closure.specs.Steps.{HasBefore, HasOfPlace, HasOfPlaces, HasOfRule, HasOfRules, MissUnexcused};
ghost use Rattle.brl_pairs.specs.Edges.{AreInOrder};
ghost use Rattle.brl_pairs.specs.NumberPairs.{IsMissing};
ghost use Rattle.brl_pairs.specs.Splits.{AreSplits};
ghost use Rattle.brl_pairs.specs.declared.edge.Edge.{Edge as EdgeValue};

use crate::check::sorted::Sorted;
use brl_cells::Cell;
use brl_pairs::{
    Body, Edge, Excused, Machine, Members, Pair, SortedEdge, Splits, count_unshared, edges_law,
    is_missing,
};
use std::alloc::{AllocError, Global};

/// A state two of whose steps, of these rules, split into a pair that isn't listed.
#[derive(Clone, Copy)]
pub struct MissingSplit {
    pub state: u32,
    pub lesser: u32,
    pub greater: u32,
}

/// A pair from which a step of this rule leads to one that isn't listed.
#[derive(Clone, Copy)]
pub struct MissingPair {
    pub pair: u32,
    pub rule: u32,
}

/// The least rule of the edges that lead the run behind to a missing pair. The other run is ahead
/// by this lead, in the state with the number `ahead`.
fn missing_pair(
    alloc: Global,
    pairs: &Members<Pair<u32>>,
    ahead: u32,
    lead: &[Cell],
    edges: &Sorted<'_>,
) -> Result<Option<u32>, AllocError>
    requires { AreInOrder edges.now.edges }
    ensures { IfOk result (IsLeastFound (HasOfRule (IsMissing pairs.now ahead lead.now) edges.now.edges)) }
{
    let found = edges.matches(alloc, lead)?;
    for matching in found.as_slice() {
        let edge = edges.edge(alloc, matching.place as usize)?;
        if is_missing(alloc, pairs, ahead, lead, &edge)? {
            return Ok(Some(edge.rule));
        }
    }
    Ok(None)
}

/// Whether the edge at this place and another edge split into a missing pair and aren't excused.
fn is_missing_split(
    alloc: Global,
    excused: &Excused,
    pairs: &Members<Pair<u32>>,
    edges: &Sorted<'_>,
    place: usize,
    other: &Edge,
) -> Result<bool, AllocError>
    requires { place < length edges.now.edges }
    ensures { IfOk result (λ missing. (e : EdgeValue) → slice_get edges.now.edges place ≡ Some e → IsTrue missing ↔ MissUnexcused excused.now pairs.now e other.now) }
{
    let lead = edges.cells_at(place);
    if !is_missing(alloc, pairs, edges.next_at(place), lead, other)? {
        return Ok(false);
    }
    let edge = edges.edge(alloc, place)?;
    Ok(!excused.has(&edge, other))
}

/// The least rule of the edges before the second one that split with it into a missing pair and
/// aren't excused. Places ascend by rule, so the first one found has the least rule.
fn missing_split_with(
    alloc: Global,
    excused: &Excused,
    pairs: &Members<Pair<u32>>,
    edges: &Sorted<'_>,
    splits: &Splits,
    second: usize,
) -> Result<Option<u32>, AllocError>
    requires in_order { AreInOrder edges.now.edges }
    requires splits { AreSplits edges.now.cells edges.now.sorted splits.now }
    requires within { second < length edges.now.edges }
    ensures { IfOk result (λ found. (later : EdgeValue) → slice_get edges.now.edges second ≡ Some later
        → IsLeastFound (HasBefore (λ earlier. MissUnexcused excused.now pairs.now earlier later) edges.now.edges second) found) }
{
    let later = edges.edge(alloc, second)?;
    let found = edges.earlier(alloc, splits, second)?;
    for matching in found.as_slice() {
        let earlier = matching.place as usize;
        if is_missing_split(alloc, excused, pairs, edges, earlier, &later)? {
            return Ok(Some(edges.rule_at(earlier)));
        }
    }
    Ok(None)
}

/// The lexicographically smaller of two options, where `None` is no candidate.
fn lesser(one: Option<(u32, u32)>, other: Option<(u32, u32)>) -> Option<(u32, u32)>
    ensures { result ≡ lesser_of one other }
{
    match (one, other) {
        (Some(one), Some(other)) => {
            if other.0 < one.0 || (other.0 == one.0 && other.1 < one.1) {
                Some(other)
            } else {
                Some(one)
            }
        }
        (None, other) => other,
        (one, None) => one,
    }
}

/// The least rules of two edges that split into a missing pair and aren't excused, of all edges.
fn missing_of_all(
    alloc: Global,
    excused: &Excused,
    pairs: &Members<Pair<u32>>,
    edges: &Sorted<'_>,
) -> Result<Option<(u32, u32)>, AllocError>
    requires { AreInOrder edges.now.edges }
    ensures { IfOk result (IsLeastPairFound (HasOfRules (MissUnexcused excused.now pairs.now) edges.now.edges)) }
{
    let splits = edges.splits(alloc)?;
    let mut best = None;
    for second in 0..edges.len() {
        let found = missing_split_with(alloc, excused, pairs, edges, &splits, second)?;
        let rule = edges.rule_at(second);
        best = lesser(best, found.map(|first| (first, rule)));
    }
    Ok(best)
}

/// The rules of an edge, which has this place, and of another one, where they split into a missing
/// pair and aren't excused: that of the first one comes first.
fn missing_split_of(
    alloc: Global,
    excused: &Excused,
    pairs: &Members<Pair<u32>>,
    edges: &Sorted<'_>,
    edge: &Edge,
    place: usize,
    other: usize,
) -> Result<Option<(u32, u32)>, AllocError>
    requires edge { slice_get edges.now.edges place ≡ Some edge.now }
    requires within { other < length edges.now.edges }
    ensures { IfOk result (IsLeastPairFound (HasOfPlaces (MissUnexcused excused.now pairs.now) edges.now.edges place other)) }
{
    if place == other {
        return Ok(None);
    }
    if !is_missing_split(alloc, excused, pairs, edges, other, edge)? {
        return Ok(None);
    }
    let rule = edges.rule_at(other);
    if other < place {
        Ok(Some((rule, edge.rule)))
    } else {
        Ok(Some((edge.rule, rule)))
    }
}

/// The least rules of the edge at this place and of another one that split into a missing pair and
/// aren't excused.
fn missing_split_at_place(
    alloc: Global,
    excused: &Excused,
    pairs: &Members<Pair<u32>>,
    edges: &Sorted<'_>,
    place: usize,
) -> Result<Option<(u32, u32)>, AllocError>
    requires { place < length edges.now.edges }
    ensures { IfOk result (IsLeastPairFound (HasOfPlace (MissUnexcused excused.now pairs.now) edges.now.edges place)) }
{
    let edge = edges.edge(alloc, place)?;
    let found = edges.matches(alloc, edge.cells.as_slice())?;
    let mut best = None;
    for matching in found.as_slice() {
        let other = matching.place as usize;
        let missing = missing_split_of(alloc, excused, pairs, edges, &edge, place, other)?;
        best = lesser(best, missing);
    }
    Ok(best)
}

/// The least rules of the edge at this position of the order of cells and of another one that split
/// into a missing pair and aren't excused; `None` if the edge is shared.
fn missing_unless_shared(
    alloc: Global,
    excused: &Excused,
    pairs: &Members<Pair<u32>>,
    edges: &Sorted<'_>,
    shared: &[bool],
    position: usize,
) -> Result<Option<(u32, u32)>, AllocError>
    requires count { length shared.now ≡ length edges.now.sorted }
    requires within { position < length edges.now.sorted }
    ensures { IfOk result (IsLeastPairFound (HasOfUnshared (MissUnexcused excused.now pairs.now) edges.now shared.now position)) }
{
    edges.law();
    if shared[position] {
        return Ok(None);
    }
    missing_split_at_place(alloc, excused, pairs, edges, edges.place_at(position))
}

/// The least rules of two edges that split into a missing pair and aren't excused, of those that
/// aren't both shared. No two shared ones split into a missing pair.
fn missing_of_unshared(
    alloc: Global,
    excused: &Excused,
    pairs: &Members<Pair<u32>>,
    edges: &Sorted<'_>,
    shared: &[bool],
) -> Result<Option<(u32, u32)>, AllocError>
    requires count { length shared.now ≡ length edges.now.sorted }
    requires listed { AreListedIfShared pairs.now edges.now shared.now }
    ensures { IfOk result (IsLeastPairFound (HasOfRules (MissUnexcused excused.now pairs.now) edges.now.edges)) }
{
    edges.law();
    let mut best = None;
    for position in 0..shared.len() {
        let found = missing_unless_shared(alloc, excused, pairs, edges, shared, position)?;
        best = lesser(best, found);
    }
    Ok(best)
}

/// The least rules of two edges that split into a missing pair and aren't excused. None of the
/// others, which are in the order of their cells, split into a missing pair; where most edges are
/// shared with them, the splits of two shared ones are passed over.
fn missing_split(
    alloc: Global,
    excused: &Excused,
    pairs: &Members<Pair<u32>>,
    edges: &Sorted<'_>,
    others: &[SortedEdge],
) -> Result<Option<(u32, u32)>, AllocError>
    requires in_order { AreInOrder edges.now.edges }
    requires passed { IsPassed pairs.now edges.now.cells others.now }
    ensures { IfOk result (IsLeastPairFound (HasOfRules (MissUnexcused excused.now pairs.now) edges.now.edges)) }
{
    edges.law();
    let shared = edges.shared_with(alloc, others)?;
    // To look each new edge up costs more than one pass over all splits where many are new.
    if count_unshared(shared.as_slice()) > shared.len() / 2 {
        return missing_of_all(alloc, excused, pairs, edges);
    }
    missing_of_unshared(alloc, excused, pairs, edges, shared.as_slice())
}

/// States and pairs of a machine, with the first two edges of each kind of one of the states.
#[derive(Drop)]
pub struct StateEdges<'a, M: Machine> {
    pub alloc: Global,
    pub machine: &'a M,
    pub excused: &'a Excused,
    pub body: &'a Body<M::State>,
    pub edges: &'a Sorted<'a>,
}

impl<'a, M: Machine> StateEdges<'a, M> {
    /// The least rules of two steps from the state with this number that split into a missing pair
    /// and aren't excused, if it has these edges. None of the others, which are in the order of
    /// their cells, split into a missing pair.
    pub fn missing_split_at(
        &self,
        state: u32,
        others: &[SortedEdge],
    ) -> Result<Option<MissingSplit>, AllocError>
        requires passed { IsPassed self.now.body.now.pairs self.now.edges.now.cells others.now }
        requires edges { AreFirstTwoAt (M.behaviour self.now.machine.now) self.now.excused.now self.now.body.now.states state self.now.edges.now.edges }
        ensures found { IfOk result (IsSplitFound (MissesUnexcused (M.behaviour self.now.machine.now) self.now.excused.now self.now.body.now) state) }
        ensures listed { IfOk result (λ found. found ≡ None → MissNone self.now.excused.now self.now.body.now.pairs self.now.edges.now.edges) }
    {
        edges_law(self.machine);
        self.body.law();
        let pairs = self.body.pairs();
        let found = missing_split(self.alloc, self.excused, pairs, self.edges, others)?;
        let Some((lesser, greater)) = found else {
            return Ok(None);
        };
        Ok(Some(MissingSplit {
            state,
            lesser,
            greater,
        }))
    }

    /// The least rule of a step that leads from the pair with this number to a missing pair, if the
    /// state of its run behind has these edges.
    pub fn missing_pair_at(&self, number: usize) -> Result<Option<u32>, AllocError>
        requires number { number < length self.now.body.now.pairs }
        requires edges { AreFirstTwoBehind (M.behaviour self.now.machine.now) self.now.excused.now self.now.body.now number self.now.edges.now.edges }
        ensures { IfOk result (IsLeastFound (MissesPair (M.behaviour self.now.machine.now) self.now.body.now number)) }
    {
        edges_law(self.machine);
        self.body.law();
        let pair = &self.body.pairs().as_slice()[number];
        missing_pair(
            self.alloc,
            self.body.pairs(),
            pair.ahead,
            pair.lead.as_slice(),
            self.edges,
        )
    }
}

/// Whether a lead is empty and both states are final.
fn both_end<M: Machine>(machine: &M, ahead: &M::State, behind: &M::State, lead: &[Cell]) -> bool
    ensures { IsTrue result ↔ ((lead.now ≡ []) × IsTrue ((M.behaviour machine.now).ends ahead.now) × IsTrue ((M.behaviour machine.now).ends behind.now)) }
{
    lead.is_empty() && machine.ends(ahead) && machine.ends(behind)
}

/// Whether the pair with this number has an empty lead and two final states.
pub fn has_two_ends_at<M: Machine>(machine: &M, body: &Body<M::State>, number: usize) -> bool
    requires number { number < length body.now.pairs }
    ensures { IsTrue result ↔ HasTwoEnds (M.behaviour machine.now) body.now number }
{
    let pair = &body.pairs().as_slice()[number];
    let (ahead, behind) = body.states_of(pair);
    both_end(machine, ahead, behind, pair.lead.as_slice())
}

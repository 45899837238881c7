//! Parts with their steps by numbers.
ghost use Rattle.std.specs.Prelude.{◌≡◌, ◌↔◌, ◌+◌, ◌<◌, ◌≤◌, ◌⊎◌, ℕ, All, IfOk, IfSome, IsTrue, OnErr, OnOk, Some, length, map, slice_get};
ghost use Rattle.std.specs.Global.{Vec as VecValue};
ghost use Rattle.std.specs.List.{flat_map};
ghost use Rattle.brl_pairs.specs.Members.{IsMember};
ghost use Rattle.brl_pairs.specs.declared.edge.ListedEdge.{ListedEdge as EdgeValue};
ghost use Rattle.brl_parts.specs.Parts.{AreByRule, IsKept, edges_of, no_parts};

use brl_pairs::{Key, ListedEdge, Members, Seed, by_number};
use std::alloc::{AllocError, Global};
use std::marker::Model;

/// The most edges that are kept: 48 MB of them. A part that was dropped is listed again.
const MOST_EDGES: usize = 4_000_000;

/// Parts of a machine's steps, each once, with its steps by numbers. A contract sees the parts, the
/// edges of each, and the number of edges of all parts.
#[derive(Drop)]
pub struct Parts<P: Key> {
    parts: Members<P>,
    /// Of each part, by its number.
    edges: Vec<Vec<ListedEdge>>,
    /// The number of edges of all parts.
    count: usize,
}

impl<P: Key> Model for Parts<P> {
    ghost use Rattle.std.specs.Prelude.{◌≤◌, length};
    ghost use Rattle.brl_parts.specs.Parts.{PartsView};

    ghost Value = { PartsView P };

    ghost view = { λ p. record { parts = p.parts; edges = p.edges.items; count = p.count } };

    ghost invariant = { λ p. length p.parts ≤ length p.edges.items };
}

impl<P: Key> Parts<P> {
    /// No parts, which will be found by hashes of this seed. No memory is allocated.
    pub fn new(alloc: Global, seed: Seed) -> Parts<P>
        ensures { result ≡ no_parts }
    {
        Parts {
            parts: Members::new(alloc, seed),
            edges: Vec::new(alloc),
            count: 0,
        }
    }

    /// Whether more than 4,000,000 edges are kept: then it is time to begin anew with no parts.
    pub fn is_full(&self) -> bool
        ensures { IsTrue result ↔ (4000000 < self.now.count) }
    {
        self.count > MOST_EDGES
    }

    /// The number of a part, from 0, if it is kept.
    pub fn number_of(&self, part: &P) -> Option<usize>
        ensures { IfSome result (λ number. slice_get self.now.parts number ≡ Some part.now) }
    {
        self.parts.index_of(part)
    }

    /// The number of a part, from 0, if it is kept; the part with the number `likely` is tried
    /// first. That costs less than a look-up by hash.
    pub fn number_near(&self, part: &P, likely: usize) -> Option<usize>
        ensures { IfSome result (λ number. slice_get self.now.parts number ≡ Some part.now) }
    {
        match self.parts.get(likely) {
            Some(own) if own == part => Some(likely),
            _ => self.parts.index_of(part),
        }
    }

    /// Keeps a part with these edges, and returns its number; a part that is kept already keeps the
    /// edges that it has, and so do all others. The others keep their numbers, too, also after
    /// `AllocError`.
    pub fn add(&mut self, part: P, edges: Vec<ListedEdge>) -> Result<usize, AllocError>
        ensures number { IfOk result (λ number. slice_get self.new.parts number ≡ Some part) }
        ensures known { IsMember self.old.parts part → OnOk result (self.new ≡ self.old) }
        ensures count { (IsMember self.old.parts part → ⊥) → OnOk result (self.new.count ≡ self.old.count + length edges.items) }
        ensures kept { (k : ℕ) (p : P) (own : VecValue EdgeValue) → IsKept self.new k p own → IsKept self.old k p own ⊎ ((p ≡ part) × (own ≡ edges)) }
        ensures stays { (k : ℕ) (p : P) → slice_get self.old.parts k ≡ Some p → slice_get self.new.parts k ≡ Some p }
        ensures err { OnErr result ((self.new.parts ≡ self.old.parts) × (self.new.count ≡ self.old.count)) }
    {
        if let Some(number) = self.parts.index_of(&part) {
            return Ok(number);
        }
        let number = self.parts.len();
        let Some(count) = self.count.checked_add(edges.len()) else {
            return Err(AllocError);
        };
        self.edges.truncate(number);
        self.edges.push(edges)?;
        self.parts.insert(part)?;
        self.count = count;
        Ok(number)
    }

    /// A law: each part has edges.
    pub fn law(&self)
        ensures { length self.now.parts ≤ length self.now.edges }
    {
        let _ = self.edges.as_slice();
    }

    /// The edges of the parts with these numbers by ascending rule, those of one rule in the order
    /// of the parts.
    pub fn by_rule(&self, alloc: Global, numbers: &[usize]) -> Result<Vec<ListedEdge>, AllocError>
        requires { All (λ number. number < length self.now.parts) numbers.now }
        ensures { IfOk result (λ listed. AreByRule (flat_map (edges_of self.now) numbers.now) listed.items) }
    {
        let mut listed = self.joined(alloc, numbers)?;
        let rules = rules_of(alloc, listed.as_slice())?;
        let count = past_all(rules.as_slice());
        // By numbers takes no comparisons, but memory for each number: too much for a few edges.
        if count / 8 > listed.len() {
            sort_by_rule(&mut listed)?;
            return Ok(listed);
        }
        let sorted = by_number(alloc, listed.as_slice(), rules.as_slice(), count)?;
        Ok(sorted)
    }

    /// The edges of the parts with these numbers, part by part.
    fn joined(&self, alloc: Global, numbers: &[usize]) -> Result<Vec<ListedEdge>, AllocError>
        requires { All (λ number. number < length self.now.parts) numbers.now }
        ensures { IfOk result (λ listed. listed.items ≡ flat_map (edges_of self.now) numbers.now) }
    {
        let mut listed = Vec::new(alloc);
        for number in numbers {
            listed.extend_from_slice(self.edges[*number].as_slice())?;
        }
        Ok(listed)
    }
}

/// The rules of edges.
fn rules_of(alloc: Global, edges: &[ListedEdge]) -> Result<Vec<u32>, AllocError>
    ensures { IfOk result (λ rules. rules.items ≡ map (λ edge. edge.rule) edges.now) }
{
    edges.iter().map(|edge| edge.rule).collect(alloc)
}

/// A number that all these are below.
fn past_all(numbers: &[u32]) -> usize
    ensures { All (λ number. number < result) numbers.now }
{
    let mut count = 0usize;
    for number in numbers {
        if *number as usize >= count {
            count = *number as usize + 1;
        }
    }
    count
}

/// Sorts edges by ascending rule, of which two are compared at a time.
fn sort_by_rule(edges: &mut Vec<ListedEdge>) -> Result<(), AllocError>
    ensures { OnOk result (AreByRule edges.old.items edges.new.items) }
{
    edges.sort_by_key(|edge| edge.rule)?;
    Ok(())
}

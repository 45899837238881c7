//! What closed sets need not show.
ghost use Rattle.std.specs.Prelude.{◌≡◌, ◌↔◌, ◌||◌, [], IsTrue};
ghost use Rattle.brl_pairs.specs.Excused.{AreExchangeableEdges, AreExcusedEdges, names_rule};

use crate::{Edge, RulePairs};
use std::alloc::Global;

/// The splits that closed sets need not have: those into two steps whose rules are an accepted
/// pair, and those into two steps of an exchanged pair that give the same cells and lead to the
/// same state.
#[derive(Drop)]
pub struct Excused {
    /// Pairs of rules at which texts may diverge.
    pub accepted: RulePairs,
    /// Pairs of rules whose steps may be exchanged.
    pub exchanged: RulePairs,
}

impl Excused {
    /// Nothing is excused. No memory is allocated.
    pub fn nothing(alloc: Global) -> Excused
        ensures accepted { result.accepted ≡ [] }
        ensures exchanged { result.exchanged ≡ [] }
    {
        Excused {
            accepted: RulePairs::none(alloc),
            exchanged: RulePairs::none(alloc),
        }
    }

    /// Whether nothing is excused.
    pub fn is_nothing(&self) -> bool
        ensures { IsTrue result ↔ ((self.now.accepted ≡ []) × (self.now.exchanged ≡ [])) }
    {
        self.accepted.is_empty() && self.exchanged.is_empty()
    }

    /// Whether one of the pairs has this rule.
    pub fn names(&self, rule: u32) -> bool
        ensures { result ≡ names_rule self.now.accepted rule || names_rule self.now.exchanged rule }
    {
        self.accepted.names(rule) || self.exchanged.names(rule)
    }

    /// Whether the split into two edges is excused: an accepted pair of rules, or an exchanged one
    /// with the same cells and next state.
    pub fn has(&self, one: &Edge, other: &Edge) -> bool
        ensures { IsTrue result ↔ AreExcusedEdges self.now.exchanged self.now.accepted one.now other.now }
    {
        self.accepted.has(one.rule, other.rule) || self.may_exchange(one, other)
    }

    /// Whether the steps of two edges may be exchanged.
    fn may_exchange(&self, one: &Edge, other: &Edge) -> bool
        ensures { IsTrue result ↔ AreExchangeableEdges self.now.exchanged one.now other.now }
    {
        self.exchanged.has(one.rule, other.rule)
            && one.next == other.next
            && one.cells.as_slice() == other.cells.as_slice()
    }
}

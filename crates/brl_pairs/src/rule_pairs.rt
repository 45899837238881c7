//! Pairs of rules.
ghost use Rattle.std.specs.Prelude.{◌≡◌, ◌↔◌, ◌||◌, [], ℕ, IfOk, IsTrue, OnOk, nat_eq};
ghost use Rattle.std.specs.List.{list_any};
ghost use Rattle.brl_pairs.specs.Divergence.{has_rules};
ghost use Rattle.brl_pairs.specs.Excused.{has_pair, is_pair, names_rule};

use indexmap::IndexSet;
use std::alloc::{AllocError, Global};
use std::marker::Model;

/// Pairs of rules in the order in which they were given. Either rule of a pair may come first, and
/// both may be the same. A contract sees their list.
#[derive(Drop)]
pub struct RulePairs {
    given: Vec<(u32, u32)>,
    set: IndexSet<(u32, u32)>,
    rules: IndexSet<u32>,
}

impl Model for RulePairs {
    ghost use Rattle.std.specs.Prelude.{List, ℕ};
    ghost use Rattle.brl_pairs.specs.Excused.{AreLookedUp};

    ghost Value = { List (ℕ × ℕ) };

    ghost view = { λ p. p.given.items };

    ghost invariant = { λ p. AreLookedUp p.given.items p.set.keys p.rules.keys };
}

impl RulePairs {
    /// No pairs. No memory is allocated.
    pub fn none(alloc: Global) -> RulePairs
        ensures { result ≡ [] }
    {
        RulePairs {
            given: Vec::new(alloc),
            set: IndexSet::new(alloc),
            rules: IndexSet::new(alloc),
        }
    }

    /// These pairs.
    pub fn new(alloc: Global, given: Vec<(u32, u32)>) -> Result<RulePairs, AllocError>
        ensures { IfOk result (λ pairs. pairs ≡ given.items) }
    {
        let mut set = IndexSet::new(alloc);
        let mut rules = IndexSet::new(alloc);
        for pair in &given {
            insert_pair(&mut set, *pair)?;
            insert_rule(&mut rules, pair.0)?;
            insert_rule(&mut rules, pair.1)?;
        }
        Ok(RulePairs { given, set, rules })
    }

    /// The pairs in the order in which they were given.
    pub fn as_slice(&self) -> &[(u32, u32)]
        ensures { result.now ≡ self.now }
    {
        self.given.as_slice()
    }

    /// Whether there are no pairs.
    pub fn is_empty(&self) -> bool
        ensures { IsTrue result ↔ (self.now ≡ []) }
    {
        self.given.is_empty()
    }

    /// Whether these are the two rules of one of the pairs, in either order. It is looked up by
    /// hash.
    pub fn has(&self, one: u32, other: u32) -> bool
        ensures { result ≡ has_rules self.now one other }
    {
        self.set.contains(&(one, other)) || self.set.contains(&(other, one))
    }

    /// Whether one of the pairs has this rule. It is looked up by hash.
    pub fn names(&self, rule: u32) -> bool
        ensures { result ≡ names_rule self.now rule }
    {
        self.rules.contains(&rule)
    }
}

/// Adds a pair to a set.
fn insert_pair(set: &mut IndexSet<(u32, u32)>, pair: (u32, u32)) -> Result<(), AllocError>
    ensures { OnOk result ((other : ℕ × ℕ) → has_pair set.new.keys other ≡ (has_pair set.old.keys other || is_pair other pair)) }
{
    set.insert(pair)?;
    Ok(())
}

/// Adds a rule to a set.
fn insert_rule(set: &mut IndexSet<u32>, rule: u32) -> Result<(), AllocError>
    ensures { OnOk result ((other : ℕ) → list_any (nat_eq other) set.new.keys ≡ (list_any (nat_eq other) set.old.keys || nat_eq other rule)) }
{
    set.insert(rule)?;
    Ok(())
}

//! Pairs of rules that are listed.
ghost use Rattle.std.specs.Prelude.{◌≡◌, ◌++◌, ◌∷◌, [], length, IfOk, OnErr, OnOk};
ghost use Rattle.brl_clashes.specs.ListedPairs.{has_pair};

use indexmap::IndexSet;
use std::alloc::{AllocError, Global};
use std::marker::Model;

/// Pairs of rules in the order in which they were listed. A contract sees their list.
#[derive(Drop)]
pub struct ListedPairs {
    listed: Vec<(u32, u32)>,
    set: IndexSet<(u32, u32)>,
}

impl Model for ListedPairs {
    ghost use Rattle.std.specs.Prelude.{◌≡◌, List, ℕ};
    ghost use Rattle.brl_clashes.specs.ListedPairs.{has_pair};

    ghost Value = { List (ℕ × ℕ) };

    ghost view = { λ p. p.listed.items };

    ghost invariant = { λ p. (pair : ℕ × ℕ) → has_pair p.set.keys pair ≡ has_pair p.listed.items pair };
}

impl ListedPairs {
    /// No pairs. No memory is allocated.
    pub fn new(alloc: Global) -> ListedPairs
        ensures { result ≡ [] }
    {
        ListedPairs {
            listed: Vec::new(alloc),
            set: IndexSet::new(alloc),
        }
    }

    /// How many pairs are listed.
    pub fn len(&self) -> usize
        ensures { result ≡ length self.now }
    {
        self.listed.len()
    }

    /// Whether a pair is listed. It is looked up by its hash.
    pub fn contains(&self, pair: (u32, u32)) -> bool
        ensures { result ≡ has_pair self.now pair }
    {
        self.set.contains(&pair)
    }

    /// These pairs, in order.
    pub fn to_vec(&self, alloc: Global) -> Result<Vec<(u32, u32)>, AllocError>
        ensures { IfOk result (λ pairs. pairs.items ≡ self.now) }
    {
        Vec::from_slice(alloc, self.listed.as_slice())
    }

    /// Lists a pair, after those that are listed.
    pub fn push(&mut self, pair: (u32, u32)) -> Result<(), AllocError>
        ensures ok { OnOk result (self.new ≡ self.old ++ pair ∷ []) }
        ensures err { OnErr result (self.new ≡ self.old) }
    {
        self.listed.push(pair)?;
        if self.set.insert(pair).is_err() {
            self.listed.pop();
            return Err(AllocError);
        }
        Ok(())
    }
}

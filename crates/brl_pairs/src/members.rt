//! Lists without repeats that find their members by hash.
ghost use Rattle.std.specs.Prelude.{◌≡◌, ◌↔◌, ℕ, List, [], ◌∷◌, ◌++◌, length, IfSome, IfOk, IsFalse, IsTrue, OnErr, Some, if◌then◌else◌, not, slice_get, take, option_copied};
ghost use Rattle.std.specs.List.{IsDistinct, list_any};
ghost use Rattle.brl_pairs.specs.Members.{HaveOneNumber, IsMember};

use crate::{Key, Seed};
use indexmap::IndexSet;
use std::alloc::{AllocError, Global};
use std::marker::Model;

/// A list without repeats that finds its members by hash. A contract sees the list.
#[derive(Drop)]
pub struct Members<T: Key> {
    items: IndexSet<T, Seed>,
}

impl<T: Key> Model for Members<T> {
    ghost Value = { List T };

    ghost view = { λ m. m.items.keys };

    ghost invariant = { λ m. IsDistinct T.eq m.items.keys };
}

impl<T: Key> Members<T> {
    /// No members, which will be found by hashes of this seed. No memory is allocated.
    pub fn new(alloc: Global, seed: Seed) -> Members<T>
        ensures { result ≡ [] }
    {
        Members {
            items: IndexSet::with_hasher(alloc, seed),
        }
    }

    /// The seed by whose hashes they are found.
    pub fn seed(&self) -> Seed {
        *self.items.hasher()
    }

    /// The number of members.
    pub fn len(&self) -> usize
        ensures { result ≡ length self.now }
    {
        self.items.len()
    }

    /// The member with this number, from 0.
    pub fn get(&self, index: usize) -> Option<&T>
        ensures { option_copied result ≡ slice_get self.now index }
    {
        self.items.get_index(index)
    }

    /// The number of the value, from 0, if it is a member.
    pub fn index_of(&self, value: &T) -> Option<usize>
        ensures found { IfSome result (λ number. slice_get self.now number ≡ Some value.now) }
        ensures only { (number : ℕ) → slice_get self.now number ≡ Some value.now → result ≡ Some number }
    {
        self.items.get_index_of(value)
    }

    /// Whether the value is a member.
    pub fn contains(&self, value: &T) -> bool
        ensures { IsTrue result ↔ IsMember self.now value.now }
    {
        self.index_of(value).is_some()
    }

    /// The members in order, no two of them equal.
    pub fn as_slice(&self) -> &[T]
        ensures members { result.now ≡ self.now }
        ensures distinct { IsDistinct T.eq self.now }
        ensures one_number { HaveOneNumber self.now }
    {
        self.items.as_slice()
    }

    /// Adds a value at the end and returns true, or drops it and returns false if it is a member
    /// already. `AllocError` leaves the members as they were.
    pub fn insert(&mut self, value: T) -> Result<bool, AllocError>
        ensures new { IfOk result (λ added. IsTrue added → IsMember self.old value → ⊥) }
        ensures known { IfOk result (λ added. IsFalse added → IsMember self.old value) }
        ensures equals_none { IfOk result (λ added. added ≡ not (list_any (T.eq value) self.old)) }
        ensures members { IfOk result (λ added. self.new ≡ (if added then self.old ++ value ∷ [] else self.old)) }
        ensures err { OnErr result (self.new ≡ self.old) }
    {
        Ok(self.items.insert_full(value)?.1)
    }

    /// Keeps the first `count` members, and drops the others.
    pub fn truncate(&mut self, count: usize)
        ensures { self.new ≡ take count self.old }
    {
        self.items.truncate(count);
    }
}

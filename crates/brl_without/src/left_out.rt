//! Characters that are left out.
ghost use Rattle.std.specs.Prelude.{◌≡◌, ◌↔◌, [], IfOk, IsTrue};
ghost use Rattle.brl_without.specs.LeftOut.{is_left_out, uses_none};

use indexmap::IndexSet;
use std::alloc::{AllocError, Global};
use std::marker::Model;

/// Characters that are left out, in the order in which they were given. A contract sees their list.
#[derive(Drop)]
pub struct LeftOut {
    given: Vec<char>,
    set: IndexSet<char>,
}

impl Model for LeftOut {
    ghost use Rattle.std.specs.Prelude.{◌≡◌, List, ℕ};
    ghost use Rattle.brl_without.specs.LeftOut.{is_left_out};

    ghost Value = { List ℕ };

    ghost view = { λ l. l.given.items };

    ghost invariant = { λ l. (c : ℕ) → is_left_out l.set.keys c ≡ is_left_out l.given.items c };
}

impl LeftOut {
    /// No characters. No memory is allocated.
    pub fn none(alloc: Global) -> LeftOut
        ensures { result ≡ [] }
    {
        LeftOut {
            given: Vec::new(alloc),
            set: IndexSet::new(alloc),
        }
    }

    /// These characters.
    pub fn new(alloc: Global, given: Vec<char>) -> Result<LeftOut, AllocError>
        ensures { IfOk result (λ left_out. left_out ≡ given.items) }
    {
        let mut set = IndexSet::new(alloc);
        for c in &given {
            set.insert(*c)?;
        }
        Ok(LeftOut { given, set })
    }

    /// The characters in the order in which they were given.
    pub fn as_slice(&self) -> &[char]
        ensures { result.now ≡ self.now }
    {
        self.given.as_slice()
    }

    /// Whether no character is left out.
    pub fn is_empty(&self) -> bool
        ensures { IsTrue result ↔ (self.now ≡ []) }
    {
        self.given.is_empty()
    }

    /// Whether this character is left out. It is looked up by its hash.
    pub fn contains(&self, c: char) -> bool
        ensures { result ≡ is_left_out self.now c }
    {
        self.set.contains(&c)
    }

    /// Whether a text uses none of these characters.
    pub fn is_unused_in(&self, text: &[char]) -> bool
        ensures { result ≡ uses_none self.now text.now }
    {
        text.iter().all(|c| !self.contains(*c))
    }
}

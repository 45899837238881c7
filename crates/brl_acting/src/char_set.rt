//! Sets of characters, which are looked up by their hashes.
ghost use Rattle.std.specs.Prelude.{◌≡◌, ◌||◌, IfOk, OnOk, ℕ, List};
ghost use Rattle.std.specs.List.{list_all, list_any};
ghost use Rattle.brl_acting.specs.Sets.{is_in, set_view};

use indexmap::IndexSet;
use std::alloc::{AllocError, Global};

/// A set of characters.
#[derive(Drop)]
pub(crate) struct CharSet {
    pub(crate) set: IndexSet<char>,
}

impl CharSet {
    /// These characters.
    pub fn of(alloc: Global, chars: &[char]) -> Result<CharSet, AllocError>
        ensures { IfOk result (λ set. set_view set ≡ is_in chars.now) }
    {
        let mut set = CharSet {
            set: IndexSet::new(alloc),
        };
        set.add(chars)?;
        Ok(set)
    }

    /// Adds characters.
    pub fn add(&mut self, chars: &[char]) -> Result<(), AllocError>
        ensures { OnOk result (set_view self.new ≡ (λ c. set_view self.old c || is_in chars.now c)) }
    {
        for c in chars {
            self.set.insert(*c)?;
        }
        Ok(())
    }

    /// Whether a character is in the set.
    pub fn has(&self, c: char) -> bool
        ensures { result ≡ set_view self.now c }
    {
        self.set.contains(&c)
    }

    /// Whether all these characters are.
    pub fn has_all(&self, chars: &[char]) -> bool
        ensures { result ≡ list_all (set_view self.now) chars.now }
    {
        chars.iter().all(|c| self.has(*c))
    }

    /// Whether one of these characters is.
    pub fn has_any(&self, chars: &[char]) -> bool
        ensures { result ≡ list_any (set_view self.now) chars.now }
    {
        chars.iter().any(|c| self.has(*c))
    }
}

//! Lists of characters.
ghost use Rattle.std.specs.Prelude.{◌≡◌, nat_eq, length, IfOk};
ghost use Rattle.std.specs.Cmp.{partial_equiv_from_equiv};
ghost use Rattle.std.specs.Cmp.Lexicographic.{pointwise, nat_list_eq_equiv};
ghost use Rattle.std.specs.Hash as fed;
ghost use Rattle.std.specs.Hash.{items_Alike, same_Alike};
ghost use Rattle.std.proofs.lemmas.Bool.Decides.{Decides-eqb};

use std::alloc::{AllocError, Global};
use std::hash::{Hash, Hasher};
use std::marker::Model;

/// A list of characters. A contract sees the list of their code points.
#[derive(Debug, Drop)]
pub struct Chars {
    items: Vec<char>,
}

impl Model for Chars {
    ghost use Rattle.std.specs.Prelude.{ℕ, List};

    ghost Value = { List ℕ };

    ghost view = { λ c. c.items.items };
}

impl Chars {
    /// The characters of a `Vec`. It takes no memory.
    pub fn from_vec(items: Vec<char>) -> Chars
        ensures { result ≡ items.items }
    {
        Chars { items }
    }

    /// The number of characters.
    pub fn len(&self) -> usize
        ensures { result ≡ length self.now }
    {
        self.items.len()
    }

    /// The characters.
    pub fn as_slice(&self) -> &[char]
        ensures { result.now ≡ self.now }
    {
        &self.items
    }

    /// An equal list.
    pub fn copy(&self, alloc: Global) -> Result<Chars, AllocError>
        ensures { IfOk result (λ c. c ≡ self.now) }
    {
        Ok(Chars {
            items: Vec::from_slice(alloc, self.items.as_slice())?,
        })
    }
}

impl PartialEq for Chars {
    ghost eq = { pointwise nat_eq };

    ghost laws = { partial_equiv_from_equiv nat_list_eq_equiv };

    fn eq(&self, other: &Chars) -> bool {
        self.items.as_slice() == other.items.as_slice()
    }
}

impl Eq for Chars {
    ghost laws = { nat_list_eq_equiv };
}

impl Hash for Chars {
    ghost hash_input = { fed.slice fed.char };

    ghost respects_eq = { (items_Alike (same_Alike fed.char Decides-eqb)).fed };

    fn hash<H: Hasher>(&self, state: &mut H) {
        self.items.as_slice().hash(state);
    }
}

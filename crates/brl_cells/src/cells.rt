//! Lists of cells.
ghost use Rattle.std.specs.Prelude.{◌≡◌, ◌↔◌, IsTrue, nat_eq, [], ◌∷◌, ◌++◌, length, IfOk, OnOk, OnErr};
ghost use Rattle.std.specs.Cmp.{partial_equiv_from_equiv};
ghost use Rattle.std.specs.Cmp.Lexicographic.{pointwise, nat_list_eq_equiv};
ghost use Rattle.std.specs.Hash as fed;
ghost use Rattle.std.specs.Hash.{items_Alike, same_Alike};
ghost use Rattle.std.proofs.lemmas.Bool.Decides.{Decides-eqb};

use crate::Cell;
use smallvec::SmallVec;
use std::alloc::{AllocError, Global};
use std::hash::{Hash, Hasher};
use std::marker::Model;

/// A list of cells, with up to eight of them in place. A contract sees the list of their numbers.
#[derive(Debug, Drop)]
pub struct Cells {
    items: SmallVec<Cell, 8>,
}

impl Model for Cells {
    ghost use Rattle.std.specs.Prelude.{ℕ, List};

    ghost Value = { List ℕ };

    ghost view = { λ c. c.items.items };
}

impl Cells {
    /// No cells. It takes no memory.
    pub fn new(alloc: Global) -> Cells
        ensures { result ≡ [] }
    {
        Cells {
            items: SmallVec::new(alloc),
        }
    }

    /// The cells of a slice, in order. Only more than eight take memory.
    pub fn from_slice(alloc: Global, cells: &[Cell]) -> Result<Cells, AllocError>
        ensures { IfOk result (λ c. c ≡ cells.now) }
    {
        Ok(Cells {
            items: SmallVec::from_slice(alloc, cells)?,
        })
    }

    /// The number of cells.
    pub fn len(&self) -> usize
        ensures { result ≡ length self.now }
    {
        self.items.len()
    }

    /// Whether there are no cells.
    pub fn is_empty(&self) -> bool
        ensures { IsTrue result ↔ (self.now ≡ []) }
    {
        self.items.is_empty()
    }

    /// The cells.
    pub fn as_slice(&self) -> &[Cell]
        ensures { result.now ≡ self.now }
    {
        self.items.as_slice()
    }

    /// Adds a cell at the end; after `AllocError` the list is unchanged.
    pub fn push(&mut self, cell: Cell) -> Result<(), AllocError>
        ensures ok { OnOk result (self.new ≡ self.old ++ cell ∷ []) }
        ensures err { OnErr result (self.new ≡ self.old) }
    {
        self.items.push(cell)?;
        Ok(())
    }

    /// An equal list. Only more than eight cells take memory.
    pub fn copy(&self) -> Result<Cells, AllocError>
        ensures { IfOk result (λ c. c ≡ self.now) }
    {
        Cells::from_slice(*self.items.allocator(), self.items.as_slice())
    }
}

impl PartialEq for Cells {
    ghost eq = { pointwise nat_eq };

    ghost laws = { partial_equiv_from_equiv nat_list_eq_equiv };

    fn eq(&self, other: &Cells) -> bool {
        self.items.as_slice() == other.items.as_slice()
    }
}

impl Eq for Cells {
    ghost laws = { nat_list_eq_equiv };
}

impl Hash for Cells {
    ghost hash_input = { fed.slice fed.u8 };

    ghost respects_eq = { (items_Alike (same_Alike fed.u8 Decides-eqb)).fed };

    fn hash<H: Hasher>(&self, state: &mut H) {
        self.items.as_slice().hash(state);
    }
}

//! The list of a state's dues.
ghost use Rattle.std.specs.Prelude.{◌≡◌, [], length, All, IfOk, IsTrue};
ghost use Rattle.std.specs.Cmp.{partial_equiv_from_equiv};
ghost use Rattle.std.specs.Cmp.Lexicographic.{lists_equiv, pointwise};
ghost use Rattle.std.specs.Hash as fed;
ghost use Rattle.std.specs.Hash.{items_Alike, same_Alike};
ghost use Rattle.brl_states.specs.SameDues.{dues_Decides, dues_equiv};
ghost use Rattle.brl_states.specs.Order.{AreDues, in_order as in_order_of, is_proper};

use crate::Due;
use crate::due::{compare_dues, copy_dues};
use brl_pairs::Key;
use std::alloc::{AllocError, Global};
use std::hash::{Hash, Hasher};
use std::marker::Model;

/// A list of dues in order, needs before bars, without repeats. It has no need of `Any`, and no bar
/// without characters. A contract sees the list.
#[derive(Debug, Drop)]
pub struct DueList {
    items: Vec<Due>,
}

impl Model for DueList {
    ghost use Rattle.std.specs.Prelude.{List};
    ghost use Rattle.brl_states.specs.declared.due.Due.{Due as DueValue};
    ghost use Rattle.brl_states.specs.Order.{AreDues};

    ghost Value = { List DueValue };

    ghost view = { λ d. d.items.items };

    ghost invariant = { λ d. AreDues d.items.items };
}

impl DueList {
    /// No dues. No memory is allocated.
    pub fn new(alloc: Global) -> DueList
        ensures { result ≡ [] }
    {
        DueList {
            items: Vec::new(alloc),
        }
    }

    /// The dues of a `Vec` that is in order. No memory is allocated.
    pub fn from_vec(items: Vec<Due>) -> DueList
        requires { AreDues items.items }
        ensures { result ≡ items.items }
    {
        DueList { items }
    }

    /// Dues put in order, without repeats. No memory is allocated.
    pub fn in_order(found: Vec<Due>) -> DueList
        requires { All (λ due. IsTrue (is_proper due)) found.items }
        ensures { result ≡ in_order_of found.items }
    {
        let mut items = found;
        items.sort_unstable_by(|a, b| compare_dues(a, b));
        items.dedup();
        DueList { items }
    }

    /// The number of dues.
    pub fn len(&self) -> usize
        ensures { result ≡ length self.now }
    {
        self.items.len()
    }

    /// The dues, each of them proper, ascending and without repeats.
    pub fn as_slice(&self) -> &[Due]
        ensures dues { result.now ≡ self.now }
        ensures kept { AreDues self.now }
    {
        self.items.as_slice()
    }

    /// An equal list. `AllocError` if memory runs out.
    pub fn copy(&self, alloc: Global) -> Result<DueList, AllocError>
        ensures { IfOk result (λ dues. dues ≡ self.now) }
    {
        let items = copy_dues(alloc, self.items.as_slice())?;
        Ok(DueList { items })
    }
}

impl PartialEq for DueList {
    ghost eq = { pointwise ⟦<Due as PartialEq>⟧.eq };

    ghost laws = { partial_equiv_from_equiv (lists_equiv dues_equiv) };

    fn eq(&self, other: &DueList) -> bool {
        self.items.as_slice() == other.items.as_slice()
    }
}

impl Eq for DueList {
    ghost laws = { lists_equiv dues_equiv };
}

impl Key for DueList {
    ghost use Rattle.brl_states.specs.SameDues.{same_lists};

    ghost same = { same_lists };
}

impl Hash for DueList {
    ghost hash_input = { fed.slice ⟦<Due as Hash>⟧.hash_input };

    ghost respects_eq = { (items_Alike (same_Alike ⟦<Due as Hash>⟧.hash_input dues_Decides)).fed };

    fn hash<H: Hasher>(&self, state: &mut H) {
        self.items.as_slice().hash(state);
    }
}

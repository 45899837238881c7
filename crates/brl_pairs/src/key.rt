//! Values that can be looked up by their hash.
ghost use Rattle.std.specs.Prelude.{◌≡◌, true};

use brl_cells::Cells;
use std::hash::Hash;

/// Values whose `==` is identity, so that a look-up by hash finds the value itself.
pub trait Key: Eq + Hash + Drop {
    /// Values that `==` calls equal are one value.
    ghost same: { (a b : Self) → Self.eq a b ≡ true → a ≡ b };
}

impl Key for bool {
    ghost use Rattle.brl_pairs.specs.SameMembers.{same_bools};

    ghost same = { same_bools };
}

impl Key for u32 {
    ghost use Rattle.brl_pairs.specs.SameMembers.{same_numbers};

    ghost same = { same_numbers };
}

impl Key for Cells {
    ghost use Rattle.brl_pairs.specs.SameMembers.{same_cells};

    ghost same = { same_cells };
}

//! One braille cell.
ghost use Rattle.std.specs.Prelude.{nat_eq};
ghost use Rattle.std.specs.Cmp.{nat_eq_equiv, partial_equiv_from_equiv};

use std::marker::Model;

/// A braille cell of up to eight dots, as a number: dot `d` is bit `d - 1`, and the blank cell is
/// 0. A contract sees that number.
#[derive(Clone, Copy, Eq, PartialOrd, Ord, Hash, Debug, Default)]
pub struct Cell(pub u8);

impl PartialEq for Cell {
    ghost eq = { nat_eq };

    ghost laws = { partial_equiv_from_equiv nat_eq_equiv };

    fn eq(&self, other: &Cell) -> bool {
        self.0 == other.0
    }
}

impl Model for Cell {
    ghost use Rattle.std.specs.Prelude.{ℕ};

    ghost Value = { ℕ };

    ghost view = { λ c. c.0 };

    ghost inverse = { λ n. record { 0 = n } };
}

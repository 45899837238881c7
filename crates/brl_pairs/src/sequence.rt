//! Sequences of numbers: cells, and characters.
ghost use Rattle.std.specs.Prelude.{◌≡◌, ℕ, List, nat_eq};
ghost use Rattle.std.specs.Cmp.Lexicographic.{slice_cmp};
ghost use Rattle.std.specs.List.{starts_with};
ghost use Rattle.std.specs.Ordering.{nat_cmp};

use crate::sorted::{begins_with, compare_cells};
use brl_cells::{Cells, Chars};
use std::cmp::Ordering;

/// A sequence of numbers. An `Order` looks up such ones: cells that are given, and characters that
/// are read.
pub trait Sequence {
    /// Its numbers.
    ghost numbers: { Self → List ℕ };

    /// Which comes first: they are compared number by number, and what is shorter comes before what
    /// it begins.
    fn compare(&self, other: &Self) -> Ordering
        ensures { result ≡ slice_cmp nat_cmp (numbers self.now) (numbers other.now) };

    /// Whether it begins with another one.
    fn begins_with(&self, start: &Self) -> bool
        ensures { result ≡ starts_with nat_eq (numbers self.now) (numbers start.now) };
}

impl Sequence for Cells {
    ghost numbers = { λ cells. cells };

    fn compare(&self, other: &Cells) -> Ordering {
        compare_cells(self.as_slice(), other.as_slice())
    }

    fn begins_with(&self, start: &Cells) -> bool {
        begins_with(self.as_slice(), start.as_slice())
    }
}

impl Sequence for Chars {
    ghost numbers = { λ chars. chars };

    fn compare(&self, other: &Chars) -> Ordering {
        compare_chars(self.as_slice(), other.as_slice())
    }

    fn begins_with(&self, start: &Chars) -> bool {
        self.as_slice().starts_with(start.as_slice())
    }
}

/// Which of two lists of characters comes first.
fn compare_chars(one: &[char], other: &[char]) -> Ordering
    ensures { result ≡ slice_cmp nat_cmp one.now other.now }
{
    // Lists are of a few characters: `cmp`, which goes by groups, costs the list of unused rules a
    // quarter more.
    let shared = one.len().min(other.len());
    for place in 0..shared {
        if one[place] != other[place] {
            return one[place].cmp(&other[place]);
        }
    }
    one.len().cmp(&other.len())
}

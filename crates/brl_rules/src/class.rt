//! Sets of character classes.
ghost use Rattle.std.specs.Prelude.{⊤, [], ◌∷◌, codes};

use bitflags::{Flag, Flags, bitflag_items};

/// A set of character classes, as a number with one bit for each class. A contract reads the number
/// as `.0`. The manual's section "Character-Definition Opcodes" has the classes.
#[derive(Clone, Copy, PartialEq, Eq, PartialOrd, Ord, Hash, Debug)]
pub struct Class(pub u8);

bitflag_items! {
    impl Class: u8 {
        const SPACE = 1;
        const PUNCTUATION = 2;
        const DIGIT = 4;
        const LETTER = 8;
        const LOWERCASE = 16;
        const UPPERCASE = 32;
        const SIGN = 64;
        const MATH = 128;
    }
}

impl Class {
    /// No class.
    pub const NONE: Class = Class(0);

    /// Space or punctuation: what separates words.
    pub const GAP: Class = Class(3);

    /// Space, punctuation or letter.
    pub const GAP_OR_LETTER: Class = Class(11);

    /// Lowercase and letter.
    pub const LOWERCASE_LETTER: Class = Class(24);

    /// Uppercase and letter.
    pub const UPPERCASE_LETTER: Class = Class(40);
}

impl Flags for Class {
    type Bits = u8;

    ghost exact = { ⊤ };

    ghost table = { (codes "SPACE", 1) ∷ (codes "PUNCTUATION", 2) ∷ (codes "DIGIT", 4) ∷ (codes "LETTER", 8)
        ∷ (codes "LOWERCASE", 16) ∷ (codes "UPPERCASE", 32) ∷ (codes "SIGN", 64) ∷ (codes "MATH", 128) ∷ [] };

    ghost set_of = { λ c. c.0 };

    fn flags<'a>() -> &'a [Flag<Class>] {
        Class::FLAGS
    }

    fn bits(&self) -> u8 {
        self.0
    }

    fn from_bits_retain(bits: u8) -> Class {
        Class(bits)
    }
}

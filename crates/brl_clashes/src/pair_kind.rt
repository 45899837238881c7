//! The kinds of the pairs of rules that a list of clashes has.
ghost use Rattle.std.specs.Prelude.{◌≡◌};
ghost use Rattle.brl_clashes.specs.PairKinds.{is_kind as is_same_kind, key_of, number_of, title_of};

/// The kind of a pair of rules at which clashing texts diverge. `kind_of` has the test of each.
#[derive(Clone, Copy)]
pub enum PairKind {
    /// One or two letters of texts of the same length differ.
    Alike,
    /// Two rules have the same cells.
    Rules,
    /// The characters of the texts have the same cells, each the one at its place.
    Cells,
    /// Capitals alone differ.
    Case,
    /// One character has the cells of others.
    Several,
    /// The cells of a rule begin with those of another.
    Begins,
    /// A rule has the cells of other texts.
    Word,
    /// After a digit, other characters are read as digits.
    AsDigit,
    /// A number has the cells of other texts.
    Number,
    /// The pair of the first characters of sets represents it.
    Sets,
    /// The pair of small letters represents it.
    Again,
    /// A text has what can't be seen.
    Unseen,
    /// A text has a braille pattern.
    Braille,
}

impl PairKind {
    /// The place of a kind among all.
    fn number(self) -> u8
        ensures { result ≡ number_of self }
    {
        match self {
            PairKind::Alike => 0,
            PairKind::Rules => 1,
            PairKind::Cells => 2,
            PairKind::Case => 3,
            PairKind::Several => 4,
            PairKind::Begins => 5,
            PairKind::Word => 6,
            PairKind::AsDigit => 7,
            PairKind::Number => 8,
            PairKind::Sets => 9,
            PairKind::Again => 10,
            PairKind::Unseen => 11,
            PairKind::Braille => 12,
        }
    }

    /// Whether a kind is this one.
    pub(crate) fn is(self, other: PairKind) -> bool
        ensures { result ≡ is_same_kind self other }
    {
        self.number() == other.number()
    }

    /// The word by which a kind is asked for.
    pub fn key(self) -> &'static str
        ensures { result.now ≡ key_of self }
    {
        match self {
            PairKind::Alike => "alike",
            PairKind::Rules => "rules",
            PairKind::Cells => "cells",
            PairKind::Case => "case",
            PairKind::Several => "several",
            PairKind::Begins => "begins",
            PairKind::Word => "word",
            PairKind::AsDigit => "asdigit",
            PairKind::Number => "number",
            PairKind::Sets => "sets",
            PairKind::Again => "again",
            PairKind::Unseen => "unseen",
            PairKind::Braille => "braille",
        }
    }

    /// What the pairs of a kind are.
    pub fn title(self) -> &'static str
        ensures { result.now ≡ title_of self }
    {
        match self {
            PairKind::Alike => "one or two letters differ",
            PairKind::Rules => "two rules with the same cells",
            PairKind::Cells => "characters with the same cells",
            PairKind::Case => "capitals alone differ",
            PairKind::Several => "a character with the cells of several",
            PairKind::Begins => "a rule begins with the cells of another",
            PairKind::Word => "a rule with the cells of other texts",
            PairKind::AsDigit => "read as digits after a digit",
            PairKind::Number => "a number with the cells of other texts",
            PairKind::Sets => "of other characters of the sets",
            PairKind::Again => "of capitals, as of their small letters",
            PairKind::Unseen => "with characters that can't be seen",
            PairKind::Braille => "with braille patterns",
        }
    }
}

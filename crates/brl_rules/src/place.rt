//! The places where a rule may be used, and the conditions of each on the rule's neighbours.
ghost use Rattle.std.specs.Prelude.{◌≡◌};
ghost use Rattle.brl_rules.specs.Places.{holds as does_hold, conditions_of, before_of, after_of, is_placed as does_place};

use crate::Class;
use bitflags::Flags;

/// A condition of a place on the classes of a neighbour.
#[derive(Clone, Copy, PartialEq, Eq, PartialOrd, Ord, Hash, Debug)]
pub enum Cond {
    /// It always holds.
    Any,
    /// The classes share one with this set.
    Meets(Class),
    /// The classes share none with this set.
    Avoids(Class),
}

/// Where a rule may be used: the translation opcode of its line. The manual's section "Translation
/// Opcodes" has them.
#[derive(Clone, Copy, PartialEq, Eq, Hash, Debug)]
pub enum Place {
    Always,
    Word,
    Sufword,
    Prfword,
    Begword,
    Begmidword,
    Midword,
    Midendword,
    Endword,
    Partword,
    Begnum,
    Midnum,
    Endnum,
}

/// The conditions of a place on the character before a rule and on the one after it.
#[derive(Clone, Copy)]
struct Conditions {
    before: Cond,
    after: Cond,
}

/// Whether classes meet a condition.
pub fn holds(cond: Cond, classes: Class) -> bool
    ensures { result ≡ does_hold cond classes }
{
    match cond {
        Cond::Any => true,
        Cond::Meets(set) => classes.intersects(set),
        Cond::Avoids(set) => !classes.intersects(set),
    }
}

impl Place {
    /// The condition on the classes of the character before a rule.
    pub fn before(self) -> Cond
        ensures { result ≡ before_of self }
    {
        self.conditions(Class::NONE).before
    }

    /// The condition on the classes of the character after a rule, where the character before the
    /// rule has these classes.
    pub fn after(self, before: Class) -> Cond
        ensures { result ≡ after_of self before }
    {
        self.conditions(before).after
    }

    /// Whether the place is any but `always`.
    pub fn is_placed(self) -> bool
        ensures { result ≡ does_place self }
    {
        self != Place::Always
    }

    /// Both conditions, where the character before the rule has these classes.
    fn conditions(self, before: Class) -> Conditions
        ensures { result ≡ conditions_of self before }
    {
        let (before, after) = match self {
            Place::Always => (Cond::Any, Cond::Any),
            Place::Word => (Cond::Meets(Class::GAP), Cond::Meets(Class::GAP)),
            Place::Sufword => (Cond::Meets(Class::GAP), Cond::Meets(Class::GAP_OR_LETTER)),
            Place::Prfword => (Cond::Meets(Class::GAP_OR_LETTER), Cond::Meets(Class::GAP)),
            Place::Begword => (Cond::Meets(Class::GAP), Cond::Meets(Class::LETTER)),
            Place::Begmidword => (
                Cond::Meets(Class::GAP_OR_LETTER),
                Cond::Meets(Class::LETTER),
            ),
            Place::Midword => (Cond::Meets(Class::LETTER), Cond::Meets(Class::LETTER)),
            Place::Midendword => (
                Cond::Meets(Class::LETTER),
                Cond::Meets(Class::GAP_OR_LETTER),
            ),
            Place::Endword => (Cond::Meets(Class::LETTER), Cond::Meets(Class::GAP)),
            Place::Partword if before.intersects(Class::LETTER) => (Cond::Any, Cond::Any),
            Place::Partword => (Cond::Any, Cond::Meets(Class::LETTER)),
            Place::Begnum => (Cond::Meets(Class::GAP), Cond::Meets(Class::DIGIT)),
            Place::Midnum => (Cond::Meets(Class::DIGIT), Cond::Meets(Class::DIGIT)),
            Place::Endnum => (Cond::Meets(Class::DIGIT), Cond::Avoids(Class::DIGIT)),
        };
        Conditions { before, after }
    }
}

//! The opcodes of the profile. specs/Opcodes.antt has the table of them, in three parts; this code
//! is proved to follow it.
ghost use Rattle.std.specs.Prelude.{◌≡◌, is_some, map};
ghost use Rattle.brl_table.specs.Opcodes.{character_opcodes, entry_of, opcode_of, other_opcodes, place_opcodes};
ghost use Rattle.brl_table.specs.Words.{opcode_words, sign_given};
ghost use Rattle.brl_table.specs.declared.opcode.TheConstants.{OPCODES};

use crate::item::NumericRole;
use brl_rules::{Class, Place, Sign};

/// What a line with an opcode does.
#[derive(Clone, Copy)]
pub enum Opcode {
    /// Defines a character, with these classes: one character, then dots.
    Plain(Class),
    /// Defines a digit that begins numbers: one character, then dots.
    Literary,
    /// Defines an uppercase character and its lowercase one: the two characters, then dots for
    /// both, or dots for each with a comma between them.
    Uplow,
    /// Gives a rule for this place: characters, then dots or `=`.
    Placed(Place),
    /// Comes before a place opcode, whose rule is used, since this project only translates forward.
    Noback,
    /// Comes before a place opcode, whose rule is checked and not used.
    Nofor,
    /// Is checked and not used: one character, then dots.
    Display,
    /// Gives an indicator its cells: dots.
    Indicator(Sign),
    /// Gives characters this role.
    NumericList(NumericRole),
    /// Is replaced by the lines of a file, so that a line that is left has no operand.
    Include,
}

/// The words of all opcodes of the profile.
pub const OPCODES: [&str; 35] = [
    "space",
    "punctuation",
    "digit",
    "letter",
    "lowercase",
    "uppercase",
    "sign",
    "math",
    "litdigit",
    "uplow",
    "always",
    "word",
    "sufword",
    "prfword",
    "begword",
    "begmidword",
    "midword",
    "midendword",
    "endword",
    "partword",
    "begnum",
    "midnum",
    "endnum",
    "noback",
    "nofor",
    "display",
    "capsletter",
    "capsign",
    "numsign",
    "nocontractsign",
    "begcapsword",
    "endcapsword",
    "numericmodechars",
    "numericnocontchars",
    "include",
];

/// The opcode of a word, if it is one of the profile.
pub fn opcode_named(word: &str) -> Option<Opcode>
    ensures { result ≡ opcode_of word.now }
{
    character_opcode(word)
        .or(place_opcode(word))
        .or(other_opcode(word))
}

/// The indicator whose cells the lines with this opcode give, if they do.
pub fn indicator_named(word: &str) -> Option<Sign>
    ensures { result ≡ sign_given (opcode_of word.now) }
{
    match opcode_named(word) {
        Some(Opcode::Indicator(sign)) => Some(sign),
        _ => None,
    }
}

/// The opcode of a word, if its lines define characters.
fn character_opcode(word: &str) -> Option<Opcode>
    ensures { result ≡ entry_of character_opcodes word.now }
{
    match word {
        "space" => Some(Opcode::Plain(Class::SPACE)),
        "punctuation" => Some(Opcode::Plain(Class::PUNCTUATION)),
        "digit" => Some(Opcode::Plain(Class::DIGIT)),
        "letter" => Some(Opcode::Plain(Class::LETTER)),
        "lowercase" => Some(Opcode::Plain(Class::LOWERCASE_LETTER)),
        "uppercase" => Some(Opcode::Plain(Class::UPPERCASE_LETTER)),
        "sign" => Some(Opcode::Plain(Class::SIGN)),
        "math" => Some(Opcode::Plain(Class::MATH)),
        "litdigit" => Some(Opcode::Literary),
        "uplow" => Some(Opcode::Uplow),
        _ => None,
    }
}

/// The opcode of a word, if it is a place opcode.
pub(crate) fn place_opcode(word: &str) -> Option<Opcode>
    ensures { result ≡ entry_of place_opcodes word.now }
{
    match word {
        "always" => Some(Opcode::Placed(Place::Always)),
        "word" => Some(Opcode::Placed(Place::Word)),
        "sufword" => Some(Opcode::Placed(Place::Sufword)),
        "prfword" => Some(Opcode::Placed(Place::Prfword)),
        "begword" => Some(Opcode::Placed(Place::Begword)),
        "begmidword" => Some(Opcode::Placed(Place::Begmidword)),
        "midword" => Some(Opcode::Placed(Place::Midword)),
        "midendword" => Some(Opcode::Placed(Place::Midendword)),
        "endword" => Some(Opcode::Placed(Place::Endword)),
        "partword" => Some(Opcode::Placed(Place::Partword)),
        "begnum" => Some(Opcode::Placed(Place::Begnum)),
        "midnum" => Some(Opcode::Placed(Place::Midnum)),
        "endnum" => Some(Opcode::Placed(Place::Endnum)),
        _ => None,
    }
}

/// Whether a word is a place opcode, so that a line of it gives a rule.
pub fn is_place_opcode(word: &str) -> bool
    ensures { result ≡ is_some (entry_of place_opcodes word.now) }
{
    place_opcode(word).is_some()
}

/// The opcode of a word, if it is one of the others.
fn other_opcode(word: &str) -> Option<Opcode>
    ensures { result ≡ entry_of other_opcodes word.now }
{
    match word {
        "noback" => Some(Opcode::Noback),
        "nofor" => Some(Opcode::Nofor),
        "display" => Some(Opcode::Display),
        "capsletter" | "capsign" => Some(Opcode::Indicator(Sign::CapsLetter)),
        "numsign" => Some(Opcode::Indicator(Sign::NumSign)),
        "nocontractsign" => Some(Opcode::Indicator(Sign::NoContractSign)),
        "begcapsword" => Some(Opcode::Indicator(Sign::BegCapsWord)),
        "endcapsword" => Some(Opcode::Indicator(Sign::EndCapsWord)),
        "numericmodechars" => Some(Opcode::NumericList(NumericRole::KeepsMode)),
        "numericnocontchars" => Some(Opcode::NumericList(NumericRole::NeedsNoContractSign)),
        "include" => Some(Opcode::Include),
        _ => None,
    }
}

/// A law: `OPCODES` has the words of the tables of opcodes, in their order.
#[tactic(auto, unfolding(crate::specs::Words::opcode_words))]
pub fn opcodes_law()
    ensures { map (λ word. word.now) OPCODES ≡ opcode_words }
{}

//! The opcodes of liblouis, and which of them the profile has.
ghost use Rattle.std.specs.Prelude.{◌≡◌, bytes_eq};
ghost use Rattle.std.specs.List.{list_any};
ghost use Rattle.brl_table.specs.Liblouis.{is_opcode, origin_if, origin_of as origin_by};

use crate::opcode::{opcode_named, place_opcode};

/// The opcodes of liblouis 3.24, sorted: those of the opcode index of the liblouis User's and
/// Programmer's Manual, and those that liblouis reads and the index leaves out, as old ones.
pub const OPCODES: [&str; 117] = [
    "after",
    "always",
    "attribute",
    "backmatch",
    "base",
    "before",
    "begcaps",
    "begcapsphrase",
    "begcapsword",
    "begcomp",
    "begemph",
    "begemphphrase",
    "begemphword",
    "begmidword",
    "begmode",
    "begmodephrase",
    "begmodeword",
    "begnum",
    "begword",
    "capsletter",
    "capsmodechars",
    "capsnocont",
    "class",
    "comp6",
    "compbrl",
    "compdots",
    "context",
    "contraction",
    "correct",
    "decpoint",
    "digit",
    "display",
    "emphclass",
    "emphletter",
    "emphmodechars",
    "empmatchafter",
    "empmatchbefore",
    "endcaps",
    "endcapsphrase",
    "endcapsword",
    "endcomp",
    "endemph",
    "endemphphrase",
    "endemphword",
    "endmode",
    "endmodephrase",
    "endmodeword",
    "endnum",
    "endword",
    "exactdots",
    "grouping",
    "hyphen",
    "include",
    "joinnum",
    "joinword",
    "largesign",
    "lencapsphrase",
    "lenemphphrase",
    "lenmodephrase",
    "letsign",
    "letter",
    "litdigit",
    "literal",
    "locale",
    "lowercase",
    "lowword",
    "macro",
    "match",
    "math",
    "midendnumericmodechars",
    "midendword",
    "midnum",
    "midword",
    "modeletter",
    "multind",
    "noback",
    "nobreak",
    "nocont",
    "nocontractsign",
    "nocross",
    "noemphchars",
    "nofor",
    "noletsign",
    "noletsignafter",
    "noletsignbefore",
    "nonumsign",
    "numericmodechars",
    "numericnocontchars",
    "numsign",
    "partword",
    "pass2",
    "pass3",
    "pass4",
    "postpunc",
    "prepunc",
    "prfword",
    "punctuation",
    "repeated",
    "rependword",
    "replace",
    "repword",
    "seqafterchars",
    "seqafterexpression",
    "seqafterpattern",
    "seqbeforechars",
    "seqdelimiter",
    "sign",
    "space",
    "sufword",
    "swapcc",
    "swapcd",
    "swapdd",
    "syllable",
    "undefined",
    "uplow",
    "uppercase",
    "word",
];

/// Whose opcode a word is.
#[derive(Clone, Copy, PartialEq, Eq, Debug)]
pub enum OpcodeOrigin {
    /// The profile has it, so lines with it are read.
    Profile,
    /// Liblouis has it, and the profile leaves it out.
    Liblouis,
    /// No opcode of liblouis has this name.
    Unknown,
}

/// Whether the profile, liblouis alone or neither has an opcode: a word, or a prefix, a blank and a
/// word, as a survey counts it. After a prefix the profile has place opcodes alone.
pub fn origin_of(opcode: &str) -> OpcodeOrigin
    ensures { result ≡ origin_by opcode.now }
{
    match opcode.split_once(' ') {
        Some((_, word)) => origin(place_opcode(word).is_some(), word),
        None => origin(opcode_named(opcode).is_some(), opcode),
    }
}

/// Whose opcode a word is that the profile has, or that it hasn't.
fn origin(is_read: bool, word: &str) -> OpcodeOrigin
    ensures { result ≡ origin_if is_read word.now }
{
    if is_read {
        OpcodeOrigin::Profile
    } else if is_liblouis(word) {
        OpcodeOrigin::Liblouis
    } else {
        OpcodeOrigin::Unknown
    }
}

/// Whether a word is an opcode of liblouis.
fn is_liblouis(word: &str) -> bool
    ensures { result ≡ is_opcode word.now }
{
    is_among(word, &OPCODES)
}

/// Whether a word is among others.
fn is_among(word: &str, others: &[&str]) -> bool
    ensures { result ≡ list_any (λ other. bytes_eq word.now other.now) others.now }
{
    others.iter().any(|other| word == *other)
}

//! The item of a line: what the line defines, read by itself.
use brl_cells::{Cells, Chars};
use brl_rules::{Class, Place, Sign};

/// What a line defines.
#[derive(Drop)]
pub enum Item {
    /// It defines a character.
    Defines(Definition),
    /// It defines an uppercase character and its lowercase one.
    DefinesBoth(Definition, Definition),
    /// It gives a rule.
    Rules(RuleLine),
    /// It gives an indicator its cells.
    Indicates(Sign, Cells),
    /// It gives characters a role in numbers.
    Lists(ListLine),
    /// It is checked and not used.
    Nothing,
}

/// A definition of a character: its classes, its cells and its fold. `file` is the number of the
/// line's file, `line` the line's number there, from 1.
#[derive(Drop)]
pub struct Definition {
    pub character: char,
    /// Whether it is a `litdigit` line; else it is a plain one.
    pub literary: bool,
    pub classes: Class,
    pub cells: Cells,
    /// The lowercase character of an uppercase one, else the character itself.
    pub fold: char,
    pub file: usize,
    pub line: u32,
}

/// The rule of a line, as it is written.
#[derive(Drop)]
pub struct RuleLine {
    pub place: Place,
    pub chars: Chars,
    /// None for `=`, the cells of the characters' own definitions.
    pub cells: Option<Cells>,
    pub head: RuleHead,
}

/// How the line of a rule begins, and where it is: `file` and `line` are as in a `Definition`.
#[derive(Clone, Copy)]
pub struct RuleHead {
    /// Whether the rule is used. One that follows `nofor` is not.
    pub used: bool,
    /// Whether the place opcode follows `noback` or `nofor`.
    pub prefixed: bool,
    pub file: usize,
    pub line: u32,
}

/// The characters of a list line, and their role.
#[derive(Drop)]
pub struct ListLine {
    pub role: NumericRole,
    pub chars: Chars,
}

/// What a character is to numbers.
#[derive(Clone, Copy, PartialEq, Eq)]
pub enum NumericRole {
    /// `numericmodechars`: numeric mode goes on after it.
    KeepsMode,
    /// `numericnocontchars`: in numeric mode it could be read as a digit, so a sign comes before
    /// it.
    NeedsNoContractSign,
}

//! The rules and the characters of a table.
use crate::{Class, Place};
use brl_cells::{Cells, Chars};

/// A rule: its characters, folded; the cells that they give; and where it may be used. `file` is
/// the number of its file among the table's, from 0, and `line` its line there, from 1.
#[derive(Debug, Drop)]
pub struct Rule {
    pub chars: Chars,
    pub cells: Cells,
    pub place: Place,
    pub file: usize,
    pub line: u32,
}

/// The info of a character: what a table defines for it.
#[derive(Debug, Drop)]
pub struct Info {
    /// Its place among the table's characters in the order of their first definitions, from 0.
    pub number: u32,
    /// The cells of its own definition.
    pub cells: Cells,
    /// The classes of all its lines together.
    pub classes: Class,
    /// Whether it has a `litdigit` line.
    pub literary: bool,
    /// Whether it is in `numericmodechars`.
    pub mode: bool,
    /// Whether it is in `numericnocontchars`.
    pub nocont: bool,
    /// The lowercase character of the first `uplow` line that names it as uppercase, else the
    /// character itself.
    pub fold: char,
    /// The file and the line that gave its cells, as in a `Rule`.
    pub file: usize,
    pub line: u32,
}

/// A line that defines a character again. `file` and `line` are as in a `Rule`.
#[derive(Clone, Copy, PartialEq, Eq, Debug)]
pub struct Notice {
    pub character: char,
    pub file: usize,
    pub line: u32,
}

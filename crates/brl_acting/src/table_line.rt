//! The lines of a whole table, and which of them a cut keeps.
use brl_lines::Line;

/// A line of a table, and what a cut made of it.
#[derive(Clone, Copy, Debug)]
pub struct TableLine<'l, 'a> {
    /// The line as it was before the cut, which may have rewritten it.
    pub line: &'l Line<'a>,
    /// Whether the cut keeps it.
    pub kept: bool,
    /// Whether it ends with a backslash, or follows a line that does: liblouis reads the two as
    /// one.
    pub continued: bool,
}

//! The forms in which cells are written.

/// A form of written cells.
#[derive(Clone, Copy, PartialEq, Eq, Debug)]
pub enum Form {
    /// Marks of North American Braille ASCII. Cells with dot 7 or 8 have none.
    Ascii,
    /// Characters of Unicode braille, U+2800 to U+28FF, as UTF-8.
    Unicode,
}

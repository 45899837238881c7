//! Braille cells. A `Cell` is a set of dots; `Cells` and `Chars` are lists of cells and of
//! characters. Cells are read from dots operands, and written as these (`read_dots`, `write_dots`),
//! in braille ASCII and in Unicode braille (`Form`, `to_ascii`, `to_unicode`).
//!
//! Room 1, text and tables (docs/dev/ARCHITECTURE.md). The definitions begin in `specs/Dots.antt`.
#![tactic(auto)]

mod cell;
mod cells;
mod chars;
mod dots;
mod fault;
mod form;
mod laws;
mod marks;

pub use cell::Cell;
pub use cells::Cells;
pub use chars::Chars;
pub use dots::{read_dots, write_dots};
pub use fault::DotsFault;
pub use form::Form;
pub use laws::{
    ascii_marks_differ, ascii_marks_keep_decades, cells_are_read, cells_have_one_spelling,
    spelled_cells_are_read,
};
pub use marks::{to_ascii, to_unicode};

//! Streams: the input of a reader is translated line by line, and written to a writer. `Input` and
//! `Output` are the reader and the writer, which `Counting` makes of those of the standard library;
//! `translate_lines` does the work. `StreamFault` is the first fault, with its line, from 1.
//! `translate_defined_lines` passes over the lines with a character that the table doesn't define,
//! and lists these characters. By `same_output_law` the output of an unambiguous table determines
//! the lines.
//!
//! By a table of the lines `letter a 1` and `letter b 12`:
//!
//! ```
//! let mut reader = b"ab\n".as_slice();
//! let mut writer = Counting::new(Vec::new(alloc));
//! translate_lines(alloc, table, Form::Ascii, &mut reader, &mut writer)?;
//! Ok(writer.device.as_slice() == b"AB\n".as_slice())
//! ```
//!
//! Room 5, the program (docs/dev/ARCHITECTURE.md): it uses crates of room 1 alone. The definitions
//! begin in `specs/Output.antt`.
#![tactic(auto)]

mod buffer;
mod device;
mod fault;
mod lacking;
mod laws;
mod line;
mod output;
mod stream;

pub use brl_cells::Form;
pub use device::{Counting, Failed, Input, Output};
pub use fault::{LineFault, StreamFault};
pub use lacking::Lacking;
pub use laws::same_output_law;
pub use stream::{translate_defined_lines, translate_lines};

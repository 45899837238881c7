//! The files of a table, cut into lines and tokens.
//!
//! A `Source` gives the bytes of a file by its path: `MapSource` from memory, `FileSource` from a
//! file system. `load` reads and checks a table's file and the files that it includes, and
//! `Loaded::lines` gives the lines that do something, each as tokens that are slices of its file's
//! text. `chars_of` reads the characters that a token spells, and `read_number` a number.
//!
//! Room 1, text and tables (docs/dev/ARCHITECTURE.md). The definitions begin in
//! `specs/Lines.antt`.
#![tactic(auto)]

mod checked_file;
mod cut;
mod entering;
mod expand;
mod fault;
mod file_source;
mod finding;
mod gathering;
mod include;
mod laws;
mod line;
mod loaded;
mod map_source;
mod number;
mod open_file;
mod operand;
mod read;
mod row;
mod skipping;
mod source;
mod span;
mod spelling;
mod visible;
mod walk;
mod way;

pub use checked_file::without_mark;
pub use fault::{LoadFault, LoadFaultKind, Location};
pub use file_source::{FileSource, read_whole};
pub use gathering::{GatherFault, Gathered, GatheredFile, LeadsOut, gather};
pub use include::{folder, last_part, path_in};
pub use laws::{files_in_memory_law, one_answer_law};
pub use line::{Line, Token};
pub use loaded::{Loaded, load};
pub use map_source::MapSource;
pub use number::read_number;
pub use operand::{CharsFault, characters, chars_of};
pub use skipping::{WithoutDictionaries, load_without_dictionaries};
pub use source::{MOST_FILE_BYTES, Source, SourceFault};
pub use spelling::spell_chars;
pub use visible::{is_unseen, spell_visibly, visible_line};
pub use way::{IncludeReason, LeftInclude, Policy};

//! What the tests of several crates share: rows of text with what is given and what is to come of
//! it, what their fields have, tables of lines, sources, readers and writers that fail, a writer
//! that hears how far work is, and work in slices. No crate of the program uses it.
#![tactic(auto)]

mod fields;
mod lending;
mod listener;
mod marks;
mod readers;
mod refusing;
mod rows;
mod slices;
mod tables;
mod writers;

pub use fields::{
    add_file, add_files_of_bytes, bytes_of, chars, field_of, field_of_bytes, files_of, lines_of,
    no_files, numbers_of, one_file, words_of,
};
pub use lending::{lend, lend_mut};
pub use listener::Listener;
pub use marks::mark;
pub use readers::{Broken, Slow};
pub use refusing::Refusing;
pub use rows::{agree, check_rows, cut, for_rows_of_2, for_rows_of_3, for_rows_of_4};
pub use slices::run_slices;
pub use tables::{for_tables_of_3, for_tables_of_4, loaded_of, table_of, with_lines, with_table};
pub use writers::{Closed, Full};

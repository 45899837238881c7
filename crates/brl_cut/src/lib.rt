//! The readable part of a table, as a table of its own.
//!
//! `cut_table` gathers the files of a table, makes the lines that aren't read comments, each in its
//! place, and gives the files with the paths where they are to be written. `text` puts text before
//! lines, `files` has files in memory and edits of their lines, `rewriting` rewrites lines
//! (`noback`, `base`, `contraction` and `letsign` have the forms, `signs` the cells of indicators,
//! `putting` what is put before a line), `rounds` surveys files until no line is faulty, `starting`
//! does both, `includes` has include lines that are left out, `placing` the paths where files are
//! written, and `cutting` has the whole, which `outcome` is, and marks lines of it; `alike`
//! compares the files with marks.
//!
//! Room 1, text and tables (docs/dev/ARCHITECTURE.md). The definitions begin in `specs/Cuts.antt`.
#![tactic(auto)]

mod alike;
mod base;
mod contraction;
mod cutting;
mod files;
mod includes;
mod letsign;
mod noback;
mod outcome;
mod placing;
mod putting;
mod rewriting;
mod rounds;
mod signs;
mod starting;
mod text;

pub use brl_table::Cut;
pub use cutting::{CutFault, cut_table, mark_lines};
pub use outcome::CutTable;
pub use placing::written_root;

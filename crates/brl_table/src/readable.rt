//! The readable part of a table, which `brl_cut` makes and reports speak of.
use crate::FaultyLine;
use brl_lines::GatheredFile;

/// The readable part of a table, as files of their own.
#[derive(Debug, Drop)]
pub struct Cut {
    /// The files, each at the path where it is to be written; the root is the first.
    pub files: Vec<GatheredFile>,
    /// The paths of the files where they were read, in the same order.
    pub paths: Vec<String>,
    /// The lines that became comments, each with its file where it was read: includes that are left
    /// out, and then faulty lines as surveys found them.
    pub left_out: Vec<FaultyLine>,
    /// The path of the file, where it was read, of each line that is kept, in order.
    pub line_files: Vec<String>,
    /// How many of the lines that are kept are rewritten.
    pub rewritten: usize,
}

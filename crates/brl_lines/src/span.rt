//! Where a line is among the files that were read.

/// The bytes of a line: the index of its file, its number from 1, and where it starts and ends in
/// its file's text.
#[derive(Clone, Copy)]
pub(crate) struct LineSpan {
    pub file: usize,
    pub line: u32,
    pub from: usize,
    pub to: usize,
}

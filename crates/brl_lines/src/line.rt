//! A line of a table, its tokens being slices of its file's text.

/// A token, and the byte of its file's text where it starts.
#[derive(Clone, Copy, Debug, PartialEq, Eq)]
pub struct Token<'a> {
    pub text: &'a str,
    pub start: usize,
}

/// A line that does something: the path of its file, its number from 1, and its tokens.
#[derive(Debug, Drop)]
pub struct Line<'a> {
    pub file: &'a str,
    pub line: u32,
    pub opcode: Token<'a>,
    pub operands: Vec<Token<'a>>,
}

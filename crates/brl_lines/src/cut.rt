//! Cutting a text into rows and tokens.
ghost use Rattle.std.specs.Prelude.{◌≡◌, ◌≢◌, ℕ, ◌+◌, ◌-◌, ◌<◌, ◌≤◌, ◌∷◌, false, length, slice_index, IfOk, map, option_map, option_to_list};
ghost use Rattle.std.specs.Str.{IsCharBoundary};
ghost use Rattle.brl_lines.specs.Rows.{piece, rows};
ghost use Rattle.brl_lines.specs.Tokens.{is_gap as is_gap_byte, line_of, tokens as tokens_of, token_of};
ghost use Rattle.brl_lines.specs.Views.{line_view, token_view};

use crate::line::{Line, Token};
use memchr::memchr;
use std::alloc::{AllocError, Global};

/// Where a row ends, which begins where it was asked for, and where the next row begins.
#[derive(Clone, Copy)]
pub struct Row {
    pub to: usize,
    pub next: usize,
}

/// Whether a byte is a blank or a tab.
fn is_gap(byte: u8) -> bool
    ensures { result ≡ is_gap_byte byte }
{
    byte == b' ' || byte == b'\t'
}

/// The place of the first line feed from `at` on, or the text's length.
fn feed_from(bytes: &[u8], at: usize) -> usize
    requires { at ≤ length bytes.now }
    ensures range { at ≤ result }
    ensures within { result ≤ length bytes.now }
    ensures feed { result < length bytes.now → slice_index bytes.now result ≡ 10 }
    ensures before { (k : ℕ) → at ≤ k → k < result → slice_index bytes.now k ≢ 10 }
{
    match memchr(b'\n', &bytes[at..]) {
        Some(ahead) => at + ahead,
        None => bytes.len(),
    }
}

/// The row that begins at `at`.
pub fn row_at(text: &str, at: usize) -> Row
    requires inside { at < length text.now }
    requires boundary { IsCharBoundary text.now at }
    ensures from { at ≤ result.to }
    ensures to { result.to ≤ result.next }
    ensures on { at < result.next }
    ensures within { result.next ≤ length text.now }
    ensures to_boundary { IsCharBoundary text.now result.to }
    ensures next_boundary { IsCharBoundary text.now result.next }
    ensures cuts { rows (piece text.now at (length text.now))
        ≡ piece text.now at result.to ∷ rows (piece text.now result.next (length text.now)) }
{
    let bytes = text.as_bytes();
    let feed = feed_from(bytes, at);
    if feed == bytes.len() {
        return Row {
            to: feed,
            next: feed,
        };
    }
    if at < feed && bytes[feed - 1] == b'\r' {
        return Row {
            to: feed - 1,
            next: feed + 1,
        };
    }
    Row {
        to: feed,
        next: feed + 1,
    }
}

/// The first place from `from` on that is no blank and no tab, or `to`.
pub fn skip_gaps(text: &str, from: usize, to: usize) -> usize
    requires range { from ≤ to }
    requires within { to ≤ length text.now }
    requires boundary { IsCharBoundary text.now from }
    ensures from { from ≤ result }
    ensures to { result ≤ to }
    ensures boundary { IsCharBoundary text.now result }
    ensures mark { result < to → is_gap_byte (slice_index text.now result) ≡ false }
    ensures same { tokens_of (piece text.now from to) ≡ tokens_of (piece text.now result to) }
{
    let bytes = text.as_bytes();
    let mut at = from;
    while at < to && is_gap(bytes[at]) {
        at += 1;
    }
    at
}

/// Where the token that starts at `from` ends: at a blank, at a tab, or at `to`.
pub fn token_end(text: &str, from: usize, to: usize) -> usize
    requires range { from < to }
    requires mark { is_gap_byte (slice_index text.now from) ≡ false }
    requires within { to ≤ length text.now }
    requires boundary { IsCharBoundary text.now to }
    ensures from { from < result }
    ensures to { result ≤ to }
    ensures boundary { IsCharBoundary text.now result }
    ensures cuts { tokens_of (piece text.now from to) ≡ piece text.now from result ∷ tokens_of (piece text.now result to) }
{
    let bytes = text.as_bytes();
    for at in from..to {
        if is_gap(bytes[at]) {
            return at;
        }
    }
    to
}

/// The tokens between two places of a text.
pub fn tokens_between<'a>(
    alloc: Global,
    text: &'a str,
    from: usize,
    to: usize,
) -> Result<Vec<Token<'a>>, AllocError>
    requires range { from ≤ to }
    requires within { to ≤ length text.now }
    requires from_boundary { IsCharBoundary text.now from }
    requires to_boundary { IsCharBoundary text.now to }
    ensures { IfOk result (λ v. map token_view v.items ≡ map token_of (tokens_of (piece text.now from to))) }
{
    let mut tokens = Vec::new(alloc);
    let mut at = skip_gaps(text, from, to);
    while at < to {
        let end = token_end(text, at, to);
        tokens.push(Token {
            text: &text[at..end],
            start: at,
        })?;
        at = skip_gaps(text, end, to);
    }
    Ok(tokens)
}

/// The line between two places of a text, if it does something.
pub fn line_between<'a>(
    alloc: Global,
    file: &'a str,
    number: u32,
    text: &'a str,
    from: usize,
    to: usize,
) -> Result<Option<Line<'a>>, AllocError>
    requires range { from ≤ to }
    requires within { to ≤ length text.now }
    requires from_boundary { IsCharBoundary text.now from }
    requires to_boundary { IsCharBoundary text.now to }
    ensures { IfOk result (λ l. option_to_list (option_map line_view l) ≡ line_of file.now number (map token_of (tokens_of (piece text.now from to)))) }
{
    let start = skip_gaps(text, from, to);
    if start == to {
        return Ok(None);
    }
    let end = token_end(text, start, to);
    let opcode = Token {
        text: &text[start..end],
        start,
    };
    if opcode.text.starts_with('#') {
        return Ok(None);
    }
    let operands = tokens_between(alloc, text, end, to)?;
    Ok(Some(Line {
        file,
        line: number,
        opcode,
        operands,
    }))
}

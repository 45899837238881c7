//! The items of tests, as of `context` and `pass2` lines.
ghost use Rattle.std.specs.Prelude.{◌≡◌, IfOk, drop, false, length, map, option_map, position, take};
ghost use Rattle.std.specs.Option.{unwrap_or};
ghost use Rattle.brl_acting.specs.Tests.{chars_of_bytes as chars_by_bytes, ends_dots as ends_dots_by, ends_name as ends_name_by, is_letter as is_letter_by, item_view, items as items_by, keeps_not as keeps_not_by, name_length as name_length_by, string_length as string_length_by, taken as taken_by};

use crate::operand::all_chars_in;
use std::alloc::{AllocError, Global};
use std::str;

/// An item of a test: its first mark, and what follows the mark in it.
#[derive(Clone, Copy)]
pub(crate) struct Item<'a> {
    pub mark: u8,
    pub text: &'a [u8],
}

/// Whether a `!` before this mark is one before the next item.
fn keeps_not(mark: u8) -> bool
    ensures { result ≡ keeps_not_by mark }
{
    matches!(mark, b'!' | b'[' | b']' | b'`' | b'~' | b'/')
}

/// Whether a mark is none of the dots of cells.
fn ends_dots(mark: u8) -> bool
    ensures { result ≡ ends_dots_by mark }
{
    !matches!(mark, b'0'..=b'9' | b'a'..=b'f' | b'A'..=b'F' | b'-')
}

/// Whether a mark is a letter.
pub(crate) fn is_letter(mark: u8) -> bool
    ensures { result ≡ is_letter_by mark }
{
    matches!(mark, b'A'..=b'Z' | b'a'..=b'z')
}

/// Whether a mark is none of the name of a class and its counts.
fn ends_name(mark: u8) -> bool
    ensures { result ≡ ends_name_by mark }
{
    !(is_letter(mark) || matches!(mark, b'0'..=b'9' | b'.'))
}

/// How many marks a string has with the quotation mark that ends it; 0 for one without an end.
fn string_length(marks: &[u8]) -> usize
    ensures { result ≡ string_length_by 0 false marks.now }
{
    let mut escaped = false;
    for (place, mark) in marks.iter().enumerate() {
        if !escaped && *mark == b'"' {
            return place + 1;
        }
        escaped = !escaped && *mark == b'\\';
    }
    0
}

/// How many marks belong to an item that begins with this one, of those that follow.
fn taken(mark: u8, marks: &[u8]) -> usize
    ensures { result ≡ taken_by mark marks.now }
{
    match mark {
        b'"' => string_length(marks),
        b'@' => dots_length(marks),
        b'$' | b'%' => class_length(marks),
        _ => 0,
    }
}

/// How many marks the dots of cells have.
fn dots_length(marks: &[u8]) -> usize
    ensures { result ≡ unwrap_or (position ends_dots_by marks.now) (length marks.now) }
{
    marks
        .iter()
        .position(|mark| ends_dots(*mark))
        .unwrap_or(marks.len())
}

/// How many marks the name of a class has with its counts.
fn class_length(marks: &[u8]) -> usize
    ensures { result ≡ unwrap_or (position ends_name_by marks.now) (length marks.now) }
{
    marks
        .iter()
        .position(|mark| ends_name(*mark))
        .unwrap_or(marks.len())
}

/// How many marks the name of a class has without its counts.
pub(crate) fn name_length(marks: &[u8]) -> usize
    ensures { result ≡ name_length_by marks.now }
{
    marks
        .iter()
        .position(|mark| !is_letter(*mark))
        .unwrap_or(marks.len())
}

/// The first of some marks; all of them where there are fewer.
pub(crate) fn first_of(marks: &[u8], count: usize) -> &[u8]
    ensures { result.now ≡ take count marks.now }
{
    marks.get(..count).unwrap_or(marks)
}

/// The marks after the first ones.
fn after_first(marks: &[u8], count: usize) -> &[u8]
    ensures { result.now ≡ drop count marks.now }
{
    marks.get(count..).unwrap_or_default()
}

/// The items of a test that no `!` takes away.
pub(crate) fn items_of(alloc: Global, test: &str) -> Result<Vec<Item<'_>>, AllocError>
    ensures { IfOk result (λ items. map item_view items.items ≡ items_by test.now) }
{
    let mut items = Vec::new(alloc);
    let mut rest = test.as_bytes();
    let mut negated = false;
    while let Some((mark, marks)) = rest.split_first() {
        if keeps_not(*mark) {
            negated = negated || *mark == b'!';
            rest = marks;
            continue;
        }
        let count = taken(*mark, marks);
        if !negated {
            items.push(Item {
                mark: *mark,
                text: first_of(marks, count),
            })?;
        }
        negated = false;
        rest = after_first(marks, count);
    }
    Ok(items)
}

/// The characters that bytes spell, where all of them must be in a text.
pub(crate) fn chars_of_bytes(alloc: Global, bytes: &[u8]) -> Result<Option<Vec<char>>, AllocError>
    ensures { IfOk result (λ found. option_map (λ chars. chars.items) found ≡ chars_by_bytes bytes.now) }
{
    match str::from_utf8(bytes) {
        Ok(text) => all_chars_in(alloc, text),
        Err(_) => Ok(None),
    }
}

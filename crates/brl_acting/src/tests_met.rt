//! Whether the tests of `context`, `correct` and `pass2` to `pass4` lines can be met.
ghost use Rattle.std.specs.Prelude.{◌≡◌, IfOk, map, option_map};
ghost use Rattle.std.specs.List.{list_all, list_any};
ghost use Rattle.brl_acting.specs.Readings.{known_view};
ghost use Rattle.brl_acting.specs.Tests.{are_dots_met as are_dots_by, are_classes_met as are_classes_by, class_of_letter as class_by_letter, is_class_met as is_class_by, is_letter_met as is_letter_by, is_name_met as is_name_by, is_open as is_open_by, is_pass_item_met as is_pass_item_by, is_row_met as is_row_by, is_string_met as is_string_by, is_test_met, is_text_item_met as is_text_item_by, is_virtual as is_virtual_by, item_view, may_be_missing as may_be_missing_by};

use crate::items::{Item, chars_of_bytes, first_of, items_of, name_length};
use crate::known::Known;
use brl_cells::{Cell, read_dots};
use brl_failure::Failure;
use std::alloc::{AllocError, Global};
use std::str;

/// The most cells that a row of a test spells.
const MOST_CELLS: usize = 1024;

/// Whether a class has a member for which characters of the alphabet stand, or isn't known.
pub(crate) fn is_class_met(known: &Known<'_>, name: &[u8]) -> bool
    ensures { result ≡ is_class_by (known_view known.now) name.now }
{
    !known.classes.names.has(name) || known.classes.met.has(name)
}

/// The name of the class with this letter; the empty one for all classes of one's own.
fn class_of_letter(letter: u8) -> Option<&'static str>
    ensures { option_map (λ name. name.now) result ≡ class_by_letter letter }
{
    match letter {
        b'd' => Some("digit"),
        b'D' => Some("litdigit"),
        b'l' => Some("letter"),
        b'm' => Some("math"),
        b'p' => Some("punctuation"),
        b'S' => Some("sign"),
        b's' => Some("space"),
        b'U' => Some("uppercase"),
        b'u' => Some("lowercase"),
        b'w' | b'x' | b'y' | b'z' => Some(""),
        _ => None,
    }
}

/// Whether the class with this letter has such a member, or isn't known.
fn is_letter_met(known: &Known<'_>, letter: u8) -> bool
    ensures { result ≡ is_letter_by (known_view known.now) letter }
{
    match class_of_letter(letter) {
        Some(name) => is_class_met(known, name.as_bytes()),
        None => true,
    }
}

/// Whether the first count after the name of a class is 0.
fn may_be_missing(text: &[u8]) -> bool
    ensures { result ≡ may_be_missing_by text.now }
{
    text.get(name_length(text)) == Some(&b'0')
}

/// Whether one of the classes with these letters is met.
fn are_classes_met(known: &Known<'_>, text: &[u8]) -> bool
    ensures { result ≡ are_classes_by (known_view known.now) text.now }
{
    let letters = first_of(text, name_length(text));
    may_be_missing(text) || letters.iter().any(|letter| is_letter_met(known, *letter))
}

/// Whether the class with this name is met.
fn is_name_met(known: &Known<'_>, text: &[u8]) -> bool
    ensures { result ≡ is_name_by (known_view known.now) text.now }
{
    let name = first_of(text, name_length(text));
    may_be_missing(text) || is_class_met(known, name)
}

/// Whether each character of a string is in the alphabet.
fn is_string_met(alloc: Global, known: &Known<'_>, text: &[u8]) -> Result<bool, AllocError>
    ensures { IfOk result (λ is. is ≡ is_string_by (known_view known.now) text.now) }
{
    let inner = first_of(text, text.len().saturating_sub(1));
    match chars_of_bytes(alloc, inner)? {
        Some(chars) => Ok(known.reach.alphabet.has_all(chars.as_slice())),
        None => Ok(true),
    }
}

/// Whether a mark is that of a virtual dot.
fn is_virtual(mark: u8) -> bool
    ensures { result ≡ is_virtual_by mark }
{
    matches!(mark, b'9' | b'a'..=b'f' | b'A'..=b'F')
}

/// Whether the cells of a row are among those of the alphabet, or can't be known.
fn are_dots_met(alloc: Global, known: &Known<'_>, text: &[u8]) -> Result<bool, AllocError>
    ensures { IfOk result (λ are. are ≡ are_dots_by (known_view known.now) text.now) }
{
    let Ok(word) = str::from_utf8(text) else {
        return Ok(true);
    };
    match read_dots(alloc, word, MOST_CELLS) {
        Ok(cells) => Ok(cells.as_slice().iter().all(|cell| has_cell(known, *cell))),
        Err(Failure::Fault(_)) => Ok(true),
        Err(Failure::Memory) => Err(AllocError),
    }
}

/// Whether a cell is one of the alphabet's.
fn has_cell(known: &Known<'_>, cell: Cell) -> bool
    ensures { result ≡ (known_view known.now).read.cells cell }
{
    known.read.cells.has(char::from(cell.0))
}

/// Whether the cells of a row are among those of the alphabet.
fn is_row_met(alloc: Global, known: &Known<'_>, text: &[u8]) -> Result<bool, AllocError>
    ensures { IfOk result (λ is. is ≡ is_row_by (known_view known.now) text.now) }
{
    if text.iter().any(|mark| is_virtual(*mark)) {
        return Ok(false);
    }
    are_dots_met(alloc, known, text)
}

/// Whether an item of a `context` or a `correct` line is met.
fn is_text_item_met(alloc: Global, known: &Known<'_>, item: Item<'_>) -> Result<bool, AllocError>
    ensures { IfOk result (λ is. is ≡ is_text_item_by (known_view known.now) (item_view item.entry)) }
{
    match item.mark {
        b'"' => is_string_met(alloc, known, item.text),
        b'$' => Ok(are_classes_met(known, item.text)),
        b'%' => Ok(is_name_met(known, item.text)),
        _ => Ok(true),
    }
}

/// Whether an item of a `pass2`, `pass3` or `pass4` line is met.
fn is_pass_item_met(alloc: Global, known: &Known<'_>, item: Item<'_>) -> Result<bool, AllocError>
    ensures { IfOk result (λ is. is ≡ is_pass_item_by (known_view known.now) (item_view item.entry)) }
{
    match item.mark {
        b'@' => is_row_met(alloc, known, item.text),
        _ => Ok(true),
    }
}

/// Whether an item is a string without an end.
fn is_open(item: Item<'_>) -> bool
    ensures { result ≡ is_open_by (item_view item.entry) }
{
    item.mark == b'"' && item.text.is_empty()
}

/// Whether one of items is a string without an end.
fn are_open(items: &[Item<'_>]) -> bool
    ensures { result ≡ list_any is_open_by (map item_view items.now) }
{
    items.iter().any(|item| is_open(*item))
}

/// Whether the test of a `context` or a `correct` line can be met.
pub(crate) fn is_text_met(alloc: Global, known: &Known<'_>, test: &str) -> Result<bool, AllocError>
    ensures { IfOk result (λ is. is ≡ is_test_met (is_text_item_by (known_view known.now)) test.now) }
{
    let items = items_of(alloc, test)?;
    Ok(are_open(items.as_slice()) || are_text_items_met(alloc, known, items.as_slice())?)
}

/// Whether items of such a line are met.
fn are_text_items_met(
    alloc: Global,
    known: &Known<'_>,
    items: &[Item<'_>],
) -> Result<bool, AllocError>
    ensures { IfOk result (λ are. are ≡ list_all (is_text_item_by (known_view known.now)) (map item_view items.now)) }
{
    for item in items {
        if !is_text_item_met(alloc, known, *item)? {
            return Ok(false);
        }
    }
    Ok(true)
}

/// Whether the test of a `pass2`, `pass3` or `pass4` line can be met.
pub(crate) fn is_pass_met(alloc: Global, known: &Known<'_>, test: &str) -> Result<bool, AllocError>
    ensures { IfOk result (λ is. is ≡ is_test_met (is_pass_item_by (known_view known.now)) test.now) }
{
    let items = items_of(alloc, test)?;
    Ok(are_open(items.as_slice()) || are_pass_items_met(alloc, known, items.as_slice())?)
}

/// Whether items of such a line are met.
fn are_pass_items_met(
    alloc: Global,
    known: &Known<'_>,
    items: &[Item<'_>],
) -> Result<bool, AllocError>
    ensures { IfOk result (λ are. are ≡ list_all (is_pass_item_by (known_view known.now)) (map item_view items.now)) }
{
    for item in items {
        if !is_pass_item_met(alloc, known, *item)? {
            return Ok(false);
        }
    }
    Ok(true)
}

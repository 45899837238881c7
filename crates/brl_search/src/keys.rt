//! Keys of cells: numbers by which two lists of cells are compared at once.
ghost use Rattle.std.specs.Prelude.{◌≡◌, ◌≤◌, IfOk, IsTrue, length};
ghost use Rattle.std.specs.List.{remove};
ghost use Rattle.brl_rules.specs.Text.{is_text};
ghost use Rattle.brl_rules.specs.Translation.{translation};
ghost use Rattle.brl_search.specs.Smaller.{AreKeysOf, key_of, mixed};

use crate::texts::{cells_of, without};
use brl_cells::Cell;
use brl_rules::Table;
use std::alloc::{AllocError, Global};

/// The keys of two texts, as `keys_of` gives them.
#[derive(Drop)]
pub struct Keys {
    pub left: Vec<u64>,
    pub right: Vec<u64>,
}

/// The keys of the translations of a text without each one of its characters in turn, and then of
/// the whole text.
pub fn keys_of(alloc: Global, table: &Table, text: &[char]) -> Result<Vec<u64>, AllocError>
    requires { IsTrue (is_text table.now text.now) }
    ensures { IfOk result (λ keys. AreKeysOf table.now text.now keys.items) }
{
    let mut keys = Vec::new(alloc);
    for place in 0..text.len() {
        keys.push(key_without(alloc, table, text, place)?)?;
    }
    keys.push(key_without(alloc, table, text, text.len())?)?;
    Ok(keys)
}

/// The key of the translation of a text without the character at a place.
fn key_without(alloc: Global, table: &Table, text: &[char], place: usize) -> Result<u64, AllocError>
    requires text { IsTrue (is_text table.now text.now) }
    requires place { place ≤ length text.now }
    ensures { IfOk result (λ key. key ≡ key_of (translation table.now (remove text.now place))) }
{
    let rest = without(alloc, text, place..place + 1)?;
    let cells = cells_of(alloc, table, rest.as_slice())?;
    Ok(key_of(cells.as_slice()))
}

/// The key of these cells.
fn key_of(cells: &[Cell]) -> u64
    ensures { result ≡ key_of cells.now }
{
    let mut key = 0;
    for cell in cells {
        key = mixed(key, cell.0);
    }
    key
}

/// A key after one more cell.
fn mixed(key: u64, cell: u8) -> u64
    ensures { result ≡ mixed key cell }
{
    key.wrapping_mul(31).wrapping_add(u64::from(cell) + 1)
}

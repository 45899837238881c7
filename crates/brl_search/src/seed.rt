//! The seed of a table's search.
use brl_cells::Cell;
use brl_pairs::Seed;
use brl_rules::{Info, Rule, Sign, Table};
use std::alloc::{AllocError, Global};

/// The seed by which the search of a table hashes states and pairs. It is drawn from all that the
/// table's machine depends on, so that nobody can make a table whose states have one hash: the
/// characters with their classes, modes, folds and cells, the rules with their characters, cells
/// and places, and the cells of the indicators.
pub fn seed_of(alloc: Global, table: &Table) -> Result<Seed, AllocError> {
    let mut bytes = Vec::new(alloc);
    for number in 0..table.char_count() {
        let character = table.char_at(number as u32);
        if let Some(info) = table.info(character) {
            push_character(&mut bytes, character, info)?;
        }
    }
    for rule in table.rules_in_rank() {
        push_rule(&mut bytes, rule)?;
    }
    for sign in Sign::ALL {
        push_cells(&mut bytes, table.indicator(sign))?;
    }
    Ok(Seed::of(bytes.as_slice()))
}

/// Adds a character and its info.
fn push_character(bytes: &mut Vec<u8>, character: char, info: &Info) -> Result<(), AllocError> {
    push_chars(bytes, &[character, info.fold])?;
    push_cells(bytes, info.cells.as_slice())?;
    bytes.extend_from_slice(&[
        info.classes.0,
        info.literary as u8,
        info.mode as u8,
        info.nocont as u8,
    ])
}

/// Adds a rule.
fn push_rule(bytes: &mut Vec<u8>, rule: &Rule) -> Result<(), AllocError> {
    push_chars(bytes, rule.chars.as_slice())?;
    push_cells(bytes, rule.cells.as_slice())?;
    bytes.push(rule.place as u8)?;
    Ok(())
}

/// Adds the number of characters, and these.
fn push_chars(bytes: &mut Vec<u8>, chars: &[char]) -> Result<(), AllocError> {
    bytes.extend_from_slice(&chars.len().to_le_bytes())?;
    for character in chars {
        bytes.extend_from_slice(&(*character as u32).to_le_bytes())?;
    }
    Ok(())
}

/// Adds the number of cells, and these.
fn push_cells(bytes: &mut Vec<u8>, cells: &[Cell]) -> Result<(), AllocError> {
    bytes.extend_from_slice(&cells.len().to_le_bytes())?;
    for cell in cells {
        bytes.push(cell.0)?;
    }
    Ok(())
}

//! The characters that lines have and the table doesn't define.
ghost use Rattle.std.specs.Prelude.{◌≡◌, ◌+◌, ◌^◌, ◌<◌, ◌++◌, ◌∷◌, [], IfOk, List, OnOk, length};
ghost use Rattle.brl_stream.specs.Lacking.{summary, uses_in, Use};
ghost use Rattle.brl_stream.specs.Noting.{IsNoted};

use brl_rules::Table;
use std::alloc::{AllocError, Global};
use std::collections::BTreeMap;

/// A character that lines have and the table doesn't define: how often they have it, and the number
/// of the first line that has it, from 1.
#[derive(Clone, Copy, PartialEq, Eq, Debug)]
pub struct Lacking {
    pub character: char,
    pub count: u64,
    pub line: u64,
}

/// How often a character was found, and the number of the first line that has it, from 1.
#[derive(Clone, Copy)]
pub struct Uses {
    count: u64,
    line: u64,
}

/// The characters that were found. They are looked up by their order, and not by a hash: who
/// chooses the input could choose characters that meet in a table of hashes, of whatever seed.
#[derive(Drop)]
pub struct Noted {
    /// Each once, in the order of their first uses.
    order: Vec<char>,
    found: BTreeMap<char, Uses>,
}

impl Noted {
    /// Nothing was noted yet. It takes no memory yet.
    pub fn new(alloc: Global) -> Noted
        ensures { IsNoted [] result }
    {
        Noted {
            order: Vec::new(alloc),
            found: BTreeMap::new(alloc),
        }
    }
}

/// Notes the characters of a line that the table doesn't define.
pub fn note(table: &Table, text: &[char], number: u64, noted: &mut Noted) -> Result<(), AllocError>
    requires { (uses : List Use) × IsNoted uses noted.old × (length uses + length text.now < 2 ^ 64) }
    ensures { OnOk result ((uses : List Use) → IsNoted uses noted.old → IsNoted (uses ++ uses_in table.now number text.now) noted.new) }
{
    for character in text {
        if table.info(*character).is_none() {
            note_use(*character, number, noted)?;
        }
    }
    Ok(())
}

/// Notes a use of a character in the line with this number.
fn note_use(character: char, number: u64, noted: &mut Noted) -> Result<(), AllocError>
    requires { (uses : List Use) × IsNoted uses noted.old × (length uses + 1 < 2 ^ 64) }
    ensures { OnOk result ((uses : List Use) → IsNoted uses noted.old → IsNoted (uses ++ (character, number) ∷ []) noted.new) }
{
    let found = match noted.found.get(&character) {
        Some(found) => Uses {
            count: found.count + 1,
            line: found.line,
        },
        None => {
            noted.order.push(character)?;
            Uses {
                count: 1,
                line: number,
            }
        }
    };
    noted.found.insert(character, found)?;
    Ok(())
}

/// The characters that were noted.
pub fn list_noted(alloc: Global, noted: &Noted) -> Result<Vec<Lacking>, AllocError>
    ensures { IfOk result (λ list. (uses : List Use) → IsNoted uses noted.now → list.items ≡ summary uses) }
{
    let order = noted.order.as_slice();
    let mut list = Vec::with_capacity(alloc, order.len())?;
    for character in order {
        match noted.found.get(character) {
            Some(found) => list.push(Lacking {
                character: *character,
                count: found.count,
                line: found.line,
            })?,
            None => {}
        }
    }
    Ok(list)
}

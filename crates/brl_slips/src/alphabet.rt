//! The characters of a table, as slips see them.
ghost use Rattle.std.specs.Prelude.{◌≡◌, IfOk, OnOk, flat_map, map, nat_eq};
ghost use Rattle.std.specs.List.{list_all};
ghost use Rattle.indexmap.specs.IndexMap.{insert_all};
ghost use Rattle.brl_lines.specs.Views.{line_view};
ghost use Rattle.brl_slips.specs.Letters.{is_letter};
ghost use Rattle.brl_slips.specs.Lines.{IsAlphabet, defines, fold_of, one_character as character_spelled, small_letter, small_letters as letters_of_capitals};
ghost use Rattle.brl_slips.specs.Twins.{own_cells};

use crate::words::{capital_words, words_of};
use bitflags::Flags;
use brl_cells::Cell;
use brl_failure::Failure;
use brl_lines::{Line, chars_of};
use brl_rules::{Class, Info};
use brl_table::good_characters;
use indexmap::IndexMap;
use std::alloc::{AllocError, Global};

/// The characters that lines define, and the small letters of capitals that `base uppercase` lines
/// give.
#[derive(Drop)]
pub struct Characters {
    pub(crate) infos: IndexMap<char, Info>,
    pub(crate) small: IndexMap<char, char>,
}

impl Characters {
    /// The characters of these lines.
    pub(crate) fn of_lines(alloc: Global, lines: &[Line<'_>]) -> Result<Characters, AllocError>
        ensures { IfOk result (IsAlphabet (map line_view lines.now)) }
    {
        let infos = good_characters(alloc, lines)?;
        let small = small_letters(alloc, lines)?;
        Ok(Characters { infos, small })
    }

    /// The small letter of a capital, and another character itself.
    pub(crate) fn fold(&self, character: char) -> char
        ensures { result ≡ fold_of self.now character }
    {
        match self.infos.get(&character) {
            Some(info) if info.fold != character => info.fold,
            _ => self.small.get(&character).copied().unwrap_or(character),
        }
    }

    /// Whether a line of the table makes a character a letter.
    pub(crate) fn is_letter(&self, character: char) -> bool
        ensures { result ≡ is_letter self.now character }
    {
        match self.infos.get(&character) {
            Some(info) => info.classes.intersects(Class::LETTER),
            None => false,
        }
    }

    /// Whether all these characters are letters.
    pub(crate) fn are_letters(&self, characters: &[char]) -> bool
        ensures { result ≡ list_all (is_letter self.now) characters.now }
    {
        characters
            .iter()
            .all(|character| self.is_letter(*character))
    }

    /// Whether all these characters are defined.
    pub(crate) fn defines_all(&self, characters: &[char]) -> bool
        ensures { result ≡ list_all (defines self.now) characters.now }
    {
        characters
            .iter()
            .all(|character| self.infos.contains_key(character))
    }

    /// The cells of a character's own definition: none where it has none.
    pub(crate) fn cells(&self, character: char) -> &[Cell]
        ensures { result.now ≡ own_cells self.now character }
    {
        match self.infos.get(&character) {
            Some(info) => info.cells.as_slice(),
            None => &[],
        }
    }
}

/// The one character that a word spells.
fn one_character(alloc: Global, word: &str) -> Result<Option<char>, AllocError>
    ensures { IfOk result (λ found. found ≡ character_spelled word.now) }
{
    match chars_of(alloc, word) {
        Ok(characters) => match characters.as_slice() {
            [character] => Ok(Some(*character)),
            _ => Ok(None),
        },
        Err(Failure::Fault(_)) => Ok(None),
        Err(Failure::Memory) => Err(AllocError),
    }
}

/// The small letters that lines give capitals, the last line of each.
fn small_letters(alloc: Global, lines: &[Line<'_>]) -> Result<IndexMap<char, char>, AllocError>
    ensures { IfOk result (λ small. small.entries ≡ letters_of_capitals (map line_view lines.now)) }
{
    let mut small = IndexMap::new(alloc);
    for line in lines {
        insert_small(alloc, &mut small, line)?;
    }
    Ok(small)
}

/// Adds the small letter that a line gives a capital, if it does.
fn insert_small(
    alloc: Global,
    small: &mut IndexMap<char, char>,
    line: &Line<'_>,
) -> Result<(), AllocError>
    ensures { OnOk result (small.new.entries ≡ insert_all nat_eq small.old.entries (small_letter (line_view line.now))) }
{
    if line.opcode.text != "base" {
        return Ok(());
    }
    let words = words_of(alloc, line)?;
    let Some((upper, lower)) = capital_words(words.as_slice()) else {
        return Ok(());
    };
    let upper = one_character(alloc, upper)?;
    let lower = one_character(alloc, lower)?;
    if let (Some(upper), Some(lower)) = (upper, lower) {
        small.insert(upper, lower)?;
    }
    Ok(())
}

//! Lines that begin with `contraction`: each is read as the `word` line of its characters, with the
//! cells of two indicators before theirs.
ghost use Rattle.std.specs.Prelude.{◌≡◌, [], ◌∷◌, ◌++◌, IfOk, OnOk, codes, flat_map, map, option_map};
ghost use Rattle.std.specs.List.{list_all};
ghost use Rattle.brl_lines.specs.Views.{line_view, token_view};
ghost use Rattle.brl_cut.specs.Contractions.{cells_before, contraction_cells as contraction_cells_by, contraction_edit, edit_of_operands, edit_to_rule, is_small as is_small_by, may_be_rule as may_be_rule_by};
ghost use Rattle.brl_cut.specs.Files.{edit_view};
ghost use Rattle.brl_cut.specs.Signs.{sign_view};
ghost use Rattle.brl_table.specs.Survey.{good_characters as good_characters_by};

use crate::files::Edit;
use crate::putting::push_words;
use crate::signs::{Sign, sign_cells};
use brl_cells::{Cell, write_dots};
use brl_failure::Failure;
use brl_lines::{Line, Token, chars_of};
use brl_rules::{Class, Cond, Info, holds};
use brl_table::good_characters;
use indexmap::IndexMap;
use std::alloc::{AllocError, Global};

/// The most cells of a rule.
const MOST_CELLS: usize = 16;

/// What lines give contractions.
#[derive(Drop)]
pub(crate) struct Given {
    pub characters: IndexMap<char, Info>,
    /// The cells before those of the characters.
    pub signs: Vec<Cell>,
}

impl Given {
    /// The characters that lines define, and the cells of their indicators, where this sign is that
    /// before a letter.
    pub fn of_lines(
        alloc: Global,
        lines: &[Line<'_>],
        letsign: &Option<Sign<'_>>,
    ) -> Result<Given, AllocError>
        ensures characters { IfOk result (λ given. given.characters.entries ≡ good_characters_by (map line_view lines.now)) }
        ensures signs { IfOk result (λ given. given.signs.items ≡ cells_before (map line_view lines.now) (option_map sign_view letsign.now)) }
    {
        Ok(Given {
            characters: good_characters(alloc, lines)?,
            signs: sign_cells(alloc, lines, letsign)?,
        })
    }
}

/// Whether a character is one of these, and no capital.
fn is_small(characters: &IndexMap<char, Info>, character: char) -> bool
    ensures { result ≡ is_small_by characters.now.entries character }
{
    match characters.get(&character) {
        Some(info) => holds(Cond::Avoids(Class::UPPERCASE), info.classes),
        None => false,
    }
}

/// Whether each of some characters is one of these, and no capital.
fn are_small(characters: &IndexMap<char, Info>, chars: &[char]) -> bool
    ensures { result ≡ list_all (is_small_by characters.now.entries) chars.now }
{
    chars
        .iter()
        .all(|character| is_small(characters, *character))
}

/// The cells of a contraction: these, and those of its characters.
pub(crate) fn contraction_cells(
    alloc: Global,
    characters: &IndexMap<char, Info>,
    signs: &[Cell],
    chars: &[char],
) -> Result<Vec<Cell>, AllocError>
    ensures { IfOk result (λ cells. cells.items ≡ contraction_cells_by characters.now.entries signs.now chars.now) }
{
    let mut cells = Vec::from_slice(alloc, signs)?;
    for character in chars {
        if let Some(info) = characters.get(character) {
            cells.extend_from_slice(info.cells.as_slice())?;
        }
    }
    Ok(cells)
}

/// Whether there may be a rule of these characters, each of which is small, with these cells.
fn may_be_rule(characters: &IndexMap<char, Info>, chars: &[char], cells: &[Cell]) -> bool
    ensures { result ≡ may_be_rule_by characters.now.entries chars.now cells.now }
{
    are_small(characters, chars) && cells.len() <= MOST_CELLS
}

/// Adds the edit of a contraction of these characters, as a word spells them.
fn push_chars(
    alloc: Global,
    edits: &mut Vec<Edit>,
    given: &Given,
    line: &Line<'_>,
    word: &str,
    chars: &[char],
) -> Result<(), AllocError>
    ensures { OnOk result (map edit_view edits.new.items ≡ map edit_view edits.old.items
        ++ edit_to_rule given.now.characters.entries (line_view line.now) word.now chars.now (contraction_cells_by given.now.characters.entries given.now.signs.items chars.now)) }
{
    let characters = &given.characters;
    let cells = contraction_cells(alloc, characters, given.signs.as_slice(), chars)?;
    if may_be_rule(characters, chars, cells.as_slice()) {
        let dots = write_dots(alloc, cells.as_slice())?;
        push_words(alloc, edits, line, "word", word, dots.as_str())?;
    }
    Ok(())
}

/// Adds the edit of a line that begins with `contraction` and has these operands.
fn push_operands(
    alloc: Global,
    edits: &mut Vec<Edit>,
    given: &Given,
    line: &Line<'_>,
    operands: &[Token<'_>],
) -> Result<(), AllocError>
    ensures { OnOk result (map edit_view edits.new.items ≡ map edit_view edits.old.items
        ++ edit_of_operands given.now.characters.entries given.now.signs.items (line_view line.now) (map token_view operands.now)) }
{
    let [first, ..] = operands else {
        return Ok(());
    };
    match chars_of(alloc, first.text) {
        Ok(chars) => push_chars(alloc, edits, given, line, first.text, chars.as_slice()),
        Err(Failure::Fault(_)) => Ok(()),
        Err(Failure::Memory) => Err(AllocError),
    }
}

/// Adds the edit of a line that begins with `contraction`.
fn push_contraction(
    alloc: Global,
    edits: &mut Vec<Edit>,
    given: &Given,
    line: &Line<'_>,
) -> Result<(), AllocError>
    ensures { OnOk result (map edit_view edits.new.items ≡ map edit_view edits.old.items ++ contraction_edit given.now.characters.entries given.now.signs.items (line_view line.now)) }
{
    if line.opcode.text == "contraction" {
        push_operands(alloc, edits, given, line, line.operands.as_slice())?;
    }
    Ok(())
}

/// The edits of lines that begin with `contraction`.
pub(crate) fn contraction_edits(
    alloc: Global,
    given: &Given,
    lines: &[Line<'_>],
) -> Result<Vec<Edit>, AllocError>
    ensures { IfOk result (λ edits. map edit_view edits.items ≡ flat_map (contraction_edit given.now.characters.entries given.now.signs.items) (map line_view lines.now)) }
{
    let mut edits = Vec::new(alloc);
    for line in lines {
        push_contraction(alloc, &mut edits, given, line)?;
    }
    Ok(edits)
}

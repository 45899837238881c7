//! Lines that begin with `letsign`: a file is made that the last one includes, with a `word` line
//! for each letter that may stand alone; and rules that begin with such a letter get the sign.
ghost use Rattle.std.specs.Prelude.{◌≡◌, ◌∷◌, ◌++◌, [], IfOk, OnOk, codes, flat_map, map, option_map, slice_get, string_bytes};
ghost use Rattle.std.specs.Option.{option_map_or};
ghost use Rattle.brl_acting.specs.Sets.{is_one_of};
ghost use Rattle.brl_lines.specs.Escapes.{characters_of};
ghost use Rattle.brl_lines.specs.Views.{line_view, token_view};
ghost use Rattle.brl_acting.specs.Letters.{letters_view};
ghost use Rattle.brl_cut.specs.Contractions.{contraction_cells as cells_of_contraction};
ghost use Rattle.brl_cut.specs.Files.{edit_view};
ghost use Rattle.brl_cut.specs.LetsignViews.{alone_view, known_view, rule_view};
ghost use Rattle.brl_cut.specs.Letsigns.{all_alone as all_alone_by, alone_by_chars, alone_by_contraction, alone_by_rule, alone_in as alone_in_by, alone_of, begins_alone as begins_alone_by, cells_alone as cells_alone_by, cells_by_word, chars_if as chars_if_by, edit_of_operands, edit_of_rule, edit_to_sign, is_for_letters as is_for_letters_by, made_line as made_line_of, made_line_if, made_text as made_text_by, may_begin_alone as may_begin_alone_by, rule_of as rule_by, sign_edit, sign_edits as sign_edits_by};

use crate::contraction::{Given, contraction_cells};
use crate::files::Edit;
use crate::putting::push_words;
use brl_acting::Letters;
use brl_cells::{Cell, read_dots, write_dots};
use brl_failure::Failure;
use brl_lines::{Line, Token, chars_of, spell_chars};
use brl_rules::Info;
use indexmap::IndexMap;
use std::alloc::{AllocError, Global};

/// The most cells of a rule.
const MOST_CELLS: usize = 16;

/// What is known of the lines of a table with a letter sign.
#[derive(Clone, Copy)]
pub(crate) struct Known<'k> {
    pub given: &'k Given,
    pub letters: &'k Letters,
    /// The cells before a letter that is alone.
    pub sign: &'k [Cell],
}

/// The characters and the cells of a rule.
#[derive(Drop)]
pub(crate) struct Rule {
    pub chars: Vec<char>,
    pub cells: Vec<Cell>,
}

/// A letter that is alone, and the cells for it.
#[derive(Drop)]
pub(crate) struct Alone {
    pub character: char,
    pub cells: Vec<Cell>,
}

/// The cells that a word gives characters, where it has no fault; `=` gives them their own.
fn cells_of_word(
    alloc: Global,
    characters: &IndexMap<char, Info>,
    chars: &[char],
    word: &str,
) -> Result<Option<Vec<Cell>>, AllocError>
    ensures { IfOk result (λ found. option_map (λ cells. cells.items) found ≡ cells_by_word characters.now.entries chars.now word.now) }
{
    if word == "=" {
        return Ok(Some(contraction_cells(alloc, characters, &[], chars)?));
    }
    match read_dots(alloc, word, MOST_CELLS) {
        Ok(cells) => Ok(Some(Vec::from_slice(alloc, cells.as_slice())?)),
        Err(Failure::Fault(_)) => Ok(None),
        Err(Failure::Memory) => Err(AllocError),
    }
}

/// The characters that a word spells, where it has no fault.
fn chars_if(alloc: Global, word: &str) -> Result<Option<Vec<char>>, AllocError>
    ensures { IfOk result (λ found. option_map (λ chars. chars.items) found ≡ chars_if_by (characters_of word.now)) }
{
    match chars_of(alloc, word) {
        Ok(chars) => Ok(Some(chars)),
        Err(Failure::Fault(_)) => Ok(None),
        Err(Failure::Memory) => Err(AllocError),
    }
}

/// The rule that words spell: its characters, and its cells.
fn rule_of(
    alloc: Global,
    characters: &IndexMap<char, Info>,
    operands: &[Token<'_>],
) -> Result<Option<Rule>, AllocError>
    ensures { IfOk result (λ found. option_map rule_view found ≡ rule_by characters.now.entries (map token_view operands.now)) }
{
    let [first, dots, ..] = operands else {
        return Ok(None);
    };
    let Some(chars) = chars_if(alloc, first.text)? else {
        return Ok(None);
    };
    match cells_of_word(alloc, characters, chars.as_slice(), dots.text)? {
        Some(cells) => Ok(Some(Rule { chars, cells })),
        None => Ok(None),
    }
}

/// Cells after those of the sign.
fn after_sign(alloc: Global, sign: &[Cell], cells: &[Cell]) -> Result<Vec<Cell>, AllocError>
    ensures { IfOk result (λ all. all.items ≡ sign.now ++ cells.now) }
{
    let mut all = Vec::from_slice(alloc, sign)?;
    all.extend_from_slice(cells)?;
    Ok(all)
}

/// Adds a letter that is alone with these cells, where it is the only one of these characters.
fn push_alone(alone: &mut Vec<Alone>, chars: &[char], cells: Vec<Cell>) -> Result<(), AllocError>
    ensures { OnOk result (map alone_view alone.new.items ≡ map alone_view alone.old.items ++ alone_of chars.now cells.items) }
{
    if let [character] = chars {
        alone.push(Alone {
            character: *character,
            cells,
        })?;
    }
    Ok(())
}

/// Adds the letter that is alone with the cells of a rule after the sign.
fn push_by_rule(
    alloc: Global,
    alone: &mut Vec<Alone>,
    sign: &[Cell],
    rule: &Option<Rule>,
) -> Result<(), AllocError>
    ensures { OnOk result (map alone_view alone.new.items ≡ map alone_view alone.old.items ++ alone_by_rule sign.now (option_map rule_view rule.now)) }
{
    let Some(rule) = rule else {
        return Ok(());
    };
    let cells = after_sign(alloc, sign, rule.cells.as_slice())?;
    push_alone(alone, rule.chars.as_slice(), cells)
}

/// Adds the letter that is alone with the cells of its contraction, which has signs of its own.
fn push_by_contraction(
    alloc: Global,
    alone: &mut Vec<Alone>,
    known: Known<'_>,
    operands: &[Token<'_>],
) -> Result<(), AllocError>
    ensures { OnOk result (map alone_view alone.new.items ≡ map alone_view alone.old.items ++ alone_by_contraction (known_view known.entry) (map token_view operands.now)) }
{
    let [first, ..] = operands else {
        return Ok(());
    };
    let Some(chars) = chars_if(alloc, first.text)? else {
        return Ok(());
    };
    let chars = chars.as_slice();
    let Given { characters, signs } = known.given;
    let cells = contraction_cells(alloc, characters, signs.as_slice(), chars)?;
    push_alone(alone, chars, cells)
}

/// Whether rules of an opcode are used for a letter alone.
fn is_for_letters(opcode: &str) -> bool
    ensures { result ≡ is_for_letters_by opcode.now }
{
    matches!(opcode, "always" | "sufword" | "prfword")
}

/// Adds the letter alone that a line has a rule for, with its cells.
fn push_alone_in(
    alloc: Global,
    alone: &mut Vec<Alone>,
    known: Known<'_>,
    line: &Line<'_>,
) -> Result<(), AllocError>
    ensures { OnOk result (map alone_view alone.new.items ≡ map alone_view alone.old.items ++ alone_in_by (known_view known.entry) (line_view line.now)) }
{
    let operands = line.operands.as_slice();
    if is_for_letters(line.opcode.text) {
        let rule = rule_of(alloc, &known.given.characters, operands)?;
        return push_by_rule(alloc, alone, known.sign, &rule);
    }
    if line.opcode.text == "contraction" {
        return push_by_contraction(alloc, alone, known, operands);
    }
    Ok(())
}

/// The letters alone that lines have rules for, with their cells.
fn all_alone(alloc: Global, known: Known<'_>, lines: &[Line<'_>]) -> Result<Vec<Alone>, AllocError>
    ensures { IfOk result (λ alone. map alone_view alone.items ≡ all_alone_by (known_view known.entry) (map line_view lines.now)) }
{
    let mut alone = Vec::new(alloc);
    for line in lines {
        push_alone_in(alloc, &mut alone, known, line)?;
    }
    Ok(alone)
}

/// The cells of a letter that is alone: by the first rule for it, and else its own after the
/// sign.
fn cells_alone(
    alloc: Global,
    known: Known<'_>,
    alone: &[Alone],
    character: char,
) -> Result<Vec<Cell>, AllocError>
    ensures { IfOk result (λ cells. cells.items ≡ cells_alone_by (known_view known.entry) (map alone_view alone.now) character) }
{
    for entry in alone {
        if entry.character == character {
            return Vec::from_slice(alloc, entry.cells.as_slice());
        }
    }
    contraction_cells(alloc, &known.given.characters, known.sign, &[character])
}

/// The `word` line of a letter with these cells, and its end.
fn made_line(alloc: Global, cells: &[Cell], character: char) -> Result<String, AllocError>
    ensures { IfOk result (λ line. string_bytes line ≡ made_line_of cells.now character) }
{
    let spelled = spell_chars(alloc, &[character])?;
    let dots = write_dots(alloc, cells)?;
    format!(in alloc; "word {spelled} {dots}\n")
}

/// Adds the `word` line of a character, if it is a letter before which the sign may stand.
fn push_made(
    alloc: Global,
    text: &mut Vec<u8>,
    known: Known<'_>,
    alone: &[Alone],
    character: char,
    info: &Info,
) -> Result<(), AllocError>
    ensures { OnOk result (text.new.items ≡ text.old.items ++ made_line_if (known_view known.entry) (map alone_view alone.now) (character, info.now)) }
{
    if known.letters.takes_sign(character) {
        let cells = cells_alone(alloc, known, alone, character)?;
        let line = made_line(alloc, cells.as_slice(), character)?;
        text.extend_from_slice(line.as_bytes())?;
    }
    Ok(())
}

/// Adds the `word` line of the character at a place, if it is such a letter.
fn push_made_at(
    alloc: Global,
    text: &mut Vec<u8>,
    known: Known<'_>,
    alone: &[Alone],
    place: usize,
) -> Result<(), AllocError>
    ensures { OnOk result (text.new.items ≡ text.old.items ++ option_map_or (made_line_if (known_view known.entry) (map alone_view alone.now)) (slice_get known.entry.given.now.characters.entries place) []) }
{
    match known.given.characters.get_index(place) {
        Some((character, info)) => push_made(alloc, text, known, alone, *character, info),
        None => Ok(()),
    }
}

/// The lines of all letters before which the sign may stand, in the order in which they are
/// defined.
pub(crate) fn made_text(
    alloc: Global,
    known: Known<'_>,
    lines: &[Line<'_>],
) -> Result<Vec<u8>, AllocError>
    ensures { IfOk result (λ text. text.items ≡ made_text_by (known_view known.entry) (map line_view lines.now)) }
{
    let alone = all_alone(alloc, known, lines)?;
    let mut text = Vec::new(alloc);
    for index in 0..known.given.characters.len() {
        push_made_at(alloc, &mut text, known, alone.as_slice(), index)?;
    }
    Ok(text)
}

/// Whether characters begin with a letter before which the sign may stand, and one that is no
/// letter.
fn begins_alone(letters: &Letters, chars: &[char]) -> bool
    ensures { result ≡ begins_alone_by (letters_view letters.now) chars.now }
{
    match chars {
        [first, second, ..] => letters.takes_sign(*first) && !letters.has(*second),
        _ => false,
    }
}

/// Adds the edit of a line with a rule: the same rule with these cells.
fn push_sign(
    alloc: Global,
    edits: &mut Vec<Edit>,
    line: &Line<'_>,
    word: &str,
    cells: &[Cell],
) -> Result<(), AllocError>
    ensures { OnOk result (map edit_view edits.new.items ≡ map edit_view edits.old.items ++ edit_to_sign (line_view line.now) word.now cells.now) }
{
    let dots = write_dots(alloc, cells)?;
    push_words(alloc, edits, line, line.opcode.text, word, dots.as_str())
}

/// Adds the edit of a line with this rule, whose first word is this, if it gets the sign.
fn push_rule(
    alloc: Global,
    edits: &mut Vec<Edit>,
    known: Known<'_>,
    line: &Line<'_>,
    word: &str,
    rule: &Option<Rule>,
) -> Result<(), AllocError>
    ensures { OnOk result (map edit_view edits.new.items ≡ map edit_view edits.old.items ++ edit_of_rule (known_view known.entry) (line_view line.now) word.now (option_map rule_view rule.now)) }
{
    let Some(rule) = rule else {
        return Ok(());
    };
    if begins_alone(known.letters, rule.chars.as_slice()) {
        let cells = after_sign(alloc, known.sign, rule.cells.as_slice())?;
        push_sign(alloc, edits, line, word, cells.as_slice())?;
    }
    Ok(())
}

/// Adds the edit of a line with these operands, if its rule gets the sign.
fn push_operands(
    alloc: Global,
    edits: &mut Vec<Edit>,
    known: Known<'_>,
    line: &Line<'_>,
    operands: &[Token<'_>],
) -> Result<(), AllocError>
    ensures { OnOk result (map edit_view edits.new.items ≡ map edit_view edits.old.items ++ edit_of_operands (known_view known.entry) (line_view line.now) (map token_view operands.now)) }
{
    let [first, ..] = operands else {
        return Ok(());
    };
    let rule = rule_of(alloc, &known.given.characters, operands)?;
    push_rule(alloc, edits, known, line, first.text, &rule)
}

/// Whether rules of an opcode begin where a letter may stand alone.
fn may_begin_alone(opcode: &str) -> bool
    ensures { result ≡ may_begin_alone_by opcode.now }
{
    matches!(opcode, "word" | "sufword" | "begword")
}

/// Adds the edit of a line, if it has a rule that gets the sign.
fn push_edit(
    alloc: Global,
    edits: &mut Vec<Edit>,
    known: Known<'_>,
    line: &Line<'_>,
) -> Result<(), AllocError>
    ensures { OnOk result (map edit_view edits.new.items ≡ map edit_view edits.old.items ++ sign_edit (known_view known.entry) (line_view line.now)) }
{
    if may_begin_alone(line.opcode.text) {
        push_operands(alloc, edits, known, line, line.operands.as_slice())?;
    }
    Ok(())
}

/// The edits of lines with rules that get the sign.
pub(crate) fn sign_edits(
    alloc: Global,
    known: Known<'_>,
    lines: &[Line<'_>],
) -> Result<Vec<Edit>, AllocError>
    ensures { IfOk result (λ edits. map edit_view edits.items ≡ sign_edits_by (known_view known.entry) (map line_view lines.now)) }
{
    let mut edits = Vec::new(alloc);
    for line in lines {
        push_edit(alloc, &mut edits, known, line)?;
    }
    Ok(edits)
}

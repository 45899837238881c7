//! The pieces of texts that the lines of a table give, and the rules that may be slips.
ghost use Rattle.std.specs.Prelude.{◌≡◌, ◌++◌, IfOk, None, OnOk, Some, flat_map, if◌then◌else◌, length, map, option_copied, option_to_list};
ghost use Rattle.std.specs.List.{list_all};
ghost use Rattle.std.specs.Option.{option_and_then};
ghost use Rattle.brl_lines.specs.Escapes.{characters_of};
ghost use Rattle.brl_lines.specs.Views.{line_view};
ghost use Rattle.brl_slips.specs.Lines.{IsLexicon, cells_by, defines, fold_of, folded as folded_characters, own_piece, own_pieces as pieces_of_characters, piece_by, piece_of_line, read, rule_of_line, small_piece};
ghost use Rattle.brl_slips.specs.Slips.{piece_of};
ghost use Rattle.brl_slips.specs.Twins.{own_cells as cells_of_own};
ghost use Rattle.brl_slips.specs.Words.{after_prefixes, words_of_piece};

use crate::alphabet::Characters;
use crate::words::{are_of_rule, piece_words, words_of};
use brl_cells::{Cell, Cells, Chars, read_dots};
use brl_failure::Failure;
use brl_lines::{Line, chars_of};
use brl_rules::Info;
use std::alloc::{AllocError, Global};

/// The most characters of a rule.
const MOST_CHARACTERS: usize = 32;

/// The most cells that a dots operand spells.
const MOST_CELLS: usize = 16;

/// A piece of texts: characters that have cells of their own.
#[derive(Debug, Drop)]
pub struct Piece {
    pub chars: Chars,
    pub cells: Cells,
}

/// A rule that is read and used: the place of its line among all lines, and the number of the piece
/// that it gives.
#[derive(Clone, Copy, Debug)]
pub struct Entry {
    pub line: usize,
    pub piece: usize,
}

/// What the lines of a table give. The pieces are those of the characters' own definitions, in the
/// order of these, and then those of lines, in their order. The rules are in the order of the
/// lines.
#[derive(Drop)]
pub struct Lexicon {
    pub alphabet: Characters,
    pub pieces: Vec<Piece>,
    pub entries: Vec<Entry>,
}

/// The characters, pieces and rules that the lines of a table give.
pub fn read_lexicon(alloc: Global, lines: &[Line<'_>]) -> Result<Lexicon, AllocError>
    ensures { IfOk result (IsLexicon (map line_view lines.now)) }
{
    let alphabet = Characters::of_lines(alloc, lines)?;
    let mut pieces = own_pieces(alloc, &alphabet)?;
    let mut entries = Vec::new(alloc);
    for (place, line) in lines.iter().enumerate() {
        read_line(alloc, &alphabet, place, line, &mut pieces, &mut entries)?;
    }
    Ok(Lexicon {
        alphabet,
        pieces,
        entries,
    })
}

/// The pieces of the own definitions of characters that aren't capitals of others.
fn own_pieces(alloc: Global, alphabet: &Characters) -> Result<Vec<Piece>, AllocError>
    ensures { IfOk result (λ pieces. pieces.items ≡ pieces_of_characters alphabet.now) }
{
    let mut pieces = Vec::new(alloc);
    for place in 0..alphabet.infos.len() {
        let (character, info) = alphabet.infos.get_index(place).unwrap();
        push_own(alloc, alphabet, *character, info, &mut pieces)?;
    }
    Ok(pieces)
}

/// Adds the piece of a character's own definition, unless it is a capital of another.
fn push_own(
    alloc: Global,
    alphabet: &Characters,
    character: char,
    info: &Info,
    pieces: &mut Vec<Piece>,
) -> Result<(), AllocError>
    ensures { OnOk result (pieces.new.items ≡ pieces.old.items ++ small_piece alphabet.now (character, info.now)) }
{
    if alphabet.fold(character) != character {
        return Ok(());
    }
    pieces.push(piece_of_character(alloc, character, info)?)?;
    Ok(())
}

/// The piece of a character's own definition.
fn piece_of_character(alloc: Global, character: char, info: &Info) -> Result<Piece, AllocError>
    ensures { IfOk result (λ piece. piece ≡ own_piece (character, info.now)) }
{
    Ok(Piece {
        chars: Chars::from_vec(Vec::from_slice(alloc, &[character])?),
        cells: info.cells.copy()?,
    })
}

/// Adds the piece of a line, if it gives one, and its rule, if it is one that is read and used.
fn read_line(
    alloc: Global,
    alphabet: &Characters,
    place: usize,
    line: &Line<'_>,
    pieces: &mut Vec<Piece>,
    entries: &mut Vec<Entry>,
) -> Result<(), AllocError>
    ensures pieces { OnOk result (pieces.new.items ≡ pieces.old.items ++ option_to_list (piece_of_line alphabet.now (line_view line.now))) }
    ensures entries { OnOk result (entries.new.items ≡ entries.old.items ++ option_to_list (rule_of_line alphabet.now place (length pieces.old.items) (line_view line.now))) }
{
    let words = words_of(alloc, line)?;
    let Some(piece) = piece_in(alloc, alphabet, words.as_slice())? else {
        return Ok(());
    };
    if are_of_rule(words.as_slice()) && alphabet.defines_all(piece.chars.as_slice()) {
        entries.push(Entry {
            line: place,
            piece: pieces.len(),
        })?;
    }
    pieces.push(piece)?;
    Ok(())
}

/// The piece that words give, if they do.
fn piece_in(
    alloc: Global,
    alphabet: &Characters,
    words: &[&str],
) -> Result<Option<Piece>, AllocError>
    ensures { IfOk result (λ found. found ≡ option_and_then (piece_by alphabet.now) (words_of_piece (after_prefixes (map (λ word. word.now) words.now)))) }
{
    let Some((chars, dots)) = piece_words(words) else {
        return Ok(None);
    };
    let Some(chars) = folded(alloc, alphabet, chars)? else {
        return Ok(None);
    };
    let Some(cells) = cells_of(alloc, alphabet, &chars, dots)? else {
        return Ok(None);
    };
    Ok(Some(Piece { chars, cells }))
}

/// The characters that a word spells, capitals as their small letters: at least one, and at most
/// 32.
fn folded(alloc: Global, alphabet: &Characters, word: &str) -> Result<Option<Chars>, AllocError>
    ensures { IfOk result (λ found. found ≡ option_and_then (folded_characters alphabet.now) (read (characters_of word.now))) }
{
    let characters = match chars_of(alloc, word) {
        Ok(characters) => characters,
        Err(Failure::Fault(_)) => return Ok(None),
        Err(Failure::Memory) => return Err(AllocError),
    };
    if characters.is_empty() || characters.len() > MOST_CHARACTERS {
        return Ok(None);
    }
    let chars = folds(alloc, alphabet, characters.as_slice())?;
    Ok(Some(Chars::from_vec(chars)))
}

/// Characters, capitals as their small letters.
fn folds(alloc: Global, alphabet: &Characters, characters: &[char]) -> Result<Vec<char>, AllocError>
    ensures { IfOk result (λ folds. folds.items ≡ map (fold_of alphabet.now) characters.now) }
{
    characters
        .iter()
        .map(|character| alphabet.fold(*character))
        .collect(alloc)
}

/// The cells that a word spells; `=` spells the own cells of these characters.
fn cells_of(
    alloc: Global,
    alphabet: &Characters,
    chars: &Chars,
    word: &str,
) -> Result<Option<Cells>, AllocError>
    ensures { IfOk result (λ found. found ≡ cells_by alphabet.now chars.now word.now) }
{
    if word == "=" {
        return own_cells(alloc, alphabet, chars.as_slice());
    }
    match read_dots(alloc, word, MOST_CELLS) {
        Ok(cells) => Ok(Some(cells)),
        Err(Failure::Fault(_)) => Ok(None),
        Err(Failure::Memory) => Err(AllocError),
    }
}

/// The own cells of characters, one after the other, where all are defined.
fn own_cells(
    alloc: Global,
    alphabet: &Characters,
    chars: &[char],
) -> Result<Option<Cells>, AllocError>
    ensures { IfOk result (λ found. found ≡ (if list_all (defines alphabet.now) chars.now then Some (flat_map (cells_of_own alphabet.now) chars.now) else None)) }
{
    if !alphabet.defines_all(chars) {
        return Ok(None);
    }
    let mut cells: Vec<Cell> = Vec::new(alloc);
    for character in chars {
        cells.extend_from_slice(alphabet.cells(*character))?;
    }
    Ok(Some(Cells::from_slice(alloc, cells.as_slice())?))
}

impl Lexicon {
    /// The piece that the rule with this number gives.
    pub(crate) fn piece_of(&self, entry: usize) -> Option<&Piece>
        ensures { option_copied result ≡ piece_of self.now entry }
    {
        let entry = self.entries.get(entry)?;
        self.pieces.get(entry.piece)
    }
}

//! What the lines give that brl reads.
ghost use Rattle.std.specs.Prelude.{◌≡◌, ◌++◌, IfOk, OnOk, codes, flat_map, map, option_map};
ghost use Rattle.std.specs.List.{list_any};
ghost use Rattle.brl_cells.specs.Dots.{reading};
ghost use Rattle.brl_acting.specs.Capitals.{has_opcode as has_opcode_by};
ghost use Rattle.brl_acting.specs.Readings.{cells_at, cells_if, cells_in as cells_by_word, cells_of as cells_by, dots_place as dots_place_by, given_cells, keeps as keeps_by, is_kept_letsign as is_kept_letsign_by, keeps_runs as keeps_runs_by, letsign_of as letsign_by, place_if as place_by, readings_by, readings_view, sign_cells as sign_cells_by, sign_cells_in, signs_if_near, small_by};
ghost use Rattle.brl_acting.specs.Sets.{is_in, set_view};
ghost use Rattle.brl_acting.specs.PartsViews.{parts_view};

use crate::bases::has_opcode;
use crate::char_set::CharSet;
use crate::facts::Facts;
use crate::form::Form;
use crate::line_parts::Parts;
use crate::operand::word_at;
use crate::rules::{Rule, rules_of};
use brl_cells::{Cell, read_dots};
use brl_failure::Failure;
use std::alloc::{AllocError, Global};

/// What the lines give that brl reads.
#[derive(Drop)]
pub(crate) struct Readings<'a> {
    pub bases: Vec<(char, char)>,
    /// The cells of texts over the alphabet, as characters with their numbers.
    pub cells: CharSet,
    pub rules: Vec<Rule<'a>>,
    /// Whether a line has `numsign`, also one that isn't read.
    pub has_numsign: bool,
    /// Whether `begcapsword` is read.
    pub keeps_word: bool,
    /// Whether the other two indicators of capitals are read.
    pub keeps_runs: bool,
    /// The place of the line with `letsign` that is read.
    pub letsign: Option<usize>,
}

/// By what lines give texts over the alphabet cells.
#[derive(Clone, Copy)]
struct Given<'s> {
    near: &'s CharSet,
    facts: Facts,
    /// The cells of the indicators that a contraction has.
    signs: &'s [char],
}

/// The small letter of a capital, by the first line that gives one; another character itself.
pub(crate) fn small(bases: &[(char, char)], character: char) -> char
    ensures { result ≡ small_by bases.now character }
{
    for (capital, small) in bases {
        if *capital == character {
            return *small;
        }
    }
    character
}

/// Adds the cells that a word spells, as characters with their numbers.
fn push_cells(alloc: Global, cells: &mut Vec<char>, word: &str) -> Result<(), AllocError>
    ensures { OnOk result (cells.new.items ≡ cells.old.items ++ cells_by_word word.now) }
{
    match word.split_once(',') {
        Some((first, second)) => push_parts(alloc, cells, first, second),
        None => push_twice(alloc, cells, word),
    }
}

/// Adds the cells that two parts of a word spell.
fn push_parts(
    alloc: Global,
    cells: &mut Vec<char>,
    first: &str,
    second: &str,
) -> Result<(), AllocError>
    ensures { OnOk result (cells.new.items ≡ cells.old.items ++ (cells_if (reading 16 first.now) ++ cells_if (reading 16 second.now))) }
{
    push_part(alloc, cells, first)?;
    push_part(alloc, cells, second)
}

/// Adds the cells that a word without a comma spells, once for each of two characters.
fn push_twice(alloc: Global, cells: &mut Vec<char>, word: &str) -> Result<(), AllocError>
    ensures { OnOk result (cells.new.items ≡ cells.old.items ++ (cells_if (reading 16 word.now) ++ cells_if (reading 16 word.now))) }
{
    match read_dots(alloc, word, 16) {
        Ok(found) => {
            push_found(cells, found.as_slice())?;
            push_found(cells, found.as_slice())
        }
        Err(Failure::Fault(_)) => Ok(()),
        Err(Failure::Memory) => Err(AllocError),
    }
}

/// Adds the cells that a part of a word spells.
fn push_part(alloc: Global, cells: &mut Vec<char>, part: &str) -> Result<(), AllocError>
    ensures { OnOk result (cells.new.items ≡ cells.old.items ++ cells_if (reading 16 part.now)) }
{
    match read_dots(alloc, part, 16) {
        Ok(found) => push_found(cells, found.as_slice()),
        Err(Failure::Fault(_)) => Ok(()),
        Err(Failure::Memory) => Err(AllocError),
    }
}

/// Adds cells, as characters with their numbers.
fn push_found(cells: &mut Vec<char>, found: &[Cell]) -> Result<(), AllocError>
    ensures { OnOk result (cells.new.items ≡ cells.old.items ++ found.now) }
{
    for cell in found {
        cells.push(char::from(cell.0))?;
    }
    Ok(())
}

/// A place where something is given.
fn place_if(gives: bool, place: usize) -> Option<usize>
    ensures { result ≡ place_by gives place }
{
    if gives { Some(place) } else { None }
}

/// The place of the word for the cells of a line of this form, if texts over the alphabet get them.
fn dots_place(near: &CharSet, facts: Facts, chars: &[char], form: Option<Form>) -> Option<usize>
    ensures { result ≡ dots_place_by (set_view near.now) facts chars.now form }
{
    match form {
        Some(Form::Defines | Form::Uplow) => place_if(near.has_any(chars), 2),
        Some(Form::Rule) => place_if(near.has_all(chars), 2),
        Some(Form::Capitals) => place_if(facts.has_capital, 1),
        Some(Form::Digits) => place_if(facts.has_digit, 1),
        Some(Form::Letsign) => place_if(facts.has_letter, 1),
        _ => None,
    }
}

/// Adds the cells of an indicator that a contraction has, if a line gives it some.
fn push_sign(alloc: Global, signs: &mut Vec<char>, parts: &Parts<'_>) -> Result<(), AllocError>
    ensures { OnOk result (signs.new.items ≡ signs.old.items ++ sign_cells_in (parts_view parts.now)) }
{
    if has_opcode(parts, "nocontractsign") || has_opcode(parts, "letsign") {
        push_cells(alloc, signs, word_at(parts.words.as_slice(), 1))?;
    }
    Ok(())
}

/// The cells of the indicators that a contraction has, as characters with their numbers.
fn sign_cells(alloc: Global, lines: &[Parts<'_>]) -> Result<Vec<char>, AllocError>
    ensures { IfOk result (λ signs. signs.items ≡ sign_cells_by (map parts_view lines.now)) }
{
    let mut signs = Vec::new(alloc);
    for parts in lines {
        push_sign(alloc, &mut signs, parts)?;
    }
    Ok(signs)
}

/// Adds cells of indicators, where each character of a contraction is near the alphabet.
fn push_if_near(
    cells: &mut Vec<char>,
    near: &CharSet,
    signs: &[char],
    chars: &[char],
) -> Result<(), AllocError>
    ensures { OnOk result (cells.new.items ≡ cells.old.items ++ signs_if_near (set_view near.now) signs.now chars.now) }
{
    if near.has_all(chars) {
        cells.extend_from_slice(signs)?;
    }
    Ok(())
}

/// Adds the cells that the word at a place of a line spells, if there is one.
fn push_cells_at(
    alloc: Global,
    cells: &mut Vec<char>,
    parts: &Parts<'_>,
    place: Option<usize>,
) -> Result<(), AllocError>
    ensures { OnOk result (cells.new.items ≡ cells.old.items ++ cells_at (parts_view parts.now) place) }
{
    match place {
        Some(place) => push_cells(alloc, cells, word_at(parts.words.as_slice(), place)),
        None => Ok(()),
    }
}

/// Adds the cells that a line with these characters gives texts over the alphabet.
fn push_given(
    alloc: Global,
    cells: &mut Vec<char>,
    given: &Given<'_>,
    parts: &Parts<'_>,
    chars: &[char],
) -> Result<(), AllocError>
    ensures { OnOk result (cells.new.items ≡ cells.old.items ++ given_cells (set_view given.now.near.now) given.now.facts given.now.signs.now (parts_view parts.now) chars.now) }
{
    if has_opcode(parts, "contraction") {
        return push_if_near(cells, given.near, given.signs, chars);
    }
    let place = dots_place(given.near, given.facts, chars, parts.form);
    push_cells_at(alloc, cells, parts, place)
}

/// Adds the cells that a kept line gives texts over the alphabet.
fn push_cells_of(
    alloc: Global,
    cells: &mut Vec<char>,
    given: &Given<'_>,
    parts: &Parts<'_>,
) -> Result<(), AllocError>
    ensures { OnOk result (cells.new.items ≡ cells.old.items ++ cells_by (set_view given.now.near.now) given.now.facts given.now.signs.now (parts_view parts.now)) }
{
    if !parts.kept || parts.nofor {
        return Ok(());
    }
    push_given(alloc, cells, given, parts, parts.first_chars())
}

/// The cells of texts over the alphabet, as characters with their numbers.
fn cells_of(alloc: Global, given: &Given<'_>, lines: &[Parts<'_>]) -> Result<Vec<char>, AllocError>
    ensures { IfOk result (λ cells. cells.items ≡ flat_map (cells_by (set_view given.now.near.now) given.now.facts given.now.signs.now) (map parts_view lines.now)) }
{
    let mut cells = Vec::new(alloc);
    for parts in lines {
        push_cells_of(alloc, &mut cells, given, parts)?;
    }
    Ok(cells)
}

/// The cells of texts over the alphabet, as a set.
fn cell_set(
    alloc: Global,
    near: &CharSet,
    facts: Facts,
    lines: &[Parts<'_>],
) -> Result<CharSet, AllocError>
    ensures { IfOk result (λ cells. set_view cells ≡ is_in (flat_map (cells_by (set_view near.now) facts (sign_cells_by (map parts_view lines.now))) (map parts_view lines.now))) }
{
    let signs = sign_cells(alloc, lines)?;
    let given = Given {
        near,
        facts,
        signs: signs.as_slice(),
    };
    let cells = cells_of(alloc, &given, lines)?;
    CharSet::of(alloc, cells.as_slice())
}

/// Whether a line has this opcode.
fn has(lines: &[Parts<'_>], word: &str) -> bool
    ensures { result ≡ list_any (has_opcode_by word.now) (map parts_view lines.now) }
{
    lines.iter().any(|parts| has_opcode(parts, word))
}

/// Whether a kept line has this opcode.
fn keeps(lines: &[Parts<'_>], word: &str) -> bool
    ensures { result ≡ keeps_by word.now (map parts_view lines.now) }
{
    lines
        .iter()
        .any(|parts| parts.kept && has_opcode(parts, word))
}

/// Whether the other two indicators of capitals are kept.
fn keeps_runs(lines: &[Parts<'_>]) -> bool
    ensures { result ≡ keeps_runs_by (map parts_view lines.now) }
{
    keeps(lines, "endcapsword") && (keeps(lines, "capsletter") || keeps(lines, "capsign"))
}

/// Whether this is a line with `letsign` that is read.
fn is_kept_letsign(parts: &Parts<'_>) -> bool
    ensures { result ≡ is_kept_letsign_by (parts_view parts.now) }
{
    parts.kept && has_opcode(parts, "letsign")
}

/// The place of the line with `letsign` that is read.
fn letsign_of(lines: &[Parts<'_>]) -> Option<usize>
    ensures { result ≡ letsign_by (map parts_view lines.now) }
{
    lines.iter().position(|parts| is_kept_letsign(parts))
}

/// What the lines give that brl reads.
pub(crate) fn readings_of<'a>(
    alloc: Global,
    lines: &[Parts<'a>],
    bases: &[(char, char)],
    near: &CharSet,
    facts: Facts,
) -> Result<Readings<'a>, AllocError>
    ensures { IfOk result (λ readings. readings_view readings ≡ readings_by (map parts_view lines.now) bases.now (set_view near.now) facts) }
{
    let cells = cell_set(alloc, near, facts, lines)?;
    let rules = rules_of(alloc, lines)?;
    let own = Vec::from_slice(alloc, bases)?;
    Ok(Readings {
        bases: own,
        cells,
        rules,
        has_numsign: has(lines, "numsign"),
        keeps_word: keeps(lines, "begcapsword"),
        keeps_runs: keeps_runs(lines),
        letsign: letsign_of(lines),
    })
}

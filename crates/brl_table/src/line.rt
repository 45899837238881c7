//! Reads one line of a table by itself.
ghost use Rattle.std.specs.Prelude.{ℕ, ◌≡◌, ◌+◌, IfOk, map};
ghost use Rattle.brl_failure.specs.Failure.{Gives};
ghost use Rattle.brl_lines.specs.Views.{line_view, token_view};
ghost use Rattle.brl_table.specs.ItemLimits.{IsItemWithinLimits};
ghost use Rattle.brl_table.specs.Items.{item_of as item_defined, defined, defined_both, displayed, listed, ruled, ruled_after};

use crate::TableFaultKind;
use crate::item::{Definition, Item, ListLine, NumericRole, RuleHead, RuleLine};
use crate::opcode::{Opcode, opcode_named};
use crate::operand::{
    Words, both_cells, cells_of, one_character, one_operand, refuse, rule_cells, some_characters,
    two_characters, two_operands,
};
use crate::table_fault::WordFault;
use bitflags::Flags;
use brl_failure::Failure;
use brl_lines::Line;
use brl_rules::{Class, Place};
use std::alloc::Global;

/// The item of a line, or its first fault.
type ItemResult = Result<Item, Failure<WordFault>>;

/// The most characters of a rule.
const MOST_RULE_CHARACTERS: usize = 32;

/// The item of a line of the file with this number, or the line's first fault: of its opcode, its
/// operands, its characters, its dots, or the number of its rule's characters.
pub(crate) fn item_of(alloc: Global, file: usize, line: &Line<'_>) -> ItemResult
    ensures item { Gives (item_defined file (line_view line.now)) result }
    ensures limits { IfOk result (IsItemWithinLimits (file + 1)) }
{
    let opcode = line.opcode.text;
    let words = Words {
        opcode,
        operands: line.operands.as_slice(),
    };
    let head = RuleHead {
        used: true,
        prefixed: false,
        file,
        line: line.line,
    };
    let after_prefix = RuleHead {
        prefixed: true,
        ..head
    };
    let unused = RuleHead {
        used: false,
        ..after_prefix
    };
    match opcode_named(opcode) {
        Some(Opcode::Plain(classes)) => define(alloc, classes, false, file, line.line, words),
        Some(Opcode::Literary) => define(alloc, Class::DIGIT, true, file, line.line, words),
        Some(Opcode::Uplow) => define_both(alloc, file, line.line, words),
        Some(Opcode::Placed(place)) => rule(alloc, place, head, words),
        Some(Opcode::Noback) => prefixed(alloc, after_prefix, words),
        Some(Opcode::Nofor) => prefixed(alloc, unused, words),
        Some(Opcode::Display) => display(alloc, words),
        Some(Opcode::Indicator(sign)) => {
            let dots = one_operand(alloc, words)?;
            Ok(Item::Indicates(sign, cells_of(alloc, dots)?))
        }
        Some(Opcode::NumericList(role)) => list(alloc, role, words),
        Some(Opcode::Include) if words.operands.is_empty() => {
            refuse(alloc, TableFaultKind::MissingOperand, opcode)
        }
        Some(Opcode::Include) | None => refuse(alloc, TableFaultKind::OutsideProfile, opcode),
    }
}

/// A line that defines a character with these classes, `litdigit` or plain.
fn define(
    alloc: Global,
    classes: Class,
    literary: bool,
    file: usize,
    line: u32,
    words: Words<'_>,
) -> ItemResult
    ensures item { Gives (defined classes literary file line words.entry.opcode.now (map token_view words.entry.operands.now)) result }
    ensures limits { IfOk result (IsItemWithinLimits (file + 1)) }
{
    let (first, second) = two_operands(alloc, words)?;
    let character = one_character(alloc, first)?;
    let cells = cells_of(alloc, second)?;
    Ok(Item::Defines(Definition {
        character,
        literary,
        classes,
        cells,
        fold: character,
        file,
        line,
    }))
}

/// An `uplow` line: it defines an uppercase character and its lowercase one, which is the fold of
/// both.
fn define_both(alloc: Global, file: usize, line: u32, words: Words<'_>) -> ItemResult
    ensures item { Gives (defined_both file line words.entry.opcode.now (map token_view words.entry.operands.now)) result }
    ensures limits { IfOk result (IsItemWithinLimits (file + 1)) }
{
    let (first, second) = two_operands(alloc, words)?;
    let (upper, lower) = two_characters(alloc, first)?;
    let (upper_cells, lower_cells) = both_cells(alloc, second)?;
    let uppercase = Definition {
        character: upper,
        literary: false,
        classes: Class::UPPERCASE_LETTER,
        cells: upper_cells,
        fold: lower,
        file,
        line,
    };
    let lowercase = Definition {
        character: lower,
        literary: false,
        classes: Class::LOWERCASE_LETTER,
        cells: lower_cells,
        fold: lower,
        file,
        line,
    };
    Ok(Item::DefinesBoth(uppercase, lowercase))
}

/// A line that gives its characters a role in numbers.
fn list(alloc: Global, role: NumericRole, words: Words<'_>) -> ItemResult
    ensures item { Gives (listed role words.entry.opcode.now (map token_view words.entry.operands.now)) result }
    ensures limits { (files : ℕ) → IfOk result (IsItemWithinLimits files) }
{
    let characters = one_operand(alloc, words)?;
    let chars = some_characters(alloc, characters)?;
    Ok(Item::Lists(ListLine { role, chars }))
}

/// A `display` line: it is checked as if it defined a character, and then not used.
fn display(alloc: Global, words: Words<'_>) -> ItemResult
    ensures item { Gives (displayed words.entry.opcode.now (map token_view words.entry.operands.now)) result }
    ensures nothing { IfOk result (λ item. item ≡ Item.Nothing) }
{
    let (first, second) = two_operands(alloc, words)?;
    one_character(alloc, first)?;
    cells_of(alloc, second)?;
    Ok(Item::Nothing)
}

/// A line that begins with `noback` or `nofor`, which a place opcode follows.
fn prefixed(alloc: Global, head: RuleHead, words: Words<'_>) -> ItemResult
    ensures item { Gives (ruled_after head words.entry.opcode.now (map token_view words.entry.operands.now)) result }
    ensures limits { IfOk result (IsItemWithinLimits (head.file + 1)) }
{
    let Some((next, operands)) = words.operands.split_first() else {
        return refuse(alloc, TableFaultKind::MissingOperand, words.opcode);
    };
    let Some(Opcode::Placed(place)) = opcode_named(next.text) else {
        return refuse(alloc, TableFaultKind::OutsideProfile, next.text);
    };
    let opcode = next.text;
    rule(alloc, place, head, Words { opcode, operands })
}

/// The rule of a place opcode and its operands.
fn rule(alloc: Global, place: Place, head: RuleHead, words: Words<'_>) -> ItemResult
    ensures item { Gives (ruled place head words.entry.opcode.now (map token_view words.entry.operands.now)) result }
    ensures limits { IfOk result (IsItemWithinLimits (head.file + 1)) }
{
    let (first, second) = two_operands(alloc, words)?;
    let chars = some_characters(alloc, first)?;
    let cells = rule_cells(alloc, second)?;
    if chars.len() > MOST_RULE_CHARACTERS {
        return refuse(alloc, TableFaultKind::TooMany, words.opcode);
    }
    Ok(Item::Rules(RuleLine {
        place,
        chars,
        cells,
        head,
    }))
}

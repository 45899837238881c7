//! The lines of a table that have a fault: by themselves or, where none has, among all lines.
ghost use Rattle.std.specs.Prelude.{◌≡◌, ◌↔◌, [], List, IfOk, Some, map, option_map, slice_get, string_bytes};
ghost use Rattle.brl_lines.specs.Tokens.{LineView};
ghost use Rattle.brl_lines.specs.Views.{line_view};
ghost use Rattle.brl_table.specs.Building.{AreWithinLimits, Represents};
ghost use Rattle.brl_table.specs.FaultText.{located_fault};
ghost use Rattle.brl_table.specs.Faults.{IsFirstFaultOf, PassesFirst};
ghost use Rattle.brl_table.specs.Reading.{AreGood, files_of, items_of};
ghost use Rattle.brl_table.specs.Survey.{
  IsFaultyAs,
  faulty_line_view,
  faulty_lines,
  good_items,
  named_opcode as opcode_by,
  prefixed_word as prefixed_by,
  survey_of,
  findings_view,
  good_characters as characters_of_good_lines,
  unresolved_lines,
};
ghost use Rattle.brl_table.specs.declared.table_fault.TableFault.{TableFault as Fault};

use crate::TableFault;
use crate::builder::{TableBuilder, fault_at, file_names, place_of};
use crate::laws::good_lines_law;
use crate::opcode::{Opcode, opcode_named};
use crate::table_fault::WordFault;
use brl_failure::Failure;
use brl_lines::Line;
use brl_rules::Info;
use indexmap::IndexMap;
use std::alloc::{AllocError, Global};

/// A line of a table that has a fault by itself.
#[derive(Debug, Drop)]
pub struct FaultyLine {
    /// Its opcode: its first word, and after `noback` or `nofor` and a blank what follows that, if
    /// anything does.
    pub opcode: String,
    pub fault: TableFault,
}

/// What a survey finds in the lines of a table.
#[derive(Debug, Drop)]
pub struct Findings {
    /// The lines that have a fault by themselves; where none has, those with a fault of the second
    /// pass. They are in order.
    pub faulty: Vec<FaultyLine>,
    /// Whether no line has a fault by itself, so that the second pass is made.
    pub passes_first: bool,
    /// Whether a line without a fault by itself defines a character.
    pub has_characters: bool,
}

/// The lines that have a fault, in order, each with its fault: of the first pass of `read_table`
/// or, where that finds none, of the second one. A line with a fault of the first pass defines
/// nothing: each line is read after the good lines before it. `AllocError` if memory runs out.
pub fn survey(alloc: Global, lines: &[Line<'_>]) -> Result<Findings, AllocError>
    ensures { IfOk result (λ found. findings_view found ≡ survey_of (map line_view lines.now)) }
{
    let files = file_names(alloc, lines)?;
    let mut builder = TableBuilder::new(alloc);
    let own = find_faulty(alloc, &mut builder, files.as_slice(), lines)?;
    let has_characters = builder.has_characters();
    let passes_first = own.is_empty();
    let faulty = if passes_first {
        find_unresolved(alloc, &mut builder, lines)?
    } else {
        own
    };
    Ok(Findings {
        faulty,
        passes_first,
        has_characters,
    })
}

/// The characters that the lines without a fault by themselves define, in the order of their first
/// definitions, each with what they define for it. No list gives it a role. `AllocError` if memory
/// runs out.
pub fn good_characters(
    alloc: Global,
    lines: &[Line<'_>],
) -> Result<IndexMap<char, Info>, AllocError>
    ensures { IfOk result (λ found. found.entries ≡ characters_of_good_lines (map line_view lines.now)) }
{
    let files = file_names(alloc, lines)?;
    let mut builder = TableBuilder::new(alloc);
    find_faulty(alloc, &mut builder, files.as_slice(), lines)?;
    Ok(builder.into_characters())
}

/// The lines, of files with these names, that have a fault by themselves. The builder has none yet,
/// and then has the others.
#[tactic(auto, using(crate::proofs::FirstPass::has_file))]
fn find_faulty(
    alloc: Global,
    builder: &mut TableBuilder,
    files: &[String],
    lines: &[Line<'_>],
) -> Result<Vec<FaultyLine>, AllocError>
    requires none { builder.old.items.items ≡ [] }
    requires represents { Represents [] builder.old.characters builder.old.signs builder.old.used }
    requires within { AreWithinLimits builder.old.characters builder.old.signs builder.old.used }
    requires named { map string_bytes files.now ≡ files_of (map line_view lines.now) }
    ensures found { IfOk result (λ found. map faulty_line_view found.items ≡ faulty_lines (map line_view lines.now)) }
    ensures good { IfOk result (λ _. builder.new.items.items ≡ good_items (files_of (map line_view lines.now)) (map line_view lines.now)) }
    ensures represents { IfOk result (λ _. Represents builder.new.items.items builder.new.characters builder.new.signs builder.new.used) }
{
    let mut found = Vec::new(alloc);
    for line in lines {
        let file = place_of(files, line.file).unwrap();
        if let Err(failure) = builder.add(alloc, file, line) {
            found.push(faulty_line(alloc, failure, line)?)?;
        }
    }
    Ok(found)
}

/// The lines that have a fault of the second pass. None has one by itself, and the builder has all.
fn find_unresolved(
    alloc: Global,
    builder: &mut TableBuilder,
    lines: &[Line<'_>],
) -> Result<Vec<FaultyLine>, AllocError>
    requires passed { PassesFirst (map line_view lines.now) }
    requires all { builder.old.items.items ≡ items_of (files_of (map line_view lines.now)) (map line_view lines.now) }
    requires represents { Represents builder.old.items.items builder.old.characters builder.old.signs builder.old.used }
    ensures { IfOk result (λ found. map faulty_line_view found.items ≡ unresolved_lines (map line_view lines.now)) }
{
    builder.mark_listed();
    let mut found = Vec::new(alloc);
    for (place, line) in lines.iter().enumerate() {
        if let Err(failure) = builder.resolve_at(alloc, place, line) {
            found.push(faulty_line(alloc, failure, line)?)?;
        }
    }
    Ok(found)
}

/// A line with this fault.
fn faulty_line(
    alloc: Global,
    failure: Failure<WordFault>,
    line: &Line<'_>,
) -> Result<FaultyLine, AllocError>
    ensures { IfOk result (IsFaultyAs (line_view line.now) failure) }
{
    let Failure::Fault(fault) = fault_at(alloc, failure, line) else {
        return Err(AllocError);
    };
    let opcode = named_opcode(alloc, line)?;
    Ok(FaultyLine { opcode, fault })
}

/// The opcode of a line: its first word, and after `noback` or `nofor` and a blank what follows
/// that, if anything does.
fn named_opcode(alloc: Global, line: &Line<'_>) -> Result<String, AllocError>
    ensures { IfOk result (λ opcode. string_bytes opcode ≡ opcode_by (line_view line.now)) }
{
    let mut opcode = String::from_str(alloc, line.opcode.text)?;
    if let Some(word) = prefixed_word(line) {
        opcode.push(' ')?;
        opcode.push_str(word)?;
    }
    Ok(opcode)
}

/// What follows `noback` or `nofor` in a line that begins with one of them, if anything does.
fn prefixed_word<'a>(line: &Line<'a>) -> Option<&'a str>
    ensures { option_map (λ word. word.now) result ≡ prefixed_by (line_view line.now) }
{
    match opcode_named(line.opcode.text) {
        Some(Opcode::Noback | Opcode::Nofor) => line.operands.first().map(|next| next.text),
        _ => None,
    }
}

/// A survey finds no line with a fault by itself, or none at all, exactly where the first pass, or
/// both, find none; first is the line with the first fault. Where both find none the lines define a
/// table.
pub fn survey_laws()
    ensures none { (lines : List LineView) → (faulty_lines lines ≡ []) ↔ PassesFirst lines }
    ensures first { (lines : List LineView) (found : Fault) → IsFirstFaultOf lines found → (PassesFirst lines → ⊥) →
        slice_get (map (λ faulty. faulty.fault) (faulty_lines lines)) 0 ≡ Some (located_fault found) }
    ensures all { (lines : List LineView) → ((survey_of lines).faulty ≡ []) ↔ AreGood lines }
{
    good_lines_law();
}

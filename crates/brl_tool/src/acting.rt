//! The lines of a table that was cut that can act on texts of an alphabet.
ghost use Rattle.std.specs.Prelude.{◌≡◌, ◌++◌, ◌≤◌, IfErr, IfOk, OnOk, length, map, string_bytes};
ghost use Rattle.brl_acting.specs.WholeTable.{acting_view};
ghost use Rattle.brl_lines.specs.Views.{location_view};
ghost use Rattle.brl_tool.specs.Acting.{AreActing, acting_line as acting_line_of, acting_text as text_by, count_of as count_of_by, has_opcode as has_opcode_by, count_text, idle_line as idle_line_of, is_first as is_first_by, last_line, left_out_places as left_out_by, line_word as line_word_of, opcode_text, place_text, text_at, with_acting as with_acting_by};
ghost use Rattle.brl_answers.specs.Answers.{EndsAs};
ghost use Rattle.brl_answers.specs.declared.run_fault.RunFault.TheVariants.{NotDefined};
ghost use Rattle.brl_clashes.specs.Kinds.{kept};
ghost use Rattle.brl_without.specs.Alphabet.{HasAll, IsLacking, alphabet_view, left_out_by as characters_left_out};

use brl_acting::{ActingLine, acting_of_table};
use brl_answers::{RunFault, with_alphabet_line};
use brl_clashes::kept_characters;
use brl_cut::CutTable;
use brl_lines::Location;
use brl_rules::Table;
use brl_without::Alphabet;
use std::alloc::{AllocError, Global};

/// Lines of a table that can act on texts of an alphabet.
#[derive(Clone, Copy)]
pub struct Judged<'a> {
    pub alphabet: &'a Alphabet,
    pub acting: &'a [ActingLine],
}

/// Which lines of a table that was cut can act on texts of an alphabet. `NotDefined` where the cut
/// lacks characters of the alphabet.
pub fn acting_lines(
    alloc: Global,
    of: &CutTable,
    alphabet: &Alphabet,
) -> Result<Vec<ActingLine>, RunFault>
    ensures acting { IfOk result (λ acting. AreActing (alphabet_view alphabet.now) of.now (map acting_view acting.items)) }
    ensures fault { IfErr result (EndsAs NotDefined (IsLacking of.now.table (alphabet_view alphabet.now))) }
{
    let characters = kept_of(alloc, &of.table, alphabet)?;
    let characters = characters.as_slice();
    let left_out = of.cut.left_out.as_slice();
    let acting = acting_of_table(alloc, &of.whole, &of.gathered, left_out, characters)?;
    Ok(acting)
}

/// The characters of a table that are in an alphabet.
fn kept_of(alloc: Global, table: &Table, alphabet: &Alphabet) -> Result<Vec<char>, RunFault>
    ensures characters { IfOk result (λ characters. characters.items ≡ kept table.now (characters_left_out table.now (alphabet_view alphabet.now))) }
    ensures all { OnOk result (HasAll table.now (alphabet_view alphabet.now)) }
    ensures fault { IfErr result (EndsAs NotDefined (IsLacking table.now (alphabet_view alphabet.now))) }
{
    let left_out = alphabet.left_out(alloc, table)?;
    Ok(kept_characters(alloc, table, &left_out)?)
}

/// For each opcode of these lines how many there are, and where the first one is.
pub fn acting_text(alloc: Global, lines: &[ActingLine]) -> Result<String, AllocError>
    ensures { IfOk result (λ text. string_bytes text ≡ text_by (map acting_view lines.now)) }
{
    let mut text = String::new(alloc);
    for (place, line) in lines.iter().enumerate() {
        push_line(&mut text, lines, place, line)?;
    }
    Ok(text)
}

/// Appends how many of the lines are of the opcode of the line at a place, if that is the first.
fn push_line(
    text: &mut String,
    lines: &[ActingLine],
    place: usize,
    line: &ActingLine,
) -> Result<(), AllocError>
    requires { place ≤ length lines.now }
    ensures { OnOk result (string_bytes text.new ≡ string_bytes text.old ++ text_at (map acting_view lines.now) (place, acting_view line.now)) }
{
    if is_first(lines, place, line.opcode.as_str()) {
        push_opcode(text, lines, line)?;
    }
    Ok(())
}

/// Appends how many of the lines are of the opcode of this one, which is the first.
fn push_opcode(text: &mut String, lines: &[ActingLine], line: &ActingLine) -> Result<(), AllocError>
    ensures { OnOk result (string_bytes text.new ≡ string_bytes text.old ++ opcode_text (map acting_view lines.now) (acting_view line.now)) }
{
    let opcode = line.opcode.as_str();
    push_count(text, opcode, count_of(lines, opcode))?;
    push_place(text, &line.place)?;
    Ok(())
}

/// Appends how many lines are of an opcode.
fn push_count(text: &mut String, opcode: &str, count: usize) -> Result<(), AllocError>
    ensures { OnOk result (string_bytes text.new ≡ string_bytes text.old ++ count_text opcode.now count) }
{
    text.push_str("can act: opcode ")?;
    text.push_str(opcode)?;
    text.push_str(": ")?;
    write!(text, "{count}")?;
    Ok(())
}

/// Appends where the first line is.
fn push_place(text: &mut String, place: &Location) -> Result<(), AllocError>
    ensures { OnOk result (string_bytes text.new ≡ string_bytes text.old ++ place_text (location_view place.now)) }
{
    text.push_str(", the first at ")?;
    text.push_str(place.file.as_str())?;
    text.push(':')?;
    write!(text, "{}", place.line)?;
    text.push('\n')
}

/// Whether no line before a place has an opcode.
fn is_first(lines: &[ActingLine], place: usize, opcode: &str) -> bool
    requires { place ≤ length lines.now }
    ensures { result ≡ is_first_by (map acting_view lines.now) place opcode.now }
{
    !has_opcode(&lines[..place], opcode)
}

/// Whether one of these lines has an opcode.
fn has_opcode(lines: &[ActingLine], opcode: &str) -> bool
    ensures { result ≡ has_opcode_by (map acting_view lines.now) opcode.now }
{
    lines.iter().any(|line| opcode == line.opcode.as_str())
}

/// How many of these lines have an opcode.
fn count_of(lines: &[ActingLine], opcode: &str) -> usize
    ensures { result ≡ count_of_by (map acting_view lines.now) opcode.now }
{
    lines
        .iter()
        .filter(|line| opcode == line.opcode.as_str())
        .count()
}

/// The places of lines that a cut leaves out.
pub fn left_out_places(alloc: Global, lines: &[ActingLine]) -> Result<Vec<Location>, AllocError>
    ensures { IfOk result (λ places. map location_view places.items ≡ left_out_by (map acting_view lines.now)) }
{
    let mut places = Vec::new(alloc);
    for line in lines {
        if !line.kept {
            places.push(copy_of(alloc, &line.place)?)?;
        }
    }
    Ok(places)
}

/// A copy of a place.
fn copy_of(alloc: Global, place: &Location) -> Result<Location, AllocError>
    ensures { IfOk result (λ copy. location_view copy ≡ location_view place.now) }
{
    Ok(Location {
        file: String::from_str(alloc, place.file.as_str())?,
        line: place.line,
    })
}

/// A report, and in it the alphabet, the lines that can act on texts of it, and at the end that
/// none can, so that what is decided of a cut holds of a table; or how many can.
pub fn with_acting(
    alloc: Global,
    report: String,
    judged: Judged<'_>,
    cut: &str,
    table: &str,
) -> Result<String, AllocError>
    ensures { IfOk result (λ text. string_bytes text ≡
        with_acting_by (alphabet_view judged.entry.alphabet.now) (map acting_view judged.entry.acting.now) cut.now table.now (string_bytes report)) }
{
    let mut text = with_alphabet_line(alloc, report, judged.alphabet)?;
    text.push_str(acting_text(alloc, judged.acting)?.as_str())?;
    push_last(&mut text, cut, table, judged.acting.len())?;
    Ok(text)
}

/// Appends the line that says that no line can act, so that verdicts on texts of the alphabet hold
/// of the whole table; or how many can.
fn push_last(text: &mut String, cut: &str, table: &str, acting: usize) -> Result<(), AllocError>
    ensures { OnOk result (string_bytes text.new ≡ string_bytes text.old ++ last_line cut.now table.now acting) }
{
    if acting > 0 {
        push_acting(text, acting)
    } else {
        push_idle(text, cut, table)
    }
}

/// Appends the line that says that no line can act.
fn push_idle(text: &mut String, cut: &str, table: &str) -> Result<(), AllocError>
    ensures { OnOk result (string_bytes text.new ≡ string_bytes text.old ++ idle_line_of cut.now table.now) }
{
    text.push_str("no line can act on these texts: what --only decides of ")?;
    text.push_str(cut)?;
    text.push_str(" holds of ")?;
    text.push_str(table)?;
    text.push_str("\n")?;
    Ok(())
}

/// Appends the line that says how many lines can act.
fn push_acting(text: &mut String, acting: usize) -> Result<(), AllocError>
    ensures { OnOk result (string_bytes text.new ≡ string_bytes text.old ++ acting_line_of acting) }
{
    write!(text, "{acting}")?;
    text.push_str(line_word(acting))?;
    text.push_str(" can act on these texts\n")
}

/// The word for this many lines, after a blank.
fn line_word(lines: usize) -> &'static str
    ensures { result.now ≡ line_word_of lines }
{
    if lines == 1 { " line" } else { " lines" }
}

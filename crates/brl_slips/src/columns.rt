//! What was found, as columns for programs.
use crate::findings::Findings;
use crate::habit::Habit;
use crate::lexicon::Lexicon;
use crate::names::Names;
use crate::rows::{Row, RowSource, RuleOfRow};
use crate::slip::cells_of_row;
use brl_cells::{Cell, write_dots};
use brl_lines::{Line, spell_visibly};
use std::alloc::{AllocError, Global};

/// The names of the columns.
const HEADING: &str =
    "kind\tfile\tline\topcode\ttext\tcells\tsaid\tspelling\tspelled\tfile2\tline2\topcode2\ttext2\tcells2\n";

/// What was found in a table of these lines: the names of columns, and a line for each slip, twins
/// and habit, with a tab between columns.
pub fn slips_columns(
    alloc: Global,
    lexicon: &Lexicon,
    lines: &[Line<'_>],
    findings: &Findings,
) -> Result<String, AllocError> {
    let names = Names::of_pieces(alloc, &lexicon.alphabet, lexicon.pieces.as_slice())?;
    let found = RowSource {
        alloc,
        lexicon,
        names: &names,
        lines,
        findings,
    };
    let mut text = String::from_str(alloc, HEADING)?;
    for row in &found.rows()? {
        push_row(found, &mut text, row)?;
    }
    for habit in &findings.habits {
        push_habit(found, &mut text, habit)?;
    }
    Ok(text)
}

/// Appends the line of a slip or of twins.
fn push_row(found: RowSource<'_>, text: &mut String, row: &Row<'_>) -> Result<(), AllocError> {
    text.push_str(row.kind)?;
    push_rule(found, text, Some(row.rule))?;
    write!(text, "\t{}", row.said)?;
    push_spelling(found, text, row.spelling)?;
    push_rule(found, text, row.twin)?;
    text.push('\n')
}

/// Appends the line of a habit, with the first rule that has it.
fn push_habit(found: RowSource<'_>, text: &mut String, habit: &Habit) -> Result<(), AllocError> {
    let rule = RuleOfRow::of(found.lexicon, found.lines, habit.entry);
    text.push_str("habit")?;
    push_rule(found, text, rule)?;
    write!(text, "\t{} lines alike: ", habit.count)?;
    found.named().push_difference(text, habit.difference)?;
    push_spelling(found, text, &[])?;
    push_rule(found, text, None)?;
    text.push('\n')
}

/// Appends the columns of a rule: its file, line, opcode, characters and cells. Those of none are
/// empty.
fn push_rule(
    found: RowSource<'_>,
    text: &mut String,
    rule: Option<RuleOfRow<'_>>,
) -> Result<(), AllocError> {
    let Some(rule) = rule else {
        return text.push_str("\t\t\t\t\t");
    };
    write!(text, "\t{}\t{}", rule.line.file, rule.line.line)?;
    write!(text, "\t{}\t", rule.opcode())?;
    text.push_str(spell_visibly(found.alloc, rule.piece.chars.as_slice())?.as_str())?;
    push_cells(found, text, rule.piece.cells.as_slice())
}

/// Appends the column of cells.
fn push_cells(found: RowSource<'_>, text: &mut String, cells: &[Cell]) -> Result<(), AllocError> {
    text.push('\t')?;
    text.push_str(write_dots(found.alloc, cells)?.as_str())
}

/// Appends the columns of a spelling: its pieces with blanks between them, and its cells.
fn push_spelling(
    found: RowSource<'_>,
    text: &mut String,
    spelling: &[usize],
) -> Result<(), AllocError> {
    let pieces = found.lexicon.pieces.as_slice();
    let mut between = '\t';
    for number in spelling {
        if let Some(piece) = pieces.get(*number) {
            text.push(between)?;
            text.push_str(spell_visibly(found.alloc, piece.chars.as_slice())?.as_str())?;
            between = ' ';
        }
    }
    if spelling.is_empty() {
        text.push('\t')?;
    }
    let cells = cells_of_row(found.alloc, pieces, spelling)?;
    push_cells(found, text, cells.as_slice())
}

//! The text of what was found.
use crate::files::FileNames;
use crate::findings::Findings;
use crate::habit::Habit;
use crate::lexicon::Lexicon;
use crate::names::Names;
use crate::rows::{Row, RowSource, RuleOfRow};
use brl_lines::{Line, spell_visibly};
use std::alloc::{AllocError, Global};
use unicode_width::UnicodeWidthStr;

/// The most columns of the rules of a row before the words for it, where these fit.
const MOST_WIDTH: usize = 34;

/// The text of what was found in a table of these lines: how many slips and twins there are, a
/// line for each of the first `most`, below the name of its file, how many more there are, a line
/// for each habit, and how many rules were tested where not all were.
pub fn slips_text(
    alloc: Global,
    lexicon: &Lexicon,
    lines: &[Line<'_>],
    findings: &Findings,
    most: usize,
) -> Result<String, AllocError> {
    let names = Names::of_pieces(alloc, &lexicon.alphabet, lexicon.pieces.as_slice())?;
    let files = FileNames::of_lines(alloc, lines)?;
    let found = RowSource {
        alloc,
        lexicon,
        names: &names,
        lines,
        findings,
    };
    let rows = found.rows()?;
    let mut text = String::new(alloc);
    push_count(&mut text, rows.len())?;
    let first = rows.as_slice().get(..most).unwrap_or(rows.as_slice());
    push_rows(alloc, &mut text, &files, first)?;
    push_more(&mut text, rows.len().saturating_sub(first.len()))?;
    for habit in &findings.habits {
        push_habit(found, &mut text, &files, habit)?;
    }
    push_judged(&mut text, findings.judged, lexicon.entries.len())?;
    Ok(text)
}

/// Appends how many rows there are.
fn push_count(text: &mut String, rows: usize) -> Result<(), AllocError> {
    match rows {
        0 => text.push_str("no likely slips\n"),
        1 => text.push_str("likely slips: 1 line\n"),
        _ => {
            writeln!(text, "likely slips: {rows} lines")?;
            Ok(())
        }
    }
}

/// Appends how many rows have no line.
fn push_more(text: &mut String, more: usize) -> Result<(), AllocError> {
    if more > 0 {
        writeln!(text, "    {more} more: brl slips")?;
    }
    Ok(())
}

/// Appends how many rules were tested, where these are not all.
fn push_judged(text: &mut String, judged: usize, rules: usize) -> Result<(), AllocError> {
    if judged < rules {
        writeln!(text, "slips of the first {judged} rules")?;
    }
    Ok(())
}

/// A row before its columns are put side by side.
#[derive(Drop)]
struct Headed<'a> {
    file: &'a str,
    head: String,
    said: &'a str,
}

/// Appends rows, a file's name before the first of its own.
fn push_rows(
    alloc: Global,
    text: &mut String,
    files: &FileNames<'_>,
    rows: &[Row<'_>],
) -> Result<(), AllocError> {
    let headed = headed_rows(alloc, files, rows)?;
    let width = width_of(headed.as_slice());
    let mut file = "";
    for row in &headed {
        if row.file != file {
            writeln!(text, "  {}", files.name(row.file))?;
        }
        file = row.file;
        push_row(alloc, text, row, width)?;
    }
    Ok(())
}

/// Rows with their heads.
fn headed_rows<'a, 'b>(
    alloc: Global,
    files: &FileNames<'_>,
    rows: &'a [Row<'b>],
) -> Result<Vec<Headed<'a>>, AllocError> {
    let mut headed = Vec::with_capacity(alloc, rows.len())?;
    for row in rows {
        headed.push(Headed {
            file: row.rule.line.file,
            head: head_of(alloc, files, row)?,
            said: row.said.as_str(),
        })?;
    }
    Ok(headed)
}

/// The rules of a row: the line, opcode and characters of the first, and the line and characters of
/// its twin.
fn head_of(alloc: Global, files: &FileNames<'_>, row: &Row<'_>) -> Result<String, AllocError> {
    let rule = row.rule;
    let mut head = String::new(alloc);
    write!(head, "{} {} ", rule.line.line, rule.opcode())?;
    head.push_str(spell_visibly(alloc, rule.piece.chars.as_slice())?.as_str())?;
    if let Some(twin) = row.twin {
        push_twin(alloc, &mut head, files, rule, twin)?;
    }
    Ok(head)
}

/// Appends the twin of a rule, its file where that is another.
fn push_twin(
    alloc: Global,
    head: &mut String,
    files: &FileNames<'_>,
    rule: RuleOfRow<'_>,
    twin: RuleOfRow<'_>,
) -> Result<(), AllocError> {
    head.push_str(", ")?;
    if twin.line.file != rule.line.file {
        write!(head, "{}:", files.name(twin.line.file))?;
    }
    write!(head, "{} ", twin.line.line)?;
    head.push_str(spell_visibly(alloc, twin.piece.chars.as_slice())?.as_str())
}

/// The width of the heads: that of the widest, and 34 at most.
fn width_of(rows: &[Headed<'_>]) -> usize {
    rows.iter()
        .map(|row| row.head.as_str().width())
        .max()
        .unwrap_or(0)
        .min(MOST_WIDTH)
}

/// Appends a row, its head padded to a width.
fn push_row(
    alloc: Global,
    text: &mut String,
    row: &Headed<'_>,
    width: usize,
) -> Result<(), AllocError> {
    let head = row.head.as_str();
    let blanks = " ".repeat(alloc, width.saturating_sub(head.width()))?;
    writeln!(text, "    {}{}  {}", head, blanks, row.said)?;
    Ok(())
}

/// Appends a habit: how often it is, what it is, and the first rule that has it.
fn push_habit(
    found: RowSource<'_>,
    text: &mut String,
    files: &FileNames<'_>,
    habit: &Habit,
) -> Result<(), AllocError> {
    let Some(rule) = RuleOfRow::of(found.lexicon, found.lines, habit.entry) else {
        return Ok(());
    };
    write!(text, "    {} lines alike, perhaps meant: ", habit.count)?;
    found.named().push_difference(text, habit.difference)?;
    let chars = spell_visibly(found.alloc, rule.piece.chars.as_slice())?;
    writeln!(
        text,
        ", as {}:{} {}",
        files.name(rule.line.file),
        rule.line.line,
        chars
    )?;
    Ok(())
}

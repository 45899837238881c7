//! The lines of a report that list the steps of a text.
ghost use Rattle.std.specs.Prelude.{◌≡◌, ◌<◌, ◌++◌, IfOk, OnOk, Some, length, map, option_map, slice_get, string_bytes, take, drop};
ghost use Rattle.brl_lines.specs.Views.{line_view};
ghost use Rattle.brl_report.specs.Place.{place_text};
ghost use Rattle.brl_report.specs.Rows.{cells_or_none, column, column_if, filled, indicators_column, place_of_rule, row_line, row_of, rule_cells, widths_of};

use crate::rules::Lined;
use crate::steps::ReportStep;
use brl_cells::{Cell, write_dots};
use brl_lines::{Line, spell_chars};
use brl_rules::Table;
use std::alloc::{AllocError, Global};
use std::marker::Model;
use unicode_width::UnicodeWidthStr;

/// How the cells of a step are shown.
#[derive(Clone, Copy)]
pub enum CellColumns {
    /// In one column.
    Joined,
    /// In two columns: those of the indicators, then those of the rule.
    Parted,
}

/// The columns of a line: a step's characters as they are spelled, its cells in dots, and the
/// location of its rule.
#[derive(Drop)]
pub struct Row {
    characters: String,
    /// The cells of the indicators, if they have a column of their own.
    indicators: Option<String>,
    dots: String,
    place: String,
    /// The lines of the table that follow it.
    sources: String,
}

impl Model for Row {
    ghost use Rattle.std.specs.Prelude.{option_map, string_bytes};
    ghost use Rattle.brl_report.specs.Rows.{RowView};

    ghost Value = { RowView };

    ghost view = { λ r. record {
      characters = string_bytes r.characters;
      indicators = option_map string_bytes r.indicators;
      dots = string_bytes r.dots;
      place = string_bytes r.place;
      sources = string_bytes r.sources;
    } };
}

/// A file and one of its lines, as `FILE:LINE`.
pub(crate) fn place_text(
    alloc: Global,
    table: &Table,
    file: usize,
    line: u32,
) -> Result<String, AllocError>
    requires { file < length table.now.files }
    ensures { IfOk result (λ text. string_bytes text ≡ place_text table.now file line) }
{
    let mut text = String::from_str(alloc, table.file_name(file))?;
    text.push(':')?;
    write!(text, "{line}")?;
    Ok(text)
}

/// The location of a step's rule; of an own definition, that of the line that gave its character
/// its cells.
fn place_of(alloc: Global, table: &Table, step: &ReportStep) -> Result<String, AllocError>
    ensures { IfOk result (λ text. string_bytes text ≡ place_of_rule table.now (slice_get table.now.rules step.now.step.rule) step.now.characters) }
{
    table.law();
    if let Some(rule) = table.rules_in_rank().get(step.step.rule as usize) {
        return place_text(alloc, table, rule.file, rule.line);
    }
    let Some(character) = step.characters.as_slice().first() else {
        return Ok(String::new(alloc));
    };
    let Some(info) = table.info(*character) else {
        return Ok(String::new(alloc));
    };
    place_text(alloc, table, info.file, info.line)
}

/// Cells in dots, or `-` for none.
fn cells_or_none(alloc: Global, cells: &[Cell]) -> Result<String, AllocError>
    ensures { IfOk result (λ text. string_bytes text ≡ cells_or_none cells.now) }
{
    if cells.is_empty() {
        return String::from_str(alloc, "-");
    }
    write_dots(alloc, cells)
}

/// The cells of a step's indicators, if they have a column of their own.
fn indicators_column(
    alloc: Global,
    columns: CellColumns,
    step: &ReportStep,
) -> Result<Option<String>, AllocError>
    ensures { IfOk result (λ column. option_map string_bytes column ≡ indicators_column columns step.now) }
{
    match columns {
        CellColumns::Joined => Ok(None),
        CellColumns::Parted => {
            let cells = step.step.cells.as_slice();
            let indicators = cells.get(..step.step.indicators).unwrap_or(cells);
            Ok(Some(cells_or_none(alloc, indicators)?))
        }
    }
}

/// The cells of a step in the column of its rule.
fn rule_cells(columns: CellColumns, step: &ReportStep) -> &[Cell]
    ensures { result.now ≡ rule_cells columns step.now }
{
    let cells = step.step.cells.as_slice();
    match columns {
        CellColumns::Joined => cells,
        CellColumns::Parted => cells.get(step.step.indicators..).unwrap_or_default(),
    }
}

impl Row {
    /// The columns of a step, and the lines by which it is made, among these lines of the table.
    pub fn of(
        alloc: Global,
        table: &Table,
        lines: &[Line<'_>],
        columns: CellColumns,
        step: &ReportStep,
    ) -> Result<Row, AllocError>
        ensures { IfOk result (λ row. row ≡ row_of table.now (map line_view lines.now) columns step.now) }
    {
        let lined = Lined::new(alloc, table, lines);
        Ok(Row {
            characters: spell_chars(alloc, step.characters.as_slice())?,
            indicators: indicators_column(alloc, columns, step)?,
            dots: write_dots(alloc, rule_cells(columns, step))?,
            place: place_of(alloc, table, step)?,
            sources: lined.step_sources(step)?,
        })
    }

    /// Appends the line to a text, with these widths of its columns, and the lines that follow it.
    pub fn push_line(
        &self,
        alloc: Global,
        text: &mut String,
        widths: Widths,
    ) -> Result<(), AllocError>
        ensures { OnOk result (string_bytes text.new ≡ string_bytes text.old ++ row_line widths self.now) }
    {
        push_column(alloc, text, self.characters.as_str(), widths.characters)?;
        push_column_if(alloc, text, &self.indicators, widths.indicators)?;
        push_column(alloc, text, self.dots.as_str(), widths.dots)?;
        let place = self.place.as_str();
        let sources = self.sources.as_str();
        write!(text, "  {place}\n{sources}")
    }
}

/// Appends a column to a text, after two blanks, and padded with blanks to a width.
fn push_column(
    alloc: Global,
    text: &mut String,
    entry: &str,
    width: usize,
) -> Result<(), AllocError>
    ensures { OnOk result (string_bytes text.new ≡ string_bytes text.old ++ column width entry.now) }
{
    text.push_str("  ")?;
    text.push_str(entry)?;
    let blanks = " ".repeat(alloc, width.saturating_sub(entry.width()))?;
    text.push_str(blanks.as_str())
}

/// Appends the entry of a column, if the column is there.
fn push_column_if(
    alloc: Global,
    text: &mut String,
    entry: &Option<String>,
    width: usize,
) -> Result<(), AllocError>
    ensures { OnOk result (string_bytes text.new ≡ string_bytes text.old ++ column_if width (option_map string_bytes entry.now)) }
{
    match entry {
        Some(entry) => push_column(alloc, text, entry.as_str(), width),
        None => Ok(()),
    }
}

/// The widths of the columns before the location.
#[derive(Clone, Copy)]
pub struct Widths {
    pub characters: usize,
    pub indicators: usize,
    pub dots: usize,
}

/// The widths that fit the columns of all rows.
pub fn widths_of(rows: &[Row]) -> Widths
    ensures { result ≡ widths_of rows.now }
{
    let mut characters = 0;
    let mut indicators = 0;
    let mut dots = 0;
    for row in rows {
        characters = characters.max(row.characters.width());
        indicators = indicators.max(row.indicators.as_ref().map_or(0, |entry| entry.width()));
        dots = dots.max(row.dots.width());
    }
    Widths {
        characters,
        indicators,
        dots,
    }
}

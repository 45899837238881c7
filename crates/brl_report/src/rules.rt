//! The list of a table's rules, by their numbers.
ghost use Rattle.std.specs.Prelude.{◌≡◌, ◌++◌, ◌-◌, ◌<◌, ◌≤◌, [], IfOk, OnOk, flat_map, length, map, option_map, string_bytes, bytes_eq};
ghost use Rattle.brl_lines.specs.Views.{line_view};
ghost use Rattle.brl_report.specs.Rules.{
  after_blanks,
  borrowed_line_view,
  defining_opcode as opcode_of_line,
  first_source,
  first_unknown as first_unknown_of,
  is_at as is_line_at,
  is_wanted as is_wanted_line,
  listed_entry,
  listed_text,
  listed_view,
  noted_rule,
  opcode_at as opcode_among,
  known_opcode as opcode_known,
  own_definition,
  rule_count as count_of_rules,
  own_number as number_of_own,
  rule_numbers as numbers_of_rules,
  rule_text,
  rule_words as words_of_rule,
  rules_text,
  said_rule,
  source_line,
  words_of,
};
ghost use Rattle.brl_report.specs.Place.{file_name as name_of_file};
ghost use Rattle.std.specs.List.{find, list_any};
ghost use Rattle.brl_table.specs.Words.{opcode_words};
ghost use Rattle.std.specs.Option.{option_map_or};

use crate::row::place_text;
use brl_cells::{Cell, write_dots};
use brl_lines::{Line, spell_visibly};
use brl_rules::{Sign, Table};
use brl_table::{OPCODES, indicator_named, opcodes_law};
use std::alloc::{AllocError, Global};
use std::slice;

/// A table, and the lines of its files.
#[derive(Clone, Copy)]
pub(crate) struct Lined<'a> {
    pub alloc: Global,
    pub table: &'a Table,
    pub lines: &'a [Line<'a>],
}

impl<'a> Lined<'a> {
    /// A table and its lines.
    pub fn new(alloc: Global, table: &'a Table, lines: &'a [Line<'a>]) -> Lined<'a>
        ensures table { result.table.now ≡ table.now }
        ensures lines { result.lines.now ≡ lines.now }
    {
        Lined {
            alloc,
            table,
            lines,
        }
    }
}

/// A rule as it is listed: its characters, its cells, and the file and line of its definition.
#[derive(Clone, Copy)]
struct Listed<'a> {
    characters: &'a [char],
    cells: &'a [Cell],
    file: usize,
    line: u32,
}

/// How a rule is written.
#[derive(Clone, Copy)]
pub(crate) enum RuleForm {
    /// As a line of the list of rules.
    Line,
    /// As such a line without its end.
    Entry,
    /// Within a line: the file and line, the opcode and the characters.
    Note,
    /// As the line of the table by which it is defined.
    Source,
    /// As what it says: the opcode, the characters and the cells.
    Words,
}

/// How many numbers the rules of a table have: those in rank, and after them the own definitions of
/// its characters.
pub(crate) fn rule_count(table: &Table) -> u32
    ensures { result ≡ count_of_rules table.now }
{
    let rules = table.rules_in_rank().len() as u32;
    rules + table.char_count() as u32
}

/// The numbers of a table's rules, from 0.
pub fn rule_numbers(alloc: Global, table: &Table) -> Result<Vec<u32>, AllocError>
    ensures { IfOk result (λ numbers. numbers.items ≡ numbers_of_rules table.now) }
{
    (0..rule_count(table)).collect(alloc)
}

/// The number of a character's own definition, where a table defines the character.
pub fn own_number(table: &Table, character: char) -> u32
    ensures { result ≡ number_of_own table.now character }
{
    let place = match table.info(character) {
        Some(info) => info.number,
        None => 0,
    };
    table.rules_in_rank().len() as u32 + place
}

/// The first of these numbers that no rule of a table has.
pub fn first_unknown(table: &Table, numbers: &[u32]) -> Option<u32>
    ensures { result ≡ first_unknown_of table.now numbers.now }
{
    let count = rule_count(table);
    numbers.iter().copied().find(|number| count <= *number)
}

/// The rules of a table that have these numbers, each with number, opcode, characters as in a
/// table, cells in dots, file and line. The opcode is that of the rule's line among the table's
/// lines. For a character's own definition these are of the line that gave it its cells. A number
/// that no rule has gives no line.
///
/// Every line ends with LF. `AllocError` if memory runs out.
pub fn rules_report(
    alloc: Global,
    table: &Table,
    lines: &[Line<'_>],
    numbers: &[u32],
) -> Result<String, AllocError>
    ensures { IfOk result (λ text. string_bytes text ≡ rules_text table.now (map line_view lines.now) numbers.now) }
{
    let lined = Lined::new(alloc, table, lines);
    let mut text = String::new(alloc);
    for number in numbers {
        lined.push_rule(*number, RuleForm::Line, &mut text)?;
    }
    Ok(text)
}

/// What the rule of a table with a number says: its opcode, its characters as in a table, and its
/// cells in dots, with a blank between two of these. The opcode is that of its line among the
/// table's lines. It names neither the rule's number nor its line. Empty where no rule has the
/// number.
pub fn rule_words(
    alloc: Global,
    table: &Table,
    lines: &[Line<'_>],
    number: u32,
) -> Result<String, AllocError>
    ensures { IfOk result (λ text. string_bytes text ≡ words_of_rule table.now (map line_view lines.now) number) }
{
    let lined = Lined::new(alloc, table, lines);
    let mut text = String::new(alloc);
    lined.push_rule(number, RuleForm::Words, &mut text)?;
    Ok(text)
}

impl<'a> Lined<'a> {
    /// Appends the rule with a number in a form, if there is one.
    pub(crate) fn push_rule(
        &self,
        number: u32,
        form: RuleForm,
        text: &mut String,
    ) -> Result<(), AllocError>
        ensures { OnOk result (string_bytes text.new ≡ string_bytes text.old ++ rule_text form self.now.table.now (map line_view self.now.lines.now) number) }
    {
        self.table.law();
        let Some(rule) = self.table.rules_in_rank().get(number as usize) else {
            return self.push_own(number, form, text);
        };
        let listed = Listed {
            characters: rule.chars.as_slice(),
            cells: rule.cells.as_slice(),
            file: rule.file,
            line: rule.line,
        };
        self.push_listed(number, form, listed, text)
    }

    /// Appends the own definition of a character in a form, if one has this number.
    fn push_own(&self, number: u32, form: RuleForm, text: &mut String) -> Result<(), AllocError>
        requires { length self.now.table.now.rules ≤ number }
        ensures { let written = listed_text form self.now.table.now (map line_view self.now.lines.now) number in
            OnOk result (string_bytes text.new ≡ string_bytes text.old ++ option_map_or written (own_definition self.now.table.now (number - length self.now.table.now.rules)) []) }
    {
        self.table.law();
        let place = number - self.table.rules_in_rank().len() as u32;
        if place as usize >= self.table.char_count() {
            return Ok(());
        }
        let character = self.table.char_at(place);
        let Some(info) = self.table.info(character) else {
            return Ok(());
        };
        let listed = Listed {
            characters: slice::from_ref(&character),
            cells: info.cells.as_slice(),
            file: info.file,
            line: info.line,
        };
        self.push_listed(number, form, listed, text)
    }

    /// Appends a rule with this number in a form.
    fn push_listed(
        &self,
        number: u32,
        form: RuleForm,
        listed: Listed<'_>,
        text: &mut String,
    ) -> Result<(), AllocError>
        requires { listed.file < length self.now.table.now.files }
        ensures { OnOk result (string_bytes text.new ≡ string_bytes text.old ++ listed_text form self.now.table.now (map line_view self.now.lines.now) number (listed_view listed.entry)) }
    {
        match form {
            RuleForm::Line => {
                self.push_entry(number, listed, text)?;
                text.push('\n')
            }
            RuleForm::Entry => self.push_entry(number, listed, text),
            RuleForm::Note => self.push_note(listed, text),
            RuleForm::Words => self.push_said(listed, text),
            RuleForm::Source => {
                let place = Wanted::At(self.table.file_name(listed.file), listed.line);
                push_source(self.lines, place, text)
            }
        }
    }

    /// Appends the entry of a rule with this number.
    fn push_entry(
        &self,
        number: u32,
        listed: Listed<'_>,
        text: &mut String,
    ) -> Result<(), AllocError>
        requires { listed.file < length self.now.table.now.files }
        ensures { OnOk result (string_bytes text.new ≡ string_bytes text.old ++ listed_entry self.now.table.now (map line_view self.now.lines.now) number (listed_view listed.entry)) }
    {
        write!(text, "{number}")?;
        let opcode = opcode_at(self.table.file_name(listed.file), listed.line, self.lines);
        push_after_blanks(text, opcode)?;
        push_after_blanks(text, spell_visibly(self.alloc, listed.characters)?.as_str())?;
        push_after_blanks(text, write_dots(self.alloc, listed.cells)?.as_str())?;
        let place = place_text(self.alloc, self.table, listed.file, listed.line)?;
        push_after_blanks(text, place.as_str())
    }

    /// Appends the file and line of a rule, its opcode and its characters, after two blanks.
    fn push_note(&self, listed: Listed<'_>, text: &mut String) -> Result<(), AllocError>
        requires { listed.file < length self.now.table.now.files }
        ensures { OnOk result (string_bytes text.new ≡ string_bytes text.old ++ noted_rule self.now.table.now (map line_view self.now.lines.now) (listed_view listed.entry)) }
    {
        let place = place_text(self.alloc, self.table, listed.file, listed.line)?;
        push_after_blanks(text, place.as_str())?;
        text.push(' ')?;
        text.push_str(opcode_at(self.table.file_name(listed.file), listed.line, self.lines))?;
        text.push(' ')?;
        text.push_str(spell_visibly(self.alloc, listed.characters)?.as_str())
    }

    /// Appends what a rule says.
    fn push_said(&self, listed: Listed<'_>, text: &mut String) -> Result<(), AllocError>
        requires { listed.file < length self.now.table.now.files }
        ensures { OnOk result (string_bytes text.new ≡ string_bytes text.old ++ said_rule self.now.table.now (map line_view self.now.lines.now) (listed_view listed.entry)) }
    {
        let opcode = self.opcode_of(listed);
        let characters = spell_visibly(self.alloc, listed.characters)?;
        let cells = write_dots(self.alloc, listed.cells)?;
        write!(text, "{opcode} {characters} {cells}")
    }

    /// The opcode of a rule's line, and `rule` where it is none of the profile.
    fn opcode_of(&self, listed: Listed<'_>) -> &'a str
        requires { listed.file < length self.now.table.now.files }
        ensures { result.now ≡ opcode_known (opcode_among (name_of_file self.now.table.now listed.entry.file) listed.entry.line (map line_view self.now.lines.now)) }
    {
        known_opcode(opcode_at(self.table.file_name(listed.file), listed.line, self.lines))
    }
}

/// A word that is an opcode of the profile, and `rule` for any other.
fn known_opcode<'a>(word: &'a str) -> &'a str
    ensures { result.now ≡ opcode_known word.now }
{
    if is_opcode(word) { word } else { "rule" }
}

/// Whether a word is an opcode of the profile.
fn is_opcode(word: &str) -> bool
    ensures { result ≡ list_any (bytes_eq word.now) opcode_words }
{
    opcodes_law();
    is_among(&OPCODES, word)
}

/// Whether a word is one of these.
fn is_among(words: &[&str], word: &str) -> bool
    ensures { result ≡ list_any (bytes_eq word.now) (map (λ own. own.now) words.now) }
{
    words.iter().any(|own| word == *own)
}

/// Appends an entry after two blanks.
pub(crate) fn push_after_blanks(text: &mut String, entry: &str) -> Result<(), AllocError>
    ensures { OnOk result (string_bytes text.new ≡ string_bytes text.old ++ after_blanks entry.now) }
{
    text.push_str("  ")?;
    text.push_str(entry)
}

/// The opcode of the first of these lines at a place; empty where none is there.
fn opcode_at<'a>(file: &str, number: u32, lines: &[Line<'a>]) -> &'a str
    ensures { result.now ≡ opcode_among file.now number (map line_view lines.now) }
{
    match first_line(lines, Wanted::At(file, number)) {
        Some(line) => defining_opcode(line),
        None => "",
    }
}

/// Which line of a table is looked for.
#[derive(Clone, Copy)]
pub enum Wanted<'a> {
    /// That of this file with this number.
    At(&'a str, u32),
    /// That which gives this indicator its cells.
    Giving(Sign),
}

/// The first of these lines that is looked for.
pub fn first_line<'l, 'a>(lines: &'l [Line<'a>], wanted: Wanted<'_>) -> Option<&'l Line<'a>>
    ensures { option_map borrowed_line_view result ≡ find (is_wanted_line wanted.entry) (map line_view lines.now) }
{
    lines.iter().find(|line| is_wanted(*line, wanted))
}

/// Whether a line is the one that is looked for.
fn is_wanted(line: &Line<'_>, wanted: Wanted<'_>) -> bool
    ensures { result ≡ is_wanted_line wanted.entry (line_view line.now) }
{
    match wanted {
        Wanted::At(file, number) => is_at(line, file, number),
        Wanted::Giving(sign) => indicator_named(line.opcode.text) == Some(sign),
    }
}

/// Whether a line is at this place.
fn is_at(line: &Line<'_>, file: &str, number: u32) -> bool
    ensures { result ≡ is_line_at file.now number (line_view line.now) }
{
    line.line == number && line.file == file
}

/// The opcode by which a line defines a rule or a character: its first word, and after `noback` the
/// next.
fn defining_opcode<'a>(line: &Line<'a>) -> &'a str
    ensures { result.now ≡ opcode_of_line (line_view line.now) }
{
    if line.opcode.text != "noback" {
        return line.opcode.text;
    }
    line.operands.first().map_or("", |next| next.text)
}

/// Appends the first of these lines that is looked for, if there is one: its file and number, and
/// its words.
pub(crate) fn push_source(
    lines: &[Line<'_>],
    wanted: Wanted<'_>,
    text: &mut String,
) -> Result<(), AllocError>
    ensures { OnOk result (string_bytes text.new ≡ string_bytes text.old ++ first_source (is_wanted_line wanted.entry) (map line_view lines.now)) }
{
    match first_line(lines, wanted) {
        Some(line) => push_source_line(line, text),
        None => Ok(()),
    }
}

/// Appends a line of a table: its file and number, and its words.
pub fn push_source_line(line: &Line<'_>, text: &mut String) -> Result<(), AllocError>
    ensures { OnOk result (string_bytes text.new ≡ string_bytes text.old ++ source_line (line_view line.now)) }
{
    write!(text, "    {}:{}: ", line.file, line.line)?;
    push_words(line, text)?;
    text.push('\n')
}

/// Appends the words of a line, with a blank between two.
pub fn push_words(line: &Line<'_>, text: &mut String) -> Result<(), AllocError>
    ensures { OnOk result (string_bytes text.new ≡ string_bytes text.old ++ words_of (line_view line.now)) }
{
    text.push_str(line.opcode.text)?;
    for word in &line.operands {
        text.push(' ')?;
        text.push_str(word.text)?;
    }
    Ok(())
}

//! The examples of a kind of pairs of rules. Which are shown, and how, is a matter of what a person
//! reads first: no contract speaks of it.
use crate::PairKind;
use crate::representatives::own_character;
use crate::section_text::Listing;
use crate::sets::small_letter;
use brl_cells::write_dots;
use brl_lines::spell_visibly;
use brl_report::rule_words;
use brl_rules::Rule;
use brl_search::RuleClash;
use brl_slips::FileNames;
use std::alloc::AllocError;
use unicode_width::UnicodeWidthStr;

/// The most columns of a line.
const MOST_COLUMNS: usize = 100;

/// The columns before the title of a kind, and those after it before its examples.
const AROUND_TITLE: usize = 11;

/// The columns that are kept for the number of pairs that aren't shown, and for what is before it.
const FOR_MORE: usize = 15;

/// Clashes in order, and their kinds, as many.
#[derive(Clone, Copy)]
pub struct Examples<'a> {
    pub listing: Listing<'a>,
    pub clashes: &'a [RuleClash],
    pub kinds: &'a [PairKind],
}

/// The examples of a kind: the texts of as many pairs as fit where they are single characters, else
/// a line for each of the first pairs that have different rules.
pub fn examples_of(examples: Examples<'_>, kind: PairKind) -> Result<String, AllocError> {
    match kind {
        PairKind::Cells => examples.texts_in_line(kind),
        PairKind::Alike => examples.lines(kind, 8),
        PairKind::Rules => examples.lines(kind, 2),
        _ => examples.lines(kind, 1),
    }
}

impl<'a> Examples<'a> {
    /// The clashes of a kind, in order.
    fn of_kind(self, kind: PairKind) -> Result<Vec<&'a RuleClash>, AllocError> {
        let mut found = Vec::new(self.listing.alloc);
        for (clash, other) in self.clashes.iter().zip(self.kinds) {
            if kind.is(*other) {
                found.push(clash)?;
            }
        }
        Ok(found)
    }

    /// The texts of as many pairs as fit into the line of a kind, and how many more there are.
    fn texts_in_line(self, kind: PairKind) -> Result<String, AllocError> {
        let room = (MOST_COLUMNS - AROUND_TITLE - FOR_MORE).saturating_sub(kind.title().width());
        let clashes = self.of_kind(kind)?;
        let mut text = String::new(self.listing.alloc);
        for (place, clash) in clashes.iter().enumerate() {
            let texts = self.texts(clash)?;
            if place > 0 && text.width().saturating_add(texts.width()) > room {
                write!(text, ", {} more", clashes.len().saturating_sub(place))?;
                return Ok(text);
            }
            if place > 0 {
                text.push_str(", ")?;
            }
            text.push_str(texts.as_str())?;
        }
        Ok(text)
    }

    /// A line for each of the first pairs of a kind that have a rule that wasn't shown before, or
    /// own definitions alone.
    fn lines(self, kind: PairKind, most: usize) -> Result<String, AllocError> {
        let indent = AROUND_TITLE.saturating_add(kind.title().width());
        let mut seen = Vec::new(self.listing.alloc);
        let mut text = String::new(self.listing.alloc);
        let mut count = 0;
        for clash in &self.of_kind(kind)? {
            if count == most {
                return Ok(text);
            }
            if self.repeats(seen.as_slice(), clash) {
                continue;
            }
            seen.push(clash.lesser)?;
            seen.push(clash.greater)?;
            if count > 0 {
                text.push('\n')?;
                text.push_str(" ".repeat(self.listing.alloc, indent)?.as_str())?;
            }
            text.push_str(self.line(clash, indent)?.as_str())?;
            count = count.saturating_add(1);
        }
        Ok(text)
    }

    /// Whether each rule of a clash that is no own definition is among these, and there is one.
    fn repeats(self, seen: &[u32], clash: &RuleClash) -> bool {
        let rules = [clash.lesser, clash.greater];
        let all = rules
            .iter()
            .all(|rule| self.rule(*rule).is_none() || seen.contains(rule));
        all && self.rule(clash.lesser).is_some()
    }

    /// The rule with a number, unless it is an own definition.
    fn rule(self, number: u32) -> Option<&'a Rule> {
        self.listing.table.rules_in_rank().get(number as usize)
    }

    /// The line of a pair after some columns: its texts, the two characters that alone differ, and
    /// its rules. Opcodes and characters of rules are left out where they don't fit, and then the
    /// two characters.
    fn line(self, clash: &RuleClash, indent: usize) -> Result<String, AllocError> {
        let mut line = self.texts(clash)?;
        let differing = self.differing(clash)?;
        let columns = indent
            .saturating_add(line.width())
            .saturating_add(differing.width());
        let rules = match self.rules_within(clash, differing.is_empty(), columns)? {
            Some(rules) => {
                line.push_str(differing.as_str())?;
                rules
            }
            None => self.rules(clash, true, false)?,
        };
        line.push_str(rules.as_str())?;
        Ok(line)
    }

    /// The rules of a clash after this many columns, with their opcodes and characters where these
    /// fit, or without, if they fit so.
    fn rules_within(
        self,
        clash: &RuleClash,
        defines: bool,
        columns: usize,
    ) -> Result<Option<String>, AllocError> {
        for long in [true, false].iter() {
            let rules = self.rules(clash, defines, *long)?;
            if columns.saturating_add(rules.width()) <= MOST_COLUMNS {
                return Ok(Some(rules));
            }
        }
        Ok(None)
    }

    /// The texts of a clash.
    fn texts(self, clash: &RuleClash) -> Result<String, AllocError> {
        let alloc = self.listing.alloc;
        let left = spell_visibly(alloc, clash.clash.left())?;
        let right = spell_visibly(alloc, clash.clash.right())?;
        format!(in alloc; "{left} / {right}")
    }

    /// The two characters that alone differ in the texts of a clash, with their cells, after two
    /// blanks. Empty where other characters differ too.
    fn differing(self, clash: &RuleClash) -> Result<String, AllocError> {
        let alloc = self.listing.alloc;
        let mut text = String::new(alloc);
        if let Some((c, d)) = only_difference(clash.clash.left(), clash.clash.right()) {
            text.push_str("  ")?;
            self.push_own(c, &mut text)?;
            text.push_str(", ")?;
            self.push_own(d, &mut text)?;
        }
        Ok(text)
    }

    /// The rules of a clash after two blanks, with their opcodes and characters or without, and its
    /// own definitions where these are asked for. Empty where none is named.
    fn rules(self, clash: &RuleClash, defines: bool, long: bool) -> Result<String, AllocError> {
        let names = FileNames::of_lines(self.listing.alloc, self.listing.lines)?;
        let mut text = String::new(self.listing.alloc);
        let mut last = "";
        for number in [clash.lesser, clash.greater].iter() {
            if !defines && self.rule(*number).is_none() {
                continue;
            }
            text.push_str(if text.is_empty() { "  " } else { ", " })?;
            last = self.push_rule(&names, last, *number, long, &mut text)?;
        }
        Ok(text)
    }

    /// Appends a rule: an own definition as its character and cells; another one by its file,
    /// unless that is `last`, and line, and by its opcode and characters where these are asked for.
    /// Gives the file that was named last.
    fn push_rule(
        self,
        names: &FileNames<'_>,
        last: &'a str,
        number: u32,
        long: bool,
        text: &mut String,
    ) -> Result<&'a str, AllocError> {
        let Listing {
            alloc,
            table,
            lines,
            ..
        } = self.listing;
        table.law();
        let Some(rule) = table.rules_in_rank().get(number as usize) else {
            if let Some(character) = own_character(table, number) {
                self.push_own(character, text)?;
            }
            return Ok(last);
        };
        let file = table.file_name(rule.file);
        if file != last {
            write!(text, "{}:", names.name(file))?;
        }
        write!(text, "{}", rule.line)?;
        if long {
            let words = rule_words(alloc, table, lines, number)?;
            write!(text, " {}", without_last(words.as_str()))?;
        }
        Ok(file)
    }

    /// Appends a character and the cells of its own definition.
    fn push_own(self, character: char, text: &mut String) -> Result<(), AllocError> {
        let Listing { alloc, table, .. } = self.listing;
        text.push_str(spell_visibly(alloc, &[character])?.as_str())?;
        text.push(' ')?;
        match table.info(small_letter(table, character)) {
            Some(info) => text.push_str(write_dots(alloc, info.cells.as_slice())?.as_str()),
            None => Ok(()),
        }
    }
}

/// The two characters that alone differ in two texts of one length.
fn only_difference(left: &[char], right: &[char]) -> Option<(char, char)> {
    if left.len() != right.len() {
        return None;
    }
    let mut places = left.iter().zip(right).filter(|(c, d)| c != d);
    let (c, d) = places.next()?;
    match places.next() {
        Some(_) => None,
        None => Some((*c, *d)),
    }
}

/// Words without the last one.
fn without_last(words: &str) -> &str {
    match words.rfind(' ') {
        Some(end) => words.get(..end).unwrap_or(words),
        None => words,
    }
}

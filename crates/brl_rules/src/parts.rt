//! The parts from which a table is made.
ghost use Rattle.std.specs.Prelude.{◌↔◌, ◌<◌, ◌≤◌, All, IsTrue, IsSome, length, nat_eq};
ghost use Rattle.std.specs.List.{IsDistinct};
ghost use Rattle.std.specs.Map.{keys_of};
ghost use Rattle.brl_rules.specs.Limits.{AreFew, AreNumbered, AreParts, IsAmong, IsEntry, IsRule};
ghost use Rattle.brl_rules.specs.Views.{parts_view};

use crate::{Indicators, Info, Notice, Rule};
use indexmap::IndexMap;

/// The parts of a table, for `Table::from_parts`.
#[derive(Drop)]
pub struct TableParts {
    /// The characters in the order of their first definitions, with their infos.
    pub characters: IndexMap<char, Info>,
    /// The used rules in the order of their lines.
    pub rules: Vec<Rule>,
    /// The cells of the indicators.
    pub signs: Indicators,
    /// The names of the table's files, by their numbers.
    pub files: Vec<String>,
    /// The lines that define a character again, in order.
    pub notices: Vec<Notice>,
}

impl TableParts {
    /// Whether a table can be made of these parts. It may have at most 1,024 characters, each with
    /// its place as its number, with 1 to 16 cells and a defined fold; at most 4,096 rules, each of
    /// 1 to 32 defined characters and 1 to 512 cells; and at most 16 cells for an indicator. Every
    /// file number has a name.
    pub fn are_valid(&self) -> bool
        ensures { IsTrue result ↔ AreParts (parts_view self.now) }
    {
        self.are_few()
            && self.are_numbered()
            && self.entries_are_valid()
            && self.rules_are_valid()
            && self.notices_are_valid()
    }

    /// Whether no list is too long.
    fn are_few(&self) -> bool
        ensures few { IsTrue result ↔ AreFew (parts_view self.now) }
        ensures distinct { IsDistinct nat_eq (keys_of (parts_view self.now).characters) }
    {
        self.characters.len() <= 1024 && self.rules.len() <= 4096 && self.signs.are_few(16)
    }

    /// Whether the number of each character is its place.
    fn are_numbered(&self) -> bool
        ensures { IsTrue result ↔ AreNumbered (parts_view self.now).characters }
    {
        for place in 0..self.characters.len() {
            let (_, info) = self.characters.get_index(place).unwrap();
            if info.number as usize != place {
                return false;
            }
        }
        true
    }

    /// Whether the info of each character is valid.
    fn entries_are_valid(&self) -> bool
        ensures { let t = parts_view self.now in
            IsTrue result ↔ All (λ entry. IsEntry t.characters (length t.files) entry.1) t.characters }
    {
        for place in 0..self.characters.len() {
            let (_, info) = self.characters.get_index(place).unwrap();
            if !self.is_entry(info) {
                return false;
            }
        }
        true
    }

    /// Whether an info is valid.
    fn is_entry(&self, info: &Info) -> bool
        ensures { let t = parts_view self.now in
            IsTrue result ↔ IsEntry t.characters (length t.files) info.now }
    {
        let cells = info.cells.len();
        1 <= cells && cells <= 16 && self.defines(info.fold) && self.names(info.file)
    }

    /// Whether each rule is valid.
    fn rules_are_valid(&self) -> bool
        ensures { let t = parts_view self.now in
            IsTrue result ↔ All (IsRule t.characters (length t.files)) t.rules }
    {
        self.rules.iter().all(|rule| self.is_rule(rule))
    }

    /// Whether a rule is valid.
    fn is_rule(&self, rule: &Rule) -> bool
        ensures { let t = parts_view self.now in
            IsTrue result ↔ IsRule t.characters (length t.files) rule.now }
    {
        let chars = rule.chars.len();
        let cells = rule.cells.len();
        1 <= chars
            && chars <= 32
            && self.defines_all(rule.chars.as_slice())
            && 1 <= cells
            && cells <= 512
            && self.names(rule.file)
    }

    /// Whether the file number of each notice has a name.
    fn notices_are_valid(&self) -> bool
        ensures { let t = parts_view self.now in
            IsTrue result ↔ All (λ notice. notice.file < length t.files) t.notices }
    {
        self.notices.iter().all(|notice| self.names(notice.file))
    }

    /// Whether all these characters are defined.
    fn defines_all(&self, chars: &[char]) -> bool
        ensures { IsTrue result ↔ All (IsAmong (parts_view self.now).characters) chars.now }
    {
        chars.iter().all(|character| self.defines(*character))
    }

    /// Whether a character is defined.
    fn defines(&self, character: char) -> bool
        ensures { IsTrue result ↔ IsAmong (parts_view self.now).characters character }
    {
        self.characters.contains_key(&character)
    }

    /// Whether a file number has a name.
    fn names(&self, file: usize) -> bool
        ensures { IsTrue result ↔ (file < length (parts_view self.now).files) }
    {
        file < self.files.len()
    }
}

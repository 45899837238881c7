//! A table, and what it gives for characters, rules, indicators and files.
ghost use Rattle.std.specs.Prelude.{◌≡◌, ◌<◌, ◌≤◌, length, map, slice_get, Some, IfOk, OnOk, IfSome, option_copied};
ghost use Rattle.std.specs.List.Sorted.{IsPermutation};
ghost use Rattle.std.specs.Ordering.{is_lt};
ghost use Rattle.brl_rules.specs.Limits.{AreParts, IsTable};
ghost use Rattle.brl_rules.specs.Rank.{IsInRank, IsRanking, outranks};
ghost use Rattle.brl_rules.specs.TableView.{info_of, indicator_cells};
ghost use Rattle.brl_rules.specs.Text.{classes_at as classes_there, classes_of};
ghost use Rattle.brl_rules.specs.Tree.{IsTreeOf};
ghost use Rattle.brl_rules.specs.Views.{parts_view};

use crate::pages::Pages;
use crate::tree::RuleTree;
use crate::{Class, Info, Notice, Rule, Sign, TableParts};
use brl_cells::Cell;
use std::alloc::AllocError;
use std::cmp::Ordering;
use std::marker::Model;

/// A braille table. A contract sees a `TableView`.
#[derive(Drop)]
pub struct Table {
    /// The parts, with the rules in rank.
    parts: TableParts,
    /// The places of the characters among the parts.
    pages: Pages,
    /// The tree of the rules.
    tree: RuleTree,
}

impl Model for Table {
    ghost use Rattle.brl_rules.specs.TableView.{TableView};
    ghost use Rattle.brl_rules.specs.Tree.{IsIndexed};
    ghost use Rattle.brl_rules.specs.Views.{parts_view};

    ghost Value = { TableView };

    ghost view = { λ t. parts_view t.parts };

    ghost invariant = { λ t. IsIndexed (parts_view t.parts) t.pages t.tree };
}

impl Table {
    /// The table of these parts, with its rules put in rank.
    pub fn from_parts(parts: TableParts) -> Result<Table, AllocError>
        requires { AreParts (parts_view parts) }
        ensures characters { IfOk result (λ t. t.characters ≡ (parts_view parts).characters) }
        ensures rules { IfOk result (λ t. IsRanking (parts_view parts).rules t.rules) }
        ensures signs { IfOk result (λ t. t.signs ≡ (parts_view parts).signs) }
        ensures files { IfOk result (λ t. t.files ≡ (parts_view parts).files) }
        ensures notices { IfOk result (λ t. t.notices ≡ (parts_view parts).notices) }
    {
        let mut parts = parts;
        rank(&mut parts.rules)?;
        let alloc = *parts.rules.allocator();
        let pages = Pages::of_characters(alloc, &parts.characters)?;
        let tree = RuleTree::of_rules(alloc, parts.rules.as_slice())?;
        Ok(Table { parts, pages, tree })
    }

    /// A law: every table keeps its limits, and its rules are in rank.
    pub fn law(&self)
        ensures { IsTable self.now }
    {
        let _ = &self.parts;
    }

    /// What the table has of a character; `None` where it doesn't define it.
    pub fn info(&self, character: char) -> Option<&Info>
        ensures value { option_copied result ≡ info_of self.now character }
        ensures number { IfSome result (λ info. info.now.number < 1024) }
    {
        let (_, info) = self
            .parts
            .characters
            .get_index(self.pages.place(character))?;
        Some(info)
    }

    /// The classes of a character: none where the table doesn't define it.
    fn classes(&self, character: char) -> Class
        ensures { result ≡ classes_of self.now character }
    {
        match self.info(character) {
            Some(info) => info.classes,
            None => Class::NONE,
        }
    }

    /// The classes of the character at a place of a text, and class space after the text's end.
    pub(crate) fn classes_at(&self, text: &[char], place: usize) -> Class
        ensures { result ≡ classes_there self.now text.now place }
    {
        match text.get(place) {
            Some(character) => self.classes(*character),
            None => Class::SPACE,
        }
    }

    /// The number of characters that the table defines, at most 1,024.
    pub fn char_count(&self) -> usize
        ensures count { result ≡ length self.now.characters }
        ensures few { result ≤ 1024 }
    {
        self.parts.characters.len()
    }

    /// The character with this number, from 0, in the order of first definitions.
    pub fn char_at(&self, number: u32) -> char
        requires { number < length self.now.characters }
        ensures { slice_get (map (λ entry. entry.0) self.now.characters) number ≡ Some result }
    {
        let (character, _) = self.parts.characters.get_index(number as usize).unwrap();
        *character
    }

    /// The used rules in rank, at most 4,096. A rule's number is its place here, from 0.
    pub fn rules_in_rank(&self) -> &[Rule]
        ensures rules { result.now ≡ self.now.rules }
        ensures few { length result.now ≤ 4096 }
    {
        self.parts.rules.as_slice()
    }

    /// The tree of the used rules, which are in rank.
    pub(crate) fn tree(&self) -> &RuleTree
        ensures tree { IsTreeOf self.now.rules result.now }
        ensures rank { IsInRank self.now.rules }
    {
        &self.tree
    }

    /// The cells of an indicator, at most 16: none where it isn't defined.
    pub fn indicator(&self, sign: Sign) -> &[Cell]
        ensures cells { result.now ≡ indicator_cells self.now sign }
        ensures few { length result.now ≤ 16 }
    {
        self.parts.signs.cells(sign)
    }

    /// The name of the file with this number, which a rule, an info or a notice of the table gives.
    pub fn file_name(&self, number: usize) -> &str
        requires { number < length self.now.files }
        ensures { slice_get self.now.files number ≡ Some result.now }
    {
        self.parts.files[number].as_str()
    }

    /// The lines that define a character again, in order.
    pub fn notices(&self) -> &[Notice]
        ensures { result.now ≡ self.now.notices }
    {
        self.parts.notices.as_slice()
    }
}

/// Puts rules in rank: longer ones first, of one length those that are placed before `always`
/// rules, and else in the order that they have.
fn rank(rules: &mut Vec<Rule>) -> Result<(), AllocError>
    ensures ranking { OnOk result (IsRanking rules.old.items rules.new.items) }
    ensures permutation { IsPermutation rules.old.items rules.new.items }
{
    rules.sort_by(|a, b| order_of(a, b))?;
    Ok(())
}

/// The order of two rules in rank, where that of their lines doesn't decide.
fn order_of(rule: &Rule, other: &Rule) -> Ordering
    ensures { is_lt result ≡ outranks rule.now other.now }
{
    let by_length = other.chars.len().cmp(&rule.chars.len());
    by_length.then(other.place.is_placed().cmp(&rule.place.is_placed()))
}

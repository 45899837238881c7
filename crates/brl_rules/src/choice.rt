//! The rule that a table chooses at the start of a rest of a text, found by the tree of its rules.
ghost use Rattle.std.specs.Prelude.{◌≡◌, ◌<◌, ◌≤◌, length, slice_get, IfSome, Some};
ghost use Rattle.std.specs.List.{find, position_from};
ghost use Rattle.brl_rules.specs.Choice.{fits, place_allows, place_allows_number, chosen, chosen_number, IsChoice};
ghost use Rattle.brl_rules.specs.Infos.{first_info};
ghost use Rattle.brl_rules.specs.Text.{fold_of, is_in_caps_run};
ghost use Rattle.brl_rules.specs.Tree.{mark_of};

use crate::tree::RuleTree;
use crate::{Class, Cond, Info, Rule, Table, holds};
use bitflags::Flags;
use brl_cells::Cell;

/// The rule that is chosen at the start of a rest.
#[derive(Clone, Copy)]
pub struct Choice<'a> {
    /// The place of the rule in rank, from 0. After the rules come the own definitions, by the
    /// numbers of their characters.
    pub number: u32,
    /// The number of characters that it takes.
    pub taken: usize,
    /// Its cells, without indicators.
    pub cells: &'a [Cell],
}

impl Table {
    /// The rule that the table chooses at the start of `rest`: the first in rank that fits, else
    /// the own definition. It takes one character or more. `rest` is the text to its end, after a
    /// character with these classes. The own definition is that of its first character.
    pub fn choice(&self, before: Class, rest: &[char]) -> Choice<'_>
        requires { 0 < length rest.now }
        ensures choice { IsChoice result (chosen self.now before rest.now) }
        ensures some { 0 < result.taken }
        ensures room { result.taken ≤ length rest.now }
    {
        self.law();
        match self.info(rest[0]) {
            Some(info) => {
                let run = self.is_in_caps_run_of(info, before, rest);
                self.choice_of(info, run, before, rest)
            }
            None => Choice {
                number: self.rules_in_rank().len() as u32,
                taken: 1,
                cells: &[],
            },
        }
    }

    /// The choice for `rest`, given the info of its first character and whether it begins in a run
    /// of capitals.
    pub fn choice_of<'a>(
        &'a self,
        info: &'a Info,
        run: bool,
        before: Class,
        rest: &[char],
    ) -> Choice<'a>
        requires info { first_info self.now rest.now ≡ Some info.now }
        requires run { run ≡ is_in_caps_run self.now before rest.now }
        ensures choice { IsChoice result (chosen self.now before rest.now) }
        ensures some { 0 < result.taken }
        ensures room { result.taken ≤ length rest.now }
    {
        self.law();
        match self.fitting_rule(info.fold, run, before, rest) {
            Some(number) => {
                let rule = &self.rules_in_rank()[number as usize];
                Choice {
                    number,
                    taken: rule.chars.len(),
                    cells: rule.cells.as_slice(),
                }
            }
            None => Choice {
                number: self.rules_in_rank().len() as u32 + info.number,
                taken: 1,
                cells: info.cells.as_slice(),
            },
        }
    }

    /// The number of the rule chosen at the start of `rest`; `None` where that is empty or the
    /// table doesn't define its first character. The character before has these classes. The number
    /// of a rule is its place in rank, from 0; after the rules come the own definitions by the
    /// numbers of their characters.
    pub fn choose(&self, before: Class, rest: &[char]) -> Option<u32>
        ensures { result ≡ chosen_number self.now before rest.now }
    {
        let info = self.info(*rest.first()?)?;
        let run = self.is_in_caps_run_of(info, before, rest);
        Some(self.choice_of(info, run, before, rest).number)
    }

    /// The number of the first rule in rank that fits at the start of `rest`, whose first character
    /// has this fold. `None` where no rule fits.
    fn fitting_rule(&self, fold: char, run: bool, before: Class, rest: &[char]) -> Option<u32>
        requires fold { IfSome (slice_get rest.now 0) (λ first. fold ≡ fold_of self.now first) }
        requires run { run ≡ is_in_caps_run self.now before rest.now }
        ensures { result ≡ position_from (fits self.now before rest.now) 0 self.now.rules }
    {
        let (_, others) = rest.split_first()?;
        let tree = self.tree();
        let mut node = tree.branch(RuleTree::ROOT, fold)?;
        let mut best = None;
        for taken in 0..rest.len() {
            best = self.first_allowed(tree.rules(node), before, rest).or(best);
            let Some(character) = others.get(taken) else {
                return best;
            };
            let Some(mark) = self.mark_of(run, *character) else {
                return best;
            };
            let Some(branch) = tree.branch(node, mark) else {
                return best;
            };
            node = branch;
        }
        best
    }

    /// The character by which the walk goes on at this one: in a run of capitals its fold, and none
    /// where it isn't a capital.
    fn mark_of(&self, run: bool, character: char) -> Option<char>
        ensures { result ≡ mark_of self.now run character }
    {
        if !run {
            return Some(character);
        }
        let info = self.info(character)?;
        if info.classes.intersects(Class::UPPERCASE) {
            Some(info.fold)
        } else {
            None
        }
    }

    /// The first of the rules with these numbers whose place allows it at the start of `rest`.
    fn first_allowed(&self, numbers: &[u32], before: Class, rest: &[char]) -> Option<u32>
        ensures { result ≡ find (place_allows_number self.now before rest.now) numbers.now }
    {
        numbers
            .iter()
            .copied()
            .find(|number| self.place_allows_number(before, rest, *number))
    }

    /// Whether there is a rule with this number, and its place allows it at the start of `rest`.
    fn place_allows_number(&self, before: Class, rest: &[char], number: u32) -> bool
        ensures { result ≡ place_allows_number self.now before rest.now number }
    {
        match self.rules_in_rank().get(number as usize) {
            Some(rule) => self.place_allows(before, rest, rule),
            None => false,
        }
    }

    /// Whether a rule's place allows it at the start of `rest`: the neighbours meet its conditions.
    fn place_allows(&self, before: Class, rest: &[char], rule: &Rule) -> bool
        ensures { result ≡ place_allows self.now before rest.now rule.now }
    {
        holds(rule.place.before(), before)
            && match rule.place.after(before) {
                Cond::Any => true,
                after => holds(after, self.classes_at(rest, rule.chars.len())),
            }
    }
}

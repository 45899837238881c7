//! The rules that are ranked above the one that a step takes.
ghost use Rattle.std.specs.Prelude.{◌≡◌, ◌<◌, ◌&&◌, length, true, IfOk, IsTrue};
ghost use Rattle.brl_rules.specs.Text.{has_word_capitals};
ghost use Rattle.brl_dues.specs.Adding.{Adds};
ghost use Rattle.brl_dues.specs.Capitals.{is_upper};
ghost use Rattle.brl_dues.specs.Carry.{bars_past, carry_bar as bar_carried, carry_out};
ghost use Rattle.brl_rules.specs.TableView.{TableView};

use crate::carry::{Carried, add, carry_bar};
use crate::cased::CasedTable;
use crate::runs::add_caps_run_bars;
use brl_rules::{Class, Cond};
use brl_states::Due;
use std::alloc::{AllocError, Global};
use std::marker::Model;

/// A rule that is ranked above, without its first character. A contract sees its other characters
/// and its after-condition.
#[derive(Drop)]
pub struct Above<'a> {
    others: &'a [char],
    after: Cond,
}

impl<'a> Model for Above<'a> {
    ghost use Rattle.std.specs.Prelude.{ℕ, List};
    ghost use Rattle.brl_rules.specs.declared.place.Cond.{Cond as CondValue};

    ghost Value = { List ℕ × CondValue };

    ghost view = { λ a. (a.others.now, a.after) };
}

impl<'a> Above<'a> {
    /// A rule with these characters after its first one, and this after-condition.
    pub fn new(others: &'a [char], after: Cond) -> Above<'a>
        ensures { result ≡ (others.now, after) }
    {
        Above { others, after }
    }

    /// Carries the bar of each form of this rule that begins with `character` past the characters
    /// `past`, and appends what is left of it to `found`. The forms are those in a run of capitals
    /// or out of one, after a character of the classes `before`; `cased` says whether a run may
    /// begin with the character. False if a bar is broken.
    pub fn add_bars(
        &self,
        alloc: Global,
        table: &CasedTable<'_>,
        before: Class,
        character: char,
        cased: bool,
        run: bool,
        past: &[char],
        found: &mut Vec<Due>,
    ) -> Result<bool, AllocError>
        requires { cased ≡ (has_word_capitals table.now && is_upper table.now character) }
        ensures { IfOk result (λ whole. Adds (bars_past table.now before run character past.now self.now.0 self.now.1) found.old.items found.new.items whole) }
    {
        if run {
            return add_caps_run_bars(alloc, table, past, self.others, self.after, found);
        }
        // Most rules above differ from what is read.
        if self.is_settled(past) {
            return Ok(true);
        }
        if cased {
            let next = table.further(before, false, character, self.others);
            if next.is_none() {
                return Ok(true);
            }
        }
        let left = carry_bar(alloc, table.table(), past, self.others, self.after)?;
        add(left, found)
    }

    /// Whether the last of the characters `past` is another one than the rule has there, so that
    /// nothing is left of its bar out of a run of capitals.
    fn is_settled(&self, past: &[char]) -> bool
        ensures { (t : TableView) → IsTrue result → bar_carried t past.now self.now.0 self.now.1 ≡ Carried.Settled }
    {
        !past.is_empty() && self.differs_at(past, past.len() - 1)
    }

    /// Whether the rule has a character at this place of the characters `past`, and another one.
    fn differs_at(&self, past: &[char], place: usize) -> bool
        requires { place < length past.now }
        ensures { (t : TableView) → IsTrue result → bar_carried t past.now self.now.0 self.now.1 ≡ Carried.Settled }
    {
        match self.others.get(place) {
            Some(other) => *other != past[place],
            None => false,
        }
    }
}

//! The rules that are ranked above the one that a step takes, found by their second characters.
ghost use Rattle.std.specs.Prelude.{◌≡◌, ◌==◌, [], ◌∷◌, ◌++◌, filter, OnErr, OnOk};
ghost use Rattle.std.specs.List.{position};
ghost use Rattle.brl_dues.specs.SecondCharacter.{has_second, second_of as second_in, AreSame, Grow};
ghost use Rattle.brl_dues.specs.declared.rules_above.Group.{Group as GroupValue};

use crate::above::Above;
use brl_rules::Cond;
use std::alloc::{AllocError, Global};
use std::marker::Model;

/// Rules above that have the same second character, in rank.
#[derive(Drop)]
pub struct Group<'a> {
    /// The character, from 1 on, and 0 for the rules that have no second one.
    pub second: u32,
    pub rules: Vec<Above<'a>>,
}

/// Rules above, in rank, also by their second characters. A contract sees those in rank.
#[derive(Drop)]
pub struct RulesAbove<'a> {
    alloc: Global,
    all: Vec<Above<'a>>,
    groups: Vec<Group<'a>>,
}

impl<'a> Model for RulesAbove<'a> {
    ghost use Rattle.std.specs.Prelude.{ℕ, List};
    ghost use Rattle.brl_rules.specs.declared.place.Cond.{Cond as CondValue};
    ghost use Rattle.brl_dues.specs.SecondCharacter.{AreGrouped};

    ghost Value = { List (List ℕ × CondValue) };

    ghost view = { λ a. a.all.items };

    ghost invariant = { λ a. AreGrouped a.all.items a.groups.items };
}

impl<'a> RulesAbove<'a> {
    /// No rules. No memory is allocated.
    pub fn new(alloc: Global) -> RulesAbove<'a>
        ensures { result ≡ [] }
    {
        RulesAbove {
            alloc,
            all: Vec::new(alloc),
            groups: Vec::new(alloc),
        }
    }

    /// All of them.
    pub fn all(&self) -> &[Above<'a>]
        ensures { result.now ≡ self.now }
    {
        self.all.as_slice()
    }

    /// The rules whose second character has this number, from 1 on, or that have none, for 0.
    pub fn with_second(&self, second: u32) -> &[Above<'a>]
        ensures { result.now ≡ filter (has_second second) self.now }
    {
        match place_of(second, self.groups.as_slice()) {
            Some(place) => self.groups[place].rules.as_slice(),
            None => &[],
        }
    }

    /// Adds a rule with these characters after its first one, and this after-condition.
    pub fn push(&mut self, others: &'a [char], after: Cond) -> Result<(), AllocError>
        ensures { OnOk result (self.new ≡ self.old ++ (others.now, after) ∷ []) }
    {
        self.all.push(Above::new(others, after))?;
        if add_to_group(self.alloc, others, after, &mut self.groups).is_err() {
            self.all.pop();
            return Err(AllocError);
        }
        Ok(())
    }
}

/// Adds a rule to the group of its second character, which it begins if there is none.
fn add_to_group<'a>(
    alloc: Global,
    others: &'a [char],
    after: Cond,
    groups: &mut Vec<Group<'a>>,
) -> Result<(), AllocError>
    ensures ok { OnOk result (Grow groups.old.items groups.new.items (others.now, after)) }
    ensures err { OnErr result (AreSame groups.old.items groups.new.items) }
{
    let second = second_of(others);
    let rule = Above::new(others, after);
    match place_of(second, groups.as_slice()) {
        Some(place) => groups[place].rules.push(rule)?,
        None => {
            let mut rules = Vec::new(alloc);
            rules.push(rule)?;
            groups.push(Group { second, rules })?;
        }
    }
    Ok(())
}

/// The place of the group with this second character.
fn place_of(second: u32, groups: &[Group<'_>]) -> Option<usize>
    ensures { result ≡ position (λ (group : GroupValue). group.second == second) groups.now }
{
    groups.iter().position(|group| group.second == second)
}

/// The first of these characters, from 1 on, and 0 for none.
fn second_of(others: &[char]) -> u32
    ensures { result ≡ second_in others.now }
{
    match others.first() {
        Some(second) => *second as u32 + 1,
        None => 0,
    }
}

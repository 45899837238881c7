//! Dues carried past the characters that a step reads.
ghost use Rattle.std.specs.Prelude.{◌≡◌, ◌+◌, [], ◌∷◌, ◌&&◌, option_map, true, All, IfOk, IfSome, IsTrue, OnOk, if◌then◌else◌};
ghost use Rattle.brl_rules.specs.Text.{classes_of, fold_of as fold, has_word_capitals};
ghost use Rattle.brl_dues.specs.Adding.{Adds};
ghost use Rattle.brl_dues.specs.Capitals.{is_upper};
ghost use Rattle.brl_dues.specs.Carry.{carry as carried_past, carry_bar as bar_carried, need as need_of_cond, opposed, settled_if};
ghost use Rattle.brl_dues.specs.Letters.{bars_of, left_past};
ghost use Rattle.brl_states.specs.Order.{is_proper};

use crate::above::Above;
use crate::cased::CasedTable;
use crate::letter::fold_of;
use crate::rules_above::RulesAbove;
use brl_cells::Chars;
use brl_rules::{Class, Cond, Table, holds};
use brl_states::Due;
use std::alloc::{AllocError, Global};

/// What is left of a due after the characters that a step reads.
#[derive(Drop)]
pub enum Carried {
    /// The step breaks it: there is no such step.
    Broken,
    /// Nothing.
    Settled,
    /// This due.
    Left(Due),
}

/// The classes of a character: none where the table doesn't define it.
pub fn class_of(table: &Table, character: char) -> Class
    ensures { result ≡ classes_of table.now character }
{
    match table.info(character) {
        Some(info) => info.classes,
        None => Class::NONE,
    }
}

/// What is left of a bar whose characters were all read: the next character doesn't meet the
/// condition.
pub fn opposed_to(cond: Cond) -> Carried
    ensures { result ≡ opposed cond }
{
    match cond {
        Cond::Any => Carried::Broken,
        Cond::Meets(set) => Carried::Left(Due::Need(Cond::Avoids(set))),
        Cond::Avoids(set) => Carried::Left(Due::Need(Cond::Meets(set))),
    }
}

/// Settled where the condition holds, else broken.
fn settled(holds: bool) -> Carried
    ensures { result ≡ settled_if holds }
{
    if holds {
        Carried::Settled
    } else {
        Carried::Broken
    }
}

/// What is left, after the characters `past`, of a bar of these characters.
pub fn carry_bar(
    alloc: Global,
    table: &Table,
    past: &[char],
    chars: &[char],
    cond: Cond,
) -> Result<Carried, AllocError>
    ensures { IfOk result (λ carried. carried ≡ bar_carried table.now past.now chars.now cond) }
{
    let shared = past.len().min(chars.len());
    for i in 0..shared {
        if past[i] != chars[i] {
            return Ok(Carried::Settled);
        }
    }
    if shared < past.len() {
        return Ok(settled(!holds(cond, class_of(table, past[shared]))));
    }
    if shared < chars.len() {
        let rest = Vec::from_slice(alloc, &chars[shared..])?;
        return Ok(Carried::Left(Due::Bar(Chars::from_vec(rest), cond)));
    }
    Ok(opposed_to(cond))
}

/// What is left of a due after the characters `past`.
pub fn carry(alloc: Global, table: &Table, past: &[char], due: &Due) -> Result<Carried, AllocError>
    ensures { IfOk result (λ carried. carried ≡ carried_past table.now past.now due.now) }
{
    match due {
        Due::Need(cond) => match past.first() {
            Some(first) => Ok(settled(holds(*cond, class_of(table, *first)))),
            None => Ok(Carried::Left(Due::Need(*cond))),
        },
        Due::Bar(chars, cond) => {
            if chars.len() == 0 {
                return Ok(Carried::Settled);
            }
            carry_bar(alloc, table, past, chars.as_slice(), *cond)
        }
    }
}

/// Appends what is left to the dues found so far. Returns whether nothing is broken.
pub fn add(carried: Carried, found: &mut Vec<Due>) -> Result<bool, AllocError>
    ensures { IfOk result (λ whole. Adds (carried ∷ []) found.old.items found.new.items whole) }
{
    match carried {
        Carried::Broken => Ok(false),
        Carried::Settled => Ok(true),
        Carried::Left(due) => {
            found.push(due)?;
            Ok(true)
        }
    }
}

/// What is left of dues after the characters `past`. `None` where one is broken.
pub fn dues_past(
    alloc: Global,
    table: &Table,
    past: &[char],
    dues: &[Due],
) -> Result<Option<Vec<Due>>, AllocError>
    requires { All (λ due. IsTrue (is_proper due)) dues.now }
    ensures left { IfOk result (λ left. option_map (λ l. l.items) left ≡ left_past table.now past.now dues.now) }
    ensures proper { IfOk result (λ left. IfSome left (λ l. All (λ due. IsTrue (is_proper due)) l.items)) }
{
    let mut left = Vec::new(alloc);
    for due in dues {
        if !add(carry(alloc, table, past, due)?, &mut left)? {
            return Ok(None);
        }
    }
    Ok(Some(left))
}

/// Appends the need of a condition on the next character, if it has one, to the dues found so far.
pub fn add_need(cond: Cond, found: &mut Vec<Due>) -> Result<(), AllocError>
    ensures { OnOk result (Adds (need_of_cond cond ∷ []) found.old.items found.new.items true) }
{
    match cond {
        Cond::Any => {}
        _ => found.push(Due::Need(cond))?,
    }
    Ok(())
}

/// Appends what is left of the bars of the rules above, in a run of capitals or out of one, after a
/// character, which comes after one of these classes, and these others, to the dues found so far.
/// Returns whether none is broken. Nothing is left of rules with another second character than the
/// step reads.
pub fn add_bars(
    alloc: Global,
    table: &CasedTable<'_>,
    before: Class,
    character: char,
    run: bool,
    others: &[char],
    above: &RulesAbove<'_>,
    found: &mut Vec<Due>,
) -> Result<bool, AllocError>
    ensures { IfOk result (λ whole. Adds (bars_of table.now before run character others.now above.now) found.old.items found.new.items whole) }
{
    let cased = table.may_begin_caps_run(character);
    let Some(second) = others.first() else {
        let all = above.all();
        return add_all_bars(
            alloc, table, before, character, cased, run, others, all, found,
        );
    };
    let second = second_in_rules(table, run, *second);
    let short = above.with_second(0);
    let same = above.with_second(second);
    if !add_all_bars(
        alloc, table, before, character, cased, run, others, short, found,
    )? {
        return Ok(false);
    }
    add_all_bars(
        alloc, table, before, character, cased, run, others, same, found,
    )
}

/// The second character, from 1 on, of rules that may go on with this one, in a run of capitals or
/// out of one.
fn second_in_rules(table: &CasedTable<'_>, run: bool, second: char) -> u32
    ensures { result ≡ (if run then fold table.now second else second) + 1 }
{
    let second = if run {
        fold_of(table.table(), second)
    } else {
        second
    };
    second as u32 + 1
}

/// Adds the bars of each of some rules. `cased` says whether a run of capitals may begin with the
/// character.
fn add_all_bars(
    alloc: Global,
    table: &CasedTable<'_>,
    before: Class,
    character: char,
    cased: bool,
    run: bool,
    others: &[char],
    above: &[Above<'_>],
    found: &mut Vec<Due>,
) -> Result<bool, AllocError>
    requires { cased ≡ (has_word_capitals table.now && is_upper table.now character) }
    ensures { IfOk result (λ whole. Adds (bars_of table.now before run character others.now above.now) found.old.items found.new.items whole) }
{
    for rule in above {
        if !rule.add_bars(alloc, table, before, character, cased, run, others, found)? {
            return Ok(false);
        }
    }
    Ok(true)
}

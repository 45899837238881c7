//! The steps of a state.
ghost use Rattle.std.specs.Prelude.{◌≡◌, ◌<◌, [], ◌∷◌, ◌++◌, false, length, map, IfOk, IsTrue, OnOk};
ghost use Rattle.std.specs.List.{flat_map, list_any};
ghost use Rattle.brl_rules.specs.Choice.{own};
ghost use Rattle.brl_rules.specs.declared.place.Cond.TheVariants.{Any};
ghost use Rattle.brl_dues.specs.ByFold.{AreByFold};
ghost use Rattle.brl_dues.specs.Letters.{begins_with as does_begin_with, cased_steps, is_taken, own_step, rule_step, steps_found, with_rule};
ghost use Rattle.brl_dues.specs.Steps.{dues_steps, is_same_step, with_steps};

use crate::cased::CasedTable;
use crate::folds::{Place, by_fold, with_fold};
use crate::letter::Letter;
use crate::origin::Origin;
use crate::step::{Taken, step_with};
use crate::walk::push_caps_run_steps;
use brl_pairs::Step;
use brl_rules::{Class, Cond, Rule, Table, holds};
use brl_states::DuesState;
use std::alloc::{AllocError, Global};

/// The steps of a state that begin with one of these characters, which have no rules above yet.
pub fn list_steps<'a>(
    alloc: Global,
    table: &'a CasedTable<'_>,
    state: &DuesState,
    mut letters: Vec<Letter<'a>>,
) -> Result<Vec<Step<DuesState>>, AllocError>
    ensures { IfOk result (λ listed. listed.items ≡ steps_found table.now state.now 0 table.now.rules letters.entry.items) }
{
    let mut listed = Vec::new(alloc);
    // By folds, a rule finds the letters that it may begin with, and goes through no others.
    let places = by_fold(alloc, letters.as_slice())?;
    for (number, rule) in table.table().rules_in_rank().iter().enumerate() {
        take_rule(
            alloc,
            table,
            state,
            number as u32,
            rule,
            places.as_slice(),
            &mut letters,
            &mut listed,
        )?;
    }
    for letter in &letters {
        push_own(alloc, table, state, letter, &mut listed)?;
    }
    Ok(listed)
}

/// The steps of a state that begin with this character, which has no rules above yet.
pub fn list_letter_steps<'a>(
    alloc: Global,
    table: &'a CasedTable<'_>,
    state: &DuesState,
    mut letter: Letter<'a>,
) -> Result<Vec<Step<DuesState>>, AllocError>
    ensures { IfOk result (λ listed. listed.items ≡ steps_found table.now state.now 0 table.now.rules (letter.entry ∷ [])) }
{
    let mut listed = Vec::new(alloc);
    for (number, rule) in table.table().rules_in_rank().iter().enumerate() {
        if may_take(rule, state.before, &letter) {
            let number = number as u32;
            push_taken(alloc, table, state, number, rule, &mut letter, &mut listed)?;
        }
    }
    push_own(alloc, table, state, &letter, &mut listed)?;
    Ok(listed)
}

/// Appends the steps of a rule, and adds it to the rules above the remaining ones.
fn take_rule<'a>(
    alloc: Global,
    table: &CasedTable<'_>,
    state: &DuesState,
    number: u32,
    rule: &'a Rule,
    places: &[Place],
    letters: &mut Vec<Letter<'a>>,
    listed: &mut Vec<Step<DuesState>>,
) -> Result<(), AllocError>
    requires { AreByFold places.now letters.old.items }
    ensures letters { OnOk result (letters.new.items ≡ map (with_rule state.now.before rule.now) letters.old.items) }
    ensures listed { OnOk result (listed.new.items ≡ listed.old.items
        ++ flat_map (rule_step table.now state.now number rule.now) letters.old.items) }
{
    let Some(first) = rule.chars.as_slice().first() else {
        return Ok(());
    };
    if !holds(rule.place.before(), state.before) {
        return Ok(());
    }
    for place in with_fold(*first, places) {
        let letter = &mut letters[place.number];
        if may_take(rule, state.before, letter) {
            push_taken(alloc, table, state, number, rule, letter, listed)?;
        }
    }
    Ok(())
}

/// Whether a rule may be taken after a character of these classes where a character comes.
fn may_take(rule: &Rule, before: Class, letter: &Letter<'_>) -> bool
    ensures { result ≡ is_taken before rule.now letter.now }
{
    begins_with(letter.fold(), rule.chars.as_slice()) && holds(rule.place.before(), before)
}

/// Whether some characters begin with this one.
fn begins_with(character: char, chars: &[char]) -> bool
    ensures { result ≡ does_begin_with character chars.now }
{
    match chars.first() {
        Some(first) => *first == character,
        None => false,
    }
}

/// Appends the steps of a rule that may be taken with a character, and adds the rule to those above
/// the character.
fn push_taken<'a>(
    alloc: Global,
    table: &CasedTable<'_>,
    state: &DuesState,
    number: u32,
    rule: &'a Rule,
    letter: &mut Letter<'a>,
    listed: &mut Vec<Step<DuesState>>,
) -> Result<(), AllocError>
    requires { IsTrue (is_taken state.now.before rule.now letter.old) }
    ensures letter { OnOk result (letter.new ≡ with_rule state.now.before rule.now letter.old) }
    ensures listed { OnOk result (listed.new.items ≡ listed.old.items
        ++ rule_step table.now state.now number rule.now letter.old) }
{
    let Some((_, others)) = rule.chars.as_slice().split_first() else {
        return Ok(());
    };
    let after = rule.place.after(state.before);
    let taken = Taken {
        number,
        run: false,
        others,
        after,
        cells: rule.cells.as_slice(),
    };
    let origin = Origin {
        table,
        state,
        letter,
    };
    push_steps(alloc, &origin, taken, listed)?;
    letter.push(others, after)?;
    Ok(())
}

/// Appends the steps of a character's own definition.
fn push_own(
    alloc: Global,
    table: &CasedTable<'_>,
    state: &DuesState,
    letter: &Letter<'_>,
    listed: &mut Vec<Step<DuesState>>,
) -> Result<(), AllocError>
    ensures { OnOk result (listed.new.items ≡ listed.old.items ++ own_step table.now state.now letter.now) }
{
    let choice = own_choice(table.table(), letter.character());
    let origin = Origin {
        table,
        state,
        letter,
    };
    push_steps(alloc, &origin, choice, listed)
}

/// Appends the steps that take this with a character, in a run of capitals and out of one, each
/// once.
fn push_steps(
    alloc: Global,
    origin: &Origin<'_>,
    taken: Taken<'_>,
    listed: &mut Vec<Step<DuesState>>,
) -> Result<(), AllocError>
    requires { taken.run ≡ false }
    ensures { OnOk result (listed.new.items ≡ listed.old.items
        ++ with_steps [] (cased_steps origin.now.table.now origin.now.state.now origin.now.letter.now taken.entry.number taken.entry.others.now taken.entry.after taken.entry.cells.now)) }
{
    // The steps in a run differ in what they read, since no character of a table is defined twice.
    origin.table.table().law();
    let first = listed.len();
    push_caps_run_steps(alloc, origin, taken, listed)?;
    let Some(step) = step_with(alloc, origin, taken)? else {
        return Ok(());
    };
    if !is_also_in_caps_run(&step, &listed[first..]) {
        listed.push(step)?;
    }
    Ok(())
}

/// Whether a step out of a run of capitals is also one of those in a run. It is none of them where
/// it reads several characters.
fn is_also_in_caps_run(step: &Step<DuesState>, in_caps_run: &[Step<DuesState>]) -> bool
    requires { 1 < length step.now.reads → list_any (is_same_step step.now) in_caps_run.now ≡ false }
    ensures { result ≡ list_any (is_same_step step.now) in_caps_run.now }
{
    step.reads.len() <= 1 && is_among(step, in_caps_run)
}

/// Whether a step is one of these.
fn is_among(step: &Step<DuesState>, found: &[Step<DuesState>]) -> bool
    ensures { result ≡ list_any (is_same_step step.now) found.now }
{
    found.iter().any(|other| is_same(step, other))
}

/// Whether two steps are the same.
fn is_same(step: &Step<DuesState>, other: &Step<DuesState>) -> bool
    ensures { result ≡ is_same_step step.now other.now }
{
    step.rule == other.rule
        && step.reads == other.reads
        && step.cells == other.cells
        && step.next == other.next
}

/// What a step takes with the own definition of a character.
fn own_choice(table: &Table, character: char) -> Taken<'_>
    ensures number { result.number ≡ (own table.now (character ∷ [])).number }
    ensures run { result.run ≡ false }
    ensures others { result.others.now ≡ [] }
    ensures after { result.after ≡ Any }
    ensures cells { result.cells.now ≡ (own table.now (character ∷ [])).cells }
{
    let rules = table.rules_in_rank().len() as u32;
    match table.info(character) {
        Some(info) => Taken {
            number: rules + info.number,
            run: false,
            others: &[],
            after: Cond::Any,
            cells: info.cells.as_slice(),
        },
        None => Taken {
            number: rules,
            run: false,
            others: &[],
            after: Cond::Any,
            cells: &[],
        },
    }
}

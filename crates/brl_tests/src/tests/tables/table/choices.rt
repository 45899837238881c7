//! Which rule a table takes before a text's rest, by number; and as many rules as a table may have.
use super::shown;
use bitflags::Flags;
use brl_rules::{Class, Context, Rule, Sign, Table, holds};
use brl_testing::{agree, chars, for_rows_of_3, with_table};
use std::alloc::Global;
use std::test::Fail;

/// Four rules of the same characters.
const ONE_STRING: &str = "\
space \\s 0; letter a 1; letter b 12; punctuation . 256; begword ab 14; endword ab 15; word ab 16; midword ab 24";

/// The text before, the rest, and the number of the rule that is taken, or nothing.
const CHOICES: &str = "\
|ab|2
|aba|0
a|ab.|1
a|aba|3
|b|6
||
|z|
";

/// The number of the rule that a table takes between two texts, or nothing.
fn chosen(alloc: Global, table: &Table, before: &str, rest: &str) -> Result<String, Fail> {
    let before = chars(alloc, before)?;
    let here = table.context_after(Context::START, before.as_slice());
    let rest = chars(alloc, rest)?;
    match table.choose(here.classes, rest.as_slice()) {
        Some(number) => Ok(format!(in alloc; "{number}")?),
        None => Ok(String::new(alloc)),
    }
}

fn chosen_of(alloc: Global, lines: &str, before: &str, rest: &str) -> Result<String, Fail> {
    with_table(alloc, lines, |table| chosen(alloc, table, before, rest))
}

fn chosen_of_one_string(alloc: Global, before: &str, rest: &str) -> Result<String, Fail> {
    chosen_of(alloc, ONE_STRING, before, rest)
}

#[test]
fn choices_by_number(rt: HostRuntime) -> Result<(), Fail> {
    for_rows_of_3(rt.alloc(), CHOICES, chosen_of_one_string)
}

/// The lines of a table with this many rules of the same characters.
fn lines_of_rules(alloc: Global, count: u32) -> Result<String, Fail> {
    let mut lines = String::from_str(alloc, "letter a 1; letter b 12")?;
    for _ in 0..count {
        lines.push_str("; always ab 25")?;
    }
    Ok(lines)
}

#[test]
fn as_many_rules_as_a_table_may_have(rt: HostRuntime) -> Result<(), Fail> {
    let most = lines_of_rules(rt.alloc(), 4096)?;
    let given = chosen_of(rt.alloc(), most.as_str(), "", "ab")?;
    agree("4096", given.as_str(), "0")?;
    let more = lines_of_rules(rt.alloc(), 4097)?;
    let fault = shown(rt.alloc(), more.as_str())?;
    agree("4097", fault.as_str(), "B8 TooMany always at t.ctb:4099")
}

/// Rules of several places and lengths.
const SEVERAL_PLACES: &str = "\
uplow Aa 1; letter b 12; punctuation . 256; always ab 14; word ab 15; begword a 16; midword ba 24; endword bb 25; \
always aab 26; partword ba 34; midendword b 35; sufword abb 36; prfword a 45; begmidword bab 46; word a. 56; always .. 2";

/// Rules of several places and lengths, with word capitals.
const SEVERAL_PLACES_WITH_RUNS: &str = "\
uplow Aa 1; uplow Bb 12; punctuation . 256; always ab 14; word ab 15; begword a 16; midword ba 24; endword bb 25; \
always aab 26; partword ba 34; midendword b 35; sufword abb 36; prfword a 45; begmidword bab 46; begcapsword 6";

/// The characters of the texts that are compared.
const LETTERS: [char; 4] = ['a', 'A', 'b', '.'];

/// The characters of the texts with word capitals.
const CAPITALS: [char; 4] = ['a', 'A', 'B', '.'];

/// How many texts of up to four of them there are.
const TEXTS: u32 = 1 + 4 + 16 + 64 + 256;

/// The text of these characters with this number.
fn text_of(alloc: Global, letters: [char; 4], number: u32) -> Result<Vec<char>, Fail> {
    let mut text = Vec::new(alloc);
    let mut left = number;
    for _ in 0..4 {
        if left > 0 {
            left -= 1;
            text.push(letters[left as usize % 4])?;
            left /= 4;
        }
    }
    Ok(text)
}

/// The classes of a character, and class space at a text's end.
fn classes_of(table: &Table, character: Option<&char>) -> Class {
    let Some(character) = character else {
        return Class::SPACE;
    };
    match table.info(*character) {
        Some(info) => info.classes,
        None => Class::NONE,
    }
}

/// Whether a rest, whose first character has this fold, begins with the characters of a rule.
fn begins_with(rest: &[char], fold: char, rule: &Rule) -> bool {
    let Some((first, others)) = rule.chars.as_slice().split_first() else {
        return false;
    };
    *first == fold
        && rest
            .get(1..)
            .is_some_and(|behind| behind.starts_with(others))
}

/// Whether a character is a capital.
fn is_capital(table: &Table, character: Option<&char>) -> bool {
    classes_of(table, character).intersects(Class::UPPERCASE)
}

/// Whether a rest begins in a run of capitals.
fn begins_in_caps_run(table: &Table, before: Class, rest: &[char]) -> bool {
    let is_beside = before.intersects(Class::UPPERCASE) || is_capital(table, rest.get(1));
    !table.indicator(Sign::BegCapsWord).is_empty() && is_capital(table, rest.first()) && is_beside
}

/// Whether a character is a capital with this fold.
fn is_capital_of(table: &Table, character: Option<&char>, fold: char) -> bool {
    let Some(info) = character.and_then(|character| table.info(*character)) else {
        return false;
    };
    info.classes.intersects(Class::UPPERCASE) && info.fold == fold
}

/// Whether a rest begins with capitals that have these folds.
fn begins_with_capitals(table: &Table, rest: &[char], folds: &[char]) -> bool {
    for (place, fold) in folds.iter().enumerate() {
        if !is_capital_of(table, rest.get(place), *fold) {
            return false;
        }
    }
    true
}

/// Whether what the place of a rule asks of its neighbours holds.
fn may_stand(table: &Table, before: Class, rest: &[char], rule: &Rule) -> bool {
    let after = classes_of(table, rest.get(rule.chars.len()));
    holds(rule.place.before(), before) && holds(rule.place.after(before), after)
}

/// The number of the rule that is taken, found by a test of each rule in rank.
fn plainly_chosen(table: &Table, before: Class, rest: &[char]) -> Option<u32> {
    let info = table.info(*rest.first()?)?;
    for (place, rule) in table.rules_in_rank().iter().enumerate() {
        let begins = if begins_in_caps_run(table, before, rest) {
            begins_with_capitals(table, rest, rule.chars.as_slice())
        } else {
            begins_with(rest, info.fold, rule)
        };
        if begins && may_stand(table, before, rest, rule) {
            return Some(place as u32);
        }
    }
    Some(table.rules_in_rank().len() as u32 + info.number)
}

/// Whether the same rule is found at the start of a text, after a letter, and after a capital.
fn has_plain_choices(table: &Table, rest: &[char]) -> bool {
    let capital = Class::LETTER.union(Class::UPPERCASE);
    table.choose(Class::SPACE, rest) == plainly_chosen(table, Class::SPACE, rest)
        && table.choose(Class::LETTER, rest) == plainly_chosen(table, Class::LETTER, rest)
        && table.choose(capital, rest) == plainly_chosen(table, capital, rest)
}

/// The numbers of the texts for which `choose` and the plain search disagree.
fn differences(alloc: Global, letters: [char; 4], table: &Table) -> Result<String, Fail> {
    let mut differences = Vec::new(alloc);
    for number in 0..TEXTS {
        let rest = text_of(alloc, letters, number)?;
        if !has_plain_choices(table, rest.as_slice()) {
            differences.push(number)?;
        }
    }
    Ok(format!(in alloc; "{:?}", differences.as_slice())?)
}

#[test]
fn choices_are_the_first_rules_in_rank_that_fit(rt: HostRuntime) -> Result<(), Fail> {
    let alloc = rt.alloc();
    for (lines, letters) in [
        (SEVERAL_PLACES, LETTERS),
        (SEVERAL_PLACES_WITH_RUNS, CAPITALS),
    ] {
        let given = with_table(alloc, lines, |table| differences(alloc, letters, table))?;
        agree(lines, given.as_str(), "[]")?;
    }
    Ok(())
}

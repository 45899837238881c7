//! A table made from parts, places and lists of characters.
use bitflags::Flags;
use brl_cells::{Cell, Cells, Chars};
use brl_rules::{
    Class, Cond, Context, Indicators, Info, Notice, Place, Rule, Sign, Table, TableParts, holds,
};
use brl_testing::lend;
use indexmap::IndexMap;
use std::alloc::Global;
use std::test::Fail;

fn one_cell(alloc: Global, cell: Cell) -> Result<Cells, Fail> {
    Ok(Cells::from_slice(alloc, &[cell])?)
}

/// The parts of a table without lines, files or characters.
fn no_parts(alloc: Global) -> TableParts {
    TableParts {
        characters: IndexMap::new(alloc),
        rules: Vec::new(alloc),
        signs: Indicators::new(alloc),
        files: Vec::new(alloc),
        notices: Vec::new(alloc),
    }
}

/// The character of `letter a 1`.
fn letter_a(alloc: Global) -> Result<Info, Fail> {
    Ok(Info {
        number: 0,
        cells: one_cell(alloc, Cell(1))?,
        classes: Class::LETTER,
        literary: false,
        mode: false,
        nocont: false,
        fold: 'a',
        file: 0,
        line: 1,
    })
}

/// The rule of `always a 14`.
fn always_a(alloc: Global) -> Result<Rule, Fail> {
    Ok(Rule {
        chars: Chars::from_vec(vec![in alloc; 'a']?),
        cells: one_cell(alloc, Cell(9))?,
        place: Place::Always,
        file: 0,
        line: 2,
    })
}

/// Adds `letter a 1; always a 14`, a number sign and a notice to parts.
fn fill(alloc: Global, parts: &mut TableParts) -> Result<(), Fail> {
    parts.characters.insert('a', letter_a(alloc)?)?;
    parts.rules.push(always_a(alloc)?)?;
    parts.signs.set(Sign::NumSign, one_cell(alloc, Cell(60))?);
    parts.notices.push(Notice {
        character: 'a',
        file: 0,
        line: 3,
    })?;
    Ok(())
}

/// Parts that only lack a file.
fn parts_without_a_file(alloc: Global) -> Result<TableParts, Fail> {
    let mut parts = no_parts(alloc);
    fill(alloc, &mut parts)?;
    Ok(parts)
}

#[test]
fn a_table_has_a_file(rt: HostRuntime) -> Result<(), Fail> {
    let parts = parts_without_a_file(rt.alloc())?;
    assert!(rt; !parts.are_valid());
    Ok(())
}

fn table_of_parts(alloc: Global) -> Result<Table, Fail> {
    let mut parts = parts_without_a_file(alloc)?;
    parts.files.push(String::from_str(alloc, "t.ctb")?)?;
    if !parts.are_valid() {
        return Err(Fail::from("the parts make no table"));
    }
    Ok(Table::from_parts(parts)?)
}

/// Whether the notice of a table names its file.
fn names_its_file(table: &Table) -> bool {
    table.law();
    match table.notices().first() {
        Some(notice) => table.file_name(notice.file) == "t.ctb",
        None => false,
    }
}

fn has_names_and_indicators(table: &Table) -> bool {
    names_its_file(table)
        && table.indicator(Sign::NumSign) == [Cell(60)].as_slice()
        && table.indicator(Sign::CapsLetter).is_empty()
}

#[test]
fn names_and_indicators_of_a_table(rt: HostRuntime) -> Result<(), Fail> {
    let table = table_of_parts(rt.alloc())?;
    assert!(rt; lend(table, |table| has_names_and_indicators(table)));
    Ok(())
}

/// Whether the rule is chosen at `a`.
fn chooses_the_rule(table: &Table) -> bool {
    let choice = table.choice(Class::SPACE, &['a']);
    choice.number == 0 && choice.taken == 1 && choice.cells == [Cell(9)].as_slice()
}

#[test]
fn choices_of_a_table(rt: HostRuntime) -> Result<(), Fail> {
    let table = table_of_parts(rt.alloc())?;
    assert!(rt; lend(table, |table| chooses_the_rule(table)));
    Ok(())
}

/// Whether `a` is a letter after the start, and no indicator comes before the next one.
fn needs_no_indicator(alloc: Global, table: &Table) -> Result<bool, Fail> {
    let here = table.context_after(Context::START, &['a']);
    let mut cells = Vec::new(alloc);
    table.push_indicators(here, false, &['a'], &mut cells)?;
    Ok(here.classes == Class::LETTER && cells.is_empty())
}

#[test]
fn contexts_and_indicators(rt: HostRuntime) -> Result<(), Fail> {
    let alloc = rt.alloc();
    let table = table_of_parts(alloc)?;
    assert!(rt; lend(table, |table| needs_no_indicator(alloc, table))?);
    Ok(())
}

#[test]
fn conditions_of_places(rt: HostRuntime) {
    let letter = Cond::Meets(Class::LETTER);
    assert!(rt; Place::Begword.before() == Cond::Meets(Class(3)));
    assert!(rt; Place::Partword.after(Class::SPACE) == letter);
    assert!(rt; Place::Partword.after(Class::LETTER) == Cond::Any);
    assert!(rt; Place::Endnum.after(Class::DIGIT) == Cond::Avoids(Class(4)));
    assert!(rt; holds(letter, Class::LETTER.union(Class::UPPERCASE)));
    assert!(rt; !holds(Cond::Avoids(Class(4)), Class::DIGIT));
}

#[test]
fn lists_of_characters(rt: HostRuntime) -> Result<(), Fail> {
    let alloc = rt.alloc();
    let chars = Chars::from_vec(vec![in alloc; 'a', 'b']?);
    assert!(rt; chars.len() == 2);
    let copy = chars.copy(alloc)?;
    assert!(rt; copy == chars);
    assert!(rt; copy.as_slice() == chars.as_slice());
    Ok(())
}

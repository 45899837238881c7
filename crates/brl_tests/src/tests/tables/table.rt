//! The tables and the faults of lines.
mod choices;
mod parts;

use brl_cells::{Cell, write_dots};
use brl_lines::{Line, Token};
use brl_rules::{Info, Notice, Rule, Sign, Table};
use brl_table::read_table;
use brl_testing::{agree, for_rows_of_2, lend, with_lines};
use std::alloc::Global;
use std::fmt::Write;
use std::test::Fail;

/// Lines, and what they define: the characters with their dots, their classes, what else is defined
/// of them and the line of their dots; the rules in rank; the indicators; the notices.
const TABLES: &str = "\
letter a 1; punctuation a 12|a 1 10 at 1;again a at 2;
space a 1; digit b 1; lowercase c 1; uppercase d 1; sign e 1; math f 1|a 1 1 at 1;b 1 4 at 2;c 1 24 at 3;d 1 40 at 4;e 1 64 at 5;f 1 128 at 6;
letter a 1; always a 14; always a 15|a 1 8 at 1;Always a 14 at 2;Always a 15 at 3;
letter a 1; letter b 12; always a 14; always ab 15; word b 16; always ba 17|a 1 8 at 1;b 12 8 at 2;Always ab 15 at 4;Always ba 17 at 6;Word b 16 at 5;Always a 14 at 3;
letter a 1; letter b 12; always ab 14; word ab 15|a 1 8 at 1;b 12 8 at 2;Word ab 15 at 4;Always ab 14 at 3;
letter a 1; always a 14; endword a 15; always aa 16; begnum a 17; word aa 18|a 1 8 at 1;Word aa 18 at 6;Always aa 16 at 4;Endword a 15 at 3;Begnum a 17 at 5;Always a 14 at 2;
letter a 1; letter b 12; noback always ab 14; nofor always ba 15; display \\x2801 1|a 1 8 at 1;b 12 8 at 2;Always ab 14 at 3;
always ab =; letter a 1; letter b 12|a 1 8 at 2;b 12 8 at 3;Always ab 1-12 at 1;
letter a 1; letter b 12-3; always aba =|a 1 8 at 1;b 12-3 8 at 2;Always aba 1-12-3-1 at 3;
letter a 1; punctuation a 2; always aa =; nofor word a =|a 1 10 at 1;Always aa 1-1 at 3;again a at 2;
letter a 1; always a 0 = all behind is a comment|a 1 8 at 1;Always a 0 at 2;
letter a 1; always \\x0061a 14-5|a 1 8 at 1;Always aa 14-5 at 2;
letter a 1; sufword a 1; prfword a 1; begword a 1; begmidword a 1; midword a 1; midendword a 1|a 1 8 at 1;Sufword a 1 at 2;Prfword a 1 at 3;Begword a 1 at 4;Begmidword a 1 at 5;Midword a 1 at 6;Midendword a 1 at 7;
letter a 1; endword a 1; partword a 1; begnum a 1; midnum a 1; endnum a 1|a 1 8 at 1;Endword a 1 at 2;Partword a 1 at 3;Begnum a 1 at 4;Midnum a 1 at 5;Endnum a 1 at 6;
letter a 1; litdigit a 12|a 12 12 literary at 2;
litdigit a 12; letter a 1|a 12 12 literary at 1;
letter a 1; letter A 2; uplow Aa 12|a 1 24 at 1;A 2 40 folds to a at 2;again A at 3;again a at 3;
uplow Aa 1,12; uplow Ab 2|A 1 40 folds to a at 1;a 12 24 at 1;b 2 24 at 2;again A at 2;
numericmodechars .; numericnocontchars a; letter a 1; punctuation . 2; capsign 6; numsign 3456|a 1 8 nocont at 3;. 2 2 mode at 4;CapsLetter 6;NumSign 3456;
begcapsword 6-6; endcapsword 6-3|BegCapsWord 6-6;EndCapsWord 6-3;
uplow Aa 1; uplow ab 2; always A =; nocontractsign 56|A 1 40 folds to a at 1;a 1 56 folds to b at 1;b 2 24 at 2;Always a 1 at 3;NoContractSign 56;again a at 2;
";

/// Lines, and the fault that decides.
const FAULTS: &str = "\
pass2 @1 @2|B1 OutsideProfile pass2 at t.ctb:1
letter ab 1|B3 BadCharacters ab at t.ctb:1
letter a 19|B4 BadDots 19 at t.ctb:1
always ab =|B5 UndefinedInRule ab at t.ctb:1
letter a 1; noback word \\x0062 =|B5 UndefinedInRule \\x0062 at t.ctb:2
always a 1; always b 1; letter a 1|B5 UndefinedInRule b at t.ctb:2
display b 1; always b 1|B5 UndefinedInRule b at t.ctb:2
always x 1; letter a 1; pass2 @1 @2|B1 OutsideProfile pass2 at t.ctb:3
nofor|B2 MissingOperand nofor at t.ctb:1
noback nofor always a 1|B1 OutsideProfile nofor at t.ctb:1
nofor always|B2 MissingOperand always at t.ctb:1
noback endnum a|B2 MissingOperand endnum at t.ctb:1
display a|B2 MissingOperand display at t.ctb:1
always a 1,2|B4 BadDots 1,2 at t.ctb:1
display a =|B4 BadDots = at t.ctb:1
display ab 1|B3 BadCharacters ab at t.ctb:1
nofor always a\\x00 9|B3 BadCharacters a\\x00 at t.ctb:1
letter a 1; nofor word aaaaaaaaaaaaaaaaaaaaaaaaaaaaaaaaa 1|B8 TooMany word at t.ctb:2
numsign 6; numsign 6|B9 IndicatorTwice numsign at t.ctb:2
capsletter 6; capsign 6|B9 IndicatorTwice capsign at t.ctb:2
begcapsword 6; endcapsword 6; begcapsword 6|B9 IndicatorTwice begcapsword at t.ctb:3
endcapsword 6; endcapsword 6|B9 IndicatorTwice endcapsword at t.ctb:2
begcapsword|B2 MissingOperand begcapsword at t.ctb:1
numericmodechars .|B6 UndefinedInList . at t.ctb:1
litdigit 1 1; numericnocontchars 1|B7 TwoRoles 1 at t.ctb:2
litdigit 1 1; numericnocontchars 1z|B6 UndefinedInList 1z at t.ctb:2
uplow Aa 1,2,3|B4 BadDots 1,2,3 at t.ctb:1
uplow AA 1|B3 BadCharacters AA at t.ctb:1
uplow Aab 1|B3 BadCharacters Aab at t.ctb:1
uplow Aa|B2 MissingOperand uplow at t.ctb:1
nocontractsign|B2 MissingOperand nocontractsign at t.ctb:1
numericmodechars|B2 MissingOperand numericmodechars at t.ctb:1
capsletter 9|B4 BadDots 9 at t.ctb:1
";

/// What the lines of a field define, or their fault.
fn shown(alloc: Global, field: &str) -> Result<String, Fail> {
    with_lines(alloc, field, |lines| shown_lines(alloc, lines))
}

fn shown_lines(alloc: Global, lines: &[Line<'_>]) -> Result<String, Fail> {
    match read_table(alloc, lines) {
        Ok(table) => lend(table, |table| table_text(alloc, table)),
        Err(fault) => lend(fault, |fault| Ok(format!(in alloc; "{fault}")?)),
    }
}

fn table_text(alloc: Global, table: &Table) -> Result<String, Fail> {
    let mut text = String::new(alloc);
    push_table(alloc, &mut text, table)?;
    Ok(text)
}

fn push_table(alloc: Global, text: &mut String, table: &Table) -> Result<(), Fail> {
    push_characters(alloc, text, table)?;
    push_rules(alloc, text, table)?;
    push_indicators_of(alloc, text, table)?;
    push_notices(text, table.notices())
}

fn push_characters(alloc: Global, text: &mut String, table: &Table) -> Result<(), Fail> {
    for number in 0..table.char_count() {
        let character = table.char_at(number as u32);
        let info = table.info(character).ok_or("it isn't defined")?;
        push_character(alloc, text, character, info)?;
    }
    Ok(())
}

fn push_character(
    alloc: Global,
    text: &mut String,
    character: char,
    info: &Info,
) -> Result<(), Fail> {
    let dots = write_dots(alloc, info.cells.as_slice())?;
    write!(text, "{character} {dots} {}", info.classes.0)?;
    push_rest(text, character, info)?;
    write!(text, " at {};", info.line)?;
    Ok(())
}

/// What else is defined of a character.
fn push_rest(text: &mut String, character: char, info: &Info) -> Result<(), Fail> {
    if info.literary {
        text.push_str(" literary")?;
    }
    if info.mode {
        text.push_str(" mode")?;
    }
    if info.nocont {
        text.push_str(" nocont")?;
    }
    if info.fold != character {
        write!(text, " folds to {}", info.fold)?;
    }
    Ok(())
}

fn push_rules(alloc: Global, text: &mut String, table: &Table) -> Result<(), Fail> {
    for rule in table.rules_in_rank() {
        push_rule(alloc, text, rule)?;
    }
    Ok(())
}

fn push_rule(alloc: Global, text: &mut String, rule: &Rule) -> Result<(), Fail> {
    write!(text, "{:?} ", rule.place)?;
    for character in rule.chars.as_slice() {
        text.push(*character)?;
    }
    let dots = write_dots(alloc, rule.cells.as_slice())?;
    write!(text, " {dots} at {};", rule.line)?;
    Ok(())
}

fn push_indicators_of(alloc: Global, text: &mut String, table: &Table) -> Result<(), Fail> {
    for sign in Sign::ALL {
        let cells = table.indicator(sign);
        if !cells.is_empty() {
            let dots = write_dots(alloc, cells)?;
            write!(text, "{sign:?} {dots};")?;
        }
    }
    Ok(())
}

fn push_notices(text: &mut String, notices: &[Notice]) -> Result<(), Fail> {
    for notice in notices {
        write!(text, "again {} at {};", notice.character, notice.line)?;
    }
    Ok(())
}

#[test]
fn tables_and_faults_of_lines(rt: HostRuntime) -> Result<(), Fail> {
    for_rows_of_2(rt.alloc(), TABLES, shown)?;
    for_rows_of_2(rt.alloc(), FAULTS, shown)
}

fn token(text: &str) -> Token<'_> {
    Token { text, start: 0 }
}

/// A line that `load` never leaves.
#[test]
fn an_include_line_that_is_left(rt: HostRuntime) -> Result<(), Fail> {
    let line = Line {
        file: "t.ctb",
        line: 1,
        opcode: token("include"),
        operands: vec![in rt.alloc(); token("u")]?,
    };
    let given = shown_lines(rt.alloc(), &[line])?;
    agree(
        "include u",
        given.as_str(),
        "B1 OutsideProfile include at t.ctb:1",
    )
}

/// The table of `count` lines, where each line defines one letter; or its fault.
fn shown_letters(alloc: Global, count: u32) -> Result<String, Fail> {
    let mut lines = String::new(alloc);
    for number in 0..count {
        write!(lines, "letter \\y{number:05x} 1; ")?;
    }
    lines.push('#')?;
    shown(alloc, lines.as_str())
}

#[test]
fn as_many_characters_as_a_table_may_have(rt: HostRuntime) -> Result<(), Fail> {
    let most = shown_letters(rt.alloc(), 1024)?;
    assert!(rt; !most.as_str().contains("TooMany"));
    let fault = shown_letters(rt.alloc(), 1025)?;
    agree("1025", fault.as_str(), "B8 TooMany letter at t.ctb:1025")
}

//! The faulty lines of tables.
use brl_lines::Line;
use brl_table::{FaultyLine, OpcodeOrigin, origin_of, survey};
use brl_testing::{field_of, for_rows_of_2, lend, with_lines};
use std::alloc::Global;
use std::fmt::Write;
use std::test::Fail;

/// Lines, and those that have a fault by themselves or, where none has, among all lines: the opcode
/// and the fault of each.
const SURVEYS: &str = "\
|
letter a 1|
# a comment; ; letter a 1|
pass2 @1 @2; letter a 1; pass2 @2 @3|pass2 B1 OutsideProfile pass2 at t.ctb:1; pass2 B1 OutsideProfile pass2 at t.ctb:3
letter a 19; letter a; always a =|letter B4 BadDots 19 at t.ctb:1; letter B2 MissingOperand letter at t.ctb:2
letter \\q 1; uplow AA 1|letter B3 BadCharacters \\q at t.ctb:1; uplow B3 BadCharacters AA at t.ctb:2
noback pass2 @1 @2; nofor letter a 1|noback pass2 B1 OutsideProfile pass2 at t.ctb:1; nofor letter B1 OutsideProfile letter at t.ctb:2
noback; nofor always a 1,2; nofor|noback B2 MissingOperand noback at t.ctb:1; nofor always B4 BadDots 1,2 at t.ctb:2; nofor B2 MissingOperand nofor at t.ctb:3
numsign 9; numsign 6; numsign 6; numsign 1|numsign B4 BadDots 9 at t.ctb:1; numsign B9 IndicatorTwice numsign at t.ctb:3; numsign B9 IndicatorTwice numsign at t.ctb:4
capsletter 6; capsign 6; numsign 6|capsign B9 IndicatorTwice capsign at t.ctb:2
always ab =; numericmodechars .; litdigit 1 1; numericnocontchars 1|always B5 UndefinedInRule ab at t.ctb:1; numericmodechars B6 UndefinedInList . at t.ctb:2; numericnocontchars B7 TwoRoles 1 at t.ctb:4
always ab =; letter c 9|letter B4 BadDots 9 at t.ctb:2
letter a 1; always ab 1; nofor word b =; always aa 1|always B5 UndefinedInRule ab at t.ctb:2; nofor word B5 UndefinedInRule b at t.ctb:3
nofor word aaaaaaaaaaaaaaaaaaaaaaaaaaaaaaaaa 1; pass2 x|nofor word B8 TooMany word at t.ctb:1; pass2 B1 OutsideProfile pass2 at t.ctb:2
include|include B2 MissingOperand include at t.ctb:1
";

/// The faulty lines, one a line.
fn text_of(alloc: Global, found: &[FaultyLine]) -> Result<String, Fail> {
    let mut text = String::new(alloc);
    for faulty in found {
        let FaultyLine { opcode, fault } = faulty;
        writeln!(text, "{opcode} {fault}")?;
    }
    Ok(text)
}

fn surveyed_lines(alloc: Global, lines: &[Line<'_>]) -> Result<String, Fail> {
    lend(
        survey(alloc, lines)?,
        |found| text_of(alloc, found.faulty.as_slice()),
    )
}

/// The faulty lines among those of a field.
fn surveyed(alloc: Global, field: &str) -> Result<String, Fail> {
    let text = with_lines(alloc, field, |lines| surveyed_lines(alloc, lines))?;
    field_of(alloc, text.as_str())
}

/// The lines of 1,026 letters, and then two lines for the first of them.
fn many_letters(alloc: Global) -> Result<String, Fail> {
    let mut lines = String::new(alloc);
    for code in 0x4e00..0x5202 {
        write!(lines, "letter \\x{code:04x} 1; ")?;
    }
    lines.push_str("punctuation \\x4e00 2; always \\x4e00\\x5201 1")?;
    Ok(lines)
}

/// Whether of these lines just those that define the last two letters are faulty.
fn are_last_faulty(alloc: Global) -> Result<bool, Fail> {
    let lines = many_letters(alloc)?;
    let given = surveyed(alloc, lines.as_str())?;
    Ok(
        given.as_str()
            == "letter B8 TooMany letter at t.ctb:1025; letter B8 TooMany letter at t.ctb:1026",
    )
}

#[test]
fn faulty_lines(rt: HostRuntime) -> Result<(), Fail> {
    for_rows_of_2(rt.alloc(), SURVEYS, surveyed)
}

#[test]
fn a_table_has_1024_characters(rt: HostRuntime) -> Result<(), Fail> {
    assert!(rt; are_last_faulty(rt.alloc())?);
    Ok(())
}

/// Opcodes as a survey counts them, and whose they are.
const ORIGINS: &str = "\
always|profile
capsign|profile
include|profile
noback|profile
noback always|profile
nofor midnum|profile
noback sign|liblouis
nofor letter|liblouis
noback noback|liblouis
after|liblouis
context|liblouis
noback pass2|liblouis
swapdd|liblouis
undefined|liblouis
alwais|nobody
Always|nobody
noback alwais|nobody
always\u{a0}sh|nobody
";

fn name_of(origin: OpcodeOrigin) -> &'static str {
    match origin {
        OpcodeOrigin::Profile => "profile",
        OpcodeOrigin::Liblouis => "liblouis",
        OpcodeOrigin::Unknown => "nobody",
    }
}

fn origin_name(alloc: Global, opcode: &str) -> Result<String, Fail> {
    Ok(String::from_str(alloc, name_of(origin_of(opcode)))?)
}

#[test]
fn whose_opcodes_they_are(rt: HostRuntime) -> Result<(), Fail> {
    for_rows_of_2(rt.alloc(), ORIGINS, origin_name)
}

/// Tables, and whether a line of each defines a character.
const CHARACTERS: &str = "\
|none
# letter a 1|none
always ab 1|none
letter a 9|none
display a 1|none
nofor word a 1; letter a 1|some
uplow Aa 1|some
";

/// Whether a line of a field defines a character, in a word.
fn defines(alloc: Global, field: &str) -> Result<String, Fail> {
    let found = with_lines(
        alloc,
        field,
        |lines| Ok(survey(alloc, lines)?.has_characters),
    )?;
    Ok(String::from_str(alloc, if found { "some" } else { "none" })?)
}

#[test]
fn tables_without_characters(rt: HostRuntime) -> Result<(), Fail> {
    for_rows_of_2(rt.alloc(), CHARACTERS, defines)
}

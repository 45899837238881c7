//! What operands spell, and how characters are spelled.
use brl_lines::{chars_of, spell_chars};
use brl_testing::{for_rows_of_2, numbers_of};
use std::alloc::Global;
use std::fmt::Write;
use std::test::Fail;

/// Operands and their characters' numbers, or their fault.
const OPERANDS: &str = "\
|
ab|61,62
a\\x0062\\s|61,62,20
\\\\|5c
\\f\\n\\r\\s\\t\\v\\e|c,a,d,20,9,b,1b
\\x00e9\\x00E9|e9,e9
\\y1f600\\z0010FFFF|1f600,10ffff
\\z0001f600|1f600
\\x00611|61,31
\u{e9}\u{1f600}\\s|e9,1f600,20
\\q|L7 BadEscape
\\|L7 BadEscape
a\\|L7 BadEscape
\\x|L7 BadEscape
\\x006|L7 BadEscape
\\x00g1|L7 BadEscape
\\xd800|L7 BadEscape
\\y1f60|L7 BadEscape
\\z0011000|L7 BadEscape
\\z00110000|L7 BadEscape
\\zffffffff|L7 BadEscape
\\S|L7 BadEscape
\\X0062|L7 BadEscape
\\\u{e9}|L7 BadEscape
\\x \u{e9}62|L7 BadEscape
";

/// The numbers of characters, as a field.
fn field_of_numbers(alloc: Global, characters: &[char]) -> Result<String, Fail> {
    let mut text = String::new(alloc);
    for character in characters {
        if !text.is_empty() {
            text.push(',')?;
        }
        write!(text, "{:x}", u32::from(*character))?;
    }
    Ok(text)
}

fn spelled(alloc: Global, operand: &str) -> Result<String, Fail> {
    match chars_of(alloc, operand) {
        Ok(characters) => field_of_numbers(alloc, characters.as_slice()),
        Err(fault) => Ok(format!(in alloc; "{fault}")?),
    }
}

#[test]
fn operands(rt: HostRuntime) -> Result<(), Fail> {
    for_rows_of_2(rt.alloc(), OPERANDS, spelled)
}

/// Characters' numbers, and the operand that spells them.
const SPELLINGS: &str = "\
|
61,20,62|a\\sb
5c,73|\\\\s
9,a,d,c,b,1b|\\t\\n\\r\\f\\v\\e
0,1,1f,7f|\\x0000\\x0001\\x001f\\x007f
80,e9,56fd,1f600|\u{80}\u{e9}\u{56fd}\u{1f600}
";

fn characters_of(alloc: Global, field: &str) -> Result<Vec<char>, Fail> {
    let mut characters = Vec::new(alloc);
    for number in &numbers_of(alloc, field)? {
        characters.push(char::from_u32(*number).ok_or("no character")?)?;
    }
    Ok(characters)
}

fn spelling_of(alloc: Global, numbers: &str) -> Result<String, Fail> {
    let characters = characters_of(alloc, numbers)?;
    Ok(spell_chars(alloc, characters.as_slice())?)
}

#[test]
fn spellings(rt: HostRuntime) -> Result<(), Fail> {
    for_rows_of_2(rt.alloc(), SPELLINGS, spelling_of)
}

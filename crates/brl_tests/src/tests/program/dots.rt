//! What `explain` says of dots that are wrong, and of operands with too many characters. Some dots
//! have a comma, and a comma ends a word in the rows of `cases`, so these rows stand apart.
use brl_explain::explain;
use brl_testing::for_rows_of_2;
use std::alloc::Global;
use std::test::Fail;

/// The line of a fault, and the note on its dots; nothing where there is none.
const DOTS: &str = "\
B4 BadDots 1,9 at t.ctb:1|9 is a virtual dot, which isn't read
B4 BadDots 9,1 at t.ctb:1|9 is a virtual dot, which isn't read
B4 BadDots 1#,9 at t.ctb:1|# is no dot
B4 BadDots 1, at t.ctb:1|a cell is empty
B4 BadDots ,1 at t.ctb:1|a cell is empty
B4 BadDots 1,22 at t.ctb:1|a dot is in a cell twice
B4 BadDots 1,2 at t.ctb:1|a comma is read in uplow alone
B4 BadDots 1,2,3 at t.ctb:1|, is no dot
B4 BadDots 9 at t.ctb:1|9 is a virtual dot, which isn't read
B4 BadDots = at t.ctb:1|= is no dot
B4 BadDots dis at t.ctb:1|i is no dot
B4 BadDots dad at t.ctb:1|d is a virtual dot, which isn't read
B4 BadDots 9-1#x at t.ctb:1|# is no dot
B4|
B2 MissingOperand 1,9 at t.ctb:1|
";

/// The line of a fault, and the note on the characters that its operand spells; nothing where there
/// is none.
const OPERANDS: &str = "\
B3 BadCharacters qu at t.ctb:1|2 characters, where exactly one is taken, or by uplow two different ones
B3 BadCharacters q\\x0301u at t.ctb:1|3 characters, where exactly one is taken, or by uplow two different ones
B3 BadCharacters a at t.ctb:1|1 character, where uplow takes two different ones
B3 BadCharacters \\q at t.ctb:1|a backslash there begins no escape
B3 BadCharacters a\\x004 at t.ctb:1|a backslash there begins no escape
B3|
B2 MissingOperand qu at t.ctb:1|
";

/// The note on the dots of a line.
fn said_of_dots(alloc: Global, line: &str) -> Result<String, Fail> {
    said_after(alloc, line, "Dots: ")
}

/// The note on the operand of a line.
fn said_of_operand(alloc: Global, line: &str) -> Result<String, Fail> {
    said_after(alloc, line, "Operand: ")
}

/// What follows a title in the explanation of a line.
fn said_after(alloc: Global, line: &str, title: &str) -> Result<String, Fail> {
    let text = explain(alloc, line)?.ok_or("no fault has this line")?;
    for row in text.as_str().lines() {
        if let Some(note) = row.strip_prefix(title) {
            return Ok(String::from_str(alloc, note)?);
        }
    }
    Ok(String::new(alloc))
}

#[test]
fn notes_on_dots(rt: HostRuntime) -> Result<(), Fail> {
    for_rows_of_2(rt.alloc(), DOTS, said_of_dots)
}

#[test]
fn notes_on_operands(rt: HostRuntime) -> Result<(), Fail> {
    for_rows_of_2(rt.alloc(), OPERANDS, said_of_operand)
}

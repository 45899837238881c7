//! What `explain` says of the file that a fault's line names.
use brl_explain::file_notes;
use brl_testing::{add_files_of_bytes, field_of_bytes, for_rows_of_3, no_files};
use std::alloc::Global;
use std::test::Fail;

/// Files, the line of a fault, and the notes on these files.
const NOTES: &str = "\
t.ctb: letter a 1;noback sign x 1|B1 OutsideProfile sign at t.ctb:2|Line:;    t.ctb:2: noback sign x 1;Prefix: noback;
t.ctb: nofor|B1 OutsideProfile sign at t.ctb:1|Line:;    t.ctb:1: nofor;Prefix: nofor;
t.ctb: alway ab 1|B1 OutsideProfile alway at t.ctb:1|Line:;    t.ctb:1: alway ab 1;
t.ctb: noback letter a 19|B4 BadDots 19 at t.ctb:1|Line:;    t.ctb:1: noback letter a 19;
t.ctb: # none;;letter \u{e9} 19 e\u{301}|B4 BadDots 19 at t.ctb:3|Line:;    t.ctb:3: letter \u{e9} 19 e\u{301};Characters of the line: \\x00e9 \\x0301;
t.ctb: capsign 6;letter a 1;capsletter 5|B9 IndicatorTwice capsletter at t.ctb:3|Line:;    t.ctb:3: capsletter 5;First:;    t.ctb:1: capsign 6;
t.ctb: include u;numsign 3456 & u: letter a 1;numsign 6|B9 IndicatorTwice numsign at t.ctb:2|Line:;    t.ctb:2: numsign 3456;First:;    u:2: numsign 6;
t.ctb: include u;numsign 3456 & u: letter a 1;numsign 6|B9 IndicatorTwice numsign at u:2|Line:;    u:2: numsign 6;
t.ctb: capsign 6;capsletter 5|B4 BadDots 9 at t.ctb:2|Line:;    t.ctb:2: capsletter 5;
my t.ctb: letter a|B2 MissingOperand letter at my t.ctb:1|Line:;    my t.ctb:1: letter a;Missing: dots;
t.ctb: letter|B2 MissingOperand letter at t.ctb:1|Line:;    t.ctb:1: letter;Missing: characters and dots;
t.ctb: always|B2 MissingOperand always at t.ctb:1|Line:;    t.ctb:1: always;Missing: characters and dots;
t.ctb: noback always ab|B2 MissingOperand always at t.ctb:1|Line:;    t.ctb:1: noback always ab;Missing: dots;
t.ctb: nofor word|B2 MissingOperand word at t.ctb:1|Line:;    t.ctb:1: nofor word;Missing: characters and dots;
t.ctb: noback|B2 MissingOperand noback at t.ctb:1|Line:;    t.ctb:1: noback;Missing: a rule;
t.ctb: numsign|B2 MissingOperand numsign at t.ctb:1|Line:;    t.ctb:1: numsign;Missing: dots;
t.ctb: numericmodechars|B2 MissingOperand numericmodechars at t.ctb:1|Line:;    t.ctb:1: numericmodechars;Missing: characters;
t.ctb: include|B2 MissingOperand include at t.ctb:1|Line:;    t.ctb:1: include;Missing: the name of a file;
t.ctb: always 256 dis|B4 BadDots dis at t.ctb:1|Line:;    t.ctb:1: always 256 dis;Operands: they seem to be swapped, since characters come before their dots;
t.ctb: noback word 1-2 dad x|B4 BadDots dad at t.ctb:1|Line:;    t.ctb:1: noback word 1-2 dad x;Operands: they seem to be swapped, since characters come before their dots;
t.ctb: digit 1 9|B4 BadDots 9 at t.ctb:1|Line:;    t.ctb:1: digit 1 9;
t.ctb: always dis dat|B4 BadDots dat at t.ctb:1|Line:;    t.ctb:1: always dis dat;
t.ctb: always 256 dis|B4 BadDots das at t.ctb:1|Line:;    t.ctb:1: always 256 dis;
t.ctb: always 256 dis|B1 OutsideProfile dis at t.ctb:1|Line:;    t.ctb:1: always 256 dis;
t.ctb: letter a 1;always xai 1|B5 UndefinedInRule xai at t.ctb:2|Line:;    t.ctb:2: always xai 1;Not defined in t.ctb: x i;
t.ctb: include u;always a\\x0001b 1 & u: letter a 1;letter b 9|B5 UndefinedInRule a\\x0001b at t.ctb:2|Line:;    t.ctb:2: always a\\x0001b 1;Not defined in t.ctb: \\x0001 b;
t.ctb: include u;letter a 1 & u: numericmodechars ,a|B6 UndefinedInList ,a at u:1|Line:;    u:1: numericmodechars ,a;Not defined in u: , a;
t.ctb: letter a 1;always aa 1|B5 UndefinedInRule aa at t.ctb:2|Line:;    t.ctb:2: always aa 1;
t.ctb: letter a 1;always xa 1|B8 TooMany xa at t.ctb:2|Line:;    t.ctb:2: always xa 1;
t.ctb: letter a 1|B2 MissingOperand letter at t.ctb:2|
t.ctb: letter a 1|B2 MissingOperand letter at t.ctb|
t.ctb: letter a 1|B2 MissingOperand letter at t.ctb:x|
t.ctb: letter a 1|B2 MissingOperand letter in t.ctb:1|
t.ctb: letter a 1|B2|
t.ctb: letter a 1;include v|B2 MissingOperand letter at t.ctb:1|
line 1: letter a 1|U1 NoAscii at line 1|
t.ctb: letter a 1|L1 NotFound v at t.ctb:1|
u: letter a;letter ! 1|L3 NotUtf8 u|Byte: ff at u:2;
u: ab!|L3 NotUtf8 u at t.ctb:1|Byte: ff at u:1;
u: letter a 1|L3 NotUtf8 u|
|L3 NotUtf8 u|
|B2 MissingOperand letter at t.ctb:1|
";

/// The notes on files, as a field of bytes.
fn notes_of(alloc: Global, files: &str, line: &str) -> Result<String, Fail> {
    let mut source = no_files(alloc);
    add_files_of_bytes(alloc, files, &mut source)?;
    let notes = file_notes(alloc, &mut source, line)?;
    field_of_bytes(alloc, notes.as_bytes())
}

#[test]
fn notes_on_files(rt: HostRuntime) -> Result<(), Fail> {
    for_rows_of_3(rt.alloc(), NOTES, notes_of)
}

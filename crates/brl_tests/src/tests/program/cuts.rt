//! Cuts of tables in memory, file by file.
use brl_cut::{Cut, CutFault, CutTable, cut_table};
use brl_failure::Failure;
use brl_testing::{field_of, files_of, for_rows_of_3, for_rows_of_4, words_of};
use std::alloc::Global;
use std::test::Fail;

/// Files, the path of a table, and the files of its cut for the folder `o`, each with its lines; or
/// why it isn't cut.
const CUTS: &str = "\
t.ctb: letter a 1; pass2 @1 2; letter b 12|t.ctb|o/t.ctb: letter a 1; # B1 OutsideProfile pass2: pass2 @1 2; letter b 12
t.ctb: letter a 1; letter b 9; always ab 12; always aa 1|t.ctb|o/t.ctb: letter a 1; # B4 BadDots 9: letter b 9; # B5 UndefinedInRule ab: always ab 12; always aa 1
d/t.ctb: include e/u; letter a 1 & d/e/u: letter b\t12; always ab =|d/t.ctb|o/t.ctb: include e/u; letter a 1 & o/e/u: letter b\t12; always ab =
t.ctb: include u; include u; include t.ctb; include v; include w.dic & u: letter a 1 & w.dic: .a1b|t.ctb|o/t.ctb: include u; # repeated u: include u; # repeated t.ctb: include t.ctb; # L1 NotFound v: include v; # dictionary w.dic: include w.dic & o/u: letter a 1
t.ctb: include u; include v & u: include v; letter a 1 & v: numsign 3456|t.ctb|o/t.ctb: include u; # repeated v: include v & o/u: include v; letter a 1 & o/v: numsign 3456
t.ctb: include ../u|t.ctb|include ../u at t.ctb:1 leads out of the table's folder
t.ctb: include /u|t.ctb|include /u at t.ctb:1 leads out of the table's folder
t.ctb: letter a 1|u.ctb|L1 NotFound u.ctb";

/// Files, the folders in which they are looked for, the path of a table, and its cut.
const FOUND: &str = "\
t.ctb: include u & one/u: letter a 1 & two/u: letter a 2|one,two|t.ctb|o/t.ctb: include u & o/u: letter a 1
t.ctb: include u & one/u: letter a 1 & two/u: letter a 2|two,one|t.ctb|o/t.ctb: include u & o/u: letter a 2
t.ctb: include u & u: letter a 12 & one/u: letter a 1|one|t.ctb|o/t.ctb: include u & o/u: letter a 12
t.ctb: include u & one/u: letter a 1; letter b 9|one/|t.ctb|o/t.ctb: include u & o/u: letter a 1; # B4 BadDots 9: letter b 9
d/t.ctb: include p/u & one/p/u: include v & d/v: letter a 1 & one/v: letter a 2|one|d/t.ctb|o/t.ctb: include p/u & o/p/u: include v & o/v: letter a 1
one/d/t.ctb: include u; include v & one/d/u: letter a 1 & d/u: letter a 2 & one/v: letter b 1|one|d/t.ctb|o/t.ctb: include u; include v & o/u: letter a 1 & o/v: letter b 1
t.ctb: include p/u; include u & one/p/u: include u; letter a 1|one,one/p|t.ctb|o/t.ctb: include p/u; # repeated u: include u & o/p/u: # repeated u: include u; letter a 1
one/t.ctb: include one/t.ctb; include u & u: letter a 1|one,|t.ctb|o/t.ctb: # repeated one/t.ctb: include one/t.ctb; include u & o/u: letter a 1
t.ctb: include u; include w.dic & two/v: letter a 1 & one/w.dic: x|one,two|t.ctb|o/t.ctb: # L1 NotFound u: include u; # dictionary w.dic: include w.dic
t.ctb: include u & one/u: letter a 1||t.ctb|o/t.ctb: # L1 NotFound u: include u
t.ctb: include u|one,two|v.ctb|L1 NotFound v.ctb
one/t.ctb: include ../u & u: letter a 1|one|t.ctb|include ../u at one/t.ctb:1 leads out of the table's folder";

/// Cuts whose lines may be rewritten.
const REWRITTEN: &str = "\
t.ctb: noback sign x 12; nofor sign y 1; noback pass2 x|t.ctb|o/t.ctb: sign x 12 # noback sign x 12; # B1 OutsideProfile sign: nofor sign y 1; # B1 OutsideProfile pass2: noback pass2 x
t.ctb: base uppercase A a; noback letter a 21-0; letter a 3|t.ctb|o/t.ctb: uplow Aa 12-0 # base uppercase A a; letter a 21-0 # noback letter a 21-0; letter a 3
t.ctb: include u; base uppercase A a; base uppercase B b & u: letter a 1; letter b 9|t.ctb|o/t.ctb: include u; uplow Aa 1 # base uppercase A a; # B1 OutsideProfile base: base uppercase B b & o/u: letter a 1; # B4 BadDots 9: letter b 9
t.ctb: letter a 1; base uppercase a a; base uppercase AB a; base italic A a; base uppercase A|t.ctb|o/t.ctb: letter a 1; # B1 OutsideProfile base: base uppercase a a; # B1 OutsideProfile base: base uppercase AB a; # B1 OutsideProfile base: base italic A a; # B1 OutsideProfile base: base uppercase A
t.ctb: letter t 2345; base uppercase a\\ t; base uppercase \\x0041 t|t.ctb|o/t.ctb: letter t 2345; # B1 OutsideProfile base: base uppercase a\\ t; uplow \\x0041t 2345 # base uppercase \\x0041 t
t.ctb: letter a 1; letter b 12; contraction ab; contraction ba x|t.ctb|o/t.ctb: letter a 1; letter b 12; word ab 1-12 # contraction ab; word ba 12-1 # contraction ba x
t.ctb: contraction a; letsign 5; letsign 56-6; letsign 9; nocontractsign 4; nocontractsign 3; letter a 1|t.ctb|o/t.ctb: word a 4-56-6-1 # contraction a; # B1 OutsideProfile letsign: letsign 5; include letsign-made.cti # letsign 56-6; # B1 OutsideProfile letsign: letsign 9; nocontractsign 4; # B9 IndicatorTwice nocontractsign: nocontractsign 3; letter a 1 & o/letsign-made.cti: word a 4-56-6-1
t.ctb: letsign 56; base uppercase A a; noback letter a 1; contraction a; contraction aA; contraction A|t.ctb|o/t.ctb: include letsign-made.cti # letsign 56; uplow Aa 1 # base uppercase A a; letter a 1 # noback letter a 1; word a 56-1 # contraction a; # B1 OutsideProfile contraction: contraction aA; # B1 OutsideProfile contraction: contraction A & o/letsign-made.cti: word a 56-1
t.ctb: letter a 1; sign + 2; letsign 6; word a+ 3; always a 4|t.ctb|o/t.ctb: letter a 1; sign + 2; include letsign-made.cti # letsign 6; word a+ 6-3 # word a+ 3; always a 4 & o/letsign-made.cti: word a 6-4
t.ctb: letter a 1; letsign 6; include letsign-made.cti & letsign-made.cti: letter b 12|t.ctb|o/t.ctb: letter a 1; # B1 OutsideProfile letsign: letsign 6; include letsign-made.cti & o/letsign-made.cti: letter b 12
t.ctb: letter a 1; contraction; contraction ab; contraction \\q; noback contraction a; nofor contraction a|t.ctb|o/t.ctb: letter a 1; # B1 OutsideProfile contraction: contraction; # B1 OutsideProfile contraction: contraction ab; # B1 OutsideProfile contraction: contraction \\q; # B1 OutsideProfile contraction: noback contraction a; # B1 OutsideProfile contraction: nofor contraction a
t.ctb: letter a 1-1-1-1-1-1-1; letter b 12; nocontractsign 6; contraction aab; contraction aabb|t.ctb|o/t.ctb: letter a 1-1-1-1-1-1-1; letter b 12; nocontractsign 6; word aab 6-1-1-1-1-1-1-1-1-1-1-1-1-1-1-12 # contraction aab; # B1 OutsideProfile contraction: contraction aabb";

/// The files of a cut, each with its lines, as in a row.
fn field_of_cut(alloc: Global, cut: &Cut) -> Result<String, Fail> {
    let mut field = String::new(alloc);
    for file in &cut.files {
        if !field.is_empty() {
            field.push_str(" & ")?;
        }
        let path = file.path.as_str();
        let lines = field_of(alloc, std::str::from_utf8(file.bytes.as_slice())?)?;
        field.push_str(format!(in alloc; "{path}: {lines}")?.as_str())?;
    }
    Ok(field)
}

/// What the cut of the table at a path gives.
fn given(alloc: Global, outcome: Result<CutTable, Failure<CutFault>>) -> Result<String, Fail> {
    match outcome {
        Ok(of) => field_of_cut(alloc, &of.cut),
        Err(failure) => Ok(format!(in alloc; "{failure}")?),
    }
}

/// Fails at a row whose table is cut otherwise.
fn are_cut(alloc: Global, rows: &str, rewrite: bool) -> Result<(), Fail> {
    for_rows_of_3(alloc, rows, |alloc, files, path| {
        let mut source = files_of(alloc, files)?;
        given(alloc, cut_table(alloc, &mut source, path, "o", rewrite))
    })
}

/// The cut of a table whose files are looked for in these folders too.
fn cut_in_folders(alloc: Global, files: &str, folders: &str, path: &str) -> Result<String, Fail> {
    let mut source = files_of(alloc, files)?;
    source.folders = Some(words_of(alloc, folders)?);
    given(alloc, cut_table(alloc, &mut source, path, "o", false))
}

#[test]
fn are_written_where_names_say(rt: HostRuntime) -> Result<(), Fail> {
    for_rows_of_4(rt.alloc(), FOUND, cut_in_folders)
}

#[test]
fn are_written(rt: HostRuntime) -> Result<(), Fail> {
    are_cut(rt.alloc(), CUTS, false)?;
    are_cut(rt.alloc(), REWRITTEN, true)
}

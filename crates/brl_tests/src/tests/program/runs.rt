//! Worked runs of the program over files, streams and words in memory.
use crate::tests::program::cases;
use crate::tests::program::files::Unreadable;
use brl_failure::Failure;
use brl_lines::{MapSource, SourceFault};
use brl_testing::{
    Broken, Closed, Listener, Refusing, check_rows, cut, field_of, files_of, for_rows_of_2,
    for_rows_of_4, lines_of, no_files, one_file, words_of,
};
use brl_tool::{Counting, Files, Input, run};
use std::alloc::Global;
use std::io::ErrorKind;
use std::test::Fail;

/// What a run wrote, and its status.
#[derive(Drop)]
pub struct Outcome {
    pub out: Vec<u8>,
    pub err: Listener,
    pub status: u8,
}

impl Outcome {
    /// Whether this was written, with this status.
    pub fn is(&self, out: &[u8], err: &[u8], status: u8) -> bool {
        self.out.as_slice() == out && self.err.written.as_slice() == err && self.status == status
    }

    /// The lines that were written, as two fields, and the status as a third.
    pub fn fields(&self, alloc: Global) -> Result<String, Fail> {
        let out = field_of(alloc, std::str::from_utf8(self.out.as_slice())?)?;
        let err = field_of(alloc, std::str::from_utf8(self.err.written.as_slice())?)?;
        Ok(format!(in alloc; "{out}|{err}|{}", self.status)?)
    }
}

/// Runs over files, an input and the words of a field.
pub fn outcome_of<F: Files>(
    alloc: Global,
    words: &str,
    files: &mut F,
    input: &[u8],
) -> Result<Outcome, Fail> {
    let mut reader = input;
    outcome_of_reader(alloc, words, files, &mut reader)
}

fn outcome_of_reader<F: Files, I: Input>(
    alloc: Global,
    words: &str,
    files: &mut F,
    reader: &mut I,
) -> Result<Outcome, Fail> {
    let words = words_of(alloc, words)?;
    let mut out = Counting::new(Vec::new(alloc));
    let mut err = Listener::new(Vec::new(alloc));
    let status = run(alloc, words.as_slice(), files, reader, &mut out, &mut err);
    Ok(Outcome {
        out: out.device,
        err,
        status,
    })
}

/// Whether a run over files and an input is answered by what these fields say.
pub fn is_answered<F: Files>(
    alloc: Global,
    words: &str,
    files: &mut F,
    input: &[u8],
    fields: &str,
) -> Result<bool, Fail> {
    let outcome = outcome_of(alloc, words, files, input)?;
    Ok(outcome.fields(alloc)?.as_str() == fields)
}

/// The answer of a run over the files, the words and the input of three fields.
fn answer_of(alloc: Global, files: &str, words: &str, input: &str) -> Result<String, Fail> {
    let mut files = files_of(alloc, files)?;
    let input = lines_of(alloc, input)?;
    outcome_of(alloc, words, &mut files, input.as_bytes())?.fields(alloc)
}

#[test]
fn worked_runs(rt: HostRuntime) -> Result<(), Fail> {
    let alloc = rt.alloc();
    for rows in [
        cases::TRANSLATIONS,
        cases::INCLUDES,
        cases::COMPARISONS,
        cases::ESCAPES,
        cases::CHECKS,
        cases::SEARCHES,
        cases::CUTS,
        cases::SURVEYS,
        cases::TRACES,
        cases::RULES,
        cases::UNUSED,
        cases::EXPLANATIONS,
        cases::CLASHES,
        cases::WITHOUT,
        cases::ONLY,
    ] {
        for_rows_of_4(alloc, rows, answer_of)?;
    }
    Ok(())
}

/// Whether what was written has a text that isn't empty; of the empty text, whether nothing was
/// written.
fn has_text(written: &[u8], text: &str) -> Result<bool, Fail> {
    let written = std::str::from_utf8(written)?;
    Ok(written.is_empty() == text.is_empty() && written.contains(text))
}

/// Whether an outcome has the texts of two fields, and the status of a third.
fn has_texts(outcome: &Outcome, fields: &str) -> Result<bool, Fail> {
    let (out, rest) = cut(fields)?;
    let (err, status) = cut(rest)?;
    let status: u8 = status.parse()?;
    Ok(
        outcome.status == status
            && has_text(outcome.out.as_slice(), out)?
            && has_text(outcome.err.written.as_slice(), err)?,
    )
}

/// Whether words are answered as their row says.
fn is_request_answered(alloc: Global, row: &str) -> Result<bool, Fail> {
    let (words, fields) = cut(row)?;
    let outcome = outcome_of(alloc, words, &mut no_files(alloc), b"")?;
    has_texts(&outcome, fields)
}

#[test]
fn words_are_answered(rt: HostRuntime) -> Result<(), Fail> {
    check_rows(rt.alloc(), cases::REQUESTS, is_request_answered)
}

/// The words that translate by the table `t.ctb`.
const TRANSLATE: &str = "brl,translate,t.ctb";

/// Whether `brl translate t.ctb` over that file and an input is answered by what these fields say.
fn is_translated(alloc: Global, table: &[u8], input: &[u8], fields: &str) -> Result<bool, Fail> {
    is_answered(
        alloc,
        TRANSLATE,
        &mut one_file(alloc, "t.ctb", table)?,
        input,
        fields,
    )
}

/// A table of the letters `a` and `b` and `count` rules of both.
fn with_rules(alloc: Global, count: usize) -> Result<Vec<u8>, Fail> {
    let mut table = Vec::from_slice(alloc, b"letter a 1\nletter b 12\n")?;
    for _ in 0..count {
        table.extend_from_slice(b"always ab 25\n")?;
    }
    Ok(table)
}

/// Whether an input is translated so by a table of `count` rules.
fn is_ruled(alloc: Global, count: usize, input: &[u8], fields: &str) -> Result<bool, Fail> {
    is_translated(alloc, with_rules(alloc, count)?.as_slice(), input, fields)
}

#[test]
fn a_table_has_4096_rules(rt: HostRuntime) -> Result<(), Fail> {
    let alloc = rt.alloc();
    assert!(rt; is_ruled(alloc, 4096, b"aba\n", "3A||0")?);
    assert!(rt; is_ruled(alloc, 4097, b"", "|B8 TooMany always at t.ctb:4099|2")?);
    Ok(())
}

/// This many times a byte.
pub fn repeated(alloc: Global, byte: u8, count: usize) -> Result<Vec<u8>, Fail> {
    Ok(vec![in alloc; byte; count]?)
}

/// Whether a table of one comment of this many bytes is answered so.
fn is_commented(alloc: Global, count: usize, fields: &str) -> Result<bool, Fail> {
    is_translated(alloc, repeated(alloc, b'#', count)?.as_slice(), b"", fields)
}

#[test]
fn a_table_line_has_2048_bytes(rt: HostRuntime) -> Result<(), Fail> {
    let alloc = rt.alloc();
    assert!(rt; is_commented(alloc, 2048, "||0")?);
    assert!(rt; is_commented(alloc, 2049, "|L6 LineTooLong t.ctb at t.ctb:1|2")?);
    Ok(())
}

#[test]
fn an_input_line_has_65536_bytes(rt: HostRuntime) -> Result<(), Fail> {
    let long = repeated(rt.alloc(), b'a', 65_537)?;
    let fields = "|U5 InputLineTooLong at line 1|2";
    assert!(rt; is_translated(rt.alloc(), b"letter a 1", long.as_slice(), fields)?);
    Ok(())
}

#[test]
fn tables_and_inputs_are_utf8(rt: HostRuntime) -> Result<(), Fail> {
    let alloc = rt.alloc();
    assert!(rt; is_translated(alloc, b"letter \xff 1\n", b"", "|L3 NotUtf8 t.ctb|2")?);
    assert!(rt;
        is_translated(
            alloc,
            b"letter a 1\n",
            b"\xff\n",
            "|U2 InputNotUtf8 at line 1|2"
        )?
    );
    Ok(())
}

/// Whether a run over a source that refuses is answered so.
fn is_refused(alloc: Global, refusal: Failure<SourceFault>, fields: &str) -> Result<bool, Fail> {
    let files = Refusing {
        refusal,
        failures: 0,
    };
    is_answered(
        alloc,
        TRANSLATE,
        &mut Unreadable {
            files,
            folders: None,
        },
        b"a\n",
        fields,
    )
}

#[test]
fn sources_refuse(rt: HostRuntime) -> Result<(), Fail> {
    let alloc = rt.alloc();
    let failed = Failure::Fault(SourceFault::Failed);
    assert!(rt; is_refused(alloc, failed, "|L2 ReadFailed t.ctb|2")?);
    let too_large = Failure::Fault(SourceFault::TooLarge);
    assert!(rt; is_refused(alloc, too_large, "|L9 TooLarge t.ctb|2")?);
    assert!(rt; is_refused(alloc, Failure::Memory, "|Memory|3")?);
    Ok(())
}

/// Whether a run over a reader that fails is answered so.
fn is_unread(alloc: Global, fields: &str) -> Result<bool, Fail> {
    let mut files = one_file(alloc, "t.ctb", b"letter a 1")?;
    let mut reader = Counting::new(Broken {
        bytes: 0,
        kind: ErrorKind::Other,
    });
    let outcome = outcome_of_reader(alloc, TRANSLATE, &mut files, &mut reader)?;
    Ok(outcome.fields(alloc)?.as_str() == fields)
}

#[test]
fn the_input_fails(rt: HostRuntime) -> Result<(), Fail> {
    assert!(rt; is_unread(rt.alloc(), "|U3 InputFailed at line 1|2")?);
    Ok(())
}

/// The words, what is written to standard error, and the status of their run where standard output
/// refuses each write.
const WITHOUT_OUTPUT: &str = "\
brl,translate,t.ctb|U4 OutputFailed at line 1|2
brl,clash,t.ctb,ab,x|U4 OutputFailed|2
brl,clash,t.ctb,a,b|U4 OutputFailed|2
brl,search,t.ctb,o|U4 OutputFailed|2
brl,--help|U4 OutputFailed|2
brl,--version|U4 OutputFailed|2
";

/// The answer of such a run over a table of three letters.
fn answer_without_output(alloc: Global, words: &str) -> Result<String, Fail> {
    let words = words_of(alloc, words)?;
    let mut files = one_file(alloc, "t.ctb", b"letter a 1\nletter b 12\nletter x 1-12\n")?;
    let mut err = Listener::new(Vec::new(alloc));
    let mut input = b"a\n".as_slice();
    let mut out = Counting::new(Closed);
    let words = words.as_slice();
    let status = run(alloc, words, &mut files, &mut input, &mut out, &mut err);
    let err = field_of(alloc, std::str::from_utf8(err.written.as_slice())?)?;
    Ok(format!(in alloc; "{err}|{status}")?)
}

#[test]
fn the_output_fails(rt: HostRuntime) -> Result<(), Fail> {
    for_rows_of_2(rt.alloc(), WITHOUT_OUTPUT, answer_without_output)
}

/// The words, and the status of their run where standard error refuses each write.
const SILENT: &str = "\
brl,translate,t.ctb|0
brl,translate,u.ctb|2
brl,clash,t.ctb,a,z|2
brl,search,t.ctb,o|0
brl,--nothing|2
";

/// The status of such a run over a table of one letter.
fn silent_status(alloc: Global, words: &str) -> Result<String, Fail> {
    let words = words_of(alloc, words)?;
    let mut files = one_file(alloc, "t.ctb", b"letter a 1")?;
    let mut input = b"a\n".as_slice();
    let mut out = Counting::new(Vec::new(alloc));
    let words = words.as_slice();
    let status = run(alloc, words, &mut files, &mut input, &mut out, &mut Closed);
    Ok(format!(in alloc; "{status}")?)
}

#[test]
fn standard_error_refuses(rt: HostRuntime) -> Result<(), Fail> {
    for_rows_of_2(rt.alloc(), SILENT, silent_status)
}

//! The program.
use brl_accepted::Counts;
use brl_answers::RunFault;
use brl_clashes::{ListForm, ListOutcome, ListRequest, Taken, Tally, show_list, verdict_text};
use brl_failure::Failure;
use brl_lines::MapSource;
use brl_pairs::{Excused, RulePairs};
use brl_progress::NoProgress;
use brl_table::Table;
use brl_testing::{Listener, one_file, table_of};
use brl_tool::{
    Counting, CreateFault, Files, Form, Lacking, SinkFault, StreamFault, run,
    translate_defined_lines, translate_lines,
};
use brl_without::LeftOut;
use std::alloc::{AllocError, Global};
use std::test::Fail;

fn is_written(alloc: Global, files: &mut MapSource) -> bool {
    let written: Result<(), SinkFault> = files.write(alloc, "u.ctb", b"letter a 1\n");
    written.is_ok() && files.files.len() == 2
}

fn is_made(alloc: Global, files: &mut MapSource) -> bool {
    let made: Result<(), Failure<CreateFault>> = files.create(alloc, "v.ctb", b"letter a 1\n");
    made.is_ok() && files.is_there("v.ctb")
}

/// Whether an input is translated to this output.
fn is_streamed(alloc: Global, table: &Table, form: Form, input: &[u8], want: &[u8]) -> bool {
    let mut out = Counting::new(Vec::new(alloc));
    let mut reader = Counting::new(input);
    let done: Result<(), Failure<StreamFault>> = translate_lines(
        alloc,
        table,
        form,
        &mut reader,
        &mut out,
    );
    done.is_ok() && out.device.as_slice() == want
}

fn is_listed(alloc: Global, table: &Table, input: &[u8], want: Lacking) -> bool {
    let mut out = Counting::new(Vec::new(alloc));
    let mut reader = Counting::new(input);
    let done: Result<Vec<Lacking>, Failure<StreamFault>> = translate_defined_lines(
        alloc,
        table,
        Form::Ascii,
        &mut reader,
        &mut out,
    );
    match done {
        Ok(list) => list.as_slice() == [want].as_slice(),
        Err(_) => false,
    }
}

fn streams(alloc: Global, table: &Table) -> bool {
    is_streamed(alloc, table, Form::Ascii, b"a\n", b"A\n")
        && is_streamed(alloc, table, Form::Unicode, b"a\n", "\u{2801}\n".as_bytes())
        && is_listed(
            alloc,
            table,
            b"a\n~\n",
            Lacking {
                character: '~',
                count: 1,
                line: 2,
            },
        )
        && !is_streamed(alloc, table, Form::Ascii, b"z\n", b"")
}

/// What the program answers these words with, and its status.
fn answers(alloc: Global, words: &[String], files: &mut MapSource) -> bool {
    let mut out = Counting::new(Vec::new(alloc));
    let mut err = Listener::new(Vec::new(alloc));
    let mut input = Counting::new(b"".as_slice());
    let status = run(alloc, words, files, &mut input, &mut out, &mut err);
    out.device.as_slice() == b"no clash\n".as_slice() && status == 0
}

fn words_of(alloc: Global) -> Result<Vec<String>, Fail> {
    let mut words = Vec::new(alloc);
    for word in ["brl", "clash", "t.ctb", "a", "b"] {
        words.push(String::from_str(alloc, word)?)?;
    }
    Ok(words)
}

fn is_run(alloc: Global, files: &mut MapSource) -> Result<bool, Fail> {
    let words = words_of(alloc)?;
    let done = answers(alloc, words.as_slice(), files);
    Ok(done && is_written(alloc, files) && is_made(alloc, files))
}

fn runs(alloc: Global) -> Result<bool, Fail> {
    let mut files = one_file(alloc, "t.ctb", b"letter a 1\nletter b 12\n")?;
    is_run(alloc, &mut files)
}

/// Whether this is kept of one section, of small letters, that has one pair of rules, which may be
/// left.
fn is_of_letters(tally: &Tally, left: usize) -> bool {
    let outcome = if left == 0 {
        matches!(tally.outcome(), ListOutcome::Unambiguous)
    } else {
        matches!(tally.outcome(), ListOutcome::Clashing)
    };
    outcome && tally.whole && tally.found.len() == 1 && tally.left.len() == left
}

/// What is excused: the pairs of rules of the small letters of a table, or nothing.
fn excused_by(alloc: Global, accepts: bool) -> Result<Excused, AllocError> {
    let mut excused = Excused::nothing(alloc);
    if accepts {
        excused.accepted = RulePairs::new(alloc, Vec::from_slice(alloc, &[(0, 2), (1, 2)])?)?;
    }
    Ok(excused)
}

/// The list of a table's clashes, as an author reads it, where its pairs are accepted or none are.
fn clashes_text(alloc: Global, table: &Table, accepts: bool) -> Result<String, RunFault> {
    let left_out = LeftOut::none(alloc);
    let excused = excused_by(alloc, accepts)?;
    let asked = ListRequest {
        table,
        lines: &[],
        left_out: &left_out,
        excused: &excused,
        limit: 1000,
        form: ListForm::Pairs {
            first: 0,
            key: None,
        },
    };
    let mut out = Counting::new(Vec::new(alloc));
    let tally = show_list(alloc, asked, &mut out, &mut NoProgress)?;
    if !is_of_letters(&tally, usize::from(!accepts)) {
        return Ok(String::new(alloc));
    }
    let taken = accepts.then_some(Taken {
        listed: 1,
        counts: Counts { pairs: 1, sets: 0 },
        stale: 0,
        pruned: false,
    });
    let mut text = String::from_utf8_lossy(alloc, out.device.as_slice())?;
    text.push_str(verdict_text(alloc, &tally, taken)?.as_str())?;
    Ok(text)
}

fn lists_clashes(alloc: Global) -> Result<bool, Fail> {
    let table = table_of(alloc, "letter a 1; letter b 12; letter x 1-12")?;
    let all = clashes_text(alloc, &table, false)?;
    let none = clashes_text(alloc, &table, true)?;
    let none_left =
        "\n0 pairs of rules diverge, and no others but for the accepted ones\nbut for: 1 pair of rules, 0 sets of characters\n";
    Ok(
        all.as_str()
            .ends_with("\n1 pair of rules diverges, and no others\n")
            && none.as_str().ends_with(none_left),
    )
}

fn translates(alloc: Global) -> Result<bool, Fail> {
    let table = table_of(alloc, "letter a 1")?;
    Ok(streams(alloc, &table))
}

#[test]
fn calls_of_the_program(rt: HostRuntime) -> Result<(), Fail> {
    assert!(rt; runs(rt.alloc())? && translates(rt.alloc())? && lists_clashes(rt.alloc())?);
    Ok(())
}

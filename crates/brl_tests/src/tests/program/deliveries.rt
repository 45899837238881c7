//! Answers with new files, delivered to files in memory.
use crate::tests::program::files::Sealed;
use brl_answers::{Answer, NewFile, NewFiles, RunFault, Status, deliver};
use brl_failure::Failure;
use brl_lines::{LeadsOut, Location, MapSource};
use brl_testing::{Closed, agree, field_of, files_of, for_rows_of_4, lines_of, no_files};
use brl_tool::{Counting, Failed, Files};
use std::alloc::Global;
use std::test::Fail;

/// The new files of a field, in its order.
fn new_files_of(alloc: Global, field: &str) -> Result<Vec<NewFile>, Fail> {
    let mut files = Vec::new(alloc);
    if field.is_empty() {
        return Ok(files);
    }
    for file in field.split(" & ") {
        let (path, lines) = file.split_once(": ").ok_or("a path is missing")?;
        let path = String::from_str(alloc, path)?;
        let bytes = Vec::from_slice(alloc, lines_of(alloc, lines)?.as_bytes())?;
        files.push(NewFile { path, bytes })?;
    }
    Ok(files)
}

/// The field of these files.
fn field_of_files(alloc: Global, files: &MapSource) -> Result<String, Fail> {
    let mut field = String::new(alloc);
    for (path, bytes) in &files.files {
        if !field.is_empty() {
            field.push_str(" & ")?;
        }
        let lines = field_of(alloc, std::str::from_utf8(bytes.as_slice())?)?;
        field.push_str(format!(in alloc; "{path}: {lines}")?.as_str())?;
    }
    Ok(field)
}

/// A text of one line at most, without its end.
fn line_of(text: &[u8]) -> Result<&str, Fail> {
    let text = std::str::from_utf8(text)?;
    Ok(text.strip_suffix('\n').unwrap_or(text))
}

/// What a delivery writes to standard output and to standard error, a line at most, and its status.
fn delivered<F: Files>(
    alloc: Global,
    outcome: Result<Answer, RunFault>,
    files: &mut F,
) -> Result<String, Fail> {
    let mut out = Counting::new(Vec::new(alloc));
    let mut err = Vec::new(alloc);
    let status = deliver(alloc, outcome, false, files, &mut out, &mut err).code();
    let out = line_of(out.device.as_slice())?;
    let err = line_of(err.as_slice())?;
    Ok(format!(in alloc; "{out}|{err}|{status}")?)
}

/// An answer with the new files of a field.
fn answer_with(alloc: Global, new: &str) -> Result<Answer, Fail> {
    Ok(Answer {
        text: String::from_str(alloc, "done\n")?,
        status: Status::Done,
        files: NewFiles::AllNew(new_files_of(alloc, new)?),
    })
}

/// The files that are there, those of an answer, how many of these can be made, what is written to
/// standard output and to standard error, the status, and the files that are there then.
const NEW_FILES: &str = "\
||9|done||0|
|d/b: y & d/a: x; z|9|done||0|d/a: x; z & d/b: y
t: 1|d/a: x|1|done||0|d/a: x & t: 1
d/b: 1|d/a: x & d/b: y & d/c: z|9||error: d/b is there already|2|d/b: 1
d/a: 1 & d/b: 2|d/b: y & d/a: x|9||error: d/b is there already|2|d/a: 1 & d/b: 2
|d/a: x & d/b: y & d/a: z|9||error: d/a is there already|2|
t: 1|d/a: x & d/b: y|0||U7 CannotWrite d/a|2|t: 1
|d/b: x & d/a: y & c: z|1||U7 CannotWrite d/a; written before it: d/b|2|d/b: x
|d/b: x & d/a: y & c: z|2||U7 CannotWrite c; written before it: d/b, d/a|2|d/a: y & d/b: x
";

/// What comes of the delivery of an answer's files.
fn after_delivery(alloc: Global, there: &str, new: &str, room: &str) -> Result<String, Fail> {
    let mut files = Sealed {
        files: files_of(alloc, there)?,
        room: room.parse()?,
        refusal: Failure::Fault(Failed),
    };
    let fields = delivered(alloc, Ok(answer_with(alloc, new)?), &mut files)?;
    let after = field_of_files(alloc, &files.files)?;
    Ok(format!(in alloc; "{fields}|{after}")?)
}

#[test]
fn new_files_are_made(rt: HostRuntime) -> Result<(), Fail> {
    for_rows_of_4(rt.alloc(), NEW_FILES, after_delivery)
}

#[test]
fn memory_runs_out_at_a_new_file(rt: HostRuntime) -> Result<(), Fail> {
    let alloc = rt.alloc();
    let mut files = Sealed {
        files: no_files(alloc),
        room: 1,
        refusal: Failure::Memory,
    };
    let fields = delivered(alloc, Ok(answer_with(alloc, "a: x & b: y")?), &mut files)?;
    agree("the answer", fields.as_str(), "|Memory|3")?;
    agree(
        "the files",
        field_of_files(alloc, &files.files)?.as_str(),
        "a: x",
    )
}

#[test]
fn new_files_stay_where_the_output_fails(rt: HostRuntime) -> Result<(), Fail> {
    let alloc = rt.alloc();
    let mut files = no_files(alloc);
    let answer = answer_with(alloc, "a: x")?;
    let mut err = Vec::new(alloc);
    let status = deliver(
        alloc,
        Ok(answer),
        false,
        &mut files,
        &mut Counting::new(Closed),
        &mut err,
    );
    assert!(rt; err.as_slice() == b"U4 OutputFailed\n".as_slice() && status == Status::Faulty);
    agree("the files", field_of_files(alloc, &files)?.as_str(), "a: x")
}

#[test]
fn an_include_leads_out(rt: HostRuntime) -> Result<(), Fail> {
    let alloc = rt.alloc();
    let fault = RunFault::LeadsOut(LeadsOut {
        name: String::from_str(alloc, "../u.ctb")?,
        place: Location {
            file: String::from_str(alloc, "d/t.ctb")?,
            line: 3,
        },
    });
    let fields = delivered(alloc, Err(fault), &mut no_files(alloc))?;
    let want = "|error: include ../u.ctb at d/t.ctb:3 leads out of the table's folder|2";
    agree("the fault", fields.as_str(), want)
}

//! Worked streams. What is read and written are fields of bytes.
use brl_examples::translate_bytes;
use brl_failure::Failure;
use brl_rules::Table;
use brl_testing::{
    Full, Slow, agree, bytes_of, field_of_bytes, for_rows_of_2, for_rows_of_3, for_rows_of_4,
    with_table,
};
use brl_tool::{
    Counting, Form, Input, Lacking, LineFault, Output, StreamFault, translate_defined_lines,
    translate_lines,
};
use std::alloc::Global;
use std::io;
use std::test::Fail;

/// The lines of the table that translates every stream.
const LINES: &str = "space \\s 0; letter a 1; letter b 12; letter c 14; letter q 17";

/// Gives lines of one character without end.
#[derive(Drop)]
struct ShortLines {
    feed: bool,
}

impl io::Read for ShortLines {
    fn read(&mut self, buf: &mut [u8]) -> io::Result<usize> {
        for byte in buf.iter_mut() {
            *byte = if self.feed { b'\n' } else { b'a' };
            self.feed = !self.feed;
        }
        Ok(buf.len())
    }
}

/// Counts its writes and their bytes.
#[derive(Drop)]
struct Count {
    writes: u64,
    bytes: u64,
}

impl io::Write for Count {
    fn write(&mut self, buf: &[u8]) -> io::Result<usize> {
        self.writes = self.writes.saturating_add(1);
        self.bytes = self.bytes.saturating_add(buf.len() as u64);
        Ok(buf.len())
    }

    fn flush(&mut self) -> io::Result<()> {
        Ok(())
    }
}

/// What a stream lists that is only translated: nothing.
fn none_lacking(
    alloc: Global,
    outcome: Result<(), Failure<StreamFault>>,
) -> Result<Vec<Lacking>, Failure<StreamFault>> {
    outcome?;
    Ok(Vec::new(alloc))
}

/// Translates a stream. With the option `lacking` it lists the characters that the table lacks.
fn run_stream<R: Input, W: Output>(
    alloc: Global,
    option: &str,
    table: &Table,
    reader: &mut R,
    writer: &mut W,
) -> Result<Vec<Lacking>, Failure<StreamFault>> {
    if option == "lacking" {
        return translate_defined_lines(alloc, table, Form::Ascii, reader, writer);
    }
    none_lacking(
        alloc,
        translate_lines(alloc, table, Form::Ascii, reader, writer),
    )
}

/// What a stream answers: the text of its fault, or the characters that it lists, each with its
/// count and its first line.
fn answer_of(
    alloc: Global,
    outcome: Result<Vec<Lacking>, Failure<StreamFault>>,
) -> Result<String, Fail> {
    let mut text = String::new(alloc);
    match outcome {
        Ok(list) => {
            for Lacking {
                character,
                count,
                line,
            } in &list {
                write!(text, "{character} {count} {line},")?;
            }
        }
        Err(fault) => write!(text, "{fault}")?,
    }
    Ok(text)
}

/// What a stream answers, and what it has written, as two fields.
fn answer_and_output(
    alloc: Global,
    outcome: Result<Vec<Lacking>, Failure<StreamFault>>,
    written: &[u8],
) -> Result<String, Fail> {
    let answer = answer_of(alloc, outcome)?;
    let output = field_of_bytes(alloc, written)?;
    Ok(format!(in alloc; "{answer}|{output}")?)
}

/// The answer and the output of an input in memory.
fn translated_by(alloc: Global, table: &Table, input: &[u8]) -> Result<String, Fail> {
    let mut writer = Counting::new(Vec::new(alloc));
    let outcome = none_lacking(alloc, translate_bytes(alloc, table, input, &mut writer));
    answer_and_output(alloc, outcome, writer.device.as_slice())
}

fn translated_bytes(alloc: Global, input: &[u8]) -> Result<String, Fail> {
    with_table(alloc, LINES, |table| translated_by(alloc, table, input))
}

/// The input, what is answered, and what is written.
const TRANSLATED: &str = "\
abc a;||ABC A;
abc a\r;||ABC A;
abc a||ABC A;
||
;\r;||;;
a;;b c;c||A;;B C;C;
";

/// The answer and the output of an input that is a field.
fn translated(alloc: Global, input: &str) -> Result<String, Fail> {
    translated_bytes(alloc, bytes_of(alloc, input)?.as_slice())
}

#[test]
fn lines_are_translated(rt: HostRuntime) -> Result<(), Fail> {
    for_rows_of_2(rt.alloc(), TRANSLATED, translated)
}

/// Inputs with a fault.
const FAULTY: &str = "\
az|F1 UnknownChar 1 at line 1|
a;b z;c|F1 UnknownChar 2 at line 2|A;
q|U1 NoAscii at line 1|
a;b;c q;z;|U1 NoAscii at line 3|A;B;
qz|F1 UnknownChar 1 at line 1|
!|U2 InputNotUtf8 at line 1|
z!|U2 InputNotUtf8 at line 1|
a\r|F1 UnknownChar 1 at line 1|
\u{feff}a|F1 UnknownChar 0 at line 1|
";

#[test]
fn the_first_fault_ends_a_stream(rt: HostRuntime) -> Result<(), Fail> {
    for_rows_of_2(rt.alloc(), FAULTY, translated)
}

/// This many times a byte, and then these bytes.
fn repeated(alloc: Global, byte: u8, count: usize, end: &[u8]) -> Result<Vec<u8>, Fail> {
    let mut bytes = vec![in alloc; byte; count]?;
    bytes.extend_from_slice(end)?;
    Ok(bytes)
}

/// Whether a line of this many letters is translated.
fn is_long_line_translated(alloc: Global, length: usize) -> Result<bool, Fail> {
    let input = repeated(alloc, b'a', length, b"\r\n")?;
    let output = repeated(alloc, b'A', length, b"\n")?;
    let want = answer_and_output(alloc, Ok(Vec::new(alloc)), output.as_slice())?;
    Ok(translated_bytes(alloc, input.as_slice())?.as_str() == want.as_str())
}

#[test]
fn a_line_has_65536_bytes(rt: HostRuntime) -> Result<(), Fail> {
    assert!(rt; is_long_line_translated(rt.alloc(), 65_536)?);
    Ok(())
}

/// The end of the second line, how many letters it has before that, what is answered, and what is
/// written.
const TOO_LONG: &str = "\
|65537|U5 InputLineTooLong at line 2|B;
;|65537|U5 InputLineTooLong at line 2|B;
\r;|65537|U5 InputLineTooLong at line 2|B;
\r|65536|U5 InputLineTooLong at line 2|B;
";

fn long_line_answer(alloc: Global, end: &str, letters: &str) -> Result<String, Fail> {
    let end = bytes_of(alloc, end)?;
    let line = repeated(alloc, b'a', letters.parse()?, end.as_slice())?;
    let mut input = Vec::from_slice(alloc, b"b\n")?;
    input.extend_from_slice(line.as_slice())?;
    translated_bytes(alloc, input.as_slice())
}

#[test]
fn a_line_has_no_more_bytes(rt: HostRuntime) -> Result<(), Fail> {
    for_rows_of_3(rt.alloc(), TOO_LONG, long_line_answer)
}

/// The option, the bytes that the reader gives before it fails, what is answered, and what is
/// written.
const INTERRUPTED: &str = "\
|abc a\r;|U3 InputFailed at line 2|ABC A;
|abc a;a|U3 InputFailed at line 2|ABC A;
|abc a\r|U3 InputFailed at line 1|
||U3 InputFailed at line 1|
lacking|az;b;z|U3 InputFailed at line 3|B;
";

fn read_slowly(alloc: Global, option: &str, table: &Table, bytes: &[u8]) -> Result<String, Fail> {
    let mut reader = Counting::new(Slow { bytes });
    let mut writer = Counting::new(Vec::new(alloc));
    let outcome = run_stream(alloc, option, table, &mut reader, &mut writer);
    if reader.failures != 1 {
        return Err(Fail::from("the reader hasn't failed once"));
    }
    answer_and_output(alloc, outcome, writer.device.as_slice())
}

fn slow_reader_answer(alloc: Global, option: &str, bytes: &str) -> Result<String, Fail> {
    let bytes = bytes_of(alloc, bytes)?;
    with_table(alloc, LINES, |table| {
        read_slowly(alloc, option, table, bytes.as_slice())
    })
}

#[test]
fn a_reader_fails(rt: HostRuntime) -> Result<(), Fail> {
    for_rows_of_3(rt.alloc(), INTERRUPTED, slow_reader_answer)
}

/// The option, how many writes the writer takes, the input, what is answered, and what is written.
const CUT_OFF: &str = "\
|1|abc a;b;c;|U4 OutputFailed at line 2|ABC A;
lacking|1|z;abc a;b;c;|U4 OutputFailed at line 3|ABC A;
";

fn written_until_full(
    alloc: Global,
    option: &str,
    table: &Table,
    writes: u32,
    input: &[u8],
) -> Result<String, Fail> {
    let mut reader = input;
    let mut writer = Counting::new(Full {
        left: writes,
        taken: Vec::new(alloc),
    });
    let outcome = run_stream(alloc, option, table, &mut reader, &mut writer);
    if writer.failures != 1 {
        return Err(Fail::from("the writer hasn't failed once"));
    }
    answer_and_output(alloc, outcome, writer.device.taken.as_slice())
}

fn full_writer_answer(
    alloc: Global,
    option: &str,
    writes: &str,
    input: &str,
) -> Result<String, Fail> {
    let writes = writes.parse()?;
    let input = bytes_of(alloc, input)?;
    with_table(alloc, LINES, |table| {
        written_until_full(alloc, option, table, writes, input.as_slice())
    })
}

#[test]
fn a_writer_fails(rt: HostRuntime) -> Result<(), Fail> {
    for_rows_of_4(rt.alloc(), CUT_OFF, full_writer_answer)
}

/// What is answered to an input without end, and how many writes and bytes were written.
fn short_lines_answer(alloc: Global, table: &Table) -> Result<String, Fail> {
    let mut reader = Counting::new(ShortLines { feed: false });
    let mut writer = Counting::new(Count {
        writes: 0,
        bytes: 0,
    });
    let outcome = run_stream(alloc, "", table, &mut reader, &mut writer);
    let answer = answer_of(alloc, outcome)?;
    let Count { writes, bytes } = writer.device;
    Ok(format!(in alloc; "{answer}|{writes}|{bytes}")?)
}

#[test]
fn an_endless_input_ends(rt: HostRuntime) -> Result<(), Fail> {
    let alloc = rt.alloc();
    let given = with_table(alloc, LINES, |table| short_lines_answer(alloc, table))?;
    let want = "U6 InputTooLong at line 8388609|8388608|16777216";
    agree("short lines", given.as_str(), want)
}

/// What is answered to a line without end, and what is written.
fn endless_line_answer(alloc: Global, table: &Table) -> Result<String, Fail> {
    let mut reader = Counting::new(io::repeat(b'a'));
    let mut writer = Counting::new(Vec::new(alloc));
    let outcome = run_stream(alloc, "", table, &mut reader, &mut writer);
    answer_and_output(alloc, outcome, writer.device.as_slice())
}

#[test]
fn an_endless_line_ends(rt: HostRuntime) -> Result<(), Fail> {
    let alloc = rt.alloc();
    let given = with_table(alloc, LINES, |table| endless_line_answer(alloc, table))?;
    agree("one line", given.as_str(), "U5 InputLineTooLong at line 1|")
}

/// The input, the list, and what is written.
const LISTED: &str = "\
abc a;||ABC A;
az;b;zyaz;c|z 3 1,y 1 3,|B;C;
yz\r;z|y 1 1,z 2 1,|
||
b;;z;a|z 1 3,|B;;A;
zq;q|U1 NoAscii at line 2|
z;!|U2 InputNotUtf8 at line 2|
";

fn listed_by(alloc: Global, table: &Table, input: &[u8]) -> Result<String, Fail> {
    let mut reader = input;
    let mut writer = Counting::new(Vec::new(alloc));
    let outcome = run_stream(alloc, "lacking", table, &mut reader, &mut writer);
    answer_and_output(alloc, outcome, writer.device.as_slice())
}

fn listed(alloc: Global, input: &str) -> Result<String, Fail> {
    let input = bytes_of(alloc, input)?;
    with_table(
        alloc,
        LINES,
        |table| listed_by(alloc, table, input.as_slice()),
    )
}

#[test]
fn undefined_characters_are_listed(rt: HostRuntime) -> Result<(), Fail> {
    for_rows_of_2(rt.alloc(), LISTED, listed)
}

/// Whether a fault at line 3 is printed so.
fn is_printed(alloc: Global, fault: LineFault, printed: &str) -> Result<bool, Fail> {
    let fault = StreamFault { line: 3, fault };
    Ok(fault.to_string(alloc)?.as_str() == printed)
}

#[test]
fn faults_are_printed(rt: HostRuntime) -> Result<(), Fail> {
    let cases = [
        (LineFault::UnknownChar(1), "F1 UnknownChar 1 at line 3"),
        (LineFault::NoAscii, "U1 NoAscii at line 3"),
        (LineFault::InputNotUtf8, "U2 InputNotUtf8 at line 3"),
        (LineFault::InputFailed, "U3 InputFailed at line 3"),
        (LineFault::OutputFailed, "U4 OutputFailed at line 3"),
        (LineFault::InputLineTooLong, "U5 InputLineTooLong at line 3"),
        (LineFault::InputTooLong, "U6 InputTooLong at line 3"),
    ];
    for (fault, printed) in cases {
        assert!(rt; is_printed(rt.alloc(), fault, printed)?, "{printed}");
    }
    let memory: Failure<StreamFault> = Failure::Memory;
    assert!(rt; memory.to_string(rt.alloc())?.as_str() == "Memory");
    Ok(())
}

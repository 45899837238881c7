//! Worked examples of include lines: the files of a table and the lines that they give, and
//! refusals.
use super::outcome;
use brl_failure::Failure;
use brl_lines::{MapSource, Source, SourceFault};
use brl_testing::{
    add_file, add_files_of_bytes, agree, bytes_of, check_rows, cut, for_rows_of_3, for_rows_of_4,
    no_files, words_of,
};
use std::alloc::Global;
use std::fmt::Write;
use std::test::Fail;

/// Files of bytes, the root, and what comes of it.
const INCLUDES: &str = "\
d/t.ctb: include u.ctb & d/u.ctb: include v/w.ctb & d/v/w.ctb: include x.ctb & d/x.ctb: letter a 1|d/t.ctb|d/x.ctb:1 letter@0 a@7 1@9;
d/t.ctb: include /v.ctb & /v.ctb: letter a 1|d/t.ctb|/v.ctb:1 letter@0 a@7 1@9;
/d/e/t: include u & /d/e/u: letter a 1|/d/e/t|/d/e/u:1 letter@0 a@7 1@9;
t: letter a 1;include u comment;letter c 14; \tinclude\tu;letter d 145 & u: \u{feff}# u\r;letter b 12\r;|t|t:1 letter@0 a@7 1@9;u:2 letter@5 b@12 12@14;t:3 letter@29 c@36 14@38;u:2 letter@5 b@12 12@14;t:5 letter@53 d@60 145@62;
t.ctb: include;include ;Include u;includes u|t.ctb|t.ctb:1 include@0;t.ctb:2 include@8;t.ctb:3 Include@17 u@25;t.ctb:4 includes@27 u@36;
t.ctb: include u|t.ctb|L1 NotFound u at t.ctb:1
d/t.ctb: ;;include u & u: letter a 1|d/t.ctb|L1 NotFound d/u at d/t.ctb:3
|d/t.ctb|L1 NotFound d/t.ctb
t.ctb: include u.ctb & u.ctb: include t.ctb|t.ctb|L4 Cycle t.ctb at u.ctb:1
t.ctb: letter a 1;include t.ctb|t.ctb|L4 Cycle t.ctb at t.ctb:2
t: include u;include v & u: include v & v: |t|
t.ctb: #;include u & u: letter ! 1|t.ctb|L3 NotUtf8 u at t.ctb:2
t: include u & u: include v;include w & v: !|t|L3 NotUtf8 v at u:1
t: include u & u: include v;!|t|L3 NotUtf8 u at t:1
";

/// Adds a file with the bytes of a field.
fn add(alloc: Global, files: &mut MapSource, path: &str, field: &str) -> Result<(), Fail> {
    add_file(alloc, files, path, bytes_of(alloc, field)?)
}

/// What comes of the table at a root.
fn included(alloc: Global, field: &str, root: &str) -> Result<String, Fail> {
    let mut files = no_files(alloc);
    add_files_of_bytes(alloc, field, &mut files)?;
    outcome(alloc, &mut files, root)
}

#[test]
fn includes(rt: HostRuntime) -> Result<(), Fail> {
    for_rows_of_3(rt.alloc(), INCLUDES, included)
}

/// Files in memory. Each read is counted, and one of them may fail, the first being 1.
#[derive(Drop)]
struct Watched {
    files: MapSource,
    reads: usize,
    failing: usize,
    failures: u64,
}

impl Source for Watched {
    ghost use Rattle.std.specs.Prelude.{true};
    ghost use Rattle.brl_lines.specs.InMemory.{folders_of};

    ghost gives = { λ s. record { folders = folders_of s.files.folders; may = λ _ _. true } };

    ghost faults = { λ s. s.failures };

    fn read(&mut self, alloc: Global, path: &str) -> Result<Vec<u8>, Failure<SourceFault>> {
        self.reads = self.reads.saturating_add(1);
        if self.reads == self.failing {
            self.failures = self.failures.saturating_add(1);
            return Err(Failure::Fault(SourceFault::Failed));
        }
        match self.files.read(alloc, path) {
            Err(Failure::Fault(SourceFault::Failed)) => Err(Failure::Fault(SourceFault::NotFound)),
            outcome => outcome,
        }
    }

    fn folders(&self) -> &[String] {
        self.files.folders()
    }

    fn failures(&self) -> u64 {
        self.failures
    }
}

impl Watched {
    /// No files; the read of this number fails.
    fn new(alloc: Global, failing: usize) -> Watched {
        Watched {
            files: no_files(alloc),
            reads: 0,
            failing,
            failures: 0,
        }
    }
}

/// What comes of the table at a root, how many reads there were, and how many of them failed.
fn watched_outcome(alloc: Global, source: &mut Watched, root: &str) -> Result<String, Fail> {
    let text = outcome(alloc, source, root)?;
    Ok(format!(in alloc;
        "{text} after {} reads, {} failed",
        source.reads, source.failures
    )?)
}

/// How many lines `include e` there are, the text after them, and what comes of the table.
const MANY_LINES: &str = "\
1024|| after 2 reads, 0 failed
1024|letter a 1|t.ctb:1025 letter@10240 a@10247 1@10249; after 2 reads, 0 failed
1025||L8 TooManyIncludes e at t.ctb:1025 after 2 reads, 0 failed
1024|include t.ctb|L8 TooManyIncludes t.ctb at t.ctb:1025 after 2 reads, 0 failed
1023|include t.ctb|L4 Cycle t.ctb at t.ctb:1024 after 2 reads, 0 failed
1023|include u|L1 NotFound u at t.ctb:1024 after 3 reads, 0 failed
";

/// This many lines `include e`, and a text after them.
fn include_lines(alloc: Global, count: usize, after: &str) -> Result<String, Fail> {
    let mut text = String::new(alloc);
    for _ in 0..count {
        text.push_str("include e;")?;
    }
    text.push_str(after)?;
    Ok(text)
}

fn many_included(alloc: Global, count: &str, after: &str) -> Result<String, Fail> {
    let text = include_lines(alloc, count.parse()?, after)?;
    let mut source = Watched::new(alloc, 0);
    add(alloc, &mut source.files, "t.ctb", text.as_str())?;
    add(alloc, &mut source.files, "e", "")?;
    watched_outcome(alloc, &mut source, "t.ctb")
}

#[test]
fn many_include_lines(rt: HostRuntime) -> Result<(), Fail> {
    for_rows_of_3(rt.alloc(), MANY_LINES, many_included)
}

/// Files, the folders in which they are looked for, the root, and what comes of it after how many
/// reads.
const FOLDERS: &str = "\
t: include u & one/u: letter a 1 & two/u: letter b 1|one,two|t|one/u:1 letter@0 a@7 1@9; after 3 reads, 0 failed
t: include u & one/u: letter a 1 & two/u: letter b 1|two,one|t|two/u:1 letter@0 b@7 1@9; after 3 reads, 0 failed
t: include u & u: letter c 1 & one/u: letter a 1|one|t|u:1 letter@0 c@7 1@9; after 2 reads, 0 failed
t: include u & one/u: letter a 1|two/,one/|t|one/u:1 letter@0 a@7 1@9; after 4 reads, 0 failed
t: include u;include u & one/u: letter a 1|one|t|one/u:1 letter@0 a@7 1@9;one/u:1 letter@0 a@7 1@9; after 3 reads, 0 failed
d/t: include u & one/u: letter a 1|one|d/t|one/u:1 letter@0 a@7 1@9; after 3 reads, 0 failed
d/t: include p/u & one/p/u: include v & one/v: letter a 1|one|d/t|one/v:1 letter@0 a@7 1@9; after 5 reads, 0 failed
one/t: include u & one/u: letter a 1 & u: letter b 1|one|t|one/u:1 letter@0 a@7 1@9; after 3 reads, 0 failed
one/t: include u & two/u: letter a 1 & u: letter b 1|one,two|t|two/u:1 letter@0 a@7 1@9; after 4 reads, 0 failed
t: include u & two/v: letter a 1|one,two|t|L1 NotFound u at t:1 after 4 reads, 0 failed
u: letter a 1|one,two|t|L1 NotFound t after 3 reads, 0 failed
t: include /u & one//u: letter a 1|one|t|L1 NotFound /u at t:1 after 2 reads, 0 failed
t: include u & u: ! & one/u: letter a 1|one|t|L3 NotUtf8 u at t:1 after 2 reads, 0 failed
t: include u & one/u: ! & two/u: letter a 1|one,two|t|L3 NotUtf8 one/u at t:1 after 3 reads, 0 failed
t: include u & one/u: include t & one/t: letter a 1|one|t|L4 Cycle t at one/u:1 after 3 reads, 0 failed
t: include u & one/u: include u|one|t|L4 Cycle one/u at one/u:1 after 3 reads, 0 failed
t: include u & u: letter a 1|,one|t|u:1 letter@0 a@7 1@9; after 2 reads, 0 failed
";

/// What comes of a source's table, where its files are looked for in these folders, and how many
/// reads there were.
fn looked_for(
    alloc: Global,
    source: &mut Watched,
    folders: &str,
    root: &str,
) -> Result<String, Fail> {
    source.files.folders = Some(words_of(alloc, folders)?);
    watched_outcome(alloc, source, root)
}

fn found_in_folders(alloc: Global, files: &str, folders: &str, root: &str) -> Result<String, Fail> {
    let mut source = Watched::new(alloc, 0);
    add_files_of_bytes(alloc, files, &mut source.files)?;
    looked_for(alloc, &mut source, folders, root)
}

#[test]
fn files_in_folders(rt: HostRuntime) -> Result<(), Fail> {
    for_rows_of_4(rt.alloc(), FOLDERS, found_in_folders)
}

/// The read that fails, files, folders, and what comes of the table `t`.
const FAILING_IN_FOLDERS: &str = "\
1|one/t: letter a 1|one|L2 ReadFailed t after 1 reads, 1 failed
2|t: include u & one/u: letter a 1|one|L2 ReadFailed u at t:1 after 2 reads, 1 failed
3|t: include u & one/u: letter a 1 & two/u: letter a 1|one,two|L2 ReadFailed one/u at t:1 after 3 reads, 1 failed
";

fn fails_in_folders(alloc: Global, read: &str, files: &str, folders: &str) -> Result<String, Fail> {
    let mut source = Watched::new(alloc, read.parse()?);
    add_files_of_bytes(alloc, files, &mut source.files)?;
    looked_for(alloc, &mut source, folders, "t")
}

#[test]
fn reads_that_fail_in_folders(rt: HostRuntime) -> Result<(), Fail> {
    for_rows_of_4(rt.alloc(), FAILING_IN_FOLDERS, fails_in_folders)
}

/// The number of the last file, its line, and what comes of the table `c1`.
const DEEP_FILES: &str = "\
16|letter a 1|c16:1 letter@0 a@7 1@9; after 16 reads, 0 failed
17|letter a 1|L5 TooDeep c17 at c16:1 after 16 reads, 0 failed
16|include c17|L5 TooDeep c17 at c16:1 after 16 reads, 0 failed
16|include c1|L4 Cycle c1 at c16:1 after 16 reads, 0 failed
15|include c17|L1 NotFound c17 at c15:1 after 16 reads, 0 failed
";

/// Adds the files `c1`, `c2` and on. Each includes the next; the last has a line of its own.
fn add_chain(alloc: Global, files: &mut MapSource, last: usize, line: &str) -> Result<(), Fail> {
    for number in 1..last {
        let path = format!(in alloc; "c{number}")?;
        let text = format!(in alloc; "include c{}", number + 1)?;
        add(alloc, files, path.as_str(), text.as_str())?;
    }
    let path = format!(in alloc; "c{last}")?;
    add(alloc, files, path.as_str(), line)
}

fn deep_included(alloc: Global, last: &str, line: &str) -> Result<String, Fail> {
    let mut source = Watched::new(alloc, 0);
    add_chain(alloc, &mut source.files, last.parse()?, line)?;
    watched_outcome(alloc, &mut source, "c1")
}

#[test]
fn deep_files(rt: HostRuntime) -> Result<(), Fail> {
    for_rows_of_3(rt.alloc(), DEEP_FILES, deep_included)
}

/// The read that fails, and what comes of the table.
const FAILING: &str = "\
1|L2 ReadFailed t.ctb after 1 reads, 1 failed
2|L2 ReadFailed u.ctb at t.ctb:1 after 2 reads, 1 failed
3|L2 ReadFailed v.ctb at u.ctb:1 after 3 reads, 1 failed
";

/// Three files; the first includes the second, and that one the third.
const THREE_FILES: &str = "t.ctb: include u.ctb & u.ctb: include v.ctb & v.ctb: letter a 1";

/// Whether a read that fails gives this outcome, and the table is loaded when it is asked for
/// again.
fn fails_once(alloc: Global, source: &mut Watched, want: &str) -> Result<bool, Fail> {
    let first = watched_outcome(alloc, source, "t.ctb")?;
    let second = outcome(alloc, source, "t.ctb")?;
    Ok(
        first.as_str() == want
            && second.as_str() == "v.ctb:1 letter@0 a@7 1@9;"
            && source.failures == 1,
    )
}

fn read_fails_once(alloc: Global, read: usize, want: &str) -> Result<bool, Fail> {
    let mut source = Watched::new(alloc, read);
    add_files_of_bytes(alloc, THREE_FILES, &mut source.files)?;
    fails_once(alloc, &mut source, want)
}

/// Whether a row's failing read gives its outcome.
fn is_failing(alloc: Global, row: &str) -> Result<bool, Fail> {
    let (read, want) = cut(row)?;
    read_fails_once(alloc, read.parse()?, want)
}

#[test]
fn a_read_that_fails_once(rt: HostRuntime) -> Result<(), Fail> {
    check_rows(rt.alloc(), FAILING, is_failing)
}

/// How often a byte is in the file `u`, which the table includes, and what comes of the table.
fn included_bytes(alloc: Global, byte: u8, count: usize) -> Result<String, Fail> {
    let mut files = no_files(alloc);
    add(alloc, &mut files, "t", "include u")?;
    add_file(alloc, &mut files, "u", vec![in alloc; byte; count]?)?;
    outcome(alloc, &mut files, "t")
}

#[test]
fn long_files(rt: HostRuntime) -> Result<(), Fail> {
    let given = included_bytes(rt.alloc(), b'a', 2048)?;
    assert!(rt; given.as_str().starts_with("u:1 aaaa"));
    let given = included_bytes(rt.alloc(), b'a', 2049)?;
    agree("2049", given.as_str(), "L6 LineTooLong u at u:1")
}

#[test]
fn large_files(rt: HostRuntime) -> Result<(), Fail> {
    let given = included_bytes(rt.alloc(), b'\n', 16_777_216)?;
    agree("16777216", given.as_str(), "")?;
    let given = included_bytes(rt.alloc(), b'\n', 16_777_217)?;
    agree("16777217", given.as_str(), "L9 TooLarge u at t:1")
}

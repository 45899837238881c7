//! Sources: files that are refused, readers, and the files of a system.
use super::{file_of, refused};
use brl_failure::Failure;
use brl_lines::{FileSource, Source, SourceFault, read_whole};
use brl_testing::{Broken, Refusing, agree, for_rows_of_2, lend_mut, one_file};
use std::alloc::Global;
use std::io::{ErrorKind, Read};
use std::path::{Path, PathBuf};
use std::test::Fail;
use std::{env, fs, process};

/// A source that gives this many line feeds for each path.
#[derive(Drop)]
struct LineFeeds {
    count: usize,
}

impl Source for LineFeeds {
    ghost use Rattle.std.specs.Prelude.{[], true};

    ghost gives = { λ _. record { folders = []; may = λ _ _. true } };

    ghost faults = { λ _. 0 };

    fn read(&mut self, alloc: Global, _path: &str) -> Result<Vec<u8>, Failure<SourceFault>> {
        vec![in alloc; b'\n'; self.count].map_err(|_| Failure::Memory)
    }

    fn folders(&self) -> &[String] {
        &[]
    }

    fn failures(&self) -> u64 {
        0
    }
}

/// What comes of the table of a source, and how often the source has failed.
fn refused_and_failures<S: Source>(alloc: Global, source: &mut S) -> Result<String, Fail> {
    let text = refused(alloc, source)?;
    Ok(format!(in alloc; "{text}, {} failed;", source.failures())?)
}

fn refusal_of(alloc: Global, refusal: Failure<SourceFault>, failures: u64) -> Result<String, Fail> {
    refused_and_failures(alloc, &mut Refusing { refusal, failures })
}

/// What comes of each refusal of a source.
fn refusals_of(alloc: Global) -> Result<String, Fail> {
    let mut text = String::new(alloc);
    for refusal in [
        Failure::Fault(SourceFault::NotFound),
        Failure::Fault(SourceFault::Failed),
        Failure::Fault(SourceFault::TooLarge),
        Failure::Memory,
    ] {
        text.push_str(refusal_of(alloc, refusal, 0)?.as_str())?;
    }
    Ok(text)
}

#[test]
fn refusals(rt: HostRuntime) -> Result<(), Fail> {
    let given = refusals_of(rt.alloc())?;
    let want = "L1 NotFound t.ctb, 0 failed;L2 ReadFailed t.ctb, 1 failed;\
        L9 TooLarge t.ctb, 0 failed;Memory, 0 failed;";
    agree("refusals", given.as_str(), want)
}

#[test]
fn files_that_are_refused(rt: HostRuntime) -> Result<(), Fail> {
    let alloc = rt.alloc();
    let source = file_of(alloc, "letter a 1;letter ! 1;")?;
    let given = lend_mut(source, |source| refused(alloc, source))?;
    agree("letter !", given.as_str(), "L3 NotUtf8 t.ctb")
}

#[test]
fn files_that_are_not_there(rt: HostRuntime) -> Result<(), Fail> {
    let alloc = rt.alloc();
    let source = one_file(alloc, "u.ctb", b"")?;
    let given = lend_mut(source, |source| refused_and_failures(alloc, source))?;
    agree("u.ctb", given.as_str(), "L1 NotFound t.ctb, 0 failed;")
}

/// How many line feeds a file has, and what comes of the table.
const LARGE: &str = "\
16777217|L9 TooLarge t.ctb
16777216|loaded
";

/// What comes of a table of this many line feeds.
fn line_feeds(alloc: Global, count: &str) -> Result<String, Fail> {
    let count = count.parse()?;
    refused(alloc, &mut LineFeeds { count })
}

#[test]
fn files_that_are_too_large(rt: HostRuntime) -> Result<(), Fail> {
    for_rows_of_2(rt.alloc(), LARGE, line_feeds)
}

#[test]
fn a_failure_counts_to_the_greatest_number(rt: HostRuntime) -> Result<(), Fail> {
    let given = refusal_of(rt.alloc(), Failure::Fault(SourceFault::Failed), u64::MAX)?;
    let want = "L2 ReadFailed t.ctb, 18446744073709551615 failed;";
    agree("the greatest number", given.as_str(), want)
}

/// Whether a reader has these bytes.
fn has_bytes<R: Read>(alloc: Global, reader: &mut R, bytes: &[u8]) -> Result<bool, Fail> {
    let read = read_whole(alloc, reader, &mut [0u8; 4])?;
    Ok(read.as_slice() == bytes)
}

#[test]
fn readers(rt: HostRuntime) -> Result<(), Fail> {
    let mut reader: &[u8] = b"letter a 1\n";
    assert!(rt; has_bytes(rt.alloc(), &mut reader, b"letter a 1\n")?);
    Ok(())
}

/// The fault of a reader that gives this many bytes and then fails.
fn fault_of(alloc: Global, bytes: usize, kind: ErrorKind) -> Option<Failure<SourceFault>> {
    let mut reader = Broken { bytes, kind };
    read_whole(alloc, &mut reader, &mut [0u8; 4]).err()
}

#[test]
fn readers_that_fail(rt: HostRuntime) {
    let failed = Some(Failure::Fault(SourceFault::Failed));
    assert!(rt; fault_of(rt.alloc(), 100_000, ErrorKind::Interrupted) == failed);
    assert!(rt; fault_of(rt.alloc(), 100_000, ErrorKind::NotFound) == failed);
    assert!(rt; fault_of(rt.alloc(), 100_000, ErrorKind::Other) == failed);
    let too_large = Some(Failure::Fault(SourceFault::TooLarge));
    assert!(rt; fault_of(rt.alloc(), 16_777_217, ErrorKind::Other) == too_large);
}

/// Whether paths without a file are refused, and only the one that can't be read counts as a
/// failure.
fn are_refused<S: Source>(alloc: Global, source: &mut S) -> bool {
    source.read(alloc, "no_such_file.ctb").err() == Some(Failure::Fault(SourceFault::NotFound))
        && source.failures() == 0
        && source.read(alloc, ".").err() == Some(Failure::Fault(SourceFault::Failed))
        && source.failures() == 1
}

/// Whether a source that has failed once gives these bytes, and has failed no more.
fn gives_bytes<S: Source>(
    alloc: Global,
    source: &mut S,
    path: &str,
    bytes: &[u8],
) -> Result<bool, Failure<SourceFault>> {
    let read = source.read(alloc, path)?;
    Ok(read.as_slice() == bytes && source.failures() == 1)
}

/// A path of this process alone.
fn own_path(rt: &HostRuntime) -> Result<PathBuf, Fail> {
    let name = format!(in rt.alloc(); "brl_lines_{}.ctb", process::id(rt.process()))?;
    Ok(env::temp_dir(rt)?.join(rt.alloc(), name.as_str())?)
}

/// Whether a file that is written to this path is read, after two paths without a file.
fn is_file_read(rt: &HostRuntime, path: Path) -> Result<bool, Fail> {
    let mut source = FileSource::new(rt);
    if !are_refused(rt.alloc(), &mut source) {
        return Ok(false);
    }
    fs::write(rt, path, b"letter a 1\n")?;
    let given = gives_bytes(rt.alloc(), &mut source, path.as_str(), b"letter a 1\n");
    fs::remove_file(rt, path)?;
    Ok(given?)
}

#[test]
fn files_of_a_system(rt: HostRuntime) -> Result<(), Fail> {
    assert!(rt; is_file_read(&rt, own_path(&rt)?.as_path())?);
    Ok(())
}

//! Worked runs of `brl check` that rows can't spell.
use crate::tests::program::cases::CHECK;
use crate::tests::program::runs::{is_answered, repeated};
use brl_testing::{add_file, files_of};
use std::alloc::Global;
use std::fmt::Write;
use std::test::Fail;

/// Whether the check of a certificate of this many bytes is answered so.
fn is_sized(alloc: Global, count: usize, fields: &str) -> Result<bool, Fail> {
    let mut source = files_of(alloc, "t.ctb: #")?;
    add_file(alloc, &mut source, "c", repeated(alloc, b'x', count)?)?;
    is_answered(alloc, CHECK, &mut source, b"", fields)
}

#[test]
fn a_certificate_has_16777216_bytes(rt: HostRuntime) -> Result<(), Fail> {
    assert!(rt; is_sized(rt.alloc(), 16_777_217, "|L9 TooLarge c|2")?);
    Ok(())
}

/// A certificate, and a table of `count` letters.
fn letters(alloc: Global, count: u32) -> Result<String, Fail> {
    let mut files = String::from_str(alloc, "c: BRLCERT 1; state 1 0 0 -; end 1 0 & t.ctb: #")?;
    for code in 0..count {
        write!(files, "; letter \\x4e{code:02x} 1")?;
    }
    Ok(files)
}

/// Whether the check of that certificate for 100 letters is answered so.
fn is_wide(alloc: Global, fields: &str) -> Result<bool, Fail> {
    let files = letters(alloc, 100)?;
    is_answered(
        alloc,
        CHECK,
        &mut files_of(alloc, files.as_str())?,
        b"",
        fields,
    )
}

#[test]
fn a_table_of_100_letters_is_too_wide(rt: HostRuntime) -> Result<(), Fail> {
    assert!(rt; is_wide(rt.alloc(), "|W1 TooWide|3")?);
    Ok(())
}

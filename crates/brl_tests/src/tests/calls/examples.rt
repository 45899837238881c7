//! The examples at the heads of six crates, each the body of a function here. `tests/promises.py`
//! compares both.
use brl_accept::judge;
use brl_cert::{read_cert, write_cert};
use brl_forward::{confirm, trace, translate};
use brl_lines::MapSource;
use brl_search::{Found, search};
use brl_stream::{Counting, Form, translate_lines};
use brl_table::{Table, load_table};
use brl_testing::{lend_mut, one_file, with_table};
use std::alloc::Global;
use std::test::Fail;

fn example_of_table(alloc: Global, files: &mut MapSource) -> Result<bool, Fail> {
    let table = load_table(alloc, files, "t.ctb")?;
    let is_letter = table.info('b').is_some();
    Ok(is_letter && table.char_count() == 2 && table.rules_in_rank().is_empty())
}

fn example_of_forward(alloc: Global, table: &Table) -> Result<bool, Fail> {
    let cells = translate(alloc, table, &['a', 'b'])?;
    let steps = trace(alloc, table, &['a', 'b'])?;
    let clash = confirm(alloc, table, &['a', 'b'], &['b', 'a'])?;
    Ok(cells.len() == 2 && steps.len() == 2 && clash.is_none())
}

fn example_of_cert(alloc: Global) -> Result<bool, Fail> {
    let bytes = b"BRLCERT 3\nstate 1 0 0\nend 1 0\n";
    let cert = read_cert(alloc, bytes)?;
    let written = write_cert(alloc, &cert)?;
    Ok(written.as_slice() == bytes.as_slice())
}

fn example_of_accept(alloc: Global, files: &mut MapSource) -> Result<bool, Fail> {
    let cert = b"BRLCERT 3\nstate 1 0 0\nstate 8 0 0\nend 2 0\n";
    let accepted = judge(alloc, files, "t.ctb", cert)?;
    Ok(accepted.states == 2 && accepted.pairs == 0)
}

fn example_of_search(alloc: Global, table: &Table) -> Result<bool, Fail> {
    match search(alloc, table, 1_000_000)? {
        Found::Certified(cert) => Ok(write_cert(alloc, &cert)?.starts_with(b"BRLCERT 3\n")),
        Found::Clashing(clash) => Ok(clash.left() == clash.right()),
        Found::Limit { .. } => Ok(false),
    }
}

fn example_of_stream(alloc: Global, table: &Table) -> Result<bool, Fail> {
    let mut reader = b"ab\n".as_slice();
    let mut writer = Counting::new(Vec::new(alloc));
    translate_lines(alloc, table, Form::Ascii, &mut reader, &mut writer)?;
    Ok(writer.device.as_slice() == b"AB\n".as_slice())
}

fn are_examples_of_files(alloc: Global, files: &mut MapSource) -> Result<bool, Fail> {
    Ok(example_of_table(alloc, files)? && example_of_accept(alloc, files)?)
}

fn are_examples_of_a_table(alloc: Global, table: &Table) -> Result<bool, Fail> {
    Ok(
        example_of_forward(alloc, table)?
            && example_of_search(alloc, table)?
            && example_of_stream(alloc, table)?,
    )
}

#[test]
fn examples_of_crates(rt: HostRuntime) -> Result<(), Fail> {
    let alloc = rt.alloc();
    let files = one_file(alloc, "t.ctb", b"letter a 1\nletter b 12\n")?;
    assert!(rt; lend_mut(files, |files| are_examples_of_files(alloc, files))?);
    let lines = "letter a 1; letter b 12";
    assert!(rt; with_table(alloc, lines, |table| are_examples_of_a_table(alloc, table))?);
    assert!(rt; example_of_cert(alloc)?);
    Ok(())
}

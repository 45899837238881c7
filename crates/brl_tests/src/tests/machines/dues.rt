//! Worked steps of the machine with dues.
use brl_cells::write_dots;
use brl_cert::{Cert, write_cert};
use brl_dues::Dues;
use brl_pairs::{Body, Machine, Members, Seed, Step};
use brl_rules::Table;
use brl_states::DuesState;
use brl_testing::table_of;
use std::alloc::{AllocError, Global};
use std::fmt::Write;
use std::test::Fail;

/// A rule for a whole word, and one for its first letter alone.
pub const WORDS: &str =
    "space \\s 0; letter b 12; letter u 136; letter t 2345; word but 12; word b 56-12";

/// The steps of its start: the rule, the characters, the cells and the next state, as certificates
/// write it.
pub const STEPS_OF_WORDS: &str = "\
0|but|12|8 0 0 n+3
1|b|56-12|8 0 0 n+3 b75.74+3
2| |0|1 0 0
3|b|12|8 0 0 n-3 b75.74+3
4|u|136|8 0 0
5|t|2345|8 0 0
";

/// Capitals: a rule has a step for each case of its first letter.
const CAPITALS: &str = "uplow Aa 1; uplow Bb 12; capsletter 6; always ab 14";

/// The steps of its start.
const STEPS_OF_CAPITALS: &str = "\
0|Ab|6-14|24 0 0
0|ab|14|24 0 0
1|A|6-1|40 0 0 b62*
2|a|1|24 0 0 b62*
3|B|6-12|40 0 0
4|b|12|24 0 0
";

/// Word capitals: a capital is the first of a run, or is alone.
const WORD_CAPITALS: &str =
    "uplow Aa 1; uplow Bb 12; capsletter 6; begcapsword 6-6; endcapsword 6-3; always ab 14";

/// The steps of its start.
const STEPS_OF_WORD_CAPITALS: &str = "\
0|AB|6-6-14|40 0 1
0|Ab|6-14|24 0 0
0|ab|14|24 0 0
1|A|6-6-1|40 0 0 n+32 b42*
1|A|6-1|40 0 0 n-32 b62*
2|a|1|24 0 0 b62*
3|B|6-6-12|40 0 0 n+32
3|B|6-12|40 0 0 n-32
4|b|12|24 0 0
";

/// A rule of two capitals: one of them that is alone isn't the first of two, so its step owes
/// the rule no bar.
const TWO_CAPITALS: &str = "uppercase A 2; always AA 3; begcapsword 12";

/// The steps of its start.
const STEPS_OF_TWO_CAPITALS: &str = "\
0|AA|12-3|40 0 1
1|A|12-2|40 0 0 n+32 b41*
1|A|2|40 0 0 n-32
";

/// A certificate that lists this state alone.
fn cert_of(alloc: Global, state: DuesState) -> Result<Cert, Fail> {
    let seed = Seed::of(b"members");
    let mut states = Members::new(alloc, seed);
    states.insert(state)?;
    match Body::from_parts(states, Members::new(alloc, seed)) {
        Some(body) => Ok(Cert::Word(body)),
        None => Err(Fail::from("one state makes no body")),
    }
}

/// The bytes of a certificate that lists a copy of this state alone.
fn cert_bytes(alloc: Global, state: &DuesState) -> Result<Vec<u8>, Fail> {
    let cert = cert_of(alloc, state.copy(alloc)?)?;
    Ok(write_cert(alloc, &cert)?)
}

/// A state as a certificate's line of it.
fn spelled_state(alloc: Global, state: &DuesState) -> Result<String, Fail> {
    line_of_state(alloc, cert_bytes(alloc, state)?.as_slice())
}

/// What follows the word of the first state line.
fn line_of_state(alloc: Global, bytes: &[u8]) -> Result<String, Fail> {
    let text = std::str::from_utf8(bytes)?;
    let line = text.lines().nth(1).ok_or("no state line")?;
    let fields = line.strip_prefix("state ").ok_or("no state")?;
    Ok(String::from_str(alloc, fields)?)
}

/// A line for a step.
fn push_step(alloc: Global, text: &mut String, step: &Step<DuesState>) -> Result<(), Fail> {
    write!(text, "{}|", step.rule)?;
    for character in step.reads.as_slice() {
        text.push(*character)?;
    }
    let dots = write_dots(alloc, step.cells.as_slice())?;
    write!(text, "|{dots}|")?;
    text.push_str(spelled_state(alloc, &step.next)?.as_str())?;
    text.push('\n')?;
    Ok(())
}

fn spelled_steps(alloc: Global, steps: &[Step<DuesState>]) -> Result<String, Fail> {
    let mut text = String::new(alloc);
    for step in steps {
        push_step(alloc, &mut text, step)?;
    }
    Ok(text)
}

/// The steps of a table's start.
fn steps_of_start(alloc: Global, table: &Table) -> Result<Vec<Step<DuesState>>, AllocError> {
    let dues = Dues::new(alloc, table);
    dues.moves(alloc, &dues.start())
}

/// Whether these are the steps of a table's start.
pub fn are_steps(alloc: Global, table: &Table, want: &str) -> Result<bool, Fail> {
    let steps = steps_of_start(alloc, table)?;
    Ok(spelled_steps(alloc, steps.as_slice())?.as_str() == want)
}

fn has_steps(alloc: Global, lines: &str, want: &str) -> Result<bool, Fail> {
    let table = table_of(alloc, lines)?;
    are_steps(alloc, &table, want)
}

#[test]
fn steps_of_starts(rt: HostRuntime) -> Result<(), Fail> {
    let alloc = rt.alloc();
    assert!(rt; has_steps(alloc, WORDS, STEPS_OF_WORDS)?);
    assert!(rt; has_steps(alloc, CAPITALS, STEPS_OF_CAPITALS)?);
    assert!(rt; has_steps(alloc, WORD_CAPITALS, STEPS_OF_WORD_CAPITALS)?);
    assert!(rt; has_steps(alloc, TWO_CAPITALS, STEPS_OF_TWO_CAPITALS)?);
    assert!(rt; has_steps(alloc, "", "")?);
    Ok(())
}

/// Whether a copy of a state is equal to it.
fn is_copied(alloc: Global, state: &DuesState) -> Result<bool, AllocError> {
    let copy = state.copy(alloc)?;
    Ok(copy == *state)
}

/// Whether the start and the states after its steps are copied as equal states.
pub fn are_copied(alloc: Global, table: &Table) -> Result<bool, AllocError> {
    let start = Dues::new(alloc, table).start();
    Ok(is_copied(alloc, &start)? && are_steps_copied(alloc, table)?)
}

fn are_steps_copied(alloc: Global, table: &Table) -> Result<bool, AllocError> {
    for step in &steps_of_start(alloc, table)? {
        if !is_copied(alloc, &step.next)? {
            return Ok(false);
        }
    }
    Ok(true)
}

#[test]
fn copies_are_equal(rt: HostRuntime) -> Result<(), Fail> {
    let table = table_of(rt.alloc(), WORDS)?;
    assert!(rt; are_copied(rt.alloc(), &table)?);
    Ok(())
}

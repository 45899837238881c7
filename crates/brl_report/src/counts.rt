//! How many faulty lines there are of each opcode.
ghost use Rattle.std.specs.Prelude.{◌≡◌, ℕ, List, IfOk, count_by, map, bytes_eq};
ghost use Rattle.brl_table.specs.Survey.{faulty_line_view};
ghost use Rattle.brl_report.specs.Survey.{AreCounts, count_cmp, opcodes_of};
ghost use Rattle.brl_report.specs.Tally.{IsTally};

use brl_table::FaultyLine;
use std::alloc::{AllocError, Global};
use std::cmp::Ordering;
use std::collections::BTreeMap;
use std::marker::Model;

/// An opcode, and a number of lines.
#[derive(Drop)]
pub struct OpcodeCount {
    pub opcode: String,
    pub lines: usize,
}

impl Model for OpcodeCount {
    ghost use Rattle.std.specs.Prelude.{string_bytes};
    ghost use Rattle.brl_report.specs.Survey.{CountView};

    ghost Value = { CountView };

    ghost view = { λ c. record { opcode = string_bytes c.opcode; lines = c.lines } };
}

/// Opcodes, and how often each of them came.
#[derive(Drop)]
struct Tally<'a> {
    /// Each opcode once, in the order in which they first came.
    opcodes: Vec<&'a str>,
    numbers: BTreeMap<&'a str, usize>,
}

impl Tally<'_> {
    /// How often an opcode came.
    fn number(&self, opcode: &str) -> usize
        ensures { (opcodes : List (List ℕ)) → IsTally opcodes self.now.opcodes self.now.numbers → result ≡ count_by (bytes_eq opcode.now) opcodes }
    {
        self.numbers.get(opcode).copied().unwrap_or(0)
    }
}

/// How many of the lines there are of each opcode: those of more lines first, and those of as many
/// by name.
pub fn counts_of(alloc: Global, found: &[FaultyLine]) -> Result<Vec<OpcodeCount>, AllocError>
    ensures { IfOk result (λ counts. AreCounts (opcodes_of (map faulty_line_view found.now)) counts.items) }
{
    let tally = tally_of(alloc, found)?;
    let mut counts = Vec::with_capacity(alloc, tally.opcodes.len())?;
    for opcode in &tally.opcodes {
        let lines = tally.number(opcode);
        let opcode = String::from_str(alloc, opcode)?;
        counts.push(OpcodeCount { opcode, lines })?;
    }
    counts.sort_unstable_by(|a, b| compare_counts(a, b));
    Ok(counts)
}

/// The tally of the lines' opcodes.
fn tally_of<'a>(alloc: Global, found: &'a [FaultyLine]) -> Result<Tally<'a>, AllocError>
    ensures { IfOk result (λ tally. IsTally (opcodes_of (map faulty_line_view found.entry.now)) tally.opcodes tally.numbers) }
{
    let mut opcodes: Vec<&'a str> = Vec::new(alloc);
    let mut numbers: BTreeMap<&'a str, usize> = BTreeMap::new(alloc);
    for faulty in found {
        let opcode = faulty.opcode.as_str();
        let number = numbers.get(opcode).copied().unwrap_or(0);
        if number == 0 {
            opcodes.push(opcode)?;
        }
        numbers.insert(opcode, number + 1)?;
    }
    Ok(Tally { opcodes, numbers })
}

/// The order of counts: those of more lines first, and those of as many lines by their opcodes.
fn compare_counts(a: &OpcodeCount, b: &OpcodeCount) -> Ordering
    ensures { result ≡ count_cmp a.now b.now }
{
    b.lines
        .cmp(&a.lines)
        .then(a.opcode.as_str().cmp(b.opcode.as_str()))
}

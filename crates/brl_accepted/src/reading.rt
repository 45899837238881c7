//! What a file of pairs of rules excuses.
ghost use Rattle.std.specs.Prelude.{◌≡◌, ◌<◌, ◌^◌, ◌++◌, ◌∷◌, [], IfOk, OnOk, length, map, string_bytes};
ghost use Rattle.std.specs.Option.{option_copied};
ghost use Rattle.std.specs.Str.Lines.{lines};
ghost use Rattle.brl_accepted.specs.FaultText.{fault_view};
ghost use Rattle.brl_accepted.specs.Reading.{
  excused_by,
  kept_by,
  names_in,
  names_of,
  pruned,
  rows as rows_of_file,
  sets_named,
  stale_by,
  stale_count,
  stale_lines,
};
ghost use Rattle.brl_accepted.specs.Sets.{pairs_of_sets as pairs_in_sets};
ghost use Rattle.brl_lines.specs.Views.{line_view};
ghost use Rattle.brl_accepted.specs.Words.{AreFound, IsIndexed, list_of, names_read};

use crate::fault::ExcuseFault;
use crate::index::index_of;
use crate::lines::{Named, Reader, named_by};
use crate::sets::{count_sets, pairs_of_sets};
use crate::stale::stale_line;
use crate::words::wording;
use brl_lines::{Line, without_mark};
use brl_pairs::{Excused, RulePairs};
use brl_report::rule_numbers;
use brl_rules::Table;
use std::alloc::{AllocError, Global};

/// What a file of pairs of rules may name: the rules of a table of these lines, and the sets of
/// characters that the table treats as one.
#[derive(Clone, Copy)]
pub struct Nameable<'a> {
    pub table: &'a Table,
    pub lines: &'a [Line<'a>],
    pub sets: &'a [Vec<char>],
}

impl<'a> Nameable<'a> {
    /// What a file may name of a table.
    pub fn new(table: &'a Table, lines: &'a [Line<'a>], sets: &'a [Vec<char>]) -> Nameable<'a>
        ensures { names_of result ≡ names_in table.now (map line_view lines.now) (map (λ set. set.items) sets.now) }
    {
        Nameable { table, lines, sets }
    }
}

/// What a file excuses.
#[derive(Drop)]
pub struct Excusal {
    /// The pairs of rules that its good lines name are accepted, and the steps of the own
    /// definitions of two characters of a set that they name may be exchanged.
    pub excused: Excused,
    /// How many sets of characters they name.
    pub sets: usize,
    /// Its other lines, in order. They excuse nothing.
    pub stale: Vec<ExcuseFault>,
    /// Its text without these. Every line ends with LF.
    pub kept: String,
}

/// What the file at a path with this text excuses: the pairs that its good lines name, and the
/// sets; its stale lines; and the text without them. A line is blank, a comment that begins with
/// `#`, `ONE / OTHER`, just as `write_accepted` writes it or with its rules in the other order, or
/// `exchange CHARS` with two characters or more of a set: it names the pairs of their own
/// definitions. Where several rules say the same, a line names each of them.
///
/// Any other line is stale, and names nothing: `NoSuchSet` where it begins as that of a set, and
/// doesn't name characters of one; `NoSuchRules` where another isn't what two rules of the table
/// say; `NotListed` where a list is given, and has none of the pairs that the line names.
/// `AllocError` if memory runs out.
pub fn read_excusal<'a>(
    alloc: Global,
    known: Nameable<'a>,
    list: Option<&'a RulePairs>,
    path: &str,
    text: &str,
) -> Result<Excusal, AllocError>
    ensures excused { IfOk result (λ excusal. excusal.excused ≡ excused_by (names_of known.entry) (option_copied list.entry) text.now) }
    ensures sets { IfOk result (λ excusal. excusal.sets ≡ sets_named (names_of known.entry) (option_copied list.entry) text.now) }
    ensures stale { IfOk result (λ excusal. map fault_view excusal.stale.items ≡ stale_lines (names_of known.entry) (option_copied list.entry) path.now text.now) }
    ensures stale_count { IfOk result (λ excusal. length excusal.stale.items ≡ stale_count (names_of known.entry) (option_copied list.entry) text.now) }
    ensures kept { IfOk result (λ excusal. string_bytes excusal.kept ≡ pruned (names_of known.entry) (option_copied list.entry) text.now) }
{
    let words = wording(alloc, known.table, known.lines)?;
    let rows = rows_of(alloc, text)?;
    let found = found_in(alloc, known, words.as_slice(), list, path, rows.as_slice())?;
    let excused = excused_by_found(alloc, known.table, &found)?;
    let NamedLines {
        sets,
        stale,
        kept,
        ..
    } = found;
    Ok(Excusal {
        excused,
        sets: count_sets(known.sets, sets.as_slice()),
        stale,
        kept,
    })
}

/// What the lines of the file at a path name, where each rule says these words.
fn found_in<'a>(
    alloc: Global,
    known: Nameable<'a>,
    words: &[String],
    list: Option<&'a RulePairs>,
    path: &str,
    rows: &[&str],
) -> Result<NamedLines, AllocError>
    requires { map string_bytes words.now ≡ (names_of known).words }
    ensures { IfOk result (AreFound (names_of known.entry) (option_copied list.entry) path.now (map (λ row. row.now) rows.now)) }
{
    let numbers = rule_numbers(alloc, known.table)?;
    let index = index_of(alloc, words, numbers.as_slice())?;
    let reader = Reader {
        known,
        words,
        index: &index,
        list,
    };
    read_rows(alloc, reader, path, rows)
}

/// What lines excuse of a table by what they name.
fn excused_by_found(alloc: Global, table: &Table, found: &NamedLines) -> Result<Excused, AllocError>
    ensures accepted { IfOk result (λ excused. excused.accepted ≡ found.now.pairs.items) }
    ensures exchanged { IfOk result (λ excused. excused.exchanged ≡ pairs_in_sets table.now (map (λ set. set.items) found.now.sets.items)) }
{
    let accepted = Vec::from_slice(alloc, found.pairs.as_slice())?;
    let exchanged = pairs_of_sets(alloc, table, found.sets.as_slice())?;
    Ok(Excused {
        accepted: RulePairs::new(alloc, accepted)?,
        exchanged: RulePairs::new(alloc, exchanged)?,
    })
}

/// The lines of a file with this text.
fn rows_of(alloc: Global, text: &str) -> Result<Vec<&str>, AllocError>
    ensures { IfOk result (λ rows. map (λ row. row.now) rows.items ≡ rows_of_file text.now) }
{
    lines_of(alloc, without_mark(text))
}

/// The lines of a text.
fn lines_of(alloc: Global, text: &str) -> Result<Vec<&str>, AllocError>
    ensures { IfOk result (λ rows. map (λ row. row.now) rows.items ≡ lines text.now) }
{
    text.lines().collect(alloc)
}

/// What lines name: the pairs of rules, the set of each, and the stale ones; and the text of the
/// others.
#[derive(Drop)]
pub(crate) struct NamedLines {
    pub pairs: Vec<(u32, u32)>,
    pub sets: Vec<Vec<char>>,
    pub stale: Vec<ExcuseFault>,
    pub kept: String,
}

/// What the lines of the file at a path name.
fn read_rows(
    alloc: Global,
    reader: Reader<'_, '_, '_>,
    path: &str,
    rows: &[&str],
) -> Result<NamedLines, AllocError>
    requires { IsIndexed reader }
    ensures { IfOk result (AreFound (names_read reader.entry) (list_of reader.entry) path.now (map (λ row. row.now) rows.now)) }
{
    let mut found = NamedLines {
        pairs: Vec::new(alloc),
        sets: Vec::new(alloc),
        stale: Vec::new(alloc),
        kept: String::new(alloc),
    };
    for (place, row) in rows.iter().enumerate() {
        let named = named_by(alloc, reader, row)?;
        found.push(alloc, &named, path, place, row)?;
    }
    Ok(found)
}

impl NamedLines {
    /// Adds what the line at a place of the file at a path names.
    fn push(
        &mut self,
        alloc: Global,
        named: &Named,
        path: &str,
        place: usize,
        row: &str,
    ) -> Result<(), AllocError>
        requires { place < 2 ^ 63 }
        ensures pairs { OnOk result (self.new.pairs.items ≡ self.old.pairs.items ++ named.now.pairs.items) }
        ensures sets { OnOk result (map (λ set. set.items) self.new.sets.items ≡ map (λ set. set.items) self.old.sets.items ++ named.now.set.items ∷ []) }
        ensures stale { OnOk result (map fault_view self.new.stale.items ≡ map fault_view self.old.stale.items ++ stale_by named.now.fault path.now (place, row.now)) }
        ensures kept { OnOk result (string_bytes self.new.kept ≡ string_bytes self.old.kept ++ kept_by named.now.fault row.now) }
    {
        self.pairs.extend_from_slice(named.pairs.as_slice())?;
        self.sets
            .push(Vec::from_slice(alloc, named.set.as_slice())?)?;
        if let Some(kind) = named.fault {
            self.stale.push(stale_line(alloc, kind, path, place, row)?)?;
            return Ok(());
        }
        self.kept.push_str(row)?;
        self.kept.push('\n')
    }
}

//! Every pair of rules at which the texts of worked tables diverge.
use brl_divergence::{Divergences, Listing};
use brl_dues::Dues;
use brl_forward::confirm;
use brl_pairs::Seed;
use brl_progress::{NoProgress, Slice};
use brl_rules::Table;
use brl_search::{ClashList, RuleClash, clashes, seed_of};
use brl_states::DuesState;
use brl_testing::{chars, for_tables_of_3, for_tables_of_4, run_slices};
use brl_without::LeftOut;
use std::alloc::{AllocError, Global};
use std::collections::BTreeMap;
use std::test::Fail;

/// A table's lines, the characters that are left out, the limit, and what is listed: each pair of
/// rules with two texts that diverge there. A list that may lack some has the numbers of states and
/// pairs first.
const LISTS: &str = "\
||9|complete
letter a 1; letter b 12||9|complete
letter a 1; letter b 1||9|complete; 0+1 a b
letter a 1; letter b 1; letter c 1||9|complete; 0+1 a b; 0+2 a c; 1+2 b c
letter a 1; letter b 1; letter c 1||3|complete; 0+1 a b; 0+2 a c; 1+2 b c
letter a 1; letter b 1; letter c 1||2|partial 2 0; 0+1 a b; 0+2 a c; 1+2 b c
letter a 1; letter b 1; letter c 1||1|partial 2 0
letter a 1||0|partial 1 0
letter a 1; letter b 12; letter x 1-12||9|complete; 0+2 x ab
letter a 1; letter b 12; letter x 1-12|b|9|complete
letter a 1; letter b 12; letter x 1-12|x|9|complete
letter a 1; letter b 12; letter c 14; letter x 1-12-14||9|complete; 0+3 x abc
letter a 1; letter b 12; letter c 14; always ab 14||9|complete; 0+3 ab c
space \\s 0; letter b 12; letter u 136; letter t 2345; word but 12||99|complete; 0+2 but b
space \\s 0; letter b 12; letter u 136; letter t 2345; word but 12; word b 56-12||99|complete
uplow Aa 1; letter b 2; always ab 12||99|complete; 0+0 Ab ab; 1+2 A a
uplow Aa 1; letter b 2; always ab 12|A|99|complete
uplow Aa 1; uplow Bb 12; capsletter 6; begcapsword 6||99|complete; 0+0 AA Aa; 0+1 AAA AAa; 2+2 BA Ba; 2+3 AAB AAb
";

/// Appends a pair of rules and its texts. It adds a note where these don't clash.
fn push_pair(alloc: Global, table: &Table, it: &RuleClash, text: &mut String) -> Result<(), Fail> {
    let start = format!(in alloc; "; {}+{} ", it.lesser, it.greater)?;
    text.push_str(start.as_str())?;
    for character in it.clash.left() {
        text.push(*character)?;
    }
    text.push(' ')?;
    for character in it.clash.right() {
        text.push(*character)?;
    }
    if confirm(alloc, table, it.clash.left(), it.clash.right())?.is_none() {
        text.push_str(" is no clash")?;
    }
    Ok(())
}

/// The pairs of rules, after a word.
fn told_of_list(
    alloc: Global,
    table: &Table,
    word: &str,
    list: &[RuleClash],
) -> Result<String, Fail> {
    let mut text = String::from_str(alloc, word)?;
    for it in list {
        push_pair(alloc, table, it, &mut text)?;
    }
    Ok(text)
}

/// What is listed, with the numbers of states and pairs where it may lack some.
fn told_of_part(
    alloc: Global,
    table: &Table,
    list: &[RuleClash],
    states: u64,
    pairs: u64,
) -> Result<String, Fail> {
    let word = format!(in alloc; "partial {states} {pairs}")?;
    told_of_list(alloc, table, word.as_str(), list)
}

/// What is listed, in words.
fn told_of_clashes(alloc: Global, table: &Table, found: &ClashList) -> Result<String, Fail> {
    match found {
        ClashList::Complete { list, .. } => {
            told_of_list(alloc, table, "complete", list.as_slice())
        }
        ClashList::Partial {
            list,
            states,
            pairs,
        } => told_of_part(alloc, table, list.as_slice(), *states, *pairs),
    }
}

/// The list of a table's clashes without some characters.
fn clashes_without(
    alloc: Global,
    table: &Table,
    left_out: &LeftOut,
    limit: u32,
) -> Result<ClashList, AllocError> {
    let known = Vec::new(alloc);
    clashes(alloc, table, limit as u64, left_out, known, &mut NoProgress)
}

/// The pairs of a whole list.
pub fn pairs_of(found: ClashList) -> Result<Vec<RuleClash>, Fail> {
    match found {
        ClashList::Complete { list, .. } => Ok(list),
        ClashList::Partial { .. } => Err(Fail::new(format_args!("no whole list"))),
    }
}

/// The list of a table's clashes.
pub fn clashes_of(alloc: Global, table: &Table) -> Result<ClashList, AllocError> {
    let left_out = LeftOut::none(alloc);
    clashes_without(alloc, table, &left_out, 1000)
}

/// What is listed of a table without some characters.
fn told_without(
    alloc: Global,
    table: &Table,
    left_out: &LeftOut,
    limit: u32,
) -> Result<String, Fail> {
    let found = clashes_without(alloc, table, left_out, limit)?;
    told_of_clashes(alloc, table, &found)
}

/// What is listed of a table.
fn told_of(alloc: Global, table: &Table, left_out: &str, limit: &str) -> Result<String, Fail> {
    let limit = u32::from_str_radix(limit, 10)?;
    let left_out = LeftOut::new(alloc, chars(alloc, left_out)?)?;
    told_without(alloc, table, &left_out, limit)
}

/// A table's lines, some characters, and what is listed of all texts where the clashes of those
/// without these characters are known: what is listed where none are.
const KNOWN: &str = "\
letter a 1; letter b 1; letter c 1||complete; 0+1 a b; 0+2 a c; 1+2 b c
letter a 1; letter b 1; letter c 1|a|complete; 0+1 a b; 0+2 a c; 1+2 b c
letter a 1; letter b 1; letter c 1|b|complete; 0+1 a b; 0+2 a c; 1+2 b c
letter a 1; letter b 1; letter c 1|ab|complete; 0+1 a b; 0+2 a c; 1+2 b c
letter a 1; letter b 12; letter c 14; always ab 14|a|complete; 0+3 ab c
uplow Aa 1; letter b 2; always ab 12|b|complete; 0+0 Ab ab; 1+2 A a
uplow Aa 1; uplow Bb 12; capsletter 6; begcapsword 6|B|complete; 0+0 AA Aa; 0+1 AAA AAa; 2+2 BA Ba; 2+3 AAB AAb
";

/// What is listed of a table where the clashes of the texts without some characters are known.
fn told_of_known(alloc: Global, table: &Table, left_out: &str) -> Result<String, Fail> {
    let left_out = LeftOut::new(alloc, chars(alloc, left_out)?)?;
    let known = pairs_of(clashes_without(alloc, table, &left_out, 99)?)?;
    let none = LeftOut::none(alloc);
    let found = clashes(alloc, table, 99, &none, known, &mut NoProgress)?;
    told_of_clashes(alloc, table, &found)
}

#[test]
fn known_clashes_are_listed(rt: HostRuntime) -> Result<(), Fail> {
    for_tables_of_3(rt.alloc(), KNOWN, told_of_known)
}

#[test]
fn worked_lists(rt: HostRuntime) -> Result<(), Fail> {
    for_tables_of_4(rt.alloc(), LISTS, told_of)
}

/// A table's lines, how many steps the listing of its machine runs in two slices, and what it has
/// found then. Each step expands a state or settles the splits of one, and a last one ends it.
const SLICES: &str = "\
letter a 1; letter b 1|0|0|unfinished
letter a 1; letter b 1|4|0|unfinished
letter a 1; letter b 1|5|0|complete: 1 pairs of rules
letter a 1; letter b 1|3|2|complete: 1 pairs of rules
letter a 1; letter b 1|5|9|complete: 1 pairs of rules
letter a 1; letter b 1; letter c 1|1|9|complete: 3 pairs of rules
";

/// What a listing has found, in words.
fn told_of_divergences(
    alloc: Global,
    divergences: &Divergences<DuesState>,
) -> Result<String, AllocError> {
    match divergences {
        Divergences::Complete { list, .. } => {
            let count = list.len();
            format!(in alloc; "complete: {count} pairs of rules")
        }
        Divergences::Partial { list, .. } => {
            let count = list.len();
            format!(in alloc; "partial: {count} pairs of rules")
        }
    }
}

/// What a listing has found after some slices, in words.
fn told_of_slice(
    alloc: Global,
    slice: &Slice<Listing<'_, Dues<'_>>, Divergences<DuesState>>,
) -> Result<String, AllocError> {
    match slice {
        Slice::Unfinished(_) => String::from_str(alloc, "unfinished"),
        Slice::Finished(divergences) => told_of_divergences(alloc, divergences),
    }
}

/// What the listing of a machine has found after two slices of these numbers of steps.
fn told_after(
    alloc: Global,
    dues: &Dues,
    seed: Seed,
    slices: [u64; 2],
) -> Result<String, AllocError> {
    let start = Listing::start(alloc, dues, 9, seed, BTreeMap::new(alloc))?;
    let slice = run_slices(start, slices)?;
    told_of_slice(alloc, &slice)
}

/// What the listing of a table's machine has found after two slices.
fn told_of_slices(alloc: Global, table: &Table, first: &str, second: &str) -> Result<String, Fail> {
    let slices = [
        u64::from_str_radix(first, 10)?,
        u64::from_str_radix(second, 10)?,
    ];
    let seed = seed_of(alloc, table)?;
    Ok(told_after(alloc, &Dues::new(alloc, table), seed, slices)?)
}

#[test]
fn listings_run_in_slices(rt: HostRuntime) -> Result<(), Fail> {
    for_tables_of_4(rt.alloc(), SLICES, told_of_slices)
}

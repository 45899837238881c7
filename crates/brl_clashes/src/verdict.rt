//! The outcome of the sections of a list.
ghost use Rattle.std.specs.Prelude.{◌≡◌, ◌==◌, if◌then◌else◌, IfOk, length, string_bytes};
ghost use Rattle.brl_clashes.specs.Accepted.{
  accepted_count as count_of_accepted,
  accepted_lines as lines_of_accepted,
  outcome_beside as said_outcome,
  stale_line as line_of_stale,
};
ghost use Rattle.brl_clashes.specs.ClashesText.{
  counts_after as line_after,
  counts_of as counts_in,
  pairs_line as line_of_pairs,
  verdict_by,
  verdict_counts as counts_of_verdict,
  verdict_pairs as pairs_of_verdict,
};
ghost use Rattle.brl_clashes.specs.SectionText.{others_note as note_of_others, pairs_words as words_of_pairs};
ghost use Rattle.brl_clashes.specs.Sections.{outcome_by};

use crate::accepted::Taken;
use crate::tally::Tally;
use brl_accepted::but_for_line;
use brl_answers::counts_text;
use brl_search::ClashList;
use std::alloc::{AllocError, Global};

/// The outcome of the sections of a list.
#[derive(Clone, Copy)]
pub enum ListOutcome {
    /// No pair of rules is listed, and no texts clash.
    Unambiguous,
    /// The pairs of rules that are listed diverge, and no others.
    Clashing,
    /// A limit was passed: there may be other pairs of rules than those that are listed.
    Unfinished,
}

/// The outcome for a table whose sections have this one after this many accepted pairs of rules
/// were left out. Where some were, the table isn't unambiguous, also where no pair is left.
fn outcome_beside(accepted: usize, outcome: ListOutcome) -> ListOutcome
    ensures { result ≡ said_outcome accepted outcome }
{
    match outcome {
        ListOutcome::Unambiguous if accepted > 0 => ListOutcome::Clashing,
        other => other,
    }
}

/// The verdict lines of a list, with its counts and, where a file was read, how much that excuses.
pub fn verdict_text(
    alloc: Global,
    tally: &Tally,
    accepted: Option<Taken>,
) -> Result<String, AllocError>
    ensures { IfOk result (λ text. string_bytes text ≡ verdict_by accepted (outcome_by tally.now.whole tally.now.none) tally.now.counts (length tally.now.left)) }
{
    let listed = accepted_count(accepted);
    let outcome = outcome_beside(listed, tally.outcome());
    let mut text = verdict_counts(alloc, outcome, tally.counts)?;
    let number = tally.left.len();
    text.push_str(verdict_pairs(alloc, listed > 0, outcome, number)?.as_str())?;
    text.push_str(accepted_lines(alloc, accepted)?.as_str())?;
    Ok(text)
}

/// How many listed pairs are accepted, where a file was read.
fn accepted_count(accepted: Option<Taken>) -> usize
    ensures { result ≡ count_of_accepted accepted }
{
    match accepted {
        None => 0,
        Some(taken) => taken.listed,
    }
}

/// The lines on a file of accepted pairs: how many of its lines are stale, and how much it excuses.
/// Empty where no file is read.
fn accepted_lines(alloc: Global, accepted: Option<Taken>) -> Result<String, AllocError>
    ensures { IfOk result (λ text. string_bytes text ≡ lines_of_accepted accepted) }
{
    let Some(taken) = accepted else {
        return Ok(String::new(alloc));
    };
    let mut text = stale_line(alloc, taken.pruned, taken.stale)?;
    text.push_str(but_for_line(alloc, taken.counts)?.as_str())?;
    Ok(text)
}

/// The line that says how many lines are stale, and whether they were taken out of the file. Empty
/// where no line is stale and none was to be taken out.
fn stale_line(alloc: Global, pruned: bool, count: usize) -> Result<String, AllocError>
    ensures { IfOk result (λ text. string_bytes text ≡ line_of_stale pruned count) }
{
    let lines = words_for(count, " line\n", " lines\n");
    if pruned {
        return format!(in alloc; "pruned: {count}{lines}");
    }
    if count == 0 {
        return Ok(String::new(alloc));
    }
    format!(in alloc; "stale: {count}{lines}")
}

/// The words for a count of one, and other words for any other count.
fn words_for(count: usize, one: &'static str, other: &'static str) -> &'static str
    ensures { result.now ≡ (if count == 1 then one.now else other.now) }
{
    if count == 1 { one } else { other }
}

/// On how many states and pairs a list rests.
pub fn counts_of(found: &ClashList) -> (u64, u64)
    ensures { result ≡ counts_in found.now }
{
    match found {
        ClashList::Complete { body, .. } => {
            let states = u64::from(body.state_count());
            let pairs = u64::from(body.pair_count());
            (states, pairs)
        }
        ClashList::Partial { states, pairs, .. } => (*states, *pairs),
    }
}

/// The counts that are reported of an outcome, and empty where none are.
fn verdict_counts(
    alloc: Global,
    outcome: ListOutcome,
    counts: Option<(u64, u64)>,
) -> Result<String, AllocError>
    ensures { IfOk result (λ text. string_bytes text ≡ counts_of_verdict outcome counts) }
{
    match outcome {
        ListOutcome::Unambiguous => counts_after(alloc, "unambiguous", counts),
        ListOutcome::Clashing => Ok(String::new(alloc)),
        ListOutcome::Unfinished => counts_after(alloc, "limit", counts),
    }
}

/// These counts after a word, where there are some.
fn counts_after(alloc: Global, word: &str, counts: Option<(u64, u64)>) -> Result<String, AllocError>
    ensures { IfOk result (λ text. string_bytes text ≡ line_after word.now counts) }
{
    match counts {
        Some((states, pairs)) => counts_text(alloc, word, states, pairs),
        None => Ok(String::new(alloc)),
    }
}

/// How many pairs of rules diverge, and whether others may; empty where none are listed.
fn verdict_pairs(
    alloc: Global,
    taken: bool,
    outcome: ListOutcome,
    count: usize,
) -> Result<String, AllocError>
    ensures { IfOk result (λ text. string_bytes text ≡ pairs_of_verdict taken outcome count) }
{
    match outcome {
        ListOutcome::Unambiguous => Ok(String::new(alloc)),
        ListOutcome::Clashing => pairs_line(alloc, taken, count, true),
        ListOutcome::Unfinished => pairs_line(alloc, taken, count, false),
    }
}

/// How many pairs of rules diverge, and whether others may.
fn pairs_line(alloc: Global, taken: bool, count: usize, whole: bool) -> Result<String, AllocError>
    ensures { IfOk result (λ text. string_bytes text ≡ line_of_pairs taken count whole) }
{
    let pairs = pairs_words(count);
    let others = others_note(taken, whole);
    format!(in alloc; "{count}{pairs}{others}\n")
}

/// The words after a number of pairs of rules.
pub fn pairs_words(count: usize) -> &'static str
    ensures { result.now ≡ words_of_pairs count }
{
    words_for(count, " pair of rules diverges", " pairs of rules diverge")
}

/// The words after these: that no others diverge, but for accepted ones where some were left out;
/// or that others may.
pub fn others_note(taken: bool, whole: bool) -> &'static str
    ensures { result.now ≡ note_of_others taken whole }
{
    if !whole {
        ", and maybe others"
    } else if taken {
        ", and no others but for the accepted ones"
    } else {
        ", and no others"
    }
}

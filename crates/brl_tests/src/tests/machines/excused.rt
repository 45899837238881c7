//! Certificates that are judged but for what is excused.
use crate::tests::machines::accept::{answer_text, judge_scoped};
use crate::tests::machines::clashes::{clashes_of, pairs_of};
use brl_cert::{Cert, write_cert};
use brl_forward::{Traced, trace, translate};
use brl_lines::MapSource;
use brl_pairs::{Excused, RulePairs};
use brl_progress::NoProgress;
use brl_rules::Table;
use brl_search::{ClashList, RuleClash};
use brl_testing::{
    bytes_of, for_rows_of_2, for_rows_of_3, for_rows_of_4, lines_of, one_file, table_of,
};
use brl_without::{LeftOut, Scope};
use std::alloc::Global;
use std::test::Fail;

/// The bytes of a table, the bytes of a certificate, the pairs of rules that are accepted (`a`) and
/// exchanged (`e`), and what is answered for them.
const JUDGED: &str = "\
letter a 1;letter b 1|BRLCERT 3;state 1 0 0;state 8 0 0;end 2 0;||A3 SplitMissing state 0 rules 0 1
letter a 1;letter b 1|BRLCERT 3;state 1 0 0;state 8 0 0;end 2 0;|a0-1|2 states, 0 pairs
letter a 1;letter b 1|BRLCERT 3;state 1 0 0;state 8 0 0;end 2 0;|a1-0|2 states, 0 pairs
letter a 1;letter b 1|BRLCERT 3;state 1 0 0;state 8 0 0;end 2 0;|e0-1|2 states, 0 pairs
letter a 1;letter b 1|BRLCERT 3;state 1 0 0;state 8 0 0;end 2 0;|a0-0|A3 SplitMissing state 0 rules 0 1
letter a 1;letter b 1|BRLCERT 3;state 1 0 0;state 8 0 0;end 2 0;|a0-2,a2-1|A3 SplitMissing state 0 rules 0 1
letter a 1;letter b 1;letter c 1|BRLCERT 3;state 1 0 0;state 8 0 0;end 2 0;|a0-1|A3 SplitMissing state 0 rules 0 2
letter a 1;letter b 1;letter c 1|BRLCERT 3;state 1 0 0;state 8 0 0;end 2 0;|a0-1,a0-2|A3 SplitMissing state 0 rules 1 2
letter a 1;letter b 1;letter c 1|BRLCERT 3;state 1 0 0;state 8 0 0;end 2 0;|a2-1|A3 SplitMissing state 0 rules 0 1
letter a 1;letter b 1;letter c 1|BRLCERT 3;state 1 0 0;state 8 0 0;end 2 0;|a0-1,a0-2,a1-2|2 states, 0 pairs
letter a 1;letter b 1;letter c 1|BRLCERT 3;state 1 0 0;state 8 0 0;end 2 0;|e0-1,a0-2,e1-2|2 states, 0 pairs
letter a 1;letter b 1;letter c 1;letter d 1|BRLCERT 3;state 1 0 0;state 8 0 0;end 2 0;|a2-3|A3 SplitMissing state 0 rules 0 1
letter a 1;letter b 1-12|BRLCERT 3;state 1 0 0;state 8 0 0;end 2 0;||A3 SplitMissing state 0 rules 0 1
letter a 1;letter b 1-12|BRLCERT 3;state 1 0 0;state 8 0 0;end 2 0;|e0-1|A3 SplitMissing state 0 rules 0 1
letter a 1;letter b 1-12|BRLCERT 3;state 1 0 0;state 8 0 0;end 2 0;|a0-1|2 states, 0 pairs
letter a 1;punctuation , 1|BRLCERT 3;state 1 0 0;state 2 0 0;state 8 0 0;end 3 0;|e0-1|A3 SplitMissing state 0 rules 0 1
letter a 1;punctuation , 1|BRLCERT 3;state 1 0 0;state 2 0 0;state 8 0 0;end 3 0;|a0-1|3 states, 0 pairs
uplow Aa 1|BRLCERT 2;state 1 0;state 24 0;state 40 0;end 3 0;|a0-1|3 states, 0 pairs
uplow Aa 1|BRLCERT 2;state 1 0;state 24 0;state 40 0;end 3 0;|e0-1|A3 SplitMissing state 0 rules 0 1
letter a 1;letter b 1|BRLCERT 3;state 1 0 0;state 8 0 0;pair 1 1 -;end 2 1;|a0-1|A4 PairMissing pair 0 rule 0
letter a 1;letter b 1|BRLCERT 3;state 1 0 0;state 8 0 0;pair 1 1 -;pair 1 1 1;end 2 2;|a0-1,a0-0,a1-1|A5 BothEnd pair 0
letter a 1;letter b 1|BRLCERT 3;state 1 0 0;end 1 0;|a0-1|A2 StateMissing state 0 rule 0
letter a 1;letter b 1|BRLCERT 2;state 1 0;state 8 0;end 2 0;|a0-1|2 states, 0 pairs
letter a 1|BRLCERT 1;state 1 0 0 -;state 8 0 0 61;state 8 0 1 -;pair 1 2 -;end 3 1;||3 states, 1 pairs
letter a 1|BRLCERT 1;state 1 0 0 -;state 8 0 0 61;state 8 0 1 -;pair 1 2 -;end 3 1;|a5-6|K9 OldVersion line 1
letter a 1|BRLCERT 1;state 1 0 0 -;state 8 0 0 61;state 8 0 1 -;pair 1 2 -;end 3 1;|e0-0|K9 OldVersion line 1
";

/// The pair of rules of a word after its first letter.
fn pair_of(word: &str) -> Result<(u32, u32), Fail> {
    match word.get(1..).and_then(|numbers| numbers.split_once('-')) {
        Some((one, other)) => Ok((
            u32::from_str_radix(one, 10)?,
            u32::from_str_radix(other, 10)?,
        )),
        None => Err(Fail::new(format_args!("no pair: {word}"))),
    }
}

/// The pairs of rules of the words of a field that begin with a letter.
fn pairs_after(alloc: Global, field: &str, letter: &str) -> Result<RulePairs, Fail> {
    let mut pairs = Vec::new(alloc);
    for word in field.split(',') {
        if word.starts_with(letter) {
            pairs.push(pair_of(word)?)?;
        }
    }
    Ok(RulePairs::new(alloc, pairs)?)
}

/// What a field excuses.
fn excused_of(alloc: Global, field: &str) -> Result<Excused, Fail> {
    let accepted = pairs_after(alloc, field, "a")?;
    let exchanged = pairs_after(alloc, field, "e")?;
    Ok(Excused {
        accepted,
        exchanged,
    })
}

/// What is answered for the bytes of a certificate and for a table's file, without some characters
/// and but for what is excused.
fn answer_without(
    alloc: Global,
    source: &mut MapSource,
    cert: &[u8],
    excused: &Excused,
    left_out: &LeftOut,
) -> Result<String, Fail> {
    let scope = Scope {
        left_out,
        excused,
        progress: &mut NoProgress,
    };
    let judged = judge_scoped(alloc, source, cert, scope);
    answer_text(alloc, judged)
}

/// What is answered for the bytes of a certificate and of a table, but for what is excused.
fn answer_up_to(
    alloc: Global,
    table: &[u8],
    cert: &[u8],
    excused: &Excused,
) -> Result<String, Fail> {
    let mut source = one_file(alloc, "t.ctb", table)?;
    let left_out = LeftOut::none(alloc);
    answer_without(alloc, &mut source, cert, excused, &left_out)
}

/// What is answered for a certificate and a table, but for what is excused.
fn judged_but_for(
    alloc: Global,
    table: &str,
    cert: &str,
    excused: &Excused,
) -> Result<String, Fail> {
    let table = bytes_of(alloc, table)?;
    let cert = bytes_of(alloc, cert)?;
    answer_up_to(alloc, table.as_slice(), cert.as_slice(), excused)
}

/// The answer of the judge, but for what a field excuses.
fn judged(alloc: Global, table: &str, cert: &str, excused: &str) -> Result<String, Fail> {
    let excused = excused_of(alloc, excused)?;
    judged_but_for(alloc, table, cert, &excused)
}

#[test]
fn worked_certificates(rt: HostRuntime) -> Result<(), Fail> {
    for_rows_of_4(rt.alloc(), JUDGED, judged)
}

/// A table's lines, and how many pairs of rules the sets of the whole list of its clashes need:
/// they are accepted with all of the list's pairs, and without any one of them they are refused.
const NEEDED: &str = "\
letter a 1; letter b 12|0 of 0
letter a 1; letter b 1|1 of 1
letter a 1; letter b 1; letter c 1|3 of 3
letter a 1; letter b 12; letter x 1-12|1 of 1
letter a 1; letter b 12; letter c 14; always ab 14|1 of 1
space \\s 0; letter b 12; letter u 136; letter t 2345; word but 12|1 of 1
uplow Aa 1; letter b 2; always ab 12|2 of 2
uplow Aa 1; uplow Bb 12; capsletter 6; begcapsword 6|4 of 4
";

/// The pairs of a list, without the one with this number, as accepted pairs.
fn all_but(alloc: Global, list: &[RuleClash], left: usize) -> Result<Excused, Fail> {
    let mut accepted = Vec::new(alloc);
    for (number, it) in list.iter().enumerate() {
        if number != left {
            accepted.push((it.lesser, it.greater))?;
        }
    }
    let accepted = RulePairs::new(alloc, accepted)?;
    Ok(Excused {
        accepted,
        exchanged: RulePairs::none(alloc),
    })
}

/// What is answered where the pairs of a list but the one with this number are accepted.
fn answer_but(
    alloc: Global,
    table: &[u8],
    cert: &[u8],
    list: &[RuleClash],
    left: usize,
) -> Result<String, Fail> {
    let most = all_but(alloc, list, left)?;
    answer_up_to(alloc, table, cert, &most)
}

/// Whether a certificate needs the pair of a list with this number.
fn is_needed(
    alloc: Global,
    table: &[u8],
    cert: &[u8],
    list: &[RuleClash],
    left: usize,
) -> Result<bool, Fail> {
    let answer = answer_but(alloc, table, cert, list, left)?;
    Ok(answer.as_str().starts_with("A3 "))
}

/// How many pairs of a list a certificate needs.
fn count_needed(
    alloc: Global,
    table: &[u8],
    cert: &[u8],
    list: &[RuleClash],
) -> Result<usize, Fail> {
    let mut needed: usize = 0;
    for left in 0..list.len() {
        if is_needed(alloc, table, cert, list, left)? {
            needed = needed.saturating_add(1);
        }
    }
    Ok(needed)
}

/// How many pairs of the list are needed, in words, or the refusal where all of them are accepted.
fn needed_of(alloc: Global, table: &[u8], cert: &[u8], list: &[RuleClash]) -> Result<String, Fail> {
    let answer = answer_but(alloc, table, cert, list, list.len())?;
    if answer.as_str().starts_with("A") {
        return Ok(answer);
    }
    let needed = count_needed(alloc, table, cert, list)?;
    Ok(format!(in alloc; "{needed} of {}", list.len())?)
}

/// The sets of a whole list, as a certificate.
fn sets_of(found: ClashList) -> Result<Cert, Fail> {
    match found {
        ClashList::Complete { body, .. } => Ok(Cert::Word(body)),
        ClashList::Partial { .. } => Err(Fail::new(format_args!("no whole list"))),
    }
}

/// The certificate of the sets of the whole list of a table's clashes.
fn cert_of_list(alloc: Global, table: &Table) -> Result<Vec<u8>, Fail> {
    let cert = sets_of(clashes_of(alloc, table)?)?;
    Ok(write_cert(alloc, &cert)?)
}

/// How many pairs of the whole list of the clashes of a table with these bytes its sets need.
fn needed_by(alloc: Global, table: &Table, bytes: &[u8]) -> Result<String, Fail> {
    let list = pairs_of(clashes_of(alloc, table)?)?;
    let cert = cert_of_list(alloc, table)?;
    needed_of(alloc, bytes, cert.as_slice(), list.as_slice())
}

/// How many pairs of the whole list of a table's clashes its sets need.
fn needed(alloc: Global, lines: &str) -> Result<String, Fail> {
    let bytes = lines_of(alloc, lines)?;
    let table = table_of(alloc, lines)?;
    needed_by(alloc, &table, bytes.as_bytes())
}

#[test]
fn sets_of_whole_lists(rt: HostRuntime) -> Result<(), Fail> {
    for_rows_of_2(rt.alloc(), NEEDED, needed)
}

/// A table's lines, its characters, the pairs of rules that are accepted and exchanged, and what
/// comes of the sets of the whole list of its clashes. Where they are accepted, that is how many
/// pairs of texts of up to four of the characters have the same cells. All of these pairs agree
/// but for what is excused.
const AGREE: &str = "\
letter a 1; letter b 1|ab||A3 SplitMissing state 0 rules 0 1
letter a 1; letter b 1|ab|e0-1|155 agree
letter a 1; letter b 1|ab|a0-1|155 agree
letter a 1; letter b 1; letter c 1|abc|e0-1,e0-2|A3 SplitMissing state 0 rules 1 2
letter a 1; letter b 1; letter c 1|abc|e0-1,a0-2,e1-2|3630 agree
letter a 1; letter b 12; letter x 1-12|abx|a0-2|45 agree
letter a 1; letter b 12; letter x 1-12|abx|e0-2|A3 SplitMissing state 0 rules 0 2
";

/// The characters of a text that a step reads.
fn read_by<'t>(text: &'t [char], step: &Traced) -> Option<&'t [char]> {
    let end = step.start.checked_add(step.length)?;
    text.get(step.start..end)
}

/// Whether two steps of two texts are the same, or may be exchanged.
fn are_alike(
    left: &[char],
    right: &[char],
    one: &Traced,
    other: &Traced,
    exchanged: &RulePairs,
) -> bool {
    let same = one.rule == other.rule && read_by(left, one) == read_by(right, other);
    one.cells.as_slice() == other.cells.as_slice() && (same || exchanged.has(one.rule, other.rule))
}

/// Whether two texts with these steps agree but for what is excused: step by step, to their ends
/// or up to two steps of an accepted pair of rules. No table here has runs of capitals.
fn steps_agree(
    left: &[char],
    right: &[char],
    ones: &[Traced],
    others: &[Traced],
    excused: &Excused,
) -> bool {
    for (one, other) in ones.iter().zip(others.iter()) {
        if !are_alike(left, right, one, other, &excused.exchanged) {
            return excused.accepted.has(one.rule, other.rule);
        }
    }
    ones.len() == others.len()
}

/// Whether two texts agree but for what is excused.
fn agree_but(
    alloc: Global,
    table: &Table,
    left: &[char],
    right: &[char],
    excused: &Excused,
) -> Result<bool, Fail> {
    let ones = trace(alloc, table, left)?;
    let others = trace(alloc, table, right)?;
    Ok(steps_agree(left, right, ones.as_slice(), others.as_slice(), excused))
}

/// Appends this text with each of these characters after it.
fn push_longer(
    alloc: Global,
    characters: &str,
    begun: &[char],
    texts: &mut Vec<Vec<char>>,
) -> Result<(), Fail> {
    for character in characters.chars() {
        let mut text = Vec::from_slice(alloc, begun)?;
        text.push(character)?;
        texts.push(text)?;
    }
    Ok(())
}

/// All texts of up to four of these characters.
fn texts_of(alloc: Global, characters: &str) -> Result<Vec<Vec<char>>, Fail> {
    let mut texts = Vec::new(alloc);
    texts.push(Vec::new(alloc))?;
    for number in 0..1000 {
        if number >= texts.len() || texts[number].len() == 4 {
            break;
        }
        let begun = Vec::from_slice(alloc, texts[number].as_slice())?;
        push_longer(alloc, characters, begun.as_slice(), &mut texts)?;
    }
    Ok(texts)
}

/// Whether two texts have the same cells.
fn have_same_cells(
    alloc: Global,
    table: &Table,
    left: &[char],
    right: &[char],
) -> Result<bool, Fail> {
    let cells = translate(alloc, table, left)?;
    let others = translate(alloc, table, right)?;
    Ok(cells.as_slice() == others.as_slice())
}

/// How many of these texts have the cells of one; nothing where one of them doesn't agree with it.
fn count_agreeing(
    alloc: Global,
    table: &Table,
    left: &[char],
    texts: &[Vec<char>],
    excused: &Excused,
) -> Result<Option<usize>, Fail> {
    let mut count: usize = 0;
    for right in texts {
        if have_same_cells(alloc, table, left, right.as_slice())? {
            if !agree_but(alloc, table, left, right.as_slice(), excused)? {
                return Ok(None);
            }
            count = count.saturating_add(1);
        }
    }
    Ok(Some(count))
}

/// How many pairs of texts have the same cells, where all of them agree but for what is excused.
fn agreement(
    alloc: Global,
    table: &Table,
    texts: &[Vec<char>],
    excused: &Excused,
) -> Result<String, Fail> {
    let mut count: usize = 0;
    for one in 0..texts.len() {
        let left = texts[one].as_slice();
        match count_agreeing(alloc, table, left, &texts[..one], excused)? {
            Some(more) => count = count.saturating_add(more),
            None => return Ok(format!(in alloc; "text {one} and one before it differ")?),
        }
    }
    Ok(format!(in alloc; "{count} agree")?)
}

/// Whether all texts of up to four of these characters agree, or two that don't.
fn agreement_of(
    alloc: Global,
    table: &Table,
    characters: &str,
    excused: &Excused,
) -> Result<String, Fail> {
    let texts = texts_of(alloc, characters)?;
    agreement(alloc, table, texts.as_slice(), excused)
}

/// What comes of the sets of the whole list of the clashes of a table with these bytes.
fn agreed_by(
    alloc: Global,
    table: &Table,
    bytes: &[u8],
    characters: &str,
    excused: &Excused,
) -> Result<String, Fail> {
    let cert = cert_of_list(alloc, table)?;
    let answer = answer_up_to(alloc, bytes, cert.as_slice(), excused)?;
    if answer.as_str().starts_with("A") {
        return Ok(answer);
    }
    agreement_of(alloc, table, characters, excused)
}

/// Whether the texts of a table with these lines agree but for what is excused.
fn agreed_but_for(
    alloc: Global,
    lines: &str,
    characters: &str,
    excused: &Excused,
) -> Result<String, Fail> {
    let bytes = lines_of(alloc, lines)?;
    let table = table_of(alloc, lines)?;
    agreed_by(alloc, &table, bytes.as_bytes(), characters, excused)
}

/// Whether the texts of a table agree, but for what a field excuses.
fn agreed(alloc: Global, lines: &str, characters: &str, excused: &str) -> Result<String, Fail> {
    let excused = excused_of(alloc, excused)?;
    agreed_but_for(alloc, lines, characters, &excused)
}

#[test]
fn short_texts_agree(rt: HostRuntime) -> Result<(), Fail> {
    for_rows_of_4(rt.alloc(), AGREE, agreed)
}

/// Pairs of rules, two rules, and whether a pair has both, and whether one has the first.
const LOOKED_UP: &str = "\
|0-0|false false
a0-1|0-1|true true
a0-1|1-0|true true
a0-1|0-0|false true
a0-1|2-0|false false
a0-1,a1-2|2-1|true true
a0-1,a1-2|2-0|false true
a3-3|3-3|true true
a0-1,a0-1|1-0|true true
";

/// Whether two rules are those of one of the pairs, and whether one of them has the first.
fn found_among(alloc: Global, pairs: &RulePairs, rules: &str) -> Result<String, Fail> {
    match rules.split_once('-') {
        Some((one, other)) => {
            let one = u32::from_str_radix(one, 10)?;
            let other = u32::from_str_radix(other, 10)?;
            Ok(format!(in alloc; "{} {}", pairs.has(one, other), pairs.names(one))?)
        }
        None => Err(Fail::new(format_args!("no pair: {rules}"))),
    }
}

/// What is found of two rules among the pairs of a field.
fn looked_up(alloc: Global, pairs: &str, rules: &str) -> Result<String, Fail> {
    let pairs = pairs_after(alloc, pairs, "a")?;
    found_among(alloc, &pairs, rules)
}

#[test]
fn worked_pairs(rt: HostRuntime) -> Result<(), Fail> {
    for_rows_of_3(rt.alloc(), LOOKED_UP, looked_up)
}

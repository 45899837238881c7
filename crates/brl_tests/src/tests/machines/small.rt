//! Clashes made small.
use brl_closure::Texts;
use brl_forward::{Clash, confirm};
use brl_rules::Table;
use brl_search::{clash_at, small_clash_of};
use brl_testing::{chars, for_tables_of_4, numbers_of};
use std::alloc::Global;
use std::test::Fail;

/// A table's lines, two texts, the pair of rules at which they are to diverge, or none, and the two
/// texts that are left. Rules are numbered from 0, and the characters' own after them.
const SMALL: &str = "\
letter a 1; letter b 12; letter x 1-12|ab,x||ab,x
letter a 1; letter b 12; letter x 1-12|x,ab||x,ab
letter a 1; letter b 12; letter x 1-12|aab,ax||ab,x
letter a 1; letter b 12; letter x 1-12|aba,xa||ab,x
letter a 1; letter b 12; letter x 1-12|bbbbbbbbbbbbbab,bbbbbbbbbbbbbx||ab,x
letter a 1; letter b 12; letter x 1-12|abbbbbbbbbbbbbb,xbbbbbbbbbbbbb||ab,x
letter a 1; letter b 12; letter x 1-12|xab,abx||xab,abx
letter a 1; letter b 12; letter x 1-12|ab,ab||no clash
letter a 1; letter b 12; letter x 1-12|a,b||no clash
letter a 1; letter b 1; letter c 12; letter d 12|ac,bd|0,1|a,b
letter a 1; letter b 1; letter c 12; letter d 12|ac,bd|1,0|a,b
letter a 1; letter b 1; letter c 12; letter d 12|ac,bd|2,3|no clash
letter a 1; letter b 1; letter c 12; letter d 12|cacc,cbdc|0,1|a,b
letter a 1; letter b 1; letter c 12; always bc 1-12|ac,bc|0,1|ac,bc
letter a 1; letter b 1; letter c 12; always bc 1-12|ac,bc||a,b
space \\s 0; letter b 12; letter u 136; letter t 2345; word but 12|t but,t b||but,b
letter a 1; litdigit 1 1; numsign 3456|a1a,a11||1a,11
uplow Aa 1; letter b 2; always ab 12|abab,abAb|0,0|ab,Ab
uplow Aa 1; letter b 2; always ab 12|aba,abA|0,0|no clash
uplow Aa 1; letter b 2; always ab 12|aba,abA|2,1|a,A
uplow Aa 1; letter b 2; always ab 12|abab,abAb|0,1|no clash
uplow Aa 1; uplow Bb 12; capsletter 6; begcapsword 6|bAB,bAb|0,0|AB,Ab
uplow Aa 1; uplow Bb 12; capsletter 6; begcapsword 6|AB,Ab|2,3|no clash
uplow Aa 1; uplow Bb 12; capsletter 6; begcapsword 6|AAB,AAb|2,3|AAB,AAb
uplow Aa 1; uplow Bb 12; capsletter 6; begcapsword 6|AAB,AAb|0,0|no clash
";

/// The two texts of a clash, as a field.
fn texts_of(alloc: Global, clash: &Clash) -> Result<String, Fail> {
    let mut text = String::new(alloc);
    for character in clash.left() {
        text.push(*character)?;
    }
    text.push(',')?;
    for character in clash.right() {
        text.push(*character)?;
    }
    Ok(text)
}

/// The pair of rules of a field; none where it is empty.
fn rules_of(alloc: Global, field: &str) -> Result<Option<(u32, u32)>, Fail> {
    match numbers_of(alloc, field)?.as_slice() {
        [] => Ok(None),
        [one, other] => Ok(Some((*one, *other))),
        _ => Err(Fail::new(format_args!("no pair of rules: {field}"))),
    }
}

/// What is left of two texts.
fn told_of(alloc: Global, table: &Table, texts: &str, rules: &str) -> Result<String, Fail> {
    let (left, right) = texts.split_once(',').ok_or("a text is missing")?;
    let texts = Texts {
        left: chars(alloc, left)?,
        right: chars(alloc, right)?,
    };
    let rules = rules_of(alloc, rules)?;
    let known = confirm(alloc, table, texts.left.as_slice(), texts.right.as_slice())?;
    if known.is_none() || !clash_at(alloc, table, &texts, rules)? {
        return Ok(String::from_str(alloc, "no clash")?);
    }
    let clash = small_clash_of(alloc, table, texts, rules)?;
    texts_of(alloc, &clash)
}

#[test]
fn small_clashes(rt: HostRuntime) -> Result<(), Fail> {
    for_tables_of_4(rt.alloc(), SMALL, told_of)
}

//! Files of pairs of rules.
use brl_accepted::{
    Excusal, ExcuseFaultKind, Nameable, excused_count, is_excused, read_back_law, read_excusal,
    write_accepted,
};
use brl_pairs::RulePairs;
use brl_table::Table;
use brl_testing::table_of;
use std::alloc::{AllocError, Global};
use std::test::Fail;

/// The pair of the first and the third letter of a table, and no others.
const ONE: &[(u32, u32)] = &[(0, 2)];

/// What a text excuses beside that pair.
fn read(alloc: Global, known: Nameable<'_>, text: &str) -> Result<Excusal, AllocError> {
    let list = RulePairs::new(alloc, Vec::from_slice(alloc, ONE)?)?;
    read_excusal(alloc, known, Some(&list), "p", text)
}

/// Whether just the one pair is excused by a text, and no line of it is stale.
fn excuses_one(alloc: Global, known: Nameable<'_>, text: &str) -> bool {
    let Ok(excusal) = read(alloc, known, text) else {
        return false;
    };
    let listed = &[(1, 2), (2, 0), (0, 1)];
    excused_count(&excusal.excused, listed) == 1
        && is_excused(&excusal.excused, (2, 0))
        && excusal.stale.is_empty()
}

/// Whether just this line of a text is stale, for this, and the text without it is this.
fn has_stale(
    alloc: Global,
    known: Nameable<'_>,
    text: &str,
    (kind, line, kept): (ExcuseFaultKind, usize, &str),
) -> bool {
    match read(alloc, known, text) {
        Ok(excusal) => {
            let stale = excusal.stale.as_slice();
            stale.len() == 1
                && stale[0].kind == kind
                && stale[0].line == line
                && excusal.kept.as_str() == kept
        }
        Err(_) => false,
    }
}

/// The sets of characters of these texts.
fn sets_of(alloc: Global, texts: &[&str]) -> Result<Vec<Vec<char>>, AllocError> {
    let mut sets = Vec::new(alloc);
    for text in texts {
        sets.push(text.chars().collect(alloc)?)?;
    }
    Ok(sets)
}

/// Whether a file has this number of stale lines, and excuses just these pairs of a table's rules,
/// where `a` and `x` are a set.
fn excuses(
    alloc: Global,
    table: &Table,
    text: &str,
    stale_lines: usize,
    accepted: &[(u32, u32)],
    exchanged: &[(u32, u32)],
) -> bool {
    let Ok(sets) = sets_of(alloc, &["ax"]) else {
        return false;
    };
    let known = Nameable::new(table, &[], sets.as_slice());
    match read_excusal(alloc, known, None, "p", text) {
        Ok(
            Excusal {
                excused,
                sets,
                stale,
                ..
            },
        ) => {
            excused.accepted.as_slice() == accepted
                && excused.exchanged.as_slice() == exchanged
                && sets == exchanged.len()
                && stale.len() == stale_lines
        }
        Err(_) => false,
    }
}

/// Whether the pairs that lines name are found by their numbers, in the order of the line.
fn names(alloc: Global, table: &Table) -> bool {
    excuses(alloc, table, "# none\n", 0, &[], &[])
        && excuses(alloc, table, "rule x 1-12 / rule a 1\n", 0, &[(2, 0)], &[])
        && excuses(
            alloc,
            table,
            "rule a 1 / rule b 12\nrule a 1 / rule y 12\nrule a 1 / rule a 1",
            1,
            &[(0, 1), (0, 0)],
            &[],
        )
        && excuses(alloc, table, "exchange xa\n", 0, &[], &[(0, 2)])
        && excuses(
            alloc,
            table,
            "exchange ab\nrule a 1 / rule y 12\n",
            2,
            &[],
            &[],
        )
}

/// Whether the line of a pair is written and read, and another is stale.
fn reads(alloc: Global, table: &Table) -> Result<bool, Fail> {
    let sets = sets_of(alloc, &[])?;
    let known = Nameable::new(table, &[], sets.as_slice());
    let text = write_accepted(alloc, known, ONE)?;
    let turned = "# both\n\nrule x 1-12 / rule a 1\r\n";
    let stale = "rule a 1 / rule b 12\n";
    Ok(
        text.as_str() == "rule a 1 / rule x 1-12\n"
            && excuses_one(alloc, known, text.as_str())
            && excuses_one(alloc, known, turned)
            && has_stale(
                alloc,
                known,
                "#\nrule a 1\n\nrule a 1 / rule x 1-12",
                (
                    ExcuseFaultKind::NoSuchRules,
                    2,
                    "#\n\nrule a 1 / rule x 1-12\n",
                ),
            )
            && has_stale(alloc, known, stale, (ExcuseFaultKind::NotListed, 1, ""))
            && has_stale(
                alloc,
                known,
                "exchange ax",
                (ExcuseFaultKind::NoSuchSet, 1, ""),
            ),
    )
}

/// Whether the line of a set is written in place of its pair, and read.
fn reads_sets(alloc: Global, table: &Table) -> Result<bool, Fail> {
    let sets = sets_of(alloc, &["bb", "ax"])?;
    let known = Nameable::new(table, &[], sets.as_slice());
    read_back_law(known);
    let text = write_accepted(alloc, known, ONE)?;
    Ok(
        text.as_str() == "exchange ax\n"
            && excuses_one(alloc, known, text.as_str())
            && excuses_one(alloc, known, "#\nexchange xa\r\n")
            && has_stale(
                alloc,
                known,
                "exchange ab\n",
                (ExcuseFaultKind::NoSuchSet, 1, ""),
            )
            && has_stale(
                alloc,
                known,
                "exchange ax\nexchange a\n",
                (ExcuseFaultKind::NoSuchSet, 2, "exchange ax\n"),
            ),
    )
}

#[test]
fn calls_of_excused_pairs(rt: HostRuntime) -> Result<(), Fail> {
    let table = table_of(rt.alloc(), "letter a 1; letter b 12; letter x 1-12")?;
    assert!(rt; reads(rt.alloc(), &table)?);
    assert!(rt; reads_sets(rt.alloc(), &table)?);
    assert!(rt; names(rt.alloc(), &table));
    Ok(())
}

//! Which seed is drawn from what. A set whose seed doesn't depend on all that it is filled from can
//! be filled with members of one hash.
use crate::tests::machines::clashes::clashes_of;
use brl_cert::{Cert, read_cert};
use brl_pairs::Seed;
use brl_rules::Table;
use brl_search::{ClashList, Found, search, seed_of};
use brl_testing::{bytes_of, for_rows_of_2, for_rows_of_3, table_of};
use std::alloc::Global;
use std::test::Fail;

/// Whether two seeds are one.
fn are_one(one: Seed, other: Seed) -> bool {
    one.start == other.start && one.point == other.point
}

/// The lines of two tables, and whether they have one seed.
const TABLES: &str = "\
|letter a 1|false
letter a 1|letter a 1|true
letter a 1|# A comment.; letter a 1|true
letter a 1|letter b 1|false
letter a 1|letter a 12|false
letter a 1|letter a 1-1|false
letter a 1|sign a 1|false
letter a 1|lowercase a 1|false
letter a 1|letter a 1; letter b 1|false
letter a 1|letter a 1; always a 1|false
digit 1 1|litdigit 1 1|false
letter a 1; letter b 12|letter b 12; letter a 1|false
uplow Aa 1; lowercase b 1|uppercase A 1; lowercase a 1; lowercase b 1|false
letter a 1; always aa 2|letter a 1; always aaa 2|false
letter a 1; always aa 2|letter a 1; always aa 3|false
letter a 1; always aa 2|letter a 1; word aa 2|false
letter a 1; always aa 2|letter a 1; always aa 2; always aa 3|false
letter a 1; word aa 2; word aaa 3|letter a 1; word aa 3; word aaa 2|false
letter a 1|letter a 1; capsletter 6|false
letter a 1; capsletter 6|letter a 1; capsletter 5|false
letter a 1; capsletter 6|letter a 1; numsign 6|false
letter a 1|letter a 1; numericnocontchars a|false
letter a 1|letter a 1; numericmodechars a|false
";

/// The seed of a table with these lines.
fn seed_of_lines(alloc: Global, lines: &str) -> Result<Seed, Fail> {
    let table = table_of(alloc, lines)?;
    Ok(seed_of(alloc, &table)?)
}

/// Whether two tables have one seed.
fn have_one(alloc: Global, one: &str, other: &str) -> Result<String, Fail> {
    let have = are_one(seed_of_lines(alloc, one)?, seed_of_lines(alloc, other)?);
    Ok(have.to_string(alloc)?)
}

#[test]
fn tables_have_seeds_of_their_own(rt: HostRuntime) -> Result<(), Fail> {
    for_rows_of_3(rt.alloc(), TABLES, have_one)
}

/// The seed by which the pairs of a search are found, where it ended with a certificate.
fn seed_of_found(found: &Found) -> Option<Seed> {
    match found {
        Found::Certified(Cert::Word(body)) => Some(body.pairs().seed()),
        _ => None,
    }
}

/// The seed of the certificate that the search of a table finds.
fn seed_of_search(alloc: Global, table: &Table) -> Result<Option<Seed>, Fail> {
    let found = search(alloc, table, 1000)?;
    Ok(seed_of_found(&found))
}

/// The seed by which the pairs of a list of clashes are found, where it is whole.
fn seed_of_whole(found: &ClashList) -> Option<Seed> {
    match found {
        ClashList::Complete { body, .. } => Some(body.pairs().seed()),
        ClashList::Partial { .. } => None,
    }
}

/// The seed of the states and pairs of a table's list of clashes.
fn seed_of_list(alloc: Global, table: &Table) -> Result<Option<Seed>, Fail> {
    let found = clashes_of(alloc, table)?;
    Ok(seed_of_whole(&found))
}

/// Whether it is the seed of the table, in a word.
fn word_of(found: Option<Seed>, seed: Seed) -> &'static str {
    match found {
        Some(found) if are_one(found, seed) => "its seed",
        Some(_) => "another",
        None => "nothing",
    }
}

/// A table's lines, and by which seeds a search and a list of its clashes find pairs.
const SEARCHES: &str = "\
letter a 1; letter b 12|its seed, its seed
letter a 1; letter b 12; always ab 14|its seed, its seed
letter a 1; letter b 1|nothing, its seed
";

/// By which seeds a search of a table and a list of its clashes find pairs.
fn seeds_of_searches(alloc: Global, table: &Table) -> Result<String, Fail> {
    let seed = seed_of(alloc, table)?;
    let one = word_of(seed_of_search(alloc, table)?, seed);
    let other = word_of(seed_of_list(alloc, table)?, seed);
    Ok(format!(in alloc; "{one}, {other}")?)
}

fn searched(alloc: Global, lines: &str) -> Result<String, Fail> {
    let table = table_of(alloc, lines)?;
    seeds_of_searches(alloc, &table)
}

#[test]
fn searches_have_the_seed_of_their_table(rt: HostRuntime) -> Result<(), Fail> {
    for_rows_of_2(rt.alloc(), SEARCHES, searched)
}

/// The bytes of a certificate, and the first two numbers of eight bytes of their SHA-256 digest,
/// the lowest byte first, by `hashlib` of Python.
const CERTIFICATES: &str = "\
BRLCERT 1;state 1 0 0 -;state 8 0 0 61;state 8 0 1 -;pair 1 2 -;end 3 1;|9017616435355914454 10065194522116914293
BRLCERT 2;state 1 0;end 1 0;|15771742098030158040 5586134347333978181
BRLCERT 3;state 1 0 0;end 1 0;|4555018169821877281 428698979534815891
BRLCERT 3;state 1 0 0;state 8 0 0;end 2 0;|13216932316219128990 3004902575095185831
";

/// The seed by which the pairs of a certificate are found.
fn seed_of_cert(cert: &Cert) -> Seed {
    match cert {
        Cert::Window(listed) => listed.body().pairs().seed(),
        Cert::Dues(listed) => listed.body().pairs().seed(),
        Cert::Word(body) => body.pairs().seed(),
    }
}

fn read(alloc: Global, field: &str) -> Result<String, Fail> {
    let bytes = bytes_of(alloc, field)?;
    let cert = read_cert(alloc, bytes.as_slice())?;
    let Seed { start, point } = seed_of_cert(&cert);
    Ok(format!(in alloc; "{start} {point}")?)
}

#[test]
fn certificates_have_the_seed_of_their_bytes(rt: HostRuntime) -> Result<(), Fail> {
    for_rows_of_2(rt.alloc(), CERTIFICATES, read)
}

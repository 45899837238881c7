//! Worked certificates, as bytes that are read and written.
use brl_cells::{Cell, Cells};
use brl_cert::{Cert, CertFault, CertFaultKind, read_cert, write_cert};
use brl_failure::Failure;
use brl_pairs::{Body, Members, Pair, Seed};
use brl_testing::{bytes_of, for_rows_of_2};
use std::alloc::Global;
use std::hash::{BuildHasher, Hash};
use std::test::Fail;

/// Bytes, and what reading them gives: a certificate, or the fault that they are refused with.
const READINGS: &str = "\
BRLCERT 1;state 1 0 0 -;state 8 0 0 61;state 8 0 1 -;pair 1 2 -;end 3 1;|certificate
BRLCERT 1;state 1 0 0 -;end 1 0;|certificate
BRLCERT 1;end 0 0;|certificate
BRLCERT 1;state 1 0 0 -;state 8 0 0 61;state 8 0 1 -;pair 2 1 -;end 3 1;|certificate
BRLCERT 1;state 1 0 0 -;state 8 0 0 61;state 8 0 1 -;pair 1 2 -;pair 2 1 -;end 3 2;|certificate
BRLCERT 1;state 255 1 1 61.1f600.10ffff;pair 0 0 0-12345678;end 1 1;|certificate
|K8 Truncated line 1
BRLCERT 1|K8 Truncated line 1
BRLCERT 1;state 1 0 0 -;state 8 0 0 61;state 8 0 1 -;pair 1 2 -;end 3 1|K8 Truncated line 6
BRLCERT 1;state 1 0 0 -;state 8 0 0 61;state 8 0 1 -;pair 1 2 -;end 3 1;x|K2 Syntax line 7
BRLCERT 1;state 1 0 0 -;state 8 0 0 61;state 8 0 1 -;pair 1 2 -;end 3 1;;|K2 Syntax line 7
BRLCERT;state 1 0 0 -;state 8 0 0 61;state 8 0 1 -;pair 1 2 -;end 3 1;|K2 Syntax line 1
BRLCERT 1;state 1 0 0 -\r;state 8 0 0 61;state 8 0 1 -;pair 1 2 -;end 3 1;|K2 Syntax line 2
BRLCERT 1;state 1 0 0 -;state 8 0 0 61;state 8 0 1 -;pair 1 2 -;|K8 Truncated line 6
BRLCERT 1;state 01 0 0 -;state 8 0 0 61;state 8 0 1 -;pair 1 2 -;end 3 1;|K3 NotCanonical line 2
BRLCERT 1;state 1 0 0 -;state 8 0 0 061;state 8 0 1 -;pair 1 2 -;end 3 1;|K3 NotCanonical line 3
BRLCERT 1;state 1 0 0 -;state 8 0 0 6A;state 8 0 1 -;pair 1 2 -;end 3 1;|K3 NotCanonical line 3
BRLCERT 1;state 1 0 0 -;state 8 0 0 d800;state 8 0 1 -;pair 1 2 -;end 3 1;|K2 Syntax line 3
BRLCERT 1;state 1 0 0 -;state 8 00 0 61;state 8 0 1 -;pair 1 2 -;end 3 1;|K2 Syntax line 3
BRLCERT 1;state 1 0 0 -;state 256 0 0 61;state 8 0 1 -;pair 1 2 -;end 3 1;|K2 Syntax line 3
BRLCERT 1;state 1 0 0 -;state 8  0 0 61;state 8 0 1 -;pair 1 2 -;end 3 1;|K2 Syntax line 3
BRLCERT 1;state 1 0 0 -;state 8 0 0 61;state 8 0 0 61;state 8 0 1 -;pair 1 2 -;end 3 1;|K4 DuplicateState line 4
BRLCERT 1;state 1 0 0 -;state 8 0 0 61;state 8 0 1 -;pair 1 2 -;pair 1 2 -;end 3 1;|K5 DuplicatePair line 6
BRLCERT 1;state 1 0 0 -;state 8 0 0 61;state 8 0 1 -;pair 1 3 -;end 3 1;|K6 NoSuchState line 5
BRLCERT 1;state 1 0 0 -;state 8 0 0 61;state 8 0 1 -;pair 1 3 -;pair 1 3 -;end 3 1;|K6 NoSuchState line 5
BRLCERT 1;state 1 0 0 -;state 8 0 0 61;state 8 0 1 -;pair 1 2 21;end 3 1;|K3 NotCanonical line 5
BRLCERT 1;state 1 0 0 -;state 8 0 0 61;state 8 0 1 -;pair 1 2 11;end 3 1;|K2 Syntax line 5
BRLCERT 1;state 1 0 0 -;state 8 0 0 61;state 8 0 1 -;pair 4294967296 0 -;end 3 1;|K2 Syntax line 5
BRLCERT 1;state 1 0 0 -;state 8 0 0 61;state 8 0 1 -;pair 1 2 -;end 3 2;|K7 WrongCount line 6
BRLCERT 1;state 1 0 0 -;state 8 0 0 61;state 8 0 1 -;pair 1 2 -;end 3 1 ;|K2 Syntax line 6
BRLCERT 1;state 1 0 0 -;state 8 0 0 61;state 8 0 1 -;pair 1 2 -;state 9 0 0 -;end 3 1;|K2 Syntax line 6
BRLCERT 1;state 1 0 0 -;state 8 0 0 61;state 8 0 1 -;pair 1 2 -;end 3 1;;|K2 Syntax line 7
BRLCERT 9;state 1 0 0 -;state 8 0 0 61;state 8 0 1 -;pair 1 2 -;end 3 1;|K1 Version line 1
BRLCERT 09;state 1 0 0 -;state 8 0 0 61;state 8 0 1 -;pair 1 2 -;end 3 1;|K3 NotCanonical line 1
BRLCERT 4294967296;state 1 0 0 -;state 8 0 0 61;state 8 0 1 -;pair 1 2 -;end 3 1;|K2 Syntax line 1
BRLCERT 1;state 1 0;end 1 0;|K2 Syntax line 2
";

/// Certificates of versions 2 and 3, and how they are read.
const READINGS_OF_DUES: &str = "\
BRLCERT 2;state 1 0;state 8 0;state 8 0 b62*;pair 1 2 12;end 3 1;|certificate
BRLCERT 2;state 1 0;end 1 0;|certificate
BRLCERT 2;end 0 0;|certificate
BRLCERT 2;state 8 0 n+3;state 8 0 n+3 b75.74+3;state 8 0 n-3 b75.74+3;end 3 0;|certificate
BRLCERT 2;state 255 1 n+0 n+255 n-0 b9* b9+3 b9-3 b9.a* b9.a.b+255 b1f600* b10ffff*;end 1 0;|certificate
BRLCERT 2;state 1 0;state 8 0;state 8 0 b62*;pair 1 2 12;|K8 Truncated line 6
BRLCERT 2;state 1 0;state 8 0;state 8 0 b62*;pair 1 2 12;end 3 1 ;|K2 Syntax line 6
BRLCERT 2;state 01 0;state 8 0;state 8 0 b62*;pair 1 2 12;end 3 1;|K3 NotCanonical line 2
BRLCERT 2;state 1 0;state 8 0;state 8 0 b62*;pair 1 2 21;end 3 1;|K3 NotCanonical line 5
BRLCERT 2;state 1 0;state 8 0;state 8 0 b62*;pair 1 2 12;end 3 2;|K7 WrongCount line 6
BRLCERT 9;state 1 0;state 8 0;state 8 0 b62*;pair 1 2 12;end 3 1;|K1 Version line 1
BRLCERT 2;state 1 0;state 8 0;state 8 0 b62*;pair 1 3 12;end 3 1;|K6 NoSuchState line 5
BRLCERT 2;state 1 0;state 8 0;state 8 0;state 8 0 b62*;pair 1 2 12;end 3 1;|K4 DuplicateState line 4
BRLCERT 2;state 1 0;state 8 0;state 8 0 b62*;pair 1 2 12;pair 1 2 12;end 3 1;|K5 DuplicatePair line 6
BRLCERT 02;state 1 0;end 1 0;|K3 NotCanonical line 1
BRLCERT 4;state 1 0 0;end 1 0;|K1 Version line 1
BRLCERT 3;state 1 0 0;end 1 0;|certificate
BRLCERT 3;state 1 0 0;state 8 0 0;end 2 0;|certificate
BRLCERT 3;state 40 1 1 n+8 b61.62*;state 40 1 0 n+8 b61.62*;pair 0 1 12;end 2 1;|certificate
BRLCERT 3;state 1 0;end 1 0;|K2 Syntax line 2
BRLCERT 3;state 1 0 n+8;end 1 0;|K2 Syntax line 2
BRLCERT 3;state 1 0 2;end 1 0;|K2 Syntax line 2
BRLCERT 3;state 1 0 00;end 1 0;|K2 Syntax line 2
BRLCERT 3;state 1 0 1 n*;end 1 0;|K2 Syntax line 2
BRLCERT 3;state 1 0 1;state 1 0 1;end 2 0;|K4 DuplicateState line 3
BRLCERT 2;state 1 0 0;end 1 0;|K2 Syntax line 2
BRLCERT 2;state 1 0 0 -;end 1 0;|K2 Syntax line 2
BRLCERT 2;state 256 0;end 1 0;|K2 Syntax line 2
BRLCERT 2;state 1 00;end 1 0;|K2 Syntax line 2
BRLCERT 2;state 1;end 1 0;|K2 Syntax line 2
BRLCERT 2;state 1 0 ;end 1 0;|K2 Syntax line 2
BRLCERT 2;state 1 0 n*;end 1 0;|K2 Syntax line 2
BRLCERT 2;state 1 0 n;end 1 0;|K2 Syntax line 2
BRLCERT 2;state 1 0 n3;end 1 0;|K2 Syntax line 2
BRLCERT 2;state 1 0 n+;end 1 0;|K2 Syntax line 2
BRLCERT 2;state 1 0 n+256;end 1 0;|K2 Syntax line 2
BRLCERT 2;state 1 0 n-0256;end 1 0;|K2 Syntax line 2
BRLCERT 2;state 1 0 n+3*;end 1 0;|K2 Syntax line 2
BRLCERT 2;state 1 0 n61+3;end 1 0;|K2 Syntax line 2
BRLCERT 2;state 1 0 +3;end 1 0;|K2 Syntax line 2
BRLCERT 2;state 1 0 c61+3;end 1 0;|K2 Syntax line 2
BRLCERT 2;state 1 0 b61;end 1 0;|K2 Syntax line 2
BRLCERT 2;state 1 0 b*;end 1 0;|K2 Syntax line 2
BRLCERT 2;state 1 0 b+3;end 1 0;|K2 Syntax line 2
BRLCERT 2;state 1 0 b61.*;end 1 0;|K2 Syntax line 2
BRLCERT 2;state 1 0 b61*3;end 1 0;|K2 Syntax line 2
BRLCERT 2;state 1 0 b61-256;end 1 0;|K2 Syntax line 2
BRLCERT 2;state 1 0 bd800*;end 1 0;|K2 Syntax line 2
BRLCERT 2;state 1 0 b110000*;end 1 0;|K2 Syntax line 2
BRLCERT 2;state 1 0 n+03;end 1 0;|K3 NotCanonical line 2
BRLCERT 2;state 1 0 b061*;end 1 0;|K3 NotCanonical line 2
BRLCERT 2;state 1 0 b6A*;end 1 0;|K3 NotCanonical line 2
BRLCERT 2;state 1 0 n+3 n+3;end 1 0;|K3 NotCanonical line 2
BRLCERT 2;state 1 0 b61* b62* b61*;end 1 0;|K3 NotCanonical line 2
BRLCERT 2;state 1 0 b61* n+3;end 1 0;|K3 NotCanonical line 2
BRLCERT 2;state 1 0 n-3 n+4;end 1 0;|K3 NotCanonical line 2
BRLCERT 2;state 1 0 n+4 n+3;end 1 0;|K3 NotCanonical line 2
BRLCERT 2;state 1 0 b62* b61.63*;end 1 0;|K3 NotCanonical line 2
BRLCERT 2;state 1 0 b61.62* b61*;end 1 0;|K3 NotCanonical line 2
BRLCERT 2;state 1 0 b61+3 b61*;end 1 0;|K3 NotCanonical line 2
BRLCERT 2;state 1 0 b61-3 b61+4;end 1 0;|K3 NotCanonical line 2
";

/// What reading the bytes of a field gives. A certificate counts where it is written as the same
/// bytes.
fn read(alloc: Global, field: &str) -> Result<String, Fail> {
    let bytes = bytes_of(alloc, field)?;
    match read_cert(alloc, bytes.as_slice()) {
        Ok(cert) => written(alloc, &cert, bytes.as_slice()),
        Err(fault) => Ok(fault.to_string(alloc)?),
    }
}

fn written(alloc: Global, cert: &Cert, bytes: &[u8]) -> Result<String, Fail> {
    let written = write_cert(alloc, cert)?;
    let answer = if written.as_slice() == bytes {
        "certificate"
    } else {
        "other bytes"
    };
    Ok(String::from_str(alloc, answer)?)
}

#[test]
fn reads_and_writes_the_worked_certificates(rt: HostRuntime) -> Result<(), Fail> {
    for_rows_of_2(rt.alloc(), READINGS, read)?;
    for_rows_of_2(rt.alloc(), READINGS_OF_DUES, read)
}

/// The bytes of a certificate whose one lead has `more` cells after its first.
fn with_lead(alloc: Global, more: usize) -> Result<String, Fail> {
    let mut text = String::from_str(alloc, "BRLCERT 1\nstate 1 0 0 -\npair 0 0 1")?;
    for _ in 0..more {
        text.push_str("-1")?;
    }
    text.push_str("\nend 1 1\n")?;
    Ok(text)
}

/// The fault of that certificate, if it has one.
fn fault_of_lead(alloc: Global, more: usize) -> Result<Option<Failure<CertFault>>, Fail> {
    let text = with_lead(alloc, more)?;
    Ok(read_cert(alloc, text.as_bytes()).err())
}

#[test]
fn takes_leads_of_1024_cells(rt: HostRuntime) -> Result<(), Fail> {
    let alloc = rt.alloc();
    assert!(rt; fault_of_lead(alloc, 1023)?.is_none());
    let fault = CertFault {
        kind: CertFaultKind::Syntax,
        line: 3,
    };
    assert!(rt; fault_of_lead(alloc, 1024)? == Some(Failure::Fault(fault)));
    Ok(())
}

/// The hash of a value by the seed of `abc`.
fn hash_of<T: Hash + Drop>(value: T) -> u64 {
    Seed::of(b"abc").hash_one(value)
}

/// Values from a plain program: the digest of `abc` is the standard's, and the polynomial is worked
/// out with whole numbers.
#[test]
fn hashes_are_those_of_a_plain_program(rt: HostRuntime) {
    let seed = Seed::of(b"abc");
    assert!(rt; seed.start == 0xeacf_018f_bf16_78ba && seed.point == 0x2322_ae5d_de40_4141);
    assert!(rt; hash_of(5u32) == 1_767_753_508_547_642_600);
    assert!(rt; hash_of((3u8, 'A')) == 464_245_224_770_684_860);
}

/// Whether 3 and 5 are added once each.
fn adds(members: &mut Members<u32>) -> Result<bool, Fail> {
    Ok(members.insert(3)? && !members.insert(3)? && members.insert(5)?)
}

/// Whether these are 3 and 5.
fn are_3_and_5(members: &Members<u32>) -> bool {
    members.len() == 2
        && members.index_of(&5) == Some(1)
        && members.index_of(&4).is_none()
        && members.contains(&3)
        && !members.contains(&4)
        && members.get(0).copied() == Some(3)
        && members.as_slice() == [3, 5].as_slice()
}

/// The members 3 and 5.
fn states(alloc: Global) -> Result<Members<u32>, Fail> {
    let mut states = Members::new(alloc, Seed::of(b"members"));
    if adds(&mut states)? {
        Ok(states)
    } else {
        Err(Fail::from("a member is added twice or not at all"))
    }
}

/// One pair, from the first of two states to the second.
fn pairs(alloc: Global) -> Result<Members<Pair<u32>>, Fail> {
    let mut pairs = Members::new(alloc, Seed::of(b"members"));
    let lead = Cells::from_slice(alloc, &[Cell(1)])?;
    let pair = Pair {
        ahead: 0,
        behind: 1,
        lead,
    };
    if pairs.insert(pair)? {
        Ok(pairs)
    } else {
        Err(Fail::from("the pair isn't added"))
    }
}

/// Whether a body lists the states 3 and 5, and the pair of them.
fn lists_both(body: &Body<u32>) -> bool {
    let Some(pair) = body.pairs().get(0) else {
        return false;
    };
    body.states() == [3, 5].as_slice()
        && body.state_count() == 2
        && body.pair_count() == 1
        && body.number_of(&5) == Some(1)
        && body.number_of(&4).is_none()
        && body.has_state(&3)
        && !body.has_state(&4)
        && *body.states_of(pair).0 == 3
        && *body.states_of(pair).1 == 5
}

/// Whether these states and a pair of them make a body.
fn make_a_body(alloc: Global, states: Members<u32>) -> Result<bool, Fail> {
    let pairs = pairs(alloc)?;
    match Body::from_parts(states, pairs) {
        Some(body) => Ok(lists_both(&body)),
        None => Ok(false),
    }
}

#[test]
fn makes_a_body_of_members(rt: HostRuntime) -> Result<(), Fail> {
    let alloc = rt.alloc();
    assert!(rt; are_3_and_5(&states(alloc)?));
    assert!(rt; make_a_body(alloc, states(alloc)?)?);
    Ok(())
}

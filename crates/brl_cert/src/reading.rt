//! Reading certificates, and the laws of their spelling.
ghost use Rattle.std.specs.Prelude.{◌≡◌, ◌≤◌, ◌∷◌, [], ℕ, List, length, map, IfErr, IfOk, IfSome, OnOk, Ok};
ghost use Rattle.brl_cert.specs.Lines.{body_of, placed};
ghost use Rattle.brl_failure.specs.Failure.{Gives, IsFaultOf};
ghost use Rattle.brl_cert.specs.Reading.{empty_body, header_of, lenient_header, reading, spelling, version_of};
ghost use Rattle.brl_cert.specs.Valid.{IsCertificate};
ghost use Rattle.brl_states.specs.declared.cert.Cert.{Cert as Certificate};
ghost use Rattle.brl_states.specs.CapsFree.{AreCapsFree};
ghost use Rattle.brl_cert.specs.Dues.{dues_format};
ghost use Rattle.brl_cert.specs.Window.{window_format};
ghost use Rattle.brl_states.specs.declared.dues_state.DuesState.{DuesState};
ghost use Rattle.brl_pairs.specs.Body.{BodyView};
ghost use Rattle.brl_states.specs.declared.window_state.WindowState.{WindowState};

use crate::field::{parts_of, push_number};
use crate::reader::Reader;
use crate::{Cert, CertFault, CertFaultKind, Version, Version1, Version2, Version3};
use brl_cells::{cells_are_read, spelled_cells_are_read};
use brl_failure::Failure;
use brl_lines::read_number;
use brl_pairs::{Body, Seed};
use brl_states::{CapsFree, order_law};
use std::alloc::Global;

/// The laws of certificates, for the crates above: each certificate is read from its spelling, and
/// from no other bytes; and what is read is a certificate.
pub fn certificate_laws()
    ensures read_back { (cert : Certificate) → IsCertificate cert → reading (spelling cert) ≡ Ok cert }
    ensures one_spelling { (bytes : List ℕ) (cert : Certificate) → reading bytes ≡ Ok cert → spelling cert ≡ bytes }
    ensures is_certificate { (bytes : List ℕ) (cert : Certificate) → reading bytes ≡ Ok cert → IsCertificate cert }
{
    spelled_cells_are_read();
    cells_are_read();
    order_law();
}

/// The law of versions 1 and 2: no run of capitals goes to a state that is read.
fn caps_free_laws()
    ensures windows { (parts : List (List ℕ)) (body : BodyView WindowState) → body_of window_format 2 empty_body parts ≡ Ok body →
        AreCapsFree (λ (s : WindowState). s.run) body.states }
    ensures dues { (parts : List (List ℕ)) (body : BodyView DuesState) → body_of dues_format 2 empty_body parts ≡ Ok body →
        AreCapsFree (λ (s : DuesState). s.run) body.states }
{
    cells_are_read();
    order_law();
}

/// The version of the two lenient fields of a header.
fn read_version(word: &[u8], version: &[u8]) -> Option<u64>
    ensures version { result ≡ lenient_header (word.now ∷ version.now ∷ []) }
    ensures limited { IfSome result (λ n. n ≤ 4294967295) }
{
    if word == b"BRLCERT".as_slice() {
        read_number(version, 10, 4_294_967_295)
    } else {
        None
    }
}

/// The version of the lenient fields of a header.
fn read_version_fields(fields: &[&[u8]]) -> Option<u64>
    ensures version { result ≡ lenient_header (map (λ field. field.now) fields.now) }
    ensures limited { IfSome result (λ n. n ≤ 4294967295) }
{
    let [word, version] = fields else {
        return None;
    };
    read_version(word, version)
}

/// The version that a header names.
fn read_header(alloc: Global, bytes: &[u8]) -> Result<u64, Failure<CertFault>>
    ensures version { IfOk result (λ version. placed 1 (header_of bytes.now) ≡ Ok version) }
    ensures fault { IfErr result (IsFaultOf (placed 1 (header_of bytes.now))) }
{
    let fields = parts_of(alloc, bytes, b' ')?;
    let Some(version) = read_version_fields(fields.as_slice()) else {
        return Err(CertFaultKind::Syntax.at(1));
    };
    let mut spelled = Vec::from_slice(alloc, b"BRLCERT ")?;
    push_number(&mut spelled, version as u32)?;
    if spelled.as_slice() == bytes {
        Ok(version)
    } else {
        Err(CertFaultKind::NotCanonical.at(1))
    }
}

/// Takes the lines after a header. The parts are these lines and, last, the bytes after the last
/// line feed.
fn take_lines<V: Version>(
    alloc: Global,
    reader: &mut Reader<V>,
    parts: &[&[u8]],
) -> Result<(), Failure<CertFault>>
    requires { 1 ≤ length parts.now }
    ensures body { OnOk result (body_of V.form 2 reader.old (map (λ part. part.now) parts.now) ≡ Ok reader.new) }
    ensures few_states { OnOk result (length reader.new.states ≤ 4294967295) }
    ensures few_pairs { OnOk result (length reader.new.pairs ≤ 4294967295) }
    ensures fault { IfErr result (IsFaultOf (body_of V.form 2 reader.old (map (λ part. part.now) parts.now))) }
{
    let last = parts.len() - 1;
    for place in 0..last {
        let number = place as u64 + 2;
        if reader.take_line(alloc, number, parts[place])? {
            if place + 1 < last {
                return Err(CertFaultKind::Syntax.at(number + 1));
            }
            if !parts[last].is_empty() {
                return Err(CertFaultKind::Syntax.at(number + 1));
            }
            return Ok(());
        }
    }
    Err(CertFaultKind::Truncated.at(parts.len() as u64 + 1))
}

/// The body of the lines after a header, parts like those of `take_lines`.
fn read_body<V: Version>(
    alloc: Global,
    seed: Seed,
    parts: &[&[u8]],
) -> Result<Body<V::State>, Failure<CertFault>>
    requires { 1 ≤ length parts.now }
    ensures body { IfOk result (λ body. body_of V.form 2 empty_body (map (λ part. part.now) parts.now) ≡ Ok body) }
    ensures fault { IfErr result (IsFaultOf (body_of V.form 2 empty_body (map (λ part. part.now) parts.now))) }
{
    let mut reader = Reader::<V>::new(alloc, seed);
    take_lines(alloc, &mut reader, parts)?;
    Ok(reader.into_body())
}

/// The certificate of the lines after a header of this version.
fn read_version_lines(
    alloc: Global,
    seed: Seed,
    version: u64,
    parts: &[&[u8]],
) -> Result<Cert, Failure<CertFault>>
    requires { 1 ≤ length parts.now }
    ensures { Gives (version_of version (map (λ part. part.now) parts.now)) result }
{
    caps_free_laws();
    match version {
        1 => {
            let body = read_body::<Version1>(alloc, seed, parts)?;
            Ok(Cert::Window(CapsFree::new(body)))
        }
        2 => {
            let body = read_body::<Version2>(alloc, seed, parts)?;
            Ok(Cert::Dues(CapsFree::new(body)))
        }
        3 => Ok(Cert::Word(read_body::<Version3>(alloc, seed, parts)?)),
        _ => Err(CertFaultKind::Version.at(1)),
    }
}

/// The certificate of the lines of bytes. Its states and pairs are found by hashes of a seed that
/// is drawn from all the bytes, so that nobody can choose states that have one hash.
fn read_lines(alloc: Global, bytes: &[u8]) -> Result<Cert, Failure<CertFault>>
    ensures { Gives (reading bytes.now) result }
{
    let parts = parts_of(alloc, bytes, b'\n')?;
    let [header, rest @ ..] = parts.as_slice() else {
        return Err(CertFaultKind::Truncated.at(1));
    };
    if rest.is_empty() {
        return Err(CertFaultKind::Truncated.at(1));
    }
    let version = read_header(alloc, header)?;
    read_version_lines(alloc, Seed::of(bytes), version, rest)
}

/// The certificate that bytes spell; else the fault of the first faulty line, with its number from
/// 1.
///
/// Otherwise the fault is that of the first faulty line, with its number from 1. The faults of a
/// line are tested in this order: `Truncated` where no line feed ends it; `Syntax` where it isn't,
/// even leniently, a line that may come here; `NotCanonical` where it isn't in its one spelling;
/// then `Version` in the header, `DuplicateState` in a state line, `NoSuchState` and
/// `DuplicatePair` in a pair line, `WrongCount` in the end line.
pub fn read_cert(alloc: Global, bytes: &[u8]) -> Result<Cert, Failure<CertFault>>
    ensures cert { Gives (reading bytes.now) result }
    // The bytes are the certificate's one spelling.
    ensures spelled { IfOk result (λ cert. spelling cert ≡ bytes.now) }
{
    certificate_laws();
    read_lines(alloc, bytes)
}

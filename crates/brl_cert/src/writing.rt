//! Writing certificates.
ghost use Rattle.std.specs.Prelude.{◌≡◌, ◌++◌, ◌∷◌, [], All, IfOk, OnOk, Ok, codes};
ghost use Rattle.std.specs.List.{flat_map, join_with_byte};
ghost use Rattle.brl_cells.specs.Dots.{AreCells};
ghost use Rattle.brl_cert.specs.Lines.{end_fields, pair_fields, spelled_body, spelled_line, whole_line};
ghost use Rattle.brl_cert.specs.Reading.{reading, spelling};
ghost use Rattle.brl_cert.specs.Valid.{IsBody};
ghost use Rattle.brl_pairs.specs.Body.{listed};
ghost use Rattle.brl_cert.specs.declared.line.Line.TheVariants.{State};

use crate::field::{push_lead, push_number};
use crate::line::Line;
use crate::{Cert, Version, Version1, Version2, Version3, certificate_laws};
use brl_pairs::{Body, Pair};
use std::alloc::{AllocError, Global};

/// Writes a state line without its line feed.
fn push_state<V: Version>(out: &mut Vec<u8>, state: &V::State) -> Result<(), AllocError>
    ensures written { OnOk result (out.new.items ≡ out.old.items ++ join_with_byte 32 (codes "state" ∷ V.form.fields state.now)) }
    ensures in_range { OnOk result (V.is_state state.now) }
{
    out.extend_from_slice(b"state")?;
    V::push_fields(out, state)
}

/// Writes a pair line without its line feed.
fn push_pair(alloc: Global, out: &mut Vec<u8>, pair: &Pair<u32>) -> Result<(), AllocError>
    ensures written { OnOk result (out.new.items ≡ out.old.items ++ join_with_byte 32 (pair_fields pair.now)) }
    ensures in_range { OnOk result (AreCells pair.now.lead) }
{
    out.extend_from_slice(b"pair ")?;
    push_number(out, pair.ahead)?;
    out.push(b' ')?;
    push_number(out, pair.behind)?;
    out.push(b' ')?;
    push_lead(alloc, out, pair.lead.as_slice())
}

/// Writes an end line without its line feed.
fn push_end(out: &mut Vec<u8>, states: u32, pairs: u32) -> Result<(), AllocError>
    ensures { OnOk result (out.new.items ≡ out.old.items ++ join_with_byte 32 (end_fields states pairs)) }
{
    out.extend_from_slice(b"end ")?;
    push_number(out, states)?;
    out.push(b' ')?;
    push_number(out, pairs)
}

/// Writes a line without its line feed.
pub fn push_line<V: Version>(
    alloc: Global,
    out: &mut Vec<u8>,
    line: &Line<V::State>,
) -> Result<(), AllocError>
    ensures { OnOk result (out.new.items ≡ out.old.items ++ spelled_line V.form line.now) }
{
    match line {
        Line::State(state) => push_state::<V>(out, state),
        Line::Pair(pair) => push_pair(alloc, out, pair),
        Line::End(states, pairs) => push_end(out, *states, *pairs),
    }
}

/// Writes the state lines.
fn push_states<V: Version>(out: &mut Vec<u8>, states: &[V::State]) -> Result<(), AllocError>
    ensures written { OnOk result (out.new.items ≡ out.old.items ++ flat_map (λ s. whole_line V.form (State s)) states.now) }
    ensures in_range { OnOk result (All V.is_state states.now) }
{
    for state in states {
        push_state::<V>(out, state)?;
        out.push(b'\n')?;
    }
    Ok(())
}

/// Writes the pair lines.
fn push_pairs(alloc: Global, out: &mut Vec<u8>, pairs: &[Pair<u32>]) -> Result<(), AllocError>
    ensures written { OnOk result (out.new.items ≡ out.old.items ++ flat_map (λ p. join_with_byte 32 (pair_fields p) ++ 10 ∷ []) pairs.now) }
    ensures in_range { OnOk result (All (λ p. AreCells p.lead) pairs.now) }
{
    for pair in pairs {
        push_pair(alloc, out, pair)?;
        out.push(b'\n')?;
    }
    Ok(())
}

/// Writes the lines after the header.
fn push_body<V: Version>(
    alloc: Global,
    out: &mut Vec<u8>,
    body: &Body<V::State>,
) -> Result<(), AllocError>
    ensures written { OnOk result (out.new.items ≡ out.old.items ++ spelled_body V.form body.now) }
    ensures in_range { OnOk result (IsBody V.form V.is_state body.now) }
{
    body.law();
    let states = body.states();
    let pairs = body.pairs().as_slice();
    push_states::<V>(out, states)?;
    push_pairs(alloc, out, pairs)?;
    push_end(out, states.len() as u32, pairs.len() as u32)?;
    out.push(b'\n')?;
    Ok(())
}

/// The bytes of a certificate that begins with this header.
fn write_version<V: Version>(
    alloc: Global,
    header: &[u8],
    body: &Body<V::State>,
) -> Result<Vec<u8>, AllocError>
    ensures written { IfOk result (λ bytes. bytes.items ≡ header.now ++ spelled_body V.form body.now) }
    ensures in_range { OnOk result (IsBody V.form V.is_state body.now) }
{
    let mut out = Vec::from_slice(alloc, header)?;
    push_body::<V>(alloc, &mut out, body)?;
    Ok(out)
}

/// Why a certificate isn't written: memory runs out.
pub type WriteFault = AllocError;

/// The one spelling of a certificate, which `read_cert` reads back.
pub fn write_cert(alloc: Global, cert: &Cert) -> Result<Vec<u8>, WriteFault>
    ensures spelled { IfOk result (λ bytes. bytes.items ≡ spelling cert.now) }
    // Reading them gives the certificate back.
    ensures read_back { IfOk result (λ bytes. reading bytes.items ≡ Ok cert.now) }
{
    certificate_laws();
    match cert {
        Cert::Window(listed) => write_version::<Version1>(alloc, b"BRLCERT 1\n", listed.body()),
        Cert::Dues(listed) => write_version::<Version2>(alloc, b"BRLCERT 2\n", listed.body()),
        Cert::Word(body) => write_version::<Version3>(alloc, b"BRLCERT 3\n", body),
    }
}

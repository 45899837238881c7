//! The lines after the header of a certificate, and reading one of them leniently.
ghost use Rattle.std.specs.Prelude.{◌≡◌, ◌∷◌, ◌==◌, [], map, IfOk, IfSome};
ghost use Rattle.std.specs.List.{slice_split};
ghost use Rattle.brl_cert.specs.Lines.{HasShortLead, lenient_end, lenient_line, lenient_pair};

use crate::Version;
use crate::field::{parts_of, read_lead};
use brl_lines::read_number;
use brl_pairs::Pair;
use std::alloc::{AllocError, Global};

/// A line after the header.
#[derive(Drop)]
pub enum Line<S> {
    /// A state.
    State(S),
    /// A pair.
    Pair(Pair<u32>),
    /// The end line: the numbers of states and pairs.
    End(u32, u32),
}

/// The greatest number of a state, and the greatest count.
const GREATEST: u64 = 4_294_967_295;

/// The pair of three lenient fields.
fn read_pair<V: Version>(
    alloc: Global,
    ahead: &[u8],
    behind: &[u8],
    lead: &[u8],
) -> Result<Option<Line<V::State>>, AllocError>
    ensures line { IfOk result (λ line. line ≡ lenient_pair V.form (ahead.now ∷ behind.now ∷ lead.now ∷ [])) }
    ensures lead { IfOk result (λ line. IfSome line HasShortLead) }
{
    let Some(ahead) = read_number(ahead, 10, GREATEST) else {
        return Ok(None);
    };
    let Some(behind) = read_number(behind, 10, GREATEST) else {
        return Ok(None);
    };
    let Some(lead) = read_lead(alloc, lead)? else {
        return Ok(None);
    };
    let (ahead, behind) = (ahead as u32, behind as u32);
    Ok(Some(Line::Pair(Pair {
        ahead,
        behind,
        lead,
    })))
}

/// The pair of lenient fields.
fn read_pair_fields<V: Version>(
    alloc: Global,
    fields: &[&[u8]],
) -> Result<Option<Line<V::State>>, AllocError>
    ensures line { IfOk result (λ line. line ≡ lenient_pair V.form (map (λ field. field.now) fields.now)) }
    ensures lead { IfOk result (λ line. IfSome line HasShortLead) }
{
    let [ahead, behind, lead] = fields else {
        return Ok(None);
    };
    read_pair::<V>(alloc, ahead, behind, lead)
}

/// The counts of two lenient fields.
fn read_end<V: Version>(states: &[u8], pairs: &[u8]) -> Option<Line<V::State>>
    ensures line { result ≡ lenient_end V.form (states.now ∷ pairs.now ∷ []) }
    ensures lead { IfSome result HasShortLead }
{
    let states = read_number(states, 10, GREATEST)?;
    let pairs = read_number(pairs, 10, GREATEST)?;
    Some(Line::End(states as u32, pairs as u32))
}

/// The counts of lenient fields.
fn read_end_fields<V: Version>(fields: &[&[u8]]) -> Option<Line<V::State>>
    ensures line { result ≡ lenient_end V.form (map (λ field. field.now) fields.now) }
    ensures lead { IfSome result HasShortLead }
{
    let [states, pairs] = fields else {
        return None;
    };
    read_end::<V>(states, pairs)
}

/// The line of its first word and the lenient fields after it.
fn read_fields<V: Version>(
    alloc: Global,
    word: &[u8],
    fields: &[&[u8]],
) -> Result<Option<Line<V::State>>, AllocError>
    ensures line { IfOk result (λ line. line ≡ lenient_line V.form (word.now ∷ map (λ field. field.now) fields.now)) }
    ensures lead { IfOk result (λ line. IfSome line HasShortLead) }
{
    if word == b"state".as_slice() {
        return match V::read_fields(alloc, fields)? {
            Some(state) => Ok(Some(Line::State(state))),
            None => Ok(None),
        };
    }
    if word == b"pair".as_slice() {
        return read_pair_fields::<V>(alloc, fields);
    }
    if word == b"end".as_slice() {
        return Ok(read_end_fields::<V>(fields));
    }
    Ok(None)
}

/// The line that bytes spell leniently.
pub fn read_line<V: Version>(
    alloc: Global,
    bytes: &[u8],
) -> Result<Option<Line<V::State>>, AllocError>
    ensures line { IfOk result (λ line. line ≡ lenient_line V.form (slice_split (λ b. b == 32) bytes.now)) }
    ensures lead { IfOk result (λ line. IfSome line HasShortLead) }
{
    let fields = parts_of(alloc, bytes, b' ')?;
    let [word, rest @ ..] = fields.as_slice() else {
        return Ok(None);
    };
    read_fields::<V>(alloc, word, rest)
}

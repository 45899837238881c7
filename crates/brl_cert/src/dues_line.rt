//! The states of certificates of versions 2 and 3.
ghost use Rattle.std.specs.Prelude.{◌≡◌, ◌<◌, ◌++◌, ◌∷◌, [], map, false, true, All, IfOk, IfSome, IsTrue, OnOk, option_map, if◌then◌else◌};
ghost use Rattle.std.specs.Fmt.{digits};
ghost use Rattle.std.specs.List.{join_with_byte};
ghost use Rattle.brl_cert.specs.Dues.{dues_fields, lenient_any, lenient_due as due_of_field, lenient_dues, lenient_head, lenient_parts, lenient_set, lenient_state, lenient_word, spelled_cond, spelled_due, word_fields};
ghost use Rattle.brl_cert.specs.Fields.{each, flag, is_char, number};
ghost use Rattle.brl_cert.specs.Lines.{after_blanks};
ghost use Rattle.brl_cert.specs.Valid.{HasSet, IsDue, IsDuesState};
ghost use Rattle.brl_states.specs.Order.{is_proper};
ghost use Rattle.brl_rules.specs.declared.place.Cond.TheVariants.{Meets, Avoids};

use crate::field::{
    parts_of, push_char, push_flag, push_more, push_number, read_between_points, read_context,
    read_flag,
};
use brl_lines::read_number;
use brl_rules::{Class, Cond};
use brl_states::{Due, DueList, DuesState};
use std::alloc::{AllocError, Global};

/// Writes a condition.
fn push_cond(out: &mut Vec<u8>, cond: Cond) -> Result<(), AllocError>
    ensures written { OnOk result (out.new.items ≡ out.old.items ++ spelled_cond cond) }
    ensures in_range { HasSet cond }
{
    match cond {
        Cond::Any => {
            out.push(b'*')?;
            Ok(())
        }
        Cond::Meets(set) => {
            out.push(b'+')?;
            push_number(out, u32::from(set.0))
        }
        Cond::Avoids(set) => {
            out.push(b'-')?;
            push_number(out, u32::from(set.0))
        }
    }
}

/// The due of a condition and the part before it.
fn read_head(alloc: Global, cond: Cond, head: &[u8]) -> Result<Option<Due>, AllocError>
    ensures { IfOk result (λ due. due ≡ lenient_head cond head.now) }
{
    match head {
        [b'n'] => Ok(Some(Due::Need(cond))),
        [b'b', rest @ ..] => {
            let chars = read_between_points(alloc, rest)?;
            Ok(chars.map(|chars| Due::Bar(chars, cond)))
        }
        _ => Ok(None),
    }
}

/// The due whose condition has a set, from the parts before and after the mark.
fn read_set(alloc: Global, avoids: bool, parts: &[&[u8]]) -> Result<Option<Due>, AllocError>
    ensures { IfOk result (λ due. due ≡ lenient_set (if avoids then Avoids else Meets) (map (λ part. part.now) parts.now)) }
{
    let [head, set] = parts else {
        return Ok(None);
    };
    let Some(number) = read_number(set, 10, 255) else {
        return Ok(None);
    };
    let set = Class(number as u8);
    let cond = if avoids {
        Cond::Avoids(set)
    } else {
        Cond::Meets(set)
    };
    read_head(alloc, cond, head)
}

/// The due whose condition is `Any`, from the parts before and after the star; the latter is empty.
fn read_any(alloc: Global, parts: &[&[u8]]) -> Result<Option<Due>, AllocError>
    ensures { IfOk result (λ due. due ≡ lenient_any (map (λ part. part.now) parts.now)) }
{
    let [head, set] = parts else {
        return Ok(None);
    };
    if !set.is_empty() {
        return Ok(None);
    }
    read_head(alloc, Cond::Any, head)
}

/// Whether a due requires anything.
fn asks(due: &Due) -> bool
    ensures { result ≡ is_proper due.now }
{
    match due {
        Due::Need(cond) => *cond != Cond::Any,
        Due::Bar(chars, _) => chars.len() != 0,
    }
}

/// The due of a lenient field. One that requires nothing is none.
fn read_due(alloc: Global, field: &[u8]) -> Result<Option<Due>, AllocError>
    ensures due { IfOk result (λ due. due ≡ due_of_field field.now) }
    ensures proper { IfOk result (λ found. IfSome found (λ due. IsTrue (is_proper due))) }
{
    match read_parts(alloc, field)? {
        Some(due) if asks(&due) => Ok(Some(due)),
        _ => Ok(None),
    }
}

/// The due of a lenient field, which may require nothing.
fn read_parts(alloc: Global, field: &[u8]) -> Result<Option<Due>, AllocError>
    ensures { IfOk result (λ due. due ≡ lenient_parts field.now) }
{
    let parts = parts_of(alloc, field, b'+')?;
    if let Some(due) = read_set(alloc, false, parts.as_slice())? {
        return Ok(Some(due));
    }
    let parts = parts_of(alloc, field, b'-')?;
    if let Some(due) = read_set(alloc, true, parts.as_slice())? {
        return Ok(Some(due));
    }
    let parts = parts_of(alloc, field, b'*')?;
    read_any(alloc, parts.as_slice())
}

/// The dues of lenient fields, if each field spells one.
fn read_each_due(alloc: Global, fields: &[&[u8]]) -> Result<Option<Vec<Due>>, AllocError>
    ensures dues { IfOk result (λ found. option_map (λ dues. dues.items) found ≡ each due_of_field (map (λ field. field.now) fields.now)) }
    ensures proper { IfOk result (λ found. IfSome found (λ dues. All (λ due. IsTrue (is_proper due)) dues.items)) }
{
    let mut dues = Vec::new(alloc);
    for field in fields {
        let Some(due) = read_due(alloc, field)? else {
            return Ok(None);
        };
        dues.push(due)?;
    }
    Ok(Some(dues))
}

/// The state of lenient fields: of its classes and its numeric mode, with this run flag, and of its
/// dues.
fn read_state(
    alloc: Global,
    before: &[u8],
    numeric: &[u8],
    run: bool,
    dues: &[&[u8]],
) -> Result<Option<DuesState>, AllocError>
    ensures { IfOk result (λ state. state ≡ lenient_state before.now numeric.now run (map (λ field. field.now) dues.now)) }
{
    let Some(here) = read_context(before, numeric, run) else {
        return Ok(None);
    };
    let Some(dues) = read_each_due(alloc, dues)? else {
        return Ok(None);
    };
    Ok(Some(DuesState::from_context(here, DueList::in_order(dues))))
}

/// The state of the lenient fields of a line of version 2.
pub fn read_dues(alloc: Global, fields: &[&[u8]]) -> Result<Option<DuesState>, AllocError>
    ensures { IfOk result (λ state. state ≡ lenient_dues (map (λ field. field.now) fields.now)) }
{
    let [before, numeric, dues @ ..] = fields else {
        return Ok(None);
    };
    read_state(alloc, before, numeric, false, dues)
}

/// The state of the lenient fields of a line of version 3.
pub fn read_word(alloc: Global, fields: &[&[u8]]) -> Result<Option<DuesState>, AllocError>
    ensures { IfOk result (λ state. state ≡ lenient_word (map (λ field. field.now) fields.now)) }
{
    let [before, numeric, run, dues @ ..] = fields else {
        return Ok(None);
    };
    let Some(run) = read_flag(run) else {
        return Ok(None);
    };
    read_state(alloc, before, numeric, run, dues)
}

/// Writes characters, joined by points.
fn push_joined(out: &mut Vec<u8>, characters: &[char]) -> Result<(), AllocError>
    ensures written { OnOk result (out.new.items ≡ out.old.items ++ join_with_byte 46 (map (digits 16 false) characters.now)) }
    ensures in_range { OnOk result (All (λ c. is_char c ≡ true) characters.now) }
{
    let [first, rest @ ..] = characters else {
        return Ok(());
    };
    push_char(out, *first)?;
    push_more(out, rest)?;
    Ok(())
}

/// Writes a due.
fn push_due(out: &mut Vec<u8>, due: &Due) -> Result<(), AllocError>
    ensures written { OnOk result (out.new.items ≡ out.old.items ++ spelled_due due.now) }
    ensures in_range { OnOk result (IsDue due.now) }
{
    match due {
        Due::Need(cond) => {
            out.push(b'n')?;
            push_cond(out, *cond)
        }
        Due::Bar(chars, cond) => {
            out.push(b'b')?;
            push_joined(out, chars.as_slice())?;
            push_cond(out, *cond)
        }
    }
}

/// Writes the classes before a state and its numeric mode, each after a blank.
fn push_context(out: &mut Vec<u8>, state: &DuesState) -> Result<(), AllocError>
    ensures written { OnOk result (out.new.items ≡ out.old.items ++ after_blanks ((number 255).spell state.now.before.0 ∷ flag.spell state.now.numeric ∷ [])) }
    ensures in_range { OnOk result (state.now.before.0 < 256) }
{
    out.push(b' ')?;
    push_number(out, u32::from(state.before.0))?;
    out.push(b' ')?;
    push_flag(out, state.numeric)
}

/// Writes dues, each after a blank.
fn push_each_due(out: &mut Vec<u8>, dues: &[Due]) -> Result<(), AllocError>
    ensures written { OnOk result (out.new.items ≡ out.old.items ++ after_blanks (map spelled_due dues.now)) }
    ensures in_range { OnOk result (All IsDue dues.now) }
{
    for due in dues {
        out.push(b' ')?;
        push_due(out, due)?;
    }
    Ok(())
}

/// Writes the fields of a state in version 2, each after a blank.
pub fn push_dues(out: &mut Vec<u8>, state: &DuesState) -> Result<(), AllocError>
    ensures written { OnOk result (out.new.items ≡ out.old.items ++ after_blanks (dues_fields state.now)) }
    ensures in_range { OnOk result (IsDuesState state.now) }
{
    push_context(out, state)?;
    push_each_due(out, state.dues.as_slice())?;
    Ok(())
}

/// Writes the fields of a state in version 3, each after a blank.
pub fn push_word(out: &mut Vec<u8>, state: &DuesState) -> Result<(), AllocError>
    ensures written { OnOk result (out.new.items ≡ out.old.items ++ after_blanks (word_fields state.now)) }
    ensures in_range { OnOk result (IsDuesState state.now) }
{
    push_context(out, state)?;
    out.push(b' ')?;
    push_flag(out, state.run)?;
    push_each_due(out, state.dues.as_slice())?;
    Ok(())
}

//! Fields of a line: reading them leniently, and writing their one spelling.
ghost use Rattle.std.specs.Prelude.{◌≡◌, ◌≤◌, ◌++◌, ◌∷◌, ◌==◌, length, map, IfOk, IfSome, OnOk, All, true, false};
ghost use Rattle.std.specs.Fmt.{decimal, digits};
ghost use Rattle.std.specs.List.{flat_map, slice_split};
ghost use Rattle.brl_cells.specs.Dots.{AreCells};
ghost use Rattle.brl_cert.specs.Fields.{each, is_char, lenient_char, lenient_chars, lenient_context, lenient_flag, lenient_lead, spelled_chars, spelled_flag, spelled_lead};

use brl_cells::{Cell, Cells, Chars, read_dots, write_dots};
use brl_failure::Failure;
use brl_lines::read_number;
use brl_rules::{Class, Context};
use std::alloc::{AllocError, Global};
use std::io::Write;

/// The flag of a field.
pub fn read_flag(field: &[u8]) -> Option<bool>
    ensures { result ≡ lenient_flag field.now }
{
    match field {
        [b'0'] => Some(false),
        [b'1'] => Some(true),
        _ => None,
    }
}

/// The context of lenient fields: of its classes and of its numeric mode, with this run flag.
pub fn read_context(before: &[u8], numeric: &[u8], run: bool) -> Option<Context>
    ensures { result ≡ lenient_context before.now numeric.now run }
{
    let before = read_number(before, 10, 255)?;
    let numeric = read_flag(numeric)?;
    Some(Context {
        classes: Class(before as u8),
        numeric,
        run,
    })
}

/// The character of a lenient field.
pub fn read_char(field: &[u8]) -> Option<char>
    ensures { result ≡ lenient_char field.now }
{
    match read_number(field, 16, 0x10FFFF) {
        Some(number) => char::from_u32(number as u32),
        None => None,
    }
}

/// The parts of bytes between marks.
pub fn parts_of(alloc: Global, bytes: &[u8], mark: u8) -> Result<Vec<&[u8]>, AllocError>
    ensures { IfOk result (λ parts. map (λ part. part.now) parts.items ≡ slice_split (λ b. b == mark) bytes.now) }
{
    bytes.split(|byte| *byte == mark).collect(alloc)
}

/// The characters of lenient parts, if each part spells one.
fn read_each(alloc: Global, parts: &[&[u8]]) -> Result<Option<Chars>, AllocError>
    ensures { IfOk result (λ chars. chars ≡ each lenient_char (map (λ part. part.now) parts.now)) }
{
    let mut characters = Vec::new(alloc);
    for part in parts {
        let Some(character) = read_char(part) else {
            return Ok(None);
        };
        characters.push(character)?;
    }
    Ok(Some(Chars::from_vec(characters)))
}

/// The characters of lenient parts between points, if each part spells one.
pub fn read_between_points(alloc: Global, bytes: &[u8]) -> Result<Option<Chars>, AllocError>
    ensures { IfOk result (λ chars. chars ≡ each lenient_char (slice_split (λ b. b == 46) bytes.now)) }
{
    let parts = parts_of(alloc, bytes, b'.')?;
    read_each(alloc, parts.as_slice())
}

/// The characters of a lenient field.
pub fn read_chars(alloc: Global, field: &[u8]) -> Result<Option<Chars>, AllocError>
    ensures { IfOk result (λ chars. chars ≡ lenient_chars field.now) }
{
    if field == b"-".as_slice() {
        return Ok(Some(Chars::from_vec(Vec::new(alloc))));
    }
    read_between_points(alloc, field)
}

/// The lead of a lenient field.
pub fn read_lead(alloc: Global, field: &[u8]) -> Result<Option<Cells>, AllocError>
    ensures lead { IfOk result (λ cells. cells ≡ lenient_lead field.now) }
    ensures limited { IfOk result (λ found. IfSome found (λ cells. length cells ≤ 1024)) }
{
    if field == b"-".as_slice() {
        return Ok(Some(Cells::new(alloc)));
    }
    let Ok(text) = str::from_utf8(field) else {
        return Ok(None);
    };
    match read_dots(alloc, text, 1024) {
        Ok(cells) => Ok(Some(cells)),
        Err(Failure::Fault(_)) => Ok(None),
        Err(Failure::Memory) => Err(AllocError),
    }
}

/// Writes a number.
pub fn push_number(out: &mut Vec<u8>, number: u32) -> Result<(), AllocError>
    ensures { OnOk result (out.new.items ≡ out.old.items ++ decimal number) }
{
    write!(out, "{number}").map_err(|_| AllocError)?;
    Ok(())
}

/// Writes a flag.
pub fn push_flag(out: &mut Vec<u8>, flag: bool) -> Result<(), AllocError>
    ensures { OnOk result (out.new.items ≡ out.old.items ++ spelled_flag flag) }
{
    out.push(if flag { b'1' } else { b'0' })?;
    Ok(())
}

/// Writes a character by its code point.
pub fn push_char(out: &mut Vec<u8>, character: char) -> Result<(), AllocError>
    ensures written { OnOk result (out.new.items ≡ out.old.items ++ digits 16 false character) }
    ensures in_range { is_char character ≡ true }
{
    let number = character as u32;
    write!(out, "{number:x}").map_err(|_| AllocError)?;
    Ok(())
}

/// Writes characters, each after a point.
pub fn push_more(out: &mut Vec<u8>, characters: &[char]) -> Result<(), AllocError>
    ensures written { OnOk result (out.new.items ≡ out.old.items ++ flat_map (λ c. 46 ∷ digits 16 false c) characters.now) }
    ensures in_range { OnOk result (All (λ c. is_char c ≡ true) characters.now) }
{
    for character in characters {
        out.push(b'.')?;
        push_char(out, *character)?;
    }
    Ok(())
}

/// Writes characters.
pub fn push_chars(out: &mut Vec<u8>, characters: &[char]) -> Result<(), AllocError>
    ensures written { OnOk result (out.new.items ≡ out.old.items ++ spelled_chars characters.now) }
    ensures in_range { OnOk result (All (λ c. is_char c ≡ true) characters.now) }
{
    match characters {
        [] => out.push(b'-')?,
        [first, rest @ ..] => {
            push_char(out, *first)?;
            push_more(out, rest)?;
        }
    }
    Ok(())
}

/// Writes a lead.
pub fn push_lead(alloc: Global, out: &mut Vec<u8>, lead: &[Cell]) -> Result<(), AllocError>
    ensures written { OnOk result (out.new.items ≡ out.old.items ++ spelled_lead lead.now) }
    ensures in_range { OnOk result (AreCells lead.now) }
{
    let dots = write_dots(alloc, lead)?;
    if lead.is_empty() {
        out.push(b'-')?;
    } else {
        out.extend_from_slice(dots.as_bytes())?;
    }
    Ok(())
}

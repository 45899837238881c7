//! What the fields of rows have.
//!
//! | A field of | is written so |
//! |---|---|
//! | lines | a line ends at `; ` and at the end of the field; the empty field has none |
//! | bytes | `;` is a line feed, and `!` a byte that no UTF-8 has |
//! | words | cut at `,` |
//! | numbers | hexadecimal, cut at `,`; the empty field has none |
//! | files | cut at ` & `, and a path from its lines or bytes at `: `; the empty field has none |
use brl_lines::MapSource;
use std::alloc::Global;
use std::collections::BTreeMap;
use std::test::Fail;

/// The lines of a field, each with its line feed.
pub fn lines_of(alloc: Global, field: &str) -> Result<String, Fail> {
    let mut lines = String::new(alloc);
    if field.is_empty() {
        return Ok(lines);
    }
    for line in field.split("; ") {
        lines.push_str(line)?;
        lines.push('\n')?;
    }
    Ok(lines)
}

/// The field of these lines; a failure where no field has just these.
pub fn field_of(alloc: Global, lines: &str) -> Result<String, Fail> {
    let mut field = String::new(alloc);
    for (number, line) in lines.lines().enumerate() {
        if number > 0 {
            field.push_str("; ")?;
        }
        field.push_str(line)?;
    }
    if lines_of(alloc, field.as_str())?.as_str() == lines {
        return Ok(field);
    }
    Err(Fail::new(format_args!("no field has these lines: {lines}")))
}

/// The bytes of a field.
pub fn bytes_of(alloc: Global, field: &str) -> Result<Vec<u8>, Fail> {
    let mut bytes = Vec::from_slice(alloc, field.as_bytes())?;
    for byte in bytes.as_mut_slice() {
        *byte = match *byte {
            b';' => b'\n',
            b'!' => 0xff,
            other => other,
        };
    }
    Ok(bytes)
}

/// The field of these bytes; a failure where no field has just these.
pub fn field_of_bytes(alloc: Global, bytes: &[u8]) -> Result<String, Fail> {
    let text = std::str::from_utf8(bytes)?;
    let mut field = String::new(alloc);
    for character in text.chars() {
        field.push(if character == '\n' { ';' } else { character })?;
    }
    if bytes_of(alloc, field.as_str())?.as_slice() == bytes {
        return Ok(field);
    }
    Err(Fail::new(format_args!("no field has these bytes: {text}")))
}

/// The words of a field.
pub fn words_of(alloc: Global, field: &str) -> Result<Vec<String>, Fail> {
    let mut words = Vec::new(alloc);
    for word in field.split(',') {
        words.push(String::from_str(alloc, word)?)?;
    }
    Ok(words)
}

/// The numbers of a field.
pub fn numbers_of(alloc: Global, field: &str) -> Result<Vec<u32>, Fail> {
    let mut numbers = Vec::new(alloc);
    if field.is_empty() {
        return Ok(numbers);
    }
    for number in field.split(',') {
        numbers.push(u32::from_str_radix(number, 16)?)?;
    }
    Ok(numbers)
}

/// The characters of a field.
pub fn chars(alloc: Global, field: &str) -> Result<Vec<char>, Fail> {
    Ok(field.chars().collect(alloc)?)
}

/// The files of a field, each with lines.
pub fn files_of(alloc: Global, field: &str) -> Result<MapSource, Fail> {
    let mut files = no_files(alloc);
    add_files(alloc, field, &mut files, |lines| {
        Ok(Vec::from_slice(alloc, lines_of(alloc, lines)?.as_bytes())?)
    })?;
    Ok(files)
}

/// Adds the files of a field, each with bytes.
pub fn add_files_of_bytes(alloc: Global, field: &str, files: &mut MapSource) -> Result<(), Fail> {
    add_files(alloc, field, files, |bytes| bytes_of(alloc, bytes))
}

/// Adds the files of a field. `bytes` gives those of a file.
fn add_files<F: Fn(&str) -> Result<Vec<u8>, Fail>>(
    alloc: Global,
    field: &str,
    files: &mut MapSource,
    bytes: F,
) -> Result<(), Fail>
    requires { F.IsAlwaysCallable bytes }
{
    if field.is_empty() {
        return Ok(());
    }
    for file in field.split(" & ") {
        let (path, text) = file.split_once(": ").ok_or("a path is missing")?;
        add_file(alloc, files, path, bytes(text)?)?;
    }
    Ok(())
}

/// Adds a file with these bytes.
pub fn add_file(
    alloc: Global,
    files: &mut MapSource,
    path: &str,
    bytes: Vec<u8>,
) -> Result<(), Fail> {
    files.files.insert(String::from_str(alloc, path)?, bytes)?;
    Ok(())
}

/// No files.
pub fn no_files(alloc: Global) -> MapSource {
    MapSource::new(BTreeMap::new(alloc))
}

/// One file.
pub fn one_file(alloc: Global, path: &str, bytes: &[u8]) -> Result<MapSource, Fail> {
    let mut files = no_files(alloc);
    add_file(alloc, &mut files, path, Vec::from_slice(alloc, bytes)?)?;
    Ok(files)
}

//! The notices of a table: lines that define a character again; or that none defines one.
ghost use Rattle.std.specs.Prelude.{◌≡◌, ◌<◌, IfOk, length, string_bytes};
ghost use Rattle.brl_tool.specs.Notices.{no_character_line, notice_line, notice_lines};

use brl_lines::spell_chars;
use brl_rules::{Notice, Table};
use std::alloc::{AllocError, Global};
use std::io::Write;

/// The line of a notice.
fn notice_text(alloc: Global, table: &Table, notice: Notice) -> Result<String, AllocError>
    requires { notice.file < length table.now.files }
    ensures { IfOk result (λ text. string_bytes text ≡ notice_line table.now notice) }
{
    let character = spell_chars(alloc, &[notice.character])?;
    let file = table.file_name(notice.file);
    let line = notice.line.to_string(alloc)?;
    format!(in alloc; "notice DefinedAgain {character} at {file}:{line}\n")
}

/// The lines of a table's notices.
fn notices_text(alloc: Global, table: &Table) -> Result<String, AllocError>
    ensures { IfOk result (λ text. string_bytes text ≡ notice_lines table.now) }
{
    table.law();
    let mut text = String::new(alloc);
    for notice in table.notices() {
        text.push_str(notice_text(alloc, table, *notice)?.as_str())?;
    }
    Ok(text)
}

/// Writes a table's notices to standard error. What can't be written there is dropped.
pub fn write_notices<E: Write>(
    alloc: Global,
    table: &Table,
    err: &mut E,
) -> Result<(), AllocError> {
    let text = notices_text(alloc, table)?;
    let _ = err.write_all(text.as_bytes());
    Ok(())
}

/// The line that no line of a table defines a character; nothing where one does.
fn no_character_text(table: &Table) -> &'static str
    ensures { result.now ≡ no_character_line table.now }
{
    if table.char_count() == 0 {
        "no line defines a character\n"
    } else {
        ""
    }
}

/// Writes to standard error that no line of a table defines a character, where none does. What
/// can't be written there is dropped.
pub fn write_if_without_characters<E: Write>(table: &Table, err: &mut E) {
    let _ = err.write_all(no_character_text(table).as_bytes());
}

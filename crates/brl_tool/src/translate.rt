//! `brl translate`: a stream, translated line by line.
ghost use Rattle.std.specs.Prelude.{◌≡◌, IfOk, string_bytes};
ghost use Rattle.brl_lines.specs.Outcome.{CountsFailure};
ghost use Rattle.brl_answers.specs.Answers.{load_outcome};
ghost use Rattle.brl_tool.specs.Streams.{TranslatesBy, TranslatesByFile, code_point, lacking_line, lacking_lines};

use brl_answers::RunFault;
use brl_lines::{Source, spell_visibly};
use brl_rules::Table;
use brl_stream::{Form, Input, Lacking, Output, translate_defined_lines, translate_lines};
use brl_table::load_table;
use std::alloc::{AllocError, Global};

/// How an input is translated: by the table whose file is at a path, and to which form. With
/// `lacking` lines with a character that the table doesn't define are passed over, and these
/// characters are listed.
#[derive(Clone, Copy)]
pub struct Translation<'a> {
    pub table: &'a str,
    pub form: Form,
    pub lacking: bool,
}

/// Translates the input line by line by the table of a file, and answers the lines that name
/// lacking characters; without a table nothing. Lacking characters are in the order of their first
/// uses; the text is empty where there are none, or where these aren't to be listed: then the first
/// ends the work.
pub fn translate_by_file<S: Source, R: Input, W: Output>(
    alloc: Global,
    source: &mut S,
    wanted: Translation<'_>,
    reader: &mut R,
    writer: &mut W,
) -> Result<String, RunFault>
    ensures translates { TranslatesByFile wanted.entry.lacking (S.gives source.old) wanted.entry.table.now wanted.entry.form (R.remaining reader.old)
        (W.contents writer.old) (W.contents writer.new) result }
    ensures count { CountsFailure (S.faults source.old) (S.faults source.new) (load_outcome result) }
    ensures same { S.gives source.new ≡ S.gives source.old }
{
    let table = load_table(alloc, source, wanted.table)?;
    translate(alloc, &table, wanted, reader, writer)
}

/// Translates the input by a table.
fn translate<R: Input, W: Output>(
    alloc: Global,
    table: &Table,
    wanted: Translation<'_>,
    reader: &mut R,
    writer: &mut W,
) -> Result<String, RunFault>
    ensures { TranslatesBy wanted.entry.lacking table.now wanted.entry.form (R.remaining reader.old) (W.contents writer.old) (W.contents writer.new) result }
{
    if !wanted.lacking {
        translate_lines(alloc, table, wanted.form, reader, writer)?;
        return Ok(String::new(alloc));
    }
    let list = translate_defined_lines(alloc, table, wanted.form, reader, writer)?;
    Ok(lacking_texts(alloc, list.as_slice())?)
}

/// The code point of a character, as `U+2019`.
fn code_point_text(alloc: Global, character: char) -> Result<String, AllocError>
    ensures { IfOk result (λ text. string_bytes text ≡ code_point character) }
{
    let code = u32::from(character);
    format!(in alloc; "U+{code:04X}")
}

/// The line of a character that the table doesn't define.
fn lacking_text(alloc: Global, lacking: Lacking) -> Result<String, AllocError>
    ensures { IfOk result (λ text. string_bytes text ≡ lacking_line lacking) }
{
    let character = lacking.character;
    let spelled = spell_visibly(alloc, &[character])?;
    let code = code_point_text(alloc, character)?;
    let count = lacking.count.to_string(alloc)?;
    let line = lacking.line.to_string(alloc)?;
    format!(in alloc; "lacking {spelled} {code}: count {count}, first line {line}\n")
}

/// The lines of these characters.
fn lacking_texts(alloc: Global, list: &[Lacking]) -> Result<String, AllocError>
    ensures { IfOk result (λ text. string_bytes text ≡ lacking_lines list.now) }
{
    let mut text = String::new(alloc);
    for lacking in list {
        text.push_str(lacking_text(alloc, *lacking)?.as_str())?;
    }
    Ok(text)
}

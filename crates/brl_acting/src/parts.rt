//! A line as its needs see it: its prefixes, its opcode and its operands.
ghost use Rattle.std.specs.Prelude.{◌≡◌, IfOk, is_some, map, true};
ghost use Rattle.brl_lines.specs.Views.{line_view};
ghost use Rattle.brl_acting.specs.Capitals.{has_opcode as has_opcode_by};
ghost use Rattle.brl_acting.specs.Forms.{form_of as form_by};
ghost use Rattle.brl_acting.specs.PartsViews.{parts_view};
ghost use Rattle.brl_acting.specs.Words.{after_prefixes as words_after_prefixes, classes_of_prefixes, names_class as is_class, opcode_of as opcode_of_line, parts_of as parts_by, prefix_length as length_of_prefix, table_line_view, prefix_words as words_of_prefixes, words_of as words_of_line};

use crate::bases::has_opcode;
use crate::form::{Form, form_of, is_among};
use crate::line_parts::Parts;
use crate::operand::{chars_at, word_at};
use crate::table_line::TableLine;
use brl_lines::Line;
use std::alloc::{AllocError, Global};

/// The words of a line, its opcode first.
fn words_of<'a>(alloc: Global, line: &Line<'a>) -> Result<Vec<&'a str>, AllocError>
    ensures { IfOk result (λ words. map (λ word. word.now) words.items ≡ words_of_line (line_view line.now)) }
{
    let mut words = Vec::with_capacity(alloc, line.operands.len() + 1)?;
    words.push(line.opcode.text)?;
    for operand in &line.operands {
        words.push(operand.text)?;
    }
    Ok(words)
}

/// How many words a prefix takes that begins with this one: 0 where it begins none.
fn prefix_length(word: &str) -> usize
    ensures { result ≡ length_of_prefix word.now }
{
    match word {
        "noback" | "nofor" | "nocross" | "empmatchbefore" | "empmatchafter" => 1,
        "before" | "after" => 2,
        _ => 0,
    }
}

/// The words after all prefixes.
fn after_prefixes<'w, 'a>(words: &'w [&'a str]) -> &'w [&'a str]
    ensures { map (λ word. word.now) result.now ≡ words_after_prefixes (map (λ word. word.now) words.now) }
{
    let mut rest = words;
    while let Some(word) = rest.first() {
        let length = prefix_length(word);
        if length == 0 {
            return rest;
        }
        rest = rest.get(length..).unwrap_or_default();
    }
    rest
}

/// The opcode of a line: the word after all prefixes. Where none follows them, the first word.
pub(crate) fn opcode_of<'a>(alloc: Global, line: &Line<'a>) -> Result<&'a str, AllocError>
    ensures { IfOk result (λ opcode. opcode.now ≡ opcode_of_line (line_view line.now)) }
{
    let words = words_of(alloc, line)?;
    Ok(
        after_prefixes(words.as_slice())
            .first()
            .copied()
            .unwrap_or(line.opcode.text),
    )
}

/// The words of all prefixes, where `after` has the words that follow them.
fn prefix_words<'w, 'a>(words: &'w [&'a str], after: &[&'a str]) -> &'w [&'a str]
    requires { map (λ word. word.now) after.now ≡ words_after_prefixes (map (λ word. word.now) words.now) }
    ensures { map (λ word. word.now) result.now ≡ words_of_prefixes (map (λ word. word.now) words.now) }
{
    &words[..words.len().saturating_sub(after.len())]
}

/// The words of prefixes that begin none: they name classes.
fn classes_in<'a>(alloc: Global, prefixes: &[&'a str]) -> Result<Vec<&'a str>, AllocError>
    ensures { IfOk result (λ classes. map (λ word. word.now) classes.items ≡ classes_of_prefixes (map (λ word. word.now) prefixes.now)) }
{
    let mut classes = Vec::new(alloc);
    for word in prefixes {
        if prefix_length(word) == 0 {
            classes.push(*word)?;
        }
    }
    Ok(classes)
}

/// The form of an opcode's needs. Where the line before has the same opcode, it is known.
fn form_after(last: Option<&Parts<'_>>, word: &str) -> Option<Form>
    ensures { result ≡ form_by word.now }
{
    match last {
        Some(last) if has_opcode(last, word) => last.form,
        _ => form_of(word),
    }
}

/// The parts of a line that may begin with prefixes, after another line.
fn prefixed_parts<'a>(
    alloc: Global,
    line: &TableLine<'_, 'a>,
    last: Option<&Parts<'a>>,
) -> Result<Parts<'a>, AllocError>
    ensures { IfOk result (λ parts. parts_view parts ≡ parts_by (table_line_view line.now)) }
{
    let words = words_of(alloc, line.line)?;
    let after = after_prefixes(words.as_slice());
    let prefixes = prefix_words(words.as_slice(), after);
    Ok(Parts {
        kept: line.kept,
        continued: line.continued,
        nofor: is_among("nofor", prefixes),
        classes: classes_in(alloc, prefixes)?,
        words: Vec::from_slice(alloc, after)?,
        chars: chars_at(alloc, after, 1)?,
        form: form_after(last, word_at(after, 0)),
    })
}

/// The parts of a line that begins with the opcode of another one. It has a form, so it begins no
/// prefix.
fn plain_parts<'a>(
    alloc: Global,
    line: &TableLine<'_, 'a>,
    last: &Parts<'a>,
) -> Result<Parts<'a>, AllocError>
    requires known { is_some last.now.form ≡ true }
    requires opcode { has_opcode_by line.now.line.now.opcode.text.now (parts_view last.now) ≡ true }
    ensures { IfOk result (λ parts. parts_view parts ≡ parts_by (table_line_view line.now)) }
{
    let words = words_of(alloc, line.line)?;
    Ok(Parts {
        kept: line.kept,
        continued: line.continued,
        nofor: false,
        classes: Vec::new(alloc),
        chars: chars_at(alloc, words.as_slice(), 1)?,
        words,
        form: last.form,
    })
}

/// The parts of a line after another one.
fn parts_of<'a>(
    alloc: Global,
    line: &TableLine<'_, 'a>,
    last: Option<&Parts<'a>>,
) -> Result<Parts<'a>, AllocError>
    ensures { IfOk result (λ parts. parts_view parts ≡ parts_by (table_line_view line.now)) }
{
    let own = line.line;
    match last {
        Some(last) if last.form.is_some() && has_opcode(last, own.opcode.text) => {
            plain_parts(alloc, line, last)
        }
        _ => prefixed_parts(alloc, line, last),
    }
}

/// The parts of lines.
pub(crate) fn parts_of_lines<'a>(
    alloc: Global,
    lines: &[TableLine<'_, 'a>],
) -> Result<Vec<Parts<'a>>, AllocError>
    ensures { IfOk result (λ parts. map parts_view parts.items ≡ map parts_by (map table_line_view lines.now)) }
{
    let mut parts = Vec::with_capacity(alloc, lines.len())?;
    for line in lines {
        let own = parts_of(alloc, line, parts.last())?;
        parts.push(own)?;
    }
    Ok(parts)
}

//! Notes on words that are no opcodes where they are.
ghost use Rattle.std.specs.Prelude.{◌≡◌, IfOk, map, option_map, string_bytes, bytes_eq};
ghost use Rattle.std.specs.List.{list_any};
ghost use Rattle.brl_explain.specs.Opcodes.{
  is_opcode as is_one_of_opcodes,
  nearest_opcode as nearest,
  opcode_note as note_on_opcode,
  rewriting_note as note_on_rewriting,
  word_within,
};
ghost use Rattle.brl_table.specs.Words.{opcode_words};

use brl_table::{OPCODES, opcodes_law};
use std::alloc::{AllocError, Global};
use strsim::osa_distance;

/// The note on a word that is no opcode where it is: that it is one elsewhere, or that a cut
/// rewrites its lines, or which one may be meant; nothing where none is near.
pub fn opcode_note(alloc: Global, word: &str) -> Result<String, AllocError>
    ensures { IfOk result (λ note. string_bytes note ≡ note_on_opcode word.now) }
{
    let mut note = String::new(alloc);
    if is_opcode(word) {
        note.push_str(word)?;
        note.push_str(" is read, but not after noback or nofor")?;
        return Ok(note);
    }
    if let Some(rewriting) = rewriting_note(word) {
        note.push_str(rewriting)?;
        return Ok(note);
    }
    let near = nearest_opcode(alloc, word)?;
    if !near.is_empty() {
        note.push_str("did you mean ")?;
        note.push_str(near)?;
        note.push('?')?;
    }
    Ok(note)
}

/// How a cut rewrites the lines of an opcode, if it does.
fn rewriting_note(word: &str) -> Option<&'static str>
    ensures { option_map (λ note. note.now) result ≡ note_on_rewriting word.now }
{
    match word {
        "base" => Some("brl cut --rewrite reads base uppercase, as uplow"),
        "contraction" => Some("brl cut --rewrite reads contraction, as word"),
        "letsign" => Some(
            "brl cut --rewrite reads the last letsign, as a word line for each letter",
        ),
        _ => None,
    }
}

/// Whether a word is an opcode.
fn is_opcode(word: &str) -> bool
    ensures { result ≡ is_one_of_opcodes word.now }
{
    opcodes_law();
    is_among(&OPCODES, word)
}

/// Whether a word is one of these.
fn is_among(words: &[&str], word: &str) -> bool
    ensures { result ≡ list_any (λ own. bytes_eq own word.now) (map (λ own. own.now) words.now) }
{
    words.contains(&word)
}

/// The opcode that a word may be meant for: one that is an edit away or, for words of more than
/// four bytes, two; empty where none is.
fn nearest_opcode(alloc: Global, word: &str) -> Result<&'static str, AllocError>
    ensures { IfOk result (λ near. near.now ≡ nearest word.now) }
{
    let near = opcode_within(alloc, 1, word)?;
    if !near.is_empty() || word.len() < 5 {
        return Ok(near);
    }
    opcode_within(alloc, 2, word)
}

/// The first opcode from which at most this number of edits leads to a word; empty where none does.
fn opcode_within(alloc: Global, most: usize, word: &str) -> Result<&'static str, AllocError>
    ensures { IfOk result (λ near. near.now ≡ word_within most word.now opcode_words) }
{
    opcodes_law();
    near_word(alloc, &OPCODES, most, word)
}

/// The first of these words from which at most this number of edits leads to another; empty where
/// none does.
fn near_word<'a>(
    alloc: Global,
    words: &[&'a str],
    most: usize,
    word: &str,
) -> Result<&'a str, AllocError>
    ensures { IfOk result (λ near. near.now ≡ word_within most word.now (map (λ own. own.now) words.now)) }
{
    for own in words {
        if osa_distance(alloc, own, word)? <= most {
            return Ok(own);
        }
    }
    Ok("")
}

//! Capitals and their small letters, as lines give them.
ghost use Rattle.std.specs.Prelude.{◌≡◌, ◌++◌, IfOk, OnOk, Some, map, option_map};
ghost use Rattle.brl_acting.specs.Capitals.{bases_in, bases_of as bases_by, both as both_by, has_opcode as has_opcode_by, pair_chars as pair_chars_by, pair_of as pair_by};
ghost use Rattle.brl_acting.specs.PartsViews.{parts_view};

use crate::form::tells_of_characters;
use crate::line_parts::Parts;
use crate::operand::{chars_at, word_at};
use std::alloc::{AllocError, Global};

/// Whether a line has this opcode after its prefixes.
pub(crate) fn has_opcode(parts: &Parts<'_>, word: &str) -> bool
    ensures { result ≡ has_opcode_by word.now (parts_view parts.now) }
{
    word_at(parts.words.as_slice(), 0) == word
}

/// The characters of a capital and its small letter, where a line gives them.
pub(crate) fn pair_chars(alloc: Global, parts: &Parts<'_>) -> Result<Option<Vec<char>>, AllocError>
    ensures { IfOk result (λ found. option_map (λ chars. chars.items) found ≡ pair_chars_by (parts_view parts.now)) }
{
    if !tells_of_characters(parts.form) {
        return Ok(None);
    }
    let words = parts.words.as_slice();
    if has_opcode(parts, "uplow") {
        return chars_at(alloc, words, 1);
    }
    if has_opcode(parts, "base") {
        let first = chars_at(alloc, words, 2)?;
        let second = chars_at(alloc, words, 3)?;
        return both(first, second);
    }
    Ok(None)
}

/// The characters of two words, where both are known.
fn both(one: Option<Vec<char>>, other: Option<Vec<char>>) -> Result<Option<Vec<char>>, AllocError>
    ensures { IfOk result (λ found. option_map (λ chars. chars.items) found ≡ both_by (option_map (λ chars. chars.items) one) (option_map (λ chars. chars.items) other)) }
{
    let Some(mut chars) = one else {
        return Ok(None);
    };
    let Some(more) = other else {
        return Ok(None);
    };
    chars.extend_from_slice(more.as_slice())?;
    Ok(Some(chars))
}

/// Adds the pair of two characters.
fn push_pair(pairs: &mut Vec<(char, char)>, chars: &[char]) -> Result<(), AllocError>
    ensures { OnOk result (pairs.new.items ≡ pairs.old.items ++ pair_by (Some chars.now)) }
{
    if let [capital, small] = chars {
        pairs.push((*capital, *small))?;
    }
    Ok(())
}

/// Adds the pair that a line gives, if it does.
pub(crate) fn push_base(
    alloc: Global,
    pairs: &mut Vec<(char, char)>,
    parts: &Parts<'_>,
) -> Result<(), AllocError>
    ensures { OnOk result (pairs.new.items ≡ pairs.old.items ++ bases_in (parts_view parts.now)) }
{
    let Some(chars) = pair_chars(alloc, parts)? else {
        return Ok(());
    };
    push_pair(pairs, chars.as_slice())
}

/// The capitals with their small letters that lines give.
pub(crate) fn bases_of(alloc: Global, lines: &[Parts<'_>]) -> Result<Vec<(char, char)>, AllocError>
    ensures { IfOk result (λ pairs. pairs.items ≡ bases_by (map parts_view lines.now)) }
{
    let mut pairs = Vec::new(alloc);
    for parts in lines {
        push_base(alloc, &mut pairs, parts)?;
    }
    Ok(pairs)
}

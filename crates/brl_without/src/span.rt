//! Spans of characters: how they are given, and how they are spelled.
ghost use Rattle.std.specs.Prelude.{◌≡◌, IfOk, drop, string_bytes};
ghost use Rattle.std.specs.List.{list_any};
ghost use Rattle.brl_without.specs.Spans.{
  continues as is_continued,
  is_in as is_within,
  last_of,
  length_of,
  spans_from,
  spelled_span,
  spelled_spans,
};

use brl_lines::spell_visibly;
use std::alloc::{AllocError, Global};

/// The characters from one to another, by their code points: one character where both are the same.
#[derive(Clone, Copy, Debug)]
pub struct Span {
    pub first: char,
    pub last: char,
}

impl Span {
    /// Whether a character is one of the span's.
    pub(crate) fn has(self, c: char) -> bool
        ensures { result ≡ is_within self c }
    {
        self.first <= c && c <= self.last
    }

    /// Whether one of these characters is one of the span's.
    pub(crate) fn has_one_of(self, characters: &[char]) -> bool
        ensures { result ≡ list_any (is_within self) characters.now }
    {
        characters.iter().any(|c| self.has(*c))
    }

    /// Whether the next span begins right after this one.
    fn continues_in(self, next: Span) -> bool
        ensures { result ≡ is_continued self next }
    {
        u32::from(next.first) == u32::from(self.last) + 1
    }
}

/// The spans that characters give, in their order: two full stops between two characters make a
/// span of these, and each other character is a span of its own.
pub fn spans_of(alloc: Global, characters: &[char]) -> Result<Vec<Span>, AllocError>
    ensures { IfOk result (λ spans. spans.items ≡ spans_from 0 characters.now) }
{
    let mut spans = Vec::new(alloc);
    let mut left = characters;
    while let Some((first, rest)) = left.split_first() {
        let (last, after) = end_of_span(*first, rest);
        spans.push(Span {
            first: *first,
            last,
        })?;
        left = after;
    }
    Ok(spans)
}

/// The last character of the span that begins with a character, and what follows the span.
fn end_of_span(first: char, rest: &[char]) -> (char, &[char])
    ensures last { result.0 ≡ last_of first rest.now }
    ensures after { result.1.now ≡ drop (length_of rest.now) rest.now }
{
    match rest {
        ['.', '.', last, after @ ..] => (*last, after),
        _ => (first, rest),
    }
}

/// A span as it is spelled: at most two characters one by one, else the first and the last with two
/// full stops between them.
pub(crate) fn spell_span(alloc: Global, span: Span) -> Result<String, AllocError>
    ensures { IfOk result (λ text. string_bytes text ≡ spelled_span span) }
{
    let Span { first, last } = span;
    let begin = spell_visibly(alloc, &[first])?;
    if first == last {
        return Ok(begin);
    }
    if u32::from(last) == u32::from(first) + 1 {
        return spell_visibly(alloc, &[first, last]);
    }
    let end = spell_visibly(alloc, &[last])?;
    format!(in alloc; "{begin}..{end}")
}

/// Spans as they are spelled, in their order; those that follow one on the other are spelled as
/// one.
pub fn spell_spans(alloc: Global, spans: &[Span]) -> Result<String, AllocError>
    ensures { IfOk result (λ text. string_bytes text ≡ spelled_spans spans.now) }
{
    let mut text = String::new(alloc);
    let Some((first, others)) = spans.split_first() else {
        return Ok(text);
    };
    let mut open = *first;
    for next in others {
        if open.continues_in(*next) {
            open.last = next.last;
        } else {
            text.push_str(spell_span(alloc, open)?.as_str())?;
            open = *next;
        }
    }
    text.push_str(spell_span(alloc, open)?.as_str())?;
    Ok(text)
}

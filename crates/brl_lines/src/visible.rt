//! Characters as they are written where a person reads them: what can't be seen is spelled.
ghost use Rattle.std.specs.Prelude.{◌≡◌, ◌<◌, ◌++◌, ◌∷◌, [], IfOk, Ok, OnOk, false, flat_map, string_bytes, true};
ghost use Rattle.std.specs.Char.{digit_char};
ghost use Rattle.std.specs.Str.{all_scalars, encode_utf8_all};
ghost use Rattle.brl_lines.specs.Escapes.{characters_of};
ghost use Rattle.brl_lines.specs.Tokens.{is_gap as is_gap_mark};
ghost use Rattle.brl_lines.specs.Visible.{
  by_number as digits_of,
  is_hidden as must_be_spelled,
  is_mark as is_combining,
  is_mark_category as is_mark_of,
  is_unseen as cannot_be_seen,
  is_unseen_category as is_unseen_of,
  line_character,
  number_prefix,
  seen_or_numbered,
  two_digits,
  visible_character,
  visible_line as line_as_seen,
  visible_text,
};

use crate::spelling::escape_mark;
use std::alloc::{AllocError, Global};
use ucd_category::GeneralCategory;
use ucd_derived::is_default_ignorable_code_point;

/// Whether the characters of a general category can't be seen.
fn is_unseen_category(category: GeneralCategory) -> bool
    ensures { result ≡ is_unseen_of category }
{
    matches!(
        category,
        GeneralCategory::Control
            | GeneralCategory::Format
            | GeneralCategory::PrivateUse
            | GeneralCategory::SpaceSeparator
            | GeneralCategory::LineSeparator
            | GeneralCategory::ParagraphSeparator
    )
}

/// Whether a character can't be seen: a blank of any kind, a control character, one that is ignored
/// by default, or the braille pattern without dots.
pub fn is_unseen(character: char) -> bool
    ensures { result ≡ cannot_be_seen character }
{
    if character < '\u{7f}' {
        return character <= ' ';
    }
    is_unseen_category(GeneralCategory::for_char(character))
        || is_default_ignorable_code_point(character)
        || character == '\u{2800}'
}

/// Whether the characters of a general category are combining marks.
fn is_mark_category(category: GeneralCategory) -> bool
    ensures { result ≡ is_mark_of category }
{
    matches!(
        category,
        GeneralCategory::NonspacingMark | GeneralCategory::EnclosingMark
    )
}

/// Whether a character is a combining mark.
fn is_mark(character: char) -> bool
    ensures { result ≡ is_combining character }
{
    character >= '\u{7f}' && is_mark_category(GeneralCategory::for_char(character))
}

/// Whether a character is spelled: it can't be seen, or is a combining mark at the beginning, where
/// it would be drawn over what isn't of the text.
fn is_hidden(first: bool, character: char) -> bool
    ensures { result ≡ must_be_spelled first character }
{
    is_unseen(character) || first && is_mark(character)
}

/// Appends the two hexadecimal digits of a number.
fn push_digits(text: &mut String, number: u32) -> Result<(), AllocError>
    requires { number < 256 }
    ensures { OnOk result (string_bytes text.new ≡ string_bytes text.old ++ encode_utf8_all (two_digits number)) }
{
    write!(text, "{number:02x}")
}

/// Appends the escape by number of a character up to its last four digits.
fn push_prefix(text: &mut String, character: char) -> Result<(), AllocError>
    ensures { OnOk result (string_bytes text.new ≡ string_bytes text.old ++ encode_utf8_all (number_prefix character)) }
{
    let code = u32::from(character);
    if code < 0x10000 {
        return text.push_str("\\x");
    }
    if code < 0x100000 {
        text.push_str("\\y")?;
        return push_digit(text, code / 0x10000);
    }
    text.push_str("\\z00")?;
    push_digits(text, code / 0x10000)
}

/// Appends a hexadecimal digit.
fn push_digit(text: &mut String, digit: u32) -> Result<(), AllocError>
    requires { digit < 16 }
    ensures { OnOk result (string_bytes text.new ≡ string_bytes text.old ++ encode_utf8_all (digit_char digit ∷ [])) }
{
    write!(text, "{digit:x}")
}

/// Appends the escape that means a character by its number.
fn push_number(text: &mut String, character: char) -> Result<(), AllocError>
    ensures { OnOk result (string_bytes text.new ≡ string_bytes text.old ++ encode_utf8_all (digits_of character)) }
{
    let code = u32::from(character);
    push_prefix(text, character)?;
    push_digits(text, code / 256 % 256)?;
    push_digits(text, code % 256)
}

/// Appends a character that no escape of one mark means.
fn push_seen(text: &mut String, first: bool, character: char) -> Result<(), AllocError>
    ensures { OnOk result (string_bytes text.new ≡ string_bytes text.old ++ encode_utf8_all (seen_or_numbered first character)) }
{
    if is_hidden(first, character) {
        return push_number(text, character);
    }
    text.push(character)
}

/// Appends a character as it is written.
fn push_visible(text: &mut String, first: bool, character: char) -> Result<(), AllocError>
    ensures { OnOk result (string_bytes text.new ≡ string_bytes text.old ++ encode_utf8_all (visible_character first character)) }
{
    if let Some(mark) = escape_mark(character) {
        text.push('\\')?;
        return text.push(mark);
    }
    push_seen(text, first, character)
}

/// Appends characters that begin no text.
fn push_rest(text: &mut String, characters: &[char]) -> Result<(), AllocError>
    ensures { OnOk result (string_bytes text.new ≡ string_bytes text.old ++ encode_utf8_all (flat_map (visible_character false) characters.now)) }
{
    for character in characters {
        push_visible(text, false, *character)?;
    }
    Ok(())
}

/// Characters are scalar values of Unicode: each of them that is read is known to be one. Its body
/// changes nothing.
fn scalars_law(characters: &[char])
    ensures { all_scalars characters.now ≡ true }
{
    for character in characters {
        let _read = *character;
    }
}

/// Appends a text as it is written.
fn push_text(text: &mut String, characters: &[char]) -> Result<(), AllocError>
    ensures { OnOk result (string_bytes text.new ≡ string_bytes text.old ++ encode_utf8_all (visible_text characters.now)) }
{
    let Some((first, rest)) = characters.split_first() else {
        return Ok(());
    };
    push_visible(text, true, *first)?;
    push_rest(text, rest)
}

/// The text that spells characters as `spell_chars` does, and by number those that can't be seen;
/// `chars_of` reads it back. A number is `\x` and four hexadecimal digits, above U+FFFF `\y` and
/// five, above U+FFFFF `\z` and eight. A combining mark at the beginning is spelled so, too.
/// `AllocError` if memory runs out.
pub fn spell_visibly(alloc: Global, characters: &[char]) -> Result<String, AllocError>
    ensures spelled { IfOk result (λ text. string_bytes text ≡ encode_utf8_all (visible_text characters.now)) }
    ensures read_back { IfOk result (λ text. characters_of (string_bytes text) ≡ Ok characters.now) }
{
    scalars_law(characters);
    let mut text = String::new(alloc);
    push_text(&mut text, characters)?;
    Ok(text)
}

/// Whether a character is a blank or a tab.
fn is_gap(character: char) -> bool
    ensures { result ≡ is_gap_mark character }
{
    character == ' ' || character == '\t'
}

/// Appends a character of a line as it is written.
fn push_of_line(text: &mut String, first: bool, character: char) -> Result<(), AllocError>
    ensures { OnOk result (string_bytes text.new ≡ string_bytes text.old ++ encode_utf8_all (line_character first character)) }
{
    match character {
        ' ' | '\t' | '\\' => text.push(character),
        _ => push_visible(text, first, character),
    }
}

/// A line in which what can't be seen is spelled, but for blanks and tabs. `AllocError` if memory
/// runs out.
pub fn visible_line(alloc: Global, line: &str) -> Result<String, AllocError>
    ensures { IfOk result (λ text. string_bytes text ≡ line_as_seen line.now) }
{
    let mut text = String::new(alloc);
    let mut first = true;
    for character in line.chars() {
        push_of_line(&mut text, first, character)?;
        first = is_gap(character);
    }
    Ok(text)
}

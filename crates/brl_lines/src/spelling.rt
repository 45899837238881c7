//! The operand that spells a text.
ghost use Rattle.std.specs.Prelude.{◌≡◌, ◌++◌, Ok, IfOk, OnOk, string_bytes, find};
ghost use Rattle.std.specs.Str.{encode_utf8_all};
ghost use Rattle.brl_lines.specs.Escapes.{characters_of};
ghost use Rattle.brl_lines.specs.Spelling.{character_spelling, escape_marks, means, text_spelling};

use std::alloc::{AllocError, Global};

/// The mark of the escape of one mark that means a character.
pub(crate) fn escape_mark(character: char) -> Option<char>
    ensures { result ≡ find (means character) escape_marks }
{
    match character {
        '\\' => Some('\\'),
        '\u{c}' => Some('f'),
        '\n' => Some('n'),
        '\r' => Some('r'),
        ' ' => Some('s'),
        '\t' => Some('t'),
        '\u{b}' => Some('v'),
        '\u{1b}' => Some('e'),
        _ => None,
    }
}

/// Writes the marks that spell a character at the end of a text.
fn push_spelled(text: &mut String, character: char) -> Result<(), AllocError>
    ensures { OnOk result (string_bytes text.new ≡ string_bytes text.old ++ encode_utf8_all (character_spelling character)) }
{
    if let Some(mark) = escape_mark(character) {
        text.push('\\')?;
        return text.push(mark);
    }
    if character.is_ascii_control() {
        let code = u32::from(character);
        return write!(text, "\\x00{code:02x}");
    }
    text.push(character)
}

/// The one operand that spells characters, which `chars_of` reads back. A backslash, a blank, the
/// characters 9 to 13 and 27 are written by their escapes of one mark, all other characters below
/// 32 and 127 by `\x` and four hexadecimal digits in lower case, and every other character as
/// itself. So an operand has no blank and no line feed in it. `AllocError` where the text finds no
/// memory.
pub fn spell_chars(alloc: Global, characters: &[char]) -> Result<String, AllocError>
    ensures spelled { IfOk result (λ text. string_bytes text ≡ encode_utf8_all (text_spelling characters.now)) }
    ensures read_back { IfOk result (λ text. characters_of (string_bytes text) ≡ Ok characters.now) }
{
    let mut text = String::new(alloc);
    for character in characters {
        push_spelled(&mut text, *character)?;
    }
    Ok(text)
}

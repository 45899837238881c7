//! A line as its needs see it.
ghost use Rattle.std.specs.Prelude.{◌≡◌, map, option_map};
ghost use Rattle.brl_acting.specs.Forms.{form_of};
ghost use Rattle.brl_acting.specs.Words.{chars_at, word_at};

use crate::form::Form;

/// A line, its prefixes apart.
#[derive(Drop)]
pub(crate) struct Parts<'a> {
    pub kept: bool,
    pub continued: bool,
    /// Whether `nofor` is a prefix.
    pub nofor: bool,
    /// The classes that `before` and `after` name.
    pub classes: Vec<&'a str>,
    /// The opcode and the operands.
    pub words: Vec<&'a str>,
    /// The characters that the first operand spells, where there is one and they can be known.
    pub chars: Option<Vec<char>>,
    /// The form of the opcode's needs.
    pub form: Option<Form>,
    ghost form_is: { form ≡ form_of (word_at (map (λ word. word.now) words.items) 0) },
    ghost chars_are: { option_map (λ chars. chars.items) chars ≡ chars_at (map (λ word. word.now) words.items) 1 },
}

impl Parts<'_> {
    ghost use Rattle.std.specs.Prelude.{◌≡◌, []};
    ghost use Rattle.std.specs.Option.{unwrap_or};
    ghost use Rattle.brl_acting.specs.PartsViews.{parts_view};
    ghost use Rattle.brl_acting.specs.Words.{chars_at};

    /// The characters that the first operand spells; none where they can't be known.
    pub fn first_chars(&self) -> &[char]
        ensures { result.now ≡ unwrap_or (chars_at (parts_view self.now).words 1) [] }
    {
        match &self.chars {
            Some(chars) => chars.as_slice(),
            None => &[],
        }
    }
}

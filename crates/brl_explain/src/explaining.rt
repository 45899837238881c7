//! The text that explains a fault.
ghost use Rattle.std.specs.Prelude.{◌≡◌, map, option_map};
ghost use Rattle.std.specs.List.{after_first, before_first, find};
ghost use Rattle.brl_explain.specs.Explaining.{
  code_of as code_of_line,
  explains,
  is_blank,
  is_line_end,
  text_of_fault,
};

use crate::faults::FAULTS;

/// What comes before the first blank of a line; all of it where it has none.
pub(crate) fn first_word(line: &str) -> &str
    ensures { result.now ≡ before_first is_blank line.now }
{
    match line.split_once(' ') {
        Some((word, _)) => word,
        None => line,
    }
}

/// What comes after the first blank of a line.
pub(crate) fn after_first_word(line: &str) -> &str
    ensures { result.now ≡ after_first is_blank line.now }
{
    match line.split_once(' ') {
        Some((_, rest)) => rest,
        None => "",
    }
}

/// The code of a line: its first word, and where that is `refused:` the next.
pub(crate) fn code_of(line: &str) -> &str
    ensures { result.now ≡ code_of_line line.now }
{
    let word = first_word(line);
    if word == "refused:" {
        first_word(after_first_word(line))
    } else {
        word
    }
}

/// The first line of a text, without its end; all of it where it has one line.
fn first_line(text: &str) -> &str
    ensures { result.now ≡ before_first is_line_end text.now }
{
    match text.split_once('\n') {
        Some((line, _)) => line,
        None => text,
    }
}

/// The first of these texts that explains a code: its first word is the code.
fn find_code<'a>(texts: &[&'a str], code: &str) -> Option<&'a str>
    ensures { result ≡ find (λ text. explains code.now text.now) texts.now }
{
    texts
        .iter()
        .copied()
        .find(|text| first_word(first_line(text)) == code)
}

/// What explains the fault of a line: the text for the code that is the line's first word or, where
/// that is `refused:`, the next; a code alone is such a line. `None` where no fault has that code.
pub(crate) fn text_of_fault(line: &str) -> Option<&'static str>
    ensures { option_map (λ text. text.now) result ≡ text_of_fault line.now }
{
    text_among(&FAULTS, code_of(line))
}

/// The first of these texts that is for a code.
fn text_among<'a>(texts: &[&'a str], code: &str) -> Option<&'a str>
    ensures { option_map (λ text. text.now) result ≡ find (explains code.now) (map (λ text. text.now) texts.now) }
{
    find_code(texts, code)
}

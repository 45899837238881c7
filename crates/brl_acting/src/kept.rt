//! Which kept lines liblouis reads in another way, so that they can act.
ghost use Rattle.std.specs.Prelude.{◌≡◌, ◌∷◌, [], IfOk, map, true};
ghost use Rattle.std.specs.List.{list_any};
ghost use Rattle.std.specs.Option.{option_map_or};
ghost use Rattle.brl_acting.specs.Acting.{begins_alone as begins_alone_by, chars_act as chars_act_by, comes_late as comes_late_by, contraction_acts as contraction_acts_by, differs_by as differs_by_form, ends_run as ends_run_by, gets_sign as gets_sign_by, is_before_sign as is_before_sign_by, is_capital_rule as is_capital_rule_by, is_always_before as is_always_before_by, is_half_digit as is_half_digit_by, is_number_rule as is_number_rule_by, is_run_rule as is_run_rule_by, is_same_small as is_same_small_by, kept_acts as kept_acts_by, kept_rule_acts as kept_rule_acts_by, lacks_sign as lacks_sign_by, loses_sign as loses_sign_by, more_act as more_act_by, one_acts as one_acts_by, small_act as small_act_by, some_act as some_act_by};
ghost use Rattle.brl_acting.specs.Readings.{known_view, rule_view, small_by};
ghost use Rattle.brl_acting.specs.PartsViews.{parts_view};
ghost use Rattle.brl_acting.specs.Words.{chars_at as chars_by};

use crate::bases::has_opcode;
use crate::form::{Form, is_placed};
use crate::known::Known;
use crate::left_out::{each_at, list_acts};
use crate::line_parts::Parts;
use crate::operand::word_at;
use crate::readings::small;
use crate::rules::Rule;
use std::alloc::{AllocError, Global};

/// Whether this is an `always` rule of a character alone, before a place.
fn is_always_before(rule: &Rule<'_>, character: char, place: usize) -> bool
    ensures { result ≡ is_always_before_by place character (rule_view rule.now) }
{
    rule.opcode == "always" && rule.chars.as_slice() == [character].as_slice() && rule.place < place
}

/// Whether `letsign` may stand before a character, where it is rewritten.
fn gets_sign(known: &Known<'_>, character: char) -> bool
    ensures { result ≡ gets_sign_by (known_view known.now) character }
{
    known.read.letsign.is_some()
        && known.classes.letters.has(character)
        && !known.classes.noletsigns.has(character)
}

/// Whether a place is before the line with `letsign`.
fn is_before_sign(known: &Known<'_>, place: usize) -> bool
    ensures { result ≡ is_before_sign_by (known_view known.now) place }
{
    match known.read.letsign {
        Some(sign) => place < sign,
        None => false,
    }
}

/// Whether brl uses a rule of one character for the letter alone, and doesn't write `letsign`.
fn loses_sign(known: &Known<'_>, place: usize, opcode: &str, character: char) -> bool
    ensures { result ≡ loses_sign_by (known_view known.now) place opcode.now character }
{
    matches!(opcode, "sufword" | "prfword")
        && is_before_sign(known, place)
        && gets_sign(known, character)
}

/// Whether an `always` rule is before a rule of one character for a place. A contraction is read as
/// such a rule.
fn comes_late(known: &Known<'_>, place: usize, opcode: &str, character: char) -> bool
    ensures { result ≡ comes_late_by (known_view known.now) place opcode.now character }
{
    (is_placed(opcode) || opcode == "contraction")
        && has_always(known.read.rules.as_slice(), character, place)
}

/// Whether a rule of one character can act in another way.
fn one_acts(known: &Known<'_>, place: usize, opcode: &str, character: char) -> bool
    ensures { result ≡ one_acts_by (known_view known.now) place opcode.now character }
{
    if comes_late(known, place, opcode, character) || loses_sign(known, place, opcode, character) {
        known.reach.alphabet.has(character)
    } else {
        known.reach.over.has(character)
    }
}

/// Whether one of rules is an `always` rule of a character alone, before a place.
fn has_always(rules: &[Rule<'_>], character: char, place: usize) -> bool
    ensures { result ≡ list_any (is_always_before_by place character) (map rule_view rules.now) }
{
    rules
        .iter()
        .any(|rule| is_always_before(rule, character, place))
}

/// Whether one of rules does what brl makes of another one.
fn has_same(rules: &[Rule<'_>], place: usize, words: &[&str], small: &[char]) -> bool
    ensures { result ≡ list_any (is_same_small_by place (map (λ word. word.now) words.now) small.now) (map rule_view rules.now) }
{
    rules
        .iter()
        .any(|rule| is_same_small(rule, place, words, small))
}

/// Whether a rule does what brl makes of another one, which has capitals: it has the same opcode
/// and the small letters, and is earlier or has the same dots.
fn is_same_small(rule: &Rule<'_>, place: usize, words: &[&str], small: &[char]) -> bool
    ensures { result ≡ is_same_small_by place (map (λ word. word.now) words.now) small.now (rule_view rule.now) }
{
    rule.opcode == word_at(words, 0)
        && rule.chars.as_slice() == small
        && (rule.place < place || rule.dots == word_at(words, 2))
}

/// The small letters of characters.
fn small_letters(
    alloc: Global,
    bases: &[(char, char)],
    chars: &[char],
) -> Result<Vec<char>, AllocError>
    ensures { IfOk result (λ letters. letters.items ≡ map (small_by bases.now) chars.now) }
{
    let mut letters = Vec::with_capacity(alloc, chars.len())?;
    for character in chars {
        letters.push(small(bases, *character))?;
    }
    Ok(letters)
}

/// Whether a rule is one at whose place a run of capitals can end or begin.
fn is_run_rule(opcode: &str) -> bool
    ensures { result ≡ is_run_rule_by opcode.now }
{
    matches!(
        opcode,
        "prfword" | "endword" | "midword" | "begmidword" | "midendword"
    )
}

/// Whether a rule is one for numbers.
fn is_number_rule(opcode: &str) -> bool
    ensures { result ≡ is_number_rule_by opcode.now }
{
    matches!(opcode, "begnum" | "midnum" | "endnum")
}

/// Whether a rule with capitals is one that no other rule does.
fn is_capital_rule(
    alloc: Global,
    known: &Known<'_>,
    place: usize,
    parts: &Parts<'_>,
    chars: &[char],
) -> Result<bool, AllocError>
    ensures { IfOk result (λ is. is ≡ is_capital_rule_by (known_view known.now) place (parts_view parts.now) chars.now) }
{
    let small = small_letters(alloc, known.read.bases.as_slice(), chars)?;
    let words = parts.words.as_slice();
    let rules = known.read.rules.as_slice();
    Ok(!has_same(rules, place, words, small.as_slice()))
}

/// Whether a run of capitals ends or begins at a rule, where there are any.
fn ends_run(known: &Known<'_>, opcode: &str) -> bool
    ensures { result ≡ ends_run_by (known_view known.now) opcode.now }
{
    is_run_rule(opcode) && known.read.keeps_word && known.facts.has_capital
}

/// Whether characters begin with a letter alone before which `letsign` may stand.
fn begins_alone(known: &Known<'_>, chars: &[char]) -> bool
    ensures { result ≡ begins_alone_by (known_view known.now) chars.now }
{
    match chars {
        [first, second, ..] => gets_sign(known, *first) && !known.classes.letters.has(*second),
        _ => false,
    }
}

/// Whether a rule gets `letsign`, and a cut doesn't write it.
fn lacks_sign(known: &Known<'_>, opcode: &str, chars: &[char]) -> bool
    ensures { result ≡ lacks_sign_by (known_view known.now) opcode.now chars.now }
{
    matches!(opcode, "always" | "prfword" | "begmidword" | "partword") && begins_alone(known, chars)
}

/// Whether a rule of more characters without a capital can act in another way.
fn small_act(known: &Known<'_>, opcode: &str, chars: &[char]) -> bool
    ensures { result ≡ small_act_by (known_view known.now) opcode.now chars.now }
{
    (ends_run(known, opcode) || lacks_sign(known, opcode, chars))
        && known.reach.stood.has_all(chars)
}

/// Whether a rule of more characters can act in another way.
fn more_act(
    alloc: Global,
    known: &Known<'_>,
    place: usize,
    parts: &Parts<'_>,
    chars: &[char],
) -> Result<bool, AllocError>
    ensures { IfOk result (λ acts. acts ≡ more_act_by (known_view known.now) place (parts_view parts.now) chars.now) }
{
    if known.classes.capitals.has_any(chars) {
        if !known.reach.near.has_all(chars) {
            return Ok(false);
        }
        return is_capital_rule(alloc, known, place, parts, chars);
    }
    Ok(small_act(known, word_at(parts.words.as_slice(), 0), chars))
}

/// Whether a contraction of more characters can act in another way.
fn contraction_acts(known: &Known<'_>, chars: &[char]) -> bool
    ensures { result ≡ contraction_acts_by (known_view known.now) chars.now }
{
    known.reach.over.has_any(chars) && known.reach.stood.has_all(chars)
}

/// Whether a rule or a contraction of more characters can act in another way.
fn some_act(
    alloc: Global,
    known: &Known<'_>,
    place: usize,
    parts: &Parts<'_>,
    chars: &[char],
) -> Result<bool, AllocError>
    ensures { IfOk result (λ acts. acts ≡ some_act_by (known_view known.now) place (parts_view parts.now) chars.now) }
{
    if has_opcode(parts, "contraction") {
        return Ok(contraction_acts(known, chars));
    }
    more_act(alloc, known, place, parts, chars)
}

/// Whether a rule of these characters can act in another way.
fn chars_act(
    alloc: Global,
    known: &Known<'_>,
    place: usize,
    parts: &Parts<'_>,
    chars: &[char],
) -> Result<bool, AllocError>
    ensures { IfOk result (λ acts. acts ≡ chars_act_by (known_view known.now) place (parts_view parts.now) chars.now) }
{
    match chars {
        [character] => {
            let opcode = word_at(parts.words.as_slice(), 0);
            Ok(one_acts(known, place, opcode, *character))
        }
        _ => some_act(alloc, known, place, parts, chars),
    }
}

/// Whether a kept rule can act in another way.
fn kept_rule_acts(
    alloc: Global,
    known: &Known<'_>,
    place: usize,
    parts: &Parts<'_>,
) -> Result<bool, AllocError>
    ensures { IfOk result (λ acts. acts ≡ kept_rule_acts_by (known_view known.now) place (parts_view parts.now)) }
{
    let words = parts.words.as_slice();
    if is_number_rule(word_at(words, 0)) {
        let each = each_at(alloc, &known.reach.stood, words, 1)?;
        return Ok(known.facts.has_digit && each);
    }
    match &parts.chars {
        Some(chars) => chars_act(alloc, known, place, parts, chars.as_slice()),
        None => Ok(true),
    }
}

/// Whether a character is a digit of the alphabet that isn't both a plain and a `litdigit` one.
fn is_half_digit(known: &Known<'_>, character: char) -> bool
    ensures { result ≡ is_half_digit_by (known_view known.now) character }
{
    let is_plain = known.classes.plain_digits.has(character);
    let is_literary = known.classes.literary_digits.has(character);
    known.reach.alphabet.has(character) && (is_plain || is_literary) && !(is_plain && is_literary)
}

/// Whether a definition is one of such a digit.
fn defines_half_digit(known: &Known<'_>, parts: &Parts<'_>) -> bool
    ensures { result ≡ option_map_or (list_any (is_half_digit_by (known_view known.now))) (chars_by (parts_view parts.now).words 1) true }
{
    match &parts.chars {
        Some(chars) => has_half_digit(known, chars.as_slice()),
        None => true,
    }
}

/// Whether one of characters is such a digit.
fn has_half_digit(known: &Known<'_>, chars: &[char]) -> bool
    ensures { result ≡ list_any (is_half_digit_by (known_view known.now)) chars.now }
{
    chars
        .iter()
        .any(|character| is_half_digit(known, *character))
}

/// Whether a kept line can act in another way, by the form of its needs.
fn differs_by(
    alloc: Global,
    known: &Known<'_>,
    place: usize,
    parts: &Parts<'_>,
    form: Form,
) -> Result<bool, AllocError>
    ensures { IfOk result (λ acts. acts ≡ differs_by_form (known_view known.now) place (parts_view parts.now) form) }
{
    let words = parts.words.as_slice();
    match form {
        Form::Defines => { Ok(known.read.has_numsign && defines_half_digit(known, parts)) }
        Form::DigitList => list_acts(alloc, known, words),
        Form::Capitals => Ok(
            has_opcode(parts, "begcapsword")
                && known.facts.has_capital
                && (known.facts.has_caseless || !known.read.keeps_runs),
        ),
        Form::Rule => kept_rule_acts(alloc, known, place, parts),
        Form::Letsign => {
            let facts = &known.facts;
            Ok(facts.has_odd && (facts.has_letter || facts.has_capital))
        }
        _ => Ok(false),
    }
}

/// Whether a kept line can act in another way. One without a form never does.
pub(crate) fn kept_acts(
    alloc: Global,
    known: &Known<'_>,
    place: usize,
    parts: &Parts<'_>,
) -> Result<bool, AllocError>
    ensures { IfOk result (λ acts. acts ≡ kept_acts_by (known_view known.now) place (parts_view parts.now) parts.now.form) }
{
    let Some(form) = parts.form else {
        return Ok(false);
    };
    if parts.nofor {
        return Ok(false);
    }
    differs_by(alloc, known, place, parts, form)
}

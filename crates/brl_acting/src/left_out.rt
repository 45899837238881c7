//! Which lines that are left out can act.
ghost use Rattle.std.specs.Prelude.{◌≡◌, IfOk, map, option_map};
ghost use Rattle.std.specs.List.{list_all};
ghost use Rattle.brl_acting.specs.Acting.{acts_by as acts_by_form, any_at as any_by, base_acts as base_acts_by, defines_near as defines_near_by, each_at as each_by, faulty_acts as faulty_acts_by, gives_class as gives_class_by, is_defining as is_defining_by, is_definition_met as is_definition_met_by, list_acts as list_acts_by, mode_acts as mode_acts_by, pass_acts as pass_acts_by, rule_acts as rule_acts_by, text_acts as text_acts_by};
ghost use Rattle.brl_acting.specs.Capitals.{pair_chars as pair_by};
ghost use Rattle.brl_acting.specs.Readings.{known_view};
ghost use Rattle.brl_acting.specs.Sets.{set_view};
ghost use Rattle.brl_acting.specs.Tests.{is_class_met as is_class_by};
ghost use Rattle.brl_acting.specs.PartsViews.{parts_view};
ghost use Rattle.brl_acting.specs.Words.{chars_at as chars_by};

use crate::bases::pair_chars;
use crate::char_set::CharSet;
use crate::form::{Form, is_definition};
use crate::known::Known;
use crate::line_parts::Parts;
use crate::operand::{all_chars_at, chars_at, word_at};
use crate::tests_met::{is_class_met, is_pass_met, is_text_met};
use std::alloc::{AllocError, Global};

/// Whether one of characters is in a set; true where they can't be known.
fn any_in(set: &CharSet, chars: Option<Vec<char>>) -> bool
    ensures { result ≡ any_by (set_view set.now) (option_map (λ chars. chars.items) chars) }
{
    match chars {
        Some(chars) => set.has_any(chars.as_slice()),
        None => true,
    }
}

/// Whether one of the characters of the word at a place is in a set.
pub(crate) fn any_at(
    alloc: Global,
    set: &CharSet,
    words: &[&str],
    place: usize,
) -> Result<bool, AllocError>
    ensures { IfOk result (λ any. any ≡ any_by (set_view set.now) (chars_by (map (λ word. word.now) words.now) place)) }
{
    let chars = chars_at(alloc, words, place)?;
    Ok(any_in(set, chars))
}

/// Whether each is.
pub(crate) fn each_at(
    alloc: Global,
    set: &CharSet,
    words: &[&str],
    place: usize,
) -> Result<bool, AllocError>
    ensures { IfOk result (λ each. each ≡ each_by (set_view set.now) (map (λ word. word.now) words.now) place) }
{
    match all_chars_at(alloc, words, place)? {
        Some(chars) => Ok(set.has_all(chars.as_slice())),
        None => Ok(true),
    }
}

/// Whether a definition of these characters is near the alphabet.
fn is_definition_met(known: &Known<'_>, chars: &[char]) -> bool
    ensures { result ≡ is_definition_met_by (known_view known.now) chars.now }
{
    known.reach.near.has_any(chars)
        && (known.facts.has_capital || !known.classes.capitals.has_any(chars))
}

/// Whether a line that defines a character can act.
fn defines_near(alloc: Global, known: &Known<'_>, parts: &Parts<'_>) -> Result<bool, AllocError>
    ensures { IfOk result (λ acts. acts ≡ defines_near_by (known_view known.now) (parts_view parts.now).words) }
{
    if let Some(chars) = &parts.chars {
        return Ok(is_definition_met(known, chars.as_slice()));
    }
    match all_chars_at(alloc, parts.words.as_slice(), 1)? {
        Some(chars) => Ok(is_definition_met(known, chars.as_slice())),
        None => Ok(true),
    }
}

/// Whether an `attribute` or a `class` line can act.
fn gives_class(alloc: Global, known: &Known<'_>, words: &[&str]) -> Result<bool, AllocError>
    ensures { IfOk result (λ acts. acts ≡ gives_class_by (known_view known.now) (map (λ word. word.now) words.now)) }
{
    if words.get(2).is_none() {
        return Ok(true);
    }
    let any = any_at(alloc, &known.reach.stood, words, 2)?;
    Ok(is_definition(word_at(words, 1)) && any)
}

/// Whether a `context` or a `correct` line can act.
fn text_acts(alloc: Global, known: &Known<'_>, words: &[&str]) -> Result<bool, AllocError>
    ensures { IfOk result (λ acts. acts ≡ text_acts_by (known_view known.now) (map (λ word. word.now) words.now)) }
{
    match words.get(1) {
        Some(test) => is_text_met(alloc, known, test),
        None => Ok(true),
    }
}

/// Whether a `pass2`, `pass3` or `pass4` line can act.
fn pass_acts(alloc: Global, known: &Known<'_>, words: &[&str]) -> Result<bool, AllocError>
    ensures { IfOk result (λ acts. acts ≡ pass_acts_by (known_view known.now) (map (λ word. word.now) words.now)) }
{
    match words.get(1) {
        Some(test) => is_pass_met(alloc, known, test),
        None => Ok(true),
    }
}

/// Whether a line of a mode of one's own can act.
fn mode_acts(known: &Known<'_>, words: &[&str]) -> bool
    ensures { result ≡ mode_acts_by (known_view known.now) (map (λ word. word.now) words.now) }
{
    match words.get(1) {
        Some(name) => known.classes.met.has(name.as_bytes()),
        None => true,
    }
}

/// Whether a line of two characters can act.
fn pair_acts(alloc: Global, known: &Known<'_>, parts: &Parts<'_>) -> Result<bool, AllocError>
    ensures { IfOk result (λ acts. acts ≡ any_by (known_view known.now).reach.near (pair_by (parts_view parts.now))) }
{
    let chars = pair_chars(alloc, parts)?;
    Ok(any_in(&known.reach.near, chars))
}

/// Whether a `base` line can act.
fn base_acts(alloc: Global, known: &Known<'_>, parts: &Parts<'_>) -> Result<bool, AllocError>
    ensures { IfOk result (λ acts. acts ≡ base_acts_by (known_view known.now) (parts_view parts.now)) }
{
    let any = pair_acts(alloc, known, parts)?;
    let is_capital = word_at(parts.words.as_slice(), 1) == "uppercase";
    Ok(any && (known.facts.has_capital || !is_capital))
}

/// Whether all classes that the prefixes of a line name are met.
fn are_classes_met(known: &Known<'_>, parts: &Parts<'_>) -> bool
    ensures { result ≡ list_all (is_class_by (known_view known.now)) (parts_view parts.now).classes }
{
    parts
        .classes
        .iter()
        .all(|name| is_class_met(known, name.as_bytes()))
}

/// Whether a rule can act whose characters are all to be in a set.
fn rule_acts(
    alloc: Global,
    known: &Known<'_>,
    set: &CharSet,
    parts: &Parts<'_>,
) -> Result<bool, AllocError>
    ensures { IfOk result (λ acts. acts ≡ rule_acts_by (known_view known.now) (set_view set.now) (parts_view parts.now)) }
{
    let each = each_at(alloc, set, parts.words.as_slice(), 1)?;
    Ok(each && are_classes_met(known, parts))
}

/// Whether a line that lists characters for numbers can act.
pub(crate) fn list_acts(
    alloc: Global,
    known: &Known<'_>,
    words: &[&str],
) -> Result<bool, AllocError>
    ensures { IfOk result (λ acts. acts ≡ list_acts_by (known_view known.now) (map (λ word. word.now) words.now)) }
{
    let any = any_at(alloc, &known.reach.alphabet, words, 1)?;
    Ok(known.facts.has_digit && any)
}

/// Whether a line that is left out can act, by the form of its needs.
fn acts_by(
    alloc: Global,
    known: &Known<'_>,
    parts: &Parts<'_>,
    form: Form,
) -> Result<bool, AllocError>
    ensures { IfOk result (λ acts. acts ≡ acts_by_form (known_view known.now) (parts_view parts.now) form) }
{
    let words = parts.words.as_slice();
    match form {
        Form::Never => Ok(false),
        Form::Defines => defines_near(alloc, known, parts),
        Form::Base => base_acts(alloc, known, parts),
        Form::Uplow => pair_acts(alloc, known, parts),
        Form::Grouping => any_at(alloc, &known.reach.stood, words, 2),
        Form::Class => gives_class(alloc, known, words),
        Form::Rule => rule_acts(alloc, known, &known.reach.stood, parts),
        Form::Block => rule_acts(alloc, known, &known.reach.near, parts),
        Form::Match => each_at(alloc, &known.reach.stood, words, 2),
        Form::Text => text_acts(alloc, known, words),
        Form::Pass => pass_acts(alloc, known, words),
        Form::Capitals => Ok(known.facts.has_capital),
        Form::Digits => Ok(known.facts.has_digit),
        Form::DigitList => list_acts(alloc, known, words),
        Form::Mode => Ok(mode_acts(known, words)),
        Form::Sequence => Ok(known.facts.has_mark),
        Form::Letsign => Ok(known.facts.has_letter && known.read.letsign.is_none()),
    }
}

/// Whether a form is that of definitions, which act after `nofor`, too.
fn is_defining(form: Form) -> bool
    ensures { result ≡ is_defining_by form }
{
    matches!(form, Form::Defines)
}

/// Whether a line that is left out for a fault can act. One without a form always can.
pub(crate) fn faulty_acts(
    alloc: Global,
    known: &Known<'_>,
    parts: &Parts<'_>,
) -> Result<bool, AllocError>
    ensures { IfOk result (λ acts. acts ≡ faulty_acts_by (known_view known.now) (parts_view parts.now) parts.now.form) }
{
    let Some(form) = parts.form else {
        return Ok(true);
    };
    if parts.nofor && !is_defining(form) {
        return Ok(false);
    }
    acts_by(alloc, known, parts, form)
}

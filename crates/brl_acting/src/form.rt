//! The form of needs that the lines of an opcode have.
ghost use Rattle.std.specs.Prelude.{◌≡◌};
ghost use Rattle.std.specs.List.{list_any};
ghost use Rattle.std.specs.Str.{bytes_eq};
ghost use Rattle.brl_acting.specs.Forms.{defines as defines_by, form_in, form_of as form_by, indicator_forms, is_definition as is_definition_by, is_never as is_never_by, is_other_rule as is_other_rule_by, is_placed as is_placed_by, line_form as line_form_by, other_forms, tells_of_characters as tells_by};

/// What a line needs to act on a text.
#[derive(Clone, Copy)]
pub(crate) enum Form {
    /// It never acts.
    Never,
    /// A character that it defines.
    Defines,
    /// One of two characters, which `base` names.
    Base,
    /// One of the two characters of an `uplow` line.
    Uplow,
    /// One of the two characters that `grouping` names.
    Grouping,
    /// A character to which it gives a class of the manual.
    Class,
    /// Each of its characters.
    Rule,
    /// Each of its characters, or its capital.
    Block,
    /// Each of the characters between two patterns.
    Match,
    /// What its test asks of a text.
    Text,
    /// What its test asks of cells.
    Pass,
    /// A capital.
    Capitals,
    /// A digit.
    Digits,
    /// A digit, and one of its characters.
    DigitList,
    /// A character of the class that it names.
    Mode,
    /// A character that is neither a letter nor a space.
    Sequence,
    /// A letter before which a sign may stand.
    Letsign,
}

/// The opcodes that define characters, which are the names of the classes of the manual, too.
const DEFINES: [&str; 9] = [
    "space",
    "punctuation",
    "digit",
    "letter",
    "lowercase",
    "uppercase",
    "sign",
    "math",
    "litdigit",
];

/// The opcodes of rules for a place.
const PLACED: [&str; 12] = [
    "word",
    "sufword",
    "prfword",
    "begword",
    "begmidword",
    "midword",
    "midendword",
    "endword",
    "partword",
    "begnum",
    "midnum",
    "endnum",
];

/// The other opcodes whose characters stand in the text where they act.
const OTHER_RULES: [&str; 17] = [
    "always",
    "repeated",
    "replace",
    "joinnum",
    "joinword",
    "lowword",
    "largesign",
    "prepunc",
    "postpunc",
    "syllable",
    "repword",
    "rependword",
    "decpoint",
    "hyphen",
    "exactdots",
    "compdots",
    "contraction",
];

/// The opcodes whose lines never act by themselves.
const NEVER_ACTS: [&str; 25] = [
    "emphclass",
    "begemph",
    "endemph",
    "noemphchars",
    "emphletter",
    "begemphword",
    "endemphword",
    "emphmodechars",
    "begemphphrase",
    "endemphphrase",
    "lenemphphrase",
    "begcomp",
    "endcomp",
    "comp6",
    "multind",
    "undefined",
    "display",
    "locale",
    "noletsign",
    "noletsignbefore",
    "noletsignafter",
    "swapcc",
    "swapcd",
    "swapdd",
    "backmatch",
];

/// The opcodes of indicators of capitals.
const CAPITALS: [&str; 11] = [
    "begcaps",
    "endcaps",
    "begcapsphrase",
    "endcapsphrase",
    "begcapsword",
    "endcapsword",
    "capsletter",
    "capsign",
    "capsmodechars",
    "capsnocont",
    "lencapsphrase",
];

/// The opcodes of indicators of numbers.
const DIGITS: [&str; 3] = ["numsign", "nonumsign", "nocontractsign"];

/// The opcodes that list characters for numbers.
const DIGIT_LISTS: [&str; 3] = [
    "numericmodechars",
    "numericnocontchars",
    "midendnumericmodechars",
];

/// The opcodes of modes of one's own.
const MODES: [&str; 8] = [
    "modeletter",
    "begmodeword",
    "endmodeword",
    "begmode",
    "endmode",
    "begmodephrase",
    "endmodephrase",
    "lenmodephrase",
];

/// The opcodes of sequences that stand alone.
const SEQUENCES: [&str; 5] = [
    "seqdelimiter",
    "seqbeforechars",
    "seqafterchars",
    "seqafterpattern",
    "seqafterexpression",
];

/// Whether a word is one of these.
pub(crate) fn is_among(word: &str, words: &[&str]) -> bool
    ensures { result ≡ list_any (λ other. bytes_eq word.now other.now) words.now }
{
    words.iter().any(|other| word == *other)
}

/// Whether a word is an opcode of definitions, and so the name of a class of the manual.
#[tactic(auto, unfolding(crate::specs::Forms::is_definition))]
pub(crate) fn is_definition(word: &str) -> bool
    ensures { result ≡ is_definition_by word.now }
{
    is_among(word, &DEFINES)
}

/// Whether a word is an opcode of rules for a place.
#[tactic(auto, unfolding(crate::specs::Forms::is_placed))]
pub(crate) fn is_placed(word: &str) -> bool
    ensures { result ≡ is_placed_by word.now }
{
    is_among(word, &PLACED)
}

/// Whether it is another opcode whose characters stand in the text where its lines act.
#[tactic(auto, unfolding(crate::specs::Forms::is_other_rule))]
fn is_other_rule(word: &str) -> bool
    ensures { result ≡ is_other_rule_by word.now }
{
    is_among(word, &OTHER_RULES)
}

/// Whether a form is that of definitions.
pub(crate) fn defines(form: Option<Form>) -> bool
    ensures { result ≡ defines_by form }
{
    matches!(form, Some(Form::Defines))
}

/// Whether lines of a form can give characters classes beside definitions, or list letters for
/// `letsign`. The opcodes of others need not be compared with those that do.
pub(crate) fn tells_of_characters(form: Option<Form>) -> bool
    ensures { result ≡ tells_by form }
{
    matches!(
        form,
        Some(Form::Class | Form::Base | Form::Uplow | Form::Never)
    )
}

/// Whether lines of an opcode never act.
#[tactic(auto, unfolding(crate::specs::Forms::is_never))]
fn never_acts(word: &str) -> bool
    ensures { result ≡ is_never_by word.now }
{
    is_among(word, &NEVER_ACTS)
}

/// The form of an opcode's needs. `None` for a word that is no opcode, or whose lines aren't
/// understood.
#[tactic(auto, unfolding(crate::specs::Forms::form_of))]
pub(crate) fn form_of(word: &str) -> Option<Form>
    ensures { result ≡ form_by word.now }
{
    line_form(word)
        .or_else(|| indicator_form(word))
        .or_else(|| other_form(word))
}

/// The form for definitions, rules, and lines that never act.
fn line_form(word: &str) -> Option<Form>
    ensures { result ≡ line_form_by word.now }
{
    if is_definition(word) {
        Some(Form::Defines)
    } else if is_placed(word) {
        Some(Form::Rule)
    } else if is_other_rule(word) {
        Some(Form::Rule)
    } else if never_acts(word) {
        Some(Form::Never)
    } else {
        None
    }
}

/// The form for the opcodes of indicators and sequences.
fn indicator_form(word: &str) -> Option<Form>
    ensures { result ≡ form_in indicator_forms word.now }
{
    if is_among(word, &CAPITALS) {
        Some(Form::Capitals)
    } else if is_among(word, &DIGITS) {
        Some(Form::Digits)
    } else if is_among(word, &DIGIT_LISTS) {
        Some(Form::DigitList)
    } else if is_among(word, &MODES) {
        Some(Form::Mode)
    } else if is_among(word, &SEQUENCES) {
        Some(Form::Sequence)
    } else {
        None
    }
}

/// The form for the other opcodes.
fn other_form(word: &str) -> Option<Form>
    ensures { result ≡ form_in other_forms word.now }
{
    match word {
        "compbrl" | "literal" | "nocont" => Some(Form::Block),
        "attribute" | "class" => Some(Form::Class),
        "context" | "correct" => Some(Form::Text),
        "pass2" | "pass3" | "pass4" => Some(Form::Pass),
        "base" => Some(Form::Base),
        "uplow" => Some(Form::Uplow),
        "grouping" => Some(Form::Grouping),
        "match" => Some(Form::Match),
        "letsign" => Some(Form::Letsign),
        _ => None,
    }
}

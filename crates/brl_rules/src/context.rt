//! What comes before a position of a text.
use crate::{Class, Info, Sign, Table};
use bitflags::Flags;

/// What a position of a text knows of the characters before it: the classes of the last one (class
/// space at the text's start), whether numeric mode holds, and whether a run of capitals goes
/// there.
#[derive(Clone, Copy, PartialEq, Eq, Hash, Debug)]
pub struct Context {
    pub classes: Class,
    pub numeric: bool,
    /// Whether the two characters before are capitals, in a table with word capitals.
    pub run: bool,
}

impl Context {
    /// The start of a text.
    pub const START: Context = Context {
        classes: Class::SPACE,
        numeric: false,
        run: false,
    };
}

impl Table {
    ghost use Rattle.std.specs.Prelude.{◌≡◌, ℕ, List, Some};
    ghost use Rattle.brl_rules.specs.Infos.{AreInfosOf, first_info};
    ghost use Rattle.brl_rules.specs.TableView.{info_of};
    ghost use Rattle.brl_rules.specs.Text.{are_caps_run, context_after, context_after_all, has_word_capitals, is_in_caps_run};

    /// Whether the table has word capitals: it defines `begcapsword`.
    pub fn has_word_capitals(&self) -> bool
        ensures { result ≡ has_word_capitals self.now }
    {
        !self.indicator(Sign::BegCapsWord).is_empty()
    }

    /// Whether two characters of these classes, in a row, make a run of capitals.
    fn are_caps_run(&self, first: Class, second: Class) -> bool
        ensures { result ≡ are_caps_run self.now first second }
    {
        second.intersects(Class::UPPERCASE)
            && first.intersects(Class::UPPERCASE)
            && self.has_word_capitals()
    }

    /// Whether a rest of a text begins in a run of capitals: with a capital that comes before or
    /// after another one. The character before has these classes. Never so in a table without word
    /// capitals. `rest` is the text to its end.
    pub fn is_in_caps_run(&self, before: Class, rest: &[char]) -> bool
        ensures { result ≡ is_in_caps_run self.now before rest.now }
    {
        match rest.first() {
            Some(first) => match self.info(*first) {
                Some(info) => self.is_in_caps_run_of(info, before, rest),
                None => false,
            },
            None => false,
        }
    }

    /// Whether `rest` begins in a run of capitals, given the info of its first character.
    pub fn is_in_caps_run_of(&self, info: &Info, before: Class, rest: &[char]) -> bool
        requires { first_info self.now rest.now ≡ Some info.now }
        ensures { result ≡ is_in_caps_run self.now before rest.now }
    {
        if !info.classes.intersects(Class::UPPERCASE) || !self.has_word_capitals() {
            return false;
        }
        before.intersects(Class::UPPERCASE) || self.classes_at(rest, 1).intersects(Class::UPPERCASE)
    }

    /// The context after one more character, given its info.
    pub fn context_after_info(&self, here: Context, info: &Info) -> Context
        ensures { (c : ℕ) → info_of self.now c ≡ Some info.now → result ≡ context_after self.now here c }
    {
        Context {
            classes: info.classes,
            numeric: info.literary || info.mode && here.numeric,
            run: self.are_caps_run(here.classes, info.classes),
        }
    }

    /// The context after more characters, given their infos.
    pub fn context_after_infos(&self, here: Context, infos: &[&Info]) -> Context
        ensures { (chars : List ℕ) → AreInfosOf self.now chars infos.now →
            result ≡ context_after_all self.now here chars }
    {
        let mut context = here;
        for info in infos {
            context = self.context_after_info(context, info);
        }
        context
    }

    /// The context after more characters.
    pub fn context_after(&self, here: Context, chars: &[char]) -> Context
        ensures { result ≡ context_after_all self.now here chars.now }
    {
        let mut context = here;
        for character in chars {
            context = self.behind(context, *character);
        }
        context
    }

    /// The context after one more character.
    fn behind(&self, here: Context, character: char) -> Context
        ensures { result ≡ context_after self.now here character }
    {
        match self.info(character) {
            Some(info) => self.context_after_info(here, info),
            None => Context {
                classes: Class::NONE,
                numeric: false,
                run: false,
            },
        }
    }
}

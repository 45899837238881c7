//! Sets of words.
ghost use Rattle.std.specs.Prelude.{◌≡◌, ◌||◌, OnOk};
ghost use Rattle.std.specs.Str.{bytes_eq};
ghost use Rattle.brl_acting.specs.Sets.{names_view};

use std::alloc::AllocError;

/// A small set of words: the names of classes.
#[derive(Drop)]
pub(crate) struct NameSet<'a> {
    pub names: Vec<&'a str>,
}

impl<'a> NameSet<'a> {
    /// Adds a word.
    pub fn add(&mut self, name: &'a str) -> Result<(), AllocError>
        ensures { OnOk result (names_view self.new ≡ (λ word. names_view self.old word || bytes_eq word name.now)) }
    {
        if !self.has_word(name) {
            self.names.push(name)?;
        }
        Ok(())
    }

    /// Whether a word is in the set.
    fn has_word(&self, name: &str) -> bool
        ensures { result ≡ names_view self.now name.now }
    {
        self.names.iter().any(|other| name == *other)
    }

    /// Whether these bytes are a word in the set.
    pub fn has(&self, name: &[u8]) -> bool
        ensures { result ≡ names_view self.now name.now }
    {
        self.names.iter().any(|other| name == other.as_bytes())
    }
}

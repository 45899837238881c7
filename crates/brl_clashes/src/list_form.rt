//! In which form a list of clashes is shown.
ghost use Rattle.std.specs.Prelude.{◌≡◌};
ghost use Rattle.brl_clashes.specs.SectionText.{first_of, others_words};

/// What is shown of the pairs of rules of each section.
#[derive(Clone, Copy)]
pub enum ListForm<'a> {
    /// A line for each pair where few have one, else a line for each kind of them.
    Screen,
    /// A line for each of the first `first` pairs, and for all where it is 0; for those of one kind
    /// alone, where its key is given.
    Pairs { first: usize, key: Option<&'a str> },
    /// Columns for programs: a line for each pair, or for each of one kind, where its key is given.
    Columns { key: Option<&'a str> },
}

impl ListForm<'_> {
    /// How many of the clashes that have a line are shown; 0 means all.
    pub(crate) fn first(self) -> usize
        ensures { result ≡ first_of self.entry }
    {
        match self {
            ListForm::Pairs { first, .. } => first,
            ListForm::Screen | ListForm::Columns { .. } => 0,
        }
    }

    /// What the clashes without a line are.
    pub(crate) fn others(self) -> &'static str
        ensures { result.now ≡ others_words self.entry }
    {
        match self {
            ListForm::Pairs { key: Some(_), .. } => " of other kinds",
            _ => " of other characters of the sets",
        }
    }
}

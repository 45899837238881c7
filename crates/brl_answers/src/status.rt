//! The exit statuses.

/// How the program ends.
#[derive(Clone, Copy, PartialEq, Eq, Debug)]
pub enum Status {
    /// The work was done: text was translated, two texts don't clash, or a certificate was found or
    /// accepted.
    Done,
    /// Two texts clash, or a certificate is refused.
    Refuted,
    /// The words, a file, the table, a text, the input or the output had a fault.
    Faulty,
    /// Nothing was decided: memory ran out, a search passed its limit, or a table is too wide for a
    /// certificate of version 1.
    Undecided,
}

impl Status {
    ghost use Rattle.std.specs.Prelude.{◌≡◌};
    ghost use Rattle.brl_answers.specs.Status.{code_of};

    /// The number that the operating system gets: 0, 1, 2 or 3, in the order of the variants.
    pub fn code(self) -> u8
        ensures { result ≡ code_of self }
    {
        match self {
            Status::Done => 0,
            Status::Refuted => 1,
            Status::Faulty => 2,
            Status::Undecided => 3,
        }
    }
}

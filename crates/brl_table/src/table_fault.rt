//! The faults of lines that define no table.
ghost use Rattle.std.specs.Prelude.{◌≡◌, Some};
ghost use Rattle.brl_table.specs.FaultText.{kind_text};

use std::error::Error;
use std::fmt;
use std::marker::Model;

/// The kinds of faults of a line.
#[derive(Clone, Copy, PartialEq, Eq, Debug)]
pub enum TableFaultKind {
    /// Its opcode isn't in the profile.
    OutsideProfile,
    /// It has fewer operands than its opcode needs.
    MissingOperand,
    /// A character operand has a bad escape, or doesn't spell the characters that the opcode asks
    /// for.
    BadCharacters,
    /// A dots operand spells no cells, or too many.
    BadDots,
    /// The table doesn't define a character of its rule.
    UndefinedInRule,
    /// The table doesn't define a character of its list.
    UndefinedInList,
    /// A character that it lists as one that could be read as a digit is a digit: it has a
    /// `litdigit` line.
    TwoRoles,
    /// Its rule has too many characters, or it gives the table too many characters or used rules.
    TooMany,
    /// It defines an indicator again.
    IndicatorTwice,
}

impl TableFaultKind {
    /// Its code and its name.
    fn text(&self) -> &'static str
        ensures { result.now ≡ kind_text self.now }
    {
        match self {
            TableFaultKind::OutsideProfile => "B1 OutsideProfile",
            TableFaultKind::MissingOperand => "B2 MissingOperand",
            TableFaultKind::BadCharacters => "B3 BadCharacters",
            TableFaultKind::BadDots => "B4 BadDots",
            TableFaultKind::UndefinedInRule => "B5 UndefinedInRule",
            TableFaultKind::UndefinedInList => "B6 UndefinedInList",
            TableFaultKind::TwoRoles => "B7 TwoRoles",
            TableFaultKind::TooMany => "B8 TooMany",
            TableFaultKind::IndicatorTwice => "B9 IndicatorTwice",
        }
    }
}

impl fmt::Display for TableFaultKind {
    ghost output = { λ kind. Some (kind_text kind) };

    fn fmt<W: fmt::Write>(&self, f: &mut fmt::Formatter<W>) -> fmt::Result {
        f.write_str(self.text())
    }
}

impl Error for TableFaultKind {}

/// A fault of a line of a table: its kind, the word of the line that it is about, and the line.
#[derive(Debug, Drop)]
pub struct TableFault {
    pub kind: TableFaultKind,
    pub subject: String,
    /// The path of the line's file.
    pub file: String,
    /// The line's number in its file, from 1.
    pub line: u32,
}

impl fmt::Display for TableFault {
    ghost use Rattle.brl_table.specs.FaultText.{fault_text, located_fault};

    ghost output = { λ found. Some (fault_text (located_fault found)) };

    fn fmt<W: fmt::Write>(&self, f: &mut fmt::Formatter<W>) -> fmt::Result {
        write!(
            f,
            "{} {} at {}:{}",
            self.kind, self.subject, self.file, self.line
        )
    }
}

impl Error for TableFault {}

/// The fault of a line by itself: its kind, and the word that it is about.
#[derive(Drop)]
pub(crate) struct WordFault {
    pub kind: TableFaultKind,
    pub subject: String,
}

impl Model for WordFault {
    ghost use Rattle.std.specs.Prelude.{string_bytes};
    ghost use Rattle.brl_table.specs.Items.{Fault, fault};

    ghost Value = { Fault };

    ghost view = { λ found. fault found.kind (string_bytes found.subject) };
}

//! The faults of a file of pairs of rules.
ghost use Rattle.std.specs.Prelude.{◌≡◌, Some};
ghost use Rattle.brl_accepted.specs.FaultText.{kind_text};

use std::error::Error;
use std::fmt;

/// The kinds of faults of a line.
#[derive(Clone, Copy, PartialEq, Eq, Debug)]
pub enum ExcuseFaultKind {
    /// It isn't what two rules of the table say.
    NoSuchRules,
    /// None of the pairs of rules that it names is listed, and the list is whole.
    NotListed,
    /// It begins as the line of a set, but names no characters that are in one set of the table.
    NoSuchSet,
}

impl ExcuseFaultKind {
    /// Its code and its name.
    fn text(&self) -> &'static str
        ensures { result.now ≡ kind_text self.now }
    {
        match self {
            ExcuseFaultKind::NoSuchRules => "P1 NoSuchRules",
            ExcuseFaultKind::NotListed => "P2 NotListed",
            ExcuseFaultKind::NoSuchSet => "P3 NoSuchSet",
        }
    }
}

impl fmt::Display for ExcuseFaultKind {
    ghost output = { λ kind. Some (kind_text kind) };

    fn fmt<W: fmt::Write>(&self, f: &mut fmt::Formatter<W>) -> fmt::Result {
        f.write_str(self.text())
    }
}

impl Error for ExcuseFaultKind {}

/// A fault of a line of a file of pairs of rules: its kind, the line as it is written, and its
/// place.
#[derive(Debug, Drop)]
pub struct ExcuseFault {
    pub kind: ExcuseFaultKind,
    pub subject: String,
    /// The path of the file.
    pub file: String,
    /// The line's number, from 1.
    pub line: usize,
}

impl fmt::Display for ExcuseFault {
    ghost use Rattle.brl_accepted.specs.FaultText.{fault_text};

    ghost output = { λ found. Some (fault_text found) };

    fn fmt<W: fmt::Write>(&self, f: &mut fmt::Formatter<W>) -> fmt::Result {
        write!(
            f,
            "{} {} at {}:{}",
            self.kind, self.subject, self.file, self.line
        )
    }
}

impl Error for ExcuseFault {}

/// The stale lines of a file, in order: those with a fault. They are shown one after another.
#[derive(Debug, Drop)]
pub struct StaleLines(pub Vec<ExcuseFault>);

impl fmt::Display for StaleLines {
    fn fmt<W: fmt::Write>(&self, f: &mut fmt::Formatter<W>) -> fmt::Result {
        let mut before = "";
        for fault in &self.0 {
            write!(f, "{before}{fault}")?;
            before = "\n";
        }
        Ok(())
    }
}

impl Error for StaleLines {}

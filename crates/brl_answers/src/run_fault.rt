//! Why the program stopped before its work was done.
ghost use Rattle.std.specs.Prelude.{◌≡◌};
ghost use Rattle.brl_answers.specs.Status.{of_cut_fault, of_failure, of_no_table, status_of};
ghost use Rattle.brl_answers.specs.declared.run_fault.RunFault.{RunFault};
ghost use Rattle.brl_answers.specs.declared.run_fault.RunFault.TheVariants.{Confirm, Load, Memory, NotDefined, OutputFailed, Stream, Table, Text};

use crate::new_files::NewFile;
use crate::status::Status;
use brl_accepted::StaleLines;
use brl_cut::CutFault;
use brl_failure::Failure;
use brl_forward::{ConfirmFault, ForwardFault};
use brl_lines::{GatherFault, LeadsOut, LoadFault};
use brl_stream::{Failed, StreamFault};
use brl_table::{NoTable, TableFault};
use brl_window::TooWide;
use brl_without::Undefined;
use std::alloc::AllocError;
use std::fmt;
use std::io::Write;
use thiserror::Error;

/// What follows the path of a file that couldn't be written: those that were written before it,
/// where there are some.
#[derive(Clone, Copy)]
struct AfterThese<'a>(&'a Vec<NewFile>);

impl fmt::Display for AfterThese<'_> {
    fn fmt<W: fmt::Write>(&self, f: &mut fmt::Formatter<W>) -> fmt::Result {
        let mut before = "; written before it: ";
        for file in self.0 {
            write!(f, "{before}{}", file.path)?;
            before = ", ";
        }
        Ok(())
    }
}

/// The fault that ended the work. It is shown as the line that standard error gets.
#[derive(Debug, Drop, Error)]
pub enum RunFault {
    /// The table's file was refused.
    #[error("{0}")]
    Load(LoadFault),
    /// A line of the table was refused.
    #[error("{0}")]
    Table(TableFault),
    /// The input wasn't translated to its end.
    #[error("{0}")]
    Stream(StreamFault),
    /// A text to be compared has a character that the table doesn't define.
    #[error("{0}")]
    Confirm(ConfirmFault),
    /// The text to be traced has a character that the table doesn't define.
    #[error("{0} at text")]
    Text(ForwardFault),
    /// The certificate lists states of a window machine, and the table has none.
    #[error("{0}")]
    Wide(TooWide),
    /// A text spells no characters, as this is written.
    #[error("F2 BadText {0}")]
    BadText(String),
    /// No rule of the table has this number.
    #[error("error: the table has no rule {0}")]
    NoSuchRule(u32),
    /// No fault has the code of this line.
    #[error("error: no fault is written as {0}")]
    NoSuchFault(String),
    /// The option of what is left out spells no characters, as this is written.
    #[error("U9 BadLeftOut {0}")]
    BadLeftOut(String),
    /// The option of the only characters that texts may have spells none, as this is written.
    #[error("U11 BadOnly {0}")]
    BadOnly(String),
    /// The table doesn't define the characters of which texts are to be made.
    #[error("{0}")]
    NotDefined(Undefined),
    /// The file for the certificate is this one of the files that are read.
    #[error("error: the certificate would overwrite {0}, a file that is read")]
    WouldOverwrite(String),
    /// The file for the pairs of a list is this one of the files that are read.
    #[error("error: the pairs of rules would overwrite {0}, a file that is read")]
    PairsWouldOverwrite(String),
    /// These lines of a file of accepted pairs are stale.
    #[error("{0}")]
    Accept(StaleLines),
    /// Something is at the path of a file that is to be made, or an earlier one has this path.
    #[error("error: {0} is there already")]
    AlreadyThere(String),
    /// A line of a table to be cut includes a file by a name that leads out of the table's folder.
    #[error("error: {0}")]
    LeadsOut(LeadsOut),
    /// The writer failed at an answer, or at help or the version; some first bytes of it may be
    /// written.
    #[error("U4 OutputFailed")]
    OutputFailed,
    /// The file at this path couldn't be written, and what is there now isn't known. Those that
    /// were made before it stay.
    #[error("U7 CannotWrite {path}{after}", after = AfterThese(.made))]
    CannotWrite { path: String, made: Vec<NewFile> },
    /// Memory ran out.
    #[error("Memory")]
    Memory,
}

impl RunFault {
    /// The status: nothing was decided where memory ran out and where the table is too wide for a
    /// certificate of version 1, else there is a fault.
    pub fn status(&self) -> Status
        ensures { result ≡ status_of self.now }
    {
        match self {
            RunFault::Memory | RunFault::Wide(_) => Status::Undecided,
            _ => Status::Faulty,
        }
    }

    /// Writes its line to standard error, where what can't be written is dropped, and answers its
    /// status.
    pub fn report<E: Write>(&self, err: &mut E) -> Status
        ensures { result ≡ status_of self.now }
    {
        let _ = writeln!(err, "{self}");
        self.status()
    }
}

impl From<AllocError> for RunFault {
    ghost from_gives = { λ _ fault. fault ≡ Memory };

    fn from(_error: AllocError) -> RunFault {
        RunFault::Memory
    }
}

/// A fault of a step, which ends the work as a fault of the program.
pub trait EndsRun {
    // the fault of the program
    ghost run_fault: { Self → RunFault };

    /// The fault of the program that this fault is.
    fn into_run_fault(self) -> RunFault
        ensures { result ≡ run_fault self };
}

impl<E: EndsRun> From<Failure<E>> for RunFault {
    ghost from_gives = { λ failure fault. fault ≡ of_failure E.run_fault failure };

    fn from(failure: Failure<E>) -> RunFault {
        match failure {
            Failure::Fault(fault) => fault.into_run_fault(),
            Failure::Memory => RunFault::Memory,
        }
    }
}

impl EndsRun for LoadFault {
    ghost run_fault = { λ fault. Load fault };

    fn into_run_fault(self) -> RunFault {
        RunFault::Load(self)
    }
}

impl EndsRun for TableFault {
    ghost run_fault = { λ fault. Table fault };

    fn into_run_fault(self) -> RunFault {
        RunFault::Table(self)
    }
}

impl EndsRun for StreamFault {
    ghost run_fault = { λ fault. Stream fault };

    fn into_run_fault(self) -> RunFault {
        RunFault::Stream(self)
    }
}

impl EndsRun for ConfirmFault {
    ghost run_fault = { λ fault. Confirm fault };

    fn into_run_fault(self) -> RunFault {
        RunFault::Confirm(self)
    }
}

impl EndsRun for ForwardFault {
    ghost run_fault = { λ fault. Text fault };

    fn into_run_fault(self) -> RunFault {
        RunFault::Text(self)
    }
}

impl EndsRun for Undefined {
    ghost run_fault = { λ fault. NotDefined fault };

    fn into_run_fault(self) -> RunFault {
        RunFault::NotDefined(self)
    }
}

impl EndsRun for NoTable {
    ghost run_fault = { λ fault. of_no_table fault };

    fn into_run_fault(self) -> RunFault {
        match self {
            NoTable::Load(fault) => RunFault::Load(fault),
            NoTable::Table(fault) => RunFault::Table(fault),
        }
    }
}

impl EndsRun for CutFault {
    ghost run_fault = { λ fault. of_cut_fault fault };

    fn into_run_fault(self) -> RunFault {
        match self {
            CutFault::Gather(GatherFault::Load(fault)) | CutFault::Load(fault) => {
                RunFault::Load(fault)
            }
            CutFault::Gather(GatherFault::LeadsOut(fault)) => RunFault::LeadsOut(fault),
            CutFault::NotRead(fault) => fault.into_run_fault(),
        }
    }
}

impl From<Failed> for RunFault {
    ghost from_gives = { λ _ fault. fault ≡ OutputFailed };

    fn from(_failed: Failed) -> RunFault {
        RunFault::OutputFailed
    }
}

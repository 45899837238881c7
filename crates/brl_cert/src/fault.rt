//! Why bytes spell no certificate.
ghost use Rattle.std.specs.Prelude.{◌≡◌};
ghost use Rattle.brl_cert.specs.Lines.{at_line};
ghost use Rattle.brl_failure.specs.declared.failure.Failure.TheVariants as failures;

use brl_failure::Failure;
use thiserror::Error;

/// The kind of a line's fault.
#[derive(Clone, Copy, PartialEq, Eq, Debug, Error)]
pub enum CertFaultKind {
    /// The header names a version that isn't known.
    #[error("K1 Version")]
    Version,
    /// It isn't a line that may come here.
    #[error("K2 Syntax")]
    Syntax,
    /// It is such a line, but not in its one spelling.
    #[error("K3 NotCanonical")]
    NotCanonical,
    /// It repeats the state of an earlier line.
    #[error("K4 DuplicateState")]
    DuplicateState,
    /// It repeats the pair of an earlier line.
    #[error("K5 DuplicatePair")]
    DuplicatePair,
    /// Its pair names a state that doesn't exist.
    #[error("K6 NoSuchState")]
    NoSuchState,
    /// Its counts differ from the numbers of states and pairs.
    #[error("K7 WrongCount")]
    WrongCount,
    /// The input ends before its line feed.
    #[error("K8 Truncated")]
    Truncated,
}

impl CertFaultKind {
    /// A fault of this kind in the line with this number.
    pub(crate) fn at(self, line: u64) -> Failure<CertFault>
        ensures { result ≡ failures.Fault (at_line line self) }
    {
        Failure::Fault(CertFault { kind: self, line })
    }
}

/// Why bytes spell no certificate: the fault of the first faulty line, and the number of that line,
/// from 1.
#[derive(Clone, Copy, PartialEq, Eq, Debug, Error)]
#[error("{kind} line {line}")]
pub struct CertFault {
    pub kind: CertFaultKind,
    pub line: u64,
}

//! Why a certificate isn't accepted for the table that files define.
use brl_cert::CertFault;
use brl_closure::AcceptFault;
use brl_table::NoTable;
use brl_window::TooWide;
use brl_without::UndefinedLeftOut;
use thiserror::Error;

/// The first stage that refused, and its fault.
#[derive(Debug, Drop, Error)]
pub enum JudgeFault {
    /// The files define no table.
    #[error("{0}")]
    NoTable(NoTable),
    /// The table doesn't define a character that is left out.
    #[error("{0}")]
    NotDefined(UndefinedLeftOut),
    /// The bytes spell no certificate.
    #[error("{0}")]
    Cert(CertFault),
    /// The certificate is of version 1 or 2, which say nothing of runs of capitals, and the table
    /// has word capitals; or it is of version 1, and something is excused.
    #[error("K9 OldVersion line 1")]
    OldVersion,
    /// The certificate lists states of a window machine, and the table is too wide for one.
    #[error("{0}")]
    Wide(TooWide),
    /// The certificate's states and pairs aren't closed.
    #[error("{0}")]
    Refused(AcceptFault),
}

//! Why there is no table at a path.
use crate::TableFault;
use brl_lines::LoadFault;
use thiserror::Error;

/// The reason why a path has no table.
#[derive(Debug, Drop, Error)]
pub enum NoTable {
    /// A file can't be loaded.
    #[error("{0}")]
    Load(LoadFault),
    /// A line is faulty.
    #[error("{0}")]
    Table(TableFault),
}

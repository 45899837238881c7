//! Where steps begin.

use crate::cased::CasedTable;
use crate::letter::Letter;
use brl_states::DuesState;

/// A state of a table's machine, and a character that may come next.
#[derive(Clone, Copy)]
pub struct Origin<'a> {
    pub table: &'a CasedTable<'a>,
    pub state: &'a DuesState,
    pub letter: &'a Letter<'a>,
}

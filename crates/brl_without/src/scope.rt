//! What a search or a check of a table is asked for.
use crate::LeftOut;
use brl_pairs::Excused;

/// What a search or a check of a table is asked for.
#[derive(Drop)]
pub struct Scope<'s, P> {
    /// The characters that no text uses: none for all texts of a table.
    pub left_out: &'s LeftOut,
    /// The pairs of rules that are excused: none where texts with the same cells must be equal.
    pub excused: &'s Excused,
    /// Who hears how far the work is.
    pub progress: &'s mut P,
}

//! A table that was cut.
ghost use Rattle.std.specs.Prelude.{◌≡◌, [], map, string_bytes, true};
ghost use Rattle.std.specs.Result.{ForOk, is_ok};
ghost use Rattle.brl_table.specs.Reading.{AreGood, table_of};
ghost use Rattle.brl_cut.specs.Files.{file_view};
ghost use Rattle.brl_cut.specs.Settling.{lines_among};

use brl_lines::{Gathered, Loaded};
use brl_rules::Table;
use brl_table::Cut;

/// The files of a table, as they were gathered, its lines, the cut of it, the table that this is,
/// and the path where its root is written.
#[derive(Drop)]
pub struct CutTable {
    pub gathered: Gathered,
    /// All lines of the files, without the include lines that are left out.
    pub whole: Loaded,
    pub cut: Cut,
    pub table: Table,
    pub written: String,
    ghost loads: { is_ok (lines_among [] (map file_view cut.files.items) (string_bytes written)) ≡ true },
    ghost reads: { ForOk (lines_among [] (map file_view cut.files.items) (string_bytes written)) (λ lines. AreGood lines × (table ≡ table_of lines)) },
}

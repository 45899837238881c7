//! Laws of the definitions. Each is the contract of a function that does nothing.
ghost use Rattle.std.specs.Prelude.{◌↔◌, List};
ghost use Rattle.brl_lines.specs.Tokens.{LineView};
ghost use Rattle.brl_table.specs.Faults.{PassesAll};
ghost use Rattle.brl_table.specs.Reading.{AreGood};

use brl_rules::signs_law;

/// Lines are good, so that they define a table, exactly where two passes over them find no fault.
pub fn good_lines_law()
    ensures { (lines : List LineView) → PassesAll lines ↔ AreGood lines }
{
    signs_law();
}

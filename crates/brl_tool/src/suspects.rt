//! What a survey or a cut finds that was hardly meant so.
ghost use Rattle.std.specs.Prelude.{◌≡◌, map};
ghost use Rattle.brl_table.specs.Liblouis.{origin_of as origin_by};
ghost use Rattle.brl_table.specs.Survey.{faulty_line_view, findings_view};
ghost use Rattle.brl_tool.specs.Suspects.{has_unknown_opcode as has_unknown, is_suspect as is_suspect_by, is_unknown as is_unknown_origin};

use brl_table::{FaultyLine, Findings, OpcodeOrigin, origin_of};

/// Whether the opcode of one of the lines that aren't read is none of liblouis'.
pub fn has_unknown_opcode(found: &[FaultyLine]) -> bool
    ensures { result ≡ has_unknown (map faulty_line_view found.now) }
{
    for faulty in found {
        if is_unknown(faulty.opcode.as_str()) {
            return true;
        }
    }
    false
}

/// Whether an opcode is none of liblouis'.
fn is_unknown(opcode: &str) -> bool
    ensures { result ≡ is_unknown_origin (origin_by opcode.now) }
{
    match origin_of(opcode) {
        OpcodeOrigin::Unknown => true,
        OpcodeOrigin::Profile | OpcodeOrigin::Liblouis => false,
    }
}

/// Whether a survey finds such a line, or no line that defines a character.
pub fn is_suspect(found: &Findings) -> bool
    ensures { result ≡ is_suspect_by (findings_view found.now) }
{
    has_unknown_opcode(found.faulty.as_slice()) || !found.has_characters
}

//! Include lines that are left out, as comments and as faulty lines.
ghost use Rattle.std.specs.Prelude.{◌≡◌, IfOk, map};
ghost use Rattle.brl_lines.specs.Gathered.{left_view};
ghost use Rattle.brl_table.specs.Survey.{faulty_line_view};
ghost use Rattle.brl_cut.specs.Cuts.{include_fault as fault_of_include, include_reason};

use crate::files::{BecomesComment, Edit};
use brl_lines::{IncludeReason, LeftInclude};
use brl_table::{FaultyLine, TableFault, TableFaultKind};
use std::alloc::{AllocError, Global};

/// Why an include line is left out.
fn reason_text(reason: IncludeReason) -> &'static str
    ensures { result.now ≡ include_reason reason }
{
    match reason {
        IncludeReason::Dictionary => "dictionary",
        IncludeReason::Repeated => "repeated",
        IncludeReason::Missing => "L1 NotFound",
    }
}

impl BecomesComment for LeftInclude {
    ghost use Rattle.brl_lines.specs.Gathered.{left_view};
    ghost use Rattle.brl_cut.specs.Cuts.{include_edit};

    ghost edit_of = { λ left. include_edit (left_view left) };

    fn edit(&self, alloc: Global) -> Result<Edit, AllocError> {
        let reason = reason_text(self.reason);
        let name = self.name.as_str();
        let prefix = format!(in alloc; "# {reason} {name}: ")?;
        Edit::new(alloc, self.file.as_str(), self.line, prefix)
    }
}

/// An include line that is left out, as a faulty line: one that is left after loading.
fn include_fault(alloc: Global, left: &LeftInclude) -> Result<FaultyLine, AllocError>
    ensures { IfOk result (λ faulty. faulty_line_view faulty ≡ fault_of_include (left_view left.now)) }
{
    let opcode = String::from_str(alloc, "include")?;
    let fault = TableFault {
        kind: TableFaultKind::OutsideProfile,
        subject: String::from_str(alloc, "include")?,
        file: String::from_str(alloc, left.file.as_str())?,
        line: left.line,
    };
    Ok(FaultyLine { opcode, fault })
}

/// Include lines that are left out, as faulty lines.
pub(crate) fn include_faults(
    alloc: Global,
    left_out: &[LeftInclude],
) -> Result<Vec<FaultyLine>, AllocError>
    ensures { IfOk result (λ faulty. map faulty_line_view faulty.items ≡ map fault_of_include (map left_view left_out.now)) }
{
    let mut faulty = Vec::with_capacity(alloc, left_out.len())?;
    for left in left_out {
        faulty.push(include_fault(alloc, left)?)?;
    }
    Ok(faulty)
}

//! The bytes and the text of a file that is no table's.
ghost use Rattle.std.specs.Prelude.{◌≡◌, ◌≤◌, IfErr, IfOk, length, string_bytes};
ghost use Rattle.brl_lines.specs.Answer.{Holds, MayAnswer};
ghost use Rattle.brl_lines.specs.Outcome.{CountsFailure};
ghost use Rattle.brl_answers.specs.Answers.{load_outcome};
ghost use Rattle.brl_tool.specs.Baselines.{IsFaultOfText};
ghost use Rattle.brl_tool.specs.FileBytes.{IsFaultOfFile};

use brl_answers::RunFault;
use brl_failure::Failure;
use brl_lines::{LoadFault, LoadFaultKind, MOST_FILE_BYTES, Source, SourceFault};
use std::alloc::{AllocError, Global};

/// The bytes of the file at a path, of which there are no more than `MOST_FILE_BYTES`.
pub fn bytes_at<S: Source>(alloc: Global, source: &mut S, path: &str) -> Result<Vec<u8>, RunFault>
    ensures bytes { IfOk result (λ bytes. MayAnswer (S.gives source.old) path.now (Holds bytes.items)) }
    ensures short { IfOk result (λ bytes. length bytes.items ≤ 16777216) }
    ensures fault { IfErr result (IsFaultOfFile (S.gives source.old) path.now) }
    ensures count { CountsFailure (S.faults source.old) (S.faults source.new) (load_outcome result) }
    ensures same { S.gives source.new ≡ S.gives source.old }
{
    let kind = match source.read(alloc, path) {
        Ok(bytes) => {
            if bytes.len() <= MOST_FILE_BYTES {
                return Ok(bytes);
            }
            LoadFaultKind::TooLarge
        }
        Err(Failure::Fault(SourceFault::TooLarge)) => LoadFaultKind::TooLarge,
        Err(Failure::Fault(SourceFault::NotFound)) => LoadFaultKind::NotFound,
        Err(Failure::Fault(SourceFault::Failed)) => LoadFaultKind::ReadFailed,
        Err(Failure::Memory) => return Err(RunFault::Memory),
    };
    let path = String::from_str(alloc, path)?;
    Err(RunFault::Load(LoadFault {
        kind,
        path,
        place: None,
    }))
}

/// The text of the file at a path: its bytes, which are UTF-8.
pub fn text_at<S: Source>(alloc: Global, source: &mut S, path: &str) -> Result<String, RunFault>
    ensures text { IfOk result (λ text. MayAnswer (S.gives source.old) path.now (Holds (string_bytes text))) }
    ensures fault { IfErr result (IsFaultOfText (S.gives source.old) path.now) }
    ensures count { CountsFailure (S.faults source.old) (S.faults source.new) (load_outcome result) }
    ensures same { S.gives source.new ≡ S.gives source.old }
{
    let bytes = bytes_at(alloc, source, path)?;
    match String::from_utf8(bytes) {
        Ok(text) => Ok(text),
        Err(_) => Err(RunFault::Load(LoadFault {
            kind: LoadFaultKind::NotUtf8,
            path: String::from_str(alloc, path)?,
            place: None,
        })),
    }
}

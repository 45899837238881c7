//! Which of some paths names the file at another.
ghost use Rattle.std.specs.Prelude.{◌≡◌, ◌≢◌, All, Any, IfOk, IsTrue, MatchOption};

use brl_answers::Files;
use std::alloc::{AllocError, Global};

/// The first of these paths that may name the file at another path.
pub fn path_of_file<'a, F: Files>(
    alloc: Global,
    files: &F,
    paths: &[&'a str],
    out: &str,
) -> Result<Option<&'a str>, AllocError>
    ensures { IfOk result (λ found. MatchOption found (All (λ one. one.now ≢ out.now) paths.now)
        (λ path. Any (λ one. (one.now ≡ path.now) × IsTrue (F.same_file one.now out.now)) paths.now)) }
{
    for path in paths {
        if files.is_same_file(alloc, path, out)? {
            return Ok(Some(path));
        }
    }
    Ok(None)
}

//! The answer with a certificate that was found.
ghost use Rattle.std.specs.Prelude.{◌≡◌, IfOk, Ok, string_bytes};
ghost use Rattle.brl_answers.specs.declared.status.Status.TheVariants as statuses;
ghost use Rattle.brl_cert.specs.Reading.{reading, spelling};
ghost use Rattle.brl_tool.specs.Verdicts.{IsFileOf, certified_line};

use brl_answers::{Answer, NewFile, NewFiles, Status, counts_text};
use brl_cert::write_cert;
use brl_states::Cert;
use std::alloc::{AllocError, Global};

/// The line that says how many states and pairs a certificate has.
pub fn certified_text(alloc: Global, cert: &Cert) -> Result<String, AllocError>
    ensures { IfOk result (λ text. string_bytes text ≡ certified_line cert.now) }
{
    let (states, pairs) = cert.counts();
    counts_text(alloc, "certified", states as u64, pairs as u64)
}

/// The answer with a text, and with a certificate for the file at a path.
pub fn certificate_with(
    alloc: Global,
    cert: &Cert,
    path: &str,
    text: String,
) -> Result<Answer, AllocError>
    ensures status { IfOk result (λ answer. answer.status ≡ statuses.Done) }
    ensures text { IfOk result (λ answer. answer.text ≡ text) }
    ensures file { IfOk result (λ answer. IsFileOf cert.now path.now answer.files) }
    ensures read_back { IfOk result (λ _. reading (spelling cert.now) ≡ Ok cert.now) }
{
    let bytes = write_cert(alloc, cert)?;
    let path = String::from_str(alloc, path)?;
    Ok(Answer {
        text,
        status: Status::Done,
        files: NewFiles::InPlace(NewFile { path, bytes }),
    })
}

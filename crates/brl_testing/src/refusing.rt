//! A source that gives no file.
use brl_failure::Failure;
use brl_lines::{Source, SourceFault};
use std::alloc::Global;

/// Refuses each read with the same fault, and counts its failures.
#[derive(Drop)]
pub struct Refusing {
    pub refusal: Failure<SourceFault>,
    pub failures: u64,
}

impl Source for Refusing {
    ghost use Rattle.std.specs.Prelude.{[], true};

    ghost gives = { λ _. record { folders = []; may = λ _ _. true } };

    ghost faults = { λ s. s.failures };

    fn read(&mut self, _alloc: Global, _path: &str) -> Result<Vec<u8>, Failure<SourceFault>> {
        if self.refusal == Failure::Fault(SourceFault::Failed) {
            self.failures = self.failures.saturating_add(1);
        }
        Err(self.refusal)
    }

    fn folders(&self) -> &[String] {
        &[]
    }

    fn failures(&self) -> u64 {
        self.failures
    }
}

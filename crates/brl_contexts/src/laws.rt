//! Laws of forms that bars meet. Each is the contract of a function that does nothing.
ghost use Rattle.std.specs.Prelude.{◌↔◌, ℕ, Contains, List};
ghost use Rattle.brl_contexts.specs.Met.{IsMet, met_in};
ghost use Rattle.brl_contexts.specs.declared.met.Met.{Met as MetValue};

/// A form is listed with a bar exactly where the bar begins what it reads, or begins with it.
pub fn met_law()
    ensures { (bars reads : List (List ℕ)) (numbers : List ℕ) (x : MetValue) →
        Contains (met_in bars reads numbers) x ↔ IsMet bars reads numbers x }
{}

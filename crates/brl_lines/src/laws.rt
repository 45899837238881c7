//! Laws of the definitions, for the crates above: each function has an empty body, and its contract
//! is the law.
ghost use Rattle.std.specs.Prelude.{◌≡◌, ℕ, IfErr, IfOk, List, Result, Some};
ghost use Rattle.brl_failure.specs.Failure.{GivesAs};
ghost use Rattle.brl_failure.specs.declared.failure.Failure.{Failure as FailureValue};
ghost use Rattle.brl_lines.specs.Answer.{IsDeterministic};
ghost use Rattle.brl_lines.specs.InMemory.{answer_in, folders_of};
ghost use Rattle.brl_lines.specs.Lines.{lines_over};
ghost use Rattle.brl_lines.specs.Outcome.{AreLinesOf, IsLoadFault};
ghost use Rattle.brl_lines.specs.Tokens.{LineView};
ghost use Rattle.brl_lines.specs.Views.{load_fault_view};
ghost use Rattle.brl_lines.specs.declared.fault.LoadFault.{LoadFault as LoadFaultValue};

use crate::{MapSource, Source};
use brl_failure::Failure;

/// A source with one answer for each path gives a table one list of lines at most; and where it
/// gives one, only memory can keep that table from being loaded.
pub fn one_answer_law<S: Source>(source: &S)
    ensures lines { IsDeterministic (S.gives source.now) → (root : List ℕ) (left right : List LineView) →
        AreLinesOf (S.gives source.now) root left → AreLinesOf (S.gives source.now) root right → left ≡ right }
    ensures fault { IsDeterministic (S.gives source.now) → (root : List ℕ) (lines : List LineView) →
        AreLinesOf (S.gives source.now) root lines → (failure : FailureValue LoadFaultValue) →
        IsLoadFault (S.gives source.now) root failure → failure ≡ Failure.Memory }
{}

/// Files in memory have one answer for each path; and a load of a table over them gives what the
/// definition gives for all of them, unless memory runs out.
pub fn files_in_memory_law(source: &MapSource)
    ensures one { IsDeterministic (⟦<MapSource as Source>⟧.gives source.now) }
    ensures told { (root : List ℕ) (outcome : Result (List LineView) (FailureValue LoadFaultValue)) →
        IfOk outcome (AreLinesOf (⟦<MapSource as Source>⟧.gives source.now) root) →
        IfErr outcome (IsLoadFault (⟦<MapSource as Source>⟧.gives source.now) root) →
        GivesAs (λ lines. lines) load_fault_view (lines_over (folders_of source.now.folders) (λ path. Some (answer_in source.now path)) root) outcome }
{}

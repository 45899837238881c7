//! What paths of the dues machine are in texts. Each law is the contract of a function that does
//! nothing.
ghost use Rattle.std.specs.Prelude.{ℕ, List};
ghost use Rattle.brl_dues.specs.Steps.{dues_machine};
ghost use Rattle.brl_pairs.specs.Divergence.{IsUnambiguousBut};
ghost use Rattle.brl_pairs.specs.Exchanges.{TextsDifferByExchangesBut};
ghost use Rattle.brl_traces.specs.Exchanges.{TextsAgreeBut};
ghost use Rattle.brl_traces.specs.Traces.{ClashesDivergeAt, ClashesDivergeAtWithout, PathsAreTraces, TracesDivergeAsPaths};
ghost use Rattle.brl_without.specs.Without.{without};

use brl_rules::{Table, choice_laws, translation_laws};

/// The steps of each path of a table's dues machine are those of the trace of what it reads, so
/// traces diverge where paths do. One by one they have the same rules, characters and cells, so
/// traces diverge at the same pair of rules.
pub fn dues_trace_law(table: &Table)
    ensures steps { PathsAreTraces table.now }
    ensures diverge { TracesDivergeAsPaths table.now }
{
    choice_laws();
    translation_laws();
    table.law();
}

/// Where a table's dues machine is unambiguous but for some pairs of rules, the traces of texts
/// that clash diverge at one of these pairs. So any two texts of the table that are translated to
/// the same cells are equal, or their traces begin with the same steps and go on with two different
/// ones of one of these pairs. Where the machine without some characters is so, this holds of the
/// texts that use none of them.
pub fn dues_divergence_law(table: &Table)
    ensures texts { (rules : List (ℕ × ℕ)) → IsUnambiguousBut rules (dues_machine table.now) → ClashesDivergeAt rules table.now }
    ensures without { (left_out : List ℕ) (rules : List (ℕ × ℕ)) → IsUnambiguousBut rules (without left_out (dues_machine table.now)) →
        ClashesDivergeAtWithout left_out rules table.now }
{
    dues_trace_law(table);
}

/// Where texts with the same cells have paths that differ by exchanges, up to some pairs of rules
/// at most, so do the traces of these texts. The paths are those of the dues machine without some
/// characters. Traces are the same but for exchanges, to their ends or up to a place where they
/// diverge at one of the pairs.
pub fn dues_exchange_law(table: &Table)
    ensures { (left_out : List ℕ) (exchanged rules : List (ℕ × ℕ)) →
        TextsDifferByExchangesBut exchanged rules (without left_out (dues_machine table.now)) → TextsAgreeBut left_out exchanged rules table.now }
{
    choice_laws();
    translation_laws();
    table.law();
}

//! A law of acceptance, for callers: the contract of a function that does nothing.
ghost use Rattle.std.specs.Prelude.{◌≡◌, ℕ, List, Ok};
ghost use Rattle.brl_accept.specs.Excusing.{IsAcceptedUpTo, MayExcuse};
ghost use Rattle.brl_cert.specs.Reading.{reading};
ghost use Rattle.brl_closure.specs.Excusing.{ExcusesAll};
ghost use Rattle.brl_closure.specs.declared.check.checker.Accepted.{Accepted as AcceptedValue};
ghost use Rattle.brl_pairs.specs.declared.excused.Excused.{Excused as ExcusedValue};
ghost use Rattle.brl_rules.specs.TableView.{TableView};
ghost use Rattle.brl_states.specs.declared.cert.Cert.{Cert as CertValue};

/// What is excused may grow: a certificate that is accepted but for what is excused is accepted but
/// for more, too, where its version may be. That is every version but 1.
pub fn more_accepted_law()
    ensures { (left_out : List ℕ) (excused more : ExcusedValue) (t : TableView) (bytes : List ℕ) (accepted : AcceptedValue) →
        ExcusesAll more excused → ((cert : CertValue) → reading bytes ≡ Ok cert → MayExcuse more cert) →
        IsAcceptedUpTo left_out excused t bytes accepted → IsAcceptedUpTo left_out more t bytes accepted }
{}

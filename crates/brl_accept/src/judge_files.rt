//! The judge of a certificate for a table, and for the table that files define.
ghost use Rattle.std.specs.Prelude.{◌≡◌, ◌⊎◌, ◌↔◌, [], Err, IfErr, IfOk, IsTrue, Ok, OnOk, length};
ghost use Rattle.brl_accept.specs.Excusing.{IsAcceptedUpTo, IsRefusedUpTo, IsShown, MayExcuse, closed_up_to};
ghost use Rattle.brl_accept.specs.Judging.{IsAccepted, IsProved, IsRefusedAs, IsRefusedBy, IsRefusedFor, closed_without, load_outcome};
ghost use Rattle.brl_closure.specs.declared.check.checker.Accepted.{Accepted as AcceptedValue};
ghost use Rattle.brl_closure.specs.Excusing.{IsClosedBody, IsRefusedUpTo as IsRefusedBody};
ghost use Rattle.brl_closure.specs.declared.check.fault.AcceptFault.{AcceptFault};
ghost use Rattle.brl_failure.specs.Failure.{IfFault};
ghost use Rattle.brl_failure.specs.declared.failure.Failure.TheVariants as failures;
ghost use Rattle.brl_accept.specs.Kinds.{HasVersion};
ghost use Rattle.brl_lines.specs.Answer.{IsDeterministic};
ghost use Rattle.brl_lines.specs.Outcome.{CountsFailure};
ghost use Rattle.brl_table.specs.Files.{IsTableOf};
ghost use Rattle.brl_rules.specs.TableView.{TableView};
ghost use Rattle.brl_rules.specs.Translation.{IsUnambiguous};
ghost use Rattle.brl_pairs.specs.Exchanges.{TextsDifferByExchangesBut};
ghost use Rattle.brl_without.specs.Scope.{IsNothing};
ghost use Rattle.brl_without.specs.Without.{IsUnambiguousFor, without};

use crate::JudgeFault;
use brl_cert::{Cert, read_cert};
use brl_closure::{Accepted, accept_up_to};
use brl_dues::Dues;
use brl_failure::{Failure, raise};
use brl_lines::Source;
use brl_pairs::{Body, Excused, Parted, numbered_sets_law};
use brl_progress::{NoProgress, Progress};
use brl_rules::Table;
use brl_states::WindowState;
use brl_table::{load_table, one_table_law};
use brl_traces::dues_exchange_law;
use brl_window::{TooWide, Window};
use brl_without::{LeftOut, Scope, Without, check_defined, unambiguous_without_law};
use std::alloc::Global;

/// Judges the states and pairs of a certificate for a machine.
fn judge_body<M: Parted, W: Progress>(
    alloc: Global,
    machine: &M,
    body: &Body<M::State>,
    scope: Scope<'_, W>,
) -> Result<Accepted, Failure<JudgeFault>>
    ensures texts { OnOk result (TextsDifferByExchangesBut scope.entry.excused.now.exchanged scope.entry.excused.now.accepted (without scope.entry.left_out.now (M.behaviour machine.now))) }
    ensures unambiguous { OnOk result (IsNothing scope.entry.excused.now → IsUnambiguousFor scope.entry.left_out.now (M.behaviour machine.now)) }
    ensures accepted { IfOk result (λ accepted. IsClosedBody (without scope.entry.left_out.now (M.behaviour machine.now)) scope.entry.excused.now body.now
        × (accepted.states ≡ length body.now.states) × (accepted.pairs ≡ length body.now.pairs)) }
    ensures refused { IfErr result (IfFault (λ fault. (refusal : AcceptFault) × (fault ≡ JudgeFault.Refused refusal)
        × IsRefusedBody (without scope.entry.left_out.now (M.behaviour machine.now)) scope.entry.excused.now body.now refusal)) }
{
    let Scope {
        left_out,
        excused,
        progress,
    } = scope;
    unambiguous_without_law(machine);
    let without = Without::new(machine, left_out);
    numbered_sets_law(&without);
    let accepted = accept_up_to(alloc, &without, excused, body, progress);
    raise(accepted, JudgeFault::Refused)
}

/// Judges the states and pairs of a certificate of version 1. Nothing is excused.
fn judge_windows<W: Progress>(
    alloc: Global,
    table: &Table,
    body: &Body<WindowState>,
    scope: Scope<'_, W>,
) -> Result<Accepted, Failure<JudgeFault>>
    requires { HasVersion table.now (Cert.Window body.now) × IsNothing scope.excused.now }
    ensures shown { OnOk result (IsShown scope.entry.left_out.now scope.entry.excused.now table.now) }
    ensures accepted { IfOk result (IsProved (closed_up_to scope.entry.left_out.now scope.entry.excused.now) table.now (Cert.Window body.now)) }
    ensures refused { IfErr result (IfFault (IsRefusedAs (closed_up_to scope.entry.left_out.now scope.entry.excused.now) table.now (Cert.Window body.now))) }
{
    let Ok(window) = Window::new(alloc, table) else {
        return Err(Failure::Fault(JudgeFault::Wide(TooWide)));
    };
    judge_body(alloc, &window, body, scope)
}

/// Whether certificates of this one's version are for the table and for what is excused: those of
/// version 3 always, of version 2 where the table has no word capitals, and of version 1 where
/// nothing is excused either.
fn has_version(table: &Table, excused: &Excused, cert: &Cert) -> bool
    ensures { IsTrue result ↔ (HasVersion table.now cert.now × MayExcuse excused.now cert.now) }
{
    match cert {
        Cert::Window(_) => !table.has_word_capitals() && excused.is_nothing(),
        Cert::Dues(_) => !table.has_word_capitals(),
        Cert::Word(_) => true,
    }
}

/// Judges a certificate that was read.
fn judge_read<W: Progress>(
    alloc: Global,
    table: &Table,
    cert: &Cert,
    scope: Scope<'_, W>,
) -> Result<Accepted, Failure<JudgeFault>>
    ensures shown { OnOk result (IsShown scope.entry.left_out.now scope.entry.excused.now table.now) }
    ensures accepted { IfOk result (λ accepted. (HasVersion table.now cert.now × MayExcuse scope.entry.excused.now cert.now)
        × IsProved (closed_up_to scope.entry.left_out.now scope.entry.excused.now) table.now cert.now accepted) }
    ensures refused { IfErr result (IfFault (IsRefusedAs (closed_up_to scope.entry.left_out.now scope.entry.excused.now) table.now cert.now)) }
{
    if !has_version(table, scope.excused, cert) {
        return Err(Failure::Fault(JudgeFault::OldVersion));
    }
    dues_exchange_law(table);
    let dues = Dues::new(alloc, table);
    match cert {
        Cert::Window(listed) => judge_windows(alloc, table, listed.body(), scope),
        Cert::Dues(listed) => judge_body(alloc, &dues, listed.body(), scope),
        Cert::Word(body) => judge_body(alloc, &dues, body, scope),
    }
}

/// Judges a certificate for a table without some characters and but for excused splits: where it is
/// accepted, texts with the same cells agree. An acceptance gives the numbers of states and pairs
/// that the certificate lists. Then any two texts over the table's other characters that the table
/// translates to the same cells are the same step by step but for exchanges, to their ends or up to
/// a place where they go on with two steps of an accepted pair of rules; where nothing is excused
/// they are equal. What is excused is part of this statement, and any pairs of numbers will do: one
/// that no two rules have excuses nothing. Progress is reported state by state.
///
/// Otherwise the fault is that of the first stage that refuses: `NotDefined` where the table
/// doesn't define a character that is left out; `Cert` where the bytes spell no certificate;
/// `OldVersion` where the certificate is of version 1 or 2 and the table has word capitals, or of
/// version 1 and something is excused, since its states are of a machine whose paths aren't known
/// to be traces; `Wide` where the certificate is of version 1 and the table has no window machine;
/// `Refused` where the certificate's states and pairs aren't closed for the machine of its version
/// without these characters, but for what is excused.
pub fn judge_table<W: Progress>(
    alloc: Global,
    table: &Table,
    cert: &[u8],
    scope: Scope<'_, W>,
) -> Result<Accepted, Failure<JudgeFault>>
    // Any two texts over the table's other characters that it translates to the same cells,
    // whatever their length, are the same but for what is excused.
    ensures shown { OnOk result (IsShown scope.entry.left_out.now scope.entry.excused.now table.now) }
    // The bytes spell a certificate that proves it, with these numbers of states and pairs.
    ensures accepted { IfOk result (IsAcceptedUpTo scope.entry.left_out.now scope.entry.excused.now table.now cert.now) }
    // The fault is that of the first stage that refuses.
    ensures refused { IfErr result (IfFault (IsRefusedUpTo scope.entry.left_out.now scope.entry.excused.now table.now cert.now)) }
    // A certificate that is acceptable is accepted, unless memory runs out.
    ensures decides { (accepted : AcceptedValue) → IsAcceptedUpTo scope.entry.left_out.now scope.entry.excused.now table.now cert.now accepted
        → (result ≡ Ok accepted) ⊎ (result ≡ Err failures.Memory) }
{
    let defined = check_defined(alloc, table, scope.left_out);
    raise(defined, JudgeFault::NotDefined)?;
    let cert = raise(read_cert(alloc, cert), JudgeFault::Cert)?;
    judge_read(alloc, table, &cert, scope)
}

/// Judges a certificate for all texts of a table. Nothing is excused.
fn judge_all_texts(
    alloc: Global,
    table: &Table,
    cert: &[u8],
) -> Result<Accepted, Failure<JudgeFault>>
    ensures unambiguous { OnOk result (IsUnambiguous table.now) }
    ensures accepted { IfOk result (IsAccepted table.now cert.now) }
    ensures refused { IfErr result (IfFault (IsRefusedFor (closed_without []) table.now cert.now)) }
    ensures decides { (accepted : AcceptedValue) → IsAccepted table.now cert.now accepted → (result ≡ Ok accepted) ⊎ (result ≡ Err failures.Memory) }
{
    let left_out = LeftOut::none(alloc);
    let excused = Excused::nothing(alloc);
    let scope = Scope {
        left_out: &left_out,
        excused: &excused,
        progress: &mut NoProgress,
    };
    judge_table(alloc, table, cert, scope)
}

/// Judges a certificate for the table of some files: where it is accepted the table is unambiguous,
/// and each valid one is accepted; else the first stage refuses. An acceptance gives the numbers of
/// states and pairs that the certificate lists. Then any two texts over the table's characters that
/// the table translates to the same cells are equal, whatever their length.
///
/// Otherwise the fault is that of the first stage that refuses: `NoTable` where the files define no
/// table; `Cert` where the bytes spell no certificate; `OldVersion` where the certificate is of
/// version 1 or 2 and the table has word capitals; `Wide` where the certificate is of version 1 and
/// the table has no window machine; `Refused` where the certificate's states and pairs aren't
/// closed for the machine of its version.
pub fn judge<S: Source>(
    alloc: Global,
    source: &mut S,
    root: &str,
    cert: &[u8],
) -> Result<Accepted, Failure<JudgeFault>>
    // The files define a table, as the source gave them. Any two texts over its characters that it
    // translates to the same cells are equal, whatever their length. The bytes spell a certificate
    // that proves it, with these numbers of states and pairs.
    ensures accepted { IfOk result (λ accepted. (t : TableView) × IsTableOf (S.gives source.old) root.now t × IsUnambiguous t
        × IsAccepted t cert.now accepted) }
    // The fault is that of the first stage that refuses. Where the files define a table, the bytes
    // aren't acceptable for it.
    ensures refused { IfErr result (IfFault (IsRefusedBy (S.gives source.old) root.now cert.now)) }
    // Where each file has one content, a certificate that is acceptable is accepted, unless
    // memory runs out.
    ensures decides { IsDeterministic (S.gives source.old) → (t : TableView) → IsTableOf (S.gives source.old) root.now t
        → (accepted : AcceptedValue) → IsAccepted t cert.now accepted → (result ≡ Ok accepted) ⊎ (result ≡ Err failures.Memory) }
    ensures count { CountsFailure (S.faults source.old) (S.faults source.new) (load_outcome result) }
    ensures same { S.gives source.new ≡ S.gives source.old }
{
    one_table_law(&*source);
    let table = raise(load_table(alloc, source, root), JudgeFault::NoTable)?;
    judge_all_texts(alloc, &table, cert)
}

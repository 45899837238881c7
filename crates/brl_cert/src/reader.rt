//! Reading the lines after the header of a certificate, one by one.
ghost use Rattle.std.specs.Prelude.{◌≡◌, ◌≤◌, All, length, true, false, IfErr, IfOk, OnOk, Ok};
ghost use Rattle.brl_cert.specs.Lines.{HasShortLead, add_line, is_end, line_of, may_follow, one_line, placed};
ghost use Rattle.brl_failure.specs.Failure.{IsFaultOf};
ghost use Rattle.brl_cert.specs.Reading.{empty_body};
ghost use Rattle.brl_cert.specs.declared.line.Line.TheVariants as line;
ghost use Rattle.brl_pairs.specs.Body.{BodyView, IsPairOf, listed};

use crate::line::{Line, read_line};
use crate::writing::push_line;
use crate::{CertFault, CertFaultKind, Version};
use brl_failure::Failure;
use brl_pairs::{Body, Members, Pair, Seed};
use std::alloc::Global;
use std::marker::Model;

/// The states and pairs of the lines read so far, which a contract sees as a body.
#[derive(Drop)]
pub struct Reader<V: Version> {
    states: Members<V::State>,
    pairs: Members<Pair<u32>>,
}

impl<V: Version> Model for Reader<V> {
    ghost Value = { BodyView V.State };

    ghost view = { λ read. listed read.states read.pairs };

    ghost invariant = { λ read. All (IsPairOf (length read.states)) read.pairs };
}

impl<V: Version> Reader<V> {
    /// A reader before the first line, which finds states and pairs by hashes of this seed.
    pub fn new(alloc: Global, seed: Seed) -> Reader<V>
        ensures { result ≡ empty_body }
    {
        Reader {
            states: Members::new(alloc, seed),
            pairs: Members::new(alloc, seed),
        }
    }

    /// The body that was read.
    pub fn into_body(self) -> Body<V::State>
        requires few_states { length self.states ≤ 4294967295 }
        requires few_pairs { length self.pairs ≤ 4294967295 }
        ensures { result ≡ self }
    {
        let Reader { states, pairs } = self;
        Body::new(states, pairs)
    }

    /// Whether a line may follow those that were read.
    fn may_follow(&self, line: &Line<V::State>) -> bool
        ensures { result ≡ may_follow self.now line.now }
    {
        match line {
            Line::State(_) => self.pairs.len() == 0,
            Line::Pair(_) => true,
            Line::End(_, _) => true,
        }
    }

    /// The line that these bytes spell, as far as its spelling and its place decide.
    fn read(
        &self,
        alloc: Global,
        number: u64,
        bytes: &[u8],
    ) -> Result<Line<V::State>, Failure<CertFault>>
        ensures line { IfOk result (λ line. placed number (line_of V.form self.now bytes.now) ≡ Ok line) }
        ensures lead { IfOk result HasShortLead }
        ensures follows { IfOk result (λ line. may_follow self.now line ≡ true) }
        ensures fault { IfErr result (IsFaultOf (placed number (line_of V.form self.now bytes.now))) }
    {
        let Some(line) = read_line::<V>(alloc, bytes)? else {
            return Err(CertFaultKind::Syntax.at(number));
        };
        if !self.may_follow(&line) {
            return Err(CertFaultKind::Syntax.at(number));
        }
        let mut spelled = Vec::new(alloc);
        push_line::<V>(alloc, &mut spelled, &line)?;
        if spelled.as_slice() == bytes {
            Ok(line)
        } else {
            Err(CertFaultKind::NotCanonical.at(number))
        }
    }

    /// Adds the state of the line of this number.
    fn add_state(&mut self, number: u64, state: V::State) -> Result<(), Failure<CertFault>>
        requires { length self.old.pairs ≡ 0 }
        ensures ok { OnOk result (placed number (add_line V.form self.old (line.State state)) ≡ Ok self.new) }
        ensures fault { IfErr result (IsFaultOf (placed number (add_line V.form self.old (line.State state)))) }
    {
        if self.states.insert(state)? {
            Ok(())
        } else {
            Err(CertFaultKind::DuplicateState.at(number))
        }
    }

    /// Adds the pair of the line of this number.
    fn add_pair(&mut self, number: u64, pair: Pair<u32>) -> Result<(), Failure<CertFault>>
        requires { length pair.lead ≤ 1024 }
        ensures ok { OnOk result (placed number (add_line V.form self.old (line.Pair pair)) ≡ Ok self.new) }
        ensures fault { IfErr result (IsFaultOf (placed number (add_line V.form self.old (line.Pair pair)))) }
    {
        let count = self.states.len();
        if pair.ahead as usize >= count || pair.behind as usize >= count {
            return Err(CertFaultKind::NoSuchState.at(number));
        }
        if self.pairs.insert(pair)? {
            Ok(())
        } else {
            Err(CertFaultKind::DuplicatePair.at(number))
        }
    }

    /// Checks the counts of the end line of this number.
    fn close(&self, number: u64, states: u32, pairs: u32) -> Result<(), Failure<CertFault>>
        ensures ok { OnOk result (placed number (add_line V.form self.now (line.End states pairs)) ≡ Ok self.now) }
        ensures few_states { OnOk result (length self.now.states ≤ 4294967295) }
        ensures few_pairs { OnOk result (length self.now.pairs ≤ 4294967295) }
        ensures fault { IfErr result (IsFaultOf (placed number (add_line V.form self.now (line.End states pairs)))) }
    {
        if self.states.len() == states as usize && self.pairs.len() == pairs as usize {
            Ok(())
        } else {
            Err(CertFaultKind::WrongCount.at(number))
        }
    }

    /// Adds the line of this number, and returns whether it is the end line.
    fn add(&mut self, number: u64, line: Line<V::State>) -> Result<bool, Failure<CertFault>>
        requires lead { HasShortLead line }
        requires follows { may_follow self.old line ≡ true }
        ensures ok { OnOk result (placed number (add_line V.form self.old line) ≡ Ok self.new) }
        ensures end { IfOk result (λ last. last ≡ is_end line) }
        ensures few_states { IfOk result (λ last. last ≡ true → length self.new.states ≤ 4294967295) }
        ensures few_pairs { IfOk result (λ last. last ≡ true → length self.new.pairs ≤ 4294967295) }
        ensures fault { IfErr result (IsFaultOf (placed number (add_line V.form self.old line))) }
    {
        match line {
            Line::State(state) => {
                self.add_state(number, state)?;
                Ok(false)
            }
            Line::Pair(pair) => {
                self.add_pair(number, pair)?;
                Ok(false)
            }
            Line::End(states, pairs) => {
                self.close(number, states, pairs)?;
                Ok(true)
            }
        }
    }

    /// Reads and adds the line of this number, and returns whether it is the end line.
    pub fn take_line(
        &mut self,
        alloc: Global,
        number: u64,
        bytes: &[u8],
    ) -> Result<bool, Failure<CertFault>>
        ensures ok { IfOk result (λ last. placed number (one_line V.form self.old bytes.now) ≡ Ok (last, self.new)) }
        ensures few_states { IfOk result (λ last. last ≡ true → length self.new.states ≤ 4294967295) }
        ensures few_pairs { IfOk result (λ last. last ≡ true → length self.new.pairs ≤ 4294967295) }
        ensures fault { IfErr result (IsFaultOf (placed number (one_line V.form self.old bytes.now))) }
    {
        let line = self.read(alloc, number, bytes)?;
        self.add(number, line)
    }
}

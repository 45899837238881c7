//! The two texts of a pair with an empty lead and two final states.
ghost use Rattle.std.specs.Prelude.{◌≡◌, ◌<◌, [], ◌++◌, length, IfOk, OnOk, Some, reverse, slice_get};
ghost use Rattle.brl_pairs.specs.Body.{NumberPair};
ghost use Rattle.brl_pairs.specs.Runs.{KeepsLaws};
ghost use Rattle.brl_pairs.specs.declared.step.Step.{Step as StepValue};
ghost use Rattle.brl_closure.specs.Diverging.{AreTextsOf, AreTextsOfSplit};
ghost use Rattle.brl_closure.specs.KnownSteps.{AreKnown};
ghost use Rattle.brl_closure.specs.Trail.{HasTwoEndsAt, IsTraced, TakesStep};
ghost use Rattle.brl_closure.specs.Path.{HasStepAt, HasStepBehind, IsPlaceTo, IsTextTo, LeadsTo, SplitContinues};

use crate::search::finder::Finder;
use crate::search::known_steps::KnownSteps;
use crate::search::trail::{PairOrigin, Trail};
use brl_pairs::Machine;
use std::alloc::AllocError;
use std::mem;

/// Two texts.
#[derive(Drop)]
pub struct Texts {
    pub left: Vec<char>,
    pub right: Vec<char>,
}

impl<'m, M: Machine> Finder<'m, M> {
    /// Appends what a step of a state reads to a text, the last character first.
    fn push_reads(
        &self,
        states: &[M::State],
        known: &mut KnownSteps<M::State>,
        number: usize,
        place: usize,
        text: &mut Vec<char>,
    ) -> Result<(), AllocError>
        requires step { HasStepAt (M.behaviour self.now.machine.now) states.now number place }
        requires known { AreKnown (M.behaviour self.now.machine.now) states.now known.old }
        ensures text { OnOk result ((x : StepValue M.State) → TakesStep (M.behaviour self.now.machine.now) states.now number place x →
            text.new.items ≡ text.old.items ++ reverse x.reads) }
        ensures known { OnOk result (AreKnown (M.behaviour self.now.machine.now) states.now known.new) }
    {
        let listed = self.take_steps(states, known, number)?;
        let mut reads = Vec::from_slice(self.alloc, listed[place].reads.as_slice())?;
        reads.reverse();
        known.put(self.alloc, number, listed)?;
        text.extend_from_slice(reads.as_slice())
    }

    /// The place of the first step of a state that leads to another one.
    fn place_to(
        &self,
        states: &[M::State],
        known: &mut KnownSteps<M::State>,
        number: usize,
        to: &M::State,
    ) -> Result<usize, AllocError>
        requires leads { LeadsTo (M.behaviour self.now.machine.now) states.now number to.now }
        requires known { AreKnown (M.behaviour self.now.machine.now) states.now known.old }
        ensures place { IfOk result (IsPlaceTo (M.behaviour self.now.machine.now) states.now number to.now) }
        ensures known { OnOk result (AreKnown (M.behaviour self.now.machine.now) states.now known.new) }
    {
        let listed = self.take_steps(states, known, number)?;
        let mut place = 0;
        while listed[place].next != *to {
            place += 1;
        }
        known.put(self.alloc, number, listed)?;
        Ok(place)
    }

    /// A text that leads from the start to the state with this number, the last character first.
    fn text_to(
        &self,
        trail: &Trail<M::State>,
        known: &mut KnownSteps<M::State>,
        number: usize,
    ) -> Result<Vec<char>, AllocError>
        requires traced { IsTraced (M.behaviour self.now.machine.now) trail.now }
        requires within { number < length trail.now.states }
        requires known { AreKnown (M.behaviour self.now.machine.now) trail.now.states known.old }
        ensures text { IfOk result (λ text. IsTextTo (M.behaviour self.now.machine.now) trail.now.states (M.behaviour self.now.machine.now).start number text.items) }
        ensures known { OnOk result (AreKnown (M.behaviour self.now.machine.now) trail.now.states known.new) }
    {
        let mut text = Vec::new(self.alloc);
        let mut state = number;
        while state > 0 {
            let parent = trail.state_origins[state].parent;
            let states = trail.states.as_slice();
            let place = self.place_to(states, known, parent, &states[state])?;
            self.push_reads(states, known, parent, place, &mut text)?;
            state = parent;
        }
        Ok(text)
    }

    /// Appends what a step of a pair's run behind reads to a text, the last character first.
    fn push_behind(
        &self,
        trail: &Trail<M::State>,
        known: &mut KnownSteps<M::State>,
        pair: usize,
        place: usize,
        text: &mut Vec<char>,
    ) -> Result<(), AllocError>
        requires step { HasStepBehind (M.behaviour self.now.machine.now) trail.now.states trail.now.pairs pair place }
        requires known { AreKnown (M.behaviour self.now.machine.now) trail.now.states known.old }
        ensures text { OnOk result ((q : NumberPair) (x : StepValue M.State) → slice_get trail.now.pairs pair ≡ Some q →
            TakesStep (M.behaviour self.now.machine.now) trail.now.states q.behind place x → text.new.items ≡ text.old.items ++ reverse x.reads) }
        ensures known { OnOk result (AreKnown (M.behaviour self.now.machine.now) trail.now.states known.new) }
    {
        let behind = trail.pairs.as_slice()[pair].behind as usize;
        self.push_reads(trail.states.as_slice(), known, behind, place, text)
    }

    /// The two texts of a split, from the texts that continue it, the last character first.
    fn texts_of_split(
        &self,
        trail: &Trail<M::State>,
        known: &mut KnownSteps<M::State>,
        state: usize,
        longer: usize,
        shorter: usize,
        texts: Texts,
    ) -> Result<Texts, AllocError>
        requires laws { KeepsLaws (M.behaviour self.now.machine.now) }
        requires traced { IsTraced (M.behaviour self.now.machine.now) trail.now }
        requires known { AreKnown (M.behaviour self.now.machine.now) trail.now.states known.old }
        requires continues { SplitContinues (M.behaviour self.now.machine.now) trail.now.states state longer shorter texts.left.items texts.right.items }
        ensures texts { IfOk result (λ texts. AreTextsOfSplit (M.behaviour self.now.machine.now) trail.now.states state longer shorter texts.left.items texts.right.items) }
        ensures known { OnOk result (AreKnown (M.behaviour self.now.machine.now) trail.now.states known.new) }
    {
        let Texts {
            left: mut left,
            right: mut right,
        } = texts;
        let states = trail.states.as_slice();
        self.push_reads(states, known, state, longer, &mut left)?;
        self.push_reads(states, known, state, shorter, &mut right)?;
        let before = self.text_to(trail, known, state)?;
        left.extend_from_slice(before.as_slice())?;
        right.extend_from_slice(before.as_slice())?;
        left.reverse();
        right.reverse();
        Ok(Texts { left, right })
    }

    /// The texts that two different paths with the same cells read: those by which a pair with an
    /// empty lead and two final states was found. The paths diverge with the two steps that split.
    /// The steps of states on the way are kept.
    pub fn texts_of(
        &self,
        trail: &Trail<M::State>,
        known: &mut KnownSteps<M::State>,
        number: usize,
    ) -> Result<Texts, AllocError>
        requires laws { KeepsLaws (M.behaviour self.now.machine.now) }
        requires traced { IsTraced (M.behaviour self.now.machine.now) trail.now }
        requires ends { HasTwoEndsAt (M.behaviour self.now.machine.now) trail.now.states trail.now.pairs number }
        requires known { AreKnown (M.behaviour self.now.machine.now) trail.now.states known.old }
        ensures texts { IfOk result (λ texts. AreTextsOf (M.behaviour self.now.machine.now) trail.now number texts.left.items texts.right.items) }
        ensures known { OnOk result (AreKnown (M.behaviour self.now.machine.now) trail.now.states known.new) }
    {
        let mut ahead = Vec::new(self.alloc);
        let mut behind = Vec::new(self.alloc);
        let mut found = number;
        loop {
            match trail.pair_origins[found] {
                PairOrigin::Still { pair, place } => {
                    self.push_behind(trail, known, pair, place, &mut behind)?;
                    found = pair;
                }
                PairOrigin::Swapped { pair, place } => {
                    self.push_behind(trail, known, pair, place, &mut ahead)?;
                    mem::swap(&mut ahead, &mut behind);
                    found = pair;
                }
                PairOrigin::Split {
                    state,
                    longer,
                    shorter,
                } => {
                    let texts = Texts {
                        left: ahead,
                        right: behind,
                    };
                    return self.texts_of_split(trail, known, state, longer, shorter, texts);
                }
            }
        }
    }
}

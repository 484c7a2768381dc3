//! The states that wait.
ghost use Rattle.std.specs.Prelude.{◌≡◌, ◌≢◌, ℕ, ◌+◌, ◌^◌, ◌<◌, ◌≤◌, max, IfOk, OnOk, IfSome};
ghost use Rattle.register_kinds.specs.declared.identities.TheConstants.{MAX_PAIRS};
ghost use Rattle.register_kinds.specs.Pairs.{AreBelow, TakesFew};
ghost use Rattle.verifier.specs.declared.waiting.Waiting.TheVariants.{Nothing};
ghost use Rattle.verifier.specs.SecondPass.{size_of, awaited, occupied, state_in, states_in, AllBelow, Joined, Merged, StartsFrom};

use crate::waiting::{Waiting, join_into};
use register_kinds::{AbsState, Boxes, Identities};
use std::alloc::{AllocError, Global};
use std::marker::Model;

/// For each instruction of a program what waits for it; how many states do, and how many at most ever did at
/// once.
#[derive(Drop)]
pub(crate) struct Pending {
    by_index: Vec<Waiting>,
    len: usize,
    peak: usize,
}

impl Model for Pending {
    ghost use Rattle.verifier.specs.SecondPass.{Table, AreStatesCounted};

    ghost Value = { Table };

    ghost view = { λ v. record { by_index = v.by_index.items; peak = v.peak } };

    ghost invariant = { λ v. AreStatesCounted v.by_index.items v.len v.peak };
}

impl Pending {
    /// The entry's state, and nothing for the other instructions.
    pub(crate) fn start(alloc: Global, len: usize) -> Result<Pending, AllocError>
        requires { 0 < len }
        ensures size { IfOk result (λ p. size_of p ≡ len) }
        ensures entry { IfOk result (λ p. StartsFrom (awaited p)) }
        ensures peak { IfOk result (λ p. p.peak ≡ 1) }
    {
        let mut by_index = Vec::with_capacity(alloc, len)?;
        by_index.push(Waiting::Known(AbsState::entry(alloc)?))?;
        for _ in 1..len {
            by_index.push_reserved(Waiting::Nothing);
        }
        Ok(Pending {
            by_index,
            len: 1,
            peak: 1,
        })
    }

    /// Joins a state into what waits for the instruction of this index, and keeps its box where it is no longer of use.
    #[inline(always)]
    pub(crate) fn put(
        &mut self,
        index: usize,
        state: Box<AbsState>,
        boxes: &mut Boxes,
        ids: &mut Identities,
    )
        requires index { index < size_of self.old }
        requires room { ids.old.next + MAX_PAIRS < 2 ^ 32 }
        requires state { AreBelow ids.old.next state.value }
        requires below { AllBelow ids.old.next (awaited self.old) }
        ensures merged { Merged index state.value (awaited self.old) (awaited self.new) }
        ensures size { size_of self.new ≡ size_of self.old }
        ensures below { AllBelow ids.new.next (awaited self.new) }
        ensures few { TakesFew MAX_PAIRS ids.old.next ids.new.next }
        ensures peak { self.new.peak ≡ max self.old.peak (states_in self.new.by_index) }
    {
        match self.by_index[index] {
            Waiting::Nothing => self.put_first(index, state),
            Waiting::Known(_) | Waiting::Differing => {
                self.join(index, &state, ids);
                boxes.keep(state);
            }
        }
    }

    /// As `put`, of a state that is of use elsewhere too. Fails where memory runs out.
    #[inline(always)]
    pub(crate) fn put_copy(
        &mut self,
        index: usize,
        state: &AbsState,
        boxes: &mut Boxes,
        ids: &mut Identities,
    ) -> Result<(), AllocError>
        requires index { index < size_of self.old }
        requires room { ids.old.next + MAX_PAIRS < 2 ^ 32 }
        requires state { AreBelow ids.old.next state.now }
        requires below { AllBelow ids.old.next (awaited self.old) }
        ensures merged { OnOk result (Merged index state.now (awaited self.old) (awaited self.new)) }
        ensures size { OnOk result (size_of self.new ≡ size_of self.old) }
        ensures below { OnOk result (AllBelow ids.new.next (awaited self.new)) }
        ensures few { TakesFew MAX_PAIRS ids.old.next ids.new.next }
        ensures peak { OnOk result (self.new.peak ≡ max self.old.peak (states_in self.new.by_index)) }
    {
        match self.by_index[index] {
            Waiting::Nothing => self.put_first(index, state.copy(boxes)?),
            Waiting::Known(_) | Waiting::Differing => self.join(index, state, ids),
        }
        Ok(())
    }

    /// Puts the first state that waits for the instruction of this index.
    fn put_first(&mut self, index: usize, state: Box<AbsState>)
        requires index { index < size_of self.old }
        requires first { awaited self.old index ≡ Nothing }
        ensures merged { Merged index state.value (awaited self.old) (awaited self.new) }
        ensures size { size_of self.new ≡ size_of self.old }
        ensures below { (top : ℕ) → AreBelow top state.value → AllBelow top (awaited self.old)
            → AllBelow top (awaited self.new) }
        ensures peak { self.new.peak ≡ max self.old.peak (states_in self.new.by_index) }
    {
        self.by_index[index] = Waiting::Known(state);
        self.len += 1;
        self.peak = self.peak.max(self.len);
    }

    /// Joins a state into what waits already.
    #[inline(always)]
    fn join(&mut self, index: usize, state: &AbsState, ids: &mut Identities)
        requires index { index < size_of self.old }
        requires waits { awaited self.old index ≢ Nothing }
        requires room { ids.old.next + MAX_PAIRS < 2 ^ 32 }
        requires state { AreBelow ids.old.next state.now }
        requires below { AllBelow ids.old.next (awaited self.old) }
        ensures merged { Merged index state.now (awaited self.old) (awaited self.new) }
        ensures size { size_of self.new ≡ size_of self.old }
        ensures below { AllBelow ids.new.next (awaited self.new) }
        ensures few { TakesFew MAX_PAIRS ids.old.next ids.new.next }
        ensures peak { self.new.peak ≡ self.old.peak }
        ensures covered { states_in self.new.by_index ≤ self.new.peak }
    {
        let gone = join_into(&mut self.by_index[index], state, ids);
        self.len -= gone;
    }

    /// Joins a state into what waits already for the instruction of this index, and takes that out.
    #[inline(never)]
    fn take_again(
        &mut self,
        index: usize,
        state: Box<AbsState>,
        boxes: &mut Boxes,
        ids: &mut Identities,
    ) -> Waiting
        requires index { index < size_of self.old }
        requires waits { awaited self.old index ≢ Nothing }
        requires room { ids.old.next + MAX_PAIRS < 2 ^ 32 }
        requires state { AreBelow ids.old.next state.value }
        requires below { AllBelow ids.old.next (awaited self.old) }
        ensures joined { Joined (awaited self.old index) state.value result }
        ensures gone { awaited self.new index ≡ Nothing }
        ensures others { (k : ℕ) → k ≢ index → awaited self.new k ≡ awaited self.old k }
        ensures size { size_of self.new ≡ size_of self.old }
        ensures below { AllBelow ids.new.next (awaited self.new) }
        ensures joined_below { IfSome (state_in result) (AreBelow ids.new.next) }
        ensures few { TakesFew MAX_PAIRS ids.old.next ids.new.next }
        ensures peak { self.new.peak ≡ self.old.peak }
        ensures room { occupied result + states_in self.new.by_index ≤ self.new.peak }
    {
        self.join(index, &state, ids);
        boxes.keep(state);
        self.take(index)
    }

    /// Joins a state into what waits for the instruction of this index, and takes that out, where more states waited at
    /// once before than do now.
    #[inline(always)]
    pub(crate) fn take_joined(
        &mut self,
        index: usize,
        state: Box<AbsState>,
        boxes: &mut Boxes,
        ids: &mut Identities,
    ) -> Waiting
        requires index { index < size_of self.old }
        requires fewer { states_in self.old.by_index < self.old.peak }
        requires room { ids.old.next + MAX_PAIRS < 2 ^ 32 }
        requires state { AreBelow ids.old.next state.value }
        requires below { AllBelow ids.old.next (awaited self.old) }
        ensures joined { Joined (awaited self.old index) state.value result }
        ensures gone { awaited self.new index ≡ Nothing }
        ensures others { (k : ℕ) → k ≢ index → awaited self.new k ≡ awaited self.old k }
        ensures size { size_of self.new ≡ size_of self.old }
        ensures below { AllBelow ids.new.next (awaited self.new) }
        ensures joined_below { IfSome (state_in result) (AreBelow ids.new.next) }
        ensures few { TakesFew MAX_PAIRS ids.old.next ids.new.next }
        ensures peak { self.new.peak ≡ self.old.peak }
        ensures room { occupied result + states_in self.new.by_index ≤ self.new.peak }
    {
        match self.by_index[index] {
            Waiting::Nothing => Waiting::Known(state),
            Waiting::Known(_) | Waiting::Differing => self.take_again(index, state, boxes, ids),
        }
    }

    /// As `take_joined`, where no more states may have waited at once before.
    #[inline(always)]
    pub(crate) fn take_counted(
        &mut self,
        index: usize,
        state: Box<AbsState>,
        boxes: &mut Boxes,
        ids: &mut Identities,
    ) -> Waiting
        requires index { index < size_of self.old }
        requires room { ids.old.next + MAX_PAIRS < 2 ^ 32 }
        requires state { AreBelow ids.old.next state.value }
        requires below { AllBelow ids.old.next (awaited self.old) }
        ensures joined { Joined (awaited self.old index) state.value result }
        ensures gone { awaited self.new index ≡ Nothing }
        ensures others { (k : ℕ) → k ≢ index → awaited self.new k ≡ awaited self.old k }
        ensures size { size_of self.new ≡ size_of self.old }
        ensures below { AllBelow ids.new.next (awaited self.new) }
        ensures joined_below { IfSome (state_in result) (AreBelow ids.new.next) }
        ensures few { TakesFew MAX_PAIRS ids.old.next ids.new.next }
        ensures peak { self.new.peak ≡ max self.old.peak (occupied result + states_in self.new.by_index) }
    {
        match self.by_index[index] {
            Waiting::Nothing => {
                self.peak = self.peak.max(self.len + 1);
                Waiting::Known(state)
            }
            Waiting::Known(_) | Waiting::Differing => self.take_again(index, state, boxes, ids),
        }
    }

    /// Takes out what waits for the instruction of this index; behind the last one nothing does.
    pub(crate) fn take(&mut self, index: usize) -> Waiting
        ensures value { result ≡ awaited self.old index }
        ensures gone { awaited self.new index ≡ Nothing }
        ensures others { (k : ℕ) → k ≢ index → awaited self.new k ≡ awaited self.old k }
        ensures size { size_of self.new ≡ size_of self.old }
        ensures peak { self.new.peak ≡ self.old.peak }
        ensures room { occupied result + states_in self.new.by_index ≤ self.new.peak }
    {
        if index >= self.by_index.len() {
            return Waiting::Nothing;
        }
        match std::mem::replace(&mut self.by_index[index], Waiting::Nothing) {
            Waiting::Known(state) => {
                self.len -= 1;
                Waiting::Known(state)
            }
            other => other,
        }
    }

    /// Takes out the state that waits for the instruction of this index, if one does.
    pub(crate) fn take_known(&mut self, index: usize) -> Option<Box<AbsState>> {
        match self.take(index) {
            Waiting::Known(state) => Some(state),
            Waiting::Nothing | Waiting::Differing => None,
        }
    }

    /// The most states that ever waited at once.
    pub(crate) fn peak(&self) -> usize
        ensures value { result ≡ self.now.peak }
        ensures some { 1 ≤ result }
        ensures few { result ≤ size_of self.now }
    {
        self.peak
    }
}

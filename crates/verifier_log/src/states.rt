//! The states that wait for instructions.

use crate::numbered::{Next, Numbered, joined};
use bpf_model::Insn;
use register_kinds::{Boxes, Identities};
use std::alloc::{AllocError, Global};
use std::mem;
use verifier::falls;

/// What waits for an instruction.
#[derive(Drop)]
pub(crate) enum Waiting {
    /// No edge has led to the instruction yet.
    Nothing,
    /// What is known on all edges that have led to it.
    Known(Numbered),
    /// Edges have led to it with different numbers of locks open.
    Differing,
}

/// The states that wait, by the index of their instructions.
#[derive(Drop)]
pub(crate) struct States {
    by_index: Vec<Waiting>,
    pub boxes: Boxes,
    pub ids: Identities,
}

impl States {
    /// What waits before the first step.
    pub(crate) fn at_entry(alloc: Global, len: usize) -> Result<States, AllocError> {
        let mut by_index = Vec::with_capacity(alloc, len)?;
        by_index.push(Waiting::Known(Numbered::entry(alloc)?))?;
        for _ in 1..len {
            by_index.push(Waiting::Nothing)?;
        }
        Ok(States {
            by_index,
            boxes: Boxes::new(alloc),
            ids: Identities::none(),
        })
    }

    /// Takes out what waits for the instruction of this index.
    pub(crate) fn take(&mut self, index: usize) -> Waiting {
        match self.by_index.get_mut(index) {
            Some(waiting) => mem::replace(waiting, Waiting::Nothing),
            None => Waiting::Nothing,
        }
    }

    /// Joins a state into what waits for the instruction of this index.
    fn put(&mut self, index: usize, state: Numbered) {
        let waiting = match self.take(index) {
            Waiting::Nothing => Waiting::Known(state),
            Waiting::Known(before) => match joined(before, state, &mut self.boxes, &mut self.ids) {
                Some(both) => Waiting::Known(both),
                None => Waiting::Differing,
            },
            Waiting::Differing => Waiting::Differing,
        };
        if let Some(place) = self.by_index.get_mut(index) {
            *place = waiting;
        }
    }

    /// Puts what an instruction makes where control goes on from it.
    pub(crate) fn spread(&mut self, insn: &Insn, index: usize, target: Option<usize>, next: Next) {
        let Next { falling, taken } = next;
        let jumping = if falls(insn) {
            self.put(index.saturating_add(1), falling);
            taken
        } else {
            Some(falling)
        };
        if let (Some(target), Some(state)) = (target, jumping) {
            self.put(target, state);
        }
    }
}

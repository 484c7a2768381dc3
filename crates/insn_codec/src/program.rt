//! A program: its instructions, and the slot where each begins.

ghost use Rattle.std.specs.Prelude.{◌≡◌, ◌≤◌, IfOk};
ghost use Rattle.bpf_model.specs.declared.limits.TheConstants.{MAX_SLOTS};
ghost use Rattle.bpf_model.specs.Places.{slot_total, starts_from as starts_from_slot};

use bpf_model::Insn;
use std::alloc::{AllocError, Global};
use std::marker::Model;

/// Instructions that take 1 to `MAX_SLOTS` slots. Contracts see a program as the list of its instructions.
#[derive(Debug, Drop)]
pub struct Program {
    instructions: Vec<Insn>,
    starts: Vec<usize>,
    slots: usize,
}

impl Model for Program {
    ghost use Rattle.std.specs.Prelude.{List, ◌≡◌};
    ghost use Rattle.bpf_model.specs.declared.insn.Insn.{Insn};
    ghost use Rattle.bpf_model.specs.Spelling.{IsProgram};
    ghost use Rattle.bpf_model.specs.Places.{starts_from, slot_total};

    ghost Value = { List Insn };

    ghost view = { λ p. p.instructions.items };

    ghost invariant = { λ p. IsProgram p.instructions.items ×
        (p.starts.items ≡ starts_from 0 p.instructions.items) ×
        (p.slots ≡ slot_total p.instructions.items) };
}

/// The slot where each instruction begins, and how many slots there are.
fn starts_of(alloc: Global, instructions: &[Insn]) -> Result<(Vec<usize>, usize), AllocError>
    requires limit { slot_total instructions.now ≤ MAX_SLOTS }
    ensures starts { IfOk result (λ x. x.0.items ≡ starts_from_slot 0 instructions.now) }
    ensures slots { IfOk result (λ x. x.1 ≡ slot_total instructions.now) }
{
    let mut starts = Vec::with_capacity(alloc, instructions.len())?;
    let mut slots = 0;
    for instruction in instructions {
        starts.push(slots)?;
        slots += instruction.slot_count();
    }
    Ok((starts, slots))
}

impl Program {
    ghost use Rattle.std.specs.Prelude.{◌≡◌, ◌<◌, ◌≤◌, ◌==◌, length, slice_index, IfOk};
    ghost use Rattle.bpf_model.specs.declared.limits.TheConstants.{MAX_SLOTS};
    ghost use Rattle.bpf_model.specs.Spelling.{IsProgram};
    ghost use Rattle.bpf_model.specs.Places.{starts_from, slot_total};

    /// The program of these parts.
    pub(crate) fn from_parts(instructions: Vec<Insn>, starts: Vec<usize>, slots: usize) -> Program
        requires program { IsProgram instructions.items }
        requires starts { starts.items ≡ starts_from 0 instructions.items }
        requires slots { slots ≡ slot_total instructions.items }
        ensures { result ≡ instructions.items }
    {
        Program {
            instructions,
            starts,
            slots,
        }
    }

    /// The program of these instructions, which take 1 to `MAX_SLOTS` slots and whose fields are
    /// in their ranges. An error says that an allocation failed.
    pub fn from_instructions(alloc: Global, instructions: Vec<Insn>) -> Result<Program, AllocError>
        requires { IsProgram instructions.items }
        ensures { IfOk result (λ p. p ≡ instructions.items) }
    {
        let (starts, slots) = starts_of(alloc, &instructions)?;
        Ok(Program::from_parts(instructions, starts, slots))
    }

    /// The instructions in order.
    pub fn instructions(&self) -> &[Insn]
        ensures value { result.now ≡ self.now }
        ensures program { IsProgram self.now }
    {
        self.instructions.as_slice()
    }

    /// How many instructions there are.
    pub fn len(&self) -> usize
        ensures { result ≡ length self.now }
    {
        self.instructions.len()
    }

    /// Whether there is no instruction; a program has at least one.
    pub fn is_empty(&self) -> bool
        ensures { result ≡ (length self.now == 0) }
    {
        self.instructions.is_empty()
    }

    /// How many slots of 8 bytes the instructions take, 1 to `MAX_SLOTS`.
    pub fn slot_count(&self) -> usize
        ensures value { result ≡ slot_total self.now }
        ensures least { 1 ≤ result }
        ensures limit { result ≤ MAX_SLOTS }
    {
        self.slots
    }

    /// The slot where each instruction begins.
    pub fn starts(&self) -> &[usize]
        ensures { result.now ≡ starts_from 0 self.now }
    {
        self.starts.as_slice()
    }

    /// The slot where the instruction of this index begins.
    pub fn start(&self, index: usize) -> usize
        requires { index < length self.now }
        ensures { result ≡ slice_index (starts_from 0 self.now) index }
    {
        self.starts[index]
    }

    /// An equal program. An error says that an allocation failed.
    pub fn copy(&self, alloc: Global) -> Result<Program, AllocError>
        ensures { IfOk result (λ p. p ≡ self.now) }
    {
        let instructions = Vec::from_slice(alloc, &self.instructions)?;
        let starts = Vec::from_slice(alloc, &self.starts)?;
        Ok(Program {
            instructions,
            starts,
            slots: self.slots,
        })
    }
}

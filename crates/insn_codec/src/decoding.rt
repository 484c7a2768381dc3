//! Programs out of bytes.
ghost use Rattle.std.specs.Prelude.{◌≡◌, ℕ, ◌%◌, ◌≤◌, ◌<◌, ◌⊎◌, List, ◌++◌, length, IfOk, IfErr, IsOk, Ok, Err, MatchResult};
ghost use Rattle.std.specs.List.{AllByRecursion};
ghost use Rattle.bpf_model.specs.declared.insn.Insn.{Insn};
ghost use Rattle.bpf_model.specs.Spelling.{FitsInsn, spelling, text, IsProgram};
ghost use Rattle.bpf_model.specs.Places.{starts_from};
ghost use Rattle.insn_codec.specs.Faults.{IsInsnFlawAt, IsDecodeFault, IsInsnDecodeFault};
ghost use Rattle.insn_codec.specs.declared.fault.DecodeFault.TheVariants.{Memory};

use crate::fault::DecodeFault;
use crate::flaw::InsnFlaw;
use crate::program::Program;
use crate::reading::decode_slot;
use crate::slots::{next_slot_from, slot_from};
use bpf_model::{Insn, MAX_SLOTS};
use std::alloc::Global;

/// The instruction at the front of the bytes, and the bytes behind it.
fn decode_first(bytes: &[u8]) -> Result<(Insn, &[u8]), InsnFlaw>
    requires { 8 ≤ length bytes.now }
    ensures found { IfOk result (λ x. bytes.now ≡ spelling x.0 ++ x.1.now) }
    ensures fits { IfOk result (λ x. FitsInsn x.0) }
    ensures only { (i : Insn) (rest : List ℕ) → FitsInsn i → bytes.now ≡ spelling i ++ rest →
        IfOk result (λ x. (x.0 ≡ i) × (x.1.now ≡ rest)) × IsOk result }
    ensures flaw { IfErr result (IsInsnFlawAt bytes.now) }
{
    let instruction = decode_slot(slot_from(bytes), next_slot_from(bytes))?;
    Ok((instruction, &bytes[8 * instruction.slot_count()..]))
}

/// The instructions that the bytes spell one after the other, and the slot where each begins.
fn decode_all(alloc: Global, bytes: &[u8]) -> Result<(Vec<Insn>, Vec<usize>), DecodeFault>
    requires whole { length bytes.now % 8 ≡ 0 }
    ensures found { IfOk result (λ x. bytes.now ≡ text x.0.items) }
    ensures fits { IfOk result (λ x. AllByRecursion FitsInsn x.0.items) }
    ensures starts { IfOk result (λ x. x.1.items ≡ starts_from 0 x.0.items) }
    ensures only { (is : List Insn) → AllByRecursion FitsInsn is → bytes.now ≡ text is →
        MatchResult result (λ x. x.0.items ≡ is) (λ e. e ≡ Memory) }
    ensures flaw { IfErr result (IsInsnDecodeFault bytes.now) }
{
    let mut instructions = Vec::with_capacity(alloc, bytes.len() / 8)?;
    let mut starts = Vec::with_capacity(alloc, bytes.len() / 8)?;
    let mut rest = bytes;
    let mut slot = 0;
    while !rest.is_empty() {
        let (instruction, after) = match decode_first(rest) {
            Ok(first) => first,
            Err(flaw) => return Err(DecodeFault::Insn { flaw, slot }),
        };
        instructions.push(instruction)?;
        starts.push(slot)?;
        slot += instruction.slot_count();
        rest = after;
    }
    Ok((instructions, starts))
}

/// The program that the bytes spell: 1 to `MAX_SLOTS` slots of 8 bytes each, little-endian.
///
/// The length is tested first: `Length`, `Empty`, `TooLong`. Then instruction after instruction is read, and
/// `Insn` tells the first that is flawed, with the slot where it begins and its first flaw in the order of
/// `InsnFlaw`. `Memory` is told where an allocation failed.
pub fn decode(alloc: Global, bytes: &[u8]) -> Result<Program, DecodeFault>
    // The bytes spell the program that is read.
    ensures found { IfOk result (λ p. bytes.now ≡ text p) }
    ensures program { IfOk result IsProgram }
    // A program that the bytes spell is the one that is read, unless memory runs out.
    ensures only { (p : List Insn) → IsProgram p → bytes.now ≡ text p →
        (result ≡ Ok p) ⊎ (result ≡ Err Memory) }
    // Which fault it is, and where.
    ensures fault { IfErr result (IsDecodeFault bytes.now) }
{
    if bytes.len() % 8 != 0 {
        return Err(DecodeFault::Length);
    }
    if bytes.is_empty() {
        return Err(DecodeFault::Empty);
    }
    if bytes.len() > 8 * MAX_SLOTS {
        return Err(DecodeFault::TooLong);
    }
    let (instructions, starts) = decode_all(alloc, bytes)?;
    Ok(Program::from_parts(instructions, starts, bytes.len() / 8))
}

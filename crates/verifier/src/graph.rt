//! Where jumps lead, whether the last instruction is EXIT, and whether each
//! instruction is reached.
ghost use Rattle.std.specs.Prelude.{◌≡◌, ℕ, ◌+◌, ◌<◌, ◌^◌, ◌≤◌, ◌↔◌, true, length, slice_get, IfOk, IfErr, IfSome, OnOk, IsTrue, Some, None, Option, Ok, Err, pos, ◌+ℤ◌, ◌≤ℤ◌, ℤ, MatchOption};
ghost use Rattle.bpf_model.specs.declared.insn.Insn.{Insn};
ghost use Rattle.bpf_model.specs.declared.limits.TheConstants.{MAX_SLOTS};
ghost use Rattle.bpf_model.specs.Places.{starts_from, slot_total};
ghost use Rattle.bpf_model.specs.Spelling.{IsProgram};
ghost use Rattle.bpf_model.specs.Graph.{falls as falls_of, distance as distance_of, EndsWithExit};
ghost use Rattle.verifier.specs.GraphFlaws.{JumpsWell, HasGoodGraph};
ghost use Rattle.verifier.specs.Indexes.{HasTargets};
ghost use Rattle.verifier.specs.FirstPass.{IsIndexBySlot, landing, landed, target_of as target_spec, Marks, AreInsnsReached, IsFirstUnreached};
ghost use Rattle.verifier.specs.Told.{IsFlawToldOf, IsAcceptedGraph};

use crate::graph_flaw::{GraphFlaw, GraphRefusal};
use bpf_model::Insn;
use std::alloc::{AllocError, Global};

/// Whether control may go on to the next instruction.
pub fn falls(insn: &Insn) -> bool
    ensures { result ≡ falls_of insn.now }
{
    match insn {
        Insn::Jump { .. } | Insn::JumpLong { .. } | Insn::Exit => false,
        _ => true,
    }
}

/// The distance of a jump, in slots from the instruction after it.
fn distance(insn: &Insn) -> Option<i32>
    ensures { result ≡ distance_of insn.now }
{
    match insn {
        Insn::Jump { offset } => Some(i32::from(*offset)),
        Insn::JumpLong { imm } => Some(*imm),
        Insn::JumpIf { offset, .. } => Some(i32::from(*offset)),
        _ => None,
    }
}

/// The slot to which a jump over a distance leads, where it is further on.
fn slot_ahead(slot: usize, distance: i32) -> Option<usize>
    requires { slot < 2 ^ 32 }
    ensures { MatchOption result ((pos (slot + 1) +ℤ distance) ≤ℤ pos slot)
        (λ to. (pos to ≡ pos (slot + 1) +ℤ distance) × (slot < to)) }
{
    let to = slot as i64 + 1 + i64::from(distance);
    if to <= slot as i64 {
        return None;
    }
    Some(to as usize)
}

/// The index of the instruction that begins at a slot.
fn index_at(indexes: &[Option<u16>], slot: usize) -> Result<usize, GraphFlaw>
    ensures { result ≡ landed (slice_get indexes.now slot) }
{
    if slot >= indexes.len() {
        return Err(GraphFlaw::JumpTarget);
    }
    match indexes[slot] {
        Some(index) => Ok(usize::from(index)),
        None => Err(GraphFlaw::JumpTarget),
    }
}

/// The index of the instruction to which a jump from a slot leads.
fn landing_from(indexes: &[Option<u16>], slot: usize, distance: i32) -> Result<usize, GraphFlaw>
    requires { slot < 2 ^ 32 }
    ensures { result ≡ landing indexes.now slot (pos (slot + 1) +ℤ distance) }
{
    match slot_ahead(slot, distance) {
        Some(to) => index_at(indexes, to),
        None => Err(GraphFlaw::BackJump),
    }
}

/// The index to which an instruction at a slot jumps, if it is a jump.
fn target_of(insn: &Insn, indexes: &[Option<u16>], slot: usize) -> Result<Option<usize>, GraphFlaw>
    requires { slot < 2 ^ 32 }
    ensures { result ≡ target_spec indexes.now slot (distance_of insn.now) }
{
    match distance(insn) {
        Some(by) => Ok(Some(landing_from(indexes, slot, by)?)),
        None => Ok(None),
    }
}

/// For each slot the index of the instruction that begins there; a program has at most `MAX_SLOTS`.
fn indexes_of(
    alloc: Global,
    instructions: &[Insn],
    starts: &[usize],
    slot_count: usize,
) -> Result<Vec<Option<u16>>, AllocError>
    requires small { slot_total instructions.now ≤ MAX_SLOTS }
    requires starts { starts.now ≡ starts_from 0 instructions.now }
    requires slots { slot_count ≡ slot_total instructions.now }
    ensures { IfOk result (λ v. IsIndexBySlot instructions.now v.items) }
{
    let mut indexes: Vec<Option<u16>> = vec![in alloc; None; slot_count]?;
    for index in 0..starts.len() {
        indexes[starts[index]] = Some(index as u16);
    }
    Ok(indexes)
}

/// For each instruction the index to which it jumps, if it is a jump.
fn targets_of(
    alloc: Global,
    instructions: &[Insn],
    starts: &[usize],
    indexes: &[Option<u16>],
) -> Result<Vec<Option<usize>>, GraphRefusal>
    requires starts { starts.now ≡ starts_from 0 instructions.now }
    requires small { slot_total instructions.now ≤ MAX_SLOTS }
    requires indexes { IsIndexBySlot instructions.now indexes.now }
    ensures targets { IfOk result (λ v. HasTargets instructions.now v.items) }
    ensures long { IfOk result (λ v. length v.items ≡ length instructions.now) }
    ensures jumps { OnOk result (JumpsWell instructions.now) }
    ensures told { IfErr result (IsFlawToldOf instructions.now) }
    ensures accepts { HasGoodGraph instructions.now → IsAcceptedGraph result }
{
    let mut targets = Vec::with_capacity(alloc, instructions.len())?;
    for index in 0..instructions.len() {
        match target_of(&instructions[index], indexes, starts[index]) {
            Ok(target) => targets.push_reserved(target),
            Err(flaw) => {
                return Err(GraphRefusal::Flaw {
                    flaw,
                    slot: starts[index],
                });
            }
        }
    }
    Ok(targets)
}

/// Whether the last instruction is EXIT.
fn ends_with_exit(instructions: &[Insn]) -> bool
    ensures { IsTrue result ↔ EndsWithExit instructions.now }
{
    matches!(instructions.last(), Some(Insn::Exit))
}

/// Marks the instructions to which control may go on from that of this index.
fn mark(reached: &mut [bool], insn: &Insn, target: Option<usize>, index: usize)
    requires next { falls_of insn.now ≡ true → index + 1 < length reached.old }
    requires target { IfSome target (λ t. t < length reached.old) }
    ensures { Marks insn.now target index reached.old reached.new }
{
    if falls(insn) {
        reached[index + 1] = true;
    }
    if let Some(t) = target {
        reached[t] = true;
    }
}

/// The first instruction that no path reaches; at first none is marked but the first.
fn first_unmarked(
    reached: &mut [bool],
    instructions: &[Insn],
    targets: &[Option<usize>],
) -> Option<usize>
    requires marks { length reached.old ≡ length instructions.now }
    requires long { length targets.now ≡ length instructions.now }
    requires targets { HasTargets instructions.now targets.now }
    requires last { EndsWithExit instructions.now }
    requires entry { slice_get reached.old 0 ≡ Some true }
    requires only { (k : ℕ) → slice_get reached.old k ≡ Some true → k ≡ 0 }
    ensures { MatchOption result (AreInsnsReached instructions.now)
        (IsFirstUnreached instructions.now) }
{
    for index in 0..instructions.len() {
        if !reached[index] {
            return Some(index);
        }
        mark(reached, &instructions[index], targets[index], index);
    }
    None
}

/// The first instruction that no path reaches.
fn first_unreached(
    alloc: Global,
    instructions: &[Insn],
    targets: &[Option<usize>],
) -> Result<Option<usize>, AllocError>
    requires some { 0 < length instructions.now }
    requires long { length targets.now ≡ length instructions.now }
    requires targets { HasTargets instructions.now targets.now }
    requires last { EndsWithExit instructions.now }
    ensures { IfOk result (λ r. MatchOption r (AreInsnsReached instructions.now)
        (IsFirstUnreached instructions.now)) }
{
    let mut reached = first_marked(alloc, instructions.len())?;
    Ok(first_unmarked(&mut reached, instructions, targets))
}

/// So many marks, of which only the first is set.
fn first_marked(alloc: Global, len: usize) -> Result<Vec<bool>, AllocError>
    requires { 0 < len }
    ensures long { IfOk result (λ v. length v.items ≡ len) }
    ensures first { IfOk result (λ v. slice_get v.items 0 ≡ Some true) }
    ensures only { IfOk result (λ v. (k : ℕ) → slice_get v.items k ≡ Some true → k ≡ 0) }
{
    let mut marks: Vec<bool> = vec![in alloc; false; len]?;
    marks[0] = true;
    Ok(marks)
}

/// Judges the jump graph, and says for each instruction the index to which it jumps.
///
/// Errors, in this order, each with the slot of its instruction: the first jump that leads back
/// (`BackJump`) or to no instruction's start (`JumpTarget`); a last instruction that is not EXIT
/// (`FallsOff`); the first instruction that no path reaches (`Unreachable`). `Memory` at any time.
pub fn judge(
    alloc: Global,
    instructions: &[Insn],
    starts: &[usize],
    slot_count: usize,
) -> Result<Vec<Option<usize>>, GraphRefusal>
    requires program { IsProgram instructions.now }
    requires starts { starts.now ≡ starts_from 0 instructions.now }
    requires slots { slot_count ≡ slot_total instructions.now }
    ensures targets { IfOk result (λ v. HasTargets instructions.now v.items) }
    ensures long { IfOk result (λ v. length v.items ≡ length instructions.now) }
    ensures good { OnOk result (HasGoodGraph instructions.now) }
    ensures told { IfErr result (IsFlawToldOf instructions.now) }
    ensures accepts { HasGoodGraph instructions.now → IsAcceptedGraph result }
{
    let indexes = indexes_of(alloc, instructions, starts, slot_count)?;
    let targets = targets_of(alloc, instructions, starts, &indexes)?;
    if !ends_with_exit(instructions) {
        return Err(GraphRefusal::Flaw {
            flaw: GraphFlaw::FallsOff,
            slot: starts[starts.len() - 1],
        });
    }
    match first_unreached(alloc, instructions, &targets)? {
        Some(index) => Err(GraphRefusal::Flaw {
            flaw: GraphFlaw::Unreachable,
            slot: starts[index],
        }),
        None => Ok(targets),
    }
}

//! The calls on programs.
ghost use Rattle.std.specs.Prelude.{◌≡◌, IfOk};
ghost use Rattle.element_store.specs.State.{new_arena};

use crate::again::made;
use anyhow::{Result, ensure};
use asm::{AsmFault, assemble};
use bpf_model::{MapKind, MapShape};
use disasm::disassemble;
use element_store::Arena;
use insn_codec::{DecodeFault, Program, decode, encode};
use std::alloc::Global;
use verifier::{ProgramRefusal, Verified, verify};

/// Exits with the number that the map has under key 7; with 0 where there is no such key.
const TEXT: &str = "\
mov64 r6, 0
callbtf 1
stw [r10-4], 7
mov64 r2, r10
add64 r2, -4
ldmap r1, 0
call 1
jeq r0, 0, +1
ldxdw r6, [r0+0]
callbtf 2
mov64 r0, r6
exit
";

/// Keys of 4 bytes, values of 8; map slots for all updates, none of which is reclaimed.
pub const SHAPE: MapShape = MapShape {
    kind: MapKind::Hash,
    key_len: 4,
    value_len: 8,
    entries: 16,
    spare: 200,
    reuse_limit: 1000,
};

/// The program of the text.
pub fn assembled(alloc: Global) -> Result<(Program, bool)> {
    match assemble(alloc, TEXT) {
        Err(AsmFault::Memory) => made(assemble(alloc, TEXT), true),
        answer => made(answer, false),
    }
}

/// The bytes of a program.
pub fn encoded(alloc: Global, program: &Program) -> Result<(Vec<u8>, bool)> {
    match encode(alloc, program) {
        Err(_) => made(encode(alloc, program), true),
        answer => made(answer, false),
    }
}

/// The program of the bytes.
pub fn decoded(alloc: Global, bytes: &[u8]) -> Result<(Program, bool)> {
    match decode(alloc, bytes) {
        Err(DecodeFault::Memory) => made(decode(alloc, bytes), true),
        answer => made(answer, false),
    }
}

/// The text of a program.
fn written(alloc: Global, program: &Program) -> Result<(String, bool)> {
    match disassemble(alloc, program) {
        Err(_) => made(disassemble(alloc, program), true),
        answer => made(answer, false),
    }
}

/// Writes the text of the program, which is that of which it was made.
pub fn disassembled(alloc: Global, program: &Program) -> Result<bool> {
    let (found, again) = written(alloc, program)?;
    ensure!(found.as_str() == TEXT, "the text is another one");
    Ok(again)
}

/// What the verifier says of the bytes' program, for one map.
fn verdict(alloc: Global, bytes: &[u8]) -> Result<Result<Verified, ProgramRefusal>> {
    Ok(verify(alloc, decode(alloc, bytes)?, &[SHAPE], 0))
}

/// The program of the bytes, verified for one map.
pub fn verified(alloc: Global, bytes: &[u8]) -> Result<(Verified, bool)> {
    match verdict(alloc, bytes)? {
        Err(ProgramRefusal::Memory) => made(verdict(alloc, bytes)?, true),
        answer => made(answer, false),
    }
}

/// An arena of one slot.
fn made_arena(alloc: Global) -> Result<(Arena, bool)>
    ensures { IfOk result (λ made. made.0 ≡ new_arena 1 4 8 1) }
{
    match Arena::new(alloc, 1, 4, 8, 1) {
        Err(_) => Ok((Arena::new(alloc, 1, 4, 8, 1)?, true)),
        Ok(arena) => Ok((arena, false)),
    }
}

/// Makes an arena, and takes its slot.
pub fn arena(alloc: Global) -> Result<bool> {
    let (mut arena, again) = made_arena(alloc)?;
    ensure!(arena.take(&[0; 4], &[0; 8]).is_some(), "no slot is free");
    Ok(again)
}

//! A step of a run, and what tells it.
ghost use Rattle.std.specs.Prelude.{◌≡◌, ◌⊎◌, ℕ, List, ◌++◌, ◌∷◌, [], Some, slice_get, IfOk};
ghost use Rattle.bpf_model.specs.declared.insn.Insn.{Insn};
ghost use Rattle.bpf_model.specs.declared.event.Event.TheVariants.{Step};
ghost use Rattle.bpf_model.specs.Headline.{AnswersAsMachine, AllExitInTime, AreNeverStuck};
ghost use Rattle.bpf_model.specs.Machine as machine;
ghost use Rattle.bpf_model.specs.Refines.{Tracks};
ghost use Rattle.bpf_model.specs.Step.{insn_at as insn_of};
ghost use Rattle.run_once.specs.Told.{AreIndented, HasNext, IsSeen, ShowsStep, margin, step_line};

use crate::calls::{asked_of, write_call};
use crate::changes::{Before, write_changes};
use crate::words::write_place;
use bpf_model::{Answer, Event, Insn, Operand, ProgId, RunId, Width};
use disasm::line_of;
use machine::Run;
use maps::Registry;
use std::alloc::{AllocError, Global};
use std::io;
use std::io::Write;
use world::World;

/// The instruction that begins at a slot, if one does.
fn insn_at(program: &[Insn], slot: usize) -> Option<Insn>
    ensures { result ≡ insn_of program.now slot }
{
    let mut left = slot;
    for insn in program {
        if left == 0 {
            return Some(*insn);
        }
        let slots = insn.slot_count();
        if left < slots {
            return None;
        }
        left -= slots;
    }
    None
}

/// The instruction at which a run stands.
fn next_insn(world: &World, run: &Run) -> Option<Insn>
    ensures { (l : machine.Loaded) → slice_get world.now.programs run.now.view.program ≡ Some l →
        result ≡ insn_of l.code run.now.view.place }
{
    let loaded = world.program(ProgId::new(run.program()))?;
    insn_at(loaded.verified.program().instructions(), run.place())
}

/// The low bytes of a number that a store of this width keeps.
fn kept(number: u64, width: Width) -> u64 {
    match width {
        Width::One => number % (1 << 8),
        Width::Two => number % (1 << 16),
        Width::Four => number % (1 << 32),
        Width::Eight => number,
    }
}

/// Writes what a store writes, and where.
fn write_store<W: Write>(out: &mut W, maps: &Registry, run: &Run, insn: &Insn) -> io::Result<()> {
    let Insn::Store {
        width,
        dst,
        offset,
        src,
    } = insn
    else {
        return Ok(());
    };
    let number = match src {
        Operand::Register(register) => run.register(*register),
        Operand::Immediate(number) => i64::from(*number).cast_unsigned(),
    };
    let place = run
        .register(*dst)
        .wrapping_add(i64::from(*offset).cast_unsigned());
    let stored = kept(number, *width);
    let count = width.bytes();
    let unit = if count == 1 { "byte" } else { "bytes" };
    write!(out, "stores {stored}, {count} {unit}, at {place}")?;
    write_place(out, maps, place)?;
    writeln!(out)
}

/// Writes the slot of an instruction, and its text.
fn push_line(alloc: Global, text: &mut Vec<u8>, slot: usize, insn: &Insn) -> io::Result<()>
    ensures { IfOk result (λ _. text.new.items ≡ text.old.items ++ step_line slot insn.now) }
{
    let line = line_of(alloc, insn)?;
    writeln!(text, "{slot}: {line}")
}

/// The byte, or `?` in the place of one that is neither seen nor a line feed.
fn shown(byte: u8) -> u8
    ensures { (result ≡ 10) ⊎ IsSeen result }
{
    match byte {
        b'\n' | b' '..=b'~' => byte,
        _ => b'?',
    }
}

/// Writes a byte, behind two blanks where it begins a line.
fn push_byte(text: &mut Vec<u8>, begins: bool, byte: u8) -> Result<(), AllocError>
    ensures { IfOk result (λ _. text.new.items ≡ text.old.items ++ (margin begins ++ byte ∷ [])) }
{
    if begins {
        text.extend_from_slice(b"  ")?;
    }
    text.push(byte)?;
    Ok(())
}

/// Writes each line of a text behind two blanks, and ends the last one where it is not ended.
fn push_indented(text: &mut Vec<u8>, lines: &[u8]) -> Result<(), AllocError>
    ensures { IfOk result (λ _. (late : List ℕ) × AreIndented late × (text.new.items ≡ text.old.items ++ late)) }
{
    let mut begins = true;
    for byte in lines {
        let byte = shown(*byte);
        push_byte(text, begins, byte)?;
        begins = byte == b'\n';
    }
    if !begins {
        text.push(b'\n')?;
    }
    Ok(())
}

/// Makes the next step of run 0, and writes the slot and the text of its instruction. Below them, behind two blanks, stands what
/// a store writes, what a helper was called for and has given, and what has changed: registers, bytes of the frame, the number
/// of open locks.
///
/// An error says that memory ran out.
pub fn tell_step(alloc: Global, world: &mut World, text: &mut Vec<u8>) -> io::Result<Answer>
    requires next { (slot : ℕ) × (insn : Insn) × HasNext world.old slot insn }
    ensures machine { IfOk result (λ a. AnswersAsMachine Tracks world.old (Step 0) a world.new) }
    ensures never_stuck { IfOk result (λ a. AreNeverStuck Tracks world.old (Step 0 ∷ []) (a ∷ [])) }
    ensures exits { IfOk result (λ a. AllExitInTime Tracks world.old (Step 0 ∷ []) (a ∷ [])) }
    ensures told { IfOk result (λ a. (late : List ℕ) × (text.new.items ≡ text.old.items ++ late)
        × ((slot : ℕ) (insn : Insn) → HasNext world.old slot insn → ShowsStep slot insn late)) }
{
    let Some(run) = world.run(RunId::new(0)) else {
        unreachable!();
    };
    let Some(insn) = next_insn(world, run) else {
        unreachable!();
    };
    let slot = run.place();
    let mut below = Vec::new(alloc);
    write_store(&mut below, world.registry(), run, &insn)?;
    let before = Before::of(run);
    let asked = asked_of(world.registry(), run, &insn);
    let answer = world.apply(&Event::Step { run: RunId::new(0) });
    if let Some(asked) = &asked {
        write_call(&mut below, world, asked)?;
    }
    if let Some(run) = world.run(RunId::new(0)) {
        write_changes(&mut below, world.registry(), &before, run)?;
    }
    push_line(alloc, text, slot, &insn)?;
    push_indented(text, &below)?;
    Ok(answer)
}

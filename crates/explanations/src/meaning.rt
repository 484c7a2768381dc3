//! The names and the meanings of refusals, as docs/REFUSALS.md has them.

use bpf_model::{EventRefusal, Insn};
use insn_codec::{DecodeFault, InsnFlaw};
use program_files::{LoadFault, Verdict};
use register_kinds::InsnFault;
use verifier::{GraphFlaw, ProgramRefusal};

/// The name of a refusal, and what it means in a sentence.
#[derive(Clone, Copy, Debug, PartialEq, Eq)]
pub struct Meaning {
    pub name: &'static str,
    pub text: &'static str,
}

impl Meaning {
    /// A name with a meaning.
    pub const fn new(name: &'static str, text: &'static str) -> Meaning {
        Meaning { name, text }
    }

    /// What `NAME: MEANING` says.
    pub fn of(words: &'static str) -> Meaning {
        let (name, text) = words.split_once(": ").unwrap_or((words, ""));
        Meaning { name, text }
    }
}

/// What a flaw of an instruction's bytes means.
fn of_flaw(flaw: InsnFlaw) -> &'static str {
    match flaw {
        InsnFlaw::UnknownOpcode => "UnknownOpcode: the opcode byte stands for nothing",
        InsnFlaw::OutsideProfile => "OutsideProfile: a packet or atomic instruction",
        InsnFlaw::BadRegister => "BadRegister: a register nibble above 10, used or not",
        InsnFlaw::UnsupportedSource =>
            "UnsupportedSource: the source field of a call is not 0 or 2, that of a wide instruction not 0 or 5",
        InsnFlaw::UnusedField =>
            "UnusedField: a field that the instruction does not use is not zero",
        InsnFlaw::BadOffset =>
            "BadOffset: the offset of DIV or MOD is not 0 or 1, that of MOV by a register not 0, 8, 16 or (64 bits) 32",
        InsnFlaw::BadWidth => "BadWidth: a byte swap of other than 16, 32 or 64 bits",
        InsnFlaw::WideCut => "WideCut: a wide instruction in the last slot",
        InsnFlaw::WideTail =>
            "WideTail: the second slot of a wide instruction is not a bare number, or not zero where the source is 5",
    }
}

/// What it means that bytes are no program; `None` where memory ran out.
fn of_code(fault: &DecodeFault) -> Option<&'static str> {
    match fault {
        DecodeFault::Length => Some("Length: the number of bytes is not a multiple of 8"),
        DecodeFault::Empty => Some("Empty: there is no instruction"),
        DecodeFault::TooLong => Some("TooLong: more than 4,096 slots"),
        DecodeFault::Insn { flaw, .. } => Some(of_flaw(*flaw)),
        DecodeFault::Memory => None,
    }
}

/// What a flaw of the jump graph means.
fn of_graph(flaw: GraphFlaw) -> &'static str {
    match flaw {
        GraphFlaw::JumpTarget => "JumpTarget: a jump leads to no instruction's start",
        GraphFlaw::BackJump => "BackJump: a jump leads to its own slot or before it",
        GraphFlaw::FallsOff => "FallsOff: the last instruction is not EXIT",
        GraphFlaw::Unreachable => "Unreachable: no path of the jump graph leads to the instruction",
    }
}

/// What it means that an instruction is refused; `None` where memory ran out.
fn of_fault(fault: InsnFault) -> Option<&'static str> {
    let words = match fault {
        InsnFault::UnwrittenRegister =>
            "UnwrittenRegister: a register is read that is not written on every path, or not since a call",
        InsnFault::FramePointerWritten => "FramePointerWritten: r10 is written",
        InsnFault::PointerArithmetic =>
            "PointerArithmetic: a pointer or map as a number, or an offset that may be too far, or one in the frame that is not known as one number",
        InsnFault::NotAPointer => "NotAPointer: memory reached through a number or a map",
        InsnFault::OutOfBounds =>
            "OutOfBounds: some possible offset of an access lies outside its region",
        InsnFault::Misaligned => "Misaligned: some possible offset is not a multiple of the width",
        InsnFault::UnwrittenFrame =>
            "UnwrittenFrame: a byte of the frame is read that is not written on every path",
        InsnFault::PointerLeak =>
            "PointerLeak: a pointer or map is stored to an element, stored or read in part, part of a call's key or value, or returned by EXIT",
        InsnFault::MixedRegions =>
            "MixedRegions: a register or a byte of the frame is read that holds different kinds on different paths",
        InsnFault::MaybeNull =>
            "MaybeNull: what a lookup gave is used before it is compared with null",
        InsnFault::OutsideSection =>
            "OutsideSection: an element of a hash map is reached outside the section of its lookup, or a lookup is made outside a section and r1 is no array",
        InsnFault::UnpairedSection =>
            "UnpairedSection: a lock where 8 are open, an unlock outside a section, an exit inside one, or paths that differ in depth",
        InsnFault::UnknownCall => "UnknownCall: a call of an unknown function",
        InsnFault::WrongArgument => "WrongArgument: an argument of a call is of a wrong kind",
        InsnFault::NoSuchMap => "NoSuchMap: a map that is not in the program's list",
        InsnFault::ContextWrite => "ContextWrite: a store to the context",
        InsnFault::Memory => return None,
    };
    Some(words)
}

/// What it means that the verifier refuses a program; `None` where memory ran out.
fn of_program(refusal: &ProgramRefusal) -> Option<&'static str> {
    match refusal {
        ProgramRefusal::Graph { flaw, .. } => Some(of_graph(*flaw)),
        ProgramRefusal::Instruction { fault, .. } => of_fault(*fault),
        ProgramRefusal::Memory => None,
    }
}

/// What a verdict on a program file means; `None` where memory ran out.
pub fn meaning_of(verdict: &Verdict) -> Option<Meaning> {
    let words = match verdict {
        Verdict::File(LoadFault::BadFile { .. }) => "BadFile: a line of a program file is wrong",
        Verdict::Code(fault) => of_code(fault)?,
        Verdict::Program(refusal) => of_program(refusal)?,
        Verdict::File(LoadFault::Memory) | Verdict::Memory => return None,
    };
    Some(Meaning::of(words))
}

/// What it means that an event is refused: a line of a script, or the context or an element of a run.
pub fn meaning_of_event(refusal: EventRefusal) -> Meaning {
    let words = match refusal {
        EventRefusal::NoRun => "NoRun: no run has the run slot",
        EventRefusal::Ended => "Ended: the run has ended",
        EventRefusal::NoProgram => "NoProgram: no program has the number",
        EventRefusal::BadContext =>
            "BadContext: a context of another length than the program's, or above 256",
        EventRefusal::RunsFull => "RunsFull: no run slot is free",
        EventRefusal::NoMap => "NoMap: no map has the number, or the name",
        EventRefusal::BadLength => "BadLength: a key or a value of another length than the map's",
        EventRefusal::StillRunning => "StillRunning: the run has not ended",
    };
    Meaning::of(words)
}

/// What it means that sections are not paired at an instruction where so many locks are open, or where paths differ in how
/// many: the one cause that holds.
pub fn unpaired(insn: &Insn, depth: Option<usize>) -> Meaning {
    let text = match (depth, insn) {
        (None, _) => "paths that differ in depth meet",
        (Some(_), Insn::Exit) => "an exit inside a section",
        (Some(0), _) => "an unlock outside a section",
        (Some(_), _) => "a lock where 8 are open",
    };
    Meaning::new("UnpairedSection", text)
}

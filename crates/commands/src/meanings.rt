//! What refusals mean, where a JSON object or `--explain` tells it, as docs/REFUSALS.md has it.

use crate::refusal::CommandRefusal;
use asm::AsmFault;
use bpf_model::EventRefusal;
use classic::{ClassicFault, ReadFault, TranslateFault};
use explanations::{Meaning, meaning_of, meaning_of_event};
use insn_codec::DecodeFault;
use job_queue::PoolFault;
use program_files::{LoadFault, Verdict};
use std::alloc::{AllocError, Global};
use texts::{FilterFault, TextFault};

/// The name of a refusal, and what it means.
#[derive(Drop)]
pub struct RefusalWords {
    pub name: &'static str,
    pub text: String,
}

/// What is told where a refusal has no meaning but that memory ran out.
const NO_MEANING: Meaning = Meaning { name: "", text: "" };

/// What a refusal means; none where memory ran out or a result was lost.
pub fn meaning_of_refusal(refusal: &CommandRefusal) -> Option<Meaning> {
    let words = match refusal {
        CommandRefusal::File(verdict) => return meaning_of(verdict),
        CommandRefusal::Event(refusal) => return Some(meaning_of_event(*refusal)),
        CommandRefusal::NoPlace =>
            "NoPlace: an element is not put, since its map has as many as it may have, no map slot is free, or the index is past the array's end",
        CommandRefusal::Pool(PoolFault::BadWorkers) => {
            "BadWorkers: the number of workers is not 1 to 8"
        }
        CommandRefusal::Pool(PoolFault::TooManyJobs) => "TooManyJobs: more than 65,536 jobs",
        CommandRefusal::Pool(PoolFault::Memory | PoolFault::Lost) => return None,
    };
    Some(Meaning::of(words))
}

/// What is told above the meaning of a refusal of a run whose program is accepted.
fn front_of(refusal: &CommandRefusal) -> &'static str {
    match refusal {
        CommandRefusal::Event(EventRefusal::BadContext) => {
            "the program is accepted, and the context is wrong: "
        }
        CommandRefusal::Event(_) | CommandRefusal::NoPlace => {
            "the program is accepted, and an element is wrong: "
        }
        CommandRefusal::File(_) | CommandRefusal::Pool(_) => "",
    }
}

/// The name and the meaning of a refusal of a file or its run.
pub fn words_of(alloc: Global, refusal: &CommandRefusal) -> Result<RefusalWords, AllocError> {
    let Meaning { name, text } = meaning_of_refusal(refusal).unwrap_or(NO_MEANING);
    let front = front_of(refusal);
    Ok(RefusalWords {
        name,
        text: format!(in alloc; "{front}{text}")?,
    })
}

/// What it means that a line has the form of no instruction.
const BAD_LINE: &str =
    "BadLine: a line that has the form of no instruction, or a name without a meaning or with two";

/// What a fault of instructions means; none where memory ran out.
fn of_asm(flaw: &AsmFault) -> Option<Meaning> {
    match flaw {
        AsmFault::BadLine(_) => Some(Meaning::of(BAD_LINE)),
        AsmFault::BadOperand(_) => Some(Meaning::of(
            "BadOperand: a register, number, offset or width out of its range",
        )),
        AsmFault::TooLong => meaning_of(&Verdict::Code(DecodeFault::TooLong)),
        AsmFault::Empty => meaning_of(&Verdict::Code(DecodeFault::Empty)),
        AsmFault::Memory => None,
    }
}

/// What a fault of a text of instructions means; none where memory ran out.
pub fn meaning_of_text(why: &TextFault) -> Option<Meaning> {
    match why {
        TextFault::NotUtf8 { .. } | TextFault::Unnamed { .. } => Some(Meaning::of(BAD_LINE)),
        TextFault::Flawed { flaw, .. } => of_asm(flaw),
        TextFault::BadHead { line } => {
            meaning_of(&Verdict::File(LoadFault::BadFile { line: *line }))
        }
        TextFault::Memory => None,
    }
}

/// What it means that a line is none of a listing.
const BAD_ROW: &str =
    "BadLine: one of the first so many lines is not `CODE JT JF K` in decimal, each in its range";

/// What it means that bytes list no classic program; none where memory ran out.
fn of_listing(fault: &ReadFault) -> Option<&'static str> {
    let words = match fault {
        ReadFault::BadCount => {
            "BadCount: the first line is no number, or more lines are below it than it says, or fewer"
        }
        ReadFault::BadLine(_) => BAD_ROW,
        ReadFault::CutRecord => "CutRecord: the number of bytes is not a multiple of 8",
        ReadFault::Memory => return None,
    };
    Some(words)
}

/// What it means that instructions are no classic program; none where memory ran out.
fn of_classic(fault: &ClassicFault) -> Option<&'static str> {
    let words = match fault {
        ClassicFault::Empty => "Empty: there is no instruction",
        ClassicFault::TooLong => "TooLong: more than 4,096 instructions",
        ClassicFault::UnknownOpcode(_) => "UnknownOpcode: the code stands for no instruction",
        ClassicFault::BadWord(_) => "BadWord: a word of memory other than 0 to 15",
        ClassicFault::DivisionByZero(_) => {
            "DivisionByZero: a division or modulo by the constant 0"
        }
        ClassicFault::BadShift(_) => "BadShift: a shift by a constant above 31",
        ClassicFault::BadJump(_) => {
            "BadJump: a jump leads outside, so also back; or the last instruction goes on"
        }
        ClassicFault::NotOfSeccomp(_) => {
            "NotOfSeccomp: a load other than of an aligned word below 64"
        }
        ClassicFault::UnwrittenWord(_) => {
            "UnwrittenWord: a word of memory is read that is not written on every path"
        }
        ClassicFault::PolicyRemainder(_) => {
            "PolicyRemainder: a `mod`, which Linux refuses in a policy"
        }
        ClassicFault::Memory => return None,
    };
    Some(words)
}

/// What it means that a classic program has no translation; none where memory ran out.
fn of_translation(fault: &TranslateFault) -> Option<&'static str> {
    let words = match fault {
        TranslateFault::OutsideWindow(_) => {
            "OutsideWindow: a load whose constant offset alone leads past the 248 bytes of packet that a context has"
        }
        TranslateFault::TooManySlots => "TooManySlots: the translation takes more than 4,096 slots",
        TranslateFault::Memory => return None,
    };
    Some(words)
}

/// What a fault of a classic program means; none where memory ran out.
pub fn meaning_of_filter(why: &FilterFault) -> Option<Meaning> {
    let words = match why {
        FilterFault::NotUtf8 { .. } => BAD_ROW,
        FilterFault::Unread(fault) => of_listing(fault)?,
        FilterFault::Flawed(fault) => of_classic(fault)?,
        FilterFault::Untranslated(fault) => of_translation(fault)?,
        FilterFault::Memory => return None,
    };
    Some(Meaning::of(words))
}

//! Why a command refuses its input.
ghost use Rattle.std.specs.Prelude.{◌≡◌, Decides};
ghost use Rattle.program_files.specs.Verdicts.{memory_number};
ghost use Rattle.commands.specs.declared.refusal.CommandRefusal.TheVariants.{File};

use bpf_model::EventRefusal;
use job_queue::PoolFault;
use program_files::{RefusedFile, RefusedProgram, Verdict};

/// Why a command refuses its input, by what is wrong.
#[derive(Clone, Copy, Debug, PartialEq, Eq)]
pub enum CommandRefusal {
    /// The program file.
    File(Verdict),
    /// The context or an element of a run.
    Event(EventRefusal),
    /// An element of a run, for which its map has no place.
    NoPlace,
    /// The workers or the jobs of a pool.
    Pool(PoolFault),
}

impl CommandRefusal {
    ghost use Rattle.commands.specs.Refusals.{command_number, command_slot, command_line};

    /// The number by which the refusal is known; 13 for want of memory.
    pub fn code(&self) -> u8
        ensures { result ≡ command_number self.now }
    {
        match self {
            CommandRefusal::File(verdict) => verdict.code(),
            CommandRefusal::Event(refusal) => refusal.code(),
            CommandRefusal::NoPlace => 98,
            CommandRefusal::Pool(fault) => fault.code(),
        }
    }

    /// Whether memory ran out.
    pub fn is_memory(&self) -> bool
        ensures { Decides result (command_number self.now ≡ memory_number) }
    {
        self.code() == Verdict::Memory.code()
    }

    /// The slot where the instruction begins, counted from 0, where the refusal is of one.
    pub fn slot(&self) -> Option<usize>
        ensures { result ≡ command_slot self.now }
    {
        match self {
            CommandRefusal::File(verdict) => verdict.slot(),
            _ => None,
        }
    }

    /// The line of the file, counted from 1, where the refusal is of one.
    pub fn line(&self) -> Option<usize>
        ensures { result ≡ command_line self.now }
    {
        match self {
            CommandRefusal::File(verdict) => verdict.line(),
            _ => None,
        }
    }
}

/// Why a command refuses its input, and the program where the verifier refuses that.
#[derive(Drop)]
pub struct Refused {
    pub refusal: CommandRefusal,
    pub program: Option<RefusedProgram>,
}

impl From<CommandRefusal> for Refused {
    ghost from_gives = { λ refusal r. r.refusal ≡ refusal };

    fn from(refusal: CommandRefusal) -> Refused {
        Refused {
            refusal,
            program: None,
        }
    }
}

impl From<Verdict> for Refused {
    ghost from_gives = { λ verdict r. r.refusal ≡ File verdict };

    fn from(verdict: Verdict) -> Refused {
        Refused::from(CommandRefusal::File(verdict))
    }
}

impl From<RefusedFile> for Refused {
    ghost from_gives = { λ file r. r.refusal ≡ File file.verdict };

    fn from(file: RefusedFile) -> Refused {
        Refused {
            refusal: CommandRefusal::File(file.verdict),
            program: file.program,
        }
    }
}

//! Why no program is opened, and why one is not run.
ghost use Rattle.std.specs.Prelude.{◌≡◌, option_map};
ghost use Rattle.host_programs.specs.Numbers.{open_fault_number, open_fault_place};
ghost use Rattle.host_programs.specs.declared.fault.OpenFault.TheVariants as faults;
ghost use Rattle.host_programs.specs.declared.fault.Place.TheVariants as Place;

use classic::{ClassicFault, ReadFault, TranslateFault};
use insn_codec::DecodeFault;
use program_files::LoadFault;
use thiserror::Error;
use verifier::ProgramRefusal;

/// Where a fault is.
#[derive(Clone, Copy, Debug, PartialEq, Eq)]
pub enum Place {
    /// A slot of the program, counted from 0.
    Slot(usize),
    /// A line of the text, counted from 1.
    Line(usize),
    /// An instruction of a classic program, counted from 0.
    Instruction(usize),
    /// A map of the list, counted from 0.
    Map(usize),
}

/// Why no program is opened.
#[derive(Clone, Copy, Debug, PartialEq, Eq, Error)]
pub enum OpenFault {
    /// A context of so many bytes is longer than `CTX_BYTES`.
    #[error("a context has at most 256 bytes")]
    ContextLength,
    /// There are more than `MAX_MAPS` maps.
    #[error("there are more than 16 maps")]
    TooManyMaps,
    /// No map may have the shape of the map of this number.
    #[error("no map may have the shape of map {map}")]
    BadShape { map: usize },
    /// The text is no program file.
    #[error("{0}")]
    File(LoadFault),
    /// The bytes are no program.
    #[error("{0}")]
    Bytes(DecodeFault),
    /// The verifier refuses the program.
    #[error("{0}")]
    Program(ProgramRefusal),
    /// This line of a listing is the first that is not UTF-8.
    #[error("line {line} is not UTF-8")]
    NotUtf8 { line: usize },
    /// The text or the array lists no classic program.
    #[error("{0}")]
    Unread(ReadFault),
    /// The instructions are no classic program.
    #[error("{0}")]
    Flawed(ClassicFault),
    /// The classic program has no translation.
    #[error("{0}")]
    Untranslated(TranslateFault),
}

/// Why a program is not run.
#[derive(Clone, Copy, Debug, PartialEq, Eq, Error)]
pub enum RunFault {
    /// The program names a map, so it runs over a world or a table alone.
    #[error("the program names a map")]
    NamesMaps,
    /// The context has another length than the program's, or many have; or a packet lies outside the bytes.
    #[error("the context has another length than the program's, or a packet lies outside")]
    Length,
}

/// A slot, where there is one.
fn at_slot(slot: Option<usize>) -> Option<Place>
    ensures { result ≡ option_map Place.Slot slot }
{
    match slot {
        Some(slot) => Some(Place::Slot(slot)),
        None => None,
    }
}

/// A line, where there is one.
fn at_line(line: Option<usize>) -> Option<Place>
    ensures { result ≡ option_map Place.Line line }
{
    match line {
        Some(line) => Some(Place::Line(line)),
        None => None,
    }
}

/// An instruction, where there is one.
fn at_instruction(index: Option<usize>) -> Option<Place>
    ensures { result ≡ option_map Place.Instruction index }
{
    match index {
        Some(index) => Some(Place::Instruction(index)),
        None => None,
    }
}

impl OpenFault {
    /// The number by which the fault is known (docs/REFUSALS.md); 13 for want of memory.
    pub fn code(&self) -> u8
        ensures { result ≡ open_fault_number self.now }
    {
        match self {
            OpenFault::ContextLength => 63,
            OpenFault::TooManyMaps => 53,
            OpenFault::BadShape { .. } => 52,
            OpenFault::File(fault) => fault.code(),
            OpenFault::Bytes(fault) => fault.code(),
            OpenFault::Program(refusal) => refusal.code(),
            OpenFault::NotUtf8 { .. } => 101,
            OpenFault::Unread(fault) => fault.code(),
            OpenFault::Flawed(fault) => fault.code(),
            OpenFault::Untranslated(fault) => fault.code(),
        }
    }

    /// Where the fault is, where it is in one place.
    pub fn place(&self) -> Option<Place>
        ensures { result ≡ open_fault_place self.now }
    {
        match self {
            OpenFault::ContextLength | OpenFault::TooManyMaps => None,
            OpenFault::BadShape { map } => Some(Place::Map(*map)),
            OpenFault::File(fault) => at_line(fault.line()),
            OpenFault::Bytes(fault) => at_slot(fault.slot()),
            OpenFault::Program(refusal) => at_slot(refusal.slot()),
            OpenFault::NotUtf8 { line } => Some(Place::Line(*line)),
            OpenFault::Unread(fault) => at_line(fault.line()),
            OpenFault::Flawed(fault) => at_instruction(fault.instruction()),
            OpenFault::Untranslated(fault) => at_instruction(fault.instruction()),
        }
    }
}

impl From<LoadFault> for OpenFault {
    ghost from_gives = { λ fault e. e ≡ faults.File fault };

    fn from(fault: LoadFault) -> OpenFault {
        OpenFault::File(fault)
    }
}

impl From<DecodeFault> for OpenFault {
    ghost from_gives = { λ fault e. e ≡ faults.Bytes fault };

    fn from(fault: DecodeFault) -> OpenFault {
        OpenFault::Bytes(fault)
    }
}

impl From<ProgramRefusal> for OpenFault {
    ghost from_gives = { λ fault e. e ≡ faults.Program fault };

    fn from(refusal: ProgramRefusal) -> OpenFault {
        OpenFault::Program(refusal)
    }
}

impl From<ReadFault> for OpenFault {
    ghost from_gives = { λ fault e. e ≡ faults.Unread fault };

    fn from(fault: ReadFault) -> OpenFault {
        OpenFault::Unread(fault)
    }
}

impl From<ClassicFault> for OpenFault {
    ghost from_gives = { λ fault e. e ≡ faults.Flawed fault };

    fn from(fault: ClassicFault) -> OpenFault {
        OpenFault::Flawed(fault)
    }
}

impl From<TranslateFault> for OpenFault {
    ghost from_gives = { λ fault e. e ≡ faults.Untranslated fault };

    fn from(fault: TranslateFault) -> OpenFault {
        OpenFault::Untranslated(fault)
    }
}

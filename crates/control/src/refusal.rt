//! Why a line of a script is refused.
ghost use Rattle.std.specs.Prelude.{◌≡◌};
ghost use Rattle.control.specs.Refusals.{line_refusal_number, line_refusal_slot, refusal_reply};

use bpf_model::EventRefusal;
use insn_codec::DecodeFault;
use maps::MapFault;
use script_lines::Reply;
use verifier::ProgramRefusal;
use world::WorldFault;

/// Why a line of a script is refused.
#[derive(Clone, Copy, Debug, PartialEq, Eq)]
pub enum LineRefusal {
    /// The name or the shape of a `map`, or that there are as many maps as there may be.
    Map(MapFault),
    /// There are as many programs as there may be.
    TooManyPrograms,
    /// The bytes of a `load` are no program.
    Decode(DecodeFault),
    /// The verifier refuses the program of a `load`.
    Program(ProgramRefusal),
    /// The event that a line asks for; or of a `load` the length of its context, or the name of a map.
    Event(EventRefusal),
    /// A `map` or a `load` once there is a world.
    TooLate,
}

/// The number of the refusal of a map or a program once there is a world.
const TOO_LATE: u8 = 56;

impl LineRefusal {
    /// The number by which the refusal is known: that of what it holds, 54 for a program too many, or 56 once there is a world.
    pub fn code(self) -> u8
        ensures { result ≡ line_refusal_number self }
    {
        match self {
            LineRefusal::Map(fault) => fault.code(),
            LineRefusal::TooManyPrograms => WorldFault::TooManyPrograms.code(),
            LineRefusal::Decode(fault) => fault.code(),
            LineRefusal::Program(refusal) => refusal.code(),
            LineRefusal::Event(refusal) => refusal.code(),
            LineRefusal::TooLate => TOO_LATE,
        }
    }

    /// The slot of the program of a `load` at which it is refused, counted from 0, where it is at one.
    pub fn slot(self) -> Option<usize>
        ensures { result ≡ line_refusal_slot self }
    {
        match self {
            LineRefusal::Decode(fault) => fault.slot(),
            LineRefusal::Program(refusal) => refusal.slot(),
            LineRefusal::Map(_)
            | LineRefusal::TooManyPrograms
            | LineRefusal::Event(_)
            | LineRefusal::TooLate => None,
        }
    }

    /// The reply that tells the refusal.
    pub fn reply(self) -> Reply<'static>
        ensures { result ≡ refusal_reply self }
    {
        Reply::Refused {
            code: self.code(),
            slot: self.slot(),
        }
    }
}

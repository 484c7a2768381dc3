//! What is wrong with an instruction's bytes.

ghost use Rattle.std.specs.Prelude.{◌≡◌};
ghost use Rattle.insn_codec.specs.Faults.{insn_flaw_number};

use thiserror::Error;

/// The first test that an instruction's bytes fail, in the order of the tests.
#[derive(Clone, Copy, Debug, PartialEq, Eq, Error)]
pub enum InsnFlaw {
    /// The opcode byte stands for nothing.
    #[error("unknown opcode")]
    UnknownOpcode,
    /// The opcode is of a packet or an atomic instruction, which this runtime leaves out.
    #[error("opcode outside the profile")]
    OutsideProfile,
    /// A register field is above 10, whether the instruction uses it or not.
    #[error("register above r10")]
    BadRegister,
    /// The source field of a call is not 0 or 2, or that of a wide instruction not 0 or 5.
    #[error("unsupported source field")]
    UnsupportedSource,
    /// A field that the instruction does not use is not zero.
    #[error("unused field is not zero")]
    UnusedField,
    /// The offset of a division, a modulo or a move is none of those defined for it.
    #[error("bad offset")]
    BadOffset,
    /// The width of a byte swap is not 16, 32 or 64.
    #[error("bad width of a byte swap")]
    BadWidth,
    /// The program ends behind the first slot of a wide instruction.
    #[error("wide instruction without its second slot")]
    WideCut,
    /// The second slot of a wide instruction holds more than it may.
    #[error("bad second slot of a wide instruction")]
    WideTail,
}

impl InsnFlaw {
    /// The number by which the flaw is known, 4 to 12.
    pub fn code(self) -> u8
        ensures { result ≡ insn_flaw_number self }
    {
        match self {
            InsnFlaw::UnknownOpcode => 4,
            InsnFlaw::OutsideProfile => 5,
            InsnFlaw::BadRegister => 6,
            InsnFlaw::UnsupportedSource => 7,
            InsnFlaw::UnusedField => 8,
            InsnFlaw::BadOffset => 9,
            InsnFlaw::BadWidth => 10,
            InsnFlaw::WideCut => 11,
            InsnFlaw::WideTail => 12,
        }
    }
}

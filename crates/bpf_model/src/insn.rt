//! Instructions (RFC 9669, sections 4 and 5).

use crate::opcode::{ByteOrder, Condition, SignedWidth, Size, SwapWidth, Width};
use crate::reg::Reg;

/// The second operand: a register, or the field imm, which is sign-extended where 64 bits are read.
#[derive(Clone, Copy, Debug, PartialEq, Eq)]
pub enum Operand {
    Register(Reg),
    Immediate(i32),
}

/// An operation of two operands. `Div` and `Mod` are unsigned; a shift takes its amount modulo the size.
#[derive(Clone, Copy, Debug, PartialEq, Eq)]
pub enum AluOp {
    Add,
    Sub,
    Mul,
    Div,
    SignedDiv,
    Or,
    And,
    ShiftLeft,
    ShiftRight,
    Mod,
    SignedMod,
    Xor,
    Move,
    ShiftRightSigned,
}

/// A move that extends a sign (MOVSX): from how many bits, and the size of what it writes. There is no
/// move of 32 bits to 32.
#[derive(Clone, Copy, Debug, PartialEq, Eq)]
pub enum SignExtension {
    ByteTo32,
    ShortTo32,
    ByteTo64,
    ShortTo64,
    WordTo64,
}

/// An operation of one operand. What it reads is the register that it writes, but for a move that extends
/// a sign, which has a source of its own.
#[derive(Clone, Copy, Debug, PartialEq, Eq)]
pub enum UnaryOp {
    /// NEG: zero less the register.
    Negate(Size),
    /// END: the low bytes of the register, as they are or in another order.
    ByteSwap { order: ByteOrder, width: SwapWidth },
    /// MOVSX: the low bits of `src` as a signed number.
    MoveSigned { extension: SignExtension, src: Reg },
}

impl UnaryOp {
    ghost use Rattle.std.specs.Prelude.{◌≡◌};
    ghost use Rattle.bpf_model.specs.Operand.{unary_source};

    /// The register that the operation reads, where it writes `dst`.
    #[inline]
    pub fn source(&self, dst: Reg) -> Reg
        ensures { result ≡ unary_source self.now dst }
    {
        match self {
            UnaryOp::MoveSigned { src, .. } => *src,
            UnaryOp::Negate(_) | UnaryOp::ByteSwap { .. } => dst,
        }
    }
}

/// How a called function is named: a helper by its static number, a kernel function by its BTF number.
#[derive(Clone, Copy, Debug, PartialEq, Eq)]
pub enum CallKind {
    Helper,
    Kernel,
}

/// An instruction. An offset of a jump counts slots from the instruction after the jump; an offset of an
/// access counts bytes.
#[derive(Clone, Copy, Debug, PartialEq, Eq)]
pub enum Insn {
    Alu {
        op: AluOp,
        size: Size,
        dst: Reg,
        src: Operand,
    },
    Unary {
        op: UnaryOp,
        dst: Reg,
    },
    /// The wide instruction with a number of 64 bits.
    LoadNumber {
        dst: Reg,
        number: u64,
    },
    /// The wide instruction with a map: its index in the program's own list of maps.
    LoadMap {
        dst: Reg,
        map: i32,
    },
    Jump {
        offset: i16,
    },
    /// The jump of class JMP32, whose distance stands in imm.
    JumpLong {
        imm: i32,
    },
    JumpIf {
        condition: Condition,
        size: Size,
        dst: Reg,
        src: Operand,
        offset: i16,
    },
    Call {
        kind: CallKind,
        imm: i32,
    },
    Exit,
    Load {
        width: Width,
        dst: Reg,
        src: Reg,
        offset: i16,
    },
    LoadSigned {
        width: SignedWidth,
        dst: Reg,
        src: Reg,
        offset: i16,
    },
    /// A store of the low bytes of a register, or of the field imm, which is sign-extended.
    Store {
        width: Width,
        dst: Reg,
        offset: i16,
        src: Operand,
    },
}

impl Insn {
    ghost use Rattle.std.specs.Prelude.{◌≡◌, ◌≤◌};
    ghost use Rattle.bpf_model.specs.Step.{slot_count as slot_count_of};

    /// How many slots the instruction takes: 2 for the wide ones, else 1.
    pub fn slot_count(&self) -> usize
        ensures value { result ≡ slot_count_of self.now }
        ensures least { 1 ≤ result }
        ensures bound { result ≤ 2 }
    {
        match self {
            Insn::LoadNumber { .. } | Insn::LoadMap { .. } => 2,
            _ => 1,
        }
    }
}

//! What an opcode byte says (RFC 9669, sections 3 to 5).

/// How many bits an operation or a comparison works on: the low 32 (classes ALU and JMP32), or all 64
/// (classes ALU64 and JMP).
#[derive(Clone, Copy, Debug, PartialEq, Eq)]
pub enum Size {
    Word32,
    Word64,
}

/// Where the second operand comes from: the field imm (K) or the source register (X).
#[derive(Clone, Copy, Debug, PartialEq, Eq)]
pub enum Source {
    Immediate,
    Register,
}

/// The code of an arithmetic opcode: its high four bits.
#[derive(Clone, Copy, Debug, PartialEq, Eq)]
pub enum AluCode {
    Add,
    Sub,
    Mul,
    Div,
    Or,
    And,
    ShiftLeft,
    ShiftRight,
    Mod,
    Xor,
    Move,
    ShiftRightSigned,
}

/// When a conditional jump is taken. Where a name does not say `Signed`, the order is unsigned;
/// `SharesBits` is JSET: the two operands have a bit in common.
#[derive(Clone, Copy, Debug, PartialEq, Eq)]
pub enum Condition {
    Equal,
    Greater,
    GreaterOrEqual,
    SharesBits,
    NotEqual,
    SignedGreater,
    SignedGreaterOrEqual,
    Less,
    LessOrEqual,
    SignedLess,
    SignedLessOrEqual,
}

/// How many bytes a load or a store takes.
#[derive(Clone, Copy, Debug, PartialEq, Eq)]
pub enum Width {
    One,
    Two,
    Four,
    Eight,
}

/// How many bytes a sign-extending load takes.
#[derive(Clone, Copy, Debug, PartialEq, Eq)]
pub enum SignedWidth {
    One,
    Two,
    Four,
}

/// What a byte swap instruction does (END): keeps the low bytes, gives them in big-endian order, or
/// swaps them always.
#[derive(Clone, Copy, Debug, PartialEq, Eq)]
pub enum ByteOrder {
    ToLittle,
    ToBig,
    Swap,
}

/// How many bytes a byte swap instruction takes.
#[derive(Clone, Copy, Debug, PartialEq, Eq)]
pub enum SwapWidth {
    Two,
    Four,
    Eight,
}

/// The opcodes of the conformance groups packet, atomic32 and atomic64, which this runtime leaves out.
#[derive(Clone, Copy, Debug, PartialEq, Eq)]
pub enum Excluded {
    AbsoluteWord,
    AbsoluteHalf,
    AbsoluteByte,
    IndirectWord,
    IndirectHalf,
    IndirectByte,
    AtomicWord,
    AtomicDouble,
}

/// What an opcode byte says, for each byte that stands for something.
#[derive(Clone, Copy, Debug, PartialEq, Eq)]
pub enum Opcode {
    Alu(AluCode, Size, Source),
    Negate(Size),
    ByteSwap(ByteOrder),
    /// The jump by the offset (class JMP, `Word64`) or by the field imm (class JMP32, `Word32`).
    Jump(Size),
    JumpIf(Condition, Size, Source),
    Call,
    Exit,
    Load(Width),
    LoadSigned(SignedWidth),
    /// A store of the field imm (class ST) or of a register (class STX).
    Store(Width, Source),
    /// The instruction of two slots, with a number of 64 bits or a map (class LD, section 5.4).
    Wide,
    Excluded(Excluded),
}

impl Width {
    ghost use Rattle.std.specs.Prelude.{◌≡◌, ◌≤◌};
    ghost use Rattle.bpf_model.specs.Access.{byte_count};

    /// How many bytes: 1, 2, 4 or 8.
    pub fn bytes(self) -> usize
        ensures value { result ≡ byte_count self }
        ensures bound { result ≤ 8 }
    {
        match self {
            Width::One => 1,
            Width::Two => 2,
            Width::Four => 4,
            Width::Eight => 8,
        }
    }
}

impl SignedWidth {
    ghost use Rattle.std.specs.Prelude.{◌≡◌};
    ghost use Rattle.bpf_model.specs.Access.{unsigned_width};

    /// The width without its sign.
    pub fn width(self) -> Width
        ensures { result ≡ unsigned_width self }
    {
        match self {
            SignedWidth::One => Width::One,
            SignedWidth::Two => Width::Two,
            SignedWidth::Four => Width::Four,
        }
    }
}

//! Classic instructions.

use std::marker::Model;

/// One of the sixteen words of memory. Contracts see it as its number.
#[derive(Clone, Copy, Debug, PartialEq, Eq)]
pub struct MemoryWord {
    number: u8,
}

impl Model for MemoryWord {
    ghost use Rattle.std.specs.Prelude.{ℕ, ◌<◌};

    ghost Value = { ℕ };

    ghost view = { λ w. w.number };

    ghost invariant = { λ w. w.number < 16 };

    ghost inverse = { λ n. record { number = n } };
}

impl MemoryWord {
    ghost use Rattle.std.specs.Prelude.{ℕ, ◌≡◌, ◌≤◌, ◌<◌, MatchOption};

    /// The word of this number, or `None` above 15.
    pub fn new(number: u32) -> Option<MemoryWord>
        ensures { MatchOption result (16 ≤ number) (λ w. (w ≡ number) × (number < 16)) }
    {
        if number < 16 {
            Some(MemoryWord {
                number: number as u8,
            })
        } else {
            None
        }
    }

    /// Its number, 0 to 15.
    pub fn number(self) -> u8
        ensures value { result ≡ self }
        ensures bound { result < 16 }
    {
        self.number
    }
}

/// The two registers.
#[derive(Clone, Copy, Debug, PartialEq, Eq)]
pub enum ClassicReg {
    A,
    X,
}

/// How many bytes of the data a load takes.
#[derive(Clone, Copy, Debug, PartialEq, Eq)]
pub enum LoadSize {
    Byte,
    Half,
    Word,
}

/// What a load puts into a register.
#[derive(Clone, Copy, Debug, PartialEq, Eq)]
pub enum Datum {
    Number(u32),
    Memory(MemoryWord),
    /// The length of the data: of a packet, how many bytes it had on the wire.
    Length,
    /// Bytes of the data at `at`.
    Bytes { size: LoadSize, at: u32 },
    /// Bytes of the data at `X + at`.
    Indexed { size: LoadSize, at: u32 },
    /// Four times the low half of the byte at `at`: the length of an IP header.
    HeaderLength { at: u32 },
}

/// The second operand: a number, or X.
#[derive(Clone, Copy, Debug, PartialEq, Eq)]
pub enum ClassicOperand {
    Number(u32),
    Index,
}

/// An operation on A.
#[derive(Clone, Copy, Debug, PartialEq, Eq)]
pub enum ClassicOp {
    Add,
    Sub,
    Mul,
    Div,
    Mod,
    Or,
    And,
    Xor,
    ShiftLeft,
    ShiftRight,
}

/// A test of A.
#[derive(Clone, Copy, Debug, PartialEq, Eq)]
pub enum ClassicTest {
    Equal,
    Greater,
    GreaterOrEqual,
    SharesBits,
}

/// An instruction. A jump skips so many of the instructions behind it.
#[derive(Clone, Copy, Debug, PartialEq, Eq)]
pub enum ClassicInsn {
    Load {
        into: ClassicReg,
        datum: Datum,
    },
    Store {
        word: MemoryWord,
        from: ClassicReg,
    },
    Alu {
        op: ClassicOp,
        operand: ClassicOperand,
    },
    Negate,
    Jump {
        skip: u32,
    },
    JumpIf {
        test: ClassicTest,
        operand: ClassicOperand,
        if_true: u8,
        if_false: u8,
    },
    ReturnNumber {
        value: u32,
    },
    ReturnA,
    /// TAX: A is copied to X.
    CopyToX,
    /// TXA: X is copied to A.
    CopyToA,
}

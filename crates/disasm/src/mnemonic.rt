//! The names of instructions.
ghost use Rattle.std.specs.Prelude.{◌≡◌};
ghost use Rattle.disasm.specs.Text.{alu_stem as alu_stem_of, condition_stem as condition_stem_of, order_stem as order_stem_of, size_suffix as size_suffix_of, jump_suffix as jump_suffix_of, swap_suffix as swap_suffix_of, width_suffix as width_suffix_of, signed_width_suffix as signed_width_suffix_of};

use bpf_model::{AluOp, ByteOrder, CallKind, Condition, SignedWidth, Size, SwapWidth, Width};

/// What an instruction's line begins with. Its name is a stem and a suffix, as `add` and `64`.
#[derive(Clone, Copy, Debug, PartialEq, Eq)]
pub enum Mnemonic {
    Alu(AluOp, Size),
    MoveSigned(Size),
    Negate(Size),
    ByteSwap(ByteOrder, SwapWidth),
    /// `lddw`: a number of 64 bits.
    LoadNumber,
    /// `ldmap`: a map, by its index in the program's list.
    LoadMap,
    /// `ja`: the jump of class JMP, whose distance stands in offset.
    Jump,
    /// `ja32`: the jump of class JMP32, whose distance stands in imm.
    JumpLong,
    JumpIf(Condition, Size),
    Call(CallKind),
    Exit,
    Load(Width),
    LoadSigned(SignedWidth),
    /// `st`: a store of the field imm.
    Store(Width),
    /// `stx`: a store of a register.
    StoreRegister(Width),
}

/// Every mnemonic, by the first letter of its name.
pub const MNEMONICS: [Mnemonic; 85] = [
    Mnemonic::Alu(AluOp::Add, Size::Word64),
    Mnemonic::Alu(AluOp::Add, Size::Word32),
    Mnemonic::Alu(AluOp::And, Size::Word64),
    Mnemonic::Alu(AluOp::And, Size::Word32),
    Mnemonic::Alu(AluOp::ShiftRightSigned, Size::Word64),
    Mnemonic::Alu(AluOp::ShiftRightSigned, Size::Word32),
    Mnemonic::ByteSwap(ByteOrder::ToBig, SwapWidth::Two),
    Mnemonic::ByteSwap(ByteOrder::ToBig, SwapWidth::Four),
    Mnemonic::ByteSwap(ByteOrder::ToBig, SwapWidth::Eight),
    Mnemonic::Call(CallKind::Helper),
    Mnemonic::Call(CallKind::Kernel),
    Mnemonic::Alu(AluOp::Div, Size::Word64),
    Mnemonic::Alu(AluOp::Div, Size::Word32),
    Mnemonic::Exit,
    Mnemonic::Jump,
    Mnemonic::JumpLong,
    Mnemonic::JumpIf(Condition::Equal, Size::Word64),
    Mnemonic::JumpIf(Condition::Equal, Size::Word32),
    Mnemonic::JumpIf(Condition::Greater, Size::Word64),
    Mnemonic::JumpIf(Condition::Greater, Size::Word32),
    Mnemonic::JumpIf(Condition::GreaterOrEqual, Size::Word64),
    Mnemonic::JumpIf(Condition::GreaterOrEqual, Size::Word32),
    Mnemonic::JumpIf(Condition::SharesBits, Size::Word64),
    Mnemonic::JumpIf(Condition::SharesBits, Size::Word32),
    Mnemonic::JumpIf(Condition::NotEqual, Size::Word64),
    Mnemonic::JumpIf(Condition::NotEqual, Size::Word32),
    Mnemonic::JumpIf(Condition::SignedGreater, Size::Word64),
    Mnemonic::JumpIf(Condition::SignedGreater, Size::Word32),
    Mnemonic::JumpIf(Condition::SignedGreaterOrEqual, Size::Word64),
    Mnemonic::JumpIf(Condition::SignedGreaterOrEqual, Size::Word32),
    Mnemonic::JumpIf(Condition::Less, Size::Word64),
    Mnemonic::JumpIf(Condition::Less, Size::Word32),
    Mnemonic::JumpIf(Condition::LessOrEqual, Size::Word64),
    Mnemonic::JumpIf(Condition::LessOrEqual, Size::Word32),
    Mnemonic::JumpIf(Condition::SignedLess, Size::Word64),
    Mnemonic::JumpIf(Condition::SignedLess, Size::Word32),
    Mnemonic::JumpIf(Condition::SignedLessOrEqual, Size::Word64),
    Mnemonic::JumpIf(Condition::SignedLessOrEqual, Size::Word32),
    Mnemonic::Load(Width::One),
    Mnemonic::Load(Width::Two),
    Mnemonic::Load(Width::Four),
    Mnemonic::Load(Width::Eight),
    Mnemonic::LoadSigned(SignedWidth::One),
    Mnemonic::LoadSigned(SignedWidth::Two),
    Mnemonic::LoadSigned(SignedWidth::Four),
    Mnemonic::LoadNumber,
    Mnemonic::LoadMap,
    Mnemonic::Alu(AluOp::ShiftLeft, Size::Word64),
    Mnemonic::Alu(AluOp::ShiftLeft, Size::Word32),
    Mnemonic::ByteSwap(ByteOrder::ToLittle, SwapWidth::Two),
    Mnemonic::ByteSwap(ByteOrder::ToLittle, SwapWidth::Four),
    Mnemonic::ByteSwap(ByteOrder::ToLittle, SwapWidth::Eight),
    Mnemonic::Alu(AluOp::Move, Size::Word64),
    Mnemonic::Alu(AluOp::Move, Size::Word32),
    Mnemonic::MoveSigned(Size::Word64),
    Mnemonic::MoveSigned(Size::Word32),
    Mnemonic::Alu(AluOp::Mul, Size::Word64),
    Mnemonic::Alu(AluOp::Mul, Size::Word32),
    Mnemonic::Alu(AluOp::Mod, Size::Word64),
    Mnemonic::Alu(AluOp::Mod, Size::Word32),
    Mnemonic::Negate(Size::Word64),
    Mnemonic::Negate(Size::Word32),
    Mnemonic::Alu(AluOp::Or, Size::Word64),
    Mnemonic::Alu(AluOp::Or, Size::Word32),
    Mnemonic::Alu(AluOp::ShiftRight, Size::Word64),
    Mnemonic::Alu(AluOp::ShiftRight, Size::Word32),
    Mnemonic::StoreRegister(Width::One),
    Mnemonic::StoreRegister(Width::Two),
    Mnemonic::StoreRegister(Width::Four),
    Mnemonic::StoreRegister(Width::Eight),
    Mnemonic::Store(Width::One),
    Mnemonic::Store(Width::Two),
    Mnemonic::Store(Width::Four),
    Mnemonic::Store(Width::Eight),
    Mnemonic::Alu(AluOp::Sub, Size::Word64),
    Mnemonic::Alu(AluOp::Sub, Size::Word32),
    Mnemonic::Alu(AluOp::SignedDiv, Size::Word64),
    Mnemonic::Alu(AluOp::SignedDiv, Size::Word32),
    Mnemonic::Alu(AluOp::SignedMod, Size::Word64),
    Mnemonic::Alu(AluOp::SignedMod, Size::Word32),
    Mnemonic::ByteSwap(ByteOrder::Swap, SwapWidth::Two),
    Mnemonic::ByteSwap(ByteOrder::Swap, SwapWidth::Four),
    Mnemonic::ByteSwap(ByteOrder::Swap, SwapWidth::Eight),
    Mnemonic::Alu(AluOp::Xor, Size::Word64),
    Mnemonic::Alu(AluOp::Xor, Size::Word32),
];

impl Mnemonic {
    ghost use Rattle.std.specs.Prelude.{◌≡◌};
    ghost use Rattle.disasm.specs.Text.{stem_of, suffix_of};

    /// The first part of the name, which says what is done: `add` of `add64`.
    pub fn stem(self) -> &'static str
        ensures { result.now ≡ stem_of self }
    {
        match &self {
            Mnemonic::Alu(op, _) => alu_stem(*op),
            Mnemonic::MoveSigned(_) => "movsx",
            Mnemonic::Negate(_) => "neg",
            Mnemonic::ByteSwap(order, _) => order_stem(*order),
            Mnemonic::LoadNumber => "lddw",
            Mnemonic::LoadMap => "ldmap",
            Mnemonic::Jump | Mnemonic::JumpLong => "ja",
            Mnemonic::JumpIf(condition, _) => condition_stem(*condition),
            Mnemonic::Call(_) => "call",
            Mnemonic::Exit => "exit",
            Mnemonic::Load(_) => "ldx",
            Mnemonic::LoadSigned(_) => "ldxs",
            Mnemonic::Store(_) => "st",
            Mnemonic::StoreRegister(_) => "stx",
        }
    }

    /// The rest of the name, which says on how many bits or bytes, or which call: `64` of `add64`. It may
    /// be empty.
    pub fn suffix(self) -> &'static str
        ensures { result.now ≡ suffix_of self }
    {
        match &self {
            Mnemonic::Alu(_, size) | Mnemonic::MoveSigned(size) | Mnemonic::Negate(size) => {
                size_suffix(*size)
            }
            Mnemonic::ByteSwap(_, width) => swap_suffix(*width),
            Mnemonic::JumpLong => "32",
            Mnemonic::JumpIf(_, size) => jump_suffix(*size),
            Mnemonic::Call(CallKind::Kernel) => "btf",
            Mnemonic::Load(width) | Mnemonic::Store(width) | Mnemonic::StoreRegister(width) => {
                width_suffix(*width)
            }
            Mnemonic::LoadSigned(width) => signed_width_suffix(*width),
            Mnemonic::LoadNumber
            | Mnemonic::LoadMap
            | Mnemonic::Jump
            | Mnemonic::Call(CallKind::Helper)
            | Mnemonic::Exit => "",
        }
    }
}

fn alu_stem(op: AluOp) -> &'static str
    ensures { result.now ≡ alu_stem_of op }
{
    match op {
        AluOp::Add => "add",
        AluOp::Sub => "sub",
        AluOp::Mul => "mul",
        AluOp::Div => "div",
        AluOp::SignedDiv => "sdiv",
        AluOp::Or => "or",
        AluOp::And => "and",
        AluOp::ShiftLeft => "lsh",
        AluOp::ShiftRight => "rsh",
        AluOp::Mod => "mod",
        AluOp::SignedMod => "smod",
        AluOp::Xor => "xor",
        AluOp::Move => "mov",
        AluOp::ShiftRightSigned => "arsh",
    }
}

fn condition_stem(condition: Condition) -> &'static str
    ensures { result.now ≡ condition_stem_of condition }
{
    match condition {
        Condition::Equal => "jeq",
        Condition::Greater => "jgt",
        Condition::GreaterOrEqual => "jge",
        Condition::SharesBits => "jset",
        Condition::NotEqual => "jne",
        Condition::SignedGreater => "jsgt",
        Condition::SignedGreaterOrEqual => "jsge",
        Condition::Less => "jlt",
        Condition::LessOrEqual => "jle",
        Condition::SignedLess => "jslt",
        Condition::SignedLessOrEqual => "jsle",
    }
}

fn order_stem(order: ByteOrder) -> &'static str
    ensures { result.now ≡ order_stem_of order }
{
    match order {
        ByteOrder::ToLittle => "le",
        ByteOrder::ToBig => "be",
        ByteOrder::Swap => "swap",
    }
}

fn size_suffix(size: Size) -> &'static str
    ensures { result.now ≡ size_suffix_of size }
{
    match size {
        Size::Word32 => "32",
        Size::Word64 => "64",
    }
}

/// A jump of class JMP has no suffix.
fn jump_suffix(size: Size) -> &'static str
    ensures { result.now ≡ jump_suffix_of size }
{
    match size {
        Size::Word32 => "32",
        Size::Word64 => "",
    }
}

fn swap_suffix(width: SwapWidth) -> &'static str
    ensures { result.now ≡ swap_suffix_of width }
{
    match width {
        SwapWidth::Two => "16",
        SwapWidth::Four => "32",
        SwapWidth::Eight => "64",
    }
}

fn width_suffix(width: Width) -> &'static str
    ensures { result.now ≡ width_suffix_of width }
{
    match width {
        Width::One => "b",
        Width::Two => "h",
        Width::Four => "w",
        Width::Eight => "dw",
    }
}

fn signed_width_suffix(width: SignedWidth) -> &'static str
    ensures { result.now ≡ signed_width_suffix_of width }
{
    match width {
        SignedWidth::One => "b",
        SignedWidth::Two => "h",
        SignedWidth::Four => "w",
    }
}

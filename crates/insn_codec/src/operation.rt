//! The operations on two operands: the code of each, and the bits of each code (RFC 9669, section 4.1).
ghost use Rattle.std.specs.Prelude.{◌≡◌, ◌≢◌, ◌⊎◌, ◌*◌, pos, IfSome, IsNone, Some};
ghost use Rattle.bpf_model.specs.declared.opcode.AluCode.{AluCode as AluCodeOf};
ghost use Rattle.bpf_model.specs.Opcode.{alu_code};
ghost use Rattle.bpf_model.specs.Spelling.{code_of, alu_offset};

use bpf_model::{AluCode, AluOp};

/// The code of an operation. Two operations have the code of another one, and an offset of their own.
pub(crate) fn code_of(op: AluOp) -> AluCode
    ensures { result ≡ code_of op }
{
    match op {
        AluOp::Add => AluCode::Add,
        AluOp::Sub => AluCode::Sub,
        AluOp::Mul => AluCode::Mul,
        AluOp::Div | AluOp::SignedDiv => AluCode::Div,
        AluOp::Or => AluCode::Or,
        AluOp::And => AluCode::And,
        AluOp::ShiftLeft => AluCode::ShiftLeft,
        AluOp::ShiftRight => AluCode::ShiftRight,
        AluOp::Mod | AluOp::SignedMod => AluCode::Mod,
        AluOp::Xor => AluCode::Xor,
        AluOp::Move => AluCode::Move,
        AluOp::ShiftRightSigned => AluCode::ShiftRightSigned,
    }
}

/// The field offset of an operation.
pub(crate) fn offset_of(op: AluOp) -> i16
    ensures { result ≡ alu_offset op }
{
    match op {
        AluOp::SignedDiv | AluOp::SignedMod => 1,
        _ => 0,
    }
}

/// The operation of a code, which the offset tells where the code has two.
pub(crate) fn op_of(code: AluCode, offset: i16) -> Option<AluOp>
    ensures some { IfSome result (λ p. (code_of p ≡ code) × (alu_offset p ≡ offset)) }
    ensures none { IsNone result →
        (offset ≢ pos 0) × ((code ≡ AluCode.Div) ⊎ (code ≡ AluCode.Mod) → offset ≢ pos 1) }
{
    let op = match (code, offset) {
        (AluCode::Add, 0) => AluOp::Add,
        (AluCode::Sub, 0) => AluOp::Sub,
        (AluCode::Mul, 0) => AluOp::Mul,
        (AluCode::Div, 0) => AluOp::Div,
        (AluCode::Div, 1) => AluOp::SignedDiv,
        (AluCode::Or, 0) => AluOp::Or,
        (AluCode::And, 0) => AluOp::And,
        (AluCode::ShiftLeft, 0) => AluOp::ShiftLeft,
        (AluCode::ShiftRight, 0) => AluOp::ShiftRight,
        (AluCode::Mod, 0) => AluOp::Mod,
        (AluCode::Mod, 1) => AluOp::SignedMod,
        (AluCode::Xor, 0) => AluOp::Xor,
        (AluCode::Move, 0) => AluOp::Move,
        (AluCode::ShiftRightSigned, 0) => AluOp::ShiftRightSigned,
        _ => return None,
    };
    Some(op)
}

/// The bits of a code in its byte: the high four.
pub(crate) fn alu_code_bits(code: AluCode) -> u8
    ensures { result ≡ alu_code code }
{
    match code {
        AluCode::Add => 0x00,
        AluCode::Sub => 0x10,
        AluCode::Mul => 0x20,
        AluCode::Div => 0x30,
        AluCode::Or => 0x40,
        AluCode::And => 0x50,
        AluCode::ShiftLeft => 0x60,
        AluCode::ShiftRight => 0x70,
        AluCode::Mod => 0x90,
        AluCode::Xor => 0xa0,
        AluCode::Move => 0xb0,
        AluCode::ShiftRightSigned => 0xc0,
    }
}

/// The code with these high four bits.
pub(crate) fn alu_code_of(high: u8) -> Option<AluCode>
    ensures found { IfSome result (λ c. alu_code c ≡ 16 * high) }
    ensures only { (c : AluCodeOf) → alu_code c ≡ 16 * high → result ≡ Some c }
{
    Some(match high {
        0x0 => AluCode::Add,
        0x1 => AluCode::Sub,
        0x2 => AluCode::Mul,
        0x3 => AluCode::Div,
        0x4 => AluCode::Or,
        0x5 => AluCode::And,
        0x6 => AluCode::ShiftLeft,
        0x7 => AluCode::ShiftRight,
        0x9 => AluCode::Mod,
        0xa => AluCode::Xor,
        0xb => AluCode::Move,
        0xc => AluCode::ShiftRightSigned,
        _ => return None,
    })
}

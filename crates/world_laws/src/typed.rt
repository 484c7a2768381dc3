//! Instructions are values of their type: the laws' condition on programs costs no caller a test.
ghost use Rattle.std.specs.Prelude.{◌≡◌, ◌≤◌, ℕ, Some, slice_get, FitsSigned};
ghost use Rattle.std.specs.Int.{w16, w32};
ghost use Rattle.bpf_model.specs.Spelling.{FitsInsn, FitsOperand, FitsUnary};
ghost use Rattle.bpf_model.specs.declared.insn.Insn.{Insn};

use bpf_model::{Insn, Operand, Reg, UnaryOp};

fn register(reg: Reg)
    ensures { reg ≤ 10 }
{
    let _number = reg.number();
}

fn operand(src: &Operand)
    ensures { FitsOperand src.now }
{
    match src {
        Operand::Register(reg) => register(*reg),
        Operand::Immediate(imm) => number(*imm),
    }
}

fn operation(op: &UnaryOp)
    ensures { FitsUnary op.now }
{
    match op {
        UnaryOp::Negate(_) => {}
        UnaryOp::ByteSwap { .. } => {}
        UnaryOp::MoveSigned { src, .. } => register(*src),
    }
}

fn offset(offset: i16)
    ensures { FitsSigned w16 offset }
{
    let _offset = offset;
}

fn number(imm: i32)
    ensures { FitsSigned w32 imm }
{
    let _imm = imm;
}

/// A law: each instruction names registers that there are, and numbers that its fields can hold.
fn insn_is_real(insn: &Insn)
    ensures { FitsInsn insn.now }
{
    match insn {
        Insn::Alu { dst, src, .. } => {
            register(*dst);
            operand(src);
        }
        Insn::Unary { op, dst } => {
            register(*dst);
            operation(op);
        }
        Insn::LoadNumber { dst, number } => {
            register(*dst);
            let _number = *number;
        }
        Insn::LoadMap { dst, map } => {
            register(*dst);
            number(*map);
        }
        Insn::Jump { offset: by } => offset(*by),
        Insn::JumpLong { imm } => number(*imm),
        Insn::JumpIf {
            dst,
            src,
            offset: by,
            ..
        } => {
            register(*dst);
            operand(src);
            offset(*by);
        }
        Insn::Call { imm, .. } => number(*imm),
        Insn::Exit => {}
        Insn::Load {
            dst,
            src,
            offset: by,
            ..
        }
        | Insn::LoadSigned {
            dst,
            src,
            offset: by,
            ..
        } => {
            register(*dst);
            register(*src);
            offset(*by);
        }
        Insn::Store {
            dst,
            src,
            offset: by,
            ..
        } => {
            register(*dst);
            operand(src);
            offset(*by);
        }
    }
}

/// A law: each instruction of a program names registers that there are, and numbers that its fields can hold.
pub fn code_is_real(code: &[Insn])
    ensures { (k : ℕ) (i : Insn) → slice_get code.now k ≡ Some i → FitsInsn i }
{
    for insn in code {
        insn_is_real(insn);
    }
}

//! Which registers an instruction reads.

use crate::place::helper_of;
use bpf_model::{AluOp, Insn, Operand};

/// Whether an operand is the register of this number.
fn is_register(operand: &Operand, number: usize) -> bool {
    match operand {
        Operand::Register(register) => register.index() == number,
        Operand::Immediate(_) => false,
    }
}

/// Whether an instruction reads the register of this number.
pub fn reads(insn: &Insn, number: usize) -> bool {
    match insn {
        Insn::Alu {
            op: AluOp::Move,
            src,
            ..
        } => is_register(src, number),
        Insn::Alu { dst, src, .. } | Insn::JumpIf { dst, src, .. } | Insn::Store { dst, src, .. } =>
            dst.index() == number || is_register(src, number),
        Insn::Unary { op, dst } => op.source(*dst).index() == number,
        Insn::LoadNumber { .. }
        | Insn::LoadMap { .. }
        | Insn::Jump { .. }
        | Insn::JumpLong { .. } => false,
        Insn::Call { .. } => match helper_of(insn) {
            Some(helper) => 1 <= number && number <= helper.arguments().len(),
            None => false,
        },
        Insn::Exit => number == 0,
        Insn::Load { src, .. } | Insn::LoadSigned { src, .. } => src.index() == number,
    }
}

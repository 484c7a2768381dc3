//! Classic instructions out of their structs.
ghost use Rattle.std.specs.Prelude.{◌≡◌, ℕ, ◌<◌, Some, Ok, slice_get, IfOk, IfErr, IfSome, IfNone};
ghost use Rattle.classic_program.specs.declared.insn.ClassicInsn.{ClassicInsn as InsnOf};
ghost use Rattle.classic_program.specs.declared.sock_filter.SockFilter.{SockFilter as FilterOf};
ghost use Rattle.classic_program.specs.Opcode.{insn_from as insn_of_opcode, operand_from, IsInsnOf, AreInsnsOf};
ghost use Rattle.classic_program.specs.Faults.{IsInsnFlaw, IsDecodeFault};
ghost use Rattle.classic_program.specs.WellFormed.{FitsClassic, FitsOperand};

use crate::fault::ClassicFault;
use crate::insn::{ClassicInsn, ClassicOperand, ClassicReg, Datum, MemoryWord};
use crate::opcode::{ClassicOpcode, ClassicSource, opcode_of};
use crate::sock_filter::SockFilter;
use std::alloc::Global;

/// Why a struct is no instruction.
#[derive(Clone, Copy, Debug, PartialEq, Eq)]
pub(crate) enum DecodeFlaw {
    Opcode,
    Word,
}

fn operand(source: ClassicSource, k: u32) -> ClassicOperand
    ensures value { result ≡ operand_from source k }
    ensures fits { FitsOperand result }
{
    match source {
        ClassicSource::Constant => ClassicOperand::Number(k),
        ClassicSource::Index => ClassicOperand::Index,
    }
}

/// The instruction of an opcode and fields; `None` where its word of memory is above 15.
fn insn_from(opcode: ClassicOpcode, filter: SockFilter) -> Option<ClassicInsn>
    ensures some { IfSome result (λ i. (i ≡ insn_of_opcode opcode filter) × FitsClassic i) }
    ensures none { IfNone result (FitsClassic (insn_of_opcode opcode filter) → ⊥) }
{
    let k = filter.k;
    Some(match opcode {
        ClassicOpcode::LoadNumber(into) => ClassicInsn::Load {
            into,
            datum: Datum::Number(k),
        },
        ClassicOpcode::LoadMemory(into) => ClassicInsn::Load {
            into,
            datum: Datum::Memory(MemoryWord::new(k)?),
        },
        ClassicOpcode::LoadLength(into) => ClassicInsn::Load {
            into,
            datum: Datum::Length,
        },
        ClassicOpcode::LoadBytes(size) => ClassicInsn::Load {
            into: ClassicReg::A,
            datum: Datum::Bytes { size, at: k },
        },
        ClassicOpcode::LoadIndexed(size) => ClassicInsn::Load {
            into: ClassicReg::A,
            datum: Datum::Indexed { size, at: k },
        },
        ClassicOpcode::LoadHeaderLength => ClassicInsn::Load {
            into: ClassicReg::X,
            datum: Datum::HeaderLength { at: k },
        },
        ClassicOpcode::Store(from) => ClassicInsn::Store {
            word: MemoryWord::new(k)?,
            from,
        },
        ClassicOpcode::Alu(op, source) => ClassicInsn::Alu {
            op,
            operand: operand(source, k),
        },
        ClassicOpcode::Negate => ClassicInsn::Negate,
        ClassicOpcode::Jump => ClassicInsn::Jump { skip: k },
        ClassicOpcode::JumpIf(test, source) => ClassicInsn::JumpIf {
            test,
            operand: operand(source, k),
            if_true: filter.jt,
            if_false: filter.jf,
        },
        ClassicOpcode::ReturnNumber => ClassicInsn::ReturnNumber { value: k },
        ClassicOpcode::ReturnA => ClassicInsn::ReturnA,
        ClassicOpcode::CopyToX => ClassicInsn::CopyToX,
        ClassicOpcode::CopyToA => ClassicInsn::CopyToA,
    })
}

/// The instruction that a struct is.
fn decode_one(filter: SockFilter) -> Result<ClassicInsn, DecodeFlaw>
    ensures found { IfOk result (IsInsnOf filter) }
    ensures only { (i : InsnOf) → IsInsnOf filter i → result ≡ Ok i }
    ensures flaw { IfErr result (IsInsnFlaw filter) }
{
    let Some(opcode) = opcode_of(filter.code) else {
        return Err(DecodeFlaw::Opcode);
    };
    match insn_from(opcode, filter) {
        Some(insn) => Ok(insn),
        None => Err(DecodeFlaw::Word),
    }
}

/// The instructions that the structs are.
pub(crate) fn decode(alloc: Global, filter: &[SockFilter]) -> Result<Vec<ClassicInsn>, ClassicFault>
    ensures found { IfOk result (λ v. AreInsnsOf filter.now v.items) }
    ensures only { IfOk result (λ v. (k : ℕ) (f : FilterOf) (i j : InsnOf) →
        slice_get filter.now k ≡ Some f → slice_get v.items k ≡ Some i → IsInsnOf f j → j ≡ i) }
    ensures fault { IfErr result (IsDecodeFault filter.now) }
{
    let mut program = Vec::with_capacity(alloc, filter.len())?;
    for index in 0..filter.len() {
        match decode_one(filter[index]) {
            Ok(insn) => program.extend_from_slice(&[insn])?,
            Err(DecodeFlaw::Opcode) => return Err(ClassicFault::UnknownOpcode(index)),
            Err(DecodeFlaw::Word) => return Err(ClassicFault::BadWord(index)),
        }
    }
    Ok(program)
}

//! Instructions out of statements.
ghost use Rattle.std.specs.Prelude.{IfSome};
ghost use Rattle.asm.specs.Reading.{IsInsnOf, IsOnlyInsn};

use crate::operand::{extension, long_offset, memory, number, offset, register, source, unsigned};
use disasm::{Arguments, Mnemonic, Statement};
use insn_codec::{
    AluOp, ByteOrder, CallKind, Condition, Insn, Operand, SignedWidth, Size, SwapWidth, UnaryOp,
    Width,
};

fn alu(op: AluOp, size: Size, arguments: &Arguments) -> Option<Insn>
    ensures found { IfSome result (IsInsnOf (Mnemonic.Alu op size) arguments.now) }
    ensures only { IsOnlyInsn (Mnemonic.Alu op size) arguments.now result }
{
    match arguments {
        Arguments::Two(dst, src) => Some(Insn::Alu {
            op,
            size,
            dst: register(dst)?,
            src: source(src)?,
        }),
        _ => None,
    }
}

fn move_signed(size: Size, arguments: &Arguments) -> Option<Insn>
    ensures found { IfSome result (IsInsnOf (Mnemonic.MoveSigned size) arguments.now) }
    ensures only { IsOnlyInsn (Mnemonic.MoveSigned size) arguments.now result }
{
    match arguments {
        Arguments::Three(dst, src, bits) => {
            let extension = extension(size, bits)?;
            let dst = register(dst)?;
            let src = register(src)?;
            let op = UnaryOp::MoveSigned { extension, src };
            Some(Insn::Unary { op, dst })
        }
        _ => None,
    }
}

fn negate(size: Size, arguments: &Arguments) -> Option<Insn>
    ensures found { IfSome result (IsInsnOf (Mnemonic.Negate size) arguments.now) }
    ensures only { IsOnlyInsn (Mnemonic.Negate size) arguments.now result }
{
    match arguments {
        Arguments::One(dst) => Some(Insn::Unary {
            op: UnaryOp::Negate(size),
            dst: register(dst)?,
        }),
        _ => None,
    }
}

fn byte_swap(order: ByteOrder, width: SwapWidth, arguments: &Arguments) -> Option<Insn>
    ensures found { IfSome result (IsInsnOf (Mnemonic.ByteSwap order width) arguments.now) }
    ensures only { IsOnlyInsn (Mnemonic.ByteSwap order width) arguments.now result }
{
    match arguments {
        Arguments::One(dst) => Some(Insn::Unary {
            op: UnaryOp::ByteSwap { order, width },
            dst: register(dst)?,
        }),
        _ => None,
    }
}

fn load_number(arguments: &Arguments) -> Option<Insn>
    ensures found { IfSome result (IsInsnOf Mnemonic.LoadNumber arguments.now) }
    ensures only { IsOnlyInsn Mnemonic.LoadNumber arguments.now result }
{
    match arguments {
        Arguments::Two(dst, number) => Some(Insn::LoadNumber {
            dst: register(dst)?,
            number: unsigned(number)?,
        }),
        _ => None,
    }
}

fn load_map(arguments: &Arguments) -> Option<Insn>
    ensures found { IfSome result (IsInsnOf Mnemonic.LoadMap arguments.now) }
    ensures only { IsOnlyInsn Mnemonic.LoadMap arguments.now result }
{
    match arguments {
        Arguments::Two(dst, map) => Some(Insn::LoadMap {
            dst: register(dst)?,
            map: number(map)?,
        }),
        _ => None,
    }
}

fn jump(arguments: &Arguments) -> Option<Insn>
    ensures found { IfSome result (IsInsnOf Mnemonic.Jump arguments.now) }
    ensures only { IsOnlyInsn Mnemonic.Jump arguments.now result }
{
    match arguments {
        Arguments::One(distance) => Some(Insn::Jump {
            offset: offset(distance)?,
        }),
        _ => None,
    }
}

fn jump_long(arguments: &Arguments) -> Option<Insn>
    ensures found { IfSome result (IsInsnOf Mnemonic.JumpLong arguments.now) }
    ensures only { IsOnlyInsn Mnemonic.JumpLong arguments.now result }
{
    match arguments {
        Arguments::One(distance) => Some(Insn::JumpLong {
            imm: long_offset(distance)?,
        }),
        _ => None,
    }
}

fn jump_if(condition: Condition, size: Size, arguments: &Arguments) -> Option<Insn>
    ensures found { IfSome result (IsInsnOf (Mnemonic.JumpIf condition size) arguments.now) }
    ensures only { IsOnlyInsn (Mnemonic.JumpIf condition size) arguments.now result }
{
    match arguments {
        Arguments::Three(dst, src, distance) => Some(Insn::JumpIf {
            condition,
            size,
            dst: register(dst)?,
            src: source(src)?,
            offset: offset(distance)?,
        }),
        _ => None,
    }
}

fn call(kind: CallKind, arguments: &Arguments) -> Option<Insn>
    ensures found { IfSome result (IsInsnOf (Mnemonic.Call kind) arguments.now) }
    ensures only { IsOnlyInsn (Mnemonic.Call kind) arguments.now result }
{
    match arguments {
        Arguments::One(imm) => Some(Insn::Call {
            kind,
            imm: number(imm)?,
        }),
        _ => None,
    }
}

fn exit(arguments: &Arguments) -> Option<Insn>
    ensures found { IfSome result (IsInsnOf Mnemonic.Exit arguments.now) }
    ensures only { IsOnlyInsn Mnemonic.Exit arguments.now result }
{
    match arguments {
        Arguments::Zero => Some(Insn::Exit),
        _ => None,
    }
}

fn load(width: Width, arguments: &Arguments) -> Option<Insn>
    ensures found { IfSome result (IsInsnOf (Mnemonic.Load width) arguments.now) }
    ensures only { IsOnlyInsn (Mnemonic.Load width) arguments.now result }
{
    match arguments {
        Arguments::Two(dst, access) => {
            let dst = register(dst)?;
            let (src, offset) = memory(access)?;
            Some(Insn::Load {
                width,
                dst,
                src,
                offset,
            })
        }
        _ => None,
    }
}

fn load_signed(width: SignedWidth, arguments: &Arguments) -> Option<Insn>
    ensures found { IfSome result (IsInsnOf (Mnemonic.LoadSigned width) arguments.now) }
    ensures only { IsOnlyInsn (Mnemonic.LoadSigned width) arguments.now result }
{
    match arguments {
        Arguments::Two(dst, access) => {
            let dst = register(dst)?;
            let (src, offset) = memory(access)?;
            Some(Insn::LoadSigned {
                width,
                dst,
                src,
                offset,
            })
        }
        _ => None,
    }
}

fn store(width: Width, arguments: &Arguments) -> Option<Insn>
    ensures found { IfSome result (IsInsnOf (Mnemonic.Store width) arguments.now) }
    ensures only { IsOnlyInsn (Mnemonic.Store width) arguments.now result }
{
    match arguments {
        Arguments::Two(access, imm) => {
            let (dst, offset) = memory(access)?;
            Some(Insn::Store {
                width,
                dst,
                offset,
                src: Operand::Immediate(number(imm)?),
            })
        }
        _ => None,
    }
}

fn store_register(width: Width, arguments: &Arguments) -> Option<Insn>
    ensures found { IfSome result (IsInsnOf (Mnemonic.StoreRegister width) arguments.now) }
    ensures only { IsOnlyInsn (Mnemonic.StoreRegister width) arguments.now result }
{
    match arguments {
        Arguments::Two(access, src) => {
            let (dst, offset) = memory(access)?;
            Some(Insn::Store {
                width,
                dst,
                offset,
                src: Operand::Register(register(src)?),
            })
        }
        _ => None,
    }
}

/// The instruction that the statement stands for, where its fields are in their ranges.
pub fn insn_from(statement: &Statement) -> Option<Insn>
    ensures found { IfSome result (IsInsnOf statement.now.mnemonic statement.now.arguments) }
    ensures only { IsOnlyInsn statement.now.mnemonic statement.now.arguments result }
{
    let arguments = &statement.arguments;
    match &statement.mnemonic {
        Mnemonic::Alu(op, size) => alu(*op, *size, arguments),
        Mnemonic::MoveSigned(size) => move_signed(*size, arguments),
        Mnemonic::Negate(size) => negate(*size, arguments),
        Mnemonic::ByteSwap(order, width) => byte_swap(*order, *width, arguments),
        Mnemonic::LoadNumber => load_number(arguments),
        Mnemonic::LoadMap => load_map(arguments),
        Mnemonic::Jump => jump(arguments),
        Mnemonic::JumpLong => jump_long(arguments),
        Mnemonic::JumpIf(condition, size) => jump_if(*condition, *size, arguments),
        Mnemonic::Call(kind) => call(*kind, arguments),
        Mnemonic::Exit => exit(arguments),
        Mnemonic::Load(width) => load(*width, arguments),
        Mnemonic::LoadSigned(width) => load_signed(*width, arguments),
        Mnemonic::Store(width) => store(*width, arguments),
        Mnemonic::StoreRegister(width) => store_register(*width, arguments),
    }
}

//! Operations on words. The expected numbers were computed apart from this code, with whole numbers
//! of any size, but for those of which the standard speaks (RFC 9669, section 4.1): what a signed
//! remainder of -13 by 3 is, and what a division by zero leaves.
use alu::{
    alu, alu32, alu64, byte_swap, compare, compare32, compare64, immediate, load_signed,
    move_signed, negate, unary,
};
use asm::assemble;
use bpf_model::{AluOp, ByteOrder, Condition, SignExtension, SignedWidth, Size, SwapWidth};
use insn_codec::Insn;
use std::alloc::Global;
use std::test::Fail;

/// The operands of each row, r1 and r2. Among them are zero, minus one, the least and the greatest
/// number with sign, 2^31 and the number below it, and the numbers on either side of 2^32.
const OPERANDS: [(u64, u64); 6] = [
    (7, 0),
    (0x8000_0000_0000_0000, 0xffff_ffff_ffff_ffff),
    (0xffff_ffff_ffff_fff9, 2),
    (0x1_0000_0001, 0xffff_ffff),
    (0x8000_0000, 0x7fff_ffff),
    (0x7fff_ffff_ffff_ffff, 0x1_0000_001f),
];

/// What each operation leaves of those operands, and whether each condition holds of them, in hexadecimal digits.
const OPERATIONS: &str = "\
add64 r1, r2 = 7 7fffffffffffffff fffffffffffffffb 200000000 ffffffff 800000010000001e
add32 r1, r2 = 7 ffffffff fffffffb 0 ffffffff 1e
sub64 r1, r2 = 7 8000000000000001 fffffffffffffff7 2 1 7ffffffeffffffe0
sub32 r1, r2 = 7 1 fffffff7 2 1 ffffffe0
mul64 r1, r2 = 0 8000000000000000 fffffffffffffff2 ffffffffffffffff 3fffffff80000000 7ffffffeffffffe1
mul32 r1, r2 = 0 0 fffffff2 ffffffff 80000000 ffffffe1
div64 r1, r2 = 0 0 7ffffffffffffffc 1 1 7ffffff0
div32 r1, r2 = 0 0 7ffffffc 0 1 8421084
sdiv64 r1, r2 = 0 8000000000000000 fffffffffffffffd 1 1 7ffffff0
sdiv32 r1, r2 = 0 0 fffffffd ffffffff ffffffff 0
or64 r1, r2 = 7 ffffffffffffffff fffffffffffffffb 1ffffffff ffffffff 7fffffffffffffff
or32 r1, r2 = 7 ffffffff fffffffb ffffffff ffffffff ffffffff
and64 r1, r2 = 0 8000000000000000 0 1 0 10000001f
and32 r1, r2 = 0 0 0 1 0 1f
lsh64 r1, r2 = 7 0 ffffffffffffffe4 8000000000000000 0 ffffffff80000000
lsh32 r1, r2 = 7 0 ffffffe4 80000000 0 80000000
rsh64 r1, r2 = 7 1 3ffffffffffffffe 0 0 ffffffff
rsh32 r1, r2 = 7 0 3ffffffe 0 1 1
mod64 r1, r2 = 7 8000000000000000 1 2 1 800001ef
mod32 r1, r2 = 7 0 1 1 1 3
smod64 r1, r2 = 7 0 ffffffffffffffff 2 1 800001ef
smod32 r1, r2 = 7 0 ffffffff 0 ffffffff ffffffff
xor64 r1, r2 = 7 7fffffffffffffff fffffffffffffffb 1fffffffe ffffffff 7ffffffeffffffe0
xor32 r1, r2 = 7 ffffffff fffffffb fffffffe ffffffff ffffffe0
mov64 r1, r2 = 0 ffffffffffffffff 2 ffffffff 7fffffff 10000001f
mov32 r1, r2 = 0 ffffffff 2 ffffffff 7fffffff 1f
arsh64 r1, r2 = 7 ffffffffffffffff fffffffffffffffe 0 0 ffffffff
arsh32 r1, r2 = 7 0 fffffffe 0 ffffffff ffffffff
jeq r1, r2, +0 = 0 0 0 0 0 0
jeq32 r1, r2, +0 = 0 0 0 0 0 0
jgt r1, r2, +0 = 1 0 1 1 1 1
jgt32 r1, r2, +0 = 1 0 1 0 1 1
jge r1, r2, +0 = 1 0 1 1 1 1
jge32 r1, r2, +0 = 1 0 1 0 1 1
jset r1, r2, +0 = 0 1 0 1 0 1
jset32 r1, r2, +0 = 0 0 0 1 0 1
jne r1, r2, +0 = 1 1 1 1 1 1
jne32 r1, r2, +0 = 1 1 1 1 1 1
jsgt r1, r2, +0 = 1 0 0 1 1 1
jsgt32 r1, r2, +0 = 1 1 0 1 0 0
jsge r1, r2, +0 = 1 0 0 1 1 1
jsge32 r1, r2, +0 = 1 1 0 1 0 0
jlt r1, r2, +0 = 0 1 0 0 0 0
jlt32 r1, r2, +0 = 0 1 0 1 0 0
jle r1, r2, +0 = 0 1 0 0 0 0
jle32 r1, r2, +0 = 0 1 0 1 0 0
jslt r1, r2, +0 = 0 1 1 0 0 0
jslt32 r1, r2, +0 = 0 0 1 0 1 1
jsle r1, r2, +0 = 0 1 1 0 0 0
jsle32 r1, r2, +0 = 0 0 1 0 1 1
";

/// The word on which each operation of one operand is tried.
const WORD: u64 = 0x1234_5678_9abc_def0;

/// What each operation of one operand leaves of `WORD`.
const UNARY: &str = "\
neg64 r1 = edcba98765432110
neg32 r1 = 65432110
le16 r1 = def0
le32 r1 = 9abcdef0
le64 r1 = 123456789abcdef0
be16 r1 = f0de
be32 r1 = f0debc9a
be64 r1 = f0debc9a78563412
swap16 r1 = f0de
swap32 r1 = f0debc9a
swap64 r1 = f0debc9a78563412
movsx32 r1, r3, 8 = fffffff0
movsx32 r1, r3, 16 = ffffdef0
movsx64 r1, r3, 8 = fffffffffffffff0
movsx64 r1, r3, 16 = ffffffffffffdef0
movsx64 r1, r3, 32 = ffffffff9abcdef0
";

/// What an instruction leaves of these operands, or 1 where its condition holds of them.
fn left_by(insn: &Insn, dst: u64, src: u64) -> Option<u64> {
    match insn {
        Insn::Alu { op, size, .. } => Some(alu(*size, *op, dst, src)),
        Insn::Unary { op, .. } => Some(unary(*op, dst)),
        Insn::JumpIf {
            condition,
            size,
            ..
        } => Some(u64::from(compare(*size, *condition, dst, src))),
        _ => None,
    }
}

/// The instruction of a line, and what it leaves of each of these operands.
fn answered(alloc: Global, line: &str, operands: &[(u64, u64)]) -> Result<String, Fail> {
    let mut text = format!(in alloc; "{line} =")?;
    let program = assemble(alloc, line)?;
    let Some(insn) = program.instructions().first() else {
        return Err(Fail::from("no instruction"));
    };
    for (dst, src) in operands {
        if let Some(word) = left_by(insn, *dst, *src) {
            write!(&mut text, " {word:x}")?;
        }
    }
    Ok(text)
}

#[test]
fn operations(rt: HostRuntime) -> Result<(), Fail> {
    for (lines, operands) in [(OPERATIONS, OPERANDS.as_slice()), (UNARY, &[(WORD, 0)])] {
        for line in lines.lines() {
            let (insn, _) = line.split_once(" =").unwrap_or((line, ""));
            assert_eq!(rt; answered(rt.alloc(), insn, operands)?.as_str(), line);
        }
    }
    Ok(())
}

/// What the standard says itself, fields imm as words, and each call for one size or one kind.
#[test]
fn as_in_the_standard(rt: HostRuntime) {
    let minus_13 = immediate(-13);
    let words = [
        (minus_13, 0xffff_ffff_ffff_fff3),
        (immediate(i32::MIN), 0xffff_ffff_8000_0000),
        (immediate(i32::MAX), 0x7fff_ffff),
        (alu64(AluOp::SignedMod, minus_13, 3), immediate(-1)),
        (alu64(AluOp::Div, 7, 0), 0),
        (alu64(AluOp::Mod, 7, 0), 7),
        (alu32(AluOp::Mod, 0x1_0000_0007, 0), 7),
        (alu64(AluOp::ShiftLeft, 1, 0x41), 2),
        (u64::from(compare64(Condition::SignedLess, u64::MAX, 0)), 1),
        (u64::from(compare32(Condition::Equal, 0x1_0000_0007, 7)), 1),
        (negate(Size::Word32, 0x1_8000_0000), 0x8000_0000),
        (negate(Size::Word64, 1), u64::MAX),
        (
            byte_swap(ByteOrder::ToBig, SwapWidth::Two, 0x1_1234),
            0x3412,
        ),
        (move_signed(SignExtension::ByteTo32, 0x17f), 0x7f),
        // the least negative and the greatest positive number of each width
        (load_signed(SignedWidth::One, 0x80), 0xffff_ffff_ffff_ff80),
        (load_signed(SignedWidth::One, 0x7f), 0x7f),
        (load_signed(SignedWidth::Two, 0x8000), 0xffff_ffff_ffff_8000),
        (load_signed(SignedWidth::Two, 0x7fff), 0x7fff),
        (
            load_signed(SignedWidth::Four, 0x8000_0000),
            0xffff_ffff_8000_0000,
        ),
        (load_signed(SignedWidth::Four, 0x7fff_ffff), 0x7fff_ffff),
    ];
    for (word, wanted) in words {
        assert_eq!(rt; word, wanted);
    }
}

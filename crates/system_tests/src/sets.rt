//! Sets of numbers: how narrow results are, worked out by hand.
use asm::assemble;
use bpf_model::{AluOp, Condition, SignedWidth, Size, Width};
use insn_codec::Insn;
use scalar_domain::Scalar;
use std::alloc::Global;
use std::test::Fail;

/// What instructions with a constant in r2, which stands before them, make of a byte in r1, or leave of it where their condition
/// holds: the least number and the greatest.
const OF_A_BYTE: &str = "\
8: add64 r1, r2 = 8 263
18446744073709551615: add64 r1, r2 = 0 18446744073709551615
8: mul64 r1, r2 = 0 2040
10: div64 r1, r2 = 0 25
1: xor64 r1, r2 = 0 255
3: lsh64 r1, r2 = 0 2040
67: lsh64 r1, r2 = 0 2040
4: arsh64 r1, r2 = 0 15
5: add32 r1, r2 = 5 260
4294967295: add32 r1, r2 = 0 4294967295
4294967299: mov32 r1, r2 = 3 3
35: lsh32 r1, r2 = 0 2040
10: sdiv32 r1, r2 = 0 25
10: jlt r1, r2, +0 = 0 9
10: jle r1, r2, +0 = 0 10
10: jgt r1, r2, +0 = 11 255
10: jge r1, r2, +0 = 10 255
10: jeq r1, r2, +0 = 10 10
10: jne r1, r2, +0 = 0 255
0: jne r1, r2, +0 = 1 255
10: jslt r1, r2, +0 = 0 9
10: jlt32 r1, r2, +0 = 0 9
0: swap16 r1 = 0 65535
0: le16 r1 = 0 255
0: movsx64 r1, r1, 16 = 0 255
0: movsx32 r1, r1, 8 = 0 4294967295
";

/// The same, where no number is left.
const NO_BYTE: &str = "\
0: jlt r1, r2, +0 = 0 255
18446744073709551615: jgt r1, r2, +0 = 0 255
256: jeq r1, r2, +0 = 0 255
";

/// What conditions leave of a byte where they do not hold.
const OF_A_BYTE_ELSE: &str = "\
10: jlt r1, r2, +0 = 10 255
10: jle r1, r2, +0 = 11 255
10: jgt r1, r2, +0 = 0 10
10: jge r1, r2, +0 = 0 9
10: jne r1, r2, +0 = 10 10
255: jeq r1, r2, +0 = 0 254
";

/// What becomes of any number.
const OF_ANY: &str = "\
7: and64 r1, r2 = 0 7
10: mod64 r1, r2 = 0 9
60: rsh64 r1, r2 = 0 15
10: jlt32 r1, r2, +0 = 0 18446744073709551615
0: jsgt r1, r2, +0 = 1 9223372036854775807
10: jslt r1, r2, +0 = 0 18446744073709551615
";

/// What becomes of 1.
const OF_ONE: &str = "\
18446744073709551615: add64 r1, r2 = 0 0
0: neg64 r1 = 18446744073709551615 18446744073709551615
0: neg32 r1 = 4294967295 4294967295
";

/// What an instruction makes of a set and a number, or leaves of the set where its condition holds, or does not.
fn left_by(insn: &Insn, set: Scalar, number: Scalar, holds: bool) -> Option<Scalar> {
    match insn {
        Insn::Alu { op, size, .. } => Some(Scalar::apply(*size, *op, set, number)),
        Insn::Unary { op, .. } => Some(Scalar::unary(*op, set)),
        Insn::JumpIf {
            condition,
            size,
            ..
        } => {
            let edges = Scalar::refine(*size, *condition, set, number);
            let (left, _) = if holds { edges.taken } else { edges.not_taken };
            Some(left)
        }
        _ => None,
    }
}

/// The bounds that a line asks for.
fn bounds(alloc: Global, line: &str, set: Scalar, holds: bool) -> Result<String, Fail> {
    let (number, text) = line.split_once(": ").unwrap_or(("", line));
    let program = assemble(alloc, text)?;
    let insn = program.instructions().first();
    let (Some(insn), Ok(number)) = (insn, number.parse::<u64>()) else {
        return Err(Fail::from("no instruction or no number"));
    };
    match left_by(insn, set, Scalar::constant(number), holds) {
        Some(left) => Ok(format!(in alloc; "{} {}", left.least, left.greatest)?),
        None => Err(Fail::from("an instruction of another kind")),
    }
}

/// The bytes to which a constant is added.
fn bytes_and(number: u64) -> Scalar {
    let byte = Scalar::loaded(Width::One);
    Scalar::apply(Size::Word64, AluOp::Add, byte, Scalar::constant(number))
}

#[test]
fn bounds_of_results(rt: HostRuntime) -> Result<(), Fail> {
    let byte = Scalar::loaded(Width::One);
    let any = Scalar::unknown();
    let two_bits = Scalar::apply(Size::Word64, AluOp::And, any, Scalar::constant(3));
    let tables = [
        (OF_A_BYTE, byte, true),
        (NO_BYTE, byte, true),
        (OF_A_BYTE_ELSE, byte, false),
        (OF_ANY, any, true),
        (OF_ONE, Scalar::constant(1), true),
        (
            "18446744073709551615: add64 r1, r2 = 0 255",
            bytes_and(1),
            true,
        ),
        ("4: sub64 r1, r2 = 5 260", bytes_and(9), true),
        ("8: or64 r1, r2 = 8 11", two_bits, true),
        ("0: swap16 r1 = 13330 13330", Scalar::constant(0x1234), true),
        (
            "0: movsx64 r1, r1, 16 = 18446744073709518848 18446744073709518848",
            Scalar::constant(0x8000),
            true,
        ),
    ];
    for (lines, set, holds) in tables {
        for line in lines.lines() {
            let (question, wanted) = line.split_once(" = ").unwrap_or((line, ""));
            assert_eq!(rt;
                bounds(rt.alloc(), question, set, holds)?.as_str(),
                wanted,
                "{line}"
            );
        }
    }
    Ok(())
}

#[test]
fn sets_of_numbers(rt: HostRuntime) {
    let byte = Scalar::loaded(Width::One);
    let both = Scalar::constant(12).join(Scalar::constant(300));
    let bit = Scalar::refine(
        Size::Word64,
        Condition::SharesBits,
        byte,
        Scalar::constant(1),
    );
    let (even, _) = bit.not_taken;
    let members = [
        (byte, 255, true),
        (byte, 256, false),
        (Scalar::unknown(), u64::MAX, true),
        (Scalar::load_signed(SignedWidth::One), u64::MAX, true),
        (both, 12, true),
        (both, 300, true),
        (both, 13, false),
        (even, 6, true),
        (even, 7, false),
    ];
    for (set, number, is_member) in members {
        assert_eq!(rt; set.contains(number), is_member, "{number}");
    }
    assert_eq!(rt; (both.least, both.greatest), (12, 300));
    assert_eq!(rt; Scalar::constant(7).as_constant(), Some(7));
    assert_eq!(rt; byte.as_constant(), None);
}

/// Which bits are known: of sums and differences of 4 and 20, and of what they make with 0 or 8; and of any number.
#[test]
fn known_bits(rt: HostRuntime) {
    let bases = Scalar::constant(4).join(Scalar::constant(20));
    let steps = Scalar::constant(0).join(Scalar::constant(8));
    let rows = [
        (AluOp::Add, Scalar::constant(4), steps, 0b1100, 0b0100),
        (AluOp::Add, bases, steps, 0b1_1100, 0b0_0100),
        (AluOp::Add, bases, Scalar::constant(4), 0b1_1000, 0b0_1000),
        (AluOp::Sub, Scalar::constant(20), steps, 0b1_1100, 0b0_0100),
        (AluOp::Sub, bases, Scalar::constant(4), 0b1_0000, 0),
    ];
    for (op, a, b, may, must) in rows {
        let result = Scalar::apply(Size::Word64, op, a, b);
        assert_eq!(rt;
            (result.may, result.must),
            (may, must),
            "{op:?} {a:?} {b:?}"
        );
    }
    let any = Scalar::unknown();
    let eights = Scalar::apply(Size::Word64, AluOp::ShiftLeft, any, Scalar::constant(3));
    assert_eq!(rt; eights.may % 8, 0);
    let small = Scalar::refine(Size::Word32, Condition::Less, any, Scalar::constant(10));
    let (wide, _) = small.taken;
    assert_eq!(rt; (wide.may, wide.must), (0xffff_ffff_0000_000f, 0));
    let signed = Scalar::refine(
        Size::Word64,
        Condition::SignedLess,
        any,
        Scalar::constant(10),
    );
    assert_eq!(rt; signed.taken.0, any);
}

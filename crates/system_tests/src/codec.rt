//! Programs whose bytes were spelled by hand from RFC 9669. A slot is written as its eight bytes
//! in order: opcode, registers (source, then destination), offset, imm.
use insn_codec::{
    AluOp, CallKind, Insn, Operand, Program, Reg, Size, decode, decode_undoes_encode, encode,
    encode_undoes_decode,
};
use std::test::Fail;

/// The slots of a program with an instruction of each form.
const SLOTS: &str = "\
0701000005000000\
0c21000000000000\
37030100feffffff\
9c43010000000000\
bf21080000000000\
bf21200000000000\
bc21100000000000\
8403000000000000\
d404000010000000\
dc04000020000000\
d704000040000000\
1803000001000000\
0000000002000000\
0500feff00000000\
0600000000000100\
a501fcff07000000\
de21030000000000\
7921f8ff00000000\
8921020000000000\
720af8ff05000000\
632afcff00000000\
185a000003000000\
0000000000000000\
8500000002000000\
85200000ffffffff\
9500000000000000";

/// The instructions of `SLOTS`, each behind the slot where it begins.
const INSTRUCTIONS: &str = "\
0 Alu { op: Add, size: Word64, dst: Reg { number: 1 }, src: Immediate(5) }
1 Alu { op: Add, size: Word32, dst: Reg { number: 1 }, src: Register(Reg { number: 2 }) }
2 Alu { op: SignedDiv, size: Word64, dst: Reg { number: 3 }, src: Immediate(-2) }
3 Alu { op: SignedMod, size: Word32, dst: Reg { number: 3 }, src: Register(Reg { number: 4 }) }
4 Unary { op: MoveSigned { extension: ByteTo64, src: Reg { number: 2 } }, dst: Reg { number: 1 } }
5 Unary { op: MoveSigned { extension: WordTo64, src: Reg { number: 2 } }, dst: Reg { number: 1 } }
6 Unary { op: MoveSigned { extension: ShortTo32, src: Reg { number: 2 } }, dst: Reg { number: 1 } }
7 Unary { op: Negate(Word32), dst: Reg { number: 3 } }
8 Unary { op: ByteSwap { order: ToLittle, width: Two }, dst: Reg { number: 4 } }
9 Unary { op: ByteSwap { order: ToBig, width: Four }, dst: Reg { number: 4 } }
10 Unary { op: ByteSwap { order: Swap, width: Eight }, dst: Reg { number: 4 } }
11 LoadNumber { dst: Reg { number: 3 }, number: 8589934593 }
13 Jump { offset: -2 }
14 JumpLong { imm: 65536 }
15 JumpIf { condition: Less, size: Word64, dst: Reg { number: 1 }, src: Immediate(7), offset: -4 }
16 JumpIf { condition: SignedLessOrEqual, size: Word32, dst: Reg { number: 1 }, src: Register(Reg { number: 2 }), offset: 3 }
17 Load { width: Eight, dst: Reg { number: 1 }, src: Reg { number: 2 }, offset: -8 }
18 LoadSigned { width: Two, dst: Reg { number: 1 }, src: Reg { number: 2 }, offset: 2 }
19 Store { width: One, dst: Reg { number: 10 }, offset: -8, src: Immediate(5) }
20 Store { width: Four, dst: Reg { number: 10 }, offset: -4, src: Register(Reg { number: 2 }) }
21 LoadMap { dst: Reg { number: 10 }, map: 3 }
23 Call { kind: Helper, imm: 2 }
24 Call { kind: Kernel, imm: -1 }
25 Exit
";

#[test]
fn every_form_and_back(rt: HostRuntime) -> Result<(), Fail> {
    let alloc = rt.alloc();
    let bytes = hex::decode(alloc, SLOTS)?;
    let program = decode(alloc, &bytes)?;
    let mut told = String::new(alloc);
    for (insn, start) in program.instructions().iter().zip(program.starts()) {
        write!(&mut told, "{start} {insn:?}\n")?;
    }
    assert_eq!(rt; told.as_str(), INSTRUCTIONS);
    let sizes = (program.len(), program.is_empty(), program.slot_count());
    assert_eq!(rt; sizes, (24, false, 26));
    let encoded = encode(alloc, &program.copy(alloc)?)?;
    assert_eq!(rt; encoded.as_slice(), bytes.as_slice());
    let again = encode_undoes_decode(alloc, &bytes)?;
    assert_eq!(rt; again.as_slice(), bytes.as_slice());
    let same = decode_undoes_encode(alloc, &program)?;
    assert_eq!(rt; same.instructions(), program.instructions());
    Ok(())
}

/// A load of a map, a move, and a call of a kernel function.
const THREE: [Insn; 3] = [
    Insn::LoadMap {
        dst: Reg::R1,
        map: 3,
    },
    Insn::Alu {
        op: AluOp::Move,
        size: Size::Word64,
        dst: Reg::R2,
        src: Operand::Register(Reg::R10),
    },
    Insn::Call {
        kind: CallKind::Kernel,
        imm: 1,
    },
];

#[test]
fn made_from_instructions(rt: HostRuntime) -> Result<(), Fail> {
    let instructions = Vec::from_slice(rt.alloc(), &THREE)?;
    let program = Program::from_instructions(rt.alloc(), instructions)?;
    assert_eq!(rt; program.start(1), 2);
    let bytes = encode(rt.alloc(), &program)?;
    assert_eq!(rt;
        hex::encode(rt.alloc(), &bytes)?.as_str(),
        "1851000003000000\
         0000000000000000\
         bfa2000000000000\
         8520000001000000"
    );
    Ok(())
}

//! The reference interpreter by itself.
use bpf_model::{AluOp, Cell, FRAME_BYTES, Insn, Operand, Reference, Reg, Size, Value, Width};
use reference_interpreter::{Ending, PlainRun, Progress};

/// A program of four steps: the sum of two numbers is stored in the last byte of the frame, and is the exit value.
const SUM_STORED: [Insn; 4] = [
    Insn::Alu {
        op: AluOp::Move,
        size: Size::Word64,
        dst: Reg::R0,
        src: Operand::Immediate(7),
    },
    Insn::Alu {
        op: AluOp::Add,
        size: Size::Word64,
        dst: Reg::R0,
        src: Operand::Immediate(35),
    },
    Insn::Store {
        width: Width::One,
        dst: Reg::R10,
        offset: -1,
        src: Operand::Register(Reg::R0),
    },
    Insn::Exit,
];

#[test]
fn a_run_by_itself(rt: HostRuntime) {
    let mut run = PlainRun::entry();
    assert!(rt;
        matches!(
            run.register(Reg::R10),
            Value::Pointer(Reference::Frame(512))
        )
    );
    assert!(rt; matches!(run.step(&SUM_STORED, &[], 0), Progress::Moved));
    assert_eq!(rt; run.place(), 1);
    assert!(rt; matches!(run.run(&SUM_STORED, &[], 0, 3), Ending::Exited(42)));
    assert!(rt; matches!(run.cell(FRAME_BYTES - 1), Cell::Byte(42)));
}

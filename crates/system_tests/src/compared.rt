//! Runs on words beside the reference interpreter, step by step, and beside exit values that another interpreter,
//! written apart from this repository, computed.
ghost use Rattle.std.specs.Prelude.{◌≡◌, length};
ghost use Rattle.bpf_model.specs.Exit.{HasNoMaps};

use crate::programs::verified;
use bpf_model::{Cell, CtxBytes, FRAME_BYTES, REGISTERS, Reg, Value, array_of};
use machine::Run;
use reference_interpreter::{PlainRun, Progress};
use shared_runs::alone::{has_no_maps, start_alone, step_alone};
use std::test::Fail;
use verifier::Verified;

static BYTES: [u8; 5] = [0, 1, 7, 0x80, 0xff];

/// The length of a program's context, the sum of its exit values, modulo 2^64, over all contexts of that length made of
/// `BYTES`, and the program.
static PROGRAMS: [(usize, u64, &str); 16] = [
    (0, 1, "mov64 r0, 1; exit"),
    (
        0,
        1311768467463790320,
        "lddw r2, 1311768467463790320; jgt r2, 5, +1; mov64 r2, 0; mov64 r0, r2; exit",
    ),
    (
        0,
        18446744069414584320,
        "stdw [r10-8], -2; stb [r10-8], 65; sth [r10-6], 4660; ldxw r2, [r10-8]; ldxdw r0, [r10-8]; xor64 r0, r2; exit",
    ),
    (
        0,
        18446744073709551609,
        "mov64 r6, r10; add64 r6, -64; stw [r6+8], -7; mov64 r7, r6; sub64 r7, -8; ldxsw r0, [r7+0]; exit",
    ),
    (1, 391, "ldxb r0, [r1+0]; exit"),
    (
        1,
        18446744073709551554,
        "ldxsb r0, [r1+0]; arsh64 r0, 1; exit",
    ),
    (
        1,
        7,
        "ldxb r2, [r1+0]; mov64 r0, 0; jlt r2, 1, +6; mov64 r0, 1; jlt r2, 128, +4; mov64 r0, 2; jeq r2, 255, +1; ja +1; mov64 r0, 3; exit",
    ),
    (
        1,
        57,
        "ldxsb r2, [r1+0]; mov64 r0, 10; jslt r2, 0, +3; add64 r0, 1; jsgt r2, 5, +1; add64 r0, 2; exit",
    ),
    (
        1,
        50,
        "ldxb r2, [r1+0]; lddw r3, 4294967296; add64 r3, r2; mov64 r0, 0; jeq32 r3, 0, +1; or64 r0, 1; jset32 r3, 128, +1; or64 r0, 2; jge r3, 7, +1; or64 r0, 4; jsle32 r3, -1, +1; or64 r0, 8; exit",
    ),
    (
        1,
        120,
        "ldxb r2, [r1+0]; and64 r2, 7; stxdw [r10-8], r2; ldxb r0, [r10-8]; lsh64 r0, 3; exit",
    ),
    (
        2,
        290,
        "ldxb r2, [r1+0]; ldxb r3, [r1+1]; mov64 r0, r2; jgt r2, r3, +2; sub64 r0, r3; ja +1; add64 r0, r3; exit",
    ),
    (
        2,
        36662813935,
        "ldxb r2, [r1+0]; ldxb r3, [r1+1]; sub64 r2, 100; mov64 r0, r2; sdiv64 r0, r3; mov64 r4, r2; smod32 r4, r3; add64 r0, r4; mov64 r5, r2; div32 r5, r3; xor64 r0, r5; mod64 r2, r3; add64 r0, r2; exit",
    ),
    (
        2,
        12295671407651586048,
        "ldxh r0, [r1+0]; be16 r0; swap64 r0; exit",
    ),
    (
        2,
        9223404268973261395,
        "ldxsh r2, [r1+0]; movsx32 r0, r2, 8; movsx64 r3, r2, 16; mul64 r0, r3; neg64 r0; rsh64 r0, 3; exit",
    ),
    (
        2,
        55834574764,
        "ldxb r2, [r1+0]; ldxb r3, [r1+1]; mov64 r0, 0; jeq r2, 0, +5; jle r2, r3, +2; mov64 r0, 5; ja +4; mov64 r0, 6; ja +2; jne r3, 0, +1; mov64 r0, 7; xor64 r0, 85; jset r2, r3, +1; neg32 r0; exit",
    ),
    (
        2,
        8396661065750,
        "ldxb r2, [r1+0]; ldxb r3, [r1+1]; stxw [r10-16], r2; stxw [r10-12], r3; ldxdw r4, [r10-16]; mov64 r0, r4; arsh32 r0, 4; add64 r0, r4; exit",
    ),
];

/// Whether each register that is a number holds it.
fn same_registers(plain: &PlainRun, run: &Run) -> bool {
    for number in 0..REGISTERS as u8 {
        if let Some(r) = Reg::new(number) {
            if let Value::Number(n) = plain.register(r) {
                if run.register(r) != n {
                    return false;
                }
            }
        }
    }
    true
}

/// Whether each byte of the frame that is written holds what was written.
fn same_frame(plain: &PlainRun, run: &Run) -> bool {
    for index in 0..FRAME_BYTES {
        if let Cell::Byte(byte) = plain.cell(index) {
            if run.frame().get(index) != Some(&byte) {
                return false;
            }
        }
    }
    true
}

/// Whether both stand before the same instruction, with the same numbers, after so many moves.
fn same(plain: &PlainRun, run: &Run, moves: usize) -> bool {
    run.place() == plain.place()
        && run.moved() == moves
        && same_registers(plain, run)
        && same_frame(plain, run)
}

/// The exit value, where both go through the same states to the same exit.
fn stepped(verified: &Verified, ctx: &CtxBytes) -> Option<u64>
    requires maps { HasNoMaps verified.now.program }
    requires context { length ctx.now.items ≡ verified.now.ctx_len }
{
    let mut run = start_alone(verified, ctx);
    let mut plain = PlainRun::entry();
    let instructions = verified.program().instructions();
    for moves in 0..instructions.len() {
        let progress = plain.step(instructions, ctx.as_slice(), 0);
        match step_alone(&mut run, verified) {
            None => {
                if progress != Progress::Moved || !same(&plain, &run, moves + 1) {
                    return None;
                }
            }
            Some(value) => {
                let same_context = run.context().as_slice() == ctx.as_slice();
                return if progress == Progress::Exited(value) && same_context {
                    Some(value)
                } else {
                    None
                };
            }
        }
    }
    None
}

/// The sum of the exit values over all contexts made of `BYTES`, of a length up to 2.
fn sum_of(verified: &Verified) -> Result<u64, Fail>
    requires { HasNoMaps verified.now.program }
{
    let mut sum: u64 = 0;
    let ctx_len = verified.ctx_len();
    let contexts = match ctx_len {
        0 => 1,
        1 => 5,
        2 => 25,
        _ => return Err(Fail::from("the context is too long")),
    };
    for number in 0..contexts {
        let bytes = [BYTES[number % 5], BYTES[number / 5 % 5]];
        let ctx: CtxBytes = array_of(&bytes[..ctx_len]);
        match stepped(verified, &ctx) {
            Some(value) => sum = sum.wrapping_add(value),
            None => return Err(Fail::from("the runs differ")),
        }
    }
    Ok(sum)
}

#[test]
fn runs_agree(rt: HostRuntime) -> Result<(), Fail> {
    for (ctx_len, sum, lines) in &PROGRAMS {
        let verified = verified(rt.alloc(), lines, &[], *ctx_len)?;
        if !has_no_maps(&verified) {
            return Err(Fail::from("the program names a map"));
        }
        assert_eq!(rt; sum_of(&verified)?, *sum, "{lines}");
    }
    Ok(())
}

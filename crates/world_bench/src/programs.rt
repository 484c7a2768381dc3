//! The programs whose steps are timed, as lines of the assembly language.

use anyhow::Result;
use asm::assemble;
use insn_codec::Program;
use std::alloc::{AllocError, Global};

/// The program of a text, one instruction a line.
pub fn program_of(alloc: Global, text: &str) -> Result<Program> {
    Ok(assemble(alloc, text)?)
}

/// Ten operations, of 64 and of 32 bits, by numbers and by registers.
const TEN: &str =
    "add64 r0, 7\nmul64 r0, 3\nmov64 r2, r0\nxor64 r2, r1\nrsh64 r2, 5\nadd64 r0, r2\n\
add32 r1, 11\nlsh64 r1, 1\nor64 r1, 1\nsub64 r0, r1\n";

/// How often the ten operations stand in the program.
const TIMES: usize = 400;

/// The ten operations over and over, and an exit.
pub fn arithmetic(alloc: Global) -> Result<String, AllocError> {
    let mut text = String::from_str(alloc, "mov64 r0, 1\nmov64 r1, 2\n")?;
    for _ in 0..TIMES {
        text.push_str(TEN)?;
    }
    text.push_str("exit\n")?;
    Ok(text)
}

/// How many instructions the arithmetic has, all but its exit: two moves, and the ten operations over and over.
pub const ARITHMETIC_MOVES: usize = 2 + 10 * TIMES;

/// Looks up the key of 8 zeros in a section, and loads 8 bytes of its value.
pub const LOOKUP_8: &str = "mov64 r6, 0\nstdw [r10-8], 0\ncallbtf 1\nmov64 r2, r10\nadd64 r2, -8\n\
ldmap r1, 0\ncall 1\njeq r0, 0, +1\nldxdw r6, [r0+0]\ncallbtf 2\nmov64 r0, r6\nexit\n";

/// How many steps of `LOOKUP_8` lead further on, where the key is there.
pub const LOOKUP_8_MOVES: usize = 11;

/// Looks up the key of 64 zeros in a section, and loads 8 bytes of its value.
pub const LOOKUP_64: &str = "mov64 r6, 0\nstdw [r10-8], 0\nstdw [r10-16], 0\nstdw [r10-24], 0\n\
stdw [r10-32], 0\nstdw [r10-40], 0\nstdw [r10-48], 0\nstdw [r10-56], 0\nstdw [r10-64], 0\n\
callbtf 1\nmov64 r2, r10\nadd64 r2, -64\nldmap r1, 0\ncall 1\njeq r0, 0, +1\n\
ldxdw r6, [r0+0]\ncallbtf 2\nmov64 r0, r6\nexit\n";

/// How many steps of `LOOKUP_64` lead further on, where the key is there.
pub const LOOKUP_64_MOVES: usize = 18;

//! Lines of a script.

use crate::activity::SMALL_ENTRIES;
use crate::batch_time::{BatchTime, LONG_TASK_BATCHES};
use crate::programs::{arithmetic, program_of};
use anyhow::Result;
use bpf_model::MAX_REUSE;
use control::run_script;
use insn_codec::encode;
use std::alloc::Global;
use std::fmt::Write as _;
use std::io;
use std::io::Write;
use std::rt::Clock;
use std::time::{Duration, Instant};

/// How many times a script stores a value, reads it, and makes a step of a run.
const ROUNDS: u32 = 4000;

/// Takes bytes, and keeps their number alone.
#[derive(Drop)]
struct Counted {
    bytes: u64,
}

impl Write for Counted {
    fn write(&mut self, buf: &[u8]) -> io::Result<usize> {
        self.bytes = self.bytes.wrapping_add(buf.len() as u64);
        Ok(buf.len())
    }

    fn flush(&mut self) -> io::Result<()> {
        Ok(())
    }
}

/// The bytes of the program of arithmetic, as a script has them.
fn program_digits(alloc: Global) -> Result<String> {
    let text = arithmetic(alloc)?;
    let program = program_of(alloc, &text)?;
    Ok(hex::encode(alloc, encode(alloc, &program)?)?)
}

/// A script of one map, one program and one run, and of three lines a round.
fn script(alloc: Global) -> Result<String> {
    let mut text = String::new(alloc);
    write!(
        text,
        "map m 8 8 {SMALL_ENTRIES} {SMALL_ENTRIES} {MAX_REUSE}\nload 0 "
    )?;
    text.push_str(&program_digits(alloc)?)?;
    text.push_str("\nstart 0 -\n")?;
    add_rounds(&mut text)?;
    Ok(text)
}

fn add_rounds(text: &mut String) -> Result<()> {
    for round in 0..ROUNDS {
        let key = round % SMALL_ENTRIES as u32;
        write!(
            text,
            "put m {key:016x} 0100000000000000 0\nget m {key:016x}\nstep 0\n"
        )?;
    }
    Ok(())
}

/// The time in which a script is answered.
fn time_of_script(clock: &impl Clock, alloc: Global, text: &str) -> Result<Duration> {
    let mut input = text.as_bytes();
    let mut out = Counted { bytes: 0 };
    let start = Instant::now(clock)?;
    run_script(alloc, &mut input, &mut out)?;
    Ok(start.elapsed(clock)?)
}

/// Times the lines of a script: all lines of the quickest script after one another.
pub fn time_script(clock: &impl Clock, alloc: Global) -> Result<BatchTime> {
    let text = script(alloc)?;
    let mut best = Duration::MAX;
    for _ in 0..LONG_TASK_BATCHES {
        best = best.min(time_of_script(clock, alloc, &text)?);
    }
    Ok(BatchTime {
        name: "script_line",
        time: best,
        parts: 3 * u64::from(ROUNDS),
    })
}

//! The programs that are built in.
//!
//! Each is assembly text: lines, then operations whose results are folded, then the exit.

mod basic;
mod folded;

use crate::trial::{Trial, trial_of_program};
use anyhow::Result;
use basic::{BRANCHES, FRAME, STRAIGHT};
use folded::{
    BEFORE_BYTE_SWAPS, BEFORE_DIVISIONS, BEFORE_MIXED, BEFORE_SIGN_EXTENSIONS, BYTE_SWAPS,
    DIVISIONS, Folded, MIXED, SIGN_EXTENSIONS,
};
use std::alloc::{AllocError, Global};
use world_bench::program_of;

/// A program that is built in.
#[derive(Clone, Copy)]
pub struct Sample {
    pub name: &'static str,
    /// Its first lines.
    first: &'static str,
    /// The operations behind them.
    folded: &'static [Folded],
    /// The length of its context in bytes.
    ctx_len: u8,
}

/// The samples, in the order in which they are run.
pub fn samples() -> [Sample; 7] {
    [
        Sample {
            name: "straight",
            first: STRAIGHT,
            folded: &[],
            ctx_len: 0,
        },
        Sample {
            name: "branches",
            first: BRANCHES,
            folded: &[],
            ctx_len: 16,
        },
        Sample {
            name: "frame",
            first: FRAME,
            folded: &[],
            ctx_len: 8,
        },
        Sample {
            name: "divisions",
            first: BEFORE_DIVISIONS,
            folded: DIVISIONS,
            ctx_len: 0,
        },
        Sample {
            name: "mixed",
            first: BEFORE_MIXED,
            folded: MIXED,
            ctx_len: 0,
        },
        Sample {
            name: "byte_swaps",
            first: BEFORE_BYTE_SWAPS,
            folded: BYTE_SWAPS,
            ctx_len: 0,
        },
        Sample {
            name: "sign_extensions",
            first: BEFORE_SIGN_EXTENSIONS,
            folded: SIGN_EXTENSIONS,
            ctx_len: 0,
        },
    ]
}

impl Sample {
    ghost use Rattle.std.specs.Prelude.{IfOk};
    ghost use Rattle.bench.specs.Trials.{IsReadyTrial};

    /// The text of the program.
    fn text(&self, alloc: Global) -> Result<String, AllocError> {
        let mut text = String::from_str(alloc, self.first)?;
        for folded in self.folded {
            folded.push_to(&mut text)?;
        }
        text.push_str("exit\n")?;
        Ok(text)
    }

    /// The program on a context of its length.
    pub fn trial(self, alloc: Global) -> Result<Trial>
        ensures { IfOk result IsReadyTrial }
    {
        let text = self.text(alloc)?;
        let program = program_of(alloc, &text)?;
        trial_of_program(alloc, program, usize::from(self.ctx_len))
    }
}

//! Whole runs.
ghost use Rattle.std.specs.Prelude.{◌≤◌, length};
ghost use Rattle.bpf_model.specs.declared.limits.TheConstants.{CTX_BYTES, MAX_SLOTS};
ghost use Rattle.bpf_model.specs.Places.{slot_total};
ghost use Rattle.reference_interpreter.specs.Plain.{plain_state_of};
ghost use Rattle.bpf_model.specs.Step.{environment_of};
ghost use Rattle.reference_interpreter.specs.Runs.{EndsAs};

use crate::plain_run::{PlainRun, Progress};
use bpf_model::Insn;

/// How a run ended: it exited with this value, it is stuck, a register would hold a reference whose offset
/// leaves 64 bits, or it made as many steps as it was given.
#[derive(Clone, Copy, Debug, PartialEq, Eq)]
pub enum Ending {
    Exited(u64),
    Stuck,
    OutOfRange,
    Unfinished,
}

impl PlainRun {
    /// Steps on until the run ends, or has made so many steps.
    pub fn run(&mut self, program: &[Insn], context: &[u8], maps: usize, limit: usize) -> Ending
        requires program { slot_total program.now ≤ MAX_SLOTS }
        requires context { length context.now ≤ CTX_BYTES }
        ensures { EndsAs program.now (environment_of context.now maps) (plain_state_of self.old)
            limit result }
    {
        for done in 0..limit {
            match self.step(program, context, maps) {
                Progress::Moved => {}
                Progress::Exited(n) => return Ending::Exited(n),
                Progress::Stuck => return Ending::Stuck,
                Progress::OutOfRange => return Ending::OutOfRange,
            }
        }
        Ending::Unfinished
    }
}

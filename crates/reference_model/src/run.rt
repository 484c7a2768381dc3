//! One run of a program.
ghost use Rattle.std.specs.Prelude.{◌≡◌};
ghost use Rattle.bpf_model.specs.Machine.{Loaded as ModelLoaded, fresh_run};
ghost use Rattle.reference_model.specs.RunState.{run_with};

use bpf_model::{CtxBytes, Insn};
use reference_interpreter::PlainRun;

/// A program as it was loaded: its instructions, the maps of the registry that its own list names, and the
/// length of its context.
#[derive(Drop)]
pub struct Loaded {
    pub code: Vec<Insn>,
    pub maps: Vec<usize>,
    pub context_len: usize,
}

/// A run that was started.
#[derive(Drop)]
pub struct Run {
    /// The number of its start.
    pub name: u64,
    /// Its program's index in the list of programs.
    pub program: usize,
    /// The bytes of its context, as many as its program asks for.
    pub context: CtxBytes,
    /// Its registers, its frame, and the slot of its next instruction.
    pub state: PlainRun,
    /// How many of its locks are open.
    pub depth: usize,
    /// How many sections it has opened.
    pub sections: u64,
    /// How many of its steps have led further on; an exit isn't counted.
    pub moved: u64,
    /// Its exit value, once it has ended.
    pub exit: Option<u64>,
}

impl Run {
    /// A run that has made no step.
    pub fn new(name: u64, program: usize, context: CtxBytes) -> Run
        ensures run { (loaded : ModelLoaded) → run_with loaded result
            ≡ fresh_run name loaded context.items }
        ensures program { result.program ≡ program }
    {
        Run {
            name,
            program,
            context,
            state: PlainRun::entry(),
            depth: 0,
            sections: 0,
            moved: 0,
            exit: None,
        }
    }
}

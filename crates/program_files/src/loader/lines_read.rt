//! A program file's lines, read one by one.
ghost use Rattle.std.specs.Prelude.{◌≡◌, ℕ, ◌++◌, ◌∷◌, [], List, IfSome, IfNone, OnOk};
ghost use Rattle.program_files.specs.Loaded.{loaded_content};
ghost use Rattle.program_files.specs.ProgramFile.{FileContent, IsProgramFile, IsFileBeginning};
ghost use Rattle.program_files.specs.Stages.{HasLoaded};

use crate::loader::fault::LineFault;
use crate::loader::line::{add_map, add_slots, context_of};
use crate::loader::program_file::ProgramFile;
use maps::Registry;
use std::alloc::Global;

/// Which lines come next.
#[derive(Clone, Copy, Debug, PartialEq, Eq)]
pub enum Stage {
    /// The line of the context.
    Context,
    /// Lines of maps, or the line `code`.
    Maps,
    /// Lines of slots.
    Code,
}

/// What the lines so far say.
#[derive(Drop)]
pub struct LinesRead {
    pub stage: Stage,
    pub ctx_len: usize,
    pub registry: Registry,
    pub code: Vec<u8>,
}

impl LinesRead {
    /// A law: more lines may make the lines so far a program file.
    pub fn begins(&self)
        ensures { (lines : List (List ℕ)) → HasLoaded lines self.now → IsFileBeginning lines }
    {}

    /// Before the first line.
    pub fn new(alloc: Global) -> LinesRead
        ensures { HasLoaded [] result }
    {
        LinesRead {
            stage: Stage::Context,
            ctx_len: 0,
            registry: Registry::new(alloc),
            code: Vec::new(alloc),
        }
    }

    /// Takes the next line.
    pub fn line(&mut self, line: &[u8]) -> Result<(), LineFault>
        ensures taken { (lines : List (List ℕ)) → HasLoaded lines self.old →
            OnOk result (HasLoaded (lines ++ line.now ∷ []) self.new) }
        ensures wrong { (lines : List (List ℕ)) → HasLoaded lines self.old →
            result ≡ Err LineFault.Wrong → ¬ (IsFileBeginning (lines ++ line.now ∷ [])) }
    {
        match self.stage {
            Stage::Context => {
                let Some(ctx_len) = context_of(line) else {
                    return Err(LineFault::Wrong);
                };
                self.ctx_len = ctx_len;
                self.stage = Stage::Maps;
                Ok(())
            }
            Stage::Maps if line == b"code".as_slice() => {
                self.stage = Stage::Code;
                Ok(())
            }
            Stage::Maps => add_map(&mut self.registry, line),
            Stage::Code => add_slots(&mut self.code, line),
        }
    }

    /// The file of the lines, if they are one.
    pub fn finish(self) -> Option<ProgramFile>
        ensures some { (lines : List (List ℕ)) → HasLoaded lines self →
            IfSome result (λ f. IsProgramFile lines (loaded_content f)) }
        ensures none { (lines : List (List ℕ)) → HasLoaded lines self →
            IfNone result ((content : FileContent) → ¬ (IsProgramFile lines content)) }
    {
        match self.stage {
            Stage::Code => Some(ProgramFile {
                ctx_len: self.ctx_len,
                registry: self.registry,
                code: self.code,
            }),
            _ => None,
        }
    }
}

//! A program file that is refused, with what words about it are made of.
ghost use Rattle.std.specs.Prelude.{◌≡◌, None};
ghost use Rattle.program_files.specs.declared.verdict.Verdict.TheVariants.{Memory};

use crate::program_file::Source;
use crate::verdict::Verdict;
use std::alloc::AllocError;
use verifier::{AbsState, ProgramRefusal};

/// A program that the verifier refuses, and what it knew there, as `verifier::Refused` says.
#[derive(Drop)]
pub struct RefusedProgram {
    pub source: Source,
    pub refusal: ProgramRefusal,
    pub known: Option<Box<AbsState>>,
}

/// Why a program file is refused, and its program where the verifier refuses that.
#[derive(Drop)]
pub struct RefusedFile {
    pub verdict: Verdict,
    pub program: Option<RefusedProgram>,
}

impl From<Verdict> for RefusedFile {
    ghost from_gives = { λ verdict r. (r.verdict ≡ verdict) × (r.program ≡ None) };

    fn from(verdict: Verdict) -> RefusedFile {
        RefusedFile {
            verdict,
            program: None,
        }
    }
}

impl From<AllocError> for RefusedFile {
    ghost from_gives = { λ _ r. (r.verdict ≡ Memory) × (r.program ≡ None) };

    fn from(_: AllocError) -> RefusedFile {
        RefusedFile::from(Verdict::Memory)
    }
}

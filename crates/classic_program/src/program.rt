//! A classic program that was checked.

use crate::data::Data;
use crate::insn::ClassicInsn;
use crate::paths::marks_of;
use std::alloc::{AllocError, Global};
use std::marker::Model;

/// A well-formed program. Contracts see its instructions, and of which data it is.
#[derive(Debug, Drop)]
pub struct ClassicProgram {
    kind: Data,
    instructions: Vec<ClassicInsn>,
}

impl Model for ClassicProgram {
    ghost use Rattle.classic_program.specs.WellFormed.{Checked, checked, IsWellFormed};

    ghost Value = { Checked };

    ghost view = { λ p. checked p.kind p.instructions.items };

    ghost invariant = { λ p. IsWellFormed p.kind p.instructions.items };
}

impl ClassicProgram {
    ghost use Rattle.std.specs.Prelude.{◌≡◌, None, IfOk};
    ghost use Rattle.classic_program.specs.Paths.{AreMarks, stops_at};
    ghost use Rattle.classic_program.specs.WellFormed.{checked, IsWellFormed};

    /// The program of these instructions.
    pub(crate) fn from_checked(kind: Data, instructions: Vec<ClassicInsn>) -> ClassicProgram
        requires { IsWellFormed kind instructions.items }
        ensures { result ≡ checked kind instructions.items }
    {
        ClassicProgram { kind, instructions }
    }

    /// Of which data the program is.
    pub fn data(&self) -> Data
        ensures { result ≡ self.now.kind }
    {
        self.kind
    }

    /// The instructions in order.
    pub fn instructions(&self) -> &[ClassicInsn]
        ensures value { result.now ≡ self.now.instructions }
        ensures well_formed { IsWellFormed self.now.kind self.now.instructions }
    {
        self.instructions.as_slice()
    }

    /// For each instruction, whether a path leads to it from the first.
    ///
    /// # Errors
    ///
    /// `AllocError` where memory runs out.
    pub fn reached(&self, alloc: Global) -> Result<Vec<bool>, AllocError>
        ensures { IfOk result (λ v. AreMarks self.now.instructions (stops_at None) v.items) }
    {
        marks_of(alloc, self.instructions.as_slice(), None)
    }
}

//! How a program file begins.
ghost use Rattle.std.specs.Prelude.{◌≡◌, ◌++◌, ◌∷◌, [], ◌≤◌, IfOk, IfErr};
ghost use Rattle.bpf_model.specs.Spelling.{IsProgram};
ghost use Rattle.bpf_model.specs.View.{AreNewMaps};
ghost use Rattle.bpf_model.specs.declared.limits.TheConstants.{CTX_BYTES};
ghost use Rattle.program_files.specs.Checks.{IsSourceOf};
ghost use Rattle.program_files.specs.Heads.{IsHead, IsHeadFault, context_head, file_content, file_text};
ghost use Rattle.program_files.specs.ProgramFile.{FileSays};

use crate::loader::{LoadFault, Stage, read_lines};
use crate::program_file::Source;
use insn_codec::Program;
use maps::Registry;
use std::alloc::{AllocError, Global};
use std::marker::Model;

/// What stands above the line `code` of a program file: the line of the context, and one for each map. Contracts see
/// these lines, each with its line feed, the length of the context, and the maps.
#[derive(Drop)]
pub struct Head {
    text: Vec<u8>,
    ctx_len: usize,
    registry: Registry,
}

impl Model for Head {
    ghost use Rattle.program_files.specs.Heads.{HeadView, IsHead, head_code};

    ghost Value = { HeadView };

    ghost coded = { head_code };

    ghost view = { λ h. record { text = h.text.items; ctx_len = h.ctx_len; registry = h.registry } };

    ghost invariant = { λ h. IsHead h.text.items h.ctx_len h.registry };
}

impl Head {
    /// The head of a file without maps, for contexts of so many bytes, at most `CTX_BYTES`.
    ///
    /// # Errors
    ///
    /// `AllocError` where memory runs out.
    pub fn without_maps(alloc: Global, ctx_len: usize) -> Result<Head, AllocError>
        requires { ctx_len ≤ CTX_BYTES }
        ensures { IfOk result (λ h. h ≡ context_head ctx_len) }
    {
        let line = format!(in alloc; "ctx {ctx_len}\n")?;
        Ok(Head {
            text: Vec::from_slice(alloc, line.as_bytes())?,
            ctx_len,
            registry: Registry::new(alloc),
        })
    }

    /// The lines, each with its line feed.
    pub fn lines(&self) -> &[u8]
        ensures lines { result.now ≡ self.now.text }
        ensures head { IsHead self.now.text self.now.ctx_len self.now.registry }
    {
        self.text.as_slice()
    }

    /// A law: what `write_file` makes of the head and a program says both.
    pub fn says(&self, program: &Program)
        ensures says { FileSays (file_text self.now.text program.now) (file_content self.now program.now) }
        ensures program { IsProgram program.now }
    {
        self.lines();
        program.instructions();
    }

    /// A program below these lines, and what it is verified against: what the file says that `write_file` makes of both.
    pub fn source(self, program: Program) -> Source
        ensures program { result.program ≡ program }
        ensures says { IsSourceOf (file_text self.text program) result }
        ensures limit { result.ctx_len ≤ CTX_BYTES }
        ensures maps { AreNewMaps result.registry.maps }
    {
        self.lines();
        program.instructions();
        Source {
            program,
            registry: self.registry,
            ctx_len: self.ctx_len,
        }
    }
}

/// The head of these lines, of which the last has no line feed: `ctx N`, and a line for each map, as `load` reads them.
///
/// # Errors
///
/// - `BadFile`: the first line that no head has there, counted from 2, as in a file; or, where one of the lines is `code`, some
///   line.
/// - `Memory`: where memory runs out.
pub fn read_head(alloc: Global, lines: &[u8]) -> Result<Head, LoadFault>
    ensures text { IfOk result (λ h. h.text ≡ lines.now ++ 10 ∷ []) }
    ensures fault { IfErr result (IsHeadFault lines.now) }
{
    let mut text = Vec::from_slice(alloc, lines)?;
    text.extend_from_slice(b"\n")?;
    let read = read_lines(alloc, &text)?;
    let next = read.next;
    let said = read.said;
    match said.stage {
        Stage::Maps => Ok(Head {
            text,
            ctx_len: said.ctx_len,
            registry: said.registry,
        }),
        _ => Err(LoadFault::BadFile { line: next }),
    }
}

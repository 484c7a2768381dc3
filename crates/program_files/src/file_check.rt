//! What is answered of a program file that is checked or disassembled.
ghost use Rattle.std.specs.Prelude.{List, ℕ, ◌≤◌, IfOk, IfErr, string_bytes};
ghost use Rattle.bpf_model.specs.declared.limits.TheConstants.{CTX_BYTES};
ghost use Rattle.program_files.specs.Files.{HoldsBytes};
ghost use Rattle.program_files.specs.Checks.{HandsBack, HandsBackFrom, IsAcceptedFile, IsSourceOf, IsTextOf, IsDecodeRefusal, IsCheckedRefusal};

use crate::program_file::{FileBytes, Source};
use crate::refused::RefusedFile;
use crate::verdict::Verdict;
use crate::verified_file::verify_source;
use disasm::disassemble;
use std::alloc::Global;

/// How long an accepted program is.
#[derive(Clone, Copy)]
pub struct Accepted {
    pub instructions: usize,
    pub slots: usize,
}

/// Verifies a program with its maps and its context, and gives it back where it is refused.
///
/// Errors: what the verifier refuses, 20 to 39, with the slot; or want of memory, which is 13.
pub fn check_source(alloc: Global, source: Source) -> Result<Accepted, RefusedFile>
    requires { source.ctx_len ≤ CTX_BYTES }
    ensures accepted { (bytes : List ℕ) → IsSourceOf bytes source →
        IfOk result (IsAcceptedFile bytes) }
    ensures refused { (bytes : List ℕ) → IsSourceOf bytes source →
        IfErr result (λ r. IsCheckedRefusal bytes r.verdict) }
    ensures returned { IfErr result (HandsBack source) }
{
    let source = verify_source(alloc, source)?;
    let program = source.verified.program();
    Ok(Accepted {
        instructions: program.len(),
        slots: program.slot_count(),
    })
}

/// Decodes and verifies a file's program, and gives it back where the verifier refuses it.
///
/// Errors: the first of these, or want of memory, which is 13.
/// - `File`: the line of the file that is wrong, 94.
/// - `Code`: what decoding refuses, 1 to 3 of the length, 4 to 12 with the slot.
/// - `Program`: what the verifier refuses, 20 to 39, with the slot.
pub fn check(alloc: Global, file: &FileBytes) -> Result<Accepted, RefusedFile>
    ensures accepted { (bytes : List ℕ) → HoldsBytes file.now bytes →
        IfOk result (IsAcceptedFile bytes) }
    ensures refused { (bytes : List ℕ) → HoldsBytes file.now bytes →
        IfErr result (λ r. IsCheckedRefusal bytes r.verdict) }
    ensures returned { (bytes : List ℕ) → HoldsBytes file.now bytes →
        IfErr result (HandsBackFrom bytes) }
{
    let source = file.source(alloc)?;
    check_source(alloc, source)
}

/// The text of a file's program, which is not verified.
///
/// Errors: those of `check`, but for the verifier's.
pub fn text_of(alloc: Global, file: &FileBytes) -> Result<String, Verdict>
    ensures text { (bytes : List ℕ) → HoldsBytes file.now bytes →
        IfOk result (λ lines. IsTextOf bytes (string_bytes lines)) }
    ensures refused { (bytes : List ℕ) → HoldsBytes file.now bytes →
        IfErr result (IsDecodeRefusal bytes) }
{
    let source = file.source(alloc)?;
    Ok(disassemble(alloc, &source.program)?)
}

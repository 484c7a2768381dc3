//! The contexts that the jobs of a pool take in turn.
ghost use Rattle.std.specs.Prelude.{◌≡◌, ◌≢◌, ◌≤◌, ◌<◌, ℕ, List, length, map, replicate, IfErr, IfOk};
ghost use Rattle.bpf_model.specs.declared.limits.TheConstants.{CTX_BYTES};
ghost use Rattle.commands.specs.Contexts.{AreContexts};
ghost use Rattle.program_files.specs.declared.contexts.ContextsFault.TheVariants.{Memory};

use bpf_model::{CtxBytes, EventRefusal};
use command_words::{ContextForm, ContextsFile};
use explanations::{meaning_of_event, write_meaning};
use program_files::{ContextsFault, contexts_in_lines, packed_contexts, write_line};
use std::alloc::Global;
use std::io;
use std::io::Write;

/// A context of so many bytes, all zero.
fn zeros(count: usize) -> CtxBytes
    requires { count ≤ CTX_BYTES }
    ensures { result.items ≡ replicate count 0 }
{
    let mut bytes = CtxBytes::new();
    for _ in 0..count {
        bytes.push(0);
    }
    bytes
}

/// The contexts of so many bytes each that the jobs of a pool take in turn: those that the bytes of the file say, or one of
/// zeros where there is no file.
pub fn contexts_for(
    alloc: Global,
    file: &Option<ContextsFile>,
    len: usize,
    bytes: &[u8],
) -> Result<Vec<CtxBytes>, ContextsFault>
    requires { len ≤ CTX_BYTES }
    ensures found { IfOk result (λ v. AreContexts file.now len bytes.now (map (λ c. c.items) v.items)) }
    ensures some { IfOk result (λ v. 0 < length v.items) }
    ensures fault { IfErr result (λ f. f ≢ Memory →
        (contexts : List (List ℕ)) → AreContexts file.now len bytes.now contexts → ⊥) }
{
    let Some(file) = file else {
        let mut contexts = Vec::new(alloc);
        contexts.push(zeros(len))?;
        return Ok(contexts);
    };
    match file.form {
        ContextForm::Lines => contexts_in_lines(alloc, len, bytes),
        ContextForm::Packed => packed_contexts(alloc, len, bytes),
    }
}

/// Writes what it means that a file has no contexts of so many bytes each, and what is wrong with it.
pub fn write_contexts_fault<W: Write>(
    out: &mut W,
    bytes: &[u8],
    len: usize,
    fault: ContextsFault,
) -> io::Result<()> {
    write_meaning(out, meaning_of_event(EventRefusal::BadContext))?;
    match fault {
        ContextsFault::BadLine { line } => {
            write_line(out, bytes, line, 0)?;
            let digits = len.saturating_mul(2);
            writeln!(
                out,
                "  each line is to have {digits} hexadecimal digits, two for each byte of the context, and nothing else"
            )
        }
        ContextsFault::BadLength => {
            let count = bytes.len();
            writeln!(
                out,
                "  the file of contexts has {count} bytes, no multiple of {len}, the length of the program's context"
            )
        }
        ContextsFault::Empty => writeln!(out, "  the file of contexts is empty"),
        ContextsFault::Memory => Ok(()),
    }
}

//! The contexts of many runs, as a file says them.
ghost use Rattle.std.specs.Prelude.{◌≡◌, ◌≢◌, ◌≤◌, ◌<◌, ℕ, List, Some, None, length, map, IfOk, IfErr, IfSome, IfNone};
ghost use Rattle.bpf_model.specs.declared.limits.TheConstants.{CTX_BYTES};
ghost use Rattle.program_files.specs.Contexts.{context_in, AreInLines, ArePacked, IsLinesFault, IsPackedFault};
ghost use Rattle.program_files.specs.declared.contexts.ContextsFault.TheVariants.{Memory};

use crate::loader::first_line;
use bpf_model::{CtxBytes, array_of};
use hex::decode_to_slice;
use std::alloc::{AllocError, AllocFailed, Global};
use thiserror::Error;

/// Why a file says no contexts of so many bytes each.
#[derive(Clone, Copy, Debug, PartialEq, Eq, Error)]
pub enum ContextsFault {
    /// There is none.
    #[error("there is no context")]
    Empty,
    /// The line of this number, counted from 1, has not the digits of one context.
    #[error("line {line} of the contexts is wrong")]
    BadLine { line: usize },
    /// The bytes are no whole number of contexts.
    #[error("the last context is cut")]
    BadLength,
    /// An allocation failed.
    #[error("out of memory")]
    Memory,
}

impl From<AllocError> for ContextsFault {
    ghost from_gives = { λ _ e. e ≡ Memory };

    fn from(_: AllocError) -> ContextsFault {
        ContextsFault::Memory
    }
}

impl<T: Drop> From<AllocFailed<T>> for ContextsFault {
    ghost from_gives = { λ _ e. e ≡ Memory };

    fn from(_: AllocFailed<T>) -> ContextsFault {
        ContextsFault::Memory
    }
}

/// The context of so many bytes that a line's digits say, if they say one.
fn context_of(line: &[u8], len: usize) -> Option<CtxBytes>
    requires { len ≤ CTX_BYTES }
    ensures some { IfSome result (λ c. context_in len line.now ≡ Some c.items) }
    ensures none { IfNone result (context_in len line.now ≡ None) }
{
    let mut bytes = [0u8; bpf_model::CTX_BYTES];
    let context = &mut bytes[..len];
    match decode_to_slice(line, context) {
        Ok(()) => Some(array_of(context)),
        Err(_) => None,
    }
}

/// The contexts of so many bytes each that the lines of a file say, at least one: two hexadecimal digits a byte, in either
/// case, and nothing else. The last line may lack its line feed.
///
/// # Errors
///
/// - `BadLine`: the first line that is otherwise.
/// - `Empty`: there is no line.
/// - `Memory`: where memory runs out.
pub fn contexts_in_lines(
    alloc: Global,
    len: usize,
    bytes: &[u8],
) -> Result<Vec<CtxBytes>, ContextsFault>
    requires { len ≤ CTX_BYTES }
    ensures found { IfOk result (λ v. AreInLines len bytes.now (map (λ c. c.items) v.items)) }
    ensures some { IfOk result (λ v. 0 < length v.items) }
    ensures fault { IfErr result (λ f. f ≢ Memory →
        (contexts : List (List ℕ)) → AreInLines len bytes.now contexts → ⊥) }
    ensures which { IfErr result (IsLinesFault len bytes.now) }
{
    let mut contexts = Vec::new(alloc);
    let mut rest = bytes;
    while !rest.is_empty() {
        let (line, more) = first_line(rest);
        let Some(context) = context_of(line, len) else {
            let line = contexts.len().saturating_add(1);
            return Err(ContextsFault::BadLine { line });
        };
        contexts.push(context)?;
        rest = more;
    }
    if contexts.is_empty() {
        return Err(ContextsFault::Empty);
    }
    Ok(contexts)
}

/// The contexts of so many bytes each that stand in a file one behind another, at least one. Those of no bytes stand in no
/// file.
///
/// # Errors
///
/// - `Empty`: there are no bytes.
/// - `BadLength`: the bytes are no whole number of contexts.
/// - `Memory`: where memory runs out.
pub fn packed_contexts(
    alloc: Global,
    len: usize,
    bytes: &[u8],
) -> Result<Vec<CtxBytes>, ContextsFault>
    requires { len ≤ CTX_BYTES }
    ensures found { IfOk result (λ v. ArePacked len bytes.now (map (λ c. c.items) v.items)) }
    ensures some { IfOk result (λ v. 0 < length v.items) }
    ensures fault { IfErr result (λ f. f ≢ Memory →
        (contexts : List (List ℕ)) → ArePacked len bytes.now contexts → ⊥) }
    ensures which { IfErr result (IsPackedFault len bytes.now) }
{
    if bytes.is_empty() {
        return Err(ContextsFault::Empty);
    }
    if len == 0 || bytes.len() % len != 0 {
        return Err(ContextsFault::BadLength);
    }
    let mut contexts = Vec::new(alloc);
    let mut rest = bytes;
    while !rest.is_empty() {
        let (context, more) = rest.split_at(len);
        contexts.push(array_of(context))?;
        rest = more;
    }
    Ok(contexts)
}

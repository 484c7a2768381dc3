//! The keys of an array: its indices, four bytes each, the lowest first.
ghost use Rattle.std.specs.Prelude.{◌≡◌, ◌≤◌, ◌<◌, ◌^◌, ◌↔◌, IsTrue, None, Some, IfOk, IfSome, IfNone, option_copied, slice_index};
ghost use Rattle.std.specs.FinMap as map;
ghost use Rattle.bpf_model.specs.declared.limits.TheConstants.{MAX_ENTRIES};
ghost use Rattle.bpf_model.specs.MapState as state;
ghost use Rattle.bpf_model.specs.View.{index_below};
ghost use Rattle.hash_index.specs.Order.{AreInOrder, IsAbove, NoneAbove, NoneBetween};

use bpf_model::INDEX_BYTES;
use std::alloc::{AllocError, Global};

/// How many values a byte has.
const BYTE_VALUES: usize = 256;

/// The index that a key is, where it is below a limit; `None` for any other key.
#[inline]
pub(crate) fn index_of(key: &[u8], limit: usize) -> Option<usize>
    requires { limit ≤ MAX_ENTRIES }
    ensures { result ≡ map.get (index_below limit) key.now }
{
    if key.len() != INDEX_BYTES {
        return None;
    }
    let index = u32::from_le_bytes([key[0], key[1], key[2], key[3]]) as usize;
    if index < limit { Some(index) } else { None }
}

/// The key of an index.
pub(crate) fn index_key(index: usize) -> [u8; INDEX_BYTES]
    requires { index < 2 ^ 32 }
    ensures { result ≡ state.index_key index }
{
    (index as u32).to_le_bytes()
}

/// A byte of a key; 0 behind its end.
fn byte_or_zero(bytes: &[u8], at: usize) -> usize
    ensures byte { result ≡ slice_index bytes.now at }
    ensures small { result < BYTE_VALUES }
{
    match bytes.get(at) {
        Some(byte) => usize::from(*byte),
        None => 0,
    }
}

/// Whether an index is below a limit, and its key above a bound.
fn is_index_above(bound: &[u8], limit: usize, index: usize) -> bool
    requires { index < 2 ^ 32 }
    ensures { IsTrue result
        ↔ ((index < limit) × IsAbove (Some bound.now) (state.index_key index)) }
{
    index < limit && bound.cmp(&index_key(index).as_slice()).is_lt()
}

/// The index below a limit with the least key above a bound, in byte order: the lowest byte decides first, so
/// that 256 comes between 0 and 1. It has the bound's two lowest bytes, or the next second byte, or the next first
/// one.
fn index_above(bound: &[u8], limit: usize) -> Option<usize>
    requires { limit ≤ MAX_ENTRIES }
    ensures some { IfSome result (λ i. i < limit) }
    ensures above { IfSome result (λ i. IsAbove (Some bound.now) (state.index_key i)) }
    ensures least { IfSome result (λ i.
        NoneBetween (index_below limit) (Some bound.now) (state.index_key i)) }
    ensures none { IfNone result (NoneAbove (index_below limit) (Some bound.now)) }
{
    let low = byte_or_zero(bound, 0);
    let first = low + BYTE_VALUES * byte_or_zero(bound, 1);
    if is_index_above(bound, limit, first) {
        Some(first)
    } else if is_index_above(bound, limit, first + BYTE_VALUES) {
        Some(first + BYTE_VALUES)
    } else if is_index_above(bound, limit, low + 1) {
        Some(low + 1)
    } else {
        None
    }
}

/// The index below a limit with the least key above a bound, in byte order. Every key is above no bound.
pub(crate) fn next_index(bound: Option<&[u8]>, limit: usize) -> Option<usize>
    requires { limit ≤ MAX_ENTRIES }
    ensures some { IfSome result (λ i. i < limit) }
    ensures above { IfSome result (λ i.
        IsAbove (option_copied bound.entry) (state.index_key i)) }
    ensures least { IfSome result (λ i.
        NoneBetween (index_below limit) (option_copied bound.entry) (state.index_key i)) }
    ensures none { IfNone result (NoneAbove (index_below limit) (option_copied bound.entry)) }
{
    match bound {
        None => index_above(&[], limit),
        Some(bytes) => index_above(bytes, limit),
    }
}

/// The indices below a limit, in byte order of their keys. The error is that there is no memory left.
pub(crate) fn indices_in_order(alloc: Global, limit: usize) -> Result<Vec<usize>, AllocError>
    requires { limit ≤ MAX_ENTRIES }
    ensures { IfOk result (λ v. AreInOrder (index_below limit) state.index_key None v.items) }
{
    let mut indices = Vec::with_capacity(alloc, limit)?;
    let mut next = next_index(None, limit);
    while let Some(index) = next {
        indices.push(index)?;
        next = next_index(Some(&index_key(index)), limit);
    }
    Ok(indices)
}

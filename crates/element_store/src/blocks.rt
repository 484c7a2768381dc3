//! Byte strings of one length, one behind the other.
ghost use Rattle.std.specs.Prelude.{◌≡◌, ◌+◌, ◌*◌, ◌≤◌, length, replicate, IfOk};
ghost use Rattle.bpf_model.specs.Access.{byte_count};
ghost use Rattle.bpf_model.specs.Access.{with_bytes};
ghost use Rattle.element_store.specs.Blocks.{block, with_block};

use bpf_model::{Width, write_number};
use std::alloc::{AllocError, Global};

/// So many strings of zero bytes, of one length. Fails where memory runs out.
pub fn zero_blocks(alloc: Global, count: usize, len: usize) -> Result<Vec<u8>, AllocError>
    ensures zero { IfOk result (λ bytes. bytes.items ≡ replicate (count * len) 0) }
    ensures long { IfOk result (λ bytes. length bytes.items ≡ count * len) }
{
    match count.checked_mul(len) {
        Some(room) => vec![in alloc; 0; room],
        None => Err(AllocError),
    }
}

/// The string of an index.
#[inline]
pub fn block(bytes: &[u8], len: usize, index: usize) -> &[u8]
    requires { index * len + len ≤ length bytes.now }
    ensures { result.now ≡ block len index bytes.now }
{
    let at = index * len;
    &bytes[at..at + len]
}

/// How many bytes a word has.
const WORD_BYTES: usize = 8;

/// How many bytes half a word has.
const HALF_BYTES: usize = 4;

/// Puts another string of the same length in place of that of an index.
#[inline(never)]
fn write_bytes(bytes: &mut Vec<u8>, index: usize, new: &[u8])
    requires { index * length new.now + length new.now ≤ length bytes.old.items }
    ensures { bytes.new.items ≡ with_block index new.now bytes.old.items }
{
    let at = index * new.len();
    bytes[at..at + new.len()].copy_from_slice(new);
}

/// Puts another string of the same length in place of that of an index. A word or half a word is written
/// without a call.
#[inline]
pub fn write_block(bytes: &mut Vec<u8>, index: usize, new: &[u8])
    requires { index * length new.now + length new.now ≤ length bytes.old.items }
    ensures { bytes.new.items ≡ with_block index new.now bytes.old.items }
{
    if new.len() == WORD_BYTES {
        let at = index * WORD_BYTES;
        bytes[at..at + WORD_BYTES].copy_from_slice(&new[..WORD_BYTES]);
    } else if new.len() == HALF_BYTES {
        let at = index * HALF_BYTES;
        bytes[at..at + HALF_BYTES].copy_from_slice(&new[..HALF_BYTES]);
    } else {
        write_bytes(bytes, index, new);
    }
}

/// Writes the low bytes of a number into the string of an index, from an offset on.
#[inline]
pub fn write_inside(
    bytes: &mut Vec<u8>,
    len: usize,
    index: usize,
    offset: usize,
    width: Width,
    number: u64,
)
    requires inside { offset + byte_count width ≤ len }
    requires room { index * len + len ≤ length bytes.old.items }
    ensures { bytes.new.items ≡ with_block index
        (with_bytes offset (byte_count width) number (block len index bytes.old.items))
        bytes.old.items }
{
    let at = index * len;
    write_number(&mut bytes[at..at + len], offset, width, number);
}

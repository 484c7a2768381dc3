//! Classic programs as they are handed over.
ghost use Rattle.std.specs.Prelude.{◌≡◌, ◌≢◌, ◌%◌, ◌<◌, ◌≤◌, ◌∷◌, ◌⊎◌, List, Some, length, IfOk, IfErr};
ghost use Rattle.classic_program.specs.declared.fault.ReadFault.TheVariants.{Memory, CutRecord};
ghost use Rattle.classic_program.specs.declared.sock_filter.SockFilter.{SockFilter as FilterOf};
ghost use Rattle.classic_program.specs.ReadFaults.{IsLinesFault, IsListingFault};
ghost use Rattle.classic_program.specs.Reading.{filter_at, filters_in, filter_in, number_below as number_below_of, parts_at, parts_left, HasLines, IsListing};

use crate::checking::MOST_INSTRUCTIONS;
use crate::fault::ReadFault;
use crate::sock_filter::SockFilter;
use script_lines::number_of;
use std::alloc::Global;

/// The struct in the first eight bytes.
fn filter_from(bytes: &[u8]) -> SockFilter
    requires { 8 ≤ length bytes.now }
    ensures { result ≡ filter_at bytes.now }
{
    SockFilter {
        code: u16::from_le_bytes([bytes[0], bytes[1]]),
        jt: bytes[2],
        jf: bytes[3],
        k: u32::from_le_bytes([bytes[4], bytes[5], bytes[6], bytes[7]]),
    }
}

/// The instructions of an array of struct sock_filter, 8 bytes each, little-endian (libseccomp's export_bpf).
///
/// # Errors
///
/// `CutRecord` where the bytes are no multiple of 8, and `Memory` where memory runs out.
pub fn read_filter_array(alloc: Global, bytes: &[u8]) -> Result<Vec<SockFilter>, ReadFault>
    ensures found { IfOk result (λ v. v.items ≡ filters_in bytes.now) }
    ensures whole { IfOk result (λ v. length bytes.now % 8 ≡ 0) }
    ensures fault { IfErr result (λ e. (e ≡ Memory)
        ⊎ ((e ≡ CutRecord) × (length bytes.now % 8 ≢ 0))) }
{
    if bytes.len() % 8 != 0 {
        return Err(ReadFault::CutRecord);
    }
    let mut filters = Vec::with_capacity(alloc, bytes.len() / 8)?;
    let mut rest = bytes;
    while !rest.is_empty() {
        filters.extend_from_slice(&[filter_from(rest)])?;
        rest = &rest[8..];
    }
    Ok(filters)
}

/// What stands before the first such byte, and what stands behind it, if there is one.
fn cut(bytes: &[u8], separator: u8) -> (&[u8], Option<&[u8]>)
    ensures { parts_at separator bytes.now ≡ result.0.now ∷ parts_left separator result.1 }
{
    for (index, byte) in bytes.iter().enumerate() {
        if *byte == separator {
            return (&bytes[..index], Some(&bytes[index + 1..]));
        }
    }
    (bytes, None)
}

/// The number below a limit that a word writes.
fn number_below(word: &[u8], limit: u64) -> Option<u64>
    ensures { result ≡ number_below_of limit word.now }
{
    let number = number_of(word)?;
    if number < limit { Some(number) } else { None }
}

/// The instruction of a line: `code jt jf k` in decimal.
fn filter_of(line: &[u8]) -> Option<SockFilter>
    ensures { result ≡ filter_in line.now }
{
    let (code, rest) = cut(line, b' ');
    let (jt, rest) = cut(rest?, b' ');
    let (jf, rest) = cut(rest?, b' ');
    let (k, rest) = cut(rest?, b' ');
    if rest.is_some() {
        return None;
    }
    Some(SockFilter {
        code: number_below(code, 0x1_0000)? as u16,
        jt: number_below(jt, 0x100)? as u8,
        jf: number_below(jf, 0x100)? as u8,
        k: number_below(k, 0x1_0000_0000)? as u32,
    })
}

/// So many lines, an instruction each.
fn read_lines(alloc: Global, count: u64, lines: Option<&[u8]>) -> Result<Vec<SockFilter>, ReadFault>
    ensures found { IfOk result (λ v. HasLines count (parts_left 10 lines.entry) v.items) }
    ensures only { (filters : List FilterOf) → HasLines count (parts_left 10 lines.entry) filters →
        IfErr result (λ e. e ≡ Memory) }
    ensures fault { IfErr result (IsLinesFault count (parts_left 10 lines.entry)) }
{
    let mut filters = Vec::with_capacity(alloc, count.min(MOST_INSTRUCTIONS as u64) as usize)?;
    let mut rest = lines;
    for _ in 0..count {
        let Some(bytes) = rest else {
            return Err(ReadFault::BadCount);
        };
        let (line, more) = cut(bytes, b'\n');
        let Some(filter) = filter_of(line) else {
            return Err(ReadFault::BadLine(filters.len() + 2));
        };
        filters.extend_from_slice(&[filter])?;
        rest = more;
    }
    match rest {
        None => Ok(filters),
        Some(bytes) => {
            if !bytes.is_empty() {
                return Err(ReadFault::BadCount);
            }
            Ok(filters)
        }
    }
}

/// The instructions of the text of `tcpdump -ddd`: in the first line how many there are, then `code jt jf k` in
/// decimal, a line each.
///
/// # Errors
///
/// `BadCount` where the first line is no number. Else `BadLine` for the first of so many lines that is no instruction;
/// an empty one behind the last line feed counts, too. Else `BadCount` where there are more lines, or fewer. `Memory`
/// where memory runs out.
pub fn read_listing(alloc: Global, text: &str) -> Result<Vec<SockFilter>, ReadFault>
    ensures found { IfOk result (λ v. IsListing text.now v.items) }
    ensures only { (filters : List FilterOf) → IsListing text.now filters →
        IfErr result (λ e. e ≡ Memory) }
    ensures fault { IfErr result (IsListingFault text.now) }
{
    let (head, lines) = cut(text.as_bytes(), b'\n');
    let Some(count) = number_of(head) else {
        return Err(ReadFault::BadCount);
    };
    read_lines(alloc, count, lines)
}

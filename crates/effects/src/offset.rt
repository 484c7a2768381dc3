//! Where accesses lie, at each offset that their base may have.
ghost use Rattle.std.specs.Prelude.{◌≡◌, ℕ, ◌+◌, ◌%◌, ◌^◌, ◌<◌, ◌≤◌, IfOk, OnOk, IsOk, IfSome, MatchOption, Some, Ok, ◌+ℤ◌, pos, ◌<ℤ◌};
ghost use Rattle.bpf_model.specs.Access.{byte_count, region_offset};
ghost use Rattle.scalar_domain.specs.Scalar.{Holds};
ghost use Rattle.plan_laws.specs.Effects.{IsAlwaysInside};
ghost use Rattle.effects.specs.Accesses.{IsStart};

use bpf_model::{NEAR_LIMIT, Width};
use register_kinds::{InsnFault, ORIGIN};
use scalar_domain::Scalar;

/// Offsets of accesses are kept so much higher here.
const SHIFT: u64 = 1 << 15;

/// The offset of an access, `SHIFT` higher.
fn shifted_up(offset: i16) -> u64
    ensures value { pos result ≡ offset +ℤ pos (2 ^ 15) }
    ensures bound { result < 2 ^ 16 }
{
    (i64::from(offset) + SHIFT as i64) as u64
}

/// Each access begins at or after the region's start, and ends at or before its end.
fn check_bounds(offsets: Scalar, by: u64, bytes: usize, len: usize) -> Result<(), InsnFault>
    requires by { by < 2 ^ 16 }
    requires bytes { bytes ≤ 8 }
    ensures start { OnOk result ((n : ℕ) → Holds offsets n → 2 ^ 29 + 2 ^ 15 ≤ n + by) }
    ensures end { OnOk result ((n : ℕ) → Holds offsets n
        → n + by + bytes ≤ len + (2 ^ 29 + 2 ^ 15)) }
    ensures accepts { IsStart offsets → 2 ^ 15 ≤ by → by + bytes ≤ len + 2 ^ 15 → IsOk result }
{
    if offsets.greatest > 2 * NEAR_LIMIT || offsets.least + by < ORIGIN + SHIFT {
        return Err(InsnFault::OutOfBounds);
    }
    let end = offsets.greatest + by + bytes as u64;
    if end < ORIGIN + SHIFT || end - (ORIGIN + SHIFT) > len as u64 {
        return Err(InsnFault::OutOfBounds);
    }
    Ok(())
}

/// What all numbers of the set leave, divided by the width, where they all leave the same.
fn remainder(offsets: Scalar, width: Width) -> Option<u64>
    ensures value { IfSome result (λ r. (n : ℕ) → Holds offsets n → n % byte_count width ≡ r) }
    ensures one { offsets.least ≡ offsets.greatest
        → result ≡ Some (offsets.least % byte_count width) }
{
    let bytes = width.bytes() as u64;
    if offsets.least == offsets.greatest {
        return Some(offsets.least % bytes);
    }
    if offsets.may % bytes == offsets.must % bytes {
        return Some(offsets.must % bytes);
    }
    None
}

/// Each access begins at a multiple of its width.
fn check_aligned(offsets: Scalar, by: u64, width: Width) -> Result<(), InsnFault>
    requires { by < 2 ^ 16 }
    ensures aligned { OnOk result ((n : ℕ) → Holds offsets n → (n + by) % byte_count width ≡ 0) }
    ensures accepts { IsStart offsets → by % byte_count width ≡ 0 → IsOk result }
{
    let bytes = width.bytes() as u64;
    match remainder(offsets, width) {
        Some(rest) => {
            if (rest % bytes + by) % bytes == 0 {
                Ok(())
            } else {
                Err(InsnFault::Misaligned)
            }
        }
        None => Err(InsnFault::Misaligned),
    }
}

/// At each of the offsets the access lies inside a region of this length, and aligned. Errors, in
/// this order: `OutOfBounds`, `Misaligned`, where at some it does not.
pub(crate) fn check_within(
    offsets: Scalar,
    width: Width,
    offset: i16,
    len: usize,
) -> Result<(), InsnFault>
    ensures inside { OnOk result (IsAlwaysInside offsets (byte_count width) offset len) }
    ensures accepts { (at : ℕ) → IsStart offsets
        → region_offset len (byte_count width) offset ≡ Some at → IsOk result }
{
    let by = shifted_up(offset);
    check_bounds(offsets, by, width.bytes(), len)?;
    check_aligned(offsets, by, width)?;
    Ok(())
}

/// Where an access begins in its region, or `None` before the region's start.
fn first_byte(base: i32, offset: i16) -> Option<usize>
    ensures { MatchOption result ((base +ℤ offset) <ℤ pos 0) (λ n. (base +ℤ offset) ≡ pos n) }
{
    let first = i64::from(base) + i64::from(offset);
    if first < 0 {
        None
    } else {
        Some(first as usize)
    }
}

/// The first byte of an access, if all of it lies inside a region of this length, and aligned.
fn first_inside(len: usize, width: Width, first: usize) -> Result<usize, InsnFault>
    ensures value { IfOk result (λ n. region_offset len (byte_count width) (pos first) ≡ Some n) }
    ensures inside { IfOk result (λ n. n + byte_count width ≤ len) }
    ensures aligned { IfOk result (λ n. n % byte_count width ≡ 0) }
    ensures accepts { (n : ℕ) → region_offset len (byte_count width) (pos first) ≡ Some n
        → result ≡ Ok n }
{
    let bytes = width.bytes();
    if first > len || len - first < bytes {
        return Err(InsnFault::OutOfBounds);
    }
    if first % bytes != 0 {
        return Err(InsnFault::Misaligned);
    }
    Ok(first)
}

/// Where an access through a base at this offset begins in a region of this length, if all of it
/// lies inside, and aligned.
pub(crate) fn offset_in(
    len: usize,
    width: Width,
    base: i32,
    offset: i16,
) -> Result<usize, InsnFault>
    ensures value { IfOk result (λ n. region_offset len (byte_count width) (base +ℤ offset)
        ≡ Some n) }
    ensures inside { IfOk result (λ n. n + byte_count width ≤ len) }
    ensures aligned { IfOk result (λ n. n % byte_count width ≡ 0) }
    ensures accepts { (n : ℕ) → region_offset len (byte_count width) (base +ℤ offset) ≡ Some n
        → result ≡ Ok n }
{
    match first_byte(base, offset) {
        Some(first) => first_inside(len, width, first),
        None => Err(InsnFault::OutOfBounds),
    }
}

//! Numbers among the bytes of a packet, in network order.
ghost use Rattle.std.specs.Prelude.{◌≡◌, ◌≤◌, ◌^◌, ℕ};
ghost use Rattle.classic_program.specs.declared.data.Data.TheVariants.{Packet};
ghost use Rattle.classic_program.specs.declared.insn.LoadSize.TheVariants.{Byte, Half, Word};
ghost use Rattle.classic_program.specs.declared.insn.Datum.TheVariants.{HeaderLength};
ghost use Rattle.classic_program.specs.Machine.{Registers, bytes_at, loaded};

/// The byte there.
#[inline(always)]
pub(crate) fn byte_at(bytes: &[u8], at: usize) -> Option<u32>
    ensures { result ≡ bytes_at Packet bytes.now at Byte }
{
    match bytes.get(at) {
        Some(byte) => Some(u32::from(*byte)),
        None => None,
    }
}

/// The number of two bytes.
#[inline(always)]
pub(crate) fn half_at(bytes: &[u8], at: usize) -> Option<u32>
    requires { at ≤ 2 ^ 40 }
    ensures { result ≡ bytes_at Packet bytes.now at Half }
{
    if at + 2 > bytes.len() {
        return None;
    }
    let high = u32::from(bytes[at]);
    let low = u32::from(bytes[at + 1]);
    Some(high * 256 + low)
}

/// The number of four bytes.
#[inline(always)]
pub(crate) fn word_at(bytes: &[u8], at: usize) -> Option<u32>
    requires { at ≤ 2 ^ 40 }
    ensures { result ≡ bytes_at Packet bytes.now at Word }
{
    if at + 4 > bytes.len() {
        return None;
    }
    let first = u32::from(bytes[at]);
    let second = u32::from(bytes[at + 1]);
    let third = u32::from(bytes[at + 2]);
    let fourth = u32::from(bytes[at + 3]);
    Some(((first * 256 + second) * 256 + third) * 256 + fourth)
}

/// The length of the header that begins there: four times the low half of its first byte.
#[inline(always)]
pub(crate) fn header_at(bytes: &[u8], at: usize) -> Option<u32>
    ensures { (m : Registers) (wire : ℕ) → result ≡ loaded Packet (record { bytes = bytes.now; wire = wire }) m (HeaderLength at) }
{
    match bytes.get(at) {
        Some(byte) => Some(4 * (u32::from(*byte) % 16)),
        None => None,
    }
}

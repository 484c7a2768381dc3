//! Little-endian numbers in memory (RFC 9669, section 5.1; that memory is little-endian is this runtime's
//! choice): the reads and writes of the frame, of a context and of an element's value.

ghost use Rattle.std.specs.Prelude.{◌≡◌, ◌+◌, ◌<◌, ◌≤◌, length, slice_get, Some};
ghost use Rattle.bpf_model.specs.Access.{byte_count, number_at};
ghost use Rattle.bpf_model.specs.Access.{with_bytes};

use crate::opcode::Width;

/// The number of so many bytes from an offset on, all of which are there.
#[inline]
pub fn number_of(bytes: &[u8], at: usize, width: Width) -> u64
    requires { at + byte_count width ≤ length bytes.now }
    ensures { number_at (slice_get bytes.now) at (byte_count width) ≡ Some result }
{
    match width {
        Width::One => u64::from(bytes[at]),
        Width::Two => u64::from(u16::from_le_bytes([bytes[at], bytes[at + 1]])),
        Width::Four => u64::from(u32::from_le_bytes([
            bytes[at],
            bytes[at + 1],
            bytes[at + 2],
            bytes[at + 3],
        ])),
        Width::Eight => u64::from_le_bytes([
            bytes[at],
            bytes[at + 1],
            bytes[at + 2],
            bytes[at + 3],
            bytes[at + 4],
            bytes[at + 5],
            bytes[at + 6],
            bytes[at + 7],
        ]),
    }
}

#[inline]
fn write_one(bytes: &mut [u8], at: usize, number: u64)
    requires { at < length bytes.old }
    ensures { bytes.new ≡ with_bytes at 1 number bytes.old }
{
    bytes[at] = (number % 0x100) as u8;
}

#[inline]
fn write_two(bytes: &mut [u8], at: usize, number: u64)
    requires { at + 2 ≤ length bytes.old }
    ensures { bytes.new ≡ with_bytes at 2 number bytes.old }
{
    write_one(bytes, at + 1, number / 0x100);
    write_one(bytes, at, number);
}

#[inline]
fn write_four(bytes: &mut [u8], at: usize, number: u64)
    requires { at + 4 ≤ length bytes.old }
    ensures { bytes.new ≡ with_bytes at 4 number bytes.old }
{
    write_two(bytes, at + 2, number / 0x1_0000);
    write_two(bytes, at, number);
}

#[inline]
fn write_eight(bytes: &mut [u8], at: usize, number: u64)
    requires { at + 8 ≤ length bytes.old }
    ensures { bytes.new ≡ with_bytes at 8 number bytes.old }
{
    write_four(bytes, at + 4, number / 0x1_0000_0000);
    write_four(bytes, at, number);
}

/// Writes the low bytes of a number from an offset on, where there are as many.
#[inline]
pub fn write_number(bytes: &mut [u8], at: usize, width: Width, number: u64)
    requires { at + byte_count width ≤ length bytes.old }
    ensures { bytes.new ≡ with_bytes at (byte_count width) number bytes.old }
{
    match width {
        Width::One => write_one(bytes, at, number),
        Width::Two => write_two(bytes, at, number),
        Width::Four => write_four(bytes, at, number),
        Width::Eight => write_eight(bytes, at, number),
    }
}

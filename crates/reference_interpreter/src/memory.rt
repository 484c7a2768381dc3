//! The context and the frame.
ghost use Rattle.std.specs.Prelude.{◌≡◌, ℕ, ◌+◌, ◌-◌, ◌*◌, ◌/◌, ◌%◌, ◌^◌, ◌<◌, ◌≤◌, length, slice_get, IfSome, ◌+ℤ◌, if◌then◌else◌};
ghost use Rattle.bpf_model.specs.declared.limits.TheConstants.{FRAME_BYTES};
ghost use Rattle.bpf_model.specs.Access.{byte_count, region_offset as offset_within, number_at};
ghost use Rattle.bpf_model.specs.Frame.{byte_of, is_same_reference as is_same, is_part as is_part_of, are_parts as are_parts_of, is_within, read as read_from};
ghost use Rattle.bpf_model.specs.declared.value.Cell.TheVariants as cells;
ghost use Rattle.reference_interpreter.specs.Plain.{cells_of, WritesFrame};

use bpf_model::{Cell, FRAME_BYTES, Reference, Value, Width};

/// The offset in bytes of an access in a region of this length (at most `FRAME_BYTES`), if the access is
/// aligned and all inside.
pub fn region_offset(len: usize, width: Width, base: i64, offset: i16) -> Option<usize>
    requires { len ≤ FRAME_BYTES }
    ensures value { result ≡ offset_within len (byte_count width) (base +ℤ offset) }
    ensures bound { IfSome result (λ at. at + byte_count width ≤ len) }
{
    let width = width.bytes();
    match base.checked_add(i64::from(offset)) {
        Some(first) if first >= 0 && first <= FRAME_BYTES as i64 => {
            let at = first as usize;
            if at + width <= len && at % width == 0 {
                Some(at)
            } else {
                None
            }
        }
        _ => None,
    }
}

/// A number of so many bytes, of its low byte and the rest.
fn joined(low: u8, high: u64, width: usize) -> u64
    requires some { 0 < width }
    requires width { width ≤ 8 }
    requires high { high < 256 ^ (width - 1) }
    ensures value { result ≡ low + 256 * high }
    ensures bound { result < 256 ^ width }
{
    u64::from(low) + 256 * high
}

fn byte_at(bytes: &[u8], at: usize) -> Option<u8>
    ensures { result ≡ slice_get bytes.now at }
{
    match bytes.get(at) {
        Some(byte) => Some(*byte),
        None => None,
    }
}

/// So many bytes (at most 8, and none past twice `FRAME_BYTES`) as a little-endian number, if they are
/// all there.
pub fn number_in(bytes: &[u8], at: usize, width: usize) -> Option<u64>
    requires width { width ≤ 8 }
    requires small { at + width ≤ 2 * FRAME_BYTES }
    ensures value { result ≡ number_at (slice_get bytes.now) at width }
    ensures bound { IfSome result (λ n. n < 256 ^ width) }
{
    if width == 0 {
        return Some(0);
    }
    let low = byte_at(bytes, at)?;
    let high = number_in(bytes, at + 1, width - 1)?;
    Some(joined(low, high, width))
}

fn cell_at(frame: &[Cell], at: usize) -> Cell
    ensures { result ≡ cells_of frame.now at }
{
    match frame.get(at) {
        Some(cell) => *cell,
        None => Cell::Unwritten,
    }
}

fn byte(cell: Cell) -> Option<u8>
    ensures { result ≡ byte_of cell }
{
    match cell {
        Cell::Byte(b) => Some(b),
        _ => None,
    }
}

/// So many cells as a little-endian number, if they are all bytes.
fn number_in_frame(frame: &[Cell], at: usize, width: usize) -> Option<u64>
    requires width { width ≤ 8 }
    requires small { at + width ≤ 2 * FRAME_BYTES }
    ensures value { result ≡ number_at (λ k. byte_of (cells_of frame.now k)) at width }
    ensures bound { IfSome result (λ n. n < 256 ^ width) }
{
    if width == 0 {
        return Some(0);
    }
    let low = byte(cell_at(frame, at))?;
    let high = number_in_frame(frame, at + 1, width - 1)?;
    Some(joined(low, high, width))
}

fn is_same_reference(r: Reference, s: Reference) -> bool
    ensures { result ≡ is_same r s }
{
    match (r, s) {
        (Reference::Ctx(o), Reference::Ctx(p)) => o == p,
        (Reference::Frame(o), Reference::Frame(p)) => o == p,
        (Reference::MapRef(m), Reference::MapRef(n)) => m == n,
        (Reference::Elem(n, o), Reference::Elem(m, p)) => n == m && o == p,
        _ => false,
    }
}

fn is_part(i: u8, r: Reference, cell: Cell) -> bool
    ensures { result ≡ is_part_of i r cell }
{
    match cell {
        Cell::Part(j, s) => i == j && is_same_reference(r, s),
        _ => false,
    }
}

/// Whether so many cells are parts of the reference, from part i on.
fn are_parts(i: u8, r: Reference, frame: &[Cell], at: usize, n: u8) -> bool
    requires parts { i + n ≤ 8 }
    requires small { at + n ≤ 2 * FRAME_BYTES }
    ensures { result ≡ are_parts_of i r (cells_of frame.now) at n }
{
    if n == 0 {
        return true;
    }
    is_part(i, r, cell_at(frame, at)) && are_parts(i + 1, r, frame, at + 1, n - 1)
}

/// What a load of so many bytes finds.
pub(crate) fn read(frame: &[Cell], at: usize, width: Width) -> Option<Value>
    requires { at ≤ FRAME_BYTES }
    ensures { result ≡ read_from (cells_of frame.now) at (byte_count width) }
{
    let width = width.bytes();
    match cell_at(frame, at) {
        Cell::Unwritten => None,
        Cell::Byte(_) => match number_in_frame(frame, at, width) {
            Some(n) => Some(Value::Number(n)),
            None => None,
        },
        Cell::Part(_, r) => {
            if width == 8 && are_parts(0, r, frame, at, 8) {
                Some(Value::Pointer(r))
            } else {
                None
            }
        }
    }
}

fn write_number(frame: &mut [Cell], at: usize, width: usize, n: u64)
    requires { at + width ≤ length frame.old }
    ensures { (k : ℕ) → cells_of frame.new k
        ≡ (if is_within at width k then cells.Byte (n / 256 ^ (k - at) % 256) else cells_of
        frame.old k) }
{
    let mut rest = n;
    for i in 0..width {
        frame[at + i] = Cell::Byte((rest % 256) as u8);
        rest /= 256;
    }
}

fn write_reference(frame: &mut [Cell], at: usize, r: Reference)
    requires { at + 8 ≤ length frame.old }
    ensures { (k : ℕ) → cells_of frame.new k
        ≡ (if is_within at 8 k then cells.Part (k - at) r else cells_of frame.old k) }
{
    for i in 0..8 {
        frame[at + usize::from(i)] = Cell::Part(i, r);
    }
}

/// Writes a value, and says whether it could.
pub(crate) fn write(frame: &mut [Cell], at: usize, width: Width, v: Value) -> bool
    requires { at + byte_count width ≤ length frame.old }
    ensures { WritesFrame at (byte_count width) v frame.old result frame.new }
{
    match v {
        Value::Number(n) => {
            write_number(frame, at, width.bytes(), n);
            true
        }
        Value::Pointer(r) if width == Width::Eight => {
            write_reference(frame, at, r);
            true
        }
        _ => false,
    }
}

//! Eight bytes of program text, by their fields (RFC 9669, section 3.1).

/// The fields of a slot, as they stand.
#[derive(Clone, Copy, Debug, PartialEq, Eq)]
pub struct Slot {
    pub opcode: u8,
    /// The low nibble of the second byte, 0 to 15.
    pub dst: u8,
    /// The high nibble of the second byte, 0 to 15.
    pub src: u8,
    pub offset: i16,
    pub imm: i32,
}

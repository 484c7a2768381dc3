//! Where memory stands among the words: regions begin at multiples of `SPAN`, first the context,
//! the frame and the maps themselves, then the map slots.

/// Regions begin at multiples of this.
pub const SPAN: u64 = 1 << 31;

/// The word of the context's first byte.
pub const CTX_BASE: u64 = 1 << 40;

/// The word of the frame's first byte.
pub const FRAME_BASE: u64 = 1 << 41;

/// The word of the first map.
pub const MAP_BASE: u64 = 1 << 42;

/// The word of the first byte of map slot 0 of map 0.
pub const SLOT_BASE: u64 = 1 << 43;

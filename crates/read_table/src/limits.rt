//! How large a table may be.

/// The most slots of a table.
pub const MAX_TABLE_SLOTS: usize = 256;

/// The most readers of a table.
pub const MAX_READERS: usize = 8;

/// How many bytes a word has.
pub const WORD_BYTES: usize = 8;

/// The longest key and the longest value, in bytes. Each is of whole words.
pub const MAX_TABLE_BYTES: usize = 64;

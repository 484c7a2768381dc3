//! How large a table may be.

/// The most readers of a table.
pub const MAX_READERS: usize = 64;

/// The most elements of a table.
pub const MAX_ELEMENTS: usize = 1 << 24;

/// The most buckets of a table.
pub const MAX_BUCKETS: usize = 1 << 24;

/// The most words of a key, and the most of a value.
pub const MAX_WORDS: usize = 8;

/// How many ways a bucket has.
pub const BUCKET_WAYS: usize = 8;

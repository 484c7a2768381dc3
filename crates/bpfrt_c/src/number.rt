//! What a call answers: 0 or more, or a negative number of errno's (POSIX, errno.h; Linux, errno-base.h and errno.h).

/// There is no such element.
pub const ENOENT: i32 = -2;

/// No program or map has the number.
pub const ENXIO: i32 = -6;

/// The handle holds nothing, or something else.
pub const EBADF: i32 = -9;

/// Memory ran out.
pub const ENOMEM: i32 = -12;

/// The verifier refuses the program.
pub const EACCES: i32 = -13;

/// The handle holds something already; or the run has not exited.
pub const EBUSY: i32 = -16;

/// There is such an element.
pub const EEXIST: i32 = -17;

/// Too few elements of the table are free, or none of its seats.
pub const ENOSPC: i32 = -28;

/// An argument is none that the call takes.
pub const EINVAL: i32 = -22;

/// The program names a map, so it runs in a world or over a table alone; or it stores less than a word or changes a map, so it
/// runs in a world alone.
pub const EOPNOTSUPP: i32 = -95;

/// No run has the number, or it has ended.
pub const ESRCH: i32 = -3;

/// The world has as many programs as it may have; or both buckets of a table's key are full, and no element there can be moved.
pub const E2BIG: i32 = -7;

/// Every run slot of the world is occupied; or a run inside a section holds up the move that would make room in a table.
pub const EAGAIN: i32 = -11;

//! The programs of the tests.

/// Each by its name, as lines of the assembly language parted by semicolons, below a comment.
pub static PROGRAMS: &str = "\
# Exits with 1.
EXIT_ONE: mov64 r0, 1; exit
# In a section, the value of key 0, or 0.
LOOKUP: mov64 r6, 0; callbtf 1; stw [r10-4], 0; mov64 r2, r10; add64 r2, -4; \
ldmap r1, 0; call 1; jeq r0, 0, +1; ldxdw r6, [r0+0]; callbtf 2; mov64 r0, r6; exit
# The value of key 0 is set to 9.
STORE_NINE: mov64 r6, 0; callbtf 1; stw [r10-4], 0; mov64 r2, r10; \
add64 r2, -4; ldmap r1, 0; call 1; jeq r0, 0, +1; stdw [r0+0], 9; callbtf 2; mov64 r0, r6; exit
# No test for null stands before the load.
UNGUARDED: mov64 r6, 0; callbtf 1; stw [r10-4], 0; mov64 r2, r10; \
add64 r2, -4; ldmap r1, 0; call 1; ldxdw r6, [r0+0]; callbtf 2; mov64 r0, r6; exit
# A lookup in no section.
UNLOCKED: mov64 r6, 0; stw [r10-4], 0; mov64 r2, r10; add64 r2, -4; ldmap r1, 0; \
call 1; jeq r0, 0, +1; ldxdw r6, [r0+0]; mov64 r0, r6; exit
# A pointer is spilled to the frame, loaded again, and the value behind it is loaded.
SPILLED: mov64 r6, 0; callbtf 1; stw [r10-4], 0; mov64 r2, r10; add64 r2, -4; \
ldmap r1, 0; call 1; jeq r0, 0, +3; stxdw [r10-16], r0; ldxdw r7, [r10-16]; ldxdw r6, [r7+0]; \
callbtf 2; mov64 r0, r6; exit
# A pointer to a value is kept over the unlock, and loaded from after it.
KEPT: callbtf 1; stw [r10-4], 0; mov64 r2, r10; add64 r2, -4; ldmap r1, 0; \
call 1; jne r0, 0, +3; callbtf 2; mov64 r0, 0; exit; mov64 r7, r0; callbtf 2; ldxdw r0, [r7+0]; exit
# A pointer to a value is kept over the unlock, and loaded from after a second lock.
KEPT_RELOCKED: callbtf 1; stw [r10-4], 0; mov64 r2, r10; add64 r2, -4; \
ldmap r1, 0; call 1; jne r0, 0, +3; callbtf 2; mov64 r0, 0; exit; mov64 r7, r0; callbtf 2; \
callbtf 1; ldxdw r0, [r7+0]; exit
# A pointer is spilled, loaded again after the unlock, and the value behind it is loaded.
SPILL_KEPT: callbtf 1; stw [r10-4], 0; mov64 r2, r10; add64 r2, -4; ldmap r1, 0; \
call 1; jne r0, 0, +3; callbtf 2; mov64 r0, 0; exit; stxdw [r10-16], r0; callbtf 2; \
ldxdw r7, [r10-16]; ldxdw r0, [r7+0]; exit
# The byte of key 0's value whose offset is a byte of the context below 8.
BYTE_BELOW_8: ldxb r6, [r1+0]; and64 r6, 7; callbtf 1; stw [r10-4], 0; \
mov64 r2, r10; add64 r2, -4; ldmap r1, 0; call 1; jne r0, 0, +3; callbtf 2; mov64 r0, 0; exit; \
add64 r0, r6; ldxb r6, [r0+0]; callbtf 2; mov64 r0, r6; exit
# The byte of key 0's value at the offset 0 or 8: the last may be past the value.
BYTE_AT_8: ldxb r6, [r1+0]; and64 r6, 8; callbtf 1; stw [r10-4], 0; \
mov64 r2, r10; add64 r2, -4; ldmap r1, 0; call 1; jne r0, 0, +3; callbtf 2; mov64 r0, 0; exit; \
add64 r0, r6; ldxb r6, [r0+0]; callbtf 2; mov64 r0, r6; exit
# Two bytes at an offset that may be odd.
TWO_AT_ODD: ldxb r6, [r1+0]; and64 r6, 5; callbtf 1; stw [r10-4], 0; \
mov64 r2, r10; add64 r2, -4; ldmap r1, 0; call 1; jne r0, 0, +3; callbtf 2; mov64 r0, 0; exit; \
add64 r0, r6; ldxh r6, [r0+0]; callbtf 2; mov64 r0, r6; exit
# Two bytes at an even offset.
TWO_AT_EVEN: ldxb r6, [r1+0]; and64 r6, 6; callbtf 1; stw [r10-4], 0; \
mov64 r2, r10; add64 r2, -4; ldmap r1, 0; call 1; jne r0, 0, +3; callbtf 2; mov64 r0, 0; exit; \
add64 r0, r6; ldxh r6, [r0+0]; callbtf 2; mov64 r0, r6; exit
# An offset of 64 bits, of which only the low half is bounded.
NARROW_BOUND: ldxdw r6, [r1+0]; jgt32 r6, 7, +11; callbtf 1; stw [r10-4], 0; \
mov64 r2, r10; add64 r2, -4; ldmap r1, 0; call 1; jeq r0, 0, +2; add64 r0, r6; ldxb r7, [r0+0]; \
callbtf 2; mov64 r0, 0; exit
# An offset of 64 bits, bounded as a whole.
WIDE_BOUND: ldxdw r6, [r1+0]; jgt r6, 7, +11; callbtf 1; stw [r10-4], 0; \
mov64 r2, r10; add64 r2, -4; ldmap r1, 0; call 1; jeq r0, 0, +2; add64 r0, r6; ldxb r7, [r0+0]; \
callbtf 2; mov64 r0, 0; exit
# Two lookups of one key, the second where a byte of the context is not 0; the first result is tested,
# and what the second gave is loaded from.
OTHER_LOOKUP: ldxb r8, [r1+0]; callbtf 1; stw [r10-4], 0; mov64 r2, r10; \
add64 r2, -4; ldmap r1, 0; call 1; mov64 r6, r0; mov64 r7, r0; jeq r8, 0, +6; mov64 r2, r10; \
add64 r2, -4; ldmap r1, 0; call 1; mov64 r7, r0; jeq r6, 0, +1; ldxdw r0, [r7+0]; callbtf 2; \
mov64 r0, 0; exit
# Two lookups of one key, the second where a byte of the context is not 0; the first result is tested, and loaded
# from.
SAME_LOOKUP: ldxb r8, [r1+0]; callbtf 1; stw [r10-4], 0; mov64 r2, r10; \
add64 r2, -4; ldmap r1, 0; call 1; mov64 r6, r0; mov64 r7, r0; jeq r8, 0, +6; mov64 r2, r10; \
add64 r2, -4; ldmap r1, 0; call 1; mov64 r7, r0; jeq r6, 0, +1; ldxdw r0, [r6+0]; callbtf 2; \
mov64 r0, 0; exit
# The helper's update of key 0 by value 7; the result is the exit value.
UPDATE: stw [r10-4], 0; stdw [r10-16], 7; mov64 r2, r10; add64 r2, -4; \
mov64 r3, r10; add64 r3, -16; mov64 r4, 0; ldmap r1, 0; call 2; exit
# The helper's update of key 0 by value 7, if the key is not there; the result is the exit value.
UPDATE_NEW: stw [r10-4], 0; stdw [r10-16], 7; mov64 r2, r10; add64 r2, -4; \
mov64 r3, r10; add64 r3, -16; mov64 r4, 1; ldmap r1, 0; call 2; exit
# The helper's deletion of key 0; the result is the exit value.
DELETE: stw [r10-4], 0; mov64 r2, r10; add64 r2, -4; ldmap r1, 0; call 3; exit
# The value of the key of the context's first byte, or 0.
LOAD: ldxb r7, [r1+0]; stxw [r10-4], r7; mov64 r6, 0; callbtf 1; mov64 r2, r10; \
add64 r2, -4; ldmap r1, 0; call 1; jeq r0, 0, +1; ldxdw r6, [r0+0]; callbtf 2; mov64 r0, r6; exit
# One is added to the value of the key, in its place.
ADD_ONE: ldxb r7, [r1+0]; stxw [r10-4], r7; mov64 r6, 0; callbtf 1; \
mov64 r2, r10; add64 r2, -4; ldmap r1, 0; call 1; jeq r0, 0, +3; ldxdw r6, [r0+0]; add64 r6, 1; \
stxdw [r0+0], r6; callbtf 2; mov64 r0, r6; exit
# The helper's update of a key of 8 bytes by a value of 16, with flags 0 to 3 of the context.
PUT: ldxb r7, [r1+0]; ldxb r8, [r1+1]; ldxb r9, [r1+2]; and64 r9, 3; \
stxdw [r10-8], r7; stxdw [r10-24], r8; stxdw [r10-16], r7; mov64 r2, r10; add64 r2, -8; \
mov64 r3, r10; add64 r3, -24; mov64 r4, r9; ldmap r1, 0; call 2; exit
# The helper's deletion of a key in the second map of the list.
REMOVE: ldxb r7, [r1+0]; stxw [r10-4], r7; mov64 r2, r10; add64 r2, -4; \
ldmap r1, 1; call 3; exit
# In one section a pointer is spilled, its key deleted, and the pointer read back and loaded from.
SPILL_REMOVE: ldxb r7, [r1+0]; stxw [r10-4], r7; callbtf 1; mov64 r2, r10; \
add64 r2, -4; ldmap r1, 0; call 1; mov64 r6, 0; jeq r0, 0, +8; stxdw [r10-16], r0; mov64 r2, r10; \
add64 r2, -4; ldmap r1, 0; call 3; ldxdw r9, [r10-16]; ldxdw r6, [r9+0]; callbtf 2; mov64 r0, r6; exit
# The byte of a value of 16 whose offset is the low half of a byte of the context.
BYTE_OF_16: ldxb r7, [r1+0]; ldxb r8, [r1+1]; and64 r8, 15; stxdw [r10-8], r7; \
mov64 r6, 0; callbtf 1; mov64 r2, r10; add64 r2, -8; ldmap r1, 0; call 1; jeq r0, 0, +2; \
add64 r0, r8; ldxb r6, [r0+0]; callbtf 2; mov64 r0, r6; exit
# A byte of the context is stored into a value of 16, at the offset that the low half of another byte is.
STORE_BYTE: ldxb r7, [r1+0]; ldxb r8, [r1+1]; ldxb r9, [r1+2]; and64 r8, 15; \
stxdw [r10-8], r7; callbtf 1; mov64 r2, r10; add64 r2, -8; ldmap r1, 0; call 1; mov64 r6, 0; \
jeq r0, 0, +3; add64 r0, r8; stxb [r0+0], r9; mov64 r6, 1; callbtf 2; mov64 r0, r6; exit
# The sum of the values of one key in two maps.
TWO_MAPS: ldxb r7, [r1+0]; stxw [r10-4], r7; mov64 r6, 0; callbtf 1; \
mov64 r2, r10; add64 r2, -4; ldmap r1, 0; call 1; mov64 r9, r0; mov64 r2, r10; add64 r2, -4; \
ldmap r1, 1; call 1; jeq r0, 0, +1; ldxdw r6, [r0+0]; jeq r9, 0, +2; ldxdw r8, [r9+0]; \
add64 r6, r8; callbtf 2; mov64 r0, r6; exit
# A present key gets a value that is greater by 256; who holds the old element loads the old value.
REPLACE: ldxb r7, [r1+0]; stxw [r10-4], r7; callbtf 1; mov64 r2, r10; \
add64 r2, -4; ldmap r1, 0; call 1; mov64 r6, 0; jeq r0, 0, +13; mov64 r9, r0; ldxdw r8, [r9+0]; \
add64 r8, 256; stxdw [r10-16], r8; mov64 r2, r10; add64 r2, -4; mov64 r3, r10; add64 r3, -16; \
mov64 r4, 2; ldmap r1, 0; call 2; ldxdw r6, [r9+0]; callbtf 2; mov64 r0, r6; exit
# A lookup inside two sections, whose element is read after the inner one was left.
NESTED: mov64 r6, 0; callbtf 1; callbtf 1; stw [r10-4], 0; mov64 r2, r10; \
add64 r2, -4; ldmap r1, 0; call 1; mov64 r7, r0; callbtf 2; jeq r7, 0, +1; ldxdw r6, [r7+0]; \
callbtf 2; mov64 r0, r6; exit
# Nine locks, one inside the other.
NINE_LOCKS: callbtf 1; callbtf 1; callbtf 1; callbtf 1; callbtf 1; callbtf 1; \
callbtf 1; callbtf 1; callbtf 1; mov64 r0, 0; exit
# The value of a key, read after two inner sections were left and before the outer one is.
NESTED_LOAD: ldxb r7, [r1+0]; stxw [r10-4], r7; mov64 r6, 0; callbtf 1; callbtf 1; \
mov64 r2, r10; add64 r2, -4; ldmap r1, 0; call 1; mov64 r9, r0; callbtf 2; callbtf 1; callbtf 2; \
jeq r9, 0, +1; ldxdw r6, [r9+0]; callbtf 2; mov64 r0, r6; exit
# An array's element 0 is looked up outside every section, and loaded from.
IN_ARRAY: mov64 r6, 0; stw [r10-4], 0; mov64 r2, r10; add64 r2, -4; ldmap r1, 0; \
call 1; jeq r0, 0, +1; ldxdw r6, [r0+0]; mov64 r0, r6; exit
# A byte of the context is the index of an array's element, whose value is read, added to and read again, outside
# every section.
ADD_IN_ARRAY: ldxb r7, [r1+0]; ldxb r8, [r1+1]; stxw [r10-4], r7; mov64 r6, 0; \
mov64 r2, r10; add64 r2, -4; ldmap r1, 0; call 1; jeq r0, 0, +4; ldxdw r6, [r0+0]; add64 r6, r8; \
stxdw [r0+0], r6; ldxdw r6, [r0+0]; mov64 r0, r6; exit
# An array's element that is held over a lock, an update of it and the unlock is read after them.
HELD_IN_ARRAY: ldxb r7, [r1+0]; ldxb r8, [r1+2]; stxw [r10-4], r7; stxdw [r10-16], r8; \
mov64 r2, r10; add64 r2, -4; ldmap r1, 0; call 1; mov64 r9, r0; callbtf 1; mov64 r2, r10; add64 r2, -4; \
mov64 r3, r10; add64 r3, -16; mov64 r4, 0; ldmap r1, 0; call 2; mov64 r6, r0; callbtf 2; jeq r9, 0, +1; \
ldxdw r6, [r9+0]; mov64 r0, r6; exit
";

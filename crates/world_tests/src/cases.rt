//! Lists of events with the answers that they must have, worked out by hand, below the maps and programs of a machine; and what
//! worlds are asked outside of events.
use crate::making::Setup;
use std::alloc::Global;
use std::test::Fail;

/// Blocks, parted by empty lines: what `Setup::read` takes, a line `events`, and events with their answers. Where a program is one
/// that can be stuck, and so is refused, the reference model alone goes through the events.
static CASES: &str = "\
# An update's tests in their order.
map 4 8 1 0 2
map 4 8 1 0 2
prog 0 0: EXIT_ONE
events
put 0 00000000 0500000000000000 0 = ret 0
put 0 00000000 0600000000000000 1 = ret -17
put 0 01000000 0600000000000000 2 = ret -2
put 0 00000000 0600000000000000 3 = ret -22
put 0 01000000 0600000000000000 0 = ret -7
put 0 00000000 0600000000000000 0 = ret -12
get 0 00000000 = value 0500000000000000
del 0 01000000 = ret -2

# A map slot is worn after its second use.
map 4 8 1 0 2
map 4 8 1 0 2
prog 0 0: EXIT_ONE
events
put 0 00000000 0500000000000000 0 = ret 0
del 0 00000000 = ret 0
advance = ok
advance = ok
reap = reaped 0 00000000 free
put 0 00000000 0500000000000000 0 = ret 0
del 0 00000000 = ret 0
advance = ok
advance = ok
reap = reaped 0 00000000 worn
put 0 00000000 0500000000000000 0 = ret -12
stat = linked 0 unlinked 0 given 2 worn 1 runs 0 open 0

# An open section holds an element.
map 4 8 4 4 100
map 4 8 4 4 100
prog 0 0: LOOKUP
events
put 0 00000000 0500000000000000 0 = ret 0
start 0 - = run 0
step 0 7 = moved
del 0 00000000 = ret 0
advance = ok
reap = none
step 0 2 = moved
step 0 1 = moved
advance = ok
reap = reaped 0 00000000 free
step 0 2 = exit 5

# An element that is unlinked in a grace period waits for the next one.
map 4 8 4 4 100
map 4 8 4 4 100
prog 0 0: LOOKUP
events
put 0 00000000 0500000000000000 0 = ret 0
put 0 01000000 0600000000000000 0 = ret 0
start 0 - = run 0
step 0 2 = moved
del 0 00000000 = ret 0
advance = ok
start 0 - = run 1
step 1 2 = moved
del 0 01000000 = ret 0
step 0 7 = moved
advance = ok
reap = reaped 0 00000000 free
reap = none
advance = ok
reap = none
step 1 7 = moved
advance = ok
reap = reaped 0 01000000 free
stat = linked 0 unlinked 0 given 2 worn 0 runs 2 open 0

# Who holds an element sees its own value.
map 4 8 4 4 100
map 4 8 4 4 100
prog 0 0: LOOKUP
events
put 0 00000000 0500000000000000 0 = ret 0
start 0 - = run 0
step 0 7 = moved
put 0 00000000 0600000000000000 0 = ret 0
get 0 00000000 = value 0600000000000000
step 0 5 = exit 5
stat = linked 1 unlinked 1 given 0 worn 0 runs 1 open 0
drop 0 = ok
drop 0 = refused 60

# Each refusal is that of the first test that fails.
map 4 8 4 4 100
map 4 8 4 4 100
prog 0 0: EXIT_ONE
events
step 0 1 = refused 60
step 64 1 = refused 60
drop 64 = refused 60
start 1 00 = refused 62
start 0 00 = refused 63
put 2 00000000 0500000000000000 9 = refused 65
del 2 00000000 = refused 65
get 2 00000000 = refused 65
put 0 00000000 - 0 = refused 66
del 0 000000 = refused 66
get 0 0000000000 = refused 66
get 1 00000000 = none
stat = linked 0 unlinked 0 given 0 worn 0 runs 0 open 0

# A held element outlives two updates.
map 4 8 4 4 100
map 4 8 4 4 100
prog 0 0: LOOKUP
events
put 0 00000000 0500000000000000 0 = ret 0
start 0 - = run 0
step 0 7 = moved
put 0 00000000 0600000000000000 0 = ret 0
put 0 00000000 0700000000000000 0 = ret 0
advance = ok
advance = ok
reap = none
stat = linked 1 unlinked 2 given 0 worn 0 runs 1 open 1
get 0 00000000 = value 0700000000000000
step 0 5 = exit 5
advance = ok
reap = reaped 0 00000000 free
reap = reaped 0 00000000 free
reap = none

# A reap takes the first of the lowest map.
map 4 8 4 4 100
map 4 8 4 4 100
prog 0 0: EXIT_ONE
events
put 1 03000000 0100000000000000 0 = ret 0
put 0 02000000 0100000000000000 0 = ret 0
put 0 01000000 0100000000000000 0 = ret 0
del 1 03000000 = ret 0
del 0 02000000 = ret 0
del 0 01000000 = ret 0
advance = ok
reap = none
advance = ok
reap = reaped 0 02000000 free
reap = reaped 0 01000000 free
reap = reaped 1 03000000 free
reap = none

# A lookup that is guarded.
map 4 8 4 4 100
map 4 8 4 4 100
prog 0 0: LOOKUP
events
put 0 00000000 0500000000000000 0 = ret 0
start 0 - = run 0
step 0 11 = moved
step 0 1 = exit 5

# A lookup that finds nothing.
map 4 8 4 4 100
map 4 8 4 4 100
prog 0 0: LOOKUP
events
start 0 - = run 0
step 0 10 = moved
step 0 1 = exit 0

# A store to an element.
map 4 8 4 4 100
map 4 8 4 4 100
prog 0 0: STORE_NINE
events
put 0 00000000 0500000000000000 0 = ret 0
start 0 - = run 0
step 0 11 = moved
step 0 1 = exit 0
get 0 00000000 = value 0900000000000000

# A pointer that is spilled.
map 4 8 4 4 100
map 4 8 4 4 100
prog 0 0: SPILLED
events
put 0 00000000 0500000000000000 0 = ret 0
start 0 - = run 0
step 0 14 = exit 5

# Null is loaded from.
map 4 8 4 4 100
map 4 8 4 4 100
prog 0 0: UNGUARDED = refused 32 at Some(8)
events
start 0 - = run 0
step 0 7 = moved
step 0 1 = Stuck

# Nothing holds an element that is looked up outside a section.
map 4 8 4 4 100
map 4 8 4 4 100
prog 0 0: UNLOCKED = refused 33 at Some(6)
events
put 0 00000000 0500000000000000 0 = ret 0
start 0 - = run 0
step 0 6 = moved
del 0 00000000 = ret 0
advance = ok
advance = ok
reap = reaped 0 00000000 free
step 0 2 = Stuck

# Nothing holds an element whose pointer is kept over an unlock.
map 4 8 4 4 100
map 4 8 4 4 100
prog 0 0: KEPT = refused 33 at Some(13)
events
put 0 00000000 0500000000000000 0 = ret 0
start 0 - = run 0
step 0 9 = moved
del 0 00000000 = ret 0
advance = ok
advance = ok
reap = reaped 0 00000000 free
step 0 1 = Stuck

# A second section does not hold it.
map 4 8 4 4 100
map 4 8 4 4 100
prog 0 0: KEPT_RELOCKED = refused 33 at Some(14)
events
put 0 00000000 0500000000000000 0 = ret 0
start 0 - = run 0
step 0 9 = moved
del 0 00000000 = ret 0
advance = ok
advance = ok
reap = reaped 0 00000000 free
step 0 2 = Stuck

# A spilled pointer does not outlive its element.
map 4 8 4 4 100
map 4 8 4 4 100
prog 0 0: SPILL_KEPT = refused 33 at Some(13)
events
put 0 00000000 0500000000000000 0 = ret 0
start 0 - = run 0
step 0 9 = moved
del 0 00000000 = ret 0
advance = ok
advance = ok
reap = reaped 0 00000000 free
step 0 1 = moved
step 0 1 = Stuck

# The test of one lookup says nothing of another.
map 4 8 4 4 100
map 4 8 4 4 100
prog 1 0: OTHER_LOOKUP = refused 32 at Some(18)
events
put 0 00000000 0500000000000000 0 = ret 0
start 0 01 = run 0
step 0 9 = moved
del 0 00000000 = ret 0
step 0 8 = Stuck

# The test of a lookup tells of that lookup.
map 4 8 4 4 100
map 4 8 4 4 100
prog 1 0: SAME_LOOKUP
events
put 0 00000000 0500000000000000 0 = ret 0
start 0 01 = run 0
step 0 9 = moved
del 0 00000000 = ret 0
step 0 8 = moved

# A narrow test does not bound the upper half.
map 4 8 4 4 100
map 4 8 4 4 100
prog 8 0: NARROW_BOUND = refused 25 at Some(10)
events
put 0 00000000 0500000000000000 0 = ret 0
start 0 0000000001000000 = run 0
step 0 10 = moved
step 0 1 = Stuck

# A test of 64 bits bounds the whole number.
map 4 8 4 4 100
map 4 8 4 4 100
prog 8 0: WIDE_BOUND
events
put 0 00000000 0500000000000000 0 = ret 0
start 0 0101010101010101 = run 0
step 0 11 = exit 0

# An offset below the value's length.
map 4 8 4 4 100
map 4 8 4 4 100
prog 1 0: BYTE_BELOW_8
events
put 0 00000000 0001020304050607 0 = ret 0
start 0 0b = run 0
step 0 13 = moved
step 0 1 = exit 3

# An offset past the value.
map 4 8 4 4 100
map 4 8 4 4 100
prog 1 0: BYTE_AT_8 = refused 27 at Some(14)
events
put 0 00000000 0500000000000000 0 = ret 0
start 0 08 = run 0
step 0 9 = moved
step 0 1 = moved
step 0 1 = Stuck

# An access that is not aligned.
map 4 8 4 4 100
map 4 8 4 4 100
prog 1 0: TWO_AT_ODD = refused 28 at Some(14)
events
put 0 00000000 0500000000000000 0 = ret 0
start 0 05 = run 0
step 0 10 = moved
step 0 1 = Stuck

# An access that is aligned.
map 4 8 4 4 100
map 4 8 4 4 100
prog 1 0: TWO_AT_EVEN
events
put 0 00000000 0500000000000000 0 = ret 0
start 0 06 = run 0
step 0 14 = exit 0

# The ninth lock.
map 4 8 4 4 100
map 4 8 4 4 100
prog 0 0: NINE_LOCKS = refused 34 at Some(8)
events
start 0 - = run 0
step 0 8 = moved
step 0 1 = Stuck

# A section ends at its outermost unlock: what the run holds is reclaimed after it, not before.
map 4 8 4 4 100
map 4 8 4 4 100
prog 0 0: NESTED
events
put 0 00000000 0500000000000000 0 = ret 0
start 0 - = run 0
step 0 10 = moved
del 0 00000000 = ret 0
advance = ok
advance = ok
reap = none
step 0 2 = moved
step 0 1 = moved
advance = ok
reap = reaped 0 00000000 free
step 0 2 = exit 5

# The tests of an array's update, in their order; its elements are there from the start, and for good.
map array 8 2
map array 8 2
prog 0 0: EXIT_ONE
events
get 0 00000000 = value 0000000000000000
put 0 01000000 0500000000000000 2 = ret 0
put 0 00000000 0500000000000000 1 = ret -17
put 0 02000000 0500000000000000 1 = ret -7
put 0 02000000 0500000000000000 3 = ret -22
get 0 02000000 = none
del 0 00000000 = ret -22
del 0 02000000 = ret -22
del 0 00 = refused 66
get 0 00000000 = value 0000000000000000
get 0 01000000 = value 0500000000000000
reap = none
stat = linked 4 unlinked 0 given 0 worn 0 runs 0 open 0

# A run holds an array's element outside every section, and sees an update of it.
map array 8 2
map array 8 2
prog 0 0: IN_ARRAY
events
start 0 - = run 0
step 0 6 = moved
put 0 00000000 0500000000000000 0 = ret 0
step 0 4 = exit 5

# An unlock outside one.
map 4 8 4 4 100
map 4 8 4 4 100
prog 0 0: mov64 r0, 0; callbtf 2; exit = refused 34 at Some(1)
events
start 0 - = run 0
step 0 1 = moved
step 0 1 = Stuck

# A helper that is none.
map 4 8 4 4 100
map 4 8 4 4 100
prog 0 0: mov64 r0, 0; call 4; exit = refused 35 at Some(1)
events
start 0 - = run 0
step 0 1 = moved
step 0 1 = Stuck

# After a lock r0 holds nothing.
map 4 8 4 4 100
map 4 8 4 4 100
prog 0 0: callbtf 1; mov64 r1, r0; callbtf 2; mov64 r0, 0; exit = refused 23 at Some(1)
events
start 0 - = run 0
step 0 1 = moved
step 0 1 = Stuck

# A lookup whose arguments hold nothing.
map 4 8 4 4 100
map 4 8 4 4 100
prog 0 0: callbtf 1; mov64 r7, r10; call 1; callbtf 2; mov64 r0, 0; exit = refused 23 at Some(2)
events
start 0 - = run 0
step 0 2 = moved
step 0 1 = Stuck

# An exit inside a section.
map 4 8 4 4 100
map 4 8 4 4 100
prog 0 0: callbtf 1; mov64 r0, 0; exit = refused 34 at Some(2)
events
start 0 - = run 0
step 0 2 = moved
step 0 1 = Stuck

# The helpers update and delete.
map 4 8 4 4 100
map 4 8 4 4 100
prog 0 0: UPDATE
events
start 0 - = run 0
step 0 10 = exit 0
get 0 00000000 = value 0700000000000000

# An error of a helper is a negative number of 64 bits.
map 4 8 4 4 100
map 4 8 4 4 100
prog 0 0: UPDATE_NEW
events
put 0 00000000 0500000000000000 0 = ret 0
start 0 - = run 0
step 0 10 = exit 18446744073709551599
get 0 00000000 = value 0500000000000000
stat = linked 1 unlinked 0 given 0 worn 0 runs 1 open 0

# A deletion unlinks.
map 4 8 4 4 100
map 4 8 4 4 100
prog 0 0: DELETE
events
put 0 00000000 0500000000000000 0 = ret 0
start 0 - = run 0
step 0 10 = exit 0
get 0 00000000 = none
advance = ok
advance = ok
reap = reaped 0 00000000 free

# rate_limit of examples/c, as clang compiled it. What it is answered was computed by examples/c/native.
map 8 16 4096 512 100000
code 24 0: 7912000000000000 7b2af8ff00000000 7112140000000000 1602080000000000 0500000000000000 \
bfa2000000000000 07020000f8ffffff 1851000000000000 0000000000000000 8500000003000000 \
bf06000000000000 05002d0000000000 7916080000000000 6117100000000000 8520000001000000 \
bfa2000000000000 07020000f8ffffff 1851000000000000 0000000000000000 8500000001000000 \
5500120000000000 0500000000000000 7b6af0ff00000000 b7010000e8030000 7b1ae8ff00000000 \
8520000002000000 bfa2000000000000 07020000f8ffffff bfa3000000000000 07030000e8ffffff \
1851000000000000 0000000000000000 b704000000000000 8500000002000000 b406000001000000 \
1500020000000000 b406000000000000 0500130000000000 0500120000000000 7902080000000000 \
bf61000000000000 1f21000000000000 7701000004000000 7902000000000000 0f21000000000000 \
7b60080000000000 a5010100e8030000 b7010000e8030000 b406000001000000 3d71010000000000 \
b406000000000000 b702000000000000 ad71010000000000 bf72000000000000 1f21000000000000 \
7b10000000000000 8520000002000000 bf60000000000000 9500000000000000
events
start 0 4d00000000000000e8030000000000000500000000000000 = run 0
step 0 4096 = exit 1
drop 0 = ok
start 0 4d00000000000000e8030000000000005802000000000000 = run 0
step 0 4096 = exit 1
drop 0 = ok
start 0 4d00000000000000f8030000000000009201000000000000 = run 0
step 0 4096 = exit 0
drop 0 = ok
start 0 4d0000000000000008040000000000009101000000000000 = run 0
step 0 4096 = exit 1
drop 0 = ok
get 0 4d00000000000000 = value 01000000000000000804000000000000
start 0 4d0000000000000000000000000000000000000001000000 = run 0
step 0 4096 = exit 0
drop 0 = ok
start 0 4d0000000000000000000000000000000000000001000000 = run 0
step 0 4096 = exit 18446744073709551614
drop 0 = ok
get 0 4d00000000000000 = none
start 0 4d0000000000000063000000000000000100000000000000 = run 0
step 0 4096 = exit 1
drop 0 = ok
get 0 4d00000000000000 = value e8030000000000006300000000000000

# spilled of examples/c, as clang compiled it. What it is answered was computed by examples/c/native.
map 4 16 1000 100 1000
map 4 16 10 10 1000
code 32 0 1: bf16000000000000 6161000000000000 631afcff00000000 6161040000000000 631af8ff00000000 \
61610c0000000000 631af4ff00000000 6161080000000000 631af0ff00000000 7961180000000000 \
7b1ad8ff00000000 7961100000000000 7b1ae0ff00000000 8520000001000000 bfa2000000000000 \
07020000fcffffff 1851000000000000 0000000000000000 8500000001000000 bf07000000000000 \
bfa2000000000000 07020000f8ffffff 1851000000000000 0000000000000000 8500000001000000 \
bf08000000000000 bfa2000000000000 07020000f0ffffff 1851000001000000 0000000000000000 \
8500000001000000 7b0ae8ff00000000 bfa2000000000000 07020000f4ffffff 1851000001000000 \
0000000000000000 8500000001000000 b709000000000000 1507280000000000 0500000000000000 \
1508260000000000 0500000000000000 79a1e8ff00000000 1501230000000000 0500000000000000 \
1500210000000000 0500000000000000 79a3e0ff00000000 79a1d8ff00000000 2d131c0000000000 \
0500000000000000 7971000000000000 ad31190000000000 0500000000000000 1f31000000000000 \
7b17000000000000 7971080000000000 0f31000000000000 7b17080000000000 61a1f4ff00000000 \
1f13000000000000 7982000000000000 0f23000000000000 7b38000000000000 bc12000000000000 \
7402000001000000 79a4e8ff00000000 7943000000000000 0f23000000000000 7b34000000000000 \
1c21000000000000 7902000000000000 0f12000000000000 7b20000000000000 7961100000000000 \
7902080000000000 0f12000000000000 7b20080000000000 7979000000000000 8520000002000000 \
bf90000000000000 9500000000000000
events
put 0 01000000 f4010000000000000000000000000000 0 = ret 0
put 0 02000000 32000000000000000000000000000000 0 = ret 0
put 1 01000000 00000000000000000000000000000000 0 = ret 0
put 1 05000000 07000000000000000000000000000000 0 = ret 0
start 0 010000000200000001000000050000006400000000000000c800000000000000 = run 0
step 0 4096 = exit 400
drop 0 = ok
start 0 010000000200000001000000050000002c01000000000000c800000000000000 = run 0
step 0 4096 = exit 400
drop 0 = ok
start 0 020000000100000001000000050000009100000000000000c800000000000000 = run 0
step 0 4096 = exit 0
drop 0 = ok
start 0 010000000300000001000000050000000100000000000000c800000000000000 = run 0
step 0 4096 = exit 0
drop 0 = ok
start 0 0100000001000000010000000500000090010000000000009001000000000000 = run 0
step 0 4096 = exit 535
drop 0 = ok
get 0 01000000 = value 1702000000000000f401000000000000
get 0 02000000 = value 00000000000000009100000000000000
get 1 01000000 = value 06000000000000000000000000000000
get 1 05000000 = value 10000000000000008502000000000000

# An exit value is told of a run that has ended, of an equal program and context, and of no other. Run 0 has exited
# with 5, run 1 with 0, run 2 with 1, run 4 of the program for longer values with 0; run 3 is still running.
map 4 8 4 4 100
map 4 16 4 4 100
prog 1 0: LOAD
prog 1 0: EXIT_ONE
prog 1 1: LOAD
prog 1 0: LOAD
events
put 0 01000000 0500000000000000 0 = ret 0
start 0 01 = run 0
start 0 02 = run 1
start 1 01 = run 2
start 0 01 = run 3
step 0 20 = exit 5
step 1 20 = exit 0
step 2 20 = exit 1
step 3 20 = exit 5
drop 3 = ok
start 0 01 = run 3
step 3 9 = moved
start 2 01 = run 4
step 4 20 = exit 0
start 0 01 = run 5
step 5 20 = exit 5
drop 5 = ok
stat = linked 1 unlinked 0 given 0 worn 0 runs 5 open 1
exit_of 0 0 01 = Some(5)
exit_of 0 3 01 = Some(5)
exit_of 0 0 02 = None
exit_of 0 0 - = None
exit_of 0 1 01 = None
exit_of 0 2 01 = None
exit_of 1 0 02 = Some(0)
exit_of 1 0 01 = None
exit_of 2 1 01 = Some(1)
exit_of 2 0 01 = None
exit_of 3 0 01 = None
exit_of 4 2 01 = Some(0)
exit_of 4 0 01 = None
exit_of 5 0 01 = None
exit_of 6 0 01 = None
exit_of 63 0 01 = None
exit_of 64 0 01 = None

# Elements are told in the order of their keys' bytes, which is another than that in which they came. One was deleted, and one
# replaced.
map 4 8 4 4 100
map 4 8 4 4 100
events
put 0 00010000 0100000000000000 0 = ret 0
put 0 ff000000 0200000000000000 0 = ret 0
put 0 00000000 0300000000000000 0 = ret 0
put 0 00ff0000 0400000000000000 0 = ret 0
del 0 ff000000 = ret 0
put 0 000000ff 0500000000000000 0 = ret 0
put 0 00010000 0600000000000000 2 = ret 0
put 1 02000000 0700000000000000 0 = ret 0
above 0 - = 00000000 0300000000000000
above 0 00000000 = 000000ff 0500000000000000
above 0 000000ff = 00010000 0600000000000000
above 0 00010000 = 00ff0000 0400000000000000
above 0 00ff0000 = none
above 0 0000ff00 = 00010000 0600000000000000
above 0 ff000000 = none
above 1 - = 02000000 0700000000000000
above 1 02000000 = none
above 2 - = none
above 2 00000000 = none

# A copy answers as the original: beside it, and when that is gone. Run 0 is inside a section and has the element that is
# unlinked next, run 1 has ended. The unlinked element is read, and reclaimed once the section has ended.
map 4 8 4 4 100
map array 8 2
prog 0 0: LOOKUP
events
put 1 01000000 0900000000000000 0 = ret 0
put 0 00000000 0700000000000000 0 = ret 0
start 0 - = run 0
step 0 8 = moved
del 0 00000000 = ret 0
put 0 00000000 0800000000000000 0 = ret 0
start 0 - = run 1
step 1 20 = exit 8
stat = linked 3 unlinked 1 given 0 worn 0 runs 2 open 1
copy = ok
get 1 01000000 = value 0900000000000000
put 1 01000000 0a00000000000000 0 = ret 0
get 1 00000000 = value 0000000000000000
stat = linked 3 unlinked 1 given 0 worn 0 runs 2 open 1
advance = ok
advance = ok
reap = none
part = ok
step 0 2 = moved
advance = ok
reap = reaped 0 00000000 free
reap = none
step 0 2 = exit 7
drop 1 = ok
start 0 - = run 1
get 0 00000000 = value 0800000000000000
step 1 20 = exit 8
stat = linked 3 unlinked 0 given 1 worn 0 runs 2 open 0

# A program is added to a world while run 0 is inside a section and has an element. The world answers as the reference model,
# which has both from the start. The new program adds one to the element, which is unlinked then; run 0 still reads it.
map 4 8 4 4 100
prog 1 0: LOAD
later 1 0: ADD_ONE
events
put 0 01000000 0500000000000000 0 = ret 0
start 0 01 = run 0
step 0 8 = moved
stat = linked 1 unlinked 0 given 0 worn 0 runs 1 open 1
load = Some(1)
stat = linked 1 unlinked 0 given 0 worn 0 runs 1 open 1
get 0 01000000 = value 0500000000000000
start 1 01 = run 1
step 1 20 = exit 6
del 0 01000000 = ret 0
advance = ok
reap = none
step 0 20 = exit 6
advance = ok
reap = reaped 0 01000000 free
start 0 01 = run 2
step 2 20 = exit 0
start 1 01 = run 3
step 3 20 = exit 0
start 2 01 = refused 62
stat = linked 0 unlinked 0 given 1 worn 0 runs 4 open 0";

/// The maps and the programs of a block; and its events, with what they are answered.
fn played<'a>(alloc: Global, block: &'a str) -> Result<(&'a str, String), Fail> {
    let (setup, events) = block.split_once("\nevents\n").unwrap_or((block, ""));
    let mut pair = Setup::read(alloc, setup)?.pair()?;
    Ok((events, pair.replay(events)?))
}

#[test]
fn answers_are_as_worked_out(rt: HostRuntime) -> Result<(), Fail> {
    for block in CASES.split("\n\n") {
        let (events, found) = played(rt.alloc(), block)?;
        assert_eq!(rt; found.as_str().trim_end(), events);
    }
    Ok(())
}

//! Straight code, jumps and the frame.

/// Sums, products and shifts in a row.
pub(crate) const STRAIGHT: &str = "\
mov64 r0, 1
mov64 r2, 1000003
mul64 r0, r2
add64 r0, -17
mov64 r3, r0
lsh64 r3, 13
xor64 r0, r3
mov64 r4, r0
rsh64 r4, 7
xor64 r0, r4
mul64 r0, r2
mov64 r5, r0
lsh64 r5, 17
xor64 r0, r5
sub64 r0, r3
or64 r0, 1
";

/// Each condition in each class, over bytes of the context.
pub(crate) const BRANCHES: &str = "\
mov64 r0, 0
ldxb r2, [r1+5]
ldxb r3, [r1+11]
mov64 r4, r2
sub64 r4, r3
jeq r2, 5, +1
or64 r0, 1
jgt r2, 5, +1
or64 r0, 2
jge r2, 5, +1
or64 r0, 4
jset r2, 2, +1
or64 r0, 8
jne r2, 5, +1
or64 r0, 16
jsgt r4, -6, +1
or64 r0, 32
jsge r4, -6, +1
or64 r0, 64
jlt r2, 12, +1
or64 r0, 128
jle r2, 4, +1
or64 r0, 256
jslt r4, -6, +1
or64 r0, 512
jsle r4, -7, +1
or64 r0, 1024
jeq32 r4, r3, +1
or64 r0, 2048
jgt32 r4, r3, +1
or64 r0, 4096
jge32 r4, r3, +1
or64 r0, 8192
jset32 r4, r3, +1
or64 r0, 16384
jne32 r4, r3, +1
or64 r0, 32768
jsgt32 r4, r3, +1
or64 r0, 65536
jsge32 r4, r3, +1
or64 r0, 131072
jlt32 r4, r3, +1
or64 r0, 262144
jle32 r4, r3, +1
or64 r0, 524288
jslt32 r4, r3, +1
or64 r0, 1048576
jsle32 r4, r3, +1
or64 r0, 2097152
jlt r0, 4096, +2
lsh64 r0, 1
ja +1
mov64 r0, 0
jset r0, 1, +2
or64 r0, 1
ja32 +1
add64 r0, 5
";

/// Stores and loads of each width, with and without sign.
pub(crate) const FRAME: &str = "\
lddw r2, 9295997013522923649
stxdw [r10-8], r2
ldxdw r0, [r1+0]
stxw [r10-16], r0
sth [r10-12], -2
stb [r10-10], 200
stxb [r10-9], r2
ldxdw r3, [r10-16]
xor64 r0, r3
ldxsb r4, [r10-10]
add64 r0, r4
ldxsh r5, [r10-12]
mul64 r0, r5
ldxsw r6, [r10-4]
sub64 r0, r6
ldxh r7, [r10-8]
add64 r0, r7
ldxb r8, [r10-5]
xor64 r0, r8
stxh [r10-20], r0
sth [r10-18], 4660
ldxw r9, [r10-20]
add64 r0, r9
stw [r10-24], -5
stdw [r10-32], -9
ldxdw r2, [r10-32]
add64 r0, r2
ldxsw r3, [r10-24]
mul64 r0, r3
";

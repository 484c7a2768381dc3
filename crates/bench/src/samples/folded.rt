//! Operations whose results are folded into r0, each by `r0 = 31 * r0 + r2`.

use std::alloc::AllocError;

/// What follows each operation.
const FOLD: &str = "\nmul64 r0, 31\nadd64 r0, r2\n";

/// Operations that leave their results in r2.
#[derive(Clone, Copy)]
pub(crate) struct Folded {
    /// The line before each of them, or nothing.
    before: &'static str,
    operations: &'static [&'static str],
}

impl Folded {
    /// Adds the lines of each operation.
    pub(crate) fn push_to(&self, text: &mut String) -> Result<(), AllocError> {
        for operation in self.operations {
            text.push_str(self.before)?;
            text.push_str(*operation)?;
            text.push_str(FOLD)?;
        }
        Ok(())
    }
}

/// What stands before `DIVISIONS`: the least number, and divisors.
pub(crate) const BEFORE_DIVISIONS: &str = "\
lddw r6, 9223372036854775808
mov64 r7, 0
mov64 r8, -1
mov64 r9, 7
mov64 r0, 0
";

/// Quotients and remainders by zero, by -1, of the least number, by small numbers of either sign.
pub(crate) const DIVISIONS: &[Folded] = &[
    Folded {
        before: "mov64 r2, r6\n",
        operations: &[
            "div64 r2, r7",
            "div64 r2, r8",
            "div64 r2, r9",
            "div64 r2, 0",
            "div64 r2, -1",
            "div64 r2, -3",
            "div64 r2, 10",
            "mod64 r2, r7",
            "mod64 r2, r8",
            "mod64 r2, r9",
            "mod64 r2, 0",
            "mod64 r2, -1",
            "mod64 r2, -3",
            "mod64 r2, 10",
            "sdiv64 r2, r7",
            "sdiv64 r2, r8",
            "sdiv64 r2, r9",
            "sdiv64 r2, 0",
            "sdiv64 r2, -1",
            "sdiv64 r2, -3",
            "sdiv64 r2, 10",
            "smod64 r2, r7",
            "smod64 r2, r8",
            "smod64 r2, r9",
            "smod64 r2, 0",
            "smod64 r2, -1",
            "smod64 r2, -3",
            "smod64 r2, 10",
        ],
    },
    Folded {
        before: "lddw r2, 9223372039002259463\n",
        operations: &[
            "div32 r2, r7",
            "div32 r2, r8",
            "div32 r2, r9",
            "div32 r2, 0",
            "div32 r2, -1",
            "div32 r2, -3",
            "div32 r2, 10",
            "mod32 r2, r7",
            "mod32 r2, r8",
            "mod32 r2, r9",
            "mod32 r2, 0",
            "mod32 r2, -1",
            "mod32 r2, -3",
            "mod32 r2, 10",
            "sdiv32 r2, r7",
            "sdiv32 r2, r8",
            "sdiv32 r2, r9",
            "sdiv32 r2, 0",
            "sdiv32 r2, -1",
            "sdiv32 r2, -3",
            "sdiv32 r2, 10",
            "smod32 r2, r7",
            "smod32 r2, r8",
            "smod32 r2, r9",
            "smod32 r2, 0",
            "smod32 r2, -1",
            "smod32 r2, -3",
            "smod32 r2, 10",
        ],
    },
];

/// What stands before `MIXED`.
pub(crate) const BEFORE_MIXED: &str = "\
lddw r6, 1311768467463790320
lddw r7, 18364758544493064720
mov64 r0, 1
";

/// Each arithmetic operation in each size, by a register and by a constant.
pub(crate) const MIXED: &[Folded] = &[Folded {
    before: "mov64 r2, r7\n",
    operations: &[
        "add64 r2, r6",
        "add64 r2, -5",
        "sub64 r2, r6",
        "sub64 r2, -5",
        "mul64 r2, r6",
        "mul64 r2, -5",
        "div64 r2, r6",
        "div64 r2, -5",
        "or64 r2, r6",
        "or64 r2, -5",
        "and64 r2, r6",
        "and64 r2, -5",
        "lsh64 r2, r6",
        "lsh64 r2, 37",
        "rsh64 r2, r6",
        "rsh64 r2, 37",
        "mod64 r2, r6",
        "mod64 r2, -5",
        "xor64 r2, r6",
        "xor64 r2, -5",
        "mov64 r2, r6",
        "mov64 r2, -5",
        "arsh64 r2, r6",
        "arsh64 r2, 37",
        "sdiv64 r2, r6",
        "sdiv64 r2, -5",
        "smod64 r2, r6",
        "smod64 r2, -5",
        "neg64 r2",
        "add32 r2, r6",
        "add32 r2, -5",
        "sub32 r2, r6",
        "sub32 r2, -5",
        "mul32 r2, r6",
        "mul32 r2, -5",
        "div32 r2, r6",
        "div32 r2, -5",
        "or32 r2, r6",
        "or32 r2, -5",
        "and32 r2, r6",
        "and32 r2, -5",
        "lsh32 r2, r6",
        "lsh32 r2, 37",
        "rsh32 r2, r6",
        "rsh32 r2, 37",
        "mod32 r2, r6",
        "mod32 r2, -5",
        "xor32 r2, r6",
        "xor32 r2, -5",
        "mov32 r2, r6",
        "mov32 r2, -5",
        "arsh32 r2, r6",
        "arsh32 r2, 37",
        "sdiv32 r2, r6",
        "sdiv32 r2, -5",
        "smod32 r2, r6",
        "smod32 r2, -5",
        "neg32 r2",
    ],
}];

/// What stands before `BYTE_SWAPS`.
pub(crate) const BEFORE_BYTE_SWAPS: &str = "\
lddw r6, 1311768467463790320
mov64 r0, 0
";

/// Each order of bytes, at each width.
pub(crate) const BYTE_SWAPS: &[Folded] = &[Folded {
    before: "mov64 r2, r6\n",
    operations: &[
        "le16 r2",
        "le32 r2",
        "le64 r2",
        "be16 r2",
        "be32 r2",
        "be64 r2",
        "swap16 r2",
        "swap32 r2",
        "swap64 r2",
    ],
}];

/// What stands before `SIGN_EXTENSIONS`: numbers with and without the sign.
pub(crate) const BEFORE_SIGN_EXTENSIONS: &str = "\
lddw r6, 9259542123273814144
lddw r7, 36170086419038335
mov64 r0, 0
";

/// Each width of sign extension, of a number with and without the sign.
pub(crate) const SIGN_EXTENSIONS: &[Folded] = &[Folded {
    before: "",
    operations: &[
        "movsx32 r2, r6, 8",
        "movsx32 r2, r6, 16",
        "movsx64 r2, r6, 8",
        "movsx64 r2, r6, 16",
        "movsx64 r2, r6, 32",
        "movsx32 r2, r7, 8",
        "movsx32 r2, r7, 16",
        "movsx64 r2, r7, 8",
        "movsx64 r2, r7, 16",
        "movsx64 r2, r7, 32",
    ],
}];

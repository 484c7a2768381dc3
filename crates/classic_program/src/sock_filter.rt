//! Classic instructions as programs are handed over.

/// An instruction as tcpdump and libseccomp write it (struct sock_filter of Linux).
#[derive(Clone, Copy, Debug, PartialEq, Eq)]
pub struct SockFilter {
    /// The opcode.
    pub code: u16,
    /// How many instructions a conditional jump skips where its test passes.
    pub jt: u8,
    /// How many it skips where the test fails.
    pub jf: u8,
    /// A number: a constant, an offset, a word of memory, or how many instructions `ja` skips.
    pub k: u32,
}

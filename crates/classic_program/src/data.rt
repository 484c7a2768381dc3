//! Where a classic program's data come from.

/// How many bytes of a packet its context holds.
pub const PACKET_BYTES: usize = 248;

/// The bytes of a packet's context: two lengths of 4 bytes, and `PACKET_BYTES` of packet.
pub const PACKET_CONTEXT: usize = 256;

/// The bytes of struct seccomp_data, which are a system call's context.
pub const SECCOMP_CONTEXT: usize = 64;

/// Where a program's data come from: this says what its loads find, and what its context is.
#[derive(Clone, Copy, Debug, PartialEq, Eq)]
pub enum Data {
    /// A packet. Its context has 4 bytes with how many bytes were captured, 4 bytes with how many it had on the
    /// wire (both with the lowest byte first), and then the captured bytes, at most `PACKET_BYTES`, with zeros behind.
    Packet,
    /// A system call: the 64 bytes of struct seccomp_data.
    Seccomp,
}

impl Data {
    ghost use Rattle.std.specs.Prelude.{◌≡◌};
    ghost use Rattle.classic_program.specs.Context.{context_bytes};

    /// The bytes of a context.
    pub fn context_len(self) -> usize
        ensures { result ≡ context_bytes self }
    {
        match self {
            Data::Packet => PACKET_CONTEXT,
            Data::Seccomp => SECCOMP_CONTEXT,
        }
    }
}

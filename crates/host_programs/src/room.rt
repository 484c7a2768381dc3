//! Where a host's runs happen, one after another.

use crate::packet::fill_context;
use classic::{PACKET_BYTES, PACKET_CONTEXT};
use shared_runs::Workspace;

/// Zeros, as stand behind the bytes of a short packet.
const ZEROS: [u8; PACKET_BYTES] = [0; PACKET_BYTES];

/// The context of a packet, and the workspace of a run. Both are used again, and a run sees nothing of those before it.
#[derive(Drop)]
pub struct Room {
    pub context: [u8; PACKET_CONTEXT],
    /// How many bytes of a packet the context has.
    pub filled: usize,
    pub workspace: Workspace,
}

/// Clears what a longer packet left behind so many bytes.
fn clear_behind(context: &mut [u8; PACKET_CONTEXT], seen: usize, filled: usize) {
    let filled = filled.min(PACKET_BYTES);
    if seen < filled {
        context[8 + seen..8 + filled].copy_from_slice(&ZEROS[seen..filled]);
    }
}

impl Room {
    ghost use Rattle.classic_program.specs.Context.{IsPacketContext};
    ghost use Rattle.host_programs.specs.Packets.{seen};

    /// A room that is clear.
    pub fn new() -> Room {
        Room {
            context: [0; PACKET_CONTEXT],
            filled: 0,
            workspace: Workspace::start(),
        }
    }

    /// Makes the context that of a packet, with zeros behind.
    #[inline]
    pub fn fill(&mut self, packet: &[u8], wire: u32)
        ensures { IsPacketContext (seen packet.now wire) self.new.context }
    {
        let seen = PACKET_BYTES.min(packet.len());
        clear_behind(&mut self.context, seen, self.filled);
        fill_context(&mut self.context, packet, wire);
        self.filled = seen;
    }
}

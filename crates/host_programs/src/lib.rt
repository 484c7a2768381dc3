//! Programs as a host opens them: verified once, and then run over bytes that the host lends.
//!
//! An open program is never changed, so threads may share it, each with room of its own for its runs (`Opened`). A run of a program that
//! names no map takes no memory, copies no context, and cannot fail but for a context of another length, or packets that lie outside
//! their bytes.
#![tactic(auto)]

mod fault;
mod opened;
mod opening;
mod packet;
mod program;
mod room;
mod running;

pub use classic::{Data, PACKET_BYTES, PACKET_CONTEXT};
pub use fault::{OpenFault, Place, RunFault};
pub use opened::Opened;
pub use packet::{PacketAt, are_inside};
pub use program::HostProgram;
pub use room::Room;

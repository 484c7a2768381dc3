//! The context of a packet, and packets among bytes.
ghost use Rattle.std.specs.Prelude.{◌≡◌, ◌+◌, Decides, length, take};
ghost use Rattle.bpf_model.specs.Real.{AreBytes};
ghost use Rattle.classic_program.specs.Context.{IsPacketContext, packet_bytes};
ghost use Rattle.host_programs.specs.Packets.{AreInside, IsInside, bytes_of, seen};

use bpf_model::are_bytes;
use classic::{PACKET_BYTES, PACKET_CONTEXT};

/// Makes bytes the context of a packet: how many bytes a program sees, at most `PACKET_BYTES`, how many there were on the wire, and
/// the bytes that it sees. What stood behind these stays.
pub(crate) fn fill_context(context: &mut [u8; PACKET_CONTEXT], packet: &[u8], wire: u32)
    ensures { IsPacketContext (seen packet.now wire) context.new }
{
    let seen = PACKET_BYTES.min(packet.len());
    are_bytes(packet);
    context[..4].copy_from_slice(&(seen as u32).to_le_bytes());
    context[4..8].copy_from_slice(&wire.to_le_bytes());
    context[8..8 + seen].copy_from_slice(&packet[..seen]);
}

/// Where a packet lies among bytes, how many of it were captured, and how long it was on the wire. In C `struct bpfrt_packet`.
#[repr(C)]
#[derive(Clone, Copy, Debug, PartialEq, Eq)]
pub struct PacketAt {
    pub at: u64,
    pub captured: u32,
    pub wire: u32,
}

/// Whether a packet lies among so many bytes.
fn is_inside(packet: &PacketAt, count: usize) -> bool
    ensures { Decides result (IsInside count packet.now) }
{
    let count = count as u64;
    packet.at <= count && u64::from(packet.captured) <= count - packet.at
}

/// Whether each packet lies among the bytes.
pub fn are_inside(bytes: &[u8], packets: &[PacketAt]) -> bool
    ensures { Decides result (AreInside (length bytes.now) packets.now) }
{
    packets.iter().all(|packet| is_inside(packet, bytes.len()))
}

/// The bytes of a packet.
pub(crate) fn packet_in<'a>(bytes: &'a [u8], packet: &PacketAt) -> &'a [u8]
    requires { IsInside (length bytes.now) packet.now }
    ensures { result.now ≡ bytes_of bytes.now packet.now }
{
    let at = packet.at as usize;
    let (_, rest) = bytes.split_at(at);
    let (packet, _) = rest.split_at(packet.captured as usize);
    packet
}

/// What a program sees of a packet.
#[inline]
pub(crate) fn first_bytes(packet: &[u8]) -> &[u8]
    ensures same { result.now ≡ take packet_bytes packet.now }
    ensures bytes { AreBytes packet.now }
{
    are_bytes(packet);
    &packet[..PACKET_BYTES.min(packet.len())]
}

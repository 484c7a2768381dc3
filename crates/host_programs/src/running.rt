//! Runs of an open program by itself.
ghost use Rattle.std.specs.Prelude.{◌≡◌, ◌≢◌, ◌*◌, ◌↔◌, Err, IsOk, IfOk, OnOk, OnErr, length};
ghost use Rattle.bpf_model.specs.Exit.{HasNoMaps};
ghost use Rattle.classic_program.specs.Context.{context_bytes};
ghost use Rattle.classic_program.specs.declared.data.Data.TheVariants.{Packet};
ghost use Rattle.host_programs.specs.declared.fault.RunFault.TheVariants.{NamesMaps, Length};
ghost use Rattle.host_programs.specs.Packets.{AreInside, IsInside, seen, seen_of};
ghost use Rattle.host_programs.specs.Runs.{ExitsAs, ExitsOnPacket, GivesEach, GivesEachPacket, GivesOnPacket, ReturnsOn, Returns};

use crate::fault::RunFault;
use crate::opened::Opened;
use crate::packet::{PacketAt, are_inside, first_bytes, packet_in};
use crate::program::HostProgram;
use crate::room::Room;
use bpf_model::are_bytes;
use classic::PACKET_CONTEXT;
use shared_runs::Workspace;
use shared_runs::alone::run_in;

impl HostProgram {
    /// The exit value of a program that names no map, on a context of its length, in a workspace where other runs have been.
    #[inline]
    fn value_in(&self, workspace: &mut Workspace, context: &[u8]) -> u64
        requires maps { HasNoMaps self.now.checked.program }
        requires context { length context.now ≡ self.now.checked.ctx_len }
        ensures exits { ExitsAs self.now.checked context.now result }
        ensures returns { ReturnsOn self.now.classic context.now result }
    {
        self.is_open();
        are_bytes(context);
        run_in(workspace, self.verified(), context).value
    }

    /// The exit value of such a program, which has contexts of packets, on a packet. A classic filter runs as it stands.
    #[inline(always)]
    fn value_on(&self, packet: &[u8], wire: u32, room: &mut Room) -> u64
        requires maps { HasNoMaps self.now.checked.program }
        requires context { self.now.checked.ctx_len ≡ context_bytes Packet }
        ensures { GivesOnPacket self.now (seen packet.now wire) result }
    {
        self.is_open();
        match self.filter() {
            Some(filter) => u64::from(filter.run(first_bytes(packet), wire)),
            None => {
                room.fill(packet, wire);
                self.value_in(&mut room.workspace, &room.context)
            }
        }
    }

    /// The exit value of such a program on one of many packets.
    #[inline(always)]
    fn value_of(&self, bytes: &[u8], packet: &PacketAt, room: &mut Room) -> u64
        requires maps { HasNoMaps self.now.checked.program }
        requires context { self.now.checked.ctx_len ≡ context_bytes Packet }
        requires inside { IsInside (length bytes.now) packet.now }
        ensures { GivesOnPacket self.now (seen_of bytes.now packet.now) result }
    {
        self.value_on(packet_in(bytes, packet), packet.wire, room)
    }

    /// The exit values of such a program on contexts that stand one behind another, as many as there are results.
    fn values_on(&self, room: &mut Room, contexts: &[u8], results: &mut [u64])
        requires maps { HasNoMaps self.now.checked.program }
        requires contexts { length contexts.now ≡ length results.old * self.now.checked.ctx_len }
        ensures each { GivesEach self.now contexts.now results.new }
        ensures count { length results.new ≡ length results.old }
    {
        let long = self.ctx_len();
        let count = results.len();
        let mut rest = contexts;
        for at in 0..count {
            let (context, more) = rest.split_at(long);
            results[at] = self.value_in(&mut room.workspace, context);
            rest = more;
        }
    }

    /// The exit values of such a program on packets that lie among bytes, as many as there are results.
    fn values_of(&self, room: &mut Room, bytes: &[u8], packets: &[PacketAt], results: &mut [u64])
        requires maps { HasNoMaps self.now.checked.program }
        requires context { self.now.checked.ctx_len ≡ context_bytes Packet }
        requires inside { AreInside (length bytes.now) packets.now }
        requires as_many { length packets.now ≡ length results.old }
        ensures each { GivesEachPacket self.now bytes.now packets.now results.new }
        ensures count { length results.new ≡ length results.old }
    {
        for at in 0..packets.len() {
            results[at] = self.value_of(bytes, &packets[at], room);
        }
    }
}

impl Opened {
    /// Runs a program that names no map on a context, to its exit. The value is the program's own, whatever other threads do;
    /// of a translated program it is what the classic program returns.
    ///
    /// Errors: `NamesMaps` where it names one; else `Length` where the context has another length than the program's.
    pub fn run(&mut self, context: &[u8]) -> Result<u64, RunFault>
        ensures kept { self.new ≡ self.old }
        ensures exits { IfOk result (ExitsAs self.old.checked context.now) }
        ensures returns { IfOk result (ReturnsOn self.old.classic context.now) }
        ensures maps { (result ≡ Err NamesMaps) ↔ (HasNoMaps self.old.checked.program → ⊥) }
        ensures length { HasNoMaps self.old.checked.program →
            ((result ≡ Err Length) ↔ (length context.now ≢ self.old.checked.ctx_len)) }
        ensures ran { HasNoMaps self.old.checked.program → length context.now ≡ self.old.checked.ctx_len →
            IsOk result }
    {
        if !self.program.names_no_map() {
            return Err(RunFault::NamesMaps);
        }
        if context.len() != self.program.ctx_len() {
            return Err(RunFault::Length);
        }
        Ok(self.program.value_in(&mut self.room.workspace, context))
    }

    /// Runs such a program on contexts that stand one behind another, as many as there are results.
    ///
    /// Errors, and then no result is written: `NamesMaps` where it names a map; else `Length` where the contexts are not as many
    /// bytes.
    pub fn run_each(&mut self, contexts: &[u8], results: &mut [u64]) -> Result<(), RunFault>
        ensures kept { self.new ≡ self.old }
        ensures each { OnOk result (GivesEach self.old contexts.now results.new) }
        ensures count { length results.new ≡ length results.old }
        ensures maps { (result ≡ Err NamesMaps) ↔ (HasNoMaps self.old.checked.program → ⊥) }
        ensures length { HasNoMaps self.old.checked.program → ((result ≡ Err Length)
            ↔ (length contexts.now ≢ length results.old * self.old.checked.ctx_len)) }
        ensures ran { HasNoMaps self.old.checked.program →
            length contexts.now ≡ length results.old * self.old.checked.ctx_len → IsOk result }
        ensures unwritten { OnErr result (results.new ≡ results.old) }
    {
        if !self.program.names_no_map() {
            return Err(RunFault::NamesMaps);
        }
        let long = self.program.ctx_len();
        let count = results.len();
        if count.checked_mul(long) != Some(contexts.len()) {
            return Err(RunFault::Length);
        }
        self.program.values_on(&mut self.room, contexts, results);
        Ok(())
    }

    /// Runs such a program on a packet, of which it sees the first `PACKET_BYTES`, as if no more had been captured. The context
    /// is that of a packets' filter: the captured length, the length on the wire, and the bytes.
    ///
    /// Errors: `NamesMaps` where it names one; else `Length` where it was not verified for contexts of packets.
    pub fn run_on_packet(&mut self, packet: &[u8], wire: u32) -> Result<u64, RunFault>
        ensures kept { self.new ≡ self.old }
        ensures exits { IfOk result (ExitsOnPacket self.old.checked (seen packet.now wire)) }
        ensures returns { IfOk result (Returns self.old.classic (seen packet.now wire)) }
        ensures maps { (result ≡ Err NamesMaps) ↔ (HasNoMaps self.old.checked.program → ⊥) }
        ensures length { HasNoMaps self.old.checked.program →
            ((result ≡ Err Length) ↔ (self.old.checked.ctx_len ≢ context_bytes Packet)) }
        ensures ran { HasNoMaps self.old.checked.program → self.old.checked.ctx_len ≡ context_bytes Packet →
            IsOk result }
    {
        if !self.program.names_no_map() {
            return Err(RunFault::NamesMaps);
        }
        if self.program.ctx_len() != PACKET_CONTEXT {
            return Err(RunFault::Length);
        }
        Ok(self.program.value_on(packet, wire, &mut self.room))
    }

    /// Runs such a program on many packets that lie among bytes, each as `run_on_packet`. Packets may overlap.
    ///
    /// Errors, and then no result is written: `NamesMaps` where it names a map; else `Length` where it was not verified for
    /// contexts of packets, the results are not as many as the packets, or a packet lies outside the bytes.
    pub fn run_on_packets(
        &mut self,
        bytes: &[u8],
        packets: &[PacketAt],
        results: &mut [u64],
    ) -> Result<(), RunFault>
        ensures kept { self.new ≡ self.old }
        ensures each { OnOk result (GivesEachPacket self.old bytes.now packets.now results.new) }
        ensures count { length results.new ≡ length results.old }
        ensures maps { (result ≡ Err NamesMaps) ↔ (HasNoMaps self.old.checked.program → ⊥) }
        ensures packets { OnOk result (self.old.checked.ctx_len ≡ context_bytes Packet) }
        ensures as_many { OnOk result (length packets.now ≡ length results.old) }
        ensures inside { OnOk result (AreInside (length bytes.now) packets.now) }
        ensures ran { HasNoMaps self.old.checked.program → self.old.checked.ctx_len ≡ context_bytes Packet →
            length packets.now ≡ length results.old → AreInside (length bytes.now) packets.now → IsOk result }
        ensures unwritten { OnErr result (results.new ≡ results.old) }
    {
        if !self.program.names_no_map() {
            return Err(RunFault::NamesMaps);
        }
        if self.program.ctx_len() != PACKET_CONTEXT || packets.len() != results.len() {
            return Err(RunFault::Length);
        }
        if !are_inside(bytes, packets) {
            return Err(RunFault::Length);
        }
        self.program
            .values_of(&mut self.room, bytes, packets, results);
        Ok(())
    }
}

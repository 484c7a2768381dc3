//! A reader of a table.
ghost use Rattle.std.specs.Prelude.{◌≡◌, ◌≢◌, ◌↔◌, Err, IsOk, IfOk, OnOk, OnErr, length};
ghost use Rattle.std.specs.Arc.{arc_value};
ghost use Rattle.classic_program.specs.Context.{context_bytes};
ghost use Rattle.classic_program.specs.declared.data.Data.TheVariants.{Packet};
ghost use Rattle.host_programs.specs.Packets.{seen};
ghost use Rattle.host_tables.specs.Reading.{CanServe, RunsOnPacket, RunsOverTable};
ghost use Rattle.host_tables.specs.declared.fault.TableRunFault.TheVariants.{Length, Maps, SubWord};
ghost use Rattle.map_table.specs.Held.{IsReady};
ghost use Rattle.shared_runs.specs.MapRuns.{ServesMaps};
ghost use Rattle.shared_runs.specs.Words.{StoresSubWords};

use crate::fault::TableRunFault;
use host_programs::{HostProgram, PACKET_CONTEXT, Room};
use map_table::{MapTable, ReadSeat};
use shared_runs::maps::{fits, run_in};
use std::marker::Model;
use std::sync::Arc;

/// Whether a program may run over the table, and if not, why.
pub(crate) fn serves(table: &MapTable, program: &HostProgram) -> Result<(), TableRunFault>
    ensures maps { (result ≡ Err Maps) ↔ (ServesMaps table.now.shape program.now.checked.shapes → ⊥) }
    ensures words { (result ≡ Err SubWord) ↔ (ServesMaps table.now.shape program.now.checked.shapes
        × StoresSubWords program.now.checked) }
    ensures length { result ≢ Err Length }
    ensures serves { OnOk result (CanServe table.now.shape program.now.checked) }
    ensures served { CanServe table.now.shape program.now.checked → IsOk result }
{
    if !fits(table, program.verified()) {
        return Err(TableRunFault::Maps);
    }
    if program.stores_sub_words() {
        return Err(TableRunFault::SubWord);
    }
    Ok(())
}

/// A seat at a table that it shares, outside a section, and room for its runs, one at a time. Contracts see what the reader did and
/// saw there.
#[derive(Drop)]
pub struct HostReader {
    table: Arc<MapTable>,
    seat: ReadSeat,
    room: Room,
}

impl Model for HostReader {
    ghost use Rattle.std.specs.Arc.{arc_value};
    ghost use Rattle.map_table.specs.Held.{Holder, IsReady};

    ghost Value = { Holder };

    ghost view = { λ r. r.seat };

    ghost invariant = { λ r. IsReady (arc_value r.table) r.seat };
}

impl HostReader {
    /// The reader of this seat.
    pub(crate) fn of(table: Arc<MapTable>, seat: ReadSeat) -> HostReader
        requires { IsReady (arc_value table) seat }
        ensures { result ≡ seat }
    {
        HostReader {
            table,
            seat,
            room: Room::new(),
        }
    }

    /// The reader's seat, to look at. Its laws speak of what the reader did and saw (`is_readers`, `share`).
    pub fn seat(&self) -> &ReadSeat
        ensures { result.now ≡ self.now }
    {
        &self.seat
    }

    /// Runs a program over the table, each of whose maps is the table, to its exit. The outermost lock of the run opens the
    /// reader's section, and the section ends with it.
    ///
    /// Errors, and then nothing is done: `Length`, `Maps`, `SubWord`.
    pub fn run(&mut self, program: &HostProgram, context: &[u8]) -> Result<u64, TableRunFault>
        ensures runs { IfOk result (RunsOverTable program.now.checked context.now self.old self.new) }
        ensures table { self.new.table ≡ self.old.table }
        ensures unchanged { OnErr result (self.new ≡ self.old) }
        ensures length { (result ≡ Err Length) ↔ (length context.now ≢ program.now.checked.ctx_len) }
        ensures maps { length context.now ≡ program.now.checked.ctx_len →
            ((result ≡ Err Maps) ↔ (ServesMaps self.old.table.shape program.now.checked.shapes → ⊥)) }
        ensures words { length context.now ≡ program.now.checked.ctx_len →
            ServesMaps self.old.table.shape program.now.checked.shapes →
            ((result ≡ Err SubWord) ↔ StoresSubWords program.now.checked) }
        ensures ran { length context.now ≡ program.now.checked.ctx_len →
            CanServe self.old.table.shape program.now.checked → IsOk result }
    {
        if context.len() != program.ctx_len() {
            return Err(TableRunFault::Length);
        }
        serves(&self.table, program)?;
        Ok(run_in(
            &self.table,
            &mut self.seat,
            &mut self.room.workspace,
            program.verified(),
            context,
        ))
    }

    /// Runs such a program on a packet, of which it sees the first `PACKET_BYTES`, as if no more had been captured.
    ///
    /// Errors, and then nothing is done: `Length` where it was not verified for contexts of packets; `Maps`, `SubWord`.
    pub fn run_on_packet(
        &mut self,
        program: &HostProgram,
        packet: &[u8],
        wire: u32,
    ) -> Result<u64, TableRunFault>
        ensures runs { IfOk result (RunsOnPacket program.now.checked (seen packet.now wire) self.old self.new) }
        ensures table { self.new.table ≡ self.old.table }
        ensures unchanged { OnErr result (self.new ≡ self.old) }
        ensures length { (result ≡ Err Length) ↔ (program.now.checked.ctx_len ≢ context_bytes Packet) }
        ensures maps { program.now.checked.ctx_len ≡ context_bytes Packet →
            ((result ≡ Err Maps) ↔ (ServesMaps self.old.table.shape program.now.checked.shapes → ⊥)) }
        ensures words { program.now.checked.ctx_len ≡ context_bytes Packet →
            ServesMaps self.old.table.shape program.now.checked.shapes →
            ((result ≡ Err SubWord) ↔ StoresSubWords program.now.checked) }
        ensures ran { program.now.checked.ctx_len ≡ context_bytes Packet →
            CanServe self.old.table.shape program.now.checked → IsOk result }
    {
        if program.ctx_len() != PACKET_CONTEXT {
            return Err(TableRunFault::Length);
        }
        serves(&self.table, program)?;
        self.room.fill(packet, wire);
        Ok(run_in(
            &self.table,
            &mut self.seat,
            &mut self.room.workspace,
            program.verified(),
            &self.room.context,
        ))
    }
}

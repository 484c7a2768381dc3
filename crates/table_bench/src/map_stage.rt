//! A `MapTable` of 65,536 keys with its readers, its writer, and a program that is run over it.
ghost use Rattle.std.specs.Prelude.{◌≡◌, ◌≤◌, All, IfOk, length};
ghost use Rattle.read_table.specs.declared.limits.TheConstants.{MAX_READERS};
ghost use Rattle.map_table.specs.Held.{IsReady};
ghost use Rattle.table_bench.specs.Reads.{HasOneWord, IsMapProgramOf};

use crate::key_tables::{KEYS, ROUND, SHAPE, link_all, look_up_all, replace_all};
use crate::measured::Measured;
use crate::stage::program_of;
use crate::task::Deed;
use anyhow::{Result, bail};
use bpf_model::CtxBytes;
use map_table::{MapTable, ReadSeat, Seats, TableShape, Writer};
use shared_runs::maps::{fits, run_to_exit, stores_sub_words};
use std::alloc::Global;
use std::sync::atomic::AtomicBool;
use verifier::Verified;

/// A table, and a program for its lengths.
#[derive(Drop)]
pub struct MapStage {
    pub table: MapTable,
    pub program: Verified,
}

/// A program that makes so many lookups, verified for the table and an empty context.
pub fn map_program(alloc: Global, table: &MapTable, lookups: u32) -> Result<Verified>
    ensures { IfOk result (IsMapProgramOf table.now.shape) }
{
    let verified = program_of(alloc, lookups)?;
    if !fits(table, &verified) || stores_sub_words(&verified) {
        bail!("the program is for other lengths");
    }
    Ok(verified)
}

/// A table for so many readers, in which the keys are linked, its seats and its writer.
pub fn full_table(alloc: Global, readers: usize) -> Result<(MapTable, Seats, Writer)>
    requires { readers ≤ MAX_READERS }
    ensures count { IfOk result (λ t. length t.1 ≡ readers) }
    ensures ready { IfOk result (λ t. All (IsReady t.0) t.1) }
    ensures lengths { IfOk result (λ t. HasOneWord t.0.shape) }
    ensures writer { IfOk result (λ t. t.2.table ≡ t.0) }
{
    let shape = TableShape { readers, ..SHAPE };
    let (table, seats, mut writer) = MapTable::new(alloc, shape)?;
    link_all(&table, &mut writer)?;
    Ok((table, seats, writer))
}

/// Runs the program so many times. The sum of its exit values.
fn run_all(table: &MapTable, seat: &mut ReadSeat, program: &Verified, calls: u32) -> u64
    requires ready { IsReady table.now seat.old }
    requires program { IsMapProgramOf table.now.shape program.now }
    ensures ready { IsReady table.now seat.new }
{
    let ctx = CtxBytes::new();
    let mut sum = 0u64;
    for _ in 0..calls {
        sum = sum.wrapping_add(run_to_exit(table, seat, program, &ctx));
    }
    sum
}

/// Looks up the keys of rounds from this one on, in as many rounds as have so many calls. The sum of the words that are found.
fn look_up_rounds(table: &MapTable, seat: &mut ReadSeat, first: u64, calls: u32) -> u64
    requires ready { IsReady table.now seat.old }
    requires lengths { HasOneWord table.now.shape }
    ensures ready { IsReady table.now seat.new }
{
    let mut sum = 0u64;
    for _ in 0..u64::from(calls) / ROUND {
        sum = sum.wrapping_add(look_up_all(table, seat, first));
    }
    sum
}

impl Measured for MapStage {
    ghost use Rattle.std.specs.Prelude.{◌≡◌};
    ghost use Rattle.map_table.specs.Held.{IsReady};
    ghost use Rattle.table_bench.specs.Reads.{HasOneWord, IsMapProgramOf};

    type Reader = ReadSeat;

    type Writer = Writer;

    ghost IsSet = { λ s. HasOneWord s.table.shape × IsMapProgramOf s.table.shape s.program };

    ghost IsReader = { λ s. IsReady s.table };

    ghost IsWriter = { λ s w. w.table ≡ s.table };

    fn make(alloc: Global, readers: usize) -> Result<(MapStage, Vec<ReadSeat>, Writer)> {
        let (table, seats, writer) = full_table(alloc, readers)?;
        let program = map_program(alloc, &table, 1)?;
        Ok((MapStage { table, program }, seats.list, writer))
    }

    fn keys_of_reader() -> u64 {
        ROUND
    }

    fn work(&self, reader: &mut ReadSeat, first: u64, deed: Deed, calls: u32) -> u64 {
        let table = &self.table;
        match deed {
            Deed::Runs => run_all(table, reader, &self.program, calls),
            Deed::Hits => look_up_rounds(table, reader, first, calls),
            Deed::Misses => look_up_rounds(table, reader, first.wrapping_add(KEYS), calls),
        }
    }

    /// Replaces the values of a round, and reclaims.
    fn write(&self, writer: &mut Writer, done: &AtomicBool) -> bool {
        let _ = done;
        replace_all(&self.table, writer);
        true
    }
}

//! A `ReadTable` with its readers, its writer, and a program that is run over it.
ghost use Rattle.std.specs.Prelude.{◌≡◌, IfOk};
ghost use Rattle.std.specs.List.{Contains};
ghost use Rattle.table_bench.specs.Reads.{HasWordLengths, IsProgramOf};

use crate::measured::Measured;
use crate::reader::{ABSENT, KEYS, look_up_all, run_all};
use crate::task::Deed;
use anyhow::{Result, bail};
use bpf_model::{MapKind, MapShape};
use insn_codec::decode;
use read_table::{ReadSeat, ReadTable, Writer};
use std::alloc::{AllocError, Global};
use std::sync::atomic::{AtomicBool, Ordering};
use verifier::{Verified, verify};

/// How many slots the table has.
pub const SLOTS: usize = 256;

/// How many of them are linked.
const LINKED: u64 = 128;

/// The key that the writer links. No reader looks it up.
const WRITTEN: u64 = 1 << 40;

/// Begins a section, with the key of 8 zeros in the frame.
const BEGIN: &str = "b70600000000000085200000010000007a0af8ff00000000";

/// Looks the key up, and loads 8 bytes of its value.
const LOOKUP: &str = "bfa200000000000007020000f8ffffff18510000000000000000000000000000\
850000000100000015000100000000007906000000000000";

/// Ends the section, and exits with the number that was loaded last.
const END: &str = "8520000002000000bf600000000000009500000000000000";

/// Keys and values of 8 bytes.
const SHAPE: MapShape = MapShape {
    kind: MapKind::Hash,
    key_len: 8,
    value_len: 8,
    entries: SLOTS,
    spare: 0,
    reuse_limit: 1,
};

/// A table, and a program for its lengths.
#[derive(Drop)]
pub struct Stage {
    pub table: ReadTable,
    pub program: Verified,
}

/// The digits of a program that makes so many lookups in one section.
fn digits_of(alloc: Global, lookups: u32) -> Result<String, AllocError> {
    let mut digits = String::from_str(alloc, BEGIN)?;
    for _ in 0..lookups {
        digits.push_str(LOOKUP)?;
    }
    digits.push_str(END)?;
    Ok(digits)
}

/// A program that makes so many lookups, verified for keys and values of 8 bytes and an empty context.
pub fn program_of(alloc: Global, lookups: u32) -> Result<Verified>
    ensures { IfOk result (λ v. v.ctx_len ≡ 0) }
{
    let digits = digits_of(alloc, lookups)?;
    let bytes = hex::decode(alloc, digits.as_str())?;
    let program = decode(alloc, &bytes)?;
    Ok(verify(alloc, program, &[SHAPE], 0)?)
}

/// The same, which fits the table.
pub fn lookup_program(alloc: Global, table: &ReadTable, lookups: u32) -> Result<Verified>
    ensures { IfOk result (IsProgramOf table.now.shape) }
{
    let verified = program_of(alloc, lookups)?;
    if !table.fits(&verified) {
        bail!("the program is for other lengths");
    }
    Ok(verified)
}

/// Links the keys from 0 on, each with a value one above it.
pub fn fill(table: &ReadTable, writer: &mut Writer) -> Result<()>
    requires lengths { HasWordLengths table.now.shape }
    requires writer { writer.old.table ≡ table.now }
    ensures writer { writer.new.table ≡ table.now }
{
    for key in 0..LINKED {
        let value = key + 1;
        if writer
            .link(table, &key.to_le_bytes(), &value.to_le_bytes())
            .is_none()
        {
            bail!("the table is full");
        }
    }
    Ok(())
}

/// Tries to have an unlinked slot again, until it is got or the readers are done. Whether it was got.
fn reclaim(table: &ReadTable, writer: &mut Writer, slot: usize, done: &AtomicBool) -> bool
    requires table { writer.old.table ≡ table.now }
    requires unlinked { Contains writer.old.unlinked slot }
    ensures table { writer.new.table ≡ table.now }
{
    for _ in 0..u64::MAX {
        if writer.try_reclaim(table, slot) {
            return true;
        }
        if done.load(Ordering::SeqCst) {
            return false;
        }
    }
    false
}

impl Measured for Stage {
    ghost use Rattle.std.specs.Prelude.{◌≡◌};
    ghost use Rattle.read_table.specs.Held.{IsReady};
    ghost use Rattle.table_bench.specs.Reads.{HasWordLengths, IsProgramOf};

    type Reader = ReadSeat;

    type Writer = Writer;

    ghost IsSet = { λ s. HasWordLengths s.table.shape × IsProgramOf s.table.shape s.program };

    ghost IsReader = { λ s. IsReady s.table };

    ghost IsWriter = { λ s w. w.table ≡ s.table };

    fn make(alloc: Global, readers: usize) -> Result<(Stage, Vec<ReadSeat>, Writer)> {
        let (table, seats, mut writer) = ReadTable::new(alloc, SLOTS, 8, 8, readers)?;
        fill(&table, &mut writer)?;
        let program = lookup_program(alloc, &table, 1)?;
        Ok((Stage { table, program }, seats.list, writer))
    }

    fn keys_of_reader() -> u64 {
        KEYS
    }

    fn work(&self, reader: &mut ReadSeat, first: u64, deed: Deed, calls: u32) -> u64 {
        let table = &self.table;
        match deed {
            Deed::Runs => run_all(table, reader, &self.program, calls),
            Deed::Hits => look_up_all(table, reader, first, calls),
            Deed::Misses => look_up_all(table, reader, first.wrapping_add(ABSENT), calls),
        }
    }

    /// Links a key, unlinks it and has the slot again.
    fn write(&self, writer: &mut Writer, done: &AtomicBool) -> bool {
        let Some(slot) = writer.link(&self.table, &WRITTEN.to_le_bytes(), &[1; 8]) else {
            return false;
        };
        writer.unlink(&self.table, slot);
        reclaim(&self.table, writer, slot, done)
    }
}

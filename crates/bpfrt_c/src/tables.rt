//! Tables: how they are opened, and what their writer does.
ghost use Rattle.std.specs.Prelude.{◌≡◌, ◌≢◌, ◌<◌, ◌^◌, ◌⊎◌, ◌↔◌, ℕ, List, pos, neg_ℤ, Some, None, Err, IsSome, IfSome, IfOk, IfErr, OnErr, length};
ghost use Rattle.host_tables.specs.Tables.{IsNewTable, Reads, Reclaims, Removes, Seeks};
ghost use Rattle.host_tables.specs.declared.fault.SetFault.{SetFault as Fault_};
ghost use Rattle.host_handle.specs.Values.{reader_in, table_in};
ghost use Rattle.map_table.specs.Held.{IsSized};
ghost use Rattle.table_words.specs.declared.view.TableShape.{TableShape as ShapeOf};
ghost use Rattle.bpfrt_c.specs.Tables.{CanSet, IsNotSetAs, SeatsIn, SetsAs, WritesIn, how_in_c, set_error, table_shape_in_c};

use crate::number::{E2BIG, EAGAIN, EBADF, EBUSY, EEXIST, EINVAL, ENOENT, ENOMEM, ENOSPC};
use host_handle::{Held, Host};
use host_tables::{HostTable, How, Secret, SetFault, TableFault, Values};
use std::alloc::Global;

/// In C `struct bpfrt_table_shape`. Values are those of all readers (0), or of each reader its own (1).
#[repr(C)]
#[derive(Clone, Copy, Debug, PartialEq, Eq)]
pub struct TableShape {
    pub readers: u32,
    pub buckets: u32,
    pub elements: u32,
    pub key_words: u32,
    pub value_words: u32,
    pub values: u32,
    pub first: u64,
    pub second: u64,
}

/// In C `struct bpfrt_table_stat`: how many elements may be filled, how many were unlinked and wait for readers, and how many seats
/// no reader has yet. All other elements are linked.
#[repr(C)]
#[derive(Clone, Copy, Debug, PartialEq, Eq)]
pub struct TableStat {
    pub free: u64,
    pub waiting: u64,
    pub seats: u64,
}

/// The shape that C wrote, where its values are such.
fn shape_of(shape: &TableShape) -> Option<host_tables::TableShape>
    ensures { result ≡ table_shape_in_c shape.now }
{
    let values = match shape.values {
        0 => Values::Shared,
        1 => Values::PerReader,
        _ => return None,
    };
    Some(host_tables::TableShape {
        readers: shape.readers as usize,
        buckets: shape.buckets as usize,
        elements: shape.elements as usize,
        key_words: shape.key_words as usize,
        value_words: shape.value_words as usize,
        values,
        secret: Secret {
            first: shape.first,
            second: shape.second,
        },
    })
}

/// A table of the shape that C wrote.
fn table_of(alloc: Global, shape: &TableShape) -> Result<HostTable, i32>
    ensures new { IfOk result (λ t. (k : ShapeOf) × (table_shape_in_c shape.now ≡ Some k) × IsNewTable k t) }
    ensures memory { (k : ShapeOf) → table_shape_in_c shape.now ≡ Some k → IsSized k →
        IfErr result (λ number. number ≡ neg_ℤ (pos 12)) }
    ensures fault { IfErr result (λ number. (number ≡ neg_ℤ (pos 12)) ⊎ (number ≡ neg_ℤ (pos 22))) }
{
    let Some(shape) = shape_of(shape) else {
        return Err(EINVAL);
    };
    match HostTable::new(alloc, shape) {
        Ok(table) => Ok(table),
        Err(TableFault::Shape) => Err(EINVAL),
        Err(TableFault::Memory) => Err(ENOMEM),
    }
}

/// Opens a table of this shape, in which nothing is linked. All memory that it ever has is taken here.
///
/// 0, or -EBUSY where the handle is open; -EINVAL where no table may have the shape; -ENOMEM.
#[unsafe(no_mangle)]
pub extern "C" fn bpfrt0_table_open(alloc: Global, host: &mut Host, shape: &TableShape) -> i32
    ensures busy { IsSome host.old.handle.held → result ≡ neg_ℤ (pos 16) }
    ensures opened { result ≡ pos 0 → IfSome (table_in host.new.handle.held) (λ t.
        (k : ShapeOf) × (table_shape_in_c shape.now ≡ Some k) × IsNewTable k t) }
    ensures open { result ≡ pos 0 → IsSome (table_in host.new.handle.held) }
    ensures memory { host.old.handle.held ≡ None → (k : ShapeOf) → table_shape_in_c shape.now ≡ Some k → IsSized k →
        (result ≡ pos 0) ⊎ (result ≡ neg_ℤ (pos 12)) }
    ensures kept { result ≢ pos 0 → host.new.handle.held ≡ host.old.handle.held }
{
    if host.is_open() {
        return EBUSY;
    }
    let table = match table_of(alloc, shape) {
        Ok(table) => table,
        Err(number) => return number,
    };
    let Ok(held) = Box::new(alloc, Held::Table(table)) else {
        return ENOMEM;
    };
    host.put(held);
    0
}

/// A reader with a seat of the table that is held, in a box.
fn seated(alloc: Global, held: &mut Held) -> Result<Box<Held>, i32>
    ensures seat { IfOk result (λ b. SeatsIn (table_in (Some held.old)) (table_in (Some held.new)) (reader_in (Some b.value))) }
    ensures kept { OnErr result (held.new ≡ held.old) }
    ensures none { table_in (Some held.old) ≡ None → result ≡ Err (neg_ℤ (pos 9)) }
    ensures fault { IfErr result (λ number.
        (number ≡ neg_ℤ (pos 9)) ⊎ ((number ≡ neg_ℤ (pos 12)) ⊎ (number ≡ neg_ℤ (pos 28)))) }
{
    let Held::Table(table) = held else {
        return Err(EBADF);
    };
    let Ok(mut room) = Box::new(alloc, Held::Room) else {
        return Err(ENOMEM);
    };
    match table.reader() {
        Some(reader) => {
            *room = Held::Reader(reader);
            Ok(room)
        }
        None => Err(ENOSPC),
    }
}

/// Opens `reader` as a reader of the table that `host` holds, with the table's next seat. The table lives until the last of its
/// readers is closed. A seat is not given back.
///
/// 0, or -EBUSY where `reader` is open; -EBADF where no table is held; -ENOSPC where each seat has been given; -ENOMEM.
#[unsafe(no_mangle)]
pub extern "C" fn bpfrt0_table_reader(alloc: Global, reader: &mut Host, host: &mut Host) -> i32
    ensures busy { IsSome reader.old.handle.held → result ≡ neg_ℤ (pos 16) }
    ensures seat { result ≡ pos 0 → SeatsIn (table_in host.old.handle.held) (table_in host.new.handle.held)
        (reader_in reader.new.handle.held) }
    ensures none { reader.old.handle.held ≡ None → table_in host.old.handle.held ≡ None → result ≡ neg_ℤ (pos 9) }
    ensures fault { result ≢ pos 0 → (result ≡ neg_ℤ (pos 16)) ⊎ ((result ≡ neg_ℤ (pos 9))
        ⊎ ((result ≡ neg_ℤ (pos 12)) ⊎ (result ≡ neg_ℤ (pos 28)))) }
    ensures kept { result ≢ pos 0 → reader.new.handle.held ≡ reader.old.handle.held }
    ensures table { result ≢ pos 0 → host.new.handle.held ≡ host.old.handle.held }
{
    if reader.is_open() {
        return EBUSY;
    }
    let Some(mut held) = host.take(alloc) else {
        return EBADF;
    };
    let made = seated(alloc, held.as_mut());
    host.put(held);
    match made {
        Ok(one) => {
            reader.put(one);
            0
        }
        Err(number) => number,
    }
}

/// What the flags of an update ask for.
fn how_of(flags: u64) -> Option<How>
    ensures { result ≡ how_in_c flags }
{
    match flags {
        0 => Some(How::Any),
        1 => Some(How::New),
        2 => Some(How::Present),
        _ => None,
    }
}

/// The number of why a key is not set.
pub(crate) fn number_of_fault(fault: SetFault) -> i32
    ensures { result ≡ neg_ℤ (pos (set_error fault)) }
{
    match fault {
        SetFault::Exists => EEXIST,
        SetFault::Missing => ENOENT,
        SetFault::NoElement => ENOSPC,
        SetFault::NoWay => E2BIG,
        SetFault::Held => EAGAIN,
    }
}

/// Sets a key of the table that is held, if one is.
fn set_held(held: &mut Held, key: &[u64], value: &[u64], flags: u64) -> i32
    ensures set { result ≡ pos 0 → WritesIn (SetsAs key.now value.now (how_in_c flags))
        (table_in (Some held.old)) (table_in (Some held.new)) }
    ensures fault { IfSome (table_in (Some held.old)) (λ t. CanSet t key.now value.now (how_in_c flags) → result ≢ pos 0 →
        (fault : Fault_) × (result ≡ neg_ℤ (pos (set_error fault)))
        × WritesIn (IsNotSetAs key.now (how_in_c flags) fault) (table_in (Some held.old)) (table_in (Some held.new))) }
    ensures other { IfSome (table_in (Some held.old)) (λ t. (CanSet t key.now value.now (how_in_c flags) → ⊥) →
        (result ≡ neg_ℤ (pos 22)) × (held.new ≡ held.old)) }
    ensures none { table_in (Some held.old) ≡ None → (result ≡ neg_ℤ (pos 9)) × (held.new ≡ held.old) }
{
    let Held::Table(table) = held else {
        return EBADF;
    };
    let shape = table.shape();
    if key.len() != shape.key_words || value.len() != shape.stored_words() {
        return EINVAL;
    }
    let Some(how) = how_of(flags) else {
        return EINVAL;
    };
    match table.set(key, value, how) {
        Ok(()) => 0,
        Err(fault) => number_of_fault(fault),
    }
}

/// Sets a key: links a value under it, or puts it in the place of the one that is there, in one store, so that no reader misses a
/// key that is linked before. Flags: 0, or 1 for a new key alone, or 2 for one that is there. A new key leaves one element free. Where
/// too few are free, those are reclaimed first that no reader holds. Where both buckets of a new key are full, an element is moved out
/// of them first, if one can be; no reader misses its key meanwhile.
///
/// 0, or -EBADF where no table is held; -EINVAL for a wrong length or flag; -EEXIST, -ENOENT; -ENOSPC where too few elements are
/// free; -E2BIG where both buckets of the key are full, and no element of them can be moved; -EAGAIN where one could be, but a run
/// stayed in one section meanwhile, for some 20 milliseconds: call again.
#[unsafe(no_mangle)]
pub extern "C" fn bpfrt0_table_update_elem(
    alloc: Global,
    host: &mut Host,
    key: &[u64],
    value: &[u64],
    flags: u64,
) -> i32
    ensures set { result ≡ pos 0 → WritesIn (SetsAs key.now value.now (how_in_c flags))
        (table_in host.old.handle.held) (table_in host.new.handle.held) }
    ensures fault { IfSome (table_in host.old.handle.held) (λ t. CanSet t key.now value.now (how_in_c flags) → result ≢ pos 0 →
        (fault : Fault_) × (result ≡ neg_ℤ (pos (set_error fault)))
        × WritesIn (IsNotSetAs key.now (how_in_c flags) fault) (table_in host.old.handle.held) (table_in host.new.handle.held)) }
    ensures other { IfSome (table_in host.old.handle.held) (λ t. (CanSet t key.now value.now (how_in_c flags) → ⊥) →
        (result ≡ neg_ℤ (pos 22)) × (host.new.handle.held ≡ host.old.handle.held)) }
    ensures none { table_in host.old.handle.held ≡ None →
        (result ≡ neg_ℤ (pos 9)) × (host.new.handle.held ≡ host.old.handle.held) }
{
    let Some(mut held) = host.take(alloc) else {
        return EBADF;
    };
    let number = set_held(held.as_mut(), key, value, flags);
    host.put(held);
    number
}

/// Removes a key of the table that is held, if one is.
fn remove_held(held: &mut Held, key: &[u64]) -> i32
    ensures removed { result ≡ pos 0 → WritesIn (Removes key.now) (table_in (Some held.old)) (table_in (Some held.new)) }
    ensures missing { result ≡ neg_ℤ (pos 2) → WritesIn (Seeks key.now None) (table_in (Some held.old)) (table_in (Some held.new)) }
    ensures done { IfSome (table_in (Some held.old)) (λ t. length key.now ≡ t.table.shape.key_words →
        (result ≡ pos 0) ⊎ (result ≡ neg_ℤ (pos 2))) }
    ensures other { IfSome (table_in (Some held.old)) (λ t. length key.now ≢ t.table.shape.key_words →
        (result ≡ neg_ℤ (pos 22)) × (held.new ≡ held.old)) }
    ensures none { table_in (Some held.old) ≡ None → (result ≡ neg_ℤ (pos 9)) × (held.new ≡ held.old) }
{
    let Held::Table(table) = held else {
        return EBADF;
    };
    if key.len() != table.shape().key_words {
        return EINVAL;
    }
    if table.remove(key) { 0 } else { ENOENT }
}

/// Removes a key. A reader that found its element before may use it until its run leaves the section.
///
/// 0, or -EBADF where no table is held; -EINVAL for a wrong length; -ENOENT.
#[unsafe(no_mangle)]
pub extern "C" fn bpfrt0_table_delete_elem(alloc: Global, host: &mut Host, key: &[u64]) -> i32
    ensures removed { result ≡ pos 0 → WritesIn (Removes key.now) (table_in host.old.handle.held) (table_in host.new.handle.held) }
    ensures missing { result ≡ neg_ℤ (pos 2) →
        WritesIn (Seeks key.now None) (table_in host.old.handle.held) (table_in host.new.handle.held) }
    ensures done { IfSome (table_in host.old.handle.held) (λ t. length key.now ≡ t.table.shape.key_words →
        (result ≡ pos 0) ⊎ (result ≡ neg_ℤ (pos 2))) }
    ensures other { IfSome (table_in host.old.handle.held) (λ t. length key.now ≢ t.table.shape.key_words →
        (result ≡ neg_ℤ (pos 22)) × (host.new.handle.held ≡ host.old.handle.held)) }
    ensures none { table_in host.old.handle.held ≡ None →
        (result ≡ neg_ℤ (pos 9)) × (host.new.handle.held ≡ host.old.handle.held) }
{
    let Some(mut held) = host.take(alloc) else {
        return EBADF;
    };
    let number = remove_held(held.as_mut(), key);
    host.put(held);
    number
}

/// Reads the value of a key in the table that is held, if one is.
fn read_held(held: &mut Held, key: &[u64], value: &mut [u64]) -> i32
    ensures read { result ≡ pos 0 → WritesIn (Reads key.now value.new) (table_in (Some held.old)) (table_in (Some held.new)) }
    ensures missing { result ≡ neg_ℤ (pos 2) → WritesIn (Seeks key.now None) (table_in (Some held.old)) (table_in (Some held.new)) }
    ensures done { IfSome (table_in (Some held.old)) (λ t. length key.now ≡ t.table.shape.key_words →
        length value.old ≡ t.table.shape.value_words → (result ≡ pos 0) ⊎ (result ≡ neg_ℤ (pos 2))) }
    ensures other { IfSome (table_in (Some held.old)) (λ t.
        (length key.now ≢ t.table.shape.key_words) ⊎ (length value.old ≢ t.table.shape.value_words) →
        (result ≡ neg_ℤ (pos 22)) × (held.new ≡ held.old)) }
    ensures none { table_in (Some held.old) ≡ None → (result ≡ neg_ℤ (pos 9)) × (held.new ≡ held.old) }
    ensures unwritten { result ≢ pos 0 → value.new ≡ value.old }
{
    let Held::Table(table) = held else {
        return EBADF;
    };
    let shape = table.shape();
    if key.len() != shape.key_words || value.len() != shape.value_words {
        return EINVAL;
    }
    if table.read(key, value) { 0 } else { ENOENT }
}

/// Reads the value of a key; of a table with a value for each reader it is the sum of all, word by word, modulo 2^64.
///
/// 0, or -EBADF where no table is held; -EINVAL for a wrong length; -ENOENT. Then nothing is written.
#[unsafe(no_mangle)]
pub extern "C" fn bpfrt0_table_lookup_elem(
    alloc: Global,
    host: &mut Host,
    key: &[u64],
    value: &mut [u64],
) -> i32
    ensures read { result ≡ pos 0 → WritesIn (Reads key.now value.new) (table_in host.old.handle.held) (table_in host.new.handle.held) }
    ensures missing { result ≡ neg_ℤ (pos 2) →
        WritesIn (Seeks key.now None) (table_in host.old.handle.held) (table_in host.new.handle.held) }
    ensures done { IfSome (table_in host.old.handle.held) (λ t. length key.now ≡ t.table.shape.key_words →
        length value.old ≡ t.table.shape.value_words → (result ≡ pos 0) ⊎ (result ≡ neg_ℤ (pos 2))) }
    ensures other { IfSome (table_in host.old.handle.held) (λ t.
        (length key.now ≢ t.table.shape.key_words) ⊎ (length value.old ≢ t.table.shape.value_words) →
        (result ≡ neg_ℤ (pos 22)) × (host.new.handle.held ≡ host.old.handle.held)) }
    ensures none { table_in host.old.handle.held ≡ None →
        (result ≡ neg_ℤ (pos 9)) × (host.new.handle.held ≡ host.old.handle.held) }
    ensures unwritten { result ≢ pos 0 → value.new ≡ value.old }
{
    let Some(mut held) = host.take(alloc) else {
        return EBADF;
    };
    let number = read_held(held.as_mut(), key, value);
    host.put(held);
    number
}

/// A count, as C is told it.
fn number_of_count(count: usize) -> i32
    ensures { count < 2 ^ 31 → result ≡ pos count }
{
    i32::try_from(count).unwrap_or(i32::MAX)
}

/// Frees the elements that were unlinked and that no reader can hold any more: how many. It looks at each reader once, and waits
/// for none. -EBADF where no table is held.
#[unsafe(no_mangle)]
pub extern "C" fn bpfrt0_table_reclaim(alloc: Global, host: &mut Host) -> i32
    ensures reclaimed { IsSome (table_in host.old.handle.held) → (gone : List ℕ) × (length gone < 2 ^ 31 → result ≡ pos (length gone))
        × WritesIn (Reclaims gone) (table_in host.old.handle.held) (table_in host.new.handle.held) }
    ensures none { table_in host.old.handle.held ≡ None →
        (result ≡ neg_ℤ (pos 9)) × (host.new.handle.held ≡ host.old.handle.held) }
{
    let Some(mut held) = host.take(alloc) else {
        return EBADF;
    };
    let number = match held.as_mut() {
        Held::Table(table) => number_of_count(table.reclaim()),
        _ => EBADF,
    };
    host.put(held);
    number
}

/// The counts of the table that is held, if one is.
fn stat_held(held: &Held) -> Option<TableStat>
    ensures counts { IfSome result (λ s. IfSome (table_in (Some held.now)) (λ t. (s.free ≡ length t.writer.free)
        × (s.waiting ≡ length t.writer.unlinked) × (s.seats ≡ t.seats))) }
    ensures some { IsSome result ↔ IsSome (table_in (Some held.now)) }
{
    let Held::Table(table) = held else {
        return None;
    };
    Some(TableStat {
        free: table.count_free() as u64,
        waiting: table.count_waiting() as u64,
        seats: table.count_seats() as u64,
    })
}

/// Tells how many elements are free and how many wait, and how many seats are left. 0, or -EBADF where no table is held.
#[unsafe(no_mangle)]
pub extern "C" fn bpfrt0_table_stat(alloc: Global, host: &mut Host, stat: &mut TableStat) -> i32
    ensures counts { result ≡ pos 0 → IfSome (table_in host.old.handle.held) (λ t. (stat.new.free ≡ length t.writer.free)
        × (stat.new.waiting ≡ length t.writer.unlinked) × (stat.new.seats ≡ t.seats)) }
    ensures some { IsSome (table_in host.old.handle.held) → result ≡ pos 0 }
    ensures none { table_in host.old.handle.held ≡ None → result ≡ neg_ℤ (pos 9) }
    ensures unwritten { result ≢ pos 0 → stat.new ≡ stat.old }
    ensures kept { host.new.handle.held ≡ host.old.handle.held }
{
    let Some(held) = host.take(alloc) else {
        return EBADF;
    };
    let told = stat_held(&held);
    host.put(held);
    match told {
        Some(counts) => {
            *stat = counts;
            0
        }
        None => EBADF,
    }
}

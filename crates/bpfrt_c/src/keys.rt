//! How a table's keys are asked for, one after another.
ghost use Rattle.std.specs.Prelude.{◌≡◌, ◌≢◌, ◌⊎◌, pos, neg_ℤ, Some, None, IfSome, true, false};
ghost use Rattle.host_tables.specs.Walks.{Meets, MeetsNone};
ghost use Rattle.host_handle.specs.Values.{table_in};
ghost use Rattle.bpfrt_c.specs.Tables.{CanMeet, WritesIn, key_in_c};

use crate::number::{EBADF, EINVAL, ENOENT};
use host_handle::{Held, Host};
use host_tables::HostTable;
use std::alloc::Global;

/// Writes the key that comes next in a table.
fn next_of(table: &mut HostTable, given: u32, key: &[u64], next: &mut [u64]) -> bool
    requires can { CanMeet table.old given key.now next.old }
    ensures table { table.new.table ≡ table.old.table }
    ensures seats { table.new.seats ≡ table.old.seats }
    ensures meets { result ≡ true → Meets (key_in_c given key.now) next.new table.old.writer table.new.writer }
    ensures none { result ≡ false → MeetsNone (key_in_c given key.now) table.old.writer table.new.writer }
    ensures unwritten { result ≡ false → next.new ≡ next.old }
{
    if given == 0 {
        table.next_key(None, next)
    } else {
        table.next_key(Some(key), next)
    }
}

/// The same in the table that is held, if one is.
fn next_held(held: &mut Held, given: u32, key: &[u64], next: &mut [u64]) -> i32
    ensures meets { result ≡ pos 0 → WritesIn (Meets (key_in_c given key.now) next.new) (table_in (Some held.old)) (table_in (Some held.new)) }
    ensures missing { result ≡ neg_ℤ (pos 2) →
        WritesIn (MeetsNone (key_in_c given key.now)) (table_in (Some held.old)) (table_in (Some held.new)) }
    ensures done { IfSome (table_in (Some held.old)) (λ t. CanMeet t given key.now next.old →
        (result ≡ pos 0) ⊎ (result ≡ neg_ℤ (pos 2))) }
    ensures other { IfSome (table_in (Some held.old)) (λ t. (CanMeet t given key.now next.old → ⊥) →
        (result ≡ neg_ℤ (pos 22)) × (held.new ≡ held.old)) }
    ensures none { table_in (Some held.old) ≡ None → (result ≡ neg_ℤ (pos 9)) × (held.new ≡ held.old) }
    ensures unwritten { result ≢ pos 0 → next.new ≡ next.old }
{
    let Held::Table(table) = held else {
        return EBADF;
    };
    let words = table.shape().key_words;
    if next.len() != words || (given != 0 && key.len() != words) {
        return EINVAL;
    }
    if next_of(table, given, key, next) {
        0
    } else {
        ENOENT
    }
}

/// Writes the key of a table that comes next behind a given one: the first of all, where `given` is 0 or the key is not linked.
///
/// 0, or -ENOENT where none comes behind; -EBADF where no table is held; -EINVAL for a wrong length. Then nothing is written.
#[unsafe(no_mangle)]
pub extern "C" fn bpfrt0_table_get_next_key(
    alloc: Global,
    host: &mut Host,
    given: u32,
    key: &[u64],
    next: &mut [u64],
) -> i32
    ensures meets { result ≡ pos 0 →
        WritesIn (Meets (key_in_c given key.now) next.new) (table_in host.old.handle.held) (table_in host.new.handle.held) }
    ensures missing { result ≡ neg_ℤ (pos 2) →
        WritesIn (MeetsNone (key_in_c given key.now)) (table_in host.old.handle.held) (table_in host.new.handle.held) }
    ensures done { IfSome (table_in host.old.handle.held) (λ t. CanMeet t given key.now next.old →
        (result ≡ pos 0) ⊎ (result ≡ neg_ℤ (pos 2))) }
    ensures other { IfSome (table_in host.old.handle.held) (λ t. (CanMeet t given key.now next.old → ⊥) →
        (result ≡ neg_ℤ (pos 22)) × (host.new.handle.held ≡ host.old.handle.held)) }
    ensures none { table_in host.old.handle.held ≡ None →
        (result ≡ neg_ℤ (pos 9)) × (host.new.handle.held ≡ host.old.handle.held) }
    ensures unwritten { result ≢ pos 0 → next.new ≡ next.old }
{
    let Some(mut held) = host.take(alloc) else {
        return EBADF;
    };
    let number = next_held(held.as_mut(), given, key, next);
    host.put(held);
    number
}

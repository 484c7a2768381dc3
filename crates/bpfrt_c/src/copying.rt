//! The call that copies a table's keys into another.
ghost use Rattle.std.specs.Prelude.{◌≡◌, ◌≢◌, ◌⊎◌, pos, neg_ℤ, IfSome, Some, None};
ghost use Rattle.bpfrt_c.specs.Copying.{CopiesIn, StopsIn};
ghost use Rattle.bpfrt_c.specs.Tables.{set_error};
ghost use Rattle.host_tables.specs.Copies.{AreAlike};
ghost use Rattle.host_tables.specs.declared.fault.SetFault.{SetFault as Fault_};
ghost use Rattle.host_handle.specs.Values.{table_in};

use crate::number::{EBADF, EINVAL};
use crate::tables::number_of_fault;
use host_handle::{Held, Host};
use std::alloc::Global;

/// Copies the keys of the table that is held into another one, if both are tables.
fn copy_held(held: &mut Held, larger: &mut Held) -> i32
    ensures copied { result ≡ pos 0 → CopiesIn (table_in (Some held.old)) (table_in (Some larger.old))
        (table_in (Some held.new)) (table_in (Some larger.new)) }
    ensures fault { IfSome (table_in (Some held.old)) (λ t. IfSome (table_in (Some larger.old)) (λ l.
        AreAlike t.table.shape l.table.shape → result ≢ pos 0 → (fault : Fault_) × (result ≡ neg_ℤ (pos (set_error fault)))
        × StopsIn fault (table_in (Some held.old)) (table_in (Some larger.old))
        (table_in (Some held.new)) (table_in (Some larger.new)))) }
    ensures other { IfSome (table_in (Some held.old)) (λ t. IfSome (table_in (Some larger.old)) (λ l.
        (AreAlike t.table.shape l.table.shape → ⊥) →
        (result ≡ neg_ℤ (pos 22)) × (held.new ≡ held.old) × (larger.new ≡ larger.old))) }
    ensures none { (table_in (Some held.old) ≡ None) ⊎ (table_in (Some larger.old) ≡ None) →
        (result ≡ neg_ℤ (pos 9)) × (held.new ≡ held.old) × (larger.new ≡ larger.old) }
{
    let Held::Table(table) = held else {
        return EBADF;
    };
    let Held::Table(other) = larger else {
        return EBADF;
    };
    if !table.is_alike(other) {
        return EINVAL;
    }
    match table.copy_to(other) {
        Ok(()) => 0,
        Err(fault) => number_of_fault(fault),
    }
}

/// Links each key of the table that `host` holds in that of `larger`, with the words of all its values. What readers store in a value
/// after it was loaded is not copied. The two are different handles.
///
/// 0, or -EBADF where one of both holds no table; -EINVAL where keys or values have other lengths there, or an element has
/// more values or fewer; else as `bpfrt0_table_update_elem` into the other table. The keys of the first ways are set there then,
/// and that of the next one is not. What was linked in either table stays, and it may be called again.
#[unsafe(no_mangle)]
pub extern "C" fn bpfrt0_table_copy(alloc: Global, host: &mut Host, larger: &mut Host) -> i32
    ensures copied { result ≡ pos 0 → CopiesIn (table_in host.old.handle.held) (table_in larger.old.handle.held)
        (table_in host.new.handle.held) (table_in larger.new.handle.held) }
    ensures fault { IfSome (table_in host.old.handle.held) (λ t. IfSome (table_in larger.old.handle.held) (λ l.
        AreAlike t.table.shape l.table.shape → result ≢ pos 0 → (fault : Fault_) × (result ≡ neg_ℤ (pos (set_error fault)))
        × StopsIn fault (table_in host.old.handle.held) (table_in larger.old.handle.held)
        (table_in host.new.handle.held) (table_in larger.new.handle.held))) }
    ensures other { IfSome (table_in host.old.handle.held) (λ t. IfSome (table_in larger.old.handle.held) (λ l.
        (AreAlike t.table.shape l.table.shape → ⊥) → (result ≡ neg_ℤ (pos 22))
        × (host.new.handle.held ≡ host.old.handle.held) × (larger.new.handle.held ≡ larger.old.handle.held))) }
    ensures none { (table_in host.old.handle.held ≡ None) ⊎ (table_in larger.old.handle.held ≡ None) →
        (result ≡ neg_ℤ (pos 9)) × (host.new.handle.held ≡ host.old.handle.held)
        × (larger.new.handle.held ≡ larger.old.handle.held) }
{
    let Some(mut held) = host.take(alloc) else {
        return EBADF;
    };
    let Some(mut other) = larger.take(alloc) else {
        host.put(held);
        return EBADF;
    };
    let number = copy_held(held.as_mut(), other.as_mut());
    host.put(held);
    larger.put(other);
    number
}

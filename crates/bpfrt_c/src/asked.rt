//! What is asked of a world outside of events.
ghost use Rattle.std.specs.Prelude.{◌≡◌, ◌≢◌, ◌↔◌, ℕ, List, pos, neg_ℤ, Some, None, IsSome, IfSome, option_copied, option_map, slice_get};
ghost use Rattle.host_handle.specs.Values.{world_in};
ghost use Rattle.world.specs.Asking.{HasNone, IsFound};
ghost use Rattle.bpfrt_c.specs.Asked.{AreCountsOf, bound_in_c};

use crate::number::{EBADF, EINVAL, ENOENT, ENXIO};
use bpf_model::{KEY_BYTES, KeyBytes, MapId, array_of};
use host_handle::{Held, Host};
use std::alloc::Global;
use world::World;

/// In C `struct bpfrt_world_stat`: how many elements are linked, and how many wait for their grace period; how many were reclaimed
/// since the world was opened, and how many slots are worn out; how many runs stand in the world, and how many of these in a section.
#[repr(C)]
#[derive(Clone, Copy, Debug, PartialEq, Eq)]
pub struct WorldStat {
    pub linked: u64,
    pub unlinked: u64,
    pub reclaimed: u64,
    pub worn: u64,
    pub runs: u64,
    pub sections: u64,
}

/// The counts of the world that is held, if one is.
fn stat_held(held: &Held) -> Option<WorldStat>
    ensures counts { IfSome result (λ s. IfSome (world_in (Some held.now)) (AreCountsOf s)) }
    ensures some { IsSome result ↔ IsSome (world_in (Some held.now)) }
{
    let Held::World(world) = held else {
        return None;
    };
    let stat = world.stat();
    Some(WorldStat {
        linked: stat.linked as u64,
        unlinked: stat.unlinked as u64,
        reclaimed: stat.given as u64,
        worn: stat.worn as u64,
        runs: stat.runs as u64,
        sections: stat.open as u64,
    })
}

/// Tells the counts of a world. 0, or -EBADF where no world is held.
#[unsafe(no_mangle)]
pub extern "C" fn bpfrt0_world_stat(alloc: Global, host: &mut Host, stat: &mut WorldStat) -> i32
    ensures counts { result ≡ pos 0 → IfSome (world_in host.old.handle.held) (AreCountsOf stat.new) }
    ensures some { IsSome (world_in host.old.handle.held) → result ≡ pos 0 }
    ensures none { world_in host.old.handle.held ≡ None → result ≡ neg_ℤ (pos 9) }
    ensures unwritten { result ≢ pos 0 → stat.new ≡ stat.old }
    ensures kept { host.new.handle.held ≡ host.old.handle.held }
{
    let Some(held) = host.take(alloc) else {
        return EBADF;
    };
    let told = stat_held(&held);
    host.put(held);
    match told {
        Some(counts) => {
            *stat = counts;
            0
        }
        None => EBADF,
    }
}

/// The least key of a map above a bound, or the least of all, into room of its length.
fn next_in(world: &World, map: MapId, bound: Option<&KeyBytes>, next: &mut [u8]) -> i32
    ensures next { result ≡ pos 0 → (value : List ℕ) × IsFound (slice_get world.now.maps map)
        (option_map (λ k. k.items) (option_copied bound.entry)) next.new value }
    ensures none { result ≡ neg_ℤ (pos 2) → HasNone (slice_get world.now.maps map)
        (option_map (λ k. k.items) (option_copied bound.entry)) }
    ensures unwritten { result ≢ pos 0 → next.new ≡ next.old }
{
    let Some((key, _)) = world.next_above(map, bound) else {
        return ENOENT;
    };
    let bytes = key.as_slice();
    if bytes.len() != next.len() {
        return EINVAL;
    }
    next.copy_from_slice(bytes);
    0
}

/// The same in the world that is held, if one is. Every key is above no bytes.
fn next_held(held: &Held, map: u32, bound: &[u8], next: &mut [u8]) -> i32
    ensures next { result ≡ pos 0 → IfSome (world_in (Some held.now)) (λ w. (value : List ℕ)
        × IsFound (slice_get w.maps map) (bound_in_c bound.now) next.new value) }
    ensures none { result ≡ neg_ℤ (pos 2) → IfSome (world_in (Some held.now)) (λ w.
        HasNone (slice_get w.maps map) (bound_in_c bound.now)) }
    ensures other { world_in (Some held.now) ≡ None → result ≡ neg_ℤ (pos 9) }
    ensures no_map { IfSome (world_in (Some held.now)) (λ w. slice_get w.maps map ≡ None → result ≡ neg_ℤ (pos 6)) }
    ensures unwritten { result ≢ pos 0 → next.new ≡ next.old }
{
    let Held::World(world) = held else {
        return EBADF;
    };
    let map = MapId::new(map as usize);
    let Some(shape) = world.registry().shape(map) else {
        return ENXIO;
    };
    if next.len() != shape.key_len || bound.len() > KEY_BYTES {
        return EINVAL;
    }
    if bound.is_empty() {
        return next_in(world, map, None, next);
    }
    let bound: KeyBytes = array_of(bound);
    next_in(world, map, Some(&bound), next)
}

/// Writes the least key of a map above a bound, in the order of bytes; with a bound of no bytes the least of all.
///
/// 0, or -ENOENT where there is none; -EBADF where no world is held; -ENXIO where no map has the number; -EINVAL where the room has
/// another length than the keys, or the bound is longer than 64 bytes.
#[unsafe(no_mangle)]
pub extern "C" fn bpfrt0_map_get_next_key(
    alloc: Global,
    host: &mut Host,
    map: u32,
    bound: &[u8],
    next: &mut [u8],
) -> i32
    ensures next { result ≡ pos 0 → IfSome (world_in host.old.handle.held) (λ w. (value : List ℕ)
        × IsFound (slice_get w.maps map) (bound_in_c bound.now) next.new value) }
    ensures missing { result ≡ neg_ℤ (pos 2) → IfSome (world_in host.old.handle.held) (λ w.
        HasNone (slice_get w.maps map) (bound_in_c bound.now)) }
    ensures none { world_in host.old.handle.held ≡ None → result ≡ neg_ℤ (pos 9) }
    ensures no_map { IfSome (world_in host.old.handle.held) (λ w. slice_get w.maps map ≡ None → result ≡ neg_ℤ (pos 6)) }
    ensures unwritten { result ≢ pos 0 → next.new ≡ next.old }
    ensures kept { host.new.handle.held ≡ host.old.handle.held }
{
    let Some(held) = host.take(alloc) else {
        return EBADF;
    };
    let number = next_held(&held, map, bound, next);
    host.put(held);
    number
}

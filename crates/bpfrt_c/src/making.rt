//! How worlds are opened, and programs added to them.
ghost use Rattle.std.specs.Prelude.{◌≡◌, ◌≢◌, ◌≤◌, List, pos, neg_ℤ, Some, IsSome, IfSome, IfOk, IfErr, OnErr, length, map};
ghost use Rattle.bpf_model.specs.declared.limits.MapShape.{MapShape as ShapeOf};
ghost use Rattle.bpf_model.specs.declared.limits.TheConstants.{MAX_MAPS};
ghost use Rattle.bpf_model.specs.View.{new_map_view};
ghost use Rattle.host_handle.specs.Values.{program_in, world_in};
ghost use Rattle.bpfrt_c.specs.Shapes.{AreShapesInC};
ghost use Rattle.world.specs.Programs.{program_of};
ghost use Rattle.bpfrt_c.specs.Worlds.{IsNegative, IsNewWorld, LoadsInto, LoadsProgram};

use crate::number::{E2BIG, EBADF, EBUSY, EINVAL, ENOMEM};
use crate::refusal::{Refusal, tell, tell_memory};
use crate::shape::{Shape, ShapesFault, shapes_of};
use arrayvec::ArrayVec;
use bpf_model::{MAX_MAPS, MapShape};
use host_handle::{Held, Host};
use host_programs::{HostProgram, OpenFault};
use maps::{MapFault, Registry};
use std::alloc::Global;
use world::{Loaded, World, WorldFault};

/// The names of a world's maps. No call takes one: a host knows its maps by their numbers.
const NAMES: [&str; MAX_MAPS] = [
    "m0", "m1", "m2", "m3", "m4", "m5", "m6", "m7", "m8", "m9", "m10", "m11", "m12", "m13", "m14",
    "m15",
];

/// New maps of these shapes.
fn registry_of(alloc: Global, shapes: &[MapShape]) -> Result<Registry, ShapesFault>
    requires { length shapes.now ≤ MAX_MAPS }
    ensures maps { IfOk result (λ r. r.maps ≡ map new_map_view shapes.now) }
{
    let mut registry = Registry::new(alloc);
    for map in 0..shapes.len() {
        match registry.create(NAMES[map], shapes[map]) {
            Ok(_) => {}
            Err(MapFault::Memory) => return Err(ShapesFault::Memory),
            Err(_) => return Err(ShapesFault::Fault(OpenFault::BadShape { map })),
        }
    }
    Ok(registry)
}

/// A world of new maps of the shapes that C wrote, without programs.
#[tactic(auto, using(crate::proofs::NewMaps::are_new))]
fn world_of(alloc: Global, shapes: &[Shape]) -> Result<World, ShapesFault>
    ensures new { IfOk result (λ w. (list : List ShapeOf) × AreShapesInC shapes.now list × IsNewWorld list w) }
{
    let shapes = shapes_of(alloc, shapes)?;
    let registry = registry_of(alloc, shapes.as_slice())?;
    match World::new(alloc, registry, Vec::new(alloc)) {
        Ok(world) => Ok(world),
        Err(_) => Err(ShapesFault::Memory),
    }
}

/// Opens a world of new maps of these shapes, which have the numbers 0, 1, 2 and so on, without programs.
///
/// 0, or -EBUSY where the handle is open; -EINVAL where a shape is none, or there are more than 16; -ENOMEM. Of -EINVAL `why` says more.
#[unsafe(no_mangle)]
pub extern "C" fn bpfrt0_world_open(
    alloc: Global,
    host: &mut Host,
    shapes: &[Shape],
    why: &mut Refusal,
) -> i32
    ensures busy { IsSome host.old.handle.held → result ≡ neg_ℤ (pos 16) }
    ensures opened { result ≡ pos 0 → IfSome (world_in host.new.handle.held) (λ w.
        (list : List ShapeOf) × AreShapesInC shapes.now list × IsNewWorld list w) }
    ensures open { result ≡ pos 0 → IsSome (world_in host.new.handle.held) }
    ensures kept { result ≢ pos 0 → host.new.handle.held ≡ host.old.handle.held }
{
    if host.is_open() {
        return EBUSY;
    }
    let world = match world_of(alloc, shapes) {
        Ok(world) => world,
        Err(ShapesFault::Memory) => return tell_memory(why),
        Err(ShapesFault::Fault(fault)) => return tell(alloc, &fault, why),
    };
    let Ok(held) = Box::new(alloc, Held::World(world)) else {
        return tell_memory(why);
    };
    host.put(held);
    0
}

/// The numbers that C wrote, where they are no more than a program may have maps.
fn numbers_of(maps: &[u32]) -> Option<ArrayVec<usize, MAX_MAPS>>
    ensures { IfSome result (λ v. v.items ≡ maps.now) }
{
    if maps.len() > MAX_MAPS {
        return None;
    }
    let mut numbers = ArrayVec::new();
    for map in 0..maps.len() {
        numbers.push(maps[map] as usize);
    }
    Some(numbers)
}

/// A copy of the program that is held, with the numbers of its maps.
fn loaded_of(alloc: Global, held: &Held, maps: &[u32]) -> Result<Loaded, i32>
    ensures program { IfOk result (λ l. IfSome (program_in (Some held.now)) (λ p. l.verified ≡ p.checked)) }
    ensures maps { IfOk result (λ l. l.maps.items ≡ maps.now) }
    ensures some { IfOk result (λ l. IsSome (program_in (Some held.now))) }
    ensures fault { IfErr result IsNegative }
{
    let Held::Program(program) = held else {
        return Err(EBADF);
    };
    let Some(maps) = numbers_of(maps) else {
        return Err(EINVAL);
    };
    match program.program().verified().copy(alloc) {
        Ok(verified) => Ok(Loaded { verified, maps }),
        Err(_) => Err(ENOMEM),
    }
}

/// The number of why a program is not added.
fn number_of_fault(fault: WorldFault) -> i32
    ensures { IsNegative result }
{
    match fault {
        WorldFault::TooManyPrograms => E2BIG,
        WorldFault::Binding { .. } => EINVAL,
        WorldFault::Memory => ENOMEM,
    }
}

/// Adds a program to the world that is held, if one is: its number.
fn load_into(held: &mut Held, loaded: Loaded) -> Result<i32, i32>
    ensures loaded { IfOk result (LoadsInto (world_in (Some held.old)) (program_of loaded) (world_in (Some held.new))) }
    ensures kept { OnErr result (held.new ≡ held.old) }
    ensures fault { IfErr result IsNegative }
{
    let Held::World(world) = held else {
        return Err(EBADF);
    };
    match world.load(loaded) {
        Ok(program) => Ok(program.index() as i32),
        Err(fault) => Err(number_of_fault(fault)),
    }
}

/// Adds a program to a world that may have run for long, whose map `maps[0]` is the program's map 0, and so on: the program's number.
///
/// -EBADF where either handle holds something else; -E2BIG where there are 64 programs; -EINVAL where a map is missing, or has
/// another shape than the program was verified for; -ENOMEM. Then nothing has changed.
#[unsafe(no_mangle)]
pub extern "C" fn bpfrt0_world_load(
    alloc: Global,
    host: &mut Host,
    prog: &mut Host,
    maps: &[u32],
) -> i32
    ensures loaded { (IsNegative result → ⊥) → LoadsProgram (program_in prog.old.handle.held) maps.now
        (world_in host.old.handle.held) (world_in host.new.handle.held) result }
    ensures kept { IsNegative result → host.new.handle.held ≡ host.old.handle.held }
    ensures prog { prog.new.handle.held ≡ prog.old.handle.held }
{
    let Some(program) = prog.take(alloc) else {
        return EBADF;
    };
    let made = loaded_of(alloc, &program, maps);
    prog.put(program);
    let loaded = match made {
        Ok(loaded) => loaded,
        Err(number) => return number,
    };
    let Some(mut held) = host.take(alloc) else {
        return EBADF;
    };
    let added = load_into(held.as_mut(), loaded);
    host.put(held);
    match added {
        Ok(number) => number,
        Err(number) => number,
    }
}

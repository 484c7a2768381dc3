//! Registries of maps, and a copy of one: it answers as the original would, whatever becomes of the other.
use crate::map_tables::SMALL;
use bpf_model::{MapId, MapShape};
use maps::Registry;
use std::alloc::Global;
use std::test::Fail;

/// A shape of no map: it has no entries.
const EMPTY: MapShape = MapShape {
    entries: 0,
    ..SMALL
};

/// Names and what becomes of a map of each, the faults in their order.
static NAMES: [(&str, bool, Option<u8>); 9] = [
    ("", true, Some(50)),
    ("9a", true, Some(50)),
    ("Flows", true, Some(50)),
    ("flow-s", false, Some(50)),
    ("flows_9", true, None),
    ("flows_9", false, Some(51)),
    ("other", false, Some(52)),
    ("abcdefghijklmnopqrstuvwxyz_01234", true, None),
    ("abcdefghijklmnopqrstuvwxyz_012345", true, Some(50)),
];

/// The code of the fault of a map of this name, unless it is created.
fn told(registry: &mut Registry, name: &str, fine: bool) -> Option<u8> {
    let shape = if fine { SMALL } else { EMPTY };
    match registry.create(name, shape) {
        Ok(_) => None,
        Err(fault) => Some(fault.code()),
    }
}

/// The name of the second map.
const SECOND: &str = "abcdefghijklmnopqrstuvwxyz_01234";

/// Whether there are two maps, of which the second has its name and its shape.
fn has_second(registry: &Registry) -> bool {
    let second = MapId::new(1);
    registry.len() == 2
        && registry.id(SECOND) == Some(second)
        && registry.id("other").is_none()
        && registry.shape(second) == Some(SMALL)
        && registry.name(second) == Some(SECOND)
        && registry.map(second).is_some()
}

#[test]
fn registry_of_maps(rt: HostRuntime) -> Result<(), Fail> {
    let mut registry = Registry::new(rt.alloc());
    for (name, fine, code) in &NAMES {
        let told = told(&mut registry, name, *fine);
        assert!(rt; told == *code, "{name}");
    }
    assert!(rt; has_second(&registry));
    Ok(())
}

/// Puts a value under a key of the second map of a registry, and tells in which map slot it stands.
fn put_second(registry: &mut Registry, key: u8, value: u8) -> Option<usize> {
    if registry.len() < 2 {
        return None;
    }
    let map = registry.map_mut(MapId::new(1));
    let shape = map.shape();
    if shape.key_len != 1 || shape.value_len != 2 {
        return None;
    }
    match map.update(&[key], &[value, 0], 0) {
        Ok(()) => map.lookup(&[key]),
        Err(_) => None,
    }
}

/// Whether there are the maps first and second, in this order, and no other.
fn has_two(registry: &Registry) -> bool {
    registry.len() == 2
        && registry.name(MapId::new(0)) == Some("first")
        && registry.name(MapId::new(1)) == Some("second")
        && registry.id("second") == Some(MapId::new(1))
        && registry.id("third").is_none()
}

/// A registry of the maps first and second. The second has one element.
fn made(alloc: Global) -> Option<Registry> {
    let mut registry = Registry::new(alloc);
    let first = registry.create("first", SMALL).is_ok();
    let second = registry.create("second", SMALL).is_ok();
    if first && second && put_second(&mut registry, 7, 1) == Some(0) {
        return Some(registry);
    }
    None
}

/// Whether the original gets a third map and another value.
fn goes_on(mut registry: Registry) -> bool {
    let third = registry.create("third", SMALL).is_ok();
    third && put_second(&mut registry, 7, 2) == Some(1)
}

/// Whether the copy has the two maps, and elements get their slots there.
fn is_copy(copy: &mut Registry) -> bool {
    has_two(copy) && put_second(copy, 8, 3) == Some(1) && put_second(copy, 7, 4) == Some(2)
}

#[test]
fn copy_of_a_registry(rt: HostRuntime) -> Result<(), Fail> {
    let Some(registry) = made(rt.alloc()) else {
        return Err(Fail::from("no registry"));
    };
    let mut copy = registry.copy()?;
    let went_on = goes_on(registry);
    assert!(rt; went_on && is_copy(&mut copy));
    Ok(())
}

//! Worlds that are not made, programs that are not added to one, and the fault that is told.
use crate::making::{Setup, world_of};
use bpf_model::{MAX_PROGRAMS, ProgId};
use std::alloc::Global;
use std::test::Fail;
use world::{Loaded, World, WorldFault};

/// The maps. The second has another shape than the first, of equal lengths: what a program was verified for is the shape as a
/// whole. The fourth is a hash map with the numbers that the third, an array, has: a kind is a part of the shape, too.
const MAPS: &str = "map 4 8 4 4 100\nmap 4 8 5 4 100\nmap array 8 4\nmap 4 8 4 0 1";

const PLAIN: &str = "\nprog 0: EXIT_ONE";

const WELL: &str = "\nprog 0 0: LOOKUP";

const OTHER_SHAPE: &str = "\nprog 0 0: LOOKUP\nbind 1";

const OTHER_KIND: &str = "\nprog 0 3: LOOKUP\nbind 2";

const MISSING: &str = "\nprog 0 0: LOOKUP\nbind 4";

const TOO_FEW: &str = "\nprog 0 0: LOOKUP\nbind none";

const TOO_MANY: &str = "\nprog 0 0: LOOKUP\nbind 0 0";

/// A fault, by its number and, if it tells one, its program.
type Told = (u8, Option<usize>);

/// So many programs without maps, then these; and the fault.
type Row = (usize, [&'static str; 3], Option<Told>);

/// A world has `MAX_PROGRAMS` programs at most, which is tested first; then the first program that is not bound is
/// told.
static ROWS: [Row; 13] = [
    (0, ["", "", ""], None),
    (0, [WELL, PLAIN, ""], None),
    (MAX_PROGRAMS, ["", "", ""], None),
    (MAX_PROGRAMS + 1, ["", "", ""], Some((54, None))),
    (MAX_PROGRAMS, [MISSING, "", ""], Some((54, None))),
    (63, [MISSING, "", ""], Some((55, Some(63)))),
    (0, [WELL, MISSING, ""], Some((55, Some(1)))),
    (0, [OTHER_SHAPE, "", ""], Some((55, Some(0)))),
    (0, [OTHER_KIND, "", ""], Some((55, Some(0)))),
    (1, [TOO_FEW, "", ""], Some((55, Some(1)))),
    (2, [TOO_MANY, "", ""], Some((55, Some(2)))),
    (0, [WELL, TOO_FEW, OTHER_SHAPE], Some((55, Some(1)))),
    (1, [OTHER_SHAPE, MISSING, WELL], Some((55, Some(1)))),
];

/// The last of these programs is added to a world of the others, which is made.
static ADDED: [Row; 11] = [
    (0, [WELL, "", ""], None),
    (2, [WELL, "", ""], None),
    (63, [PLAIN, "", ""], None),
    (63, [MISSING, "", ""], Some((55, Some(63)))),
    (64, [PLAIN, "", ""], Some((54, None))),
    (64, [MISSING, "", ""], Some((54, None))),
    (0, [MISSING, "", ""], Some((55, Some(0)))),
    (1, [OTHER_SHAPE, "", ""], Some((55, Some(1)))),
    (1, [OTHER_KIND, "", ""], Some((55, Some(1)))),
    (2, [TOO_FEW, "", ""], Some((55, Some(2)))),
    (3, [TOO_MANY, "", ""], Some((55, Some(3)))),
];

/// The programs of a row.
fn setup_of(alloc: Global, row: &Row) -> Result<Setup, Fail> {
    let (plain, [first, second, third], _) = row;
    let plain = PLAIN.repeat(alloc, *plain)?;
    let text = format!(in alloc; "{MAPS}{plain}{first}{second}{third}")?;
    Setup::read(alloc, &text)
}

fn told_of(fault: &WorldFault) -> Told {
    match fault {
        WorldFault::Binding { program } => (fault.code(), Some(program.index())),
        _ => (fault.code(), None),
    }
}

/// What is told of a row's programs. Want of memory (13) is not made here: `rt try --test --fail-alloc N` makes it, allocation
/// by allocation.
fn made(alloc: Global, row: &Row) -> Result<Option<Told>, Fail> {
    let setup = setup_of(alloc, row)?;
    let loaded = setup.loaded;
    match world_of(alloc, &setup.shapes, loaded)? {
        Ok(_) => Ok(None),
        Err(fault) => Ok(Some(told_of(&fault))),
    }
}

/// What is told of a program that is added. It is there under the next number unless it is refused.
fn told_of_last(world: &mut World, count: usize, last: Loaded) -> Result<Option<Told>, Fail> {
    let told = match world.load(last) {
        Ok(_) => None,
        Err(fault) => Some(told_of(&fault)),
    };
    if world.program(ProgId::new(count)).is_some() != told.is_none() {
        return Err(Fail::from("the fault and the programs differ"));
    }
    Ok(told)
}

/// What is told of the last of a row's programs, which is added to a world of the others.
fn added(alloc: Global, row: &Row) -> Result<Option<Told>, Fail> {
    let setup = setup_of(alloc, row)?;
    let mut loaded = setup.loaded;
    let Some(last) = loaded.pop() else {
        return Err(Fail::from("no program"));
    };
    let count = loaded.len();
    let mut world = world_of(alloc, &setup.shapes, loaded)??;
    told_of_last(&mut world, count, last)
}

#[test]
fn worlds_that_are_not_made(rt: HostRuntime) -> Result<(), Fail> {
    for (number, row) in ROWS.iter().enumerate() {
        assert!(rt; made(rt.alloc(), row)? == row.2, "row {number}");
    }
    Ok(())
}

#[test]
fn programs_that_are_not_added(rt: HostRuntime) -> Result<(), Fail> {
    for (number, row) in ADDED.iter().enumerate() {
        assert!(rt; added(rt.alloc(), row)? == row.2, "row {number}");
    }
    Ok(())
}

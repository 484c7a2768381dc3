//! Worlds that workers share, and what is asked of them.
ghost use Rattle.std.specs.Prelude.{◌≡◌};

use crate::making::{Setup, world_of};
use crate::text::event_of;
use bpf_model::{Event, MAX_JOURNAL};
use shared::{Counters, MAX_WORKERS, Shared, Workers, is_quiet};
use std::alloc::{AllocError, Global};
use std::process::Abort;
use std::sync::ledger::{Blank, Ledger};
use std::test::Fail;
use world::{Loaded, World};

/// Three maps, the second with longer values; and six programs: 1 and 2 look up the keys 0 and 1, 3 exits with the byte of its
/// context, 4 is 1 once more, on the second map, and 5 adds 1 to the value of a key, and exits with it.
const SCENERY: &str = "\
map 4 8 4 4 100
map 4 16 4 4 100
map 4 8 4 4 100
prog 0: EXIT_ONE
prog 0 0: LOOKUP
prog 0 0: mov64 r6, 0; callbtf 1; stw [r10-4], 1; mov64 r2, r10; add64 r2, -4; \
ldmap r1, 0; call 1; jeq r0, 0, +1; ldxdw r6, [r0+0]; callbtf 2; mov64 r0, r6; exit
prog 1: ldxb r0, [r1+0]; exit
prog 0 1: LOOKUP
prog 1 0: ADD_ONE";

/// A lookup on the third map, which has the shape of the first.
const ONE_MORE: &str = "\
map 4 8 4 4 100
map 4 16 4 4 100
map 4 8 4 4 100
prog 0 2: LOOKUP";

/// The event of a line.
pub fn event<R: Abort>(rt: &R, alloc: Global, line: &str) -> Result<Event, AllocError> {
    let words: Vec<&str> = line.split(' ').collect(alloc)?;
    Ok(event_of(&words).expect(rt, "an event"))
}

/// A program that looks up the key 0 in the third map.
pub fn one_more(alloc: Global) -> Result<Loaded, Fail> {
    let mut setup = Setup::read(alloc, ONE_MORE)?;
    match setup.loaded.pop() {
        Some(loaded) => Ok(loaded),
        None => Err(Fail::from("no program")),
    }
}

/// A world with the maps and the programs of `SCENERY`.
pub fn scenery(alloc: Global) -> Result<World, Fail> {
    let Setup { shapes, loaded, .. } = Setup::read(alloc, SCENERY)?;
    Ok(world_of(alloc, &shapes, loaded)??)
}

/// Shares a world among so many workers, 1 to 8, with a journal of so many entries, if it is said how many.
pub fn shared_of<L: Ledger + Send + Sync, R: Abort>(
    rt: &R,
    alloc: Global,
    world: World,
    blank: Blank,
    workers: u8,
    limit: Option<usize>,
) -> Result<(Shared<L>, Workers<L>, Counters), AllocError>
    requires name { blank.name ≡ L.name }
    requires parts { (blank.parts ≡ L.parts) × (blank.parts ≡ workers) }
{
    assert!(rt; is_quiet(&world) && 0 < workers && workers <= MAX_WORKERS);
    let Some(limit) = limit else {
        return Shared::<L>::new(alloc, world, workers, blank);
    };
    assert!(rt; 0 < limit && limit <= MAX_JOURNAL);
    Shared::<L>::with_limit(alloc, world, workers, limit, blank)
}

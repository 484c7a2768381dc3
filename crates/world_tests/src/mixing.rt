//! Events of every kind, one for each worker and turn.

/// The events of which each is one, over four keys: 53.
const EVENTS: &str = "\
put 0 00000000 0100000000000000 0; get 0 00000000; advance; reap; start 1 -; step 0; drop 0; \
put 0 01000000 0200000000000000 0; del 0 00000000; get 0 01000000; put 0 02000000 0300000000000000 0; advance; \
reap; start 1 -; step 1; put 0 03000000 0400000000000000 0; drop 1; get 0 02000000; \
put 0 00000000 0500000000000000 0; del 0 01000000; advance; reap; start 1 -; step 2; get 0 03000000; \
put 0 01000000 0600000000000000 0; drop 2; put 0 02000000 0700000000000000 0; get 0 00000000; advance; reap; \
start 1 -; step 3; put 0 03000000 0800000000000000 0; del 0 02000000; get 0 01000000; drop 3; \
put 0 00000000 0900000000000000 0; advance; reap; start 1 -; step 0; put 0 01000000 0a00000000000000 0; \
get 0 02000000; put 0 02000000 0b00000000000000 0; del 0 03000000; drop 0; advance; reap; start 1 -; step 1; \
get 0 03000000; put 0 03000000 0c00000000000000 0";

/// The event of a worker at this turn, as a line.
pub fn line_of(worker: u8, turn: u16) -> &'static str {
    let place = (u32::from(turn) * 7 + u32::from(worker) * 13) % 53;
    EVENTS.split("; ").nth(place as usize).unwrap_or("advance")
}

//! Events, one after another, that look like none in particular.
ghost use Rattle.std.specs.Prelude.{◌<◌};

use crate::making::{KINDS, MAPS};
use bpf_model::{CtxBytes, Event, KeyBytes, MAX_RUNS, MapId, ProgId, RunId, ValueBytes, array_of};

/// How many turns a worker's time has: in the last quarter of it no run is started, so that all end and the journal may be
/// cut.
const TURNS: u32 = 32_768;

/// The state of a generator of numbers (a linear congruence modulo 2^64).
#[derive(Drop)]
pub struct Mixer {
    state: u64,
}

impl Mixer {
    /// A generator of a worker's own in a round of its own.
    pub fn new(worker: u8, round: u32) -> Mixer {
        Mixer {
            state: (u64::from(round) << 8) | u64::from(worker),
        }
    }

    /// A number below this one.
    pub fn below(&mut self, limit: u32) -> u32
        requires { 0 < limit }
        ensures { result < limit }
    {
        self.state = self
            .state
            .wrapping_mul(6_364_136_223_846_793_005)
            .wrapping_add(1_442_695_040_888_963_407);
        (self.state >> 33) as u32 % limit
    }

    /// One of the maps.
    fn map(&mut self) -> MapId {
        MapId::new(self.below(MAPS as u32) as usize)
    }

    /// One of ten keys.
    fn key(&mut self) -> KeyBytes {
        array_of(&[self.below(10) as u8, 0, 0, 0])
    }

    /// One of the run slots.
    fn run(&mut self) -> RunId {
        RunId::new(self.below(MAX_RUNS as u32) as usize)
    }

    /// A value, of which one in sixteen has a wrong length.
    fn value(&mut self) -> ValueBytes {
        let mut value = array_of(&[self.below(256) as u8, 1, 2, 3, 4, 5, 6, 7]);
        if self.below(16) == 0 {
            let _ = value.pop();
        }
        value
    }

    /// A start of one of the programs.
    fn start(&mut self) -> Event {
        let prog = ProgId::new(self.below((MAPS * KINDS) as u32) as usize);
        let mut ctx = CtxBytes::new();
        let _ = ctx.try_push(self.below(256) as u8);
        Event::Start { prog, ctx }
    }

    /// An event on a map.
    fn of_map(&mut self) -> Event {
        let (map, key) = (self.map(), self.key());
        match self.below(8) {
            0..4 => Event::Update {
                map,
                key,
                value: self.value(),
                flags: u64::from(self.below(4)),
            },
            4 | 5 => Event::Delete { map, key },
            _ => Event::Read { map, key },
        }
    }

    /// The event of a turn.
    pub fn event(&mut self, turn: u32) -> Event {
        let may_start = turn % TURNS < TURNS / 4 * 3;
        match self.below(16) {
            0..7 => Event::Step { run: self.run() },
            7 if may_start => self.start(),
            7 | 8 => Event::Drop { run: self.run() },
            9..13 => self.of_map(),
            13 => Event::Advance,
            _ => Event::Reap,
        }
    }
}

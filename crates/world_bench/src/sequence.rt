//! Numbers in a fixed sequence (Knuth's linear congruence of 64 bits), of which the high bits are taken.
ghost use Rattle.std.specs.Prelude.{◌<◌};

/// Where the sequence stands.
#[derive(Clone, Copy)]
pub struct Sequence {
    state: u64,
}

impl Sequence {
    /// The sequence from 1.
    pub fn new() -> Sequence {
        Sequence { state: 1 }
    }

    /// The next number, below a bound.
    pub fn below(&mut self, bound: u64) -> u64
        requires { 0 < bound }
        ensures { result < bound }
    {
        self.state = self
            .state
            .wrapping_mul(6_364_136_223_846_793_005)
            .wrapping_add(1_442_695_040_888_963_407);
        (self.state >> 33) % bound
    }
}

//! The numbers by which programs, runs and maps are named.
ghost use Rattle.std.specs.Prelude.{ℕ, ◌≡◌};

use std::marker::Model;

/// A loaded program: its index in the list of programs. Contracts see it as that number.
#[derive(Clone, Copy, Debug, PartialEq, Eq)]
pub struct ProgId {
    number: usize,
}

/// A run: the run slot that it occupies. Contracts see it as that number.
#[derive(Clone, Copy, Debug, PartialEq, Eq)]
pub struct RunId {
    number: usize,
}

/// A map of the registry, 0, 1, 2 in order of creation. Contracts see it as that number.
#[derive(Clone, Copy, Debug, PartialEq, Eq)]
pub struct MapId {
    number: usize,
}

impl Model for ProgId {
    ghost Value = { ℕ };

    ghost view = { λ p. p.number };

    ghost inverse = { λ n. record { number = n } };
}

impl Model for RunId {
    ghost Value = { ℕ };

    ghost view = { λ r. r.number };

    ghost inverse = { λ n. record { number = n } };
}

impl Model for MapId {
    ghost Value = { ℕ };

    ghost view = { λ m. m.number };

    ghost inverse = { λ n. record { number = n } };
}

impl ProgId {
    /// The program of this number; whether there is one is asked where it is used.
    pub fn new(number: usize) -> ProgId
        ensures { result ≡ number }
    {
        ProgId { number }
    }

    /// Its index in the list of programs.
    pub fn index(self) -> usize
        ensures { result ≡ self }
    {
        self.number
    }
}

impl RunId {
    /// The run in this run slot; whether there is one is asked where it is used.
    pub fn new(number: usize) -> RunId
        ensures { result ≡ number }
    {
        RunId { number }
    }

    /// The run slot that it occupies.
    pub fn index(self) -> usize
        ensures { result ≡ self }
    {
        self.number
    }
}

impl MapId {
    /// The map of this number; whether there is one is asked where it is used.
    pub fn new(number: usize) -> MapId
        ensures { result ≡ number }
    {
        MapId { number }
    }

    /// Its number in the registry.
    pub fn index(self) -> usize
        ensures { result ≡ self }
    {
        self.number
    }
}

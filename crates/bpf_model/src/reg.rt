//! The eleven registers (RFC 9669, section 3.1; Linux BPF documentation, "Registers and calling convention").
ghost use Rattle.std.specs.Prelude.{ℕ, ◌≡◌, ◌≤◌, ◌<◌, MatchOption};
ghost use Rattle.bpf_model.specs.declared.limits.TheConstants.{REGISTERS};

use std::marker::Model;

/// A register, `r0` to `r10`. Contracts see it as its number.
#[derive(Clone, Copy, Debug, PartialEq, Eq)]
pub struct Reg {
    number: u8,
}

impl Model for Reg {
    ghost use Rattle.std.specs.Prelude.{ℕ, ◌≤◌};

    ghost Value = { ℕ };

    ghost view = { λ r. r.number };

    ghost invariant = { λ r. r.number ≤ 10 };

    ghost inverse = { λ n. record { number = n } };
}

impl Reg {
    /// The result of a function, and a program's exit value.
    pub const R0: Reg = Reg { number: 0 };
    /// The first argument of a call.
    pub const R1: Reg = Reg { number: 1 };
    /// The second argument of a call.
    pub const R2: Reg = Reg { number: 2 };
    /// The third argument of a call.
    pub const R3: Reg = Reg { number: 3 };
    /// The fourth argument of a call.
    pub const R4: Reg = Reg { number: 4 };
    /// The frame pointer, which no instruction writes.
    pub const R10: Reg = Reg { number: 10 };

    /// The register of this number, or `None` above 10.
    pub fn new(number: u8) -> Option<Reg>
        ensures { MatchOption result (10 < number) (λ r. (r ≡ number) × (number ≤ 10)) }
    {
        if number <= 10 {
            Some(Reg { number })
        } else {
            None
        }
    }

    /// Its number, 0 to 10.
    pub fn number(self) -> u8
        ensures value { result ≡ self }
        ensures bound { result ≤ 10 }
    {
        self.number
    }

    /// Its number as an index into `REGISTERS` registers.
    pub fn index(self) -> usize
        ensures value { result ≡ self }
        ensures bound { result < REGISTERS }
    {
        usize::from(self.number)
    }
}

//! Known bits of sums.
ghost use Rattle.std.specs.Prelude.{ℕ, ◌+◌, ◌-◌, ◌%◌, ◌^◌, ◌≤◌};
ghost use Rattle.scalar_domain.specs.Mask.{Within, HasBits, AreKnownBelow};

/// Bits that may be one, and bits that are.
#[derive(Clone, Copy, Debug, PartialEq, Eq)]
pub struct KnownBits {
    pub may: u64,
    pub must: u64,
    pub ghost consistent: { Within must may },
}

impl KnownBits {
    /// Those of the sums of two numbers and a carry, as words. A bit of a sum is known where those of
    /// both numbers are, and the carry into it is: the least sum, of the bits that are one, and the
    /// greatest, of those that may be, agree there.
    pub(crate) fn add(self, other: KnownBits, carry: u64) -> KnownBits
        requires { carry ≤ 1 }
        ensures sound { (x y : ℕ) → HasBits self.may self.must x → HasBits other.may other.must y
            → HasBits result.may result.must ((x + y + carry) % 2 ^ 64) }
        ensures low { (t : ℕ) → t ≤ 64 → AreKnownBelow t self.may self.must
            → AreKnownBelow t other.may other.must → AreKnownBelow t result.may result.must }
    {
        let least = self.must.wrapping_add(other.must).wrapping_add(carry);
        let greatest = self.may.wrapping_add(other.may).wrapping_add(carry);
        let open = (self.may ^ self.must) | (other.may ^ other.must) | (least ^ greatest);
        KnownBits {
            may: least | open,
            must: least & !open,
        }
    }
}

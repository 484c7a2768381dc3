//! Whether a set holds some number.
ghost use Rattle.std.specs.Prelude.{ℕ, ◌≤◌, ◌<◌, ◌+◌, IsTrue, ◌↔◌};
ghost use Rattle.scalar_domain.specs.Scalar.{HoldsSome};
ghost use Rattle.scalar_domain.specs.Mask.{Within};

use crate::scalar::Scalar;

/// Where the numbers between two bounds are split: behind the last one in which the highest bit that
/// differs in both bounds is 0. Those up to it have no ones that it has not, and those behind it have
/// all the ones of the next.
fn split(least: u64, greatest: u64) -> u64
    requires { least ≤ greatest }
    ensures least { least ≤ result }
    ensures greatest { result ≤ greatest }
    ensures lower { (n : ℕ) → least ≤ n → n ≤ result → Within n result }
    ensures upper { (n : ℕ) → result < n → n ≤ greatest → Within (result + 1) n }
{
    if least == greatest {
        return least;
    }
    least | (u64::MAX / 2) >> (least ^ greatest).leading_zeros()
}

impl Scalar {
    /// Whether the set holds some number. If so, it holds the greatest of the lower part with all the
    /// ones that may be there, or the least of the upper part with the ones that must.
    #[tactic(auto, using(crate::proofs::Bits::bits_laws))]
    pub(crate) fn is_inhabited(self) -> bool
        ensures { IsTrue result ↔ HoldsSome self }
    {
        let last = split(self.least, self.greatest);
        self.contains(last & self.may)
            || last < self.greatest && self.contains((last + 1) | self.must)
    }
}

//! Loaded programs.
ghost use Rattle.std.specs.Prelude.{◌≡◌, ◌≤◌, length, IfOk};
ghost use Rattle.std.specs.List.{range_with_len};
ghost use Rattle.bpf_model.specs.declared.limits.TheConstants.{MAX_MAPS};
ghost use Rattle.world_laws.specs.Binding.{IsBoundTo};

use arrayvec::ArrayVec;
use bpf_model::{MAX_MAPS, MapShape};
use std::alloc::{AllocError, Global};
use verifier::Verified;

/// A verified program with the numbers of its maps: those that its list names, in the order of the shapes
/// that it was verified for.
#[derive(Drop)]
pub struct Loaded {
    pub verified: Verified,
    pub maps: ArrayVec<usize, MAX_MAPS>,
}

/// The numbers of as many maps as there are shapes, each under its own.
fn all_numbers(shapes: &[MapShape]) -> ArrayVec<usize, MAX_MAPS>
    requires { length shapes.now ≤ MAX_MAPS }
    ensures numbers { result.items ≡ range_with_len 0 (length shapes.now) }
    ensures bound { IsBoundTo shapes.now shapes.now result.items }
{
    let mut maps = ArrayVec::new();
    for number in 0..shapes.len() {
        maps.push(number);
    }
    maps
}

/// A copy of the numbers of a program's maps, in their order.
fn copy_of_numbers(maps: &ArrayVec<usize, MAX_MAPS>) -> ArrayVec<usize, MAX_MAPS>
    ensures same { result ≡ maps.now }
{
    let mut copy = ArrayVec::new();
    match copy.try_extend_from_slice(maps.as_slice()) {
        Ok(()) => copy,
        Err(_) => unreachable!(),
    }
}

impl Loaded {
    /// The program with map 0 of a world as its map 0, map 1 as its map 1, and so on: as many as it was verified
    /// for. To maps of just these shapes it is bound so.
    pub fn in_order(verified: Verified) -> Loaded
        requires few { length verified.shapes ≤ MAX_MAPS }
        ensures verified { result.verified ≡ verified }
        ensures maps { result.maps.items ≡ range_with_len 0 (length verified.shapes) }
        ensures bound { IsBoundTo verified.shapes verified.shapes result.maps.items }
    {
        let maps = all_numbers(verified.shapes());
        Loaded { verified, maps }
    }

    /// An equal loaded program. The error is that there is no memory left.
    pub fn copy(&self, alloc: Global) -> Result<Loaded, AllocError>
        ensures same { IfOk result (λ l. l ≡ self.now) }
    {
        let verified = self.verified.copy(alloc)?;
        let maps = copy_of_numbers(&self.maps);
        Ok(Loaded { verified, maps })
    }
}

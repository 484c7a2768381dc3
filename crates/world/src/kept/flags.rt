//! A byte for each run slot, which says whether it is occupied. The lowest free run slot is found by them.
ghost use Rattle.std.specs.Prelude.{◌≡◌, List, None, Option, Some, map, replicate, slice_get, IfOk, IfSome};
ghost use Rattle.bpf_model.specs.Machine.{lowest_free as lowest_free_of};
ghost use Rattle.bpf_model.specs.declared.limits.TheConstants.{MAX_RUNS};
ghost use Rattle.machine.specs.RunWords.{RunWords};
ghost use Rattle.world.specs.Keeping.{flag_of, view_of};

use bpf_model::MAX_RUNS;
use memchr::memchr;
use std::alloc::{AllocError, Global};

/// A free run slot.
pub(crate) const FREE: u8 = 0;

/// An occupied run slot.
pub(crate) const OCCUPIED: u8 = 1;

/// The flags of `MAX_RUNS` free run slots. Fails where memory runs out.
pub(crate) fn free_flags(alloc: Global) -> Result<Vec<u8>, AllocError>
    ensures { IfOk result (λ v. v.items ≡ replicate MAX_RUNS 0) }
{
    vec![in alloc; FREE; MAX_RUNS]
}

/// The lowest free run slot of runs whose flags these are.
#[inline]
pub(crate) fn lowest_free(flags: &[u8]) -> Option<usize>
    ensures slot { (runs : List (Option RunWords)) → flags.now ≡ map flag_of runs →
        result ≡ lowest_free_of (map view_of runs) }
    ensures free { (runs : List (Option RunWords)) → flags.now ≡ map flag_of runs →
        IfSome result (λ r. slice_get runs r ≡ Some None) }
{
    memchr(FREE, flags)
}

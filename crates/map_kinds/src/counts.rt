//! What is counted of maps.
ghost use Rattle.std.specs.Prelude.{◌≡◌, ◌<◌, ◌≤◌, ◌+◌, IfNone};
ghost use Rattle.bpf_model.specs.declared.limits.TheConstants.{MAX_ENTRIES, MAX_SPARE};
ghost use Rattle.map_kinds.specs.Counting.{counts_linked, counts_reaped};

use bpf_model::Given;

/// How many elements are linked, how many are unlinked and not yet reclaimed, and how many map
/// slots are worn out.
#[derive(Clone, Copy, Debug, PartialEq, Eq)]
pub struct Counts {
    pub linked: usize,
    pub unlinked: usize,
    pub worn: usize,
}

/// The counts after an update of a key that was found or not.
pub(crate) fn counts_after_update(found: Option<usize>, counts: Counts) -> Counts
    requires linked { IfNone found (counts.linked < MAX_ENTRIES) }
    requires unlinked { counts.unlinked ≤ MAX_ENTRIES + MAX_SPARE }
    ensures { result ≡ counts_linked found counts }
{
    match found {
        None => Counts {
            linked: counts.linked + 1,
            ..counts
        },
        Some(_) => Counts {
            unlinked: counts.unlinked + 1,
            ..counts
        },
    }
}

/// The counts after an element was reclaimed.
pub(crate) fn counts_after_reap(given: Given, counts: Counts) -> Counts
    requires unlinked { 1 ≤ counts.unlinked }
    requires worn { counts.worn ≤ MAX_ENTRIES + MAX_SPARE }
    ensures { result ≡ counts_reaped given counts }
{
    let unlinked = counts.unlinked - 1;
    match given {
        Given::Free => Counts { unlinked, ..counts },
        Given::Worn => Counts {
            unlinked,
            worn: counts.worn + 1,
            ..counts
        },
    }
}

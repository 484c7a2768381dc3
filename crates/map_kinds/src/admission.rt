//! The tests of an update.
ghost use Rattle.std.specs.Prelude.{false, ◌≡◌, ◌<◌, IfNone, IfOk, is_some, Some};
ghost use Rattle.bpf_model.specs.Helper.{hash_error, array_error};
ghost use Rattle.bpf_model.specs.MapState.{MapState};
ghost use Rattle.map_kinds.specs.Shown.{or_no_memory};
ghost use Rattle.map_kinds.specs.Updated.{error_of};

use bpf_model::Errno;

/// What an update of a hash map is tested by: its flags, how many elements the map has, and how many it may have.
#[derive(Clone, Copy)]
pub(crate) struct Admission {
    pub(crate) flags: u64,
    pub(crate) linked: usize,
    pub(crate) entries: usize,
}

impl Admission {
    /// Which test fails first, but for the last: that a map slot is free.
    #[inline]
    pub(crate) fn first_error(self, present: bool) -> Option<Errno>
        ensures tested { (m : MapState) → m.shape.entries ≡ self.entries →
            hash_error self.flags present self.linked m ≡ or_no_memory result m }
        ensures room { IfNone result (present ≡ false → self.linked < self.entries) }
    {
        if self.flags > 2 {
            Some(Errno::InvalidArgument)
        } else if self.flags == 1 && present {
            Some(Errno::Exists)
        } else if self.flags == 2 && !present {
            Some(Errno::NoEntry)
        } else if !present && self.entries <= self.linked {
            Some(Errno::TooBig)
        } else {
            None
        }
    }
}

/// The map slot of an array that an update writes to, where one was found; else the error of the
/// first test that fails.
#[inline]
pub(crate) fn slot_to_write(flags: u64, found: Option<usize>) -> Result<usize, Errno>
    ensures tested { error_of result ≡ array_error flags (is_some found) }
    ensures found { IfOk result (λ slot. found ≡ Some slot) }
{
    if flags > 2 {
        return Err(Errno::InvalidArgument);
    }
    match found {
        None => Err(Errno::TooBig),
        Some(_) if flags == 1 => Err(Errno::Exists),
        Some(slot) => Ok(slot),
    }
}

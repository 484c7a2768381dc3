//! The raw pointers under the library for C: a box as its pointer, so that a type whose layout C may know can hold it, and a
//! handle, which hides the type behind it.
//!
//! No other file has raw pointers. The five functions here are proved by hand.
ghost use Rattle.std.specs.Prelude.{◌≡◌, Option, Some, None, IsSome};
ghost use Rattle.std.specs.Coded.{coded_option};
ghost use Rattle.std.specs.Box.Ownership.{box_owns};
ghost use Rattle.host_handle.specs.declared.held.Held.{Held as HeldOf};
ghost use Rattle.host_handle.specs.Held.{held_code};

use crate::held::Held;
use std::alloc::{Allocator, Global};
use std::marker::Model;

/// What a box is made of: where its value lies, and whose memory that is. It owns the value, and has no `Drop`: only `into_box`
/// takes it.
pub struct RawBox<T, A: Allocator> {
    pub at: *mut T,
    pub alloc: A,
    pub ghost value: { T },
}

impl<T, A: Allocator> Model for RawBox<T, A> {
    ghost also_owns = { λ r. box_owns (A.dealloc_token r.alloc) T.row r.at r.value };
}

impl<T: Drop, A: Allocator> RawBox<T, A> {
    /// The pointer of a box, and its allocator.
    pub fn of(value: Box<T, A>) -> RawBox<T, A>
        ensures { result.value ≡ value.value }
    {
        let (at, alloc) = Box::into_raw_with_allocator(value);
        RawBox { at, alloc }
    }

    /// The box again.
    pub fn into_box(self) -> Box<T, A>
        ensures { result.value ≡ self.value }
    {
        let RawBox { at, alloc } = self;
        unsafe { Box::from_raw(alloc, at) }
    }
}

/// A pointer that owns the value behind it, or null. What it owns is freed by `Host::take` alone.
#[repr(C)]
#[derive(Drop)]
pub struct Handle {
    at: *mut u8,
    ghost held: { Option HeldOf } by { coded_option held_code },
}

impl Model for Handle {
    ghost use Rattle.host_handle.specs.Held.{holds};

    ghost also_owns = { λ h. holds h.at h.held };
}

impl Handle {
    /// A handle of nothing.
    pub(crate) fn closed() -> Handle
        ensures { result.held ≡ None }
    {
        Handle {
            at: std::ptr::null_mut(),
        }
    }

    /// A handle of this value.
    pub(crate) fn of(value: RawBox<Held, Global>) -> Handle
        ensures { result.held ≡ Some value.value }
    {
        let RawBox { at, alloc: _ } = value;
        Handle { at: at as *mut u8 }
    }

    /// The value of a handle that has one.
    pub(crate) fn into_raw(self, alloc: Global) -> RawBox<Held, Global>
        requires { IsSome self.held }
        ensures { self.held ≡ Some result.value }
    {
        let Handle { at } = self;
        RawBox {
            at: at as *mut Held,
            alloc,
        }
    }
}

unsafe impl Send for Handle {}

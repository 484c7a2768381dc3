//! A handle that can be asked whether it has a value.
ghost use Rattle.std.specs.Prelude.{◌≡◌, ◌↔◌, Some, None, IsSome, IsTrue, option_map};

use crate::held::Held;
use crate::raw_box::{Handle, RawBox};
use std::alloc::Global;
use std::mem;

/// In C a struct of a pointer and a number of 32 bits, all zeros where nothing is held. The host owns it, and the library what the
/// pointer leads to.
#[repr(C)]
#[derive(Drop)]
pub struct Host {
    handle: Handle,
    state: u32,
    ghost marked: { (state ≡ 1) ↔ IsSome handle.held },
}

impl Host {
    /// A host that holds nothing.
    pub(crate) fn closed() -> Host
        ensures { result.handle.held ≡ None }
    {
        Host {
            handle: Handle::closed(),
            state: 0,
        }
    }

    /// Whether it holds a value.
    pub fn is_open(&mut self) -> bool
        ensures value { IsTrue result ↔ IsSome self.old.handle.held }
        ensures kept { self.new ≡ self.old }
    {
        self.state == 1
    }

    /// Takes the value out, where there is one.
    pub fn take(&mut self, alloc: Global) -> Option<Box<Held>>
        ensures value { option_map (λ b. b.value) result ≡ self.old.handle.held }
        ensures closed { self.new.handle.held ≡ None }
    {
        if self.state != 1 {
            return None;
        }
        let Host { handle, state: _ } = mem::replace(self, Host::closed());
        Some(handle.into_raw(alloc).into_box())
    }

    /// Puts a value in, where there is none.
    pub fn put(&mut self, value: Box<Held>)
        requires { self.old.handle.held ≡ None }
        ensures { self.new.handle.held ≡ Some value.value }
    {
        *self = Host {
            handle: Handle::of(RawBox::of(value)),
            state: 1,
        };
    }
}

//! The boxed client of a handle, as a pointer that C stores.

ghost use Rattle.std.specs.Prelude.{◌≡◌, IsSome, None, Some};
ghost use Rattle.turn_client_c_calls.specs.Held.{Held, held_code};

use crate::raw_box::RawBox;
use crate::whole::HandleState;
use std::alloc::Global;
use std::marker::Model;
use std::ptr::null_mut;

/// What the pointer points to. C sees only the pointer.
#[repr(C)]
#[derive(Drop)]
pub struct Opaque {
    unused: u8,
}

/// A boxed client as its pointer, or none. It owns what the pointer points to.
#[repr(C)]
#[derive(Drop)]
pub struct BoxedClient {
    at: *mut Opaque,
    ghost value: { Held } by { held_code },
}

impl Model for BoxedClient {
    ghost use Rattle.turn_client_c_calls.specs.Held.{held};

    ghost also_owns = { λ h. held h.at h.value };
}

impl BoxedClient {
    /// No client.
    pub(crate) fn none() -> BoxedClient
        ensures { result.value ≡ None }
    {
        BoxedClient { at: null_mut() }
    }

    /// Returns the boxed client of a raw box.
    pub(crate) fn of(raw_box: RawBox<HandleState, Global>) -> BoxedClient
        ensures { result.value ≡ Some raw_box.value }
    {
        let RawBox { at, alloc: _alloc } = raw_box;
        BoxedClient {
            at: at.cast::<Opaque>(),
        }
    }

    /// Returns the raw box of the client. There has to be one.
    pub(crate) fn into_raw_box(self, alloc: Global) -> RawBox<HandleState, Global>
        requires { IsSome self.value }
        ensures { Some result.value ≡ self.value }
    {
        let BoxedClient { at } = self;
        RawBox {
            at: at.cast::<HandleState>(),
            alloc,
        }
    }
}

/// A client may be used by one thread after another.
unsafe impl Send for BoxedClient {}

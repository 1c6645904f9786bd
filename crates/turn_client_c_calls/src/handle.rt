//! C's handle of a client.

ghost use Rattle.std.specs.Prelude.{◌≡◌, MatchOption, Some, None, is_some};

use crate::boxed_client::BoxedClient;
use crate::raw_box::RawBox;
use crate::whole::HandleState;
use std::alloc::Global;
use std::mem::replace;

/// A handle, with or without a client. It lies in C's own memory: sixteen bytes, all zero if there
/// is no client.
#[repr(C)]
#[derive(Drop)]
pub struct TurnHandle {
    /// The boxed client.
    pub(crate) boxed_client: BoxedClient,
    /// Whether there is one.
    pub(crate) is_open: bool,
    ghost agrees: { is_some boxed_client.value ≡ is_open },
}

impl TurnHandle {
    /// Takes the client out of the handle, which has none then.
    pub(crate) fn take(&mut self, alloc: Global) -> Option<Box<HandleState>>
        ensures gone { self.new.boxed_client.value ≡ None }
        ensures client { MatchOption result (self.old.boxed_client.value ≡ None)
            (λ whole. self.old.boxed_client.value ≡ Some whole.value) }
    {
        if !self.is_open {
            return None;
        }
        let none = TurnHandle {
            boxed_client: BoxedClient::none(),
            is_open: false,
        };
        let old = replace(self, none);
        Some(old.boxed_client.into_raw_box(alloc).into_box())
    }

    /// Puts a client into the handle.
    pub(crate) fn put(&mut self, whole: Box<HandleState>)
        ensures { self.new.boxed_client.value ≡ Some whole.value }
    {
        *self = TurnHandle {
            boxed_client: BoxedClient::of(RawBox::of(whole)),
            is_open: true,
        };
    }
}

/// Proof only: a handle may go to another thread between two calls.
pub(crate) fn may_go_to_another_thread<T: Send>(_handle: &T) {}

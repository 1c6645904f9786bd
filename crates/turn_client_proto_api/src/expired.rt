//! The allocations whose time is over, and which the caller is not told of yet.

ghost use Rattle.std.specs.Prelude.{◌≡◌, ◌++◌, [], option_to_list};
ghost use Rattle.turn_client_proto_api.specs.Expired.{first_of, pushed, rest_of};

use std::marker::Model;
use std::net::SocketAddr;
use stun_types_base::transport::TransportType;

/// An allocation whose time was over, so that the client holds it no more (RFC 8656, section 6).
#[derive(Clone, Copy, Debug, PartialEq, Eq)]
pub struct AllocationExpired {
    /// The transport between the server and the peers.
    pub transport: TransportType,
    /// The relayed address.
    pub relayed: SocketAddr,
}

/// The allocations of an `Expired`, the oldest first.
#[derive(Clone, Copy, Debug)]
enum Slots {
    Empty,
    One(AllocationExpired),
    Two(AllocationExpired, AllocationExpired),
}

/// Expired allocations, the oldest first: at most two, as a client has at most one allocation of
/// each address family. It needs no memory. In contracts it is the list of them.
#[derive(Clone, Copy, Debug)]
pub struct Expired {
    slots: Slots,
}

impl Model for Expired {
    ghost use Rattle.std.specs.Prelude.{List};
    ghost use Rattle.turn_client_proto_api.specs.declared.expired.AllocationExpired.{AllocationExpired};

    ghost Value = { List AllocationExpired };

    ghost use Rattle.turn_client_proto_api.specs.ExpiredSlots.{listed, slots_of, slots_of-listed};

    ghost view = { λ s. listed s.slots };

    ghost inverse = { λ allocations. record { slots = slots_of allocations } };

    ghost inverse_ok = { λ s _ i. record { slots = slots_of-listed s.slots i } };
}

impl Expired {
    /// Creates a list of none.
    pub fn new() -> Expired
        ensures { result ≡ [] }
    {
        Expired {
            slots: Slots::Empty,
        }
    }

    /// Adds an allocation at the end. If there are two already, nothing changes.
    pub fn push(&mut self, allocation: AllocationExpired)
        ensures { self.new ≡ pushed allocation self.old }
    {
        self.slots = match self.slots {
            Slots::Empty => Slots::One(allocation),
            Slots::One(first) => Slots::Two(first, allocation),
            Slots::Two(first, second) => Slots::Two(first, second),
        };
    }

    /// Removes and returns the oldest, or returns `None` if there is none.
    pub fn pop(&mut self) -> Option<AllocationExpired>
        ensures given { result ≡ first_of self.old }
        ensures left { self.new ≡ rest_of self.old }
    {
        match self.slots {
            Slots::Empty => None,
            Slots::One(first) => {
                self.slots = Slots::Empty;
                Some(first)
            }
            Slots::Two(first, second) => {
                self.slots = Slots::One(second);
                Some(first)
            }
        }
    }

    /// Returns the oldest and the one after it, each `None` if there is none. These are all.
    pub fn both(&self) -> (Option<AllocationExpired>, Option<AllocationExpired>)
        ensures { self.now ≡ option_to_list result.0 ++ option_to_list result.1 }
    {
        match self.slots {
            Slots::Empty => (None, None),
            Slots::One(first) => (Some(first), None),
            Slots::Two(first, second) => (Some(first), Some(second)),
        }
    }
}

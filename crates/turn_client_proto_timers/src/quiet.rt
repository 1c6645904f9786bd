//! How long nothing is due of what a client holds, so that calls in between needn't look at all of it.

ghost use Rattle.std.specs.Prelude.{◌≡◌, ◌&&◌, nat_le, nat_lt, None, IfSome};
ghost use Rattle.std.specs.List.{list_all, list_any};
ghost use Rattle.turn_client_proto_connection.specs.Waiting.{has_unasked};
ghost use Rattle.turn_client_proto_timers.specs.Quiet.{IsQuiet, binds_until, connects_until, is_binding_until, lasts_until, permits_until, protects_until};

use crate::polling::{longest_wait, ready_after};
use stun_types_base::instant::Instant;
use turn_client_proto_allocation::allocation::Allocation;
use turn_client_proto_allocation::channel::{Channel, ExpiredChannel};
use turn_client_proto_allocation::channel_of::protected_until;
use turn_client_proto_allocation::connection::{Binding, Connection};
use turn_client_proto_allocation::listed;
use turn_client_proto_allocation::permission::Permission;
use turn_client_proto_connection::expire as joined;
use turn_client_proto_core::protocol::Protocol;
use turn_client_proto_peers::channel::expire;
use turn_client_proto_peers::permission::reporting as permissions;

/// A span of time in which nothing is due of what a client holds: no allocation, permission,
/// channel or connection expires or is to be renewed, and no socket is to be requested.
///
/// One walk over all of them finds it ([`Quiet::of`]). It is true until one of them changes or the
/// client sends a message.
#[derive(Clone, Copy, Debug)]
pub struct Quiet {
    /// Its start: the time of the walk.
    pub since: Instant,
    /// Its end, which isn't in it: the earliest time at which something is due, or `horizon` if
    /// that is earlier.
    pub until: Instant,
    /// Up to when the walk looked.
    pub horizon: Instant,
}

impl Quiet {
    /// Returns the span that begins at `now`. The cost grows with all that the client holds.
    ///
    /// Returns `None` if a socket is to be requested, or if something expires before the time at
    /// which something is due: the protection of an expired channel ends, or the time is too short
    /// for a renewal.
    pub fn of(protocol: &Protocol, now: Instant) -> Option<Quiet>
        ensures { IfSome result (IsQuiet protocol.now) }
    {
        let allocations = protocol.allocations.as_slice();
        if is_any_unasked(allocations) {
            return None;
        }
        let horizon = longest_wait(now);
        let ready = ready_after(protocol, now);
        let next = listed::earliest(allocations, &None, ready, now, horizon);
        let sooner = permissions::earliest(allocations, &None, ready, now, next);
        let earliest = expire::earliest(allocations, &None, ready, now, sooner);
        let until = joined::earliest(allocations, earliest);
        if !last_until(allocations, until) {
            return None;
        }
        Some(Quiet {
            since: now,
            until,
            horizon,
        })
    }

    /// Returns whether the time is in the span.
    pub fn covers(&self, now: Instant) -> bool
        ensures { result ≡ (nat_le self.now.since now && nat_lt now self.now.until) }
    {
        self.since <= now && now < self.until
    }

    /// Returns whether the walk looked as far as this time.
    pub fn reaches(&self, time: Instant) -> bool
        ensures { result ≡ nat_le time self.now.horizon }
    {
        time <= self.horizon
    }
}

/// Returns whether the socket of a connection is to be requested from the caller.
fn is_any_unasked(allocations: &[Allocation]) -> bool
    ensures { result ≡ list_any has_unasked allocations.now }
{
    allocations.iter().any(|a| has_unasked(a))
}

/// Returns whether the socket of a connection of an allocation is to be requested from the caller.
fn has_unasked(a: &Allocation) -> bool
    ensures { result ≡ has_unasked a.now }
{
    a.waiting.as_slice().iter().any(|w| !w.is_requested)
}

/// Returns whether nothing of the allocations expires before this time.
fn last_until(allocations: &[Allocation], time: Instant) -> bool
    ensures { result ≡ list_all (lasts_until time) allocations.now }
{
    allocations.iter().all(|a| lasts_until(a, time))
}

/// Returns whether nothing of an allocation expires before this time, nor the allocation itself.
fn lasts_until(a: &Allocation, time: Instant) -> bool
    ensures { result ≡ lasts_until time a.now }
{
    time <= a.expiry
        && all_permit(a.permissions.as_slice(), time)
        && all_bind(a.channels.as_slice(), time)
        && all_protect(a.expired_channels.as_slice(), time)
        && all_connect(a.connections.as_slice(), time)
}

/// Returns whether none of the permissions expires before this time.
fn all_permit(permissions: &[Permission], time: Instant) -> bool
    ensures { result ≡ list_all (permits_until time) permissions.now }
{
    permissions.iter().all(|p| time <= p.expiry)
}

/// Returns whether none of the channels expires before this time.
fn all_bind(channels: &[Channel], time: Instant) -> bool
    ensures { result ≡ list_all (binds_until time) channels.now }
{
    channels.iter().all(|c| time <= c.expiry)
}

/// Returns whether the protection of none of the expired channels ends before this time.
fn all_protect(channels: &[ExpiredChannel], time: Instant) -> bool
    ensures { result ≡ list_all (protects_until time) channels.now }
{
    channels.iter().all(|c| time <= protected_until(c))
}

/// Returns whether each connection is bound, or may be bound until this time.
fn all_connect(connections: &[Connection], time: Instant) -> bool
    ensures { result ≡ list_all (connects_until time) connections.now }
{
    connections
        .iter()
        .all(|c| is_binding_until(&c.awaited, time))
}

/// Returns whether a connection is bound, or may be bound until this time.
fn is_binding_until(binding: &Option<Binding>, time: Instant) -> bool
    ensures { result ≡ is_binding_until time binding.now }
{
    match binding {
        Some(binding) => time <= binding.expiry,
        None => true,
    }
}

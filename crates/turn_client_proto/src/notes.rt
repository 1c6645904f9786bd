//! What a client notes of `poll`: why it queued events, and which allocations it removed.

ghost use Rattle.std.specs.Prelude.{◌≡◌, ◌⊎◌, ◌<◌};
ghost use Rattle.turn_client_proto_api.specs.declared.cause.TurnCause.TheVariants.{Expired as Over, Unanswered};
ghost use Rattle.turn_client_proto_api.specs.declared.causes.Causes.{Causes as Noted};
ghost use Rattle.turn_client_proto.specs.Notes.{AreTimed, IsPollNoted, IsTimed, expired_after, held_of};

use crate::gone::{first_two, push_gone};
use std::net::IpAddr;
use turn_client_proto_allocation::allocation::Allocation;
use turn_client_proto_allocation::permission::PendingPermission;
use turn_client_proto_api::cause::TurnCause;
use turn_client_proto_api::causes::Causes;
use turn_client_proto_api::event::TurnEvent;
use turn_client_proto_api::expired::Expired;
use turn_client_proto_core::protocol::Protocol;
use turn_client_proto_recv::notes::Notes;

/// How many permissions and channels are requested and not granted yet, by the family of the
/// relayed address: IPv4, then IPv6.
#[derive(Clone, Copy, Debug)]
pub(crate) struct Requested {
    permissions: [usize; 2],
    channels: [usize; 2],
}

/// Returns the index of an address family.
fn index_of(address: &IpAddr) -> usize
    ensures { result < 2 }
{
    match address {
        IpAddr::V4(_) => 0,
        IpAddr::V6(_) => 1,
    }
}

/// Returns how many addresses a request for permissions names, each counted once.
fn count_of(pending: &PendingPermission) -> usize {
    let others = pending.others.as_slice();
    let mut count = 1_usize;
    for at in 0..others.len() {
        let (before, rest) = others.split_at(at);
        if let Some(ip) = rest.first() {
            if *ip != pending.ip && !before.contains(ip) {
                count = count.saturating_add(1);
            }
        }
    }
    count
}

/// Returns how many permissions are requested in an allocation and not granted yet.
fn permissions_of(allocation: &Allocation) -> usize {
    let mut count = 0_usize;
    for pending in allocation.pending_permissions.as_slice() {
        count = count.saturating_add(count_of(pending));
    }
    count
}

impl Requested {
    /// Returns how many these allocations have.
    pub(crate) fn of(allocations: &[Allocation]) -> Requested {
        let mut permissions = [0_usize; 2];
        let mut channels = [0_usize; 2];
        for allocation in allocations {
            let at = index_of(&allocation.address.ip());
            permissions[at] = permissions[at].saturating_add(permissions_of(allocation));
            channels[at] = channels[at].saturating_add(allocation.pending_channels.len());
        }
        Requested {
            permissions,
            channels,
        }
    }

    /// Returns how many more there were than there are.
    fn gone(self, left: Requested) -> Requested {
        Requested {
            permissions: gone(self.permissions, left.permissions),
            channels: gone(self.channels, left.channels),
        }
    }

    /// Returns why `poll` queued an event: no response to its request came in time, or its time
    /// was over; or `delete` was called before. Of the permissions and channels of an allocation
    /// the requested ones come first (`report_failures`); `self` has how many of these are left,
    /// and counts down.
    fn cause_noted(&mut self, is_deleted: bool, event: &TurnEvent) -> TurnCause
        ensures { IsTimed is_deleted result }
    {
        if is_deleted {
            return TurnCause::Deleted;
        }
        self.cause_of(event)
    }

    /// Returns why `poll` queued an event of a client whose allocations were not to be deleted.
    fn cause_of(&mut self, event: &TurnEvent) -> TurnCause
        ensures { (result ≡ Unanswered) ⊎ (result ≡ Over) }
    {
        match event {
            TurnEvent::PermissionCreateFailed(_, ip) => {
                by_count(&mut self.permissions[index_of(ip)])
            }
            TurnEvent::ChannelCreateFailed(_, peer) => {
                by_count(&mut self.channels[index_of(&peer.ip())])
            }
            _ => TurnCause::Unanswered,
        }
    }
}

/// What is noted of a client before `poll`.
#[derive(Clone, Copy, Debug)]
pub(crate) struct Unpolled {
    /// How many events are queued.
    events: usize,
    /// What is requested and not granted yet.
    requested: Requested,
    /// The allocations of which the user is told if `poll` removes them.
    held: Expired,
}

impl Unpolled {
    /// Returns what is noted of a client before `poll`.
    pub(crate) fn of(protocol: &Protocol, notes: &Notes) -> Unpolled
        ensures { result.held ≡ held_of protocol.now notes.now }
    {
        Unpolled {
            events: protocol.events.len(),
            requested: Requested::of(protocol.allocations.as_slice()),
            held: held_of(protocol, notes),
        }
    }
}

/// Returns the allocations of which the user is told if `poll` removes them: none, if the client
/// does not believe short lifetimes, or `delete` was called before.
fn held_of(protocol: &Protocol, notes: &Notes) -> Expired
    ensures { result ≡ held_of protocol.now notes.now }
{
    if protocol.short_lifetimes && !notes.is_deleted {
        first_two(protocol.allocations.as_slice())
    } else {
        Expired::new()
    }
}

/// Returns `Unanswered` and counts down; or `Expired`, if the count is 0.
fn by_count(count: &mut usize) -> TurnCause
    ensures { (result ≡ Unanswered) ⊎ (result ≡ Over) }
{
    if *count == 0 {
        return TurnCause::Expired;
    }
    *count -= 1;
    TurnCause::Unanswered
}

fn gone(before: [usize; 2], left: [usize; 2]) -> [usize; 2] {
    [
        before[0].saturating_sub(left[0]),
        before[1].saturating_sub(left[1]),
    ]
}

/// Notes what `poll` did. Only a poll that finds no event queues some.
pub(crate) fn note_poll(notes: &mut Notes, before: Unpolled, protocol: &Protocol)
    ensures noted { IsPollNoted notes.old notes.new }
    ensures expired { notes.new.expired ≡ expired_after before.held protocol.now notes.old.expired }
{
    note_expired(&mut notes.expired, before.held, protocol);
    if before.events > 0 {
        return;
    }
    let left = Requested::of(protocol.allocations.as_slice());
    let mut gone = before.requested.gone(left);
    let (first, second) = protocol.events.as_slices();
    let is_deleted = notes.is_deleted;
    note_timed(&mut notes.causes, is_deleted, &mut gone, first, 0);
    note_timed(
        &mut notes.causes,
        is_deleted,
        &mut gone,
        second,
        first.len(),
    );
}

/// Notes the allocations that `poll` removed, of these which were there before. A client that has
/// failed holds none, but not because their time was over.
fn note_expired(expired: &mut Expired, held: Expired, protocol: &Protocol)
    ensures { expired.new ≡ expired_after held protocol.now expired.old }
{
    if protocol.is_authenticated() {
        push_gone(expired, held, protocol.allocations.as_slice());
    }
}

/// Notes events that `poll` queued. There were `before` events before them, and `is_deleted` says
/// whether `delete` was called before.
fn note_timed(
    causes: &mut Causes,
    is_deleted: bool,
    gone: &mut Requested,
    events: &[TurnEvent],
    before: usize,
)
    ensures { (old : Noted) → AreTimed is_deleted old causes.old
        → AreTimed is_deleted old causes.new }
{
    let mut at = before;
    for event in events {
        let cause = gone.cause_noted(is_deleted, event);
        let next = at.saturating_add(1);
        causes.push(at, next, cause);
        at = next;
    }
}

//! Expiry of permissions (RFC 8656, section 9) and the events for it.

ghost use Rattle.std.specs.Prelude.{◌≡◌, ◌≢◌, ◌++◌, [], OnOk, OnErr, length, map, take};
ghost use Rattle.turn_client_proto_allocation.specs.StunProtoTransaction.Least.{IsLeastOf};
ghost use Rattle.turn_client_proto_api.specs.declared.event.TurnEvent.TheVariants.{PermissionCreateFailed};
ghost use Rattle.turn_client_proto_allocation.specs.Permissions.{addresses_of};
ghost use Rattle.turn_client_proto_peers.specs.Permission.Reporting.{addresses_expired, addresses_over, all_nexts, earlier_of, polled};

use crate::permission::one;
use stun_types_base::instant::Instant;
use stun_types_base::memory::NoMemory;
use stun_types_base::transport::TransportType;
use stun_types_wire::transaction::TransactionId;
use turn_client_proto_allocation::addresses::is_repeated;
use turn_client_proto_allocation::allocation::Allocation;
use turn_client_proto_allocation::permission::{PendingPermission, Permission};
use turn_client_proto_api::event::TurnEvent;
use turn_client_proto_api::queue::QueueOf;

/// Queues a `PermissionCreateFailed` for each address of the pending permission, each once. If
/// memory runs out, fails with `NoMemory`, and the events that were queued before are still the
/// first ones.
#[tactic(auto, using(turn_client_proto_allocation::proofs::Heads::heads))]
fn report_one(
    events: &mut QueueOf<TurnEvent>,
    transport: TransportType,
    pending: &PendingPermission,
) -> Result<(), NoMemory>
    ensures ok { OnOk result (events.new ≡ events.old
        ++ map (PermissionCreateFailed transport) (addresses_of pending.now)) }
    ensures err { OnErr result (take (length events.old) events.new ≡ events.old) }
{
    let (ip, others) = (pending.ip, pending.others.as_slice());
    events.push_back(TurnEvent::PermissionCreateFailed(transport, ip))?;
    for index in 0..others.len() {
        if !is_repeated(ip, &others[..index], others[index]) {
            events.push_back(TurnEvent::PermissionCreateFailed(transport, others[index]))?;
        }
    }
    Ok(())
}

/// Queues a `PermissionCreateFailed` for each address of each pending permission whose request
/// timed out. Fails with `NoMemory` if memory runs out, which happens only if there is an event to
/// queue. The events that were queued before are then still the first ones.
#[tactic(auto, using(turn_client_proto_allocation::proofs::Heads::heads))]
pub fn report_over(
    events: &mut QueueOf<TurnEvent>,
    transport: TransportType,
    pending: &[PendingPermission],
    ended: &Option<TransactionId>,
) -> Result<(), NoMemory>
    ensures ok { OnOk result (events.new ≡ events.old
        ++ map (PermissionCreateFailed transport) (addresses_over ended.now pending.now)) }
    ensures err { OnErr result (take (length events.old) events.new ≡ events.old) }
    ensures reported { OnErr result (addresses_over ended.now pending.now ≢ []) }
{
    for permission in pending {
        if permission.is_over(ended) {
            report_one(events, transport, permission)?;
        }
    }
    Ok(())
}

/// Queues a `PermissionCreateFailed` for each permission that has expired at `now`. Fails with
/// `NoMemory` if memory runs out, which happens only if there is an event to queue. The events that
/// were queued before are then still the first ones.
#[tactic(auto, using(turn_client_proto_allocation::proofs::Heads::heads))]
pub fn report_expired(
    events: &mut QueueOf<TurnEvent>,
    transport: TransportType,
    permissions: &[Permission],
    now: Instant,
) -> Result<(), NoMemory>
    ensures ok { OnOk result (events.new ≡ events.old
        ++ map (PermissionCreateFailed transport) (addresses_expired now permissions.now)) }
    ensures err { OnErr result (take (length events.old) events.new ≡ events.old) }
    ensures reported { OnErr result (addresses_expired now permissions.now ≢ []) }
{
    for permission in permissions {
        if permission.has_expired(now) {
            events.push_back(TurnEvent::PermissionCreateFailed(transport, permission.ip))?;
        }
    }
    Ok(())
}

/// Updates the permissions of each allocation at `now`, when the transaction `ended`, if any, has
/// timed out.
///
/// - Permissions that have expired are removed.
/// - Pending permissions whose request timed out are removed.
/// - Renewals that timed out are forgotten, so that these permissions may be renewed again.
pub fn poll(allocations: &mut [Allocation], ended: &Option<TransactionId>, now: Instant)
    ensures { allocations.new ≡ map (polled ended.now now) allocations.old }
{
    for allocation in allocations.iter_mut() {
        one::poll(allocation, ended, now);
    }
}

/// Returns the earliest of `wait` and of the times at which one of the permissions has to be
/// polled.
fn earliest_of(
    permissions: &[Permission],
    ended: &Option<TransactionId>,
    ready: Instant,
    now: Instant,
    wait: Instant,
) -> Instant
    ensures { result ≡ earlier_of ended.now ready now wait permissions.now }
{
    let mut next = wait;
    for permission in permissions {
        next = next.min(permission.next(ended, ready, now));
    }
    next
}

/// Returns the earliest of `wait` and of the times at which a permission of one of the allocations
/// has to be polled.
pub fn earliest(
    allocations: &[Allocation],
    ended: &Option<TransactionId>,
    ready: Instant,
    now: Instant,
    wait: Instant,
) -> Instant
    ensures { IsLeastOf wait (all_nexts ended.now ready now allocations.now) result }
{
    let mut next = wait;
    for allocation in allocations {
        next = earliest_of(allocation.permissions.as_slice(), ended, ready, now, next);
    }
    next
}

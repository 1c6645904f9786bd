//! Expiry of permissions, channels and connections (RFC 8656, sections 9 and 12; RFC 6062, section
//! 4.3), and the events for it.

ghost use Rattle.std.specs.Prelude.{◌≡◌, ◌≢◌, ◌++◌, [], OnOk, OnErr, length, map, take};
ghost use Rattle.turn_client_proto_timers.specs.Reporting.{all_failures, connection_failures, failures, polled, relay_failures};

use stun_types_base::instant::Instant;
use stun_types_base::memory::NoMemory;
use stun_types_wire::transaction::TransactionId;
use turn_client_proto_allocation::allocation::Allocation;
use turn_client_proto_api::event::TurnEvent;
use turn_client_proto_api::queue::QueueOf;
use turn_client_proto_connection::attempts::report_lost;
use turn_client_proto_connection::{expire as joined, reported as connections};
use turn_client_proto_peers::channel::expire;
use turn_client_proto_peers::permission::reporting;

/// Queues the events for the permissions and channels that an allocation loses. With `NoMemory`,
/// the events queued before are still the first ones.
#[tactic(auto, using(crate::proofs::Usual::heads), unfolding(crate::specs::Reporting::relay_failures))]
fn report_relays(
    events: &mut QueueOf<TurnEvent>,
    a: &Allocation,
    ended: &Option<TransactionId>,
    now: Instant,
) -> Result<(), NoMemory>
    ensures ok { OnOk result (events.new ≡ events.old ++ relay_failures ended.now now a.now) }
    ensures err { OnErr result (take (length events.old) events.new ≡ events.old) }
    ensures reported { OnErr result (relay_failures ended.now now a.now ≢ []) }
{
    reporting::report_over(events, a.transport, a.pending_permissions.as_slice(), ended)?;
    expire::report_over(events, a.transport, a.pending_channels.as_slice(), ended)?;
    reporting::report_expired(events, a.transport, a.permissions.as_slice(), now)?;
    if let Some(peer) = expire::peer_expiring(a.channels.as_slice(), now) {
        events.push_back(TurnEvent::ChannelCreateFailed(a.transport, peer))?;
    }
    Ok(())
}

/// Queues the events for the connections that an allocation loses. With `NoMemory`, the events
/// queued before are still the first ones.
#[tactic(auto, using(crate::proofs::Usual::heads), unfolding(crate::specs::Reporting::connection_failures))]
fn report_connections(
    events: &mut QueueOf<TurnEvent>,
    a: &Allocation,
    ended: &Option<TransactionId>,
    now: Instant,
) -> Result<(), NoMemory>
    ensures ok { OnOk result (events.new
        ≡ events.old ++ connection_failures ended.now now a.now) }
    ensures err { OnErr result (take (length events.old) events.new ≡ events.old) }
    ensures reported { OnErr result (connection_failures ended.now now a.now ≢ []) }
{
    connections::report_over(events, a.connecting.as_slice(), ended)?;
    joined::report_gone(events, a.connections.as_slice(), ended, now)?;
    report_lost(events, a.waiting.as_slice(), ended)
}

/// Queues the events for the permissions, channels and connections that an allocation loses. With
/// `NoMemory`, the events queued before are still the first ones.
#[tactic(auto, using(crate::proofs::Usual::heads), unfolding(crate::specs::Reporting::failures))]
fn report_of(
    events: &mut QueueOf<TurnEvent>,
    a: &Allocation,
    ended: &Option<TransactionId>,
    now: Instant,
) -> Result<(), NoMemory>
    ensures ok { OnOk result (events.new ≡ events.old ++ failures ended.now now a.now) }
    ensures err { OnErr result (take (length events.old) events.new ≡ events.old) }
    ensures reported { OnErr result (failures ended.now now a.now ≢ []) }
{
    report_relays(events, a, ended, now)?;
    report_connections(events, a, ended, now)
}

/// Queues the events for what each allocation loses, in this order:
///
/// 1. the requested permissions, then the requested channels, whose request ended without a
///    response;
/// 2. the permissions that have expired;
/// 3. the channel that expires;
/// 4. the requested connections whose CONNECT ended without a response;
/// 5. the connections that were not bound in time;
/// 6. the first connection that the server announced by the request that ended.
///
/// # Errors
///
/// - `NoMemory`: a memory allocation failed. The events queued before are still the first ones.
///   This can happen only if there is something to report.
#[tactic(auto, using(crate::proofs::Usual::heads))]
pub fn report_failures(
    events: &mut QueueOf<TurnEvent>,
    allocations: &[Allocation],
    ended: &Option<TransactionId>,
    now: Instant,
) -> Result<(), NoMemory>
    ensures ok { OnOk result (events.new
        ≡ events.old ++ all_failures ended.now now allocations.now) }
    ensures err { OnErr result (take (length events.old) events.new ≡ events.old) }
    ensures reported { OnErr result (all_failures ended.now now allocations.now ≢ []) }
{
    for allocation in allocations {
        report_of(events, allocation, ended, now)?;
    }
    Ok(())
}

/// Expires what is due at `now` in each allocation, after the transaction `ended` (if any) has
/// ended.
///
/// - Permissions that have expired are removed.
/// - Requested permissions, channels and connections whose request has ended are removed, and so
///   are connections that were not bound in time.
/// - Permissions and channels whose renewal has ended may be renewed again.
/// - The last of the channels whose time is over expires. Channels that have expired are forgotten
///   once they are no longer protected.
///
/// # Errors
///
/// - `NoMemory`: a memory allocation failed. This can happen only if there is something to report.
pub fn poll(
    allocations: &mut [Allocation],
    ended: &Option<TransactionId>,
    now: Instant,
) -> Result<(), NoMemory>
    ensures ok { OnOk result (allocations.new ≡ map (polled ended.now now) allocations.old) }
    ensures reported { OnErr result (all_failures ended.now now allocations.old ≢ []) }
{
    reporting::poll(allocations, ended, now);
    expire::poll(allocations, ended, now)?;
    joined::poll(allocations, ended, now);
    Ok(())
}

//! Connections that are not bound in time (RFC 6062, section 4.3), and the events for them.

ghost use Rattle.std.specs.Prelude.{◌≡◌, ◌≢◌, ◌++◌, [], OnOk, OnErr, length, map, take};
ghost use Rattle.turn_client_proto_allocation.specs.StunProtoTransaction.Least.{IsLeastOf};
ghost use Rattle.turn_client_proto_api.specs.declared.event.TurnEvent.TheVariants.{TcpConnectFailed};
ghost use Rattle.turn_client_proto_connection.specs.Expiring.{all_gone, all_nexts, earlier_of, has_gone, is_ended, peers_gone, polled, sockets_gone};

use crate::attempts::drop_lost;
use crate::reported::is_over;
use std::net::SocketAddr;
use stun_types_base::instant::Instant;
use stun_types_base::memory::NoMemory;
use stun_types_wire::transaction::TransactionId;
use turn_client_proto_allocation::allocation::Allocation;
use turn_client_proto_allocation::connection::Connection;
use turn_client_proto_api::event::TurnEvent;
use turn_client_proto_api::queue::QueueOf;

/// Returns whether the transaction that timed out has this transaction ID.
fn is_ended(ended: &Option<TransactionId>, transaction_id: TransactionId) -> bool
    ensures { result ≡ is_ended ended.now transaction_id }
{
    match ended {
        Some(ended) => transaction_id == *ended,
        None => false,
    }
}

/// Returns whether the connection is not bound and its CONNECTION_BIND timed out, or its deadline
/// is before `now`.
fn has_gone(c: &Connection, ended: &Option<TransactionId>, now: Instant) -> bool
    ensures { result ≡ has_gone ended.now now c.now }
{
    match c.awaited {
        Some(binding) => is_ended(ended, binding.number) || binding.expiry < now,
        None => false,
    }
}

/// Queues a `TcpConnectFailed` for each connection that was not bound in time. Fails with
/// `NoMemory` if memory runs out, which happens only if there is an event to queue. The events that
/// were queued before are then still the first ones.
#[tactic(auto, using(crate::proofs::Usual::heads))]
pub fn report_gone(
    events: &mut QueueOf<TurnEvent>,
    connections: &[Connection],
    ended: &Option<TransactionId>,
    now: Instant,
) -> Result<(), NoMemory>
    ensures ok { OnOk result (events.new
        ≡ events.old ++ map TcpConnectFailed (peers_gone ended.now now connections.now)) }
    ensures err { OnErr result (take (length events.old) events.new ≡ events.old) }
    ensures reported { OnErr result (peers_gone ended.now now connections.now ≢ []) }
{
    for connection in connections {
        if has_gone(connection, ended, now) {
            events.push_back(TurnEvent::TcpConnectFailed(connection.peer))?;
        }
    }
    Ok(())
}

/// Appends the own addresses of the connections that were not bound in time to the sockets that are
/// to be closed. Fails with `NoMemory` if memory runs out, which happens only if there is such a
/// connection.
fn close_gone(
    closing: &mut QueueOf<SocketAddr>,
    connections: &[Connection],
    ended: &Option<TransactionId>,
    now: Instant,
) -> Result<(), NoMemory>
    ensures ok { OnOk result (closing.new
        ≡ closing.old ++ sockets_gone ended.now now connections.now) }
    ensures reported { OnErr result (sockets_gone ended.now now connections.now ≢ []) }
{
    for connection in connections {
        if has_gone(connection, ended, now) {
            closing.push_back(connection.here)?;
        }
    }
    Ok(())
}

/// Does for all allocations what `close_gone` does for the connections of one. Fails with
/// `NoMemory` if memory runs out, which happens only if there is such a connection.
pub fn close_all_gone(
    closing: &mut QueueOf<SocketAddr>,
    allocations: &[Allocation],
    ended: &Option<TransactionId>,
    now: Instant,
) -> Result<(), NoMemory>
    ensures ok { OnOk result (closing.new
        ≡ closing.old ++ all_gone ended.now now allocations.now) }
    ensures reported { OnErr result (all_gone ended.now now allocations.now ≢ []) }
{
    for allocation in allocations {
        close_gone(closing, allocation.connections.as_slice(), ended, now)?;
    }
    Ok(())
}

/// Updates the connections of each allocation at `now`, when the transaction `ended`, if any, has
/// timed out. Removes:
///
/// - the CONNECT that timed out;
/// - each connection that was not bound in time;
/// - the first waiting connection whose CONNECTION_ATTEMPT from the server has the transaction ID
///   `ended`.
#[tactic(auto, unfolding(crate::specs::Reported::given_up, crate::specs::Expiring::polled))]
pub fn poll(allocations: &mut [Allocation], ended: &Option<TransactionId>, now: Instant)
    ensures { allocations.new ≡ map (polled ended.now now) allocations.old }
{
    for allocation in allocations.iter_mut() {
        allocation.connecting.retain(|c| !is_over(c, ended));
        allocation.connections.retain(|c| !has_gone(c, ended, now));
        drop_lost(&mut allocation.waiting, ended);
    }
}

/// Returns the earliest of `wait` and of the deadlines of the connections that are not bound.
fn earliest_of(connections: &[Connection], wait: Instant) -> Instant
    ensures { result ≡ earlier_of wait connections.now }
{
    let mut next = wait;
    for connection in connections {
        if let Some(binding) = connection.awaited {
            next = next.min(binding.expiry);
        }
    }
    next
}

/// Returns the earliest of `wait` and of the deadlines of the connections that are not bound, of
/// all allocations.
pub fn earliest(allocations: &[Allocation], wait: Instant) -> Instant
    ensures { IsLeastOf wait (all_nexts allocations.now) result }
{
    let mut next = wait;
    for allocation in allocations {
        next = earliest_of(allocation.connections.as_slice(), next);
    }
    next
}

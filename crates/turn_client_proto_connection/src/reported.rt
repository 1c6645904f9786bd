//! The effect of a response to a CONNECT on the connections, or of its timeout (RFC 6062, section
//! 4.3).

ghost use Rattle.std.specs.Prelude.{◌≡◌, ◌≢◌, ◌++◌, Some, [], IfOk, OnOk, OnErr, length, map, position, take};
ghost use Rattle.turn_client_proto_allocation.specs.PendingRequests.{pending_request, awaits_reply};
ghost use Rattle.turn_client_proto_api.specs.declared.event.TurnEvent.TheVariants.{TcpConnectFailed};
ghost use Rattle.turn_client_proto_connection.specs.Reported.{all_connected, answered, connected, given_up, is_connect, is_over, peers_over, reported_of};

use std::net::SocketAddr;
use stun_types_base::memory::NoMemory;
use stun_types_wire::transaction::TransactionId;
use turn_client_proto_allocation::allocation::Allocation;
use turn_client_proto_allocation::connection::{Connecting, Waiting};
use turn_client_proto_allocation::pending::{PendingRequest, pending_request};
use turn_client_proto_api::event::TurnEvent;
use turn_client_proto_api::queue::QueueOf;

/// Appends a connection that waits for its socket to the allocation, and removes the CONNECT with
/// this transaction ID. If memory runs out, fails with `NoMemory` and nothing changes.
fn connect_in(
    a: &mut Allocation,
    connection: u32,
    peer: SocketAddr,
    transaction_id: TransactionId,
) -> Result<(), NoMemory>
    ensures ok { OnOk result (a.new ≡ connected connection peer transaction_id a.old) }
    ensures err { OnErr result (a.new ≡ a.old) }
{
    a.waiting.push(Waiting {
        connection,
        peer,
        is_requested: false,
        attempt: None,
    })?;
    a.connecting.retain(|c| c.number != transaction_id);
    Ok(())
}

/// Appends a connection that waits for its socket to the allocation at `index`, and removes
/// the CONNECT with this transaction ID there.
///
/// That allocation has to be the first that awaits the response. `connection` is the connection ID
/// that the response has. If memory runs out, fails with `NoMemory` and nothing changes.
#[tactic(auto, using(crate::proofs::Usual::by_index))]
fn connect(
    allocations: &mut [Allocation],
    index: usize,
    connection: u32,
    peer: SocketAddr,
    transaction_id: TransactionId,
) -> Result<(), NoMemory>
    requires { position (awaits_reply transaction_id) allocations.old ≡ Some index }
    ensures ok { OnOk result (allocations.new
        ≡ all_connected connection peer transaction_id allocations.old) }
    ensures err { OnErr result (allocations.new ≡ allocations.old) }
{
    connect_in(&mut allocations[index], connection, peer, transaction_id)
}

/// Returns whether the transaction that timed out is that of this CONNECT.
pub(crate) fn is_over(requested: &Connecting, ended: &Option<TransactionId>) -> bool
    ensures { result ≡ is_over ended.now requested.now }
{
    match ended {
        Some(number) => requested.number == *number,
        None => false,
    }
}

/// Queues a `TcpConnectFailed` for each CONNECT that timed out. Fails with `NoMemory` if memory
/// runs out, which happens only if there is an event to queue. The events that were queued before
/// are then still the first ones.
#[tactic(auto, using(crate::proofs::Usual::heads))]
pub fn report_over(
    events: &mut QueueOf<TurnEvent>,
    connecting: &[Connecting],
    ended: &Option<TransactionId>,
) -> Result<(), NoMemory>
    ensures ok { OnOk result (events.new
        ≡ events.old ++ map TcpConnectFailed (peers_over ended.now connecting.now)) }
    ensures err { OnErr result (take (length events.old) events.new ≡ events.old) }
    ensures reported { OnErr result (peers_over ended.now connecting.now ≢ []) }
{
    for requested in connecting {
        if is_over(requested, ended) {
            events.push_back(TurnEvent::TcpConnectFailed(requested.peer))?;
        }
    }
    Ok(())
}

/// Removes, in each allocation, the CONNECT whose transaction timed out or was rejected.
#[tactic(auto, unfolding(crate::specs::Reported::given_up))]
pub fn give_up(allocations: &mut [Allocation], ended: &Option<TransactionId>)
    ensures { allocations.new ≡ map (given_up ended.now) allocations.old }
{
    for allocation in allocations.iter_mut() {
        allocation.connecting.retain(|c| !is_over(c, ended));
    }
}

/// Handles an accepted response to the request with this transaction ID (RFC 6062, section 4.3).
/// `connection` is the CONNECTION-ID of the response, if it has one. Returns whether the request is
/// an outstanding CONNECT. If it is:
///
/// - with a CONNECTION-ID, the connection now waits for its socket;
/// - without one, the CONNECT is removed and `TcpConnectFailed` is queued.
///
/// # Errors
///
/// - `NoMemory`: memory ran out. The events that were queued before are still the first ones.
#[tactic(auto, using(crate::proofs::Usual::heads))]
pub fn answer(
    events: &mut QueueOf<TurnEvent>,
    allocations: &mut [Allocation],
    transaction_id: TransactionId,
    connection: Option<u32>,
) -> Result<bool, NoMemory>
    ensures handled { IfOk result (λ handled.
        handled ≡ is_connect (pending_request transaction_id allocations.old)) }
    ensures events { OnOk result (events.new
        ≡ events.old ++ reported_of (pending_request transaction_id allocations.old) connection) }
    ensures after { OnOk result (allocations.new
        ≡ answered (pending_request transaction_id allocations.old) connection transaction_id
        allocations.old) }
    ensures err { OnErr result (take (length events.old) events.new ≡ events.old) }
{
    let Some((index, PendingRequest::NewConnection(peer))) = pending_request(
        allocations,
        transaction_id,
    ) else {
        return Ok(false);
    };
    match connection {
        Some(connection) => connect(allocations, index, connection, peer, transaction_id)?,
        None => {
            events.push_back(TurnEvent::TcpConnectFailed(peer))?;
            give_up(allocations, &Some(transaction_id));
        }
    }
    Ok(true)
}

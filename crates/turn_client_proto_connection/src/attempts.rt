//! Connections that peers initiate: the server announces them by CONNECTION_ATTEMPT requests or
//! indications (RFC 6062, section 4.4).

ghost use Rattle.std.specs.Prelude.{◌≡◌, ◌≢◌, ◌<◌, ◌++◌, [], OnOk, OnErr, IfSome, length, map, position, slice_get, slice_set, take};
ghost use Rattle.turn_client_proto_api.specs.declared.event.TurnEvent.TheVariants.{TcpConnectFailed};
ghost use Rattle.turn_client_proto_connection.specs.Attempts.{attempt_among, attempt_of, attempted, is_joining, is_lost, not_lost, offered, peers_lost};

use crate::asking::{is_any_joined, is_any_waiting};
use crate::sockets::{index_among, index_of};
use std::net::SocketAddr;
use stun_types_base::list::ListOf;
use stun_types_base::memory::NoMemory;
use stun_types_wire::transaction::TransactionId;
use turn_client_proto_allocation::allocation::Allocation;
use turn_client_proto_allocation::connection::Waiting;
use turn_client_proto_allocation::listed::Allocations;
use turn_client_proto_api::event::TurnEvent;
use turn_client_proto_api::queue::QueueOf;

/// Returns whether the allocation has a data connection to the peer or one that waits for a socket.
/// An outstanding CONNECT to the peer does not count: it does not prevent a connection that the
/// peer initiates.
#[tactic(auto, unfolding(crate::specs::Attempts::is_joining))]
pub fn is_joining(a: &Allocation, peer: SocketAddr) -> bool
    ensures { result ≡ is_joining peer a.now }
{
    is_any_joined(a.connections.as_slice(), peer) || is_any_waiting(a.waiting.as_slice(), peer)
}

/// Appends a connection that a request announced, and that waits for its socket, to the allocation
/// at `index`. `transaction_id` is that of the request. If memory runs out, fails with `NoMemory`
/// and nothing changes.
pub fn begin(
    allocations: &mut Allocations,
    index: usize,
    connection: u32,
    peer: SocketAddr,
    transaction_id: TransactionId,
) -> Result<(), NoMemory>
    requires { index < length allocations.old }
    ensures ok { OnOk result (IfSome (slice_get allocations.old index) (λ a. allocations.new
        ≡ slice_set allocations.old index (attempted connection peer transaction_id a))) }
    ensures err { OnErr result (allocations.new ≡ allocations.old) }
{
    let items = allocations.as_mut_slice();
    items[index].waiting.push(Waiting {
        connection,
        peer,
        is_requested: false,
        attempt: Some(transaction_id),
    })
}

/// Appends a connection that an indication announced, and that waits for its socket, to the
/// allocation at `index`. If memory runs out, fails with `NoMemory` and nothing changes.
pub fn offer(
    allocations: &mut Allocations,
    index: usize,
    connection: u32,
    peer: SocketAddr,
) -> Result<(), NoMemory>
    requires { index < length allocations.old }
    ensures ok { OnOk result (IfSome (slice_get allocations.old index) (λ a. allocations.new
        ≡ slice_set allocations.old index (offered connection peer a))) }
    ensures err { OnErr result (allocations.new ≡ allocations.old) }
{
    let items = allocations.as_mut_slice();
    items[index].waiting.push(Waiting {
        connection,
        peer,
        is_requested: false,
        attempt: None,
    })
}

/// Returns the transaction ID of the CONNECTION_ATTEMPT request that announced the first waiting
/// connection with this connection ID to this peer, or `None` if there is none.
#[tactic(auto, using(crate::proofs::Usual::by_index))]
fn attempt_among(waiting: &[Waiting], connection: u32, peer: SocketAddr) -> Option<TransactionId>
    ensures { result ≡ attempt_among connection peer waiting.now }
{
    let index = index_among(waiting, connection, peer)?;
    waiting[index].attempt
}

/// Returns the transaction ID of the CONNECTION_ATTEMPT request that announced the connection that
/// waits for its socket, by its connection ID and peer. Returns `None` if there is none.
#[tactic(auto, using(crate::proofs::Usual::by_index))]
pub fn attempt_of(
    allocations: &[Allocation],
    connection: u32,
    peer: SocketAddr,
) -> Option<TransactionId>
    ensures { result ≡ attempt_of connection peer allocations.now }
{
    let index = index_of(allocations, connection, peer)?;
    attempt_among(allocations[index].waiting.as_slice(), connection, peer)
}

/// Returns whether the transaction that timed out has the transaction ID of the server's request
/// for this connection.
fn is_lost(waiting: &Waiting, ended: &Option<TransactionId>) -> bool
    ensures { result ≡ is_lost ended.now waiting.now }
{
    match (ended, waiting.attempt) {
        (Some(ended), Some(attempt)) => attempt == *ended,
        _ => false,
    }
}

/// Returns the index of the first waiting connection whose server request has the transaction ID
/// `ended`.
fn index_lost(waiting: &[Waiting], ended: &Option<TransactionId>) -> Option<usize>
    ensures { result ≡ position (is_lost ended.now) waiting.now }
{
    waiting.iter().position(|w| is_lost(w, ended))
}

/// Queues a `TcpConnectFailed` for the waiting connection that `drop_lost` removes. Fails with
/// `NoMemory` if memory runs out, which happens only if there is an event to queue. The events that
/// were queued before are then still the first ones.
#[tactic(auto, using(crate::proofs::Usual::heads))]
pub fn report_lost(
    events: &mut QueueOf<TurnEvent>,
    waiting: &[Waiting],
    ended: &Option<TransactionId>,
) -> Result<(), NoMemory>
    ensures ok { OnOk result (events.new
        ≡ events.old ++ map TcpConnectFailed (peers_lost ended.now waiting.now)) }
    ensures err { OnErr result (take (length events.old) events.new ≡ events.old) }
    ensures reported { OnErr result (peers_lost ended.now waiting.now ≢ []) }
{
    match index_lost(waiting, ended) {
        Some(index) => events.push_back(TurnEvent::TcpConnectFailed(waiting[index].peer)),
        None => Ok(()),
    }
}

/// Removes the first waiting connection whose server request has the transaction ID `ended`.
pub(crate) fn drop_lost(waiting: &mut ListOf<Waiting>, ended: &Option<TransactionId>)
    ensures { waiting.new ≡ not_lost ended.now waiting.old }
{
    if let Some(index) = index_lost(waiting.as_slice(), ended) {
        waiting.remove(index);
    }
}

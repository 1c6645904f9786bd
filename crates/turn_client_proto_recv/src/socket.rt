//! Sockets for data connections, as the caller reports them (RFC 6062, section 4.3).
#![tactic(auto, using(crate::proofs::Usual::usual), unfolding(crate::proofs::Usual::opened))]

ghost use Rattle.std.specs.Prelude.{◌≡◌, ◌≢◌, ◌<◌, ℕ, IfSome, None, OnErr, OnOk, length};
ghost use Rattle.turn_client_proto_recv.specs.Sockets.{IsBoundAt, IsNumber, IsSocketAnswered, IsSocketLacking};
ghost use Rattle.turn_client_proto_recv.specs.Sockets.{answering_if, attempt_at, is_own, takes_sockets};
ghost use Rattle.turn_client_proto_core.specs.Numbering.{IsNextNumber, IsUnused, after_number};
ghost use Rattle.turn_client_proto_messages.specs.declared.answer.AttemptAnswer.TheVariants.{Accepted};

use std::net::SocketAddr;
use std::time::Duration;
use stun_types_base::instant::Instant;
use stun_types_base::memory::NoMemory;
use stun_types_base::transport::TransportType;
use stun_types_wire::transaction::TransactionId;
use turn_client_proto_allocation::connection::Binding;
use turn_client_proto_api::answer::Socket5Tuple;
use turn_client_proto_api::error::TcpAllocateError;
use turn_client_proto_connection::attempts::attempt_of;
use turn_client_proto_connection::sockets;
use turn_client_proto_core::protocol::Protocol;
use turn_client_proto_messages::answer::AttemptAnswer;
use turn_client_proto_messages::laws::proof_requests_are_lawful;
use turn_client_proto_messages::request::TurnRequest;

/// How long the client waits for the response to a CONNECTION_BIND, in milliseconds.
pub(crate) const BINDING_TIME: u64 = 39_500;

/// Returns whether a socket is that of the client's control connection.
fn is_own(protocol: &Protocol, socket: Socket5Tuple) -> bool
    ensures { result ≡ is_own protocol.now socket }
{
    socket.transport == protocol.agent.transport()
        && socket.from == protocol.agent.local_addr()
        && socket.to == protocol.server
}

/// Returns whether the client accepts sockets for this control connection.
fn takes_sockets(protocol: &Protocol, socket: Socket5Tuple) -> bool
    ensures { result ≡ takes_sockets protocol.now socket }
{
    protocol.allocates == TransportType::Tcp
        && is_own(protocol, socket)
        && protocol.is_authenticated()
}

/// Takes the socket for a connection to a peer, which `poll` requested with the connection's ID:
/// its local address, or `None` if there is no socket. The connection then no longer waits for a
/// socket.
///
/// - With a socket, a CONNECTION_BIND (RFC 6062, section 4.3) is queued, to be sent from the socket
///   and answered within 39.5 seconds.
/// - If a request of the server announced the connection (section 4.4), it is answered too: by a
///   success, before the CONNECTION_BIND, or by error 447 if there is no socket.
///
/// The call doesn't check whether `poll` has requested the socket yet, or whether the allocation
/// has expired.
///
/// # Errors
///
/// The first that applies is returned:
///
/// - `NoAllocation`: no connection with this ID and peer waits for its socket; or the client has
///   not allocated over TCP, or has ended; or the five-tuple isn't that of the control connection.
/// - `AlreadyExists`: another connection has this local address.
/// - `NoMemory`: a memory allocation failed. Without a socket this can happen only if a peer opened
///   the connection.
///
/// After an error nothing has changed, except for the random words that were generated with
/// `NoMemory`.
pub fn allocated_tcp_socket(
    protocol: &mut Protocol,
    id: u32,
    five_tuple: Socket5Tuple,
    peer: SocketAddr,
    local: Option<SocketAddr>,
    now: Instant,
) -> Result<(), TcpAllocateError>
    ensures { IsSocketAnswered protocol.old id five_tuple peer local now result protocol.new }
{
    let allocations = protocol.allocations.as_slice();
    let Some(index) = sockets::index_of(allocations, id, peer) else {
        return Err(TcpAllocateError::NoAllocation);
    };
    if !takes_sockets(protocol, five_tuple) {
        return Err(TcpAllocateError::NoAllocation);
    }
    let Some(here) = local else {
        return match forgo(protocol, id, peer) {
            Ok(()) => Ok(()),
            Err(NoMemory) => Err(TcpAllocateError::NoMemory),
        };
    };
    if sockets::is_any_from(allocations, here) {
        return Err(TcpAllocateError::AlreadyExists);
    }
    match join(protocol, index, here, peer, id, now) {
        Ok(()) => Ok(()),
        Err(NoMemory) => Err(TcpAllocateError::NoMemory),
    }
}

/// Proof only: a transaction ID has 96 bits, as its type ensures.
fn proof_number_fits(transaction_id: TransactionId)
    ensures { IsNumber transaction_id }
{}

/// Drops a connection for which there is no socket; if a peer opened it, reports that to the
/// server. With `NoMemory`, nothing has changed.
fn forgo(protocol: &mut Protocol, connection: u32, peer: SocketAddr) -> Result<(), NoMemory>
    ensures ok { OnOk result (IsSocketLacking protocol.old connection peer protocol.new) }
    ensures err { OnErr result ((protocol.new ≡ protocol.old)
        × (attempt_at connection peer protocol.old ≢ None)) }
{
    let Some(attempt) = attempt_of(protocol.allocations.as_slice(), connection, peer) else {
        sockets::release(protocol.allocations.as_mut_slice(), connection, peer);
        return Ok(());
    };
    proof_number_fits(attempt);
    protocol.answer_attempt(attempt, AttemptAnswer::Failed)?;
    sockets::release(protocol.allocations.as_mut_slice(), connection, peer);
    Ok(())
}

/// Gives a socket to a connection that waits for one in the allocation at `index`: answers
/// the server's request if a peer opened the connection, and then queues a CONNECTION_BIND. With
/// `NoMemory`, nothing has changed except that random words were generated.
fn join(
    protocol: &mut Protocol,
    index: usize,
    here: SocketAddr,
    peer: SocketAddr,
    connection: u32,
    now: Instant,
) -> Result<(), NoMemory>
    requires { index < length protocol.old.allocations }
    ensures ok { OnOk result ((number : ℕ) × IsNextNumber protocol.old number
        × IfSome (attempt_at connection peer protocol.old) IsNumber
        × IsBoundAt here index peer connection number now
        (answering_if Accepted (attempt_at connection peer protocol.old)
        (after_number protocol.old)) protocol.new) }
    ensures err { OnErr result (protocol.new ≡ after_number protocol.old) }
{
    let attempt = attempt_of(protocol.allocations.as_slice(), connection, peer);
    let number = protocol.generate_id()?;
    let Some(attempt) = attempt else {
        return bind(protocol, index, here, peer, connection, number, now);
    };
    proof_number_fits(attempt);
    protocol.answer_attempt(attempt, AttemptAnswer::Accepted)?;
    match bind(protocol, index, here, peer, connection, number, now) {
        Ok(()) => Ok(()),
        Err(e) => {
            protocol.queue.pop_back();
            Err(e)
        }
    }
}

/// Queues a CONNECTION_BIND with this transaction ID, for a connection that waits for its socket in
/// the allocation at `index`. With `NoMemory`, nothing has changed.
fn bind(
    protocol: &mut Protocol,
    index: usize,
    here: SocketAddr,
    peer: SocketAddr,
    connection: u32,
    transaction_id: TransactionId,
    now: Instant,
) -> Result<(), NoMemory>
    requires there { index < length protocol.old.allocations }
    requires unused { IsUnused protocol.old.agent transaction_id }
    ensures ok { OnOk result (IsBoundAt here index peer connection transaction_id now protocol.old
        protocol.new) }
    ensures err { OnErr result (protocol.new ≡ protocol.old) }
{
    let expiry = now.saturating_add(Duration::from_millis(BINDING_TIME));
    let awaited = Binding {
        number: transaction_id,
        expiry,
    };
    let (alloc, allocations) = (protocol.alloc, &mut protocol.allocations);
    sockets::bind(alloc, allocations, index, here, peer, connection, awaited)?;
    let request = TurnRequest::ConnectionBind(connection);
    proof_requests_are_lawful(&request);
    match protocol.ask_from(here, transaction_id, request, now) {
        Ok(()) => {
            sockets::release(protocol.allocations.as_mut_slice(), connection, peer);
            Ok(())
        }
        Err(e) => {
            sockets::forget(&mut protocol.allocations, index);
            Err(e)
        }
    }
}

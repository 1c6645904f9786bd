//! Connections to peers (RFC 6062, section 4).

ghost use Rattle.std.specs.Prelude.{◌≡◌};
ghost use Rattle.std.specs.List.{list_any};
ghost use Rattle.turn_client_proto_allocation.specs.Awaited.{is_attempt, is_binding, is_connecting};

use std::net::SocketAddr;
use stun_types_base::instant::Instant;
use stun_types_wire::transaction::TransactionId;
use turn_types_frame::tcp::TurnTcpBuffer;

/// A CONNECT request that is not answered (RFC 6062, section 4.3).
#[derive(Clone, Copy, Debug)]
pub struct Connecting {
    /// The transaction ID of the request.
    pub number: TransactionId,
    /// The peer's address.
    pub peer: SocketAddr,
}

/// A connection between the server and a peer that waits for the caller to open a socket to the
/// server (RFC 6062, sections 4.3 and 4.4).
#[derive(Clone, Copy, Debug)]
pub struct Waiting {
    /// The CONNECTION-ID by which the server knows the connection.
    pub connection: u32,
    /// The peer's address.
    pub peer: SocketAddr,
    /// Whether the caller was requested to open the socket.
    pub is_requested: bool,
    /// The transaction ID of the server's CONNECTION_ATTEMPT request, if one announced the
    /// connection: its response is due once there is a socket.
    pub attempt: Option<TransactionId>,
}

/// A CONNECTION_BIND request that is not answered.
#[derive(Clone, Copy, Debug)]
pub struct Binding {
    /// The transaction ID of the request.
    pub number: TransactionId,
    /// The time until which a response is accepted.
    pub expiry: Instant,
}

/// A data connection. It is bound if no CONNECTION_BIND is outstanding for it.
#[derive(Debug, Drop)]
pub struct Connection {
    /// The client's own address of the connection to the server.
    pub here: SocketAddr,
    /// The peer's address.
    pub peer: SocketAddr,
    /// The CONNECTION-ID by which the server knows the connection.
    pub connection: u32,
    /// The CONNECTION_BIND that is not answered, if any.
    pub awaited: Option<Binding>,
    /// The bytes that were received over its socket and not yet processed. Before the connection is
    /// bound, these are the first bytes of frames. Afterwards they are the peer's data, which waits
    /// to be returned to the caller.
    pub stream: TurnTcpBuffer,
}

/// Returns whether one of the CONNECT requests has this transaction ID.
pub(crate) fn is_any_connecting(connecting: &[Connecting], transaction_id: TransactionId) -> bool
    ensures { result ≡ list_any (is_connecting transaction_id) connecting.now }
{
    connecting.iter().any(|c| c.number == transaction_id)
}

/// Returns whether the connection was announced by the server's CONNECTION_ATTEMPT with this
/// transaction ID.
fn is_attempt(waiting: &Waiting, transaction_id: TransactionId) -> bool
    ensures { result ≡ is_attempt transaction_id waiting.now }
{
    match waiting.attempt {
        Some(attempt) => attempt == transaction_id,
        None => false,
    }
}

/// Returns whether one of the connections was announced by the server's CONNECTION_ATTEMPT with
/// this transaction ID.
pub(crate) fn is_any_attempt(waiting: &[Waiting], transaction_id: TransactionId) -> bool
    ensures { result ≡ list_any (is_attempt transaction_id) waiting.now }
{
    waiting.iter().any(|w| is_attempt(w, transaction_id))
}

/// Returns whether the CONNECTION_BIND with this transaction ID is outstanding for the connection.
fn is_binding(connection: &Connection, transaction_id: TransactionId) -> bool
    ensures { result ≡ is_binding transaction_id connection.now }
{
    match connection.awaited {
        Some(binding) => binding.number == transaction_id,
        None => false,
    }
}

/// Returns whether the CONNECTION_BIND with this transaction ID is outstanding for one of the
/// connections.
pub(crate) fn is_any_binding(connections: &[Connection], transaction_id: TransactionId) -> bool
    ensures { result ≡ list_any (is_binding transaction_id) connections.now }
{
    connections.iter().any(|c| is_binding(c, transaction_id))
}

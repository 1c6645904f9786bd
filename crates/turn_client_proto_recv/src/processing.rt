//! Messages on the socket of a connection that is being bound (RFC 6062, section 4.3).
#![tactic(auto, using(crate::proofs::Usual::usual), unfolding(crate::proofs::Usual::opened))]

ghost use Rattle.std.specs.Bool.{MatchBool};
ghost use Rattle.std.specs.Prelude.{◌≡◌, OnErr, OnOk, true};
ghost use Rattle.stun_types_wire.specs.Attributes.{kind_at};
ghost use Rattle.stun_types_wire.specs.Types.{class_of};
ghost use Rattle.turn_client_proto_recv.specs.Processing.{IsAnswerProcessed, IsRequestedAnew, IsProcessedAt, IsSettled, bound_at, aborted, awaited_at, is_answer, is_of_binding, is_success_class, may_bind};
ghost use Rattle.turn_client_proto_core.specs.Ending.{HasFailed, IsUnderWay};
ghost use Rattle.turn_client_proto_core.specs.Responding.{answered};

use crate::socket::BINDING_TIME;
use std::net::SocketAddr;
use std::time::Duration;
use stun_proto_client::error::LongTermClientAuthError;
use stun_proto_client::validation::LongTermClientValidation;
use stun_types_base::instant::Instant;
use stun_types_base::memory::NoMemory;
use stun_types_message::parsed::Message;
use stun_types_wire::class::MessageClass;
use stun_types_wire::transaction::TransactionId;
use turn_client_proto_allocation::allocation::Allocation;
use turn_client_proto_allocation::connection::Binding;
use turn_client_proto_api::event::TurnEvent;
use turn_client_proto_connection::{sockets, streams};
use turn_client_proto_core::protocol::Protocol;
use turn_client_proto_messages::laws::proof_requests_are_lawful;
use turn_client_proto_messages::request::TurnRequest;
use turn_types_attributes::registry::CONNECTION_BIND;

/// What an unbound connection waits for.
#[derive(Clone, Copy, Debug)]
pub struct Joining {
    /// The transaction ID of the newest CONNECTION_BIND.
    pub number: TransactionId,
    /// The peer's address.
    pub peer: SocketAddr,
    /// The server's ID of the connection (CONNECTION-ID).
    pub connection: u32,
}

/// Returns what the connection with this local address waits for, if it isn't bound.
pub fn awaited_at(allocations: &[Allocation], here: SocketAddr) -> Option<Joining>
    ensures { result ≡ awaited_at here allocations.now }
{
    let connection = streams::from(allocations, here)?;
    let binding = connection.awaited?;
    Some(Joining {
        number: binding.number,
        peer: connection.peer,
        connection: connection.connection,
    })
}

/// Handles a message on the socket with this local address, of a connection that is being bound.
/// Messages of other methods than CONNECTION_BIND are ignored, and all messages if the client has
/// not allocated or has ended.
///
/// - A validated success response to the newest CONNECTION_BIND, whose transaction is outstanding,
///   binds the connection and queues `TcpConnected`.
/// - For a challenge to it that can be answered (RFC 8489, section 9.2.5), the client sends another
///   CONNECTION_BIND, to be answered within 39.5 seconds. The challenge isn't counted, and the
///   challenged request stays outstanding.
/// - Any other CONNECTION_BIND message makes the connection fail: it is removed, `TcpConnectFailed`
///   is queued, and `poll` asks the caller to close the socket.
///
/// # Errors
///
/// - `NoMemory`: a memory allocation failed, and the client has failed. This can happen only for a
///   CONNECTION_BIND message on a connection that is being bound.
pub fn process_at(
    protocol: &mut Protocol,
    here: SocketAddr,
    message: &Message<'_>,
    now: Instant,
) -> Result<(), NoMemory>
    ensures ok { OnOk result (IsProcessedAt here protocol.old message.now now protocol.new) }
    ensures err { OnErr result (HasFailed protocol.old protocol.new) }
    ensures memory { OnErr result (may_bind here protocol.old message.now ≡ true) }
{
    let events = protocol.events.len();
    match process(protocol, here, message, now) {
        Ok(()) => Ok(()),
        Err(e) => {
            protocol.fail(events);
            Err(e)
        }
    }
}

/// Returns whether a message has the method CONNECTION_BIND and the client has allocated.
fn is_of_binding(protocol: &Protocol, message: &Message<'_>) -> bool
    ensures { result ≡ is_of_binding protocol.now message.now }
{
    protocol.is_authenticated() && message.method() == CONNECTION_BIND
}

/// Returns whether a message is the response to the request with this transaction ID.
fn is_answer(message: &Message<'_>, transaction_id: TransactionId) -> bool
    ensures { result ≡ is_answer transaction_id message.now }
{
    message.is_response() && message.transaction_id() == transaction_id
}

/// Handles a message for `process_at`. If a memory allocation fails, the client is left in an
/// intermediate state (`IsUnderWay`).
fn process(
    protocol: &mut Protocol,
    here: SocketAddr,
    message: &Message<'_>,
    now: Instant,
) -> Result<(), NoMemory>
    ensures ok { OnOk result (IsProcessedAt here protocol.old message.now now protocol.new) }
    ensures err { OnErr result (IsUnderWay protocol.old protocol.new) }
    ensures memory { OnErr result (may_bind here protocol.old message.now ≡ true) }
{
    if !is_of_binding(protocol, message) {
        return Ok(());
    }
    let Some(joining) = awaited_at(protocol.allocations.as_slice(), here) else {
        return Ok(());
    };
    if !is_answer(message, joining.number) {
        return break_off(protocol, here, joining.peer);
    }
    judge(protocol, here, joining, message, now)
}

/// Handles a response to the newest CONNECTION_BIND of a connection.
fn judge(
    protocol: &mut Protocol,
    here: SocketAddr,
    joining: Joining,
    message: &Message<'_>,
    now: Instant,
) -> Result<(), NoMemory>
    ensures ok { OnOk result
        (IsAnswerProcessed here joining protocol.old message.now now protocol.new) }
    ensures err { OnErr result (IsUnderWay protocol.old protocol.new) }
{
    match protocol.auth.validate_incoming_message(message) {
        Ok(LongTermClientValidation::ResendRequest(_)) => {
            ask_anew(protocol, here, joining.connection, now)
        }
        Ok(LongTermClientValidation::Validated(_)) => {
            settle(protocol, here, joining.peer, message)
        }
        Err(LongTermClientAuthError::NoMemory) => Err(NoMemory),
        Err(_) => reject(protocol, here, joining.peer, message),
    }
}

/// Handles a response that doesn't validate: ends its transaction and fails the connection.
fn reject(
    protocol: &mut Protocol,
    here: SocketAddr,
    peer: SocketAddr,
    message: &Message<'_>,
) -> Result<(), NoMemory>
    ensures ok { OnOk result (protocol.new
        ≡ aborted here peer (answered message.now protocol.old)) }
    ensures err { OnErr result (IsUnderWay protocol.old protocol.new) }
{
    protocol.answer(message)?;
    break_off(protocol, here, peer)
}

/// Returns whether a message is a success response.
fn is_success(message: &Message<'_>) -> bool
    ensures { result ≡ is_success_class (class_of (kind_at message.now)) }
{
    match message.class() {
        MessageClass::Success => true,
        MessageClass::Error | MessageClass::Request | MessageClass::Indication => false,
    }
}

/// Handles a response that validates. It fails the connection if its transaction isn't outstanding.
fn settle(
    protocol: &mut Protocol,
    here: SocketAddr,
    peer: SocketAddr,
    message: &Message<'_>,
) -> Result<(), NoMemory>
    ensures ok { OnOk result (IsSettled here peer protocol.old message.now protocol.new) }
    ensures err { OnErr result (IsUnderWay protocol.old protocol.new) }
{
    if !protocol.is_awaited(message) {
        return break_off(protocol, here, peer);
    }
    protocol.accept(message)?;
    conclude(protocol, here, peer, is_success(message))
}

/// Binds the connection with this local address, or fails it, by its accepted response.
fn conclude(
    protocol: &mut Protocol,
    here: SocketAddr,
    peer: SocketAddr,
    is_bound: bool,
) -> Result<(), NoMemory>
    ensures ok { OnOk result (MatchBool is_bound
        (protocol.new ≡ bound_at here peer protocol.old)
        (protocol.new ≡ aborted here peer protocol.old)) }
    ensures err { OnErr result (IsUnderWay protocol.old protocol.new) }
{
    if is_bound {
        bind_at(protocol, here, peer)
    } else {
        break_off(protocol, here, peer)
    }
}

/// Marks the connection with this local address as bound to a peer, and queues `TcpConnected`.
#[tactic(auto, using(crate::proofs::Usual::usual), unfolding(crate::specs::Processing::bound_at))]
fn bind_at(protocol: &mut Protocol, here: SocketAddr, peer: SocketAddr) -> Result<(), NoMemory>
    ensures ok { OnOk result (protocol.new ≡ bound_at here peer protocol.old) }
    ensures err { OnErr result (IsUnderWay protocol.old protocol.new) }
{
    protocol.events.push_back(TurnEvent::TcpConnected(peer))?;
    streams::await_from(protocol.allocations.as_mut_slice(), here, None);
    Ok(())
}

/// Removes the connection with this local address, queues `TcpConnectFailed`, and lists its socket
/// to be closed.
#[tactic(auto, using(crate::proofs::Usual::usual), unfolding(crate::specs::Processing::aborted))]
fn break_off(protocol: &mut Protocol, here: SocketAddr, peer: SocketAddr) -> Result<(), NoMemory>
    ensures ok { OnOk result (protocol.new ≡ aborted here peer protocol.old) }
    ensures err { OnErr result (IsUnderWay protocol.old protocol.new) }
{
    protocol
        .events
        .push_back(TurnEvent::TcpConnectFailed(peer))?;
    protocol.closing.push_back(here)?;
    sockets::close(protocol.allocations.as_mut_slice(), here);
    Ok(())
}

/// Queues another CONNECTION_BIND for the connection with this local address.
#[tactic(auto, using(crate::proofs::Usual::usual), unfolding(crate::specs::Processing::requested_anew))]
fn ask_anew(
    protocol: &mut Protocol,
    here: SocketAddr,
    connection: u32,
    now: Instant,
) -> Result<(), NoMemory>
    ensures ok { OnOk result (IsRequestedAnew here connection now protocol.old protocol.new) }
    ensures err { OnErr result (IsUnderWay protocol.old protocol.new) }
{
    let number = protocol.generate_id()?;
    let expiry = now.saturating_add(Duration::from_millis(BINDING_TIME));
    let request = TurnRequest::ConnectionBind(connection);
    proof_requests_are_lawful(&request);
    protocol.ask_from(here, number, request, now)?;
    let awaited = Some(Binding { number, expiry });
    streams::await_from(protocol.allocations.as_mut_slice(), here, awaited);
    Ok(())
}

//! Building of what carries bytes to a peer (RFC 8656, sections 11.1 and 12.5; RFC 6062, section
//! 4.5).
#![tactic(auto, using(turn_client_proto_core::proofs::Usual::usual), unfolding(turn_client_proto_core::proofs::Usual::opened))]

ghost use Rattle.std.specs.Prelude.{◌≡◌, ◌≤◌, length, option_map};
ghost use Rattle.stun_types_base.specs.declared.transport.TransportType.TheVariants.{Udp};
ghost use Rattle.turn_types_attributes.specs.TurnRegistry.{most_payload};
ghost use Rattle.turn_client_proto_payload.specs.Sending.{IsSendAnswered, IsSentOver, answered_as, channel_in, channel_to, connection_in, connection_to};

use std::convert::AsSlice;
use std::fmt::Debug;
use std::net::SocketAddr;
use stun_types_base::instant::Instant;
use stun_types_base::transport::TransportType;
use turn_client_proto_allocation::allocation::Allocation;
use turn_client_proto_allocation::channel::Channel;
use turn_client_proto_allocation::connection::Connection;
use turn_client_proto_api::error::SendError;
use turn_client_proto_api::send::DelayedMessageOrChannelSend;
use turn_client_proto_core::protocol::Protocol;
use turn_client_proto_peers::permission::asking::permits_any;
use turn_types_attributes::registry::MAX_PAYLOAD;
use turn_types_frame::build::TransmitBuild;
use turn_types_frame::delayed_channel::DelayedChannel;
use turn_types_frame::delayed_message::DelayedMessage;

/// Returns the first channel to a peer in an allocation, if the allocation has this transport.
fn channel_in(a: &Allocation, transport: TransportType, peer: SocketAddr) -> Option<&Channel>
    ensures { option_map (λ c. c.now) result ≡ channel_in transport peer a.now }
{
    if a.transport != transport {
        return None;
    }
    for channel in a.channels.as_slice() {
        if channel.peer == peer {
            return Some(channel);
        }
    }
    None
}

/// Returns the first channel to a peer in the allocations of this transport, those marked as
/// expired included.
fn channel_to(
    allocations: &[Allocation],
    transport: TransportType,
    peer: SocketAddr,
) -> Option<&Channel>
    ensures { option_map (λ c. c.now) result ≡ channel_to transport peer allocations.now }
{
    for allocation in allocations {
        if let Some(channel) = channel_in(allocation, transport, peer) {
            return Some(channel);
        }
    }
    None
}

/// Returns the first bound connection to a peer in an allocation, if the allocation has this
/// transport.
fn connection_in(a: &Allocation, transport: TransportType, peer: SocketAddr) -> Option<&Connection>
    ensures { option_map (λ c. c.now) result ≡ connection_in transport peer a.now }
{
    if a.transport != transport {
        return None;
    }
    for connection in a.connections.as_slice() {
        if connection.peer == peer && connection.awaited.is_none() {
            return Some(connection);
        }
    }
    None
}

/// Returns the first bound connection to a peer in the allocations of this transport.
fn connection_to(
    allocations: &[Allocation],
    transport: TransportType,
    peer: SocketAddr,
) -> Option<&Connection>
    ensures { option_map (λ c. c.now) result ≡ connection_to transport peer allocations.now }
{
    for allocation in allocations {
        if let Some(connection) = connection_in(allocation, transport, peer) {
            return Some(connection);
        }
    }
    None
}

/// Returns what carries bytes over UDP: a frame of the first channel to the peer if it hasn't
/// expired, else a SEND indication with a new transaction ID.
#[inline(always)]
fn carried<T: AsSlice<u8> + Debug + Drop>(
    protocol: &mut Protocol,
    to: SocketAddr,
    bytes: T,
    now: Instant,
) -> Result<Option<TransmitBuild<DelayedMessageOrChannelSend<T>>>, SendError>
    requires { length (T.items bytes) ≤ most_payload }
    ensures { IsSentOver Udp protocol.old to (T.items bytes) now (answered_as T.items result)
        protocol.new }
{
    let (by, here) = (protocol.agent.transport(), protocol.agent.local_addr());
    let server = protocol.server;
    match channel_to(protocol.allocations.as_slice(), TransportType::Udp, to) {
        Some(channel) if now <= channel.expiry => {
            let number = channel.number.number();
            let frame = match by {
                TransportType::Tcp => DelayedChannel::padded(number, bytes),
                TransportType::Udp => DelayedChannel::new(number, bytes),
            };
            let carrier = DelayedMessageOrChannelSend::Channel(frame);
            Ok(Some(TransmitBuild::new(carrier, by, here, server)))
        }
        _ => match protocol.generate_id() {
            Ok(number) => {
                let message = DelayedMessage::for_server(to, number, bytes);
                let carrier = DelayedMessageOrChannelSend::Message(message);
                Ok(Some(TransmitBuild::new(carrier, by, here, server)))
            }
            Err(_) => Err(SendError::NoMemory),
        },
    }
}

/// Returns what carries bytes to a peer at `now`, over the allocations of this transport.
///
/// - TCP: the bytes as they are, on the first connection that is bound to the peer.
/// - UDP: a channel frame if the first channel to the peer hasn't expired, else a SEND indication
///   with a new transaction ID.
///
/// No memory is allocated. The function is inlined because its result is large.
///
/// # Errors
///
/// - `NoPermission`: no allocation that isn't marked as expired has a permission for the peer's
///   address.
/// - `NoTcpSocket` (TCP): no connection is bound to the peer.
/// - `TooLarge` (UDP): there are more than `MAX_PAYLOAD` bytes.
/// - `NoMemory` (UDP, without an active channel): every transaction ID is in use.
///
/// After an error nothing has changed, except for the random words that were generated with
/// `NoMemory`.
#[inline(always)]
#[tactic(auto, unfolding(crate::specs::Sending::send_refusal))]
pub fn send_to<T: AsSlice<u8> + Debug + Drop>(
    protocol: &mut Protocol,
    transport: TransportType,
    to: SocketAddr,
    bytes: T,
    now: Instant,
) -> Result<Option<TransmitBuild<DelayedMessageOrChannelSend<T>>>, SendError>
    ensures { IsSendAnswered protocol.old transport to (T.items bytes) now
        (answered_as T.items result) protocol.new }
{
    let allocations = protocol.allocations.as_slice();
    if !permits_any(allocations, transport, to.ip()) {
        return Err(SendError::NoPermission);
    }
    match transport {
        TransportType::Tcp => {
            let Some(connection) = connection_to(allocations, transport, to) else {
                return Err(SendError::NoTcpSocket);
            };
            let (here, server) = (connection.here, protocol.server);
            let carrier = DelayedMessageOrChannelSend::Data(bytes);
            Ok(Some(TransmitBuild::new(carrier, transport, here, server)))
        }
        TransportType::Udp => {
            if bytes.as_slice().len() > MAX_PAYLOAD {
                return Err(SendError::TooLarge);
            }
            carried(protocol, to, bytes, now)
        }
    }
}

//! What a request asks the server for.

ghost use Rattle.std.specs.Prelude.{◌≡◌, IfOk};
ghost use Rattle.std.specs.Option.{option_map};
ghost use Rattle.turn_desk_core.specs.RequestedFor.{requested, channel_requested, channel_to, connection_requested, peer_requested, protocol_transport, transport_requested};

use crate::peers::{peer_requested, peers_requested};
use std::alloc::Global;
use std::convert::TryFrom;
use std::net::SocketAddr;
use stun_types_base::list::ListOf;
use stun_types_base::memory::NoMemory;
use stun_types_base::transport::TransportType;
use stun_types_message::parsed::Message;
use stun_types_write::attribute::AttributeStaticType;
use turn_types_attributes::registry::{
    ALLOCATE, CHANNEL_BIND, CONNECT, CONNECTION_BIND, CREATE_PERMISSION, REFRESH,
};
use turn_types_attributes::requested_transport::RequestedTransport;
use turn_types_peer::channel_number::ChannelNumber;
use turn_types_peer::connection_id::ConnectionId;

/// What a request asks for. There is one variant for each method.
#[derive(Debug, Drop)]
pub enum Requested {
    /// ALLOCATE: an allocation for this transport (RFC 8656, section 7.1).
    Allocation(TransportType),
    /// REFRESH: a longer lifetime for an allocation, or its end (RFC 8656, section 8.1).
    Refreshment,
    /// CREATE_PERMISSION: permissions for one or more peers (RFC 8656, section 10.1).
    Permissions(ListOf<SocketAddr>),
    /// CHANNEL_BIND: a channel to a peer (RFC 8656, section 12.1).
    Channel {
        /// The channel number: any 16-bit value.
        channel: u16,
        /// The peer.
        peer: SocketAddr,
    },
    /// CONNECT: a connection to this peer (RFC 6062, section 4.3).
    Connection(SocketAddr),
    /// CONNECTION_BIND: the binding of the connection with this ID (RFC 6062, section 4.3).
    Binding(u32),
}

/// Returns what a request asks for, or `None` if an attribute that its method needs is missing or
/// malformed. Each method needs:
///
/// - ALLOCATE: a REQUESTED-TRANSPORT of UDP or TCP.
/// - REFRESH: nothing.
/// - CREATE_PERMISSION: one or more XOR-PEER-ADDRESS, all well formed.
/// - CHANNEL_BIND: a CHANNEL-NUMBER and a XOR-PEER-ADDRESS.
/// - CONNECT: a XOR-PEER-ADDRESS.
/// - CONNECTION_BIND: a CONNECTION-ID.
///
/// Of several attributes of one type only the first is read, except in a CREATE_PERMISSION. Any
/// other method gives `None`.
///
/// # Errors
///
/// - `NoMemory`: an allocation failed.
pub fn requested_by(alloc: Global, request: &Message) -> Result<Option<Requested>, NoMemory>
    ensures { IfOk result (λ reported. reported ≡ requested request.now) }
{
    let method = request.method();
    if method == ALLOCATE {
        return Ok(transport_requested(request).map(Requested::Allocation));
    }
    if method == REFRESH {
        return Ok(Some(Requested::Refreshment));
    }
    if method == CREATE_PERMISSION {
        let peers = peers_requested(alloc, request)?;
        return Ok(peers.map(Requested::Permissions));
    }
    if method == CHANNEL_BIND {
        return Ok(channel_to(request));
    }
    if method == CONNECT {
        return Ok(peer_requested(request).map(Requested::Connection));
    }
    if method == CONNECTION_BIND {
        return Ok(connection_requested(request).map(Requested::Binding));
    }
    Ok(None)
}

/// Returns the transport of the first REQUESTED-TRANSPORT, if there is one, it is well formed, and
/// it names UDP or TCP.
fn transport_requested(request: &Message) -> Option<TransportType>
    ensures { result ≡ transport_requested request.now }
{
    let raw = request.raw_attribute(RequestedTransport::TYPE)?;
    match RequestedTransport::try_from(&raw) {
        Ok(requested) => protocol_transport(requested.protocol()),
        Err(_) => None,
    }
}

/// Returns the transport with an IP protocol number, if it is UDP or TCP.
fn protocol_transport(protocol: u8) -> Option<TransportType>
    ensures { result ≡ protocol_transport protocol }
{
    match protocol {
        RequestedTransport::UDP => Some(TransportType::Udp),
        RequestedTransport::TCP => Some(TransportType::Tcp),
        _ => None,
    }
}

/// Returns the channel of the first CHANNEL-NUMBER to the peer of the first XOR-PEER-ADDRESS, if
/// both are present and well formed.
fn channel_to(request: &Message) -> Option<Requested>
    ensures { result ≡ channel_to (channel_requested request.now) (peer_requested request.now) }
{
    let channel = channel_requested(request)?;
    let peer = peer_requested(request)?;
    Some(Requested::Channel { channel, peer })
}

/// Returns the channel number of the first CHANNEL-NUMBER, if there is one and it is well formed.
fn channel_requested(request: &Message) -> Option<u16>
    ensures { result ≡ channel_requested request.now }
{
    let raw = request.raw_attribute(ChannelNumber::TYPE)?;
    match ChannelNumber::try_from(&raw) {
        Ok(requested) => Some(requested.channel()),
        Err(_) => None,
    }
}

/// Returns the connection ID of the first CONNECTION-ID, if there is one and it is well formed.
fn connection_requested(request: &Message) -> Option<u32>
    ensures { result ≡ connection_requested request.now }
{
    let raw = request.raw_attribute(ConnectionId::TYPE)?;
    match ConnectionId::try_from(&raw) {
        Ok(requested) => Some(requested.id()),
        Err(_) => None,
    }
}

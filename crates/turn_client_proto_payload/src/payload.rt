//! What a received message or channel frame delivers.
#![tactic(auto, using(turn_client_proto_core::proofs::Usual::usual), unfolding(turn_client_proto_core::proofs::Usual::opened))]

ghost use Rattle.std.specs.Prelude.{◌≡◌};
ghost use Rattle.turn_client_proto_payload.specs.Payloads.{payload_framed, payload_reported};

use crate::indication::{IndicationFields, index, reported_in};
use crate::known::{bound, permitted};
use std::net::SocketAddr;
use stun_types_base::transport::TransportType;
use stun_types_message::parsed::Message;
use stun_types_wire::class::MessageClass;
use turn_client_proto_core::protocol::{Phase, Protocol};
use turn_types_attributes::registry::{CHANNEL_HEADER_LENGTH, DATA};
use turn_types_frame::channel::ChannelData;
use turn_types_peer::icmp::Icmp;

/// What received bytes deliver, by position: nothing of them is copied.
#[derive(Debug, Drop)]
pub enum Payload {
    /// A peer's data in an indication (RFC 8656, section 11.4).
    Data {
        /// The transport between the server and the peer.
        transport: TransportType,
        /// The peer.
        peer: SocketAddr,
        /// The start of the data in the received bytes.
        start: usize,
        /// The end of the data.
        end: usize,
    },
    /// What a host on the way to a peer reports (RFC 8656, section 11.6): the transport, the peer
    /// and the ICMP report.
    Report(TransportType, SocketAddr, Icmp),
    /// A peer's data in a channel frame (RFC 8656, section 12.6).
    Framed {
        /// The channel number.
        number: u16,
        /// The transport between the server and the peer.
        transport: TransportType,
        /// The peer.
        peer: SocketAddr,
        /// The start of the data in the received bytes.
        start: usize,
        /// The end of the data.
        end: usize,
    },
}

/// Returns what a message from the server delivers: a DATA indication from a permitted peer does,
/// if the server has allocated and the client has not ended.
#[tactic(auto, unfolding(crate::specs::Payloads::payload_reported))]
pub fn payload_in(protocol: &Protocol, message: &Message<'_>) -> Option<Payload>
    ensures { result ≡ payload_reported protocol.now message.now }
{
    if !matches!(protocol.phase, Phase::Authenticated)
        || message.class() != MessageClass::Indication
        || message.method() != DATA
    {
        return None;
    }
    let IndicationFields {
        peer,
        value,
        report,
    } = reported_in(message)?;
    let peer = peer?;
    let transport = permitted(protocol.allocations.as_slice(), peer.ip())?;
    if let Some((offset, len)) = value {
        let (start, end) = index(message.as_ref(), offset, len);
        return Some(Payload::Data {
            transport,
            peer,
            start,
            end,
        });
    }
    Some(Payload::Report(transport, peer, report?))
}

/// Returns what bytes that are no message deliver: the data of the channel frame at their start.
/// The client's phase doesn't matter.
#[tactic(auto, unfolding(crate::specs::Payloads::payload_framed))]
pub fn payload_framed(protocol: &Protocol, bytes: &[u8]) -> Option<Payload>
    ensures { result ≡ payload_framed protocol.now bytes.now }
{
    let Ok(frame) = ChannelData::parse(bytes) else {
        return None;
    };
    let number = frame.id();
    let (transport, peer) = bound(protocol.allocations.as_slice(), number)?;
    let (start, end) = (CHANNEL_HEADER_LENGTH, frame.len());
    Some(Payload::Framed {
        number,
        transport,
        peer,
        start,
        end,
    })
}

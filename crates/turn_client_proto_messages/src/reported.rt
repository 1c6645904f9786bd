//! What the client decodes from the server's messages (RFC 8489, section 14.8; RFC 8656, section
//! 18). If a message has several attributes of a type, the first decides.

ghost use Rattle.std.specs.Prelude.{◌≡◌};
ghost use Rattle.turn_types_attributes.specs.TurnRegistry.{xor_relayed_address_kind};
ghost use Rattle.turn_types_peer.specs.TurnShows.{address_in};
ghost use Rattle.turn_client_proto_messages.specs.Reported.{connection_reported, first_code, lifetime_reported, peer_reported};

use std::convert::TryFrom;
use std::net::SocketAddr;
use stun_types_attributes::error_code::ErrorCode;
use stun_types_message::parsed::Message;
use stun_types_wire::attribute::RawAttribute;
use stun_types_wire::transaction::TransactionId;
use stun_types_write::attribute::AttributeStaticType;
use turn_types_attributes::lifetime::Lifetime;
use turn_types_attributes::xor_relayed_address::XorRelayedAddress;
use turn_types_peer::connection_id::ConnectionId;
use turn_types_peer::xor_peer_address::XorPeerAddress;

/// Returns the lifetime in the first LIFETIME of the message, in seconds (RFC 8656, section 18.2),
/// or `None` if that is missing or malformed.
pub fn lifetime_reported(message: &Message<'_>) -> Option<u32>
    ensures { result ≡ lifetime_reported message.now }
{
    let raw = message.raw_attribute(Lifetime::TYPE)?;
    match Lifetime::try_from(&raw) {
        Ok(lifetime) => Some(lifetime.seconds()),
        Err(_) => None,
    }
}

/// Returns the connection ID in the first CONNECTION-ID of the message (RFC 6062, section 6.2.1),
/// or `None` if that is missing or malformed.
pub fn connection_reported(message: &Message<'_>) -> Option<u32>
    ensures { result ≡ connection_reported message.now }
{
    let raw = message.raw_attribute(ConnectionId::TYPE)?;
    match ConnectionId::try_from(&raw) {
        Ok(connection) => Some(connection.id()),
        Err(_) => None,
    }
}

/// Returns the peer in the first XOR-PEER-ADDRESS of the message (RFC 8656, section 18.3), or
/// `None` if that is missing or malformed.
pub fn peer_reported(message: &Message<'_>) -> Option<SocketAddr>
    ensures { result ≡ peer_reported message.now }
{
    let raw = message.raw_attribute(XorPeerAddress::TYPE)?;
    match XorPeerAddress::try_from(&raw) {
        Ok(peer) => Some(peer.addr(message.transaction_id())),
        Err(_) => None,
    }
}

/// Returns the code in the first ERROR-CODE of the message, 300 to 699 (RFC 8489, section 14.8), or
/// `None` if that is missing or malformed.
#[tactic(auto, unfolding(stun_proto_auth::specs::Claims::code_decoded))]
pub fn first_code(message: &Message<'_>) -> Option<u16>
    ensures { result ≡ first_code message.now }
{
    let raw = message.raw_attribute(ErrorCode::TYPE)?;
    match ErrorCode::code_of(&raw) {
        Ok(code) => Some(code),
        Err(_) => None,
    }
}

/// Returns the address in a XOR-RELAYED-ADDRESS of a message with this transaction ID, or `None` if
/// it is malformed.
pub(crate) fn relayed_in(
    raw: &RawAttribute<'_>,
    transaction_id: TransactionId,
) -> Option<SocketAddr>
    requires { raw.now.kind ≡ xor_relayed_address_kind }
    ensures { result ≡ address_in transaction_id raw.now }
{
    match XorRelayedAddress::try_from(raw) {
        Ok(relayed) => Some(relayed.addr(transaction_id)),
        Err(_) => None,
    }
}

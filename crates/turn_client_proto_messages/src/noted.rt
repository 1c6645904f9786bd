//! What the client notes of the server's messages.

ghost use Rattle.std.specs.Prelude.{◌≡◌, IfOk};
ghost use Rattle.turn_client_proto_messages.specs.Noted.{alternate_reported, domain_reported, is_relaying, mapped_reported, phrase_of, reason_reported, reservation_reported};

use std::alloc::Global;
use std::convert::TryFrom;
use std::net::SocketAddr;
use stun_types_attributes::alternate_server::AlternateServer;
use stun_types_attributes::error_code::ErrorCode;
use stun_types_attributes::xor_mapped_address::XorMappedAddress;
use stun_types_base::memory::NoMemory;
use stun_types_message::parsed::Message;
use stun_types_wire::registry;
use stun_types_write::attribute::AttributeStaticType;
use stun_types_write::reading::{read_text, text_of};
use turn_client_proto_api::cause::MessageText;
use turn_types_attributes::reservation_token::ReservationToken;
use turn_types_attributes::xor_relayed_address::XorRelayedAddress;

/// Returns the address in the first XOR-MAPPED-ADDRESS of the message (RFC 8489, section 14.2), or
/// `None` if that is missing or malformed.
pub fn mapped_reported(message: &Message<'_>) -> Option<SocketAddr>
    ensures { result ≡ mapped_reported message.now }
{
    let raw = message.raw_attribute(XorMappedAddress::TYPE)?;
    match XorMappedAddress::try_from(&raw) {
        Ok(mapped) => Some(mapped.addr(message.transaction_id())),
        Err(_) => None,
    }
}

/// Returns the address in the first ALTERNATE-SERVER of the message (RFC 8489, section 14.15), or
/// `None` if that is missing or malformed.
pub fn alternate_reported(message: &Message<'_>) -> Option<SocketAddr>
    ensures { result ≡ alternate_reported message.now }
{
    let raw = message.raw_attribute(AlternateServer::TYPE)?;
    match AlternateServer::try_from(&raw) {
        Ok(alternate) => Some(alternate.server()),
        Err(_) => None,
    }
}

/// Returns the token in the first RESERVATION-TOKEN of the message (RFC 8656, section 18.10), its
/// first byte the most significant, or `None` if that is missing or malformed.
pub fn reservation_reported(message: &Message<'_>) -> Option<u64>
    ensures { result ≡ reservation_reported message.now }
{
    let raw = message.raw_attribute(ReservationToken::TYPE)?;
    match ReservationToken::try_from(&raw) {
        Ok(reservation) => Some(u64::from_be_bytes(*reservation.token())),
        Err(_) => None,
    }
}

/// Returns the text in the first ALTERNATE-DOMAIN of the message (RFC 8489, section 14.16), at most
/// 255 bytes, or `None` if that is missing or malformed. Fails with `NoMemory` if an allocation
/// fails.
pub fn domain_reported(
    alloc: Global,
    message: &Message<'_>,
) -> Result<Option<MessageText>, NoMemory>
    ensures { IfOk result (λ domain. domain ≡ domain_reported message.now) }
{
    let Some(raw) = message.raw_attribute(registry::ALTERNATE_DOMAIN) else {
        return Ok(None);
    };
    match text_of(
        &raw,
        registry::ALTERNATE_DOMAIN,
        registry::MAX_DOMAIN_LENGTH,
    ) {
        Ok(text) => Ok(Some(MessageText::copied(alloc, text)?)),
        Err(_) => Ok(None),
    }
}

/// Returns the reason phrase of the message's first ERROR-CODE (RFC 8489, section 14.8). It is
/// empty if that is missing, or is not UTF-8. Fails with `NoMemory` if an allocation fails.
pub fn reason_reported(alloc: Global, message: &Message<'_>) -> Result<MessageText, NoMemory>
    ensures { IfOk result (λ reason. reason ≡ reason_reported message.now) }
{
    match message.raw_attribute(ErrorCode::TYPE) {
        Some(raw) => phrase_of(alloc, raw.value()),
        None => Ok(MessageText::empty(alloc)),
    }
}

/// Returns the reason phrase in the value of an ERROR-CODE: what follows the first four bytes.
fn phrase_of(alloc: Global, value: &[u8]) -> Result<MessageText, NoMemory>
    ensures { IfOk result (λ reason. reason ≡ phrase_of value.now) }
{
    if value.len() < 4 {
        return Ok(MessageText::empty(alloc));
    }
    let (_, phrase) = value.split_at(4);
    match read_text(phrase) {
        Ok(text) => MessageText::copied(alloc, text),
        Err(_) => Ok(MessageText::empty(alloc)),
    }
}

/// Returns whether the message has a first XOR-RELAYED-ADDRESS that is well formed (RFC 8656,
/// section 18.5).
pub fn is_relaying(message: &Message<'_>) -> bool
    ensures { result ≡ is_relaying message.now }
{
    match message.raw_attribute(XorRelayedAddress::TYPE) {
        Some(raw) => XorRelayedAddress::try_from(&raw).is_ok(),
        None => false,
    }
}

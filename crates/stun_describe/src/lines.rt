//! A description of bytes in a few short lines.

use crate::attribute::{push_hex, push_value};
use crate::names::class_name;
use std::alloc::{AllocError, Global};
use stun_types_attributes::error_code::ErrorCode;
use stun_types_attributes::unknown_attributes::UnknownAttributes;
use stun_types_auth_attributes::realm::Realm;
use stun_types_auth_attributes::username::Username;
use stun_types_base::memory::NoMemory;
use stun_types_integrity::integrity_sha1::MessageIntegrity;
use stun_types_integrity::integrity_sha256::MessageIntegritySha256;
use stun_types_integrity::integrity_sha512::MessageIntegritySha512;
use stun_types_message::parsed::Message;
use stun_types_wire::attribute::RawAttribute;
use stun_types_wire::names::Names;
use stun_types_wire::transaction::TransactionId;
use stun_types_write::attribute::AttributeStaticType;
use turn_types_attributes::lifetime::Lifetime;
use turn_types_attributes::xor_relayed_address::XorRelayedAddress;
use turn_types_frame::channel::ChannelData;
use turn_types_peer::channel_number::ChannelNumber;
use turn_types_peer::connection_id::ConnectionId;
use turn_types_peer::data::Data;
use turn_types_peer::xor_peer_address::XorPeerAddress;

/// The range of characters of a transaction ID that is printed: its first six hex digits, after
/// `0x`.
const LISTED_OF_ID: (usize, usize) = (2, 8);

/// Appends a description of bytes, in lines that are separated by line feeds:
///
/// - a message: its name and its main attributes;
/// - a channel frame: its channel number and its data;
/// - other bytes: their number, and the bytes.
pub fn push_lines(
    alloc: Global,
    text: &mut String,
    bytes: &[u8],
    names: &Names,
) -> Result<(), NoMemory> {
    if let Ok(message) = Message::from_bytes(bytes) {
        return push_message(alloc, text, &message, names);
    }
    if let Ok(frame) = ChannelData::parse(bytes) {
        let number = frame.id();
        writeln!(text, "channel frame 0x{number:04x}")?;
        push_hex(alloc, text, frame.data())?;
    } else {
        let size = bytes.len();
        writeln!(text, "{size} bytes")?;
        push_hex(alloc, text, bytes)?;
    }
    Ok(())
}

/// Appends the description of a message:
///
/// - its method, its class and the first digits of its transaction ID;
/// - each main attribute, with its name and its value;
/// - the algorithms that it is signed with.
fn push_message(
    alloc: Global,
    text: &mut String,
    message: &Message<'_>,
    names: &Names,
) -> Result<(), NoMemory> {
    let (method, class) = (message.method().name(names), class_name(message.class()));
    write!(text, "{method} {class} ")?;
    push_digits(alloc, text, message.transaction_id())?;
    for (_, raw) in message.iter_attributes() {
        if is_of_interest(&raw) {
            let name = raw.get_type().name(names);
            write!(text, "\n{name} ")?;
            push_value(alloc, text, &raw, message.transaction_id())?;
        }
    }
    push_signed(text, message)
}

/// Appends the first digits of a transaction ID.
fn push_digits(
    alloc: Global,
    text: &mut String,
    transaction_id: TransactionId,
) -> Result<(), AllocError> {
    let (from, to) = LISTED_OF_ID;
    let transaction_id = format!(in alloc; "{transaction_id}")?;
    text.push_str(transaction_id.as_str().get(from..to).unwrap_or(""))
}

/// Appends the algorithms of a message's visible integrity attributes, or nothing if it has none.
fn push_signed(text: &mut String, message: &Message<'_>) -> Result<(), NoMemory> {
    let mut before = "\nsigned by ";
    for (atype, name) in [
        (MessageIntegrity::TYPE, "SHA-1"),
        (MessageIntegritySha256::TYPE, "SHA-256"),
        (MessageIntegritySha512::TYPE, "SHA-512"),
    ] {
        if message.has_attribute(atype) {
            write!(text, "{before}{name}")?;
            before = " and ";
        }
    }
    Ok(())
}

/// Returns whether an attribute is one of the main attributes, which are printed.
fn is_of_interest(raw: &RawAttribute<'_>) -> bool {
    match raw.get_type() {
        ErrorCode::TYPE
        | UnknownAttributes::TYPE
        | Username::TYPE
        | Realm::TYPE
        | Lifetime::TYPE
        | XorRelayedAddress::TYPE
        | XorPeerAddress::TYPE
        | ChannelNumber::TYPE
        | ConnectionId::TYPE
        | Data::TYPE => true,
        _ => false,
    }
}

//! Reads attributes from their bytes and from a message.

use crate::line::Line;
use std::boxed::BoxedSlice;
use std::convert::TryFrom;
use std::ops::Bound;
use stun_types_add::attribute::Fingerprint;
use stun_types_add::ice::{IceControlled, IceControlling, Priority, UseCandidate};
use stun_types_attributes::alternate_server::AlternateServer;
use stun_types_attributes::error_code::ErrorCode;
use stun_types_attributes::mapped_address::MappedAddress;
use stun_types_attributes::socket_addr::{MappedSocketAddr, XorSocketAddr};
use stun_types_attributes::unknown_attributes::UnknownAttributes;
use stun_types_attributes::xor_mapped_address::XorMappedAddress;
use stun_types_auth_attributes::alternate_domain::AlternateDomain;
use stun_types_auth_attributes::nonce::Nonce;
use stun_types_auth_attributes::password_algorithm::PasswordAlgorithm;
use stun_types_auth_attributes::password_algorithms::PasswordAlgorithms;
use stun_types_auth_attributes::realm::Realm;
use stun_types_auth_attributes::software::Software;
use stun_types_auth_attributes::userhash::Userhash;
use stun_types_auth_attributes::username::Username;
use stun_types_integrity::integrity_sha1::MessageIntegrity;
use stun_types_integrity::integrity_sha256::MessageIntegritySha256;
use stun_types_integrity::integrity_sha512::MessageIntegritySha512;
use stun_types_message::parsed::Message;
use stun_types_wire::attribute::{AttributeHeader, AttributeType, RawAttribute, pad_attribute_len};
use stun_types_wire::class::MessageClass;
use stun_types_wire::registry::BINDING;
use stun_types_wire::transaction::TransactionId;
use stun_types_write::attribute::{AttributeFromRaw, AttributeStaticType, AttributeWrite};
use turn_types_attributes::additional_address_family::AdditionalAddressFamily;
use turn_types_attributes::address_error_code::AddressErrorCode;
use turn_types_attributes::dont_fragment::DontFragment;
use turn_types_attributes::even_port::EvenPort;
use turn_types_attributes::lifetime::Lifetime;
use turn_types_attributes::requested_address_family::RequestedAddressFamily;
use turn_types_attributes::requested_transport::RequestedTransport;
use turn_types_attributes::reservation_token::ReservationToken;
use turn_types_attributes::xor_relayed_address::XorRelayedAddress;
use turn_types_peer::channel_number::ChannelNumber;
use turn_types_peer::connection_id::ConnectionId;
use turn_types_peer::data::Data;
use turn_types_peer::icmp::Icmp;
use turn_types_peer::xor_peer_address::XorPeerAddress;

/// `raw NUMBER BYTES`: reads the attribute at the start of the bytes. Prints:
///
/// 1. its header;
/// 2. for each attribute type, the bytes of the attribute that was read, or the error unless it is
///    a wrong type; for TURN's attributes with a peer, a family or an integer, for ICE's with an
///    integer and for MAPPED-ADDRESS also the decoded value;
/// 3. the raw attribute, and its bytes with an owned value.
pub(crate) fn raw(line: &mut Line<'_>) {
    let (number, bytes) = (line.transaction(), line.bytes());
    match AttributeHeader::try_from(bytes.as_slice()) {
        Ok(header) => {
            line.say(&header.length());
            line.hex(&<[u8; 4]>::from(header));
        }
        Err(error) => line.say(&error),
    }
    match RawAttribute::from_bytes(bytes.as_slice()) {
        Ok(raw) => {
            as_value(line, &raw);
            as_list(line, &raw);
            as_decoded(line, &raw);
            as_ice(line, &raw);
            as_peer(line, &raw, number);
            as_port(line, &raw);
            owned(line, raw);
        }
        Err(error) => line.say(&error),
    }
}

/// Prints a raw attribute: whether its type is comprehension-required, its value, its padded length
/// and its bytes; then its bytes with an owned value.
fn owned(line: &mut Line<'_>, raw: RawAttribute<'_>) {
    let atype = raw.get_type();
    line.say(&"|");
    line.say(&atype.comprehension_required());
    line.hex(raw.value());
    line.say(&pad_attribute_len(raw.value().len()));
    line.attribute(&raw);
    if let Ok(value) = BoxedSlice::from_slice(line.alloc, raw.value()) {
        line.attribute(&RawAttribute::new_owned(atype, value));
    }
    if let Ok(owned) = raw.into_owned(line.alloc) {
        line.attribute(&owned);
    }
}

/// Reads a raw attribute as each text and list type.
fn as_list(line: &mut Line<'_>, raw: &RawAttribute<'_>) {
    let alloc = line.alloc;
    line.read("Username", Username::from_raw_ref(alloc, raw));
    line.read("Realm", Realm::from_raw_ref(alloc, raw));
    line.read("Nonce", Nonce::from_raw_ref(alloc, raw));
    line.read("Software", Software::from_raw_ref(alloc, raw));
    line.read("AlternateDomain", AlternateDomain::from_raw_ref(alloc, raw));
    line.read("ErrorCode", ErrorCode::from_raw_ref(alloc, raw));
    line.read(
        "UnknownAttributes",
        UnknownAttributes::from_raw_ref(alloc, raw),
    );
    line.read(
        "PasswordAlgorithms",
        PasswordAlgorithms::from_raw_ref(alloc, raw),
    );
}

/// Reads a raw attribute as each type whose value has a few bytes.
fn as_value(line: &mut Line<'_>, raw: &RawAttribute<'_>) {
    line.read("PasswordAlgorithm", PasswordAlgorithm::try_from(raw));
    line.read("Lifetime", Lifetime::try_from(raw));
    line.read("RequestedTransport", RequestedTransport::try_from(raw));
    line.read("DontFragment", DontFragment::try_from(raw));
    line.read("XorMappedAddress", XorMappedAddress::try_from(raw));
    line.read("XorRelayedAddress", XorRelayedAddress::try_from(raw));
    line.read("AlternateServer", AlternateServer::try_from(raw));
    line.read("MessageIntegrity", MessageIntegrity::try_from(raw));
    line.read(
        "MessageIntegritySha256",
        MessageIntegritySha256::try_from(raw),
    );
    line.read(
        "MessageIntegritySha512",
        MessageIntegritySha512::try_from(raw),
    );
    line.read("Userhash", Userhash::try_from(raw));
    line.read("Fingerprint", Fingerprint::try_from(raw));
}

/// Reads a raw attribute as an address family or as one of TURN's integers, and prints the value.
fn as_decoded(line: &mut Line<'_>, raw: &RawAttribute<'_>) {
    line.read(
        "RequestedAddressFamily",
        RequestedAddressFamily::try_from(raw),
    );
    if let Ok(requested) = RequestedAddressFamily::try_from(raw) {
        line.say(&requested.family());
    }
    line.read(
        "AdditionalAddressFamily",
        AdditionalAddressFamily::try_from(raw),
    );
    if let Ok(additional) = AdditionalAddressFamily::try_from(raw) {
        line.say(&additional.family());
    }
    line.read("ChannelNumber", ChannelNumber::try_from(raw));
    if let Ok(number) = ChannelNumber::try_from(raw) {
        line.say(&number.channel());
    }
    line.read("ConnectionId", ConnectionId::try_from(raw));
    if let Ok(connection) = ConnectionId::try_from(raw) {
        line.say(&connection.id());
    }
}

/// Reads a raw attribute as each of ICE's types and as MAPPED-ADDRESS, and prints the value.
fn as_ice(line: &mut Line<'_>, raw: &RawAttribute<'_>) {
    line.read("MappedAddress", MappedAddress::try_from(raw));
    if let Ok(mapped) = MappedAddress::try_from(raw) {
        line.say(&mapped.addr());
    }
    line.read("Priority", Priority::try_from(raw));
    if let Ok(priority) = Priority::try_from(raw) {
        line.say(&priority.priority());
    }
    line.read("UseCandidate", UseCandidate::try_from(raw));
    line.read("IceControlled", IceControlled::try_from(raw));
    if let Ok(controlled) = IceControlled::try_from(raw) {
        line.say(&controlled.tie_breaker());
    }
    line.read("IceControlling", IceControlling::try_from(raw));
    if let Ok(controlling) = IceControlling::try_from(raw) {
        line.say(&controlling.tie_breaker());
    }
}

/// Reads a raw attribute as each type about a peer, and prints the value.
fn as_peer(line: &mut Line<'_>, raw: &RawAttribute<'_>, transaction_id: TransactionId) {
    line.read("XorPeerAddress", XorPeerAddress::try_from(raw));
    if let Ok(peer) = XorPeerAddress::try_from(raw) {
        line.say(&peer.addr(transaction_id));
    }
    line.read("Data", Data::from_raw_ref(line.alloc, raw));
    if let Ok(bytes) = Data::bytes_of(raw) {
        line.hex(bytes);
    }
    line.read("Icmp", Icmp::try_from(raw));
    if let Ok(report) = Icmp::try_from(raw) {
        line.say(&report.icmp_type());
        line.say(&report.code());
        line.say(&report.data());
    }
}

/// Reads a raw attribute as each type about a relayed port or the lack of an address, and prints
/// the value.
fn as_port(line: &mut Line<'_>, raw: &RawAttribute<'_>) {
    line.read("EvenPort", EvenPort::try_from(raw));
    if let Ok(port) = EvenPort::try_from(raw) {
        line.say(&port.reserves_next());
    }
    line.read("ReservationToken", ReservationToken::try_from(raw));
    if let Ok(reservation) = ReservationToken::try_from(raw) {
        line.hex(reservation.token());
    }
    line.read(
        "AddressErrorCode",
        AddressErrorCode::from_raw_ref(line.alloc, raw),
    );
    if let Ok(error) = AddressErrorCode::from_raw_ref(line.alloc, raw) {
        line.say(&error.family());
        line.say(&error.code());
        line.hex(error.reason().as_bytes());
    }
}

/// `check TYPE to=N but=N BYTES`: checks a raw attribute against a type and the bounds of its
/// length. `to` is an inclusive bound, `but` an exclusive one, and `-` means no bound.
pub(crate) fn check(line: &mut Line<'_>) {
    let atype = AttributeType(line.number());
    let (least, most, bytes) = (bound(line), bound(line), line.bytes());
    if let Ok(raw) = RawAttribute::from_bytes(bytes.as_slice()) {
        match raw.check_type_and_len(atype, least, most) {
            Ok(()) => line.say(&"fine"),
            Err(error) => line.say(&error),
        }
    }
}

/// Parses the next word as a bound.
fn bound(line: &mut Line<'_>) -> Bound<usize> {
    match line.word().split_once('=') {
        Some(("to", number)) => Bound::Included(number.parse().unwrap_or(0)),
        Some((_, number)) => Bound::Excluded(number.parse().unwrap_or(0)),
        None => Bound::Unbounded,
    }
}

/// `plain NUMBER BYTES`: prints the address in an attribute's value, that address XORed with the
/// transaction ID, and the result XORed again. Then prints an attribute that is made with the
/// address.
pub(crate) fn plain(line: &mut Line<'_>) {
    let (number, bytes) = (line.transaction(), line.bytes());
    if let Ok(raw) = RawAttribute::from_bytes(bytes.as_slice()) {
        match MappedSocketAddr::from_raw(&raw) {
            Ok(mapped) => {
                let addr = mapped.addr();
                let hidden = XorSocketAddr::xor_addr(addr, number);
                line.say(&addr);
                line.say(&hidden);
                line.say(&XorSocketAddr::xor_addr(hidden, number));
                if let Ok(made) = MappedSocketAddr::new(addr).to_raw(line.alloc, raw.get_type()) {
                    line.attribute(&made);
                }
            }
            Err(error) => line.say(&error),
        }
    }
}

/// `look TYPE N BYTES`: prints whether a message is a request, of the method BINDING, and a
/// response. Then prints whether an attribute of this type is visible, and the first one.
///
/// For a type that has a type of its own in the library, it also reads and prints the first such
/// attribute and the one after N others.
pub(crate) fn look(line: &mut Line<'_>) {
    let atype = AttributeType(line.number());
    let (count, bytes) = (line.value(0usize), line.bytes());
    match Message::from_bytes(bytes.as_slice()) {
        Ok(message) => {
            line.say(&message.has_class(MessageClass::Request));
            line.say(&message.has_method(BINDING));
            line.say(&message.is_response());
            line.say(&message.has_attribute(atype));
            if let Some(raw) = message.raw_attribute(atype) {
                line.attribute(&raw);
            }
            typed(line, &message, atype, count);
        }
        Err(error) => line.say(&error),
    }
}

/// Reads a message's visible attributes of this type.
fn typed(line: &mut Line<'_>, message: &Message<'_>, atype: AttributeType, count: usize) {
    match atype.value() {
        0x0001 => nth::<MappedAddress>(line, message, count),
        0x0006 => nth::<Username>(line, message, count),
        0x0009 => nth::<ErrorCode>(line, message, count),
        0x000C => nth::<ChannelNumber>(line, message, count),
        0x000D => nth::<Lifetime>(line, message, count),
        0x0012 => nth::<XorPeerAddress>(line, message, count),
        0x0013 => nth::<Data>(line, message, count),
        0x0014 => nth::<Realm>(line, message, count),
        0x0015 => nth::<Nonce>(line, message, count),
        0x0017 => nth::<RequestedAddressFamily>(line, message, count),
        0x0018 => nth::<EvenPort>(line, message, count),
        0x0019 => nth::<RequestedTransport>(line, message, count),
        0x001D => nth::<PasswordAlgorithm>(line, message, count),
        0x0022 => nth::<ReservationToken>(line, message, count),
        0x0020 => nth::<XorMappedAddress>(line, message, count),
        0x0024 => nth::<Priority>(line, message, count),
        0x0025 => nth::<UseCandidate>(line, message, count),
        0x8000 => nth::<AdditionalAddressFamily>(line, message, count),
        0x8001 => nth::<AddressErrorCode>(line, message, count),
        0x8002 => nth::<PasswordAlgorithms>(line, message, count),
        0x8004 => nth::<Icmp>(line, message, count),
        0x8028 => nth::<Fingerprint>(line, message, count),
        0x8029 => nth::<IceControlled>(line, message, count),
        0x802A => nth::<IceControlling>(line, message, count),
        _ => {}
    }
}

/// Reads the first attribute of a type, and the one after `count` others.
fn nth<'a, A: AttributeFromRaw<'a> + AttributeStaticType + AttributeWrite + Drop>(
    line: &mut Line<'_>,
    message: &Message<'a>,
    count: usize,
) {
    line.read("first", message.attribute::<A>(line.alloc));
    line.read("nth", message.nth_attribute::<A>(line.alloc, count));
}

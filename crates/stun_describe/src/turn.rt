//! The values of TURN's attributes as text (RFC 8656, section 18; RFC 6062, section 6.2).

use crate::attribute::{push_addr, push_hex};
use std::alloc::Global;
use std::convert::TryFrom;
use stun_types_base::family::AddressFamily;
use stun_types_wire::attribute::RawAttribute;
use stun_types_wire::error::StunParseError;
use stun_types_wire::transaction::TransactionId;
use stun_types_write::attribute::{AttributeFromRaw, AttributeStaticType};
use turn_types_attributes::additional_address_family::AdditionalAddressFamily;
use turn_types_attributes::address_error_code::AddressErrorCode;
use turn_types_attributes::dont_fragment::DontFragment;
use turn_types_attributes::even_port::EvenPort;
use turn_types_attributes::lifetime::Lifetime;
use turn_types_attributes::requested_address_family::RequestedAddressFamily;
use turn_types_attributes::requested_transport::RequestedTransport;
use turn_types_attributes::reservation_token::ReservationToken;
use turn_types_attributes::xor_relayed_address::XorRelayedAddress;
use turn_types_peer::channel_number::ChannelNumber;
use turn_types_peer::connection_id::ConnectionId;
use turn_types_peer::data::Data;
use turn_types_peer::icmp::Icmp;
use turn_types_peer::xor_peer_address::XorPeerAddress;

/// Appends the value of a TURN attribute as text, in a message with this transaction ID. Returns
/// whether the attribute is a TURN attribute.
///
/// # Errors
///
/// - The errors of the attribute's own `try_from` or `from_raw_ref`.
pub(crate) fn push_turn(
    alloc: Global,
    text: &mut String,
    raw: &RawAttribute<'_>,
    transaction_id: TransactionId,
) -> Result<bool, StunParseError> {
    match raw.get_type() {
        ChannelNumber::TYPE => {
            let channel = ChannelNumber::try_from(raw)?.channel();
            write!(text, "0x{channel:04x}")?;
        }
        Lifetime::TYPE => write!(text, "{}", Lifetime::try_from(raw)?.seconds())?,
        XorPeerAddress::TYPE => push_addr(
            text,
            XorPeerAddress::try_from(raw)?.addr(transaction_id),
        )?,
        Data::TYPE => push_hex(alloc, text, Data::bytes_of(raw)?)?,
        XorRelayedAddress::TYPE => push_addr(
            text,
            XorRelayedAddress::try_from(raw)?.addr(transaction_id),
        )?,
        RequestedTransport::TYPE => push_transport(text, raw)?,
        ConnectionId::TYPE => write!(text, "{}", ConnectionId::try_from(raw)?.id())?,
        Icmp::TYPE => push_report(text, raw)?,
        _ => return push_wish(alloc, text, raw),
    }
    Ok(true)
}

/// Appends the value of an attribute of an ALLOCATE request or of its response as text. Returns
/// whether the attribute is one.
///
/// # Errors
///
/// - The errors of the attribute's own `try_from` or `from_raw_ref`.
fn push_wish(
    alloc: Global,
    text: &mut String,
    raw: &RawAttribute<'_>,
) -> Result<bool, StunParseError> {
    match raw.get_type() {
        RequestedAddressFamily::TYPE => {
            let family = RequestedAddressFamily::try_from(raw)?.family();
            text.push_str(family_name(family))?;
        }
        AdditionalAddressFamily::TYPE => {
            let family = AdditionalAddressFamily::try_from(raw)?.family();
            text.push_str(family_name(family))?;
        }
        DontFragment::TYPE => {
            let _ = DontFragment::try_from(raw)?;
            text.push_str("-")?;
        }
        EvenPort::TYPE => {
            let port = EvenPort::try_from(raw)?;
            text.push_str(reserved_in_words(port.reserves_next()))?;
        }
        ReservationToken::TYPE => {
            let reservation = ReservationToken::try_from(raw)?;
            push_hex(alloc, text, reservation.token())?;
        }
        AddressErrorCode::TYPE => push_family_error(alloc, text, raw)?,
        _ => return Ok(false),
    }
    Ok(true)
}

/// Appends the protocol number of a REQUESTED-TRANSPORT, and the transport's name.
fn push_transport(text: &mut String, raw: &RawAttribute<'_>) -> Result<(), StunParseError> {
    let protocol = RequestedTransport::try_from(raw)?.protocol();
    let name = match protocol {
        RequestedTransport::UDP => "UDP",
        RequestedTransport::TCP => "TCP",
        _ => "unknown",
    };
    write!(text, "{protocol} {name}")?;
    Ok(())
}

/// Appends the type, code and data of an ICMP attribute.
fn push_report(text: &mut String, raw: &RawAttribute<'_>) -> Result<(), StunParseError> {
    let report = Icmp::try_from(raw)?;
    let (icmp_type, code, details) = (report.icmp_type(), report.code(), report.data());
    write!(text, "{icmp_type} {code} {details}")?;
    Ok(())
}

/// Returns the word for whether an EVEN-PORT requests the reservation of the next port.
fn reserved_in_words(reserves_next: bool) -> &'static str {
    if reserves_next {
        "reserve"
    } else {
        "no-reserve"
    }
}

/// Appends the family, the code and the reason of an ADDRESS-ERROR-CODE.
fn push_family_error(
    alloc: Global,
    text: &mut String,
    raw: &RawAttribute<'_>,
) -> Result<(), StunParseError> {
    let read = AddressErrorCode::from_raw_ref(alloc, raw)?;
    let (family, code, reason) = (family_name(read.family()), read.code(), read.reason());
    write!(text, "{family} {code} {reason:?}")?;
    Ok(())
}

/// Returns the name of an address family.
pub(crate) fn family_name(family: AddressFamily) -> &'static str {
    match family {
        AddressFamily::IPV4 => "IPv4",
        AddressFamily::IPV6 => "IPv6",
    }
}

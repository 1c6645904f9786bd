//! Makes attributes, writes them and reads them back.

use crate::line::Line;
use stun_types_add::attribute::Fingerprint;
use stun_types_add::ice::{IceControlled, IceControlling, Priority, UseCandidate};
use stun_types_attributes::alternate_server::AlternateServer;
use stun_types_attributes::error_code::ErrorCode;
use stun_types_attributes::mapped_address::MappedAddress;
use stun_types_attributes::unknown_attributes::UnknownAttributes;
use stun_types_attributes::xor_mapped_address::XorMappedAddress;
use stun_types_auth_attributes::algorithm::PasswordAlgorithmValue;
use stun_types_auth_attributes::alternate_domain::AlternateDomain;
use stun_types_auth_attributes::nonce::Nonce;
use stun_types_auth_attributes::password_algorithm::PasswordAlgorithm;
use stun_types_auth_attributes::password_algorithms::PasswordAlgorithms;
use stun_types_auth_attributes::realm::Realm;
use stun_types_auth_attributes::software::Software;
use stun_types_auth_attributes::userhash::Userhash;
use stun_types_auth_attributes::username::Username;
use stun_types_base::family::AddressFamily;
use stun_types_integrity::integrity_sha1::MessageIntegrity;
use stun_types_integrity::integrity_sha256::MessageIntegritySha256;
use stun_types_integrity::integrity_sha512::MessageIntegritySha512;
use stun_types_wire::error::StunWriteError;
use stun_types_write::attribute::{AttributeFromRaw, AttributeWrite, written_and_read};
use turn_types_attributes::additional_address_family::AdditionalAddressFamily;
use turn_types_attributes::address_error_code::AddressErrorCode;
use turn_types_attributes::dont_fragment::DontFragment;
use turn_types_attributes::even_port::EvenPort;
use turn_types_attributes::lifetime::Lifetime;
use turn_types_attributes::requested_address_family::RequestedAddressFamily;
use turn_types_attributes::requested_transport::RequestedTransport;
use turn_types_attributes::reservation_token::ReservationToken;
use turn_types_attributes::xor_relayed_address::XorRelayedAddress;
use turn_types_peer::channel_number::ChannelNumber;
use turn_types_peer::connection_id::ConnectionId;
use turn_types_peer::data::Data;
use turn_types_peer::icmp::Icmp;
use turn_types_peer::xor_peer_address::XorPeerAddress;

/// Prints an attribute, or the error if it was not made. Prints:
///
/// 1. the bytes of the attribute;
/// 2. the result of writing it into bytes of 09, and these bytes afterwards: with one byte too many
///    and with one byte too few;
/// 3. the result of writing its header alone into four and into three bytes of 09, and these bytes
///    afterwards;
/// 4. the bytes of the attribute that is read back from what it writes, or the error.
fn made<'a, A: AttributeWrite + AttributeFromRaw<'a> + Drop>(
    line: &mut Line<'_>,
    made: Result<A, StunWriteError>,
) {
    match made {
        Ok(attribute) => {
            line.attribute(&attribute);
            let size = attribute.padded_len();
            written(line, &attribute, false, size.saturating_add(1));
            written(line, &attribute, false, size.saturating_sub(1));
            written(line, &attribute, true, 4);
            written(line, &attribute, true, 3);
            line.say(&"|");
            line.read("read", written_and_read(line.alloc, &attribute));
        }
        Err(error) => line.say(&error),
    }
}

/// Prints the result of writing an attribute, or its header alone, into `room` bytes of 09, and
/// these bytes afterwards.
fn written<A: AttributeWrite>(line: &mut Line<'_>, attribute: &A, is_header: bool, room: usize) {
    if let Ok(mut room) = Vec::from_elem(line.alloc, 9u8, room) {
        let size = if is_header {
            attribute.write_header(room.as_mut_slice())
        } else {
            attribute.write_into(room.as_mut_slice())
        };
        line.say(&"|");
        line.gave(size);
        line.hex(room.as_slice());
    }
}

/// Makes the attribute of a line.
///
/// - Texts: `username TEXT`, `realm TEXT`, `nonce TEXT`, `software TEXT` and `alternate-domain
///   TEXT`.
/// - Addresses: `mapped`, `relayed`, `peer`, `server` and `mapped-plain ADDRESS NUMBER`; the last
///   two are not XORed.
pub(crate) fn ask(line: &mut Line<'_>, kind: &str) {
    match kind {
        "username" | "realm" | "nonce" | "software" | "alternate-domain" => text(line, kind),
        "error-code" | "error-reason" => error(line, kind == "error-reason"),
        "mapped" | "relayed" | "peer" | "server" | "mapped-plain" => address(line, kind),
        "unknown-attributes" => unknown(line),
        "password-algorithm" | "password-algorithms" => algorithms(line, kind),
        "even-port" | "reservation-token" | "address-error-code" => port(line, kind),
        "integrity" | "integrity-sha256" | "integrity-sha512" | "fingerprint" | "data" => {
            bytes(line, kind);
        }
        "priority" | "use-candidate" | "ice-controlled" | "ice-controlling" => ice(line, kind),
        _ => number(line, kind),
    }
}

/// Makes an attribute with a text.
fn text(line: &mut Line<'_>, kind: &str) {
    let (text, alloc) = (line.text(), line.alloc);
    let text = text.as_str();
    match kind {
        "username" => made(line, Username::new(alloc, text)),
        "realm" => made(line, Realm::new(alloc, text)),
        "nonce" => made(line, Nonce::new(alloc, text)),
        "software" => made(line, Software::new(alloc, text)),
        _ => made(line, AlternateDomain::new(alloc, text)),
    }
}

/// `error-code CODE` uses the default reason phrase for the code, and prints it; `error-reason CODE
/// TEXT` makes the attribute with `new` and with a builder.
fn error(line: &mut Line<'_>, has_reason: bool) {
    let (code, alloc) = (line.value(0), line.alloc);
    if has_reason {
        let reason = line.text();
        made(line, ErrorCode::new(alloc, code, reason.as_str()));
        made(
            line,
            ErrorCode::builder(code)
                .reason(reason.as_str())
                .build(alloc),
        );
    } else {
        made(line, ErrorCode::builder(code).build(alloc));
        line.say(&ErrorCode::default_reason_for_code(code));
    }
}

/// Makes an attribute about a relayed port or the lack of an address: `even-port reserve` and
/// `even-port -`, `reservation-token BYTES`, `address-error-code FAMILY CODE TEXT`.
fn port(line: &mut Line<'_>, kind: &str) {
    match kind {
        "even-port" => {
            let reserves_next = line.word() == "reserve";
            made(line, Ok(EvenPort::new(reserves_next)));
        }
        "reservation-token" => {
            let bytes = line.bytes();
            match bytes.as_slice().first_chunk::<8>() {
                Some(token) => made(line, Ok(ReservationToken::new(*token))),
                None => line.is_bad = true,
            }
        }
        _ => {
            let (family, code) = (family_of(line.word()), line.value(0));
            let (reason, alloc) = (line.text(), line.alloc);
            made(
                line,
                AddressErrorCode::new(alloc, family, code, reason.as_str()),
            );
        }
    }
}

/// Makes an attribute with an address.
fn address(line: &mut Line<'_>, kind: &str) {
    let (addr, number) = (line.address(), line.transaction());
    match kind {
        "mapped" => made(line, Ok(XorMappedAddress::new(addr, number))),
        "relayed" => made(line, Ok(XorRelayedAddress::new(addr, number))),
        "peer" => made(line, Ok(XorPeerAddress::new(addr, number))),
        "mapped-plain" => made(line, Ok(MappedAddress::new(addr))),
        _ => made(line, Ok(AlternateServer::new(addr))),
    }
}

/// Makes an attribute with an integer, a family or a hash: `lifetime N`, `requested-transport N`,
/// `channel-number N`, `connection-id N`, `icmp TYPE CODE N`, `dont-fragment`, `requested-family`
/// and `additional-family` with `IPV4` or `IPV6`, and `userhash NAME REALM`.
fn number(line: &mut Line<'_>, kind: &str) {
    let one = line.word();
    match kind {
        "lifetime" => made(line, Ok(Lifetime::new(one.parse().unwrap_or(0)))),
        "requested-transport" => made(line, Ok(RequestedTransport::new(one.parse().unwrap_or(0)))),
        "channel-number" => made(line, Ok(ChannelNumber::new(one.parse().unwrap_or(0)))),
        "connection-id" => made(line, Ok(ConnectionId::new(one.parse().unwrap_or(0)))),
        "icmp" => {
            let (code, data) = (line.value(0), line.value(0));
            made(line, Ok(Icmp::new(one.parse().unwrap_or(0), code, data)));
        }
        "dont-fragment" => made(line, Ok(DontFragment::new())),
        "requested-family" => made(line, Ok(RequestedAddressFamily::new(family_of(one)))),
        "additional-family" => made(line, Ok(AdditionalAddressFamily::new(family_of(one)))),
        "userhash" => {
            let hash = Userhash::compute(one, line.word());
            made(line, Ok(Userhash::new(hash)));
        }
        _ => line.is_bad = true,
    }
}

/// Makes an attribute of ICE: `priority N`, `use-candidate`, `ice-controlled N` and
/// `ice-controlling N`.
fn ice(line: &mut Line<'_>, kind: &str) {
    let one = line.word();
    match kind {
        "priority" => made(line, Ok(Priority::new(one.parse().unwrap_or(0)))),
        "ice-controlled" => made(line, Ok(IceControlled::new(one.parse().unwrap_or(0)))),
        "ice-controlling" => made(line, Ok(IceControlling::new(one.parse().unwrap_or(0)))),
        _ => made(line, Ok(UseCandidate::new())),
    }
}

/// Returns the address family with this name.
fn family_of(name: &str) -> AddressFamily {
    if name == "IPV4" {
        AddressFamily::IPV4
    } else {
        AddressFamily::IPV6
    }
}

/// `password-algorithm NAME` prints the name, the matching integrity algorithm and the attribute;
/// `password-algorithms NAME..` prints the attribute.
fn algorithms(line: &mut Line<'_>, kind: &str) {
    let mut algorithms = Vec::new(line.alloc);
    for _ in 0..line.left() {
        let _ = algorithms.push(match line.word() {
            "MD5" => PasswordAlgorithmValue::MD5,
            "SHA512" => PasswordAlgorithmValue::SHA512,
            _ => PasswordAlgorithmValue::SHA256,
        });
    }
    match (kind, algorithms.as_slice()) {
        ("password-algorithm", [algorithm]) => {
            line.say(algorithm);
            let integrity = algorithm.as_integrity();
            let _ = write!(line.answer, " {integrity:?}");
            made(line, Ok(PasswordAlgorithm::new(*algorithm)));
        }
        (_, all) => made(line, PasswordAlgorithms::new(line.alloc, all)),
    }
}

/// `unknown-attributes TYPES ADDED`: makes an UNKNOWN-ATTRIBUTES with the first types and adds the
/// others. For each added type prints whether it was listed already, and the error if the add
/// fails.
fn unknown(line: &mut Line<'_>) {
    let (types, added) = (line.types(), line.types());
    let mut unknown = UnknownAttributes::new(line.alloc, types.as_slice());
    if let Ok(unknown) = &mut unknown {
        for atype in added.as_slice() {
            line.say(&unknown.has_attribute(*atype));
            if let Err(error) = unknown.add_attribute(*atype) {
                line.say(&error);
            }
        }
    }
    made(line, unknown);
}

/// Makes an attribute with bytes: `integrity BYTES`, `integrity-sha256 BYTES`, `integrity-sha512
/// BYTES`, `data BYTES`, and `fingerprint BYTES` with the CRC-32 of these bytes.
fn bytes(line: &mut Line<'_>, kind: &str) {
    let bytes = line.bytes();
    let (head, _) = bytes.as_slice().split_at(bytes.len().min(65_535));
    match kind {
        "integrity" => match head.first_chunk::<20>() {
            Some(hmac) => made(line, Ok(MessageIntegrity::new(*hmac))),
            None => line.is_bad = true,
        },
        "integrity-sha256" => made(line, MessageIntegritySha256::new(head)),
        "integrity-sha512" => made(line, MessageIntegritySha512::new(head)),
        "fingerprint" => made(line, Ok(Fingerprint::new(Fingerprint::compute(head)))),
        _ => match Data::new(line.alloc, head) {
            Ok(data) => made(line, Ok(data)),
            Err(error) => line.say(&error),
        },
    }
}

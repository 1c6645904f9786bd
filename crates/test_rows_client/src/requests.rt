//! The requests that a client's authenticator writes.

use crate::line::Line;
use std::alloc::Global;
use std::net::{IpAddr, Ipv4Addr};
use stun_types_auth_attributes::software::Software;
use stun_types_base::family::AddressFamily;
use stun_types_base::transport::TransportType;
use stun_types_message::parsed::Message;
use stun_types_wire::algorithm::IntegrityAlgorithm;
use stun_types_wire::transaction::TransactionId;
use turn_client_proto_api::config::TurnConfig;
use turn_client_proto_api::families::RequestedFamilies;
use turn_client_proto_api::options::{AllocateOptions, RelayedPort};
use turn_client_proto_messages::peer_ips::PeerIps;
use turn_client_proto_messages::request::TurnRequest;
use turn_client_proto_messages::signer::Signer;
use turn_types_attributes::credentials::TurnCredentials;

/// `request CHALLENGE SOFTWARE FINGERPRINT NUMBER ALGORITHM WHAT ..`: makes the authenticator of
/// the user `user` with the password `pass`, and prints the bytes of a request that it writes.
///
/// - CHALLENGE: the bytes of a response that it validates before, or none.
/// - SOFTWARE: the bytes of the text, or none.
/// - FINGERPRINT: whether the request ends with it.
/// - NUMBER: the transaction ID.
/// - ALGORITHM: what the client supports.
/// - WHAT: `first` and `allocate` over UDP for one IPv4 address, `first-for` and `allocate-for` with
///   LIFETIME PORT FAMILIES, `refresh` and a lifetime in seconds, or `permission` and one or more IP
///   addresses. FAMILIES: `v4`, `v6` or `both`.
pub(crate) fn request(line: &mut Line<'_>) {
    let (challenge, software) = (line.bytes(), line.bytes());
    let fingerprint = line.value(false);
    let number = TransactionId::from(line.value(0u128));
    let algorithm = algorithm(line);
    let Some(mut signer) = signer(line.alloc, algorithm) else {
        line.is_bad = true;
        return;
    };
    describe(line, &mut signer, software.as_slice());
    signer.set_fingerprint(fingerprint);
    validate(line, &mut signer, challenge.as_slice());
    let kind = line.word();
    let peers = peers(line, kind);
    let request = what(line, kind, peers.as_slice());
    match signer.write_request(line.alloc, number, request) {
        Ok(bytes) => line.hex(bytes.as_slice()),
        Err(_) => line.is_bad = true,
    }
}

/// Parses the next word as an algorithm.
fn algorithm(line: &mut Line<'_>) -> IntegrityAlgorithm {
    match line.word() {
        "sha1" => IntegrityAlgorithm::Sha1,
        "sha256" => IntegrityAlgorithm::Sha256,
        "sha512" => IntegrityAlgorithm::Sha512,
        _ => {
            line.is_bad = true;
            IntegrityAlgorithm::Sha1
        }
    }
}

/// Returns the authenticator of a client that supports this algorithm.
fn signer(alloc: Global, algorithm: IntegrityAlgorithm) -> Option<Signer> {
    match TurnCredentials::new(alloc, "user", "pass") {
        Ok(credentials) => {
            let mut config = TurnConfig::new(credentials);
            config.set_supported_integrity(algorithm);
            Some(Signer::new(alloc, config))
        }
        Err(_) => None,
    }
}

/// Sets SOFTWARE to the text that these bytes are, if there are any.
fn describe(line: &mut Line<'_>, signer: &mut Signer, bytes: &[u8]) {
    if bytes.is_empty() {
        return;
    }
    let Ok(text) = std::str::from_utf8(bytes) else {
        line.is_bad = true;
        return;
    };
    match Software::new(line.alloc, text) {
        Ok(software) => signer.set_software(Some(software)),
        Err(_) => line.is_bad = true,
    }
}

/// Has the authenticator validate a response, if there is one.
fn validate(line: &mut Line<'_>, signer: &mut Signer, bytes: &[u8]) {
    if bytes.is_empty() {
        return;
    }
    match Message::from_bytes(bytes) {
        Ok(message) => {
            let is_validated = signer.validate_incoming_message(&message).is_ok();
            line.is_bad = line.is_bad || !is_validated;
        }
        Err(_) => line.is_bad = true,
    }
}

/// Parses all words that are left as IP addresses, if the request is `permission`.
fn peers(line: &mut Line<'_>, kind: &str) -> Vec<IpAddr> {
    let mut peers = Vec::new(line.alloc);
    if kind == "permission" {
        for _ in 0..line.left() {
            let peer = line.value(IpAddr::V4(Ipv4Addr::UNSPECIFIED));
            let is_stored = peers.push(peer).is_ok();
            line.is_bad = line.is_bad || !is_stored;
        }
    }
    peers
}

/// Parses the next words as a request of this kind, which names these peers if it is `permission`.
fn what<'a>(line: &mut Line<'_>, kind: &str, peers: &'a [IpAddr]) -> TurnRequest<'a> {
    let families = RequestedFamilies::only(AddressFamily::IPV4);
    match kind {
        "first" => TurnRequest::FirstAllocate(TransportType::Udp, families, AllocateOptions::new()),
        "allocate" => TurnRequest::Allocate(TransportType::Udp, families, AllocateOptions::new()),
        "first-for" => {
            let (options, families) = (options(line), families_of(line));
            TurnRequest::FirstAllocate(TransportType::Udp, families, options)
        }
        "allocate-for" => {
            let (options, families) = (options(line), families_of(line));
            TurnRequest::Allocate(TransportType::Udp, families, options)
        }
        "refresh" => TurnRequest::Refresh(line.value(0u32)),
        "permission" => match PeerIps::new(peers) {
            Some(peers) => TurnRequest::CreatePermission(peers),
            None => {
                line.is_bad = true;
                TurnRequest::Refresh(0)
            }
        },
        _ => {
            line.is_bad = true;
            TurnRequest::Refresh(0)
        }
    }
}

/// Parses LIFETIME PORT as what an ALLOCATE asks for besides.
fn options(line: &mut Line<'_>) -> AllocateOptions {
    let lifetime = line.value(0u32);
    let port = port(line);
    AllocateOptions { lifetime, port }
}

/// Parses `any`, `even`, `pair`, or `reserved` and the number of a token.
pub(crate) fn port(line: &mut Line<'_>) -> RelayedPort {
    match line.word() {
        "any" => RelayedPort::Any,
        "even" => RelayedPort::Even,
        "pair" => RelayedPort::EvenAndNextReserved,
        "reserved" => RelayedPort::Reserved(line.value(0u64)),
        _ => {
            line.is_bad = true;
            RelayedPort::Any
        }
    }
}

/// Parses `v4`, `v6` or `both`.
fn families_of(line: &mut Line<'_>) -> RequestedFamilies {
    match line.word() {
        "v4" => RequestedFamilies::only(AddressFamily::IPV4),
        "v6" => RequestedFamilies::only(AddressFamily::IPV6),
        "both" => RequestedFamilies::only(AddressFamily::IPV4).with(AddressFamily::IPV6),
        _ => {
            line.is_bad = true;
            RequestedFamilies::only(AddressFamily::IPV4)
        }
    }
}

//! The names of the parts of a message.

use std::alloc::Global;
use stun_types_add::ice::{IceControlled, IceControlling, Priority, UseCandidate};
use stun_types_base::memory::NoMemory;
use stun_types_wire::algorithm::IntegrityAlgorithm;
use stun_types_wire::class::MessageClass;
use stun_types_wire::names::Names;
use stun_types_write::attribute::AttributeStaticType;
use turn_types::message as method;
use turn_types_attributes::additional_address_family::AdditionalAddressFamily;
use turn_types_attributes::address_error_code::AddressErrorCode;
use turn_types_attributes::dont_fragment::DontFragment;
use turn_types_attributes::even_port::EvenPort;
use turn_types_attributes::lifetime::Lifetime;
use turn_types_attributes::requested_address_family::RequestedAddressFamily;
use turn_types_attributes::requested_transport::RequestedTransport;
use turn_types_attributes::reservation_token::ReservationToken;
use turn_types_attributes::xor_relayed_address::XorRelayedAddress;
use turn_types_peer::channel_number::ChannelNumber;
use turn_types_peer::connection_id::ConnectionId;
use turn_types_peer::data::Data;
use turn_types_peer::icmp::Icmp;
use turn_types_peer::xor_peer_address::XorPeerAddress;

/// Returns the names of RFC 8489, those of TURN's methods and attributes (RFC 8656, sections 17 and
/// 18; RFC 6062, section 6), and those of ICE's attributes (RFC 8445, section 16.1).
pub fn names(alloc: Global) -> Result<Names, NoMemory> {
    let mut names = Names::new(alloc);
    add_methods(&mut names)?;
    add_attributes(&mut names)?;
    add_ice_attributes(&mut names)?;
    Ok(names)
}

/// Adds the names of TURN's methods.
fn add_methods(names: &mut Names) -> Result<(), NoMemory> {
    for (method, name) in [
        (method::ALLOCATE, "ALLOCATE"),
        (method::REFRESH, "REFRESH"),
        (method::SEND, "SEND"),
        (method::DATA, "DATA"),
        (method::CREATE_PERMISSION, "CREATE_PERMISSION"),
        (method::CHANNEL_BIND, "CHANNEL_BIND"),
        (method::CONNECT, "CONNECT"),
        (method::CONNECTION_BIND, "CONNECTION_BIND"),
        (method::CONNECTION_ATTEMPT, "CONNECTION_ATTEMPT"),
    ] {
        names.add_method(method, name)?;
    }
    Ok(())
}

/// Adds the names of TURN's attributes.
fn add_attributes(names: &mut Names) -> Result<(), NoMemory> {
    for (atype, name) in [
        (ChannelNumber::TYPE, "CHANNEL-NUMBER"),
        (Lifetime::TYPE, "LIFETIME"),
        (XorPeerAddress::TYPE, "XOR-PEER-ADDRESS"),
        (Data::TYPE, "DATA"),
        (XorRelayedAddress::TYPE, "XOR-RELAYED-ADDRESS"),
        (RequestedAddressFamily::TYPE, "REQUESTED-ADDRESS-FAMILY"),
        (EvenPort::TYPE, "EVEN-PORT"),
        (RequestedTransport::TYPE, "REQUESTED-TRANSPORT"),
        (DontFragment::TYPE, "DONT-FRAGMENT"),
        (ReservationToken::TYPE, "RESERVATION-TOKEN"),
        (ConnectionId::TYPE, "CONNECTION-ID"),
        (AdditionalAddressFamily::TYPE, "ADDITIONAL-ADDRESS-FAMILY"),
        (AddressErrorCode::TYPE, "ADDRESS-ERROR-CODE"),
        (Icmp::TYPE, "ICMP"),
    ] {
        names.add_attribute(atype, name)?;
    }
    Ok(())
}

/// Adds the names of ICE's attributes.
fn add_ice_attributes(names: &mut Names) -> Result<(), NoMemory> {
    for (atype, name) in [
        (Priority::TYPE, "PRIORITY"),
        (UseCandidate::TYPE, "USE-CANDIDATE"),
        (IceControlled::TYPE, "ICE-CONTROLLED"),
        (IceControlling::TYPE, "ICE-CONTROLLING"),
    ] {
        names.add_attribute(atype, name)?;
    }
    Ok(())
}

/// Returns the name of a class.
pub fn class_name(class: MessageClass) -> &'static str {
    match class {
        MessageClass::Request => "request",
        MessageClass::Indication => "indication",
        MessageClass::Success => "success",
        MessageClass::Error => "error",
    }
}

/// Returns the name of an integrity algorithm.
pub fn algorithm_name(algorithm: IntegrityAlgorithm) -> &'static str {
    match algorithm {
        IntegrityAlgorithm::Sha1 => "Sha1",
        IntegrityAlgorithm::Sha256 => "Sha256",
        IntegrityAlgorithm::Sha512 => "Sha512",
    }
}

//! The constants that TURN adds, each defined once: methods, attribute types and transports (RFC
//! 8656, sections 17 and 18; RFC 6062, section 6.1). Contracts use the same numbers from
//! `specs/TurnRegistry.antt`.

use crate::stun_types_wire::attribute::AttributeType;
use crate::stun_types_wire::class::Method;

// ---- methods

/// ALLOCATE: a client requests a relayed address.
pub const ALLOCATE: Method = Method(0x003);

/// REFRESH: a client extends an allocation, or ends it with a lifetime of zero.
pub const REFRESH: Method = Method(0x004);

/// SEND, an indication: a client passes data for a peer to the server.
pub const SEND: Method = Method(0x006);

/// DATA, an indication: a server passes data from a peer to the client.
pub const DATA: Method = Method(0x007);

/// CREATE_PERMISSION: a client requests that peers may send to its relayed address.
pub const CREATE_PERMISSION: Method = Method(0x008);

/// CHANNEL_BIND: a client requests a channel to a peer.
pub const CHANNEL_BIND: Method = Method(0x009);

/// CONNECT: a client requests a TCP connection to a peer.
pub const CONNECT: Method = Method(0x00A);

/// CONNECTION_BIND: a client binds a data connection to a peer's connection.
pub const CONNECTION_BIND: Method = Method(0x00B);

/// CONNECTION_ATTEMPT: a server reports that a peer has connected. RFC 6062, section 4.4, makes it
/// an indication; this client expects a request and responds to it.
pub const CONNECTION_ATTEMPT: Method = Method(0x00C);

// ---- attribute types

/// The type of CHANNEL-NUMBER (RFC 8656, section 18.1).
pub const CHANNEL_NUMBER: AttributeType = AttributeType(0x000C);

/// The type of LIFETIME (RFC 8656, section 18.2).
pub const LIFETIME: AttributeType = AttributeType(0x000D);

/// The type of XOR-PEER-ADDRESS (RFC 8656, section 18.3).
pub const XOR_PEER_ADDRESS: AttributeType = AttributeType(0x0012);

/// The type of the DATA attribute (RFC 8656, section 18.4). The method with this name is [`DATA`].
pub const DATA_ATTRIBUTE: AttributeType = AttributeType(0x0013);

/// The type of XOR-RELAYED-ADDRESS (RFC 8656, section 18.5).
pub const XOR_RELAYED_ADDRESS: AttributeType = AttributeType(0x0016);

/// The type of REQUESTED-ADDRESS-FAMILY (RFC 8656, section 18.6).
pub const REQUESTED_ADDRESS_FAMILY: AttributeType = AttributeType(0x0017);

/// The type of EVEN-PORT (RFC 8656, section 18.7).
pub const EVEN_PORT: AttributeType = AttributeType(0x0018);

/// The type of REQUESTED-TRANSPORT (RFC 8656, section 18.8).
pub const REQUESTED_TRANSPORT: AttributeType = AttributeType(0x0019);

/// The type of DONT-FRAGMENT (RFC 8656, section 18.9).
pub const DONT_FRAGMENT: AttributeType = AttributeType(0x001A);

/// The type of RESERVATION-TOKEN (RFC 8656, section 18.10).
pub const RESERVATION_TOKEN: AttributeType = AttributeType(0x0022);

/// The type of CONNECTION-ID (RFC 6062, section 6.2.1).
pub const CONNECTION_ID: AttributeType = AttributeType(0x002A);

/// The type of ADDITIONAL-ADDRESS-FAMILY (RFC 8656, section 18.11).
pub const ADDITIONAL_ADDRESS_FAMILY: AttributeType = AttributeType(0x8000);

/// The type of ADDRESS-ERROR-CODE (RFC 8656, section 18.12).
pub const ADDRESS_ERROR_CODE: AttributeType = AttributeType(0x8001);

/// The type of ICMP (RFC 8656, section 18.13).
pub const ICMP: AttributeType = AttributeType(0x8004);

// ---- transports, as IP protocol numbers (RFC 8656, section 18.8; RFC 6062, section 4.1)

/// TCP.
pub const TCP: u8 = 6;

/// UDP.
pub const UDP: u8 = 17;

// ---- ports (RFC 8656, sections 18.7 and 18.10)

/// The bit R, the top bit of an EVEN-PORT: the next port is requested to be reserved.
pub const RESERVE_BIT: u8 = 0x80;

/// The length of a RESERVATION-TOKEN in bytes.
pub const RESERVATION_TOKEN_LENGTH: usize = 8;

// ---- channels and payloads (RFC 8656, sections 12 and 12.4)

/// The lowest channel number.
pub const LEAST_CHANNEL: u16 = 0x4000;

/// The highest channel number accepted here. RFC 8656 reserves the numbers from 0x5000 on; RFC 5766
/// allowed them.
pub const GREATEST_CHANNEL: u16 = 0x7FFF;

/// The length of a channel frame's header in bytes.
pub const CHANNEL_HEADER_LENGTH: usize = 4;

/// The maximum number of bytes of a peer's data in a SEND or DATA indication that also carries an
/// IPv6 address.
pub const MAX_PAYLOAD: usize = 65_504;

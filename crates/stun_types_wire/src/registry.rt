//! The numbers of the protocol: methods, attribute types, error codes, limits and sizes (RFC 8489).
//! Each is defined here only. Contracts take the same numbers from `specs/Registry.antt`.

use crate::attribute::AttributeType;
use crate::class::Method;

// ---- the header (section 5)

/// The magic cookie in every header.
pub const MAGIC_COOKIE: u32 = 0x2112_A442;

/// The top 16 bits of the magic cookie, with which a port is xored (section 14.2).
pub const COOKIE_HEAD: u16 = (MAGIC_COOKIE >> 16) as u16;

/// The length of a header in bytes.
pub const HEADER_LENGTH: usize = 20;

/// The maximum number of bytes after a header: the length field has sixteen bits.
pub const MAX_DATA_LENGTH: usize = 65_535;

/// The maximum length of a message in bytes, header included.
pub const MAX_MESSAGE_LENGTH: usize = HEADER_LENGTH + MAX_DATA_LENGTH;

// ---- methods (section 18.2)

/// BINDING.
pub const BINDING: Method = Method(0x001);

// ---- types of attributes (section 18.3; RFC 8445, section 16.1)

/// The first comprehension-optional type: a receiver need not understand it (section 14).
pub const FIRST_OPTIONAL_TYPE: u16 = 0x8000;

/// The type of MAPPED-ADDRESS (section 14.1).
pub const MAPPED_ADDRESS: AttributeType = AttributeType(0x0001);

/// The type of USERNAME (section 14.3).
pub const USERNAME: AttributeType = AttributeType(0x0006);

/// The type of MESSAGE-INTEGRITY (section 14.5).
pub const MESSAGE_INTEGRITY: AttributeType = AttributeType(0x0008);

/// The type of ERROR-CODE (section 14.8).
pub const ERROR_CODE: AttributeType = AttributeType(0x0009);

/// The type of UNKNOWN-ATTRIBUTES (section 14.13).
pub const UNKNOWN_ATTRIBUTES: AttributeType = AttributeType(0x000A);

/// The type of REALM (section 14.9).
pub const REALM: AttributeType = AttributeType(0x0014);

/// The type of NONCE (section 14.10).
pub const NONCE: AttributeType = AttributeType(0x0015);

/// The type of MESSAGE-INTEGRITY-SHA256 (section 14.6).
pub const MESSAGE_INTEGRITY_SHA256: AttributeType = AttributeType(0x001C);

/// The type of MESSAGE-INTEGRITY-SHA512, an extension of this project that no RFC defines. It ends
/// a message as MESSAGE-INTEGRITY-SHA256 does, and is comprehension-required.
pub const MESSAGE_INTEGRITY_SHA512: AttributeType = AttributeType(0x3F12);

/// The type of PASSWORD-ALGORITHM (section 14.12).
pub const PASSWORD_ALGORITHM: AttributeType = AttributeType(0x001D);

/// The type of USERHASH (section 14.4).
pub const USERHASH: AttributeType = AttributeType(0x001E);

/// The type of XOR-MAPPED-ADDRESS (section 14.2).
pub const XOR_MAPPED_ADDRESS: AttributeType = AttributeType(0x0020);

/// The type of PRIORITY (RFC 8445, section 16.1).
pub const PRIORITY: AttributeType = AttributeType(0x0024);

/// The type of USE-CANDIDATE (RFC 8445, section 16.1).
pub const USE_CANDIDATE: AttributeType = AttributeType(0x0025);

/// The type of PASSWORD-ALGORITHMS (section 14.11).
pub const PASSWORD_ALGORITHMS: AttributeType = AttributeType(0x8002);

/// The type of ALTERNATE-DOMAIN (section 14.16).
pub const ALTERNATE_DOMAIN: AttributeType = AttributeType(0x8003);

/// The type of SOFTWARE (section 14.14).
pub const SOFTWARE: AttributeType = AttributeType(0x8022);

/// The type of ALTERNATE-SERVER (section 14.15).
pub const ALTERNATE_SERVER: AttributeType = AttributeType(0x8023);

/// The type of FINGERPRINT (section 14.7).
pub const FINGERPRINT: AttributeType = AttributeType(0x8028);

/// The type of ICE-CONTROLLED (RFC 8445, section 16.1).
pub const ICE_CONTROLLED: AttributeType = AttributeType(0x8029);

/// The type of ICE-CONTROLLING (RFC 8445, section 16.1).
pub const ICE_CONTROLLING: AttributeType = AttributeType(0x802A);

// ---- codes of errors (section 18.4, and the RFCs that each names)

/// The least error code.
pub const MIN_ERROR_CODE: u16 = 300;

/// The greatest error code.
pub const MAX_ERROR_CODE: u16 = 699;

/// The client should try another server (RFC 8489, section 14.8).
pub const TRY_ALTERNATE: u16 = 300;

/// The request is malformed (RFC 8489, section 14.8).
pub const BAD_REQUEST: u16 = 400;

/// The request lacks the right credentials (RFC 8489, section 14.8).
pub const UNAUTHORIZED: u16 = 401;

/// The request is valid but not permitted (RFC 8656, section 19).
pub const FORBIDDEN: u16 = 403;

/// The request has a comprehension-required attribute that the server does not understand (RFC
/// 8489, section 14.8).
pub const UNKNOWN_ATTRIBUTE: u16 = 420;

/// There is no allocation where one is needed, or there is one where none may be (RFC 8656, section
/// 19).
pub const ALLOCATION_MISMATCH: u16 = 437;

/// The nonce is no longer valid (RFC 8489, section 14.8).
pub const STALE_NONCE: u16 = 438;

/// The server has no addresses of the requested family (RFC 8656, section 19).
pub const ADDRESS_FAMILY_NOT_SUPPORTED: u16 = 440;

/// The credentials are not those of the allocation (RFC 8656, section 19).
pub const WRONG_CREDENTIALS: u16 = 441;

/// The requested transport is not supported (RFC 8656, section 19).
pub const UNSUPPORTED_TRANSPORT_PROTOCOL: u16 = 442;

/// The peer is of another family than the allocation (RFC 8656, section 19).
pub const PEER_ADDRESS_FAMILY_MISMATCH: u16 = 443;

/// There already is a connection to the peer (RFC 6062, section 6.3).
pub const CONNECTION_ALREADY_EXISTS: u16 = 446;

/// The connection to the peer failed (RFC 6062, section 6.3).
pub const CONNECTION_TIMEOUT_OR_FAILURE: u16 = 447;

/// The user has as many allocations as the server permits (RFC 8656, section 19).
pub const ALLOCATION_QUOTA_REACHED: u16 = 486;

/// Both ICE agents have the same role (RFC 8445, section 16.2).
pub const ROLE_CONFLICT: u16 = 487;

/// The server failed (RFC 8489, section 14.8).
pub const SERVER_ERROR: u16 = 500;

/// The server lacks the capacity for the request (RFC 8656, section 19).
pub const INSUFFICIENT_CAPACITY: u16 = 508;

// ---- limits and sizes, in bytes unless stated otherwise

/// The maximum length of a USERNAME (section 14.3).
pub const MAX_USERNAME_LENGTH: usize = 513;

/// The maximum length of a REALM, a NONCE or a reason phrase (sections 14.8 to 14.10).
pub const MAX_TEXT_LENGTH: usize = 763;

/// The maximum length of a SOFTWARE (section 14.14).
pub const MAX_SOFTWARE_LENGTH: usize = 763;

/// The maximum length of an ALTERNATE-DOMAIN (section 14.16).
pub const MAX_DOMAIN_LENGTH: usize = 255;

/// The maximum length of a value: its length field has sixteen bits (section 14).
pub const MAX_VALUE_LENGTH: usize = 65_535;

/// The length of a USERHASH (section 14.4).
pub const USERHASH_LENGTH: usize = 32;

/// The length of an HMAC-SHA1 (section 14.5).
pub const HMAC_SHA1_LENGTH: usize = 20;

/// The length of an HMAC-SHA256 (section 14.6).
pub const HMAC_SHA256_LENGTH: usize = 32;

/// The minimum length of a truncated HMAC-SHA256 (section 14.6).
pub const MIN_HMAC_SHA256_LENGTH: usize = 16;

/// The length of an HMAC-SHA512.
pub const HMAC_SHA512_LENGTH: usize = 64;

/// The minimum length of a truncated HMAC-SHA512.
pub const MIN_HMAC_SHA512_LENGTH: usize = 16;

/// The maximum number of algorithms in a PASSWORD-ALGORITHMS. The RFC sets no limit; this library
/// does.
pub const MAX_PASSWORD_ALGORITHMS: usize = 8;

/// The length of a complete FINGERPRINT, header and value (section 14.7).
pub const FINGERPRINT_SIZE: usize = 8;

/// The number with which the CRC-32 of a FINGERPRINT is xored: `STUN` in ASCII (section 14.7).
pub const FINGERPRINT_MASK: u32 = 0x5354_554E;

// ---- families of addresses (section 14.1)

/// The family number of IPv4.
pub const IPV4_FAMILY: u8 = 1;

/// The family number of IPv6.
pub const IPV6_FAMILY: u8 = 2;

/// The length of the value that holds an IPv4 address.
pub const IPV4_VALUE_LENGTH: usize = 8;

/// The length of the value that holds an IPv6 address.
pub const IPV6_VALUE_LENGTH: usize = 20;

// ---- password algorithms (section 18.5)

/// The number of MD5.
pub const MD5_NUMBER: u16 = 1;

/// The number of SHA-256.
pub const SHA256_NUMBER: u16 = 2;

/// The number of SHA-512, an extension of this project that no RFC defines.
pub const SHA512_NUMBER: u16 = 0xFF12;

//! Attributes (RFC 8489, section 14; RFC 8445, section 16.1).

pub use stun_types_add::attribute::Fingerprint;
pub use stun_types_add::ice::{IceControlled, IceControlling, Priority, UseCandidate};
pub use stun_types_attributes::alternate_server::AlternateServer;
pub use stun_types_attributes::error_code::{ErrorCode, ErrorCodeBuilder};
pub use stun_types_attributes::mapped_address::MappedAddress;
pub use stun_types_attributes::socket_addr::{MappedSocketAddr, XorSocketAddr};
pub use stun_types_attributes::unknown_attributes::UnknownAttributes;
pub use stun_types_attributes::xor_mapped_address::XorMappedAddress;
pub use stun_types_auth_attributes::algorithm::PasswordAlgorithmValue;
pub use stun_types_auth_attributes::alternate_domain::AlternateDomain;
pub use stun_types_auth_attributes::nonce::Nonce;
pub use stun_types_auth_attributes::password_algorithm::PasswordAlgorithm;
pub use stun_types_auth_attributes::password_algorithms::PasswordAlgorithms;
pub use stun_types_auth_attributes::realm::Realm;
pub use stun_types_auth_attributes::software::Software;
pub use stun_types_auth_attributes::userhash::Userhash;
pub use stun_types_auth_attributes::username::Username;
pub use stun_types_integrity::integrity_sha1::MessageIntegrity;
pub use stun_types_integrity::integrity_sha256::MessageIntegritySha256;
pub use stun_types_integrity::integrity_sha512::MessageIntegritySha512;
pub use stun_types_wire::attribute::{
    AttributeHeader, AttributeType, RawAttribute, pad_attribute_len,
};
pub use stun_types_write::attribute::{
    Attribute, AttributeFromRaw, AttributeStaticType, AttributeWrite,
};
pub use stun_types_write::reading::{text_of, value_of};
pub use stun_types_write::text::write_attribute;

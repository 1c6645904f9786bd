//! Adds to a message in any writer: attributes in the prescribed order, the integrity attributes,
//! and FINGERPRINT (RFC 8489, sections 14.5 to 14.7). Also has the attributes of ICE (RFC 8445,
//! section 16.1).
#![tactic(auto)]

pub mod attribute;
pub mod ext;
mod fingerprint;
pub mod ice;
pub mod room;
mod signing;

pub use stun_types_integrity;
pub use stun_types_integrity::stun_types_write;
use stun_types_integrity::{stun_types_base, stun_types_digest, stun_types_wire};

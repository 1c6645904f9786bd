//! Message integrity: credentials, the keys derived from them, MESSAGE-INTEGRITY and
//! MESSAGE-INTEGRITY-SHA256 (RFC 8489, sections 9, 14.5 and 14.6), and MESSAGE-INTEGRITY-SHA512.
#![tactic(auto)]

pub mod algorithm;
mod constant_time;
pub mod credentials;
pub mod hmac;
mod hmac_state;
pub mod integrity_sha1;
pub mod integrity_sha256;
pub mod integrity_sha512;
pub mod key;
mod truncated;

pub use stun_types_write;
pub use stun_types_write::{stun_types_base, stun_types_digest, stun_types_wire};

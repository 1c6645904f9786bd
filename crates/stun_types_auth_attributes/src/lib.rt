//! The attributes that authenticate a message (RFC 8489, sections 14.3, 14.4 and 14.9 to 14.12),
//! and two other text attributes that work in the same way, SOFTWARE and ALTERNATE-DOMAIN.
#![tactic(auto)]

pub mod algorithm;
pub mod alternate_domain;
pub mod nonce;
pub mod password_algorithm;
pub mod password_algorithms;
pub mod realm;
pub mod software;
pub mod userhash;
pub mod username;

pub use stun_types_write;
use stun_types_write::{stun_types_base, stun_types_wire};

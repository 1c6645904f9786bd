//! The attributes of TURN that concern peers: their addresses, channels, connections and data (RFC
//! 8656, section 18; RFC 6062, section 6.2).
#![tactic(auto)]

pub mod channel_number;
pub mod connection_id;
pub mod data;
pub mod icmp;
pub mod xor_peer_address;

pub use turn_types_attributes;
pub use turn_types_attributes::{stun_types_base, stun_types_wire};
use turn_types_attributes::{stun_types_attributes, stun_types_write};

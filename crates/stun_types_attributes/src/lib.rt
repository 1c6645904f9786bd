//! STUN attributes (RFC 8489, section 14; RFC 5780): those that hold an address, xored or not,
//! ERROR-CODE and UNKNOWN-ATTRIBUTES.
#![tactic(auto)]

pub mod alternate_server;
pub mod error_code;
pub mod mapped_address;
mod octets;
pub mod socket_addr;
mod type_index;
pub mod unknown_attributes;
pub mod xor_mapped_address;

pub use stun_types_auth_attributes;
use stun_types_auth_attributes::stun_types_write;
pub use stun_types_wire;
pub use stun_types_wire::stun_types_base;

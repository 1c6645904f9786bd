//! The attributes of TURN with which a client requests an allocation and a server describes it (RFC
//! 8656, section 18), and the constants of TURN. Each attribute has a type of its own.
#![tactic(auto)]

pub mod additional_address_family;
pub mod address_error_code;
pub mod credentials;
pub mod dont_fragment;
pub mod even_port;
mod family;
pub mod lifetime;
pub mod number;
pub mod registry;
pub mod requested_address_family;
pub mod requested_transport;
pub mod reservation_token;
pub mod xor_relayed_address;

pub use stun_types_attributes;
pub use stun_types_attributes::{stun_types_base, stun_types_wire};
pub use stun_types_integrity::stun_types_write;

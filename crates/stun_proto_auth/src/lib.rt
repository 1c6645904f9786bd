//! What clients and servers share in long-term authentication (RFC 8489, section 9.2): the nonce's
//! text and features, the supported algorithms, what a message claims about its sender, and the
//! signing of a message that is sent.
#![tactic(auto)]

pub mod algorithms;
pub mod claim;
pub mod feature;
mod last;
pub mod list;
pub mod nonce;
pub mod number;
pub mod part;
mod room;
pub mod signing;
pub mod size;
pub mod supported;

pub use stun_types_message;
use stun_types_message::stun_types_attributes;
pub use stun_types_message::{
    stun_types_add, stun_types_auth_attributes, stun_types_base, stun_types_integrity,
    stun_types_wire, stun_types_write,
};

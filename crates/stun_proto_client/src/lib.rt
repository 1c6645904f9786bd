//! The client's side of authentication: short-term credentials (RFC 8489, section 9.1) and
//! long-term ones (section 9.2). It performs no input or output.
#![tactic(auto)]

mod challenge;
pub mod error;
pub mod laws;
pub mod long_term;
mod outgoing;
pub mod short_term;
mod stored;
mod strongest;
pub mod style;
pub mod validation;

use stun_proto_auth::{
    stun_types_add, stun_types_auth_attributes, stun_types_base, stun_types_integrity,
    stun_types_message, stun_types_wire, stun_types_write,
};

//! The server's side of long-term authentication (RFC 8489, section 9.2). It performs no input or
//! output: the caller passes the time and the random words.
#![tactic(auto)]

pub mod laws;
pub mod long_term;
pub mod outgoing;
mod party;
mod room;
mod users;
pub mod validation;

use stun_proto_verify::{
    stun_proto_auth, stun_types_add, stun_types_auth_attributes, stun_types_base,
    stun_types_integrity, stun_types_message, stun_types_wire, stun_types_write,
};

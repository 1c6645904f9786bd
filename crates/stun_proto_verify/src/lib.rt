//! The decision whether a server accepts a message as one of its user's (RFC 8489, section 9.2.4):
//! it checks what the message claims against what the server knows. The crate stores nothing.
#![tactic(auto)]

mod check;
pub mod error;
pub mod judgement;
pub mod keys;
pub mod known;
pub mod user;

pub use stun_proto_auth;
pub use stun_proto_auth::{
    stun_types_add, stun_types_auth_attributes, stun_types_base, stun_types_integrity,
    stun_types_message, stun_types_wire, stun_types_write,
};

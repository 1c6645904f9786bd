//! Parsed messages (RFC 8489, sections 5, 6.3 and 14): look-ups, builders of responses, validation,
//! and the check of a request's attribute types. [`integrity_laws`] states how written messages are
//! read.
#![tactic(auto)]

mod attribute_head;
pub mod builder;
pub mod check;
mod fingerprint;
pub mod integrity_laws;
pub mod iter;
pub mod parsed;
pub mod refuse;
mod stage;
pub mod typed;
pub mod validate;

pub use stun_types_add;
pub use stun_types_add::{stun_types_integrity, stun_types_write};
pub use stun_types_attributes;
pub use stun_types_attributes::{stun_types_auth_attributes, stun_types_base, stun_types_wire};

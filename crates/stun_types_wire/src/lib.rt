//! The wire format of STUN (RFC 8489, sections 5 and 14): headers, types, attributes and the errors
//! of decoding them. The definitions say which bytes are a message, and which attributes of a
//! message are visible. [`grammar_laws`] states what these definitions mean in the words of the
//! RFC.
#![tactic(auto)]

pub mod algorithm;
pub mod attribute;
pub mod class;
pub mod error;
pub mod grammar_laws;
pub mod header;
pub mod names;
pub mod registry;
pub mod transaction;

pub use stun_types_base;
pub use stun_types_digest;

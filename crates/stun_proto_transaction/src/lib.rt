//! Requests that await their responses: one request, the table of all, and the times at which each
//! is retransmitted and given up (RFC 8489, section 6.2).
#![tactic(auto)]

pub mod outstanding;
mod stored;
mod times;
pub mod transaction;
pub mod waits;

pub use stun_types_message;
pub use stun_types_message::{stun_types_base, stun_types_wire};

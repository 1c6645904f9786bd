//! The STUN agent: tracks outstanding requests, as time is passed to it. It performs no input or
//! output.
#![tactic(auto)]

pub mod agent;
pub mod builder;
pub mod error;
pub mod handling;
pub mod laws;
pub mod request;
pub mod sending;
pub mod transmitting;

use stun_proto_transaction::{stun_types_base, stun_types_message, stun_types_wire};

//! A TURN client (RFC 8656) that performs no input or output: it takes calls, received bytes and
//! times, and returns messages to send, events and payloads.
//!
//! - [`api`]: the settings, the trait of a client's calls, and their results.
//! - [`udp`]: the client over UDP.
//! - [`tcp`]: the client over TCP.
//! - [`client`]: the client over either transport, as one type.
//! - [`prelude`]: the traits that a caller needs in scope.
//! - [`laws`]: what the contracts mean for a layer above.
//! - [`types`] and [`stun`]: the crates below.
#![tactic(auto)]

pub mod api;
pub mod client;
mod getters;
mod gone;
pub mod laws;
mod notes;
pub mod prelude;
pub mod tcp;
pub mod udp;

pub use stun_proto as stun;
pub use turn_types as types;

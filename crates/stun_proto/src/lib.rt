//! STUN transactions and authentication (RFC 8489): time, requests that await responses, and the
//! authentication of clients and servers. Nothing here performs input or output: the caller passes
//! the time and the random words.
//!
//! - [`agent`]: the agent of requests.
//! - [`auth`]: the three authenticators, their settings and their errors.
//! - [`types`]: the messages.
//! - [`laws`]: theorems that follow from the contracts, for the layers above.
#![tactic(auto)]

pub mod agent;
pub mod auth;
pub mod laws;

pub use stun_types as types;
pub use stun_types_base::instant::Instant;

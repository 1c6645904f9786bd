//! The requests and responses that a client writes and signs, and what it decodes from the server's
//! messages.
#![tactic(auto)]

pub mod answer;
mod attributes;
pub mod granting;
pub mod laws;
pub mod noted;
pub mod peer_ips;
pub mod queued;
pub mod reported;
pub mod reporting;
pub mod request;
pub mod signer;
mod unsigned;

//! The state of a client's allocations, with their permissions, channels and connections, and the
//! outstanding requests for each. [`requested`] finds the request that a response answers.
#![tactic(auto)]

pub mod addresses;
pub mod allocation;
pub mod channel;
pub mod channel_of;
pub mod connection;
pub mod listed;
pub mod numbers;
pub mod pending;
pub mod permission;
pub mod permissions;
pub mod permitted;
pub mod refresh;

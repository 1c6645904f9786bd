//! Permissions (RFC 8656, sections 9 and 10) and channels (sections 12.1 to 12.3) of a client,
//! which let data pass between the client and its peers.
#![tactic(auto)]

pub mod channel;
pub mod permission;

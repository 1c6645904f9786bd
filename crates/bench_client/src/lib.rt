//! What C calls to time a client that receives and sends, the responses that it receives, an agent
//! with outstanding requests, and a server core with many users; and a server core, for a fuzzer.
#![tactic(auto)]

pub mod agents;
pub mod client;
pub mod served;
pub mod success;
pub mod users;

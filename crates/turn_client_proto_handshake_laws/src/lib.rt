//! Theorems on the stages of a client in a handshake, and on a client that receives nothing.
#![tactic(auto)]

pub mod driving;
pub mod stages;
pub mod unanswered;

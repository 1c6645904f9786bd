//! A driver's loop over a network that takes time, and requests by it, for `test_honest_network`.
#![tactic(auto)]

pub mod carrying;
pub mod driving;
pub mod network;
pub mod requesting;
pub mod showing;

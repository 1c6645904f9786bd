//! Theorems: each call of a server core is a step of a run, and how a server core comes to grant an
//! allocation.
#![tactic(auto)]

pub mod challenged;
pub mod definite;
pub mod handshakes;
pub mod steps;
pub mod users;

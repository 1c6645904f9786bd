//! Theorems on runs: what holds of every run in which each step meets its contract. A small client
//! and server core show that there are such runs, and what the theorems rule out. One more theorem
//! is on the bytes of STUN.
#![tactic(auto)]

pub mod runs;
pub mod small;
pub mod stun;

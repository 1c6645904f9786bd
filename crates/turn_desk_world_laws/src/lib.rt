//! Theorems: the theorem on runs of a simulation ([`running`]), what it means for a layer above
//! ([`laws`]), for what a client sends to peers ([`sending`]) and for how its connections end
//! ([`ended`]), and a test of one of its premises ([`numbers`]).
#![tactic(auto)]

pub mod ended;
pub mod laws;
pub mod numbers;
pub mod running;
pub mod sending;

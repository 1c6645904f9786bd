//! Theorems on a client and a server core over an honest network: what a new client holds after two
//! replies, what it then requests and is granted, and what it renews.
#![tactic(auto)]

pub mod connections;
pub mod fresh;
pub mod hardened;
pub mod honest;
pub mod loops;
pub mod renewals;
pub mod requests;
pub mod small;
pub mod unforged;

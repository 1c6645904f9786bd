//! The functions that a C program calls to time the library: digests; reading, validating, building
//! and signing messages; channel frames and streams.
//!
//! Most functions call the library's function and repeat its contract. The functions for a client
//! and an agent are in `bench_client`.
#![tactic(auto)]

pub mod adds;
pub mod allocation;
pub mod build;
pub mod check;
pub mod digest;
mod key;
pub mod lent;
pub mod read;
pub mod request;
mod response;
pub mod stored;
pub mod stream;
pub mod validate;

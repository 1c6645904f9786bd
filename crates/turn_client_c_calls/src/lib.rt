//! The bodies of the calls of `bindings/c/include/turn_client.h`, with C's types: a handle,
//! addresses, numbers and bytes.
//!
//! Each call is a function of `opening`, `traffic`, `waiting`, `causes`, `asking`, `sockets`,
//! `speaking` or `getters`.
//! Its contract states its effect on the client in terms of the trait `TurnClientApi`.
//! `turn_client_c` exports the calls.
#![tactic(auto)]

pub mod asking;
mod boxed_client;
pub mod causes;
pub mod getters;
pub mod handle;
mod lengths;
pub mod opening;
mod raw_box;
pub mod sockets;
pub mod speaking;
mod status;
pub mod traffic;
pub mod waiting;
mod whole;

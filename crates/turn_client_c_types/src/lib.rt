//! The structs of `bindings/c/include/turn_client.h`, by which C passes settings and addresses to a
//! client and gets addresses, events, payloads and waits from it.
#![tactic(auto)]

pub mod address;
pub mod cause;
pub mod event;
pub mod reported;
pub mod settings;

//! A small TURN server core (RFC 8656), which takes the bytes of a request and returns the bytes of
//! a reply, and a simulation of it with a client. The crate performs no input or output.
//!
//! - A [`Desk`] is a server core. It replies as a [`Decision`] of the application says.
//! - A [`World`] is a simulation: a server core, a client, and a network that may deliver any bytes
//!   to either of them at any time. It takes [`event`]s and returns their [`answer`]s.
//! - [`is_forbidden_peer`] returns whether such a decision should refuse a peer by default.
//! - [`replay`] executes a written list of events.
//!
//! `desk_steps`, `desks_answer_alike` and `addresses_are_isolated` are theorems on server cores.
//! Crate `turn_desk_laws` has all theorems on the runs of a simulation, each under its own name:
//! who lists that crate beside this one has them, and a program that doesn't stands on none. The
//! theorems on how a server core comes to grant an allocation are in `turn_desk_step_laws`.
#![tactic(auto)]

pub use turn_desk_core::decision::Decision;
pub use turn_desk_core::desk::Desk;
pub use turn_desk_core::forbidden_peers::is_forbidden_peer;
pub use turn_desk_core::grant::Grant;
pub use turn_desk_core::laws::{addresses_are_isolated, desk_steps, desks_answer_alike};
pub use turn_desk_event::{answer, event};
pub use turn_desk_world::trace::replay;
pub use turn_desk_world::world::World;

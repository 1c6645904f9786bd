//! A simulation of one client and one server core, and a network that may deliver any bytes to
//! either of them at any time. [`world`] takes events and returns their results; [`trace`] replays
//! a written list of events. The crate performs no input or output except through the reader and
//! the writer that it is given.
#![tactic(auto)]

mod desk;
mod driven;
mod looking;
mod progress;
pub mod setting;
pub mod trace;
mod typed;
mod wanted;
pub mod world;

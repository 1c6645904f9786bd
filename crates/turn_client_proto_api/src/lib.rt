//! The types that a user of a TURN client passes and gets: settings, events, errors, results and
//! payloads; and the queue type for events and messages.
#![tactic(auto)]

pub mod answer;
pub mod cause;
pub mod causes;
pub mod config;
pub mod data;
pub mod error;
pub mod event;
pub mod expired;
pub mod families;
pub mod limits;
pub mod options;
pub mod queue;
pub mod send;
pub(crate) mod waits;

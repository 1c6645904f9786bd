//! The events of a simulation and their results, and the lines that a trace prints for the results.
#![tactic(auto)]

pub mod answer;
pub mod event;
pub mod print;

//! Reading the lines of a trace. `docs/TRACE.md` describes the language.
//!
//! The words of a line are read as numbers ([`number`]), addresses ([`address`]), algorithms
//! ([`algorithms`]), bytes ([`bytes`]), decisions ([`decision`]), setup lines ([`setup`]), looks
//! ([`look`]) and events ([`event`]), and the whole as a [`line`]. [`named`] stores the bytes of a
//! result, which later lines can name.
#![tactic(auto)]

pub mod address;
pub mod algorithms;
pub mod bytes;
pub mod decision;
pub mod event;
pub mod line;
pub mod look;
pub mod named;
pub mod number;
pub mod setup;

//! The interface between attributes and writers, and the two writers: into a vector and into a
//! slice.
#![tactic(auto)]

pub mod among;
pub mod attribute;
pub mod ended;
pub mod reading;
mod scan;
pub mod slice;
pub mod text;
pub mod vec;
pub mod writer;

pub use stun_types_wire;
pub use stun_types_wire::{stun_types_base, stun_types_digest};

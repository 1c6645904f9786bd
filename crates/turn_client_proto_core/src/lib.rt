//! The protocol core of a TURN client (RFC 8656): its state, the calls on it, and the handling of
//! each received message. It is independent of the framing of a transport. [`protocol`] defines the
//! state; the other modules have the calls.
#![tactic(auto, using(crate::proofs::Usual::usual), unfolding(crate::proofs::Usual::opened))]

pub mod allocating;
pub mod asking;
pub mod attempting;
pub mod authenticating;
pub mod beginning;
pub mod binding;
pub mod calls;
pub mod ending;
pub mod number;
pub mod permitting;
pub mod protocol;
pub mod receiving;
mod reporting;
pub mod speaking;
pub mod standing;
pub mod transactions;

//! What a TURN client does as time passes (RFC 8656). [`polling`] does the timed work and returns
//! how long to wait, and [`drawing`] returns what to send. [`reporting`] handles what expires of
//! the permissions, channels and connections of an allocation, and [`wanting`] finds what to renew.
//! [`quiet`] remembers how long nothing of all that is due.
//! [`deleting`] asks the server to delete the allocations. [`laws`] proves what these modules
//! guarantee together to the crates above.
#![tactic(auto, using(crate::proofs::Usual::usual), unfolding(crate::proofs::Usual::opened))]

mod answers;
pub mod deleting;
pub mod drawing;
pub mod laws;
pub mod polling;
pub mod quiet;
pub mod reporting;
pub mod wanting;

//! The data between a client's user and peers. [`payload`] finds what a received message or channel
//! frame delivers, by means of [`indication`] and [`known`]; [`sending`] builds what carries bytes
//! to a peer. No bytes are copied here and no memory is allocated. [`laws`] proves that what is
//! delivered is from permitted peers.
#![tactic(auto)]

pub mod indication;
pub mod known;
pub mod laws;
pub mod payload;
pub mod sending;

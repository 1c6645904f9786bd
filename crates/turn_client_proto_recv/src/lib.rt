//! Handling of what a client receives: datagrams, chunks of the control stream, and chunks of the
//! sockets of data connections. Also the connections to peers over TCP (RFC 6062), from the call
//! that requests one to the closing of its socket.
#![tactic(auto)]

pub mod chunk;
pub mod closing;
pub mod connecting;
pub mod datagram;
pub mod handing;
pub mod notes;
pub mod processing;
pub mod pulling;
pub mod socket;
pub mod sockets;
pub mod stream;

//! The connections of a TURN client's allocations to peers (RFC 6062, section 4).
//!
//! - `asking`: why a connection cannot be requested; the CONNECT.
//! - `reported`, `waiting`: the response to a CONNECT, and the connections for which the caller is
//!   to open a socket.
//! - `attempts`: the server's requests for connections that peers initiate.
//! - `sockets`, `streams`: connections that have a socket, and the bytes they receive.
//! - `expire`: timeouts.
//! - `visible`: the listed connections.
#![tactic(auto)]

pub mod asking;
pub mod attempts;
pub mod expire;
pub mod reported;
pub mod sockets;
pub mod streams;
pub mod visible;
pub mod waiting;

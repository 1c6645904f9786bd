//! The application's decision on a validated request.

use std::net::SocketAddr;
use stun_types_base::list::ListOf;

/// The application's decision on a request. The server core checks whether the decision fits the
/// request's method.
#[derive(Debug, Drop)]
pub enum Decision {
    /// Reject the request with this error code, 300 to 699 (RFC 8489, section 14.8).
    Refuse(u16),
    /// Grant an allocation (RFC 8656, section 7.2).
    Allocate {
        /// The relayed transport addresses: one, or two of different families.
        addresses: ListOf<SocketAddr>,
        /// The lifetime of the allocation, in seconds.
        lifetime: u32,
    },
    /// Extend an allocation's lifetime, or end it (RFC 8656, section 8.2).
    Refresh {
        /// The new lifetime, in seconds; 0 ends the allocation.
        lifetime: u32,
    },
    /// Report that a connection to the peer was made (RFC 6062, section 5.2).
    Connect {
        /// The connection ID, as CONNECTION-ID carries it.
        number: u32,
    },
    /// Grant what was requested: permissions, a channel, or the binding of a connection.
    Grant,
}

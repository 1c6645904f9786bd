//! What the server core granted.

use std::net::SocketAddr;
use stun_types_base::list::ListOf;
use stun_types_base::transport::TransportType;
use stun_types_wire::class::Method;
use stun_types_wire::transaction::TransactionId;

/// What was granted by the reply to one request. Fields that the method does not use are empty.
#[derive(Debug, Drop)]
pub struct Grant {
    /// The method of the request.
    pub method: Method,
    /// The transaction ID of the request.
    pub number: TransactionId,
    /// The address that the request came from.
    pub from: SocketAddr,
    /// The requested transport (RFC 8656, section 18.8).
    pub transport: Option<TransportType>,
    /// The relayed transport addresses that the decision gave.
    pub relayed: ListOf<SocketAddr>,
    /// The granted lifetime, in seconds.
    pub lifetime: Option<u32>,
    /// The requested peers.
    pub peers: ListOf<SocketAddr>,
    /// The requested channel number (RFC 8656, section 12).
    pub channel: Option<u16>,
    /// The connection ID (RFC 6062, section 6.2.1).
    pub connection: Option<u32>,
}

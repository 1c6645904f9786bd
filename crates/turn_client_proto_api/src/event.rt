//! Events: what happens to a client's allocations, permissions, channels and connections.

use std::net::{IpAddr, SocketAddr};
use stun_types_base::family::AddressFamily;
use stun_types_base::transport::TransportType;

/// What happened at the server. `poll_event` returns the oldest first. The transport is the one
/// between the server and the peers.
#[derive(Clone, Copy, Debug, PartialEq, Eq)]
pub enum TurnEvent {
    /// The server allocated this relayed address (RFC 8656, section 7.3).
    AllocationCreated(TransportType, SocketAddr),
    /// The server allocated no address of this family, or the client ended before it did. If the
    /// caller ended the client by `protocol_error`, or the server challenged it ten times, each
    /// requested family is reported, those that were allocated too.
    AllocationCreateFailed(AddressFamily),
    /// The server granted a permission for this address of a peer (RFC 8656, section 10).
    PermissionCreated(TransportType, IpAddr),
    /// A permission for this address of a peer was rejected or ended.
    PermissionCreateFailed(TransportType, IpAddr),
    /// A channel to this peer is bound (RFC 8656, section 12.3).
    ChannelCreated(TransportType, SocketAddr),
    /// A channel to this peer was rejected or ended.
    ChannelCreateFailed(TransportType, SocketAddr),
    /// A connection to this peer is bound (RFC 6062, sections 4.3 and 4.4).
    TcpConnected(SocketAddr),
    /// No connection to this peer was made, or it was not bound.
    TcpConnectFailed(SocketAddr),
}

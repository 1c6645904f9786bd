//! The events of a simulation.

use std::net::{IpAddr, SocketAddr};
use stun_types_base::instant::Instant;
use stun_types_base::transport::TransportType;
use turn_desk_core::decision::Decision;

/// A call of a client by its application.
#[derive(Debug, Drop)]
pub enum ClientCall {
    /// `poll`.
    Poll,
    /// `poll_event`.
    PollEvent,
    /// `delete`.
    Delete,
    /// `create_permission`.
    CreatePermission(TransportType, IpAddr),
    /// `create_permissions` for these IP addresses.
    CreatePermissions(TransportType, Vec<IpAddr>),
    /// `have_permission`.
    HavePermission(TransportType, IpAddr),
    /// `permissions` of the allocation with this transport and relayed address.
    Permissions(TransportType, SocketAddr),
    /// `bind_channel` to the peer, with this transport between the server and the peers.
    BindChannel(TransportType, SocketAddr),
    /// `channels`.
    Channels,
    /// `tcp_connect` to the peer.
    TcpConnect(SocketAddr),
    /// `allocated_tcp_socket` for the connection with this ID to this peer. The last field is the
    /// local address of the socket that was opened, or `None` if none was. The five-tuple is that
    /// of the client's own connection.
    AllocatedTcpSocket(u32, SocketAddr, Option<SocketAddr>),
    /// `tcp_closed` for the socket with this local address and this remote address.
    TcpClosed(SocketAddr, SocketAddr),
    /// `connections`.
    Connections,
    /// `send_to` the peer, with this transport between the server and the peers and these bytes.
    SendTo(TransportType, SocketAddr, Vec<u8>),
    /// `poll_recv`.
    PollRecv,
    /// `protocol_error`.
    ProtocolError,
    /// `relayed_addresses`.
    RelayedAddresses,
}

/// An event for the client or for the server core of a simulation.
#[derive(Debug, Drop)]
pub enum Event {
    /// The application calls the client at this time.
    Call(ClientCall, Instant),
    /// The application asks the client at this time for something to transmit.
    Draw(Instant),
    /// Bytes reach the client on its own transport.
    ToClient {
        /// The bytes.
        bytes: Vec<u8>,
        /// The source address.
        from: SocketAddr,
        /// The destination address.
        to: SocketAddr,
        /// The time of arrival.
        now: Instant,
    },
    /// Bytes reach the server core.
    ToDesk {
        /// The bytes.
        bytes: Vec<u8>,
        /// The source address.
        from: SocketAddr,
        /// The time of arrival.
        now: Instant,
        /// The application's decision, if the server core needs one.
        decision: Decision,
        /// The seed of the ChaCha20 generator that supplies the server core's random words for
        /// these bytes.
        seed: [u8; 32],
    },
}

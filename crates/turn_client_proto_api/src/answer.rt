//! What a client's `poll` and `recv` return.

use crate::data::TurnPeerData;
use std::convert::AsSlice;
use std::net::SocketAddr;
use stun_types_base::instant::Instant;
use stun_types_base::transmit::Transmit;
use stun_types_base::transport::TransportType;

/// A socket: its transport, its own address and the remote one.
#[derive(Clone, Copy, Debug, PartialEq, Eq)]
pub struct Socket5Tuple {
    /// The transport.
    pub transport: TransportType,
    /// The own address.
    pub from: SocketAddr,
    /// The remote address.
    pub to: SocketAddr,
}

/// What `poll` returns.
#[derive(Clone, Copy, Debug, PartialEq, Eq)]
pub enum TurnPollRet {
    /// Nothing is due before this time. Another call may make something due earlier.
    WaitUntil(Instant),
    /// The caller is to open a connection to the server, and to report it with
    /// `allocated_tcp_socket` (RFC 6062, sections 4.3 and 4.4).
    AllocateTcpSocket {
        /// The ID by which the server knows the connection to the peer.
        id: u32,
        /// The transport and the addresses of the connection to open. The caller chooses the port
        /// of the own address.
        socket: Socket5Tuple,
        /// The peer. Either the server connected to it, or it connected to the server.
        peer_addr: SocketAddr,
    },
    /// The caller is to close this connection to the server (RFC 6062, section 4.6).
    TcpClose {
        /// The own address.
        local_addr: SocketAddr,
        /// The server's address.
        remote_addr: SocketAddr,
    },
    /// The client has ended: nothing more is due.
    Closed,
    /// An allocation failed: the client has ended.
    NoMemory,
}

/// What `recv` returns.
#[derive(Debug, Drop)]
pub enum TurnRecvRet<T: AsSlice<u8>> {
    /// The bytes were for the client, and it has handled them.
    Handled,
    /// The bytes are not for the client. They are returned.
    Ignored(Transmit<T>),
    /// The bytes carry a payload of a peer (RFC 8656, sections 11.4 and 12.6).
    PeerData(TurnPeerData<T>),
    /// The server received an ICMP message on the way to a peer (RFC 8656, section 11.6).
    PeerIcmp {
        /// The transport between the server and the peer.
        transport: TransportType,
        /// The peer's address.
        peer: SocketAddr,
        /// The type of the ICMP message.
        icmp_type: u8,
        /// The code of the ICMP message.
        icmp_code: u8,
        /// The data of the ICMP message.
        icmp_data: u32,
    },
    /// An allocation failed: the client has ended. The bytes are returned.
    NoMemory(Transmit<T>),
}

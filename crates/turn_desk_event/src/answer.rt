//! The results of a simulation's events.

use std::net::{IpAddr, SocketAddr};
use stun_types_base::data::Data;
use stun_types_base::instant::Instant;
use stun_types_base::transmit::Transmit;
use stun_types_base::transport::TransportType;
use turn_client_proto_api::answer::Socket5Tuple;
use turn_client_proto_api::data::TurnPeerData;
use turn_client_proto_api::error::{
    BindChannelError, CreatePermissionError, CreatePermissionsError, DeleteError, SendError,
    TcpAllocateError, TcpConnectError,
};
use turn_client_proto_api::event::TurnEvent;

/// Why a client refused a call.
#[derive(Clone, Copy, Debug, PartialEq, Eq)]
pub enum Refusal {
    /// Why `delete` was refused.
    Delete(DeleteError),
    /// Why `create_permission` was refused.
    CreatePermission(CreatePermissionError),
    /// Why `create_permissions` was refused.
    CreatePermissions(CreatePermissionsError),
    /// Why `bind_channel` was refused.
    BindChannel(BindChannelError),
    /// Why `tcp_connect` was refused.
    TcpConnect(TcpConnectError),
    /// Why `allocated_tcp_socket` was refused.
    TcpAllocate(TcpAllocateError),
    /// Why `send_to` was refused.
    Send(SendError),
}

/// The result of an event.
#[derive(Debug, Drop)]
pub enum Answer {
    /// The server core replies with these bytes.
    Reply(Vec<u8>),
    /// The server core does not reply, the client has nothing to transmit, or no event is queued.
    Nothing,
    /// The client transmits this: the result of polling it, or a payload to a peer.
    Transmit(Transmit<Data<'static>>),
    /// The client handled the received bytes.
    Handled,
    /// The received bytes are not for the client.
    Ignored,
    /// The received bytes carry a payload from a peer.
    Peer(TurnPeerData<Vec<u8>>),
    /// The server received an ICMP message on the way to a peer.
    Icmp {
        /// The transport between the server and the peer.
        transport: TransportType,
        /// The peer's address.
        peer: SocketAddr,
        /// The type of the ICMP message.
        icmp_type: u8,
        /// The code of the ICMP message.
        icmp_code: u8,
        /// The data of the ICMP message.
        icmp_data: u32,
    },
    /// The client has nothing to do before this time.
    Wait(Instant),
    /// The caller has to open a connection to the server.
    Socket {
        /// The connection ID that the server gave the connection to the peer.
        id: u32,
        /// The connection to open.
        socket: Socket5Tuple,
        /// The peer.
        peer: SocketAddr,
    },
    /// The caller has to close a connection to the server.
    Close {
        /// The client's address.
        local: SocketAddr,
        /// The server's address.
        remote: SocketAddr,
    },
    /// The client is closed.
    Closed,
    /// The client reports an event.
    Event(TurnEvent),
    /// The call succeeded.
    Done,
    /// The call was refused.
    Refused(Refusal),
    /// Whether a permission is active.
    Have(bool),
    /// The relayed addresses that the client lists, with their transports.
    Relayed(Vec<(TransportType, SocketAddr)>),
    /// The addresses of the active permissions.
    Permissions(Vec<IpAddr>),
    /// The active channels, each with its number and its peer.
    Channels(Vec<(u16, SocketAddr)>),
    /// The data connections, each with its local address, its peer, its connection ID, and whether
    /// it is bound.
    Connections(Vec<(SocketAddr, SocketAddr, u32, bool)>),
    /// There is no client, or the time is after `CLIENT_END`. Nothing was done.
    OutOfRange,
}

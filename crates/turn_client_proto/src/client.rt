//! A TURN client over UDP or TCP, as one type.

ghost use Rattle.turn_client_proto.specs.Clients.{noted_of, stored_of};

use crate::api::TurnClientApi;
use crate::getters::{
    ChannelsIter, ConnectionsIter, PermissionAddressesIter, RelayedAddressesIter,
};
use crate::tcp::TurnClientTcp;
use crate::udp::TurnClientUdp;
use std::convert::AsSlice;
use std::fmt::Debug;
use std::net::{IpAddr, SocketAddr};
use stun_types_auth_attributes::software::Software;
use stun_types_base::data::Data;
use stun_types_base::instant::Instant;
use stun_types_base::memory::NoMemory;
use stun_types_base::transmit::Transmit;
use stun_types_base::transport::TransportType;
use turn_client_proto_api::answer::{Socket5Tuple, TurnPollRet, TurnRecvRet};
use turn_client_proto_api::cause::TurnCause;
use turn_client_proto_api::data::TurnPeerData;
use turn_client_proto_api::error::{
    BindChannelError, CreatePermissionError, CreatePermissionsError, DeleteError, SendError,
    TcpAllocateError, TcpConnectError,
};
use turn_client_proto_api::event::TurnEvent;
use turn_client_proto_api::expired::AllocationExpired;
use turn_client_proto_api::send::DelayedMessageOrChannelSend;
use turn_types_attributes::credentials::TurnCredentials;
use turn_types_frame::build::TransmitBuild;

/// A TURN client over UDP or TCP. Its calls are those of the client inside.
#[derive(Debug, Drop)]
pub enum TurnClient {
    /// A client over UDP.
    Udp(TurnClientUdp),
    /// A client over TCP.
    Tcp(TurnClientTcp),
}

impl From<TurnClientUdp> for TurnClient {
    ghost use Rattle.std.specs.Prelude.{◌≡◌};
    ghost use Rattle.turn_client_proto.specs.declared.client.TurnClient.TheVariants.{Udp};

    ghost from_gives = { λ client whole. whole ≡ Udp client };

    fn from(value: TurnClientUdp) -> TurnClient {
        TurnClient::Udp(value)
    }
}

impl From<TurnClientTcp> for TurnClient {
    ghost use Rattle.std.specs.Prelude.{◌≡◌};
    ghost use Rattle.turn_client_proto.specs.declared.client.TurnClient.TheVariants.{Tcp};

    ghost from_gives = { λ client whole. whole ≡ Tcp client };

    fn from(value: TurnClientTcp) -> TurnClient {
        TurnClient::Tcp(value)
    }
}

impl TurnClientApi for TurnClient {
    ghost use Rattle.turn_client_proto.specs.Clients.{noted_of, stored_of};

    ghost stored = { stored_of };

    ghost noted = { noted_of };

    fn transport(&self) -> TransportType {
        match self {
            TurnClient::Udp(client) => client.transport(),
            TurnClient::Tcp(client) => client.transport(),
        }
    }

    fn local_addr(&self) -> SocketAddr {
        match self {
            TurnClient::Udp(client) => client.local_addr(),
            TurnClient::Tcp(client) => client.local_addr(),
        }
    }

    fn remote_addr(&self) -> SocketAddr {
        match self {
            TurnClient::Udp(client) => client.remote_addr(),
            TurnClient::Tcp(client) => client.remote_addr(),
        }
    }

    fn relayed_addresses(&self) -> RelayedAddressesIter<'_> {
        match self {
            TurnClient::Udp(client) => client.relayed_addresses(),
            TurnClient::Tcp(client) => client.relayed_addresses(),
        }
    }

    fn delete(&mut self, now: Instant) -> Result<(), DeleteError> {
        match self {
            TurnClient::Udp(client) => client.delete(now),
            TurnClient::Tcp(client) => client.delete(now),
        }
    }

    fn create_permission(
        &mut self,
        transport: TransportType,
        peer_addr: IpAddr,
        now: Instant,
    ) -> Result<(), CreatePermissionError> {
        match self {
            TurnClient::Udp(client) => client.create_permission(transport, peer_addr, now),
            TurnClient::Tcp(client) => client.create_permission(transport, peer_addr, now),
        }
    }

    fn create_permissions(
        &mut self,
        transport: TransportType,
        peer_addrs: &[IpAddr],
        now: Instant,
    ) -> Result<(), CreatePermissionsError> {
        match self {
            TurnClient::Udp(client) => client.create_permissions(transport, peer_addrs, now),
            TurnClient::Tcp(client) => client.create_permissions(transport, peer_addrs, now),
        }
    }

    fn have_permission(&self, transport: TransportType, to: IpAddr) -> bool {
        match self {
            TurnClient::Udp(client) => client.have_permission(transport, to),
            TurnClient::Tcp(client) => client.have_permission(transport, to),
        }
    }

    fn permissions(
        &self,
        transport: TransportType,
        relayed: SocketAddr,
    ) -> PermissionAddressesIter<'_> {
        match self {
            TurnClient::Udp(client) => client.permissions(transport, relayed),
            TurnClient::Tcp(client) => client.permissions(transport, relayed),
        }
    }

    fn bind_channel(
        &mut self,
        transport: TransportType,
        peer_addr: SocketAddr,
        now: Instant,
    ) -> Result<(), BindChannelError> {
        match self {
            TurnClient::Udp(client) => client.bind_channel(transport, peer_addr, now),
            TurnClient::Tcp(client) => client.bind_channel(transport, peer_addr, now),
        }
    }

    fn channels(&self) -> ChannelsIter<'_> {
        match self {
            TurnClient::Udp(client) => client.channels(),
            TurnClient::Tcp(client) => client.channels(),
        }
    }

    fn tcp_connect(&mut self, peer_addr: SocketAddr, now: Instant) -> Result<(), TcpConnectError> {
        match self {
            TurnClient::Udp(client) => client.tcp_connect(peer_addr, now),
            TurnClient::Tcp(client) => client.tcp_connect(peer_addr, now),
        }
    }

    fn allocated_tcp_socket(
        &mut self,
        id: u32,
        five_tuple: Socket5Tuple,
        peer_addr: SocketAddr,
        local_addr: Option<SocketAddr>,
        now: Instant,
    ) -> Result<(), TcpAllocateError> {
        match self {
            TurnClient::Udp(client) => client.allocated_tcp_socket(
                id, five_tuple, peer_addr, local_addr, now,
            ),
            TurnClient::Tcp(client) => client.allocated_tcp_socket(
                id, five_tuple, peer_addr, local_addr, now,
            ),
        }
    }

    fn tcp_closed(
        &mut self,
        local_addr: SocketAddr,
        remote_addr: SocketAddr,
        now: Instant,
    ) -> Result<(), NoMemory> {
        match self {
            TurnClient::Udp(client) => client.tcp_closed(local_addr, remote_addr, now),
            TurnClient::Tcp(client) => client.tcp_closed(local_addr, remote_addr, now),
        }
    }

    fn connections(&self) -> ConnectionsIter<'_> {
        match self {
            TurnClient::Udp(client) => client.connections(),
            TurnClient::Tcp(client) => client.connections(),
        }
    }

    fn send_to<T: AsSlice<u8> + Debug + Drop>(
        &mut self,
        transport: TransportType,
        to: SocketAddr,
        data: T,
        now: Instant,
    ) -> Result<Option<TransmitBuild<DelayedMessageOrChannelSend<T>>>, SendError> {
        match self {
            TurnClient::Udp(client) => client.send_to(transport, to, data, now),
            TurnClient::Tcp(client) => client.send_to(transport, to, data, now),
        }
    }

    fn poll_recv(&mut self, now: Instant) -> Result<Option<TurnPeerData<Vec<u8>>>, NoMemory> {
        match self {
            TurnClient::Udp(client) => client.poll_recv(now),
            TurnClient::Tcp(client) => client.poll_recv(now),
        }
    }

    fn recv<T: AsSlice<u8> + Debug + Drop>(
        &mut self,
        transmit: Transmit<T>,
        now: Instant,
    ) -> TurnRecvRet<T> {
        match self {
            TurnClient::Udp(client) => client.recv(transmit, now),
            TurnClient::Tcp(client) => client.recv(transmit, now),
        }
    }

    fn poll(&mut self, now: Instant) -> TurnPollRet {
        match self {
            TurnClient::Udp(client) => client.poll(now),
            TurnClient::Tcp(client) => client.poll(now),
        }
    }

    fn poll_transmit(&mut self, now: Instant) -> Result<Option<Transmit<Data<'static>>>, NoMemory> {
        match self {
            TurnClient::Udp(client) => client.poll_transmit(now),
            TurnClient::Tcp(client) => client.poll_transmit(now),
        }
    }

    fn poll_event(&mut self) -> Option<TurnEvent> {
        match self {
            TurnClient::Udp(client) => client.poll_event(),
            TurnClient::Tcp(client) => client.poll_event(),
        }
    }

    fn poll_expired(&mut self) -> Option<AllocationExpired> {
        match self {
            TurnClient::Udp(client) => client.poll_expired(),
            TurnClient::Tcp(client) => client.poll_expired(),
        }
    }

    fn protocol_error(&mut self) -> Result<(), NoMemory> {
        match self {
            TurnClient::Udp(client) => client.protocol_error(),
            TurnClient::Tcp(client) => client.protocol_error(),
        }
    }

    fn set_credentials(&mut self, credentials: TurnCredentials) {
        match self {
            TurnClient::Udp(client) => client.set_credentials(credentials),
            TurnClient::Tcp(client) => client.set_credentials(credentials),
        }
    }

    fn set_software(&mut self, software: Option<Software>) {
        match self {
            TurnClient::Udp(client) => client.set_software(software),
            TurnClient::Tcp(client) => client.set_software(software),
        }
    }

    fn set_fingerprint(&mut self, fingerprint: bool) {
        match self {
            TurnClient::Udp(client) => client.set_fingerprint(fingerprint),
            TurnClient::Tcp(client) => client.set_fingerprint(fingerprint),
        }
    }

    fn cause(&self) -> Option<&TurnCause> {
        match self {
            TurnClient::Udp(client) => client.cause(),
            TurnClient::Tcp(client) => client.cause(),
        }
    }

    fn mapped_address(&self) -> Option<SocketAddr> {
        match self {
            TurnClient::Udp(client) => client.mapped_address(),
            TurnClient::Tcp(client) => client.mapped_address(),
        }
    }

    fn reservation_token(&self) -> Option<u64> {
        match self {
            TurnClient::Udp(client) => client.reservation_token(),
            TurnClient::Tcp(client) => client.reservation_token(),
        }
    }

    fn alternate_server(&self) -> Option<SocketAddr> {
        match self {
            TurnClient::Udp(client) => client.alternate_server(),
            TurnClient::Tcp(client) => client.alternate_server(),
        }
    }

    fn alternate_domain(&self) -> Option<&str> {
        match self {
            TurnClient::Udp(client) => client.alternate_domain(),
            TurnClient::Tcp(client) => client.alternate_domain(),
        }
    }
}

//! Events for the client.

ghost use Rattle.std.specs.Prelude.{◌≡◌, IfOk};
ghost use Rattle.turn_client_proto.specs.Clients.{stored_of};
ghost use Rattle.turn_client_proto.specs.Recv.ClientState.{Leaves};
ghost use Rattle.turn_desk_world.specs.Calls.{AreChannelsReported, ArePermissionsAnsweredAs, ArePermissionsReported, IsBindReported, IsCallReported, IsDeleteReported, IsTransmittedAs, IsEventReported, IsFed, IsPermissionReported, IsPolledAs, IsRelayedReported, IsSendReported, IsWaitingReported, IsConnectReported, AreConnectionsReported, IsClosedReported, IsSocketTaken};
ghost use Rattle.turn_desk_world.specs.Runs.{IsAtClient, IsInRange, is_in_range};

use crate::typed::proof_are_bytes;
use std::alloc::Global;
use std::marker::Model;
use std::net::{IpAddr, SocketAddr};
use stun_types_base::data::{Data, DataOwned};
use stun_types_base::instant::Instant;
use stun_types_base::memory::NoMemory;
use stun_types_base::transmit::Transmit;
use stun_types_base::transport::TransportType;
use turn_client_proto::api::{CLIENT_END, TurnClientApi};
use turn_client_proto::client::TurnClient;
use turn_client_proto_api::answer::{Socket5Tuple, TurnPollRet, TurnRecvRet};
use turn_client_proto_api::error::{
    BindChannelError, CreatePermissionError, CreatePermissionsError, DeleteError, SendError,
    TcpAllocateError, TcpConnectError,
};
use turn_desk_event::answer::{Answer, Refusal};
use turn_desk_event::event::ClientCall;

/// Makes a call of the client at this time.
#[tactic(auto, unfolding(crate::specs::Calls::IsCallReported, crate::specs::Calls::IsCalled))]
fn call(
    alloc: Global,
    client: &mut TurnClient,
    call: &ClientCall,
    now: Instant,
) -> Result<Answer, NoMemory>
    ensures { IfOk result (λ answer.
        IsCallReported call.now answer (stored_of client.old) now (stored_of client.new)) }
{
    match call {
        ClientCall::Poll => poll(client, now),
        ClientCall::PollEvent => Ok(poll_event(client)),
        ClientCall::Delete => delete(client, now),
        ClientCall::CreatePermission(transport, ip) => {
            create_permission(client, *transport, *ip, now)
        }
        ClientCall::CreatePermissions(transport, ips) => {
            create_permissions(client, *transport, ips.as_slice(), now)
        }
        ClientCall::HavePermission(transport, ip) => {
            Ok(Answer::Have(client.have_permission(*transport, *ip)))
        }
        ClientCall::Permissions(transport, relayed) => {
            permissions(alloc, client, *transport, *relayed)
        }
        ClientCall::BindChannel(transport, peer) => bind_channel(client, *transport, *peer, now),
        ClientCall::Channels => channels(alloc, client),
        ClientCall::TcpConnect(peer) => tcp_connect(client, *peer, now),
        ClientCall::AllocatedTcpSocket(id, peer, local) => {
            allocated_tcp_socket(client, *id, *peer, *local, now)
        }
        ClientCall::TcpClosed(local, remote) => tcp_closed(client, *local, *remote, now),
        ClientCall::Connections => connections(alloc, client),
        ClientCall::SendTo(transport, peer, bytes) => {
            send_to(alloc, client, *transport, *peer, bytes.as_slice(), now)
        }
        ClientCall::ProtocolError => {
            client.protocol_error()?;
            Ok(Answer::Done)
        }
        ClientCall::PollRecv => poll_recv(client, now),
        ClientCall::RelayedAddresses => relayed(alloc, client),
    }
}

/// Calls `poll`.
fn poll(client: &mut TurnClient, now: Instant) -> Result<Answer, NoMemory>
    ensures { IfOk result (λ answer.
        Leaves (λ p q. IsPolledAs answer p now q) (stored_of client.old) (stored_of client.new)) }
{
    match client.poll(now) {
        TurnPollRet::WaitUntil(time) => Ok(Answer::Wait(time)),
        TurnPollRet::AllocateTcpSocket {
            id,
            socket,
            peer_addr,
        } => Ok(Answer::Socket {
            id,
            socket,
            peer: peer_addr,
        }),
        TurnPollRet::TcpClose {
            local_addr,
            remote_addr,
        } => Ok(Answer::Close {
            local: local_addr,
            remote: remote_addr,
        }),
        TurnPollRet::Closed => Ok(Answer::Closed),
        TurnPollRet::NoMemory => Err(NoMemory),
    }
}

/// Calls `poll_event`, which removes the oldest queued event.
fn poll_event(client: &mut TurnClient) -> Answer
    ensures { Leaves (IsEventReported result) (stored_of client.old) (stored_of client.new) }
{
    match client.poll_event() {
        Some(event) => Answer::Event(event),
        None => Answer::Nothing,
    }
}

/// Calls `delete`.
fn delete(client: &mut TurnClient, now: Instant) -> Result<Answer, NoMemory>
    ensures { IfOk result (λ answer.
        Leaves (λ p q. IsDeleteReported answer p now q) (stored_of client.old) (stored_of
        client.new)) }
{
    match client.delete(now) {
        Ok(()) => Ok(Answer::Done),
        Err(DeleteError::NoMemory) => Err(NoMemory),
        Err(error) => Ok(Answer::Refused(Refusal::Delete(error))),
    }
}

/// Calls `create_permission`.
fn create_permission(
    client: &mut TurnClient,
    transport: TransportType,
    ip: IpAddr,
    now: Instant,
) -> Result<Answer, NoMemory>
    ensures { IfOk result (λ answer.
        Leaves (λ p q. IsPermissionReported answer transport ip p now q)
        (stored_of client.old) (stored_of client.new)) }
{
    match client.create_permission(transport, ip, now) {
        Ok(()) => Ok(Answer::Done),
        Err(CreatePermissionError::NoMemory) => Err(NoMemory),
        Err(error) => Ok(Answer::Refused(Refusal::CreatePermission(error))),
    }
}

/// Calls `create_permissions`.
fn create_permissions(
    client: &mut TurnClient,
    transport: TransportType,
    ips: &[IpAddr],
    now: Instant,
) -> Result<Answer, NoMemory>
    ensures { IfOk result (λ answer.
        Leaves (λ p q. ArePermissionsAnsweredAs answer transport ips.now p now q)
        (stored_of client.old) (stored_of client.new)) }
{
    match client.create_permissions(transport, ips, now) {
        Ok(()) => Ok(Answer::Done),
        Err(CreatePermissionsError::Refused(CreatePermissionError::NoMemory)) => Err(NoMemory),
        Err(error) => Ok(Answer::Refused(Refusal::CreatePermissions(error))),
    }
}

/// Returns the addresses of the permissions that the client lists.
fn permissions(
    alloc: Global,
    client: &TurnClient,
    transport: TransportType,
    relayed: SocketAddr,
) -> Result<Answer, NoMemory>
    ensures { IfOk result (λ answer. ArePermissionsReported answer transport relayed
        (stored_of client.now).core (stored_of client.now).core) }
{
    let mut list = Vec::new(alloc);
    for ip in client.permissions(transport, relayed) {
        list.push(ip)?;
    }
    Ok(Answer::Permissions(list))
}

/// Calls `bind_channel`.
fn bind_channel(
    client: &mut TurnClient,
    transport: TransportType,
    peer: SocketAddr,
    now: Instant,
) -> Result<Answer, NoMemory>
    ensures { IfOk result (λ answer.
        Leaves (λ p q. IsBindReported answer transport peer p now q)
        (stored_of client.old) (stored_of client.new)) }
{
    match client.bind_channel(transport, peer, now) {
        Ok(()) => Ok(Answer::Done),
        Err(BindChannelError::NoMemory) => Err(NoMemory),
        Err(error) => Ok(Answer::Refused(Refusal::BindChannel(error))),
    }
}

/// Calls `tcp_connect`.
fn tcp_connect(client: &mut TurnClient, peer: SocketAddr, now: Instant) -> Result<Answer, NoMemory>
    ensures { IfOk result (λ answer. Leaves (λ p q. IsConnectReported answer peer p now q)
        (stored_of client.old) (stored_of client.new)) }
{
    match client.tcp_connect(peer, now) {
        Ok(()) => Ok(Answer::Done),
        Err(TcpConnectError::NoMemory) => Err(NoMemory),
        Err(error) => Ok(Answer::Refused(Refusal::TcpConnect(error))),
    }
}

/// Calls `allocated_tcp_socket` with the five-tuple of the client's own connection.
fn allocated_tcp_socket(
    client: &mut TurnClient,
    id: u32,
    peer: SocketAddr,
    local: Option<SocketAddr>,
    now: Instant,
) -> Result<Answer, NoMemory>
    ensures { IfOk result (λ answer. IsSocketTaken answer id peer local (stored_of client.old) now
        (stored_of client.new)) }
{
    let own = Socket5Tuple {
        transport: client.transport(),
        from: client.local_addr(),
        to: client.remote_addr(),
    };
    match client.allocated_tcp_socket(id, own, peer, local, now) {
        Ok(()) => Ok(Answer::Done),
        Err(TcpAllocateError::NoMemory) => Err(NoMemory),
        Err(error) => Ok(Answer::Refused(Refusal::TcpAllocate(error))),
    }
}

/// Calls `tcp_closed`.
fn tcp_closed(
    client: &mut TurnClient,
    local: SocketAddr,
    remote: SocketAddr,
    now: Instant,
) -> Result<Answer, NoMemory>
    ensures { IfOk result (λ answer. Leaves (IsClosedReported answer local remote)
        (stored_of client.old) (stored_of client.new)) }
{
    client.tcp_closed(local, remote, now)?;
    Ok(Answer::Done)
}

/// Returns the data connections that the client lists.
fn connections(alloc: Global, client: &TurnClient) -> Result<Answer, NoMemory>
    ensures { IfOk result (λ answer.
        AreConnectionsReported answer (stored_of client.now).core (stored_of client.now).core) }
{
    let mut list = Vec::new(alloc);
    for connection in client.connections() {
        list.push(connection)?;
    }
    Ok(Answer::Connections(list))
}

/// Returns the channels that the client lists.
fn channels(alloc: Global, client: &TurnClient) -> Result<Answer, NoMemory>
    ensures { IfOk result (λ answer.
        AreChannelsReported answer (stored_of client.now).core (stored_of client.now).core) }
{
    let mut list = Vec::new(alloc);
    for channel in client.channels() {
        list.push(channel)?;
    }
    Ok(Answer::Channels(list))
}

/// Calls `send_to`, and builds the transmit that it returns.
fn send_to(
    alloc: Global,
    client: &mut TurnClient,
    transport: TransportType,
    peer: SocketAddr,
    bytes: &[u8],
    now: Instant,
) -> Result<Answer, NoMemory>
    ensures { IfOk result (λ answer.
        Leaves (λ p q. IsSendReported answer transport peer bytes.now p now q)
        (stored_of client.old) (stored_of client.new)) }
{
    match client.send_to(transport, peer, bytes, now) {
        Ok(Some(sent)) => {
            let sent = sent.build(alloc)?;
            let bytes = Data::Owned(DataOwned::from(sent.bytes.into_boxed_slice()));
            Ok(Answer::Transmit(Transmit::new(bytes, sent.transport, sent.from, sent.to)))
        }
        // A call that succeeds always returns a transmit.
        Ok(None) => unreachable!(),
        Err(SendError::NoMemory) => Err(NoMemory),
        Err(error) => Ok(Answer::Refused(Refusal::Send(error))),
    }
}

/// Calls `poll_recv`, which returns buffered bytes of a connection's peer, or else a payload from
/// the client's own stream.
fn poll_recv(client: &mut TurnClient, now: Instant) -> Result<Answer, NoMemory>
    ensures { IfOk result (λ answer.
        IsWaitingReported answer (stored_of client.old) now (stored_of client.new)) }
{
    match client.poll_recv(now) {
        Ok(Some(given)) => Ok(Answer::Peer(given)),
        Ok(None) => Ok(Answer::Nothing),
        Err(error) => Err(error),
    }
}

/// Returns the relayed addresses that the client lists.
fn relayed(alloc: Global, client: &TurnClient) -> Result<Answer, NoMemory>
    ensures { IfOk result (λ answer.
        IsRelayedReported answer (stored_of client.now).core (stored_of client.now).core) }
{
    let mut list = Vec::new(alloc);
    for relayed in client.relayed_addresses() {
        list.push(relayed)?;
    }
    Ok(Answer::Relayed(list))
}

/// Calls `poll_transmit`.
#[tactic(auto, unfolding(crate::specs::Calls::IsTransmittedAs))]
fn draw(client: &mut TurnClient, now: Instant) -> Result<Answer, NoMemory>
    ensures { IfOk result (λ answer.
        Leaves (λ p q. IsTransmittedAs answer p now q) (stored_of client.old) (stored_of
        client.new)) }
{
    match client.poll_transmit(now) {
        Ok(Some(transmit)) => Ok(Answer::Transmit(transmit)),
        Ok(None) => Ok(Answer::Nothing),
        Err(error) => Err(error),
    }
}

/// Passes bytes to the client on its own transport. Over TCP they can belong to any of its sockets.
fn feed(
    alloc: Global,
    client: &mut TurnClient,
    bytes: &[u8],
    from: SocketAddr,
    to: SocketAddr,
    now: Instant,
) -> Result<Answer, NoMemory>
    ensures { IfOk result (λ answer. IsFed answer (stored_of client.old) bytes.now from to now
        (stored_of client.new)) }
{
    proof_are_bytes(bytes);
    let transmit = Transmit::new(bytes, client.transport(), from, to);
    match client.recv(transmit, now) {
        TurnRecvRet::Handled => Ok(Answer::Handled),
        TurnRecvRet::Ignored(_) => Ok(Answer::Ignored),
        TurnRecvRet::PeerData(data) => match data.into_owned(alloc) {
            Ok(owned) => Ok(Answer::Peer(owned)),
            Err(error) => Err(error),
        },
        TurnRecvRet::PeerIcmp {
            transport,
            peer,
            icmp_type,
            icmp_code,
            icmp_data,
        } => Ok(Answer::Icmp {
            transport,
            peer,
            icmp_type,
            icmp_code,
            icmp_data,
        }),
        TurnRecvRet::NoMemory(_) => Err(NoMemory),
    }
}

/// Returns whether a time is in range for a client: at most `CLIENT_END`.
fn is_in_range(now: Instant) -> bool
    ensures { result ≡ is_in_range now }
{
    now.as_nanos() <= CLIENT_END
}

/// Makes a call of the client at this time, or returns `OutOfRange` if the time is out of range.
#[tactic(auto, unfolding(crate::specs::Runs::IsInRange))]
fn call_in_range(
    alloc: Global,
    client: &mut TurnClient,
    what: &ClientCall,
    now: Instant,
) -> Result<Answer, NoMemory>
    ensures { IfOk result (λ answer.
        IsInRange now (λ p q. IsCallReported what.now answer p now q)
        (stored_of client.old) answer (stored_of client.new)) }
{
    if !is_in_range(now) {
        return Ok(Answer::OutOfRange);
    }
    call(alloc, client, what, now)
}

/// Calls `poll_transmit`, or returns `OutOfRange` if the time is out of range.
#[tactic(auto, unfolding(crate::specs::Runs::IsInRange))]
fn draw_in_range(client: &mut TurnClient, now: Instant) -> Result<Answer, NoMemory>
    ensures { IfOk result (λ answer.
        IsInRange now (Leaves (λ p q. IsTransmittedAs answer p now q))
        (stored_of client.old) answer (stored_of client.new)) }
{
    if !is_in_range(now) {
        return Ok(Answer::OutOfRange);
    }
    draw(client, now)
}

/// Passes bytes to the client, or returns `OutOfRange` if the time is out of range.
#[tactic(auto, unfolding(crate::specs::Runs::IsInRange))]
fn feed_in_range(
    alloc: Global,
    client: &mut TurnClient,
    bytes: &[u8],
    from: SocketAddr,
    to: SocketAddr,
    now: Instant,
) -> Result<Answer, NoMemory>
    ensures { IfOk result (λ answer.
        IsInRange now (λ p q. IsFed answer p bytes.now from to now q)
        (stored_of client.old) answer (stored_of client.new)) }
{
    if !is_in_range(now) {
        return Ok(Answer::OutOfRange);
    }
    feed(alloc, client, bytes, from, to, now)
}

/// A client, if there is one. Contracts see its state.
#[derive(Debug, Drop)]
pub(crate) struct Driven {
    pub(crate) alloc: Global,
    pub(crate) client: Option<TurnClient>,
}

impl Model for Driven {
    ghost use Rattle.std.specs.Option.{option_map};
    ghost use Rattle.std.specs.Prelude.{Option};
    ghost use Rattle.turn_client_proto.specs.Clients.{stored_of};
    ghost use Rattle.turn_client_proto.specs.Recv.ClientState.{ClientState};
    ghost use Rattle.turn_desk_world.specs.Model.{driven_code};

    ghost Value = { Option ClientState };

    ghost coded = { driven_code };

    ghost view = { λ d. option_map stored_of d.client };
}

impl Driven {
    /// Makes a call of the client at this time. Returns `OutOfRange` if there is no client, or the
    /// time is out of range.
    #[tactic(auto, unfolding(crate::specs::Runs::IsAtClient))]
    pub(crate) fn call(&mut self, what: &ClientCall, now: Instant) -> Result<Answer, NoMemory>
        ensures { IfOk result (λ answer.
            IsAtClient now (λ p q. IsCallReported what.now answer p now q)
            self.old answer self.new) }
    {
        let Some(client) = &mut self.client else {
            return Ok(Answer::OutOfRange);
        };
        call_in_range(self.alloc, client, what, now)
    }

    /// Calls `poll_transmit`. Returns `OutOfRange` if there is no client, or the time is out of
    /// range.
    #[tactic(auto, unfolding(crate::specs::Runs::IsAtClient))]
    pub(crate) fn draw(&mut self, now: Instant) -> Result<Answer, NoMemory>
        ensures { IfOk result (λ answer.
            IsAtClient now (Leaves (λ p q. IsTransmittedAs answer p now q))
            self.old answer self.new) }
    {
        let Some(client) = &mut self.client else {
            return Ok(Answer::OutOfRange);
        };
        draw_in_range(client, now)
    }

    /// Passes bytes to the client. Returns `OutOfRange` if there is no client, or the time is out
    /// of range.
    #[tactic(auto, unfolding(crate::specs::Runs::IsAtClient))]
    pub(crate) fn feed(
        &mut self,
        bytes: &[u8],
        from: SocketAddr,
        to: SocketAddr,
        now: Instant,
    ) -> Result<Answer, NoMemory>
        ensures { IfOk result (λ answer.
            IsAtClient now (λ p q. IsFed answer p bytes.now from to now q)
            self.old answer self.new) }
    {
        let Some(client) = &mut self.client else {
            return Ok(Answer::OutOfRange);
        };
        feed_in_range(self.alloc, client, bytes, from, to, now)
    }
}

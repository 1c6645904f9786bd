//! The trait of a TURN client's calls, and the types of their parameters and results: settings,
//! events, errors, and what is sent and received.

ghost use Rattle.std.specs.Prelude.{◌≡◌, ◌≢◌, ◌≤◌, ◌<◌, ◌^◌, ◌++◌, [], length, true, IfNone, IfOk, MatchResult, OnErr, OnOk, option_to_list};
ghost use Rattle.std.specs.Option.{option_copied, option_map};
ghost use Rattle.turn_client_proto_allocation.specs.StunTypesWire.Registry.{longest_username};
ghost use Rattle.turn_client_proto_core.specs.Speaking.{with_fingerprint, with_next_credentials, with_software};
ghost use Rattle.turn_client_proto_recv.specs.Closing.{after_close, is_joined};
ghost use Rattle.turn_client_proto_recv.specs.Connecting.{IsConnectAnswered};
ghost use Rattle.turn_client_proto_core.specs.Binding.{IsBindAnswered};
ghost use Rattle.turn_client_proto_core.specs.Deleting.{IsDeleteAnswered};
ghost use Rattle.turn_client_proto_timers.specs.Drawing.{HasToSend, IsTransmitted};
ghost use Rattle.turn_client_proto_api.specs.Sent.{sent_of};
ghost use Rattle.turn_client_proto_core.specs.Ending.{HasFailed, ended};
ghost use Rattle.turn_client_proto_core.specs.Permitting.{ArePermissionsAnswered, IsPermissionAnswered};
ghost use Rattle.turn_client_proto_timers.specs.Polling.{IsPolled};
ghost use Rattle.turn_client_proto_payload.specs.Sending.{IsSendAnswered, answered_as};
ghost use Rattle.turn_client_proto.specs.Getters.{channels_of, connections_of, has_permission, permissions_of, relayed_of};
ghost use Rattle.turn_client_proto.specs.Notes.{IsPollNoted, after_report, expired_after, held_of};
ghost use Rattle.turn_client_proto_api.specs.Causes.{cause_taken};
ghost use Rattle.turn_client_proto_api.specs.Expired.{first_of};
ghost use Rattle.turn_client_proto_api.specs.declared.cause.TurnCause.TheVariants.{SocketClosed};
ghost use Rattle.turn_client_proto_recv.specs.ClientState.{ClientState, Leaves};
ghost use Rattle.turn_client_proto_recv.specs.Notes.{AreNoted, IsCallNoted, after_deletion, after_event};
ghost use Rattle.turn_client_proto_recv.specs.Receipts.{IsReceived, IsWaitingGiven, IsWaitingLost};
ghost use Rattle.turn_client_proto_recv.specs.declared.notes.Notes.{Notes};
ghost use Rattle.turn_client_proto.specs.SocketsReported.{IsSocketReported};

pub use crate::getters::{
    ChannelsIter, ConnectionsIter, PermissionAddressesIter, RelayedAddressesIter,
};
use std::convert::AsSlice;
use std::fmt::Debug;
use std::net::{IpAddr, SocketAddr};
pub use stun_types_auth_attributes::software::Software;
pub use stun_types_base::data::Data;
use stun_types_base::instant::Instant;
use stun_types_base::memory::NoMemory;
pub use stun_types_base::transmit::Transmit;
use stun_types_base::transport::TransportType;
pub use turn_client_proto_api::answer::{Socket5Tuple, TurnPollRet, TurnRecvRet};
pub use turn_client_proto_api::cause::{MessageText, TurnCause};
pub use turn_client_proto_api::config::TurnConfig;
pub use turn_client_proto_api::data::{DataRangeOrOwned, TurnPeerData};
pub use turn_client_proto_api::error::{
    BindChannelError, CreatePermissionError, CreatePermissionsError, DeleteError, SendError,
    TcpAllocateError, TcpConnectError,
};
pub use turn_client_proto_api::event::TurnEvent;
pub use turn_client_proto_api::expired::AllocationExpired;
pub use turn_client_proto_api::send::{DelayedMessageOrChannelSend, DelayedTransmit};
pub use turn_types_attributes::credentials::TurnCredentials;
pub use turn_types_frame::build::TransmitBuild;

/// The latest time that may be passed to a client's calls: 2^62 nanoseconds after `Instant::ZERO`,
/// some 146 years.
pub const CLIENT_END: u64 = 1 << 62;

/// The calls of a TURN client (RFC 8656), over any transport.
///
/// The client performs no input or output. The caller sends what `poll_transmit` returns, passes
/// received bytes to `recv`, waits as `poll` says, and takes events from `poll_event`. Every time
/// that is passed to a call comes from one clock that never goes back, and is at most `CLIENT_END`.
///
/// # The calls
///
/// | purpose | calls |
/// |---|---|
/// | exchange bytes | `recv`, `poll_recv`, `poll_transmit`, `send_to` |
/// | time and events | `poll`, `poll_event`, `poll_expired` |
/// | request something from the server | `create_permission`, `create_permissions`, `bind_channel`, `tcp_connect`, `delete` |
/// | report what the caller did | `allocated_tcp_socket`, `tcp_closed`, `protocol_error` |
/// | change what requests carry | `set_credentials`, `set_software`, `set_fingerprint` |
/// | read the client's state, without changing it | `relayed_addresses`, `permissions`, `have_permission`, `channels`, `connections`, `transport`, `local_addr`, `remote_addr` |
///
/// # What to call next
///
/// | after | call |
/// |---|---|
/// | creating the client | `poll_transmit`, which returns the first request |
/// | `recv` | over TCP, `poll_recv` until it returns `None`; then as when a wait is over |
/// | a call that requests or reports something | `poll`, because the wait may have become shorter |
/// | a wait of `poll` is over | `poll_transmit` until it returns `None`, `poll`, then `poll_event` until it returns `None` |
/// | `poll_transmit`, `send_to` | send the bytes, over the transport and between the addresses that are returned with them |
///
/// # What `poll` returns
///
/// | result | what the caller does |
/// |---|---|
/// | `WaitUntil`, a time that has come | goes on as when a wait is over |
/// | `WaitUntil`, a later time | waits until then, until bytes arrive, or until it makes another call |
/// | `AllocateTcpSocket` | opens a connection to the server, reports it with `allocated_tcp_socket`, and calls `poll` again; each socket is requested once |
/// | `TcpClose` | closes that socket, and calls `poll` again; each is reported once |
/// | `Closed` | takes the queued events, and nothing more: the client has ended, or has no allocation left |
/// | `NoMemory` | the same as for `Closed`: the client has failed, and holds nothing any more |
///
/// # Data of peers
///
/// `send_to` returns what carries bytes to a peer. `recv` returns the bytes that arrive from peers.
///
/// Over TCP the server's bytes arrive as a stream, in chunks of any size. `recv` returns the result
/// of the first frame that a chunk completes, and `poll_recv` the results of the others.
///
/// # Connections to peers (RFC 6062)
///
/// Over TCP a client can request connections to peers:
///
/// 1. `tcp_connect` requests a connection.
/// 2. `poll` requests a socket for it by `AllocateTcpSocket`.
/// 3. `allocated_tcp_socket` reports the socket, over which the client then requests that the
///    connection be bound.
/// 4. `recv` takes what arrives over the socket, as a chunk that arrived at the socket's own
///    address.
/// 5. The event `TcpConnected` reports that the connection is bound. From then on the bytes that
///    arrive over the socket are the peer's, unchanged, and `send_to` sends bytes to the peer over
///    it.
///
/// If the connection is not bound within 39.5 seconds, `poll` gives it up.
///
/// # What may surprise a caller
///
/// - An allocation that expires is removed without an event: look at `relayed_addresses`, or call
///   `poll_expired`.
/// - If a REFRESH is granted less than 600 seconds, the allocation keeps its earlier end, no
///   further REFRESH is sent, and the allocation expires then; unless the settings say otherwise
///   (`TurnConfig::set_short_lifetimes`).
/// - A client doesn't follow a response 300: `alternate_server` has the server that it names.
/// - New requests are sent at least 50 ms apart (`TurnConfig::set_pace`). Retransmissions are sent
///   without that pause.
/// - A client that `protocol_error` has ended still lists what it held.
pub trait TurnClientApi: Debug + Send {
    ghost stored: { Self → ClientState };

    ghost noted: { Self → Notes };

    /// Returns the transport of the connection to the server.
    fn transport(&self) -> TransportType
        ensures { result ≡ (stored self.now).core.agent.transport };

    /// Returns the client's own address.
    fn local_addr(&self) -> SocketAddr
        ensures { result ≡ (stored self.now).core.agent.here };

    /// Returns the server's address.
    fn remote_addr(&self) -> SocketAddr
        ensures { result ≡ (stored self.now).core.server };

    /// Returns the relayed addresses that the server has allocated, each with the transport between
    /// the server and the peers, in the order in which they were granted. Allocations that are
    /// marked as expired are left out. Needs no memory.
    fn relayed_addresses(&self) -> RelayedAddressesIter<'_>
        ensures value { result ≡ relayed_of (stored self.now).core }
        ensures few { length result < 2 ^ 64 };

    /// Requests the end of all allocations (RFC 8656, section 8.1). Each is marked as expired at
    /// once, and then has no permissions and no channels. No event reports that they have ended.
    ///
    /// What fails or ends afterwards, whether a response rejects it or none comes, has the cause
    /// `Deleted`; but by `protocol_error` it has `SocketClosed`.
    ///
    /// # Errors
    ///
    /// - `NoAllocation`: the server has allocated nothing, or the client has ended. Nothing has
    ///   changed.
    /// - `NoMemory`: an allocation failed. Nothing has changed, except that the generator of
    ///   transaction IDs has advanced.
    fn delete(&mut self, now: Instant) -> Result<(), DeleteError>
        ensures deleted { Leaves (λ old new. IsDeleteAnswered old now result new)
            (stored self.old) (stored self.new) }
        ensures noted { MatchResult result (λ _. noted self.new ≡ after_deletion (noted self.old))
            (λ _. noted self.new ≡ noted self.old) };

    /// Requests a permission for a peer's IP address (RFC 8656, section 10.1), in the first
    /// allocation of this transport whose relayed address is of the same family.
    ///
    /// The permission is valid for 300 seconds once the server has granted it. The client renews it
    /// a minute before it expires.
    ///
    /// # Errors
    ///
    /// In this order:
    ///
    /// 1. `NoAllocation`: there is no such allocation, or it has expired. An expired one is marked
    ///    as expired.
    /// 2. `AlreadyExists`: the allocation has a permission for the address, or one was requested.
    /// 3. `NoAllocation`: the client has ended.
    /// 4. `NoMemory`: an allocation failed.
    ///
    /// Otherwise nothing has changed, except that after `NoMemory` the generator of transaction IDs
    /// has advanced.
    fn create_permission(
        &mut self,
        transport: TransportType,
        peer_addr: IpAddr,
        now: Instant,
    ) -> Result<(), CreatePermissionError>
        ensures permitted { Leaves (λ old new. IsPermissionAnswered old transport peer_addr now result new)
            (stored self.old) (stored self.new) }
        ensures noted { noted self.new ≡ noted self.old };

    /// Requests permissions for several IP addresses by one CREATE_PERMISSION (RFC 8656, section
    /// 10.1), in the first allocation of this transport whose relayed address is of their family.
    ///
    /// - The request names each address once, in the order of their first places.
    /// - The server grants all of them or none. Each gets an event of its own, of `recv` or `poll`,
    ///   in that order: `PermissionCreated` or `PermissionCreateFailed`.
    /// - Each granted permission is valid for 300 seconds, and renewed by a request of its own, as
    ///   one of `create_permission` is.
    ///
    /// # Errors
    ///
    /// In this order:
    ///
    /// 1. `InvalidAddresses`: there is no address, there are more than 32, or they are of two
    ///    families.
    /// 2. `Refused(NoAllocation)`: there is no such allocation, or it has expired. An expired one
    ///    is marked as expired.
    /// 3. `Refused(AlreadyExists)`: the allocation has a permission for one of the addresses, or
    ///    one was requested. Nothing is requested for the others either.
    /// 4. `Refused(NoAllocation)`: the client has ended.
    /// 5. `Refused(NoMemory)`: an allocation failed.
    ///
    /// Otherwise nothing has changed, except that after `NoMemory` the generator of transaction IDs
    /// has advanced.
    fn create_permissions(
        &mut self,
        transport: TransportType,
        peer_addrs: &[IpAddr],
        now: Instant,
    ) -> Result<(), CreatePermissionsError>
        ensures permitted { Leaves (λ old new.
            ArePermissionsAnswered old transport peer_addrs.now now result new)
            (stored self.old) (stored self.new) }
        ensures noted { noted self.new ≡ noted self.old };

    /// Returns whether there is a permission for this IP address in an allocation of this transport
    /// that is not marked as expired. A permission that has expired counts until `poll` removes it.
    fn have_permission(&self, transport: TransportType, to: IpAddr) -> bool
        ensures { result ≡ has_permission transport to (stored self.now).core };

    /// Returns the IP addresses that have a permission in the allocation of this transport and
    /// relayed address, in the order in which they were granted. Returns none if there is no such
    /// allocation, or it is marked as expired. Needs no memory.
    fn permissions(
        &self,
        transport: TransportType,
        relayed: SocketAddr,
    ) -> PermissionAddressesIter<'_>
        ensures value { result ≡ permissions_of transport relayed (stored self.now).core }
        ensures few { length result < 2 ^ 64 };

    /// Requests a channel to a peer (RFC 8656, section 12.1), in the first allocation of this
    /// transport whose relayed address is of the peer's family.
    ///
    /// - The channel gets the least free number from 0x4000 to 0x7FFF.
    /// - A permission for the peer's address is requested too, unless there is one or one was
    ///   requested.
    /// - The channel is valid for 600 seconds once the server has granted it. The client renews it
    ///   a minute before it expires.
    /// - After it has expired, neither its number nor its peer is bound again for 300 seconds.
    /// - The request names the peer's IP address and port only. The client stores the flow
    ///   information and the scope of an IPv6 address, and does not send them to the server.
    ///
    /// # Errors
    ///
    /// In this order:
    ///
    /// 1. `NoAllocation`: there is no such allocation, or it has expired. An expired one is marked
    ///    as expired.
    /// 2. `AlreadyExists`: the allocation has a channel to the peer. A channel that was only
    ///    requested does not count: then the peer gets another number.
    /// 3. `ExpiredChannelExists`: a channel to the peer expired in the allocation. The peer is
    ///    refused up to and including the time in the error.
    /// 4. `NoAllocation`: the client has ended.
    /// 5. `NoChannel`: no channel number is free.
    /// 6. `NoMemory`: an allocation failed.
    ///
    /// Otherwise nothing has changed, except that after `NoMemory` the generator of transaction IDs
    /// has advanced.
    fn bind_channel(
        &mut self,
        transport: TransportType,
        peer_addr: SocketAddr,
        now: Instant,
    ) -> Result<(), BindChannelError>
        ensures bound { Leaves (λ old new. IsBindAnswered old transport peer_addr now result new)
            (stored self.old) (stored self.new) }
        ensures noted { noted self.new ≡ noted self.old };

    /// Returns the numbers and the peers of the channels that are bound, in the order in which they
    /// were granted, one allocation after another. Allocations that are marked as expired are left
    /// out. Needs no memory.
    fn channels(&self) -> ChannelsIter<'_>
        ensures value { result ≡ channels_of (stored self.now).core }
        ensures few { length result < 2 ^ 64 };

    /// Requests a TCP connection to a peer (RFC 6062, section 4.3), in the first allocation over
    /// TCP whose relayed address is of the peer's family.
    ///
    /// If the server connects, `poll` requests a socket by `AllocateTcpSocket`. If it does not, the
    /// event `TcpConnectFailed` reports that. The request names the peer's IP address and port
    /// only, as that of `bind_channel` does.
    ///
    /// # Errors
    ///
    /// In this order:
    ///
    /// 1. `NoAllocation`: there is no such allocation, or it has expired. An expired one is marked
    ///    as expired.
    /// 2. `NoAllocation`: the client has ended.
    /// 3. `NoPermission`: the allocation has no permission for the peer's address.
    /// 4. `AlreadyExists`: the allocation has a connection to the peer, waits for the socket of
    ///    one, or has requested one.
    /// 5. `NoMemory`: an allocation failed.
    ///
    /// Otherwise nothing has changed, except that after `NoMemory` the generator of transaction IDs
    /// has advanced.
    fn tcp_connect(&mut self, peer_addr: SocketAddr, now: Instant) -> Result<(), TcpConnectError>
        ensures connected { Leaves (λ old new. IsConnectAnswered old peer_addr now result new)
            (stored self.old) (stored self.new) }
        ensures noted { noted self.new ≡ noted self.old };

    /// Reports the socket that was opened for a connection to a peer, or that none was (RFC 6062,
    /// section 4.3). Call it after `poll` has returned `AllocateTcpSocket`.
    ///
    /// # Parameters
    ///
    /// - `id`: the connection's ID, from `AllocateTcpSocket`.
    /// - `five_tuple`: the client's own connection to the server, as `AllocateTcpSocket` has it.
    /// - `peer_addr`: the peer, from `AllocateTcpSocket`.
    /// - `local_addr`: the new socket's own address, or `None` if no socket was opened.
    ///
    /// # What follows
    ///
    /// - With a socket, the client requests over it that the connection be bound. The server may
    ///   respond within 39.5 seconds.
    /// - Without a socket, the connection is forgotten.
    /// - If a CONNECTION_ATTEMPT request of the server announced the connection (section 4.4), the
    ///   client first responds to it: with a success, or without a socket with error 447, Connection
    ///   Timeout or Failure.
    /// - A socket with the own address of the client's connection to the server is accepted. What
    ///   arrives there then no longer belongs to that connection.
    ///
    /// # Errors
    ///
    /// In this order:
    ///
    /// 1. `NoAllocation`: no connection with this ID and to this peer waits for its socket; or the
    ///    client has not allocated over TCP or has ended, or `five_tuple` is not its own.
    /// 2. `AlreadyExists`: another data connection has this own address.
    /// 3. `NoMemory`: an allocation failed. Without a socket this happens only if a response to the
    ///    server has to be queued.
    ///
    /// Nothing has changed, except that after `NoMemory` with a socket the generator of transaction
    /// IDs has advanced.
    fn allocated_tcp_socket(
        &mut self,
        id: u32,
        five_tuple: Socket5Tuple,
        peer_addr: SocketAddr,
        local_addr: Option<SocketAddr>,
        now: Instant,
    ) -> Result<(), TcpAllocateError>
        ensures reported { IsSocketReported (stored self.old) id five_tuple peer_addr local_addr now result
            (stored self.new) }
        ensures noted { noted self.new ≡ noted self.old };

    /// Reports that the socket of a data connection was closed, by its own address and the
    /// server's.
    ///
    /// - The connection is removed, bound or not, without an event. `poll` then returns `TcpClose`
    ///   for this socket, before any other.
    /// - The socket of no connection changes nothing. Neither does that of the client's own
    ///   connection to the server.
    ///
    /// # Errors
    ///
    /// - `NoMemory`: an allocation failed, which can happen only if a connection is to be removed.
    ///   Nothing has changed.
    fn tcp_closed(
        &mut self,
        local_addr: SocketAddr,
        remote_addr: SocketAddr,
        now: Instant,
    ) -> Result<(), NoMemory>
        ensures ok { OnOk result (Leaves (λ old new. new ≡ after_close local_addr remote_addr old)
            (stored self.old) (stored self.new)) }
        ensures err { OnErr result (stored self.new ≡ stored self.old) }
        ensures memory { OnErr result
            (is_joined local_addr remote_addr (stored self.old).core ≡ true) }
        ensures noted { noted self.new ≡ noted self.old };

    /// Returns the data connections that have a socket, one allocation after another, in the order
    /// in which their sockets were reported. Each has its own address, its peer's, the ID by which
    /// the server knows it, and whether it is bound. Allocations that are marked as expired are
    /// left out. Needs no memory.
    fn connections(&self) -> ConnectionsIter<'_>
        ensures value { result ≡ connections_of (stored self.now).core }
        ensures few { length result < 2 ^ 64 };

    /// Returns what carries bytes to a peer, over the allocations of this transport. A successful
    /// result is `Some`. Its bytes are not written yet: the caller writes them by `build` or
    /// `write_into` when it sends them.
    ///
    /// - Over UDP: a frame of the first channel to the peer (RFC 8656, section 12.5), if that
    ///   channel has not expired. Otherwise a SEND indication (section 11.1), for which a
    ///   transaction ID is generated.
    /// - Over TCP: the bytes unchanged, on the first connection that is bound to the peer (RFC
    ///   6062, section 4.5).
    ///
    /// It does not check whether the client has ended.
    ///
    /// # Errors
    ///
    /// In this order:
    ///
    /// 1. `NoPermission`: `have_permission` is false, that is, no allocation of the transport that
    ///    is not marked as expired has a permission for the peer's address. Nothing has changed.
    /// 2. Over TCP, `NoTcpSocket`: no connection is bound to the peer. Nothing has changed.
    /// 3. Over UDP, `TooLarge`: there are more than `MAX_PAYLOAD` bytes, 65,504. Nothing has
    ///    changed.
    /// 4. `NoMemory`: all 2^96 transaction IDs are taken. This call allocates no memory.
    fn send_to<T: AsSlice<u8> + Debug + Drop>(
        &mut self,
        transport: TransportType,
        to: SocketAddr,
        data: T,
        now: Instant,
    ) -> Result<Option<TransmitBuild<DelayedMessageOrChannelSend<T>>>, SendError>
        ensures sent { Leaves (λ old new.
            IsSendAnswered old transport to (T.items «data») now (answered_as T.items result) new)
            (stored self.old) (stored self.new) }
        ensures noted { noted self.new ≡ noted self.old };

    /// Returns the next buffered data of a peer that arrived over TCP, or `None`. Over UDP there is
    /// no stream, and it returns `None`.
    ///
    /// 1. Bytes of a bound connection's peer that arrived with the response that bound it. They are
    ///    taken from the first connection that has some, in the order of `connections`.
    /// 2. The data of the stream's frames. Complete frames are handled in order until one carries
    ///    data. What is neither a message nor a channel frame is skipped, and so is an ICMP report.
    /// 3. `None`, if no complete frame is left, or the client has failed.
    ///
    /// # Errors
    ///
    /// - `NoMemory`: an allocation failed, and the client has failed. Memory is needed for a
    ///   message that makes the client store something, and for the data of a frame that is
    ///   returned; never for the buffered bytes of a connection.
    fn poll_recv(&mut self, now: Instant) -> Result<Option<TurnPeerData<Vec<u8>>>, NoMemory>
        ensures ok { IfOk result (λ given.
            IsWaitingGiven (stored self.old) now given (stored self.new)) }
        ensures err { OnErr result (IsWaitingLost (stored self.old) now (stored self.new)) }
        ensures noted { AreNoted now (stored self.old).core (noted self.old)
            (stored self.new).core (noted self.new) };

    /// Handles received bytes: over UDP a datagram; over TCP a chunk of the stream, or of what
    /// arrived over the socket of a connection to a peer.
    ///
    /// # What is ignored
    ///
    /// The bytes are returned as `Ignored` in these cases:
    ///
    /// - They did not come from the server, over the client's transport, to the client's own
    ///   address or that of a connection's socket.
    /// - A datagram is neither a message nor a channel frame.
    /// - A datagram is not for the client.
    ///
    /// A message that is `Ignored` adds nothing to the client's allocations, permissions, channels
    /// and connections. But an unsolicited challenge may be stored. The next request is then signed
    /// for its realm and with its nonce, and carries the user's name as the challenge requests it
    /// (RFC 8489, section 9.2.5): in clear, even if USERHASH was sent before.
    ///
    /// # Data of peers
    ///
    /// Data is returned by its position in the received bytes: nothing is copied, and nothing
    /// changes. (For TCP see below.)
    ///
    /// - A channel frame gives its data as `PeerData`, in every state of the client, if and only if
    ///   a channel of its number is bound. What follows the data is not examined (RFC 8656, section
    ///   12.6).
    /// - A DATA indication gives the value of its last DATA as `PeerData`; without a DATA it gives
    ///   the report of its last ICMP as `PeerIcmp` (sections 11.4 and 11.6). It does so if and only
    ///   if the server has allocated and the client has not ended; no visible attribute other than
    ///   XOR-PEER-ADDRESS, DATA and ICMP is of a type that has to be understood; the last
    ///   XOR-PEER-ADDRESS is well formed; and there is a permission for that address.
    ///
    /// If there are several allocations, the first that has the channel or the permission decides,
    /// whether it is marked as expired or not.
    ///
    /// # The stream over TCP
    ///
    /// The first frame that the chunk completes is handled, and its result is returned. If the
    /// chunk begins with the frame, data is returned by its position in the chunk, otherwise in a
    /// vector of its own.
    ///
    /// - A chunk that completes no frame is `Handled`.
    /// - A chunk whose first frame is neither a message nor a channel frame is `Handled`, as soon
    ///   as that can be seen.
    /// - If the first frame gives nothing of a peer, the result is the data of the next complete
    ///   frame of the stream that carries some. If there is none, the result says whether the first
    ///   frame was for the client. Bytes that are buffered for a bound connection are not looked
    ///   at: `poll_recv` returns them, before any frame.
    /// - A chunk of no bytes ends the stream, and is `Handled`. After that the stream's bytes are
    ///   `Ignored`. A client that has failed ignores all bytes.
    /// - If the two top bits of a frame are 10 or 11, or a byte of a message's cookie is wrong, the
    ///   stream gives nothing more, and its chunks are `Handled`.
    ///
    /// # The socket of a connection that is not bound (RFC 6062, section 4.3)
    ///
    /// The complete frames are handled, one after another, as long as the connection is to be
    /// bound:
    ///
    /// - The success response to the newest CONNECTION_BIND, if it validates, binds the connection,
    ///   and `TcpConnected` reports it. What follows this response is no frame but bytes of the
    ///   peer, which `poll_recv` returns.
    /// - A challenge that can be answered makes the client request the binding again, within 39.5
    ///   seconds.
    /// - Any other message of CONNECTION_BIND makes the connection fail: it is removed,
    ///   `TcpConnectFailed` reports it, and `poll` asks the caller to close the socket.
    /// - Other frames are skipped.
    ///
    /// The chunk is `Handled`; but it is `Ignored` if its first frame is a channel frame.
    ///
    /// # The socket of a connection that is bound
    ///
    /// - A chunk is `PeerData`, unchanged, preceded by the bytes that were buffered before it.
    /// - A chunk of no bytes ends the socket, as `tcp_closed` does, and is `Handled`. After that
    ///   the socket's bytes are `Ignored`.
    /// - A socket with the client's own address takes the place of the stream. Its messages are
    ///   those of the stream, and its connection is never bound.
    ///
    /// # Connections that a peer begins (RFC 6062, section 4.4)
    ///
    /// With a CONNECTION_ATTEMPT the server reports that a peer began a connection. The message is
    /// for the client if it validates as a response does and the server has allocated. Then one of
    /// these follows:
    ///
    /// 1. A response 400 with the message's transaction ID is queued, if the message names no
    ///    connection or no peer, or no allocation over the client's own transport is of the peer's
    ///    family.
    /// 2. A response 446, Connection Already Exists, is queued, if that allocation has a connection
    ///    to the peer, or waits for the socket of one.
    /// 3. Otherwise `poll` requests a socket by `AllocateTcpSocket`, and `allocated_tcp_socket`
    ///    queues the response.
    ///
    /// `poll_transmit` returns these responses without the pause between two messages.
    ///
    /// A CONNECTION_ATTEMPT indication, which nobody signs, is ignored unless the settings accept
    /// such (`TurnConfig::set_attempt_indications`). If they do, 3. applies to it without a
    /// response, and in the other cases nothing changes.
    ///
    /// # Out of memory
    ///
    /// `NoMemory` returns the bytes; the client has failed. Memory is needed only to store or
    /// report something of a message:
    ///
    /// - a challenge that can be answered, whatever request it responds to;
    /// - a response that is accepted, or that ends the client;
    /// - a CONNECTION_ATTEMPT;
    /// - over TCP also bytes that have to be buffered, data in a vector of its own, and the request
    ///   to close a socket.
    ///
    /// So `NoMemory` is never returned for a datagram of another host, for bytes that are no
    /// message, for another indication, or for any message to a client that has sent nothing or has
    /// ended.
    fn recv<T: AsSlice<u8> + Debug + Drop>(
        &mut self,
        transmit: Transmit<T>,
        now: Instant,
    ) -> TurnRecvRet<T>
        ensures received { IsReceived T.items (stored self.old) transmit now result (stored self.new) }
        ensures noted { AreNoted now (stored self.old).core (noted self.old)
            (stored self.new).core (noted self.new) }
        ensures elsewhere { transmit.from ≢ (stored self.old).core.server
            → noted self.new ≡ noted self.old };

    /// Does what is due at `now`, and returns what the caller is to do next.
    ///
    /// The steps, in order, up to the first that has a result:
    ///
    /// 1. `WaitUntil(now)`, if an event is queued (take it by `poll_event`), or a response to a
    ///    request of the server's is queued (take it by `poll_transmit`). Nothing else is done.
    /// 2. A request that has ended without a response is given up.
    /// 3. `AllocateTcpSocket`, if a connection waits for a socket that was not requested yet (RFC
    ///    6062, section 4.3). Nothing else is done.
    /// 4. What has expired is removed, as described below.
    /// 5. `TcpClose`, if a socket is to be closed that was not reported yet: the first one. Each is
    ///    reported once.
    /// 6. `Closed`, if the client has ended or has no allocation left.
    /// 7. `WaitUntil` with the time until which nothing is to be done: at most 9999 seconds from
    ///    `now`; `now` if a request has ended.
    ///
    /// For a client that has ended, steps 3 to 5 are left out: it returns `Closed`, whatever
    /// sockets are to be closed.
    ///
    /// # What is removed
    ///
    /// - allocations and permissions that have expired;
    /// - channels that have expired: of each allocation one at each call;
    /// - connections that were not bound in time;
    /// - connections that a peer began and whose request has ended: of each allocation one at each
    ///   call.
    ///
    /// Each removal is reported by an event, except that of an allocation: `poll_expired` returns
    /// it, if the settings say so (`TurnConfig::set_short_lifetimes`).
    ///
    /// # Out of memory
    ///
    /// `NoMemory`: an allocation failed, and the client has failed. Memory is needed only if no
    /// event is queued, no socket is requested, and an event has to be queued.
    fn poll(&mut self, now: Instant) -> TurnPollRet
        ensures polled { Leaves (λ old new. IsPolled old now result new) (stored self.old)
            (stored self.new) }
        ensures noted { IsPollNoted (noted self.old) (noted self.new) }
        ensures expired { (noted self.new).expired
            ≡ expired_after (held_of (stored self.old).core (noted self.old)) (stored self.new).core
            (noted self.old).expired };

    /// Returns what is to be sent at `now`, or `None`. Call it again until it returns `None`.
    ///
    /// The order is:
    ///
    /// 1. A request whose retransmission is due.
    /// 2. If the last message was sent less than 50 ms ago: the oldest queued response to a request
    ///    of the server's, and otherwise nothing.
    /// 3. The oldest queued message.
    /// 4. The first ALLOCATE.
    /// 5. A renewal that is due, of the first allocation that has one: a REFRESH for the
    ///    allocation, a CHANNEL_BIND for a channel, or a CREATE_PERMISSION for a permission, in
    ///    this order.
    ///
    /// # Errors
    ///
    /// - `NoMemory`: an allocation failed, and the client has failed. Memory is needed for a
    ///   retransmission and for a new request; never for a queued message, or if the result is
    ///   `None`.
    fn poll_transmit(&mut self, now: Instant) -> Result<Option<Transmit<Data<'static>>>, NoMemory>
        ensures ok { Leaves (λ old new. IfOk result (λ answer.
            IsTransmitted old now (option_map sent_of answer) new)) (stored self.old) (stored
            self.new) }
        ensures err { OnErr result (Leaves HasFailed (stored self.old) (stored self.new)) }
        ensures memory { OnErr result (HasToSend (stored self.old).core now) }
        ensures noted { noted self.new ≡ noted self.old };

    /// Returns the oldest queued event, and removes it from the queue. Needs no memory.
    fn poll_event(&mut self) -> Option<TurnEvent>
        ensures event { (stored self.old).core.events
            ≡ option_to_list result ++ (stored self.new).core.events }
        ensures none { IfNone result ((stored self.old).core.events ≡ []) }
        ensures others { Leaves (λ old new. new ≡ record old { events = new.events })
            (stored self.old) (stored self.new) }
        ensures noted { noted self.new ≡ after_event result (noted self.old) };

    /// Returns the oldest allocation that `poll` removed because its time was over (RFC 8656, section
    /// 6) and that was not returned yet, or `None` if there is none. Needs no memory. Call it after
    /// `poll`, until it returns `None`.
    ///
    /// - Each is returned once, if the settings say that short lifetimes are believed
    ///   (`TurnConfig::set_short_lifetimes`). Otherwise it is always `None`.
    /// - What goes after `delete` succeeded is not returned: the caller knows that it goes. What
    ///   expired before is.
    /// - If `poll` returns `NoMemory`, it adds nothing: the client holds nothing any more, whatever
    ///   time was left. The same holds of a client that has ended.
    fn poll_expired(&mut self) -> Option<AllocationExpired>
        ensures oldest { result ≡ first_of (noted self.old).expired }
        ensures left { noted self.new ≡ after_report (noted self.old) }
        ensures client { stored self.new ≡ stored self.old };

    /// Returns why the event that `poll_event` returned last reports that something failed or
    /// ended. It is `None` if that event reports a success, or if there was none yet.
    ///
    /// - `Rejected`: by the message whose handling queued the event, never by an earlier or a later
    ///   one. If `is_signed` is set, that message validated, and its request was outstanding.
    ///   Otherwise it may be anybody's who can send from the server's address.
    /// - `OutOfMemory`: memory for the cause ran out. Nothing else of the client fails by that.
    ///
    /// A call of `poll_event` that returns `None` leaves it.
    fn cause(&self) -> Option<&TurnCause>
        ensures { option_copied result ≡ cause_taken (noted self.now).causes };

    /// Returns the client's own address as the server saw it, which an ICE agent calls its
    /// server-reflexive candidate: the XOR-MAPPED-ADDRESS of the signed response that allocated
    /// (RFC 8656, section 7.3). It is `None` before, or if that response had none that is well
    /// formed.
    fn mapped_address(&self) -> Option<SocketAddr>
        ensures { result ≡ (noted self.now).mapped };

    /// Returns the token of the port that the server reserved beside the relayed one: the
    /// RESERVATION-TOKEN of the signed response that allocated (RFC 8656, section 18.10), its first
    /// byte the most significant. It is `None` before, or if the response had none that is well
    /// formed. A server gives one if `RelayedPort::EvenAndNextReserved` was requested, and holds
    /// the port for at least 30 seconds (section 7.2); another client takes it by
    /// `RelayedPort::Reserved`.
    fn reservation_token(&self) -> Option<u64>
        ensures { result ≡ (noted self.now).reservation };

    /// Returns the server that the response 300 (Try Alternate) named which ended the client, by
    /// its ALTERNATE-SERVER (RFC 8489, section 10). It is `None` if no such response came, or if it
    /// named none.
    ///
    /// The client does not follow it: create another client there, with a limit on how often you do
    /// so. If `cause` says that the response was not signed, it may be anybody's.
    fn alternate_server(&self) -> Option<SocketAddr>
        ensures { result ≡ (noted self.now).alternate };

    /// Returns the domain that this response named by its ALTERNATE-DOMAIN (RFC 8489, section
    /// 14.16). It is `None` as well if memory for it ran out.
    fn alternate_domain(&self) -> Option<&str>
        ensures { option_copied result ≡ (noted self.now).domain };

    /// Sets other credentials, which replace the present ones with the next challenge that the
    /// client accepts (RFC 8489, section 9.2.5): for passwords that expire, as those of a REST
    /// service do. Call it before they expire.
    ///
    /// - Until a challenge comes, the client signs and validates as before, so what is outstanding
    ///   still validates. The server challenges the first request that it no longer accepts, with
    ///   401 or 438, and the client makes that request again under the new credentials.
    /// - Every challenge that the client accepts counts, also one for a stale nonce (438). What is
    ///   signed with the former credentials no longer validates then, so the server has to accept
    ///   the new ones from this call on.
    /// - Credentials that were set before and are not in use yet are dropped.
    /// - The user's name has at most 513 bytes.
    fn set_credentials(&mut self, credentials: TurnCredentials)
        requires name { length credentials.username ≤ longest_username }
        ensures set { Leaves (λ old new. new ≡ with_next_credentials credentials old)
            (stored self.old) (stored self.new) }
        ensures noted { noted self.new ≡ noted self.old };

    /// Sets the SOFTWARE that requests carry from now on (RFC 8489, section 14.14), or none, as at
    /// first. It stands before the attributes that authenticate a request. Call it before the first
    /// `poll_transmit` to have it in each.
    fn set_software(&mut self, software: Option<Software>)
        ensures set { Leaves (λ old new. new ≡ with_software software old)
            (stored self.old) (stored self.new) }
        ensures noted { noted self.new ≡ noted self.old };

    /// Sets whether requests end with FINGERPRINT from now on (RFC 8489, section 14.7). At first
    /// they don't. It tells a receiver that shares the socket with other protocols what is STUN.
    fn set_fingerprint(&mut self, fingerprint: bool)
        ensures set { Leaves (λ old new. new ≡ with_fingerprint fingerprint old)
            (stored self.old) (stored self.new) }
        ensures noted { noted self.new ≡ noted self.old };

    /// Ends the client, because a layer above has met an error and has no use for it any more. For
    /// each requested address family an event `AllocationCreateFailed` is queued.
    ///
    /// # Errors
    ///
    /// - `NoMemory`: an allocation failed, and nothing has changed. Memory is needed to queue these
    ///   events, as every client has a family.
    fn protocol_error(&mut self) -> Result<(), NoMemory>
        ensures ok { OnOk result (Leaves (λ old new. new ≡ ended old)
            (stored self.old) (stored self.new)) }
        ensures err { OnErr result (stored self.new ≡ stored self.old) }
        ensures memory { OnErr result ((stored self.old).core.families ≢ []) }
        ensures noted { OnOk result (IsCallNoted SocketClosed (stored self.old).core
            (noted self.old) (stored self.new).core (noted self.new)) }
        ensures unnoted { OnErr result (noted self.new ≡ noted self.old) };
}

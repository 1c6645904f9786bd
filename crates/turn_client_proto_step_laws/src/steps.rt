//! The calls of a TURN client as steps of a run of a client and a server (RFC 8489, RFC 8656).
//!
//! `specs/ClientWords.antt` describes a client in the vocabulary of a run: which requests are
//! outstanding, which transaction IDs are taken, what is held. `specs/Sound.antt` has a client's
//! invariant. The functions here do nothing; each contract is a theorem: a call that meets its
//! contract is a step of a run and preserves the invariant. These are no steps, because nothing
//! changes: a getter; bytes that did not come from the server; bytes that are no message and carry
//! nothing of a peer.
//!
//! Related theorems:
//!
//! - [`framed`]: what comes over TCP.
//! - [`sockets`]: what comes over the sockets of connections to peers.
//! - [`added`]: what a message may add to a client's state.
//! - [`reported`]: a client decodes from a message what a run says of it.
//! - [`definite`]: a client is deterministic.

ghost use Rattle.std.specs.Prelude.{◌≤◌, ℕ, List, length, ◌≡◌, ◌++◌, Bool, true, [], ◌∷◌, Option, None, Some, Result, option_to_list};
ghost use Rattle.std.specs.declared.net.ip_addr.IpAddr.{IpAddr};
ghost use Rattle.std.specs.declared.net.socket_addr.SocketAddr.{SocketAddr};
ghost use Rattle.turn_client_proto_timers.specs.StunTypesWire.Registry.{longest_username};
ghost use Rattle.turn_client_proto_timers.specs.StunTypesBase.declared.transport.TransportType.{TransportType};
ghost use Rattle.turn_client_proto_timers.specs.StunTypesBase.declared.transport.TransportType.TheVariants.{Tcp};
ghost use Rattle.turn_client_proto_timers.specs.TurnRuns.Members.{IsIn};
ghost use Rattle.turn_client_proto_timers.specs.TurnRuns.Messages.{Allocation, Channel, Connection, Permission};
ghost use Rattle.turn_client_proto_timers.specs.TurnRuns.Runs.{IsNew as IsNewInRun};
ghost use Rattle.turn_client_proto_timers.specs.TurnRuns.Words.{DeskWords};
ghost use Rattle.turn_client_proto_timers.specs.Allocation.Listed.{relayed_listed};
ghost use Rattle.turn_client_proto_timers.specs.Api.Config.{Config};
ghost use Rattle.turn_client_proto_timers.specs.Peers.Channel.Numbers.{AreDistinct};
ghost use Rattle.turn_client_proto_timers.specs.Peers.Channel.Visible.{channels_listed};
ghost use Rattle.turn_client_proto_timers.specs.Peers.Permission.Asking.{permits_over};
ghost use Rattle.turn_client_proto_timers.specs.Peers.Permission.Visible.{addresses_of, permissions_at};
ghost use Rattle.turn_client_proto_timers.specs.Core.Beginning.{IsNew};
ghost use Rattle.turn_client_proto_timers.specs.Core.Binding.{IsBindAnswered};
ghost use Rattle.turn_client_proto_timers.specs.Core.declared.protocol.Protocol.{Protocol};
ghost use Rattle.turn_client_proto_step_laws.specs.Beginning.{first_client};
ghost use Rattle.turn_client_proto_step_laws.specs.ClientWords.{IsStored, client_words, run_words, notice_of};
ghost use Rattle.turn_client_proto_step_laws.specs.RunClient.{Client};
ghost use Rattle.turn_client_proto_step_laws.specs.Sound.{IsSound, IsWhole, stream_from};
ghost use Rattle.std.specs.List.{filter_map, list_any};
ghost use Rattle.std.specs.Option.{option_map};
ghost use Rattle.rand_chacha.specs.ChaCha.{of_seed};
ghost use Rattle.turn_client_proto_timers.specs.StunTypesWire.Grammar.{number_at, refusal};
ghost use Rattle.turn_client_proto_timers.specs.TurnRuns.StunWire.{stun_wire};
ghost use Rattle.turn_client_proto_timers.specs.StunTypesWire.Headers.{AreBytes};
ghost use Rattle.turn_client_proto_timers.specs.Api.declared.answer.TurnPollRet.{TurnPollRet};
ghost use Rattle.turn_client_proto_timers.specs.Api.declared.error.BindChannelError.{BindChannelError};
ghost use Rattle.turn_client_proto_timers.specs.Api.declared.error.CreatePermissionError.{CreatePermissionError};
ghost use Rattle.turn_client_proto_timers.specs.Api.declared.error.CreatePermissionsError.{CreatePermissionsError};
ghost use Rattle.turn_client_proto_timers.specs.Api.declared.error.DeleteError.{DeleteError};
ghost use Rattle.turn_client_proto_timers.specs.Core.Permitting.{ArePermissionsAnswered, IsPermissionAnswered};
ghost use Rattle.turn_client_proto_timers.specs.Api.declared.error.SendError.{SendError};
ghost use Rattle.turn_client_proto_timers.specs.Api.declared.event.TurnEvent.{TurnEvent};
ghost use Rattle.turn_client_proto_timers.specs.Core.Deleting.{IsDeleteAnswered};
ghost use Rattle.turn_client_proto_timers.specs.Api.declared.answer.Socket5Tuple.{Socket5Tuple};
ghost use Rattle.turn_client_proto_timers.specs.Api.declared.error.TcpAllocateError.{TcpAllocateError};
ghost use Rattle.turn_client_proto_timers.specs.Api.declared.error.TcpConnectError.{TcpConnectError};
ghost use Rattle.turn_client_proto_recv.specs.Closing.{after_close};
ghost use Rattle.turn_client_proto_recv.specs.Connecting.{IsConnectAnswered};
ghost use Rattle.turn_client_proto_timers.specs.Connection.Visible.{connections_listed};
ghost use Rattle.turn_client_proto_timers.specs.Drawing.{IsTransmitted};
ghost use Rattle.turn_client_proto_timers.specs.Api.Sent.{Sent};
ghost use Rattle.turn_client_proto_timers.specs.Core.Ending.{HasFailed, ended};
ghost use Rattle.turn_client_proto_recv.specs.Payload.OfPeers.{reported_of};
ghost use Rattle.turn_client_proto_recv.specs.Payload.Payloads.{payload_of};
ghost use Rattle.turn_client_proto_timers.specs.Polling.{IsPolled};
ghost use Rattle.turn_client_proto_recv.specs.Payload.Sending.{IsSendAnswered};
ghost use Rattle.turn_client_proto_recv.specs.Sockets.{IsSocketAnswered};
ghost use Rattle.turn_client_proto_recv.specs.Payload.declared.payload.Payload.{Payload};
ghost use Rattle.turn_client_proto_timers.specs.Core.Receiving.{IsProcessed};
ghost use Rattle.turn_client_proto_step_laws.specs.RunSteps.{IsGiving, IsReceiving, IsRunStep, IsSilent};

/// Proof only: the states of a server core, and how a run describes them. It has no code; the
/// theorem on new clients holds for every implementation.
pub trait Desk {
    ghost State: { Type 0 };

    ghost words: { DeskWords State };
}

/// The invariant holds of a new client, if the name of its user fits into a message (RFC 8489,
/// section 14.3) and at most two address families are configured.
pub fn new_clients_are_sound()
    ensures { (transport : TransportType) (here server : SocketAddr) (config : Config)
        (seed : List ℕ) (core : Protocol)
        → IsNew transport here server config seed core
        → length config.credentials.username ≤ longest_username
        → length config.families ≤ 2
        → IsSound (first_client config.credentials seed core) }
{}

/// A new client is a valid start of a run with any server core: nothing is outstanding, queued or
/// held, and no transaction ID is taken.
pub fn new_clients_are_new<D: Desk>()
    ensures { (transport : TransportType) (here server : SocketAddr) (config : Config)
        (seed : List ℕ) (core : Protocol)
        → IsNew transport here server config seed core
        → IsNewInRun (run_words D.words) (first_client config.credentials seed core) }
{}

/// A new client stores no realm, so it has no key yet (RFC 8489, section 9.2.5). So in a run of a
/// new client only keys count whose realm was named in a step of that run.
pub fn new_clients_keep_no_realm()
    ensures { (transport : TransportType) (here server : SocketAddr) (config : Config)
        (seed : List ℕ) (core : Protocol)
        → IsNew transport here server config seed core
        → client_words.realm (first_client config.credentials seed core) ≡ None }
{}

/// Each relayed address that a client lists is held, in the sense of a run: it belongs to an
/// allocation that is not marked as expired. A getter changes nothing, and is no step.
pub fn listed_addresses_are_held()
    ensures { (c : Client) (transport : TransportType) (address : SocketAddr)
        → IsIn (transport, address) (relayed_listed c.core.allocations)
        → client_words.IsHeld c (Allocation transport address) }
{}

/// Each address for which a client lists a permission is held, in the sense of a run, over the
/// transport of the allocation whose relayed address the caller gave.
pub fn listed_permissions_are_held()
    ensures { (c : Client) (transport : TransportType) (relayed : SocketAddr) (ip : IpAddr)
        → IsIn ip (addresses_of (permissions_at transport relayed c.core.allocations))
        → client_words.IsHeld c (Permission transport ip) }
{}

/// `have_permission` returns true exactly for the permissions that are held, in the sense of a run.
pub fn permissions_had_are_held()
    ensures held { (c : Client) (transport : TransportType) (ip : IpAddr)
        → list_any (permits_over transport ip) c.core.allocations ≡ true
        → client_words.IsHeld c (Permission transport ip) }
    ensures had { (c : Client) (transport : TransportType) (ip : IpAddr)
        → client_words.IsHeld c (Permission transport ip)
        → list_any (permits_over transport ip) c.core.allocations ≡ true }
{}

/// Each channel that a client lists (`channels`) is held, in the sense of a run, with its number
/// and its peer.
pub fn listed_channels_are_held()
    ensures { (c : Client) (number : ℕ) (peer : SocketAddr)
        → IsIn (number, peer) (channels_listed c.core.allocations)
        → client_words.IsHeld c (Channel number peer) }
{}

/// Each connection that a client lists as bound (`connections`) is held, in the sense of a run,
/// with its local address, its peer and its connection ID.
pub fn listed_connections_are_held()
    ensures { (c : Client) (here peer : SocketAddr) (number : ℕ)
        → IsIn (here, peer, number, true) (connections_listed c.core.allocations)
        → client_words.IsHeld c (Connection here peer number) }
{}

/// If the invariant holds, no two of the client's channels have the same number, active or
/// requested. So no two that it lists have (`channels_are_distinct` of the public crate).
pub fn numbers_are_distinct()
    ensures { (c : Client) → IsSound c → AreDistinct c.core.allocations }
{}

/// `poll_event` is a step that returns the notice of the event that it takes from the queue, if the
/// event reports something as created.
pub fn events_are_steps()
    ensures { (c : Client) (event : Option TurnEvent) (new : Protocol)
        → IsSound c
        → c.core.events ≡ option_to_list event ++ new.events
        → new ≡ record c.core { events = new.events }
        → IsRunStep c [] None (filter_map notice_of (option_to_list event)) new }
{}

/// `protocol_error` is a step in which nothing is requested and nothing gained.
pub fn ends_are_steps()
    ensures { (c : Client) → IsSound c → IsSilent c (ended c.core) }
{}

/// A call in which memory runs out, and after which the client has failed, is also a step in which
/// nothing is requested and nothing gained.
pub fn failures_are_steps()
    ensures { (c : Client) (new : Protocol) → HasFailed c.core new → IsSilent c new }
{}

/// `delete` is a step.
///
/// - On success it makes a REFRESH.
/// - If it fails with `NoAllocation`, nothing changes.
/// - If memory runs out, the generated transaction ID is counted, and nothing else changes.
pub fn deletions_are_steps()
    ensures { (c : Client) (now : ℕ) (answer : Result (Unit {0}) DeleteError) (new : Protocol)
        → IsSound c
        → IsDeleteAnswered c.core now answer new
        → IsSilent c new }
{}

/// `create_permission` is a step.
///
/// - On success it makes a CREATE_PERMISSION.
/// - If it is refused, an allocation may be marked as expired, and nothing else changes.
/// - If memory runs out, the generated transaction ID is counted, and nothing else changes.
pub fn permissions_are_steps()
    ensures { (c : Client) (transport : TransportType) (ip : IpAddr) (now : ℕ)
        (answer : Result (Unit {0}) CreatePermissionError) (new : Protocol)
        → IsSound c
        → IsPermissionAnswered c.core transport ip now answer new
        → IsSilent c new }
{}

/// `create_permissions` is a step.
///
/// - On success it makes one CREATE_PERMISSION, for all the addresses.
/// - If it is refused by the addresses alone, nothing changes.
/// - If it is refused otherwise, an allocation may be marked as expired, and nothing else changes.
/// - If memory runs out, the generated transaction ID is counted, and nothing else changes.
pub fn several_permissions_are_steps()
    ensures { (c : Client) (transport : TransportType) (ips : List IpAddr) (now : ℕ)
        (answer : Result (Unit {0}) CreatePermissionsError) (new : Protocol)
        → IsSound c
        → ArePermissionsAnswered c.core transport ips now answer new
        → IsSilent c new }
{}

/// `bind_channel` is a step, if the peer has neither flow information nor scope, because
/// XOR-PEER-ADDRESS carries neither (RFC 8656, section 18.3).
///
/// - On success it makes a CHANNEL_BIND.
/// - If it is refused, an allocation may be marked as expired, and nothing else changes.
/// - If memory runs out, the generated transaction ID is counted, and nothing else changes.
pub fn bindings_are_steps()
    ensures { (c : Client) (transport : TransportType) (peer : SocketAddr) (now : ℕ)
        (answer : Result (Unit {0}) BindChannelError) (new : Protocol)
        → IsSound c
        → IsWhole peer
        → IsBindAnswered c.core transport peer now answer new
        → IsSilent c new }
{}

/// `tcp_connect` is a step, if the peer has neither flow information nor scope (RFC 6062, section
/// 4.3).
///
/// - On success it makes a CONNECT.
/// - If it is refused, an allocation may be marked as expired, and nothing else changes.
/// - If memory runs out, the generated transaction ID is counted, and nothing else changes.
pub fn connects_are_steps()
    ensures { (c : Client) (peer : SocketAddr) (now : ℕ)
        (answer : Result (Unit {0}) TcpConnectError) (new : Protocol)
        → IsSound c
        → IsWhole peer
        → IsConnectAnswered c.core peer now answer new
        → IsSilent c new }
{}

/// `allocated_tcp_socket` is a step (RFC 6062, section 4.3).
///
/// - On success with a socket it makes a CONNECTION_BIND. Nothing more is held yet, for the
///   connection is not bound. Its connection ID was known before, with this very peer. If the peer
///   opened the connection, the response to the server's request is queued (section 4.4).
/// - If there is no socket, or the call is refused, no request is made.
/// - If memory runs out, the generated transaction ID is counted, and nothing else changes.
pub fn sockets_are_steps()
    ensures { (c : Client) (connection : ℕ) (socket : Socket5Tuple) (peer : SocketAddr)
        (here : Option SocketAddr) (now : ℕ) (answer : Result (Unit {0}) TcpAllocateError)
        (new : Protocol)
        → IsSound c
        → IsSocketAnswered c.core connection socket peer here now answer new
        → IsSilent c new }
{}

/// `tcp_closed` is a step in which nothing is requested and nothing gained; a connection may be
/// removed (`step`). If the client uses TCP to its server, and the socket is one to that server, no
/// bound connection with this local address is left (`gone`; RFC 6062, section 4.6).
pub fn closings_are_steps()
    ensures step { (c : Client) (here server : SocketAddr) (new : Protocol)
        → IsSound c
        → new ≡ after_close here server c.core
        → IsSilent c new }
    ensures gone { (old new : Protocol) (here peer : SocketAddr) (number : ℕ)
        → old.agent.transport ≡ Tcp
        → new ≡ after_close here old.server old
        → IsStored new.allocations (Connection here peer number)
        → ⊥ }
{}

/// `send_to` is a step in which nothing is requested, transmitted or gained: the message or frame
/// that carries the bytes to a peer is returned to the caller. The transaction ID of a SEND
/// indication is counted as generated (RFC 8656, section 11.1).
pub fn sends_are_steps()
    ensures { (c : Client) (transport : TransportType) (to : SocketAddr) (bytes : List ℕ) (now : ℕ)
        (answer : Result (Option Sent) SendError) (new : Protocol)
        → IsSound c
        → IsSendAnswered c.core transport to bytes now answer new
        → IsSilent c new }
{}

/// `poll` is a step in which nothing is requested and nothing gained. Requests, allocations and
/// waiting connections may be removed, and a socket may be requested from the caller.
pub fn polls_are_steps()
    ensures { (c : Client) (now : ℕ) (answer : TurnPollRet) (new : Protocol)
        → IsSound c
        → IsPolled c.core now answer new
        → IsSilent c new }
{}

/// `poll_transmit` is a step. What it transmits is one of these:
///
/// - a request that is outstanding, is queued, or is made now with the transaction ID at the next
///   index of the client's stream;
/// - the response to a request of the server's, which announced a connection that a peer opened
///   (RFC 6062, section 4.4).
pub fn draws_are_steps()
    ensures { (c : Client) (now : ℕ) (answer : Option Sent) (new : Protocol)
        → IsSound c
        → IsTransmitted c.core now answer new
        → IsRunStep c [] (option_map (λ sent. sent.bytes) answer) [] new }
{}

/// The first message that a new client transmits, its ALLOCATE, has the transaction ID at index 0
/// of the stream of the client's seed: the first 96 bits that the seed's generator gives (RFC 8489,
/// section 5). The premises are those of `new_clients_are_sound`. Each later request has the ID at
/// a later index, in order, unless that ID is taken (the field `numbered` of `ClientStep`, which
/// every step has).
pub fn first_numbers_are_of_the_seed()
    ensures { (transport : TransportType) (here server : SocketAddr) (config : Config)
        (seed : List ℕ) (core new : Protocol) (now : ℕ) (sent : Sent)
        → IsNew transport here server config seed core
        → length config.credentials.username ≤ longest_username
        → length config.families ≤ 2
        → IsTransmitted core now (Some sent) new
        → number_at sent.bytes ≡ stun_wire.number (stream_from (of_seed seed)) 0 }
{}

/// Handling a message from the server is a step. By the definition of a step, if the client holds
/// an item afterwards that it did not hold before, the message brought it:
///
/// - The message validates under the client's key, and is the response to a request that was
///   outstanding and no longer is: an ALLOCATE, a CREATE_PERMISSION that names this very address,
///   or a CHANNEL_BIND of this very number to this very peer (RFC 8656, sections 7.3, 10.3 and
///   12.3).
/// - If the client learns a connection ID and its peer, the message is the response to a CONNECT to
///   this very peer (RFC 6062, section 4.3), or a CONNECTION_ATTEMPT, which validates under the
///   client's key, too (section 4.4).
/// - A challenge may cause a new request, and may give the client another realm (RFC 8489, section
///   9.2.5). A call that handles no message leaves the realm as it was. A client that has ended has
///   no realm.
///
/// The client has one key at a time: that of its name and password, in the realm of its stored
/// challenge, for the algorithm that it chose for that challenge. A message by which it gains
/// something validates under that key, by that algorithm (RFC 8489, sections 9.2.2 and 9.2.5).
pub fn messages_are_steps()
    ensures { (c : Client) (bytes : List ℕ) (now : ℕ) (handled : Bool) (new : Protocol)
        → IsSound c
        → AreBytes bytes
        → refusal bytes ≡ None
        → IsProcessed c.core bytes now handled new
        → IsReceiving c bytes new }
{}

/// Delivering what a message or a channel frame carries from a peer is a step, too. The payload is
/// what was received, and it names a permission or a channel that the client has (RFC 8656,
/// sections 11.4, 11.6 and 12.6). The client's state does not change.
pub fn payloads_are_steps()
    ensures { (c : Client) (bytes : List ℕ) (payload : Payload)
        → IsSound c
        → payload_of c.core bytes ≡ Some payload
        → IsGiving c bytes (reported_of bytes payload ∷ []) c.core }
{}

//! The stages of a TURN client that requests a connection to a peer, by the contracts of its own
//! calls alone, whatever answers them (RFC 8656, section 10; RFC 6062, section 4.3). The functions
//! do nothing; each contract is a theorem.
//!
//! 1. A client holds an allocation over TCP, and nothing else ([`holders_can_ask`]).
//! 2. It requests a permission, and holds it once that is granted
//!    ([`permissions_are_requested_for`]).
//! 3. It requests a connection to a peer with that IP, learns the connection ID, and requests a
//!    socket from its caller ([`connections_are_requested_for`]).
//! 4. It gets one, and requests over it that the connection be bound. A success response binds it;
//!    a challenge is answered by another request ([`connections_are_joined`]).
//!
//! [`holders_rest`] says what is transmitted, polled and reported meanwhile, and
//! [`connections_are_listed`] what is listed. [`messages_reach_holders`] and
//! [`messages_reach_sockets`] say how chunks of a stream become the messages of the other theorems.

ghost use Rattle.std.specs.Prelude.{◌≡◌, ◌≢◌, ◌⊎◌, ◌≤◌, ◌<◌, ◌^◌, ◌++◌, ◌↔◌, ℕ, Bool, true, false};
ghost use Rattle.std.specs.Prelude.{find};
ghost use Rattle.std.specs.Prelude.{List, [], ◌∷◌, Option, Some, None, option_to_list, Result, Ok};
ghost use Rattle.std.specs.Prelude.{Err};
ghost use Rattle.std.specs.List.{list_any};
ghost use Rattle.std.specs.declared.net.ip_addr.IpAddr.{IpAddr};
ghost use Rattle.std.specs.declared.net.socket_addr.SocketAddr.{SocketAddr};
ghost use Rattle.turn_client_proto_messages.specs.Api.Options.{cadence};
ghost use Rattle.turn_client_proto_messages.specs.StunTypesWire.Attributes.{kind_at};
ghost use Rattle.turn_client_proto_messages.specs.StunTypesWire.Grammar.{refusal};
ghost use Rattle.turn_client_proto_messages.specs.StunTypesWire.declared.algorithm.IntegrityAlgorithm.{IntegrityAlgorithm};
ghost use Rattle.turn_client_proto_messages.specs.StunTypesWire.Types.{class_of};
ghost use Rattle.turn_client_proto_messages.specs.StunTypesBase.declared.transmit.Transmit.{Transmit};
ghost use Rattle.turn_client_proto_messages.specs.StunTypesBase.declared.transport.TransportType.TheVariants.{Tcp};
ghost use Rattle.turn_client_proto_messages.specs.StunProtoClient.Challenges.{ChallengeFields};
ghost use Rattle.turn_client_proto_messages.specs.StunTypesBase.Times.{time_after};
ghost use Rattle.turn_client_proto_messages.specs.TurnTypesFrame.Streams.{Stream, alive};
ghost use Rattle.turn_client_proto_messages.specs.TurnTypesAttributes.TurnRegistry.{connect_method, connection_bind_method};
ghost use Rattle.turn_client_proto_messages.specs.TurnTypesAttributes.TurnRegistry.{create_permission_method};
ghost use Rattle.turn_client_proto_messages.specs.Allocation.declared.allocation.Allocation.{Allocation};
ghost use Rattle.turn_client_proto_messages.specs.Allocation.declared.connection.Connecting.{Connecting};
ghost use Rattle.turn_client_proto_messages.specs.Allocation.declared.permission.PendingPermission.{PendingPermission};
ghost use Rattle.turn_client_proto_messages.specs.Allocation.declared.permission.Permission.{Permission};
ghost use Rattle.turn_client_proto_messages.specs.Api.declared.answer.TurnPollRet.{TurnPollRet};
ghost use Rattle.turn_client_proto_messages.specs.Api.declared.answer.TurnPollRet.TheVariants.{AllocateTcpSocket};
ghost use Rattle.turn_client_proto_messages.specs.Api.declared.answer.TurnPollRet.TheVariants.{WaitUntil};
ghost use Rattle.turn_client_proto_messages.specs.Api.declared.answer.TurnRecvRet.{TurnRecvRet};
ghost use Rattle.turn_client_proto_messages.specs.Api.declared.answer.TurnRecvRet.TheVariants.{Handled};
ghost use Rattle.turn_client_proto_messages.specs.Api.declared.answer.TurnRecvRet.TheVariants.{NoMemory};
ghost use Rattle.turn_client_proto_messages.specs.Api.declared.error.CreatePermissionError.{CreatePermissionError};
ghost use Rattle.turn_client_proto_messages.specs.Api.declared.error.CreatePermissionError.TheVariants as not_permitted;
ghost use Rattle.turn_client_proto_messages.specs.Api.declared.error.TcpAllocateError.{TcpAllocateError};
ghost use Rattle.turn_client_proto_messages.specs.Api.declared.error.TcpAllocateError.TheVariants as not_taken;
ghost use Rattle.turn_client_proto_messages.specs.Api.declared.error.TcpConnectError.{TcpConnectError};
ghost use Rattle.turn_client_proto_messages.specs.Api.declared.error.TcpConnectError.TheVariants as not_connected;
ghost use Rattle.turn_client_proto_messages.specs.Api.declared.event.TurnEvent.{TurnEvent};
ghost use Rattle.turn_client_proto_messages.specs.Api.declared.event.TurnEvent.TheVariants.{PermissionCreated};
ghost use Rattle.turn_client_proto_messages.specs.Api.declared.event.TurnEvent.TheVariants.{TcpConnected};
ghost use Rattle.turn_client_proto_messages.specs.Allocation.declared.connection.Waiting.{Waiting};
ghost use Rattle.turn_client_proto_step_laws.specs.Recv.Connecting.{IsConnectAnswered};
ghost use Rattle.turn_client_proto_step_laws.specs.Connection.Visible.{connections_listed};
ghost use Rattle.turn_client_proto_step_laws.specs.Recv.SocketChunks.{raw_waiting};
ghost use Rattle.turn_client_proto_step_laws.specs.Recv.Control.{Open};
ghost use Rattle.turn_client_proto_step_laws.specs.Peers.Permission.Granted.{granted_for};
ghost use Rattle.turn_client_proto_handshake_laws.specs.Core.Permitting.{IsPermissionAnswered};
ghost use Rattle.turn_client_proto_handshake_laws.specs.Core.Receiving.{IsProcessed};
ghost use Rattle.turn_client_proto_messages.specs.Reported.{connection_reported};
ghost use Rattle.turn_client_proto_messages.specs.Waiting.{Queued, is_answer};
ghost use Rattle.turn_client_proto_handshake_laws.specs.Core.declared.protocol.Protocol.{Protocol};
ghost use Rattle.turn_client_proto_messages.specs.TurnRuns.Indications.{is_indication};
ghost use Rattle.turn_client_proto_messages.specs.Requests.{is_signed, request_text};
ghost use Rattle.turn_client_proto_messages.specs.ReportedRequests.{IsLawfulRequest};
ghost use Rattle.turn_client_proto_messages.specs.declared.request.TurnRequest.{TurnRequest};
ghost use Rattle.turn_client_proto_messages.specs.declared.request.TurnRequest.TheVariants.{CreatePermission};
ghost use Rattle.turn_client_proto_step_laws.specs.Timers.Drawing.{IsTransmitted};
ghost use Rattle.turn_client_proto_messages.specs.Api.Sent.{Sent};
ghost use Rattle.turn_client_proto_step_laws.specs.Recv.Processing.{IsProcessedAt};
ghost use Rattle.turn_client_proto_step_laws.specs.Recv.ClientState.{ClientState};
ghost use Rattle.turn_client_proto_step_laws.specs.Timers.Polling.{IsPolled};
ghost use Rattle.turn_client_proto_step_laws.specs.Recv.Receipts.{IsReceived};
ghost use Rattle.turn_client_proto_step_laws.specs.Recv.Sockets.{IsSocketAnswered};
ghost use Rattle.turn_client_proto_step_laws.specs.Timers.Wanting.{wanted};
ghost use Rattle.turn_client_proto_handshake_laws.specs.Requested.{Requested, end_of};
ghost use Rattle.turn_client_proto_handshake_laws.specs.Choosing.{Choice, HasTextName, IsChoice};
ghost use Rattle.turn_client_proto_handshake_laws.specs.Coming.{HasCome, IsFromServer, IsProcessedAs, IsLost};
ghost use Rattle.turn_client_proto_handshake_laws.specs.Coming.{IsPartOf};
ghost use Rattle.turn_client_proto_handshake_laws.specs.Stages.{Holds, IsOf};
ghost use Rattle.turn_client_proto_handshake_laws.specs.Driving.{IsEventTaken};
ghost use Rattle.turn_client_proto_handshake_laws.specs.Sent.{Beginning, HasRoom};
ghost use Rattle.turn_client_proto_progress_laws.specs.Free.{CanConnect, CanPermit};
ghost use Rattle.turn_client_proto_progress_laws.specs.Holders.{CanSign, Holder, IsListed, IsSignedBy};
ghost use Rattle.turn_client_proto_progress_laws.specs.Holders.{all_requested, holder_of};
ghost use Rattle.turn_client_proto_progress_laws.specs.TcpBinding.{AwaitsSocket, HasRequestedBind};
ghost use Rattle.turn_client_proto_progress_laws.specs.TcpBinding.{HasRequestedConnect};
ghost use Rattle.turn_client_proto_progress_laws.specs.TcpBinding.{HasRequestedPermission, HasLearned};
ghost use Rattle.turn_client_proto_progress_laws.specs.TcpBinding.{HasSentBind};
ghost use Rattle.turn_client_proto_progress_laws.specs.TcpBinding.{HasSentConnect, HasSentPermission};
ghost use Rattle.turn_client_proto_progress_laws.specs.TcpBinding.{IsBound};
ghost use Rattle.turn_client_proto_progress_laws.specs.TcpBinding.{IsHolding, IsTcpBinding, IsReady};
ghost use Rattle.turn_client_proto_progress_laws.specs.TcpBinding.{allocation_of};
ghost use Rattle.turn_client_proto_progress_laws.specs.TcpBinding.{allocation_with, bind_request, joining};
ghost use Rattle.turn_client_proto_progress_laws.specs.TcpBinding.{own_tuple_of};
ghost use Rattle.turn_client_proto_progress_laws.specs.Overs.{IsFromServerTo};
ghost use Rattle.turn_client_proto_progress_laws.specs.Replies.{CanAnswer, IsChallengeOf, IsSuccessOf};
ghost use Rattle.turn_client_proto_progress_laws.specs.Replies.{challenged_by};
ghost use Rattle.turn_client_proto_progress_laws.specs.Resting.{AreUnrenewed, IsResting};

use std::convert::AsSlice;
use turn_client_proto_handshake_laws::stages::signed_allocates_answer;
use turn_client_proto_messages::laws::{
    proof_requests_are_read, proof_texts_stay_short, signed_requests_claim, texts_stay_read,
};

/// A client that holds an allocation over TCP, and has no message queued, can sign requests
/// (`holds`). What it signs is a message and a request with its transaction ID that says what is
/// requested. It validates under the key of the client's credentials, with the claims that the
/// challenge asks for (`signs`; RFC 8489, sections 9.2.3 and 9.2.5).
pub fn holders_can_ask()
    ensures holds { (b : Beginning) (c : Choice) (address : SocketAddr) (lifetime since last : ℕ)
        (events : List TurnEvent) (p : Protocol)
        → HasRoom b.config
        → HasTextName b.config
        → IsChoice b c
        → b.transport ≡ Tcp
        → b.config.transport ≡ Tcp
        → Holds b c address lifetime since last [] events p
        → IsHolding (holder_of b c address lifetime since) last events p }
    ensures signs { (h : Holder) (request : TurnRequest) (number : ℕ)
        → CanSign h
        → IsLawfulRequest request
        → is_signed request ≡ true
        → number < 2 ^ 96
        → IsSignedBy h request number (request_text h.auth request number) }
{
    proof_requests_are_read();
    signed_requests_claim();
    signed_allocates_answer();
}

/// A client that holds an allocation over TCP:
///
/// - `rests`: for 50 ms after the last message `poll_transmit` returns nothing, if no reply to the
///   server is queued.
/// - `sends`: from then on it returns the first queued message.
/// - `still`: if none is queued, it returns nothing, unless something is to be renewed.
/// - `polled`: if nothing expires, no request is given up, and no socket is to be requested, `poll`
///   returns `WaitUntil` a time and changes nothing.
/// - `reported`: the client's events are taken in order.
pub fn holders_rest()
    ensures rests { (h : Holder) (awaited : Option Requested) (older : List Requested) (a :
        Allocation)
        (queue : List Queued) (last : ℕ) (events : List TurnEvent) (old new : Protocol) (now : ℕ)
        (sent : Option Sent)
        → IsTcpBinding h awaited older a queue last events old
        → find is_answer queue ≡ None
        → now < time_after last cadence
        → IsTransmitted old now sent new
        → (sent ≡ None) × (new ≡ old) }
    ensures sends { (h : Holder) (awaited : Option Requested) (older : List Requested) (a :
        Allocation)
        (one : Queued) (rest : List Queued) (last : ℕ) (events : List TurnEvent)
        (old new : Protocol) (now : ℕ) (sent : Option Sent)
        → IsTcpBinding h awaited older a (one ∷ rest) last events old
        → time_after last cadence ≤ now
        → IsTransmitted old now sent new
        → (sent ≡ Some (record {
          bytes = one.bytes;
          transport = h.started.transport;
          from = one.from;
          to = h.started.server;
        })) × IsTcpBinding h awaited older a rest now events new }
    ensures still { (h : Holder) (awaited : Option Requested) (older : List Requested)
        (permissions : List Permission) (pending : List PendingPermission)
        (connecting : List Connecting) (last : ℕ) (events : List TurnEvent) (old new : Protocol)
        (now : ℕ) (sent : Option Sent)
        → IsTcpBinding h awaited older (allocation_with h permissions pending connecting [] []) []
        last events old
        → IsResting h permissions now
        → IsTransmitted old now sent new
        → (sent ≡ None) × (new ≡ old) }
    ensures polled { (h : Holder) (awaited : Option Requested) (older : List Requested)
        (permissions : List Permission) (pending : List PendingPermission)
        (connecting : List Connecting) (queue : List Queued) (last : ℕ) (events : List TurnEvent)
        (old new : Protocol) (now : ℕ) (ret : TurnPollRet)
        → IsTcpBinding h awaited older (allocation_with h permissions pending connecting [] [])
        queue
        last events old
        → list_any is_answer queue ≡ false
        → IsResting h permissions now
        → ((x : Requested) → IsListed x (all_requested awaited older) → now < end_of h.started x)
        → IsPolled old now ret new
        → (time : ℕ) × (ret ≡ WaitUntil time) × (new ≡ old) }
    ensures reported { (h : Holder) (awaited : Option Requested) (older : List Requested) (a :
        Allocation)
        (queue : List Queued) (last : ℕ) (events : List TurnEvent) (old new : Protocol)
        (event : Option TurnEvent)
        → IsTcpBinding h awaited older a queue last events old
        → IsEventTaken old event new
        → (left : List TurnEvent) × (events ≡ option_to_list event ++ left)
        × IsTcpBinding h awaited older a queue last left new }
{}

/// A client that holds an allocation over TCP is asked for a permission (RFC 8656, section 10.1):
///
/// - `answered`: unless memory runs out, `create_permission` returns `Ok` if and only if the IP has
///   the family of the client's relayed address, and the client's allocation has not ended.
/// - `requested`: then a CREATE_PERMISSION is queued.
/// - `granted`: once that was transmitted, and its success response comes, the permission is
///   active, and the event for it is queued (section 10.3).
pub fn permissions_are_requested_for()
    ensures answered { (h : Holder) (last : ℕ) (events : List TurnEvent) (old new : Protocol)
        (ip : IpAddr) (now : ℕ) (answer : Result (Unit {0}) CreatePermissionError)
        → IsHolding h last events old
        → IsPermissionAnswered old Tcp ip now answer new
        → answer ≢ Err not_permitted.NoMemory
        → ((answer ≡ Ok tt) ↔ CanPermit h ip now) }
    ensures requested { (h : Holder) (last : ℕ) (events : List TurnEvent) (old new : Protocol)
        (ip : IpAddr) (now : ℕ)
        → IsHolding h last events old
        → IsPermissionAnswered old Tcp ip now (Ok tt) new
        → (number : ℕ) × (number < 2 ^ 96) × IsLawfulRequest (CreatePermission (ip ∷ []))
        × HasRequestedPermission h ip number now last events new }
    ensures granted { (h : Holder) (ip : IpAddr) (number made last : ℕ) (events : List TurnEvent)
        (old new : Protocol) (bytes : List ℕ) (now : ℕ) (handled : Bool)
        → HasSentPermission h ip number made last events old
        → IsSuccessOf h create_permission_method number bytes
        → IsProcessed old bytes now handled new
        → (handled ≡ true) × IsReady h ip now last (events ++ PermissionCreated Tcp ip ∷ []) new }
{
    proof_requests_are_read();
}

/// A client with one active permission is asked for a connection to a peer (RFC 6062, section 4.3):
///
/// - `answered`: unless memory runs out, `tcp_connect` returns `Ok` if and only if the peer has the
///   permission's IP and the family of the relayed address, and the client's allocation has not
///   ended.
/// - `requested`: then a CONNECT is queued.
/// - `learned`: once that was transmitted, and its success response comes with a connection ID,
///   that is the ID of the connection.
/// - `polled`: if no event is queued, `poll` then requests a socket from the caller, for that
///   connection ID and peer.
/// - `waits`: while an event is queued, `poll` returns `WaitUntil` the current time and changes
///   nothing.
pub fn connections_are_requested_for()
    ensures answered { (h : Holder) (ip : IpAddr) (granted last : ℕ) (events : List TurnEvent)
        (old new : Protocol) (peer : SocketAddr) (now : ℕ)
        (answer : Result (Unit {0}) TcpConnectError)
        → IsReady h ip granted last events old
        → IsConnectAnswered old peer now answer new
        → answer ≢ Err not_connected.NoMemory
        → ((answer ≡ Ok tt) ↔ CanConnect h ip peer now) }
    ensures requested { (h : Holder) (ip : IpAddr) (granted last : ℕ) (events : List TurnEvent)
        (old new : Protocol) (peer : SocketAddr) (now : ℕ)
        → IsReady h ip granted last events old
        → IsConnectAnswered old peer now (Ok tt) new
        → (number : ℕ) × (number < 2 ^ 96)
        × HasRequestedConnect h (granted_for ip granted ∷ []) peer number now last events new }
    ensures learned { (h : Holder) (permissions : List Permission) (peer : SocketAddr)
        (number made last connection : ℕ) (events : List TurnEvent) (old new : Protocol)
        (bytes : List ℕ) (now : ℕ) (handled : Bool)
        → AreUnrenewed permissions
        → HasSentConnect h permissions peer number made last events old
        → IsSuccessOf h connect_method number bytes
        → connection_reported bytes ≡ Some connection
        → IsProcessed old bytes now handled new
        → (handled ≡ true) × HasLearned h permissions connection peer last events new }
    ensures polled { (h : Holder) (permissions : List Permission) (connection : ℕ)
        (peer : SocketAddr) (last : ℕ) (old new : Protocol) (now : ℕ) (ret : TurnPollRet)
        → HasLearned h permissions connection peer last [] old
        → IsPolled old now ret new
        → (ret ≡ AllocateTcpSocket connection (own_tuple_of h) peer)
        × AwaitsSocket h permissions connection peer last [] new }
    ensures waits { (h : Holder) (permissions : List Permission) (connection : ℕ)
        (peer : SocketAddr) (last : ℕ) (event : TurnEvent) (others : List TurnEvent)
        (old new : Protocol) (now : ℕ) (ret : TurnPollRet)
        → HasLearned h permissions connection peer last (event ∷ others) old
        → IsPolled old now ret new
        → (ret ≡ WaitUntil now) × (new ≡ old) }
{
    proof_requests_are_read();
}

/// A client that requested a socket is given one (RFC 6062, section 4.3):
///
/// - `answered`: unless memory runs out, `allocated_tcp_socket` returns `Ok` if and only if it
///   names the connection ID and the peer that were requested.
/// - `requested`: then a CONNECTION_BIND with that connection ID is queued, to be sent from the
///   socket's own address.
/// - `bound`: once that was transmitted, and its success response comes over the socket, the
///   connection is bound, and the event for it is queued.
pub fn connections_are_joined()
    ensures answered { (h : Holder) (permissions : List Permission) (connection number : ℕ)
        (peer to here : SocketAddr) (last : ℕ) (events : List TurnEvent) (old new : Protocol)
        (now : ℕ) (answer : Result (Unit {0}) TcpAllocateError)
        → AwaitsSocket h permissions connection peer last events old
        → IsSocketAnswered old number (own_tuple_of h) to (Some here) now answer new
        → answer ≢ Err not_taken.NoMemory
        → ((answer ≡ Ok tt) ↔ ((number ≡ connection) × (to ≡ peer))) }
    ensures requested { (h : Holder) (permissions : List Permission) (connection : ℕ)
        (peer here : SocketAddr) (last : ℕ) (events : List TurnEvent) (old new : Protocol)
        (now : ℕ)
        → AwaitsSocket h permissions connection peer last events old
        → IsSocketAnswered old connection (own_tuple_of h) peer (Some here) now (Ok tt) new
        → (number : ℕ) × (number < 2 ^ 96) × (connection < 2 ^ 32)
        × HasRequestedBind h [] permissions here peer connection number now last events new }
    ensures bound { (h : Holder) (older : List Requested) (permissions : List Permission)
        (here peer : SocketAddr) (connection number made last : ℕ) (head : List ℕ)
        (events : List TurnEvent) (old new : Protocol) (bytes : List ℕ) (now : ℕ)
        → HasSentBind h older permissions here peer connection number made last head events old
        → IsSuccessOf h connection_bind_method number bytes
        → IsProcessedAt here old bytes now new
        → IsBound h older permissions here peer connection last (alive head)
        (events ++ TcpConnected peer ∷ []) new }
{
    proof_requests_are_read();
}

/// How a message from the server reaches a client over TCP that has allocated (RFC 8656, section
/// 12.5):
///
/// - `chunk`: a chunk that does not complete the message is buffered, and nothing else changes.
/// - `whole`: the chunk that completes it, wherever it was cut, makes the client handle it, if it
///   is no indication. Afterwards nothing of the stream is buffered.
///
/// In both cases memory may run out instead: then the client has failed.
pub fn messages_reach_holders<T: AsSlice<u8>>()
    ensures chunk { (b : Beginning) (old new : ClientState) (came : Transmit T) (now : ℕ)
        (answer : TurnRecvRet T) (before message : List ℕ)
        → IsOf b old.core
        → HasCome before old
        → IsFromServer b came
        → T.items came.bytes ≢ []
        → IsPartOf (before ++ T.items came.bytes) message
        → IsReceived T.items old came now answer new
        → ((answer ≡ Handled) × (new.core ≡ old.core)
        × HasCome (before ++ T.items came.bytes) new)
        ⊎ IsLost old came answer new }
    ensures whole { (b : Beginning) (old new : ClientState) (came : Transmit T) (now : ℕ)
        (answer : TurnRecvRet T) (before : List ℕ)
        → IsOf b old.core
        → HasCome before old
        → IsFromServer b came
        → T.items came.bytes ≢ []
        → refusal (before ++ T.items came.bytes) ≡ None
        → is_indication (class_of (kind_at (before ++ T.items came.bytes))) ≡ false
        → IsReceived T.items old came now answer new
        → IsProcessedAs old (before ++ T.items came.bytes) came now (Open (alive [])) answer new
        ⊎ IsLost old came answer new }
{}

/// How a response to a CONNECTION_BIND comes over its socket, which is not that of the client's own
/// connection to the server (RFC 6062, section 4.3):
///
/// - `chunk`: a chunk that does not complete it is buffered, and nothing else changes.
/// - `bound`: the chunk that completes a success response binds the connection. What follows in
///   that chunk comes from the connection's peer.
/// - `challenged`: after the chunk that completes a challenge which the client can answer, another
///   request is queued to be sent from the socket, and the one before stays outstanding (RFC 8489,
///   section 9.2.5).
///
/// In each case memory may run out instead.
pub fn messages_reach_sockets<T: AsSlice<u8>>()
    ensures chunk { (h : Holder) (older : List Requested) (permissions : List Permission)
        (here peer : SocketAddr) (connection number made last : ℕ) (head : List ℕ)
        (events : List TurnEvent) (old new : ClientState) (came : Transmit T) (now : ℕ)
        (answer : TurnRecvRet T) (message : List ℕ)
        → HasSentBind h older permissions here peer connection number made last head events
        old.core
        → here ≢ h.started.here
        → HasCome [] old
        → IsFromServerTo h.started here came
        → T.items came.bytes ≢ []
        → IsPartOf (head ++ T.items came.bytes) message
        → IsReceived T.items old came now answer new
        → (HasSentBind h older permissions here peer connection number made last
        (head ++ T.items came.bytes) events new.core × HasCome [] new)
        ⊎ (answer ≡ NoMemory came) }
    ensures bound { (h : Holder) (older : List Requested) (permissions : List Permission)
        (here peer : SocketAddr) (connection number made last : ℕ) (head : List ℕ)
        (events : List TurnEvent) (old new : ClientState) (came : Transmit T) (now : ℕ)
        (answer : TurnRecvRet T) (message more : List ℕ)
        → HasSentBind h older permissions here peer connection number made last head events
        old.core
        → here ≢ h.started.here
        → HasCome [] old
        → IsFromServerTo h.started here came
        → T.items came.bytes ≢ []
        → refusal message ≡ None
        → head ++ T.items came.bytes ≡ message ++ more
        → IsSuccessOf h connection_bind_method number message
        → IsReceived T.items old came now answer new
        → (IsBound h older permissions here peer connection last (alive more)
        (events ++ TcpConnected peer ∷ []) new.core × HasCome [] new)
        ⊎ (answer ≡ NoMemory came) }
    ensures challenged { (h : Holder) (older : List Requested) (permissions : List Permission)
        (here peer : SocketAddr) (connection number made last : ℕ) (head : List ℕ)
        (events : List TurnEvent) (old new : ClientState) (came : Transmit T) (now : ℕ)
        (answer : TurnRecvRet T) (reported : ChallengeFields) (some : IntegrityAlgorithm)
        → HasSentBind h older permissions here peer connection number made last head events
        old.core
        → here ≢ h.started.here
        → HasCome [] old
        → IsFromServerTo h.started here came
        → T.items came.bytes ≢ []
        → refusal (head ++ T.items came.bytes) ≡ None
        → IsChallengeOf reported connection_bind_method number (head ++ T.items came.bytes)
        → CanAnswer h reported some
        → IsReceived T.items old came now answer new
        → ((choice : IntegrityAlgorithm) × CanAnswer h reported choice × (next : ℕ) × (next < 2 ^
        96)
        × HasRequestedBind (challenged_by h reported choice)
        (bind_request h connection number made ∷ older) permissions here peer connection next now
        last events new.core × HasCome [] new)
        ⊎ (answer ≡ NoMemory came) }
{
    proof_requests_are_read();
    texts_stay_read();
    proof_texts_stay_short();
}

/// What is listed of a client that binds a connection (RFC 6062, section 4):
///
/// - `none_waits` and `joining_none`: until the connection is bound, no bytes of its peer are
///   buffered.
/// - `visible`: once it is bound, the client lists that connection alone, with its own address, its
///   peer and its connection ID, as bound.
pub fn connections_are_listed()
    ensures none_waits { (h : Holder) (awaited : Option Requested) (older : List Requested)
        (permissions : List Permission) (pending : List PendingPermission)
        (connecting : List Connecting) (waiting : List Waiting) (queue : List Queued) (last : ℕ)
        (events : List TurnEvent) (p : Protocol)
        → IsTcpBinding h awaited older (allocation_with h permissions pending connecting waiting [])
        queue last events p
        → raw_waiting p ≡ None }
    ensures joining_none { (h : Holder) (awaited : Option Requested) (older : List Requested)
        (permissions : List Permission) (here peer : SocketAddr) (connection number made last : ℕ)
        (head : List ℕ) (queue : List Queued) (events : List TurnEvent) (p : Protocol)
        → IsTcpBinding h awaited older
        (allocation_of h permissions (joining here peer connection number made head)) queue last
        events p
        → raw_waiting p ≡ None }
    ensures visible { (h : Holder) (older : List Requested) (permissions : List Permission)
        (here peer : SocketAddr) (connection last : ℕ) (stream : Stream)
        (events : List TurnEvent) (p : Protocol)
        → IsBound h older permissions here peer connection last stream events p
        → connections_listed p.allocations ≡ (here, peer, connection, true) ∷ [] }
{}

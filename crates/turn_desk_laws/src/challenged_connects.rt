//! A TURN client over TCP whose CREATE_PERMISSION or CONNECT is challenged, by the contracts of its
//! own calls alone, whatever answers them (RFC 8489, section 9.2.5; RFC 8656, section 10; RFC 6062,
//! section 4.3). The functions do nothing; each contract is a theorem.
//!
//! - [`challenged_permissions_go_again`] and [`challenged_connects_go_again`]: a challenge is
//!   answered by another request, up to nine challenges in a row. A success response to the last
//!   request is accepted, whichever request it was.
//! - [`holders_keep_still`]: what is transmitted and polled meanwhile.
//! - [`challenges_are_counted`]: what changes the count of challenges, and what doesn't.

ghost use Rattle.std.specs.Prelude.{◌≡◌, ◌≤◌, ◌<◌, ◌++◌, ℕ, Bool, true, false};
ghost use Rattle.std.specs.Prelude.{List, [], ◌∷◌, Option, Some, None, Result, Ok};
ghost use Rattle.std.specs.List.{list_any};
ghost use Rattle.std.specs.declared.net.ip_addr.IpAddr.{IpAddr};
ghost use Rattle.std.specs.declared.net.socket_addr.SocketAddr.{SocketAddr};
ghost use Rattle.turn_client_proto_messages.specs.StunTypesWire.declared.algorithm.IntegrityAlgorithm.{IntegrityAlgorithm};
ghost use Rattle.turn_client_proto_messages.specs.StunTypesBase.declared.transport.TransportType.TheVariants.{Tcp};
ghost use Rattle.turn_client_proto_messages.specs.StunProtoClient.Challenges.{ChallengeFields};
ghost use Rattle.turn_client_proto_messages.specs.StunTypesBase.Times.{time_after};
ghost use Rattle.turn_client_proto_messages.specs.TurnTypesAttributes.TurnRegistry.{connect_method};
ghost use Rattle.turn_client_proto_messages.specs.TurnTypesAttributes.TurnRegistry.{create_permission_method};
ghost use Rattle.turn_client_proto_messages.specs.Allocation.Awaited.{has_number};
ghost use Rattle.turn_client_proto_messages.specs.Allocation.declared.allocation.Allocation.{Allocation};
ghost use Rattle.turn_client_proto_messages.specs.Allocation.declared.connection.Connecting.{Connecting};
ghost use Rattle.turn_client_proto_messages.specs.Allocation.declared.connection.Connection.{Connection};
ghost use Rattle.turn_client_proto_messages.specs.Allocation.declared.connection.Waiting.{Waiting};
ghost use Rattle.turn_client_proto_messages.specs.Allocation.declared.permission.PendingPermission.{PendingPermission};
ghost use Rattle.turn_client_proto_messages.specs.Allocation.declared.permission.Permission.{Permission};
ghost use Rattle.turn_client_proto_messages.specs.Api.declared.answer.TurnPollRet.{TurnPollRet};
ghost use Rattle.turn_client_proto_messages.specs.Api.declared.answer.TurnPollRet.TheVariants.{WaitUntil};
ghost use Rattle.turn_client_proto_messages.specs.Api.declared.event.TurnEvent.{TurnEvent};
ghost use Rattle.turn_client_proto_messages.specs.Api.declared.event.TurnEvent.TheVariants.{PermissionCreated};
ghost use Rattle.turn_client_proto_messages.specs.Api.Sent.{Sent};
ghost use Rattle.turn_client_proto_messages.specs.Reported.{connection_reported};
ghost use Rattle.turn_client_proto_messages.specs.Waiting.{Queued, is_answer};
ghost use Rattle.turn_client_proto_step_laws.specs.Recv.Connecting.{IsConnectAnswered};
ghost use Rattle.turn_client_proto_step_laws.specs.Timers.Drawing.{IsTransmitted};
ghost use Rattle.turn_client_proto_messages.specs.Api.Options.{cadence};
ghost use Rattle.turn_client_proto_step_laws.specs.Timers.Polling.{IsPolled};
ghost use Rattle.turn_client_proto_handshake_laws.specs.Core.Permitting.{IsPermissionAnswered};
ghost use Rattle.turn_client_proto_handshake_laws.specs.Core.Receiving.{IsProcessed};
ghost use Rattle.turn_client_proto_handshake_laws.specs.Core.Responding.{most_resends};
ghost use Rattle.turn_client_proto_handshake_laws.specs.Core.declared.protocol.Protocol.{Protocol};
ghost use Rattle.turn_client_proto_handshake_laws.specs.Requested.{Requested, end_of};
ghost use Rattle.turn_client_proto_progress_laws.specs.Holders.{Holder, IsListed, all_requested};
ghost use Rattle.turn_client_proto_progress_laws.specs.Replies.{CanAnswer, IsChallengeOf, IsSuccessOf};
ghost use Rattle.turn_client_proto_progress_laws.specs.Resting.{AreUnrenewed, IsResting};
ghost use Rattle.turn_client_proto_progress_laws.specs.TcpBinding.{HasLearned, HasSentConnect};
ghost use Rattle.turn_client_proto_progress_laws.specs.TcpBinding.{IsHolding, IsReady, IsTcpBinding};
ghost use Rattle.turn_client_proto_progress_laws.specs.TcpBinding.{allocation_with};
ghost use Rattle.turn_desk_laws.specs.ConnectionRequests.{AreRequestsMade, AreInTime, HasConnectAgain};
ghost use Rattle.turn_desk_laws.specs.ConnectionRequests.{HasPermissionAgain, IsPermitting};

use turn_client_proto_messages::laws::{
    proof_requests_are_read, proof_texts_stay_short, texts_stay_read,
};

/// A client over TCP that requested a permission, at last with the transaction ID `id` (RFC 8656,
/// section 10):
///
/// - `challenged`: once that request was transmitted, and a challenge to it comes which the client
///   can answer, the request is queued again under another transaction ID, signed by what the
///   challenge says. Premise: the client has answered at most eight challenges since the last
///   response that it accepted.
/// - `granted`: once that request was transmitted, and its success response comes, the permission
///   is active, the event for it is queued, and the count of challenges begins anew.
pub fn challenged_permissions_go_again()
    ensures challenged { (h : Holder) (ip : IpAddr) (ids : List ℕ) (id made last : ℕ)
        (events : List TurnEvent) (old new : Protocol) (bytes : List ℕ) (now : ℕ) (handled : Bool)
        (reported : ChallengeFields) (some : IntegrityAlgorithm)
        → has_number id ids ≡ true
        → IsPermitting h ip ids id made [] last events old
        → old.resends ≤ most_resends
        → IsChallengeOf reported create_permission_method id bytes
        → CanAnswer h reported some
        → IsProcessed old bytes now handled new
        → HasPermissionAgain h ip id now last events reported old new }
    ensures granted { (h : Holder) (ip : IpAddr) (ids : List ℕ) (id made last : ℕ)
        (events : List TurnEvent) (old new : Protocol) (bytes : List ℕ) (now : ℕ) (handled : Bool)
        → has_number id ids ≡ true
        → IsPermitting h ip ids id made [] last events old
        → IsSuccessOf h create_permission_method id bytes
        → IsProcessed old bytes now handled new
        → IsReady h ip now last (events ++ PermissionCreated Tcp ip ∷ []) new
        × (new.resends ≡ 0) }
{
    proof_requests_are_read();
    texts_stay_read();
    proof_texts_stay_short();
}

/// A client over TCP that requested a connection to a peer: once its CONNECT was transmitted, and a
/// challenge to it comes which the client can answer, a CONNECT is queued again under another
/// transaction ID, signed by what the challenge says (RFC 8489, section 9.2.5; RFC 6062, section
/// 4.3). Premise: the client has answered at most eight challenges since the last response that it
/// accepted.
pub fn challenged_connects_go_again()
    ensures { (h : Holder) (permissions : List Permission) (peer : SocketAddr) (id made last : ℕ)
        (events : List TurnEvent) (old new : Protocol) (bytes : List ℕ) (now : ℕ) (handled : Bool)
        (reported : ChallengeFields) (some : IntegrityAlgorithm)
        → AreUnrenewed permissions
        → HasSentConnect h permissions peer id made last events old
        → old.resends ≤ most_resends
        → IsChallengeOf reported connect_method id bytes
        → CanAnswer h reported some
        → IsProcessed old bytes now handled new
        → HasConnectAgain h permissions peer id now last events reported old new }
{
    proof_requests_are_read();
    texts_stay_read();
    proof_texts_stay_short();
}

/// A client that holds an allocation over TCP, whatever connections it requested. Premise: its
/// permissions are active, none is to be renewed, and no REFRESH is due.
///
/// - `still`: if no message is queued, `poll_transmit` returns nothing. So over TCP no request is
///   transmitted twice (RFC 8489, section 6.2.2).
/// - `polled`: if no socket is to be requested, no deadline of a connection has passed, and no
///   request is given up, `poll` returns `WaitUntil` a time and changes nothing.
pub fn holders_keep_still()
    ensures still { (h : Holder) (awaited : Option Requested) (older : List Requested)
        (permissions : List Permission) (pending : List PendingPermission)
        (connecting : List Connecting) (waiting : List Waiting) (connections : List Connection)
        (last : ℕ) (events : List TurnEvent) (old new : Protocol) (now : ℕ) (sent : Option Sent)
        → IsTcpBinding h awaited older
        (allocation_with h permissions pending connecting waiting connections) [] last events old
        → IsResting h permissions now
        → IsTransmitted old now sent new
        → (sent ≡ None) × (new ≡ old) }
    ensures polled { (h : Holder) (awaited : Option Requested) (older : List Requested)
        (permissions : List Permission) (pending : List PendingPermission)
        (connecting : List Connecting) (waiting : List Waiting) (connections : List Connection)
        (queue : List Queued) (last : ℕ) (events : List TurnEvent) (old new : Protocol) (now : ℕ)
        (ret : TurnPollRet)
        → IsTcpBinding h awaited older
        (allocation_with h permissions pending connecting waiting connections) queue last events
        old
        → list_any is_answer queue ≡ false
        → IsResting h permissions now
        → AreRequestsMade waiting
        → AreInTime now connections
        → ((x : Requested) → IsListed x (all_requested awaited older) → now < end_of h.started x)
        → IsPolled old now ret new
        → (time : ℕ) × (ret ≡ WaitUntil time) × (new ≡ old) }
{}

/// The count of challenges that a client answered since the last response that it accepted stays
/// the same when it transmits a queued message (`transmitted`), and when a permission or a
/// connection is requested (`permission`, `connection`).
pub fn challenges_are_counted()
    ensures transmitted { (h : Holder) (awaited : Option Requested) (older : List Requested)
        (a : Allocation) (one : Queued) (rest : List Queued) (last : ℕ) (events : List TurnEvent)
        (old new : Protocol) (now : ℕ) (sent : Option Sent)
        → IsTcpBinding h awaited older a (one ∷ rest) last events old
        → time_after last cadence ≤ now
        → IsTransmitted old now sent new
        → new.resends ≡ old.resends }
    ensures permission { (h : Holder) (last : ℕ) (events : List TurnEvent) (old new : Protocol)
        (ip : IpAddr) (now : ℕ)
        → IsHolding h last events old
        → IsPermissionAnswered old Tcp ip now (Ok tt) new
        → new.resends ≡ old.resends }
    ensures connection { (h : Holder) (ip : IpAddr) (granted last : ℕ) (events : List TurnEvent)
        (old new : Protocol) (peer : SocketAddr) (now : ℕ)
        → IsReady h ip granted last events old
        → IsConnectAnswered old peer now (Ok tt) new
        → new.resends ≡ old.resends }
{}

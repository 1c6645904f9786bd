//! A small loop, and clients that do something else. They show that what a loop is
//! ([`turn_desk_progress_laws::loops`]) can be met, and that what is promised of one excludes
//! something. The functions do nothing; each contract is a theorem, on the definitions alone.
//!
//! `specs/Small.antt` has the loop.

ghost use Rattle.std.specs.Prelude.{◌≡◌, ◌≢◌, ◌≤◌, ◌<◌, ℕ, List, [], ◌∷◌, length};
ghost use Rattle.std.specs.declared.net.socket_addr.SocketAddr.{SocketAddr};
ghost use Rattle.turn_desk_core.specs.StunTypesBase.declared.data.Data.{Data};
ghost use Rattle.turn_desk_core.specs.StunTypesBase.declared.transmit.Transmit.{Transmit as Sending};
ghost use Rattle.turn_desk_core.specs.StunTypesBase.declared.transport.TransportType.{TransportType};
ghost use Rattle.turn_client_proto_messages.specs.Allocation.Listed.{relayed_listed};
ghost use Rattle.turn_client_proto_messages.specs.StunProtoClient.Digests.{IsRight};
ghost use Rattle.turn_client_proto_api.specs.Sent.{Sent, sent_of};
ghost use Rattle.turn_client_proto_api.specs.declared.event.TurnEvent.{TurnEvent};
ghost use Rattle.turn_client_proto_handshake_laws.specs.Sent.{first_sent};
ghost use Rattle.turn_desk_core.specs.StunProtoServer.Server.{Server};
ghost use Rattle.turn_desk_core.specs.StunTypesWire.Grammar.{number_at};
ghost use Rattle.turn_desk_core.specs.StunTypesWire.declared.algorithm.IntegrityAlgorithm.{IntegrityAlgorithm};
ghost use Rattle.turn_desk_event.specs.declared.answer.Answer.TheVariants.{Nothing, Transmit};
ghost use Rattle.turn_desk_world_laws.specs.World.Model.{World};
ghost use Rattle.turn_desk_progress_laws.specs.Loops.{IsLoop, IsOnSchedule, IsSecondRequest};
ghost use Rattle.turn_desk_progress_laws.specs.Loops.{IsSignedAgain, IsSignedInTime, Timing, start};
ghost use Rattle.turn_desk_progress_laws.specs.Promises.{CannotAgree, HasClient, IsAllocated};
ghost use Rattle.turn_desk_progress_laws.specs.Promises.{key_in_realm};
ghost use Rattle.turn_desk_progress_laws.specs.Scripts.{Plan};
ghost use Rattle.turn_desk_progress_laws.specs.Small.{Exchange, MayHappen, request_made_once, challenged_early};
ghost use Rattle.turn_desk_progress_laws.specs.Small.{signed_once, small_end, small_loop, small_plan};

/// There are loops. In `small_loop`, over UDP, the first reply comes after 20 ms. The second
/// request is lost once and retransmitted, and its reply comes 501 ms after it was first
/// transmitted. The server core's clock is two hours ahead of the client's.
///
/// Premises (`MayHappen`): the requests reach the server core unaltered, its nonces are valid for
/// more than 525 ms, and the address that is allocated is one of IPv4, without flow information and
/// scope. Addresses, user, seeds and lifetime are any.
pub fn loops_take_their_time()
    ensures { (e : Exchange) (server : Server)
        → MayHappen e server
        → IsLoop (small_plan e) server start (small_loop e) (small_end e) }
{}

/// What the schedules exclude, in the small loop. The first request was transmitted at 0 ms; its
/// second slot is at 500 ms. The challenge came at 20 ms; from 50 ms on, the second request may be
/// transmitted.
///
/// - `due`: A draw at 500 ms gives nothing.
/// - `early`: A draw 1 ns before gives the request.
/// - `unsigned`: A draw at 50 ms gives nothing.
/// - `soon`: A draw 1 ns before gives the second request.
///
/// None of them is what a loop promises.
///
/// `request_made` and `signed`: What the small loop has in their places is: the first request at 500
/// ms; and at 50 ms a request that is valid under the user's key (`IsSecondRequest`).
pub fn draws_keep_the_schedule()
    ensures due { (e : Exchange)
        → IsOnSchedule (small_plan e) request_made_once 500_000_000 Nothing → ⊥ }
    ensures early { (e : Exchange)
        → IsOnSchedule (small_plan e) request_made_once 499_999_999 (Transmit e.first) → ⊥ }
    ensures unsigned { (e : Exchange) (old : World)
        → IsSignedInTime (small_plan e) old challenged_early 50_000_000 Nothing → ⊥ }
    ensures soon { (e : Exchange) (old : World)
        → IsSignedInTime (small_plan e) old challenged_early 49_999_999 (Transmit e.second) → ⊥ }
    ensures request_made { (e : Exchange) → sent_of e.first ≡ first_sent (small_plan e).client
        → IsOnSchedule (small_plan e) request_made_once 500_000_000 (Transmit e.first) }
    ensures signed { (e : Exchange) (old : World)
        → IsSecondRequest (small_plan e) old (sent_of e.second)
        → IsSignedInTime (small_plan e) old challenged_early 50_000_000 (Transmit e.second) }
{}

/// What is promised of the requests excludes these, of any client:
///
/// - `numbered`: The second request is transmitted again with another transaction ID.
/// - `altered`: It is transmitted again with other bytes, or between other addresses.
/// - `unkeyed`: A second request that isn't valid under the user's key in the server core's realm,
///   by any algorithm, is transmitted from 50 ms after the last message on.
/// - `strange`: One that is sent from another address than the client's is.
///
/// `again`: In the small loop, the second request at 520 ms is what is promised.
pub fn sent_requests_are_the_clients()
    ensures numbered { (plan : Plan) (t : Timing) (now : ℕ) (request : Sent) (sent : Sending Data)
        → number_at (sent_of sent).bytes ≢ number_at request.bytes
        → IsSignedAgain plan t now request (Transmit sent) → ⊥ }
    ensures altered { (plan : Plan) (t : Timing) (now : ℕ) (request : Sent) (sent : Sending Data)
        → sent_of sent ≢ request
        → IsSignedAgain plan t now request (Transmit sent) → ⊥ }
    ensures unkeyed { (plan : Plan) (old : World) (request : Sent)
        → ((a : IntegrityAlgorithm) → IsRight request.bytes (key_in_realm plan old a) → ⊥)
        → IsSecondRequest plan old request → ⊥ }
    ensures strange { (plan : Plan) (old : World) (request : Sent)
        → request.from ≢ plan.client.here
        → IsSecondRequest plan old request → ⊥ }
    ensures again { (e : Exchange)
        → IsSignedAgain (small_plan e) signed_once 520_000_000 (sent_of e.second)
        (Transmit e.second) }
{}

/// What is promised once the second reply has come excludes these, of any client:
///
/// - `other`: It lists other relayed addresses than the granted one alone: another, none, or one
///   more.
/// - `twice`: It reports two events or more.
/// - `unreported`: It reports nothing, and has nothing left to report.
/// - `ungranted`: The server core granted nothing.
/// - `unkeyed`: The reply isn't valid under the user's key, by any algorithm.
///
/// And a client that can't agree with the server core lists no relayed address (`refused`).
pub fn allocations_are_the_granted_ones()
    ensures other { (plan : Plan) (old new : World) (reported : List TurnEvent) (request : Sent)
        (address : SocketAddr) (lifetime : ℕ) (reply : List ℕ)
        (listed : List (TransportType × SocketAddr))
        → listed ≢ (plan.client.config.transport, address) ∷ []
        → HasClient plan [] new (λ p. relayed_listed p.allocations ≡ listed)
        → IsAllocated plan old reported request address lifetime reply new → ⊥ }
    ensures twice { (plan : Plan) (old new : World) (reported : List TurnEvent) (request : Sent)
        (address : SocketAddr) (lifetime : ℕ) (reply : List ℕ)
        → 2 ≤ length reported
        → IsAllocated plan old reported request address lifetime reply new → ⊥ }
    ensures unreported { (plan : Plan) (old new : World) (request : Sent)
        (address : SocketAddr) (lifetime : ℕ) (reply : List ℕ)
        → HasClient plan [] new (λ p. p.events ≡ [])
        → IsAllocated plan old [] request address lifetime reply new → ⊥ }
    ensures ungranted { (plan : Plan) (old new : World) (reported : List TurnEvent)
        (request : Sent) (address : SocketAddr) (lifetime : ℕ) (reply : List ℕ)
        → new.desk.grants ≡ old.desk.grants
        → IsAllocated plan old reported request address lifetime reply new → ⊥ }
    ensures unkeyed { (plan : Plan) (old new : World) (reported : List TurnEvent)
        (request : Sent) (address : SocketAddr) (lifetime : ℕ) (reply : List ℕ)
        → ((a : IntegrityAlgorithm) → IsRight reply (key_in_realm plan old a) → ⊥)
        → IsAllocated plan old reported request address lifetime reply new → ⊥ }
    ensures refused { (plan : Plan) (old new : World) (reported : List TurnEvent)
        (listed : List (TransportType × SocketAddr))
        → listed ≢ []
        → HasClient plan [] new (λ p. relayed_listed p.allocations ≡ listed)
        → CannotAgree plan old reported new → ⊥ }
{}

//! What is requested is held also if the server core challenges the request for it, for a driver
//! that calls the client whenever it likes, over a network that takes time (RFC 8489, sections 9.2.4
//! and 9.2.5; RFC 8656, sections 10 to 12). A draw is a call of `poll_transmit`. The functions do
//! nothing; each contract is a theorem on a simulation of client and server core.
//!
//! - `specs/RequestLoops.antt` says what may happen, and what a draw gives.
//! - `specs/AwaitedRequests.antt` says of which request the response is awaited.

ghost use Rattle.std.specs.Prelude.{◌≡◌, ◌≤◌, ◌<◌, ◌+◌, ℕ, List, [], Vec};
ghost use Rattle.std.specs.declared.alloc.Global.{Global};
ghost use Rattle.std.specs.declared.net.ip_addr.IpAddr.{IpAddr};
ghost use Rattle.std.specs.declared.net.socket_addr.SocketAddr.{SocketAddr};
ghost use Rattle.turn_desk_core.specs.StunTypesBase.Times.{time_after};
ghost use Rattle.turn_desk_core.specs.StunTypesBase.declared.transport.TransportType.{TransportType};
ghost use Rattle.turn_client_proto_messages.specs.StunProtoTransaction.Schedule.{end_at};
ghost use Rattle.turn_client_proto_messages.specs.Api.Options.{cadence};
ghost use Rattle.turn_client_proto_handshake_laws.specs.Core.Responding.{most_resends};
ghost use Rattle.turn_desk_world_laws.specs.World.Model.{World};
ghost use Rattle.turn_desk_world_laws.specs.World.Runs.{IsRun, IsStep};
ghost use Rattle.turn_desk_event.specs.declared.answer.Answer.{Answer};
ghost use Rattle.turn_desk_event.specs.declared.event.ClientCall.{ClientCall};
ghost use Rattle.turn_desk_event.specs.declared.event.ClientCall.TheVariants.{BindChannel, CreatePermission};
ghost use Rattle.turn_desk_event.specs.declared.event.Event.{Event};
ghost use Rattle.turn_desk_event.specs.declared.event.Event.TheVariants.{Draw, ToClient};
ghost use Rattle.turn_desk_progress_laws.specs.Promises.{HasClient};
ghost use Rattle.turn_desk_progress_laws.specs.RequestPromises.{IsChannelHeld, IsPermissionHeld};
ghost use Rattle.turn_desk_progress_laws.specs.Scripts.{BringsOn, Plan};
ghost use Rattle.turn_desk_laws.specs.AwaitedRequests.{HasCalled, HasQueued, IsRequestAwaited};
ghost use Rattle.turn_desk_laws.specs.AwaitedRequests.{IsRequestedAgain, IsWithin};
ghost use Rattle.turn_desk_laws.specs.RequestLoops.{Challenged, Got, HasAllocated, HasLastSent};
ghost use Rattle.turn_desk_laws.specs.RequestLoops.{IsAskingLoop, IsDrawOf, IsNext, IsQueued};
ghost use Rattle.turn_desk_laws.specs.RequestLoops.{IsRequestCall, Pending, RequestPosition, requested};

use crate::requests::loops_leave_speakers;
use turn_client_proto_messages::laws::{proof_requests_are_read, signed_requests_claim};
use turn_desk_progress_laws::loops::honest_loops_allocate;

/// The client makes a request for a permission or a channel, and makes another one after each
/// challenge.
///
/// # Premises
///
/// 1. A loop has ended with an allocation, and a clean run has followed (`HasAllocated`).
/// 2. `create_permission` or `bind_channel` then succeeds at the time `made`, and makes a request.
///    The allocation doesn't end by `beyond`. At the call, the client has answered `challenges`
///    challenges in a row, with no success response between them (`HasCalled`). Who sees the
///    network's log knows how many.
/// 3. Until a time `until`, by which the client neither gives the request up, by its schedule, nor
///    loses its allocation (`IsWithin`), calls are as in `loops_hold_what_is_requested`, and the
///    server core is reached by anything (`IsAskingLoop`). Then the server core challenges the
///    request: its nonce for the client has expired, say. All of the challenge reaches the client
///    from the server's address, unaltered, at any time no later than `until`: over UDP as one
///    datagram, over TCP in chunks, each at its own time. Its last chunk is `bytes`.
/// 4. Before this challenge, the client has answered at most eight in a row (`most_resends`): the
///    tenth would end it. The operator of the server core knows how often it challenges.
///
/// # Conclusions
///
/// - `none`: Right after the loop, `challenges` is 0.
/// - `first`: The client awaits the response to the request of the call. It doesn't give it up by
///   any time before the end of its schedule, which begins at `made`.
/// - `queued`: That request is queued after the messages that were queued before the call.
/// - `again`: The client makes another request for the same, with another transaction ID, under the
///   nonce of the challenge. It is queued last, and the client awaits its response in the same way,
///   by the schedule that begins when the challenge had come. So it may be challenged once more, at
///   most nine times in a row.
///
/// That this request is drawn, and what is held once it is granted, is in
/// [`challenged_loops_hold_what_is_requested`].
pub fn loops_make_requests_again()
    ensures none { (plan : Plan) (old two : World) (address : SocketAddr)
        (has : HasAllocated plan old address two)
        → has.second ≡ []
        → HasClient plan [] two (λ p. p.resends ≡ 0) }
    ensures first { (plan : Plan) (old two three : World) (address : SocketAddr)
        (what : ClientCall) (request : List ℕ) (made until beyond challenges : ℕ)
        → HasAllocated plan old address two
        → IsRequestCall what
        → HasCalled plan what made beyond challenges request two three
        → until < end_at made plan.client.config.waits
        → IsRequestAwaited plan old address what request until beyond challenges three }
    ensures queued { (plan : Plan) (old two three : World) (address : SocketAddr)
        (what : ClientCall) (request : List ℕ) (made beyond challenges many : ℕ)
        → HasAllocated plan old address two
        → IsRequestCall what
        → HasCalled plan what made beyond challenges request two three
        → HasQueued plan many two
        → IsQueued plan request many three }
    ensures again { (plan : Plan) (old three four five : World) (address : SocketAddr)
        (what : ClientCall) (request reply head : List ℕ) (third : List (Event × Answer))
        (made sent until beyond later challenges now : ℕ) (position : RequestPosition)
        (bytes : Vec ℕ Global) (ret : Answer)
        → IsRequestAwaited plan old address what request until beyond challenges three
        → IsWithin beyond until
        → challenges ≤ most_resends
        → IsRun three third four
        → IsAskingLoop plan request until (requested made sent) third position
        → position.stage ≡ Challenged reply head
        → BringsOn plan.client.transport reply head bytes.items []
        → IsNext until position now
        → IsStep (ToClient bytes plan.client.server plan.client.here now) four ret five
        → later < end_at now plan.client.config.waits
        → IsRequestedAgain plan old address what request reply later beyond (challenges + 1) four
        five }
{
    honest_loops_allocate();
    loops_leave_speakers();
    proof_requests_are_read();
    signed_requests_claim();
}

/// What is requested is held once a request for it is granted, whether or not earlier ones were
/// challenged (`IsRequestAwaited`, by [`loops_make_requests_again`]).
///
/// The premises and conclusions are those of `loops_hold_what_is_requested`, of a request that the
/// client made at the time `made`:
///
/// - `permission`, `channel`: Once all of the success response has come, the client has the
///   permission, or the channel. It counts no challenge any more (`challenges` is 0), so it may be
///   challenged nine times in a row again.
/// - `queued`: Until a draw gives the request, it is queued, behind no more messages than at first.
/// - `sendings`: What a draw gives until then: so that a draw gives the request is no premise. That
///   the last message before came no later than `sent` is a premise of this conclusion alone.
pub fn challenged_loops_hold_what_is_requested()
    ensures permission { (plan : Plan) (old three four : World) (address : SocketAddr)
        (transport : TransportType) (ip : IpAddr) (request grant : List ℕ)
        (third : List (Event × Answer)) (made sent until beyond challenges now : ℕ)
        (position : RequestPosition)
        → IsRequestAwaited plan old address (CreatePermission transport ip) request until beyond
        challenges three
        → IsWithin beyond until
        → IsRun three third four
        → IsAskingLoop plan request until (requested made sent) third position
        → position.stage ≡ Got grant
        → IsNext until position now
        → IsPermissionHeld plan ip now four × HasClient plan [] four (λ p. p.resends ≡ 0) }
    ensures channel { (plan : Plan) (old three four : World) (address : SocketAddr)
        (transport : TransportType) (peer : SocketAddr) (request grant : List ℕ)
        (third : List (Event × Answer)) (made sent until beyond challenges now : ℕ)
        (position : RequestPosition)
        → IsRequestAwaited plan old address (BindChannel transport peer) request until beyond
        challenges three
        → IsWithin beyond until
        → IsRun three third four
        → IsAskingLoop plan request until (requested made sent) third position
        → position.stage ≡ Got grant
        → IsNext until position now
        → IsChannelHeld plan peer now four × HasClient plan [] four (λ p. p.resends ≡ 0) }
    ensures queued { (plan : Plan) (old three w : World) (address : SocketAddr)
        (what : ClientCall) (request : List ℕ) (third : List (Event × Answer))
        (made sent until beyond challenges most : ℕ) (position : RequestPosition)
        → IsRequestAwaited plan old address what request until beyond challenges three
        → IsWithin beyond until
        → IsQueued plan request most three
        → sent ≤ made
        → IsRun three third w
        → IsAskingLoop plan request until (requested made sent) third position
        → position.stage ≡ Pending
        → (ahead : ℕ) × (ahead ≤ most) × IsQueued plan request ahead w }
    ensures sendings { (plan : Plan) (old three w v : World) (address : SocketAddr)
        (what : ClientCall) (request : List ℕ) (third : List (Event × Answer))
        (made sent until beyond challenges ahead now : ℕ) (position : RequestPosition)
        (ret : Answer)
        → IsRequestAwaited plan old address what request until beyond challenges three
        → IsWithin beyond until
        → HasClient plan [] three (λ p. HasLastSent sent p)
        → sent ≤ made
        → IsRun three third w
        → IsAskingLoop plan request until (requested made sent) third position
        → position.stage ≡ Pending
        → IsQueued plan request ahead w
        → IsNext until position now
        → time_after position.sent cadence ≤ now
        → IsStep (Draw now) w ret v
        → IsDrawOf plan request ahead w ret v }
{
    proof_requests_are_read();
    signed_requests_claim();
}

//! What is requested is held, for a driver that calls the client whenever it likes, over a network
//! that takes time (RFC 8489, sections 6.2.1 and 6.3.1; RFC 8656, sections 10 to 12). A draw is a
//! call of `poll_transmit`. The functions do nothing; each contract is a theorem on a simulation of
//! client and server core.
//!
//! `specs/RequestLoops.antt` says what may happen, and what a draw gives.

ghost use Rattle.std.specs.Prelude.{◌≡◌, ◌≤◌, ◌↔◌, List, [], length, ℕ};
ghost use Rattle.std.specs.declared.net.ip_addr.IpAddr.{IpAddr};
ghost use Rattle.std.specs.declared.net.socket_addr.SocketAddr.{SocketAddr};
ghost use Rattle.turn_desk_core.specs.StunTypesBase.Times.{time_after};
ghost use Rattle.turn_desk_core.specs.StunTypesBase.declared.transport.TransportType.{TransportType};
ghost use Rattle.turn_client_proto_api.specs.Sent.{Sent};
ghost use Rattle.turn_client_proto_messages.specs.Api.Options.{cadence};
ghost use Rattle.turn_client_proto_handshake_laws.specs.Driving.{client_end};
ghost use Rattle.turn_client_proto_progress_laws.specs.Asking.{MayBind, MayPermit};
ghost use Rattle.turn_client_proto_progress_laws.specs.Speaking.{Speaks};
ghost use Rattle.turn_desk_world_laws.specs.World.Model.{World};
ghost use Rattle.turn_desk_world_laws.specs.World.Runs.{IsRun, IsStep};
ghost use Rattle.turn_desk_event.specs.declared.answer.Answer.{Answer};
ghost use Rattle.turn_desk_event.specs.declared.answer.Answer.TheVariants as answer;
ghost use Rattle.turn_desk_event.specs.declared.event.ClientCall.{ClientCall};
ghost use Rattle.turn_desk_event.specs.declared.event.ClientCall.TheVariants.{BindChannel, CreatePermission};
ghost use Rattle.turn_desk_event.specs.declared.event.Event.{Event};
ghost use Rattle.turn_desk_event.specs.declared.event.Event.TheVariants.{Call, Draw};
ghost use Rattle.turn_desk_progress_laws.specs.Asking.{IsRequestOf};
ghost use Rattle.turn_desk_progress_laws.specs.Loops.{IsLoop, MayBegin, Position, start};
ghost use Rattle.turn_desk_progress_laws.specs.Promises.{HasClient};
ghost use Rattle.turn_desk_progress_laws.specs.RequestPromises.{IsChannelHeld, IsPermissionHeld};
ghost use Rattle.turn_desk_progress_laws.specs.Scripts.{Done, Plan};
ghost use Rattle.turn_desk_laws.specs.RequestLoops.{Got, HasAllocated, HasLastSent, HasMade};
ghost use Rattle.turn_desk_laws.specs.RequestLoops.{IsAskingLoop, IsDrawOf, IsNext, IsQueued};
ghost use Rattle.turn_desk_laws.specs.RequestLoops.{IsRequestCall, Pending, RequestPosition, requested};

use turn_client_proto_handshake_laws::stages::{
    granted_clients_hold, messages_reach_clients, stages_are_unserved,
};
use turn_client_proto_messages::laws::{proof_requests_are_read, signed_requests_claim};
use turn_client_proto_progress_laws::channels::channels_are_requested_for;
use turn_client_proto_progress_laws::requests::{holders_speak, permissions_are_requested_for};
use turn_desk_progress_laws::loops::honest_loops_allocate;

/// After a loop that allocates, the client is established: it has that allocation alone, and signs
/// under a challenge of the server core's realm (RFC 8489, section 9.2.5; RFC 8656, section 7.3).
pub fn loops_leave_speakers()
    ensures { (plan : Plan) (old one : World) (first : List (Event × Answer)) (position : Position)
        (signed : Sent) (address : SocketAddr) (lifetime : ℕ) (reply : List ℕ)
        → MayBegin plan old
        → IsRun old first one
        → IsLoop plan old.desk.auth start first position
        → position.progress ≡ Done signed address lifetime reply
        → HasClient plan [] one (λ p. Speaks plan.client old.desk.auth.realm address p) }
{
    honest_loops_allocate();
    granted_clients_hold();
    stages_are_unserved();
    messages_reach_clients::<&[u8]>();
    holders_speak();
}

/// After a loop that allocates and a clean run (`HasAllocated`), the application requests a
/// permission or a channel:
///
/// - `permitted`, `bindable`: The call succeeds if and only if the client may request this
///   (`MayPermit`, `MayBind`).
/// - `permission_request`, `channel_request`: If it succeeds, there is a request that it made.
pub fn loops_make_requests()
    ensures permitted { (plan : Plan) (old two three : World) (address : SocketAddr) (made : ℕ)
        (transport : TransportType) (ip : IpAddr) (ret : Answer)
        → HasAllocated plan old address two
        → made ≤ client_end
        → IsStep (Call (CreatePermission transport ip) made) two ret three
        → (ret ≡ answer.Done)
        ↔ HasClient plan [] two (λ p. MayPermit plan.client address transport ip made p) }
    ensures bindable { (plan : Plan) (old two three : World) (address : SocketAddr) (made : ℕ)
        (transport : TransportType) (peer : SocketAddr) (ret : Answer)
        → HasAllocated plan old address two
        → made ≤ client_end
        → IsStep (Call (BindChannel transport peer) made) two ret three
        → (ret ≡ answer.Done)
        ↔ HasClient plan [] two (λ p. MayBind plan.client address transport peer made p) }
    ensures permission_request { (plan : Plan) (old two three : World) (address : SocketAddr)
        (made : ℕ) (transport : TransportType) (ip : IpAddr)
        → HasAllocated plan old address two
        → IsStep (Call (CreatePermission transport ip) made) two answer.Done three
        → (request : List ℕ) × IsRequestOf two three request }
    ensures channel_request { (plan : Plan) (old two three : World) (address : SocketAddr)
        (made : ℕ) (transport : TransportType) (peer : SocketAddr)
        → HasAllocated plan old address two
        → IsStep (Call (BindChannel transport peer) made) two answer.Done three
        → (request : List ℕ) × IsRequestOf two three request }
{
    loops_leave_speakers();
    permissions_are_requested_for();
    channels_are_requested_for();
}

/// What is requested is held, whenever its request is transmitted, reaches the server core, and is
/// answered.
///
/// # Premises
///
/// 1. A loop has ended with an allocation, and a clean run has followed (`HasAllocated`): each
///    challenge that reached the client in it is an unaltered reply of the server core.
/// 2. `create_permission` or `bind_channel` then succeeds at the time `made`, and makes a request.
///    Until a time `until`, the client neither gives that request up, by its schedule from `made`
///    on, nor does its allocation end (`HasMade`). Who calls the client knows the schedule, and the
///    lifetime that was granted.
/// 3. Until the reply has come, `poll_transmit`, `poll`, `poll_recv` and the getters are called,
///    events are polled, and further permissions and channels requested, in any order and however
///    often. The times of these calls never go back, and are no later than `until`. No call is
///    presumed to give something or nothing. Anything reaches the server core.
/// 4. Once a draw has given the request, one transmission of it reaches the server core from the
///    client's own address, at any time by the server core's clock. The server core grants it by a
///    success response (if it challenges it: [`crate::challenged_loops`]). That reaches the client
///    from the server's address, unaltered, at any later time no later than `until`: over UDP as
///    one datagram, over TCP in chunks, each at its own time. Nothing else reaches the client
///    (`IsAskingLoop`). Who sees the network's log knows that.
///
/// # Conclusions
///
/// - `permission`: Once all of the response has come, the client has the permission.
/// - `channel`: The client then has a channel to that peer.
/// - Over UDP, let a DATA indication come next from the server's address to the client's, which
///   shows an XOR-PEER-ADDRESS with that IP, a DATA and nothing else; or a frame of that channel.
///   The result is its data (RFC 8656, sections 10 to 12).
/// - `queued`: Until a draw gives the request, it is queued, behind no more messages than were
///   queued before the call.
/// - `sendings`: So that a draw gives it is no premise. While it is queued, let a draw come at least
///   50 ms after the client's last message, which came no later than `sent`. The result is a message
///   (`IsDrawOf`): a request that is due again, of those to which no response has come; or the first
///   of the messages before this request, so that one less is left; or, if none is left, this
///   request. As requests are transmitted again only so often (RFC 8489, section 6.2.1), who draws
///   again and again draws this request. That the last message before the call came no later than
///   `sent` is a premise of this conclusion alone; who draws knows it.
pub fn loops_hold_what_is_requested()
    ensures permission { (plan : Plan) (old two three four : World) (address : SocketAddr)
        (third : List (Event × Answer)) (request grant : List ℕ) (made until sent now : ℕ)
        (ip : IpAddr) (position : RequestPosition)
        → HasAllocated plan old address two
        → HasMade plan (CreatePermission plan.client.config.transport ip) made until request two
        three
        → IsRun three third four
        → IsAskingLoop plan request until (requested made sent) third position
        → position.stage ≡ Got grant
        → IsNext until position now
        → IsPermissionHeld plan ip now four }
    ensures channel { (plan : Plan) (old two three four : World) (address : SocketAddr)
        (third : List (Event × Answer)) (request grant : List ℕ) (made until sent now : ℕ)
        (peer : SocketAddr) (position : RequestPosition)
        → HasAllocated plan old address two
        → HasMade plan (BindChannel plan.client.config.transport peer) made until request two three
        → IsRun three third four
        → IsAskingLoop plan request until (requested made sent) third position
        → position.stage ≡ Got grant
        → IsNext until position now
        → IsChannelHeld plan peer now four }
    ensures queued { (plan : Plan) (old two three w : World) (address : SocketAddr)
        (third : List (Event × Answer)) (request : List ℕ) (made until sent most : ℕ)
        (what : ClientCall) (position : RequestPosition)
        → HasAllocated plan old address two
        → IsRequestCall what
        → HasMade plan what made until request two three
        → HasClient plan [] two (λ p. length p.queue ≡ most)
        → sent ≤ made
        → IsRun three third w
        → IsAskingLoop plan request until (requested made sent) third position
        → position.stage ≡ Pending
        → (ahead : ℕ) × (ahead ≤ most) × IsQueued plan request ahead w }
    ensures sendings { (plan : Plan) (old two three w v : World) (address : SocketAddr)
        (third : List (Event × Answer)) (request : List ℕ) (made until sent ahead now : ℕ)
        (what : ClientCall) (position : RequestPosition) (ret : Answer)
        → HasAllocated plan old address two
        → IsRequestCall what
        → HasMade plan what made until request two three
        → HasClient plan [] two (λ p. HasLastSent sent p)
        → sent ≤ made
        → IsRun three third w
        → IsAskingLoop plan request until (requested made sent) third position
        → position.stage ≡ Pending
        → IsQueued plan request ahead w
        → IsNext until position now
        → time_after position.sent cadence ≤ now
        → IsStep (Draw now) w ret v
        → IsDrawOf plan request ahead w ret v }
{
    loops_leave_speakers();
    proof_requests_are_read();
    signed_requests_claim();
}

//! A client and a server core over an honest network, over TCP. The application of a client that
//! holds an allocation requests a permission, and then a connection to a peer of its IP (RFC 8656,
//! section 10; RFC 6062, section 4.3). Each request is transmitted, delivered to the server core
//! and granted, and the reply is delivered, wherever it is cut. Then the client requests a socket
//! for the connection ID that was decided, and requests over it that the connection be bound; the
//! success response binds it ([`connections_are_bound`]; [`successes_bind`]). A CONNECTION_BIND
//! that is challenged is sent again ([`challenged_bindings_go_again`]). The functions do nothing;
//! each contract is a theorem on a simulation of both.
//!
//! - `specs/Links.antt` says what the network does, by positions that a run passes.
//! - `specs/Linked.antt` says what it comes to.
//! - `specs/Joining.antt` has the state of the simulation at each position. For each event that
//!   leads from one position to another there is a theorem here.

ghost use Rattle.std.specs.Prelude.{◌≡◌, ◌≢◌, ◌++◌, ◌≤◌, ◌<◌, List, [], ◌∷◌, Some, Vec, ℕ};
ghost use Rattle.std.specs.Net.Socket.{socket_ip};
ghost use Rattle.std.specs.declared.alloc.Global.{Global};
ghost use Rattle.std.specs.declared.net.socket_addr.SocketAddr.{SocketAddr};
ghost use Rattle.turn_client_proto_messages.specs.StunProtoClient.Challenges.{ChallengeFields as ChallengeFieldsOf, challenge_visible};
ghost use Rattle.turn_desk_core.specs.StunTypesBase.Times.{time_after};
ghost use Rattle.turn_desk_event.specs.StunProtoTransaction.Schedule.{end_at};
ghost use Rattle.turn_desk_core.specs.StunTypesBase.declared.transport.TransportType.TheVariants.{Tcp};
ghost use Rattle.turn_client_proto_api.specs.declared.answer.Socket5Tuple.{Socket5Tuple};
ghost use Rattle.turn_client_proto_api.specs.Sent.{Sent};
ghost use Rattle.turn_client_proto_handshake_laws.specs.Driving.{client_end};
ghost use Rattle.turn_client_proto_messages.specs.Api.Options.{cadence};
ghost use Rattle.turn_desk_event.specs.declared.answer.Answer.{Answer};
ghost use Rattle.turn_desk_event.specs.declared.answer.Answer.TheVariants.{Reply};
ghost use Rattle.turn_desk_core.specs.declared.decision.Decision.{Decision};
ghost use Rattle.turn_desk_core.specs.declared.decision.Decision.TheVariants as by;
ghost use Rattle.turn_desk_event.specs.declared.event.ClientCall.{ClientCall};
ghost use Rattle.turn_desk_event.specs.declared.event.ClientCall.TheVariants.{AllocatedTcpSocket};
ghost use Rattle.turn_desk_event.specs.declared.event.ClientCall.TheVariants.{CreatePermission};
ghost use Rattle.turn_desk_event.specs.declared.event.ClientCall.TheVariants.{Poll, PollEvent};
ghost use Rattle.turn_desk_event.specs.declared.event.ClientCall.TheVariants.{PollRecv, TcpConnect};
ghost use Rattle.turn_desk_event.specs.declared.event.Event.{Event};
ghost use Rattle.turn_desk_event.specs.declared.event.Event.TheVariants.{Call, Draw};
ghost use Rattle.turn_desk_event.specs.declared.event.Event.TheVariants.{ToClient, ToDesk};
ghost use Rattle.turn_desk_world_laws.specs.World.Model.{World};
ghost use Rattle.turn_desk_world_laws.specs.World.Runs.{IsRun, IsStep};
ghost use Rattle.turn_desk_progress_laws.specs.Promises.{IsFresh};
ghost use Rattle.turn_desk_progress_laws.specs.Scripts.{BringsOn, IsLook, IsScript, Plan, Start};
ghost use Rattle.turn_desk_progress_laws.specs.Scripts.{Done as Allocated};
ghost use Rattle.turn_desk_progress_laws.specs.Joining.{KeepsOwn, IsAtStep};
ghost use Rattle.turn_desk_progress_laws.specs.Rebinding.{At, HasRelinked, IsRelinkScript, Retry};
ghost use Rattle.turn_desk_progress_laws.specs.Rebinding.{IsAtStageAgain};
ghost use Rattle.turn_desk_progress_laws.specs.Rebinding.{Turned, turned};
ghost use Rattle.turn_desk_progress_laws.specs.Linked.{HasLinked, IsOverTcp, IsSuccessTo};
ghost use Rattle.turn_desk_progress_laws.specs.Links.{Answered, AskTransmitted, Requested, Binding, Bound, Called};
ghost use Rattle.turn_desk_progress_laws.specs.Links.{Clear, Transmitted, Eventful, Held, IsAtRest, IsKnowing};
ghost use Rattle.turn_desk_progress_laws.specs.Links.{IsLinkScript, IsMadeAt, IsQuietTime, IsReadyAfter};
ghost use Rattle.turn_desk_progress_laws.specs.Links.{IsSuccess, IsTimelyLink, IsUnbound, Link, Off};
ghost use Rattle.turn_desk_progress_laws.specs.Links.{Opened, Permitted, Permitting, Reached, Reported};
ghost use Rattle.turn_desk_progress_laws.specs.Links.{Unpermitted, Waiting, called, transmitted, emptied};
ghost use Rattle.turn_desk_progress_laws.specs.Links.{permitted_by, polled, seen, brought_reply};

use crate::honest::honest_runs_allocate;
use turn_client_proto_handshake_laws::stages::{
    chosen_clients_sign, ended_clients_rest, granted_clients_hold, messages_reach_clients,
    new_clients_ask, signed_clients_wait, stages_are_reported, stages_are_unserved,
};
use turn_client_proto_messages::laws::{addresses_are_read_back, proof_requests_are_read};
use turn_client_proto_progress_laws::connections::{
    connections_are_joined, connections_are_listed, connections_are_requested_for, holders_can_ask,
    holders_rest, messages_reach_holders, messages_reach_sockets, permissions_are_requested_for,
};
use turn_client_proto_step_laws::reported::messages_are_reported_alike;

/// After an honest run over TCP the client holds its allocation, and nothing is queued.
pub fn handshakes_lead_on()
    ensures { (plan : Plan) (old new : World) (pairs : List (Event × Answer)) (request : Sent)
        (address : SocketAddr) (lifetime : ℕ) (reply : List ℕ) (link : Link)
        → IsFresh plan old
        → IsOverTcp plan
        → IsRun old pairs new
        → IsScript plan Start pairs (Allocated request address lifetime reply)
        → IsAtStep plan old address lifetime link Held new }
{
    honest_runs_allocate();
    proof_requests_are_read();
    new_clients_ask();
    chosen_clients_sign();
    signed_clients_wait();
    ended_clients_rest();
    granted_clients_hold();
    stages_are_reported();
    stages_are_unserved();
    messages_reach_clients::<&[u8]>();
    holders_can_ask();
}

/// A permission is requested. The call is refused only if the peer is of another family than the
/// allocation. Otherwise its request is transmitted, granted and answered, and then the permission
/// is active (RFC 8656, section 10).
pub fn permissions_are_linked()
    ensures requested { (plan : Plan) (old w v : World) (address : SocketAddr) (lifetime : ℕ)
        (link : Link) (ret : Answer)
        → IsTimelyLink plan lifetime link
        → IsAtStep plan old address lifetime link Held w
        → IsStep (Call (CreatePermission Tcp (socket_ip link.peer)) link.requested) w ret v
        → IsAtStep plan old address lifetime link (called ret Requested Unpermitted) v }
    ensures transmitted { (plan : Plan) (old w v : World) (address : SocketAddr) (lifetime : ℕ)
        (link : Link) (ret : Answer)
        → IsTimelyLink plan lifetime link
        → IsAtStep plan old address lifetime link Requested w
        → IsStep (Draw link.granted) w ret v
        → IsAtStep plan old address lifetime link (transmitted ret
        (λ request. AskTransmitted request)) v }
    ensures granted { (plan : Plan) (old w v : World) (address : SocketAddr) (lifetime : ℕ)
        (link : Link) (request : Sent) (bytes reply : Vec ℕ Global) (decision : Decision)
        (seed : List ℕ)
        → IsFresh plan old
        → IsAtStep plan old address lifetime link (AskTransmitted request) w
        → bytes.items ≡ request.bytes
        → IsSuccess reply.items
        → IsStep (ToDesk bytes request.from link.granted decision seed) w (Reply reply) v
        → IsAtStep plan old address lifetime link (Permitting request reply.items []) v }
    ensures given { (plan : Plan) (old w v : World) (address : SocketAddr) (lifetime : ℕ)
        (link : Link) (ret : Answer) (request : Sent) (reply head rest : List ℕ)
        (bytes : Vec ℕ Global)
        → IsOverTcp plan
        → IsTimelyLink plan lifetime link
        → IsAtStep plan old address lifetime link (Permitting request reply head) w
        → BringsOn Tcp reply head bytes.items rest
        → IsStep (ToClient bytes request.to request.from link.granted) w ret v
        → IsAtStep plan old address lifetime link
        (permitted_by request reply (head ++ bytes.items) rest) v }
{
    proof_requests_are_read();
    holders_can_ask();
    holders_rest();
    permissions_are_requested_for();
    messages_reach_holders::<&[u8]>();
}

/// A connection is requested. The call succeeds, and its request is transmitted. If the server core
/// grants it, its reply shows the connection ID that was decided, and then the client knows that ID
/// (RFC 6062, section 4.3).
pub fn connections_are_linked()
    ensures requested { (plan : Plan) (old w v : World) (address : SocketAddr) (lifetime : ℕ)
        (link : Link) (ret : Answer)
        → IsTimelyLink plan lifetime link
        → IsAtStep plan old address lifetime link Permitted w
        → IsStep (Call (TcpConnect link.peer) link.made) w ret v
        → IsAtStep plan old address lifetime link (called ret Called Off) v }
    ensures transmitted { (plan : Plan) (old w v : World) (address : SocketAddr) (lifetime : ℕ)
        (link : Link) (ret : Answer)
        → IsTimelyLink plan lifetime link
        → IsAtStep plan old address lifetime link Called w
        → IsStep (Draw link.first) w ret v
        → IsAtStep plan old address lifetime link (transmitted ret (λ request. Transmitted request))
        v }
    ensures granted { (plan : Plan) (old w v : World) (address : SocketAddr) (lifetime : ℕ)
        (link : Link) (request : Sent) (bytes reply : Vec ℕ Global) (seed : List ℕ)
        → IsFresh plan old
        → IsAtStep plan old address lifetime link (Transmitted request) w
        → bytes.items ≡ request.bytes
        → IsSuccess reply.items
        → IsStep (ToDesk bytes request.from link.first (by.Connect link.number) seed) w
        (Reply reply) v
        → IsAtStep plan old address lifetime link (Reported request reply.items []) v }
    ensures given { (plan : Plan) (old w v : World) (address : SocketAddr) (lifetime : ℕ)
        (link : Link) (ret : Answer) (request : Sent) (reply head rest : List ℕ)
        (bytes : Vec ℕ Global)
        → IsOverTcp plan
        → IsTimelyLink plan lifetime link
        → IsAtStep plan old address lifetime link (Reported request reply head) w
        → BringsOn Tcp reply head bytes.items rest
        → IsStep (ToClient bytes request.to request.from link.first) w ret v
        → IsAtStep plan old address lifetime link
        (brought_reply request reply (head ++ bytes.items) rest) v }
{
    proof_requests_are_read();
    messages_are_reported_alike();
    holders_can_ask();
    holders_rest();
    connections_are_requested_for();
    messages_reach_holders::<&[u8]>();
}

/// The client's events are polled, `poll` is called, and the client requests a socket unless an
/// event is queued. It is given one, and the call succeeds (RFC 6062, section 4.3).
pub fn sockets_are_linked()
    ensures emptied { (plan : Plan) (old w v : World) (address : SocketAddr) (lifetime : ℕ)
        (link : Link) (progress : Reached) (ret : Answer) (now : ℕ)
        → IsKnowing progress
        → IsAtStep plan old address lifetime link progress w
        → now ≤ client_end
        → IsStep (Call PollEvent now) w ret v
        → IsAtStep plan old address lifetime link (emptied ret) v }
    ensures polled_known { (plan : Plan) (old w v : World) (address : SocketAddr) (lifetime : ℕ)
        (link : Link) (progress : Reached) (ret : Answer) (now : ℕ)
        → IsKnowing progress
        → IsAtStep plan old address lifetime link progress w
        → now ≤ client_end
        → IsStep (Call Poll now) w ret v
        → IsAtStep plan old address lifetime link (polled ret Eventful) v }
    ensures polled_clear { (plan : Plan) (old w v : World) (address : SocketAddr) (lifetime : ℕ)
        (link : Link) (ret : Answer) (now : ℕ)
        → IsAtStep plan old address lifetime link Clear w
        → now ≤ client_end
        → IsStep (Call Poll now) w ret v
        → IsAtStep plan old address lifetime link (polled ret Off) v }
    ensures opened { (plan : Plan) (old w v : World) (address : SocketAddr) (lifetime : ℕ)
        (link : Link) (ret : Answer) (number now : ℕ) (socket : Socket5Tuple) (peer : SocketAddr)
        → IsAtStep plan old address lifetime link (Waiting number socket peer) w
        → link.local ≢ plan.client.here
        → now ≤ client_end
        → IsStep (Call (AllocatedTcpSocket link.number link.peer (Some link.local)) now) w ret v
        → IsAtStep plan old address lifetime link (called ret (Opened link.first) Off) v }
{
    holders_rest();
    connections_are_requested_for();
    connections_are_joined();
}

/// The CONNECTION_BIND is transmitted, 50 ms after the last message. If the server core grants it,
/// the client handles the success response as it comes over the socket. Once all of it has come,
/// the connection is bound (RFC 6062, section 4.3).
pub fn bindings_are_linked()
    ensures transmitted { (plan : Plan) (old w v : World) (address : SocketAddr) (lifetime : ℕ)
        (link : Link) (ret : Answer) (last now : ℕ)
        → IsAtStep plan old address lifetime link (Opened last) w
        → time_after last cadence ≤ now
        → now ≤ client_end
        → IsStep (Draw now) w ret v
        → IsAtStep plan old address lifetime link (transmitted ret (λ request. Binding now request))
        v }
    ensures granted { (plan : Plan) (old w v : World) (address : SocketAddr) (lifetime : ℕ)
        (link : Link) (request : Sent) (bytes reply : Vec ℕ Global) (decision : Decision)
        (seed : List ℕ) (sent now : ℕ)
        → IsFresh plan old
        → IsAtStep plan old address lifetime link (Binding sent request) w
        → bytes.items ≡ request.bytes
        → IsSuccess reply.items
        → IsStep (ToDesk bytes request.from now decision seed) w (Reply reply) v
        → IsAtStep plan old address lifetime link (Answered sent request reply.items []) v }
    ensures given { (plan : Plan) (old w v : World) (address : SocketAddr) (lifetime : ℕ)
        (link : Link) (ret : Answer) (request : Sent) (reply head rest : List ℕ)
        (bytes : Vec ℕ Global) (sent now : ℕ)
        → IsOverTcp plan
        → IsAtStep plan old address lifetime link (Answered sent request reply head) w
        → bytes.items ≢ []
        → reply ≡ (head ++ bytes.items) ++ rest
        → rest ≢ []
        → now ≤ client_end
        → IsStep (ToClient bytes request.to request.from now) w ret v
        → IsAtStep plan old address lifetime link
        (Answered sent request reply (head ++ bytes.items)) v }
    ensures ended { (plan : Plan) (old w v : World) (address : SocketAddr) (lifetime : ℕ)
        (link : Link) (ret : Answer) (request : Sent) (reply head more : List ℕ)
        (bytes : Vec ℕ Global) (sent now : ℕ)
        → IsOverTcp plan
        → IsAtStep plan old address lifetime link (Answered sent request reply head) w
        → bytes.items ≢ []
        → head ++ bytes.items ≡ reply ++ more
        → now ≤ client_end
        → IsStep (ToClient bytes request.to request.from now) w ret v
        → IsAtStep plan old address lifetime link (Bound more) v }
{
    proof_requests_are_read();
    holders_can_ask();
    holders_rest();
    connections_are_joined();
    messages_reach_sockets::<&[u8]>();
}

/// The simulation stays at its position if an event of the client's is polled or a getter is called
/// (`looks`), except that an event which kept the client from requesting a socket may be gone. It
/// also stays there if `poll_recv` is called before the connection is bound (`receives`).
pub fn links_stand_still()
    ensures looks { (plan : Plan) (old w v : World) (address : SocketAddr) (lifetime : ℕ)
        (link : Link) (progress : Reached) (what : ClientCall) (now : ℕ) (ret : Answer)
        → IsAtStep plan old address lifetime link progress w
        → IsLook what
        → IsStep (Call what now) w ret v
        → IsAtStep plan old address lifetime link (seen progress) v }
    ensures receives { (plan : Plan) (old w v : World) (address : SocketAddr) (lifetime : ℕ)
        (link : Link) (progress : Reached) (now : ℕ) (ret : Answer)
        → IsFresh plan old
        → IsAtStep plan old address lifetime link progress w
        → IsUnbound progress
        → IsStep (Call PollRecv now) w ret v
        → IsAtStep plan old address lifetime link progress v }
{
    proof_requests_are_read();
    new_clients_ask();
    holders_rest();
    messages_reach_clients::<&[u8]>();
    connections_are_listed();
}

/// While nothing has to be renewed (RFC 8489, section 6.2.1; RFC 8656, sections 8 and 10):
///
/// - `transmitted`, `polled`: If nothing is queued, `poll_transmit` gives nothing, and `poll` only
///   returns to wait.
/// - `early`: If a request is queued, `poll_transmit` gives nothing for 50 ms after the last
///   message.
/// - `waits`: `poll` only returns to wait before the time at which the queued request would be
///   given up.
pub fn links_idle()
    ensures transmitted { (plan : Plan) (old w v : World) (address : SocketAddr) (lifetime : ℕ)
        (link : Link) (progress : Reached) (now : ℕ) (ret : Answer)
        → IsTimelyLink plan lifetime link
        → IsQuietTime plan lifetime link now
        → IsAtRest progress
        → IsAtStep plan old address lifetime link progress w
        → IsStep (Draw now) w ret v
        → IsAtStep plan old address lifetime link progress v }
    ensures polled { (plan : Plan) (old w v : World) (address : SocketAddr) (lifetime : ℕ)
        (link : Link) (progress : Reached) (now : ℕ) (ret : Answer)
        → IsTimelyLink plan lifetime link
        → IsQuietTime plan lifetime link now
        → IsAtRest progress
        → IsAtStep plan old address lifetime link progress w
        → IsStep (Call Poll now) w ret v
        → IsAtStep plan old address lifetime link progress v }
    ensures early { (plan : Plan) (old w v : World) (address : SocketAddr) (lifetime : ℕ)
        (link : Link) (progress : Reached) (last now : ℕ) (ret : Answer)
        → IsReadyAfter plan link progress last
        → now < time_after last cadence
        → IsAtStep plan old address lifetime link progress w
        → IsStep (Draw now) w ret v
        → IsAtStep plan old address lifetime link progress v }
    ensures waits { (plan : Plan) (old w v : World) (address : SocketAddr) (lifetime : ℕ)
        (link : Link) (progress : Reached) (made now : ℕ) (ret : Answer)
        → IsTimelyLink plan lifetime link
        → IsQuietTime plan lifetime link now
        → IsMadeAt link progress made
        → now < end_at made plan.client.config.waits
        → IsAtStep plan old address lifetime link progress w
        → IsStep (Call Poll now) w ret v
        → IsAtStep plan old address lifetime link progress v }
{
    holders_rest();
}

/// If a run follows a script from one position to another, beginning with the simulation in the
/// state of the first, it ends in the state of the last (`occurs`). What is promised at a position
/// holds in its state (`promised`).
pub fn links_lead_on()
    ensures occurs { (plan : Plan) (old w new : World) (address : SocketAddr) (lifetime : ℕ)
        (link : Link) (progress last : Reached) (pairs : List (Event × Answer))
        → IsFresh plan old
        → IsOverTcp plan
        → IsTimelyLink plan lifetime link
        → IsAtStep plan old address lifetime link progress w
        → IsRun w pairs new
        → IsLinkScript plan lifetime link progress pairs last
        → IsAtStep plan old address lifetime link last new }
    ensures promised { (plan : Plan) (old w : World) (address : SocketAddr) (lifetime : ℕ)
        (link : Link) (progress : Reached)
        → IsFresh plan old
        → IsOverTcp plan
        → IsTimelyLink plan lifetime link
        → IsAtStep plan old address lifetime link progress w
        → HasLinked plan old address link progress w }
{
    permissions_are_linked();
    connections_are_linked();
    sockets_are_linked();
    bindings_are_linked();
    links_stand_still();
    links_idle();
    proof_requests_are_read();
    addresses_are_read_back();
    holders_can_ask();
    connections_are_listed();
}

/// A connection to a peer is bound over an honest network.
///
/// # Premises
///
/// A new client over TCP, whose user the server core has, comes to hold an allocation over TCP by
/// an honest run. Nothing is called or delivered then but this (`IsLinkScript`, `IsTimelyLink`):
///
/// 1. A permission for a peer's IP is requested; its request is transmitted, granted and answered.
/// 2. At most 60 s later, and before a REFRESH is due, a connection to that peer is requested; its
///    request is transmitted, granted a connection ID and answered.
/// 3. `poll` is called, and the client is given a socket whose local address isn't the client's
///    own.
/// 4. `poll_transmit` is called 50 ms after the client's last message or later. What it gives is
///    granted and answered over that socket.
///
/// All the time the client's events may be polled and its getters called. Replies come in any
/// chunks.
///
/// # Conclusions
///
/// `promised` (`HasLinked`):
///
/// - The connection is bound, with that local address, that peer and that connection ID.
/// - No call is refused, except the permission if the peer is of another family than the
///   allocation.
/// - Each call of `poll_transmit` for a request gives the request, signed under the user's key in
///   the server core's realm.
/// - When `poll` is called while no event is queued, the client requests a socket for that
///   connection ID and that peer.
///
/// `occurs`: The state of client and server core at each position.
pub fn connections_are_bound()
    ensures promised { (plan : Plan) (old one new : World) (first pairs : List (Event × Answer))
        (request : Sent) (address : SocketAddr) (lifetime : ℕ) (reply : List ℕ) (link : Link)
        (progress : Reached)
        → IsFresh plan old
        → IsOverTcp plan
        → IsRun old first one
        → IsScript plan Start first (Allocated request address lifetime reply)
        → IsTimelyLink plan lifetime link
        → IsRun one pairs new
        → IsLinkScript plan lifetime link Held pairs progress
        → HasLinked plan old address link progress new }
    ensures occurs { (plan : Plan) (old one new : World) (first pairs : List (Event × Answer))
        (request : Sent) (address : SocketAddr) (lifetime : ℕ) (reply : List ℕ) (link : Link)
        (progress : Reached)
        → IsFresh plan old
        → IsOverTcp plan
        → IsRun old first one
        → IsScript plan Start first (Allocated request address lifetime reply)
        → IsTimelyLink plan lifetime link
        → IsRun one pairs new
        → IsLinkScript plan lifetime link Held pairs progress
        → IsAtStep plan old address lifetime link progress new }
{
    handshakes_lead_on();
    links_lead_on();
}

/// After the CONNECTION_BIND was transmitted, any success response to it binds the connection,
/// whoever signs it. The response has the request's transaction ID and method, and is valid under
/// the user's key in the server core's realm by the algorithm of the request. It is delivered to
/// the socket in any chunks, with whatever follows it. What is delivered, and what else may be
/// called meanwhile, is a script from the position at which such a response was replied
/// (`Answered`).
pub fn successes_bind()
    ensures { (plan : Plan) (old one two new : World)
        (first pairs more : List (Event × Answer)) (requested request : Sent) (address : SocketAddr)
        (lifetime : ℕ) (granted reply : List ℕ) (link : Link) (sent : ℕ) (progress : Reached)
        → IsFresh plan old
        → IsOverTcp plan
        → IsRun old first one
        → IsScript plan Start first (Allocated requested address lifetime granted)
        → IsTimelyLink plan lifetime link
        → IsRun one pairs two
        → IsLinkScript plan lifetime link Held pairs (Binding sent request)
        → IsSuccessTo plan old request reply
        → IsRun two more new
        → IsLinkScript plan lifetime link (Answered sent request reply []) more progress
        → HasLinked plan old address link progress new }
{
    connections_are_bound();
    links_lead_on();
    holders_can_ask();
}

/// A CONNECTION_BIND is challenged. At first the server core stored nothing for the socket's
/// address, or a nonce that announces what the server core accepts. So the challenge has the server
/// core's realm and accepts what the server core accepts, and the client can answer it. Once all of
/// it has come over the socket, another CONNECTION_BIND with the same connection ID is queued (RFC
/// 8489, section 9.2.5).
pub fn bindings_are_turned()
    ensures turned { (plan : Plan) (old w v : World) (address : SocketAddr) (lifetime : ℕ)
        (link : Link) (request : Sent) (bytes reply : Vec ℕ Global) (reported : ChallengeFieldsOf)
        (decision : Decision) (seed : List ℕ) (sent now : ℕ)
        → IsFresh plan old
        → KeepsOwn link old.desk.auth
        → IsAtStep plan old address lifetime link (Binding sent request) w
        → bytes.items ≡ request.bytes
        → challenge_visible reply.items ≡ Some reported
        → IsStep (ToDesk bytes link.local now decision seed) w (Reply reply) v
        → IsAtStageAgain plan old address lifetime link (Turned sent request reply.items []) v }
    ensures given { (plan : Plan) (old w v : World) (address : SocketAddr) (lifetime : ℕ)
        (link : Link) (ret : Answer) (request : Sent) (reply head rest : List ℕ)
        (bytes : Vec ℕ Global) (sent now : ℕ)
        → IsOverTcp plan
        → IsAtStageAgain plan old address lifetime link (Turned sent request reply head) w
        → bytes.items ≢ []
        → reply ≡ (head ++ bytes.items) ++ rest
        → now ≤ client_end
        → IsStep (ToClient bytes request.to request.from now) w ret v
        → IsAtStageAgain plan old address lifetime link
        (turned sent request reply (head ++ bytes.items) rest) v }
    ensures looks { (plan : Plan) (old w v : World) (address : SocketAddr) (lifetime : ℕ)
        (link : Link) (ret : Answer) (request : Sent) (reply head : List ℕ) (sent : ℕ)
        (what : ClientCall) (now : ℕ)
        → IsAtStageAgain plan old address lifetime link (Turned sent request reply head) w
        → IsLook what
        → IsStep (Call what now) w ret v
        → IsAtStageAgain plan old address lifetime link (Turned sent request reply head) v }
    ensures receives { (plan : Plan) (old w v : World) (address : SocketAddr) (lifetime : ℕ)
        (link : Link) (ret : Answer) (request : Sent) (reply head : List ℕ) (sent now : ℕ)
        → IsFresh plan old
        → IsAtStageAgain plan old address lifetime link (Turned sent request reply head) w
        → IsStep (Call PollRecv now) w ret v
        → IsAtStageAgain plan old address lifetime link (Turned sent request reply head) v }
{
    proof_requests_are_read();
    new_clients_ask();
    holders_can_ask();
    holders_rest();
    messages_reach_clients::<&[u8]>();
    messages_reach_sockets::<&[u8]>();
    connections_are_listed();
}

/// As [`connections_are_bound`], but the server core challenges the CONNECTION_BIND from the
/// socket's local address once or more, because it stores a nonce for each address. Premise: at
/// first it stored none for this address, or one that announces what it accepts. Each challenged
/// request is sent again, 50 ms after the last. The success response to the last one binds the
/// connection (RFC 6062, section 4.3).
pub fn challenged_bindings_go_again()
    ensures { (plan : Plan) (old one new : World) (first pairs : List (Event × Answer))
        (request : Sent) (address : SocketAddr) (lifetime : ℕ) (reply : List ℕ) (link : Link)
        (progress : Retry)
        → IsFresh plan old
        → IsOverTcp plan
        → KeepsOwn link old.desk.auth
        → IsRun old first one
        → IsScript plan Start first (Allocated request address lifetime reply)
        → IsTimelyLink plan lifetime link
        → IsRun one pairs new
        → IsRelinkScript plan lifetime link (At Held) pairs progress
        → HasRelinked plan old address link progress new }
{
    handshakes_lead_on();
    links_lead_on();
    bindings_are_turned();
}

//! A connection to a peer, by a client that a driver's loop calls, and a server core, over a
//! network that takes time (RFC 8656, section 10; RFC 6062, section 4.3). The application of a
//! client that holds an allocation over TCP requests a permission, and then a connection to a peer
//! of its IP. The client is called whenever the loop likes, each message arrives at any later time,
//! and a request may be challenged ([`loops_bind_connections`]). The functions do nothing; each
//! contract is a theorem on a simulation of both.
//!
//! - `specs/ConnectionLoops.antt` says what the loop and the network do, by positions with times.
//!   It presumes no result of the client's.
//! - `specs/ConnectionPromises.antt` says what calls give, and what it comes to.
//! - `specs/ConnectionStages.antt` has the state of the simulation at each position. For each event
//!   that leads from one position to another there is a theorem here.

ghost use Rattle.std.specs.Prelude.{◌≡◌, ◌≢◌, ◌++◌, ◌≤◌, ◌<◌, List, [], ◌∷◌, Some, Vec, ℕ};
ghost use Rattle.std.specs.Net.Socket.{socket_ip};
ghost use Rattle.std.specs.declared.alloc.Global.{Global};
ghost use Rattle.std.specs.declared.net.socket_addr.SocketAddr.{SocketAddr};
ghost use Rattle.turn_desk_core.specs.StunTypesBase.declared.transport.TransportType.TheVariants.{Tcp};
ghost use Rattle.turn_client_proto_messages.specs.StunProtoClient.Challenges.{ChallengeFields, challenge_visible};
ghost use Rattle.turn_client_proto_api.specs.declared.answer.Socket5Tuple.{Socket5Tuple};
ghost use Rattle.turn_client_proto_api.specs.Sent.{Sent};
ghost use Rattle.turn_client_proto_handshake_laws.specs.Driving.{client_end};
ghost use Rattle.turn_client_proto_progress_laws.specs.Resting.{refresh_due};
ghost use Rattle.turn_desk_event.specs.declared.answer.Answer.{Answer};
ghost use Rattle.turn_desk_event.specs.declared.answer.Answer.TheVariants.{Reply};
ghost use Rattle.turn_desk_core.specs.declared.decision.Decision.{Decision};
ghost use Rattle.turn_desk_event.specs.declared.event.ClientCall.{ClientCall};
ghost use Rattle.turn_desk_event.specs.declared.event.ClientCall.TheVariants.{AllocatedTcpSocket};
ghost use Rattle.turn_desk_event.specs.declared.event.ClientCall.TheVariants.{CreatePermission};
ghost use Rattle.turn_desk_event.specs.declared.event.ClientCall.TheVariants.{Poll, PollRecv};
ghost use Rattle.turn_desk_event.specs.declared.event.ClientCall.TheVariants.{TcpConnect};
ghost use Rattle.turn_desk_event.specs.declared.event.Event.{Event};
ghost use Rattle.turn_desk_event.specs.declared.event.Event.TheVariants.{Call, Draw};
ghost use Rattle.turn_desk_event.specs.declared.event.Event.TheVariants.{ToClient, ToDesk};
ghost use Rattle.turn_desk_world_laws.specs.World.Model.{World};
ghost use Rattle.turn_desk_world_laws.specs.World.Runs.{IsRun, IsStep};
ghost use Rattle.turn_desk_progress_laws.specs.Joining.{ReportsOwn};
ghost use Rattle.turn_desk_progress_laws.specs.Linked.{IsOverTcp};
ghost use Rattle.turn_desk_progress_laws.specs.Links.{IsSuccess};
ghost use Rattle.turn_desk_progress_laws.specs.Loops.{IsLoop, MayBegin, start};
ghost use Rattle.turn_desk_progress_laws.specs.Loops.{Position as LoopPosition};
ghost use Rattle.turn_desk_progress_laws.specs.Scripts.{Done, IsLook, Plan};
ghost use Rattle.turn_desk_laws.specs.ConnectionLoops.{Answered, Bind, Bound, Challenged, Connect};
ghost use Rattle.turn_desk_laws.specs.ConnectionLoops.{Held, IsConnecting, IsDecided, IsQuiet};
ghost use Rattle.turn_desk_laws.specs.ConnectionLoops.{IsUnbound, Known, Leads, MayChallenge};
ghost use Rattle.turn_desk_laws.specs.ConnectionLoops.{MayDraw, MayPoll, Method, Off, Permission};
ghost use Rattle.turn_desk_laws.specs.ConnectionLoops.{Permitted, Position, Queued, Reached};
ghost use Rattle.turn_desk_laws.specs.ConnectionLoops.{Target, Timing, Transmitted, Unpermitted};
ghost use Rattle.turn_desk_laws.specs.ConnectionLoops.{Waiting, after_draw, after_look, after_poll};
ghost use Rattle.turn_desk_laws.specs.ConnectionLoops.{called, challenged, timing_after_draw, holding};
ghost use Rattle.turn_desk_laws.specs.ConnectionLoops.{permitted, requested};
ghost use Rattle.turn_desk_laws.specs.ConnectionPromises.{HasReached, IsDrawAt, IsGivenBy};
ghost use Rattle.turn_desk_laws.specs.ConnectionPromises.{IsPolledAt, IsRequest};
ghost use Rattle.turn_desk_laws.specs.ConnectionStages.{IsAtPosition, IsOfFamily, IsStage};

use crate::challenged_connects::{
    challenged_connects_go_again, challenged_permissions_go_again, challenges_are_counted,
    holders_keep_still,
};
use turn_client_proto_handshake_laws::stages::{
    granted_clients_hold, messages_reach_clients, new_clients_ask, stages_are_reported,
    stages_are_unserved,
};
use turn_client_proto_messages::laws::{addresses_are_read_back, proof_requests_are_read};
use turn_client_proto_progress_laws::connections::{
    connections_are_joined, connections_are_listed, connections_are_requested_for, holders_can_ask,
    holders_rest, messages_reach_holders, messages_reach_sockets, permissions_are_requested_for,
};
use turn_client_proto_step_laws::reported::messages_are_reported_alike;
use turn_desk_progress_laws::loops::honest_loops_allocate;

/// After a loop over TCP the client holds its allocation, and nothing is queued.
pub fn loops_hold()
    ensures { (plan : Plan) (old new : World) (pairs : List (Event × Answer))
        (position : LoopPosition) (request : Sent) (address : SocketAddr) (lifetime : ℕ)
        (reply : List ℕ) (target : Target)
        → MayBegin plan old
        → IsOverTcp plan
        → ReportsOwn old.desk.auth.algorithms old.desk.auth.anonymous_username target.local
        old.desk.auth
        → IsRun old pairs new
        → IsLoop plan old.desk.auth start pairs position
        → position.progress ≡ Done request address lifetime reply
        → IsAtPosition plan old target address lifetime position.timing.came (holding position)
        new }
{
    honest_loops_allocate();
    granted_clients_hold();
    stages_are_reported();
    stages_are_unserved();
    messages_reach_clients::<&[u8]>();
    holders_can_ask();
}

/// The application requests something, and its request is queued (RFC 8656, section 10; RFC 6062,
/// section 4.3). A permission is refused only if the peer is of another family than the allocation;
/// a connection is not refused, nor is the socket that the client requested.
pub fn calls_queue_requests()
    ensures permission { (plan : Plan) (old w v : World) (target : Target) (address : SocketAddr)
        (lifetime since : ℕ) (t : Timing) (now : ℕ) (ret : Answer)
        → now ≤ client_end
        → now < refresh_due lifetime since
        → IsStage plan old target address lifetime since Held t w
        → IsStep (Call (CreatePermission Tcp (socket_ip target.peer)) now) w ret v
        → IsStage plan old target address lifetime since (called ret (Queued Permission)
        Unpermitted) (requested now t) v
        × IsOfFamily target address (called ret (Queued Permission) Unpermitted) }
    ensures connection { (plan : Plan) (old w v : World) (target : Target) (address : SocketAddr)
        (lifetime since : ℕ) (t : Timing) (now : ℕ) (ret : Answer)
        → now ≤ client_end
        → IsQuiet lifetime since t now
        → IsOfFamily target address Permitted
        → IsStage plan old target address lifetime since Permitted t w
        → IsStep (Call (TcpConnect target.peer) now) w ret v
        → IsStage plan old target address lifetime since (called ret (Queued Connect) Off)
        (requested now t) v }
    ensures socket { (plan : Plan) (old w v : World) (target : Target) (address : SocketAddr)
        (lifetime since : ℕ) (t : Timing) (now : ℕ) (ret : Answer) (connection : ℕ)
        (socket : Socket5Tuple) (peer : SocketAddr)
        → now ≤ client_end
        → target.local ≢ plan.client.here
        → IsStage plan old target address lifetime since (Waiting connection socket peer) t w
        → IsStep (Call (AllocatedTcpSocket target.number target.peer (Some target.local)) now) w ret
        v
        → IsStage plan old target address lifetime since (called ret (Queued Bind) Off)
        (requested now t) v }
{
    permissions_are_requested_for();
    connections_are_requested_for();
    connections_are_joined();
    challenges_are_counted();
}

/// What was transmitted is the request: signed under the user's key, for what was requested, and
/// anew if it answers a challenge (RFC 8489, sections 9.2.3 and 9.2.5).
pub fn transmitted_requests_are_signed()
    ensures { (plan : Plan) (old w : World) (target : Target) (address : SocketAddr)
        (lifetime since : ℕ) (t : Timing) (method : Method) (request : Sent)
        → IsStage plan old target address lifetime since (Transmitted method request) t w
        → IsRequest plan old target method t request }
{
    proof_requests_are_read();
    addresses_are_read_back();
    holders_can_ask();
}

/// `poll_transmit` is called. A queued request is given if the last message was transmitted at
/// least 50 ms ago, and else nothing is given.
pub fn draws_give_queued_requests()
    ensures { (plan : Plan) (old w v : World) (target : Target) (address : SocketAddr)
        (lifetime since : ℕ) (t : Timing) (reached : Reached) (now : ℕ) (ret : Answer)
        → now ≤ client_end
        → MayDraw lifetime since reached t now
        → IsStage plan old target address lifetime since reached t w
        → IsStep (Draw now) w ret v
        → IsStage plan old target address lifetime since (after_draw reached ret)
        (timing_after_draw now ret t) v
        × IsDrawAt plan old target reached t now ret }
{
    holders_rest();
    holders_keep_still();
    challenges_are_counted();
    transmitted_requests_are_signed();
}

/// The server core replies to the request: by a success response, or by a challenge that the client
/// can answer. The success response to a CONNECT has the connection ID that was decided (RFC 8489,
/// sections 9.2.4 and 9.2.5; RFC 6062, section 5.2).
pub fn requests_are_replied_to()
    ensures granted { (plan : Plan) (old w v : World) (target : Target) (address : SocketAddr)
        (lifetime since : ℕ) (t : Timing) (method : Method) (request : Sent)
        (bytes reply : Vec ℕ Global) (now : ℕ) (decision : Decision) (seed : List ℕ)
        → MayBegin plan old
        → bytes.items ≡ request.bytes
        → IsDecided target method decision
        → IsSuccess reply.items
        → IsStage plan old target address lifetime since (Transmitted method request) t w
        → IsStep (ToDesk bytes request.from now decision seed) w (Reply reply) v
        → IsStage plan old target address lifetime since (Answered method request reply.items []) t
        v }
    ensures challenged { (plan : Plan) (old w v : World) (target : Target) (address : SocketAddr)
        (lifetime since : ℕ) (t : Timing) (method : Method) (request : Sent)
        (bytes reply : Vec ℕ Global) (now : ℕ) (decision : Decision) (seed : List ℕ)
        (reported : ChallengeFields)
        → bytes.items ≡ request.bytes
        → MayChallenge method t
        → challenge_visible reply.items ≡ Some reported
        → IsStage plan old target address lifetime since (Transmitted method request) t w
        → IsStep (ToDesk bytes request.from now decision seed) w (Reply reply) v
        → IsStage plan old target address lifetime since (Challenged method request reply.items [])
        t v }
{
    proof_requests_are_read();
    messages_are_reported_alike();
    holders_can_ask();
}

/// A chunk of a reply comes, and more is to come: it is buffered, and nothing else changes.
pub fn chunks_are_buffered()
    ensures answered { (plan : Plan) (old w v : World) (target : Target) (address : SocketAddr)
        (lifetime since : ℕ) (t : Timing) (method : Method) (request : Sent)
        (reply head rest : List ℕ) (bytes : Vec ℕ Global) (now : ℕ) (ret : Answer)
        → IsOverTcp plan
        → now ≤ client_end
        → bytes.items ≢ []
        → reply ≡ (head ++ bytes.items) ++ rest
        → rest ≢ []
        → IsStage plan old target address lifetime since (Answered method request reply head) t w
        → IsStep (ToClient bytes request.to request.from now) w ret v
        → IsStage plan old target address lifetime since
        (Answered method request reply (head ++ bytes.items)) t v }
    ensures challenged { (plan : Plan) (old w v : World) (target : Target) (address : SocketAddr)
        (lifetime since : ℕ) (t : Timing) (method : Method) (request : Sent)
        (reply head rest : List ℕ) (bytes : Vec ℕ Global) (now : ℕ) (ret : Answer)
        → IsOverTcp plan
        → now ≤ client_end
        → bytes.items ≢ []
        → reply ≡ (head ++ bytes.items) ++ rest
        → rest ≢ []
        → IsStage plan old target address lifetime since (Challenged method request reply head) t w
        → IsStep (ToClient bytes request.to request.from now) w ret v
        → IsStage plan old target address lifetime since
        (Challenged method request reply (head ++ bytes.items)) t v }
{
    messages_reach_holders::<&[u8]>();
    messages_reach_sockets::<&[u8]>();
}

/// The last chunk of a success response comes. The permission is active; or the connection ID is
/// known; or the connection is bound (RFC 8656, section 10.3; RFC 6062, section 4.3).
pub fn last_chunks_are_taken()
    ensures permission { (plan : Plan) (old w v : World) (target : Target) (address : SocketAddr)
        (lifetime since : ℕ) (t : Timing) (request : Sent) (reply head : List ℕ)
        (bytes : Vec ℕ Global) (now : ℕ) (ret : Answer)
        → IsOverTcp plan
        → now ≤ client_end
        → bytes.items ≢ []
        → reply ≡ head ++ bytes.items
        → IsStage plan old target address lifetime since (Answered Permission request reply head) t
        w
        → IsStep (ToClient bytes request.to request.from now) w ret v
        → IsStage plan old target address lifetime since Permitted (permitted now t) v }
    ensures connection { (plan : Plan) (old w v : World) (target : Target) (address : SocketAddr)
        (lifetime since : ℕ) (t : Timing) (request : Sent) (reply head : List ℕ)
        (bytes : Vec ℕ Global) (now : ℕ) (ret : Answer)
        → IsOverTcp plan
        → now ≤ client_end
        → bytes.items ≢ []
        → reply ≡ head ++ bytes.items
        → IsStage plan old target address lifetime since (Answered Connect request reply head) t w
        → IsStep (ToClient bytes request.to request.from now) w ret v
        → IsStage plan old target address lifetime since Known t v }
    ensures bound { (plan : Plan) (old w v : World) (target : Target) (address : SocketAddr)
        (lifetime since : ℕ) (t : Timing) (request : Sent) (reply head more : List ℕ)
        (bytes : Vec ℕ Global) (now : ℕ) (ret : Answer)
        → IsOverTcp plan
        → now ≤ client_end
        → bytes.items ≢ []
        → head ++ bytes.items ≡ reply ++ more
        → IsStage plan old target address lifetime since (Answered Bind request reply head) t w
        → IsStep (ToClient bytes request.to request.from now) w ret v
        → IsStage plan old target address lifetime since (Bound more) t v }
{
    challenged_permissions_go_again();
    connections_are_requested_for();
    messages_reach_holders::<&[u8]>();
    messages_reach_sockets::<&[u8]>();
}

/// The last chunk of a challenge comes: the request is queued again (RFC 8489, section 9.2.5).
pub fn challenges_are_answered_again()
    ensures { (plan : Plan) (old w v : World) (target : Target) (address : SocketAddr)
        (lifetime since : ℕ) (t : Timing) (method : Method) (request : Sent) (reply head : List ℕ)
        (bytes : Vec ℕ Global) (now : ℕ) (ret : Answer)
        → IsOverTcp plan
        → now ≤ client_end
        → t.oldest ≤ now
        → bytes.items ≢ []
        → reply ≡ head ++ bytes.items
        → IsStage plan old target address lifetime since (Challenged method request reply head) t w
        → IsStep (ToClient bytes request.to request.from now) w ret v
        → IsStage plan old target address lifetime since (Queued method)
        (challenged method now request reply t) v }
{
    holders_can_ask();
    challenged_permissions_go_again();
    challenged_connects_go_again();
    messages_reach_holders::<&[u8]>();
    messages_reach_sockets::<&[u8]>();
}

/// An event of the client's is polled or a getter is called (`looks`), or `poll_recv` (`receives`):
/// the simulation stays at its position, except that it is known whether no event is queued.
pub fn looks_change_nothing()
    ensures looks { (plan : Plan) (old w v : World) (target : Target) (address : SocketAddr)
        (lifetime since : ℕ) (t : Timing) (reached : Reached) (what : ClientCall) (now : ℕ)
        (ret : Answer)
        → now ≤ client_end
        → IsLook what
        → IsStage plan old target address lifetime since reached t w
        → IsStep (Call what now) w ret v
        → IsStage plan old target address lifetime since (after_look what reached ret) t v }
    ensures receives { (plan : Plan) (old w v : World) (target : Target) (address : SocketAddr)
        (lifetime since : ℕ) (t : Timing) (reached : Reached) (now : ℕ) (ret : Answer)
        → MayBegin plan old
        → IsUnbound reached
        → IsStage plan old target address lifetime since reached t w
        → IsStep (Call PollRecv now) w ret v
        → IsStage plan old target address lifetime since reached t v }
{
    proof_requests_are_read();
    new_clients_ask();
    holders_rest();
    messages_reach_clients::<&[u8]>();
    connections_are_listed();
}

/// `poll` is called. Once the connection ID is known, the client requests a socket, unless an event
/// is queued. Before and after that, the simulation stays at its position.
pub fn polls_request_sockets()
    ensures { (plan : Plan) (old w v : World) (target : Target) (address : SocketAddr)
        (lifetime since : ℕ) (t : Timing) (reached : Reached) (now : ℕ) (ret : Answer)
        → now ≤ client_end
        → MayPoll plan lifetime since reached t now
        → IsStage plan old target address lifetime since reached t w
        → IsStep (Call Poll now) w ret v
        → IsStage plan old target address lifetime since (after_poll reached ret) t v
        × IsPolledAt plan target w reached ret }
{
    holders_keep_still();
    connections_are_requested_for();
}

/// What happens at a position leads from the simulation's state at that position to its state at
/// the next one (`events`), and gives what the position says. What is promised at a position holds
/// in its state (`promised`).
pub fn events_of_connections_lead_on()
    ensures events { (plan : Plan) (old w v : World) (target : Target) (address : SocketAddr)
        (lifetime since : ℕ) (position next : Position) (event : Event) (ret : Answer)
        → MayBegin plan old
        → IsOverTcp plan
        → Leads plan lifetime since target position event ret next
        → IsAtPosition plan old target address lifetime since position w
        → IsStep event w ret v
        → IsAtPosition plan old target address lifetime since next v
        × IsGivenBy plan old target position w event ret }
    ensures promised { (plan : Plan) (old w : World) (target : Target) (address : SocketAddr)
        (lifetime since : ℕ) (position : Position)
        → IsAtPosition plan old target address lifetime since position w
        → HasReached plan old address target position.reached position.timing w }
{
    calls_queue_requests();
    transmitted_requests_are_signed();
    draws_give_queued_requests();
    requests_are_replied_to();
    chunks_are_buffered();
    last_chunks_are_taken();
    challenges_are_answered_again();
    looks_change_nothing();
    polls_request_sockets();
    connections_are_listed();
}

/// A connection to a peer is bound, by a client that a driver's loop calls, over a network that
/// takes time, whatever nonces get stale meanwhile.
///
/// # Premises
///
/// A new client over TCP whose user the server core has comes to hold an allocation over TCP, by a
/// loop of [`honest_loops_allocate`]; who makes the client and the server core's operator know
/// that. At first the server core stores nothing for the socket's local address, or a nonce that
/// announces what it accepts (`ReportsOwn`); the operator knows that. Then (`IsConnecting`):
///
/// 1. The application requests a permission for the peer's IP, before a REFRESH of the allocation
///    is due. Once the reply has come, it requests a connection to the peer, before a REFRESH is
///    due, or the permission's renewal, 240 s after that reply. Once the client requests a socket,
///    it is given one whose local address isn't the client's own.
/// 2. `poll_transmit`, `poll`, `poll_recv` and the getters may be called, and events polled, in any
///    order and however often; `poll_recv` until the connection is bound. No call is presumed to
///    give something or nothing. The times never go back, up to the latest time of a client
///    (`IsNext`).
/// 3. `poll_transmit` is called while nothing that the client holds is to be renewed (`IsQuietAt`),
///    or while a request is queued. `poll` is called while nothing is to be renewed, and before an
///    outstanding request of the same method would be given up, by the waits from `oldest` on; and
///    within 39.5 s after a CONNECTION_BIND was queued (`MayPoll`). Who calls knows that.
/// 4. Each request that is transmitted reaches the server core, at any later time, unaltered, from
///    where it was sent. The server core grants it, for a CONNECT by the connection ID
///    `target.number`, or challenges it: for a CREATE_PERMISSION or a CONNECT, because its nonce
///    is stale. At most nine such challenges come in a row with no success response between them
///    (`MayChallenge`): the tenth would end the client. Its operator knows that.
/// 5. The reply reaches the client once, unaltered, from where the request was sent to: in chunks,
///    wherever it is cut, each at its own time. Nothing else reaches either side. Who sees the
///    network's log knows that.
///
/// # Conclusions
///
/// `promised` (`HasReached`):
///
/// - Once the reply to the CONNECTION_BIND has come, the connection is bound: the client holds
///   exactly that connection.
/// - No call of the application is refused, except the permission if the peer is of another family
///   than the allocation.
/// - What is transmitted is a request that is signed under the user's key, for what was requested
///   (`IsRequest`). If it answers a challenge, it has the challenge's nonce; and if that was one to
///   a CREATE_PERMISSION or a CONNECT, another transaction ID than the challenged request.
///
/// `given` (`IsGivenBy`): The first call of `poll_transmit` at least 50 ms after the last message
/// gives the queued request, whether the application requested it or a challenge has come. All
/// other calls give nothing: so over TCP no request is transmitted twice. Once the connection ID is
/// known, `poll` requests a socket for it and for the peer, unless an event is queued.
///
/// `occurs`: The state of client and server core at each position, for what comes next.
///
/// A run that ran out of memory is no such run. The decision for the other requests makes no
/// difference, nor do the words from which the server core generates nonces.
pub fn loops_bind_connections()
    ensures promised { (plan : Plan) (old one new : World) (first pairs : List (Event × Answer))
        (loop_end : LoopPosition) (request : Sent) (address : SocketAddr) (lifetime : ℕ)
        (reply : List ℕ) (target : Target) (position : Position)
        → MayBegin plan old
        → IsOverTcp plan
        → ReportsOwn old.desk.auth.algorithms old.desk.auth.anonymous_username target.local
        old.desk.auth
        → IsRun old first one
        → IsLoop plan old.desk.auth start first loop_end
        → loop_end.progress ≡ Done request address lifetime reply
        → IsRun one pairs new
        → IsConnecting plan lifetime loop_end.timing.came target (holding loop_end) pairs position
        → HasReached plan old address target position.reached position.timing new }
    ensures given { (plan : Plan) (old one w v : World) (first pairs : List (Event × Answer))
        (loop_end : LoopPosition) (request : Sent) (address : SocketAddr) (lifetime : ℕ)
        (reply : List ℕ) (target : Target) (position next : Position) (event : Event) (ret : Answer)
        → MayBegin plan old
        → IsOverTcp plan
        → ReportsOwn old.desk.auth.algorithms old.desk.auth.anonymous_username target.local
        old.desk.auth
        → IsRun old first one
        → IsLoop plan old.desk.auth start first loop_end
        → loop_end.progress ≡ Done request address lifetime reply
        → IsRun one pairs w
        → IsConnecting plan lifetime loop_end.timing.came target (holding loop_end) pairs position
        → Leads plan lifetime loop_end.timing.came target position event ret next
        → IsStep event w ret v
        → IsGivenBy plan old target position w event ret }
    ensures occurs { (plan : Plan) (old one new : World) (first pairs : List (Event × Answer))
        (loop_end : LoopPosition) (request : Sent) (address : SocketAddr) (lifetime : ℕ)
        (reply : List ℕ) (target : Target) (position : Position)
        → MayBegin plan old
        → IsOverTcp plan
        → ReportsOwn old.desk.auth.algorithms old.desk.auth.anonymous_username target.local
        old.desk.auth
        → IsRun old first one
        → IsLoop plan old.desk.auth start first loop_end
        → loop_end.progress ≡ Done request address lifetime reply
        → IsRun one pairs new
        → IsConnecting plan lifetime loop_end.timing.came target (holding loop_end) pairs position
        → IsAtPosition plan old target address lifetime loop_end.timing.came position new }
{
    loops_hold();
    events_of_connections_lead_on();
}

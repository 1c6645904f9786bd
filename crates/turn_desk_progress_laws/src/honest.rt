//! A client and a server core over an honest network, over UDP or TCP: the client transmits twice,
//! and each message is delivered once, unaltered (RFC 8489, section 9.2; RFC 8656, sections 7.1 to
//! 7.4). Then the client holds exactly the allocation that was decided, and the server core has
//! granted it. Or the two can't come together, and neither has ([`honest_runs_allocate`]). The
//! functions do nothing; each contract is a theorem on a simulation of both.
//!
//! - `specs/Scripts.antt` says what an honest network does, by positions that a run passes. It
//!   presumes no result, except that what is transmitted and what is replied are bytes to deliver.
//! - `specs/Promises.antt` says where a run begins, and what it comes to.
//! - `specs/Standing.antt` has the state of the simulation at each position. For each event that
//!   leads from one position to another there is a theorem here.

ghost use Rattle.std.specs.Prelude.{◌≡◌, ◌≢◌, ◌++◌, ◌<◌, ◌≤◌, List, [], ◌∷◌, Vec, ℕ};
ghost use Rattle.std.specs.declared.alloc.Global.{Global};
ghost use Rattle.std.specs.declared.net.socket_addr.SocketAddr.{SocketAddr};
ghost use Rattle.turn_desk_event.specs.StunProtoTransaction.Schedule.{end_at};
ghost use Rattle.turn_desk_core.specs.StunTypesBase.declared.transport.TransportType.TheVariants.{Tcp};
ghost use Rattle.turn_client_proto_api.specs.declared.event.TurnEvent.{TurnEvent};
ghost use Rattle.turn_client_proto_api.specs.Sent.{Sent};
ghost use Rattle.turn_client_proto_handshake_laws.specs.Driving.{client_end};
ghost use Rattle.turn_client_proto_step_laws.specs.Sound.{IsWhole};
ghost use Rattle.turn_client_proto_handshake_laws.specs.Stages.{AsksForOne, failures};
ghost use Rattle.turn_desk_event.specs.declared.answer.Answer.{Answer};
ghost use Rattle.turn_desk_event.specs.declared.answer.Answer.TheVariants.{Closed, Nothing};
ghost use Rattle.turn_desk_core.specs.declared.decision.Decision.{Decision};
ghost use Rattle.turn_desk_core.specs.declared.decision.Decision.TheVariants as by;
ghost use Rattle.turn_desk_event.specs.declared.event.ClientCall.{ClientCall};
ghost use Rattle.turn_desk_event.specs.declared.event.ClientCall.TheVariants.{Poll, PollRecv};
ghost use Rattle.turn_desk_event.specs.declared.event.Event.{Event};
ghost use Rattle.turn_desk_event.specs.declared.event.Event.TheVariants.{Call, Draw};
ghost use Rattle.turn_desk_event.specs.declared.event.Event.TheVariants.{ToClient, ToDesk};
ghost use Rattle.turn_desk_world_laws.specs.World.Model.{World};
ghost use Rattle.turn_desk_world_laws.specs.World.Runs.{IsRun, IsStep};
ghost use Rattle.turn_desk_progress_laws.specs.Promises.{HasCome, IsFresh, event_in, events_in};
ghost use Rattle.turn_desk_progress_laws.specs.Scripts.{Requested, Barred, BringsOn, Came, Challenged};
ghost use Rattle.turn_desk_progress_laws.specs.Scripts.{Done, Follows, Granted, IsCut, IsLook, IsPolledAt, IsScript};
ghost use Rattle.turn_desk_progress_laws.specs.Scripts.{Progress, Plan, Signed, Start, brought_first};
ghost use Rattle.turn_desk_progress_laws.specs.Scripts.{brought_second, transmitted_first, transmitted_second};
ghost use Rattle.turn_desk_progress_laws.specs.Scripts.{given, replied_first, replied_second};
ghost use Rattle.turn_desk_progress_laws.specs.Standing.{IsOver, IsAtStage};

use turn_client_proto_handshake_laws::stages::{
    asking_clients_wait, challenges_are_answered, chosen_clients_sign, ended_clients_rest,
    granted_clients_hold, messages_reach_clients, new_clients_ask, signed_allocates_answer,
    signed_clients_wait, stages_are_reported, stages_are_unserved,
};
use turn_client_proto_messages::laws::proof_requests_are_read;
use turn_client_proto_step_laws::reported::messages_are_reported_alike;
use turn_desk_core::decision;
use turn_desk_event::event;
use turn_desk_step_laws::handshakes::{
    first_requests_are_challenged as desk_challenges, signed_allocates_are_granted,
    successes_are_right,
};
use turn_desk_world_laws::laws::relayed_addresses_are_reported;

/// A new client gets its allocation over an honest network, or the two sides can't come together.
///
/// # Premises
///
/// At first (`IsFresh`) the client is new, over UDP or TCP. The server core has its user, stores
/// nothing for its address, and has no two users with the same hash (RFC 8489, section 14.4). Then
/// (`IsScript`):
///
/// 1. `poll_transmit` is called. What the client transmits reaches the server core unaltered, from
///    where it was sent. The server core's reply reaches the client unaltered. All this is at one
///    time. Over UDP the reply is one datagram; over TCP it comes in chunks, wherever it is cut
///    ([`cuts_are_honest`]; RFC 8489, section 6.2.2).
/// 2. At least 50 ms later, before the server core's nonce expires, `poll_transmit` is called
///    again. The message and the reply are delivered in the same way. The decision is to allocate
///    an address of the one family that the client requests, without flow information and scope.
///
/// At any time, between the chunks of a reply too, the client's events may be polled, and its
/// getters and `poll_recv` called. Until all of the second reply has come, `poll` may be called,
/// before the time at which the first request would be given up if it were not answered.
///
/// # Conclusions
///
/// `promised`: The first call of `poll_transmit` always gives a request, and the server core
/// replies to each request.
///
/// - If client and server core have an algorithm in common, and the client doesn't require a hidden
///   name of a server core that accepts no hash of a name (`IsAllocated`): the client holds exactly
///   that allocation, and one event reports it. The server core has granted it in response to that
///   request, and nothing else. Request and reply are valid under the user's key in the server
///   core's realm, by the strongest common algorithm.
/// - Otherwise (`CannotAgree`): the client has ended after the first reply. It transmits
///   nothing, holds nothing and is granted nothing. Its events report that no address was
///   allocated, and once these are polled it is closed.
///
/// `occurs`: The state of client and server core at each position, for what comes next.
///
/// The decision for the first request makes no difference, nor do the words from which the nonce is
/// generated, nor the lengths of the client's waits. A run that ran out of memory is no such run.
pub fn honest_runs_allocate()
    ensures promised { (plan : Plan) (old new : World) (pairs : List (Event × Answer))
        (progress : Progress)
        → IsFresh plan old
        → IsRun old pairs new
        → IsScript plan Start pairs progress
        → HasCome plan old (events_in pairs) progress new }
    ensures occurs { (plan : Plan) (old new : World) (pairs : List (Event × Answer))
        (progress : Progress)
        → IsFresh plan old
        → IsRun old pairs new
        → IsScript plan Start pairs progress
        → IsAtStage plan old (events_in pairs) progress new }
{
    events_lead_on();
    ended_worlds_rest();
}

/// What an honest network does at a position leads from the simulation's state at that position to
/// its state at the next one.
pub fn events_lead_on()
    ensures { (plan : Plan) (old w v : World) (reported : List TurnEvent) (progress next : Progress)
        (event : Event) (ret : Answer)
        → IsFresh plan old
        → Follows plan progress event ret next
        → IsAtStage plan old reported progress w
        → IsStep event w ret v
        → IsAtStage plan old (reported ++ event_in ret) next v }
{
    first_requests_are_transmitted();
    first_requests_are_challenged();
    first_replies_are_taken();
    second_requests_are_transmitted();
    second_requests_are_granted();
    second_replies_are_taken();
    worlds_stand_still();
    worlds_give_nothing();
    ended_worlds_rest();
}

/// The first call of `poll_transmit` gives the first request: an ALLOCATE without credentials, from
/// the client's own address to the server's (RFC 8656, section 7.1).
pub fn first_requests_are_transmitted()
    ensures { (plan : Plan) (old w v : World) (reported : List TurnEvent) (ret : Answer)
        → IsFresh plan old
        → IsAtStage plan old reported Start w
        → IsStep (Draw plan.client.made) w ret v
        → IsAtStage plan old (reported ++ event_in ret) (transmitted_first ret) v }
{
    new_clients_ask();
}

/// The server core replies to it with a challenge, whatever is decided (RFC 8489, section 9.2.4).
pub fn first_requests_are_challenged()
    ensures { (plan : Plan) (old w v : World) (reported : List TurnEvent) (ret : Answer)
        (request : Sent) (bytes : Vec ℕ Global) (decision : Decision) (seed : List ℕ)
        → IsFresh plan old
        → IsAtStage plan old reported (Requested request) w
        → bytes.items ≡ request.bytes
        → IsStep (ToDesk bytes request.from plan.client.made decision seed) w ret v
        → IsAtStage plan old (reported ++ event_in ret) (replied_first request ret) v }
{
    proof_requests_are_read();
    new_clients_ask();
    desk_challenges();
}

/// The client handles the challenge as it comes. Once all of it has come, the client answers it or
/// ends (RFC 8489, section 9.2.5).
pub fn first_replies_are_taken()
    ensures { (plan : Plan) (old w v : World) (reported : List TurnEvent) (ret : Answer)
        (request : Sent) (reply head rest : List ℕ) (bytes : Vec ℕ Global)
        → IsFresh plan old
        → IsAtStage plan old reported (Challenged request reply head) w
        → BringsOn plan.client.transport reply head bytes.items rest
        → IsStep (ToClient bytes request.to request.from plan.client.made) w ret v
        → IsAtStage plan old (reported ++ event_in ret)
        (brought_first request reply (head ++ bytes.items) rest) v }
{
    new_clients_ask();
    challenges_are_answered();
    stages_are_unserved();
    messages_reach_clients::<&[u8]>();
}

/// The second call of `poll_transmit` gives the signed request if the client has answered the
/// challenge, and nothing if it has ended.
pub fn second_requests_are_transmitted()
    ensures { (plan : Plan) (old w v : World) (reported : List TurnEvent) (ret : Answer)
        → IsFresh plan old
        → IsAtStage plan old reported Came w
        → IsStep (Draw plan.second) w ret v
        → IsAtStage plan old (reported ++ event_in ret) (transmitted_second ret) v }
{
    asking_clients_wait();
    chosen_clients_sign();
    ended_clients_rest();
}

/// The server core accepts the signed request as its user's, and grants the address that was
/// decided (RFC 8656, section 7.2).
pub fn second_requests_are_granted()
    ensures { (plan : Plan) (old w v : World) (reported : List TurnEvent) (ret : Answer)
        (request : Sent) (bytes : Vec ℕ Global) (address : SocketAddr) (lifetime : ℕ)
        (seed : List ℕ)
        → IsFresh plan old
        → IsAtStage plan old reported (Signed request) w
        → bytes.items ≡ request.bytes
        → AsksForOne plan.client address
        → IsWhole address
        → IsStep (ToDesk bytes request.from plan.second
        (by.Allocate (address ∷ []) lifetime) seed) w ret v
        → IsAtStage plan old (reported ++ event_in ret) (replied_second request address lifetime ret)
        v }
{
    proof_requests_are_read();
    signed_allocates_answer();
    signed_allocates_are_granted();
    successes_are_right();
    relayed_addresses_are_reported();
    messages_are_reported_alike();
}

/// The client handles the success response as it comes. Once all of it has come, it holds the
/// allocation (RFC 8656, section 7.3).
pub fn second_replies_are_taken()
    ensures { (plan : Plan) (old w v : World) (reported : List TurnEvent) (ret : Answer)
        (request : Sent) (address : SocketAddr) (lifetime : ℕ) (reply head rest : List ℕ)
        (bytes : Vec ℕ Global)
        → IsFresh plan old
        → IsAtStage plan old reported (Granted request address lifetime reply head) w
        → BringsOn plan.client.transport reply head bytes.items rest
        → IsStep (ToClient bytes request.to request.from plan.second) w ret v
        → IsAtStage plan old (reported ++ event_in ret)
        (brought_second request address lifetime reply (head ++ bytes.items) rest) v }
{
    granted_clients_hold();
    stages_are_unserved();
    messages_reach_clients::<&[u8]>();
}

/// Over TCP a reply may be cut anywhere: an honest network may deliver it in any chunks that aren't
/// empty.
pub fn cuts_are_honest()
    ensures first { (plan : Plan) (request : Sent) (reply : List ℕ)
        (chunks : List (Vec ℕ Global × Answer))
        → plan.client.transport ≡ Tcp
        → reply ≢ []
        → IsCut reply chunks
        → IsScript plan (Challenged request reply [])
        (given request plan.client.made chunks) Came }
    ensures second { (plan : Plan) (request : Sent) (address : SocketAddr) (lifetime : ℕ)
        (reply : List ℕ) (chunks : List (Vec ℕ Global × Answer))
        → plan.client.transport ≡ Tcp
        → reply ≢ []
        → IsCut reply chunks
        → IsScript plan (Granted request address lifetime reply [])
        (given request plan.second chunks) (Done request address lifetime reply) }
{}

/// The simulation stays at its position if an event of the client's is polled or a getter is called
/// (`looks`), and if `poll` is called before the client holds an allocation (`polls`).
pub fn worlds_stand_still()
    ensures looks { (plan : Plan) (old w v : World) (reported : List TurnEvent) (ret : Answer)
        (progress : Progress) (what : ClientCall) (now : ℕ)
        → IsAtStage plan old reported progress w
        → IsLook what
        → IsStep (Call what now) w ret v
        → IsAtStage plan old (reported ++ event_in ret) progress v }
    ensures polls { (plan : Plan) (old w v : World) (reported : List TurnEvent) (ret : Answer)
        (progress : Progress) (now : ℕ)
        → IsAtStage plan old reported progress w
        → IsPolledAt progress
        → now < end_at plan.client.made plan.client.config.waits
        → IsStep (Call Poll now) w ret v
        → IsAtStage plan old (reported ++ event_in ret) progress v }
{
    new_clients_ask();
    asking_clients_wait();
    chosen_clients_sign();
    signed_clients_wait();
    ended_clients_rest();
    stages_are_reported();
}

/// The simulation stays at its position if `poll_recv` is called: nothing has come from peers.
pub fn worlds_give_nothing()
    ensures { (plan : Plan) (old w v : World) (reported : List TurnEvent) (ret : Answer)
        (progress : Progress) (now : ℕ)
        → IsFresh plan old
        → IsAtStage plan old reported progress w
        → IsStep (Call PollRecv now) w ret v
        → IsAtStage plan old (reported ++ event_in ret) progress v }
{
    proof_requests_are_read();
    new_clients_ask();
    stages_are_unserved();
    messages_reach_clients::<&[u8]>();
}

/// A client that has ended transmits nothing more, and once its events are polled it is closed.
pub fn ended_worlds_rest()
    ensures rests { (plan : Plan) (old w v : World) (reported : List TurnEvent) (ret : Answer)
        (now : ℕ)
        → IsAtStage plan old reported Barred w
        → IsStep (Draw now) w ret v
        → IsAtStage plan old (reported ++ event_in ret) Barred v }
    ensures quiet { (plan : Plan) (old w v : World) (reported : List TurnEvent) (ret : Answer)
        (now : ℕ)
        → IsOver plan old reported w
        → now ≤ client_end
        → IsStep (Draw now) w ret v
        → ret ≡ Nothing }
    ensures closed { (plan : Plan) (old w v : World) (reported : List TurnEvent) (ret : Answer)
        (now : ℕ)
        → IsOver plan old reported w
        → now ≤ client_end
        → reported ≡ failures plan.client
        → IsStep (Call Poll now) w ret v
        → ret ≡ Closed }
{
    ended_clients_rest();
}

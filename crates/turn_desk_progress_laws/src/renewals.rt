//! A client that holds an allocation, over UDP or TCP, and is left alone with it, renews it in time
//! (RFC 8656, section 8; [`renewed_in_time`]). The functions do nothing; each contract is a theorem
//! on a simulation of a client and a server core, after an honest run of a handshake.
//!
//! - `specs/Turns.antt` says what is done with the client, by turns that a run passes. It presumes
//!   no result, except that the server core grants what is requested.
//! - `specs/Renewals.antt` says what it comes to.
//! - `specs/Watched.antt` has the state of the simulation at each turn. For each event that leads
//!   from one turn to another there is a theorem here.

ghost use Rattle.std.specs.Prelude.{◌≡◌, ◌≢◌, ◌++◌, ◌≤◌, ◌<◌, List, [], Vec, ℕ};
ghost use Rattle.std.specs.declared.alloc.Global.{Global};
ghost use Rattle.std.specs.declared.net.socket_addr.SocketAddr.{SocketAddr};
ghost use Rattle.turn_desk_event.specs.StunProtoTransaction.Schedule.{end_at};
ghost use Rattle.turn_desk_core.specs.StunTypesWire.Attributes.{kind_at};
ghost use Rattle.turn_desk_core.specs.StunTypesWire.declared.class.MessageClass.TheVariants.{Success};
ghost use Rattle.turn_desk_core.specs.StunTypesWire.Types.{class_of};
ghost use Rattle.turn_desk_core.specs.StunTypesBase.declared.transport.TransportType.TheVariants.{Tcp};
ghost use Rattle.turn_client_proto_api.specs.declared.event.TurnEvent.{TurnEvent};
ghost use Rattle.turn_client_proto_api.specs.Sent.{Sent};
ghost use Rattle.turn_client_proto_handshake_laws.specs.Driving.{client_end};
ghost use Rattle.turn_desk_event.specs.declared.answer.Answer.{Answer};
ghost use Rattle.turn_desk_event.specs.declared.answer.Answer.TheVariants.{Reply};
ghost use Rattle.turn_desk_core.specs.declared.decision.Decision.TheVariants as by;
ghost use Rattle.turn_desk_event.specs.declared.event.ClientCall.{ClientCall};
ghost use Rattle.turn_desk_event.specs.declared.event.ClientCall.TheVariants.{Poll, PollRecv};
ghost use Rattle.turn_desk_event.specs.declared.event.Event.{Event};
ghost use Rattle.turn_desk_event.specs.declared.event.Event.TheVariants.{Call, Draw};
ghost use Rattle.turn_desk_event.specs.declared.event.Event.TheVariants.{ToClient, ToDesk};
ghost use Rattle.turn_desk_world_laws.specs.World.Model.{World};
ghost use Rattle.turn_desk_world_laws.specs.World.Runs.{IsRun, IsStep};
ghost use Rattle.turn_desk_progress_laws.specs.Promises.{IsFresh, events_in};
ghost use Rattle.turn_desk_progress_laws.specs.Scripts.{BringsOn, Done, IsCut, IsLook, IsScript};
ghost use Rattle.turn_desk_progress_laws.specs.Scripts.{Plan, Start, given};
ghost use Rattle.turn_desk_progress_laws.specs.Renewals.{HasRenewed};
ghost use Rattle.turn_desk_progress_laws.specs.Turns.{IsDriven, IsUnderWay, Refreshing, Renewing};
ghost use Rattle.turn_desk_progress_laws.specs.Turns.{Turn, Watch};
ghost use Rattle.turn_desk_progress_laws.specs.Turns.{Watching, brought, transmitted_at, least, looked_at};
ghost use Rattle.turn_desk_progress_laws.specs.Turns.{polled_at, renewed, watching};
ghost use Rattle.turn_desk_progress_laws.specs.Watched.{IsHolding, IsAtStep};

use crate::honest::{
    ended_worlds_rest, first_replies_are_taken, first_requests_are_challenged,
    first_requests_are_transmitted, second_replies_are_taken, second_requests_are_granted,
    second_requests_are_transmitted, worlds_give_nothing, worlds_stand_still,
};
use turn_client_proto_handshake_laws::stages::{
    granted_clients_hold, messages_reach_clients, signed_allocates_answer, stages_are_reported,
    stages_are_unserved,
};
use turn_client_proto_messages::laws::proof_requests_are_read;
use turn_client_proto_progress_laws::renewals::{
    holding_clients_keep, keepers_are_reported, keeping_clients_refresh, keeping_clients_wait,
    refreshes_are_signed, refreshing_clients_renew, refreshing_clients_wait,
    successes_reach_clients,
};
use turn_client_proto_step_laws::reported::messages_are_reported_alike;
use turn_desk_core::laws::desk_steps;

/// A client that is left alone with its allocation renews it in time.
///
/// # Premises
///
/// An honest run of a handshake granted an allocation for ten minutes or more. Then (`IsDriven`)
/// only this happens:
///
/// - `poll_transmit` and `poll` are called, no later than the time for which the client waits, and
///   no later than the latest time of a client.
/// - The client's events are polled, and its getters and `poll_recv` are called.
/// - A message that the client transmits a minute before the allocation's end or later reaches the
///   server core at that time, the server core grants it for ten minutes or more, and its success
///   response reaches the client at that time. Over TCP it comes in any chunks
///   ([`renewals_are_cut`]). Until it has come, `poll_transmit` may be called at that time too, and
///   `poll` if the request's schedule isn't over at once.
///
/// # Conclusions
///
/// `promised`:
///
/// - The client holds exactly that allocation all the time.
/// - A minute before its end, if that is no later than the latest time of a client, there is a
///   message to transmit: a REFRESH that is valid under the user's key, from the client's own
///   address to the server's. Before that the client transmits no REFRESH, and at most one other
///   message: by `releases` of `keeping_clients_refresh` the signed ALLOCATE once more.
/// - The client waits for no time after that. If its events and messages were polled, it waits for
///   a time after now, however little.
/// - Once the server core has granted the REFRESH, all this holds of the new lifetime, whatever is
///   polled up to a minute before its end. So it is after each further grant.
///
/// `occurs`: The state of client and server core at each turn, for what comes next.
pub fn renewed_in_time()
    ensures promised { (plan : Plan) (old one new : World) (first again : List (Event × Answer))
        (request : Sent) (address : SocketAddr) (lifetime : ℕ) (reply : List ℕ) (turn : Turn)
        → IsFresh plan old
        → IsRun old first one
        → IsScript plan Start first (Done request address lifetime reply)
        → least ≤ lifetime
        → IsRun one again new
        → IsDriven plan (watching plan.second lifetime plan.second) again turn
        → HasRenewed plan old address turn new }
    ensures occurs { (plan : Plan) (old one new : World) (first again : List (Event × Answer))
        (request : Sent) (address : SocketAddr) (lifetime : ℕ) (reply : List ℕ) (turn : Turn)
        → IsFresh plan old
        → IsRun old first one
        → IsScript plan Start first (Done request address lifetime reply)
        → least ≤ lifetime
        → IsRun one again new
        → IsDriven plan (watching plan.second lifetime plan.second) again turn
        → IsAtStep plan old address turn new }
{
    handshakes_are_held();
    held_worlds_are_watched();
    watched_clients_draw();
    watched_clients_wait();
    watched_worlds_stand_still();
    refreshing_worlds_wait();
    refreshes_are_granted();
    renewals_are_taken();
    keepers_are_reported();
    refreshes_are_signed();
}

/// After an honest run of a handshake that granted an allocation, the client holds only this. It
/// signs by a challenge of the server core, which still has its user. Nothing is queued, or only
/// the signed ALLOCATE once more.
pub fn handshakes_are_held()
    ensures { (plan : Plan) (old new : World) (pairs : List (Event × Answer)) (request : Sent)
        (address : SocketAddr) (lifetime : ℕ) (reply : List ℕ)
        → IsFresh plan old
        → IsRun old pairs new
        → IsScript plan Start pairs (Done request address lifetime reply)
        → IsHolding plan old (events_in pairs) address lifetime new }
{
    first_requests_are_transmitted();
    first_requests_are_challenged();
    first_replies_are_taken();
    second_requests_are_transmitted();
    second_requests_are_granted();
    second_replies_are_taken();
    worlds_stand_still();
    worlds_give_nothing();
    ended_worlds_rest();
    granted_clients_hold();
    stages_are_unserved();
    stages_are_reported();
    messages_reach_clients::<&[u8]>();
    signed_allocates_answer();
}

/// This is the state in which the renewals begin, if the allocation was granted for ten minutes or
/// more.
pub fn held_worlds_are_watched()
    ensures { (plan : Plan) (old w : World) (reported : List TurnEvent) (address : SocketAddr)
        (lifetime : ℕ)
        → IsFresh plan old
        → IsHolding plan old reported address lifetime w
        → least ≤ lifetime
        → IsAtStep plan old address (watching plan.second lifetime plan.second) w }
{
    holding_clients_keep();
}

/// `poll_transmit` gives nothing before the client's next message is due, and then that message:
/// the signed ALLOCATE once more, or a REFRESH a minute before the end (RFC 8656, section 8.1).
pub fn watched_clients_draw()
    ensures { (plan : Plan) (old w v : World) (address : SocketAddr) (s : Watch) (now : ℕ)
        (ret : Answer)
        → IsFresh plan old
        → IsAtStep plan old address (Watching s) w
        → now ≤ s.until
        → now ≤ client_end
        → IsStep (Draw now) w ret v
        → IsAtStep plan old address (transmitted_at s now ret) v }
{
    proof_requests_are_read();
    signed_allocates_answer();
    keeping_clients_refresh();
}

/// `poll` returns to wait at most until that message is due. If nothing is left to be polled, it
/// returns to wait until a time after now.
pub fn watched_clients_wait()
    ensures { (plan : Plan) (old w v : World) (address : SocketAddr) (s : Watch) (now : ℕ)
        (ret : Answer)
        → IsAtStep plan old address (Watching s) w
        → now ≤ s.until
        → now ≤ client_end
        → IsStep (Call Poll now) w ret v
        → IsAtStep plan old address (polled_at s now ret) v }
{
    keeping_clients_wait();
}

/// Until the REFRESH is answered, `poll_transmit` may be called at that time, and `poll` if the
/// request's schedule isn't over at once. The client still awaits the response.
pub fn refreshing_worlds_wait()
    ensures draws { (plan : Plan) (old w v : World) (address : SocketAddr) (at : Turn) (now : ℕ)
        (ret : Answer)
        → IsAtStep plan old address at w
        → IsUnderWay at now
        → IsStep (Draw now) w ret v
        → IsAtStep plan old address at v }
    ensures polls { (plan : Plan) (old w v : World) (address : SocketAddr) (at : Turn) (now : ℕ)
        (ret : Answer)
        → IsAtStep plan old address at w
        → IsUnderWay at now
        → now < end_at now plan.client.config.waits
        → IsStep (Call Poll now) w ret v
        → IsAtStep plan old address at v }
{
    refreshing_clients_wait();
}

/// The simulation stays at its turn if an event of the client's is polled, a getter is called
/// (`looks`), or `poll_recv` is called (`receives`). If no event was returned, none is queued.
pub fn watched_worlds_stand_still()
    ensures looks { (plan : Plan) (old w v : World) (address : SocketAddr) (at : Turn)
        (what : ClientCall) (now : ℕ) (ret : Answer)
        → IsAtStep plan old address at w
        → IsLook what
        → IsStep (Call what now) w ret v
        → IsAtStep plan old address (looked_at what ret at) v }
    ensures receives { (plan : Plan) (old w v : World) (address : SocketAddr) (at : Turn) (now : ℕ)
        (ret : Answer)
        → IsFresh plan old
        → IsAtStep plan old address at w
        → IsStep (Call PollRecv now) w ret v
        → IsAtStep plan old address at v }
{
    keepers_are_reported();
    messages_reach_clients::<&[u8]>();
    refreshes_are_signed();
}

/// The success response by which the server core grants the REFRESH shows the lifetime that was
/// decided, and is valid under the user's key (RFC 8656, section 8.2).
pub fn refreshes_are_granted()
    ensures { (plan : Plan) (old w v : World) (address : SocketAddr) (request : Sent)
        (from lifetime now more : ℕ) (bytes reply : Vec ℕ Global) (seed : List ℕ)
        → IsFresh plan old
        → IsAtStep plan old address (Refreshing request from lifetime now) w
        → bytes.items ≡ request.bytes
        → least ≤ more
        → IsStep (ToDesk bytes request.from now (by.Refresh more) seed) w (Reply reply) v
        → class_of (kind_at reply.items) ≡ Success
        → IsAtStep plan old address (Renewing request reply.items [] more now) v }
{
    desk_steps();
    refreshes_are_signed();
    messages_are_reported_alike();
}

/// The client handles the success response as it comes. Once all of it has come, it keeps the
/// allocation for that lifetime (RFC 8656, section 8.3).
pub fn renewals_are_taken()
    ensures { (plan : Plan) (old w v : World) (address : SocketAddr) (request : Sent)
        (reply head rest : List ℕ) (lifetime now : ℕ) (bytes : Vec ℕ Global) (ret : Answer)
        → IsAtStep plan old address (Renewing request reply head lifetime now) w
        → BringsOn plan.client.transport reply head bytes.items rest
        → IsStep (ToClient bytes request.to request.from now) w ret v
        → IsAtStep plan old address
        (brought request reply (head ++ bytes.items) rest lifetime now) v }
{
    refreshing_clients_renew();
    successes_reach_clients::<&[u8]>();
}

/// Over TCP the success response may be cut anywhere: it may be delivered in any chunks that aren't
/// empty.
pub fn renewals_are_cut()
    ensures { (plan : Plan) (request : Sent) (reply : List ℕ) (lifetime now : ℕ)
        (chunks : List (Vec ℕ Global × Answer))
        → plan.client.transport ≡ Tcp
        → reply ≢ []
        → IsCut reply chunks
        → IsDriven plan (Renewing request reply [] lifetime now) (given request now chunks)
        (renewed lifetime now) }
{}

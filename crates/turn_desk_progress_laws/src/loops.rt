//! A client that a driver's loop calls, and a server core, over a network that takes time, over UDP
//! or TCP (RFC 8489, sections 6.2.1 and 9.2; RFC 8656, sections 7.1 to 7.4). The client is called
//! whenever the loop likes, and each message arrives at any later time ([`honest_loops_allocate`]).
//! A draw is a call of `poll_transmit`. The functions do nothing; each contract is a theorem.
//!
//! - `specs/Loops.antt` says what the loop and the network do, by positions with times, and what
//!   each draw gives. It presumes no result.
//! - `specs/LoopStages.antt` has the state of the simulation at each position. For each event that
//!   leads from one position to another there is a theorem here.

ghost use Rattle.std.specs.Prelude.{◌≡◌, ◌≤◌, ◌<◌, ◌++◌, ℕ, List, [], ◌∷◌, Vec};
ghost use Rattle.std.specs.declared.alloc.Global.{Global};
ghost use Rattle.std.specs.declared.net.socket_addr.SocketAddr.{SocketAddr};
ghost use Rattle.turn_desk_core.specs.StunTypesBase.Times.{time_after};
ghost use Rattle.turn_client_proto_api.specs.declared.event.TurnEvent.{TurnEvent};
ghost use Rattle.turn_client_proto_api.specs.Sent.{Sent};
ghost use Rattle.turn_client_proto_handshake_laws.specs.Driving.{client_end};
ghost use Rattle.turn_client_proto_handshake_laws.specs.Sent.{first_sent};
ghost use Rattle.turn_client_proto_step_laws.specs.Sound.{IsWhole};
ghost use Rattle.turn_client_proto_handshake_laws.specs.Stages.{AsksForOne, failures};
ghost use Rattle.turn_desk_event.specs.declared.answer.Answer.{Answer};
ghost use Rattle.turn_desk_event.specs.declared.answer.Answer.TheVariants.{Closed, Nothing};
ghost use Rattle.turn_desk_core.specs.declared.decision.Decision.{Decision};
ghost use Rattle.turn_desk_core.specs.declared.decision.Decision.TheVariants as by;
ghost use Rattle.turn_desk_event.specs.declared.event.ClientCall.{ClientCall};
ghost use Rattle.turn_desk_event.specs.declared.event.ClientCall.TheVariants.{Poll, PollRecv};
ghost use Rattle.turn_desk_event.specs.declared.event.Event.{Event};
ghost use Rattle.turn_desk_event.specs.declared.event.Event.TheVariants.{Call, Draw};
ghost use Rattle.turn_desk_event.specs.declared.event.Event.TheVariants.{ToClient, ToDesk};
ghost use Rattle.turn_desk_world_laws.specs.World.Model.{World};
ghost use Rattle.turn_desk_world_laws.specs.World.Runs.{IsRun, IsStep};
ghost use Rattle.turn_desk_progress_laws.specs.Promises.{HasCome, IsFresh, event_in, events_in};
ghost use Rattle.turn_desk_progress_laws.specs.Scripts.{BringsOn, Came, Challenged, Granted, IsLook};
ghost use Rattle.turn_desk_progress_laws.specs.Scripts.{Plan, Progress, Requested, Signed, Start};
ghost use Rattle.turn_desk_progress_laws.specs.Scripts.{brought_first, brought_second};
ghost use Rattle.turn_desk_progress_laws.specs.Scripts.{replied_first, replied_second};
ghost use Rattle.turn_desk_progress_laws.specs.Scripts.{transmitted_first};
ghost use Rattle.turn_desk_progress_laws.specs.Loops.{Gives, IsGivenBy, IsLoop, Leads};
ghost use Rattle.turn_desk_progress_laws.specs.Loops.{MayBegin, MayPoll};
ghost use Rattle.turn_desk_progress_laws.specs.Loops.{IsOnSchedule, IsSignedAgain, IsTransmittedAt};
ghost use Rattle.turn_desk_progress_laws.specs.Loops.{Position, Timing, arrived, counted};
ghost use Rattle.turn_desk_progress_laws.specs.Loops.{start, transmitted_next};
ghost use Rattle.turn_desk_progress_laws.specs.LoopStages.{IsAtPosition, IsOverSo, IsStageOf};

use turn_client_proto_handshake_laws::stages::{
    asking_clients_wait, challenges_are_answered, chosen_clients_sign, ended_clients_rest,
    granted_clients_hold, messages_reach_clients, new_clients_ask, signed_allocates_answer,
    signed_clients_wait, stages_are_reported, stages_are_unserved,
};
use turn_client_proto_messages::laws::proof_requests_are_read;
use turn_client_proto_step_laws::reported::messages_are_reported_alike;
use turn_desk_core::decision;
use turn_desk_event::event;
use turn_desk_step_laws::handshakes::{
    first_requests_are_challenged as desk_challenges, signed_allocates_are_granted,
    successes_are_right,
};
use turn_desk_world_laws::laws::relayed_addresses_are_reported;

/// A new client that a loop drives gets its allocation over an honest network that takes time, or
/// the two sides can't come together.
///
/// # Premises
///
/// At first (`MayBegin`) the client is new, over UDP or TCP, and its user name is UTF-8 that fits
/// into a request. The server core has its user, stores nothing for its address, and has no two
/// users with the same hash (RFC 8489, section 14.4). Who makes the client knows the first, the
/// server core's operator the rest. Then (`IsLoop`):
///
/// 1. Until the client holds the allocation, `poll_transmit`, `poll_recv` and the getters may be
///    called, and events polled, in any order and however often. No call is presumed to give
///    something or nothing. The client begins at the first call of `poll_transmit`
///    (`plan.client.made`). The times of its calls never go back, up to the latest time of a client
///    (`IsNext`).
/// 2. `poll` may be called too, before the request that the client makes or awaits would be given
///    up: the first one by the waits from `made` on, the second one by those from the time at which
///    the challenge had come (`MayPoll`). Who calls knows that. So a reply that comes before that
///    end is in time.
/// 3. Of the transmissions of a request exactly one reaches the server core, unaltered, from where
///    it was sent; the others are lost. Its reply reaches the client once, unaltered: over UDP as
///    one datagram, over TCP in chunks, wherever it is cut, each at its own time. How long each
///    takes is free. Nothing else reaches either side. Who sees the network's log knows that.
/// 4. By the server core's own clock, the second request reaches it before the nonce expires that
///    it generated when the first one reached it. The decision is to allocate an address of the one
///    family that the client requests, without flow information and scope. Its operator knows that.
///
/// # Conclusions
///
/// `promised`: What `honest_runs_allocate` promises, at the same positions. If the two can come
/// together, then once the second reply has come, the client holds exactly that allocation, reports
/// it once, and the server core has granted it and nothing else (`IsAllocated`). If they can't, the
/// client has ended once the first reply has come, and holds nothing (`CannotAgree`).
///
/// `sendings`: What each call of `poll_transmit` gives (`IsTransmittedAt`): so that a request is
/// transmitted is no premise. The first call gives the first request. Until the first reply has
/// come, that request comes again at the first call at or after each slot of its schedule, and
/// other calls give nothing (RFC 8489, section 6.2.1). After that:
///
/// - If the two can come together, the first call at least 50 ms after the last message gives the
///   second request, which is valid under the user's key. It goes on by its schedule, from the time
///   at which the challenge had come; a slot that had passed when the last message was sent may
///   wait until 50 ms after that message.
/// - Otherwise calls give nothing.
///
/// `occurs`: The state of client and server core at each position, for what comes next.
///
/// `premises`: A loop may begin where a run of `honest_runs_allocate` may.
///
/// The decision for the first request makes no difference, nor do the words from which the nonce is
/// generated, nor the lengths of the client's waits. A run that ran out of memory is no such run.
pub fn honest_loops_allocate()
    ensures promised { (plan : Plan) (old new : World) (pairs : List (Event × Answer))
        (position : Position)
        → MayBegin plan old
        → IsRun old pairs new
        → IsLoop plan old.desk.auth start pairs position
        → HasCome plan old (events_in pairs) position.progress new }
    ensures sendings { (plan : Plan) (old w v : World) (pairs : List (Event × Answer))
        (position next : Position) (now : ℕ) (ret : Answer)
        → MayBegin plan old
        → IsRun old pairs w
        → IsLoop plan old.desk.auth start pairs position
        → Leads plan old.desk.auth position (Draw now) ret next
        → IsStep (Draw now) w ret v
        → IsTransmittedAt plan old position.progress position.timing now ret }
    ensures occurs { (plan : Plan) (old new : World) (pairs : List (Event × Answer))
        (position : Position)
        → MayBegin plan old
        → IsRun old pairs new
        → IsLoop plan old.desk.auth start pairs position
        → IsAtPosition plan old (events_in pairs) position new }
    ensures premises { (plan : Plan) (old : World) → IsFresh plan old → MayBegin plan old }
{
    events_of_loops_lead_on();
    ended_loops_rest();
}

/// What happens at a position leads from the simulation's state at that position to its state at
/// the next one; and a draw gives what its position says.
pub fn events_of_loops_lead_on()
    ensures { (plan : Plan) (old w v : World) (reported : List TurnEvent)
        (position next : Position) (event : Event) (ret : Answer)
        → MayBegin plan old
        → Leads plan old.desk.auth position event ret next
        → IsAtPosition plan old reported position w
        → IsStep event w ret v
        → IsAtPosition plan old (reported ++ event_in ret) next v
        × IsGivenBy plan old position event ret }
{
    first_draws_ask();
    later_draws_ask_again();
    later_draws_sign();
    later_draws_sign_again();
    requests_in_time_are_challenged();
    challenges_in_time_are_taken();
    requests_in_time_are_granted();
    successes_in_time_are_taken();
    positions_stay();
    positions_stay_empty();
}

/// The first draw gives the first request: an ALLOCATE without credentials, from the client's own
/// address to the server's (RFC 8656, section 7.1).
pub fn first_draws_ask()
    ensures { (plan : Plan) (old w v : World) (reported : List TurnEvent) (ret : Answer)
        (t : Timing)
        → MayBegin plan old
        → IsStageOf plan old reported Start t w
        → plan.client.made ≤ client_end
        → IsStep (Draw plan.client.made) w ret v
        → IsStageOf plan old (reported ++ event_in ret) (transmitted_first ret)
        (record t { many = 1; sent = plan.client.made }) v
        × Gives ret (λ sent. sent ≡ first_sent plan.client) }
{
    new_clients_ask();
}

/// Until the first reply has come, a draw gives the first request again if that is due, and else
/// nothing.
pub fn later_draws_ask_again()
    ensures requested { (plan : Plan) (old w v : World) (reported : List TurnEvent) (ret : Answer)
        (t : Timing) (request : Sent) (now : ℕ)
        → IsStageOf plan old reported (Requested request) t w
        → now ≤ client_end
        → IsStep (Draw now) w ret v
        → IsStageOf plan old (reported ++ event_in ret) (Requested request) (counted now ret t) v
        × IsOnSchedule plan t now ret }
    ensures challenged { (plan : Plan) (old w v : World) (reported : List TurnEvent) (ret : Answer)
        (t : Timing) (request : Sent) (reply head : List ℕ) (now : ℕ)
        → IsStageOf plan old reported (Challenged request reply head) t w
        → now ≤ client_end
        → IsStep (Draw now) w ret v
        → IsStageOf plan old (reported ++ event_in ret) (Challenged request reply head)
        (counted now ret t) v
        × IsOnSchedule plan t now ret }
{
    asking_clients_wait();
}

/// The server core replies to the first request with a challenge, whatever is decided (RFC 8489,
/// section 9.2.4).
pub fn requests_in_time_are_challenged()
    ensures { (plan : Plan) (old w v : World) (reported : List TurnEvent) (ret : Answer)
        (t : Timing) (request : Sent) (bytes : Vec ℕ Global) (now : ℕ) (decision : Decision)
        (seed : List ℕ)
        → MayBegin plan old
        → IsStageOf plan old reported (Requested request) t w
        → bytes.items ≡ request.bytes
        → IsStep (ToDesk bytes request.from now decision seed) w ret v
        → IsStageOf plan old (reported ++ event_in ret) (replied_first request ret)
        (record t { challenged = now }) v }
{
    proof_requests_are_read();
    new_clients_ask();
    desk_challenges();
}

/// The client handles the challenge as it comes. Once all of it has come, the client answers it or
/// ends (RFC 8489, section 9.2.5).
pub fn challenges_in_time_are_taken()
    ensures { (plan : Plan) (old w v : World) (reported : List TurnEvent) (ret : Answer)
        (t : Timing) (request : Sent) (reply head rest : List ℕ) (bytes : Vec ℕ Global) (now : ℕ)
        → MayBegin plan old
        → IsStageOf plan old reported (Challenged request reply head) t w
        → BringsOn plan.client.transport reply head bytes.items rest
        → now ≤ client_end
        → IsStep (ToClient bytes request.to request.from now) w ret v
        → IsStageOf plan old (reported ++ event_in ret)
        (brought_first request reply (head ++ bytes.items) rest) (arrived now rest t) v }
{
    new_clients_ask();
    challenges_are_answered();
    stages_are_unserved();
    messages_reach_clients::<&[u8]>();
}

/// Once the first reply has come, a draw gives the signed request in time, or the client has ended
/// and gives nothing.
pub fn later_draws_sign()
    ensures { (plan : Plan) (old w v : World) (reported : List TurnEvent) (ret : Answer)
        (t : Timing) (now : ℕ)
        → MayBegin plan old
        → IsStageOf plan old reported Came t w
        → now ≤ client_end
        → IsStep (Draw now) w ret v
        → IsStageOf plan old (reported ++ event_in ret) (transmitted_next ret) (counted now ret t) v
        × IsTransmittedAt plan old Came t now ret }
{
    asking_clients_wait();
    chosen_clients_sign();
    signed_allocates_answer();
    ended_clients_rest();
}

/// Once the signed request was transmitted, a draw gives it again if that is due, and else nothing.
pub fn later_draws_sign_again()
    ensures signed { (plan : Plan) (old w v : World) (reported : List TurnEvent) (ret : Answer)
        (t : Timing) (request : Sent) (now : ℕ)
        → IsStageOf plan old reported (Signed request) t w
        → t.sent ≤ now
        → now ≤ client_end
        → IsStep (Draw now) w ret v
        → IsStageOf plan old (reported ++ event_in ret) (Signed request) (counted now ret t) v
        × IsSignedAgain plan t now request ret }
    ensures granted { (plan : Plan) (old w v : World) (reported : List TurnEvent) (ret : Answer)
        (t : Timing) (request : Sent) (address : SocketAddr) (lifetime : ℕ) (reply head : List ℕ)
        (now : ℕ)
        → IsStageOf plan old reported (Granted request address lifetime reply head) t w
        → t.sent ≤ now
        → now ≤ client_end
        → IsStep (Draw now) w ret v
        → IsStageOf plan old (reported ++ event_in ret)
        (Granted request address lifetime reply head) (counted now ret t) v
        × IsSignedAgain plan t now request ret }
{
    asking_clients_wait();
    chosen_clients_sign();
    signed_clients_wait();
}

/// The server core accepts the signed request as its user's while its nonce is valid, and grants
/// the address that was decided (RFC 8656, section 7.2).
pub fn requests_in_time_are_granted()
    ensures { (plan : Plan) (old w v : World) (reported : List TurnEvent) (ret : Answer)
        (t : Timing) (request : Sent) (bytes : Vec ℕ Global) (now : ℕ) (address : SocketAddr)
        (lifetime : ℕ) (seed : List ℕ)
        → MayBegin plan old
        → IsStageOf plan old reported (Signed request) t w
        → bytes.items ≡ request.bytes
        → now < time_after t.challenged old.desk.auth.nonce_expiry
        → AsksForOne plan.client address
        → IsWhole address
        → IsStep (ToDesk bytes request.from now (by.Allocate (address ∷ []) lifetime) seed) w ret v
        → IsStageOf plan old (reported ++ event_in ret)
        (replied_second request address lifetime ret) t v }
{
    proof_requests_are_read();
    signed_allocates_answer();
    signed_allocates_are_granted();
    successes_are_right();
    relayed_addresses_are_reported();
    messages_are_reported_alike();
}

/// The client handles the success response as it comes. Once all of it has come, it holds the
/// allocation (RFC 8656, section 7.3).
pub fn successes_in_time_are_taken()
    ensures { (plan : Plan) (old w v : World) (reported : List TurnEvent) (ret : Answer)
        (t : Timing) (request : Sent) (address : SocketAddr) (lifetime : ℕ)
        (reply head rest : List ℕ) (bytes : Vec ℕ Global) (now : ℕ)
        → IsStageOf plan old reported (Granted request address lifetime reply head) t w
        → BringsOn plan.client.transport reply head bytes.items rest
        → now ≤ client_end
        → IsStep (ToClient bytes request.to request.from now) w ret v
        → IsStageOf plan old (reported ++ event_in ret)
        (brought_second request address lifetime reply (head ++ bytes.items) rest)
        (arrived now rest t) v }
{
    granted_clients_hold();
    stages_are_unserved();
    messages_reach_clients::<&[u8]>();
}

/// The simulation stays at its position if an event of the client's is polled or a getter is called
/// (`looks`), and if `poll` is called in time (`polls`).
pub fn positions_stay()
    ensures looks { (plan : Plan) (old w v : World) (reported : List TurnEvent) (ret : Answer)
        (progress : Progress) (t : Timing) (what : ClientCall) (now : ℕ)
        → IsStageOf plan old reported progress t w
        → IsLook what
        → IsStep (Call what now) w ret v
        → IsStageOf plan old (reported ++ event_in ret) progress t v }
    ensures polls { (plan : Plan) (old w v : World) (reported : List TurnEvent) (ret : Answer)
        (progress : Progress) (t : Timing) (now : ℕ)
        → IsStageOf plan old reported progress t w
        → MayPoll plan old.desk.auth progress t now
        → IsStep (Call Poll now) w ret v
        → IsStageOf plan old (reported ++ event_in ret) progress t v }
{
    new_clients_ask();
    asking_clients_wait();
    chosen_clients_sign();
    signed_clients_wait();
    ended_clients_rest();
    stages_are_reported();
}

/// The simulation stays at its position if `poll_recv` is called: nothing has come from peers.
pub fn positions_stay_empty()
    ensures { (plan : Plan) (old w v : World) (reported : List TurnEvent) (ret : Answer)
        (progress : Progress) (t : Timing) (now : ℕ)
        → MayBegin plan old
        → IsStageOf plan old reported progress t w
        → IsStep (Call PollRecv now) w ret v
        → IsStageOf plan old (reported ++ event_in ret) progress t v }
{
    proof_requests_are_read();
    new_clients_ask();
    stages_are_unserved();
    messages_reach_clients::<&[u8]>();
}

/// A client that has ended gives nothing when it is drawn, and once its events are polled it is
/// closed.
pub fn ended_loops_rest()
    ensures quiet { (plan : Plan) (old w v : World) (reported : List TurnEvent) (ret : Answer)
        (t : Timing) (now : ℕ)
        → IsOverSo plan old reported t w
        → now ≤ client_end
        → IsStep (Draw now) w ret v
        → ret ≡ Nothing }
    ensures closed { (plan : Plan) (old w v : World) (reported : List TurnEvent) (ret : Answer)
        (t : Timing) (now : ℕ)
        → IsOverSo plan old reported t w
        → now ≤ client_end
        → reported ≡ failures plan.client
        → IsStep (Call Poll now) w ret v
        → ret ≡ Closed }
{
    ended_clients_rest();
}

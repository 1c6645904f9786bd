//! A client whose first request gets no response, in a simulation (RFC 8489, section 6.2.1; RFC
//! 8656, section 7.1): what it transmits and when, how long it waits, and how it ends
//! ([`unanswered_worlds_end`]). A draw is a call of `poll_transmit`. The functions do nothing; each
//! contract is a theorem.
//!
//! - `specs/Unanswered.antt` says what happens, by positions, and what each call gives.
//! - `specs/UnansweredStages.antt` has the state of the simulation at each position. For each kind
//!   of event there is a theorem here.

ghost use Rattle.std.specs.Prelude.{◌≡◌, ◌≢◌, ◌⊎◌, ◌≤◌, ◌<◌, ◌++◌, ℕ, List, [], ◌∷◌, None, Vec};
ghost use Rattle.std.specs.declared.alloc.Global.{Global};
ghost use Rattle.std.specs.declared.net.socket_addr.SocketAddr.{SocketAddr};
ghost use Rattle.turn_desk_core.specs.StunTypesBase.declared.transport.TransportType.TheVariants.{Udp};
ghost use Rattle.turn_desk_core.specs.StunTypesWire.Grammar.{refusal};
ghost use Rattle.turn_desk_core.specs.declared.decision.Decision.{Decision};
ghost use Rattle.turn_client_proto_api.specs.declared.event.TurnEvent.{TurnEvent};
ghost use Rattle.turn_client_proto_handshake_laws.specs.Coming.{IsPartOf};
ghost use Rattle.turn_client_proto_handshake_laws.specs.Driving.{client_end};
ghost use Rattle.turn_client_proto_handshake_laws.specs.Sent.{HasRoom, IsUsual, Sending};
ghost use Rattle.turn_desk_event.specs.declared.answer.Answer.{Answer};
ghost use Rattle.turn_desk_event.specs.declared.event.ClientCall.{ClientCall};
ghost use Rattle.turn_desk_event.specs.declared.event.ClientCall.TheVariants.{Poll, PollRecv};
ghost use Rattle.turn_desk_event.specs.declared.event.Event.{Event};
ghost use Rattle.turn_desk_event.specs.declared.event.Event.TheVariants.{Call, Draw};
ghost use Rattle.turn_desk_event.specs.declared.event.Event.TheVariants.{ToClient, ToDesk};
ghost use Rattle.turn_desk_world_laws.specs.World.Model.{World};
ghost use Rattle.turn_desk_world_laws.specs.World.Runs.{IsRun, IsStep};
ghost use Rattle.turn_desk_progress_laws.specs.Loops.{MayBegin, Timing, counted};
ghost use Rattle.turn_desk_progress_laws.specs.Promises.{event_in, events_in};
ghost use Rattle.turn_desk_progress_laws.specs.Scripts.{BringsOn, IsLook, Plan};
ghost use Rattle.turn_desk_laws.specs.Unanswered.{Goes, HasNewClient, HasReported, HasSent};
ghost use Rattle.turn_desk_laws.specs.Unanswered.{IsBeforeEnd, IsDrawAt, IsPolledAt};
ghost use Rattle.turn_desk_laws.specs.Unanswered.{IsUnanswered, MayCome, MayDraw, Outstanding};
ghost use Rattle.turn_desk_laws.specs.Unanswered.{Position, RequestState, TimedOut, begin, after_draw};
ghost use Rattle.turn_desk_laws.specs.Unanswered.{end_in, sending_of, sendings_in, until_whole};
ghost use Rattle.turn_desk_laws.specs.UnansweredStages.{IsAtPosition, IsStageOf};

use turn_client_proto_handshake_laws::stages::{
    asking_clients_wait, ended_clients_rest, messages_reach_clients, new_clients_ask,
    stages_are_reported, stages_are_unserved,
};
use turn_client_proto_messages::laws::proof_requests_are_read;
use turn_desk_core::decision;
use turn_desk_event::event;

/// A new client whose first request gets no response transmits that request by its schedule, and at
/// the end of it reports that no address was allocated, and is closed.
///
/// # Premises
///
/// 1. The client is new, its user name fits into a request, and at most two address families are
///    configured (`HasNewClient`). A caller of `TurnClientUdp::allocate` or
///    `TurnClientTcp::allocate` knows that. Nothing is said of the server core.
/// 2. What happens (`Goes`), which a run shows. The client is first drawn at `plan.client.made`.
///    Its calls may come at any times, in nanoseconds, up to the latest time of a client: a draw or
///    a poll may be late by any amount. Its events may be polled, and its getters and `poll_recv`
///    called. Anything comes to the server core.
/// 3. To the client, at any time and over either transport, may come: any bytes from another
///    address than the server's, or at another address than the client's own; from the server any
///    indication, any request, and any response with another transaction ID than that of the
///    outstanding request (RFC 8489, section 6.3); a part of any message; over UDP a datagram that
///    is no message. Before the request is made and after it has timed out any message may come.
///
/// There is one exception in 3. A challenge under another transaction ID is stored by a client that
/// isn't hardened (`TurnConfig::set_hardened`) if it can answer it (`IsWithoutEffect`): the law
/// says nothing then. Over TCP it says nothing of bytes from the server that can't be a part of a
/// message, nor of the end of the stream. A run that ran out of memory is no such run.
///
/// # Conclusions
///
/// - `draws`: the first draw gives the first request. While that is outstanding, a draw gives the
///   same bytes again, from the client's own address to the server's, if the next slot of its
///   schedule isn't later, and otherwise nothing (`IsDrawAt`; RFC 8489, section 6.2.1). Once it
///   has timed out, draws give nothing.
/// - `sent`: nothing else was transmitted, the `k`-th not before slot `k`, and no more often than
///   there are slots (`HasSent`); over TCP there is one.
/// - `polls`: before the end of the schedule a poll returns `WaitUntil` a time that isn't later
///   than the end, nor than the next slot, and is later than now if no transmission is due. The
///   first poll at or after the end returns `Closed`. Then it is `WaitUntil` now while an event is
///   queued, and `Closed` again (`IsPolledAt`).
/// - `reported`: no event is reported until then. Afterwards the client has ended, and for each
///   family in order it reports `AllocationCreateFailed` (`HasReported`).
/// - `occurs`: the state of the simulation at each position, for what comes next.
/// - `premises`: a client that may begin `honest_loops_allocate` may begin here.
pub fn unanswered_worlds_end()
    ensures draws { (plan : Plan) (old w v : World) (pairs : List (Event × Answer))
        (position : Position) (now : ℕ) (ret : Answer)
        → HasNewClient plan old
        → IsRun old pairs w
        → IsUnanswered plan begin pairs position
        → MayDraw plan position.request now
        → now ≤ client_end
        → IsStep (Draw now) w ret v
        → IsDrawAt plan position.request position.timing now ret }
    ensures sent { (plan : Plan) (old new : World) (pairs : List (Event × Answer))
        (position : Position)
        → HasNewClient plan old
        → IsRun old pairs new
        → IsUnanswered plan begin pairs position
        → HasSent plan position.timing (sendings_in pairs) }
    ensures polls { (plan : Plan) (old w v : World) (pairs : List (Event × Answer))
        (position : Position) (now : ℕ) (ret : Answer)
        → HasNewClient plan old
        → IsRun old pairs w
        → IsUnanswered plan begin pairs position
        → now ≤ client_end
        → IsStep (Call Poll now) w ret v
        → IsPolledAt plan (events_in pairs) position.request position.timing now ret }
    ensures reported { (plan : Plan) (old new : World) (pairs : List (Event × Answer))
        (position : Position)
        → HasNewClient plan old
        → IsRun old pairs new
        → IsUnanswered plan begin pairs position
        → HasReported plan (events_in pairs) position.request position.buffered new }
    ensures occurs { (plan : Plan) (old new : World) (pairs : List (Event × Answer))
        (position : Position)
        → HasNewClient plan old
        → IsRun old pairs new
        → IsUnanswered plan begin pairs position
        → IsAtPosition plan (events_in pairs) (sendings_in pairs) position new }
    ensures premises { (plan : Plan) (old : World) → MayBegin plan old → HasNewClient plan old }
{
    proof_requests_are_read();
    new_clients_ask();
    unanswered_events_lead_on();
    unanswered_clients_ask_again();
    unanswered_clients_time_out();
}

/// What happens at a position leads from the simulation's state at that position to its state at
/// the next one.
pub fn unanswered_events_lead_on()
    ensures { (plan : Plan) (w v : World) (reported : List TurnEvent) (sendings : List Sending)
        (position next : Position) (event : Event) (ret : Answer)
        → HasRoom plan.client.config → IsUsual plan.client.config
        → Goes plan position event ret next
        → IsAtPosition plan reported sendings position w
        → IsStep event w ret v
        → IsAtPosition plan (reported ++ event_in ret) (sendings ++ sending_of event ret) next v }
{
    unanswered_clients_ask_again();
    unanswered_clients_time_out();
    unanswered_clients_stay();
    unanswered_clients_ignore();
}

/// What a draw gives and the state after it (`asks`), and all that was transmitted then (`sends`).
pub fn unanswered_clients_ask_again()
    ensures asks { (plan : Plan) (w v : World) (reported : List TurnEvent) (request : RequestState)
        (t : Timing) (head : List ℕ) (now : ℕ) (ret : Answer)
        → HasRoom plan.client.config → IsUsual plan.client.config
        → IsStageOf plan reported request t head w
        → MayDraw plan request now
        → now ≤ client_end
        → IsStep (Draw now) w ret v
        → IsStageOf plan (reported ++ event_in ret) (after_draw request) (counted now ret t) head v
        × IsDrawAt plan request t now ret }
    ensures sends { (plan : Plan) (w v : World) (reported : List TurnEvent)
        (sendings : List Sending) (request : RequestState) (t : Timing) (head : List ℕ) (now : ℕ)
        (ret : Answer)
        → HasRoom plan.client.config → IsUsual plan.client.config
        → IsStageOf plan reported request t head w
        → MayDraw plan request now
        → now ≤ client_end
        → IsStep (Draw now) w ret v
        → HasSent plan t sendings
        → HasSent plan (counted now ret t) (sendings ++ sending_of (Draw now) ret) }
{
    new_clients_ask();
    asking_clients_wait();
    ended_clients_rest();
}

/// What a poll gives (`gives`), and the state after it: the same before the end of the request's
/// schedule (`waits`), and from the end on that of a client that has ended (`ends`).
pub fn unanswered_clients_time_out()
    ensures gives { (plan : Plan) (w v : World) (reported : List TurnEvent)
        (request : RequestState) (t : Timing) (head : List ℕ) (now : ℕ) (ret : Answer)
        → IsStageOf plan reported request t head w
        → now ≤ client_end
        → IsStep (Call Poll now) w ret v
        → IsPolledAt plan reported request t now ret }
    ensures waits { (plan : Plan) (w v : World) (reported : List TurnEvent)
        (request : RequestState) (t : Timing) (head : List ℕ) (now : ℕ) (ret : Answer)
        → IsStageOf plan reported request t head w
        → IsBeforeEnd plan request now
        → now ≤ client_end
        → IsStep (Call Poll now) w ret v
        → IsStageOf plan (reported ++ event_in ret) request t head v }
    ensures ends { (plan : Plan) (w v : World) (reported : List TurnEvent) (t : Timing)
        (head : List ℕ) (now : ℕ) (ret : Answer)
        → IsStageOf plan reported Outstanding t head w
        → end_in plan ≤ now
        → now ≤ client_end
        → IsStep (Call Poll now) w ret v
        → IsStageOf plan (reported ++ event_in ret) TimedOut t head v }
{
    new_clients_ask();
    asking_clients_wait();
    ended_clients_rest();
}

/// The client stays as it is if an event of its is polled or a getter is called (`looks`), if
/// `poll_recv` is called (`receives`), and whatever comes to the server core (`serves`).
pub fn unanswered_clients_stay()
    ensures looks { (plan : Plan) (w v : World) (reported : List TurnEvent)
        (request : RequestState) (t : Timing) (head : List ℕ) (what : ClientCall) (now : ℕ)
        (ret : Answer)
        → IsStageOf plan reported request t head w
        → IsLook what
        → IsStep (Call what now) w ret v
        → IsStageOf plan (reported ++ event_in ret) request t head v }
    ensures receives { (plan : Plan) (w v : World) (reported : List TurnEvent)
        (request : RequestState) (t : Timing) (head message : List ℕ) (now : ℕ) (ret : Answer)
        → IsStageOf plan reported request t head w
        → IsPartOf head message
        → IsStep (Call PollRecv now) w ret v
        → IsStageOf plan (reported ++ event_in ret) request t head v }
    ensures serves { (plan : Plan) (w v : World) (reported : List TurnEvent)
        (request : RequestState) (t : Timing) (head : List ℕ) (bytes : Vec ℕ Global)
        (from : SocketAddr) (now : ℕ) (decision : Decision) (seed : List ℕ) (ret : Answer)
        → IsStageOf plan reported request t head w
        → IsStep (ToDesk bytes from now decision seed) w ret v
        → IsStageOf plan (reported ++ event_in ret) request t head v }
{
    ended_clients_rest();
    stages_are_reported();
    stages_are_unserved();
    messages_reach_clients::<&[u8]>();
}

/// Nothing but what is buffered changes at the client if bytes come from elsewhere (`strays`), or
/// a datagram that is no message (`garbles`), or a message that doesn't answer its request, or a
/// part of any message (`brings`).
pub fn unanswered_clients_ignore()
    ensures strays { (plan : Plan) (w v : World) (reported : List TurnEvent)
        (request : RequestState) (t : Timing) (head : List ℕ) (bytes : Vec ℕ Global)
        (from to : SocketAddr) (now : ℕ) (ret : Answer)
        → IsStageOf plan reported request t head w
        → (from ≢ plan.client.server) ⊎ (to ≢ plan.client.here)
        → IsStep (ToClient bytes from to now) w ret v
        → IsStageOf plan (reported ++ event_in ret) request t head v }
    ensures garbles { (plan : Plan) (w v : World) (reported : List TurnEvent)
        (request : RequestState) (t : Timing) (head : List ℕ) (bytes : Vec ℕ Global)
        (from to : SocketAddr) (now : ℕ) (ret : Answer)
        → IsStageOf plan reported request t head w
        → plan.client.transport ≡ Udp
        → refusal bytes.items ≢ None
        → IsStep (ToClient bytes from to now) w ret v
        → IsStageOf plan (reported ++ event_in ret) request t head v }
    ensures brings { (plan : Plan) (w v : World) (reported : List TurnEvent)
        (request : RequestState) (t : Timing) (head message rest : List ℕ) (bytes : Vec ℕ Global)
        (now : ℕ) (ret : Answer)
        → IsStageOf plan reported request t head w
        → refusal message ≡ None
        → MayCome plan request message rest
        → BringsOn plan.client.transport message head bytes.items rest
        → now ≤ client_end
        → IsStep (ToClient bytes plan.client.server plan.client.here now) w ret v
        → IsStageOf plan (reported ++ event_in ret) request t
        (until_whole (head ++ bytes.items) rest) v
        × ((part : List ℕ) × IsPartOf (until_whole (head ++ bytes.items) rest) part) }
{
    ended_clients_rest();
    stages_are_unserved();
    messages_reach_clients::<&[u8]>();
}

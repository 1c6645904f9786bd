//! A client that holds an allocation, over UDP or TCP, and that a driver's loop calls at any times,
//! renews it over a network that takes time, also when the server core's nonces expire (RFC 8656,
//! section 8; RFC 8489, sections 6.2.1, 9.2.4 and 9.2.5; [`loops_renew`]). A draw is a call of
//! `poll_transmit`. The functions do nothing; each contract is a theorem.
//!
//! - `specs/RenewalLoops.antt` says what the loop and the network do, by positions with times, and
//!   what each draw gives. It presumes no result, except what the server core decides.
//! - `specs/RenewalStages.antt` has the state of the simulation at each position. For each event
//!   that leads from one position to another there is a theorem here.

ghost use Rattle.std.specs.Prelude.{◌≡◌, ◌≤◌, ◌<◌, ◌++◌, ℕ, false, List, [], Some, Vec};
ghost use Rattle.std.specs.declared.alloc.Global.{Global};
ghost use Rattle.std.specs.declared.net.socket_addr.SocketAddr.{SocketAddr};
ghost use Rattle.turn_desk_core.specs.StunTypesWire.Attributes.{kind_at};
ghost use Rattle.turn_desk_core.specs.StunTypesWire.declared.class.MessageClass.TheVariants.{Success};
ghost use Rattle.turn_desk_core.specs.StunTypesWire.Types.{class_of};
ghost use Rattle.turn_client_proto_messages.specs.StunProtoClient.Challenges.{ChallengeFields};
ghost use Rattle.turn_client_proto_messages.specs.StunProtoClient.Challenges.{challenge_visible};
ghost use Rattle.turn_client_proto_api.specs.declared.event.TurnEvent.{TurnEvent};
ghost use Rattle.turn_client_proto_api.specs.Sent.{Sent};
ghost use Rattle.turn_client_proto_handshake_laws.specs.Driving.{client_end};
ghost use Rattle.turn_desk_event.specs.declared.answer.Answer.{Answer};
ghost use Rattle.turn_desk_event.specs.declared.answer.Answer.TheVariants.{Reply};
ghost use Rattle.turn_desk_core.specs.declared.decision.Decision.{Decision};
ghost use Rattle.turn_desk_core.specs.declared.decision.Decision.TheVariants as by;
ghost use Rattle.turn_desk_event.specs.declared.event.ClientCall.{ClientCall};
ghost use Rattle.turn_desk_event.specs.declared.event.ClientCall.TheVariants.{Poll, PollRecv};
ghost use Rattle.turn_desk_event.specs.declared.event.Event.{Event};
ghost use Rattle.turn_desk_event.specs.declared.event.Event.TheVariants.{Call, Draw};
ghost use Rattle.turn_desk_event.specs.declared.event.Event.TheVariants.{ToClient, ToDesk};
ghost use Rattle.turn_desk_world_laws.specs.World.Model.{World};
ghost use Rattle.turn_desk_world_laws.specs.World.Runs.{IsRun, IsStep};
ghost use Rattle.turn_desk_progress_laws.specs.Loops.{IsLoop, MayBegin, Position, start};
ghost use Rattle.turn_desk_progress_laws.specs.Promises.{events_in};
ghost use Rattle.turn_desk_progress_laws.specs.Renewals.{HoldsStill};
ghost use Rattle.turn_desk_progress_laws.specs.Scripts.{BringsOn, Done, IsLook, Plan};
ghost use Rattle.turn_desk_progress_laws.specs.Turns.{least};
ghost use Rattle.turn_desk_laws.specs.RefreshStages.{most_challenges};
ghost use Rattle.turn_desk_laws.specs.RenewalLoops.{Challenged, Holding, IsDrawAt, IsDrawBy};
ghost use Rattle.turn_desk_laws.specs.RenewalLoops.{IsInTime, IsNextInTime, IsRefreshAgain};
ghost use Rattle.turn_desk_laws.specs.RenewalLoops.{IsRenewalLoop, MayPollOn, Refreshing};
ghost use Rattle.turn_desk_laws.specs.RenewalLoops.{Renewal, RenewalPosition, Renewing, Renews};
ghost use Rattle.turn_desk_laws.specs.RenewalLoops.{Turned, challenged_by, counted_draw};
ghost use Rattle.turn_desk_laws.specs.RenewalLoops.{head_of, held_after, holding_draw};
ghost use Rattle.turn_desk_laws.specs.RenewalLoops.{renewed_by, turned_next};
ghost use Rattle.turn_desk_laws.specs.RenewalStages.{IsAtRenewal, IsHoldingSo, IsStageAt};

use crate::challenged_refreshes::{
    challenged_refreshes_are_reported, challenged_refreshes_renew, challenged_refreshes_wait,
    keeping_clients_are_polled, refreshing_clients_are_challenged, responses_reach_clients,
};
use turn_client_proto_handshake_laws::stages::{
    granted_clients_hold, messages_reach_clients, signed_allocates_answer, stages_are_reported,
    stages_are_unserved,
};
use turn_client_proto_messages::laws::proof_requests_are_read;
use turn_client_proto_progress_laws::renewals::{
    holding_clients_keep, keepers_are_reported, keeping_clients_refresh, refreshes_are_signed,
    refreshing_clients_wait,
};
use turn_client_proto_step_laws::reported::messages_are_reported_alike;
use turn_desk_core::laws::desk_steps;
use turn_desk_progress_laws::loops::events_of_loops_lead_on;

/// A client that a loop drives, and that was granted an allocation, renews it for ever, over an
/// honest network that takes time.
///
/// # Premises
///
/// A loop over an honest network that takes time granted an allocation, for ten minutes or more:
/// the premises of `honest_loops_allocate` hold until all of the reply to the client's second
/// request has come (`MayBegin`, `IsLoop`). Then (`IsRenewalLoop`):
///
/// 1. `poll_transmit`, `poll`, `poll_recv` and the getters may be called, and events polled, in any
///    order and however often, before the end of the allocation as it was last granted. No call is
///    presumed to give something or nothing. The times of the client's calls never go back, up to
///    the latest time of a client (`IsInTime`). `poll` is called before a REFRESH that is
///    outstanding would be given up (`MayPollOn`): by the waits from the time on at which it was
///    first transmitted, or at which the challenge had come that it answers. Who calls knows that.
/// 2. Of the transmissions of a REFRESH exactly one reaches the server core, unaltered, from where
///    it was sent, at any time by the server core's own clock; the others are lost. Who sees the
///    network's log knows that.
/// 3. The server core grants it for ten minutes or more. Or its nonce for the client has expired,
///    and it challenges the REFRESH, at most nine times in a row: a client ends at the tenth
///    challenge. Its operator knows that.
/// 4. The reply reaches the client once, unaltered, before the end of the allocation: over UDP as
///    one datagram, over TCP in chunks, wherever it is cut, each at its own time. How long it takes
///    is free otherwise. Nothing else reaches either side. Who sees the network's log knows that.
/// 5. When it comes, the REFRESH isn't queued any more (`queued`). Only one that answers a
///    challenge is ever queued: it leaves the queue at the first draw 50 ms after the last message
///    at which no transmission of it is due by its schedule, as at a draw within the first wait
///    after the challenge came. Who calls knows that.
///
/// # Conclusions
///
/// `promised`: At each position the client holds exactly that allocation (`HoldsStill`).
///
/// `sendings`: What each call of `poll_transmit` gives (`IsDrawAt`): so that a REFRESH is
/// transmitted is no premise.
///
/// - The first call at or after a minute before the allocation's end, and 50 ms after the last
///   message, gives a REFRESH, which is valid under the user's key; calls before give none. Before
///   it the client's second request may come once more, if it was transmitted by its schedule
///   alone.
/// - The same REFRESH, with the same transaction ID, comes again at the first call at or after each
///   slot of its schedule, and at no other call, until all of the reply has come (RFC 8489, section
///   6.2.1). While it is also queued, it comes at the latest 50 ms after the last message.
/// - Once all of a challenge has come, the first call 50 ms after the last message gives a REFRESH
///   with another transaction ID and the challenge's nonce, valid under the user's key, and then
///   that again by its schedule, from the time at which the challenge had come. So it is after each
///   further challenge.
/// - Once all of a success response has come, all this holds of the new lifetime.
///
/// `occurs`: The state of client and server core at each position, for what comes next.
///
/// The words from which nonces are generated make no difference, nor do the lengths of the client's
/// waits. A run that ran out of memory is no such run.
pub fn loops_renew()
    ensures promised { (plan : Plan) (old one new : World) (first again : List (Event × Answer))
        (position : Position) (request : Sent) (address : SocketAddr) (lifetime : ℕ)
        (reply : List ℕ) (p : RenewalPosition)
        → MayBegin plan old
        → IsRun old first one
        → IsLoop plan old.desk.auth start first position
        → position.progress ≡ Done request address lifetime reply
        → least ≤ lifetime
        → IsRun one again new
        → IsRenewalLoop plan (held_after position lifetime) again p
        → HoldsStill plan address (head_of p.progress) new }
    ensures sendings { (plan : Plan) (old one w v : World) (first again : List (Event × Answer))
        (position : Position) (request : Sent) (address : SocketAddr) (lifetime : ℕ)
        (reply : List ℕ) (p next : RenewalPosition) (now : ℕ) (ret : Answer)
        → MayBegin plan old
        → IsRun old first one
        → IsLoop plan old.desk.auth start first position
        → position.progress ≡ Done request address lifetime reply
        → least ≤ lifetime
        → IsRun one again w
        → IsRenewalLoop plan (held_after position lifetime) again p
        → Renews plan p (Draw now) ret next
        → IsStep (Draw now) w ret v
        → IsDrawAt plan old request p.progress p now ret }
    ensures occurs { (plan : Plan) (old one new : World) (first again : List (Event × Answer))
        (position : Position) (request : Sent) (address : SocketAddr) (lifetime : ℕ)
        (reply : List ℕ) (p : RenewalPosition)
        → MayBegin plan old
        → IsRun old first one
        → IsLoop plan old.desk.auth start first position
        → position.progress ≡ Done request address lifetime reply
        → least ≤ lifetime
        → IsRun one again new
        → IsRenewalLoop plan (held_after position lifetime) again p
        → IsAtRenewal plan old address request p new }
{
    loops_hold();
    held_loops_begin();
    events_of_renewals_lead_on();
    keepers_are_reported();
    challenged_refreshes_are_reported();
}

/// After a loop that granted an allocation, the client holds only this, from the time on at which
/// all of the reply had come. It signs by a challenge of the server core, which still has its
/// settings. Nothing is queued, or only the client's second request once more.
pub fn loops_hold()
    ensures { (plan : Plan) (old new : World) (pairs : List (Event × Answer))
        (position : Position) (request : Sent) (address : SocketAddr) (lifetime : ℕ)
        (reply : List ℕ)
        → MayBegin plan old
        → IsRun old pairs new
        → IsLoop plan old.desk.auth start pairs position
        → position.progress ≡ Done request address lifetime reply
        → IsHoldingSo plan old (events_in pairs) position.timing request address lifetime new }
{
    events_of_loops_lead_on();
    granted_clients_hold();
    stages_are_unserved();
    stages_are_reported();
    messages_reach_clients::<&[u8]>();
    signed_allocates_answer();
}

/// This is the state in which the renewals begin, if the allocation was granted for ten minutes or
/// more.
pub fn held_loops_begin()
    ensures { (plan : Plan) (old w : World) (reported : List TurnEvent) (position : Position)
        (request : Sent) (address : SocketAddr) (lifetime : ℕ)
        → IsHoldingSo plan old reported position.timing request address lifetime w
        → least ≤ lifetime
        → IsAtRenewal plan old address request (held_after position lifetime) w }
{
    holding_clients_keep();
}

/// What happens at a position leads from the simulation's state at that position to its state at
/// the next one; and a draw gives what its position says.
pub fn events_of_renewals_lead_on()
    ensures { (plan : Plan) (old w v : World) (address : SocketAddr) (secondly : Sent)
        (p next : RenewalPosition) (event : Event) (ret : Answer)
        → MayBegin plan old
        → Renews plan p event ret next
        → IsAtRenewal plan old address secondly p w
        → IsStep event w ret v
        → IsAtRenewal plan old address secondly next v
        × IsDrawBy plan old secondly p event ret }
{
    draws_of_held_allocations();
    draws_of_outstanding_refreshes();
    renewals_are_polled();
    renewals_stand_still();
    late_refreshes_are_granted();
    late_refreshes_are_challenged();
    late_successes_are_taken();
    late_challenges_are_taken();
}

/// While the allocation is held, a draw gives the second request once more if that is queued, then
/// a REFRESH from a minute before the allocation's end on, and else nothing (RFC 8656, section
/// 8.1).
pub fn draws_of_held_allocations()
    ensures { (plan : Plan) (old w v : World) (address : SocketAddr) (secondly : Sent)
        (p : RenewalPosition) (now : ℕ) (ret : Answer)
        → MayBegin plan old
        → IsStageAt plan old address secondly Holding p w
        → IsInTime p now
        → IsStep (Draw now) w ret v
        → IsStageAt plan old address secondly (holding_draw now ret p).progress
        (holding_draw now ret p) v
        × IsDrawAt plan old secondly Holding p now ret }
{
    proof_requests_are_read();
    signed_allocates_answer();
    keeping_clients_refresh();
    refreshes_are_signed();
    challenged_refreshes_wait();
}

/// While a REFRESH is outstanding, a draw gives it again by its schedule (RFC 8489, section 6.2.1),
/// or from the queue, and else nothing. The first one that a draw gives once a challenge has come
/// (`turned`) is under the nonce of the challenge.
pub fn draws_of_outstanding_refreshes()
    ensures refreshing { (plan : Plan) (old w v : World) (address : SocketAddr) (secondly : Sent)
        (p : RenewalPosition) (request : Sent) (now : ℕ) (ret : Answer)
        → IsStageAt plan old address secondly (Refreshing request) p w
        → now ≤ client_end
        → IsStep (Draw now) w ret v
        → IsStageAt plan old address secondly (Refreshing request) (counted_draw plan now ret p) v
        × IsRefreshAgain plan p now request ret }
    ensures renewing { (plan : Plan) (old w v : World) (address : SocketAddr) (secondly : Sent)
        (p : RenewalPosition) (request : Sent) (more : ℕ) (reply head : List ℕ) (now : ℕ)
        (ret : Answer)
        → IsStageAt plan old address secondly (Renewing request more reply head) p w
        → now ≤ client_end
        → IsStep (Draw now) w ret v
        → IsStageAt plan old address secondly (Renewing request more reply head)
        (counted_draw plan now ret p) v
        × IsRefreshAgain plan p now request ret }
    ensures challenged { (plan : Plan) (old w v : World) (address : SocketAddr) (secondly : Sent)
        (p : RenewalPosition) (request : Sent) (reply head : List ℕ) (now : ℕ) (ret : Answer)
        → IsStageAt plan old address secondly (Challenged request reply head) p w
        → now ≤ client_end
        → IsStep (Draw now) w ret v
        → IsStageAt plan old address secondly (Challenged request reply head)
        (counted_draw plan now ret p) v
        × IsRefreshAgain plan p now request ret }
    ensures turned { (plan : Plan) (old w v : World) (address : SocketAddr) (secondly : Sent)
        (p : RenewalPosition) (request : Sent) (reply : List ℕ) (now : ℕ) (ret : Answer)
        → MayBegin plan old
        → IsStageAt plan old address secondly (Turned request reply) p w
        → now ≤ client_end
        → IsStep (Draw now) w ret v
        → IsStageAt plan old address secondly (turned_next request reply ret)
        (counted_draw plan now ret p) v
        × IsNextInTime plan old p now request reply ret }
{
    refreshes_are_signed();
    refreshing_clients_wait();
    challenged_refreshes_wait();
}

/// The simulation stays at its position if `poll` is called in time.
pub fn renewals_are_polled()
    ensures { (plan : Plan) (old w v : World) (address : SocketAddr) (secondly : Sent)
        (progress : Renewal) (p : RenewalPosition) (now : ℕ) (ret : Answer)
        → IsStageAt plan old address secondly progress p w
        → IsInTime p now
        → MayPollOn plan progress p.made now
        → IsStep (Call Poll now) w ret v
        → IsStageAt plan old address secondly progress p v }
{
    keeping_clients_are_polled();
    challenged_refreshes_wait();
}

/// The simulation stays at its position if an event of the client's is polled or a getter is called
/// (`looks`), and if `poll_recv` is called: nothing has come from peers (`receives`).
pub fn renewals_stand_still()
    ensures looks { (plan : Plan) (old w v : World) (address : SocketAddr) (secondly : Sent)
        (progress : Renewal) (p : RenewalPosition) (what : ClientCall) (now : ℕ) (ret : Answer)
        → IsStageAt plan old address secondly progress p w
        → IsLook what
        → IsStep (Call what now) w ret v
        → IsStageAt plan old address secondly progress p v }
    ensures receives { (plan : Plan) (old w v : World) (address : SocketAddr) (secondly : Sent)
        (progress : Renewal) (p : RenewalPosition) (now : ℕ) (ret : Answer)
        → MayBegin plan old
        → IsStageAt plan old address secondly progress p w
        → IsStep (Call PollRecv now) w ret v
        → IsStageAt plan old address secondly progress p v }
{
    keepers_are_reported();
    challenged_refreshes_are_reported();
    messages_reach_clients::<&[u8]>();
    refreshes_are_signed();
}

/// The success response by which the server core grants the REFRESH, at any time by its own clock,
/// shows the lifetime that was decided, and is valid under the user's key (RFC 8656, section 8.2).
pub fn late_refreshes_are_granted()
    ensures { (plan : Plan) (old w v : World) (address : SocketAddr) (secondly : Sent)
        (p : RenewalPosition) (request : Sent) (now more : ℕ) (bytes reply : Vec ℕ Global)
        (seed : List ℕ)
        → MayBegin plan old
        → IsStageAt plan old address secondly (Refreshing request) p w
        → bytes.items ≡ request.bytes
        → least ≤ more
        → IsStep (ToDesk bytes request.from now (by.Refresh more) seed) w (Reply reply) v
        → class_of (kind_at reply.items) ≡ Success
        → IsStageAt plan old address secondly (Renewing request more reply.items []) p v }
{
    desk_steps();
    refreshes_are_signed();
    messages_are_reported_alike();
}

/// The challenge by which the server core replies to the REFRESH has its realm, and announces what
/// it accepts (RFC 8489, section 9.2.4).
pub fn late_refreshes_are_challenged()
    ensures { (plan : Plan) (old w v : World) (address : SocketAddr) (secondly : Sent)
        (p : RenewalPosition) (request : Sent) (now : ℕ) (bytes reply : Vec ℕ Global)
        (reported : ChallengeFields) (decision : Decision) (seed : List ℕ)
        → MayBegin plan old
        → IsStageAt plan old address secondly (Refreshing request) p w
        → bytes.items ≡ request.bytes
        → p.challenges < most_challenges
        → IsStep (ToDesk bytes request.from now decision seed) w (Reply reply) v
        → challenge_visible reply.items ≡ Some reported
        → IsStageAt plan old address secondly (Challenged request reply.items []) p v }
{
    refreshes_are_signed();
}

/// The client handles the success response as it comes. Once all of it has come, it keeps the
/// allocation for that lifetime (RFC 8656, section 8.3).
pub fn late_successes_are_taken()
    ensures { (plan : Plan) (old w v : World) (address : SocketAddr) (secondly : Sent)
        (p : RenewalPosition) (request : Sent) (more : ℕ) (reply head rest : List ℕ)
        (bytes : Vec ℕ Global) (now : ℕ) (ret : Answer)
        → IsStageAt plan old address secondly (Renewing request more reply head) p w
        → p.queued ≡ false
        → BringsOn plan.client.transport reply head bytes.items rest
        → now ≤ client_end
        → IsStep (ToClient bytes request.to request.from now) w ret v
        → IsAtRenewal plan old address secondly
        (renewed_by request more reply (head ++ bytes.items) rest now p) v }
{
    challenged_refreshes_renew();
    responses_reach_clients::<&[u8]>();
}

/// The client handles the challenge as it comes. Once all of it has come, it queues another REFRESH
/// (RFC 8489, section 9.2.5).
pub fn late_challenges_are_taken()
    ensures { (plan : Plan) (old w v : World) (address : SocketAddr) (secondly : Sent)
        (p : RenewalPosition) (request : Sent) (reply head rest : List ℕ)
        (bytes : Vec ℕ Global) (now : ℕ) (ret : Answer)
        → MayBegin plan old
        → IsStageAt plan old address secondly (Challenged request reply head) p w
        → p.queued ≡ false
        → BringsOn plan.client.transport reply head bytes.items rest
        → now ≤ client_end
        → IsStep (ToClient bytes request.to request.from now) w ret v
        → IsAtRenewal plan old address secondly
        (challenged_by request reply (head ++ bytes.items) rest now p) v }
{
    refreshing_clients_are_challenged();
    refreshes_are_signed();
    responses_reach_clients::<&[u8]>();
}

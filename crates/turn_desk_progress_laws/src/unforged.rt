//! The premise on forgery holds in an honest run. The function does nothing; its contract is a
//! theorem.

ghost use Rattle.std.specs.Prelude.{List, ℕ};
ghost use Rattle.std.specs.List.{AllByRecursion};
ghost use Rattle.std.specs.declared.net.socket_addr.SocketAddr.{SocketAddr};
ghost use Rattle.turn_client_proto_api.specs.Sent.{Sent};
ghost use Rattle.turn_desk_event.specs.declared.answer.Answer.{Answer};
ghost use Rattle.turn_desk_event.specs.declared.event.Event.{Event};
ghost use Rattle.turn_desk_step_laws.specs.DeskRun.{DeskCall};
ghost use Rattle.turn_client_proto_step_laws.specs.Recv.ClientState.{Protocol};
ghost use Rattle.turn_desk_world_laws.specs.World.Model.{World};
ghost use Rattle.turn_client_proto_step_laws.specs.RunClient.{Client};
ghost use Rattle.turn_desk_world_laws.specs.World.Runs.{IsRun};
ghost use Rattle.turn_client_proto_messages.specs.TurnRuns.Runs.{Step};
ghost use Rattle.turn_desk_world_laws.specs.Reported.{IsFair, IsReportedBy};
ghost use Rattle.turn_desk_progress_laws.specs.Promises.{IsFresh};
ghost use Rattle.turn_desk_progress_laws.specs.Scripts.{Done, IsScript, Progress, Plan, Start};
ghost use Rattle.turn_desk_progress_laws.specs.Unforged.{IsEachUnforged, IsReplySigned, IsReportedUnforged, first_of};

use crate::honest::events_lead_on;
use turn_client_proto_handshake_laws::stages::{
    new_clients_ask, signed_allocates_answer, stages_are_unserved,
};
use turn_client_proto_messages::laws::proof_requests_are_read;
use turn_desk_world_laws::laws::{new_clients_begin_new, runs_of_a_world_are_safe};

/// Nothing is forged in an honest run.
///
/// - `unforged`: The premise `NoForgery` of `World::run` holds for each account of it, whatever
///   count of transaction IDs is taken as the client's own.
/// - `reported`: If no address that is decided has flow information or a scope, there is an
///   account.
/// - `signed`: If the run comes to its end, the success response has the transaction ID of the
///   client's request. It arrives, validates under a key that counts, and the server core signed it
///   before. So the premise doesn't hold merely for lack of a signed message. (Whether that ID is
///   one of the client's own depends on its generator, of which nothing is said here.)
///
/// Why: the only realm that is named in such a run is the server core's, so exactly one key counts
/// for each algorithm. The first request and the challenge show no integrity attribute. The second
/// request is one that the client transmitted. The server core signed the text that its success
/// response covers, under the key with which it validated that request.
///
/// So the premise is not false of every run in which a signed message arrives. Of a run in which
/// others name realms it can only be presumed: nobody can prove that the key of such a realm
/// doesn't give the same HMAC.
pub fn honest_runs_are_unforged()
    ensures unforged { (plan : Plan) (old new : World) (pairs : List (Event × Answer))
        (progress : Progress)
        → IsFresh plan old
        → IsScript plan Start pairs progress
        → IsEachUnforged plan old pairs new }
    ensures reported { (plan : Plan) (old new : World) (pairs : List (Event × Answer))
        (progress : Progress)
        → IsFresh plan old
        → IsRun old pairs new
        → IsScript plan Start pairs progress
        → AllByRecursion IsFair pairs
        → IsReportedUnforged plan old pairs new }
    ensures signed { (plan : Plan) (old new : World) (pairs : List (Event × Answer))
        (request : Sent) (address : SocketAddr) (lifetime : ℕ) (reply : List ℕ)
        (core : Protocol) (run : List (Step Client DeskCall))
        → IsFresh plan old
        → IsScript plan Start pairs (Done request address lifetime reply)
        → IsReportedBy old pairs run new
        → IsReplySigned plan old (first_of plan core) request reply run }
{
    events_lead_on();
    new_clients_ask();
    proof_requests_are_read();
    signed_allocates_answer();
    new_clients_begin_new();
    runs_of_a_world_are_safe();
    stages_are_unserved();
}

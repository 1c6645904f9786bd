//! A client and a server core over an honest network into which an attacker puts datagrams of its
//! own, without reading what the client transmits. The function does nothing; its contract is a
//! theorem.

ghost use Rattle.std.specs.Prelude.{◌≡◌, true, List, []};
ghost use Rattle.turn_desk_event.specs.declared.answer.Answer.{Answer};
ghost use Rattle.turn_desk_event.specs.declared.event.Event.{Event};
ghost use Rattle.turn_desk_world_laws.specs.World.Model.{World};
ghost use Rattle.turn_desk_world_laws.specs.World.Runs.{IsRun, IsStep};
ghost use Rattle.turn_desk_progress_laws.specs.Forged.{AreWithForged, IsForged, IsNumbered};
ghost use Rattle.turn_desk_progress_laws.specs.Promises.{HasCome, IsFresh, event_in, events_in};
ghost use Rattle.turn_desk_progress_laws.specs.Scripts.{IsScript, Progress, Plan, Start};

use crate::honest::{events_lead_on, honest_runs_allocate};
use turn_client_proto_handshake_laws::stages::{
    asking_clients_wait, chosen_clients_sign, ended_clients_rest, messages_reach_clients,
    new_clients_ask, signed_allocates_answer, signed_clients_wait, stages_are_unserved,
};
use turn_client_proto_messages::laws::proof_requests_are_read;

/// A hardened client (`TurnConfig::set_hardened`) gets over an honest network what
/// [`honest_runs_allocate`] promises, whatever an attacker puts in who can't read what the client
/// transmits.
///
/// # Premises
///
/// Those of [`honest_runs_allocate`], but any number of forged datagrams may reach the client over
/// UDP, at any places of the run and at any times (`AreWithForged`). Such a datagram (`IsForged`)
///
/// - comes from another address than the server's, with any bytes;
/// - or comes from any address, the server's too, and is no STUN message, or an indication, or a
///   success or error response with a transaction ID that is neither that of the client's first
///   request nor that of its second, signed one.
///
/// A caller can know each premise: the client's settings, its seed, and what came. The seed gives
/// the two transaction IDs (`first_number`, `second_number`), and the run shows them (`numbers`).
/// Nothing is presumed of keys, realms, nonces or states. Where an attacker can't know the seed, a
/// response of its own has one of the two IDs with a probability of 2 in 2^96 (RFC 8489, section
/// 5).
///
/// Nothing is said of forged requests from the server's address, nor of forged messages to the
/// server core. Over TCP there is no forged datagram: it would be a part of the stream.
///
/// # Conclusions
///
/// - `promised`: What [`honest_runs_allocate`] promises.
/// - `unchanged`: A forged datagram, at any place of the run, changes neither the client nor the
///   server core, and reports nothing.
/// - `without`: Without the forged datagrams the run is one from the same state to the same state,
///   and reports the same events. So what other theorems promise of an honest run holds, too.
/// - `numbers`: The requests in the run have the transaction IDs that the seed gives.
pub fn hardened_runs_allocate()
    ensures promised { (plan : Plan) (old new : World) (honest pairs : List (Event × Answer))
        (progress : Progress)
        → plan.client.config.hardened ≡ true
        → IsFresh plan old
        → IsRun old pairs new
        → AreWithForged plan honest pairs
        → IsScript plan Start honest progress
        → HasCome plan old (events_in pairs) progress new }
    ensures unchanged { (plan : Plan) (old w v : World) (honest pairs : List (Event × Answer))
        (progress : Progress) (event : Event) (ret : Answer)
        → plan.client.config.hardened ≡ true
        → IsFresh plan old
        → IsRun old pairs w
        → AreWithForged plan honest pairs
        → IsScript plan Start honest progress
        → IsForged plan event
        → IsStep event w ret v
        → (v ≡ w) × (event_in ret ≡ []) }
    ensures without { (plan : Plan) (old new : World) (honest pairs : List (Event × Answer))
        (progress : Progress)
        → plan.client.config.hardened ≡ true
        → IsFresh plan old
        → IsRun old pairs new
        → AreWithForged plan honest pairs
        → IsScript plan Start honest progress
        → IsRun old honest new × (events_in honest ≡ events_in pairs) }
    ensures numbers { (plan : Plan) (old new : World) (honest pairs : List (Event × Answer))
        (progress : Progress)
        → plan.client.config.hardened ≡ true
        → IsFresh plan old
        → IsRun old pairs new
        → AreWithForged plan honest pairs
        → IsScript plan Start honest progress
        → IsNumbered plan progress }
{
    new_clients_ask();
    asking_clients_wait();
    chosen_clients_sign();
    signed_allocates_answer();
    signed_clients_wait();
    ended_clients_rest();
    stages_are_unserved();
    messages_reach_clients::<&[u8]>();
    proof_requests_are_read();
    events_lead_on();
    honest_runs_allocate();
}

//! A client and a server core that serves other clients too (RFC 8656, section 5). What other
//! addresses send to the server core makes no difference to the client, so what is promised of runs
//! with one client holds of runs with any number of clients. The functions do nothing; each
//! contract is a theorem.

ghost use Rattle.std.specs.Prelude.{◌≡◌, ℕ, true, List, [], ◌∷◌, None};
ghost use Rattle.std.specs.declared.net.socket_addr.SocketAddr.{SocketAddr};
ghost use Rattle.turn_desk_event.specs.declared.answer.Answer.{Answer};
ghost use Rattle.turn_desk_event.specs.declared.event.Event.{Event};
ghost use Rattle.turn_desk_event.specs.declared.event.Event.TheVariants.{Draw};
ghost use Rattle.turn_desk_world_laws.specs.World.Model.{World};
ghost use Rattle.turn_desk_world_laws.specs.World.Runs.{IsRun, IsStep};
ghost use Rattle.turn_desk_progress_laws.specs.Forged.{AreWithForged};
ghost use Rattle.turn_desk_progress_laws.specs.Loops.{IsLoop, IsTransmittedAt, Leads, MayBegin};
ghost use Rattle.turn_desk_progress_laws.specs.Loops.{Position, start};
ghost use Rattle.turn_desk_progress_laws.specs.Promises.{HasCome, IsFresh, events_in};
ghost use Rattle.turn_desk_progress_laws.specs.Scripts.{IsScript, Plan, Progress, Start};
ghost use Rattle.turn_desk_laws.specs.Beside.{AreBeside, IsOfOwn, IsRunWithout, seen_from};

use turn_desk_progress_laws::hardened::hardened_runs_allocate;
use turn_desk_progress_laws::honest::honest_runs_allocate;
use turn_desk_progress_laws::loops::honest_loops_allocate;
use turn_desk_world_laws::laws::addresses_are_isolated;

/// What other addresses send to the server core changes nothing for a client.
///
/// # Premises
///
/// 1. The server core has no limit on addresses (`set_max_clients` was not called). Its operator
///    knows that. With a limit, a message of another address may make room, by which the server
///    core forgets the client's nonce.
/// 2. `own` are the addresses from which the client's messages reach the server core: the one at
///    which it runs and, over TCP, those of the sockets of its connections (RFC 6062, section 4.3).
///    Any other list will do. Who makes the sockets knows them.
/// 3. `pairs` are the events of a run, with their results. Among them may be messages of other
///    addresses, anywhere, at any time, of any bytes and with any decision. `without` are the
///    others (`AreBeside`). Who sees the server's log knows which these are.
///
/// # Conclusions
///
/// - `alone`: The others alone are a run from the same state, with the same results. It leaves
///   the client the same. None of the addresses `own` can distinguish the server core that it
///   leaves from the one that all events left: its realm, users and settings are the same, and so
///   is what it stores for the address, and the list of what it granted to it (`IsRunWithout`).
/// - `reported`: The client reported the same events in both runs.
/// - `any`: Any list of events and results has such others.
///
/// So what a theorem promises of the results and of the client in a run in which only the client's
/// messages reach the server core, it promises of runs with any number of other clients.
pub fn other_addresses_change_nothing()
    ensures alone { (own : List SocketAddr) (old new : World)
        (without pairs : List (Event × Answer))
        → old.desk.auth.max_clients ≡ None
        → IsRun old pairs new
        → AreBeside own without pairs
        → IsRunWithout own old without new }
    ensures reported { (own : List SocketAddr) (old new : World)
        (without pairs : List (Event × Answer))
        → IsRun old pairs new
        → AreBeside own without pairs
        → events_in without ≡ events_in pairs }
    ensures any { (own : List SocketAddr) (pairs : List (Event × Answer))
        → (without : List (Event × Answer)) × AreBeside own without pairs }
{
    addresses_are_isolated();
}

/// Beside other clients, a client that a loop drives gets what [`honest_loops_allocate`] promises.
///
/// # Premises
///
/// Those of [`honest_loops_allocate`], but messages from any other address than the client's may
/// reach the server core, anywhere in the run (`AreBeside`), and it has no limit on addresses
/// ([`other_addresses_change_nothing`] says who knows that). The loop consists of the other events.
///
/// # Conclusions
///
/// The simulation is taken without what was granted to other addresses (`seen_from`).
///
/// - `promised`: If client and server core can come together, then once the second reply has come,
///   the client holds exactly that allocation and reports it once. What was granted to its address
///   is what had been granted to it before, and this allocation (`IsAllocated`). If they can't, the
///   client holds nothing, and nothing more was granted to its address (`CannotAgree`).
/// - `sendings`: Each call of `poll_transmit` gives what [`honest_loops_allocate`] says.
/// - `seen`: An event at the client has the same result whatever was granted to others. So what
///   `CannotAgree` says of further calls holds of calls in the whole simulation.
pub fn loops_allocate_beside_others()
    ensures promised { (plan : Plan) (old new : World) (without pairs : List (Event × Answer))
        (position : Position)
        → MayBegin plan old
        → old.desk.auth.max_clients ≡ None
        → IsRun old pairs new
        → AreBeside (plan.client.here ∷ []) without pairs
        → IsLoop plan old.desk.auth start without position
        → HasCome plan (seen_from plan.client.here old) (events_in pairs) position.progress
        (seen_from plan.client.here new) }
    ensures sendings { (plan : Plan) (old w v : World) (without pairs : List (Event × Answer))
        (position next : Position) (now : ℕ) (ret : Answer)
        → MayBegin plan old
        → old.desk.auth.max_clients ≡ None
        → IsRun old pairs w
        → AreBeside (plan.client.here ∷ []) without pairs
        → IsLoop plan old.desk.auth start without position
        → Leads plan old.desk.auth position (Draw now) ret next
        → IsStep (Draw now) w ret v
        → IsTransmittedAt plan old position.progress position.timing now ret }
    ensures seen { (address : SocketAddr) (w v : World) (event : Event) (ret : Answer)
        → IsOfOwn [] event
        → IsStep event w ret v
        → IsStep event (seen_from address w) ret (seen_from address v) }
{
    other_addresses_change_nothing();
    honest_loops_allocate();
}

/// Beside other clients, a client gets what [`honest_runs_allocate`] and, if it is hardened and an
/// attacker puts in datagrams of its own, [`hardened_runs_allocate`] promise.
///
/// Premises: those of the two theorems, but messages from any other address than the client's may
/// reach the server core, anywhere in the run (`AreBeside`), and it has no limit on addresses
/// ([`other_addresses_change_nothing`] says who knows that). The script consists of the other
/// events.
///
/// Conclusions: what they promise, of the simulation without what was granted to other addresses
/// (`seen_from`).
pub fn runs_allocate_beside_others()
    ensures honest { (plan : Plan) (old new : World) (without pairs : List (Event × Answer))
        (progress : Progress)
        → IsFresh plan old
        → old.desk.auth.max_clients ≡ None
        → IsRun old pairs new
        → AreBeside (plan.client.here ∷ []) without pairs
        → IsScript plan Start without progress
        → HasCome plan (seen_from plan.client.here old) (events_in pairs) progress
        (seen_from plan.client.here new) }
    ensures hardened { (plan : Plan) (old new : World)
        (honest without pairs : List (Event × Answer)) (progress : Progress)
        → plan.client.config.hardened ≡ true
        → IsFresh plan old
        → old.desk.auth.max_clients ≡ None
        → IsRun old pairs new
        → AreBeside (plan.client.here ∷ []) without pairs
        → AreWithForged plan honest without
        → IsScript plan Start honest progress
        → HasCome plan (seen_from plan.client.here old) (events_in pairs) progress
        (seen_from plan.client.here new) }
{
    other_addresses_change_nothing();
    honest_runs_allocate();
    hardened_runs_allocate();
}

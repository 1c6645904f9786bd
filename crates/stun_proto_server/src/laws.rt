//! Theorems on the server's authentication for the layers above. The functions do nothing; each
//! contract states theorems.

ghost use Rattle.std.specs.Prelude.{◌≡◌, ◌≢◌, ℕ, List, None};
ghost use Rattle.std.specs.declared.net.socket_addr.SocketAddr.{SocketAddr as Addr};
ghost use Rattle.stun_proto_verify.specs.Auth.Claims.{claimed};
ghost use Rattle.stun_proto_verify.specs.declared.error.LongTermServerAuthError.{LongTermServerAuthError as Error};
ghost use Rattle.stun_proto_verify.specs.Wire.declared.algorithm.IntegrityAlgorithm.{IntegrityAlgorithm};
ghost use Rattle.stun_proto_server.specs.AuthCalls.{AuthAnswer, AuthCall};
ghost use Rattle.stun_proto_server.specs.AuthRuns.{AreAnsweredAlike, EachNamesOne, IsAuthRun};
ghost use Rattle.stun_proto_server.specs.AuthRuns.{IsIsolated, MakeNoRoom, SetNoLimit};
ghost use Rattle.stun_proto_server.specs.AuthRuns.{calls_concerning};
ghost use Rattle.stun_proto_server.specs.Isolation.{AnswersAlike, LeavesAlike, LeavesAlone};
ghost use Rattle.stun_proto_server.specs.Isolation.{SetsAlike};
ghost use Rattle.stun_proto_server.specs.Server.{SameFor, Server};
ghost use Rattle.stun_proto_server.specs.ServerValidation.{Accepts, Refuses};
ghost use Rattle.stun_proto_server.specs.Users.{NamesOne};

/// Addresses are isolated: what the server does for an address depends only on the calls for that
/// address and on those that change users and settings.
///
/// - `answers`: if an address can't distinguish two servers, both respond to it alike.
/// - `leaves`: after the same call for that address, it can't distinguish the two servers either.
/// - `settings`: nor can it after the same change of users or settings.
/// - `others`: a call for another address leaves a server that the address can't distinguish from
///   the one before, if it makes no room (`set_max_clients`).
pub fn addresses_are_apart()
    ensures answers { (client : Addr) (a b : Server) → SameFor client a b
        → AnswersAlike client a b }
    ensures leaves { (client : Addr) (a b : Server) → SameFor client a b
        → LeavesAlike client a b }
    ensures settings { (client : Addr) (a b : Server) → SameFor client a b
        → SetsAlike client a b }
    ensures others { (client other : Addr) (server : Server) → client ≢ other
        → LeavesAlone client other server }
{}

/// Isolation of addresses holds for whole runs of calls. The calls that concern an address are
/// those for that address and those that change or read users and settings. In the runs no
/// allocation fails. If the number of addresses is limited (`set_max_clients`), `alone` and `fixed`
/// hold of runs in which no call for another address makes room; without a limit, of all.
///
/// - `alone`: take any run, and any server that the address can't distinguish from the server at
///   its start. Make only the calls of the run that concern the address. They return the same
///   results, and leave a server that the address can't distinguish from the one that the whole run
///   left.
/// - `fixed`: take two runs from servers that the address can't distinguish, in which the calls
///   that concern the address are the same. Then these calls return the same results, and the
///   servers that are left can't be distinguished by the address. Premise: no message names two
///   users by a hash that both have (RFC 8489, section 14.4).
/// - `unlimited`: if the server at the start of a run has no limit on addresses, and no call of the
///   run sets one, no call of the run makes room.
pub fn addresses_are_isolated()
    ensures alone { (address : Addr) (old other new : Server)
        (pairs : List (AuthCall × AuthAnswer))
        → SameFor address old other
        → (run : IsAuthRun old pairs new)
        → MakeNoRoom address old pairs new run
        → IsIsolated address other pairs new }
    ensures fixed { (address : Addr) (old other new left : Server)
        (pairs others : List (AuthCall × AuthAnswer))
        → SameFor address old other
        → (run : IsAuthRun old pairs new)
        → MakeNoRoom address old pairs new run
        → (again : IsAuthRun other others left)
        → MakeNoRoom address other others left again
        → calls_concerning address pairs ≡ calls_concerning address others
        → EachNamesOne old (calls_concerning address pairs)
        → AreAnsweredAlike address pairs others new left }
    ensures unlimited { (address : Addr) (old new : Server)
        (pairs : List (AuthCall × AuthAnswer))
        → old.max_clients ≡ None
        → SetNoLimit pairs
        → (run : IsAuthRun old pairs new)
        → MakeNoRoom address old pairs new run }
{}

/// If a message does not name two of the server's users, and the server accepts it as one of its
/// user's, then the server does not reject it.
pub fn accepted_is_not_refused()
    ensures { (server : Server) (from : Addr) (bytes : List ℕ) (algorithm : IntegrityAlgorithm)
        (name : List ℕ) (error : Error)
        → NamesOne server (claimed bytes)
        → Accepts server from bytes algorithm name
        → ¬ Refuses server from bytes error }
{}

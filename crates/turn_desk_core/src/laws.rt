//! Theorems that a layer above can derive from the contracts of a `Desk`. The functions do nothing;
//! each contract is a theorem.

ghost use Rattle.std.specs.Prelude.{◌≡◌, List, None, ℕ};
ghost use Rattle.std.specs.declared.net.socket_addr.SocketAddr.{SocketAddr};
ghost use Rattle.rand_core.specs.Stream.{Stream};
ghost use Rattle.turn_desk_core.specs.declared.decision.Decision.{Decision};
ghost use Rattle.turn_desk_core.specs.Requests.{IsServed};
ghost use Rattle.turn_desk_core.specs.State.{State};
ghost use Rattle.turn_desk_core.specs.Steps.{IsAnswer};
ghost use Rattle.turn_desk_core.specs.DeskCalls.{AreAlike, AreAnsweredAlike, IsServerRun, MakeNoRoom, NameOneUser, ServerAnswer, ServerCall, SetNoLimit, IsIsolated, calls_concerning};
ghost use Rattle.turn_desk_core.specs.DeskIsolation.{IsAnsweredAlike};
ghost use Rattle.turn_desk_core.specs.DeskSteps.{DeskStep};
ghost use Rattle.stun_proto_server.specs.Server.{SameFor};

/// The reply to a request that is served satisfies `DeskStep`:
///
/// - It is a response, with the request's method and transaction ID.
/// - A success response means that the request validated under a user's key, and that exactly one
///   grant was added, with the request's transaction ID, its source and what its method requests.
/// - An error response adds no grant and has no CONNECTION-ID.
/// - A reply that is signed is signed under the key that validated the request.
pub fn desk_steps()
    ensures { (old new : State) (from : SocketAddr) (bytes reply : List ℕ) (now : ℕ)
        (stream : Stream) (decision : Decision)
        → IsServed bytes
        → IsAnswer old from bytes now stream decision reply new
        → DeskStep old from bytes decision reply new }
{}

/// Non-interference for one request. The reply to an address depends only on what that address can
/// observe of the authenticator; calls for other addresses leave that unchanged
/// (`addresses_are_apart` of `stun_proto`, and the clause `others` of `handle`).
///
/// Premises: `from` can't distinguish the server cores `a` and `b`, and `a` may return this reply.
/// Conclusion: `b` may return this reply too, both add equal grants, and `from` can't distinguish
/// them afterwards.
pub fn desks_answer_alike()
    ensures { (a b new : State) (from : SocketAddr) (bytes reply : List ℕ) (now : ℕ)
        (stream : Stream) (decision : Decision)
        → SameFor from a.auth b.auth
        → IsAnswer a from bytes now stream decision reply new
        → IsAnsweredAlike a b from bytes now stream decision reply new }
{}

/// Non-interference for whole runs: whatever other addresses do between an address's own calls, the
/// results for this address stay equal. A run is a sequence of requests and authenticator calls of
/// which none ran out of memory. The calls that concern an address are its own and those on users
/// and settings. If the number of addresses is limited (`set_max_clients`), `alone` and `fixed`
/// hold of runs in which no call for another address makes room; without a limit, of all.
///
/// - `alone`: delete from a run all calls that don't concern the address. Any server core that the
///   address can't distinguish from the run's first one can give the remaining calls equal results.
///   The address can't distinguish the final states: what is stored for it is equal, and so are its
///   grants, in order.
/// - `fixed`: take two runs of server cores that the address can't distinguish, with equal calls
///   that concern it. Then the results of these calls are equal. The address can't distinguish the
///   final states, so its grants are equal too. Premise: no request names two users by a hash that
///   both share (RFC 8489, section 14.4).
/// - `unlimited`: if the server core at the start of a run has no limit on addresses, and no call of
///   the run sets one, no call of the run makes room.
pub fn addresses_are_isolated()
    ensures alone { (address : SocketAddr) (old other new : State)
        (pairs : List (ServerCall × ServerAnswer))
        → AreAlike address old other
        → (run : IsServerRun old pairs new)
        → MakeNoRoom address old pairs new run
        → IsIsolated address other pairs new }
    ensures fixed { (address : SocketAddr) (old other new left : State)
        (pairs others : List (ServerCall × ServerAnswer))
        → AreAlike address old other
        → (run : IsServerRun old pairs new)
        → MakeNoRoom address old pairs new run
        → (again : IsServerRun other others left)
        → MakeNoRoom address other others left again
        → calls_concerning address pairs ≡ calls_concerning address others
        → NameOneUser old.auth (calls_concerning address pairs)
        → AreAnsweredAlike address pairs others new left }
    ensures unlimited { (address : SocketAddr) (old new : State)
        (pairs : List (ServerCall × ServerAnswer))
        → old.auth.max_clients ≡ None
        → SetNoLimit pairs
        → (run : IsServerRun old pairs new)
        → MakeNoRoom address old pairs new run }
{}

//! What a server core does is determined (RFC 8489, RFC 8656). One state, one request that doesn't
//! name two users, one time, one decision and one stream of random words determine the reply and
//! the new state. The functions here do nothing; each contract is a theorem.

ghost use Rattle.std.specs.Prelude.{◌≡◌, ℕ, List};
ghost use Rattle.std.specs.declared.net.socket_addr.SocketAddr.{SocketAddr};
ghost use Rattle.rand_core.specs.Stream.{Stream};
ghost use Rattle.turn_client_proto_messages.specs.StunProtoAuth.Claims.{claimed};
ghost use Rattle.turn_desk_core.specs.StunProtoServer.Users.{HashesDiffer, NamesOne};
ghost use Rattle.turn_desk_core.specs.declared.decision.Decision.{Decision};
ghost use Rattle.turn_desk_core.specs.State.{State};
ghost use Rattle.turn_desk_core.specs.Steps.{IsAnswer};

/// If a request doesn't name two users, only one reply to it and one new state are possible. The
/// premise holds if the request shows a USERNAME, or if no two users have the same hash in the
/// realm (RFC 8489, section 14.4). If two users have the same hash, the contract leaves open which
/// of them a hash names.
pub fn answering_is_definite()
    ensures { (old one other : State) (from : SocketAddr) (bytes reply again : List ℕ) (now : ℕ)
        (stream : Stream) (decision : Decision)
        → NamesOne old.auth (claimed bytes)
        → IsAnswer old from bytes now stream decision reply one
        → IsAnswer old from bytes now stream decision again other
        → (reply ≡ again) × (one ≡ other) }
{}

/// If no two users have the same hash before a request is answered, no two have the same hash
/// afterwards: answering changes no user.
pub fn hashes_differ_still()
    ensures { (old new : State) (from : SocketAddr) (bytes reply : List ℕ) (now : ℕ)
        (stream : Stream) (decision : Decision)
        → HashesDiffer old.auth
        → IsAnswer old from bytes now stream decision reply new
        → HashesDiffer new.auth }
{}

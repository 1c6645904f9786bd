//! What a client reads in a server core's challenge (RFC 8489, sections 9.2.4 and 9.2.5), and which
//! requests a server core challenges. The functions here do nothing; each contract is a theorem.

ghost use Rattle.std.specs.Prelude.{◌≡◌, ◌≢◌, ℕ, Bool, List, Some, None};
ghost use Rattle.std.specs.FinMap as map;
ghost use Rattle.std.specs.declared.net.socket_addr.SocketAddr.{SocketAddr};
ghost use Rattle.rand_core.specs.Stream.{Stream};
ghost use Rattle.turn_desk_core.specs.StunTypesWire.declared.algorithm.IntegrityAlgorithm.{IntegrityAlgorithm};
ghost use Rattle.turn_client_proto_messages.specs.StunProtoClient.Challenges.{challenge_visible};
ghost use Rattle.turn_client_proto_messages.specs.StunProtoClient.Choice.{supports, takes};
ghost use Rattle.turn_client_proto_messages.specs.StunProtoAuth.Claims.{claimed};
ghost use Rattle.turn_client_proto_messages.specs.StunProtoAuth.Nonce.{features_in};
ghost use Rattle.turn_desk_core.specs.StunProtoVerify.declared.error.LongTermServerAuthError.TheVariants.{BadRequest};
ghost use Rattle.turn_desk_core.specs.StunProtoServer.ServerSigning.{Party};
ghost use Rattle.turn_client_proto_messages.specs.StunProtoAuth.SupportedAlgorithms.{needs_password_algorithms};
ghost use Rattle.turn_desk_core.specs.declared.decision.Decision.{Decision};
ghost use Rattle.turn_desk_core.specs.Requests.{IsServed};
ghost use Rattle.turn_desk_core.specs.State.{State};
ghost use Rattle.turn_desk_core.specs.Steps.{IsAnswer, IsChallenge, unvalidated_party};
ghost use Rattle.turn_desk_step_laws.specs.Challenged.{IsFirstChallenge, challenge_of, list_offered};

/// - `read`: If a server core challenges a request that it serves, and the request is not
///   malformed, a client reads the reply as a challenge. The challenge has the server core's realm,
///   the nonce that is stored for the address, and the list of the server core's algorithms if that
///   nonce announces a list.
/// - `takes`: If the nonce announces a list exactly when the server core has to give one, the
///   challenge accepts exactly the algorithms that the server core supports, for a hardened client
///   and for any other.
pub fn challenges_are_read()
    ensures read { (old new : State) (from : SocketAddr) (bytes reply : List ℕ) (now : ℕ)
        (stream : Stream)
        → IsServed bytes
        → (is : IsChallenge old from bytes now stream reply new)
        → is.error ≢ BadRequest
        → challenge_visible reply ≡ Some (challenge_of (unvalidated_party old.auth is.nonce)) }
    ensures takes { (hardened : Bool) (party : Party) (algorithm : IntegrityAlgorithm)
        → (features_in party.nonce).password_algorithms
        ≡ needs_password_algorithms party.algorithms
        → takes hardened (list_offered party) algorithm ≡ supports party.algorithms algorithm }
{}

/// If a request is served, shows no integrity attribute, and comes from an address for which the
/// server core stores nothing, the server core challenges it.
pub fn strangers_are_challenged()
    ensures { (old new : State) (from : SocketAddr) (bytes reply : List ℕ) (now : ℕ)
        (stream : Stream) (decision : Decision)
        → IsServed bytes
        → map.get old.auth.clients from ≡ None
        → (claimed bytes).integrity ≡ None
        → IsAnswer old from bytes now stream decision reply new
        → IsFirstChallenge old from bytes now reply new }
{}

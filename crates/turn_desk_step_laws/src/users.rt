//! What a server core answers to its users. The functions here do nothing; each contract is a
//! theorem.

ghost use Rattle.std.specs.Prelude.{◌≡◌, ◌<◌, ◌^◌, ℕ, List, Some, true};
ghost use Rattle.std.specs.declared.net.socket_addr.SocketAddr.{SocketAddr};
ghost use Rattle.rand_core.specs.Stream.{Stream};
ghost use Rattle.turn_desk_core.specs.StunTypesWire.Attributes.{kind_at};
ghost use Rattle.turn_desk_core.specs.StunTypesWire.Grammar.{number_at};
ghost use Rattle.turn_desk_core.specs.StunTypesWire.Types.{method_of};
ghost use Rattle.turn_desk_core.specs.StunTypesBase.declared.transport.TransportType.{TransportType};
ghost use Rattle.turn_client_proto_messages.specs.StunProtoAuth.Claims.{claimed};
ghost use Rattle.turn_desk_core.specs.StunProtoServer.Server.{has_standing_nonce, nonce_at};
ghost use Rattle.turn_desk_core.specs.StunProtoServer.Users.{NamesOne};
ghost use Rattle.turn_desk_core.specs.TurnTypesAttributes.TurnRegistry.{allocate_method};
ghost use Rattle.turn_desk_core.specs.declared.decision.Decision.{Decision};
ghost use Rattle.turn_desk_core.specs.declared.decision.Decision.TheVariants.{Allocate};
ghost use Rattle.turn_desk_core.specs.Requests.{IsServed};
ghost use Rattle.turn_desk_core.specs.State.{State};
ghost use Rattle.turn_desk_core.specs.Steps.{IsAnswer};
ghost use Rattle.turn_desk_core.specs.Verdicts.{are_relayable, verdict_on};
ghost use Rattle.turn_desk_step_laws.specs.DeskRun.{AreReported};
ghost use Rattle.turn_runs_laws.specs.TurnRuns.StunWire.{decoded_by};
ghost use Rattle.turn_desk_step_laws.specs.Users.{IsAllocationGranted, IsOfUser, IsUserAnswered, Signatory};

/// The server core answers a request by the decision, under the user's key, if:
///
/// - it serves the request
/// - it has the user, and the request is signed as it requires of that user, under the nonce that
///   is valid for the address
/// - the request doesn't name two users: it shows a USERNAME, or no two users have the same hash in
///   the realm (RFC 8489, sections 9.2.4 and 14.4)
pub fn users_are_answered()
    ensures { (old new : State) (from : SocketAddr) (bytes reply nonce : List ℕ) (now : ℕ)
        (stream : Stream) (decision : Decision) (user : Signatory)
        → IsServed bytes
        → has_standing_nonce old.auth from now ≡ true
        → nonce_at old.auth from ≡ Some nonce
        → NamesOne old.auth (claimed bytes)
        → IsOfUser old.auth nonce bytes user
        → IsAnswer old from bytes now stream decision reply new
        → IsUserAnswered old from bytes (verdict_on bytes decision) user reply new }
{}

/// If an ALLOCATE of a user for a transport is answered by a decision for addresses, it is granted
/// exactly these. They are one, or two of different families, that a success response can carry
/// (RFC 8656, sections 7.2 and 7.3).
pub fn allocations_are_granted()
    ensures { (old new : State) (from : SocketAddr) (bytes reply : List ℕ) (user : Signatory)
        (transport : TransportType) (relayed : List SocketAddr) (lifetime : ℕ)
        → IsServed bytes
        → method_of (kind_at bytes) ≡ allocate_method
        → (decoded_by bytes).transport ≡ Some transport
        → are_relayable relayed ≡ true
        → AreReported (number_at bytes) relayed
        → lifetime < 2 ^ 32
        → IsUserAnswered old from bytes (verdict_on bytes (Allocate relayed lifetime)) user reply
        new
        → IsAllocationGranted old from bytes transport relayed lifetime user reply new }
{}

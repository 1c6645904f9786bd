//! A client's requests meet what a server core requires of them (RFC 8489, section 9.2; RFC 8656,
//! section 7.2). The functions here do nothing; each contract is a theorem.

ghost use Rattle.std.specs.Prelude.{◌≡◌, ◌<◌, ◌^◌, ℕ, List, true, Some, None};
ghost use Rattle.std.specs.FinMap as map;
ghost use Rattle.std.specs.declared.net.socket_addr.SocketAddr.{SocketAddr};
ghost use Rattle.rand_core.specs.Stream.{Stream};
ghost use Rattle.turn_desk_core.specs.StunTypesBase.declared.family.AddressFamily.{AddressFamily};
ghost use Rattle.turn_desk_core.specs.StunTypesBase.declared.transport.TransportType.{TransportType};
ghost use Rattle.turn_client_proto_messages.specs.StunProtoClient.Challenges.{challenge_visible};
ghost use Rattle.turn_client_proto_messages.specs.StunProtoClient.Client.{Client, Standing, standing_key, standing_of};
ghost use Rattle.turn_client_proto_messages.specs.StunProtoClient.Digests.{IsRight};
ghost use Rattle.turn_desk_core.specs.StunProtoServer.Server.{Server, has_standing_nonce};
ghost use Rattle.turn_desk_core.specs.StunProtoServer.Users.{HashesDiffer};
ghost use Rattle.turn_client_proto_messages.specs.Api.declared.options.AllocateOptions.{AllocateOptions};
ghost use Rattle.turn_client_proto_messages.specs.ReadTexts.{HasReadTexts};
ghost use Rattle.turn_client_proto_messages.specs.Requests.{is_signed, request_text};
ghost use Rattle.turn_client_proto_messages.specs.ShortTexts.{HasShortTexts};
ghost use Rattle.turn_client_proto_messages.specs.ReportedRequests.{IsLawfulAllocate, IsLawfulRequest};
ghost use Rattle.turn_client_proto_messages.specs.declared.request.TurnRequest.{TurnRequest as Request};
ghost use Rattle.turn_client_proto_messages.specs.declared.request.TurnRequest.TheVariants.{Allocate, FirstAllocate};
ghost use Rattle.turn_desk_core.specs.declared.decision.Decision.TheVariants as decision;
ghost use Rattle.turn_desk_core.specs.declared.decision.Decision.{Decision};
ghost use Rattle.turn_desk_step_laws.specs.Challenged.{IsFirstChallenge};
ghost use Rattle.turn_desk_step_laws.specs.DeskRun.{AreReported};
ghost use Rattle.turn_desk_core.specs.State.{State};
ghost use Rattle.turn_desk_core.specs.Steps.{IsAnswer};
ghost use Rattle.turn_desk_step_laws.specs.Users.{IsAllocationGranted, IsOfUser};
ghost use Rattle.turn_desk_core.specs.Verdicts.{are_relayable};
ghost use Rattle.turn_desk_step_laws.specs.Handshakes.{IsOfServer, user_of};

use crate::challenged::strangers_are_challenged;
use crate::users::{allocations_are_granted, users_are_answered};
use turn_client_proto_messages::laws::{proof_requests_are_read, signed_requests_claim};

/// The server core challenges the first ALLOCATE of a client, if it stores nothing for the address
/// from which the request comes, and the request is for at most two families. It announces
/// everything that it supports. (The request is served, and shows no integrity attribute.)
pub fn first_requests_are_challenged()
    ensures { (old new : State) (from : SocketAddr) (auth : Client) (transport : TransportType)
        (families : List AddressFamily) (options : AllocateOptions) (number now : ℕ)
        (stream : Stream) (decision : Decision) (reply : List ℕ)
        → HasShortTexts auth
        → IsLawfulAllocate families options
        → number < 2 ^ 96
        → map.get old.auth.clients from ≡ None
        → IsAnswer old from (request_text auth (FirstAllocate transport families options) number)
        now stream decision reply new
        → IsFirstChallenge old from
        (request_text auth (FirstAllocate transport families options) number) now reply new }
{
    proof_requests_are_read();
    strangers_are_challenged();
}

/// If a client signs a request under a challenge of a server, with the name and password of one of
/// its users, the request meets what the server requires of that user under its nonce.
pub fn signed_requests_are_of_users()
    ensures { (server : Server) (from : SocketAddr) (auth : Client) (request : Request)
        (number : ℕ) (s : Standing)
        → HasShortTexts auth
        → HasReadTexts auth
        → IsLawfulRequest request
        → number < 2 ^ 96
        → is_signed request ≡ true
        → standing_of auth ≡ Some s
        → IsOfServer server from s
        → IsOfUser server s.challenge.nonce (request_text auth request number) (user_of s) }
{
    proof_requests_are_read();
    signed_requests_claim();
}

/// An ALLOCATE is granted if:
///
/// - the client signs it under a challenge of the server core, with the name and password of one of
///   its users
/// - no two users of the server core have the same hash (RFC 8489, section 14.4)
/// - the nonce is valid
/// - the driver decides one address, or two of different families, that a success response can
///   carry
///
/// The server core then grants exactly these addresses, for the client's transport. Its success
/// response is signed under the client's key, by the algorithm that the client chose.
pub fn signed_allocates_are_granted()
    ensures { (old new : State) (from : SocketAddr) (auth : Client) (transport : TransportType)
        (families : List AddressFamily) (options : AllocateOptions) (number now : ℕ)
        (stream : Stream) (s : Standing) (relayed : List SocketAddr) (lifetime : ℕ)
        (reply : List ℕ)
        → HasShortTexts auth
        → HasReadTexts auth
        → IsLawfulAllocate families options
        → number < 2 ^ 96
        → standing_of auth ≡ Some s
        → IsOfServer old.auth from s
        → HashesDiffer old.auth
        → has_standing_nonce old.auth from now ≡ true
        → are_relayable relayed ≡ true
        → AreReported number relayed
        → lifetime < 2 ^ 32
        → IsAnswer old from (request_text auth (Allocate transport families options) number)
        now stream (decision.Allocate relayed lifetime) reply new
        → IsAllocationGranted old from (request_text auth (Allocate transport families options) number)
        transport relayed lifetime (user_of s) reply new }
{
    proof_requests_are_read();
    signed_requests_are_of_users();
    users_are_answered();
    allocations_are_granted();
}

/// The success response that grants an allocation in this way is not a challenge, and it is valid
/// under the client's key. So the client accepts it (`client_laws` of `stun_proto`; RFC 8489,
/// section 9.2.5).
pub fn successes_are_right()
    ensures { (old new : State) (from : SocketAddr) (bytes reply : List ℕ)
        (transport : TransportType) (relayed : List SocketAddr) (lifetime : ℕ) (s : Standing)
        → IsOfServer old.auth from s
        → IsAllocationGranted old from bytes transport relayed lifetime (user_of s) reply new
        → IsRight reply (standing_key s) × (challenge_visible reply ≡ None) }
{}

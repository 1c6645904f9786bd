//! A client whose request for a permission or a channel is challenged, by the contracts of its own
//! calls alone (RFC 8489, section 9.2.5). The functions do nothing; each contract is a theorem.
//!
//! A server challenges a request if the nonce in it is stale (error 438). The client then makes the
//! request anew, with another transaction ID, under the new nonce, and queues it. That may be
//! challenged again. The tenth challenge in a row, with no accepted response between them, ends the
//! client.
//!
//! `specs/RequestChallenges.antt` has the client's state.

ghost use Rattle.std.specs.Prelude.{◌≡◌, ◌<◌, ◌+◌, ℕ, Bool, true, List};
ghost use Rattle.std.specs.declared.net.ip_addr.IpAddr.{IpAddr};
ghost use Rattle.std.specs.declared.net.socket_addr.SocketAddr.{SocketAddr};
ghost use Rattle.turn_client_proto_messages.specs.StunProtoClient.Challenges.{ChallengeFields};
ghost use Rattle.turn_client_proto_messages.specs.StunProtoTransaction.Schedule.{end_at};
ghost use Rattle.turn_client_proto_handshake_laws.specs.Core.Receiving.{IsProcessed};
ghost use Rattle.turn_client_proto_handshake_laws.specs.Core.declared.protocol.Protocol.{Protocol};
ghost use Rattle.turn_client_proto_handshake_laws.specs.Sent.{Beginning};
ghost use Rattle.turn_client_proto_progress_laws.specs.Asking.{AChannel, APermission, AnyCount, HasMadeRequest, Wanted};
ghost use Rattle.turn_client_proto_progress_laws.specs.Holding.{HoldsChannel, HoldsPermission, IsGrantOf};
ghost use Rattle.turn_client_proto_progress_laws.specs.Holding.{IsOwnRequest};
ghost use Rattle.turn_client_proto_progress_laws.specs.RequestChallenges.{IsChallengeTo, IsMadeAgain, MayAnswer};

use turn_client_proto_messages::laws::{proof_requests_are_read, signed_requests_claim};

/// A client that awaits the response to its request (`HasMadeRequest`; so does one with a pending
/// request, `HasRequested`) is challenged, and makes the request again.
///
/// - `again`: Let a challenge of the server's realm answer the request, which the client can answer
///   by some algorithm; and let it have answered at most eight in a row before it, or fewer by as
///   many as are to come (`MayAnswer`). Then the client makes another request for the same, with
///   another transaction ID. It signs it under the challenge and its nonce, queues it last, and
///   awaits its response until `later`, by the schedule that begins now. So it may be challenged
///   once more.
/// - `own`: Each such request claims the client's own credentials, under a challenge of its server's
///   realm.
pub fn challenged_requests_are_made_again()
    ensures again { (b : Beginning) (realm : List ℕ) (address : SocketAddr) (wanted : Wanted)
        (request : List ℕ) (until beyond now later times : ℕ) (old new : Protocol)
        (message : List ℕ) (reported : ChallengeFields) (handled : Bool)
        → HasMadeRequest b realm address wanted request until beyond AnyCount old
        → IsChallengeTo realm request reported message
        → MayAnswer reported (times + 1) old
        → later < end_at now b.config.waits
        → IsProcessed old message now handled new
        → IsMadeAgain b realm address wanted request reported later beyond old new }
    ensures own { (b : Beginning) (realm : List ℕ) (address : SocketAddr) (wanted : Wanted)
        (request : List ℕ) (until beyond : ℕ) (p : Protocol)
        → HasMadeRequest b realm address wanted request until beyond AnyCount p
        → IsOwnRequest b realm wanted request }
{
    proof_requests_are_read();
    signed_requests_claim();
}

/// A client that awaits the response to such a request receives the success response, valid under
/// the key of its credentials: it then holds the permission (`permission`), or the channel
/// (`channel`; RFC 8656, sections 10.3 and 12.3).
pub fn requests_made_again_are_held()
    ensures permission { (b : Beginning) (realm : List ℕ) (address : SocketAddr) (ip : IpAddr)
        (request reply : List ℕ) (until beyond now : ℕ) (old new : Protocol) (handled : Bool)
        → HasMadeRequest b realm address (APermission ip) request until beyond AnyCount old
        → IsGrantOf b realm request reply
        → IsProcessed old reply now handled new
        → (handled ≡ true) × HoldsPermission b ip new }
    ensures channel { (b : Beginning) (realm : List ℕ) (address : SocketAddr) (channel : ℕ)
        (peer : SocketAddr) (request reply : List ℕ) (until beyond now : ℕ) (old new : Protocol)
        (handled : Bool)
        → HasMadeRequest b realm address (AChannel channel peer) request until beyond AnyCount old
        → IsGrantOf b realm request reply
        → IsProcessed old reply now handled new
        → (handled ≡ true) × HoldsChannel b channel peer new }
{
    proof_requests_are_read();
    signed_requests_claim();
}

//! Theorems on the definitions that the contracts use, for the crates above this one. The functions
//! do nothing; each contract is a theorem.

ghost use Rattle.std.specs.Prelude.{◌≡◌, ◌≤◌, ◌<◌, ◌^◌, ℕ, List, false, true, Some, None, length, IfSome, Result, MatchResult};
ghost use Rattle.std.specs.List.{AllByRecursion};
ghost use Rattle.std.specs.Net.Socket.{IsSocketAddr, socket_flowinfo, socket_scope_id};
ghost use Rattle.std.specs.declared.net.socket_addr.SocketAddr.{SocketAddr};
ghost use Rattle.stun_types_add.specs.Calls.{attributes_of};
ghost use Rattle.stun_types_wire.specs.Grammar.{number_at, refusal};
ghost use Rattle.stun_types_wire.specs.MessageReading.{IsReadAs};
ghost use Rattle.stun_types_wire.specs.Registry.{longest_username};
ghost use Rattle.stun_types_write.specs.ValueReading.{utf8_refusal};
ghost use Rattle.stun_proto_client.specs.Digests.{IsRight};
ghost use Rattle.stun_proto_auth.specs.Claims.{algorithms_decoded, claimed};
ghost use Rattle.turn_client_proto_api.specs.StunProtoAgent.Sending.{is_request};
ghost use Rattle.stun_proto_client.specs.Client.{Client, Standing, plain_style, standing_key, standing_of};
ghost use Rattle.stun_proto_client.specs.ClientValidation.{IsTaken, IsRejected};
ghost use Rattle.stun_proto_client.specs.declared.error.LongTermClientAuthError.{LongTermClientAuthError};
ghost use Rattle.stun_proto_client.specs.declared.validation.LongTermClientValidation.{LongTermClientValidation};
ghost use Rattle.turn_runs.specs.StunWire.{decoded_by};
ghost use Rattle.turn_client_proto_messages.specs.OwnClaims.{own_claim, returned_list};
ghost use Rattle.turn_client_proto_messages.specs.ReadTexts.{HasReadTexts};
ghost use Rattle.turn_client_proto_messages.specs.Requests.{is_signed, request_calls, request_text, request_type};
ghost use Rattle.turn_client_proto_messages.specs.ShortTexts.{HasShortTexts};
ghost use Rattle.turn_client_proto_messages.specs.ReportedRequests.{CanBeRead, IsLawfulIp, IsLawfulRequest, IsReadBack, reported_request};
ghost use Rattle.turn_client_proto_messages.specs.declared.request.TurnRequest.{TurnRequest as Request};

use crate::request::TurnRequest;
use std::net::IpAddr;
use stun_types_write::reading::proof_text_is_read;
use turn_client_proto_api::config::TurnConfig;
use turn_client_proto_api::options::AllocateOptions;

/// Each request meets `IsLawfulRequest`, which the other theorems presume: it has at most two
/// families and at most `MOST_PEER_IPS` addresses, its numbers fit their bits, and an IP has its
/// octets or segments.
#[tactic(auto, using(crate::proofs::Families::two_families))]
pub fn proof_requests_are_lawful(request: &TurnRequest<'_>)
    ensures { IsLawfulRequest request.now }
{
    match request {
        TurnRequest::FirstAllocate(_, families, options) => {
            let _families = families.as_slice();
            let _lifetime = lifetime_of(*options);
        }
        TurnRequest::Allocate(_, families, options) => {
            let _families = families.as_slice();
            let _lifetime = lifetime_of(*options);
        }
        TurnRequest::Refresh(lifetime) => {
            let _lifetime = *lifetime;
        }
        TurnRequest::CreatePermission(peers) => proof_ips_are_lawful(peers.as_slice()),
        TurnRequest::ChannelBind(channel, _) => {
            let _channel = *channel;
        }
        TurnRequest::Connect(_) => {}
        TurnRequest::ConnectionBind(connection) => {
            let _connection = *connection;
        }
    }
}

/// Each of the IPs has its octets or segments.
fn proof_ips_are_lawful(ips: &[IpAddr])
    ensures { AllByRecursion IsLawfulIp ips.now }
{
    if let Some((first, others)) = ips.split_first() {
        proof_ip_is_lawful(*first);
        proof_ips_are_lawful(others);
    }
}

/// An IP has its octets or segments.
fn proof_ip_is_lawful(ip: IpAddr)
    ensures { IsLawfulIp ip }
{
    match ip {
        IpAddr::V4(v4) => {
            let _octets = v4.octets();
        }
        IpAddr::V6(v6) => {
            let _segments = v6.segments();
        }
    }
}

/// Returns the lifetime, which fits into 32 bits.
fn lifetime_of(options: AllocateOptions) -> u32
    ensures { result ≡ options.lifetime }
{
    options.lifetime
}

/// For each transaction ID, an address without flow information and scope is the one that is
/// decoded from its XOR-PEER-ADDRESS (RFC 8656, section 18.3).
pub fn addresses_are_read_back()
    ensures { (number : ℕ) (peer : SocketAddr)
        → IsSocketAddr peer
        → socket_flowinfo peer ≡ 0
        → socket_scope_id peer ≡ 0
        → IsReadBack number peer }
{}

/// What a receiver decodes from a request that the client writes.
///
/// Premises: the client's texts are within the limits of their attributes (`HasShortTexts`), the
/// request is lawful (`IsLawfulRequest`), and the transaction ID has 96 bits. Conclusions:
///
/// - `message`: the bytes are a message.
/// - `request`: its class is request, without any premise.
/// - `number`: it has the transaction ID.
/// - `reported`: what is decoded from it is what the request is for, if the peer's address in it is
///   decoded unchanged (`CanBeRead`; RFC 8656, section 18; RFC 6062, section 6.2).
/// - `read`: its visible attributes are those of the request and those of the client's
///   authenticator, and no others.
/// - `valid`: a signed request is valid under the key of the challenge that the client remembers
///   (RFC 8489, sections 9.2.3, 14.5 and 14.6).
pub fn proof_requests_are_read()
    ensures message { (auth : Client) (request : Request) (number : ℕ)
        → HasShortTexts auth
        → IsLawfulRequest request
        → number < 2 ^ 96
        → refusal (request_text auth request number) ≡ None }
    ensures request { (auth : Client) (request : Request) (number : ℕ)
        → is_request (request_text auth request number) ≡ true }
    ensures number { (auth : Client) (request : Request) (number : ℕ)
        → HasShortTexts auth
        → IsLawfulRequest request
        → number < 2 ^ 96
        → number_at (request_text auth request number) ≡ number }
    ensures reported { (auth : Client) (request : Request) (number : ℕ)
        → HasShortTexts auth
        → IsLawfulRequest request
        → number < 2 ^ 96
        → CanBeRead request number
        → decoded_by (request_text auth request number) ≡ reported_request request number }
    ensures read { (auth : Client) (request : Request) (number : ℕ)
        → HasShortTexts auth
        → IsLawfulRequest request
        → number < 2 ^ 96
        → IsReadAs (request_type request) number
        (attributes_of (request_type request) number (request_calls auth request number))
        (request_text auth request number) }
    ensures valid { (auth : Client) (request : Request) (number : ℕ) (standing : Standing)
        → HasShortTexts auth
        → IsLawfulRequest request
        → number < 2 ^ 96
        → is_signed request ≡ true
        → standing_of auth ≡ Some standing
        → IsRight (request_text auth request number) (standing_key standing) }
{}

/// A signed request has these authentication attributes: the chosen algorithm, the user name or its
/// hash, realm and nonce of the challenge, the choice, and what is decoded from its list of
/// algorithms (RFC 8489, sections 9.2.3 and 9.2.5).
///
/// Premises: the client's texts are within the limits of their attributes and well formed
/// (`HasReadTexts`), the request is lawful, the transaction ID has 96 bits, and the client has
/// credentials and a challenge.
pub fn signed_requests_claim()
    ensures { (auth : Client) (request : Request) (number : ℕ) (standing : Standing)
        → HasShortTexts auth
        → HasReadTexts auth
        → IsLawfulRequest request
        → number < 2 ^ 96
        → is_signed request ≡ true
        → standing_of auth ≡ Some standing
        → claimed (request_text auth request number)
        ≡ own_claim auth.anonymous_username standing }
{}

/// The user name in a client's settings is valid UTF-8 (RFC 8489, section 14.3).
pub fn names_are_texts(config: &TurnConfig)
    ensures { utf8_refusal config.now.credentials.username ≡ None }
{
    let name = config.credentials().username();
    proof_text_is_read(name, name.len());
}

/// The texts of a client's authenticator stay within the limits of their attributes (RFC 8489,
/// sections 14.9 to 14.11).
///
/// - `stay`: if they are before a validation, they are afterwards, whatever its result. A realm,
///   nonce or list of a challenge that is too long is ignored.
/// - `fresh`: if the client remembers no challenge, has no credentials for the next one and no
///   SOFTWARE, they are if the user name is.
pub fn proof_texts_stay_short()
    ensures stay { (old new : Client) (bytes : List ℕ)
        (result : Result LongTermClientValidation LongTermClientAuthError)
        → MatchResult result (λ answer. IsTaken old bytes answer new)
        (λ error. IsRejected old bytes error new)
        → HasShortTexts old
        → HasShortTexts new }
    ensures fresh { (client : Client)
        → client.challenge ≡ None
        → client.next_account ≡ None
        → client.style ≡ plain_style
        → IfSome client.account (λ account. length account.username ≤ longest_username)
        → HasShortTexts client }
{}

/// The texts of a client's authenticator stay well formed (RFC 8489, sections 14.9 to 14.11).
///
/// - `stay`: if they are before a validation, they are afterwards, whatever its result. A realm or
///   nonce of a challenge that is no UTF-8 is ignored, and so is a list that names an unknown
///   algorithm, unless the client is hardened.
/// - `fresh`: if the client remembers no challenge and has no credentials for the next one, they are
///   if the user name is UTF-8.
/// - `known`: if the client is not hardened, who reads only lists of known algorithms reads the list
///   that it returns as it is.
pub fn texts_stay_read()
    ensures stay { (old new : Client) (bytes : List ℕ)
        (result : Result LongTermClientValidation LongTermClientAuthError)
        → MatchResult result (λ answer. IsTaken old bytes answer new)
        (λ error. IsRejected old bytes error new)
        → HasReadTexts old
        → HasReadTexts new }
    ensures fresh { (client : Client)
        → client.challenge ≡ None
        → client.next_account ≡ None
        → IfSome client.account (λ account. utf8_refusal account.username ≡ None)
        → HasReadTexts client }
    ensures known { (client : Client) (standing : Standing)
        → HasReadTexts client
        → client.hardened ≡ false
        → standing_of client ≡ Some standing
        → algorithms_decoded (returned_list standing.challenge.offered)
        ≡ standing.challenge.offered }
{}

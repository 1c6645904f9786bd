//! Theorems on authentication for the layers above. The functions do nothing; each contract states
//! theorems.

ghost use Rattle.std.specs.Prelude.{◌≡◌, ◌<◌, ◌^◌, ◌++◌, ℕ, List, Some, None, Result, MatchResult};
ghost use Rattle.std.specs.List.{AllByRecursion};
ghost use Rattle.stun_proto_auth.specs.Add.Calls.{Add, IsLawful, IsWritten, attributes_of};
ghost use Rattle.stun_proto_auth.specs.Write.Drafts.{Draft};
ghost use Rattle.stun_proto_auth.specs.Wire.MessageReading.{IsReadAs};
ghost use Rattle.stun_proto_auth.specs.Addition.{addition_refusal, calls_of};
ghost use Rattle.stun_proto_auth.specs.AdditionStages.{IsMade};
ghost use Rattle.stun_proto_auth.specs.Integrity.Credentials.{Key};
ghost use Rattle.stun_proto_auth.specs.Wire.declared.class.MessageClass.{MessageClass as Class};
ghost use Rattle.stun_proto_client.specs.declared.error.LongTermClientAuthError.{LongTermClientAuthError};
ghost use Rattle.stun_proto_client.specs.declared.validation.LongTermClientValidation.{LongTermClientValidation};
ghost use Rattle.stun_proto_client.specs.Challenges.{challenge_visible};
ghost use Rattle.stun_proto_client.specs.Client.{Client, Standing, standing_key, standing_of};
ghost use Rattle.stun_proto_client.specs.ClientSigning.{addition_for};
ghost use Rattle.stun_proto_client.specs.ClientSteps.{AuthStep, IsKeyOf, accepted_by};
ghost use Rattle.stun_proto_client.specs.ClientValidation.{IsTaken, IsRejected};
ghost use Rattle.stun_proto_client.specs.Digests.{IsRight};

/// States what every validation preserves, and what it accepts (RFC 8489, section 9.2):
///
/// - `step`: a validation keeps the settings, and the credentials unless others were set for the
///   next challenge. An accepted message validates under a key of the client's own credentials, in
///   whatever realm a challenge named. A challenge is not an accepted message, nor is a refused one.
/// - `right`: a message that is not a challenge, and that validates under the key of the valid
///   challenge, is always accepted.
/// - `signs`: the key under which the client signs is a key of its own credentials.
#[tactic(auto, using(crate::proofs::Stepping::step_of, crate::proofs::Stepping::signs_own))]
pub fn client_laws()
    ensures step { (old new : Client) (bytes : List ℕ)
        (result : Result LongTermClientValidation LongTermClientAuthError)
        → MatchResult result (λ answer. IsTaken old bytes answer new)
        (λ error. IsRejected old bytes error new)
        → AuthStep old bytes (accepted_by result) new }
    ensures right { (old new : Client) (bytes : List ℕ) (standing : Standing)
        (result : Result LongTermClientValidation LongTermClientAuthError)
        → MatchResult result (λ answer. IsTaken old bytes answer new)
        (λ error. IsRejected old bytes error new)
        → challenge_visible bytes ≡ None
        → standing_of old ≡ Some standing
        → IsRight bytes (standing_key standing)
        → accepted_by result ≡ Some standing.challenge.choice }
    ensures signs { (client : Client) (class : Class) (key : Key)
        → (addition_for client class).signer ≡ Some key
        → IsKeyOf client key }
{}

/// States what the client's signing makes of a message that was started and to which attributes
/// were added, each accepted (RFC 8489, sections 9.2.3 and 14.5):
///
/// - `right`: if the client signs it, the result validates under the client's key.
/// - `read`: the result parses as a message whose visible attributes are exactly those that were
///   added before and those that the client added.

pub fn client_signs()
    ensures right { (client : Client) (class : Class) (key : Key) (mtype number : ℕ)
        (calls : List Add) (old new : Draft)
        → mtype < 2 ^ 14
        → number < 2 ^ 96
        → AllByRecursion IsLawful calls
        → IsWritten mtype number calls old
        → (addition_for client class).signer ≡ Some key
        → addition_refusal (addition_for client class) old ≡ None
        → IsMade (addition_for client class) old new
        → IsRight new.bytes key }
    ensures read { (client : Client) (class : Class) (mtype number : ℕ) (calls : List Add)
        (old new : Draft)
        → mtype < 2 ^ 14
        → number < 2 ^ 96
        → AllByRecursion IsLawful calls
        → IsWritten mtype number calls old
        → addition_refusal (addition_for client class) old ≡ None
        → IsMade (addition_for client class) old new
        → IsReadAs mtype number
        (attributes_of mtype number (calls ++ calls_of (addition_for client class))) new.bytes }
{}

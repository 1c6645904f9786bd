//! Validation of received messages, and the state that it leaves.

ghost use Rattle.std.specs.Prelude.{◌≡◌, MatchResult, MatchOption, Some, None};
ghost use Rattle.stun_proto_auth.specs.Claims.{claimed};
ghost use Rattle.std.specs.Bool.{MatchBool};
ghost use Rattle.std.specs.Option.{option_or};
ghost use Rattle.stun_proto_client.specs.Challenges.{challenge_visible};
ghost use Rattle.stun_proto_client.specs.ClientValidation.{IsAnswerable, IsTaken, IsRejected};
ghost use Rattle.stun_proto_client.specs.ClientValidation.{IsUnanswerable};
ghost use Rattle.stun_proto_client.specs.Digests.{IsRight, IsWrong};

use crate::challenge::{ChallengeFields, is_anonymous_enough, is_listed_enough};
use crate::error::LongTermClientAuthError;
use crate::long_term::LongTermClientAuth;
use crate::stored::{StoredChallenge, key_of_both};
use crate::strongest::strongest;
use crate::stun_types_integrity::credentials::LongTermCredentials;
use crate::stun_types_integrity::key::IntegrityKey;
use crate::stun_types_message::parsed::Message;
use crate::stun_types_wire::algorithm::IntegrityAlgorithm;
use stun_proto_auth::claim::Claim;

/// The result for a message that a client accepts.
#[derive(Clone, Copy, Debug, PartialEq, Eq)]
pub enum LongTermClientValidation {
    /// The message is a challenge, which is now stored. Sign the request anew, which uses this
    /// algorithm, and send it again.
    ResendRequest(IntegrityAlgorithm),
    /// The message is from the server, by its integrity attribute of this algorithm.
    Validated(IntegrityAlgorithm),
}

impl LongTermClientAuth {
    /// Validates a received message:
    ///
    /// - An error response with 401 or 438, a realm and a nonce is a challenge, whatever else it
    ///   has. It is stored with the strongest algorithm that both sides support, credentials of
    ///   `set_next_credentials` replace the others, and the result is `ResendRequest`. If the nonce
    ///   announces no list of algorithms, or the list is absent, the server supports `Sha1`; but a
    ///   hardened client refuses a list that is announced and absent.
    ///   A list that has an algorithm unknown here counts as absent, except for a hardened client,
    ///   which passes over unknown ones (section 9.2.5).
    /// - Any other message is `Validated` if its last integrity attribute is of the chosen
    ///   algorithm and validates under the client's key.
    ///
    /// Of several visible attributes of one type the last one counts, and a malformed one counts as
    /// absent.
    ///
    /// # Errors
    ///
    /// For a challenge, a refusal changes nothing:
    ///
    /// 1. `UnsupportedFeature`: anonymity is required and the nonce does not announce it; or the
    ///    client is hardened, and the list that the nonce announces is absent; or there is no common
    ///    algorithm.
    /// 2. `NoMemory`: an allocation failed.
    ///
    /// For any other message, a refusal changes at most the result of `integrity`:
    ///
    /// 1. `Unauthorized`: the message has no integrity attribute, or the client has no credentials
    ///    or no stored challenge.
    /// 2. `IntegrityFailed`: the last integrity attribute is not of the chosen algorithm, or is
    ///    wrong.
    pub fn validate_incoming_message(
        &mut self,
        message: &Message<'_>,
    ) -> Result<LongTermClientValidation, LongTermClientAuthError>
        ensures { MatchResult result
            (λ answer. IsTaken self.old message.now answer self.new)
            (λ error. IsRejected self.old message.now error self.new) }
    {
        let claim = Claim::of(message);
        match ChallengeFields::by(message, &claim) {
            Some(decoded) => self.take_challenge(message, &decoded),
            None => self.take_message(message, claim.integrity()),
        }
    }

    /// Stores the challenge in a message, if the client can answer it.
    fn take_challenge(
        &mut self,
        message: &Message<'_>,
        decoded: &ChallengeFields<'_>,
    ) -> Result<LongTermClientValidation, LongTermClientAuthError>
        requires { challenge_visible message.now ≡ Some decoded.now }
        ensures { MatchResult result
            (λ answer. IsTaken self.old message.now answer self.new)
            (λ error. IsRejected self.old message.now error self.new) }
    {
        let Some(choice) = self.choice_for(decoded) else {
            return Err(LongTermClientAuthError::UnsupportedFeature);
        };
        let stored = StoredChallenge::of(self.alloc, decoded, self.hardened, choice)?;
        self.account = replaced(self.account.take(), self.next_account.take());
        self.challenge = Some(stored);
        self.key = key_of_both(&self.account, &self.challenge);
        self.integrity = Some(choice);
        Ok(LongTermClientValidation::ResendRequest(choice))
    }

    /// Returns the algorithm to answer a challenge with, or `None` if the client can't answer it.
    fn choice_for(&self, decoded: &ChallengeFields<'_>) -> Option<IntegrityAlgorithm>
        ensures { MatchOption result (IsUnanswerable self.now decoded.now)
            (λ choice. IsAnswerable self.now decoded.now choice) }
    {
        if !is_anonymous_enough(self.anonymous_username, decoded.nonce()) {
            return None;
        }
        if !is_listed_enough(self.hardened, decoded) {
            return None;
        }
        strongest(
            self.supported,
            self.hardened,
            decoded.list_for_choice(self.hardened),
        )
    }

    /// Validates a message that is not a challenge, and records the algorithm.
    fn take_message(
        &mut self,
        message: &Message<'_>,
        last: Option<IntegrityAlgorithm>,
    ) -> Result<LongTermClientValidation, LongTermClientAuthError>
        requires no_challenge { challenge_visible message.now ≡ None }
        requires last { last ≡ (claimed message.now).integrity }
        ensures { MatchResult result
            (λ answer. IsTaken self.old message.now answer self.new)
            (λ error. IsRejected self.old message.now error self.new) }
    {
        let (Some(last), Some(key)) = (last, self.key()) else {
            self.integrity = None;
            return Err(LongTermClientAuthError::Unauthorized);
        };
        let choice = key.algorithm();
        let right = is_right(message, last, key);
        self.integrity = Some(choice);
        if right {
            Ok(LongTermClientValidation::Validated(choice))
        } else {
            Err(LongTermClientAuthError::IntegrityFailed(last))
        }
    }
}

/// Returns the credentials that were set for the next challenge or, if there are none, the others.
fn replaced(
    account: Option<LongTermCredentials>,
    next: Option<LongTermCredentials>,
) -> Option<LongTermCredentials>
    ensures { result ≡ option_or next account }
{
    match next {
        Some(next) => Some(next),
        None => account,
    }
}

/// Returns whether a message validates under a key. Its last integrity attribute has to be of the
/// key's algorithm.
#[tactic(auto, using(crate::proofs::Validating::by_last))]
pub(crate) fn is_valid(message: &Message<'_>, key: &IntegrityKey<'_>) -> bool
    requires { (claimed message.now).integrity ≡ Some key.now.algorithm }
    ensures { MatchBool result (IsRight message.now key.now) (IsWrong message.now key.now) }
{
    match message.validate_integrity_with_key(key) {
        Ok(_) => true,
        Err(_) => false,
    }
}

/// Returns whether a message validates under a key, by the key's algorithm. `last` is the algorithm
/// of its last integrity attribute.
#[tactic(auto, using(crate::proofs::Validating::other_last))]
pub(crate) fn is_right(
    message: &Message<'_>,
    last: IntegrityAlgorithm,
    key: &IntegrityKey<'_>,
) -> bool
    requires { (claimed message.now).integrity ≡ Some last }
    ensures { MatchBool result (IsRight message.now key.now) (IsWrong message.now key.now) }
{
    last == key.algorithm() && is_valid(message, key)
}

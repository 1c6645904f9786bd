//! Reading of a server's challenge.

ghost use Rattle.std.specs.Prelude.{◌≡◌, ◌↔◌};
ghost use Rattle.std.specs.Option.{option_copied};
ghost use Rattle.stun_proto_auth.specs.Claims.{claimed};
ghost use Rattle.stun_proto_client.specs.Challenges.{asks_again, challenge_visible};
ghost use Rattle.stun_proto_client.specs.Challenges.{is_anonymous_enough, is_listed_enough};
ghost use Rattle.stun_proto_client.specs.Challenges.{list_by, list_for_choice, reported_of};

use crate::stun_types_message::parsed::Message;
use crate::stun_types_wire::class::MessageClass;
use crate::stun_types_wire::registry::{STALE_NONCE, UNAUTHORIZED};
use std::marker::Model;
use stun_proto_auth::claim::{Claim, error_code_of};
use stun_proto_auth::feature::Feature;
use stun_proto_auth::nonce::NonceFeatures;

/// A challenge as read from a message: its realm, its nonce and, if the nonce announces password
/// algorithms and the list is present, the PASSWORD-ALGORITHMS value: as `offered` if each algorithm
/// in it is known, and as `listed` if some may be unknown. Contracts see the record
/// `ChallengeFields`.
#[derive(Debug, Drop)]
pub(crate) struct ChallengeFields<'a> {
    realm: &'a str,
    nonce: &'a str,
    offered: Option<&'a [u8]>,
    listed: Option<&'a [u8]>,
}

impl<'a> Model for ChallengeFields<'a> {
    ghost use Rattle.std.specs.Option.{option_copied};
    ghost use Rattle.stun_proto_client.specs.Challenges.{ChallengeFields as DecodedValue};

    ghost Value = { DecodedValue };

    ghost view = { λ t. record {
      realm = t.realm.now;
      nonce = t.nonce.now;
      offered = option_copied t.offered;
      listed = option_copied t.listed;
    } };
}

impl<'a> ChallengeFields<'a> {
    /// Reads the challenge in a message from its claim. A challenge is an error response with 401
    /// or 438, a realm and a nonce, whatever else it has (RFC 8489, section 9.2.5). Returns `None`
    /// for any other message.
    pub(crate) fn by(message: &Message<'_>, claim: &'a Claim<'_>) -> Option<ChallengeFields<'a>>
        requires { claim.now ≡ claimed message.now }
        ensures { result ≡ challenge_visible message.now }
    {
        if asks_again(message) {
            ChallengeFields::of_claim(claim)
        } else {
            None
        }
    }

    /// Returns the challenge in a claim, or `None` if it has no realm or no nonce.
    fn of_claim(claim: &'a Claim<'_>) -> Option<ChallengeFields<'a>>
        ensures { result ≡ reported_of claim.now }
    {
        let realm = claim.realm()?;
        let nonce = claim.nonce()?;
        let offered = list_by(nonce, claim.algorithms());
        let listed = list_by(nonce, claim.listed());
        Some(ChallengeFields {
            realm,
            nonce,
            offered,
            listed,
        })
    }

    /// Returns the realm.
    pub(crate) fn realm(&self) -> &'a str
        ensures { result.now ≡ self.now.realm }
    {
        self.realm
    }

    /// Returns the nonce.
    pub(crate) fn nonce(&self) -> &'a str
        ensures { result.now ≡ self.now.nonce }
    {
        self.nonce
    }

    /// Returns the PASSWORD-ALGORITHMS value to choose from, if there is one. A hardened client's may
    /// have unknown algorithms.
    pub(crate) fn list_for_choice(&self, hardened: bool) -> Option<&'a [u8]>
        ensures { option_copied result ≡ list_for_choice hardened self.now }
    {
        if hardened { self.listed } else { self.offered }
    }
}

/// Returns whether a message is an error response with 401 or 438.
fn asks_again(message: &Message<'_>) -> bool
    ensures { result ≡ asks_again message.now }
{
    if message.class() != MessageClass::Error {
        return false;
    }
    match error_code_of(message) {
        Some(code) => code == UNAUTHORIZED || code == STALE_NONCE,
        None => false,
    }
}

/// Returns the list if the nonce announces password algorithms, otherwise `None`.
fn list_by<'a>(nonce: &str, algorithms: Option<&'a [u8]>) -> Option<&'a [u8]>
    ensures { option_copied result ≡ list_by nonce.now (option_copied algorithms.entry) }
{
    if NonceFeatures::decoded_by(nonce).password_algorithms {
        algorithms
    } else {
        None
    }
}

/// Returns whether a nonce satisfies the client's setting for anonymity: if it is required, the
/// nonce has to announce it.
pub(crate) fn is_anonymous_enough(requested: Feature, nonce: &str) -> bool
    ensures { result ≡ is_anonymous_enough requested nonce.now }
{
    requested != Feature::Required || NonceFeatures::decoded_by(nonce).anonymous_username
}

/// Returns whether a challenge has the list of password algorithms that its nonce announces. Only a
/// hardened client wants it.
pub(crate) fn is_listed_enough(hardened: bool, decoded: &ChallengeFields<'_>) -> bool
    ensures { result ≡ is_listed_enough hardened decoded.now }
{
    !hardened
        || decoded.listed.is_some()
        || !NonceFeatures::decoded_by(decoded.nonce()).password_algorithms
}

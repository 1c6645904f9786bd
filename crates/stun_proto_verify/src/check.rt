//! The checks of a claim that precede the check of its digest.

ghost use Rattle.std.specs.Prelude.{◌≡◌, ◌==◌, Some, None, MatchResult};
ghost use Rattle.std.specs.Option.{option_copied, option_map};
ghost use Rattle.stun_proto_auth.specs.AuthAttributes.PasswordAlgorithmNumbers.{number_of};
ghost use Rattle.stun_proto_auth.specs.Nonce.{takes_anonymous_username};
ghost use Rattle.stun_proto_auth.specs.SupportedAlgorithms.{number_by};
ghost use Rattle.stun_proto_verify.specs.Consistency.{fits_visible, is_consistent};
ghost use Rattle.stun_proto_verify.specs.Judgement.{algorithms_refusal, integrity_refusal};
ghost use Rattle.stun_proto_verify.specs.Judgement.{names_user, nonce_refusal, parts_refusal};

use crate::error::LongTermServerAuthError;
use crate::known::Known;
use crate::stun_types_auth_attributes::algorithm::PasswordAlgorithmValue;
use crate::stun_types_wire::algorithm::IntegrityAlgorithm;
use stun_proto_auth::claim::Claim;
use stun_proto_auth::feature::Feature;
use stun_proto_auth::supported::SupportedIntegrity;

/// Returns the algorithm of the last integrity attribute. Fails with `Unauthorized` if there is
/// none.
pub(crate) fn check_integrity(
    claim: &Claim<'_>,
) -> Result<IntegrityAlgorithm, LongTermServerAuthError>
    ensures { MatchResult result (λ algorithm. (claim.now.integrity ≡ Some algorithm)
        × (integrity_refusal claim.now.integrity ≡ None))
        (λ error. integrity_refusal claim.now.integrity ≡ Some error) }
{
    match claim.integrity() {
        Some(algorithm) => Ok(algorithm),
        None => Err(LongTermServerAuthError::Unauthorized),
    }
}

/// Checks that the attributes required along with an integrity attribute are present: a user's name
/// or, unless the server has disabled it, its hash; a realm; and a nonce. Fails with `BadRequest`.
pub(crate) fn check_parts(
    claim: &Claim<'_>,
    known: &Known<'_>,
) -> Result<(), LongTermServerAuthError>
    ensures { MatchResult result
        (λ _. parts_refusal known.now.anonymous_username claim.now ≡ None)
        (λ error. parts_refusal known.now.anonymous_username claim.now ≡ Some error) }
{
    if names_user(claim, known.anonymous_username())
        && claim.realm().is_some()
        && claim.nonce().is_some()
    {
        Ok(())
    } else {
        Err(LongTermServerAuthError::BadRequest)
    }
}

/// Returns whether a claim names a user, by name or, unless that is disabled, by the hash of the
/// name.
fn names_user(claim: &Claim<'_>, anonymous_username: Feature) -> bool
    ensures { result ≡ names_user anonymous_username claim.now }
{
    claim.username().is_some() || (takes_hashes(anonymous_username) && claim.user_hash().is_some())
}

/// Returns whether a server with this setting accepts the hash of a name: unless it is disabled.
fn takes_hashes(anonymous_username: Feature) -> bool
    ensures { result ≡ takes_anonymous_username anonymous_username }
{
    match anonymous_username {
        Feature::Auto | Feature::Required => true,
        Feature::Disabled => false,
    }
}

/// Checks that the nonce is the valid one for the address. Fails with `StaleNonce`.
pub(crate) fn check_nonce(
    claim: &Claim<'_>,
    known: &Known<'_>,
) -> Result<(), LongTermServerAuthError>
    ensures { MatchResult result (λ _. nonce_refusal claim.now.nonce known.now.nonce ≡ None)
        (λ error. nonce_refusal claim.now.nonce known.now.nonce ≡ Some error) }
{
    match (claim.nonce(), known.nonce()) {
        (Some(nonce), Some(standing)) if nonce == standing => Ok(()),
        _ => Err(LongTermServerAuthError::StaleNonce),
    }
}

/// Checks that the password algorithms are consistent. Fails with `BadRequest`.
pub(crate) fn check_algorithms(
    claim: &Claim<'_>,
    known: &Known<'_>,
) -> Result<(), LongTermServerAuthError>
    ensures { MatchResult result (λ _. algorithms_refusal claim.now known.now.algorithms ≡ None)
        (λ error. algorithms_refusal claim.now known.now.algorithms ≡ Some error) }
{
    if is_consistent(claim, known.supported()) {
        Ok(())
    } else {
        Err(LongTermServerAuthError::BadRequest)
    }
}

/// Returns whether the password algorithms are consistent with those of the server and with the
/// last integrity attribute.
fn is_consistent(claim: &Claim<'_>, supported: SupportedIntegrity) -> bool
    ensures { result ≡ is_consistent supported claim.now claim.now.integrity }
{
    match claim.integrity() {
        Some(algorithm) => {
            fits_visible(supported, claim.algorithms(), claim.algorithm(), algorithm)
        }
        None => false,
    }
}

/// Returns whether a PASSWORD-ALGORITHMS value and a PASSWORD-ALGORITHM, each present or absent,
/// fit the server and the algorithm of the last integrity attribute.
fn fits_visible(
    supported: SupportedIntegrity,
    value: Option<&[u8]>,
    chosen: Option<PasswordAlgorithmValue>,
    algorithm: IntegrityAlgorithm,
) -> bool
    ensures { result
        ≡ fits_visible supported (option_copied value.entry) (option_map number_of chosen) algorithm }
{
    match (value, chosen) {
        (None, None) => { algorithm == IntegrityAlgorithm::Sha1 && supported.supports(algorithm) }
        (Some(value), Some(chosen)) => {
            value == supported.entries()
                && is_by(chosen, algorithm)
                && supported.supports(algorithm)
        }
        (None, Some(_)) | (Some(_), None) => false,
    }
}

/// Returns whether a password algorithm is the one that derives the keys of an integrity algorithm.
fn is_by(chosen: PasswordAlgorithmValue, algorithm: IntegrityAlgorithm) -> bool
    ensures { result ≡ (number_of chosen == number_by algorithm) }
{
    match (chosen, algorithm) {
        (PasswordAlgorithmValue::MD5, IntegrityAlgorithm::Sha1) => true,
        (PasswordAlgorithmValue::SHA256, IntegrityAlgorithm::Sha256) => true,
        (PasswordAlgorithmValue::SHA512, IntegrityAlgorithm::Sha512) => true,
        _ => false,
    }
}

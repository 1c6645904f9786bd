//! The decision whether a message is accepted.

ghost use Rattle.std.specs.Prelude.{◌≡◌, ◌≢◌, ℕ, List, Some, None, Err, IfOk, IfErr, IfSome, OnOk};
ghost use Rattle.std.specs.Prelude.{MatchResult, false};
ghost use Rattle.stun_proto_auth.specs.Wire.Grammar.{visible};
ghost use Rattle.stun_proto_auth.specs.Message.MessageValidation.{last_algorithm};
ghost use Rattle.stun_proto_auth.specs.Wire.declared.algorithm.IntegrityAlgorithm.{IntegrityAlgorithm as Algorithm};
ghost use Rattle.stun_proto_auth.specs.Integrity.Integrity.{Validates};
ghost use Rattle.stun_proto_auth.specs.Claims.{claimed};
ghost use Rattle.stun_proto_verify.specs.Judgement.{IsAccepted, IsRefused, ServerAccepts, full_key};
ghost use Rattle.stun_proto_verify.specs.Judgement.{is_response, unnamed_refusal, user_key};

use crate::check::{check_algorithms, check_integrity, check_nonce, check_parts};
use crate::error::LongTermServerAuthError;
use crate::known::Known;
use crate::stun_types_integrity::key::IntegrityKey;
use crate::stun_types_message::parsed::Message;
use crate::stun_types_wire::algorithm::IntegrityAlgorithm;
use crate::user::ValidatedUser;
use std::alloc::Global;
use stun_proto_auth::claim::Claim;

/// Decides whether the server accepts a message as one of its user's, from the message's claim and
/// what the server knows. The message must not be a response. Returns the user and the algorithm of
/// the last integrity attribute.
///
/// # Errors
///
/// 1. `Unauthorized`: the message has no visible integrity attribute.
/// 2. `BadRequest`: it has neither a user's name nor the hash of one, no realm, or no nonce. A hash
///    counts as absent if the server has disabled the feature.
/// 3. `StaleNonce`: its nonce is not the valid one.
/// 4. `BadRequest`: its password algorithms are inconsistent.
/// 5. `Unauthorized`: the user that it names is unknown.
/// 6. `IntegrityFailed`: the digest is wrong.
/// 7. `NoMemory`: an allocation failed, for the user's name.
pub fn judge_message(
    alloc: Global,
    message: &Message<'_>,
    claim: &Claim<'_>,
    known: &Known<'_>,
) -> Result<ValidatedUser, LongTermServerAuthError>
    requires claim { claim.now ≡ claimed message.now }
    requires no_response { is_response message.now ≡ false }
    ensures valid { IfOk result (λ user.
        ServerAccepts known.now message.now user.algorithm user.name) }
    ensures accepted { (algorithm : Algorithm) (name : List ℕ)
        → ServerAccepts known.now message.now algorithm name → MatchResult result
        (λ user. user ≡ record { name = name; algorithm = algorithm })
        (λ error. error ≡ LongTermServerAuthError.NoMemory) }
    ensures refused { IfErr result (λ error. error ≢ LongTermServerAuthError.NoMemory
        → IsRefused known.now message.now error) }
    // Memory is allocated only if the message is accepted.
    ensures memory { result ≡ Err LongTermServerAuthError.NoMemory
        → IsAccepted known.now message.now }
{
    // `decide` has the branches. Proof only: that every message which the server accepts is
    // answered with its user is proved here, once for all branches.
    decide(alloc, message, claim, known)
}

/// Decides step by step. The result is that of `judge_message`.
#[tactic(auto, using(crate::proofs::Judging::judgements))]
fn decide(
    alloc: Global,
    message: &Message<'_>,
    claim: &Claim<'_>,
    known: &Known<'_>,
) -> Result<ValidatedUser, LongTermServerAuthError>
    requires claim { claim.now ≡ claimed message.now }
    requires no_response { is_response message.now ≡ false }
    ensures valid { IfOk result (λ user.
        ServerAccepts known.now message.now user.algorithm user.name) }
    ensures refused { IfErr result (λ error. error ≢ LongTermServerAuthError.NoMemory
        → IsRefused known.now message.now error) }
    ensures memory { result ≡ Err LongTermServerAuthError.NoMemory
        → IsAccepted known.now message.now }
{
    let algorithm = judge_claim(claim, known)?;
    judge_user(alloc, message, algorithm, known)
}

/// Decides what can be decided about a claim without its user, whom `known` need not have yet.
/// Returns the algorithm of the last integrity attribute.
///
/// # Errors
///
/// Those of `judge_message` that precede the user:
///
/// 1. `Unauthorized`: the claim has no integrity attribute.
/// 2. `BadRequest`: it has neither a user's name nor the hash of one, no realm, or no nonce. A hash
///    counts as absent if the server has disabled the feature.
/// 3. `StaleNonce`: its nonce is not the valid one.
/// 4. `BadRequest`: its password algorithms are inconsistent.
#[tactic(auto, unfolding(crate::specs::Judgement::unnamed_refusal))]
pub fn judge_claim(
    claim: &Claim<'_>,
    known: &Known<'_>,
) -> Result<IntegrityAlgorithm, LongTermServerAuthError>
    ensures passed { IfOk result (λ algorithm. (claim.now.integrity ≡ Some algorithm)
        × (unnamed_refusal known.now claim.now ≡ None)) }
    ensures refused { IfErr result (λ error. (unnamed_refusal known.now claim.now ≡ Some error)
        × (error ≢ LongTermServerAuthError.NoMemory)) }
{
    let algorithm = check_integrity(claim)?;
    check_parts(claim, known)?;
    check_nonce(claim, known)?;
    check_algorithms(claim, known)?;
    Ok(algorithm)
}

/// Decides whether the server accepts a message whose claim `judge_claim` has passed: whether the
/// user is known, and whether the message validates under the user's key.
///
/// # Errors
///
/// The remaining ones of `judge_message`:
///
/// 1. `Unauthorized`: the user that the message names is unknown.
/// 2. `IntegrityFailed`: the digest is wrong.
/// 3. `NoMemory`: the message is accepted, but an allocation for the user's name failed.
#[tactic(auto, using(crate::proofs::Judging::judgements))]
pub fn judge_user(
    alloc: Global,
    message: &Message<'_>,
    algorithm: IntegrityAlgorithm,
    known: &Known<'_>,
) -> Result<ValidatedUser, LongTermServerAuthError>
    requires no_response { is_response message.now ≡ false }
    requires last { (claimed message.now).integrity ≡ Some algorithm }
    requires passed { unnamed_refusal known.now (claimed message.now) ≡ None }
    ensures valid { IfOk result (λ user.
        ServerAccepts known.now message.now user.algorithm user.name) }
    ensures refused { IfErr result (λ error. error ≢ LongTermServerAuthError.NoMemory
        → IsRefused known.now message.now error) }
    ensures memory { result ≡ Err LongTermServerAuthError.NoMemory
        → IsAccepted known.now message.now }
{
    let pending = find_user(algorithm, known)?;
    validate_user(message, &pending, known.realm())?;
    let name = String::from_str(alloc, pending.name)?;
    Ok(ValidatedUser::new(name, pending.algorithm))
}

/// A claim that passed every check but that of the digest.
#[derive(Drop)]
struct Pending<'a> {
    algorithm: IntegrityAlgorithm,
    name: &'a str,
    password: &'a str,
    stored: Option<&'a IntegrityKey<'static>>,
}

/// Returns the known user, whose key for an algorithm is to be checked. Fails with `Unauthorized`
/// if there is none.
fn find_user<'a>(
    algorithm: IntegrityAlgorithm,
    known: &Known<'a>,
) -> Result<Pending<'a>, LongTermServerAuthError>
    ensures found { IfOk result (λ pending. (pending.algorithm ≡ algorithm)
        × (known.now.user ≡ Some (record {
          name = pending.name.now;
          password = pending.password.now;
        }))) }
    ensures refused { IfErr result (λ error. (error ≡ LongTermServerAuthError.Unauthorized)
        × (known.now.user ≡ None)) }
    ensures stored { IfOk result (λ pending. IfSome pending.stored (λ key. key.now
        ≡ full_key known.now.realm pending.name.now pending.password.now pending.algorithm)) }
{
    match known.user() {
        Some(user) => Ok(Pending {
            algorithm,
            name: user.name(),
            password: user.password(),
            stored: user.stored_key(known.realm(), algorithm),
        }),
        None => Err(LongTermServerAuthError::Unauthorized),
    }
}

/// Checks that a message validates under the key of a user in a realm. Fails with
/// `IntegrityFailed`.
fn validate_user(
    message: &Message<'_>,
    pending: &Pending<'_>,
    realm: &str,
) -> Result<(), LongTermServerAuthError>
    requires last { last_algorithm (visible message.now) ≡ Some pending.now.algorithm }
    requires stored { IfSome pending.now.stored (λ key. key.now ≡ full_key realm.now
        pending.now.name.now pending.now.password.now pending.now.algorithm) }
    ensures valid { OnOk result ((text : List ℕ)
        × Validates message.now
        (user_key realm.now pending.now.name.now pending.now.password.now pending.now.algorithm)
        pending.now.algorithm text) }
    ensures refused { IfErr result (λ error.
        (error ≡ LongTermServerAuthError.IntegrityFailed pending.now.algorithm)
        × ((text : List ℕ) → ¬ Validates message.now
        (user_key realm.now pending.now.name.now pending.now.password.now pending.now.algorithm)
        pending.now.algorithm text)) }
{
    match pending.stored {
        Some(key) => validate_under(message, pending, realm, key),
        None => validate_under(message, pending, realm, &key_in(pending, realm)),
    }
}

/// Checks that a message validates under the user's key, stored or newly derived. Fails with
/// `IntegrityFailed`.
fn validate_under(
    message: &Message<'_>,
    pending: &Pending<'_>,
    realm: &str,
    key: &IntegrityKey<'_>,
) -> Result<(), LongTermServerAuthError>
    requires last { last_algorithm (visible message.now) ≡ Some pending.now.algorithm }
    requires key { key.now ≡ full_key realm.now pending.now.name.now
        pending.now.password.now pending.now.algorithm }
    ensures valid { OnOk result ((text : List ℕ)
        × Validates message.now
        (user_key realm.now pending.now.name.now pending.now.password.now pending.now.algorithm)
        pending.now.algorithm text) }
    ensures refused { IfErr result (λ error.
        (error ≡ LongTermServerAuthError.IntegrityFailed pending.now.algorithm)
        × ((text : List ℕ) → ¬ Validates message.now
        (user_key realm.now pending.now.name.now pending.now.password.now pending.now.algorithm)
        pending.now.algorithm text)) }
{
    match message.validate_integrity_with_key(key) {
        Ok(_) => Ok(()),
        Err(error) => Err(LongTermServerAuthError::of_digest(pending.algorithm, error)),
    }
}

/// Derives the key of the user in a realm.
fn key_in<'a>(pending: &Pending<'_>, realm: &str) -> IntegrityKey<'a>
    ensures { result ≡ full_key realm.now pending.now.name.now pending.now.password.now
        pending.now.algorithm }
{
    IntegrityKey::long_term(pending.name, realm, pending.password, pending.algorithm)
}

//! What a message claims about its sender.

ghost use Rattle.std.specs.Prelude.{◌≡◌, Some, None};
ghost use Rattle.std.specs.Option.{option_copied, option_map};
ghost use Rattle.stun_types_message.specs.AuthAttributes.PasswordAlgorithmNumbers.{number_of};
ghost use Rattle.stun_proto_auth.specs.Claims.{algorithm_decoded, algorithms_decoded, claimed};
ghost use Rattle.stun_proto_auth.specs.Claims.{code_visible, code_decoded, hash_decoded};
ghost use Rattle.stun_proto_auth.specs.Claims.{list_decoded, text_decoded};

use crate::last::{Lasts, last_attribute};
use crate::list::is_list;
use crate::stun_types_attributes::error_code::ErrorCode;
use crate::stun_types_auth_attributes::algorithm::PasswordAlgorithmValue;
use crate::stun_types_auth_attributes::nonce::Nonce;
use crate::stun_types_auth_attributes::password_algorithm::PasswordAlgorithm;
use crate::stun_types_auth_attributes::password_algorithms::PasswordAlgorithms;
use crate::stun_types_auth_attributes::realm::Realm;
use crate::stun_types_auth_attributes::username::Username;
use crate::stun_types_wire::algorithm::IntegrityAlgorithm;
use crate::stun_types_wire::attribute::{AttributeType, RawAttribute};
use crate::stun_types_wire::registry;
use crate::stun_types_write::attribute::AttributeStaticType;
use crate::stun_types_write::reading::{text_of, value_of};
use std::convert::TryFrom;
use std::marker::Model;
use stun_types_message::parsed::Message;

/// The authentication attributes that are visible in a message. Of several attributes of one type,
/// the last one counts, and a malformed one counts as absent. The exception: an integrity attribute
/// of invalid length counts as present, and its digest as wrong. Contracts see the record `Claimed`
/// of `specs/Claims.antt`.
#[derive(Debug, Drop)]
pub struct Claim<'a> {
    lasts: Lasts<'a>,
}

impl<'a> Model for Claim<'a> {
    ghost use Rattle.stun_types_message.specs.Wire.Registry.{longest_text, longest_username};
    ghost use Rattle.stun_types_message.specs.Wire.Registry.{nonce_kind, realm_kind, username_kind};
    ghost use Rattle.stun_proto_auth.specs.Claims.{Claimed, algorithm_decoded, algorithms_decoded};
    ghost use Rattle.stun_proto_auth.specs.Claims.{hash_decoded, list_decoded, text_decoded};

    ghost Value = { Claimed };

    ghost view = { λ c. record {
      integrity = c.lasts.integrity;
      username = text_decoded username_kind longest_username c.lasts.username;
      user_hash = hash_decoded c.lasts.user_hash;
      realm = text_decoded realm_kind longest_text c.lasts.realm;
      nonce = text_decoded nonce_kind longest_text c.lasts.nonce;
      algorithms = algorithms_decoded c.lasts.algorithms;
      listed = list_decoded c.lasts.algorithms;
      algorithm = algorithm_decoded c.lasts.algorithm;
    } };
}

impl<'a> Claim<'a> {
    /// Reads the claim of a message. It goes over the message once.
    pub fn of(message: &Message<'a>) -> Claim<'a>
        ensures { result ≡ claimed message.now }
    {
        Claim {
            lasts: Lasts::of(message),
        }
    }

    /// Returns the algorithm of the last integrity attribute.
    pub fn integrity(&self) -> Option<IntegrityAlgorithm>
        ensures { result ≡ self.now.integrity }
    {
        self.lasts.integrity
    }

    /// Returns the user's name (RFC 8489, section 14.3).
    pub fn username(&self) -> Option<&str>
        ensures { option_copied result ≡ self.now.username }
    {
        text_decoded(&self.lasts.username, Username::TYPE, Username::MAX_LEN)
    }

    /// Returns the hash of the user's name and the realm (RFC 8489, section 14.4).
    pub fn user_hash(&self) -> Option<&[u8]>
        ensures { option_copied result ≡ self.now.user_hash }
    {
        hash_decoded(&self.lasts.user_hash)
    }

    /// Returns the realm (RFC 8489, section 14.9).
    pub fn realm(&self) -> Option<&str>
        ensures { option_copied result ≡ self.now.realm }
    {
        text_decoded(&self.lasts.realm, Realm::TYPE, Realm::MAX_LEN)
    }

    /// Returns the nonce (RFC 8489, section 14.10).
    pub fn nonce(&self) -> Option<&str>
        ensures { option_copied result ≡ self.now.nonce }
    {
        text_decoded(&self.lasts.nonce, Nonce::TYPE, Nonce::MAX_LEN)
    }

    /// Returns the value of the PASSWORD-ALGORITHMS (RFC 8489, section 14.11), each of whose
    /// algorithms is known: four bytes for each.
    pub fn algorithms(&self) -> Option<&[u8]>
        ensures { option_copied result ≡ self.now.algorithms }
    {
        algorithms_decoded(&self.lasts.algorithms)
    }

    /// Returns the value of the PASSWORD-ALGORITHMS, whose algorithms may be unknown: complete
    /// entries, at most 32 bytes.
    pub fn listed(&self) -> Option<&[u8]>
        ensures { option_copied result ≡ self.now.listed }
    {
        list_decoded(&self.lasts.algorithms)
    }

    /// Returns the chosen password algorithm (RFC 8489, section 14.12). Contracts see its number.
    pub fn algorithm(&self) -> Option<PasswordAlgorithmValue>
        ensures { option_map number_of result ≡ self.now.algorithm }
    {
        algorithm_decoded(&self.lasts.algorithm)
    }
}

/// Returns the code of the last ERROR-CODE that is visible in a message (RFC 8489, section 14.8).
/// It is `None` if there is none, or if the last one is malformed.
pub fn error_code_of(message: &Message<'_>) -> Option<u16>
    ensures { result ≡ code_visible message.now }
{
    code_decoded(&last_attribute(message, ErrorCode::TYPE))
}

/// Returns the text of an attribute of this type, if it is present, well formed and at most `most`
/// bytes long.
#[tactic(auto, unfolding(crate::specs::Claims::text_decoded))]
fn text_decoded<'raw>(
    visible: &'raw Option<RawAttribute<'_>>,
    atype: AttributeType,
    most: usize,
) -> Option<&'raw str>
    ensures { option_copied result ≡ text_decoded atype.0 most visible.now }
{
    match visible {
        Some(raw) => match text_of(raw, atype, most) {
            Ok(text) => Some(text),
            Err(_) => None,
        },
        None => None,
    }
}

/// Returns the hash in a USERHASH, if it is present and well formed.
#[tactic(auto, unfolding(crate::specs::Claims::hash_decoded))]
fn hash_decoded<'raw>(visible: &'raw Option<RawAttribute<'_>>) -> Option<&'raw [u8]>
    ensures { option_copied result ≡ hash_decoded visible.now }
{
    match visible {
        Some(raw) => match value_of(
            raw,
            registry::USERHASH,
            registry::USERHASH_LENGTH,
            registry::USERHASH_LENGTH,
        ) {
            Ok(hash) => Some(hash),
            Err(_) => None,
        },
        None => None,
    }
}

/// Returns the value of a PASSWORD-ALGORITHMS, if it is present and well formed.
#[tactic(auto, unfolding(crate::specs::Claims::algorithms_decoded))]
fn algorithms_decoded<'raw>(visible: &'raw Option<RawAttribute<'_>>) -> Option<&'raw [u8]>
    ensures { option_copied result ≡ algorithms_decoded visible.now }
{
    match visible {
        Some(raw) => match PasswordAlgorithms::entries_of(raw) {
            Ok(value) => Some(value),
            Err(_) => None,
        },
        None => None,
    }
}

/// Returns the value of a PASSWORD-ALGORITHMS that may have unknown algorithms, if it is present and
/// well formed.
#[tactic(auto, unfolding(crate::specs::Claims::list_decoded, crate::specs::Lists::list_read_refusal))]
fn list_decoded<'raw>(visible: &'raw Option<RawAttribute<'_>>) -> Option<&'raw [u8]>
    ensures { option_copied result ≡ list_decoded visible.now }
{
    match visible {
        Some(raw) => match value_of(
            raw,
            registry::PASSWORD_ALGORITHMS,
            4,
            PasswordAlgorithms::MAX_LEN,
        ) {
            Ok(value) if is_list(value) => Some(value),
            _ => None,
        },
        None => None,
    }
}

/// Returns the algorithm of a PASSWORD-ALGORITHM, if it is present and well formed.
#[tactic(auto, unfolding(crate::specs::Claims::algorithm_decoded))]
fn algorithm_decoded(visible: &Option<RawAttribute<'_>>) -> Option<PasswordAlgorithmValue>
    ensures { option_map number_of result ≡ algorithm_decoded visible.now }
{
    match visible {
        Some(raw) => match PasswordAlgorithm::try_from(raw) {
            Ok(chosen) => Some(chosen.algorithm()),
            Err(_) => None,
        },
        None => None,
    }
}

/// Returns the code of an ERROR-CODE, if it is present and well formed.
#[tactic(auto, unfolding(crate::specs::Claims::code_decoded))]
fn code_decoded(visible: &Option<RawAttribute<'_>>) -> Option<u16>
    ensures { result ≡ code_decoded visible.now }
{
    match visible {
        Some(raw) => match ErrorCode::code_of(raw) {
            Ok(code) => Some(code),
            Err(_) => None,
        },
        None => None,
    }
}

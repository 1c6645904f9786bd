//! The attribute type, value lengths and HMAC length of each integrity algorithm.

ghost use Rattle.std.specs.Prelude.{◌≡◌};
ghost use Rattle.stun_types_integrity.specs.Integrity.{algorithm_of as algorithm_of_kind};
ghost use Rattle.stun_types_integrity.specs.Integrity.{attribute_kind};
ghost use Rattle.stun_types_integrity.specs.Integrity.{is_lawful_length as is_lawful};
ghost use Rattle.stun_types_integrity.specs.Signing.{hmac_length as length_of_hmac};

use crate::stun_types_wire::algorithm::IntegrityAlgorithm;
use crate::stun_types_wire::attribute::AttributeType;
use crate::stun_types_wire::registry;
use crate::stun_types_wire::registry::{
    MESSAGE_INTEGRITY, MESSAGE_INTEGRITY_SHA256, MESSAGE_INTEGRITY_SHA512,
};

/// Returns the type of the attribute that carries the HMAC of an algorithm.
pub fn attribute_type(algorithm: IntegrityAlgorithm) -> AttributeType
    ensures { result.0 ≡ attribute_kind algorithm }
{
    match algorithm {
        IntegrityAlgorithm::Sha1 => MESSAGE_INTEGRITY,
        IntegrityAlgorithm::Sha256 => MESSAGE_INTEGRITY_SHA256,
        IntegrityAlgorithm::Sha512 => MESSAGE_INTEGRITY_SHA512,
    }
}

/// Returns the algorithm of an integrity attribute's type, or `None` for any other type.
pub fn algorithm_of(atype: AttributeType) -> Option<IntegrityAlgorithm>
    ensures { result ≡ algorithm_of_kind atype.0 }
{
    match atype {
        MESSAGE_INTEGRITY => Some(IntegrityAlgorithm::Sha1),
        MESSAGE_INTEGRITY_SHA256 => Some(IntegrityAlgorithm::Sha256),
        MESSAGE_INTEGRITY_SHA512 => Some(IntegrityAlgorithm::Sha512),
        _ => None,
    }
}

/// Returns whether the value of an integrity attribute may have this length in bytes.
///
/// - `Sha1`: 20.
/// - `Sha256`: 16 to 32, a multiple of four.
/// - `Sha512`: 16 to 64, a multiple of four.
pub fn is_lawful_length(algorithm: IntegrityAlgorithm, len: usize) -> bool
    ensures { result ≡ is_lawful algorithm len }
{
    match algorithm {
        IntegrityAlgorithm::Sha1 => len == registry::HMAC_SHA1_LENGTH,
        IntegrityAlgorithm::Sha256 => {
            len >= registry::MIN_HMAC_SHA256_LENGTH
                && len <= registry::HMAC_SHA256_LENGTH
                && len % 4 == 0
        }
        IntegrityAlgorithm::Sha512 => {
            len >= registry::MIN_HMAC_SHA512_LENGTH
                && len <= registry::HMAC_SHA512_LENGTH
                && len % 4 == 0
        }
    }
}

/// Returns the length in bytes of an algorithm's full HMAC: 20, 32 or 64.
pub fn hmac_length(algorithm: IntegrityAlgorithm) -> usize
    ensures { result ≡ length_of_hmac algorithm }
{
    match algorithm {
        IntegrityAlgorithm::Sha1 => registry::HMAC_SHA1_LENGTH,
        IntegrityAlgorithm::Sha256 => registry::HMAC_SHA256_LENGTH,
        IntegrityAlgorithm::Sha512 => registry::HMAC_SHA512_LENGTH,
    }
}

//! The numbers of password algorithms.

ghost use Rattle.std.specs.Prelude.{◌≡◌};
ghost use Rattle.stun_proto_auth.specs.SupportedAlgorithms.{number_by};

use crate::stun_types_wire::algorithm::IntegrityAlgorithm;
use crate::stun_types_wire::registry::{MD5_NUMBER, SHA256_NUMBER, SHA512_NUMBER};

/// Returns the number of the password algorithm that derives the keys of an integrity algorithm
/// (RFC 8489, section 18.5.1). The number for `Sha512` is specific to this project: no RFC assigns
/// one.
pub fn number_by(algorithm: IntegrityAlgorithm) -> u16
    ensures { result ≡ number_by algorithm }
{
    match algorithm {
        IntegrityAlgorithm::Sha1 => MD5_NUMBER,
        IntegrityAlgorithm::Sha256 => SHA256_NUMBER,
        IntegrityAlgorithm::Sha512 => SHA512_NUMBER,
    }
}

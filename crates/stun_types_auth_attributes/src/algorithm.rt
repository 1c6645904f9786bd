//! Password algorithms (RFC 8489, section 18.5).

ghost use Rattle.std.specs.Prelude.{◌≡◌, ◌≤◌, length, MatchResult, None, Some};
ghost use Rattle.stun_types_write.specs.ValueReading.{IsNamed};
ghost use Rattle.stun_types_auth_attributes.specs.PasswordAlgorithmNumbers.{integrity_of};
ghost use Rattle.stun_types_auth_attributes.specs.PasswordAlgorithmNumbers.{number_of};
ghost use Rattle.stun_types_auth_attributes.specs.PasswordAlgorithmNumbers.{number_refusal};
ghost use Rattle.stun_types_auth_attributes.specs.Entries.{algorithm_value, number_decoded};

use crate::stun_types_wire::algorithm::IntegrityAlgorithm;
use crate::stun_types_wire::error::StunParseError;
use crate::stun_types_wire::registry::{MD5_NUMBER, SHA256_NUMBER, SHA512_NUMBER};
use byteorder::{BigEndian, ByteOrder};
use std::fmt;

/// An algorithm that derives a key from a user name, a realm and a password (RFC 8489, section
/// 18.5).
#[derive(Clone, Copy, Debug, PartialEq, Eq)]
pub enum PasswordAlgorithmValue {
    /// MD5, number 1.
    MD5,
    /// SHA-256, number 2.
    SHA256,
    /// SHA-512, number 0xFF12, an extension of this project that no RFC defines.
    SHA512,
}

impl PasswordAlgorithmValue {
    /// Returns the message integrity algorithm for which this algorithm derives a key: `Sha1` for
    /// `MD5`, `Sha256` for `SHA256`, and `Sha512` for `SHA512`.
    pub fn as_integrity(self) -> IntegrityAlgorithm
        ensures { result ≡ integrity_of self }
    {
        match self {
            PasswordAlgorithmValue::MD5 => IntegrityAlgorithm::Sha1,
            PasswordAlgorithmValue::SHA256 => IntegrityAlgorithm::Sha256,
            PasswordAlgorithmValue::SHA512 => IntegrityAlgorithm::Sha512,
        }
    }

    /// Returns the number of the algorithm.
    fn number(self) -> u16
        ensures { result ≡ number_of self }
    {
        match self {
            PasswordAlgorithmValue::MD5 => MD5_NUMBER,
            PasswordAlgorithmValue::SHA256 => SHA256_NUMBER,
            PasswordAlgorithmValue::SHA512 => SHA512_NUMBER,
        }
    }

    /// Returns the algorithm with this number. Fails with `InvalidAttributeData` if no algorithm
    /// has it.
    #[tactic(auto, unfolding(crate::proofs::Algorithms::known))]
    fn of_number(number: u16) -> Result<PasswordAlgorithmValue, StunParseError>
        ensures { MatchResult result (λ algorithm. (number_of algorithm ≡ number)
            × (number_refusal number ≡ None)) (IsNamed (number_refusal number)) }
    {
        match number {
            MD5_NUMBER => Ok(PasswordAlgorithmValue::MD5),
            SHA256_NUMBER => Ok(PasswordAlgorithmValue::SHA256),
            SHA512_NUMBER => Ok(PasswordAlgorithmValue::SHA512),
            _ => Err(StunParseError::InvalidAttributeData),
        }
    }

    /// Encodes the algorithm in four bytes: its number, and 0 as the length of its parameters.
    pub(crate) fn to_bytes(self) -> [u8; 4]
        ensures { result ≡ algorithm_value self }
    {
        let [high, low] = self.number().to_be_bytes();
        [high, low, 0, 0]
    }

    /// Decodes the algorithm from four bytes. The last two are ignored. Fails with
    /// `InvalidAttributeData` if no algorithm has the number.
    #[tactic(auto, unfolding(crate::specs::Entries::number_decoded))]
    pub(crate) fn from_bytes(bytes: &[u8]) -> Result<PasswordAlgorithmValue, StunParseError>
        requires { 4 ≤ length bytes.now }
        ensures { MatchResult result (λ algorithm. (number_of algorithm ≡ number_decoded bytes.now)
            × (number_refusal (number_decoded bytes.now) ≡ None))
            (IsNamed (number_refusal (number_decoded bytes.now))) }
    {
        PasswordAlgorithmValue::of_number(BigEndian::read_u16(bytes))
    }
}

/// Prints `MD5`, `SHA256` or `SHA512`.
impl fmt::Display for PasswordAlgorithmValue {
    ghost use Rattle.std.specs.Prelude.{Some};
    ghost use Rattle.stun_types_auth_attributes.specs.PasswordAlgorithmNumbers.{name_of_algorithm};

    ghost output = { λ algorithm. Some (name_of_algorithm algorithm) };

    fn fmt<W: fmt::Write>(&self, f: &mut fmt::Formatter<W>) -> fmt::Result {
        match self {
            PasswordAlgorithmValue::MD5 => write!(f, "MD5"),
            PasswordAlgorithmValue::SHA256 => write!(f, "SHA256"),
            PasswordAlgorithmValue::SHA512 => write!(f, "SHA512"),
        }
    }
}

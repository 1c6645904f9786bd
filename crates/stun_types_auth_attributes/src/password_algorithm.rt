//! PASSWORD-ALGORITHM (RFC 8489, section 14.12).

ghost use Rattle.std.specs.Prelude.{◌≡◌, None, MatchResult};
ghost use Rattle.stun_types_write.specs.ValueReading.{IsNamed};
ghost use Rattle.stun_types_auth_attributes.specs.PasswordAlgorithmNumbers.{number_of};
ghost use Rattle.stun_types_auth_attributes.specs.Entries.{algorithm_read_refusal, number_decoded};
ghost use Rattle.stun_types_write.specs.Wire.Registry.{password_algorithm_kind};

use crate::algorithm::PasswordAlgorithmValue;
use crate::stun_types_base::memory::NoMemory;
use crate::stun_types_wire::attribute::{AttributeType, RawAttribute};
use crate::stun_types_wire::error::StunParseError;
use crate::stun_types_wire::registry;
use std::alloc::Global;
use std::convert::TryFrom;
use std::marker::Model;
use stun_types_write::attribute::{
    Attribute, AttributeFromRaw, AttributeStaticType, AttributeWrite,
};
use stun_types_write::reading::value_of;
use stun_types_write::text::write_attribute;

/// The password algorithm that a client chose from those of the server (RFC 8489, section 14.12).
/// Contracts see the algorithm.
#[derive(Debug, Drop)]
pub struct PasswordAlgorithm {
    algorithm: PasswordAlgorithmValue,
}

impl Model for PasswordAlgorithm {
    ghost use Rattle.stun_types_auth_attributes.specs.declared.algorithm.PasswordAlgorithmValue.{PasswordAlgorithmValue};

    ghost Value = { PasswordAlgorithmValue };

    ghost view = { λ a. a.algorithm };
}

impl PasswordAlgorithm {
    /// Makes a PASSWORD-ALGORITHM.
    pub fn new(algorithm: PasswordAlgorithmValue) -> PasswordAlgorithm
        ensures { result ≡ algorithm }
    {
        PasswordAlgorithm { algorithm }
    }

    /// Returns the algorithm.
    pub fn algorithm(&self) -> PasswordAlgorithmValue
        ensures { result ≡ self.now }
    {
        self.algorithm
    }
}

impl AttributeStaticType for PasswordAlgorithm {
    ghost TYPE = { record { 0 = password_algorithm_kind } };

    const TYPE: AttributeType = registry::PASSWORD_ALGORITHM;
}

impl Attribute for PasswordAlgorithm {
    ghost use Rattle.stun_types_auth_attributes.specs.Entries.{algorithm_value};

    ghost kind = { λ _. password_algorithm_kind };

    ghost value = { algorithm_value };

    fn get_type(&self) -> AttributeType {
        PasswordAlgorithm::TYPE
    }

    fn length(&self) -> u16 {
        4
    }
}

impl AttributeWrite for PasswordAlgorithm {
    fn write_into_unchecked(&self, dest: &mut [u8]) {
        write_attribute(PasswordAlgorithm::TYPE, &self.algorithm().to_bytes(), dest);
    }

    fn to_raw(&self, alloc: Global) -> Result<RawAttribute<'_>, NoMemory> {
        let value = Vec::from_slice(alloc, &self.algorithm().to_bytes())?;
        Ok(RawAttribute::new_owned(PasswordAlgorithm::TYPE, value.into_boxed_slice()))
    }
}

/// Decodes the algorithm from the first two of four bytes. The other two, the length of the
/// parameters, are ignored.
///
/// # Errors
///
/// In this order:
///
/// - `WrongAttributeImplementation`: the type is another one.
/// - `Truncated`: the value is shorter than four bytes.
/// - `TooLarge`: the value is longer than four bytes.
/// - `InvalidAttributeData`: no algorithm has the number.
impl<'a, 'raw> TryFrom<&'raw RawAttribute<'a>> for PasswordAlgorithm {
    ghost use Rattle.std.specs.Prelude.{◌≡◌, MatchResult, Some, None};
    ghost use Rattle.stun_types_write.specs.ValueReading.{IsNamed};
    ghost use Rattle.stun_types_auth_attributes.specs.PasswordAlgorithmNumbers.{number_of};
    ghost use Rattle.stun_types_auth_attributes.specs.Entries.{algorithm_read_refusal};
    ghost use Rattle.stun_types_auth_attributes.specs.Entries.{number_decoded};

    type Error = StunParseError;

    ghost try_from_gives = { λ raw result. MatchResult result
        (λ read. (algorithm_read_refusal raw.now ≡ None)
        × (number_of read ≡ number_decoded raw.now.value))
        (IsNamed (algorithm_read_refusal raw.now)) };

    fn try_from(raw: &'raw RawAttribute<'a>) -> Result<PasswordAlgorithm, StunParseError> {
        let algorithm = algorithm_of(raw)?;
        Ok(PasswordAlgorithm { algorithm })
    }
}

/// Decodes the attribute as `try_from` does, with the same errors. It allocates nothing.
impl<'a> AttributeFromRaw<'a> for PasswordAlgorithm {
    ghost use Rattle.std.specs.Prelude.{false};
    ghost use Rattle.stun_types_auth_attributes.specs.Entries.{algorithm_read_refusal, entry};
    ghost use Rattle.stun_types_auth_attributes.specs.Entries.{number_decoded};

    ghost read_refusal = { algorithm_read_refusal };

    ghost read_value = { λ value. entry (number_decoded value) };

    ghost reading_takes_memory = { false };

    fn from_raw_ref(
        _alloc: Global,
        raw: &RawAttribute<'_>,
    ) -> Result<PasswordAlgorithm, StunParseError> {
        let algorithm = algorithm_of(raw)?;
        Ok(PasswordAlgorithm { algorithm })
    }

    fn from_raw(alloc: Global, raw: RawAttribute<'a>) -> Result<PasswordAlgorithm, StunParseError> {
        PasswordAlgorithm::from_raw_ref(alloc, &raw)
    }

    #[tactic(auto, using(crate::proofs::Algorithms::algorithms))]
    fn proof_is_read_back(&self, _read: &PasswordAlgorithm) {}
}

/// Decodes the algorithm in a PASSWORD-ALGORITHM. Fails as `try_from` does.
#[tactic(auto, unfolding(crate::specs::Entries::algorithm_read_refusal))]
fn algorithm_of(raw: &RawAttribute<'_>) -> Result<PasswordAlgorithmValue, StunParseError>
    ensures { MatchResult result (λ algorithm. (algorithm_read_refusal raw.now ≡ None)
        × (raw.now.kind ≡ password_algorithm_kind) × (number_of algorithm
        ≡ number_decoded raw.now.value))
        (IsNamed (algorithm_read_refusal raw.now)) }
{
    let value = value_of(raw, PasswordAlgorithm::TYPE, 4, 4)?;
    PasswordAlgorithmValue::from_bytes(value)
}

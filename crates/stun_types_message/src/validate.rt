//! Validates that a message was sent by a holder of a key.

ghost use Rattle.std.specs.Prelude.{◌≡◌, ◌↔◌, ◌-◌, ℕ, List, Ok, Some, None, IsTrue, IsSomeAnd};
ghost use Rattle.std.specs.Prelude.{IfOk, IfErr, OnOk};
ghost use Rattle.stun_types_attributes.specs.Wire.declared.algorithm.IntegrityAlgorithm.{IntegrityAlgorithm as Algorithm};
ghost use Rattle.stun_types_attributes.specs.Wire.Grammar.{IsMessage, visible};
ghost use Rattle.stun_types_add.specs.Integrity.Integrity.{IsSigned, Validates, attribute_kind};
ghost use Rattle.stun_types_add.specs.Integrity.Keys.{key_of};
ghost use Rattle.stun_types_message.specs.MessageValidation.{HasDigest, IsNotValid, IsRefused};
ghost use Rattle.stun_types_message.specs.MessageValidation.{IsRight, OccursAt, first_of_kind};
ghost use Rattle.stun_types_message.specs.MessageValidation.{last_algorithm};

use crate::parsed::Message;
use crate::stun_types_integrity::algorithm::{algorithm_of, attribute_type, is_lawful_length};
use crate::stun_types_integrity::credentials::MessageIntegrityCredentials;
use crate::stun_types_integrity::key::IntegrityKey;
use crate::stun_types_wire::algorithm::IntegrityAlgorithm;
use crate::stun_types_wire::attribute::pad_attribute_len;
use crate::stun_types_wire::error::{StunParseError, ValidateError};
use crate::stun_types_wire::registry::MESSAGE_INTEGRITY;
use crate::stun_types_write::text::head_decoded;

impl<'a> Message<'a> {
    /// Returns the algorithm of the last visible integrity attribute, or `None`.
    #[tactic(auto, using(crate::proofs::Last::steps), unfolding(crate::proofs::Last::last))]
    pub fn last_integrity(&self) -> Option<IntegrityAlgorithm>
        ensures { result ≡ last_algorithm (visible self.now) }
    {
        let mut last = None;
        for (_, attribute) in self.iter_attributes() {
            if let Some(algorithm) = algorithm_of(attribute.get_type()) {
                last = Some(algorithm);
            }
        }
        last
    }

    /// Validates the message by its last visible integrity attribute, with the key that the
    /// credentials make for that attribute's algorithm. Returns the algorithm.
    ///
    /// # Errors
    ///
    /// 1. `Parse(MissingAttribute)` of MESSAGE-INTEGRITY: no integrity attribute is visible.
    /// 2. The errors of `validate_integrity_with_key`.
    pub fn validate_integrity(
        &self,
        credentials: &MessageIntegrityCredentials,
    ) -> Result<IntegrityAlgorithm, ValidateError>
        ensures valid { IfOk result (λ algorithm. (text : List ℕ)
            × Validates self.now (key_of credentials.now algorithm).bytes algorithm text) }
        ensures accepted { (algorithm : Algorithm) (text : List ℕ)
            → Validates self.now (key_of credentials.now algorithm).bytes algorithm text
            → result ≡ Ok algorithm }
        ensures refused { IfErr result (IsNotValid self.now credentials.now) }
    {
        let Some(algorithm) = self.last_integrity() else {
            return Err(ValidateError::Parse(StunParseError::MissingAttribute(MESSAGE_INTEGRITY)));
        };
        let key = credentials.make_key(algorithm);
        self.validate_integrity_with_key(&key)
    }

    /// Validates the message by the integrity attribute of the algorithm for which the key was
    /// made, and returns that algorithm (RFC 8489, sections 14.5 and 14.6).
    ///
    /// # Errors
    ///
    /// 1. `Parse(MissingAttribute)` of that attribute's type: no such attribute is visible.
    /// 2. `Parse(InvalidAttributeData)`: the length of its value is not allowed.
    /// 3. `IntegrityFailed`: its value is not the HMAC of the text that it covers.
    pub fn validate_integrity_with_key(
        &self,
        key: &IntegrityKey<'_>,
    ) -> Result<IntegrityAlgorithm, ValidateError>
        ensures valid { IfOk result (λ algorithm. (algorithm ≡ key.now.algorithm)
            × ((text : List ℕ) × IsSigned self.now key.now.bytes algorithm text)) }
        ensures accepted { (text : List ℕ) → IsSigned self.now key.now.bytes key.now.algorithm text
            → result ≡ Ok key.now.algorithm }
        ensures refused { IfErr result (λ error.
            IsRefused self.now key.now.bytes key.now.algorithm error) }
    {
        // The checks are in `integrity_by`. What its result means for the signed text is proved
        // here, once for all of its branches.
        self.integrity_by(key)
    }

    /// Checks that the integrity attribute of the key's algorithm has an allowed length and the
    /// right HMAC. Returns the algorithm, and fails as `validate_integrity_with_key` does.
    fn integrity_by(&self, key: &IntegrityKey<'_>) -> Result<IntegrityAlgorithm, ValidateError>
        ensures message { IsMessage self.now }
        ensures algorithm { IfOk result (λ algorithm. algorithm ≡ key.now.algorithm) }
        ensures passed { OnOk result (IsSomeAnd (first_of_kind
            (attribute_kind key.now.algorithm) self.now)
            (IsRight self.now key.now.bytes key.now.algorithm)) }
        ensures refused { IfErr result (λ error.
            IsRefused self.now key.now.bytes key.now.algorithm error) }
    {
        let algorithm = key.algorithm();
        let atype = attribute_type(algorithm);
        match self.first_of_type(atype) {
            None => Err(ValidateError::Parse(StunParseError::MissingAttribute(atype))),
            Some((offset, attribute)) => {
                if !is_lawful_length(algorithm, attribute.value().len()) {
                    Err(ValidateError::Parse(StunParseError::InvalidAttributeData))
                } else if !self.has_digest(offset, attribute.value(), key) {
                    Err(ValidateError::IntegrityFailed)
                } else {
                    Ok(algorithm)
                }
            }
        }
    }

    /// Returns whether the value at an offset is the HMAC of the text that it covers, possibly
    /// truncated.
    #[tactic(auto, using(crate::proofs::Validating::covered_chunks))]
    fn has_digest(&self, offset: usize, value: &[u8], key: &IntegrityKey<'_>) -> bool
        requires { OccursAt self.now offset value.now }
        ensures { IsTrue result
            ↔ HasDigest self.now key.now.bytes key.now.algorithm offset value.now }
    {
        let (covered, _) = self.as_ref().split_at(offset);
        let end = offset + 4 + pad_attribute_len(value.len());
        let attribute_head = head_decoded(covered, self.length_up_to(end));
        // If nothing follows the attribute, the covered text is one contiguous chunk.
        if covered.starts_with(&attribute_head) {
            return key.signs(covered, &[], &[], value);
        }
        let (_, following) = covered.split_at(4);
        key.signs(&attribute_head, following, &[], value)
    }
}

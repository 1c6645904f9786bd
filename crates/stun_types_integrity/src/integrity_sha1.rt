//! MESSAGE-INTEGRITY (RFC 8489, section 14.5).

ghost use Rattle.std.specs.Prelude.{◌≡◌, ◌≢◌, ◌↔◌, ◌++◌, length, MatchResult, IsOk, IfErr};
ghost use Rattle.stun_types_write.specs.ValueReading.{IsNamed};
ghost use Rattle.stun_types_write.specs.Wire.declared.algorithm.IntegrityAlgorithm.TheVariants.{Sha1};
ghost use Rattle.stun_types_integrity.specs.Integrity.{integrity_hmac};
ghost use Rattle.stun_types_write.specs.Wire.Registry.{integrity_kind, sha1_length};

use crate::constant_time::is_same;
use crate::hmac::IntegrityHmac;
use crate::key::IntegrityKey;
use crate::stun_types_base::memory::NoMemory;
use crate::stun_types_wire::attribute::{AttributeType, RawAttribute};
use crate::stun_types_wire::error::{StunParseError, StunWriteError, ValidateError};
use crate::stun_types_wire::registry;
use crate::stun_types_wire::registry::MESSAGE_INTEGRITY;
use std::alloc::Global;
use std::convert::TryFrom;
use std::marker::Model;
use stun_types_write::attribute::{
    Attribute, AttributeFromRaw, AttributeStaticType, AttributeWrite,
};
use stun_types_write::reading::value_of;
use stun_types_write::text::write_attribute;

/// The HMAC-SHA1 of a message under a key. Contracts see its 20 bytes.
#[derive(Debug, Drop)]
pub struct MessageIntegrity {
    hmac: [u8; 20],
}

impl Model for MessageIntegrity {
    ghost use Rattle.stun_types_write.specs.Wire.Registry.{sha1_length};
    ghost use Rattle.std.specs.Prelude.{◌≡◌, ℕ, List, length};

    ghost Value = { List ℕ };

    ghost view = { λ a. a.hmac };

    ghost invariant = { λ a. length a.hmac ≡ sha1_length };
}

impl MessageIntegrity {
    /// Creates the attribute from an HMAC.
    pub fn new(hmac: [u8; 20]) -> MessageIntegrity
        ensures { result ≡ hmac }
    {
        MessageIntegrity { hmac }
    }

    /// The HMAC.
    pub fn hmac(&self) -> &[u8; 20]
        ensures value { result.now ≡ self.now }
        ensures length { length result.now ≡ sha1_length }
    {
        &self.hmac
    }

    /// Returns the HMAC-SHA1 of a text under a key.
    ///
    /// # Errors
    ///
    /// - `IntegrityFailed`: the key was made for another algorithm.
    pub fn compute(text: &[u8], key: &IntegrityKey) -> Result<[u8; 20], StunWriteError>
        ensures { MatchResult result (λ hmac. (key.now.algorithm ≡ Sha1)
            × (hmac ≡ integrity_hmac Sha1 key.now.bytes text.now))
            (λ error. (error ≡ StunWriteError.IntegrityFailed) × (key.now.algorithm ≢ Sha1)) }
    {
        MessageIntegrity::compute_in_chunks(text, &[], &[], key)
    }

    /// Returns the HMAC of the concatenation of three chunks, with the errors of `compute`.
    ///
    /// Use it to cover a message with a changed length field: pass the bytes before the field, the
    /// new field and the bytes after it.
    pub fn compute_in_chunks(
        head: &[u8],
        middle: &[u8],
        tail: &[u8],
        key: &IntegrityKey,
    ) -> Result<[u8; 20], StunWriteError>
        ensures { MatchResult result (λ hmac. (key.now.algorithm ≡ Sha1)
            × (hmac ≡ integrity_hmac Sha1 key.now.bytes (head.now ++ middle.now ++ tail.now)))
            (λ error. (error ≡ StunWriteError.IntegrityFailed) × (key.now.algorithm ≢ Sha1)) }
    {
        match key.hmac(head, middle, tail) {
            IntegrityHmac::Sha1(hmac) => Ok(hmac),
            _ => Err(StunWriteError::IntegrityFailed),
        }
    }

    /// Checks that `expected` is the HMAC-SHA1 of a text under a key.
    ///
    /// # Errors
    ///
    /// - `IntegrityFailed`: it is not, or the key was made for another algorithm.
    pub fn verify(text: &[u8], key: &IntegrityKey, expected: &[u8; 20]) -> Result<(), ValidateError>
        ensures ok { IsOk result ↔ ((key.now.algorithm ≡ Sha1)
            × (expected.now ≡ integrity_hmac Sha1 key.now.bytes text.now)) }
        ensures refused { IfErr result (λ error. error ≡ ValidateError.IntegrityFailed) }
    {
        MessageIntegrity::verify_in_chunks(text, &[], &[], key, expected)
    }

    /// Does what `verify` does, for a text in three chunks as in `compute_in_chunks`. It compares
    /// all bytes, as `IntegrityKey::signs` does.
    pub fn verify_in_chunks(
        head: &[u8],
        middle: &[u8],
        tail: &[u8],
        key: &IntegrityKey,
        expected: &[u8; 20],
    ) -> Result<(), ValidateError>
        ensures ok { IsOk result ↔ ((key.now.algorithm ≡ Sha1)
            × (expected.now ≡ integrity_hmac Sha1 key.now.bytes
            (head.now ++ middle.now ++ tail.now))) }
        ensures refused { IfErr result (λ error. error ≡ ValidateError.IntegrityFailed) }
    {
        match MessageIntegrity::compute_in_chunks(head, middle, tail, key) {
            Ok(hmac) if is_same(&hmac, expected) => Ok(()),
            _ => Err(ValidateError::IntegrityFailed),
        }
    }
}

impl AttributeStaticType for MessageIntegrity {
    ghost TYPE = { record { 0 = integrity_kind } };

    const TYPE: AttributeType = MESSAGE_INTEGRITY;
}

impl Attribute for MessageIntegrity {
    ghost kind = { λ _. integrity_kind };

    ghost value = { λ a. a };

    fn get_type(&self) -> AttributeType {
        MessageIntegrity::TYPE
    }

    fn length(&self) -> u16 {
        self.hmac().len() as u16
    }
}

impl AttributeWrite for MessageIntegrity {
    ghost use Rattle.std.specs.Prelude.{false};

    ghost giving_takes_memory = { false };

    fn write_into_unchecked(&self, dest: &mut [u8]) {
        write_attribute(MessageIntegrity::TYPE, self.hmac(), dest);
    }

    fn to_raw(&self, _alloc: Global) -> Result<RawAttribute<'_>, NoMemory> {
        Ok(RawAttribute::new(MessageIntegrity::TYPE, self.hmac()))
    }
}

/// Decodes the 20 bytes of an HMAC.
///
/// # Errors
///
/// 1. `WrongAttributeImplementation`: the attribute has another type.
/// 2. `Truncated`: the value has fewer than 20 bytes.
/// 3. `TooLarge`: the value has more than 20 bytes.
impl<'a, 'raw> TryFrom<&'raw RawAttribute<'a>> for MessageIntegrity {
    ghost use Rattle.std.specs.Prelude.{◌≡◌, MatchResult, Some, None};
    ghost use Rattle.stun_types_write.specs.ValueReading.{IsNamed};
    ghost use Rattle.stun_types_write.specs.ValueReading.{value_refusal};

    type Error = StunParseError;

    ghost try_from_gives = { λ raw result. MatchResult result
        (λ read. (value_refusal integrity_kind sha1_length sha1_length raw.now ≡ None)
        × (raw.now.kind ≡ integrity_kind)
        × (read ≡ raw.now.value)) (IsNamed
        (value_refusal integrity_kind sha1_length sha1_length raw.now)) };

    fn try_from(raw: &'raw RawAttribute<'a>) -> Result<MessageIntegrity, StunParseError> {
        let value = value_of(
            raw,
            MessageIntegrity::TYPE,
            registry::HMAC_SHA1_LENGTH,
            registry::HMAC_SHA1_LENGTH,
        )?;
        let mut hmac = [0; 20];
        hmac.copy_from_slice(value);
        Ok(MessageIntegrity { hmac })
    }
}

/// Fails as `try_from` does. It allocates no memory.
impl<'a> AttributeFromRaw<'a> for MessageIntegrity {
    ghost use Rattle.std.specs.Prelude.{false};
    ghost use Rattle.stun_types_write.specs.ValueReading.{value_refusal};

    ghost read_refusal = { value_refusal integrity_kind sha1_length sha1_length };

    ghost read_value = { λ value. value };

    ghost reading_takes_memory = { false };

    fn from_raw_ref(
        _alloc: Global,
        raw: &RawAttribute<'_>,
    ) -> Result<MessageIntegrity, StunParseError> {
        MessageIntegrity::try_from(raw)
    }

    fn from_raw(alloc: Global, raw: RawAttribute<'a>) -> Result<MessageIntegrity, StunParseError> {
        MessageIntegrity::from_raw_ref(alloc, &raw)
    }

    fn proof_is_read_back(&self, _read: &MessageIntegrity) {
        let _ = &self.hmac;
    }
}

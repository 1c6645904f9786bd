//! MESSAGE-INTEGRITY-SHA512, an extension by this project: no RFC defines it. It is built as
//! MESSAGE-INTEGRITY-SHA256 is (RFC 8489, section 14.6).

ghost use Rattle.std.specs.Prelude.{◌≡◌, ◌≢◌, ◌↔◌, ◌++◌, length, MatchResult, IsOk, IsTrue, IfErr};
ghost use Rattle.std.specs.Prelude.{None, Some};
ghost use Rattle.stun_types_write.specs.ValueReading.{IsNamed};
ghost use Rattle.stun_types_write.specs.Wire.declared.algorithm.IntegrityAlgorithm.TheVariants.{Sha512};
ghost use Rattle.stun_types_integrity.specs.Integrity.{IsPrefix, integrity_hmac};
ghost use Rattle.stun_types_integrity.specs.Integrity.{is_lawful_length as is_lawful};
ghost use Rattle.stun_types_integrity.specs.TruncatedHmacs.{sha512_len_refusal};
ghost use Rattle.stun_types_integrity.specs.TruncatedHmacs.{sha512_read_refusal};
ghost use Rattle.stun_types_write.specs.Wire.Registry.{sha512_kind, sha512_length};

use crate::algorithm::is_lawful_length;
use crate::hmac::IntegrityHmac;
use crate::key::IntegrityKey;
use crate::stun_types_base::memory::NoMemory;
use crate::stun_types_wire::algorithm::IntegrityAlgorithm;
use crate::stun_types_wire::attribute::{AttributeType, RawAttribute};
use crate::stun_types_wire::error::{StunParseError, StunWriteError, ValidateError};
use crate::stun_types_wire::registry::{
    HMAC_SHA512_LENGTH as WHOLE, MESSAGE_INTEGRITY_SHA512, MIN_HMAC_SHA512_LENGTH as LEAST,
};
use crate::truncated::{check_truncated, truncated_to};
use std::alloc::Global;
use std::convert::TryFrom;
use std::marker::Model;
use stun_types_write::attribute::{
    Attribute, AttributeFromRaw, AttributeStaticType, AttributeWrite,
};
use stun_types_write::text::write_attribute;

/// The HMAC-SHA512 of a message under a key, possibly truncated: 16 to 64 bytes, a multiple of
/// four. Contracts see these bytes.
#[derive(Debug, Drop)]
pub struct MessageIntegritySha512 {
    hmac: [u8; 64],
    len: usize,
}

impl Model for MessageIntegritySha512 {
    ghost use Rattle.stun_types_write.specs.Wire.Registry.{sha512_length};
    ghost use Rattle.std.specs.Prelude.{◌≡◌, ℕ, IsTrue, List, length, take};
    ghost use Rattle.stun_types_write.specs.Wire.declared.algorithm.IntegrityAlgorithm.TheVariants.{Sha512};
    ghost use Rattle.stun_types_integrity.specs.Integrity.{is_lawful_length};

    ghost Value = { List ℕ };

    ghost view = { λ a. take a.len a.hmac };

    ghost invariant = { λ a. (length a.hmac ≡ sha512_length)
        × IsTrue (is_lawful_length Sha512 a.len) };
}

impl MessageIntegritySha512 {
    /// Creates the attribute from an HMAC, which may be truncated.
    ///
    /// # Errors
    ///
    /// 1. `TooSmall`: `hmac` has fewer than 16 bytes.
    /// 2. `TooLarge`: `hmac` has more than 64 bytes.
    /// 3. `IntegrityFailed`: the length of `hmac` is not a multiple of four.
    pub fn new(hmac: &[u8]) -> Result<MessageIntegritySha512, StunWriteError>
        ensures { MatchResult result (λ made. (sha512_len_refusal (length hmac.now) ≡ None)
            × (made ≡ hmac.now)) (λ error. sha512_len_refusal (length hmac.now) ≡ Some error) }
    {
        check_truncated(hmac.len(), LEAST, WHOLE)?;
        Ok(of_lawful(hmac))
    }

    /// The HMAC, possibly truncated.
    pub fn hmac(&self) -> &[u8]
        ensures value { result.now ≡ self.now }
        ensures lawful { IsTrue (is_lawful Sha512 (length result.now)) }
    {
        &self.hmac[..self.len]
    }

    /// Returns the full HMAC-SHA512 of a text under a key.
    ///
    /// # Errors
    ///
    /// - `IntegrityFailed`: the key was made for another algorithm.
    pub fn compute(text: &[u8], key: &IntegrityKey) -> Result<[u8; 64], StunWriteError>
        ensures { MatchResult result (λ hmac. (key.now.algorithm ≡ Sha512)
            × (hmac ≡ integrity_hmac Sha512 key.now.bytes text.now))
            (λ error. (error ≡ StunWriteError.IntegrityFailed) × (key.now.algorithm ≢ Sha512)) }
    {
        MessageIntegritySha512::compute_in_chunks(text, &[], &[], key)
    }

    /// Returns the HMAC of the concatenation of three chunks, with the errors of `compute`.
    ///
    /// Use it to cover a message with a changed length field: pass the bytes before the field, the
    /// new field and the bytes after it.
    pub fn compute_in_chunks(
        head: &[u8],
        middle: &[u8],
        tail: &[u8],
        key: &IntegrityKey,
    ) -> Result<[u8; 64], StunWriteError>
        ensures { MatchResult result (λ hmac. (key.now.algorithm ≡ Sha512)
            × (hmac ≡ integrity_hmac Sha512 key.now.bytes (head.now ++ middle.now ++ tail.now)))
            (λ error. (error ≡ StunWriteError.IntegrityFailed) × (key.now.algorithm ≢ Sha512)) }
    {
        match key.hmac(head, middle, tail) {
            IntegrityHmac::Sha512(hmac) => Ok(hmac),
            _ => Err(StunWriteError::IntegrityFailed),
        }
    }

    /// Checks that `expected` is the HMAC-SHA512 of a text under a key, or a truncation of it to a
    /// length that `new` accepts.
    ///
    /// # Errors
    ///
    /// - `IntegrityFailed`: it is not, or the key was made for another algorithm.
    pub fn verify(text: &[u8], key: &IntegrityKey, expected: &[u8]) -> Result<(), ValidateError>
        ensures ok { IsOk result ↔ ((key.now.algorithm ≡ Sha512)
            × IsTrue (is_lawful Sha512 (length expected.now))
            × IsPrefix expected.now (integrity_hmac Sha512 key.now.bytes text.now)) }
        ensures refused { IfErr result (λ error. error ≡ ValidateError.IntegrityFailed) }
    {
        MessageIntegritySha512::verify_in_chunks(text, &[], &[], key, expected)
    }

    /// Does what `verify` does, for a text in three chunks as in `compute_in_chunks`.
    pub fn verify_in_chunks(
        head: &[u8],
        middle: &[u8],
        tail: &[u8],
        key: &IntegrityKey,
        expected: &[u8],
    ) -> Result<(), ValidateError>
        ensures ok { IsOk result ↔ ((key.now.algorithm ≡ Sha512)
            × IsTrue (is_lawful Sha512 (length expected.now))
            × IsPrefix expected.now (integrity_hmac Sha512 key.now.bytes
            (head.now ++ middle.now ++ tail.now))) }
        ensures refused { IfErr result (λ error. error ≡ ValidateError.IntegrityFailed) }
    {
        if key.algorithm() != IntegrityAlgorithm::Sha512
            || !is_lawful_length(IntegrityAlgorithm::Sha512, expected.len())
            || !key.signs(head, middle, tail, expected)
        {
            return Err(ValidateError::IntegrityFailed);
        }
        Ok(())
    }
}

impl AttributeStaticType for MessageIntegritySha512 {
    ghost TYPE = { record { 0 = sha512_kind } };

    const TYPE: AttributeType = MESSAGE_INTEGRITY_SHA512;
}

impl Attribute for MessageIntegritySha512 {
    ghost kind = { λ _. sha512_kind };

    ghost value = { λ a. a };

    fn get_type(&self) -> AttributeType {
        MessageIntegritySha512::TYPE
    }

    fn length(&self) -> u16 {
        self.hmac().len() as u16
    }
}

impl AttributeWrite for MessageIntegritySha512 {
    ghost use Rattle.std.specs.Prelude.{false};

    ghost giving_takes_memory = { false };

    fn write_into_unchecked(&self, dest: &mut [u8]) {
        write_attribute(MessageIntegritySha512::TYPE, self.hmac(), dest);
    }

    fn to_raw(&self, _alloc: Global) -> Result<RawAttribute<'_>, NoMemory> {
        Ok(RawAttribute::new(MessageIntegritySha512::TYPE, self.hmac()))
    }
}

/// Decodes the bytes of an HMAC, which may be truncated.
///
/// # Errors
///
/// 1. `WrongAttributeImplementation`: the attribute has another type.
/// 2. `Truncated`: the value has fewer than 16 bytes.
/// 3. `TooLarge`: the value has more than 64 bytes.
/// 4. `InvalidAttributeData`: the value's length is not a multiple of four.
impl<'a, 'raw> TryFrom<&'raw RawAttribute<'a>> for MessageIntegritySha512 {
    ghost use Rattle.std.specs.Prelude.{◌≡◌, MatchResult, Some, None};
    ghost use Rattle.stun_types_write.specs.ValueReading.{IsNamed};
    ghost use Rattle.stun_types_integrity.specs.TruncatedHmacs.{sha512_read_refusal};

    type Error = StunParseError;

    ghost try_from_gives = { λ raw result. MatchResult result
        (λ read. (sha512_read_refusal raw.now ≡ None) × (raw.now.kind ≡ sha512_kind)
        × (read ≡ raw.now.value)) (IsNamed (sha512_read_refusal raw.now)) };

    fn try_from(raw: &'raw RawAttribute<'a>) -> Result<MessageIntegritySha512, StunParseError> {
        let value = truncated_to(raw, MessageIntegritySha512::TYPE, LEAST, WHOLE)?;
        Ok(of_lawful(value))
    }
}

/// Fails as `try_from` does. It allocates no memory.
impl<'a> AttributeFromRaw<'a> for MessageIntegritySha512 {
    ghost use Rattle.std.specs.Prelude.{false};
    ghost use Rattle.stun_types_integrity.specs.TruncatedHmacs.{sha512_read_refusal};

    ghost read_refusal = { sha512_read_refusal };

    ghost read_value = { λ value. value };

    ghost reading_takes_memory = { false };

    fn from_raw_ref(
        _alloc: Global,
        raw: &RawAttribute<'_>,
    ) -> Result<MessageIntegritySha512, StunParseError> {
        MessageIntegritySha512::try_from(raw)
    }

    fn from_raw(
        alloc: Global,
        raw: RawAttribute<'a>,
    ) -> Result<MessageIntegritySha512, StunParseError> {
        MessageIntegritySha512::from_raw_ref(alloc, &raw)
    }

    #[tactic(auto, using(crate::proofs::TruncatedHmacs::lawful_is_accepted))]
    fn proof_is_read_back(&self, _read: &MessageIntegritySha512) {
        let _ = self.hmac();
    }
}

/// Creates the attribute from bytes, whose number has to be an allowed length.
fn of_lawful(bytes: &[u8]) -> MessageIntegritySha512
    requires { IsTrue (is_lawful Sha512 (length bytes.now)) }
    ensures { result ≡ bytes.now }
{
    let mut hmac = [0; 64];
    let len = bytes.len();
    hmac[..len].copy_from_slice(bytes);
    MessageIntegritySha512 { hmac, len }
}

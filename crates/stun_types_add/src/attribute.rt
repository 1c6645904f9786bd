//! FINGERPRINT (RFC 8489, section 14.7).

ghost use Rattle.std.specs.Prelude.{◌≡◌, ◌≤◌, None, length, bit_xor, bytes_eq, MatchResult};
ghost use Rattle.stun_types_integrity.specs.Write.ValueReading.{IsNamed};
ghost use Rattle.byteorder.specs.Endian.{big_bytes, big_number};
ghost use Rattle.stun_types_integrity.specs.Wire.Covered.{with_length};
ghost use Rattle.stun_types_integrity.specs.Wire.Fingerprints.{fingerprint_value};
ghost use Rattle.stun_types_integrity.specs.Wire.Registry.{fingerprint_mask, fingerprint_kind};
ghost use Rattle.stun_types_integrity.specs.Wire.Registry.{header_size};
ghost use Rattle.stun_types_add.specs.FingerprintValues.{crc_bytes, turned_bytes};
ghost use Rattle.stun_types_integrity.specs.Write.ValueReading.{value_refusal};

use crate::stun_types_base::memory::NoMemory;
use crate::stun_types_digest::crc::Crc32;
use crate::stun_types_wire::attribute::{AttributeType, RawAttribute};
use crate::stun_types_wire::error::StunParseError;
use crate::stun_types_wire::registry;
use crate::stun_types_write::attribute::{
    Attribute, AttributeFromRaw, AttributeStaticType, AttributeWrite,
};
use crate::stun_types_write::reading::value_of;
use crate::stun_types_write::text::{head_decoded, write_attribute};
use byteorder::{BigEndian, ByteOrder};
use std::alloc::Global;
use std::convert::TryFrom;
use std::marker::Model;

/// The FINGERPRINT of a message: the CRC-32 of the bytes before the attribute, with the header's
/// length field counting through the attribute (RFC 8489, section 14.7). Contracts see the CRC-32
/// as a 32-bit number.
#[derive(Debug, Drop)]
pub struct Fingerprint {
    crc: u32,
}

impl Model for Fingerprint {
    ghost use Rattle.std.specs.Prelude.{ℕ};

    ghost Value = { ℕ };

    ghost view = { λ a. a.crc };
}

impl Fingerprint {
    /// Creates the FINGERPRINT of a CRC-32 in big-endian order, as `compute` returns it.
    pub fn new(fingerprint: [u8; 4]) -> Fingerprint
        ensures { result ≡ big_number 4 fingerprint }
    {
        Fingerprint {
            crc: BigEndian::read_u32(&fingerprint),
        }
    }

    /// Returns the CRC-32 in big-endian order, as `compute` returns it.
    #[tactic(auto, using(crate::proofs::Turned::number_again))]
    pub fn fingerprint(&self) -> [u8; 4]
        ensures bytes { result ≡ big_bytes 4 self.now }
        ensures number { big_number 4 result ≡ self.now }
    {
        self.crc().to_be_bytes()
    }

    /// Returns the attribute's value in a message: the CRC-32 XOR 0x5354554E, in big-endian order.
    pub fn value(&self) -> [u8; 4]
        ensures { result ≡ turned_bytes self.now }
    {
        (self.crc() ^ registry::FINGERPRINT_MASK).to_be_bytes()
    }

    /// Returns whether four bytes are the attribute value of this FINGERPRINT.
    #[tactic(auto, using(crate::proofs::Turned::same_by_number))]
    pub fn has_value(&self, value: &[u8]) -> bool
        requires { length value.now ≡ 4 }
        ensures { result ≡ bytes_eq value.now (turned_bytes self.now) }
    {
        turned_number(value) == self.crc()
    }

    /// The CRC-32 as a number.
    fn crc(&self) -> u32
        ensures { result ≡ self.now }
    {
        self.crc
    }

    /// Returns the CRC-32 of a text in big-endian order. `new` of the result is the text's
    /// FINGERPRINT.
    #[tactic(auto, unfolding(crate::proofs::Turned::value_bytes))]
    pub fn compute(text: &[u8]) -> [u8; 4]
        ensures bytes { result ≡ crc_bytes text.now }
        ensures value { turned_bytes (big_number 4 result) ≡ fingerprint_value text.now }
    {
        bytes_of_crc(Crc32::checksum(text))
    }

    /// Returns the FINGERPRINT of a message as if its header's length field were `len` (RFC 8489,
    /// section 14.7).
    pub fn of_message(bytes: &[u8], len: u16) -> Fingerprint
        requires { header_size ≤ length bytes.now }
        ensures { turned_bytes result ≡ fingerprint_value (with_length bytes.now len) }
    {
        let (_, tail) = bytes.split_at(4);
        Fingerprint {
            crc: Crc32::of_chunks(head_decoded(bytes, len), tail),
        }
    }
}

impl AttributeStaticType for Fingerprint {
    ghost TYPE = { record { 0 = fingerprint_kind } };

    const TYPE: AttributeType = registry::FINGERPRINT;
}

impl Attribute for Fingerprint {
    ghost use Rattle.stun_types_add.specs.FingerprintValues.{turned_bytes};

    ghost kind = { λ _. fingerprint_kind };

    ghost value = { turned_bytes };

    fn get_type(&self) -> AttributeType {
        Fingerprint::TYPE
    }

    fn length(&self) -> u16 {
        4
    }
}

impl AttributeWrite for Fingerprint {
    fn write_into_unchecked(&self, dest: &mut [u8]) {
        write_attribute(Fingerprint::TYPE, &self.value(), dest);
    }

    fn to_raw(&self, alloc: Global) -> Result<RawAttribute<'_>, NoMemory> {
        let value = Vec::from_slice(alloc, &self.value())?;
        Ok(RawAttribute::new_owned(Fingerprint::TYPE, value.into_boxed_slice()))
    }
}

/// Decodes the CRC-32: the four bytes of the value as a big-endian number, XOR 0x5354554E.
///
/// # Errors
///
/// 1. `WrongAttributeImplementation`: the attribute has another type.
/// 2. `Truncated`: the value has fewer than four bytes.
/// 3. `TooLarge`: the value has more than four bytes.
impl<'a, 'raw> TryFrom<&'raw RawAttribute<'a>> for Fingerprint {
    ghost use Rattle.std.specs.Prelude.{◌≡◌, MatchResult, Some, None, bit_xor};
    ghost use Rattle.stun_types_integrity.specs.Write.ValueReading.{IsNamed};
    ghost use Rattle.byteorder.specs.Endian.{big_number};
    ghost use Rattle.stun_types_integrity.specs.Write.ValueReading.{value_refusal};
    ghost use Rattle.stun_types_add.specs.FingerprintValues.{turned_bytes};

    type Error = StunParseError;

    ghost try_from_gives = { λ raw result. MatchResult result
        (λ read. (value_refusal fingerprint_kind 4 4 raw.now ≡ None)
        × (read ≡ bit_xor (big_number 4 raw.now.value) fingerprint_mask)
        × (turned_bytes read ≡ raw.now.value)) (IsNamed
        (value_refusal fingerprint_kind 4 4 raw.now)) };

    fn try_from(raw: &'raw RawAttribute<'a>) -> Result<Fingerprint, StunParseError> {
        let crc = crc_of(raw)?;
        Ok(Fingerprint { crc })
    }
}

/// Fails as `try_from` does. It allocates no memory.
impl<'a> AttributeFromRaw<'a> for Fingerprint {
    ghost use Rattle.std.specs.Prelude.{false};
    ghost use Rattle.stun_types_integrity.specs.Write.ValueReading.{value_refusal};

    ghost read_refusal = { value_refusal fingerprint_kind 4 4 };

    ghost read_value = { λ value. value };

    ghost reading_takes_memory = { false };

    fn from_raw_ref(_alloc: Global, raw: &RawAttribute<'_>) -> Result<Fingerprint, StunParseError> {
        let crc = crc_of(raw)?;
        Ok(Fingerprint { crc })
    }

    fn from_raw(alloc: Global, raw: RawAttribute<'a>) -> Result<Fingerprint, StunParseError> {
        Fingerprint::from_raw_ref(alloc, &raw)
    }

    #[tactic(auto, using(crate::proofs::Turned::numbers))]
    fn proof_is_read_back(&self, read: &Fingerprint) {
        let _ = (self.crc(), read.crc());
    }
}

/// Returns a CRC-32 as four bytes in big-endian order.
#[tactic(auto, using(crate::proofs::Turned::number_again))]
fn bytes_of_crc(crc: u32) -> [u8; 4]
    ensures bytes { result ≡ big_bytes 4 crc }
    ensures turned { turned_bytes (big_number 4 result) ≡ turned_bytes crc }
{
    crc.to_be_bytes()
}

/// Decodes the CRC-32 from the value of a FINGERPRINT. Fails as `try_from` does.
fn crc_of(raw: &RawAttribute<'_>) -> Result<u32, StunParseError>
    ensures { MatchResult result (λ crc. (value_refusal fingerprint_kind 4 4 raw.now ≡ None)
        × (raw.now.kind ≡ fingerprint_kind) × (crc
        ≡ bit_xor (big_number 4 raw.now.value) fingerprint_mask)
        × (turned_bytes crc ≡ raw.now.value)) (IsNamed
        (value_refusal fingerprint_kind 4 4 raw.now)) }
{
    let value = value_of(raw, Fingerprint::TYPE, 4, 4)?;
    Ok(turned_number(value))
}

/// Returns the big-endian number in four bytes, XOR 0x5354554E.
#[tactic(auto, using(crate::proofs::Turned::bytes_again, crate::proofs::Turned::turned_again))]
fn turned_number(value: &[u8]) -> u32
    requires { length value.now ≡ 4 }
    ensures decoded { result ≡ bit_xor (big_number 4 value.now) fingerprint_mask }
    ensures again { turned_bytes result ≡ value.now }
{
    BigEndian::read_u32(value) ^ registry::FINGERPRINT_MASK
}

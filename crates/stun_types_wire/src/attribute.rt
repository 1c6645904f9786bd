//! Attributes as encoded on the wire: a type, and a value of bytes (RFC 8489, section 14).

ghost use Rattle.std.specs.Prelude.{◌≡◌, ◌+◌, ◌<◌, ◌^◌, ◌++◌, length, IfOk, MatchResult, None};
ghost use Rattle.std.specs.Prelude.{Some, nat_lt};
ghost use Rattle.std.specs.Box.{boxed_slice_items};
ghost use Rattle.byteorder.specs.Endian.{big_bytes};
ghost use Rattle.stun_types_wire.specs.Attributes.{IsPadded, padded, attr_at};
ghost use Rattle.stun_types_wire.specs.RawBytes.{attribute_refusal, attribute_header_refusal};
ghost use Rattle.stun_types_wire.specs.RawBytes.{type_and_len_refusal, below_refusal};
ghost use Rattle.stun_types_wire.specs.RawBytes.{above_refusal};
ghost use Rattle.stun_types_wire.specs.Text.{attribute_text};
ghost use Rattle.stun_types_wire.specs.Registry.{first_optional_kind};

use crate::error::StunParseError;
use crate::registry::FIRST_OPTIONAL_TYPE;
use byteorder::{BigEndian, ByteOrder};
use std::alloc::Global;
use std::boxed::BoxedSlice;
use std::convert::TryFrom;
use std::marker::Model;
use std::ops::Bound;
use stun_types_base::data::Data;
use stun_types_base::memory::NoMemory;

/// An attribute type. The field is public so that constants can be written as literals.
#[derive(Clone, Copy, Debug, PartialEq, Eq)]
pub struct AttributeType(pub u16);

impl AttributeType {
    /// Makes an attribute type of its number.
    pub fn new(value: u16) -> AttributeType
        ensures { result.0 ≡ value }
    {
        AttributeType(value)
    }

    /// Returns the number of the type.
    pub fn value(self) -> u16
        ensures { result ≡ self.0 }
    {
        self.0
    }

    /// Returns whether the attribute is comprehension-required: a receiver has to understand it
    /// (RFC 8489, section 14).
    pub fn comprehension_required(self) -> bool
        ensures { result ≡ nat_lt self.0 first_optional_kind }
    {
        self.0 < FIRST_OPTIONAL_TYPE
    }
}

impl From<u16> for AttributeType {
    ghost from_gives = { λ n kind. kind.0 ≡ n };

    fn from(value: u16) -> AttributeType {
        AttributeType(value)
    }
}

impl From<AttributeType> for u16 {
    ghost from_gives = { λ kind n. n ≡ kind.0 };

    fn from(value: AttributeType) -> u16 {
        value.0
    }
}

/// Rounds a length in bytes up to a multiple of four.
pub fn pad_attribute_len(len: usize) -> usize
    requires { len + 3 < 2 ^ 64 }
    ensures value { result ≡ padded len }
    ensures least { IsPadded len result }
{
    (len + 3) / 4 * 4
}

/// The four bytes before a value: the type, and the length of the value without its padding.
#[derive(Clone, Copy, Debug, PartialEq, Eq)]
pub struct AttributeHeader {
    atype: AttributeType,
    length: u16,
}

impl Model for AttributeHeader {
    ghost use Rattle.stun_types_wire.specs.Attributes.{AttrHeader};

    ghost Value = { AttrHeader };

    ghost view = { λ header. record { kind = header.atype.0; len = header.length } };

    ghost inverse = { λ decoded. record {
      atype = record { 0 = decoded.kind };
      length = decoded.len;
    } };
}

impl AttributeHeader {
    /// Returns the type of the attribute.
    pub fn get_type(self) -> AttributeType
        ensures { result.0 ≡ self.kind }
    {
        self.atype
    }

    /// Returns the length of the value in bytes.
    pub fn length(self) -> u16
        ensures { result ≡ self.len }
    {
        self.length
    }
}

/// Decodes the header from the first four bytes. Fails with `Truncated` if there are fewer.
impl<'a> TryFrom<&'a [u8]> for AttributeHeader {
    ghost use Rattle.std.specs.Prelude.{◌≡◌, MatchResult, Some, None};
    ghost use Rattle.stun_types_wire.specs.Attributes.{attr_header_at};
    ghost use Rattle.stun_types_wire.specs.RawBytes.{attribute_header_refusal};

    type Error = StunParseError;

    ghost try_from_gives = { λ bytes result. MatchResult result
        (λ header. (attribute_header_refusal bytes.now ≡ None)
        × (header ≡ attr_header_at bytes.now)) (λ error. attribute_header_refusal bytes.now
        ≡ Some error) };

    fn try_from(value: &'a [u8]) -> Result<AttributeHeader, StunParseError> {
        if value.len() < 4 {
            return Err(StunParseError::Truncated {
                expected: 4,
                actual: value.len(),
            });
        }
        let (_, after_type) = value.split_at(2);
        Ok(AttributeHeader {
            atype: AttributeType(BigEndian::read_u16(value)),
            length: BigEndian::read_u16(after_type),
        })
    }
}

/// Encodes the header in four bytes, the type first.
impl From<AttributeHeader> for [u8; 4] {
    ghost use Rattle.std.specs.Prelude.{◌≡◌, ◌++◌};
    ghost use Rattle.byteorder.specs.Endian.{big_bytes};

    ghost from_gives = { λ header bytes. bytes ≡ big_bytes 2 header.kind
        ++ big_bytes 2 header.len };

    fn from(value: AttributeHeader) -> [u8; 4] {
        let [k0, k1] = value.atype.0.to_be_bytes();
        let [l0, l1] = value.length.to_be_bytes();
        [k0, k1, l0, l1]
    }
}

/// An attribute as encoded on the wire: a type, and a value of at most 65,535 bytes. The value is
/// borrowed or owned.
#[derive(Debug, Drop)]
pub struct RawAttribute<'a> {
    atype: AttributeType,
    value: Data<'a>,
}

impl<'a> Model for RawAttribute<'a> {
    ghost use Rattle.stun_types_wire.specs.Attributes.{Attr};

    ghost Value = { Attr };

    ghost use Rattle.std.specs.Prelude.{length, ◌<◌, ◌^◌};
    ghost use Rattle.stun_types_base.specs.Data.{data_bytes};

    ghost view = { λ raw. record { kind = raw.atype.0; value = data_bytes raw.value } };

    ghost invariant = { λ raw. length (data_bytes raw.value) < 2 ^ 16 };
}

impl<'a> RawAttribute<'a> {
    /// Makes an attribute of a borrowed value of at most 65,535 bytes.
    pub fn new(atype: AttributeType, value: &'a [u8]) -> RawAttribute<'a>
        requires { length value.now < 2 ^ 16 }
        ensures kind { result.kind ≡ atype.0 }
        ensures value { result.value ≡ value.now }
    {
        RawAttribute {
            atype,
            value: Data::from(value),
        }
    }

    /// Makes an attribute of an owned value of at most 65,535 bytes.
    pub fn new_owned(atype: AttributeType, value: BoxedSlice<u8>) -> RawAttribute<'a>
        requires { length (boxed_slice_items value) < 2 ^ 16 }
        ensures kind { result.kind ≡ atype.0 }
        ensures value { result.value ≡ boxed_slice_items value }
    {
        RawAttribute {
            atype,
            value: Data::from(value),
        }
    }

    /// Decodes the attribute that begins at the first byte. The bytes after its value, padding
    /// included, are ignored.
    ///
    /// Fails with `Truncated` if there are fewer than four bytes, or fewer than four plus the
    /// length of the value.
    #[tactic(auto, unfolding(crate::specs::RawBytes::attribute_refusal))]
    pub fn from_bytes(bytes: &'a [u8]) -> Result<RawAttribute<'a>, StunParseError>
        ensures { MatchResult result (λ raw. (attribute_refusal bytes.now ≡ None)
            × (raw ≡ attr_at bytes.now)) (λ error. attribute_refusal bytes.now ≡ Some error) }
    {
        let header = AttributeHeader::try_from(bytes)?;
        let length = header.length() as usize;
        let (_, after_header) = bytes.split_at(4);
        if after_header.len() < length {
            return Err(StunParseError::Truncated {
                expected: 4 + length,
                actual: bytes.len(),
            });
        }
        let (value, _) = after_header.split_at(length);
        Ok(RawAttribute::new(header.get_type(), value))
    }

    /// Returns the type.
    pub fn get_type(&self) -> AttributeType
        ensures { result.0 ≡ self.now.kind }
    {
        self.atype
    }

    /// Returns the bytes of the value.
    pub fn value(&self) -> &[u8]
        ensures value { result.now ≡ self.now.value }
        ensures short { length result.now < 2 ^ 16 }
    {
        self.value.as_slice()
    }

    /// Returns the length of the value in bytes, without padding.
    pub fn length(&self) -> u16
        ensures { result ≡ length self.now.value }
    {
        self.value.as_slice().len() as u16
    }

    /// Encodes the attribute: type, length, value, and zeros up to a multiple of four bytes. Fails
    /// only with `NoMemory`, if an allocation fails.
    #[tactic(auto, unfolding(crate::specs::Text::attribute_text, crate::specs::Text::padded_text))]
    pub fn to_bytes(&self, alloc: Global) -> Result<Vec<u8>, NoMemory>
        ensures { IfOk result (λ bytes. bytes.items ≡ attribute_text self.now) }
    {
        let value = self.value.as_slice();
        let end = 4 + pad_attribute_len(value.len());
        let header = AttributeHeader {
            atype: self.atype,
            length: value.len() as u16,
        };
        let mut bytes = Vec::with_capacity(alloc, end)?;
        bytes.extend_from_slice(&<[u8; 4]>::from(header))?;
        bytes.extend_from_slice(value)?;
        bytes.resize(end, 0)?;
        Ok(bytes)
    }

    /// Checks that the attribute has this type and that the length of its value is within two
    /// bounds.
    ///
    /// # Errors
    ///
    /// In this order:
    ///
    /// - `WrongAttributeImplementation`: the type is another one.
    /// - `Truncated`, with the least permitted length: the value is shorter.
    /// - `TooLarge`, with the greatest permitted length: the value is longer.
    #[tactic(auto, unfolding(crate::specs::RawBytes::type_and_len_refusal))]
    pub fn check_type_and_len(
        &self,
        atype: AttributeType,
        least: Bound<usize>,
        most: Bound<usize>,
    ) -> Result<(), StunParseError>
        ensures { MatchResult result (λ _. type_and_len_refusal atype.0 least most self.now ≡ None)
            (λ error. type_and_len_refusal atype.0 least most self.now ≡ Some error) }
    {
        if self.atype != atype {
            return Err(StunParseError::WrongAttributeImplementation);
        }
        let len = self.value.as_slice().len();
        check_least(len, least)?;
        check_most(len, most)
    }

    /// Returns the same attribute with an owned value. Fails only with `NoMemory`, if an allocation
    /// fails.
    pub fn into_owned<'b>(self, alloc: Global) -> Result<RawAttribute<'b>, NoMemory>
        ensures { IfOk result (λ owned. owned ≡ self.entry) }
    {
        let RawAttribute { atype, value } = self;
        let value = value.into_owned(alloc)?;
        Ok(RawAttribute { atype, value })
    }
}

/// Fails with `Truncated` if a length is below the lower bound.
fn check_least(len: usize, least: Bound<usize>) -> Result<(), StunParseError>
    ensures { MatchResult result (λ _. below_refusal least len ≡ None)
        (λ error. below_refusal least len ≡ Some error) }
{
    match least {
        Bound::Included(least) if len < least => Err(StunParseError::Truncated {
            expected: least,
            actual: len,
        }),
        Bound::Excluded(below) if len <= below => Err(StunParseError::Truncated {
            expected: below.saturating_add(1),
            actual: len,
        }),
        _ => Ok(()),
    }
}

/// Fails with `TooLarge` if a length is above the upper bound.
fn check_most(len: usize, most: Bound<usize>) -> Result<(), StunParseError>
    ensures { MatchResult result (λ _. above_refusal most len ≡ None)
        (λ error. above_refusal most len ≡ Some error) }
{
    match most {
        Bound::Included(most) if most < len => Err(StunParseError::TooLarge {
            expected: most,
            actual: len,
        }),
        Bound::Excluded(above) if above <= len => Err(StunParseError::TooLarge {
            expected: above.saturating_sub(1),
            actual: len,
        }),
        _ => Ok(()),
    }
}

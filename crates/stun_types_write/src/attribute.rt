//! What can be added to a message: anything that has an attribute type and a value.

ghost use Rattle.std.specs.Prelude.{◌≡◌, ◌≢◌, ◌+◌, ◌<◌, ◌≤◌, ◌^◌, ◌++◌, ◌||◌, length, drop, true};
ghost use Rattle.std.specs.Prelude.{Bool, ℕ, List, Option, None, Some, IfOk, OnOk, IfErr, OnErr};
ghost use Rattle.std.specs.Prelude.{IsTrue};
ghost use Rattle.byteorder.specs.Endian.{big_bytes};
ghost use Rattle.stun_types_wire.specs.declared.attribute.AttributeType.{AttributeType};
ghost use Rattle.stun_types_wire.specs.declared.error.StunWriteError.TheVariants.{TooSmall};
ghost use Rattle.stun_types_wire.specs.declared.error.StunParseError.{StunParseError as ParseError};
ghost use Rattle.stun_types_wire.specs.Attributes.{Attr, padded};
ghost use Rattle.stun_types_wire.specs.Text.{attribute_text};
ghost use Rattle.stun_types_write.specs.Adding.{attr_of};
ghost use Rattle.stun_types_wire.specs.Base.Refusals.{RefusesFor};

use crate::stun_types_base::memory::NoMemory;
use crate::text::{write_attribute, write_attribute_header};
use std::alloc::Global;
use std::fmt::Debug;
use stun_types_wire::attribute::{AttributeType as Kind, RawAttribute, pad_attribute_len};
use stun_types_wire::error::{StunParseError, StunWriteError};

/// An attribute whose type is known without a value of it.
pub trait AttributeStaticType {
    ghost TYPE: { AttributeType };

    /// The attribute type of all values.
    const TYPE: Kind;
}

/// An attribute type and a value. Contracts know an attribute by these two alone.
pub trait Attribute: Debug + Sync + Send {
    // The number of the type.
    ghost kind: { Self → ℕ };

    // The bytes of the value.
    ghost value: { Self → List ℕ };

    /// Returns the type.
    fn get_type(&self) -> Kind
        ensures { result.0 ≡ kind self.now };

    /// Returns the length of the value in bytes, without padding.
    fn length(&self) -> u16
        ensures length { result ≡ length (value self.now) }
        ensures short { length (value self.now) < 2 ^ 16 };

    /// Returns the encoded length in bytes, header and padding included.
    fn padded_len(&self) -> usize
        ensures size { result ≡ 4 + padded (length (value self.now)) }
        ensures short { length (value self.now) < 2 ^ 16 }
    {
        4 + pad_attribute_len(self.length() as usize)
    }
}

/// An attribute that can be encoded.
pub trait AttributeWrite: Attribute {
    // Whether `to_raw` allocates. It does unless the attribute stores the bytes of its value.
    ghost giving_takes_memory: { Bool } = { true };

    /// Writes header, value and padding to the first bytes of `dest`, which must have room for
    /// them.
    fn write_into_unchecked(&self, dest: &mut [u8])
        requires { 4 + padded (length (Self.value self.now)) ≤ length dest.old }
        ensures { dest.new ≡ attribute_text (attr_of (Self.kind self.now) (Self.value self.now))
            ++ drop (4 + padded (length (Self.value self.now))) dest.old };

    /// Returns the attribute as a type and bytes. Fails only with `NoMemory`, if an allocation
    /// fails. An attribute that stores the bytes of its value allocates nothing.
    fn to_raw(&self, alloc: Global) -> Result<RawAttribute<'_>, NoMemory>
        ensures ok { IfOk result (λ raw. raw ≡ attr_of (Self.kind self.now) (Self.value self.now)) }
        ensures memory { OnErr result (IsTrue giving_takes_memory) };

    /// Writes type and length to the first four bytes of `dest`, which must have at least four.
    /// Returns 4.
    fn write_header_unchecked(&self, dest: &mut [u8]) -> usize
        requires { 4 ≤ length dest.old }
        ensures count { result ≡ 4 }
        ensures bytes { dest.new ≡ big_bytes 2 (Self.kind self.now)
            ++ big_bytes 2 (length (Self.value self.now)) ++ drop 4 dest.old }
    {
        write_attribute_header(self.get_type(), self.length(), dest);
        4
    }

    /// Writes type and length to the first four bytes of `dest`, and returns 4. Fails with
    /// `TooSmall` if `dest` has fewer than four bytes; nothing is written then.
    fn write_header(&self, dest: &mut [u8]) -> Result<usize, StunWriteError>
        ensures count { IfOk result (λ n. (n ≡ 4) × (4 ≤ length dest.old)) }
        ensures bytes { OnOk result (dest.new ≡ big_bytes 2 (Self.kind self.now)
            ++ big_bytes 2 (length (Self.value self.now)) ++ drop 4 dest.old) }
        ensures refused { IfErr result (λ error. (error ≡ TooSmall 4 (length dest.old))
            × (length dest.old < 4) × (dest.new ≡ dest.old)) }
    {
        if dest.len() < 4 {
            return Err(StunWriteError::TooSmall {
                expected: 4,
                actual: dest.len(),
            });
        }
        Ok(self.write_header_unchecked(dest))
    }

    /// Writes header, value and padding to the first bytes of `dest`, and returns how many bytes
    /// these are. Fails with `TooSmall` if `dest` has fewer; nothing is written then.
    fn write_into(&self, dest: &mut [u8]) -> Result<usize, StunWriteError>
        ensures count { IfOk result (λ n. (n ≡ 4 + padded (length (Self.value self.now)))
            × (n ≤ length dest.old)) }
        ensures bytes { OnOk result (dest.new
            ≡ attribute_text (attr_of (Self.kind self.now) (Self.value self.now))
            ++ drop (4 + padded (length (Self.value self.now))) dest.old) }
        ensures refused { IfErr result (λ error.
            (error ≡ TooSmall (4 + padded (length (Self.value self.now))) (length dest.old))
            × (length dest.old < 4 + padded (length (Self.value self.now)))
            × (dest.new ≡ dest.old)) }
    {
        let size = self.padded_len();
        if dest.len() < size {
            return Err(StunWriteError::TooSmall {
                expected: size,
                actual: dest.len(),
            });
        }
        self.write_into_unchecked(dest);
        Ok(size)
    }
}

/// An attribute that can be decoded from a type and a value.
pub trait AttributeFromRaw<'a>: Attribute {
    // The first reason why a type and a value are not this attribute.
    ghost read_refusal: { Attr → Option ParseError };

    // A value as this attribute encodes it again: bytes that decoding ignores are zero.
    ghost read_value: { List ℕ → List ℕ };

    // The reason why the encoding of an attribute isn't decoded. By default there is none. There is
    // one for an attribute that can be made but not decoded.
    ghost written_refusal: { Self → Option ParseError } = { λ _. None };

    // Whether decoding this attribute allocates. It does for a text or a list.
    ghost reading_takes_memory: { Bool } = { true };

    /// Decodes the attribute from a type and a value.
    ///
    /// # Errors
    ///
    /// In this order:
    ///
    /// - `WrongAttributeImplementation`: the type is another one.
    /// - `Truncated`: the value is too short.
    /// - `TooLarge`: the value is too long.
    /// - `InvalidAttributeData`: the value is not valid for this type.
    /// - `NoMemory`: an allocation failed. Only a text or a list needs one; an attribute that
    ///   stores a short value itself does not.
    fn from_raw_ref(alloc: Global, raw: &RawAttribute<'_>) -> Result<Self, StunParseError>
        ensures ok { IfOk result (λ read. (Self.kind read ≡ raw.now.kind)
            × (Self.value read ≡ read_value raw.now.value)) }
        ensures cause { RefusesFor StunParseError.NoMemory (read_refusal raw.now) result }
        ensures memory { IfErr result (λ error. error ≡ StunParseError.NoMemory
            → IsTrue reading_takes_memory) };

    /// Decodes the attribute as `from_raw_ref` does, and consumes the type and value.
    fn from_raw(alloc: Global, raw: RawAttribute<'a>) -> Result<Self, StunParseError>
        ensures ok { IfOk result (λ read. (Self.kind read ≡ raw.entry.kind)
            × (Self.value read ≡ read_value raw.entry.value)) }
        ensures cause { RefusesFor StunParseError.NoMemory (read_refusal raw.entry) result }
        ensures memory { IfErr result (λ error. error ≡ StunParseError.NoMemory
            → IsTrue reading_takes_memory) };

    /// Proof only. Decoding what this attribute encodes fails as `written_refusal` says. The value
    /// is encoded again unchanged, and an attribute with an equal value is equal to this one.
    fn proof_is_read_back(&self, read: &Self)
        ensures accepted { read_refusal (attr_of (Self.kind self.now) (Self.value self.now))
            ≡ written_refusal self.now }
        ensures stored { read_value (Self.value self.now) ≡ Self.value self.now }
        ensures same { Self.value read.now ≡ Self.value self.now → read.now ≡ self.now };
}

/// Encodes an attribute and decodes it again. The result is the same attribute.
///
/// # Errors
///
/// - The error of `written_refusal`, for an attribute that can be made but not decoded.
/// - `NoMemory`: an allocation failed. There is one only if `to_raw` or `from_raw_ref` allocates.
pub fn written_and_read<'a, A: AttributeWrite + AttributeFromRaw<'a>>(
    alloc: Global,
    attribute: &A,
) -> Result<A, StunParseError>
    ensures ok { IfOk result (λ read. (read ≡ attribute.now)
        × (A.written_refusal attribute.now ≡ None)) }
    ensures refused { IfErr result (λ error. error ≢ StunParseError.NoMemory
        → A.written_refusal attribute.now ≡ Some error) }
    ensures memory { IfErr result (λ error. error ≡ StunParseError.NoMemory
        → IsTrue (A.giving_takes_memory || A.reading_takes_memory)) }
{
    attribute.proof_is_read_back(attribute);
    let raw = attribute.to_raw(alloc)?;
    let read = A::from_raw_ref(alloc, &raw)?;
    attribute.proof_is_read_back(&read);
    Ok(read)
}

impl<'a> Attribute for RawAttribute<'a> {
    ghost kind = { λ raw. raw.kind };

    ghost value = { λ raw. raw.value };

    fn get_type(&self) -> Kind {
        RawAttribute::get_type(self)
    }

    fn length(&self) -> u16 {
        RawAttribute::length(self)
    }
}

impl<'a> AttributeWrite for RawAttribute<'a> {
    ghost use Rattle.std.specs.Prelude.{false};

    ghost giving_takes_memory = { false };

    fn write_into_unchecked(&self, dest: &mut [u8]) {
        write_attribute(RawAttribute::get_type(self), self.value(), dest);
    }

    fn to_raw(&self, _alloc: Global) -> Result<RawAttribute<'_>, NoMemory> {
        Ok(RawAttribute::new(RawAttribute::get_type(self), self.value()))
    }
}

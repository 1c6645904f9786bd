//! Methods, classes and message types (RFC 8489, section 5).

ghost use Rattle.std.specs.Prelude.{◌≡◌, ◌<◌, ◌≤◌, ◌^◌, ◌++◌, IsTrue, ◌↔◌, length, drop};
ghost use Rattle.std.specs.Prelude.{MatchResult, Some, None, IfOk};
ghost use Rattle.byteorder.specs.Endian.{big_bytes, big_number};
ghost use Rattle.stun_types_wire.specs.Types.{type_of, class_of, method_of, is_response_class};
ghost use Rattle.stun_types_wire.specs.Types.{low_class_bit, high_class_bit};
ghost use Rattle.stun_types_wire.specs.TypeBytes.{type_refusal};

use crate::error::StunParseError;
use byteorder::{BigEndian, ByteOrder};
use std::alloc::Global;
use std::convert::TryFrom;
use std::marker::Model;
use stun_types_base::memory::NoMemory;

/// A method: the operation that a message is about, such as BINDING. It has twelve bits on the
/// wire. The field is public so that constants can be written as literals.
#[derive(Clone, Copy, Debug, PartialEq, Eq)]
pub struct Method(pub u16);

impl Method {
    /// Makes a method of its number.
    pub fn new(value: u16) -> Method
        ensures { result.0 ≡ value }
    {
        Method(value)
    }

    /// Returns the number of the method.
    pub fn value(self) -> u16
        ensures { result ≡ self.0 }
    {
        self.0
    }
}

/// The role of a message in an exchange.
#[derive(Clone, Copy, Debug, PartialEq, Eq)]
pub enum MessageClass {
    /// Requests a response.
    Request,
    /// Requests no response.
    Indication,
    /// Responds to a request that the server granted.
    Success,
    /// Responds to a request that the server rejected.
    Error,
}

impl MessageClass {
    /// Returns whether messages of this class are responses.
    pub fn is_response(self) -> bool
        ensures { result ≡ is_response_class self }
    {
        match self {
            MessageClass::Success | MessageClass::Error => true,
            MessageClass::Request | MessageClass::Indication => false,
        }
    }

    fn low_bit(self) -> u16
        ensures { result ≡ low_class_bit self }
    {
        match self {
            MessageClass::Request | MessageClass::Success => 0,
            MessageClass::Indication | MessageClass::Error => 1,
        }
    }

    fn high_bit(self) -> u16
        ensures { result ≡ high_class_bit self }
    {
        if self.is_response() { 1 } else { 0 }
    }
}

/// A message type: a class and a method, in fourteen bits. Contracts see it as the number that the
/// header encodes.
#[derive(Clone, Copy, Debug, PartialEq, Eq)]
pub struct MessageType {
    value: u16,
}

impl Model for MessageType {
    ghost use Rattle.std.specs.Prelude.{ℕ, ◌<◌, ◌^◌};

    ghost Value = { ℕ };

    ghost view = { λ kind. kind.value };

    ghost invariant = { λ kind. kind.value < 2 ^ 14 };

    ghost inverse = { λ n. record { value = n } };
}

impl MessageType {
    /// Makes the message type of a class and a method. The method must be below 2^12.
    pub fn from_class_method(class: MessageClass, method: Method) -> MessageType
        requires { method.0 < 2 ^ 12 }
        ensures value { result ≡ type_of class method.0 }
        ensures class { class_of result ≡ class }
        ensures method { method_of result ≡ method.0 }
    {
        let Method(bits) = method;
        let class_bits = 0x10 * class.low_bit() + 0x100 * class.high_bit();
        let value = bits % 16 + bits / 16 % 8 * 0x20 + bits / 128 * 0x200 + class_bits;
        MessageType { value }
    }

    /// Returns the number that the header encodes. It is below 2^14.
    pub fn value(self) -> u16
        ensures value { result ≡ self }
        ensures short { result < 2 ^ 14 }
    {
        self.value
    }

    /// Returns the class.
    pub fn class(self) -> MessageClass
        ensures { result ≡ class_of self }
    {
        let low = self.value / 0x10 % 2;
        let high = self.value / 0x100 % 2;
        match (high, low) {
            (0, 0) => MessageClass::Request,
            (0, _) => MessageClass::Indication,
            (_, 0) => MessageClass::Success,
            (_, _) => MessageClass::Error,
        }
    }

    /// Returns whether the class is this one.
    pub fn has_class(self, class: MessageClass) -> bool
        ensures { IsTrue result ↔ (class_of self ≡ class) }
    {
        self.class() == class
    }

    /// Returns whether messages of this type are responses.
    pub fn is_response(self) -> bool
        ensures { result ≡ is_response_class (class_of self) }
    {
        self.class().is_response()
    }

    /// Returns the method, below 2^12.
    pub fn method(self) -> Method
        ensures value { result.0 ≡ method_of self }
        ensures short { result.0 < 2 ^ 12 }
    {
        Method(self.value % 16 + self.value / 0x20 % 8 * 16 + self.value / 0x200 * 128)
    }

    /// Returns whether the method is this one.
    pub fn has_method(self, method: Method) -> bool
        ensures { IsTrue result ↔ (method_of self ≡ method.0) }
    {
        self.method() == method
    }

    /// Writes the two bytes of the type to the first two bytes of `dest`. The other bytes are
    /// unchanged.
    pub fn write_into(self, dest: &mut [u8])
        requires { 2 ≤ length dest.old }
        ensures { dest.new ≡ big_bytes 2 self ++ drop 2 dest.old }
    {
        BigEndian::write_u16(dest, self.value);
    }

    /// Encodes the type in two bytes. Fails only with `NoMemory`, if an allocation fails.
    pub fn to_bytes(self, alloc: Global) -> Result<Vec<u8>, NoMemory>
        ensures { IfOk result (λ bytes. bytes.items ≡ big_bytes 2 self) }
    {
        Ok(Vec::from_slice(alloc, &self.value.to_be_bytes())?)
    }

    /// Decodes the type from the first two bytes.
    ///
    /// # Errors
    ///
    /// In this order:
    ///
    /// - `NotStun`: one of the two top bits is set.
    /// - `Truncated`: there are fewer than two bytes.
    pub fn from_bytes(bytes: &[u8]) -> Result<MessageType, StunParseError>
        ensures { MatchResult result (λ kind. (type_refusal bytes.now ≡ None)
            × (kind ≡ big_number 2 bytes.now)) (λ error. type_refusal bytes.now ≡ Some error) }
    {
        if let [first, ..] = bytes {
            if *first >= 0x40 {
                return Err(StunParseError::NotStun);
            }
        }
        if bytes.len() < 2 {
            return Err(StunParseError::Truncated {
                expected: 2,
                actual: bytes.len(),
            });
        }
        Ok(MessageType {
            value: BigEndian::read_u16(bytes),
        })
    }
}

/// Decodes the type as `from_bytes` does.
impl<'a> TryFrom<&'a [u8]> for MessageType {
    ghost use Rattle.std.specs.Prelude.{◌≡◌, MatchResult, Some, None};
    ghost use Rattle.byteorder.specs.Endian.{big_number};
    ghost use Rattle.stun_types_wire.specs.TypeBytes.{type_refusal};

    type Error = StunParseError;

    ghost try_from_gives = { λ bytes result. MatchResult result
        (λ kind. (type_refusal bytes.now ≡ None) × (kind ≡ big_number 2 bytes.now))
        (λ error. type_refusal bytes.now ≡ Some error) };

    fn try_from(value: &'a [u8]) -> Result<MessageType, StunParseError> {
        MessageType::from_bytes(value)
    }
}

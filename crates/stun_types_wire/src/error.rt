//! Errors of decoding bytes, of writing a message, and of validating it.

ghost use Rattle.std.specs.Prelude.{◌≡◌};

use crate::attribute::AttributeType;
use std::alloc::AllocError;
use stun_types_base::memory::NoMemory;
use thiserror::Error;

/// Why bytes are not a message, not a header, or not the requested attribute.
#[derive(Clone, Copy, Debug, PartialEq, Eq, Error)]
pub enum StunParseError {
    /// The bytes are not STUN: one of the two top bits of the first byte is set, or the magic
    /// cookie is wrong (RFC 8489, section 5).
    #[error("The provided data is not a STUN message")]
    NotStun,
    /// There are too few bytes.
    #[error("Not enough data available to parse the packet, expected {expected}, actual {actual}")]
    Truncated {
        /// The number of bytes that are needed.
        expected: usize,
        /// The number of bytes there are.
        actual: usize,
    },
    /// There are too many bytes.
    #[error("Too much data to parse, expected {expected}, actual {actual}")]
    TooLarge {
        /// The maximum number of bytes.
        expected: usize,
        /// The number of bytes there are.
        actual: usize,
    },
    /// The message has no visible attribute of this type.
    #[error("Missing attribute of type {}", .0.0)]
    MissingAttribute(AttributeType),
    /// An attribute follows the integrity attribute. No call returns this error: a message doesn't
    /// show such an attribute (RFC 8489, section 14.5).
    #[error("An attribute of type {} was found after the integrity", .0.0)]
    AttributeAfterIntegrity(AttributeType),
    /// The FINGERPRINT doesn't match the bytes before it (RFC 8489, section 14.7).
    #[error("The fingerprint does not match the data")]
    FingerprintMismatch,
    /// The attribute's type is not the requested one.
    #[error("The attribute has another type than its implementation")]
    WrongAttributeImplementation,
    /// The value is not valid for the attribute's type.
    #[error("The attribute contains invalid data")]
    InvalidAttributeData,
    /// An allocation failed.
    #[error("no memory")]
    NoMemory,
}

/// Why something can't be added to a message.
#[derive(Clone, Copy, Debug, PartialEq, Eq, Error)]
pub enum StunWriteError {
    /// The message already has an attribute of this type, and may have only one.
    #[error("An attribute of type {} is already in the message", .0.0)]
    AttributeExists(AttributeType),
    /// The message ends with a FINGERPRINT, after which nothing may be added.
    #[error("The message has a fingerprint already")]
    FingerprintExists,
    /// The message has an integrity attribute, after which this attribute may not be added.
    #[error("The message has an integrity attribute already")]
    MessageIntegrityExists,
    /// The value or the message would be longer than its length field or its type permits.
    #[error("Too much data, expected at most {expected}, actual {actual}")]
    TooLarge {
        /// The maximum number of bytes.
        expected: usize,
        /// The number of bytes there would be.
        actual: usize,
    },
    /// The buffer to write to is too small.
    #[error("Not enough space, expected {expected}, actual {actual}")]
    TooSmall {
        /// The number of bytes that are needed.
        expected: usize,
        /// The number of bytes there are.
        actual: usize,
    },
    /// The integrity attribute can't be computed, for example because the key is for another
    /// algorithm.
    #[error("The integrity could not be made")]
    IntegrityFailed,
    /// A number is outside its range.
    #[error("The value {value} is outside the range from {min} to {max}")]
    OutOfRange {
        /// The number.
        value: usize,
        /// The least permitted number.
        min: usize,
        /// The greatest permitted number.
        max: usize,
    },
    /// An allocation failed.
    #[error("no memory")]
    NoMemory,
}

/// Why the integrity of a message doesn't validate.
#[derive(Clone, Copy, Debug, PartialEq, Eq, Error)]
pub enum ValidateError {
    /// The message has no visible integrity attribute, or one of invalid length.
    #[error("{0}")]
    Parse(StunParseError),
    /// The HMAC is not that of the message under the key.
    #[error("The integrity of the message does not hold")]
    IntegrityFailed,
}

impl From<AllocError> for StunParseError {
    ghost use Rattle.stun_types_wire.specs.declared.error.StunParseError.TheVariants.{NoMemory};

    ghost from_gives = { λ _ error. error ≡ NoMemory };

    fn from(_error: AllocError) -> StunParseError {
        StunParseError::NoMemory
    }
}

impl From<NoMemory> for StunParseError {
    ghost use Rattle.stun_types_wire.specs.declared.error.StunParseError.TheVariants.{NoMemory};

    ghost from_gives = { λ _ error. error ≡ NoMemory };

    fn from(_error: NoMemory) -> StunParseError {
        StunParseError::NoMemory
    }
}

impl From<AllocError> for StunWriteError {
    ghost use Rattle.stun_types_wire.specs.declared.error.StunWriteError.TheVariants.{NoMemory};

    ghost from_gives = { λ _ error. error ≡ NoMemory };

    fn from(_error: AllocError) -> StunWriteError {
        StunWriteError::NoMemory
    }
}

impl From<NoMemory> for StunWriteError {
    ghost use Rattle.stun_types_wire.specs.declared.error.StunWriteError.TheVariants.{NoMemory};

    ghost from_gives = { λ _ error. error ≡ NoMemory };

    fn from(_error: NoMemory) -> StunWriteError {
        StunWriteError::NoMemory
    }
}

impl From<StunParseError> for ValidateError {
    ghost use Rattle.stun_types_wire.specs.declared.error.ValidateError.TheVariants.{Parse};

    ghost from_gives = { λ cause error. error ≡ Parse cause };

    fn from(error: StunParseError) -> ValidateError {
        ValidateError::Parse(error)
    }
}

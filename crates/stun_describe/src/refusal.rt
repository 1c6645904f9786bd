//! Errors, printed as their names and numbers.

use std::fmt;
use stun_types_wire::error::{StunParseError, ValidateError};

/// Why bytes are not a message or not an attribute. Prints as the name of the error and its
/// numbers.
#[derive(Clone, Copy)]
pub struct Refusal(pub StunParseError);

impl fmt::Display for Refusal {
    fn fmt<W: fmt::Write>(&self, f: &mut fmt::Formatter<W>) -> fmt::Result {
        let name = error_name(self.0);
        match self.0 {
            StunParseError::Truncated { expected, actual }
            | StunParseError::TooLarge { expected, actual } => {
                write!(f, "{name} expected {expected} actual {actual}")
            }
            StunParseError::MissingAttribute(atype)
            | StunParseError::AttributeAfterIntegrity(atype) => {
                let atype = atype.value();
                write!(f, "{name} 0x{atype:04x}")
            }
            _ => write!(f, "{name}"),
        }
    }
}

/// Returns the name of an error.
pub(crate) fn error_name(error: StunParseError) -> &'static str {
    match error {
        StunParseError::NotStun => "NotStun",
        StunParseError::Truncated { .. } => "Truncated",
        StunParseError::TooLarge { .. } => "TooLarge",
        StunParseError::MissingAttribute(_) => "MissingAttribute",
        StunParseError::AttributeAfterIntegrity(_) => "AttributeAfterIntegrity",
        StunParseError::FingerprintMismatch => "FingerprintMismatch",
        StunParseError::WrongAttributeImplementation => "WrongAttributeImplementation",
        StunParseError::InvalidAttributeData => "InvalidAttributeData",
        StunParseError::NoMemory => "NoMemory",
    }
}

/// Why a message does not validate. Prints as the name of the error and its numbers.
#[derive(Clone, Copy)]
pub struct Objection(pub ValidateError);

impl fmt::Display for Objection {
    fn fmt<W: fmt::Write>(&self, f: &mut fmt::Formatter<W>) -> fmt::Result {
        match self.0 {
            ValidateError::Parse(error) => {
                let refusal = Refusal(error);
                write!(f, "{refusal}")
            }
            ValidateError::IntegrityFailed => write!(f, "IntegrityFailed"),
        }
    }
}

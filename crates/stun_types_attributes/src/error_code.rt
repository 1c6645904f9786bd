//! ERROR-CODE (RFC 8489, section 14.8).

ghost use Rattle.std.specs.Prelude.{◌≡◌, ◌≤◌, ◌/◌, ◌%◌, ◌∷◌, [], IfOk, None, Some, length, drop};
ghost use Rattle.std.specs.Prelude.{MatchResult};
ghost use Rattle.std.specs.Option.{option_or};
ghost use Rattle.stun_types_wire.specs.Base.Refusals.{RefusesFor};
ghost use Rattle.stun_types_auth_attributes.specs.Write.ValueReading.{IsNamed};
ghost use Rattle.stun_types_wire.specs.Registry.{longest_text, error_code_kind, greatest_code};
ghost use Rattle.stun_types_wire.specs.Registry.{least_code};
ghost use Rattle.stun_types_attributes.specs.ErrorCodes.{CodeAndReason, error_refusal, reason_for};
ghost use Rattle.stun_types_attributes.specs.ErrorCodes.{reason_of};
ghost use Rattle.stun_types_attributes.specs.ErrorCodeReading.{code_refusal, error_read_refusal};
ghost use Rattle.stun_types_attributes.specs.ErrorCodeReading.{error_decoded};
ghost use Rattle.stun_types_auth_attributes.specs.Write.ValueReading.{utf8_refusal};

use crate::stun_types_base::memory::NoMemory;
use crate::stun_types_write::attribute::{
    Attribute, AttributeFromRaw, AttributeStaticType, AttributeWrite,
};
use crate::stun_types_write::reading::{proof_text_is_read, read_text, value_of};
use crate::stun_types_write::text::write_attribute_in_two;
use std::alloc::Global;
use std::marker::Model;
use stun_types_wire::attribute::{AttributeType, RawAttribute};
use stun_types_wire::error::{StunParseError, StunWriteError};
use stun_types_wire::registry;

/// Why a request is rejected: a code from 300 to 699, and a reason phrase of at most 763 bytes.
#[derive(Debug, Drop)]
pub struct ErrorCode {
    code: u16,
    reason: String,
}

impl Model for ErrorCode {
    ghost use Rattle.stun_types_wire.specs.Registry.{greatest_code, least_code};
    ghost use Rattle.std.specs.Prelude.{◌≤◌, length};
    ghost use Rattle.std.specs.String.{string_bytes};
    ghost use Rattle.stun_types_wire.specs.Registry.{longest_text};
    ghost use Rattle.stun_types_attributes.specs.ErrorCodes.{CodeAndReason};

    ghost Value = { CodeAndReason };

    ghost view = { λ e. record { code = e.code; reason = string_bytes e.reason } };

    ghost invariant = { λ e. (least_code ≤ e.code) × (e.code ≤ greatest_code)
        × (length (string_bytes e.reason) ≤ longest_text) };
}

impl ErrorCode {
    /// The client should try another server.
    pub const TRY_ALTERNATE: u16 = registry::TRY_ALTERNATE;
    /// The request is malformed.
    pub const BAD_REQUEST: u16 = registry::BAD_REQUEST;
    /// The request lacks the right credentials.
    pub const UNAUTHORIZED: u16 = registry::UNAUTHORIZED;
    /// The request is valid but not permitted.
    pub const FORBIDDEN: u16 = registry::FORBIDDEN;
    /// The request has a comprehension-required attribute that the server does not understand.
    pub const UNKNOWN_ATTRIBUTE: u16 = registry::UNKNOWN_ATTRIBUTE;
    /// There is no allocation where one is needed, or there is one where none may be.
    pub const ALLOCATION_MISMATCH: u16 = registry::ALLOCATION_MISMATCH;
    /// The nonce is no longer valid.
    pub const STALE_NONCE: u16 = registry::STALE_NONCE;
    /// The server has no addresses of the requested family.
    pub const ADDRESS_FAMILY_NOT_SUPPORTED: u16 = registry::ADDRESS_FAMILY_NOT_SUPPORTED;
    /// The credentials are not those of the allocation.
    pub const WRONG_CREDENTIALS: u16 = registry::WRONG_CREDENTIALS;
    /// The requested transport is not supported.
    pub const UNSUPPORTED_TRANSPORT_PROTOCOL: u16 = registry::UNSUPPORTED_TRANSPORT_PROTOCOL;
    /// The peer is of another family than the allocation.
    pub const PEER_ADDRESS_FAMILY_MISMATCH: u16 = registry::PEER_ADDRESS_FAMILY_MISMATCH;
    /// There already is a connection to the peer.
    pub const CONNECTION_ALREADY_EXISTS: u16 = registry::CONNECTION_ALREADY_EXISTS;
    /// The connection to the peer failed.
    pub const CONNECTION_TIMEOUT_OR_FAILURE: u16 = registry::CONNECTION_TIMEOUT_OR_FAILURE;
    /// The user has as many allocations as the server permits.
    pub const ALLOCATION_QUOTA_REACHED: u16 = registry::ALLOCATION_QUOTA_REACHED;
    /// Both ICE agents have the same role.
    pub const ROLE_CONFLICT: u16 = registry::ROLE_CONFLICT;
    /// The server failed.
    pub const SERVER_ERROR: u16 = registry::SERVER_ERROR;
    /// The server lacks the capacity for the request.
    pub const INSUFFICIENT_CAPACITY: u16 = registry::INSUFFICIENT_CAPACITY;

    /// The least code.
    pub const MIN_CODE: u16 = registry::MIN_ERROR_CODE;
    /// The greatest code.
    pub const MAX_CODE: u16 = registry::MAX_ERROR_CODE;
    /// The maximum length of a reason phrase in bytes.
    pub const MAX_REASON_LEN: usize = registry::MAX_TEXT_LENGTH;

    /// Makes an ERROR-CODE of a code and a reason phrase.
    ///
    /// # Errors
    ///
    /// In this order:
    ///
    /// - `OutOfRange`: the code is not from 300 to 699.
    /// - `TooLarge`: the reason phrase has more than 763 bytes.
    /// - `NoMemory`: an allocation failed.
    #[tactic(auto, unfolding(crate::specs::ErrorCodes::error_refusal))]
    pub fn new(alloc: Global, code: u16, reason: &str) -> Result<ErrorCode, StunWriteError>
        ensures ok { IfOk result (λ made. (made.code ≡ code) × (made.reason ≡ reason.now)
            × (error_refusal code reason.now ≡ None)) }
        ensures cause { RefusesFor StunWriteError.NoMemory (error_refusal code reason.now) result }
    {
        if code < ErrorCode::MIN_CODE || code > ErrorCode::MAX_CODE {
            return Err(StunWriteError::OutOfRange {
                value: usize::from(code),
                min: 300,
                max: 699,
            });
        }
        if reason.len() > ErrorCode::MAX_REASON_LEN {
            return Err(StunWriteError::TooLarge {
                expected: ErrorCode::MAX_REASON_LEN,
                actual: reason.len(),
            });
        }
        Ok(ErrorCode {
            code,
            reason: String::from_str(alloc, reason)?,
        })
    }

    /// Returns a builder of an ERROR-CODE with this code and its default reason phrase.
    pub fn builder<'reason>(code: u16) -> ErrorCodeBuilder<'reason>
        ensures code { result.code ≡ code }
        ensures reason { result.reason ≡ None }
    {
        ErrorCodeBuilder { code, reason: None }
    }

    /// Returns the code, from 300 to 699.
    pub fn code(&self) -> u16
        ensures value { result ≡ self.now.code }
        ensures least { least_code ≤ result }
        ensures most { result ≤ greatest_code }
    {
        self.code
    }

    /// Returns the reason phrase.
    pub fn reason(&self) -> &str
        ensures value { result.now ≡ self.now.reason }
        ensures short { length result.now ≤ longest_text }
    {
        self.reason.as_str()
    }

    /// Returns the default reason phrase of a code, or `Unknown` for a code that has none.
    pub fn default_reason_for_code(code: u16) -> &'static str
        ensures { result.now ≡ reason_for code }
    {
        match code {
            ErrorCode::TRY_ALTERNATE => "Try Alternate",
            ErrorCode::BAD_REQUEST => "Bad Request",
            ErrorCode::UNAUTHORIZED => "Unauthorized",
            ErrorCode::FORBIDDEN => "Forbidden",
            ErrorCode::UNKNOWN_ATTRIBUTE => "Unknown Attribute",
            ErrorCode::ALLOCATION_MISMATCH => "Allocation Mismatch",
            ErrorCode::STALE_NONCE => "Stale Nonce",
            ErrorCode::ADDRESS_FAMILY_NOT_SUPPORTED => "Address Family not Supported",
            ErrorCode::WRONG_CREDENTIALS => "Wrong Credentials",
            ErrorCode::UNSUPPORTED_TRANSPORT_PROTOCOL => "Unsupported Transport Protocol",
            ErrorCode::PEER_ADDRESS_FAMILY_MISMATCH => "Peer Address Family Mismatch",
            ErrorCode::CONNECTION_ALREADY_EXISTS => "Connection Already Exists",
            ErrorCode::CONNECTION_TIMEOUT_OR_FAILURE => "Connection Timeout or Failure",
            ErrorCode::ALLOCATION_QUOTA_REACHED => "Allocation Quota Reached",
            ErrorCode::ROLE_CONFLICT => "Role Conflict",
            ErrorCode::SERVER_ERROR => "Server Error",
            ErrorCode::INSUFFICIENT_CAPACITY => "Insufficient Capacity",
            _ => "Unknown",
        }
    }
}

/// Builds an ERROR-CODE of a code, with its default reason phrase or another one.
#[derive(Debug, Drop)]
pub struct ErrorCodeBuilder<'reason> {
    code: u16,
    reason: Option<&'reason str>,
}

impl<'reason> Model for ErrorCodeBuilder<'reason> {
    ghost use Rattle.std.specs.Option.{option_copied};
    ghost use Rattle.stun_types_attributes.specs.ErrorCodes.{CodeAndOther};

    ghost Value = { CodeAndOther };

    ghost view = { λ b. record { code = b.code; reason = option_copied b.reason } };
}

impl<'reason> ErrorCodeBuilder<'reason> {
    /// Replaces the reason phrase.
    pub fn reason(self, reason: &'reason str) -> ErrorCodeBuilder<'reason>
        ensures code { result.code ≡ self.entry.code }
        ensures reason { result.reason ≡ Some reason.now }
    {
        ErrorCodeBuilder {
            code: self.code,
            reason: Some(reason),
        }
    }

    /// Makes the ERROR-CODE. Fails as `ErrorCode::new` does.
    pub fn build(self, alloc: Global) -> Result<ErrorCode, StunWriteError>
        ensures ok { IfOk result (λ made. (made.code ≡ self.entry.code)
            × (made.reason ≡ reason_of self.entry) ×
            (error_refusal self.entry.code (reason_of self.entry) ≡ None)) }
        ensures cause { RefusesFor StunWriteError.NoMemory
            (error_refusal self.entry.code (reason_of self.entry)) result }
    {
        let reason = match self.reason {
            Some(reason) => reason,
            None => ErrorCode::default_reason_for_code(self.code),
        };
        ErrorCode::new(alloc, self.code, reason)
    }
}

impl AttributeStaticType for ErrorCode {
    ghost TYPE = { record { 0 = error_code_kind } };

    const TYPE: AttributeType = registry::ERROR_CODE;
}

impl Attribute for ErrorCode {
    ghost use Rattle.stun_types_attributes.specs.ErrorCodes.{error_value};

    ghost kind = { λ _. error_code_kind };

    ghost value = { error_value };

    fn get_type(&self) -> AttributeType {
        ErrorCode::TYPE
    }

    fn length(&self) -> u16 {
        4 + self.reason().len() as u16
    }
}

impl AttributeWrite for ErrorCode {
    fn write_into_unchecked(&self, dest: &mut [u8]) {
        write_attribute_in_two(
            ErrorCode::TYPE,
            &self.code_bytes(),
            self.reason().as_bytes(),
            dest,
        );
    }

    fn to_raw(&self, alloc: Global) -> Result<RawAttribute<'_>, NoMemory> {
        let mut value = Vec::with_capacity(alloc, 4 + self.reason().len())?;
        value.extend_from_slice(&self.code_bytes())?;
        value.extend_from_slice(self.reason().as_bytes())?;
        Ok(RawAttribute::new_owned(ErrorCode::TYPE, value.into_boxed_slice()))
    }
}

/// Decodes a code and a reason phrase. The first two bytes of the value are ignored. The third
/// byte, all eight bits of it, is the hundreds of the code, from 3 to 6. The fourth is the rest,
/// from 0 to 99.
///
/// # Errors
///
/// In this order:
///
/// - `WrongAttributeImplementation`: the type is another one.
/// - `Truncated`: the value has fewer than 4 bytes.
/// - `TooLarge`: the value has more than 767 bytes.
/// - `InvalidAttributeData`: the code is out of range, or the reason phrase is not UTF-8.
/// - `NoMemory`: an allocation failed.
impl<'a> AttributeFromRaw<'a> for ErrorCode {
    ghost use Rattle.stun_types_attributes.specs.ErrorCodes.{error_value};
    ghost use Rattle.stun_types_attributes.specs.ErrorCodeReading.{error_read_refusal};
    ghost use Rattle.stun_types_attributes.specs.ErrorCodeReading.{error_decoded};

    ghost read_refusal = { error_read_refusal };

    ghost read_value = { λ value. error_value (error_decoded value) };

    #[tactic(auto, unfolding(crate::specs::ErrorCodeReading::error_read_refusal))]
    fn from_raw_ref(alloc: Global, raw: &RawAttribute<'_>) -> Result<ErrorCode, StunParseError> {
        let value = value_of(raw, ErrorCode::TYPE, 4, 4 + ErrorCode::MAX_REASON_LEN)?;
        let (code, reason) = read_code(value)?;
        Ok(ErrorCode {
            code,
            reason: String::from_str(alloc, reason)?,
        })
    }

    fn from_raw(alloc: Global, raw: RawAttribute<'a>) -> Result<ErrorCode, StunParseError> {
        ErrorCode::from_raw_ref(alloc, &raw)
    }

    #[tactic(auto, using(crate::proofs::Codes::error_values))]
    fn proof_is_read_back(&self, _read: &ErrorCode) {
        proof_text_is_read(self.reason(), ErrorCode::MAX_REASON_LEN);
        let _ = self.code();
    }
}

/// Decodes the code and the reason phrase of a value of at least four bytes. Fails with
/// `InvalidAttributeData` if the code is out of range or the reason phrase is not UTF-8.
#[tactic(auto, unfolding(crate::specs::ErrorCodeReading::code_refusal))]
fn read_code(value: &[u8]) -> Result<(u16, &str), StunParseError>
    requires { 4 ≤ length value.now }
    ensures { MatchResult result (λ decoded. (code_refusal value.now ≡ None)
        × (utf8_refusal (drop 4 value.now) ≡ None) × (decoded.0 ≡ (error_decoded value.now).code)
        × (decoded.1.now ≡ (error_decoded value.now).reason) × (least_code ≤ decoded.0)
        × (decoded.0 ≤ greatest_code))
        (IsNamed (option_or (code_refusal value.now) (utf8_refusal (drop 4 value.now)))) }
{
    let (hundreds, rest) = (value[2], value[3]);
    if hundreds < 3 || hundreds > 6 || rest > 99 {
        return Err(StunParseError::InvalidAttributeData);
    }
    let reason = read_text(&value[4..])?;
    Ok((100 * u16::from(hundreds) + u16::from(rest), reason))
}

impl ErrorCode {
    /// Decodes the code alone, from 300 to 699. Fails as decoding the whole attribute does, but
    /// allocates nothing.
    #[tactic(auto, unfolding(crate::specs::ErrorCodeReading::error_read_refusal))]
    pub fn code_of(raw: &RawAttribute<'_>) -> Result<u16, StunParseError>
        ensures { MatchResult result (λ code. (error_read_refusal raw.now ≡ None)
            × (code ≡ (error_decoded raw.now.value).code))
            (IsNamed (error_read_refusal raw.now)) }
    {
        let value = value_of(raw, ErrorCode::TYPE, 4, 4 + ErrorCode::MAX_REASON_LEN)?;
        let (code, _) = read_code(value)?;
        Ok(code)
    }

    /// Returns the part of the value before the reason phrase: two zeros, the hundreds of the code,
    /// and the rest of it.
    fn code_bytes(&self) -> [u8; 4]
        ensures { result ≡ 0 ∷ 0 ∷ (self.now.code / 100) ∷ (self.now.code % 100) ∷ [] }
    {
        let code = self.code();
        [0, 0, (code / 100) as u8, (code % 100) as u8]
    }
}

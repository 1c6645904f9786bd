//! ADDRESS-ERROR-CODE (RFC 8656, section 18.12).

ghost use Rattle.std.specs.Prelude.{◌≡◌, ◌+◌, ◌≤◌, ◌/◌, ◌%◌, ◌∷◌, [], IfOk, None, length, drop};
ghost use Rattle.std.specs.Option.{option_or};
ghost use Rattle.stun_types_attributes.specs.Base.Refusals.{RefusesFor};
ghost use Rattle.stun_types_attributes.specs.Wire.Registry.{greatest_code, least_code};
ghost use Rattle.stun_types_attributes.specs.Wire.Registry.{longest_text};
ghost use Rattle.stun_types_integrity.specs.Write.ValueReading.{utf8_refusal};
ghost use Rattle.turn_types_attributes.specs.FamilyValues.{family_number};
ghost use Rattle.turn_types_attributes.specs.StunTypesAttributes.ErrorCodes.{error_refusal};
ghost use Rattle.turn_types_attributes.specs.StunTypesAttributes.ErrorCodeReading.{code_refusal};
ghost use Rattle.turn_types_attributes.specs.StunTypesAttributes.ErrorCodeReading.{error_decoded};
ghost use Rattle.turn_types_attributes.specs.TurnRegistry.{address_error_code_kind};

use crate::family::{family_of, number_of};
use crate::registry;
use crate::stun_types_base::family::AddressFamily;
use crate::stun_types_base::memory::NoMemory;
use crate::stun_types_wire::attribute::{AttributeType, RawAttribute};
use crate::stun_types_wire::error::{StunParseError, StunWriteError};
use crate::stun_types_write::attribute::{
    Attribute, AttributeFromRaw, AttributeStaticType, AttributeWrite,
};
use crate::stun_types_write::reading::{proof_text_is_read, value_of};
use crate::stun_types_write::text::write_attribute_in_two;
use std::alloc::Global;
use std::marker::Model;
use stun_types_attributes::error_code::ErrorCode;

/// Why a server allocated no address of one family, in the response to a request for addresses of
/// both of which one was allocated (RFC 8656, section 18.12): the family, a code from 300 to 699,
/// and a reason phrase of at most 763 bytes. Contracts see the family and the error.
#[derive(Debug, Drop)]
pub struct AddressErrorCode {
    family: AddressFamily,
    error: ErrorCode,
}

impl Model for AddressErrorCode {
    ghost use Rattle.turn_types_attributes.specs.AddressErrors.{AddressError};

    ghost Value = { AddressError };

    ghost view = { λ a. record { family = a.family; error = a.error } };
}

impl AddressErrorCode {
    /// Creates the attribute for a family, a code and a reason phrase.
    /// `ErrorCode::default_reason_for_code` has a reason phrase for each code.
    ///
    /// # Errors
    ///
    /// 1. `OutOfRange`: the code is not from 300 to 699.
    /// 2. `TooLarge`: the reason phrase has more than 763 bytes.
    /// 3. `NoMemory`: an allocation failed.
    pub fn new(
        alloc: Global,
        family: AddressFamily,
        code: u16,
        reason: &str,
    ) -> Result<AddressErrorCode, StunWriteError>
        ensures ok { IfOk result (λ made. (made.family ≡ family) × (made.error.code ≡ code)
            × (made.error.reason ≡ reason.now)) }
        ensures cause { RefusesFor StunWriteError.NoMemory (error_refusal code reason.now) result }
    {
        let error = ErrorCode::new(alloc, code, reason)?;
        Ok(AddressErrorCode { family, error })
    }

    /// Returns the family of which no address was allocated.
    pub fn family(&self) -> AddressFamily
        ensures { result ≡ self.now.family }
    {
        self.family
    }

    /// Returns the code, from 300 to 699.
    pub fn code(&self) -> u16
        ensures value { result ≡ self.now.error.code }
        ensures least { least_code ≤ result }
        ensures most { result ≤ greatest_code }
    {
        self.error.code()
    }

    /// Returns the reason phrase, of at most 763 bytes.
    pub fn reason(&self) -> &str
        ensures value { result.now ≡ self.now.error.reason }
        ensures short { length result.now ≤ longest_text }
    {
        self.error.reason()
    }

    /// Returns the part of the value before the reason phrase: the number of the family, a zero,
    /// the hundreds of the code, and the rest of it.
    fn family_and_code(&self) -> [u8; 4]
        ensures { result ≡ family_number self.now.family ∷ 0 ∷ (self.now.error.code / 100)
            ∷ (self.now.error.code % 100) ∷ [] }
    {
        let code = self.code();
        [
            number_of(self.family),
            0,
            (code / 100) as u8,
            (code % 100) as u8,
        ]
    }
}

impl AttributeStaticType for AddressErrorCode {
    ghost TYPE = { record { 0 = address_error_code_kind } };

    const TYPE: AttributeType = registry::ADDRESS_ERROR_CODE;
}

impl Attribute for AddressErrorCode {
    ghost use Rattle.turn_types_attributes.specs.AddressErrors.{address_error_value};

    ghost kind = { λ _. address_error_code_kind };

    ghost value = { address_error_value };

    fn get_type(&self) -> AttributeType {
        AddressErrorCode::TYPE
    }

    fn length(&self) -> u16 {
        4 + self.reason().len() as u16
    }
}

impl AttributeWrite for AddressErrorCode {
    fn write_into_unchecked(&self, dest: &mut [u8]) {
        write_attribute_in_two(
            AddressErrorCode::TYPE,
            &self.family_and_code(),
            self.reason().as_bytes(),
            dest,
        );
    }

    fn to_raw(&self, alloc: Global) -> Result<RawAttribute<'_>, NoMemory> {
        let mut value = Vec::with_capacity(alloc, 4 + self.reason().len())?;
        value.extend_from_slice(&self.family_and_code())?;
        value.extend_from_slice(self.reason().as_bytes())?;
        Ok(RawAttribute::new_owned(AddressErrorCode::TYPE, value.into_boxed_slice()))
    }
}

/// Decodes a family, a code and a reason phrase. The first byte of the value is the number of the
/// family, and the second is ignored. The third byte, all eight bits of it, is the hundreds of the
/// code, from 3 to 6. The fourth is the rest, from 0 to 99.
///
/// # Errors
///
/// 1. `WrongAttributeImplementation`: the attribute has another type.
/// 2. `Truncated`: the value has fewer than four bytes.
/// 3. `TooLarge`: the value has more than 767 bytes.
/// 4. `InvalidAttributeData`: the first byte is not a known family, the code is out of range, or
///    the reason phrase is not UTF-8.
/// 5. `NoMemory`: an allocation failed.
impl<'a> AttributeFromRaw<'a> for AddressErrorCode {
    ghost use Rattle.turn_types_attributes.specs.AddressErrors.{address_error_again};
    ghost use Rattle.turn_types_attributes.specs.AddressErrors.{address_error_read_refusal};

    ghost read_refusal = { address_error_read_refusal };

    ghost read_value = { address_error_again };

    #[tactic(auto, unfolding(crate::specs::AddressErrors::address_error_read_refusal, crate::specs::AddressErrors::address_error_refusal))]
    fn from_raw_ref(
        alloc: Global,
        raw: &RawAttribute<'_>,
    ) -> Result<AddressErrorCode, StunParseError> {
        let value = value_of(
            raw,
            AddressErrorCode::TYPE,
            4,
            4 + ErrorCode::MAX_REASON_LEN,
        )?;
        let family = family_of(value[0])?;
        let error = error_of(alloc, value)?;
        Ok(AddressErrorCode { family, error })
    }

    fn from_raw(alloc: Global, raw: RawAttribute<'a>) -> Result<AddressErrorCode, StunParseError> {
        AddressErrorCode::from_raw_ref(alloc, &raw)
    }

    #[tactic(auto, using(crate::proofs::AddressErrors::address_errors))]
    fn proof_is_read_back(&self, _read: &AddressErrorCode) {
        proof_text_is_read(self.reason(), ErrorCode::MAX_REASON_LEN);
        let _ = self.code();
    }
}

/// Decodes the code and the reason phrase of a value of 4 to 767 bytes, which are those of an
/// ERROR-CODE with the same value.
///
/// # Errors
///
/// 1. `InvalidAttributeData`: the code is out of range, or the reason phrase is not UTF-8.
/// 2. `NoMemory`: an allocation failed.
#[tactic(auto, using(crate::proofs::AddressErrors::as_error))]
fn error_of(alloc: Global, value: &[u8]) -> Result<ErrorCode, StunParseError>
    requires least { 4 ≤ length value.now }
    requires most { length value.now ≤ 4 + longest_text }
    ensures ok { IfOk result (λ error. error ≡ error_decoded value.now) }
    ensures cause { RefusesFor StunParseError.NoMemory
        (option_or (code_refusal value.now) (utf8_refusal (drop 4 value.now))) result }
{
    let alike = RawAttribute::new(ErrorCode::TYPE, value);
    ErrorCode::from_raw_ref(alloc, &alike)
}

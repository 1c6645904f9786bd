//! SOFTWARE (RFC 8489, section 14.14).

ghost use Rattle.std.specs.Prelude.{◌≡◌, ◌≤◌, IfOk, None, length};
ghost use Rattle.stun_types_write.specs.Base.Refusals.{RefusesFor};
ghost use Rattle.stun_types_auth_attributes.specs.Texts.{text_refusal};
ghost use Rattle.stun_types_write.specs.Wire.Registry.{longest_software, software_kind};

use crate::stun_types_base::memory::NoMemory;
use crate::stun_types_wire::attribute::{AttributeType, RawAttribute};
use crate::stun_types_wire::error::{StunParseError, StunWriteError};
use crate::stun_types_wire::registry;
use std::alloc::Global;
use std::marker::Model;
use stun_types_write::attribute::{
    Attribute, AttributeFromRaw, AttributeStaticType, AttributeWrite,
};
use stun_types_write::reading::{proof_text_is_read, text_of};
use stun_types_write::text::write_attribute;

/// The sender's description of its software, which helps to find faults (RFC 8489, section 14.14).
/// It has at most 763 bytes. Contracts see the bytes of the text.
#[derive(Debug, Drop)]
pub struct Software {
    software: String,
}

impl Model for Software {
    ghost use Rattle.std.specs.Prelude.{List, ℕ, ◌≤◌, length};
    ghost use Rattle.std.specs.String.{string_bytes};
    ghost use Rattle.stun_types_write.specs.Wire.Registry.{longest_software};

    ghost Value = { List ℕ };

    ghost view = { λ a. string_bytes a.software };

    ghost invariant = { λ a. length (string_bytes a.software) ≤ longest_software };
}

impl Software {
    /// The maximum length of the text in bytes.
    pub const MAX_LEN: usize = registry::MAX_SOFTWARE_LENGTH;

    /// Makes a SOFTWARE.
    ///
    /// # Errors
    ///
    /// - `TooLarge`: the text has more than 763 bytes.
    /// - `NoMemory`: an allocation failed.
    pub fn new(alloc: Global, software: &str) -> Result<Software, StunWriteError>
        ensures ok { IfOk result (λ made. (made ≡ software.now)
            × (text_refusal longest_software software.now ≡ None)) }
        ensures cause { RefusesFor StunWriteError.NoMemory
            (text_refusal longest_software software.now) result }
    {
        if software.len() > Software::MAX_LEN {
            return Err(StunWriteError::TooLarge {
                expected: Software::MAX_LEN,
                actual: software.len(),
            });
        }
        Ok(Software {
            software: String::from_str(alloc, software)?,
        })
    }

    /// Returns the text.
    pub fn software(&self) -> &str
        ensures value { result.now ≡ self.now }
        ensures short { length result.now ≤ longest_software }
    {
        self.software.as_str()
    }
}

impl AttributeStaticType for Software {
    ghost TYPE = { record { 0 = software_kind } };

    const TYPE: AttributeType = registry::SOFTWARE;
}

impl Attribute for Software {
    ghost kind = { λ _. software_kind };

    ghost value = { λ a. a };

    fn get_type(&self) -> AttributeType {
        Software::TYPE
    }

    fn length(&self) -> u16 {
        self.software().len() as u16
    }
}

impl AttributeWrite for Software {
    ghost use Rattle.std.specs.Prelude.{false};

    ghost giving_takes_memory = { false };

    fn write_into_unchecked(&self, dest: &mut [u8]) {
        write_attribute(Software::TYPE, self.software().as_bytes(), dest);
    }

    fn to_raw(&self, _alloc: Global) -> Result<RawAttribute<'_>, NoMemory> {
        Ok(RawAttribute::new(Software::TYPE, self.software().as_bytes()))
    }
}

/// Decodes a text of at most 763 bytes.
///
/// # Errors
///
/// In this order:
///
/// - `WrongAttributeImplementation`: the type is another one.
/// - `TooLarge`: the value is longer.
/// - `InvalidAttributeData`: the value is not UTF-8.
/// - `NoMemory`: an allocation failed.
impl<'a> AttributeFromRaw<'a> for Software {
    ghost use Rattle.stun_types_write.specs.ValueReading.{text_read_refusal};

    ghost read_refusal = { text_read_refusal software_kind longest_software };

    ghost read_value = { λ value. value };

    fn from_raw_ref(alloc: Global, raw: &RawAttribute<'_>) -> Result<Software, StunParseError> {
        let text = text_of(raw, Software::TYPE, Software::MAX_LEN)?;
        Ok(Software {
            software: String::from_str(alloc, text)?,
        })
    }

    fn from_raw(alloc: Global, raw: RawAttribute<'a>) -> Result<Software, StunParseError> {
        Software::from_raw_ref(alloc, &raw)
    }

    fn proof_is_read_back(&self, _read: &Software) {
        proof_text_is_read(self.software(), Software::MAX_LEN);
    }
}
